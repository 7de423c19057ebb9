//! Why a recorded call is refused.
ghost use Rattle.std.specs.Prelude.{◌≡◌};
ghost use Rattle.dashmap_record.specs.Faults.{record_fault_code};

use lock_api_raw::NoMemory;
use std::alloc::AllocError;
use std::error::Error;
use std::fmt;

/// Why a recorded call was refused. A refused call has changed nothing and written nothing down.
#[derive(Clone, Copy, Debug, PartialEq, Eq)]
pub enum RecordFault {
    /// There is no stamp above the caller's last and the shard's last: code 41.
    StampsSpent,
    /// The log, the history or the shard had to grow and couldn't: code 99.
    NoMemory,
}

impl RecordFault {
    /// The number of the refusal.
    ///
    /// ```text
    /// let number = RecordFault::StampsSpent.code();   // 41
    /// ```
    pub fn code(&self) -> u16
        ensures { result ≡ record_fault_code self.now }
    {
        match self {
            RecordFault::StampsSpent => 41,
            RecordFault::NoMemory => 99,
        }
    }
}

impl fmt::Display for RecordFault {
    ghost use Rattle.std.specs.Prelude.{Some};
    ghost use Rattle.dashmap_record.specs.Faults.{record_fault_name};

    ghost output = { λ fault. Some (record_fault_name fault) };

    fn fmt<W: fmt::Write>(&self, f: &mut fmt::Formatter<W>) -> fmt::Result {
        match self {
            RecordFault::StampsSpent => f.write_str("StampsSpent"),
            RecordFault::NoMemory => f.write_str("NoMemory"),
        }
    }
}

impl Error for RecordFault {}

impl From<NoMemory> for RecordFault {
    ghost use Rattle.std.specs.Prelude.{◌≡◌};
    ghost use Rattle.dashmap_record.specs.declared.fault.RecordFault.{RecordFault};

    ghost from_gives = { λ _ fault. fault ≡ RecordFault.NoMemory };

    fn from(_refused: NoMemory) -> RecordFault {
        RecordFault::NoMemory
    }
}

impl From<AllocError> for RecordFault {
    ghost use Rattle.std.specs.Prelude.{◌≡◌};
    ghost use Rattle.dashmap_record.specs.declared.fault.RecordFault.{RecordFault};

    ghost from_gives = { λ _ fault. fault ≡ RecordFault.NoMemory };

    fn from(_refused: AllocError) -> RecordFault {
        RecordFault::NoMemory
    }
}
