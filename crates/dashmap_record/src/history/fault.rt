//! Why histories and logs don't belong together.
ghost use Rattle.std.specs.Prelude.{◌≡◌};
ghost use Rattle.dashmap_record.specs.History.Faults.{gather_fault_code};

use lock_api_raw::NoMemory;
use std::alloc::AllocError;
use std::error::Error;
use std::fmt;

/// Why histories and logs aren't gathered. The faults are looked for in this order, each over all histories and logs;
/// want of memory may come at any point.
#[derive(Clone, Copy, Debug, PartialEq, Eq)]
pub enum GatherFault {
    /// The stamps of a log or of a history don't rise strictly: code 42.
    StampOrder,
    /// A history's entry isn't in the log of its caller: code 43.
    NotInLog,
    /// A log's entry isn't in the history of its shard, or names another caller: code 44.
    NotInHistory,
    /// An entry's shard isn't the one whose history has it, or isn't the route of its hash: code 45.
    WrongShard,
    /// An entry's hash isn't the hasher's hash of its key: code 46.
    WrongHash,
    /// A history's calls, made one after another on an empty map, give other replies: code 47.
    WrongReply,
    /// A growth was refused: code 99.
    NoMemory,
}

impl GatherFault {
    /// The number of the fault.
    ///
    /// ```text
    /// let number = GatherFault::WrongReply.code();   // 47
    /// ```
    pub fn code(&self) -> u16
        ensures { result ≡ gather_fault_code self.now }
    {
        match self {
            GatherFault::StampOrder => 42,
            GatherFault::NotInLog => 43,
            GatherFault::NotInHistory => 44,
            GatherFault::WrongShard => 45,
            GatherFault::WrongHash => 46,
            GatherFault::WrongReply => 47,
            GatherFault::NoMemory => 99,
        }
    }
}

impl fmt::Display for GatherFault {
    ghost use Rattle.std.specs.Prelude.{Some};
    ghost use Rattle.dashmap_record.specs.History.Faults.{gather_fault_name};

    ghost output = { λ fault. Some (gather_fault_name fault) };

    fn fmt<W: fmt::Write>(&self, f: &mut fmt::Formatter<W>) -> fmt::Result {
        match self {
            GatherFault::StampOrder => f.write_str("StampOrder"),
            GatherFault::NotInLog => f.write_str("NotInLog"),
            GatherFault::NotInHistory => f.write_str("NotInHistory"),
            GatherFault::WrongShard => f.write_str("WrongShard"),
            GatherFault::WrongHash => f.write_str("WrongHash"),
            GatherFault::WrongReply => f.write_str("WrongReply"),
            GatherFault::NoMemory => f.write_str("NoMemory"),
        }
    }
}

impl Error for GatherFault {}

impl From<NoMemory> for GatherFault {
    ghost use Rattle.std.specs.Prelude.{◌≡◌};
    ghost use Rattle.dashmap_record.specs.declared.history.fault.GatherFault.{GatherFault};

    ghost from_gives = { λ _ fault. fault ≡ GatherFault.NoMemory };

    fn from(_refused: NoMemory) -> GatherFault {
        GatherFault::NoMemory
    }
}

impl From<AllocError> for GatherFault {
    ghost use Rattle.std.specs.Prelude.{◌≡◌};
    ghost use Rattle.dashmap_record.specs.declared.history.fault.GatherFault.{GatherFault};

    ghost from_gives = { λ _ fault. fault ≡ GatherFault.NoMemory };

    fn from(_refused: AllocError) -> GatherFault {
        GatherFault::NoMemory
    }
}
