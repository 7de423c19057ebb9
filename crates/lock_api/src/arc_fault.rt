//! The refusals of the Arc forms of a reentrant mutex.
ghost use Rattle.std.specs.Prelude.{◌≡◌};
ghost use Rattle.lock_api.specs.Faults.{arc_fault_code};

use lock_api_raw::ReadersFull;
use std::alloc::AllocError;
use std::error::Error;
use std::fmt;

/// Why an Arc form of a reentrant mutex is refused. The refusals are tried in this order, as the Arc is cloned first.
#[derive(Clone, Copy, Debug, PartialEq, Eq)]
pub enum ReentrantArcFault {
    /// The Arc could not be cloned: code 99.
    NoMemory,
    /// The count of nested holds is full: code 6.
    ReadersFull,
}

impl ReentrantArcFault {
    /// The number of the refusal.
    ///
    /// ```text
    /// let number = lock_api::ReentrantArcFault::ReadersFull.code();   // 6
    /// ```
    pub fn code(&self) -> u16
        ensures { result ≡ arc_fault_code self.now }
    {
        match self {
            ReentrantArcFault::NoMemory => 99,
            ReentrantArcFault::ReadersFull => 6,
        }
    }
}

impl fmt::Display for ReentrantArcFault {
    ghost use Rattle.std.specs.Prelude.{Some};
    ghost use Rattle.lock_api.specs.Faults.{arc_fault_name};

    ghost output = { λ fault. Some (arc_fault_name fault) };

    fn fmt<W: fmt::Write>(&self, f: &mut fmt::Formatter<W>) -> fmt::Result {
        match self {
            ReentrantArcFault::NoMemory => f.write_str("NoMemory"),
            ReentrantArcFault::ReadersFull => f.write_str("ReadersFull"),
        }
    }
}

impl Error for ReentrantArcFault {}

impl From<AllocError> for ReentrantArcFault {
    ghost use Rattle.lock_api.specs.declared.arc_fault.ReentrantArcFault.TheVariants as fault;

    ghost from_gives = { λ _ r. r ≡ fault.NoMemory };

    fn from(_refused: AllocError) -> ReentrantArcFault {
        ReentrantArcFault::NoMemory
    }
}

impl From<ReadersFull> for ReentrantArcFault {
    ghost use Rattle.lock_api.specs.declared.arc_fault.ReentrantArcFault.TheVariants as fault;

    ghost from_gives = { λ _ r. r ≡ fault.ReadersFull };

    fn from(_full: ReadersFull) -> ReentrantArcFault {
        ReentrantArcFault::ReadersFull
    }
}
