//! The refusals that all locks share.
ghost use Rattle.std.specs.Prelude.{◌≡◌};
ghost use Rattle.lock_api_raw.specs.Faults.{wait_fault_code};

use std::alloc::{AllocError, AllocFailed};
use std::error::Error;
use std::fmt;

/// The place that a lock is made from has no row left: code 21. Constructors of locks answer it.
#[derive(Clone, Copy, Debug, PartialEq, Eq)]
pub struct TableFull;

impl TableFull {
    /// The number of the refusal.
    ///
    /// ```text
    /// let number = TableFull.code();   // 21
    /// ```
    pub fn code(&self) -> u16
        ensures { result ≡ 21 }
    {
        21
    }
}

impl fmt::Display for TableFull {
    ghost use Rattle.std.specs.Prelude.{Some, codes};

    ghost output = { λ _. Some (codes "TableFull") };

    fn fmt<W: fmt::Write>(&self, f: &mut fmt::Formatter<W>) -> fmt::Result {
        f.write_str("TableFull")
    }
}

impl Error for TableFull {}

/// A limit on holds is reached: code 6. A reentrant mutex answers it when its count is full.
#[derive(Clone, Copy, Debug, PartialEq, Eq)]
pub struct ReadersFull;

impl ReadersFull {
    /// The number of the refusal.
    ///
    /// ```text
    /// let number = ReadersFull.code();   // 6
    /// ```
    pub fn code(&self) -> u16
        ensures { result ≡ 6 }
    {
        6
    }
}

impl fmt::Display for ReadersFull {
    ghost use Rattle.std.specs.Prelude.{Some, codes};

    ghost output = { λ _. Some (codes "ReadersFull") };

    fn fmt<W: fmt::Write>(&self, f: &mut fmt::Formatter<W>) -> fmt::Result {
        f.write_str("ReadersFull")
    }
}

impl Error for ReadersFull {}

/// A growth was refused: code 99. The call that answers it has changed nothing.
#[derive(Clone, Copy, Debug, PartialEq, Eq)]
pub struct NoMemory;

impl NoMemory {
    /// The number of the refusal.
    ///
    /// ```text
    /// let number = NoMemory.code();   // 99
    /// ```
    pub fn code(&self) -> u16
        ensures { result ≡ 99 }
    {
        99
    }
}

impl fmt::Display for NoMemory {
    ghost use Rattle.std.specs.Prelude.{Some, codes};

    ghost output = { λ _. Some (codes "NoMemory") };

    fn fmt<W: fmt::Write>(&self, f: &mut fmt::Formatter<W>) -> fmt::Result {
        f.write_str("NoMemory")
    }
}

impl Error for NoMemory {}

impl From<AllocError> for NoMemory {
    ghost use Rattle.std.specs.Prelude.{⊤};

    ghost from_gives = { λ _ _. ⊤ };

    fn from(_refused: AllocError) -> NoMemory {
        NoMemory
    }
}

impl<T: Drop> From<AllocFailed<T>> for NoMemory {
    ghost use Rattle.std.specs.Prelude.{⊤};

    ghost from_gives = { λ _ _. ⊤ };

    fn from(_refused: AllocFailed<T>) -> NoMemory {
        NoMemory
    }
}

/// Why a wait on a condition variable isn't begun. They are tried in this order, and the mutex is still locked.
#[derive(Clone, Copy, Debug, PartialEq, Eq)]
pub enum WaitFault {
    /// Other threads wait on this condition variable with another mutex: code 23.
    WrongMutex,
    /// The mutex belongs to another lot than the condition variable: code 22.
    WrongLot,
}

impl WaitFault {
    /// The number of the refusal.
    ///
    /// ```text
    /// let number = WaitFault::WrongMutex.code();   // 23
    /// ```
    pub fn code(&self) -> u16
        ensures { result ≡ wait_fault_code self.now }
    {
        match self {
            WaitFault::WrongMutex => 23,
            WaitFault::WrongLot => 22,
        }
    }
}

impl fmt::Display for WaitFault {
    ghost use Rattle.std.specs.Prelude.{Some};
    ghost use Rattle.lock_api_raw.specs.Faults.{wait_fault_name};

    ghost output = { λ fault. Some (wait_fault_name fault) };

    fn fmt<W: fmt::Write>(&self, f: &mut fmt::Formatter<W>) -> fmt::Result {
        match self {
            WaitFault::WrongMutex => f.write_str("WrongMutex"),
            WaitFault::WrongLot => f.write_str("WrongLot"),
        }
    }
}

impl Error for WaitFault {}
