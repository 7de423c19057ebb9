//! The refusals of constructors and of a lot.
ghost use Rattle.std.specs.Prelude.{◌≡◌};
ghost use Rattle.parking_lot_core_model.specs.Faults.{size_fault_code, lot_fault_code};

use std::alloc::{AllocError, AllocFailed};
use std::error::Error;
use std::fmt;

/// Why a lot, or what stands on one, isn't made. They are tried in this order.
#[derive(Clone, Copy, Debug, PartialEq, Eq)]
pub enum SizeFault {
    /// A size is 0 or above its limit: code 20.
    BadSize,
    /// Memory was refused, and nothing is made: code 99.
    NoMemory,
}

impl SizeFault {
    /// The number of the refusal.
    pub fn code(&self) -> u16
        ensures { result ≡ size_fault_code self.now }
    {
        match self {
            SizeFault::BadSize => 20,
            SizeFault::NoMemory => 99,
        }
    }
}

impl fmt::Display for SizeFault {
    ghost use Rattle.std.specs.Prelude.{Some};
    ghost use Rattle.parking_lot_core_model.specs.Faults.{size_fault_name};

    ghost output = { λ fault. Some (size_fault_name fault) };

    fn fmt<W: fmt::Write>(&self, f: &mut fmt::Formatter<W>) -> fmt::Result {
        match self {
            SizeFault::BadSize => f.write_str("BadSize"),
            SizeFault::NoMemory => f.write_str("NoMemory"),
        }
    }
}

impl Error for SizeFault {}

impl From<AllocError> for SizeFault {
    ghost use Rattle.std.specs.Prelude.{◌≡◌};
    ghost use Rattle.parking_lot_core_model.specs.declared.fault.SizeFault.TheVariants.{NoMemory};

    ghost from_gives = { λ _ fault. fault ≡ NoMemory };

    fn from(_refused: AllocError) -> SizeFault {
        SizeFault::NoMemory
    }
}

/// Why a call on a lot is refused. It has changed nothing then.
#[derive(Clone, Copy, Debug, PartialEq, Eq)]
pub enum LotFault {
    /// All thread numbers are given out: code 11.
    TooManyThreads,
    /// The section that the call has to enter is open: code 12.
    Busy,
    /// The thread isn't registered, or stands where the call doesn't fit: code 13.
    WrongStatus,
    /// A growth was refused: code 99.
    NoMemory,
}

impl LotFault {
    /// The number of the refusal.
    pub fn code(&self) -> u16
        ensures { result ≡ lot_fault_code self.now }
    {
        match self {
            LotFault::TooManyThreads => 11,
            LotFault::Busy => 12,
            LotFault::WrongStatus => 13,
            LotFault::NoMemory => 99,
        }
    }
}

impl fmt::Display for LotFault {
    ghost use Rattle.std.specs.Prelude.{Some};
    ghost use Rattle.parking_lot_core_model.specs.Faults.{lot_fault_name};

    ghost output = { λ fault. Some (lot_fault_name fault) };

    fn fmt<W: fmt::Write>(&self, f: &mut fmt::Formatter<W>) -> fmt::Result {
        match self {
            LotFault::TooManyThreads => f.write_str("TooManyThreads"),
            LotFault::Busy => f.write_str("Busy"),
            LotFault::WrongStatus => f.write_str("WrongStatus"),
            LotFault::NoMemory => f.write_str("NoMemory"),
        }
    }
}

impl Error for LotFault {}

impl From<AllocError> for LotFault {
    ghost use Rattle.std.specs.Prelude.{◌≡◌};
    ghost use Rattle.parking_lot_core_model.specs.declared.fault.LotFault.TheVariants.{NoMemory};

    ghost from_gives = { λ _ fault. fault ≡ NoMemory };

    fn from(_refused: AllocError) -> LotFault {
        LotFault::NoMemory
    }
}

impl<T: Drop> From<AllocFailed<T>> for LotFault {
    ghost use Rattle.std.specs.Prelude.{◌≡◌};
    ghost use Rattle.parking_lot_core_model.specs.declared.fault.LotFault.TheVariants.{NoMemory};

    ghost from_gives = { λ _ fault. fault ≡ NoMemory };

    fn from(_refused: AllocFailed<T>) -> LotFault {
        LotFault::NoMemory
    }
}
