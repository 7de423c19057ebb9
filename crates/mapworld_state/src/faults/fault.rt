//! Why a world isn't made, and why a run stops.
ghost use Rattle.std.specs.Prelude.{◌≡◌};
ghost use Rattle.mapworld_state.specs.Faults.Faults.{new_fault_code, new_fault_name, run_fault_code, run_fault_done};
ghost use Rattle.mapworld_state.specs.Faults.Faults.{run_fault_name};

use std::alloc::{AllocError, AllocFailed};
use std::error::Error;
use std::fmt;

/// Why a world isn't made. The refusals are tried in this order; nothing is made, and what was handed in is let go.
#[derive(Clone, Copy, Debug, PartialEq, Eq)]
pub enum WorldNewFault {
    /// The amount of shards isn't a power of two from 2 to 4,096: code 31.
    BadShards,
    /// There are no programs, or more than 256: code 11.
    TooManyThreads,
    /// All programs together have more than 2^20 calls: code 51.
    TooManyCalls,
    /// There are more than 2^31 pairs: code 52.
    TooManyPairs,
    /// A program asks for something while it holds a guard, or doesn't drop it: code 53.
    AsksWhileHolding,
    /// The programs take 2^32 guard numbers or more: code 54.
    NoGuardNumbers,
    /// Room was refused: code 99.
    NoMemory,
}

impl WorldNewFault {
    /// The number of the fault.
    pub fn code(&self) -> u16
        ensures { result ≡ new_fault_code self.now }
    {
        match self {
            WorldNewFault::BadShards => 31,
            WorldNewFault::TooManyThreads => 11,
            WorldNewFault::TooManyCalls => 51,
            WorldNewFault::TooManyPairs => 52,
            WorldNewFault::AsksWhileHolding => 53,
            WorldNewFault::NoGuardNumbers => 54,
            WorldNewFault::NoMemory => 99,
        }
    }

    /// The fault's name, as `Display` writes it.
    pub fn name(&self) -> &'static str
        ensures { result.now ≡ new_fault_name self.now }
    {
        match self {
            WorldNewFault::BadShards => "BadShards",
            WorldNewFault::TooManyThreads => "TooManyThreads",
            WorldNewFault::TooManyCalls => "TooManyCalls",
            WorldNewFault::TooManyPairs => "TooManyPairs",
            WorldNewFault::AsksWhileHolding => "AsksWhileHolding",
            WorldNewFault::NoGuardNumbers => "NoGuardNumbers",
            WorldNewFault::NoMemory => "NoMemory",
        }
    }
}

impl fmt::Display for WorldNewFault {
    ghost use Rattle.std.specs.Prelude.{Some};
    ghost use Rattle.mapworld_state.specs.Faults.Faults.{new_fault_name};

    ghost output = { λ fault. Some (new_fault_name fault) };

    fn fmt<W: fmt::Write>(&self, f: &mut fmt::Formatter<W>) -> fmt::Result {
        f.write_str(self.name())
    }
}

impl Error for WorldNewFault {}

impl From<AllocError> for WorldNewFault {
    ghost use Rattle.mapworld_state.specs.declared.faults.fault.WorldNewFault.TheVariants.{NoMemory as out_of_memory};
    ghost use Rattle.std.specs.Prelude.{◌≡◌};

    ghost from_gives = { λ _ fault. fault ≡ out_of_memory };

    fn from(_refused: AllocError) -> WorldNewFault {
        WorldNewFault::NoMemory
    }
}

impl<T: Drop> From<AllocFailed<T>> for WorldNewFault {
    ghost use Rattle.mapworld_state.specs.declared.faults.fault.WorldNewFault.TheVariants.{NoMemory as out_of_memory};
    ghost use Rattle.std.specs.Prelude.{◌≡◌};

    ghost from_gives = { λ _ fault. fault ≡ out_of_memory };

    fn from(_refused: AllocFailed<T>) -> WorldNewFault {
        WorldNewFault::NoMemory
    }
}

/// Why `MapWorld::run` stopped before the end of its steps. Each case has the number of steps of that run that were
/// done, and they stay done. At each step the refusals are tried in this order.
#[derive(Clone, Copy, Debug, PartialEq, Eq)]
pub enum RunFault {
    /// The thread's number isn't below the number of programs: code 61.
    NoSuchThread(u64),
    /// The thread is finished, asleep, or before a queue's section that another thread has entered; or the step is its
    /// deadline, and it doesn't sleep in a call that has one, or that has come before: code 62.
    CannotMove(u64),
    /// Step numbers run short: those of this step and of all that may have to come after it would pass 2^63: code 63.
    StepsShort(u64),
}

impl RunFault {
    /// The number of the fault.
    pub fn code(&self) -> u16
        ensures { result ≡ run_fault_code self.now }
    {
        match self {
            RunFault::NoSuchThread(_) => 61,
            RunFault::CannotMove(_) => 62,
            RunFault::StepsShort(_) => 63,
        }
    }

    /// How many steps were done.
    pub fn done(&self) -> u64
        ensures { result ≡ run_fault_done self.now }
    {
        match self {
            RunFault::NoSuchThread(done) => *done,
            RunFault::CannotMove(done) => *done,
            RunFault::StepsShort(done) => *done,
        }
    }

    /// The fault's name, as `Display` writes it.
    pub fn name(&self) -> &'static str
        ensures { result.now ≡ run_fault_name self.now }
    {
        match self {
            RunFault::NoSuchThread(_) => "NoSuchThread",
            RunFault::CannotMove(_) => "CannotMove",
            RunFault::StepsShort(_) => "StepsShort",
        }
    }
}

impl fmt::Display for RunFault {
    ghost use Rattle.std.specs.Prelude.{Some};
    ghost use Rattle.mapworld_state.specs.Faults.Faults.{run_fault_name};

    ghost output = { λ fault. Some (run_fault_name fault) };

    fn fmt<W: fmt::Write>(&self, f: &mut fmt::Formatter<W>) -> fmt::Result {
        f.write_str(self.name())
    }
}

impl Error for RunFault {}
