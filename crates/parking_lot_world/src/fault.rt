//! Why a run stops.
ghost use Rattle.std.specs.Prelude.{◌≡◌};
ghost use Rattle.parking_lot_world.specs.Faults.{refusal_code};

use std::error::Error;
use std::fmt;

/// Why a step isn't done. They are tried in this order.
#[derive(Clone, Copy, Debug, PartialEq, Eq)]
pub enum WorldRefusal {
    /// The thread's number isn't below the number of threads: code 61.
    NoSuchThread,
    /// The step isn't allowed now: code 62.
    CannotMove,
}

impl WorldRefusal {
    /// The number of the refusal.
    pub fn code(&self) -> u16
        ensures { result ≡ refusal_code self.now }
    {
        match self {
            WorldRefusal::NoSuchThread => 61,
            WorldRefusal::CannotMove => 62,
        }
    }
}

impl fmt::Display for WorldRefusal {
    ghost use Rattle.std.specs.Prelude.{Some};
    ghost use Rattle.parking_lot_world.specs.Faults.{refusal_name};

    ghost output = { λ refusal. Some (refusal_name refusal) };

    fn fmt<W: fmt::Write>(&self, f: &mut fmt::Formatter<W>) -> fmt::Result {
        match self {
            WorldRefusal::NoSuchThread => f.write_str("NoSuchThread"),
            WorldRefusal::CannotMove => f.write_str("CannotMove"),
        }
    }
}

impl Error for WorldRefusal {}

/// Where and why a run stopped.
#[derive(Clone, Copy, Debug, PartialEq, Eq)]
pub struct WorldFault {
    /// How many steps of the run were done. They stay done.
    pub done: u64,
    /// Why the next wasn't.
    pub fault: WorldRefusal,
}

impl WorldFault {
    /// The number of the refusal.
    pub fn code(&self) -> u16
        ensures { result ≡ refusal_code self.now.fault }
    {
        self.fault.code()
    }
}

impl fmt::Display for WorldFault {
    ghost use Rattle.std.specs.Prelude.{Some};
    ghost use Rattle.parking_lot_world.specs.Faults.{refusal_name};

    ghost output = { λ fault. Some (refusal_name fault.fault) };

    fn fmt<W: fmt::Write>(&self, f: &mut fmt::Formatter<W>) -> fmt::Result {
        self.fault.fmt(f)
    }
}

impl Error for WorldFault {}
