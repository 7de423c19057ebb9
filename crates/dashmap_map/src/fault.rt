//! The refusals of the running map that plain shards don't have.
ghost use Rattle.std.specs.Prelude.{◌≡◌};
ghost use Rattle.dashmap_map.specs.Faults.{new_fault_code, until_code, until_pair};

use dashmap_table::MapFault;
use std::error::Error;
use std::fmt;

/// Room could not be had. It has no number.
#[derive(Clone, PartialEq, Eq, Debug, Drop)]
pub struct TryReserveError {}

/// Why a constructor that makes its own hasher makes no map. What was handed in is let go.
#[derive(Clone, Copy, Debug, PartialEq, Eq)]
pub enum NewFault {
    /// As the constructors that take a hasher.
    Map(MapFault),
    /// The runtime gave no random words: code 36. It comes before want of memory, and after every other refusal.
    NoRandom,
}

impl NewFault {
    /// The number of the refusal.
    ///
    /// ```text
    /// if let Err(fault) = made { return Err(fault.code()); }
    /// ```
    pub fn code(&self) -> u16
        ensures { result ≡ new_fault_code self.now }
    {
        match self {
            NewFault::Map(fault) => fault.code(),
            NewFault::NoRandom => 36,
        }
    }
}

impl From<MapFault> for NewFault {
    ghost use Rattle.std.specs.Prelude.{◌≡◌};
    ghost use Rattle.dashmap_map.specs.declared.fault.NewFault.{NewFault};

    ghost from_gives = { λ fault made. made ≡ NewFault.Map fault };

    fn from(fault: MapFault) -> NewFault {
        NewFault::Map(fault)
    }
}

impl fmt::Display for NewFault {
    ghost use Rattle.std.specs.Prelude.{Some};
    ghost use Rattle.dashmap_map.specs.Faults.{new_fault_name};

    ghost output = { λ fault. Some (new_fault_name fault) };

    fn fmt<W: fmt::Write>(&self, f: &mut fmt::Formatter<W>) -> fmt::Result {
        match self {
            NewFault::Map(fault) => fmt::Display::fmt(fault, f),
            NewFault::NoRandom => f.write_str("NoRandom"),
        }
    }
}

impl Error for NewFault {}

/// Why a call that waits up to a moment stored nothing. It holds what was handed in.
#[derive(Clone, Copy, Debug, PartialEq, Eq)]
pub enum UntilFault<P> {
    /// The wait for the shard was given up: code 35.
    Locked(P),
    /// The shard would have to grow for a new key and can't: code 99.
    NoMemory(P),
}

impl<P> UntilFault<P> {
    /// The number of the refusal.
    ///
    /// ```text
    /// if let Err(fault) = map.insert_until(7, 70, soon, &clock, &mut me) { print(rt, fault.code())?; } // 35, or 99
    /// ```
    pub fn code(&self) -> u16
        ensures { result ≡ until_code self.now }
    {
        match self {
            UntilFault::Locked(_) => 35,
            UntilFault::NoMemory(_) => 99,
        }
    }

    /// What was handed in.
    ///
    /// ```text
    /// let (key, value) = fault.into_pair();   // to be put in later
    /// ```
    pub fn into_pair(self) -> P
        ensures { result ≡ until_pair self }
    {
        match self {
            UntilFault::Locked(back) | UntilFault::NoMemory(back) => back,
        }
    }
}

impl<P> fmt::Display for UntilFault<P> {
    ghost use Rattle.std.specs.Prelude.{Some};
    ghost use Rattle.dashmap_map.specs.Faults.{until_name};

    ghost output = { λ fault. Some (until_name fault) };

    fn fmt<W: fmt::Write>(&self, f: &mut fmt::Formatter<W>) -> fmt::Result {
        f.write_str(match self {
            UntilFault::Locked(_) => "Locked",
            UntilFault::NoMemory(_) => "NoMemory",
        })
    }
}

impl<P: fmt::Debug + Drop> Error for UntilFault<P> {}
