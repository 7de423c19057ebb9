//! The refusals of a desk.
ghost use Rattle.std.specs.Prelude.{◌≡◌};
ghost use Rattle.lock_api_desk.specs.Faults.{fault_code};

use lock_api_raw::NoMemory;
use std::error::Error;
use std::fmt;

/// Why a call on a desk is refused. A refused call changes nothing.
#[derive(Clone, Copy, Debug, PartialEq, Eq)]
pub enum DeskFault {
    /// A call that blocks isn't admitted now: code 1.
    WouldWait,
    /// A try isn't admitted now: code 2.
    Taken,
    /// No guard of this number is held or set aside: code 3.
    NoSuchGuard,
    /// The guard isn't held in the mode that the call is for: code 4.
    WrongMode,
    /// The guard is another party's: code 5.
    NotTheParty,
    /// As many readers as the limit allows are held: code 6.
    ReadersFull,
    /// The number of the new guard is held or set aside: code 7.
    GuardInUse,
    /// Room for one more guard was refused: code 99.
    NoMemory,
}

impl DeskFault {
    /// The number of the refusal.
    ///
    /// ```text
    /// let number = DeskFault::Taken.code();   // 2
    /// ```
    pub fn code(&self) -> u16
        ensures { result ≡ fault_code self.now }
    {
        match self {
            DeskFault::WouldWait => 1,
            DeskFault::Taken => 2,
            DeskFault::NoSuchGuard => 3,
            DeskFault::WrongMode => 4,
            DeskFault::NotTheParty => 5,
            DeskFault::ReadersFull => 6,
            DeskFault::GuardInUse => 7,
            DeskFault::NoMemory => 99,
        }
    }
}

impl fmt::Display for DeskFault {
    ghost use Rattle.std.specs.Prelude.{Some};
    ghost use Rattle.lock_api_desk.specs.Faults.{fault_name};

    ghost output = { λ fault. Some (fault_name fault) };

    fn fmt<W: fmt::Write>(&self, f: &mut fmt::Formatter<W>) -> fmt::Result {
        match self {
            DeskFault::WouldWait => f.write_str("WouldWait"),
            DeskFault::Taken => f.write_str("Taken"),
            DeskFault::NoSuchGuard => f.write_str("NoSuchGuard"),
            DeskFault::WrongMode => f.write_str("WrongMode"),
            DeskFault::NotTheParty => f.write_str("NotTheParty"),
            DeskFault::ReadersFull => f.write_str("ReadersFull"),
            DeskFault::GuardInUse => f.write_str("GuardInUse"),
            DeskFault::NoMemory => f.write_str("NoMemory"),
        }
    }
}

impl Error for DeskFault {}

impl From<NoMemory> for DeskFault {
    ghost use Rattle.std.specs.Prelude.{◌≡◌};
    ghost use Rattle.lock_api_desk.specs.declared.fault.DeskFault.TheVariants as fault;

    ghost from_gives = { λ _ r. r ≡ fault.NoMemory };

    fn from(_refused: NoMemory) -> DeskFault {
        DeskFault::NoMemory
    }
}

/// Where and why a list of calls was stopped.
#[derive(Clone, Copy, Debug, PartialEq, Eq)]
pub struct DeskRunFault {
    /// The place of the refused call, counted from 0.
    pub place: usize,
    /// Why it was refused.
    pub fault: DeskFault,
}

impl DeskRunFault {
    /// The number of the refusal.
    ///
    /// ```text
    /// let calls = vec![in rt.alloc(); DeskCall::Unlock(1, 10)]?;
    /// let number = match desk.run(calls) { Ok(()) => 0, Err(fault) => fault.code() };
    /// ```
    pub fn code(&self) -> u16
        ensures { result ≡ fault_code self.now.fault }
    {
        self.fault.code()
    }
}
