//! What threads ask for at a condition variable, and what they are answered.
ghost use Rattle.std.specs.Prelude.{◌≡◌};
ghost use Rattle.parking_lot_machine_sides.specs.Condvar.Calls.{asking, is_of_all, is_timed};
ghost use Rattle.parking_lot_machine_sides.specs.Condvar.Machines.{has_number};

use crate::condvar::open_call::Core;
use parking_lot_protocol_waits::{NotifyCore, WaitCore};

/// A call at a condition variable. A wait says with which mutex, by its number.
#[derive(Clone, Copy, PartialEq, Eq, Debug)]
pub enum CondvarCall {
    /// Gives the mutex up, sleeps until it is notified, and locks the mutex again.
    Wait(u64),
    /// The same, with a deadline.
    WaitUntil(u64),
    /// Takes the first that waits.
    NotifyOne,
    /// Takes all that wait.
    NotifyAll,
}

/// What a call is answered.
#[derive(Clone, Copy, PartialEq, Eq, Debug)]
pub enum CondvarReply {
    /// It was notified, and owns its mutex again.
    Woken,
    /// Its deadline came while nobody had notified it, and it owns its mutex again.
    TimedOut,
    /// Others wait with another mutex. It did nothing, and owns its mutex still.
    WrongMutex,
    /// Whether somebody was taken.
    Flag(bool),
    /// How many were taken.
    Count(usize),
}

impl CondvarCall {
    /// Whether its deadline may come.
    pub fn is_timed(self) -> bool
        ensures { result ≡ is_timed self }
    {
        match self {
            CondvarCall::WaitUntil(_) => true,
            CondvarCall::Wait(_) | CondvarCall::NotifyOne | CondvarCall::NotifyAll => false,
        }
    }

    /// Whether it notifies all.
    pub fn is_of_all(self) -> bool
        ensures { result ≡ is_of_all self }
    {
        match self {
            CondvarCall::NotifyAll => true,
            CondvarCall::Wait(_) | CondvarCall::WaitUntil(_) | CondvarCall::NotifyOne => false,
        }
    }

    /// Whether the number of its mutex can be shown.
    pub(crate) fn has_number(self) -> bool
        ensures { result ≡ has_number self }
    {
        match self {
            CondvarCall::Wait(mutex) | CondvarCall::WaitUntil(mutex) => mutex < u64::MAX,
            CondvarCall::NotifyOne | CondvarCall::NotifyAll => true,
        }
    }

    /// Its core, before it begins.
    pub(crate) fn core(self) -> Core
        ensures { result ≡ asking self }
    {
        match self {
            CondvarCall::Wait(mutex) | CondvarCall::WaitUntil(mutex) => {
                Core::Wait(WaitCore::wait(mutex))
            }
            CondvarCall::NotifyOne => Core::Notify(NotifyCore::notify(false)),
            CondvarCall::NotifyAll => Core::Notify(NotifyCore::notify(true)),
        }
    }
}
