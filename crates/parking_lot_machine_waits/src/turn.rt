//! What a thread in a call at a condition variable does next.
ghost use Rattle.std.specs.Prelude.{◌≡◌};
ghost use Rattle.parking_lot_machine_waits.specs.Turns.{is_at_mutex, is_late, is_wait, mutex_of, notify_turn, turn_of};
ghost use Rattle.parking_lot_machine_waits.specs.Turns.{wait_turn, wakes_with};

use parking_lot_core_model::UnparkToken;
use parking_lot_machine::Core as RowCore;
use parking_lot_machine_sides::condvar::{CondvarCall, Core, OpenCall, Outside};
use parking_lot_protocol_waits::{NotifyPhase, WaitPhase};

/// What a thread in a call at a condition variable does next: at the variable, at the mutex, or at both.
#[derive(Clone, Copy, PartialEq, Eq, Debug)]
pub enum Turn {
    /// It sleeps in the variable's list.
    Sleeps,
    /// It makes an act at the variable.
    Acts,
    /// It leaves the variable's section, and begins to give its mutex up.
    GivesUp,
    /// It goes on giving its mutex up.
    Unlocks,
    /// It was taken off the list, and goes on at the mutex: it sleeps in its list, or asks for it.
    Follows,
    /// Its moment had passed before it was taken: it comes back into the mutex's list, where it stands.
    ComesBack,
    /// Its moment has passed. It leaves the variable's section, and begins to ask for the mutex.
    LocksAgain,
    /// It goes on asking for the mutex.
    Locks,
    /// It notifies: it takes waiters off the list, and wakes them or moves them to the mutex's.
    Moves,
    /// It hears that an act elsewhere is made: it has left the mutex's section, or whom it was to wake is awake.
    Hears,
}

/// What a wait does next that stands in the list, or was taken off it.
fn wait_turn(listed: bool, phase: WaitPhase) -> Turn
    ensures { result ≡ wait_turn listed phase }
{
    match phase {
        WaitPhase::Rests(_) => Turn::GivesUp,
        WaitPhase::Unlocks(_) => Turn::Unlocks,
        WaitPhase::Sleeps(_) if listed => Turn::Sleeps,
        WaitPhase::Sleeps(_) => Turn::Follows,
        WaitPhase::Expires(_) if listed => Turn::Acts,
        WaitPhase::Expires(_) => Turn::ComesBack,
        WaitPhase::Quits(_) if listed => Turn::Acts,
        WaitPhase::Quits(_) => Turn::Follows,
        WaitPhase::Leaves(true) => Turn::LocksAgain,
        WaitPhase::Locks(_) => Turn::Locks,
        WaitPhase::Resumes(_) => Turn::Hears,
        WaitPhase::Enters(_) | WaitPhase::Checks(_) | WaitPhase::Retreats => Turn::Acts,
        WaitPhase::Appends(_) | WaitPhase::Shows(_) => Turn::Acts,
        WaitPhase::Forgets | WaitPhase::Ends(_) => Turn::Acts,
        _ => Turn::Sleeps,
    }
}

/// What a notification does next.
fn notify_turn(phase: NotifyPhase) -> Turn
    ensures { result ≡ notify_turn phase }
{
    match phase {
        NotifyPhase::Marks(_) => Turn::Moves,
        NotifyPhase::MarksRest(_) | NotifyPhase::Wakes(_) => Turn::Hears,
        NotifyPhase::Loads(_) | NotifyPhase::Enters(_, _) => Turn::Acts,
        NotifyPhase::Checks(_, _) | NotifyPhase::Forgets(_) => Turn::Acts,
        NotifyPhase::Leaves(_) | NotifyPhase::Ends(_) => Turn::Acts,
        _ => Turn::Sleeps,
    }
}

/// What a thread in that call does next.
pub(crate) fn turn_of(call: &OpenCall) -> Turn
    ensures { result ≡ turn_of call.now }
{
    match call.core {
        Core::Wait(core) => wait_turn(call.listed, core.phase()),
        Core::Notify(core) => notify_turn(core.phase()),
    }
}

/// The number of the mutex that a wait is with.
pub(crate) fn mutex_of(call: CondvarCall) -> usize
    ensures { result ≡ mutex_of call }
{
    match call {
        CondvarCall::Wait(mutex) | CondvarCall::WaitUntil(mutex) => mutex as usize,
        CondvarCall::NotifyOne | CondvarCall::NotifyAll => 0,
    }
}

/// Whether it is a wait.
pub(crate) fn is_wait(call: CondvarCall) -> bool
    ensures { result ≡ is_wait call }
{
    match call {
        CondvarCall::Wait(_) | CondvarCall::WaitUntil(_) => true,
        CondvarCall::NotifyOne | CondvarCall::NotifyAll => false,
    }
}

/// Whether the moment has passed of a call at a mutex.
pub(crate) fn is_late(core: RowCore) -> bool
    ensures { result ≡ is_late core }
{
    match core {
        RowCore::Late(_) => true,
        RowCore::Mutex(_) | RowCore::Rw(_) | RowCore::Upgrade(_) | RowCore::LateRw(_) => false,
    }
}

/// Whether a call is at a mutex.
pub(crate) fn is_at_mutex(core: RowCore) -> bool
    ensures { result ≡ is_at_mutex core }
{
    match core {
        RowCore::Late(_) | RowCore::Mutex(_) => true,
        RowCore::Rw(_) | RowCore::Upgrade(_) | RowCore::LateRw(_) => false,
    }
}

/// What a waiter hears that was taken off the list, once it is awake.
pub(crate) fn wakes_with(core: Core, token: UnparkToken) -> Outside
    ensures { result ≡ wakes_with core token }
{
    match core {
        Core::Wait(core) => match core.phase() {
            WaitPhase::Quits(_) => Outside::WasTaken(token),
            _ => Outside::Woken(token),
        },
        Core::Notify(_) => Outside::Woken(token),
    }
}
