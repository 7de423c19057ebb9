//! Where calls at a condition variable and at a once stand.

use parking_lot_machine_sides::condvar::Core;
use parking_lot_protocol_waits::once::OncePhase;
use parking_lot_protocol_waits::{NotifyPhase, WaitPhase};
use parking_lot_world::{OnceCall, OnceState, World};

/// Where a call at a condition variable stands.
#[derive(Clone, Copy, PartialEq)]
pub(crate) enum AtVariable {
    /// A wait, and whether nobody has taken it off the list.
    Waits(WaitPhase, bool),
    /// A notification, and how many it has taken.
    Notifies(NotifyPhase, usize),
}

impl AtVariable {
    pub(crate) fn of(world: &World, thread: usize) -> Option<AtVariable> {
        let waits = world.waits();
        let call = waits.call_at(waits.seat(thread).at?, thread)?;
        Some(match call.core {
            Core::Wait(core) => AtVariable::Waits(core.phase(), call.listed),
            Core::Notify(core) => AtVariable::Notifies(core.phase(), call.taken),
        })
    }

    /// Whether its next step is seen by nobody else.
    pub(crate) fn is_alone(self) -> bool {
        match self {
            AtVariable::Waits(phase, _) => matches!(
                phase,
                WaitPhase::Checks(_) | WaitPhase::Resumes(_) | WaitPhase::Ends(_)
            ),
            AtVariable::Notifies(phase, _) => matches!(
                phase,
                NotifyPhase::Checks(..)
                    | NotifyPhase::MarksRest(_)
                    | NotifyPhase::Wakes(_)
                    | NotifyPhase::Ends(_)
            ),
        }
    }

    /// A number that few others share.
    pub(crate) fn number(self) -> u64 {
        match self {
            AtVariable::Waits(phase, true) => number_of_wait(phase),
            AtVariable::Waits(phase, false) => number_of_wait(phase).wrapping_add(20),
            AtVariable::Notifies(phase, _) => number_of_notification(phase),
        }
    }
}

fn number_of_wait(phase: WaitPhase) -> u64 {
    match phase {
        WaitPhase::Enters(_) => 1,
        WaitPhase::Checks(_) => 2,
        WaitPhase::Retreats => 3,
        WaitPhase::Appends(_) => 4,
        WaitPhase::Shows(_) => 5,
        WaitPhase::Rests(_) => 6,
        WaitPhase::Unlocks(_) => 7,
        WaitPhase::Sleeps(_) => 8,
        WaitPhase::Expires(_) => 9,
        WaitPhase::Quits(_) => 10,
        WaitPhase::Forgets => 11,
        WaitPhase::Leaves(_) => 12,
        WaitPhase::Locks(false) => 13,
        WaitPhase::Locks(true) => 14,
        WaitPhase::Resumes(_) => 15,
        _ => 16,
    }
}

fn number_of_notification(phase: NotifyPhase) -> u64 {
    match phase {
        NotifyPhase::Loads(_) => 41,
        NotifyPhase::Enters(..) => 42,
        NotifyPhase::Checks(..) => 43,
        NotifyPhase::Marks(_) => 44,
        NotifyPhase::MarksRest(_) => 45,
        NotifyPhase::Forgets(_) => 46,
        NotifyPhase::Leaves(_) => 47,
        NotifyPhase::Wakes(_) => 48,
        _ => 49,
    }
}

/// Where a call at a once stands.
#[derive(Clone, Copy, PartialEq)]
pub(crate) struct AtOnce {
    call: OnceCall,
    phase: OncePhase,
    pub(crate) taker: Option<usize>,
    before: OnceState,
    woken: bool,
}

impl AtOnce {
    pub(crate) fn of(world: &World, thread: usize) -> Option<AtOnce> {
        let open = world.onces().call(thread)?;
        Some(AtOnce {
            call: open.call,
            phase: open.core.phase(),
            taker: open.taker,
            before: open.before,
            woken: open.woken,
        })
    }

    /// Whether its next step is seen by nobody else.
    pub(crate) fn is_alone(self) -> bool {
        matches!(
            self.phase,
            OncePhase::Spins(..) | OncePhase::Finishes | OncePhase::Ends(..)
        )
    }

    /// A number that few others share.
    pub(crate) fn number(self) -> u64 {
        match self.phase {
            OncePhase::Loads(seeking) => u64::from(seeking.rounds) + 1,
            OncePhase::Spins(seeking, _) => u64::from(seeking.rounds) + 20,
            OncePhase::Starts(..) => 40,
            OncePhase::Parks(..) => 41,
            OncePhase::Enters(_) => 42,
            OncePhase::Checks(_) => 43,
            OncePhase::Appends(_) => 44,
            OncePhase::Rests(_) => 45,
            OncePhase::Sleeps(_) => 46,
            OncePhase::Scans(..) => 47,
            OncePhase::Wakes(_) => 48,
            _ => 49,
        }
    }
}
