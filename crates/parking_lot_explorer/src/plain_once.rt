//! A once whose calls are made whole, one after another: what all schedules have to come to.

use crate::callers::{Caller, Calls, callers_of};
use crate::plain::Plain;
use crate::thread_ends::{Ends, ThreadEnd};
use crate::three::Three;
use parking_lot_world::{LockAnswer, LockCall, OnceState};

/// A once, and what a call at it is answered that is made whole.
type Made = Option<(OnceState, LockAnswer)>;

/// A closure is run, that is handed this state.
fn ran(well: bool, before: OnceState) -> Made {
    if well {
        Some((OnceState::Done, LockAnswer::Ran(before)))
    } else {
        Some((OnceState::Poisoned, LockAnswer::Failed))
    }
}

/// What a call leaves of a new once.
fn made_at_new(call: LockCall) -> Made {
    match call {
        LockCall::CallOnce(well) => ran(well, OnceState::New),
        LockCall::CallOnceForce(well) => ran(well, OnceState::New),
        _ => None,
    }
}

/// What a call leaves of a poisoned once.
fn made_at_poisoned(call: LockCall) -> Made {
    match call {
        LockCall::CallOnceForce(well) => ran(well, OnceState::Poisoned),
        LockCall::CallOnce(_) => Some((OnceState::Poisoned, LockAnswer::Poisoned)),
        LockCall::OnceWait => Some((OnceState::Poisoned, LockAnswer::Poisoned)),
        _ => None,
    }
}

/// What a call leaves of a once in that state, and its answer; `None` where it has to wait, as all have to while a
/// closure runs.
fn made(call: LockCall, state: OnceState) -> Made {
    match state {
        OnceState::InProgress => None,
        OnceState::Done => Some((OnceState::Done, LockAnswer::Completed)),
        OnceState::New => made_at_new(call),
        OnceState::Poisoned => made_at_poisoned(call),
    }
}

/// Whether a call has to wait at that state.
pub fn waits(call: LockCall, state: OnceState) -> bool {
    made(call, state).is_none()
}

/// What threads have been answered in the end.
pub fn ends_of(callers: Three<Caller>) -> Ends {
    Ends {
        threads: Three(
            ThreadEnd::answered(callers.0.answers),
            ThreadEnd::answered(callers.1.answers),
            ThreadEnd::answered(callers.2.answers),
        ),
        order: [None; 3],
    }
}

/// A once, and three threads between their calls.
#[derive(Clone, Copy, PartialEq)]
pub struct PlainOnce {
    state: OnceState,
    callers: Three<Caller>,
}

impl PlainOnce {
    /// Before the first call.
    pub fn of(programs: Three<Calls>) -> PlainOnce {
        PlainOnce {
            state: OnceState::New,
            callers: callers_of(programs),
        }
    }
}

impl Plain for PlainOnce {
    type End = Ends;

    fn after(self, thread: usize) -> Option<PlainOnce> {
        let caller = self.callers.of(thread).begun();
        let (state, answer) = made(caller.open?.call, self.state)?;
        let callers = self.callers.with(thread, caller.answered(answer));
        Some(PlainOnce { state, callers })
    }

    fn ends_as(self) -> Ends {
        ends_of(self.callers)
    }
}
