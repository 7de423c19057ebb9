//! What has to hold at a once whatever the schedule: of every state, of every step, and where no step is left.

use parking_lot_explorer::{Caller, LockShown, Three, WorldState, first_broken, waits};
use parking_lot_protocol_waits::once::state_of;
use parking_lot_world::{LockAnswer, LockCall, OnceState};

/// A state: how far the threads are, and what is shown.
#[derive(Clone, Copy)]
pub struct Moment<'w> {
    pub callers: Three<Caller>,
    pub world: &'w WorldState,
}

impl<'w> Moment<'w> {
    fn once(self) -> &'w LockShown {
        let [once, _, _] = &self.world.locks;
        once
    }

    pub fn state(self) -> OnceState {
        state_of(self.once().word)
    }

    /// The word is one of eight numbers.
    fn has_number(self) -> bool {
        matches!(self.once().word, 0 | 1 | 2 | 4 | 8 | 9 | 10 | 12)
    }

    /// A list that isn't empty has its parked bit.
    fn has_parked_bit(self) -> bool {
        self.once().first.is_empty() || self.once().word >= 8
    }

    /// A thread stands in that list once at most, and only in a call.
    fn has_callers(self, list: &[usize], thread: usize) -> bool {
        match WorldState::times(list, thread) {
            0 => true,
            1 => self.callers.of(thread).open.is_some(),
            _ => false,
        }
    }

    /// Whether its call has to wait at this state.
    fn must_wait(self, thread: usize) -> bool {
        match self.callers.of(thread).open {
            Some(asked) => waits(asked.call, self.state()),
            None => false,
        }
    }

    /// Each that stands in the list has to wait, or somebody is in debt.
    fn forgets_nobody(self) -> bool {
        let all_wait = self
            .once()
            .first
            .iter()
            .all(|thread| self.must_wait(*thread));
        !self.world.debts.is_empty() || all_wait
    }

    /// A thread without a further step has made all its calls, or sleeps where it has to wait.
    fn has_ended(self, thread: usize) -> bool {
        let caller = self.callers.of(thread);
        match caller.open {
            Some(_) => self.must_wait(thread) && self.once().first.contains(&thread),
            None => caller.next().is_none(),
        }
    }

    /// The word has the parked bit where somebody waits, and only there.
    fn is_at_rest(self) -> bool {
        self.world.debts.is_empty()
            && self.state() != OnceState::InProgress
            && (self.once().word >= 8) != self.once().first.is_empty()
    }
}

fn broken_by_thread(at: Moment<'_>, thread: usize) -> Option<&'static str> {
    first_broken(&[
        (
            at.has_callers(at.once().first.as_slice(), thread),
            "who waits is in a call, and stands in the list once",
        ),
        (
            at.has_callers(at.world.debts.as_slice(), thread),
            "who is in debt is in a call",
        ),
        (
            at.world.answer(thread) == at.callers.of(thread).last(),
            "a thread is shown what its last call was answered",
        ),
    ])
}

fn broken_by_once(at: Moment<'_>) -> Option<&'static str> {
    first_broken(&[
        (at.has_number(), "the word has a number of its state"),
        (
            at.has_parked_bit(),
            "a list that isn't empty has its parked bit",
        ),
        (at.once().owners.is_empty(), "nobody owns a once"),
        (at.once().second.is_empty(), "a once has one list"),
        (
            at.forgets_nobody(),
            "somebody is in debt where one waits that hasn't to",
        ),
    ])
}

pub fn broken_by_state(at: Moment<'_>) -> Option<&'static str> {
    broken_by_once(at)
        .or(broken_by_thread(at, 0))
        .or(broken_by_thread(at, 1))
        .or(broken_by_thread(at, 2))
}

/// Whether one step may make that state of the other.
fn may_become(before: OnceState, behind: OnceState) -> bool {
    match before {
        OnceState::New | OnceState::Poisoned => behind == before || behind == OnceState::InProgress,
        OnceState::InProgress => behind != OnceState::New,
        OnceState::Done => behind == OnceState::Done,
    }
}

/// Whether a call isn't refused where the last closure has failed.
fn is_forced(call: LockCall) -> bool {
    matches!(call, LockCall::CallOnceForce(_) | LockCall::OnceWaitForce)
}

/// Whether a call has a closure that ends so.
fn ends_so(call: LockCall, well: bool) -> bool {
    call == LockCall::CallOnce(well) || call == LockCall::CallOnceForce(well)
}

/// Whether a call may be answered so, at that state, and where it has met a poisoned one or not.
fn may_be_answered(call: LockCall, answer: LockAnswer, met: bool, state: OnceState) -> bool {
    match answer {
        LockAnswer::Ran(OnceState::New) => ends_so(call, true),
        LockAnswer::Ran(OnceState::Poisoned) => call == LockCall::CallOnceForce(true),
        LockAnswer::Failed => ends_so(call, false),
        LockAnswer::Poisoned => met && !is_forced(call),
        LockAnswer::Completed => state == OnceState::Done,
        _ => false,
    }
}

/// A rule that a step of a thread breaks, whose call has met a poisoned once or not.
pub fn broken_by_step(
    before: Moment<'_>,
    thread: usize,
    met: bool,
    behind: Moment<'_>,
) -> Option<&'static str> {
    let fits = match (before.callers.of(thread).open, behind.world.answer(thread)) {
        (Some(asked), Some(answer)) => may_be_answered(asked.call, answer, met, behind.state()),
        (None, Some(_)) => false,
        (_, None) => true,
    };
    first_broken(&[
        (fits, "a call is answered as fits it"),
        (
            may_become(before.state(), behind.state()),
            "states follow one another as closures begin and end",
        ),
    ])
}

pub fn broken_by_end(at: Moment<'_>) -> Option<&'static str> {
    first_broken(&[
        (at.is_at_rest(), "at the end nothing is left to be done"),
        (
            at.has_ended(0) && at.has_ended(1) && at.has_ended(2),
            "at the end only those sleep that have to wait",
        ),
    ])
}
