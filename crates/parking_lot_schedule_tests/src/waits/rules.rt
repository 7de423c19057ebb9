//! What has to hold whatever the schedule: of every state, of every step, and where no step is left.

use super::watch::{M, Moment, OTHER};
use parking_lot_explorer::{
    Ask, Ends, LockShown, Stay, ThreadEnd, Three, WorldState, first_broken,
};
use parking_lot_world::OwnMode;

/// One owner at most, as the word says.
fn is_owned_rightly(mutex: &LockShown) -> bool {
    match mutex.owners.as_slice() {
        [] => mutex.word % 2 == 0,
        [(_, mode)] => *mode == OwnMode::Exclusive && mutex.word % 2 == 1,
        _ => false,
    }
}

/// A list that isn't empty has its parked bit, and where nobody owns the mutex somebody is in debt.
fn is_not_forgotten(mutex: &LockShown, debts: &[usize]) -> bool {
    mutex.first.is_empty() || mutex.word & 2 != 0 && !(mutex.owners.is_empty() && debts.is_empty())
}

impl Moment<'_> {
    /// The mutex that the call waits with that a thread is in.
    fn waits_with(self, thread: usize) -> Option<usize> {
        let open = self.callers.of(thread).open?;
        open.mutex()
    }

    /// The variable's word shows the mutex that all wait with. Only within a section it may show none, or one that
    /// nobody waits with.
    fn shows_its_mutex(self) -> bool {
        let shown = self.variable().word;
        let order = self.order();
        let is_settled = order.is_empty() == (shown == 0);
        let fits = order.iter().all(|thread| {
            let mutex = self.waits_with(*thread).map(|mutex| mutex as u64);
            mutex == shown.checked_sub(1)
        });
        self.world.open_sections > 0 || is_settled && fits
    }

    /// In no call it owns what its calls have left it.
    fn owns_what_it_should(self, thread: usize) -> bool {
        let caller = self.callers.of(thread);
        let first = self.mutex(M).mode(thread).is_some();
        let other = self.mutex(OTHER).mode(thread).is_some();
        caller.open.is_some() || caller.owns == Three(first, false, other)
    }

    /// Who stands in the variable's list is in a wait that isn't answered, and stands in no other.
    fn waits_rightly(self, thread: usize) -> bool {
        let here = WorldState::times(self.order(), thread);
        let there = WorldState::times(&self.mutex(M).first, thread);
        let elsewhere = WorldState::times(&self.mutex(OTHER).first, thread).saturating_add(there);
        match here {
            0 => elsewhere <= 1,
            1 => {
                elsewhere == 0
                    && self.waits_with(thread).is_some()
                    && self.world.answer(thread).is_none()
            }
            _ => false,
        }
    }

    /// Who waits for a mutex, or is in debt, is in a call, and in debt once.
    fn is_busy_rightly(self, thread: usize) -> bool {
        let owes = WorldState::times(&self.world.debts, thread);
        let waits = self.mutex(M).first.contains(&thread)
            || self.mutex(OTHER).first.contains(&thread);
        owes <= 1 && (self.callers.of(thread).open.is_some() || owes == 0 && !waits)
    }

    /// Whether a thread sleeps in the list of a mutex that another owns.
    fn sleeps_for(self, thread: usize, mutex: usize) -> bool {
        let mutex = self.mutex(mutex);
        mutex.first.contains(&thread) && !mutex.owners.is_empty() && mutex.mode(thread).is_none()
    }

    /// Where one stays that has no further step; `None` where it ought to have one.
    fn stay(self, thread: usize) -> Option<Stay> {
        let caller = self.callers.of(thread);
        let Some(open) = caller.open else {
            return Some(Stay::Done).filter(|_| caller.next().is_none());
        };
        if self.order().contains(&thread) {
            return Some(Stay::AtVariable).filter(|_| !open.waits_in_time());
        }
        let mutex = mutex_of(open);
        Some(Stay::AtMutex).filter(|_| self.sleeps_for(thread, mutex))
    }

    /// How a thread ends.
    fn end(self, thread: usize) -> ThreadEnd {
        let answers = self.callers.of(thread).answers;
        ThreadEnd {
            answers,
            stay: self.stay(thread).unwrap_or(Stay::Done),
        }
    }

    /// Nobody is in debt, no section is open, and the words are what owners and waiters make of them.
    fn is_at_rest(self) -> bool {
        self.world.debts.is_empty()
            && self.world.open_sections == 0
            && is_settled(self.mutex(M))
            && is_settled(self.mutex(OTHER))
    }
}

/// The parked bit is there where somebody waits, and only there.
fn is_settled(mutex: &LockShown) -> bool {
    (mutex.word & 2 == 0) == mutex.first.is_empty()
}

/// The mutex that a call locks, or waits with.
fn mutex_of(open: Ask) -> usize {
    match open.mutex() {
        Some(mutex) => mutex,
        None => open.lock,
    }
}

fn broken_by_thread(at: Moment<'_>, thread: usize) -> Option<&'static str> {
    let caller = at.callers.of(thread);
    first_broken(&[
        (
            at.waits_rightly(thread),
            "who stands in the variable's list is in a wait that isn't answered",
        ),
        (
            at.is_busy_rightly(thread),
            "who waits for a mutex or is in debt is in a call",
        ),
        (
            at.owns_what_it_should(thread),
            "a thread owns what its calls have left it",
        ),
        (
            at.world.answer(thread) == caller.last(),
            "a thread is shown what its last call was answered",
        ),
    ])
}

fn broken_by_locks(at: Moment<'_>) -> Option<&'static str> {
    let is_owned = is_owned_rightly(at.mutex(M)) && is_owned_rightly(at.mutex(OTHER));
    let debts = &at.world.debts;
    let is_kept = is_not_forgotten(at.mutex(M), debts) && is_not_forgotten(at.mutex(OTHER), debts);
    first_broken(&[
        (is_owned, "a mutex has one owner at most, as its word says"),
        (is_kept, "whoever waits for a mutex isn't forgotten"),
        (
            at.shows_its_mutex(),
            "the variable shows the mutex that all wait with",
        ),
    ])
}

pub fn broken_by_state(at: Moment<'_>) -> Option<&'static str> {
    broken_by_locks(at)
        .or(broken_by_thread(at, 0))
        .or(broken_by_thread(at, 1))
        .or(broken_by_thread(at, 2))
}

/// How the answer to a call breaks a rule.
fn broken_by_answer(
    before: Moment<'_>,
    thread: usize,
    asked: Ask,
    behind: Moment<'_>,
) -> Option<&'static str> {
    let answer = behind.world.answer(thread)?;
    let note = before.notes.of(thread);
    let owns = match asked.mutex() {
        Some(mutex) => behind.mutex(mutex).mode(thread) == Some(OwnMode::Exclusive),
        None => true,
    };
    first_broken(&[
        (owns, "whoever's wait is answered owns its mutex"),
        (
            note.may_be_answered(asked, answer),
            "a call is answered as fits it",
        ),
    ])
}

pub fn broken_by_step(
    before: Moment<'_>,
    thread: usize,
    behind: Moment<'_>,
) -> Option<&'static str> {
    let Some(asked) = before.callers.of(thread).open else {
        return first_broken(&[(
            before.order() == behind.order(),
            "a beginning leaves the variable's list as it is",
        )]);
    };
    let note = before.notes.of(thread);
    let changes = note.may_change(thread, asked, before.order(), behind.order());
    first_broken(&[(
        changes,
        "the variable's list changes by waits and notifications alone",
    )])
    .or(broken_by_answer(before, thread, asked, behind))
}

pub fn broken_by_end(at: Moment<'_>) -> Option<&'static str> {
    let stays = at.stay(0).is_some() && at.stay(1).is_some() && at.stay(2).is_some();
    first_broken(&[
        (at.is_at_rest(), "at the end nothing is left to be done"),
        (stays, "at the end only those sleep that have to wait"),
    ])
}

/// How all end where no step is left.
pub fn ends_of(at: Moment<'_>) -> Ends {
    let order = at.order();
    let order = [
        order.first().copied(),
        order.get(1).copied(),
        order.get(2).copied(),
    ];
    Ends {
        threads: Three(at.end(0), at.end(1), at.end(2)),
        order,
    }
}
