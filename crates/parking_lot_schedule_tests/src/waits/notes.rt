//! What is noted of a call since it began.

use parking_lot_explorer::{Ask, Three};
use parking_lot_world::{LockAnswer, LockCall, WorldStep};

/// What was seen since a thread's call began.
#[derive(Clone, Copy, PartialEq)]
pub struct Note {
    /// Whether its deadline has come.
    pub late: bool,
    /// Whether it has stood in the variable's list.
    joined: bool,
    /// Whether another has taken it off.
    taken: bool,
    /// How many it has taken off.
    took: usize,
    /// Of a notification: who was seen to wait as it began, and has waited since.
    since: Three<bool>,
}

/// Of a call that begins, and of one that is over.
pub const NOTHING: Note = Note {
    late: false,
    joined: false,
    taken: false,
    took: 0,
    since: Three(false, false, false),
};

/// Who stands in a list.
fn those_in(order: &[usize]) -> Three<bool> {
    Three(order.contains(&0), order.contains(&1), order.contains(&2))
}

impl Note {
    /// Of a call that begins where that word is shown, and these wait.
    fn begun(word: u64, order: &[usize]) -> Note {
        let since = if word == 0 {
            Three(false, false, false)
        } else {
            those_in(order)
        };
        Note { since, ..NOTHING }
    }

    /// Once its thread has made a step, behind which these wait of those before.
    fn stepped(self, thread: usize, before: &[usize], behind: &[usize]) -> Note {
        let took = before
            .iter()
            .filter(|waiter| **waiter != thread && !behind.contains(*waiter))
            .count();
        Note {
            took: self.took.saturating_add(took),
            ..self
        }
    }

    /// Once another has.
    fn met(self, thread: usize, before: &[usize], behind: &[usize]) -> Note {
        let is_off = before.contains(&thread) && !behind.contains(&thread);
        Note {
            taken: self.taken || is_off,
            ..self
        }
    }

    /// Once these wait, whoever it was.
    fn seen(self, thread: usize, behind: &[usize]) -> Note {
        let Three(first, second, third) = those_in(behind);
        Note {
            joined: self.joined || behind.contains(&thread),
            since: Three(
                self.since.0 && first,
                self.since.1 && second,
                self.since.2 && third,
            ),
            ..self
        }
    }

    /// Of a thread's call behind a step, where that word is shown and these wait of those before.
    pub fn behind(
        self,
        thread: usize,
        step: WorldStep,
        word: u64,
        before: &[usize],
        behind: &[usize],
    ) -> Note {
        let moved = match step {
            WorldStep::Begin(by, _, _) if by == thread => Note::begun(word, behind),
            WorldStep::Deadline(by) if by == thread => Note { late: true, ..self },
            WorldStep::Go(by, _) if by == thread => self.stepped(thread, before, behind),
            _ => self.met(thread, before, behind),
        };
        moved.seen(thread, behind)
    }

    /// Whether nobody has waited all the time since it began.
    fn has_missed_nobody(self) -> bool {
        self.since == Three(false, false, false)
    }

    /// Whether a call may be answered so: a wait as woken exactly where another took it off the list, as timed out only
    /// where its deadline came first, and as one with the wrong mutex only where it never stood there; a notification
    /// by how many it took, and that it took nobody, or all, only where nobody of those is left that were seen to wait
    /// as it began.
    pub fn may_be_answered(self, asked: Ask, answer: LockAnswer) -> bool {
        match (asked.call, answer) {
            (LockCall::Lock, LockAnswer::Owned) => true,
            (LockCall::Unlock, LockAnswer::Released) => true,
            (LockCall::Wait(_) | LockCall::WaitUntil(_), LockAnswer::Owned) => self.taken,
            (LockCall::WaitUntil(_), LockAnswer::TimedOut) => {
                self.joined && self.late && !self.taken
            }
            (LockCall::Wait(_) | LockCall::WaitUntil(_), LockAnswer::WrongMutex) => !self.joined,
            (LockCall::NotifyOne, LockAnswer::Flag(true)) => self.took == 1,
            (LockCall::NotifyOne, LockAnswer::Flag(false)) => {
                self.took == 0 && self.has_missed_nobody()
            }
            (LockCall::NotifyAll, LockAnswer::Count(count)) => {
                self.took == count && self.has_missed_nobody()
            }
            _ => false,
        }
    }

    /// Whether a step of that call may make the one list the other: a wait joins it as the last, and leaves it once its
    /// deadline has come; a notification takes the first, or all.
    pub fn may_change(self, thread: usize, asked: Ask, before: &[usize], behind: &[usize]) -> bool {
        if before == behind {
            return true;
        }
        match asked.call {
            LockCall::Wait(_) | LockCall::WaitUntil(_) => {
                joins(thread, before, behind) || self.late && leaves(thread, before, behind)
            }
            LockCall::NotifyOne => first_is_taken(before, behind),
            LockCall::NotifyAll => behind.is_empty(),
            _ => false,
        }
    }
}

fn joins(thread: usize, before: &[usize], behind: &[usize]) -> bool {
    match behind.split_last() {
        Some((last, others)) => *last == thread && others == before,
        None => false,
    }
}

fn leaves(thread: usize, before: &[usize], behind: &[usize]) -> bool {
    let kept = before.iter().filter(|waiter| **waiter != thread);
    behind.len().saturating_add(1) == before.len() && kept.eq(behind.iter())
}

fn first_is_taken(before: &[usize], behind: &[usize]) -> bool {
    match before.split_first() {
        Some((_, others)) => others == behind,
        None => false,
    }
}
