//! Threads that make calls one after another, and what each of them has been answered.

use crate::three::Three;
use parking_lot_world::{LockAnswer, LockCall};

/// A call, and the lock that it is asked of.
#[derive(Clone, Copy, PartialEq, Eq, Debug)]
pub struct Ask {
    pub lock: usize,
    pub call: LockCall,
}

impl Ask {
    /// The mutex that it waits with, if it is a wait.
    pub fn mutex(self) -> Option<usize> {
        match self.call {
            LockCall::Wait(mutex) | LockCall::WaitUntil(mutex) => Some(mutex),
            _ => None,
        }
    }

    /// Whether it is a wait with a deadline.
    pub fn waits_in_time(self) -> bool {
        matches!(self.call, LockCall::WaitUntil(_))
    }
}

/// The calls of a thread, one after another.
pub type Calls = [Option<Ask>; 3];

/// What they were answered, in the same places; `None` for one that isn't answered, and for those behind it.
pub type Answers = [Option<LockAnswer>; 3];

/// How far a thread is.
#[derive(Clone, Copy, PartialEq, Eq)]
pub struct Caller {
    /// The call that it is in.
    pub open: Option<Ask>,
    /// Those that it hasn't begun.
    pub rest: Calls,
    pub answers: Answers,
    /// Which locks it owns as mutexes by its calls so far. One that waits has given its mutex up for that time.
    pub owns: Three<bool>,
}

impl Caller {
    /// Before its first call.
    fn of(calls: Calls) -> Caller {
        Caller {
            open: None,
            rest: calls,
            answers: [None; 3],
            owns: Three(false, false, false),
        }
    }

    /// The call that it begins next.
    pub fn next(self) -> Option<Ask> {
        let [next, _, _] = self.rest;
        next
    }

    /// Once it has begun its next call.
    pub fn begun(self) -> Caller {
        let [open, second, third] = self.rest;
        Caller {
            open,
            rest: [second, third, None],
            ..self
        }
    }

    /// Once its call is answered.
    pub fn answered(self, answer: LockAnswer) -> Caller {
        let answers = match self.answers {
            [None, _, _] => [Some(answer), None, None],
            [first, None, _] => [first, Some(answer), None],
            [first, second, _] => [first, second, Some(answer)],
        };
        Caller {
            open: None,
            answers,
            owns: owned_behind(self.open, self.owns),
            ..self
        }
    }

    /// Once it has made a step, behind which its last call is answered so.
    pub fn stepped(self, answer: Option<LockAnswer>) -> Caller {
        match answer {
            _ if self.open.is_none() => self.begun(),
            Some(answer) => self.answered(answer),
            None => self,
        }
    }

    /// What its last call was answered, where it is in none.
    pub fn last(self) -> Option<LockAnswer> {
        let [first, second, third] = self.answers;
        if self.open.is_some() {
            None
        } else {
            third.or(second).or(first)
        }
    }
}

/// Which mutexes a thread owns once that call is answered.
fn owned_behind(asked: Option<Ask>, before: Three<bool>) -> Three<bool> {
    match asked {
        Some(asked) if asked.call == LockCall::Lock => before.with(asked.lock, true),
        Some(asked) if asked.call == LockCall::Unlock => before.with(asked.lock, false),
        _ => before,
    }
}

/// Three threads before their first calls.
pub fn callers_of(programs: Three<Calls>) -> Three<Caller> {
    Three(
        Caller::of(programs.0),
        Caller::of(programs.1),
        Caller::of(programs.2),
    )
}
