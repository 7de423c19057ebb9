//! A condition variable and its mutexes whose calls are made whole, one after another: what all schedules have to come
//! to.

use crate::callers::{Ask, Caller, Calls, callers_of};
use crate::plain::Plain;
use crate::thread_ends::{Ends, Stay, ThreadEnd};
use crate::three::Three;
use parking_lot_world::{LockAnswer, LockCall};

/// Where a thread's wait stands.
#[derive(Clone, Copy, PartialEq)]
enum Stage {
    /// It is in no wait.
    Free,
    /// It has given its mutex up, and stands in the list.
    Listed,
    /// Somebody has notified it, and it wants its mutex.
    Notified,
    /// Its deadline came first, and it wants its mutex.
    GaveUp,
}

/// Those that wait at the variable, in order.
#[derive(Clone, Copy, PartialEq)]
struct Order([Option<usize>; 3]);

impl Order {
    /// With one more behind them.
    fn and(self, thread: usize) -> Order {
        match self.0 {
            [None, _, _] => Order([Some(thread), None, None]),
            [first, None, _] => Order([first, Some(thread), None]),
            [first, second, _] => Order([first, second, Some(thread)]),
        }
    }

    /// Without that one.
    fn without(self, thread: usize) -> Order {
        let [first, second, third] = self.0;
        if first == Some(thread) {
            Order([second, third, None])
        } else if second == Some(thread) {
            Order([first, third, None])
        } else if third == Some(thread) {
            Order([first, second, None])
        } else {
            self
        }
    }

    /// The one that waits longest.
    fn first(self) -> Option<usize> {
        let [first, _, _] = self.0;
        first
    }

    /// How many there are.
    fn count(self) -> usize {
        match self.0 {
            [None, _, _] => 0,
            [_, None, _] => 1,
            [_, _, None] => 2,
            _ => 3,
        }
    }
}

/// A condition variable, its mutexes, and three threads between their calls or in a wait.
#[derive(Clone, Copy, PartialEq)]
pub struct PlainWait {
    callers: Three<Caller>,
    stages: Three<Stage>,
    order: Order,
}

impl PlainWait {
    /// Before the first call.
    pub fn of(programs: Three<Calls>) -> PlainWait {
        PlainWait {
            callers: callers_of(programs),
            stages: Three(Stage::Free, Stage::Free, Stage::Free),
            order: Order([None; 3]),
        }
    }

    /// Whether a thread owns that mutex now: one that is in a wait has given up the one that it waits with.
    fn is_owner(self, thread: usize, mutex: usize) -> bool {
        let caller = self.callers.of(thread);
        let is_away = match caller.open {
            Some(open) => open.mutex() == Some(mutex),
            None => false,
        };
        caller.owns.of(mutex) && !is_away
    }

    /// Whether nobody owns that mutex.
    fn is_free(self, mutex: usize) -> bool {
        !self.is_owner(0, mutex) && !self.is_owner(1, mutex) && !self.is_owner(2, mutex)
    }

    /// Once a thread's next call has been answered so.
    fn answered(self, thread: usize, answer: LockAnswer) -> PlainWait {
        let caller = self.callers.of(thread);
        let begun = if caller.open.is_some() {
            caller
        } else {
            caller.begun()
        };
        PlainWait {
            callers: self.callers.with(thread, begun.answered(answer)),
            stages: self.stages.with(thread, Stage::Free),
            ..self
        }
    }

    /// Once one that waits is off the list, for that reason.
    fn off(self, thread: usize, stage: Stage) -> PlainWait {
        PlainWait {
            stages: self.stages.with(thread, stage),
            order: self.order.without(thread),
            ..self
        }
    }

    /// Once the one that waits longest is notified, if anybody waits.
    fn notified(self) -> PlainWait {
        match self.order.first() {
            Some(first) => self.off(first, Stage::Notified),
            None => self,
        }
    }

    /// The mutex that all wait with.
    fn shown(self) -> Option<usize> {
        let first = self.order.first()?;
        let open = self.callers.of(first).open?;
        open.mutex()
    }

    /// Once a thread waits with that mutex, or is refused.
    fn waiting(self, thread: usize, mutex: usize) -> PlainWait {
        match self.shown() {
            Some(shown) if shown != mutex => self.answered(thread, LockAnswer::WrongMutex),
            _ => PlainWait {
                callers: self.callers.with(thread, self.callers.of(thread).begun()),
                stages: self.stages.with(thread, Stage::Listed),
                order: self.order.and(thread),
            },
        }
    }

    /// Once a thread has made that call, if it may.
    fn called(self, thread: usize, asked: Ask) -> Option<PlainWait> {
        let waiting = self.order.count();
        match asked.call {
            LockCall::Lock if self.is_free(asked.lock) => {
                Some(self.answered(thread, LockAnswer::Owned))
            }
            LockCall::Unlock => Some(self.answered(thread, LockAnswer::Released)),
            LockCall::Wait(mutex) | LockCall::WaitUntil(mutex) => Some(self.waiting(thread, mutex)),
            LockCall::NotifyOne => {
                let answer = LockAnswer::Flag(waiting > 0);
                Some(self.notified().answered(thread, answer))
            }
            LockCall::NotifyAll => {
                let all = self.notified().notified().notified();
                Some(all.answered(thread, LockAnswer::Count(waiting)))
            }
            _ => None,
        }
    }

    /// Once a thread that was in a wait has its mutex again, if it may.
    fn back(self, thread: usize, answer: LockAnswer) -> Option<PlainWait> {
        let mutex = self.callers.of(thread).open?.mutex()?;
        if self.is_free(mutex) {
            Some(self.answered(thread, answer))
        } else {
            None
        }
    }

    /// How a thread ends that makes no further move.
    fn end_of(self, thread: usize) -> ThreadEnd {
        let caller = self.callers.of(thread);
        let stay = match self.stages.of(thread) {
            Stage::Free if caller.next().is_none() => Stay::Done,
            Stage::Free | Stage::Notified | Stage::GaveUp => Stay::AtMutex,
            Stage::Listed => Stay::AtVariable,
        };
        let answers = caller.answers;
        ThreadEnd { answers, stay }
    }
}

impl Plain for PlainWait {
    type End = Ends;

    fn after(self, thread: usize) -> Option<PlainWait> {
        let caller = self.callers.of(thread);
        match self.stages.of(thread) {
            Stage::Free => self.called(thread, caller.next()?),
            Stage::Listed if caller.open?.waits_in_time() => Some(self.off(thread, Stage::GaveUp)),
            Stage::Listed => None,
            Stage::Notified => self.back(thread, LockAnswer::Owned),
            Stage::GaveUp => self.back(thread, LockAnswer::TimedOut),
        }
    }

    fn ends_as(self) -> Ends {
        let order = self.order.0;
        Ends {
            threads: Three(self.end_of(0), self.end_of(1), self.end_of(2)),
            order,
        }
    }
}
