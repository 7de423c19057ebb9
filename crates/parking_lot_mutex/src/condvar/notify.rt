//! A notification: its decision core is run on the variable's row.
ghost use Rattle.std.specs.Prelude.{◌≡◌};
ghost use Rattle.parking_lot_mutex.specs.Condvar.Calls.{Notified};
ghost use Rattle.parking_lot_protocol_waits.specs.NotifyTable.{notify_asks};

use crate::condvar::raw_condvar::RawCondvar;
use crate::stuck::stuck;
use parking_lot_core::{DEFAULT_UNPARK_TOKEN, RequeueOp, UnparkResult, unpark_requeue};
use parking_lot_protocol::timed::Course;
use parking_lot_protocol_waits::{NotifyAct, NotifyCore, NotifySeen};
use std::alloc::Allocator;
use std::cell::Cell;
use std::sync::Wait;

/// What is done with the waiters where a call sees this word in the section, and finds the mutex locked or not.
fn operation(mut course: Course<NotifyCore>, word: u64, locked: bool) -> RequeueOp {
    course.tell(NotifySeen::Word(word));
    match course.tell(NotifySeen::Marked(locked)) {
        NotifyAct::Moves(op) => op,
        _ => RequeueOp::Abort,
    }
}

/// Whether a call that sees this word in the section goes on to take waiters.
fn goes_on(mut course: Course<NotifyCore>, word: u64) -> bool {
    course.tell(NotifySeen::Word(word)) == NotifyAct::MarksIfLocked
}

/// Tells a call what it has seen in the section, and what it has taken.
fn takes(course: &mut Course<NotifyCore>, word: u64, locked: bool, done: UnparkResult) -> NotifyAct
    ensures begun { course.new.0 ≡ course.old.0 }
    ensures act { result ≡ notify_asks course.new.1 }
{
    course.tell(NotifySeen::Word(word));
    course.tell(NotifySeen::Marked(locked));
    course.tell(NotifySeen::Moved {
        unparked: done.unparked_threads,
        requeued: done.requeued_threads,
        left: done.have_more_threads,
    })
}

/// How many a notification takes that has seen this word, by which nobody waits.
#[inline(always)]
fn nobody(word: u64, all: bool) -> usize
    requires seen { word ≡ 0 }
    ensures { Notified all result }
{
    let _ = (word, all);
    0
}

impl<R: Wait, A: Allocator> RawCondvar<'_, '_, R, A> {
    /// Runs a notification of the first waiter, or of all, and answers how many it took. Where nobody waits it is over
    /// with one look at the word.
    #[inline(always)]
    pub(crate) fn notify(&self, all: bool) -> usize
        ensures { Notified all result }
    {
        let word = self.row().load();
        if word == 0 {
            nobody(word, all)
        } else {
            self.notify_slowly(all)
        }
    }

    /// The same where somebody may wait.
    #[cold]
    #[inline(never)]
    fn notify_slowly(&self, all: bool) -> usize
        ensures { Notified all result }
    {
        let mut course = Course::begin(NotifyCore::notify(all));
        let word = self.row().load();
        if course.tell(NotifySeen::Word(word)) == NotifyAct::Enter {
            course.tell(NotifySeen::Made);
            self.take(&mut course, word);
        }
        match course.act() {
            NotifyAct::Done(count) => {
                course.ended();
                count
            }
            _ => match stuck(self.runtime()) {},
        }
    }

    /// Goes through the section of a notification that has seen this word.
    fn take(&self, course: &mut Course<NotifyCore>, word: u64)
        ensures { course.new.0 ≡ course.old.0 }
    {
        let before = *course;
        let seen = Cell::new(0);
        let locked = Cell::new(false);
        let done = unpark_requeue(
            self.row().lot(),
            self.row().first_key(),
            word.wrapping_sub(1) as usize,
            || {
                seen.set(self.row().load());
                if goes_on(before, seen.get()) {
                    locked.set(self.mark_if_locked());
                }
                operation(before, seen.get(), locked.get())
            },
            |_op, done| {
                let mut ahead = before;
                if takes(&mut ahead, seen.get(), locked.get(), done) == NotifyAct::Marks {
                    self.mark();
                    ahead.tell(NotifySeen::Made);
                }
                if ahead.act() == NotifyAct::Forgets {
                    self.forget();
                }
                DEFAULT_UNPARK_TOKEN
            },
        );
        takes(course, seen.get(), locked.get(), done);
        course.tell(NotifySeen::Made);
        course.tell(NotifySeen::Made);
        course.tell(NotifySeen::Made);
        course.tell(NotifySeen::Made);
    }
}
