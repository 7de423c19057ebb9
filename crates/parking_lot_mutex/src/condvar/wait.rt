//! A wait: its decision core is run on the variable's row.
ghost use Rattle.std.specs.Prelude.{◌≡◌, ◌<◌, ◌+◌, ◌*◌, ◌%◌, ◌^◌};
ghost use Rattle.parking_lot_mutex.specs.Condvar.Calls.{WaitEnded, WaitRan};
ghost use Rattle.parking_lot_protocol.specs.Timed.Courses.{EndedAt};
ghost use Rattle.parking_lot_protocol_waits.specs.WaitTable.{Gives, wait_asks, wait_told};
ghost use Rattle.parking_lot_protocol_waits.specs.declared.wait_act.WaitAct.TheVariants.{Done};
ghost use Rattle.parking_lot_protocol_waits.specs.declared.wait_act.WaitSeen.TheVariants.{Start};
ghost use Rattle.parking_lot_protocol_waits.specs.declared.wait_core.WaitPhase.TheVariants.{Stranger, GivingWay};

use crate::RawMutex;
use crate::condvar::raw_condvar::RawCondvar;
use crate::raw_mutex::PARKED;
use crate::stuck::stuck;
use lock_word::Owner;
use parking_lot_core::{DEFAULT_PARK_TOKEN, ParkResult, ThreadData, park, thread_yield};
use parking_lot_driver::SectionWord;
use parking_lot_protocol::timed::Course;
use parking_lot_protocol_waits::{WaitAct, WaitAnswer, WaitCore, WaitSeen};
use std::alloc::Allocator;
use std::cell::Cell;
use std::sync::Wait;
use std::time::{Clock, Instant};

/// Gives a mutex up, whose right was left with it.
fn release<R: Wait, A: Allocator>(mutex: &RawMutex<'_, '_, R, A>) {
    mutex.unlocks(mutex.pick_up());
}

/// Whether a call that sees this word in the section joins the list.
fn joins(mut course: Course<WaitCore>, word: u64) -> bool {
    course.tell(WaitSeen::Word(word)) == WaitAct::Append
}

/// Tells a call that it has seen the word, has joined the list and shown its mutex, has left the section and given the
/// mutex up.
fn sleeps(course: &mut Course<WaitCore>, word: u64)
    ensures { course.new.0 ≡ course.old.0 }
{
    course.tell(WaitSeen::Word(word));
    course.tell(WaitSeen::Made);
    course.tell(WaitSeen::Made);
    course.tell(WaitSeen::Made);
    course.tell(WaitSeen::Made);
}

/// What a call does that took itself off a list as its moment passed.
fn quits(course: &mut Course<WaitCore>, here: bool, last: bool) -> WaitAct
    ensures { course.new.0 ≡ course.old.0 }
{
    course.tell(WaitSeen::Expired);
    course.tell(WaitSeen::Made);
    course.tell(WaitSeen::Quit { here, last })
}

/// What a call does that saw this word, slept, and took itself off a list as its moment passed.
fn goes(mut course: Course<WaitCore>, word: u64, here: bool, last: bool) -> WaitAct {
    sleeps(&mut course, word);
    quits(&mut course, here, last)
}

/// Tells a call how its sleep ended.
fn wakes(course: &mut Course<WaitCore>, ended: ParkResult, here: bool, last: bool)
    ensures { course.new.0 ≡ course.old.0 }
{
    match ended {
        ParkResult::Unparked(token) => {
            course.tell(WaitSeen::Woken(token));
        }
        ParkResult::TimedOut => {
            quits(course, here, last);
            if last {
                course.tell(WaitSeen::Made);
            }
            course.tell(WaitSeen::Made);
        }
        ParkResult::Invalid => {}
    }
}

impl<'t, 'l, R: Wait, A: Allocator> RawCondvar<'t, 'l, R, A> {
    /// Runs a wait with a mutex that is held, up to the moment if there is one, and answers how it ended.
    pub(crate) fn wait_by<C: Clock>(
        &self,
        mutex: &RawMutex<'t, 'l, R, A>,
        owner: Owner,
        party: &mut ThreadData<A>,
        timeout: Option<(Instant, &C)>,
    ) -> (Owner, WaitAnswer)
        requires { owner ≡ mutex.now.row.mutex.now.word }
        ensures owner { result.0 ≡ mutex.now.row.mutex.now.word }
        ensures ended { WaitEnded ((mutex.now.row.table.now.first_key + 2 * mutex.now.row.number) % 2 ^ 64) result.1 }
    {
        if !self.row().lot().same_lot(party) {
            return self.give_way(mutex, owner, party);
        }
        let mut course = Course::begin(WaitCore::wait(mutex.row().first_key() as u64));
        course.tell(WaitSeen::Made);
        mutex.leave(owner);
        self.sleep(&mut course, mutex, party, timeout);
        let owner = if course.act() == WaitAct::LocksMutex {
            course.tell(WaitSeen::Made);
            mutex.owns(party)
        } else {
            mutex.pick_up()
        };
        (owner, self.end(&course))
    }

    /// Sleeps until it is notified, or the moment passes, unless another mutex is shown. The right to the mutex was
    /// left with it.
    fn sleep<C: Clock>(
        &self,
        course: &mut Course<WaitCore>,
        mutex: &RawMutex<'t, 'l, R, A>,
        party: &mut ThreadData<A>,
        timeout: Option<(Instant, &C)>,
    )
        requires lot { party.old.lot ≡ self.now.row.table.now.lot.now.number }
        requires thread { party.old.thread < self.now.row.table.now.lot.now.max_threads }
        ensures { course.new.0 ≡ course.old.0 }
    {
        let before = *course;
        let word = Cell::new(0);
        let is_here = Cell::new(true);
        let was_last = Cell::new(false);
        let ended = park(
            self.row().lot(),
            party,
            self.row().first_key(),
            || {
                word.set(self.row().load());
                let joined = joins(before, word.get());
                if joined {
                    self.show(mutex);
                }
                joined
            },
            || release(mutex),
            |key, last| {
                is_here.set(key == self.row().first_key());
                was_last.set(last);
                match goes(before, word.get(), is_here.get(), last) {
                    WaitAct::Forgets => self.forget(),
                    WaitAct::MasksMutex => mutex.clear(PARKED),
                    _ => {}
                }
            },
            DEFAULT_PARK_TOKEN,
            timeout,
        );
        sleeps(course, word.get());
        wakes(course, ended, is_here.get(), was_last.get());
    }

    /// A wait of a thread that can't sleep here: it gives the mutex up, lets others run, and locks it again.
    fn give_way(
        &self,
        mutex: &RawMutex<'t, 'l, R, A>,
        owner: Owner,
        party: &mut ThreadData<A>,
    ) -> (Owner, WaitAnswer)
        requires { owner ≡ mutex.now.row.mutex.now.word }
        ensures owner { result.0 ≡ mutex.now.row.mutex.now.word }
        ensures ended { WaitRan GivingWay result.1 }
    {
        let mut course = Course::begin(WaitCore::give_way());
        mutex.unlocks(owner);
        course.tell(WaitSeen::Made);
        thread_yield();
        let owner = mutex.owns(party);
        course.tell(WaitSeen::Made);
        (owner, self.end(&course))
    }

    /// Refuses a wait with a mutex of another lot: where somebody waits, as one with another mutex.
    pub(crate) fn refuse(&self) -> WaitAnswer
        ensures { WaitRan Stranger result }
    {
        let mut course = Course::begin(WaitCore::wait_with_stranger());
        course.tell(WaitSeen::Word(self.row().load()));
        self.end(&course)
    }

    /// How a call ended.
    fn end(&self, course: &Course<WaitCore>) -> WaitAnswer
        ensures { EndedAt Gives wait_told wait_asks Start course.now.0 (Done result) }
    {
        match course.act() {
            WaitAct::Done(answer) => {
                course.ended();
                answer
            }
            _ => match stuck(self.runtime()) {},
        }
    }
}
