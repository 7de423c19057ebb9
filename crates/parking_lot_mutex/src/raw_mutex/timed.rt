//! Calls of a mutex that may give up.
ghost use Rattle.std.specs.Prelude.{◌≡◌, IfSome, MatchOption};
ghost use Rattle.parking_lot_driver.specs.Ends.{TimedEnded};
ghost use Rattle.parking_lot_protocol.specs.Timed.TimedTable.{timed_asks};
ghost use Rattle.parking_lot_protocol.specs.declared.act.Act.TheVariants.{Done};
ghost use Rattle.parking_lot_protocol.specs.declared.act.CoreAnswer.TheVariants.{Owned};
ghost use Rattle.parking_lot_protocol.specs.declared.timed.timed_act.TimedAct.TheVariants.{Makes, GivesUp};

use crate::raw_mutex::{PARKED, RawMutex};
use lock_word::Owner;
use parking_lot_core::{SpinWait, ThreadData, thread_yield};
use parking_lot_driver::{InTime, sleep_in_time};
use parking_lot_protocol::timed::{Course, TimedAct, TimedMutexCore, TimedSeen};
use parking_lot_protocol::{Act, ActResult, CoreAnswer};
use std::alloc::{AllocError, Allocator};
use std::marker::Model;
use std::sync::Wait;
use std::time::{Clock, Instant};

/// A call for a mutex that has begun, and may give up.
#[derive(Copy)]
struct TimedLock {
    course: Course<TimedMutexCore>,
}

impl Model for TimedLock {
    ghost use Rattle.std.specs.Prelude.{◌≡◌};
    ghost use Rattle.parking_lot_protocol.specs.declared.mutex_phase.MutexPhase.TheVariants.{Locking};
    ghost use Rattle.parking_lot_protocol.specs.Timed.TimedTable.{asking};
    ghost use Rattle.parking_lot_protocol.specs.declared.timed.timed_core.TimedMutexCore.{TimedMutexCore};

    ghost Value = { TimedMutexCore × TimedMutexCore };

    ghost view = { λ lock. lock.course };

    ghost inverse = { λ course. record { course = course } };

    ghost invariant = { λ lock. lock.course.0 ≡ record { phase = asking Locking } };
}

impl Clone for TimedLock {
    fn clone(&self) -> Result<TimedLock, AllocError> {
        Ok(*self)
    }
}

impl TimedLock {
    /// Begins the call.
    fn begin() -> TimedLock {
        TimedLock {
            course: Course::begin(TimedMutexCore::lock_until()),
        }
    }

    /// The act that it has asked for.
    fn asked(&self) -> TimedAct
        ensures { result ≡ timed_asks self.now.1 }
    {
        self.course.act()
    }

    /// That it has come to what it asks for now.
    fn ended(&self)
        ensures { TimedEnded (timed_asks self.now.1) }
    {
        self.course.ended();
    }
}

impl InTime for TimedLock {
    fn parked(&self) -> u64 {
        PARKED
    }

    fn told(&mut self, seen: TimedSeen) -> TimedAct {
        self.course.tell(seen)
    }
}

impl<R: Wait, A: Allocator> RawMutex<'_, '_, R, A> {
    /// Runs a call that may give up to its end, and answers the owner, if it owns the mutex then.
    ///
    /// A right that it wins by an exchange it leaves in the second word, as a hand-over does, and picks it up there
    /// once its core has come to its end.
    #[inline(never)]
    pub(super) fn ask_in_time<C: Clock>(
        &self,
        deadline: Instant,
        clock: &C,
        party: &mut ThreadData<A>,
    ) -> Option<Owner>
        ensures owner { IfSome result (λ owner. owner ≡ self.now.row.mutex.now.word) }
        ensures ended { MatchOption result (TimedEnded GivesUp) (λ _. TimedEnded (Makes (Done Owned))) }
    {
        let mut spin = SpinWait::new();
        let mut call = TimedLock::begin();
        for _act in self.row.lot().runtime().forever() {
            match call.asked() {
                TimedAct::GivesUp => {
                    call.ended();
                    return None;
                }
                TimedAct::Makes(Act::Done(CoreAnswer::Owned)) => {
                    call.ended();
                    return Some(self.pick_up());
                }
                TimedAct::Makes(act) => {
                    self.make_in_time(&mut call, act, &mut spin, (deadline, clock), party);
                }
                _ => thread_yield(),
            }
        }
        unreachable!()
    }

    /// Makes an act of a call that waits.
    fn make_in_time<C: Clock>(
        &self,
        call: &mut TimedLock,
        act: Act,
        spin: &mut SpinWait,
        until: (Instant, &C),
        party: &mut ThreadData<A>,
    ) {
        let seen = match act {
            Act::Spin => ActResult::Spun(spin.spin()),
            Act::Enter(_) => {
                spin.reset();
                ActResult::Entered
            }
            act => self.seen_at(act),
        };
        call.told(TimedSeen::Plain(seen));
        if matches!(act, Act::Enter(_)) {
            sleep_in_time(
                self.row.lot(),
                self.row.first_key(),
                self,
                call,
                until,
                party,
            );
        }
    }

    /// Makes an act at the word of a call that owns nothing, and tells what it gave. A right that it wins is left in
    /// the second word.
    fn seen_at(&self, act: Act) -> ActResult {
        match act {
            Act::Load => ActResult::Word(self.word().load()),
            Act::Exchange(from, to) if from % 2 == to % 2 => match self.word().change(from, to) {
                Ok(()) => ActResult::Exchanged,
                Err(word) => ActResult::Word(word),
            },
            Act::Exchange(from, to) if from % 2 == 0 && to % 2 == 1 => {
                match self.word().acquire(from, to) {
                    Ok(owner) => {
                        self.leave(owner);
                        ActResult::Exchanged
                    }
                    Err(word) => ActResult::Word(word),
                }
            }
            _ => ActResult::Made,
        }
    }
}
