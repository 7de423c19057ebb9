//! Whole calls of a reader-writer lock that may give up: their decision core is run on a row.
ghost use Rattle.std.specs.Prelude.{◌≡◌, MatchBool};
ghost use Rattle.parking_lot_driver.specs.Ends.{TimedRwEnded};
ghost use Rattle.parking_lot_protocol.specs.declared.act.Act.TheVariants.{Done};
ghost use Rattle.parking_lot_protocol.specs.declared.act.CoreAnswer.TheVariants.{Owned};
ghost use Rattle.parking_lot_protocol.specs.declared.timed.timed_act.TimedAct.TheVariants.{Makes, GivesUp};

use crate::handed::Handed;
use crate::place::Place;
use crate::shared_section::SharedSection;
use crate::timed_call::{TimedCall, TimedRun};
use crate::timed_sleep::sleep_in_time;
use crate::under_way::UnderWay;
use lock_word::Held;
use parking_lot_core::{SpinWait, ThreadData, thread_yield};
use parking_lot_protocol::timed::TimedAct;
use parking_lot_protocol::{Act, ActResult, CoreAnswer, SectionAct};
use std::alloc::Allocator;
use std::sync::Wait;
use std::time::{Clock, Instant};

impl<R: Wait, A: Allocator> Place<'_, '_, '_, R, A> {
    /// Runs a call that may give up to its end, and answers whether it owns what it asked for.
    pub fn own_in_time<K: TimedCall, C: Clock>(
        &self,
        call: K,
        had: Held,
        deadline: Instant,
        clock: &C,
        party: &mut ThreadData<A>,
    ) -> (bool, Held)
        requires { had ≡ self.now.row.now.shared.now.word }
        ensures end { MatchBool result.0 (TimedRwEnded K.begun (Makes (Done Owned))) (TimedRwEnded K.begun GivesUp) }
        ensures name { result.1 ≡ self.now.row.now.shared.now.word }
    {
        self.go_on_in_time(TimedRun::begin(call), had, deadline, clock, party)
    }

    /// The same of a call whose first act was made: it is handed what that has given.
    pub fn own_in_time_after<K: TimedCall, C: Clock>(
        &self,
        call: K,
        first: ActResult,
        had: Held,
        deadline: Instant,
        clock: &C,
        party: &mut ThreadData<A>,
    ) -> (bool, Held)
        requires { had ≡ self.now.row.now.shared.now.word }
        ensures end { MatchBool result.0 (TimedRwEnded K.begun (Makes (Done Owned))) (TimedRwEnded K.begun GivesUp) }
        ensures name { result.1 ≡ self.now.row.now.shared.now.word }
    {
        let mut run = TimedRun::begin(call);
        run.tell(first);
        self.go_on_in_time(run, had, deadline, clock, party)
    }

    /// Runs a call that has begun to its end.
    #[inline(never)]
    fn go_on_in_time<K: TimedCall, C: Clock>(
        &self,
        begun: TimedRun<K>,
        had: Held,
        deadline: Instant,
        clock: &C,
        party: &mut ThreadData<A>,
    ) -> (bool, Held)
        requires { had ≡ self.now.row.now.shared.now.word }
        ensures end { MatchBool result.0 (TimedRwEnded K.begun (Makes (Done Owned))) (TimedRwEnded K.begun GivesUp) }
        ensures name { result.1 ≡ self.now.row.now.shared.now.word }
    {
        let mut run = begun;
        let mut held = had;
        let mut spin = SpinWait::new();
        for _act in self.row.lot().runtime().forever() {
            match run.asked() {
                TimedAct::GivesUp => {
                    run.ended();
                    return (false, held);
                }
                TimedAct::Makes(Act::Done(CoreAnswer::Owned)) => {
                    run.ended();
                    return (true, held);
                }
                TimedAct::Makes(Act::Enter(key)) => {
                    spin.reset();
                    held = self.enter_in_time(&mut run, key, held, (deadline, clock), party);
                }
                TimedAct::Makes(act) => self.make_in_time(&mut run, act, &mut held, &mut spin),
                _ => thread_yield(),
            }
        }
        unreachable!()
    }

    /// Makes an act of a call that waits. Where a reader more may not be admitted it lets other threads run, and looks
    /// again.
    fn make_in_time<K: TimedCall>(
        &self,
        run: &mut TimedRun<K>,
        act: Act,
        held: &mut Held,
        spin: &mut SpinWait,
    )
        requires { held.old ≡ self.now.row.now.shared.now.word }
        ensures { held.new ≡ self.now.row.now.shared.now.word }
    {
        let seen = match act {
            Act::Spin => ActResult::Spun(spin.spin()),
            act if self.is_full(act) => {
                thread_yield();
                ActResult::Word(self.word().load())
            }
            act => self.make(act, held),
        };
        run.tell(seen);
    }

    /// Goes through the section that the call enters, and sleeps until the moment at the latest if it is to.
    fn enter_in_time<K: TimedCall, C: Clock>(
        &self,
        run: &mut TimedRun<K>,
        key: u8,
        held: Held,
        until: (Instant, &C),
        party: &mut ThreadData<A>,
    ) -> Held
        requires { held ≡ self.now.row.now.shared.now.word }
        ensures { result ≡ self.now.row.now.shared.now.word }
    {
        let key = self.row.key(key);
        match run.tell(ActResult::Entered) {
            Act::Section(SectionAct::Check) => {
                let at = SharedSection::of(self, 0);
                let mut call = Handed::of(*run);
                sleep_in_time(self.row.lot(), key, &at, &mut call, until, party);
                *run = call.run;
                self.takes_up(call.share(), held)
            }
            _ => self.wake(run, key, held),
        }
    }
}
