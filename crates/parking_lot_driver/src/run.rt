//! Whole calls: a decision core that is run on a row.
ghost use Rattle.std.specs.Prelude.{◌≡◌};
ghost use Rattle.parking_lot_driver.specs.Runs.{Ended};

use crate::call::Call;
use crate::decision::DecisionCore;
use crate::place::Place;
use crate::told::Run;
use lock_word::Held;
use parking_lot_core::{SpinWait, ThreadData, thread_yield};
use parking_lot_protocol::{Act, ActResult, CoreAnswer};
use std::alloc::Allocator;
use std::sync::Wait;

impl<R: Wait, A: Allocator> Place<'_, '_, '_, R, A> {
    /// Runs a call that may sleep to its end, with what is in hand, and answers what is in hand then.
    pub fn ask<K: Call>(&self, call: K, had: Held, party: &mut ThreadData<A>) -> (CoreAnswer, Held)
        requires { had ≡ self.now.row.now.shared.now.word }
        ensures end { Ended K.Core.told K.Core.asks K.begun result.0 }
        ensures name { result.1 ≡ self.now.row.now.shared.now.word }
    {
        self.go_on(Run::begin(call), had, party)
    }

    /// The same of a call whose first act was made: it is handed what that has given.
    pub fn ask_after<K: Call>(
        &self,
        call: K,
        first: ActResult,
        had: Held,
        party: &mut ThreadData<A>,
    ) -> (CoreAnswer, Held)
        requires { had ≡ self.now.row.now.shared.now.word }
        ensures end { Ended K.Core.told K.Core.asks K.begun result.0 }
        ensures name { result.1 ≡ self.now.row.now.shared.now.word }
    {
        let mut run = Run::begin(call);
        run.tell(first);
        self.go_on(run, had, party)
    }

    /// Runs a call that has begun to its end. Where a reader more may not be admitted it lets other threads run, and
    /// looks again.
    #[inline(never)]
    fn go_on<K: Call<Core = C>, C: DecisionCore>(
        &self,
        begun: Run<K, C>,
        had: Held,
        party: &mut ThreadData<A>,
    ) -> (CoreAnswer, Held)
        requires { had ≡ self.now.row.now.shared.now.word }
        ensures end { Ended C.told C.asks K.begun result.0 }
        ensures name { result.1 ≡ self.now.row.now.shared.now.word }
    {
        let mut run = begun;
        let mut held = had;
        let mut spin = SpinWait::new();
        for _act in self.row.lot().runtime().forever() {
            match run.act() {
                Act::Done(answer) => {
                    run.ended(answer);
                    return (answer, held);
                }
                Act::Spin => {
                    run.tell(ActResult::Spun(spin.spin()));
                }
                Act::Enter(key) => {
                    spin.reset();
                    held = self.enter(&mut run, key, held, party);
                }
                act if self.is_full(act) => {
                    thread_yield();
                    run.tell(ActResult::Word(self.word().load()));
                }
                act => {
                    run.tell(self.make(act, &mut held));
                }
            }
        }
        unreachable!()
    }

    /// Runs a call that gives something up to its end, with what is in hand, and answers what is in hand then. It is
    /// handed what the call's first act has given.
    #[inline(never)]
    pub fn give_up<K: Call>(&self, call: K, first: ActResult, had: Held) -> (CoreAnswer, Held)
        requires { had ≡ self.now.row.now.shared.now.word }
        ensures end { Ended K.Core.told K.Core.asks K.begun result.0 }
        ensures name { result.1 ≡ self.now.row.now.shared.now.word }
    {
        let mut run = Run::begin(call);
        let mut held = had;
        run.tell(first);
        for _act in self.row.lot().runtime().forever() {
            match run.act() {
                Act::Done(answer) => {
                    run.ended(answer);
                    return (answer, held);
                }
                Act::Enter(key) => {
                    run.tell(ActResult::Entered);
                    held = self.wake(&mut run, self.row.key(key), held);
                }
                act => {
                    run.tell(self.make(act, &mut held));
                }
            }
        }
        unreachable!()
    }
}
