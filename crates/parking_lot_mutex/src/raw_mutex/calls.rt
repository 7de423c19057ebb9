//! Whole calls of a mutex, with the right in hand where the core owns it.
ghost use Rattle.std.specs.Prelude.{◌≡◌, ℕ};
ghost use Rattle.parking_lot_driver.specs.Ends.{mutex_asks, mutex_told};
ghost use Rattle.parking_lot_driver.specs.Runs.{Ended};
ghost use Rattle.parking_lot_mutex.specs.Owning.{in_hand, owned_at_end, IsOwnedAtEnd};
ghost use Rattle.parking_lot_protocol.specs.MutexTable.{act_of, next_phase};
ghost use Rattle.parking_lot_protocol.specs.declared.act.Act.TheVariants.{Enter};
ghost use Rattle.parking_lot_protocol.specs.declared.act.ActResult.TheVariants.{Start};
ghost use Rattle.parking_lot_protocol.specs.declared.act.CoreAnswer.{CoreAnswer};
ghost use Rattle.parking_lot_protocol.specs.declared.act.CoreAnswer.TheVariants.{Owned};

use crate::raw_mutex::RawMutex;
use crate::resting::Resting;
use crate::stuck::stuck;
use lock_word::{Claim, Owner};
use parking_lot_core::{SpinWait, ThreadData};
use parking_lot_driver::{Call, Run, UnderWay, sleep, wake_first};
use parking_lot_protocol::{Act, ActResult, CoreAnswer, MutexCore, SectionAct};
use std::alloc::Allocator;
use std::sync::Wait;

impl<R, A: Allocator> RawMutex<'_, '_, R, A> {
    /// Makes an act outside a section, and tells the call what that gave. The right goes with bit 0.
    fn make<K: Call<Core = MutexCore>>(
        &self,
        act: Act,
        run: &mut Run<K, MutexCore>,
        claim: &mut Claim,
    )
        requires act { act ≡ act_of run.old.1.phase }
        requires name { claim.old.name ≡ self.now.row.mutex.now.word }
        requires had { claim.old.owned ≡ in_hand run.old.1.phase }
        ensures name { claim.new.name ≡ self.now.row.mutex.now.word }
        ensures has { claim.new.owned ≡ in_hand run.new.1.phase }
    {
        match act {
            Act::Load => {
                let word = self.word().load();
                run.learn(ActResult::Word(word), word);
            }
            Act::Exchange(from, to) => {
                let word = self.word().exchange(claim, from, to);
                if word == from {
                    run.learn(ActResult::Exchanged, word);
                } else {
                    run.learn(ActResult::Word(word), word);
                }
            }
            // what is left of a section, and the wakes after it, have been made by the lot
            Act::Section(_) => {
                run.tell(ActResult::Made);
            }
            _ => {}
        }
    }
}

impl<R: Wait, A: Allocator> RawMutex<'_, '_, R, A> {
    /// What is in hand after a section: the right, if the call is over and owns the mutex. Then it was left for it.
    fn takes_up<K: Call<Core = MutexCore>>(&self, rest: Resting<K>) -> (Run<K, MutexCore>, Claim)
        ensures name { result.1.name ≡ self.now.row.mutex.now.word }
        ensures has { result.1.owned ≡ in_hand result.0.1.phase }
    {
        let run = rest.run;
        let claim = match run.act() {
            Act::Done(CoreAnswer::Owned) => self.pick_up().into_claim(),
            _ => self.word().no_claim(),
        };
        (run, claim)
    }

    /// Goes through a section in which another is woken. The right is left there for whoever is to own the mutex next.
    fn lets_others<K: Call<Core = MutexCore>>(
        &self,
        run: Run<K, MutexCore>,
        claim: Claim,
    ) -> (Run<K, MutexCore>, Claim)
        requires name { claim.name ≡ self.now.row.mutex.now.word }
        requires had { claim.owned ≡ 1 }
        requires rests { IsOwnedAtEnd run.1.phase }
        ensures name { result.1.name ≡ self.now.row.mutex.now.word }
        ensures has { result.1.owned ≡ in_hand result.0.1.phase }
    {
        self.leave(claim.into_owner());
        let mut rest = Resting { run };
        wake_first(self.row.lot(), self.row.first_key(), self, &mut rest);
        self.takes_up(rest)
    }

    /// Goes through a section in which it may sleep.
    fn sleeps<K: Call<Core = MutexCore>>(
        &self,
        run: Run<K, MutexCore>,
        claim: Claim,
        party: &mut ThreadData<A>,
    ) -> (Run<K, MutexCore>, Claim)
        requires had { claim.owned ≡ 0 }
        requires rests { IsOwnedAtEnd run.1.phase }
        ensures name { result.1.name ≡ self.now.row.mutex.now.word }
        ensures has { result.1.owned ≡ in_hand result.0.1.phase }
    {
        claim.end();
        let mut rest = Resting { run };
        sleep(self.row.lot(), self.row.first_key(), self, &mut rest, party);
        self.takes_up(rest)
    }

    /// Goes through the section that the call enters.
    fn enter<K: Call<Core = MutexCore>>(
        &self,
        begun: Run<K, MutexCore>,
        claim: Claim,
        _key: u8,
        party: &mut ThreadData<A>,
    ) -> (Run<K, MutexCore>, Claim)
        requires act { act_of begun.1.phase ≡ Enter _key }
        requires name { claim.name ≡ self.now.row.mutex.now.word }
        requires had { claim.owned ≡ in_hand begun.1.phase }
        ensures name { result.1.name ≡ self.now.row.mutex.now.word }
        ensures has { result.1.owned ≡ in_hand result.0.1.phase }
    {
        let mut run = begun;
        match run.learn(ActResult::Entered, 0) {
            Act::Section(SectionAct::Check) => self.sleeps(run, claim, party),
            _ => self.lets_others(run, claim),
        }
    }

    /// The same of a call that doesn't sleep: where it would, it looks at the word again.
    fn passes<K: Call<Core = MutexCore>>(
        &self,
        begun: Run<K, MutexCore>,
        claim: Claim,
        _key: u8,
    ) -> (Run<K, MutexCore>, Claim)
        requires act { act_of begun.1.phase ≡ Enter _key }
        requires name { claim.name ≡ self.now.row.mutex.now.word }
        requires had { claim.owned ≡ in_hand begun.1.phase }
        ensures name { result.1.name ≡ self.now.row.mutex.now.word }
        ensures has { result.1.owned ≡ in_hand result.0.1.phase }
    {
        let mut run = begun;
        match run.learn(ActResult::Entered, 0) {
            Act::Section(SectionAct::Check) => {
                claim.end();
                let mut rest = Resting { run };
                rest.tell(ActResult::Word(0));
                self.takes_up(rest)
            }
            _ => self.lets_others(run, claim),
        }
    }

    /// Runs a call that gives the mutex up to its end. It doesn't sleep.
    #[cold]
    #[inline(never)]
    pub(super) fn give_up<K: Call<Core = MutexCore>>(&self, call: K, owner: Owner)
        requires name { owner ≡ self.now.row.mutex.now.word }
        requires begins { in_hand (next_phase K.begun.phase Start) ≡ 1 }
        ensures { (answer : CoreAnswer) × Ended mutex_told mutex_asks K.begun answer }
    {
        let mut run = Run::begin(call);
        let mut claim = owner.into_claim();
        for _act in self.row.lot().runtime().forever() {
            match run.act() {
                Act::Done(answer) => {
                    run.ended(answer);
                    match answer {
                        CoreAnswer::Owned => self.leave(claim.into_owner()),
                        _ => claim.end(),
                    }
                    return;
                }
                Act::Enter(key) => {
                    let (after, has) = self.passes(run, claim, key);
                    run = after;
                    claim = has;
                }
                act => self.make(act, &mut run, &mut claim),
            }
        }
        unreachable!()
    }

    /// Runs a call to its end, and answers how that was, with the right where the mutex is owned then. It may sleep.
    ///
    /// A participant of another lot can't sleep: it yields and looks again.
    #[inline(never)]
    pub(super) fn ask<K: Call<Core = MutexCore>>(
        &self,
        call: K,
        had: Claim,
        party: &mut ThreadData<A>,
    ) -> (CoreAnswer, Claim)
        requires name { had.name ≡ self.now.row.mutex.now.word }
        requires had { had.owned ≡ in_hand (next_phase K.begun.phase Start) }
        ensures end { Ended mutex_told mutex_asks K.begun result.0 }
        ensures name { result.1.name ≡ self.now.row.mutex.now.word }
        ensures has { result.1.owned ≡ owned_at_end result.0 }
    {
        let mut run = Run::begin(call);
        let mut claim = had;
        let mut spin = SpinWait::new();
        for _act in self.row.lot().runtime().forever() {
            match run.act() {
                Act::Done(answer) => {
                    run.ended(answer);
                    return (answer, claim);
                }
                Act::Spin => {
                    run.learn(ActResult::Spun(spin.spin()), 0);
                }
                Act::Enter(key) => {
                    spin.reset();
                    let (after, has) = self.enter(run, claim, key, party);
                    run = after;
                    claim = has;
                }
                act => self.make(act, &mut run, &mut claim),
            }
        }
        unreachable!()
    }

    /// Runs a call that owns the mutex at its end, and answers the owner.
    pub(super) fn owned_by<K: Call<Core = MutexCore>>(
        &self,
        call: K,
        had: Claim,
        party: &mut ThreadData<A>,
    ) -> Owner
        requires name { had.name ≡ self.now.row.mutex.now.word }
        requires had { had.owned ≡ in_hand (next_phase K.begun.phase Start) }
        ensures name { result ≡ self.now.row.mutex.now.word }
        ensures ended { Ended mutex_told mutex_asks K.begun Owned }
    {
        match self.ask(call, had, party) {
            (CoreAnswer::Owned, claim) => claim.into_owner(),
            (_, claim) => {
                claim.end();
                match stuck(self.row.lot().runtime()) {}
            }
        }
    }
}
