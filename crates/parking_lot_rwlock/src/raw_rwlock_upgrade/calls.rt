//! Whole calls of upgradable holds, with the rights in hand.
ghost use Rattle.std.specs.Prelude.{◌≡◌, ◌%◌, ℕ, IfOk, IfErr, true};
ghost use Rattle.parking_lot_driver.specs.Ends.{UpgradeEnded};
ghost use Rattle.parking_lot_driver.specs.Runs.{Ended};
ghost use Rattle.parking_lot_protocol.specs.declared.act.CoreAnswer.{CoreAnswer};
ghost use Rattle.parking_lot_protocol.specs.declared.act.CoreAnswer.TheVariants.{Owned};
ghost use Rattle.parking_lot_protocol_rw.specs.declared.upgrade_phase.UpgradePhase.TheVariants.{Locking};
ghost use Rattle.parking_lot_protocol_rw.specs.declared.upgrade_phase.UpgradePhase.TheVariants.{Bumping, Upgrading};

use crate::raw_rwlock::RawRwLock;
use lock_word::{Exclusive, Held, Pending, Upgradable};
use parking_lot_core::{ThreadData, thread_yield};
use parking_lot_driver::{
    AskUpgradably, BumpUpgradable, Call, Disown, Upgrade, owned_as_it_is, owned_by_sum,
};
use parking_lot_protocol::word::{PARKED, READER, UPGRADABLE, WRITER, is_parked};
use parking_lot_protocol::{ActResult, CoreAnswer};
use std::alloc::Allocator;
use std::sync::Wait;

impl<R: Wait, const RECURSIVE: u8, A: Allocator> RawRwLock<'_, '_, R, RECURSIVE, A> {
    /// Asks until the upgradable hold is owned. A fair writer may hand the lock over to more readers than there may be:
    /// then this one gives its hold back, and asks again.
    fn own_upgradable<K: Call>(&self, call: K, had: Held, party: &mut ThreadData<A>) -> Upgradable
        requires { had ≡ self.now.row.shared.now.word }
        ensures name { result ≡ self.now.row.shared.now.word }
        ensures ended { Ended K.Core.told K.Core.asks K.begun Owned }
    {
        let mut owner = self.place().upgradable(self.own(call, had, party));
        for _call in self.row().lot().runtime().forever() {
            if !self.is_overfull() {
                return owner;
            }
            self.disowns_slowly(Disown, owner);
            thread_yield();
            let held = self.own(AskUpgradably, self.word().nothing_held(), party);
            owner = self.place().upgradable(held);
        }
        unreachable!()
    }

    /// Waits until the upgradable hold is owned.
    pub(crate) fn owns_upgradably(&self, party: &mut ThreadData<A>) -> Upgradable
        ensures name { result ≡ self.now.row.shared.now.word }
        ensures ended { UpgradeEnded Locking Owned }
    {
        match self.upgradable_at_once() {
            Some(owner) => owner,
            None => self.own_upgradable_slowly(party),
        }
    }

    /// Asks for the upgradable hold where that isn't had at once.
    #[cold]
    #[inline(never)]
    pub(super) fn own_upgradable_slowly(&self, party: &mut ThreadData<A>) -> Upgradable
        ensures name { result ≡ self.now.row.shared.now.word }
        ensures ended { UpgradeEnded Locking Owned }
    {
        self.own_upgradable(AskUpgradably, self.word().nothing_held(), party)
    }

    /// Lets those that wait go before this thread.
    #[cold]
    #[inline(never)]
    pub(super) fn bump_upgradable_slowly(
        &self,
        owner: Upgradable,
        party: &mut ThreadData<A>,
    ) -> Upgradable
        requires { owner ≡ self.now.row.shared.now.word }
        ensures name { result ≡ self.now.row.shared.now.word }
        ensures ended { UpgradeEnded Bumping Owned }
    {
        self.own_upgradable(BumpUpgradable, owner.into_held(), party)
    }

    /// Gives the upgradable hold up by a call that looks at the word first.
    #[cold]
    #[inline(never)]
    pub(crate) fn disowns_slowly<K: Call>(&self, call: K, owner: Upgradable)
        requires { owner ≡ self.now.row.shared.now.word }
        ensures { (answer : CoreAnswer) × Ended K.Core.told K.Core.asks K.begun answer }
    {
        let first = ActResult::Word(self.word().load());
        let (_answer, held) = self.place().give_up(call, first, owner.into_held());
        self.place().end(held);
    }

    /// The upgradable hold has become one that waits for readers at this word: the core says how.
    #[cold]
    #[inline(never)]
    pub(super) fn upgrade_slowly(
        &self,
        pending: Pending,
        word: u64,
        party: &mut ThreadData<A>,
    ) -> Exclusive
        requires { pending ≡ self.now.row.shared.now.word }
        ensures name { result ≡ self.now.row.shared.now.word }
        ensures ended { UpgradeEnded Upgrading Owned }
    {
        let first = ActResult::Before(word);
        let (answer, held) = self
            .place()
            .ask_after(Upgrade, first, pending.into_held(), party);
        if answer == CoreAnswer::Owned {
            self.place().exclusive(held)
        } else {
            self.place().exclusive(self.own(Upgrade, held, party))
        }
    }

    /// A hold has become another at this word, where threads may sleep: the core says whom to wake.
    #[cold]
    #[inline(never)]
    pub(super) fn convert_slowly<K: Call>(&self, call: K, had: Held, word: u64) -> Held
        requires { had ≡ self.now.row.shared.now.word }
        ensures name { result ≡ self.now.row.shared.now.word }
        ensures ended { (answer : CoreAnswer) × Ended K.Core.told K.Core.asks K.begun answer }
    {
        let (_answer, held) = self.place().give_up(call, ActResult::Before(word), had);
        held
    }
}

impl<R, const RECURSIVE: u8, A: Allocator> RawRwLock<'_, '_, R, RECURSIVE, A> {
    /// Makes the upgradable hold the exclusive one at once, where nobody else reads. Else it is one that waits for
    /// readers now, and the word before comes back.
    #[inline(always)]
    pub(crate) fn upgrades_at_once(&self, owner: Upgradable) -> Result<Exclusive, (Pending, u64)>
        requires { owner ≡ self.now.row.shared.now.word }
        ensures name { IfOk result (λ owner. owner ≡ self.now.row.shared.now.word) }
        ensures pending { IfErr result (λ kept. kept.0 ≡ self.now.row.shared.now.word) }
        ensures ended { IfOk result (λ _. UpgradeEnded Upgrading Owned) }
    {
        match self.word().upgrade(owner) {
            Ok(owner) => {
                let by = WRITER.wrapping_sub(READER + UPGRADABLE);
                owned_by_sum(Upgrade, by, 0, 0);
                Ok(owner)
            }
            Err((pending, word)) => Err((pending, word)),
        }
    }

    /// Gives the upgradable hold up at once, where nobody sleeps and one exchange does it, and answers the word before.
    #[inline(always)]
    pub(super) fn disowns_at_once(&self, owner: Upgradable) -> Result<u64, Upgradable>
        requires { owner ≡ self.now.row.shared.now.word }
        ensures ended { IfOk result (λ word. word % 2 ≡ 0) }
        ensures owner { IfErr result (λ owner. owner ≡ self.now.row.shared.now.word) }
    {
        let word = self.word().load();
        if is_parked(word) {
            return Err(owner);
        }
        match self.word().end_upgradable(owner, word) {
            Ok(()) => Ok(word),
            Err((owner, _seen)) => Err(owner),
        }
    }

    /// Looks whether nobody waits: then one that lets others go first is over, and has the upgradable hold still.
    #[inline(always)]
    pub(super) fn owns_upgradably_as_it_is(&self) -> bool
        ensures { result ≡ true → UpgradeEnded Bumping Owned }
    {
        let seen = self.word().load();
        if (seen / PARKED) % 2 == 0 {
            owned_as_it_is(BumpUpgradable, seen);
            true
        } else {
            false
        }
    }
}
