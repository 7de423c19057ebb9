//! Tries of a reader-writer lock: they wait for nobody.
ghost use Rattle.std.specs.Prelude.{◌≡◌, ◌≢◌, ◌/◌, ◌==◌, IfNone, IfSome, IfOk, IfErr};
ghost use Rattle.parking_lot_driver.specs.Ends.{RwAdmitted, RwRefused, UpgradeAdmitted, UpgradeRefused};
ghost use Rattle.parking_lot_driver.specs.Tries.{Admitted, Refused};
ghost use Rattle.parking_lot_protocol.specs.declared.act.Act.TheVariants.{Load, Exchange, Done};
ghost use Rattle.parking_lot_protocol.specs.declared.act.ActResult.TheVariants.{Start, Word, Exchanged};
ghost use Rattle.parking_lot_protocol.specs.declared.act.CoreAnswer.TheVariants.{Owned};
ghost use Rattle.parking_lot_protocol.specs.declared.rw_phase.LockMode.TheVariants as want;
ghost use Rattle.parking_lot_protocol.specs.declared.rw_phase.RwPhase.TheVariants.{Trying};
ghost use Rattle.parking_lot_protocol_rw.specs.declared.upgrade_phase.UpgradePhase.TheVariants as call;

use crate::full::{is_open, is_open_to_upgradable};
use crate::raw_rwlock::RawRwLock;
use lock_word::{Exclusive, Reader, Upgradable};
use parking_lot_driver::{
    TryCall, TryRead, TryToOwnUpgradably, TryToUpgrade, TryWrite, admitted_at_once,
};
use parking_lot_protocol::word::{READER, UPGRADABLE, WRITER};
use std::alloc::Allocator;

impl<R, const RECURSIVE: u8, A: Allocator> RawRwLock<'_, '_, R, RECURSIVE, A> {
    /// Makes a try that has seen this word alone.
    #[cold]
    #[inline(never)]
    fn try_slowly<K: TryCall>(&self, call: K, word: u64, had: K::Had) -> Result<K::Gained, K::Had>
        requires first { K.Core.asks (K.Core.told K.begun Start) ≡ Load }
        requires name { K.is_of had self.now.row.shared.now.word }
        ensures won { IfOk result (λ gained. K.gained_of gained self.now.row.shared.now.word) }
        ensures kept { IfErr result (λ had. K.is_of had self.now.row.shared.now.word) }
        ensures admitted { IfOk result (λ _. Admitted K.Core.told K.Core.asks K.begun) }
        ensures refused { IfErr result (λ _. Refused (self.now.full / 16) K.Core.told K.Core.asks K.begun) }
    {
        self.place().try_on(call, word, had)
    }

    /// Makes a try by one exchange of the word that it has seen, and goes on where that is lost.
    #[inline(always)]
    fn try_by_exchange<K: TryCall>(
        &self,
        call: K,
        word: u64,
        to: u64,
        had: K::Had,
    ) -> Result<K::Gained, K::Had>
        requires first { K.Core.asks (K.Core.told K.begun Start) ≡ Load }
        requires then { K.Core.asks (K.Core.told (K.Core.told K.begun Start) (Word word)) ≡ Exchange word to }
        requires last { K.Core.asks (K.Core.told (K.Core.told (K.Core.told K.begun Start) (Word word)) Exchanged) ≡ Done
            Owned }
        requires name { K.is_of had self.now.row.shared.now.word }
        requires may { K.may word to }
        ensures won { IfOk result (λ gained. K.gained_of gained self.now.row.shared.now.word) }
        ensures kept { IfErr result (λ had. K.is_of had self.now.row.shared.now.word) }
        ensures admitted { IfOk result (λ _. Admitted K.Core.told K.Core.asks K.begun) }
        ensures refused { IfErr result (λ _. Refused (self.now.full / 16) K.Core.told K.Core.asks K.begun) }
    {
        match K::step(self.word(), had, word, to) {
            Ok(gained) => {
                admitted_at_once(call, word, to);
                Ok(gained)
            }
            Err((had, now)) => self.try_after_a_loss(call, word, to, now, had),
        }
    }

    /// Goes on with a try that has lost its first exchange to the word that is there now.
    #[cold]
    #[inline(never)]
    fn try_after_a_loss<K: TryCall>(
        &self,
        call: K,
        word: u64,
        to: u64,
        now: u64,
        had: K::Had,
    ) -> Result<K::Gained, K::Had>
        requires first { K.Core.asks (K.Core.told K.begun Start) ≡ Load }
        requires then { K.Core.asks (K.Core.told (K.Core.told K.begun Start) (Word word)) ≡ Exchange word to }
        requires lost { now ≢ word }
        requires name { K.is_of had self.now.row.shared.now.word }
        ensures won { IfOk result (λ gained. K.gained_of gained self.now.row.shared.now.word) }
        ensures kept { IfErr result (λ had. K.is_of had self.now.row.shared.now.word) }
        ensures admitted { IfOk result (λ _. Admitted K.Core.told K.Core.asks K.begun) }
        ensures refused { IfErr result (λ _. Refused (self.now.full / 16) K.Core.told K.Core.asks K.begun) }
    {
        self.place().try_again(call, word, to, now, had)
    }

    /// Tries to read, by one exchange where the word is open.
    #[inline(always)]
    pub(super) fn tries_to_read(&self) -> Option<Reader>
        ensures name { IfSome result (λ reader. reader ≡ self.now.row.shared.now.word) }
        ensures admitted { IfSome result (λ _. RwAdmitted (Trying (want.Shared (RECURSIVE == 1)))) }
        ensures refused { IfNone result (RwRefused (self.now.full / 16) (Trying (want.Shared (RECURSIVE == 1)))) }
    {
        let word = self.word().load();
        let tried = if is_open(word, self.full()) {
            self.try_by_exchange(TryRead::<RECURSIVE>, word, word.wrapping_add(READER), ())
        } else {
            self.try_slowly(TryRead::<RECURSIVE>, word, ())
        };
        match tried {
            Ok(reader) => Some(reader),
            Err(()) => None,
        }
    }

    /// Tries to write, by one exchange at a word of 0.
    #[inline(always)]
    pub(super) fn tries_to_write(&self) -> Option<Exclusive>
        ensures name { IfSome result (λ owner. owner ≡ self.now.row.shared.now.word) }
        ensures admitted { IfSome result (λ _. RwAdmitted (Trying want.Exclusive)) }
        ensures refused { IfNone result (RwRefused (self.now.full / 16) (Trying want.Exclusive)) }
    {
        match self.try_by_exchange(TryWrite, 0, WRITER, ()) {
            Ok(owner) => Some(owner),
            Err(()) => None,
        }
    }

    /// Tries to have the upgradable hold, by one exchange where the word is open to it.
    #[inline(always)]
    pub(crate) fn tries_to_own_upgradably(&self) -> Option<Upgradable>
        ensures name { IfSome result (λ owner. owner ≡ self.now.row.shared.now.word) }
        ensures admitted { IfSome result (λ _. UpgradeAdmitted call.Trying) }
        ensures refused { IfNone result (UpgradeRefused (self.now.full / 16) call.Trying) }
    {
        let word = self.word().load();
        let tried = if is_open_to_upgradable(word, self.full()) {
            let to = word.wrapping_add(READER + UPGRADABLE);
            self.try_by_exchange(TryToOwnUpgradably, word, to, ())
        } else {
            self.try_slowly(TryToOwnUpgradably, word, ())
        };
        match tried {
            Ok(owner) => Some(owner),
            Err(()) => None,
        }
    }

    /// Tries to write in place of having the upgradable hold, by one exchange at the word of one who is alone.
    #[inline(always)]
    pub(crate) fn tries_to_upgrade(&self, owner: Upgradable) -> Result<Exclusive, Upgradable>
        requires { owner ≡ self.now.row.shared.now.word }
        ensures won { IfOk result (λ owner. owner ≡ self.now.row.shared.now.word) }
        ensures lost { IfErr result (λ owner. owner ≡ self.now.row.shared.now.word) }
        ensures admitted { IfOk result (λ _. UpgradeAdmitted call.TryingToUpgrade) }
        ensures refused { IfErr result (λ _. UpgradeRefused (self.now.full / 16) call.TryingToUpgrade) }
    {
        self.try_by_exchange(TryToUpgrade, READER + UPGRADABLE, WRITER, owner)
    }
}
