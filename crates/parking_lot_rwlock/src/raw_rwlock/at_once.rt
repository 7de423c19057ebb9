//! Calls of a reader-writer lock that end by their first act.
ghost use Rattle.std.specs.Prelude.{◌≡◌, ◌==◌, IfSome, true};
ghost use Rattle.parking_lot_driver.specs.Ends.{RwEnded, UpgradeEnded};
ghost use Rattle.parking_lot_protocol.specs.declared.act.CoreAnswer.TheVariants.{Owned};
ghost use Rattle.parking_lot_protocol.specs.declared.rw_phase.LockMode.TheVariants as want;
ghost use Rattle.parking_lot_protocol.specs.declared.rw_phase.RwPhase.TheVariants.{Locking};
ghost use Rattle.parking_lot_protocol.specs.declared.rw_phase.RwPhase.TheVariants.{BumpingShared, BumpingExclusive};
ghost use Rattle.parking_lot_protocol_rw.specs.declared.upgrade_phase.UpgradePhase.TheVariants as call;

use crate::full::{is_open, is_open_to_upgradable};
use crate::raw_rwlock::RawRwLock;
use lock_word::{Exclusive, Reader, Upgradable};
use parking_lot_driver::{
    AskUpgradably, BumpReader, BumpWriter, Read, Write, ended_after_a_load, owned_after_a_look,
    owned_as_it_is,
};
use parking_lot_protocol::word::{PARKED, READER, UPGRADABLE, WRITER};
use parking_lot_protocol::{CoreAnswer, word};
use std::alloc::Allocator;

impl<R, const RECURSIVE: u8, A: Allocator> RawRwLock<'_, '_, R, RECURSIVE, A> {
    /// Reads at once, where one exchange does it.
    #[inline(always)]
    pub(crate) fn reads_at_once(&self) -> Option<Reader>
        ensures name { IfSome result (λ reader. reader ≡ self.now.row.shared.now.word) }
        ensures ended { IfSome result (λ _. RwEnded (Locking (want.Shared (RECURSIVE == 1))) Owned) }
    {
        let word = self.word().load();
        if !is_open(word, self.full()) {
            return None;
        }
        match self.word().read(word) {
            Ok(reader) => {
                ended_after_a_load(Read::<RECURSIVE>, word, word + READER, CoreAnswer::Owned);
                Some(reader)
            }
            Err(_seen) => None,
        }
    }

    /// Writes at once, where one exchange does it.
    #[inline(always)]
    pub(crate) fn writes_at_once(&self) -> Option<Exclusive>
        ensures name { IfSome result (λ owner. owner ≡ self.now.row.shared.now.word) }
        ensures ended { IfSome result (λ _. RwEnded (Locking want.Exclusive) Owned) }
    {
        match self.word().write() {
            Ok(owner) => {
                owned_after_a_look(Write, 0, WRITER);
                Some(owner)
            }
            Err(_seen) => None,
        }
    }

    /// Has the upgradable hold at once, where one exchange does it.
    #[inline(always)]
    pub(crate) fn upgradable_at_once(&self) -> Option<Upgradable>
        ensures name { IfSome result (λ owner. owner ≡ self.now.row.shared.now.word) }
        ensures ended { IfSome result (λ _. UpgradeEnded call.Locking Owned) }
    {
        let word = self.word().load();
        if !is_open_to_upgradable(word, self.full()) {
            return None;
        }
        match self.word().own_upgradably(word) {
            Ok(owner) => {
                let to = word.wrapping_add(READER + UPGRADABLE);
                ended_after_a_load(AskUpgradably, word, to, CoreAnswer::Owned);
                Some(owner)
            }
            Err(_seen) => None,
        }
    }

    /// Looks whether no writer waits: then a reader that lets others go first is over, and reads still.
    #[inline(always)]
    pub(crate) fn reads_as_it_is(&self) -> bool
        ensures { result ≡ true → RwEnded BumpingShared Owned }
    {
        let seen = self.word().load();
        if (seen / WRITER) % 2 == 0 {
            owned_as_it_is(BumpReader, seen);
            true
        } else {
            false
        }
    }

    /// Looks whether nobody waits: then a writer that lets others go first is over, and writes still.
    #[inline(always)]
    pub(crate) fn writes_as_it_is(&self) -> bool
        ensures { result ≡ true → RwEnded BumpingExclusive Owned }
    {
        let seen = self.word().load();
        if (seen / PARKED) % 2 == 0 {
            owned_as_it_is(BumpWriter, seen);
            true
        } else {
            false
        }
    }

    /// Whether there are more readers than may be.
    pub(crate) fn is_overfull(&self) -> bool {
        word::readers(self.word().load()) > word::readers(self.full())
    }
}
