//! The word.
ghost use Rattle.std.specs.Prelude.{◌≡◌, ◌≢◌, ℕ};
ghost use Rattle.lock_word.specs.Owning.{word_owns, word_shares, MayExchange, then_owned};

use crate::claim::Claim;
use atomic_table::exchange;
use std::marker::{Brand, Move, Owns, PhantomData};
use std::sync::atomic::Ordering::SeqCst;
use std::sync::atomic::raw;

/// The word of a lock. Its bit 0 says that somebody owns the lock; its other bits are anybody's.
///
/// In a clause it is the name of its lock. Threads read and change it in single steps, each in the one order that all
/// threads see.
pub struct LockWord {
    word: u64,
}

impl Owns for LockWord {
    ghost Value = { ℕ };

    ghost shr_at = { λ name p κ. word_shares name p κ };
}

impl Move for LockWord {
    ghost own_val = { λ name vs. word_owns name (λ n. Fields.own_val (record { word = n }) vs) };
}

impl LockWord {
    /// The word of a new lock, which nobody owns: it is 0.
    pub fn new() -> LockWord {
        LockWord { word: 0 }
    }

    /// Another word of the same lock, with which no right lies: it is 1. An owner may leave the right there.
    pub fn beside(&self) -> LockWord
        ensures { result ≡ self.now }
    {
        LockWord { word: 1 }
    }

    /// A claim that is nothing.
    pub fn no_claim(&self) -> Claim
        ensures { (result.name ≡ self.now) × (result.owned ≡ 0) }
    {
        Claim {
            marker: PhantomData,
        }
    }

    /// Loads the word.
    pub fn load(&self) -> u64 {
        unsafe { raw::load::<Brand>(&raw const self.word, SeqCst) }
    }

    /// Writes `to` if the word is `from`, and answers the word as it was. The right comes where that sets bit 0, and
    /// goes where it clears it.
    pub fn exchange(&self, claim: &mut Claim, from: u64, to: u64) -> u64
        requires { (claim.old.name ≡ self.now) × MayExchange claim.old.owned from to }
        ensures { (claim.new.name ≡ self.now) × (result ≡ from → claim.new.owned ≡ then_owned claim.old.owned from to)
            × (result ≢ from → claim.new.owned ≡ claim.old.owned) }
    {
        unsafe { exchange::<Brand>(&raw const self.word, from, to) }
    }
}

impl Drop for LockWord {
    fn drop(self) {
        let Self { word: _ } = self;
    }
}

unsafe impl Send for LockWord {}

unsafe impl Sync for LockWord {}
