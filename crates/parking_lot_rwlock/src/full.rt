//! Which words admit one more.
ghost use Rattle.std.specs.Prelude.{◌≡◌, ◌-◌, ◌/◌, ◌^◌, ◌&&◌, ◌||◌, nat_lt, not, ◌≤◌};
ghost use Rattle.lock_api_raw.specs.Limits.{kept_limit};
ghost use Rattle.parking_lot_protocol.specs.RwTable.{is_upgradable, is_written};

use parking_lot_protocol::word;
use parking_lot_protocol::word::{MAX_READERS, READER};
use std::marker::Model;

/// Whether a reader is admitted at once: no writer owns the lock or waits for readers to leave, and the word is less
/// than one with the most readers.
#[inline(always)]
pub(crate) fn is_open(word: u64, full: u64) -> bool
    ensures { result ≡ (not (is_written word) && nat_lt word full) }
{
    !word::is_written(word) && word < full
}

/// Whether an upgradable owner is admitted at once: neither a writer nor another upgradable owner keeps it out, and the
/// word is less than one with the most readers.
#[inline(always)]
pub(crate) fn is_open_to_upgradable(word: u64, full: u64) -> bool
    ensures { result ≡ (not (is_written word || is_upgradable word) && nat_lt word full) }
{
    !(word::is_written(word) || word::is_upgradable(word)) && word < full
}

/// The word at which no reader more is admitted: 16 times the most readers.
#[derive(Drop)]
pub(crate) struct Full {
    word: u64,
}

impl Model for Full {
    ghost use Rattle.std.specs.Prelude.{ℕ, ◌≤◌, ◌-◌, ◌^◌};

    ghost Value = { ℕ };

    ghost view = { λ full. full.word };

    ghost invariant = { λ full. full.word ≤ 2 ^ 64 - 16 };
}

impl Full {
    /// That of a lock with at most so many readers, where 0 counts as 1, or as many as a word can count.
    pub fn of(readers: u64) -> Full
        ensures { result / 16 ≡ kept_limit (2 ^ 60 - 1) readers }
    {
        Full {
            word: readers.max(1).min(MAX_READERS) * READER,
        }
    }

    /// The word.
    #[inline(always)]
    pub fn word(&self) -> u64
        ensures value { result ≡ self.now }
        ensures most { result ≤ 2 ^ 64 - 16 }
    {
        self.word
    }
}
