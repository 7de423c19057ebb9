//! A raw state in one word.
ghost use Rattle.std.specs.Prelude.{◌≡◌, ◌+◌, ◌-◌, ◌^◌, ◌≤◌, ◌<◌, min, max};
ghost use Rattle.lock_api_desk.specs.Out.{nothing_out};
ghost use Rattle.lock_api_desk.specs.Words.{word_of, word_with_shared, word_with_exclusive, word_with_upgradable};
ghost use Rattle.lock_api_desk.specs.Words.{word_with_upgrade, HasShared, HasExclusive, HasUpgradable};

use crate::raw::RawState;
use lock_api_raw::MAX_READERS;
use std::marker::Model;

/// What an exclusive hold adds to the word.
const EXCLUSIVE: u64 = 8;

/// What an upgradable hold adds to the word beside its reader.
const UPGRADABLE: u64 = 4;

/// What a reader adds to the word.
const READER: u64 = 16;

/// The token of a hold of a [`PackedWord`]. It takes no memory, and only a word makes one.
#[derive(Drop)]
pub struct WordToken {
    _issued: (),
}

/// A raw state in one 64-bit word: 8 for exclusive, 4 for upgradable, 16 for each reader, the upgradable one counted.
///
/// A contract sees it as its limit and the holds that are out, as a [`TokenTable`](crate::TokenTable) is seen. The
/// functions from word to word are those that a lock makes exchanges by: `with_..` answers None where the hold isn't
/// admitted, and the others ask that the hold is in the word.
///
/// ```rust
/// let word = PackedWord::with_upgradable(16, 4);   // Some(36): a reader, and the upgradable one
/// ```
#[derive(Drop)]
pub struct PackedWord {
    limit: u64,
    word: u64,
}

impl Model for PackedWord {
    ghost use Rattle.lock_api_desk.specs.Out.{Counts};
    ghost use Rattle.lock_api_desk.specs.Words.{out_in, IsPacked};

    ghost Value = { Counts };

    ghost view = { λ p. record { limit = p.limit; out = out_in p.word } };

    ghost invariant = { λ p. IsPacked p.limit p.word };
}

impl PackedWord {
    /// The word is 0. The limit is the lesser of `readers`, where 0 counts as 1, and 2^60 - 1. It takes no memory.
    ///
    /// ```text
    /// let word = PackedWord::new(8).word();   // 0
    /// ```
    pub fn new(readers: u64) -> PackedWord
        ensures { result ≡ record { limit = min (max readers 1) (2 ^ 60 - 1); out = nothing_out } }
    {
        PackedWord {
            limit: readers.max(1).min(MAX_READERS),
            word: 0,
        }
    }

    /// The word as it stands.
    ///
    /// ```text
    /// let mut state = PackedWord::new(8);
    /// let _reader = state.try_shared();
    /// let word = state.word();   // 16
    /// ```
    pub fn word(&self) -> u64
        ensures { result ≡ word_of self.now.out }
    {
        let PackedWord { word, .. } = self;
        *word
    }

    /// The word with one more reader: where bit 8 is clear and the count is below the limit, and a word can count so
    /// many.
    ///
    /// ```text
    /// let more = PackedWord::with_shared(16, 2);   // Some(32)
    /// let full = PackedWord::with_shared(32, 2);   // None
    /// ```
    pub fn with_shared(word: u64, limit: u64) -> Option<u64>
        ensures { result ≡ word_with_shared limit word }
    {
        if word / EXCLUSIVE % 2 == 0 && word / READER < limit.min(MAX_READERS) {
            Some(word + READER)
        } else {
            None
        }
    }

    /// The word with the exclusive hold: where the word is 0.
    ///
    /// ```text
    /// let alone = PackedWord::with_exclusive(0);   // Some(8)
    /// ```
    pub fn with_exclusive(word: u64) -> Option<u64>
        ensures { result ≡ word_with_exclusive word }
    {
        if word == 0 { Some(EXCLUSIVE) } else { None }
    }

    /// The word with the upgradable hold and its reader: where bits 8 and 4 are clear and the count is below the limit,
    /// and a word can count so many.
    ///
    /// ```text
    /// let upgradable = PackedWord::with_upgradable(16, 4);   // Some(36)
    /// ```
    pub fn with_upgradable(word: u64, limit: u64) -> Option<u64>
        ensures { result ≡ word_with_upgradable limit word }
    {
        if word / UPGRADABLE % 4 == 0 && word / READER < limit.min(MAX_READERS) {
            Some(word + UPGRADABLE + READER)
        } else {
            None
        }
    }

    /// The word with the exclusive hold in place of the upgradable one: where that is all there is.
    ///
    /// ```text
    /// let alone = PackedWord::with_upgrade(20);    // Some(8)
    /// let beside = PackedWord::with_upgrade(36);   // None: a reader more
    /// ```
    pub fn with_upgrade(word: u64) -> Option<u64>
        ensures { result ≡ word_with_upgrade word }
    {
        if word == UPGRADABLE + READER {
            Some(EXCLUSIVE)
        } else {
            None
        }
    }

    /// The word without one shared reader.
    ///
    /// ```text
    /// let free = PackedWord::without_shared(16);   // 0
    /// ```
    pub fn without_shared(word: u64) -> u64
        requires { HasShared word }
        ensures { result ≡ word - 16 }
    {
        word - READER
    }

    /// The word without the exclusive hold.
    ///
    /// ```text
    /// let free = PackedWord::without_exclusive(8);   // 0
    /// ```
    pub fn without_exclusive(word: u64) -> u64
        requires { HasExclusive word }
        ensures { result ≡ word - 8 }
    {
        word - EXCLUSIVE
    }

    /// The word without the upgradable hold and its reader.
    ///
    /// ```text
    /// let reader = PackedWord::without_upgradable(36);   // 16
    /// ```
    pub fn without_upgradable(word: u64) -> u64
        requires { HasUpgradable word }
        ensures { result ≡ word - 20 }
    {
        word - (UPGRADABLE + READER)
    }

    /// The word with a shared reader in place of the exclusive hold.
    ///
    /// ```text
    /// let reader = PackedWord::to_shared(8);   // 16
    /// ```
    pub fn to_shared(word: u64) -> u64
        requires { HasExclusive word }
        ensures { result ≡ word + 8 }
    {
        word + (READER - EXCLUSIVE)
    }

    /// The word with the upgradable hold in place of the exclusive one.
    ///
    /// ```text
    /// let upgradable = PackedWord::to_upgradable(8);   // 20
    /// ```
    pub fn to_upgradable(word: u64) -> u64
        requires { HasExclusive word }
        ensures { result ≡ word + 12 }
    {
        word + (UPGRADABLE + READER - EXCLUSIVE)
    }

    /// The word with a shared reader in place of the upgradable hold.
    ///
    /// ```text
    /// let reader = PackedWord::upgradable_to_shared(20);   // 16
    /// ```
    pub fn upgradable_to_shared(word: u64) -> u64
        requires { HasUpgradable word }
        ensures { result ≡ word - 4 }
    {
        word - UPGRADABLE
    }
}

impl RawState for PackedWord {
    type Shared = WordToken;

    type Exclusive = WordToken;

    type Upgradable = WordToken;

    ghost out = { λ p. p.out };

    ghost limit_of = { λ p. p.limit };

    fn limit(&self) -> u64 {
        self.limit
    }

    fn readers_full(&self) -> bool {
        self.limit <= self.word / READER
    }

    fn try_shared(&mut self) -> Option<WordToken> {
        let word = PackedWord::with_shared(self.word, self.limit)?;
        self.word = word;
        Some(WordToken { _issued: () })
    }

    fn try_exclusive(&mut self) -> Option<WordToken> {
        let word = PackedWord::with_exclusive(self.word)?;
        self.word = word;
        Some(WordToken { _issued: () })
    }

    fn try_upgradable(&mut self) -> Option<WordToken> {
        let word = PackedWord::with_upgradable(self.word, self.limit)?;
        self.word = word;
        Some(WordToken { _issued: () })
    }

    fn try_upgrade(&mut self, token: WordToken) -> Result<WordToken, WordToken> {
        match PackedWord::with_upgrade(self.word) {
            Some(word) => {
                self.word = word;
                Ok(token)
            }
            None => Err(token),
        }
    }

    fn downgrade(&mut self, token: WordToken) -> WordToken {
        self.word = PackedWord::to_shared(self.word);
        token
    }

    fn downgrade_to_upgradable(&mut self, token: WordToken) -> WordToken {
        self.word = PackedWord::to_upgradable(self.word);
        token
    }

    fn downgrade_upgradable(&mut self, token: WordToken) -> WordToken {
        self.word = PackedWord::upgradable_to_shared(self.word);
        token
    }

    fn release_shared(&mut self, _token: WordToken) {
        self.word = PackedWord::without_shared(self.word);
    }

    fn release_exclusive(&mut self, _token: WordToken) {
        self.word = PackedWord::without_exclusive(self.word);
    }

    fn release_upgradable(&mut self, _token: WordToken) {
        self.word = PackedWord::without_upgradable(self.word);
    }
}
