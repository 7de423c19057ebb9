//! The steps of a reader-writer lock that nobody else is at, each one instruction.
ghost use Rattle.std.specs.Prelude.{◌≡◌, ◌≢◌, ◌+◌, ◌/◌, ◌%◌, ◌^◌, ◌<◌, ℕ, IfOk, IfErr};

use crate::shared_rights::{Exclusive, Pending, Reader, Upgradable};
use crate::shared_word::SharedWord;

/// What the number says less without a reader, modulo 2^64.
const LESS_A_READER: u64 = 0xffff_ffff_ffff_fff0;

/// What it says less without an upgradable owner, who has a reader's share as well.
const LESS_AN_UPGRADABLE: u64 = 0xffff_ffff_ffff_ffec;

/// A reader in place of an upgradable owner.
const READER_FOR_UPGRADABLE: u64 = 0xffff_ffff_ffff_fffc;

/// A writer in place of an upgradable owner.
const WRITER_FOR_UPGRADABLE: u64 = 0xffff_ffff_ffff_fff4;

/// A reader in place of a writer.
const READER_FOR_WRITER: u64 = 8;

/// An upgradable owner in place of a writer.
const UPGRADABLE_FOR_WRITER: u64 = 12;

impl SharedWord {
    /// Reads the lock, if the word is this one, which has no writer. Else it answers the word.
    #[inline(always)]
    pub fn read(&self, word: u64) -> Result<Reader, u64>
        requires no_writer { word / 8 % 2 ≡ 0 }
        requires room { word + 16 < 2 ^ 64 }
        ensures won { IfOk result (λ reader. reader ≡ self.now) }
        ensures lost { IfErr result (λ seen. seen ≢ word) }
    {
        let mut claim = self.no_claim();
        let seen = self.exchange(&mut claim, word, word + 16);
        if seen == word {
            Ok(claim.into_reader())
        } else {
            claim.end();
            Err(seen)
        }
    }

    /// Reads the lock as the one that may upgrade, if the word is this one, which has neither such a one nor a
    /// writer. Else it answers the word.
    #[inline(always)]
    pub fn own_upgradably(&self, word: u64) -> Result<Upgradable, u64>
        requires no_writer { word / 8 % 2 ≡ 0 }
        requires no_upgradable { word / 4 % 2 ≡ 0 }
        requires room { word + 16 < 2 ^ 64 }
        ensures won { IfOk result (λ owner. owner ≡ self.now) }
        ensures lost { IfErr result (λ seen. seen ≢ word) }
    {
        let mut claim = self.no_claim();
        let seen = self.exchange(&mut claim, word, word + 20);
        if seen == word {
            Ok(claim.into_upgradable())
        } else {
            claim.end();
            Err(seen)
        }
    }

    /// Writes under the lock, if the word is 0. Else it answers the word.
    #[inline(always)]
    pub fn write(&self) -> Result<Exclusive, u64>
        ensures won { IfOk result (λ owner. owner ≡ self.now) }
        ensures lost { IfErr result (λ seen. seen ≢ 0) }
    {
        let mut claim = self.no_claim();
        let seen = self.exchange(&mut claim, 0, 8);
        if seen == 0 {
            Ok(claim.into_exclusive())
        } else {
            claim.end();
            Err(seen)
        }
    }

    /// Reads no longer, and answers the word before.
    #[inline(always)]
    pub fn end_read(&self, reader: Reader) -> u64
        requires { reader ≡ self.now }
    {
        let mut claim = reader.into_claim();
        let word = self.add(&mut claim, LESS_A_READER);
        claim.end();
        word
    }

    /// Writes no longer, if the word is 8. Else it answers the owner and the word.
    #[inline(always)]
    pub fn end_write(&self, owner: Exclusive) -> Result<(), (Exclusive, u64)>
        requires { owner ≡ self.now }
        ensures { IfErr result (λ kept. (kept.0 ≡ self.now) × (kept.1 ≢ 8)) }
    {
        let mut claim = owner.into_claim();
        let seen = self.exchange(&mut claim, 8, 0);
        if seen == 8 {
            claim.end();
            Ok(())
        } else {
            Err((claim.into_exclusive(), seen))
        }
    }

    /// Reads no longer as the one that may upgrade, if the word is this one. Else it answers the owner and the word.
    #[inline(always)]
    pub fn end_upgradable(&self, owner: Upgradable, word: u64) -> Result<(), (Upgradable, u64)>
        requires { owner ≡ self.now }
        ensures { IfErr result (λ kept. (kept.0 ≡ self.now) × (kept.1 ≢ word)) }
    {
        let mut claim = owner.into_claim();
        let seen = self.exchange(&mut claim, word, word.wrapping_add(LESS_AN_UPGRADABLE));
        if seen == word {
            claim.end();
            Ok(())
        } else {
            Err((claim.into_upgradable(), seen))
        }
    }

    /// A writer reads instead. It answers the word before.
    #[inline(always)]
    pub fn downgrade(&self, owner: Exclusive) -> (Reader, u64)
        requires { owner ≡ self.now }
        ensures { result.0 ≡ self.now }
    {
        let mut claim = owner.into_claim();
        let word = self.add(&mut claim, READER_FOR_WRITER);
        (claim.into_reader(), word)
    }

    /// A writer reads instead, as the one that may upgrade. It answers the word before.
    #[inline(always)]
    pub fn downgrade_to_upgradable(&self, owner: Exclusive) -> (Upgradable, u64)
        requires { owner ≡ self.now }
        ensures { result.0 ≡ self.now }
    {
        let mut claim = owner.into_claim();
        let word = self.add(&mut claim, UPGRADABLE_FOR_WRITER);
        (claim.into_upgradable(), word)
    }

    /// The one that may upgrade may do so no longer, and reads on. It answers the word before.
    #[inline(always)]
    pub fn downgrade_upgradable(&self, owner: Upgradable) -> (Reader, u64)
        requires { owner ≡ self.now }
        ensures { result.0 ≡ self.now }
    {
        let mut claim = owner.into_claim();
        let word = self.add(&mut claim, READER_FOR_UPGRADABLE);
        (claim.into_reader(), word)
    }

    /// The one that may upgrade reads no longer, and writes: at once where nobody else reads. Else it waits for
    /// readers to leave, and has the word before.
    #[inline(always)]
    pub fn upgrade(&self, owner: Upgradable) -> Result<Exclusive, (Pending, u64)>
        requires { owner ≡ self.now }
        ensures won { IfOk result (λ owner. owner ≡ self.now) }
        ensures waits { IfErr result (λ kept. kept.0 ≡ self.now) }
    {
        let mut claim = owner.into_claim();
        let word = self.add(&mut claim, WRITER_FOR_UPGRADABLE);
        if word.wrapping_add(WRITER_FOR_UPGRADABLE) / 16 == 0 {
            Ok(claim.into_exclusive())
        } else {
            Err((claim.into_pending(), word))
        }
    }

    /// The one that may upgrade writes instead, if the word is 20: nobody else reads. Else it answers the owner and
    /// the word.
    #[inline(always)]
    pub fn try_upgrade(&self, owner: Upgradable) -> Result<Exclusive, (Upgradable, u64)>
        requires { owner ≡ self.now }
        ensures won { IfOk result (λ owner. owner ≡ self.now) }
        ensures lost { IfErr result (λ kept. (kept.0 ≡ self.now) × (kept.1 ≢ 20)) }
    {
        let mut claim = owner.into_claim();
        let seen = self.exchange(&mut claim, 20, 8);
        if seen == 20 {
            Ok(claim.into_exclusive())
        } else {
            Err((claim.into_upgradable(), seen))
        }
    }
}
