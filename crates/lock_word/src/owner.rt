//! The owner of a lock.
ghost use Rattle.std.specs.Prelude.{◌≡◌, ◌≢◌, ◌%◌, ℕ, IfOk, IfErr};

use crate::claim::Claim;
use crate::lock_word::LockWord;
use std::marker::Model;

/// That a lock is owned: a claim that is the right. In a clause it is the name of the lock.
///
/// It takes no memory and may be handed to another thread. It can be neither copied nor dropped, so it is given back,
/// and given back once.
pub struct Owner {
    claim: Claim,
    ghost right: { claim.owned ≡ 1 },
}

impl Model for Owner {
    ghost use Rattle.std.specs.Prelude.{ℕ};

    ghost Value = { ℕ };

    ghost view = { λ owner. owner.claim.name };
}

impl Owner {
    /// Two threads never own one lock: a program in which they did could go no further.
    pub fn never_two(self, other: Owner)
        requires { self ≡ other }
        ensures { ⊥ }
    {
        let Owner { claim } = self;
        let Owner { claim: second } = other;
        claim.never_two(second);
    }

    /// The claim.
    #[inline(always)]
    pub fn into_claim(self) -> Claim
        ensures { (result.name ≡ self) × (result.owned ≡ 1) }
    {
        let Owner { claim } = self;
        claim
    }
}

impl Claim {
    /// That the lock is owned, of a claim that is the right.
    #[inline(always)]
    pub fn into_owner(self) -> Owner
        requires { self.owned ≡ 1 }
        ensures { result ≡ self.name }
    {
        Owner { claim: self }
    }
}

impl LockWord {
    /// Makes an exchange that sets bit 0. Where the word isn't `from` it answers the word.
    #[inline(always)]
    pub fn acquire(&self, from: u64, to: u64) -> Result<Owner, u64>
        requires { (from % 2 ≡ 0) × (to % 2 ≡ 1) }
        ensures won { IfOk result (λ owner. owner ≡ self.now) }
        ensures lost { IfErr result (λ word. word ≢ from) }
    {
        let mut claim = self.no_claim();
        let seen = self.exchange(&mut claim, from, to);
        if seen == from {
            Ok(claim.into_owner())
        } else {
            claim.end();
            Err(seen)
        }
    }

    /// Makes an exchange that clears bit 0. Where the word isn't `from` it answers the owner and the word.
    #[inline(always)]
    pub fn release(&self, owner: Owner, from: u64, to: u64) -> Result<(), (Owner, u64)>
        requires { (owner ≡ self.now) × (from % 2 ≡ 1) × (to % 2 ≡ 0) }
        ensures { IfErr result (λ kept. (kept.0 ≡ self.now) × (kept.1 ≢ from)) }
    {
        let mut claim = owner.into_claim();
        let found = self.exchange(&mut claim, from, to);
        if found == from {
            claim.end();
            Ok(())
        } else {
            Err((claim.into_owner(), found))
        }
    }

    /// Makes an exchange that leaves bit 0 as it is, for which nobody needs to own the lock. Where the word isn't
    /// `from` it answers the word.
    #[inline(always)]
    pub fn change(&self, from: u64, to: u64) -> Result<(), u64>
        requires { from % 2 ≡ to % 2 }
        ensures { IfErr result (λ word. word ≢ from) }
    {
        let mut claim = self.no_claim();
        let word = self.exchange(&mut claim, from, to);
        claim.end();
        if word == from { Ok(()) } else { Err(word) }
    }
}
