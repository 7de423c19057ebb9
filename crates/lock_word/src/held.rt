//! What a thread has of a reader-writer lock, known at run time.
ghost use Rattle.std.specs.Prelude.{◌≡◌, ◌≢◌, ℕ, IfOk, IfErr, IfSome, IsTrue};
ghost use Rattle.lock_word.specs.Sharing.{MayFind, MayExchange, then_held, lying};

use crate::shared_claim::SharedClaim;
use crate::shared_handoff::{EXCLUSIVE, PENDING, READER, SharedHandoff, UPGRADABLE};
use crate::shared_rights::{Exclusive, Pending, Reader, Upgradable};
use crate::shared_word::SharedWord;
use std::marker::Model;

/// The rights that a thread has to a lock, and their number: 16 for each reader's share, 8 for a pending writer's
/// right, 4 for an upgradable owner's, and 2 for an exclusive owner's.
///
/// What a step needs is looked at when it is made. In a clause it is the name of the lock.
pub struct Held {
    claim: SharedClaim,
    number: u64,
    ghost same: { claim.held ≡ lying number },
}

impl Model for Held {
    ghost use Rattle.std.specs.Prelude.{ℕ};

    ghost Value = { ℕ };

    ghost view = { λ held. held.claim.name };
}

/// Whether one with these rights may change the one number to the other.
fn may(number: u64, from: u64, to: u64) -> bool
    ensures { IsTrue result → MayExchange (lying number) from to }
{
    from / 16 <= number / 16 + to / 16
        && from / 4 % 2 <= number / 4 % 2 + to / 4 % 2
        && from / 8 % 2 <= number / 8 % 2 + number / 2 % 2 + to / 8 % 2
        && to / 4 % 2 + to / 8 % 2 <= 1
        && (to / 16).min(1) + from / 8 % 2 <= from / 16 + number / 8 % 2 + number / 2 % 2 + 1
}

/// The number of the rights that one with these has then, if there is one.
fn then(number: u64, from: u64, to: u64) -> Option<u64>
    ensures { IfSome result (λ next. lying next ≡ then_held (lying number) from to) }
{
    let readers = (number / 16 + to / 16).saturating_sub(from / 16);
    let upgradable = (number / 4 % 2 + to / 4 % 2).saturating_sub(from / 4 % 2);
    let writer = (number / 8 % 2 + number / 2 % 2 + to / 8 % 2).saturating_sub(from / 8 % 2);
    if readers < 0x1000_0000_0000_0000 && upgradable < 2 && writer < 2 {
        let right = if to / 16 == 0 { EXCLUSIVE } else { PENDING };
        Some(readers * READER + upgradable * UPGRADABLE + writer * right)
    } else {
        None
    }
}

/// The number of a writer's rights once it has seen the word.
fn seen(number: u64, word: u64) -> u64
    ensures { MayFind (lying number) word → lying result ≡ then_held (lying number) word word }
{
    if number / 8 % 2 == 1 && word < 16 {
        number - PENDING + EXCLUSIVE
    } else {
        number
    }
}

impl SharedWord {
    /// What has nothing.
    #[inline(always)]
    pub fn nothing_held(&self) -> Held
        ensures { result ≡ self.now }
    {
        Held {
            claim: self.no_claim(),
            number: 0,
        }
    }

    /// Loads the word. A writer that sees no readers owns the lock alone from then on.
    #[inline(always)]
    pub fn look_by(&self, held: &mut Held) -> u64
        requires { held.old ≡ self.now }
        ensures { held.new ≡ self.now }
    {
        let word = self.look(&mut held.claim);
        held.number = seen(held.number, word);
        word
    }

    /// Writes `to` if the word is `from`, and else answers the word. It does nothing, and answers `None`, where one
    /// with these rights may not.
    #[inline(always)]
    pub fn exchange_by(&self, held: &mut Held, from: u64, to: u64) -> Option<Result<(), u64>>
        requires { held.old ≡ self.now }
        ensures name { held.new ≡ self.now }
        ensures lost { IfSome result (λ done. IfErr done (λ word. word ≢ from)) }
    {
        if !may(held.number, from, to) {
            return None;
        }
        let next = then(held.number, from, to)?;
        let word = self.exchange(&mut held.claim, from, to);
        if word == from {
            held.number = next;
            Some(Ok(()))
        } else {
            Some(Err(word))
        }
    }
}

impl Held {
    /// The number of its rights.
    #[inline(always)]
    pub fn number(&self) -> u64 {
        self.number
    }

    /// Ends it, if it has nothing: bit 0 of the number says nothing.
    #[inline(always)]
    pub fn end(self) -> Result<(), Held>
        ensures { IfErr result (λ held. held ≡ self) }
    {
        let Held { claim, number } = self;
        if number < EXCLUSIVE {
            claim.end();
            Ok(())
        } else {
            Err(Held { claim, number })
        }
    }

    /// That the lock is read, if it has one reader's share and nothing else.
    #[inline(always)]
    pub fn into_reader(self) -> Result<Reader, Held>
        ensures is { IfOk result (λ reader. reader ≡ self) }
        ensures is_not { IfErr result (λ held. held ≡ self) }
    {
        let Held { claim, number } = self;
        if number == READER {
            Ok(claim.into_reader())
        } else {
            Err(Held { claim, number })
        }
    }

    /// That the lock is read by the one that may upgrade, if it has the rights of that and nothing else.
    #[inline(always)]
    pub fn into_upgradable(self) -> Result<Upgradable, Held>
        ensures is { IfOk result (λ owner. owner ≡ self) }
        ensures is_not { IfErr result (λ held. held ≡ self) }
    {
        let Held { claim, number } = self;
        if number == READER + UPGRADABLE {
            Ok(claim.into_upgradable())
        } else {
            Err(Held { claim, number })
        }
    }

    /// That the lock is written, if it has the right of an exclusive owner and nothing else.
    #[inline(always)]
    pub fn into_exclusive(self) -> Result<Exclusive, Held>
        ensures is { IfOk result (λ owner. owner ≡ self) }
        ensures is_not { IfErr result (λ held. held ≡ self) }
    {
        let Held { claim, number } = self;
        if number == EXCLUSIVE {
            Ok(claim.into_exclusive())
        } else {
            Err(Held { claim, number })
        }
    }
}

impl Reader {
    /// The same, known at run time.
    #[inline(always)]
    pub fn into_held(self) -> Held
        ensures { result ≡ self }
    {
        Held {
            claim: self.into_claim(),
            number: READER,
        }
    }
}

impl Upgradable {
    /// The same, known at run time.
    #[inline(always)]
    pub fn into_held(self) -> Held
        ensures { result ≡ self }
    {
        Held {
            claim: self.into_claim(),
            number: READER + UPGRADABLE,
        }
    }
}

impl Pending {
    /// The same, known at run time.
    #[inline(always)]
    pub fn into_held(self) -> Held
        ensures { result ≡ self }
    {
        Held {
            claim: self.into_claim(),
            number: PENDING,
        }
    }
}

impl Exclusive {
    /// The same, known at run time.
    #[inline(always)]
    pub fn into_held(self) -> Held
        ensures { result ≡ self }
    {
        Held {
            claim: self.into_claim(),
            number: EXCLUSIVE,
        }
    }
}

impl SharedHandoff {
    /// Leaves all that it has for other threads, if it can by one step, as [`SharedHandoff::leave`].
    #[inline(always)]
    pub fn leave_held(&self, held: Held) -> Result<(), Held>
        requires { held ≡ self.now.word }
        ensures { IfErr result (λ held. held ≡ self.now.word) }
    {
        let Held { claim, number } = held;
        match self.leave(claim, number) {
            Ok(()) => Ok(()),
            Err(claim) => Err(Held { claim, number }),
        }
    }

    /// Takes rights that were left, if they lie there and it can by one step.
    #[inline(always)]
    pub fn pick_up(&self, share: u64) -> Option<Held>
        ensures { IfSome result (λ held. held ≡ self.now.word) }
    {
        match self.take(share) {
            Some(claim) => Some(Held {
                claim,
                number: share,
            }),
            None => None,
        }
    }
}
