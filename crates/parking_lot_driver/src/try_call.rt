//! The tries of a reader-writer lock: the exchange by which each is admitted, and the right that this gives.
ghost use Rattle.std.specs.Prelude.{◌≡◌, ◌≢◌, ◌==◌, ⊤, ℕ, IfOk, IfErr, true, false};
ghost use Rattle.parking_lot_driver.specs.Runs.{is_on_the_word};
ghost use Rattle.parking_lot_protocol.specs.declared.act.Act.TheVariants.{Load, Exchange, Done};
ghost use Rattle.parking_lot_protocol.specs.declared.act.ActResult.TheVariants.{Start, Word, Exchanged};
ghost use Rattle.parking_lot_protocol.specs.declared.act.CoreAnswer.TheVariants.{Owned};

use crate::call::{Call, TryRead, TryWrite};
use crate::upgrade_call::{TryToOwnUpgradably, TryToUpgrade};
use lock_word::{Exclusive, Reader, SharedWord, Upgradable};

/// A kind of try: what its caller has in hand, and what it has in place of that once the try was admitted.
///
/// Its core is of the kind that it says: it asks for no exchange but one by which what is in hand becomes what it is to
/// have.
pub trait TryCall: Call {
    /// What its caller has in hand.
    type Had;

    /// What it has once the try was admitted.
    type Gained;

    /// That what is in hand is of the lock with this name.
    ghost is_of: { Self.Had → ℕ → Type 0 };

    /// That what it has then is of the lock with this name.
    ghost gained_of: { Self.Gained → ℕ → Type 0 };

    /// The exchanges by which it is admitted.
    ghost may: { ℕ → ℕ → Type 0 };

    /// A core of such a try that is under way, or was refused.
    ghost trying: { Self.Core → Type 0 };

    /// Makes the exchange that the try asks for. Where it is lost, what was in hand comes back, and the word.
    fn step(
        word: &SharedWord,
        had: Self::Had,
        from: u64,
        to: u64,
    ) -> Result<Self::Gained, (Self::Had, u64)>
        requires name { is_of had word.now }
        requires may { may from to }
        ensures won { IfOk result (λ gained. gained_of gained word.now) }
        ensures kept { IfErr result (λ kept. is_of kept.0 word.now) }
        ensures lost { IfErr result (λ kept. kept.1 ≢ from) };

    /// Its core begins so.
    ghost begins: { trying (Self.Core.told Self.begun Start) };

    /// It goes on so at each word that an act at the word shows.
    ghost goes_on: { (core : Self.Core) → (word : ℕ) → trying core → is_on_the_word (Self.Core.asks core) ≡ true
        → trying (Self.Core.told core (Word word)) };

    /// The exchanges that it asks for are its own, and admit it.
    ghost exchanges: { (core : Self.Core) → (from : ℕ) → (to : ℕ) → trying core → Self.Core.asks core ≡ Exchange from to
        → may from to × (Self.Core.asks (Self.Core.told core Exchanged) ≡ Done Owned) };

    /// It asks for looks and exchanges alone, until it was refused.
    ghost is_over: { (core : Self.Core) → trying core → Self.Core.asks core ≢ Load
        → ((from : ℕ) → (to : ℕ) → Self.Core.asks core ≢ Exchange from to)
        → (is_on_the_word (Self.Core.asks core) ≡ false) × (Self.Core.asks core ≢ Done Owned) };
}

impl<const RECURSIVE: u8> TryCall for TryRead<RECURSIVE> {
    ghost use Rattle.std.specs.Prelude.{refl};
    ghost use Rattle.std.proofs.Common.{inl};
    ghost use Rattle.lock_word.specs.Rights.{nothing, a_reader};
    ghost use Rattle.parking_lot_driver.specs.Trying as tries;
    ghost use Rattle.parking_lot_protocol.specs.declared.rw_phase.LockMode.TheVariants.{Shared};

    type Had = ();

    type Gained = Reader;

    ghost is_of = { λ _ _. ⊤ };

    ghost gained_of = { λ reader name. reader ≡ name };

    ghost may = { tries.Turns nothing a_reader };

    ghost trying = { tries.IsTrying (tries.sharing (Shared (RECURSIVE == 1))) };

    #[inline(always)]
    fn step(word: &SharedWord, _had: (), from: u64, to: u64) -> Result<Reader, ((), u64)> {
        let mut claim = word.no_claim();
        let seen = word.exchange(&mut claim, from, to);
        if seen == from {
            Ok(claim.into_reader())
        } else {
            claim.end();
            Err(((), seen))
        }
    }

    ghost begins = { inl refl };

    ghost goes_on = { tries.goes_on (tries.sharing (Shared (RECURSIVE == 1))) };

    ghost exchanges = { tries.exchanges (tries.sharing (Shared (RECURSIVE == 1))) (tries.Turns nothing a_reader)
        (tries.reads (RECURSIVE == 1)) };

    ghost is_over = { tries.is_over (tries.sharing (Shared (RECURSIVE == 1))) };
}

impl TryCall for TryWrite {
    ghost use Rattle.std.specs.Prelude.{refl};
    ghost use Rattle.std.proofs.Common.{inl};
    ghost use Rattle.lock_word.specs.Rights.{nothing, an_exclusive};
    ghost use Rattle.parking_lot_driver.specs.Trying as tries;
    ghost use Rattle.parking_lot_protocol.specs.declared.rw_phase.LockMode.TheVariants as want;

    type Had = ();

    type Gained = Exclusive;

    ghost is_of = { λ _ _. ⊤ };

    ghost gained_of = { λ owner name. owner ≡ name };

    ghost may = { tries.Turns nothing an_exclusive };

    ghost trying = { tries.IsTrying (tries.sharing want.Exclusive) };

    #[inline(always)]
    fn step(word: &SharedWord, _had: (), from: u64, to: u64) -> Result<Exclusive, ((), u64)> {
        let mut claim = word.no_claim();
        let seen = word.exchange(&mut claim, from, to);
        if seen == from {
            Ok(claim.into_exclusive())
        } else {
            claim.end();
            Err(((), seen))
        }
    }

    ghost begins = { inl refl };

    ghost goes_on = { tries.goes_on (tries.sharing want.Exclusive) };

    ghost exchanges = { tries.exchanges (tries.sharing want.Exclusive) (tries.Turns nothing an_exclusive)
        tries.writes };

    ghost is_over = { tries.is_over (tries.sharing want.Exclusive) };
}

impl TryCall for TryToOwnUpgradably {
    ghost use Rattle.std.specs.Prelude.{refl};
    ghost use Rattle.std.proofs.Common.{inl};
    ghost use Rattle.lock_word.specs.Rights.{nothing, an_upgradable};
    ghost use Rattle.parking_lot_driver.specs.Trying as tries;

    type Had = ();

    type Gained = Upgradable;

    ghost is_of = { λ _ _. ⊤ };

    ghost gained_of = { λ owner name. owner ≡ name };

    ghost may = { tries.Turns nothing an_upgradable };

    ghost trying = { tries.IsTrying tries.owning };

    #[inline(always)]
    fn step(word: &SharedWord, _had: (), from: u64, to: u64) -> Result<Upgradable, ((), u64)> {
        let mut claim = word.no_claim();
        let seen = word.exchange(&mut claim, from, to);
        if seen == from {
            Ok(claim.into_upgradable())
        } else {
            claim.end();
            Err(((), seen))
        }
    }

    ghost begins = { inl refl };

    ghost goes_on = { tries.goes_on tries.owning };

    ghost exchanges = { tries.exchanges tries.owning (tries.Turns nothing an_upgradable) tries.owns };

    ghost is_over = { tries.is_over tries.owning };
}

impl TryCall for TryToUpgrade {
    ghost use Rattle.std.specs.Prelude.{refl};
    ghost use Rattle.std.proofs.Common.{inl};
    ghost use Rattle.lock_word.specs.Rights.{an_upgradable, an_exclusive};
    ghost use Rattle.parking_lot_driver.specs.Trying as tries;

    type Had = Upgradable;

    type Gained = Exclusive;

    ghost is_of = { λ owner name. owner ≡ name };

    ghost gained_of = { λ owner name. owner ≡ name };

    ghost may = { tries.Turns an_upgradable an_exclusive };

    ghost trying = { tries.IsTrying tries.upgrading };

    #[inline(always)]
    fn step(
        word: &SharedWord,
        had: Upgradable,
        from: u64,
        to: u64,
    ) -> Result<Exclusive, (Upgradable, u64)> {
        let mut claim = had.into_claim();
        let seen = word.exchange(&mut claim, from, to);
        if seen == from {
            Ok(claim.into_exclusive())
        } else {
            Err((claim.into_upgradable(), seen))
        }
    }

    ghost begins = { inl refl };

    ghost goes_on = { tries.goes_on tries.upgrading };

    ghost exchanges = { tries.exchanges tries.upgrading (tries.Turns an_upgradable an_exclusive) tries.upgrades };

    ghost is_over = { tries.is_over tries.upgrading };
}
