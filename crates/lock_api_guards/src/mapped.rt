//! Guards that are narrowed to a part of their value.
ghost use Rattle.std.specs.Prelude.{◌≡◌, Some};
ghost use Rattle.std.specs.Borrow.{Lends, sem};
ghost use Rattle.lock_api_raw.specs.Parts.{then_focus};
ghost use Rattle.lock_api_guards.specs.Holds.{WasReleasedBy};
ghost use Rattle.lock_api_guards.specs.Narrowing.{Narrows};
ghost use Rattle.lock_api_guards.specs.contracts.mapped.Mapped.{the_row};

use crate::guard::Guard;
use crate::held::{FairHold, Hold};
use crate::lend::{Lender, LenderMut};
use lock_api_raw::{Projection, Then, TotalProjection};
use std::marker::Model;
use std::ops::{Deref, DerefMut};
use std::sync::Wait;

/// A guard narrowed to the part that a projection gives.
///
/// The part is found anew by the projection at each access, and is there as long as the guard lives. What is written to
/// it is written into the whole value. Its drop ends the guard.
///
/// ```text
/// let mut score = Guard::map(player.lock(&mut me), First);   // of a pair
/// *score = 7;                                                // the mutex is still locked
/// ```
pub struct Mapped<W: Lender + Drop, H: Hold, P: Projection<W::Part> + Drop>
where
    H::Runtime: Wait,
{
    guard: Guard<W, H>,
    by: P,
}

impl<W: Lender + Drop, H: Hold, P: Projection<W::Part> + Drop> Model for Mapped<W, H, P>
where
    H::Runtime: Wait,
{
    ghost use Rattle.std.specs.Prelude.{IsSome};
    ghost use Rattle.lock_api_guards.specs.declared.guard.Guard.{Guard};

    ghost Value = { Guard W H H.Lock H.Runtime H.Party H.Apart × P };

    ghost view = { λ m. (m.guard, m.by) };

    ghost invariant = { λ m. IsSome (P.focus m.by (W.part m.guard.inner)) };
}

// By hand: where a derived drop ends the scope of a caller that dereferenced, the caller isn't covered.
impl<W: Lender + Drop, H: Hold, P: Projection<W::Part> + Drop> Drop for Mapped<W, H, P>
where
    H::Runtime: Wait,
{
    fn drop(self) {
        let Mapped { guard, by: _ } = self;
        drop(guard);
    }
}

impl<W: Lender + Drop, H: Hold, P: Projection<W::Part> + Drop> Deref for Mapped<W, H, P>
where
    H::Runtime: Wait,
{
    type Target = P::Out;

    ghost deref_gives = { λ m x. P.focus m.1 (W.part m.0.inner) ≡ Some x };

    fn deref(&self) -> &P::Out {
        let Mapped { guard, by } = self;
        match by.get(guard.look()) {
            Some(part) => part,
            None => unreachable!(),
        }
    }
}

impl<W: LenderMut + Drop, H: Hold, P: Projection<W::Part> + Drop> DerefMut for Mapped<W, H, P>
where
    H::Runtime: Wait,
{
    ghost deref_mut_gives = { λ m x. P.focus m.1 (W.part m.0.inner) ≡ Some x };

    fn deref_mut(&mut self) -> &mut P::Out
        ensures* writes_back { sem 𝓛 (Lends (the_row W.row H.row P.row W.Part.row H.Lock.row H.Runtime.row H.Party.row H.Apart.row
            P.Out.row W.Lender H.Hold P.Projection) P.Out.row self.entry result
            (λ part. (
              record self.old.0
                  { inner = W.with_part self.old.0.inner (P.with_focus self.old.1 (W.part self.old.0.inner) part) },
              self.old.1,
            ))) }
        ensures value { P.focus self.old.1 (W.part self.old.0.inner) ≡ Some result.now }
    {
        P::part_mut(self.guard.lend(), &self.by)
    }
}

impl<W: Lender + Drop, H: Hold> Guard<W, H>
where
    H::Runtime: Wait,
{
    /// Narrows the guard to the part that the projection gives, without letting go.
    ///
    /// ```text
    /// let mut score = Guard::map(player.lock(&mut me), First);
    /// *score = 7;
    /// ```
    pub fn map<P: TotalProjection<W::Part> + Drop>(s: Guard<W, H>, projection: P) -> Mapped<W, H, P>
        ensures { result ≡ (s, projection) }
    {
        Mapped {
            guard: s,
            by: projection,
        }
    }

    /// As `map` where the part is there, and else the same guard back, still locked.
    ///
    /// ```text
    /// match Guard::try_map(player.lock(&mut me), Then::new(Second, Inside)) {
    ///     Ok(mut badge) => *badge = 3,
    ///     Err(whole) => drop(whole),   // there was no badge
    /// }
    /// ```
    pub fn try_map<P: Projection<W::Part> + Drop>(
        s: Guard<W, H>,
        projection: P,
    ) -> Result<Mapped<W, H, P>, Guard<W, H>>
        ensures { Narrows (P.focus projection (W.part s.inner)) (s, projection) s result }
    {
        if projection.get(s.look()).is_some() {
            Ok(Mapped {
                guard: s,
                by: projection,
            })
        } else {
            Err(s)
        }
    }

    /// As `try_map`. Where the part is missing the same guard comes back with the error that was handed in.
    ///
    /// ```text
    /// match Guard::try_map_or_err(player.lock(&mut me), Then::new(Second, Inside), "no badge") {
    ///     Ok(badge) => println!(rt; "{}", *badge)?,
    ///     Err((_player, error)) => println!(rt; "{error}")?,
    /// }
    /// ```
    pub fn try_map_or_err<P: Projection<W::Part> + Drop, E: Drop>(
        s: Guard<W, H>,
        projection: P,
        error: E,
    ) -> Result<Mapped<W, H, P>, (Guard<W, H>, E)>
        ensures { Narrows (P.focus projection (W.part s.inner)) (s, projection) (s, error) result }
    {
        match Guard::try_map(s, projection) {
            Ok(mapped) => Ok(mapped),
            Err(guard) => Err((guard, error)),
        }
    }
}

impl<W: Lender + Drop, H: Hold, P: Projection<W::Part> + Drop> Mapped<W, H, P>
where
    H::Runtime: Wait,
{
    /// Narrows further. Mapping twice is mapping by the composition.
    ///
    /// ```text
    /// let range = Guard::map(sheet.lock(&mut me), First);   // of ((low, high), name)
    /// *Mapped::map(range, Second) = 9;                      // the high end
    /// ```
    pub fn map<Q: TotalProjection<P::Out> + Drop>(
        s: Mapped<W, H, P>,
        projection: Q,
    ) -> Mapped<W, H, Then<P, Q>>
        ensures { result ≡ (s.0, record { first = s.1; second = projection }) }
    {
        let Mapped { guard, by } = s;
        Mapped {
            guard,
            by: Then::new(by, projection),
        }
    }

    /// As `map` where the part is there, and else the same guard back, still locked.
    ///
    /// ```text
    /// let badge = Guard::map(player.lock(&mut me), Second);
    /// if let Ok(mut number) = Mapped::try_map(badge, Inside) { *number = 3; }
    /// ```
    pub fn try_map<Q: Projection<P::Out> + Drop>(
        s: Mapped<W, H, P>,
        projection: Q,
    ) -> Result<Mapped<W, H, Then<P, Q>>, Mapped<W, H, P>>
        ensures { Narrows
            (then_focus (P.focus s.1) (P.with_focus s.1) (Q.focus projection) (Q.with_focus projection)
            (W.part s.0.inner)) (s.0, record { first = s.1; second = projection }) s result }
    {
        if projection.get(s.deref()).is_some() {
            let Mapped { guard, by } = s;
            Ok(Mapped {
                guard,
                by: Then::new(by, projection),
            })
        } else {
            Err(s)
        }
    }

    /// As `try_map`. Where the part is missing the same guard comes back with the error that was handed in.
    ///
    /// ```text
    /// let badge = Guard::map(player.lock(&mut me), Second);
    /// let number = Mapped::try_map_or_err(badge, Inside, "no badge");
    /// ```
    pub fn try_map_or_err<Q: Projection<P::Out> + Drop, E: Drop>(
        s: Mapped<W, H, P>,
        projection: Q,
        error: E,
    ) -> Result<Mapped<W, H, Then<P, Q>>, (Mapped<W, H, P>, E)>
        ensures { Narrows
            (then_focus (P.focus s.1) (P.with_focus s.1) (Q.focus projection) (Q.with_focus projection)
            (W.part s.0.inner)) (s.0, record { first = s.1; second = projection }) (s, error) result }
    {
        match Mapped::try_map(s, projection) {
            Ok(mapped) => Ok(mapped),
            Err(guard) => Err((guard, error)),
        }
    }
}

impl<W: Lender + Drop, H: FairHold, P: Projection<W::Part> + Drop> Mapped<W, H, P>
where
    H::Runtime: Wait,
{
    /// Ends the guard by a fair release.
    ///
    /// ```text
    /// let mut score = Guard::map(player.lock(&mut me), First);
    /// *score = 7;
    /// Mapped::unlock_fair(score);   // whoever waits longest has the whole next
    /// ```
    pub fn unlock_fair(s: Mapped<W, H, P>)
        ensures { WasReleasedBy H.left_fairly s.0.held.0 }
    {
        let Mapped { guard, by: _ } = s;
        Guard::unlock_fair(guard);
    }
}
