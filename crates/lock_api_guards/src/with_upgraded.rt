//! Writing for a closure's time under an upgradable guard.
ghost use Rattle.std.specs.Prelude.{◌≡◌, None, IfSome, IsSome, MatchResult};
ghost use Rattle.std.specs.Fn.{FnOnceReturnsAtMut};

use crate::guard::Guard;
use crate::held::{Access, Hold, RestoreHold, TimedUpgradeHold, UpgradeHold};
use crate::lend::{Lender, LenderMut};
use crate::lock::lent_mut;
use core::mem;
use std::rt::Clock;
use std::sync::Wait;

/// What an upgraded guard lends.
type PartOf<H> = <<<H as UpgradeHold>::Alone as Access>::Inner as Lender>::Part;

impl<W: Drop, H: RestoreHold + Access<Inner = W>> Guard<W, H>
where
    H::Alone: Access,
    <H::Alone as Access>::Inner: LenderMut,
    H::Runtime: Wait,
    <H::Alone as Hold>::Runtime: Wait,
{
    /// Upgrades, lends the value to the closure for writing, and makes the guard upgradable again.
    ///
    /// It answers what the closure answered.
    ///
    /// Blocks while others read. A thread that reads the same lock by another guard waits for itself for ever.
    ///
    /// ```text
    /// let mut rate = rates.upgradable_read(&mut me);
    /// Guard::with_upgraded(&mut rate, &mut me, |rate| *rate = 100);   // and then `rate` reads on
    /// ```
    pub fn with_upgraded<U, F: FnOnce(&mut PartOf<H>) -> U>(
        s: &mut Guard<W, H>,
        party: &mut H::Party,
        f: F,
    ) -> U
        requires { F.IsAlwaysCallable f }
        ensures answer { (before : H.Alone.Inner.Part) × (after : H.Alone.Inner.Part)
            × FnOnceReturnsAtMut F.FnOnce f before result after }
        ensures lock { H.lock_of s.new.held.0 ≡ H.lock_of s.old.held.0 }
    {
        mem::replace_with(
            s,
            f,
            |guard, f|
                requires { F.IsAlwaysCallable f }
            {
                let mut alone = Guard::upgrade(guard, party);
                let answer = lent_mut(f, &mut *alone);
                (restored(alone), answer)
            },
        )
    }

    /// As `with_upgraded` if no other reader is left, and else None, and the closure isn't called.
    ///
    /// ```text
    /// let mut rate = rates.upgradable_read(&mut me);
    /// let old = Guard::try_with_upgraded(&mut rate, |rate| std::mem::replace(rate, 100));   // None beside a reader
    /// ```
    pub fn try_with_upgraded<U, F: FnOnce(&mut PartOf<H>) -> U>(
        s: &mut Guard<W, H>,
        f: F,
    ) -> Option<U>
        requires { F.IsAlwaysCallable f }
        ensures answer { IfSome result (λ answer. (before : H.Alone.Inner.Part) × (after : H.Alone.Inner.Part)
            × FnOnceReturnsAtMut F.FnOnce f before answer after) }
        ensures kept { result ≡ None → s.new ≡ s.old }
        ensures lock { H.lock_of s.new.held.0 ≡ H.lock_of s.old.held.0 }
    {
        mem::replace_with(
            s,
            f,
            |guard: Guard<W, H>, f: F| -> (Guard<W, H>, Option<U>)
                requires { F.IsAlwaysCallable f }
                ensures { IfSome result.1 (λ answer. (before : H.Alone.Inner.Part) × (after : H.Alone.Inner.Part)
                    × FnOnceReturnsAtMut F.FnOnce f before answer after) × (result.1 ≡ None → result.0 ≡ guard)
                    × (H.lock_of result.0.held.0 ≡ H.lock_of guard.held.0) }
            { changed(Guard::try_upgrade(guard), f) },
        )
    }
}

impl<W: Drop, H: RestoreHold + TimedUpgradeHold + Access<Inner = W>> Guard<W, H>
where
    H::Alone: Access,
    <H::Alone as Access>::Inner: LenderMut,
    H::Runtime: Wait,
    <H::Alone as Hold>::Runtime: Wait,
{
    /// As `with_upgraded`. If the wait is given up after the length of time it answers None, the closure isn't called
    /// and the guard is upgradable.
    ///
    /// ```text
    /// let soon = Duration::from_millis(5);
    /// let done = Guard::try_with_upgraded_for(&mut rate, soon, &rt, &mut me, |rate| *rate = 100).is_some();
    /// ```
    pub fn try_with_upgraded_for<C: Clock, U, F: FnOnce(&mut PartOf<H>) -> U>(
        s: &mut Guard<W, H>,
        timeout: H::Duration,
        clock: &C,
        party: &mut H::Party,
        f: F,
    ) -> Option<U>
        requires { F.IsAlwaysCallable f }
        ensures answer { IfSome result (λ answer. (before : H.Alone.Inner.Part) × (after : H.Alone.Inner.Part)
            × FnOnceReturnsAtMut F.FnOnce f before answer after) }
        ensures kept { result ≡ None → s.new ≡ s.old }
        ensures lock { H.lock_of s.new.held.0 ≡ H.lock_of s.old.held.0 }
    {
        mem::replace_with(
            s,
            (f, timeout),
            |guard: Guard<W, H>, with: (F, H::Duration)| -> (Guard<W, H>, Option<U>)
                requires { F.IsAlwaysCallable with.0 }
                ensures { IfSome result.1 (λ answer. (before : H.Alone.Inner.Part) × (after : H.Alone.Inner.Part)
                    × FnOnceReturnsAtMut F.FnOnce with.0 before answer after) × (result.1 ≡ None → result.0 ≡ guard)
                    × (H.lock_of result.0.held.0 ≡ H.lock_of guard.held.0) }
            {
                let (f, timeout) = with;
                changed(Guard::try_upgrade_for(guard, timeout, clock, party), f)
            },
        )
    }

    /// As `with_upgraded`. If the wait is given up at the moment it answers None, the closure isn't called and the
    /// guard is upgradable.
    ///
    /// ```text
    /// let done = Guard::try_with_upgraded_until(&mut rate, deadline, &rt, &mut me, |rate| *rate = 100).is_some();
    /// ```
    pub fn try_with_upgraded_until<C: Clock, U, F: FnOnce(&mut PartOf<H>) -> U>(
        s: &mut Guard<W, H>,
        deadline: H::Instant,
        clock: &C,
        party: &mut H::Party,
        f: F,
    ) -> Option<U>
        requires { F.IsAlwaysCallable f }
        ensures answer { IfSome result (λ answer. (before : H.Alone.Inner.Part) × (after : H.Alone.Inner.Part)
            × FnOnceReturnsAtMut F.FnOnce f before answer after) }
        ensures kept { result ≡ None → s.new ≡ s.old }
        ensures lock { H.lock_of s.new.held.0 ≡ H.lock_of s.old.held.0 }
    {
        mem::replace_with(
            s,
            (f, deadline),
            |guard: Guard<W, H>, with: (F, H::Instant)| -> (Guard<W, H>, Option<U>)
                requires { F.IsAlwaysCallable with.0 }
                ensures { IfSome result.1 (λ answer. (before : H.Alone.Inner.Part) × (after : H.Alone.Inner.Part)
                    × FnOnceReturnsAtMut F.FnOnce with.0 before answer after) × (result.1 ≡ None → result.0 ≡ guard)
                    × (H.lock_of result.0.held.0 ≡ H.lock_of guard.held.0) }
            {
                let (f, deadline) = with;
                changed(Guard::try_upgrade_until(guard, deadline, clock, party), f)
            },
        )
    }
}

/// Calls the closure under a guard that was upgraded, and makes that guard upgradable again.
fn changed<V: LenderMut + Drop, H: RestoreHold + Access, U, F: FnOnce(&mut V::Part) -> U>(
    tried: Result<Guard<V, H::Alone>, Guard<H::Inner, H>>,
    f: F,
) -> (Guard<H::Inner, H>, Option<U>)
where
    H::Runtime: Wait,
    <H::Alone as Hold>::Runtime: Wait,
    requires { F.IsAlwaysCallable f }
    ensures answer { IfSome result.1
        (λ answer. (before : V.Part) × (after : V.Part) × FnOnceReturnsAtMut F.FnOnce f before answer after) }
    ensures guard { MatchResult tried (λ alone. H.lock_of result.0.held.0 ≡ H.Alone.lock_of alone.held.0)
        (λ guard. result.0 ≡ guard) }
    ensures called { MatchResult tried (λ alone. IsSome result.1) (λ guard. result.1 ≡ None) }
{
    match tried {
        Ok(alone) => {
            let mut alone = alone;
            let answer = lent_mut(f, &mut *alone);
            (restored(alone), Some(answer))
        }
        Err(guard) => (guard, None),
    }
}

/// Makes an exclusive guard upgradable again.
fn restored<V: Drop, H: RestoreHold + Access>(alone: Guard<V, H::Alone>) -> Guard<H::Inner, H>
where
    H::Runtime: Wait,
    <H::Alone as Hold>::Runtime: Wait,
    ensures { H.lock_of result.held.0 ≡ H.Alone.lock_of alone.held.0 }
{
    Guard::under(H::restore(Guard::into_hold(alone)))
}
