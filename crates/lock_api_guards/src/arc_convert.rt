//! Arc guards from one mode to another.
ghost use Rattle.std.specs.Prelude.{◌≡◌, None, Ok, Err, IfSome, IsSome, MatchResult};
ghost use Rattle.std.specs.Fn.{FnOnceReturnsAtMut};
ghost use Rattle.lock_api_guards.specs.Holds.{WasHeld};

use crate::arc_guard::ArcGuard;
use crate::held::{
    DowngradeHold, DowngradeToUpgradable, Hold, RestoreHold, TimedUpgradeHold, UpgradeHold,
};
use crate::lock::{HasValue, HasValueMut};
use core::mem;
use std::rt::Clock;
use std::sync::Wait;

/// The value of the lock that a hold is of.
type ValueOf<H> = <<H as Hold>::Lock as HasValue>::Value;

impl<H: DowngradeHold> ArcGuard<H>
where
    H::Runtime: Wait,
    <H::Down as Hold>::Runtime: Wait,
{
    /// Turns the hold into a shared one.
    ///
    /// ```text
    /// let writer = RwLock::write_arc(&rates, &mut me)?;
    /// let reader = ArcGuard::downgrade(writer);   // others may read, and nobody has written in between
    /// ```
    pub fn downgrade(s: ArcGuard<H>) -> ArcGuard<H::Down>
        ensures lock { H.Down.lock_of result.hold ≡ H.lock_of s.hold }
        ensures call { H.downgraded s.hold result.hold }
    {
        ArcGuard::over(ArcGuard::into_hold(s).downgrade())
    }
}

impl<H: DowngradeToUpgradable> ArcGuard<H>
where
    H::Runtime: Wait,
    <H::Low as Hold>::Runtime: Wait,
{
    /// Turns the hold into an upgradable one.
    ///
    /// ```text
    /// let reader = ArcGuard::downgrade_to_upgradable(RwLock::write_arc(&rates, &mut me)?);
    /// ```
    pub fn downgrade_to_upgradable(s: ArcGuard<H>) -> ArcGuard<H::Low>
        ensures lock { H.Low.lock_of result.hold ≡ H.lock_of s.hold }
        ensures call { H.lowered s.hold result.hold }
    {
        ArcGuard::over(ArcGuard::into_hold(s).lower())
    }
}

impl<H: UpgradeHold> ArcGuard<H>
where
    H::Runtime: Wait,
    <H::Alone as Hold>::Runtime: Wait,
{
    /// Waits until the other readers are gone and gives the exclusive guard. Nobody else is exclusive in between.
    ///
    /// Blocks while others read. A thread that reads the same lock by another guard waits for itself for ever.
    ///
    /// ```text
    /// if rate.with(|rate| *rate == 0) { ArcGuard::upgrade(rate, &mut me).with_mut(|rate| *rate = 100); }
    /// ```
    pub fn upgrade(s: ArcGuard<H>, party: &mut H::Party) -> ArcGuard<H::Alone>
        ensures lock { H.Alone.lock_of result.hold ≡ H.lock_of s.hold }
        ensures call { H.upgraded s.hold result.hold }
    {
        ArcGuard::over(ArcGuard::into_hold(s).upgrade(party))
    }

    /// The exclusive guard if no other reader is left, and else the same guard, still held.
    ///
    /// ```text
    /// if let Ok(mut rate) = ArcGuard::try_upgrade(rate) { rate.with_mut(|rate| *rate = 100); }
    /// ```
    pub fn try_upgrade(s: ArcGuard<H>) -> Result<ArcGuard<H::Alone>, ArcGuard<H>>
        ensures lock { MatchResult result (λ guard. H.Alone.lock_of guard.hold ≡ H.lock_of s.hold)
            (λ guard. guard ≡ s) }
        ensures call { MatchResult result (λ guard. H.upgrade_tried s.hold (Ok guard.hold))
            (λ guard. H.upgrade_tried s.hold (Err guard.hold)) }
    {
        match ArcGuard::into_hold(s).try_upgrade() {
            Ok(hold) => Ok(ArcGuard { hold }),
            Err(hold) => Err(ArcGuard { hold }),
        }
    }
}

impl<H: TimedUpgradeHold> ArcGuard<H>
where
    H::Runtime: Wait,
    <H::Alone as Hold>::Runtime: Wait,
{
    /// As `upgrade`. If the wait is given up after the length of time the same guard comes back, upgradable again.
    ///
    /// Blocks while others read, as long as the time lasts. A lock that can be had at once is had whatever the time.
    ///
    /// ```text
    /// let soon = Duration::from_millis(5);
    /// if let Ok(mut rate) = ArcGuard::try_upgrade_for(rate, soon, &rt, &mut me) { rate.with_mut(|rate| *rate = 100); }
    /// ```
    pub fn try_upgrade_for<C: Clock>(
        s: ArcGuard<H>,
        timeout: H::Duration,
        clock: &C,
        party: &mut H::Party,
    ) -> Result<ArcGuard<H::Alone>, ArcGuard<H>>
        ensures lock { MatchResult result (λ guard. H.Alone.lock_of guard.hold ≡ H.lock_of s.hold)
            (λ guard. guard ≡ s) }
        ensures call { MatchResult result (λ guard. H.upgraded_in_time s.hold (Ok guard.hold))
            (λ guard. H.upgraded_in_time s.hold (Err guard.hold)) }
    {
        match ArcGuard::into_hold(s).try_upgrade_for(timeout, clock, party) {
            Ok(hold) => Ok(ArcGuard { hold }),
            Err(hold) => Err(ArcGuard { hold }),
        }
    }

    /// As `upgrade`. If the wait is given up at the moment the same guard comes back, upgradable again.
    ///
    /// ```text
    /// if let Ok(mut rate) = ArcGuard::try_upgrade_until(rate, deadline, &rt, &mut me) { rate.with_mut(|r| *r = 100); }
    /// ```
    pub fn try_upgrade_until<C: Clock>(
        s: ArcGuard<H>,
        deadline: H::Instant,
        clock: &C,
        party: &mut H::Party,
    ) -> Result<ArcGuard<H::Alone>, ArcGuard<H>>
        ensures lock { MatchResult result (λ guard. H.Alone.lock_of guard.hold ≡ H.lock_of s.hold)
            (λ guard. guard ≡ s) }
        ensures call { MatchResult result (λ guard. H.upgraded_in_time s.hold (Ok guard.hold))
            (λ guard. H.upgraded_in_time s.hold (Err guard.hold)) }
    {
        match ArcGuard::into_hold(s).try_upgrade_until(deadline, clock, party) {
            Ok(hold) => Ok(ArcGuard { hold }),
            Err(hold) => Err(ArcGuard { hold }),
        }
    }
}

impl<H: RestoreHold> ArcGuard<H>
where
    H::Lock: HasValueMut,
    <H::Lock as HasValue>::Waiting: Wait,
    H::Runtime: Wait,
    <H::Alone as Hold>::Runtime: Wait,
{
    /// Upgrades, lends the value to the closure for writing, and makes the guard upgradable again.
    ///
    /// It answers what the closure answered.
    ///
    /// Blocks while others read. A thread that reads the same lock by another guard waits for itself for ever.
    ///
    /// ```text
    /// ArcGuard::with_upgraded(&mut rate, &mut me, |rate| *rate = 100);   // and then `rate` is upgradable again
    /// ```
    pub fn with_upgraded<U, F: FnOnce(&mut ValueOf<H>) -> U>(
        s: &mut ArcGuard<H>,
        party: &mut H::Party,
        f: F,
    ) -> U
        requires { F.IsAlwaysCallable f }
        ensures answer { (before : H.Lock.Value) × (after : H.Lock.Value) × FnOnceReturnsAtMut F.FnOnce f before result
            after }
        ensures upgraded { WasHeld H.Alone.lock_of (H.lock_of s.old.hold) }
        ensures lock { H.lock_of s.new.hold ≡ H.lock_of s.old.hold }
    {
        mem::replace_with(
            s,
            f,
            |guard, f|
                requires { F.IsAlwaysCallable f }
            {
                let alone = ArcGuard::into_hold(guard).upgrade(party);
                let answer = alone.lock().with_value_mut(f);
                (ArcGuard::over(H::restore(alone)), answer)
            },
        )
    }

    /// As `with_upgraded` if no other reader is left, and else None, and the closure isn't called.
    ///
    /// ```text
    /// let done = ArcGuard::try_with_upgraded(&mut rate, |rate| *rate = 100).is_some();   // not beside a reader
    /// ```
    pub fn try_with_upgraded<U, F: FnOnce(&mut ValueOf<H>) -> U>(
        s: &mut ArcGuard<H>,
        f: F,
    ) -> Option<U>
        requires { F.IsAlwaysCallable f }
        ensures answer { IfSome result
            (λ answer. (before : H.Lock.Value) × (after : H.Lock.Value) × FnOnceReturnsAtMut F.FnOnce f before answer
            after) }
        ensures upgraded { IfSome result (λ _. WasHeld H.Alone.lock_of (H.lock_of s.new.hold)) }
        ensures kept { result ≡ None → s.new ≡ s.old }
        ensures lock { H.lock_of s.new.hold ≡ H.lock_of s.old.hold }
    {
        mem::replace_with(
            s,
            f,
            |guard: ArcGuard<H>, f: F| -> (ArcGuard<H>, Option<U>)
                requires { F.IsAlwaysCallable f }
                ensures { IfSome result.1
                    (λ answer. (before : H.Lock.Value) × (after : H.Lock.Value) × FnOnceReturnsAtMut F.FnOnce f before
                    answer after) × IfSome result.1 (λ _. WasHeld H.Alone.lock_of (H.lock_of result.0.hold))
                    × (result.1 ≡ None → result.0 ≡ guard) × (H.lock_of result.0.hold ≡ H.lock_of guard.hold) }
            { changed(ArcGuard::try_upgrade(guard), f) },
        )
    }
}

impl<H: RestoreHold + TimedUpgradeHold> ArcGuard<H>
where
    H::Lock: HasValueMut,
    <H::Lock as HasValue>::Waiting: Wait,
    H::Runtime: Wait,
    <H::Alone as Hold>::Runtime: Wait,
{
    /// As `with_upgraded`. If the wait is given up after the length of time it answers None, the closure isn't called
    /// and the guard is upgradable.
    ///
    /// ```text
    /// let soon = Duration::from_millis(5);
    /// let done = ArcGuard::try_with_upgraded_for(&mut rate, soon, &rt, &mut me, |rate| *rate = 100).is_some();
    /// ```
    pub fn try_with_upgraded_for<C: Clock, U, F: FnOnce(&mut ValueOf<H>) -> U>(
        s: &mut ArcGuard<H>,
        timeout: H::Duration,
        clock: &C,
        party: &mut H::Party,
        f: F,
    ) -> Option<U>
        requires { F.IsAlwaysCallable f }
        ensures answer { IfSome result
            (λ answer. (before : H.Lock.Value) × (after : H.Lock.Value) × FnOnceReturnsAtMut F.FnOnce f before answer
            after) }
        ensures upgraded { IfSome result (λ _. WasHeld H.Alone.lock_of (H.lock_of s.new.hold)) }
        ensures kept { result ≡ None → s.new ≡ s.old }
        ensures lock { H.lock_of s.new.hold ≡ H.lock_of s.old.hold }
    {
        mem::replace_with(
            s,
            (f, timeout),
            |guard: ArcGuard<H>, with: (F, H::Duration)| -> (ArcGuard<H>, Option<U>)
                requires { F.IsAlwaysCallable with.0 }
                ensures { IfSome result.1
                    (λ answer. (before : H.Lock.Value) × (after : H.Lock.Value) × FnOnceReturnsAtMut F.FnOnce with.0
                    before answer after) × IfSome result.1 (λ _. WasHeld H.Alone.lock_of (H.lock_of result.0.hold))
                    × (result.1 ≡ None → result.0 ≡ guard) × (H.lock_of result.0.hold ≡ H.lock_of guard.hold) }
            {
                let (f, timeout) = with;
                changed(ArcGuard::try_upgrade_for(guard, timeout, clock, party), f)
            },
        )
    }

    /// As `with_upgraded`. If the wait is given up at the moment it answers None, the closure isn't called and the
    /// guard is upgradable.
    ///
    /// ```text
    /// let done = ArcGuard::try_with_upgraded_until(&mut rate, deadline, &rt, &mut me, |rate| *rate = 100).is_some();
    /// ```
    pub fn try_with_upgraded_until<C: Clock, U, F: FnOnce(&mut ValueOf<H>) -> U>(
        s: &mut ArcGuard<H>,
        deadline: H::Instant,
        clock: &C,
        party: &mut H::Party,
        f: F,
    ) -> Option<U>
        requires { F.IsAlwaysCallable f }
        ensures answer { IfSome result
            (λ answer. (before : H.Lock.Value) × (after : H.Lock.Value) × FnOnceReturnsAtMut F.FnOnce f before answer
            after) }
        ensures upgraded { IfSome result (λ _. WasHeld H.Alone.lock_of (H.lock_of s.new.hold)) }
        ensures kept { result ≡ None → s.new ≡ s.old }
        ensures lock { H.lock_of s.new.hold ≡ H.lock_of s.old.hold }
    {
        mem::replace_with(
            s,
            (f, deadline),
            |guard: ArcGuard<H>, with: (F, H::Instant)| -> (ArcGuard<H>, Option<U>)
                requires { F.IsAlwaysCallable with.0 }
                ensures { IfSome result.1
                    (λ answer. (before : H.Lock.Value) × (after : H.Lock.Value) × FnOnceReturnsAtMut F.FnOnce with.0
                    before answer after) × IfSome result.1 (λ _. WasHeld H.Alone.lock_of (H.lock_of result.0.hold))
                    × (result.1 ≡ None → result.0 ≡ guard) × (H.lock_of result.0.hold ≡ H.lock_of guard.hold) }
            {
                let (f, deadline) = with;
                changed(
                    ArcGuard::try_upgrade_until(guard, deadline, clock, party),
                    f,
                )
            },
        )
    }
}

/// Calls the closure under a guard that was upgraded, and makes that guard upgradable again.
fn changed<H: RestoreHold, U, F: FnOnce(&mut ValueOf<H>) -> U>(
    tried: Result<ArcGuard<H::Alone>, ArcGuard<H>>,
    f: F,
) -> (ArcGuard<H>, Option<U>)
where
    H::Lock: HasValueMut,
    <H::Lock as HasValue>::Waiting: Wait,
    H::Runtime: Wait,
    <H::Alone as Hold>::Runtime: Wait,
    requires { F.IsAlwaysCallable f }
    ensures answer { IfSome result.1
        (λ answer. (before : H.Lock.Value) × (after : H.Lock.Value) × FnOnceReturnsAtMut F.FnOnce f before answer
        after) }
    ensures upgraded { IfSome result.1 (λ _. WasHeld H.Alone.lock_of (H.lock_of result.0.hold)) }
    ensures guard { MatchResult tried (λ alone. H.lock_of result.0.hold ≡ H.Alone.lock_of alone.hold)
        (λ guard. result.0 ≡ guard) }
    ensures called { MatchResult tried (λ alone. IsSome result.1) (λ guard. result.1 ≡ None) }
{
    match tried {
        Ok(alone) => {
            let alone = ArcGuard::into_hold(alone);
            let answer = alone.lock().with_value_mut(f);
            (ArcGuard::over(H::restore(alone)), Some(answer))
        }
        Err(guard) => (guard, None),
    }
}
