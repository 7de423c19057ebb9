//! Guards from one mode to another.
ghost use Rattle.std.specs.Prelude.{◌≡◌, Ok, Err, MatchResult};

use crate::guard::Guard;
use crate::held::{
    Access, DowngradeHold, DowngradeToUpgradable, Hold, TimedUpgradeHold, UpgradeHold,
};
use std::rt::Clock;
use std::sync::Wait;

impl<W: Drop, H: DowngradeHold> Guard<W, H>
where
    H::Down: Access,
    H::Runtime: Wait,
    <H::Down as Hold>::Runtime: Wait,
{
    /// Turns the hold into a shared one.
    ///
    /// The std lock is changed once the raw conversion has succeeded, and may wait there for another's try.
    ///
    /// ```text
    /// let mut rate = rates.write(&mut me);
    /// *rate = 120;
    /// let rate = Guard::downgrade(rate);   // others may read, and nobody has written in between
    /// ```
    pub fn downgrade(s: Guard<W, H>) -> Guard<<H::Down as Access>::Inner, H::Down>
        ensures lock { H.Down.lock_of result.held.0 ≡ H.lock_of s.held.0 }
        ensures call { H.downgraded s.held.0 result.held.0 }
    {
        let (inner, held) = Guard::into_parts(s);
        Guard::under(held.downgrade().give_back(inner).into_hold())
    }
}

impl<W: Drop, H: DowngradeToUpgradable> Guard<W, H>
where
    H::Low: Access,
    H::Runtime: Wait,
    <H::Low as Hold>::Runtime: Wait,
{
    /// Turns the hold into an upgradable one, as `downgrade` does.
    ///
    /// ```text
    /// let mut rate = Guard::downgrade_to_upgradable(rates.write(&mut me));
    /// ```
    pub fn downgrade_to_upgradable(s: Guard<W, H>) -> Guard<<H::Low as Access>::Inner, H::Low>
        ensures lock { H.Low.lock_of result.held.0 ≡ H.lock_of s.held.0 }
        ensures call { H.lowered s.held.0 result.held.0 }
    {
        let (inner, held) = Guard::into_parts(s);
        Guard::under(held.lower().give_back(inner).into_hold())
    }
}

impl<W: Drop, H: UpgradeHold> Guard<W, H>
where
    H::Alone: Access,
    H::Runtime: Wait,
    <H::Alone as Hold>::Runtime: Wait,
{
    /// Waits until the other readers are gone and gives the exclusive guard. Nobody else is exclusive in between.
    ///
    /// Blocks while others read. A thread that reads the same lock by another guard waits for itself for ever.
    ///
    /// ```text
    /// let rate = rates.upgradable_read(&mut me);
    /// if *rate == 0 { *Guard::upgrade(rate, &mut me) = 100; }
    /// ```
    pub fn upgrade(
        s: Guard<W, H>,
        party: &mut H::Party,
    ) -> Guard<<H::Alone as Access>::Inner, H::Alone>
        ensures lock { H.Alone.lock_of result.held.0 ≡ H.lock_of s.held.0 }
        ensures call { H.upgraded s.held.0 result.held.0 }
    {
        let (inner, held) = Guard::into_parts(s);
        Guard::under(held.upgrade(party).give_back(inner).into_hold())
    }

    /// The exclusive guard if no other reader is left, and else the same guard, still held.
    ///
    /// It waits for no reader.
    ///
    /// ```text
    /// match Guard::try_upgrade(rates.upgradable_read(&mut me)) {
    ///     Ok(mut rate) => *rate = 100,
    ///     Err(rate) => println!(rt; "somebody reads {} too", *rate)?,
    /// }
    /// ```
    pub fn try_upgrade(
        s: Guard<W, H>,
    ) -> Result<Guard<<H::Alone as Access>::Inner, H::Alone>, Guard<W, H>>
        ensures lock { MatchResult result (λ guard. H.Alone.lock_of guard.held.0 ≡ H.lock_of s.held.0)
            (λ guard. guard ≡ s) }
        ensures call { MatchResult result (λ guard. H.upgrade_tried s.held.0 (Ok guard.held.0))
            (λ guard. H.upgrade_tried s.held.0 (Err guard.held.0)) }
    {
        let (inner, held) = Guard::into_parts(s);
        match held.try_upgrade() {
            Ok(held) => Ok(Guard::under(held.give_back(inner).into_hold())),
            Err(held) => Err(Guard { inner, held }),
        }
    }
}

impl<W: Drop, H: TimedUpgradeHold> Guard<W, H>
where
    H::Alone: Access,
    H::Runtime: Wait,
    <H::Alone as Hold>::Runtime: Wait,
{
    /// As `upgrade`. If the wait is given up after the length of time the same guard comes back, upgradable again.
    ///
    /// Blocks while others read, as long as the time lasts. A lock that can be had at once is had whatever the time.
    ///
    /// ```text
    /// let soon = Duration::from_millis(5);
    /// if let Ok(mut rate) = Guard::try_upgrade_for(rate, soon, &rt, &mut me) { *rate = 100; }
    /// ```
    pub fn try_upgrade_for<C: Clock>(
        s: Guard<W, H>,
        timeout: H::Duration,
        clock: &C,
        party: &mut H::Party,
    ) -> Result<Guard<<H::Alone as Access>::Inner, H::Alone>, Guard<W, H>>
        ensures lock { MatchResult result (λ guard. H.Alone.lock_of guard.held.0 ≡ H.lock_of s.held.0)
            (λ guard. guard ≡ s) }
        ensures call { MatchResult result (λ guard. H.upgraded_in_time s.held.0 (Ok guard.held.0))
            (λ guard. H.upgraded_in_time s.held.0 (Err guard.held.0)) }
    {
        let (inner, held) = Guard::into_parts(s);
        match held.try_upgrade_for(timeout, clock, party) {
            Ok(held) => Ok(Guard::under(held.give_back(inner).into_hold())),
            Err(held) => Err(Guard { inner, held }),
        }
    }

    /// As `upgrade`. If the wait is given up at the moment the same guard comes back, upgradable again.
    ///
    /// ```text
    /// if let Ok(mut rate) = Guard::try_upgrade_until(rate, deadline, &rt, &mut me) { *rate = 100; }
    /// ```
    pub fn try_upgrade_until<C: Clock>(
        s: Guard<W, H>,
        deadline: H::Instant,
        clock: &C,
        party: &mut H::Party,
    ) -> Result<Guard<<H::Alone as Access>::Inner, H::Alone>, Guard<W, H>>
        ensures lock { MatchResult result (λ guard. H.Alone.lock_of guard.held.0 ≡ H.lock_of s.held.0)
            (λ guard. guard ≡ s) }
        ensures call { MatchResult result (λ guard. H.upgraded_in_time s.held.0 (Ok guard.held.0))
            (λ guard. H.upgraded_in_time s.held.0 (Err guard.held.0)) }
    {
        let (inner, held) = Guard::into_parts(s);
        match held.try_upgrade_until(deadline, clock, party) {
            Ok(held) => Ok(Guard::under(held.give_back(inner).into_hold())),
            Err(held) => Err(Guard { inner, held }),
        }
    }
}
