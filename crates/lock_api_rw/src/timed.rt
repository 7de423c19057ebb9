//! Timed forms of the reader-writer lock.
ghost use Rattle.std.specs.Prelude.{◌≡◌, None, Some, IfSome, MatchOption};

use crate::raw_hold::RawHold;
use crate::rwlock::{RwLock, RwLockReadGuard, RwLockUpgradableReadGuard, RwLockWriteGuard};
use lock_api_guards::Guard;
use lock_api_raw::{RawRwLockTimed, RawRwLockUpgradeTimed};
use std::rt::Clock;
use std::sync::Wait;

impl<R: RawRwLockTimed, T> RwLock<R, T>
where
    R::Runtime: Wait,
{
    /// As `read`, but None if the raw lock's wait is given up after the length of time, by the clock that is handed in.
    ///
    /// ```text
    /// let rate = rates.try_read_for(Duration::from_millis(5), &rt, &mut me);
    /// ```
    pub fn try_read_for<C: Clock>(
        &self,
        timeout: R::Duration,
        clock: &C,
        party: &mut R::Party,
    ) -> Option<RwLockReadGuard<'_, R, T>>
        ensures lock { IfSome result (λ guard. guard.held.0.place.now ≡ self.now) }
        ensures call { MatchOption result (R.shared_locked_in_time None)
            (λ guard. R.shared_locked_in_time (Some guard.held.0.token)) }
    {
        let reader = RawHold::wait_for(self, timeout, clock, party)?;
        Some(Guard::under(reader))
    }

    /// As `read`, but None if the raw lock's wait is given up at the moment, by the clock that is handed in.
    ///
    /// ```text
    /// if let Some(rate) = rates.try_read_until(deadline, &rt, &mut me) { sum = *rate; }
    /// ```
    pub fn try_read_until<C: Clock>(
        &self,
        deadline: R::Instant,
        clock: &C,
        party: &mut R::Party,
    ) -> Option<RwLockReadGuard<'_, R, T>>
        ensures lock { IfSome result (λ guard. guard.held.0.place.now ≡ self.now) }
        ensures call { MatchOption result (R.shared_locked_in_time None)
            (λ guard. R.shared_locked_in_time (Some guard.held.0.token)) }
    {
        let reader = RawHold::wait_until(self, deadline, clock, party)?;
        Some(Guard::under(reader))
    }

    /// As `write`, but None if the raw lock's wait is given up after the length of time, by the clock that is handed
    /// in.
    ///
    /// ```text
    /// let rate = rates.try_write_for(Duration::from_millis(5), &rt, &mut me);
    /// ```
    pub fn try_write_for<C: Clock>(
        &self,
        timeout: R::Duration,
        clock: &C,
        party: &mut R::Party,
    ) -> Option<RwLockWriteGuard<'_, R, T>>
        ensures lock { IfSome result (λ guard. guard.held.0.place.now ≡ self.now) }
        ensures call { MatchOption result (R.exclusive_locked_in_time None)
            (λ guard. R.exclusive_locked_in_time (Some guard.held.0.token)) }
    {
        let writer = RawHold::wait_for(self, timeout, clock, party)?;
        Some(Guard::under(writer))
    }

    /// As `write`, but None if the raw lock's wait is given up at the moment, by the clock that is handed in.
    ///
    /// ```text
    /// if let Some(mut rate) = rates.try_write_until(deadline, &rt, &mut me) { *rate = 120; }
    /// ```
    pub fn try_write_until<C: Clock>(
        &self,
        deadline: R::Instant,
        clock: &C,
        party: &mut R::Party,
    ) -> Option<RwLockWriteGuard<'_, R, T>>
        ensures lock { IfSome result (λ guard. guard.held.0.place.now ≡ self.now) }
        ensures call { MatchOption result (R.exclusive_locked_in_time None)
            (λ guard. R.exclusive_locked_in_time (Some guard.held.0.token)) }
    {
        let writer = RawHold::wait_until(self, deadline, clock, party)?;
        Some(Guard::under(writer))
    }
}

impl<R: RawRwLockUpgradeTimed, T> RwLock<R, T>
where
    R::Runtime: Wait,
{
    /// As `upgradable_read`, but None if the raw lock's wait is given up after the length of time, by the clock that is
    /// handed in.
    ///
    /// ```text
    /// let rate = rates.try_upgradable_read_for(Duration::from_millis(5), &rt, &mut me);
    /// ```
    pub fn try_upgradable_read_for<C: Clock>(
        &self,
        timeout: R::Duration,
        clock: &C,
        party: &mut R::Party,
    ) -> Option<RwLockUpgradableReadGuard<'_, R, T>>
        ensures lock { IfSome result (λ guard. guard.held.0.place.now ≡ self.now) }
        ensures call { MatchOption result (R.upgradable_locked_in_time None)
            (λ guard. R.upgradable_locked_in_time (Some guard.held.0.token)) }
    {
        let upgrader = RawHold::wait_for(self, timeout, clock, party)?;
        Some(Guard::under(upgrader))
    }

    /// As `upgradable_read`, but None if the raw lock's wait is given up at the moment, by the clock that is handed in.
    ///
    /// ```text
    /// let rate = rates.try_upgradable_read_until(deadline, &rt, &mut me);
    /// ```
    pub fn try_upgradable_read_until<C: Clock>(
        &self,
        deadline: R::Instant,
        clock: &C,
        party: &mut R::Party,
    ) -> Option<RwLockUpgradableReadGuard<'_, R, T>>
        ensures lock { IfSome result (λ guard. guard.held.0.place.now ≡ self.now) }
        ensures call { MatchOption result (R.upgradable_locked_in_time None)
            (λ guard. R.upgradable_locked_in_time (Some guard.held.0.token)) }
    {
        let upgrader = RawHold::wait_until(self, deadline, clock, party)?;
        Some(Guard::under(upgrader))
    }
}
