//! The Arc forms of the reader-writer lock.
ghost use Rattle.std.specs.Prelude.{◌≡◌, IfOk, IfSome, OnErr};
ghost use Rattle.std.specs.Arc.{arc_value};
ghost use Rattle.lock_api_rw.specs.Holds.{Tried};

use crate::mode::{Exclusive, Shared, Upgradable};
use crate::raw_hold::RawHold;
use crate::rwlock::RwLock;
use lock_api_guards::ArcGuard;
use lock_api_raw::{NoMemory, RawRwLock, RawRwLockTimed, RawRwLockUpgrade, RawRwLockUpgradeTimed};
use std::alloc::{Allocator, Global};
use std::rt::Clock;
use std::sync::{Arc, Wait};

/// A shared hold that owns an Arc of its lock.
pub type ArcRwLockReadGuard<R, T, A = Global> = ArcGuard<RawHold<Arc<RwLock<R, T>, A>, Shared>>;

/// An exclusive hold that owns an Arc of its lock.
pub type ArcRwLockWriteGuard<R, T, A = Global> = ArcGuard<RawHold<Arc<RwLock<R, T>, A>, Exclusive>>;

/// An upgradable hold that owns an Arc of its lock.
pub type ArcRwLockUpgradableReadGuard<R, T, A = Global> = ArcGuard<
    RawHold<Arc<RwLock<R, T>, A>, Upgradable>,
>;

impl<R: RawRwLock + Drop, T: Drop> RwLock<R, T>
where
    R::Runtime: Wait,
{
    /// Clones the Arc, and then waits for a shared hold. A refused clone takes no lock. Blocks as `read`. `NoMemory`
    /// where the clone is refused.
    ///
    /// ```text
    /// let rate = RwLock::read_arc(&rates, &mut me)?.with(|rate| *rate);
    /// ```
    pub fn read_arc<A: Allocator>(
        this: &Arc<RwLock<R, T>, A>,
        party: &mut R::Party,
    ) -> Result<ArcRwLockReadGuard<R, T, A>, NoMemory>
        ensures lock { IfOk result (λ guard. arc_value guard.hold.place ≡ arc_value this.now) }
        ensures call { IfOk result (λ guard. R.shared_locked guard.hold.token) }
        ensures refused { OnErr result (party.new ≡ party.old) }
    {
        Ok(ArcGuard::over(RawHold::wait_by_clone(this, party)?))
    }

    /// Clones the Arc, and then tries: None where the hold can't be had. A refused clone takes no lock.
    ///
    /// ```text
    /// if let Some(rate) = RwLock::try_read_arc(&rates)? { println!(rt; "{}", rate.with(|rate| *rate))?; }
    /// ```
    pub fn try_read_arc<A: Allocator>(
        this: &Arc<RwLock<R, T>, A>,
    ) -> Result<Option<ArcRwLockReadGuard<R, T, A>>, NoMemory>
        ensures lock { IfOk result (λ found. IfSome found (λ guard. arc_value guard.hold.place ≡ arc_value this.now)) }
        ensures call { IfOk result
            (λ found. Tried (R.shared_tried (arc_value this.now)) found (λ guard. guard.hold.token)) }
    {
        Ok(ArcGuard::if_held(RawHold::at_once_by_clone(this)?))
    }

    /// Clones the Arc, and then waits for an exclusive hold. A refused clone takes no lock. Blocks as `write`.
    /// `NoMemory` where the clone is refused.
    ///
    /// ```text
    /// RwLock::write_arc(&rates, &mut me)?.with_mut(|rate| *rate = 120);
    /// ```
    pub fn write_arc<A: Allocator>(
        this: &Arc<RwLock<R, T>, A>,
        party: &mut R::Party,
    ) -> Result<ArcRwLockWriteGuard<R, T, A>, NoMemory>
        ensures lock { IfOk result (λ guard. arc_value guard.hold.place ≡ arc_value this.now) }
        ensures call { IfOk result (λ guard. R.exclusive_locked guard.hold.token) }
        ensures refused { OnErr result (party.new ≡ party.old) }
    {
        Ok(ArcGuard::over(RawHold::wait_by_clone(this, party)?))
    }

    /// Clones the Arc, and then tries: None where the hold can't be had. A refused clone takes no lock.
    ///
    /// ```text
    /// if let Some(mut rate) = RwLock::try_write_arc(&rates)? { rate.with_mut(|rate| *rate = 120); }
    /// ```
    pub fn try_write_arc<A: Allocator>(
        this: &Arc<RwLock<R, T>, A>,
    ) -> Result<Option<ArcRwLockWriteGuard<R, T, A>>, NoMemory>
        ensures lock { IfOk result (λ found. IfSome found (λ guard. arc_value guard.hold.place ≡ arc_value this.now)) }
        ensures call { IfOk result
            (λ found. Tried (R.exclusive_tried (arc_value this.now)) found (λ guard. guard.hold.token)) }
    {
        Ok(ArcGuard::if_held(RawHold::at_once_by_clone(this)?))
    }
}

impl<R: RawRwLockTimed + Drop, T: Drop> RwLock<R, T>
where
    R::Runtime: Wait,
{
    /// Clones the Arc, and then waits: None if the wait is given up after the length of time. A refused clone takes no
    /// lock.
    ///
    /// ```text
    /// let rate = RwLock::try_read_arc_for(&rates, Duration::from_millis(5), &rt, &mut me)?;
    /// ```
    pub fn try_read_arc_for<C: Clock, A: Allocator>(
        this: &Arc<RwLock<R, T>, A>,
        timeout: R::Duration,
        clock: &C,
        party: &mut R::Party,
    ) -> Result<Option<ArcRwLockReadGuard<R, T, A>>, NoMemory>
    where
        R::Duration: Drop,
        ensures lock { IfOk result (λ found. IfSome found (λ guard. arc_value guard.hold.place ≡ arc_value this.now)) }
        ensures call { IfOk result (λ found. Tried R.shared_locked_in_time found (λ guard. guard.hold.token)) }
        ensures refused { OnErr result (party.new ≡ party.old) }
    {
        let found = RawHold::wait_by_clone_for(this, timeout, clock, party)?;
        Ok(ArcGuard::if_held(found))
    }

    /// Clones the Arc, and then waits: None if the wait is given up at the moment. A refused clone takes no lock.
    ///
    /// ```text
    /// let rate = RwLock::try_read_arc_until(&rates, deadline, &rt, &mut me)?;
    /// ```
    pub fn try_read_arc_until<C: Clock, A: Allocator>(
        this: &Arc<RwLock<R, T>, A>,
        deadline: R::Instant,
        clock: &C,
        party: &mut R::Party,
    ) -> Result<Option<ArcRwLockReadGuard<R, T, A>>, NoMemory>
    where
        R::Instant: Drop,
        ensures lock { IfOk result (λ found. IfSome found (λ guard. arc_value guard.hold.place ≡ arc_value this.now)) }
        ensures call { IfOk result (λ found. Tried R.shared_locked_in_time found (λ guard. guard.hold.token)) }
        ensures refused { OnErr result (party.new ≡ party.old) }
    {
        let found = RawHold::wait_by_clone_until(this, deadline, clock, party)?;
        Ok(ArcGuard::if_held(found))
    }

    /// Clones the Arc, and then waits: None if the wait is given up after the length of time. A refused clone takes no
    /// lock.
    ///
    /// ```text
    /// let rate = RwLock::try_write_arc_for(&rates, Duration::from_millis(5), &rt, &mut me)?;
    /// ```
    pub fn try_write_arc_for<C: Clock, A: Allocator>(
        this: &Arc<RwLock<R, T>, A>,
        timeout: R::Duration,
        clock: &C,
        party: &mut R::Party,
    ) -> Result<Option<ArcRwLockWriteGuard<R, T, A>>, NoMemory>
    where
        R::Duration: Drop,
        ensures lock { IfOk result (λ found. IfSome found (λ guard. arc_value guard.hold.place ≡ arc_value this.now)) }
        ensures call { IfOk result (λ found. Tried R.exclusive_locked_in_time found (λ guard. guard.hold.token)) }
        ensures refused { OnErr result (party.new ≡ party.old) }
    {
        let found = RawHold::wait_by_clone_for(this, timeout, clock, party)?;
        Ok(ArcGuard::if_held(found))
    }

    /// Clones the Arc, and then waits: None if the wait is given up at the moment. A refused clone takes no lock.
    ///
    /// ```text
    /// let rate = RwLock::try_write_arc_until(&rates, deadline, &rt, &mut me)?;
    /// ```
    pub fn try_write_arc_until<C: Clock, A: Allocator>(
        this: &Arc<RwLock<R, T>, A>,
        deadline: R::Instant,
        clock: &C,
        party: &mut R::Party,
    ) -> Result<Option<ArcRwLockWriteGuard<R, T, A>>, NoMemory>
    where
        R::Instant: Drop,
        ensures lock { IfOk result (λ found. IfSome found (λ guard. arc_value guard.hold.place ≡ arc_value this.now)) }
        ensures call { IfOk result (λ found. Tried R.exclusive_locked_in_time found (λ guard. guard.hold.token)) }
        ensures refused { OnErr result (party.new ≡ party.old) }
    {
        let found = RawHold::wait_by_clone_until(this, deadline, clock, party)?;
        Ok(ArcGuard::if_held(found))
    }
}

impl<R: RawRwLockUpgrade + Drop, T: Drop> RwLock<R, T>
where
    R::Runtime: Wait,
{
    /// Clones the Arc, and then waits for an upgradable hold. A refused clone takes no lock. Blocks as
    /// `upgradable_read`. `NoMemory` where the clone is refused.
    ///
    /// ```text
    /// let mut rate = RwLock::upgradable_read_arc(&rates, &mut me)?;
    /// ```
    pub fn upgradable_read_arc<A: Allocator>(
        this: &Arc<RwLock<R, T>, A>,
        party: &mut R::Party,
    ) -> Result<ArcRwLockUpgradableReadGuard<R, T, A>, NoMemory>
        ensures lock { IfOk result (λ guard. arc_value guard.hold.place ≡ arc_value this.now) }
        ensures call { IfOk result (λ guard. R.upgradable_locked guard.hold.token) }
        ensures refused { OnErr result (party.new ≡ party.old) }
    {
        Ok(ArcGuard::over(RawHold::wait_by_clone(this, party)?))
    }

    /// Clones the Arc, and then tries: None where the hold can't be had. A refused clone takes no lock.
    ///
    /// ```text
    /// let rate = RwLock::try_upgradable_read_arc(&rates)?;
    /// ```
    pub fn try_upgradable_read_arc<A: Allocator>(
        this: &Arc<RwLock<R, T>, A>,
    ) -> Result<Option<ArcRwLockUpgradableReadGuard<R, T, A>>, NoMemory>
        ensures lock { IfOk result (λ found. IfSome found (λ guard. arc_value guard.hold.place ≡ arc_value this.now)) }
        ensures call { IfOk result
            (λ found. Tried (R.upgradable_tried (arc_value this.now)) found (λ guard. guard.hold.token)) }
    {
        Ok(ArcGuard::if_held(RawHold::at_once_by_clone(this)?))
    }
}

impl<R: RawRwLockUpgradeTimed + Drop, T: Drop> RwLock<R, T>
where
    R::Runtime: Wait,
{
    /// Clones the Arc, and then waits: None if the wait is given up after the length of time. A refused clone takes no
    /// lock.
    ///
    /// ```text
    /// let rate = RwLock::try_upgradable_read_arc_for(&rates, Duration::from_millis(5), &rt, &mut me)?;
    /// ```
    pub fn try_upgradable_read_arc_for<C: Clock, A: Allocator>(
        this: &Arc<RwLock<R, T>, A>,
        timeout: R::Duration,
        clock: &C,
        party: &mut R::Party,
    ) -> Result<Option<ArcRwLockUpgradableReadGuard<R, T, A>>, NoMemory>
    where
        R::Duration: Drop,
        ensures lock { IfOk result (λ found. IfSome found (λ guard. arc_value guard.hold.place ≡ arc_value this.now)) }
        ensures call { IfOk result (λ found. Tried R.upgradable_locked_in_time found (λ guard. guard.hold.token)) }
        ensures refused { OnErr result (party.new ≡ party.old) }
    {
        let found = RawHold::wait_by_clone_for(this, timeout, clock, party)?;
        Ok(ArcGuard::if_held(found))
    }

    /// Clones the Arc, and then waits: None if the wait is given up at the moment. A refused clone takes no lock.
    ///
    /// ```text
    /// let rate = RwLock::try_upgradable_read_arc_until(&rates, deadline, &rt, &mut me)?;
    /// ```
    pub fn try_upgradable_read_arc_until<C: Clock, A: Allocator>(
        this: &Arc<RwLock<R, T>, A>,
        deadline: R::Instant,
        clock: &C,
        party: &mut R::Party,
    ) -> Result<Option<ArcRwLockUpgradableReadGuard<R, T, A>>, NoMemory>
    where
        R::Instant: Drop,
        ensures lock { IfOk result (λ found. IfSome found (λ guard. arc_value guard.hold.place ≡ arc_value this.now)) }
        ensures call { IfOk result (λ found. Tried R.upgradable_locked_in_time found (λ guard. guard.hold.token)) }
        ensures refused { OnErr result (party.new ≡ party.old) }
    {
        let found = RawHold::wait_by_clone_until(this, deadline, clock, party)?;
        Ok(ArcGuard::if_held(found))
    }
}
