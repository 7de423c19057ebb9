//! The Arc forms of a mutex.
ghost use Rattle.std.specs.Prelude.{◌≡◌, IfSome, IfOk, OnErr};
ghost use Rattle.std.specs.Arc.{arc_value};
ghost use Rattle.lock_api_rw.specs.Holds.{Tried};

use crate::mutex::Mutex;
use lock_api_guards::ArcGuard;
use lock_api_raw::{NoMemory, RawMutex, RawMutexTimed};
use lock_api_rw::{Locked, RawHold};
use std::alloc::{Allocator, Global};
use std::rt::Clock;
use std::sync::{Arc, Wait};

/// The guard of a mutex that owns an Arc of it.
///
/// It keeps the raw token alone, and takes the std lock of the value inside `with` and `with_mut`. Its drop releases
/// the raw mutex, and then lets the Arc go.
pub type ArcMutexGuard<R, T, A = Global> = ArcGuard<RawHold<Arc<Mutex<R, T>, A>, Locked>>;

impl<R: RawMutex + Drop, T: Drop> Mutex<R, T>
where
    R::Runtime: Wait,
{
    /// Clones the Arc, and then locks. A refused clone takes no lock. Blocks as `lock`. `NoMemory` where the clone is
    /// refused.
    ///
    /// ```text
    /// let mut sale = Mutex::lock_arc(&seat, &mut me)?;
    /// sale.with_mut(|sold| *sold = sold.wrapping_add(1));
    /// ```
    pub fn lock_arc<A: Allocator>(
        this: &Arc<Mutex<R, T>, A>,
        party: &mut R::Party,
    ) -> Result<ArcMutexGuard<R, T, A>, NoMemory>
        ensures lock { IfOk result (λ guard. arc_value guard.hold.place ≡ arc_value this.now) }
        ensures call { IfOk result (λ guard. R.locked guard.hold.token) }
        ensures refused { OnErr result (party.new ≡ party.old) }
    {
        Ok(ArcGuard::over(RawHold::wait_by_clone(this, party)?))
    }

    /// Clones the Arc, and then tries. A refused clone takes no lock. `Ok(None)` where the mutex is locked.
    ///
    /// ```text
    /// if let Some(sale) = Mutex::try_lock_arc(&seat)? { println!(rt; "{} sold", sale.with(|sold| *sold))?; }
    /// ```
    pub fn try_lock_arc<A: Allocator>(
        this: &Arc<Mutex<R, T>, A>,
    ) -> Result<Option<ArcMutexGuard<R, T, A>>, NoMemory>
        ensures lock { IfOk result (λ some. IfSome some (λ guard. arc_value guard.hold.place ≡ arc_value this.now)) }
        ensures call { IfOk result
            (λ some. Tried (R.tried (arc_value this.now)) some (λ guard. guard.hold.token)) }
    {
        Ok(ArcGuard::if_held(RawHold::at_once_by_clone(this)?))
    }

    /// Clones the Arc, and then waits as `try_lock_for` does. A refused clone takes no lock.
    ///
    /// ```text
    /// let sale = Mutex::try_lock_arc_for(&seat, Duration::from_millis(5), &rt, &mut me)?;
    /// ```
    pub fn try_lock_arc_for<A: Allocator, C: Clock>(
        this: &Arc<Mutex<R, T>, A>,
        timeout: R::Duration,
        clock: &C,
        party: &mut R::Party,
    ) -> Result<Option<ArcMutexGuard<R, T, A>>, NoMemory>
    where
        R: RawMutexTimed,
        R::Duration: Drop,
        ensures lock { IfOk result (λ some. IfSome some (λ guard. arc_value guard.hold.place ≡ arc_value this.now)) }
        ensures call { IfOk result (λ some. Tried R.locked_in_time some (λ guard. guard.hold.token)) }
        ensures refused { OnErr result (party.new ≡ party.old) }
    {
        let found = RawHold::wait_by_clone_for(this, timeout, clock, party)?;
        Ok(ArcGuard::if_held(found))
    }

    /// Clones the Arc, and then waits as `try_lock_until` does. A refused clone takes no lock.
    ///
    /// ```text
    /// let sale = Mutex::try_lock_arc_until(&seat, deadline, &rt, &mut me)?;
    /// ```
    pub fn try_lock_arc_until<A: Allocator, C: Clock>(
        this: &Arc<Mutex<R, T>, A>,
        deadline: R::Instant,
        clock: &C,
        party: &mut R::Party,
    ) -> Result<Option<ArcMutexGuard<R, T, A>>, NoMemory>
    where
        R: RawMutexTimed,
        R::Instant: Drop,
        ensures lock { IfOk result (λ some. IfSome some (λ guard. arc_value guard.hold.place ≡ arc_value this.now)) }
        ensures call { IfOk result (λ some. Tried R.locked_in_time some (λ guard. guard.hold.token)) }
        ensures refused { OnErr result (party.new ≡ party.old) }
    {
        let found = RawHold::wait_by_clone_until(this, deadline, clock, party)?;
        Ok(ArcGuard::if_held(found))
    }
}
