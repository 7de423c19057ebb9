//! Guards that own an Arc of their lock.
ghost use Rattle.std.specs.Prelude.{◌≡◌, None, Some, MatchOption};
ghost use Rattle.std.specs.Fn.{FnOnceReturnsAt, FnOnceReturnsAtMut};
ghost use Rattle.lock_api_guards.specs.Holds.{WasReleased, WasReleasedBy};

use crate::held::{ArcHold, FairHold, Hold, MutexHold, ReentrantHold, RwLockHold, WriteHold};
use crate::lock::{HasValue, HasValueMut};
use core::mem;
use std::sync::Wait;

/// A raw hold that owns an Arc of its lock.
///
/// It keeps the raw token and takes the std lock only inside `with` and `with_mut`, since a guard can't borrow from
/// what it owns. Its drop releases the raw lock by its token, and then lets the Arc go.
///
/// What ends the hold waits at most for the short sections of the raw lock in which sleeping threads are woken.
///
/// ```text
/// let mut sale = Mutex::lock_arc(&seat, &mut me)?;
/// sale.with_mut(|sold| *sold = sold.wrapping_add(1));
/// let seat = ArcGuard::into_arc(sale);   // unlocked
/// ```
pub struct ArcGuard<H: Hold>
where
    H::Runtime: Wait,
{
    /// The raw hold.
    pub hold: H,
}

impl<H: Hold> Drop for ArcGuard<H>
where
    H::Runtime: Wait,
{
    fn drop(self) {
        let ArcGuard { hold } = self;
        let _arc = hold.release();
    }
}

impl<H: Hold> ArcGuard<H>
where
    H::Runtime: Wait,
{
    /// Keeps a hold. For the layer above.
    ///
    /// ```text
    /// Ok(ArcGuard::over(RawHold::wait_by_clone(this, party)?))
    /// ```
    pub fn over(hold: H) -> ArcGuard<H>
        ensures { result.hold ≡ hold }
    {
        ArcGuard { hold }
    }

    /// Keeps a hold, if there is one. For the layer above.
    ///
    /// ```text
    /// Ok(ArcGuard::if_held(RawHold::at_once_by_clone(this)?))
    /// ```
    pub fn if_held(hold: Option<H>) -> Option<ArcGuard<H>>
        ensures { MatchOption result (hold ≡ None) (λ guard. hold ≡ Some guard.hold) }
    {
        match hold {
            Some(hold) => Some(ArcGuard { hold }),
            None => None,
        }
    }

    /// The raw hold. For the layer above.
    ///
    /// ```text
    /// ArcGuard::over(ArcGuard::into_hold(guard).downgrade())
    /// ```
    pub fn into_hold(s: ArcGuard<H>) -> H
        ensures { result ≡ s.hold }
    {
        let ArcGuard { hold } = s;
        hold
    }

    /// Releases the lock and gives the Arc that the guard held.
    ///
    /// ```text
    /// let seat = ArcGuard::into_arc(sale);
    /// let free = !seat.is_locked();
    /// ```
    pub fn into_arc(s: ArcGuard<H>) -> H::Apart
        ensures lock { H.apart_of result ≡ H.lock_of s.hold }
        ensures call { H.released s.hold result }
    {
        let ArcGuard { hold } = s;
        hold.release()
    }

    /// Releases the lock, runs the closure and waits for the lock in the same mode again.
    ///
    /// It answers what the closure answered, and the guard is held again afterwards. Others may have written in
    /// between.
    ///
    /// Blocks until it has the lock again. The party is lent to it meanwhile, so the closure can wait for nothing by
    /// it.
    ///
    /// ```text
    /// let free = ArcGuard::unlocked(&mut sale, &mut me, || !seat.is_locked());
    /// ```
    pub fn unlocked<F: FnOnce() -> U, U>(s: &mut ArcGuard<H>, party: &mut H::Party, f: F) -> U
        requires { F.IsAlwaysCallable f }
        ensures answer { F.post f result }
        ensures released { WasReleased H.apart_of (H.lock_of s.old.hold) }
        ensures lock { H.lock_of s.new.hold ≡ H.lock_of s.old.hold }
        ensures again { H.waited s.new.hold }
    {
        mem::replace_with(
            s,
            f,
            |guard, f|
                requires { F.IsAlwaysCallable f }
            {
                let arc = ArcGuard::into_arc(guard);
                let answer = f();
                let hold = H::again(arc, party);
                (ArcGuard { hold }, answer)
            },
        )
    }
}

impl<H: FairHold> ArcGuard<H>
where
    H::Runtime: Wait,
{
    /// As `into_arc`, but the release is fair.
    ///
    /// ```text
    /// let seat = ArcGuard::into_arc_fair(sale);   // whoever waits longest has it next
    /// ```
    pub fn into_arc_fair(s: ArcGuard<H>) -> H::Apart
        ensures lock { H.apart_of result ≡ H.lock_of s.hold }
        ensures fair { H.left_fairly s.hold result }
    {
        let ArcGuard { hold } = s;
        hold.release_fair()
    }

    /// Ends the guard by a fair release.
    ///
    /// ```text
    /// ArcGuard::unlock_fair(sale);
    /// ```
    pub fn unlock_fair(s: ArcGuard<H>)
        ensures { WasReleasedBy H.left_fairly s.hold }
    {
        let _arc = ArcGuard::into_arc_fair(s);
    }

    /// As `unlocked`, but the release is fair.
    ///
    /// ```text
    /// ArcGuard::unlocked_fair(&mut sale, &mut me, || ());   // whoever waits longest had it in between
    /// ```
    pub fn unlocked_fair<F: FnOnce() -> U, U>(s: &mut ArcGuard<H>, party: &mut H::Party, f: F) -> U
        requires { F.IsAlwaysCallable f }
        ensures answer { F.post f result }
        ensures released { WasReleasedBy H.left_fairly s.old.hold }
        ensures lock { H.lock_of s.new.hold ≡ H.lock_of s.old.hold }
    {
        mem::replace_with(
            s,
            f,
            |guard, f|
                requires { F.IsAlwaysCallable f }
            {
                let arc = ArcGuard::into_arc_fair(guard);
                let answer = f();
                let hold = H::again(arc, party);
                (ArcGuard { hold }, answer)
            },
        )
    }

    /// If somebody waits, gives way by a fair release and waits for the same mode again, and else nothing.
    ///
    /// Blocks, where it gave way, until it has the lock again. Others may have written in between.
    ///
    /// ```text
    /// ArcGuard::bump(&mut sale, &mut me);
    /// ```
    pub fn bump(s: &mut ArcGuard<H>, party: &mut H::Party)
        ensures bump { H.bumped s.old.hold s.new.hold }
        ensures lock { H.lock_of s.new.hold ≡ H.lock_of s.old.hold }
    {
        mem::replace_with(s, party, |guard, party| {
            let hold = ArcGuard::into_hold(guard).bump(party);
            (ArcGuard { hold }, ())
        })
    }
}

impl<H: RwLockHold + ArcHold> ArcGuard<H>
where
    H::Runtime: Wait,
{
    /// Lends the Arc of the reader-writer lock that the guard belongs to.
    ///
    /// ```text
    /// let reader = RwLock::read_arc(&rates, &mut me)?;
    /// let is_read = ArcGuard::rwlock(&reader).is_locked();
    /// ```
    pub fn rwlock(s: &ArcGuard<H>) -> &H::Apart
        ensures { H.apart_of result.now ≡ H.lock_of s.now.hold }
    {
        s.hold.arc()
    }
}

impl<H: MutexHold + ArcHold> ArcGuard<H>
where
    H::Runtime: Wait,
{
    /// Lends the Arc of the mutex that the guard belongs to.
    ///
    /// ```text
    /// let is_locked = ArcGuard::mutex(&sale).is_locked();
    /// ```
    pub fn mutex(s: &ArcGuard<H>) -> &H::Apart
        ensures { H.apart_of result.now ≡ H.lock_of s.now.hold }
    {
        s.hold.arc()
    }
}

impl<H: ReentrantHold + ArcHold> ArcGuard<H>
where
    H::Runtime: Wait,
{
    /// Lends the Arc of the reentrant mutex that the guard belongs to.
    ///
    /// ```text
    /// let hold = ReentrantMutex::lock_arc(&canvas, &mut me)?;
    /// let is_locked = ArcGuard::remutex(&hold).is_locked();
    /// ```
    pub fn remutex(s: &ArcGuard<H>) -> &H::Apart
        ensures { H.apart_of result.now ≡ H.lock_of s.now.hold }
    {
        s.hold.arc()
    }
}

impl<H: Hold> ArcGuard<H>
where
    H::Lock: HasValue,
    <H::Lock as HasValue>::Waiting: Wait,
    H::Runtime: Wait,
{
    /// Takes the std lock of the value for the closure's time, lends the value to it and answers what it answers.
    ///
    /// Waits at most for another's try, since whoever holds the raw lock has the value.
    ///
    /// ```text
    /// let sold = sale.with(|sold| *sold);
    /// ```
    pub fn with<F: FnOnce(&<H::Lock as HasValue>::Value) -> U, U>(&self, f: F) -> U
        requires { F.IsAlwaysCallable f }
        ensures { (value : H.Lock.Value) × FnOnceReturnsAt F.FnOnce f value result }
    {
        self.hold.lock().with_value(f)
    }
}

impl<H: WriteHold> ArcGuard<H>
where
    H::Lock: HasValueMut,
    <H::Lock as HasValue>::Waiting: Wait,
    H::Runtime: Wait,
{
    /// As `with`, for writing.
    ///
    /// ```text
    /// sale.with_mut(|sold| *sold = sold.wrapping_add(1));
    /// ```
    pub fn with_mut<F: FnOnce(&mut <H::Lock as HasValue>::Value) -> U, U>(&mut self, f: F) -> U
        requires { F.IsAlwaysCallable f }
        ensures answer { (old : H.Lock.Value) × (new : H.Lock.Value) × FnOnceReturnsAtMut F.FnOnce f old result new }
        ensures stays { self.new ≡ self.old }
    {
        self.hold.lock().with_value_mut(f)
    }
}
