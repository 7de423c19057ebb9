//! A seat on which one thread sleeps.

use std::sync::{Condvar, Mutex, MutexGuard, Wait};
use std::time::{Clock, Duration, Instant};

/// A seat on which one thread sleeps until another unparks it. The seat's thread says first that it is about to sleep;
/// from then on it can be unparked, so that no unpark is lost.
///
/// ```text
/// let seat = ThreadParker::new();
/// seat.prepare_park(&rt);
/// seat.unpark_lock(&rt).unpark();   // by another thread, which was told of the seat
/// seat.park(&rt);                   // comes back at once, as it was unparked
/// ```
pub trait ThreadParkerT<'s> {
    /// What wakes the thread.
    type UnparkHandle: UnparkHandleT;

    /// A seat that is unparked.
    ///
    /// ```text
    /// let seat = ThreadParker::new();
    /// ```
    fn new() -> Self;

    /// Says that the seat's thread is about to sleep. That thread calls it, before others can know of it.
    ///
    /// ```text
    /// seat.prepare_park(&rt);
    /// ```
    fn prepare_park<R: Wait>(&self, rt: &R);

    /// After a `park_until` that gave up: whether nobody has unparked the seat since.
    ///
    /// ```text
    /// let slept_through = !seat.park_until(&rt, deadline, &rt) && seat.timed_out(&rt);
    /// ```
    fn timed_out<R: Wait>(&self, rt: &R) -> bool;

    /// Sleeps until the seat is unparked.
    ///
    /// ```text
    /// seat.park(&rt);
    /// ```
    fn park<R: Wait>(&self, rt: &R);

    /// The same, but answers false if the moment is past first. A clock that can't be read counts as past it.
    ///
    /// ```text
    /// let unparked = seat.park_until(&rt, deadline, &rt);
    /// ```
    fn park_until<R: Wait, C: Clock>(&self, rt: &R, timeout: Instant, clock: &C) -> bool;

    /// Marks the seat as unparked, and gives the handle that wakes its thread.
    ///
    /// ```text
    /// seat.unpark_lock(&rt).unpark();
    /// ```
    fn unpark_lock<R: Wait>(&'s self, rt: &R) -> Self::UnparkHandle;
}

/// Wakes the thread of one seat.
pub trait UnparkHandleT {
    /// Wakes the thread. The handle is spent.
    ///
    /// ```text
    /// let handle = seat.unpark_lock(&rt);
    /// handle.unpark();
    /// ```
    fn unpark(self);
}

/// A seat made of a mutex and a condition variable.
#[derive(Drop)]
pub struct ThreadParker {
    parked: Mutex<bool>,
    unparked: Condvar,
}

/// What wakes the thread of a [`ThreadParker`]. It holds the seat's mutex until then.
#[derive(Drop)]
pub struct UnparkHandle<'s> {
    guard: MutexGuard<'s, bool>,
    unparked: &'s Condvar,
}

impl<'s> ThreadParkerT<'s> for ThreadParker {
    type UnparkHandle = UnparkHandle<'s>;

    fn new() -> ThreadParker {
        ThreadParker {
            parked: Mutex::new(false),
            unparked: Condvar::new(),
        }
    }

    fn prepare_park<R: Wait>(&self, rt: &R) {
        *self.parked.lock(rt) = true;
    }

    fn timed_out<R: Wait>(&self, rt: &R) -> bool {
        *self.parked.lock(rt)
    }

    fn park<R: Wait>(&self, rt: &R) {
        let mut parked = self.parked.lock(rt);
        for _turn in rt.forever() {
            if !*parked {
                return;
            }
            parked = self.unparked.wait(rt, parked);
        }
    }

    fn park_until<R: Wait, C: Clock>(&self, rt: &R, timeout: Instant, clock: &C) -> bool {
        let both = Timed { rt, clock };
        let mut parked = self.parked.lock(rt);
        for _turn in rt.forever() {
            if !*parked {
                return true;
            }
            let Some(left) = time_left(timeout, clock) else {
                return false;
            };
            parked = self.unparked.wait_timeout(&both, parked, left).0;
        }
        unreachable!()
    }

    fn unpark_lock<R: Wait>(&'s self, rt: &R) -> UnparkHandle<'s> {
        let mut guard = self.parked.lock(rt);
        *guard = false;
        UnparkHandle {
            guard,
            unparked: &self.unparked,
        }
    }
}

impl UnparkHandleT for UnparkHandle<'_> {
    fn unpark(self) {
        let UnparkHandle { guard, unparked } = self;
        drop(guard);
        unparked.notify_one();
    }
}

/// What waits, with the clock that judges how long.
pub(crate) struct Timed<'a, R, C> {
    pub rt: &'a R,
    pub clock: &'a C,
}

impl<R, C> Drop for Timed<'_, R, C> {
    fn drop(self) {
        let Timed { rt: _, clock: _ } = self;
    }
}

impl<R: Wait, C> Wait for Timed<'_, R, C> {}

impl<R, C: Clock> Clock for Timed<'_, R, C> {
    fn monotonic(&self) -> std::io::Result<Duration> {
        self.clock.monotonic()
    }

    fn since_1970(&self) -> std::io::Result<Duration> {
        self.clock.since_1970()
    }
}

/// How long it is until the moment; none once it is past, or where the clock can't be read.
pub(crate) fn time_left<C: Clock>(timeout: Instant, clock: &C) -> Option<Duration> {
    let now = Instant::now(clock).ok()?;
    let left = timeout.checked_duration_since(now)?;
    if left.is_zero() { None } else { Some(left) }
}
