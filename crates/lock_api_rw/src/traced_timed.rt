//! Holds of which there is evidence, where the wait for them may be given up at a moment.
ghost use Rattle.std.specs.Prelude.{◌≡◌, None, Some, IfNone, IfSome, MatchOption};
ghost use Rattle.std.specs.Sync.RwLock.{read_guard_value, write_guard_value};

use crate::evidence::{Evidence, Found, GaveUp};
use crate::rwlock::{RwLock, RwLockReadGuard, RwLockWriteGuard};
use crate::traced::{Traced, TracedWriteGuard};
use lock_api_guards::{Guard, Lender};
use lock_api_raw::RawRwLockTimed;
use std::marker::PhantomData;
use std::rt::Clock;
use std::snapshot::Snapshot;
use std::sync::Wait;

/// As `RwLock::try_read_until`, with evidence of what the hold shows, or that the wait was given up.
#[inline(always)]
pub fn read_until_shown<'l, R: RawRwLockTimed + Evidence<T>, T, C: Clock>(
    lock: &'l RwLock<R, T>,
    deadline: R::Instant,
    clock: &C,
    party: &mut R::Party,
) -> Option<RwLockReadGuard<'l, R, T>>
where
    R::Runtime: Wait,
    ensures lock { IfSome result (λ guard. guard.held.0.place.now ≡ lock.now) }
    ensures call { MatchOption result (R.shared_locked_in_time None)
        (λ guard. R.shared_locked_in_time (Some guard.held.0.token)) }
    ensures told { MatchOption result (R.gave_up_shared lock.now party.old party.new)
        (λ guard. R.showed lock.now party.old party.new (read_guard_value guard.inner)) }
{
    let from = Snapshot::of(&*party);
    match lock.try_read_until(deadline, clock, party) {
        Some(guard) => {
            R::tell_showed(Found {
                lock: Snapshot::of(lock),
                from,
                to: Snapshot::of(&*party),
                value: Snapshot::of(guard.look()),
                mode: PhantomData,
            });
            Some(guard)
        }
        None => {
            R::tell_gave_up_shared(GaveUp {
                lock: Snapshot::of(lock),
                from,
                to: Snapshot::of(&*party),
                mode: PhantomData,
            });
            None
        }
    }
}

/// As `RwLock::try_write_until`, with evidence of what the hold found, or that the wait was given up.
#[inline(always)]
pub fn write_until_found<'l, R: RawRwLockTimed + Evidence<T>, T, C: Clock>(
    lock: &'l RwLock<R, T>,
    deadline: R::Instant,
    clock: &C,
    party: &mut R::Party,
) -> Option<RwLockWriteGuard<'l, R, T>>
where
    R::Runtime: Wait,
    ensures lock { IfSome result (λ guard. guard.held.0.place.now ≡ lock.now) }
    ensures call { MatchOption result (R.exclusive_locked_in_time None)
        (λ guard. R.exclusive_locked_in_time (Some guard.held.0.token)) }
    ensures told { MatchOption result (R.gave_up_exclusive lock.now party.old party.new)
        (λ guard. R.found lock.now party.old party.new (write_guard_value guard.inner)) }
{
    let from = Snapshot::of(&*party);
    match lock.try_write_until(deadline, clock, party) {
        Some(guard) => {
            R::tell_found(Found {
                lock: Snapshot::of(lock),
                from,
                to: Snapshot::of(&*party),
                value: Snapshot::of(guard.look()),
                mode: PhantomData,
            });
            Some(guard)
        }
        None => {
            R::tell_gave_up_exclusive(GaveUp {
                lock: Snapshot::of(lock),
                from,
                to: Snapshot::of(&*party),
                mode: PhantomData,
            });
            None
        }
    }
}

/// As `RwLock::try_write_until`, by a guard of whose end there will be evidence, or with evidence that the wait was given
/// up.
#[inline(always)]
pub fn write_until_traced<'l, R: RawRwLockTimed + Evidence<T>, T, C: Clock>(
    lock: &'l RwLock<R, T>,
    deadline: R::Instant,
    clock: &C,
    party: &mut R::Party,
) -> Option<TracedWriteGuard<'l, R, T>>
where
    R::Runtime: Wait,
    ensures lock { IfSome result (λ traced. traced.held.0.place.now ≡ lock.now) }
    ensures before { IfSome result (λ traced. traced.before.value ≡ write_guard_value traced.inner) }
    ensures wait { IfSome result
        (λ traced. (traced.from.value ≡ party.old) × (traced.to.value ≡ party.new)) }
    ensures call { MatchOption result (R.exclusive_locked_in_time None)
        (λ traced. R.exclusive_locked_in_time (Some traced.held.0.token)) }
    ensures late { IfNone result (R.gave_up_exclusive lock.now party.old party.new) }
{
    let from = Snapshot::of(&*party);
    match lock.try_write_until(deadline, clock, party) {
        Some(guard) => {
            let (inner, held) = Guard::into_parts(guard);
            let before = Snapshot::of(inner.look());
            Some(Traced {
                inner,
                held,
                before,
                from,
                to: Snapshot::of(&*party),
            })
        }
        None => {
            R::tell_gave_up_exclusive(GaveUp {
                lock: Snapshot::of(lock),
                from,
                to: Snapshot::of(&*party),
                mode: PhantomData,
            });
            None
        }
    }
}
