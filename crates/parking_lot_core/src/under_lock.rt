//! Holds of a bucket's lock: what was found when it was had, and what was left when it was given back.
ghost use Rattle.std.specs.Prelude.{◌≡◌, ℕ};
ghost use Rattle.std.specs.Sync.Mutex.{mutex_guard_value};
ghost use Rattle.parking_lot_core_model.specs.declared.parking.UnparkToken.{UnparkToken};
ghost use Rattle.parking_lot_core_model.specs.Machine.{Machine};
ghost use Rattle.parking_lot_core.specs.Shared.{WasHeld, HasLists, HasBoth, WasTold, WasFreed};
ghost use Rattle.parking_lot_core.specs.Lines.{waits};

use crate::bucket::Bucket;
use crate::chain::Chain;
use crate::parking_lot::ParkingLot;
use crate::seat::{Seat, Told};
use crate::state::State;
use parking_lot_core_model::UnparkToken;
use std::alloc::Allocator;
use std::snapshot::Snapshot;
use std::sync::{MutexGuard, Wait};

/// What was found under a bucket's lock, for proofs alone. None is made but here, where the lock was had.
#[derive(Drop)]
pub(crate) struct Found<A: Allocator> {
    pub bucket: Snapshot<Bucket<A>>,
}

/// Waits for the lock of a key's bucket.
#[inline(always)]
pub(crate) fn enter<R: Wait, A: Allocator>(
    lot: &ParkingLot<R, A>,
    key: usize,
) -> (MutexGuard<'_, Bucket<A>>, Found<A>)
    ensures { result.1.bucket.value ≡ mutex_guard_value result.0 }
{
    kept_as_found(lot.table.lock(&lot.rt, key))
}

/// The same of a bucket that was had just now.
#[inline(always)]
pub(crate) fn kept_as_found<A: Allocator>(
    bucket: MutexGuard<'_, Bucket<A>>,
) -> (MutexGuard<'_, Bucket<A>>, Found<A>)
    ensures bucket { mutex_guard_value result.0 ≡ mutex_guard_value bucket.entry }
    ensures found { result.1.bucket.value ≡ mutex_guard_value result.0 }
{
    let found = Found {
        bucket: Snapshot::of(&*bucket),
    };
    (bucket, found)
}

/// Waits for the lock of the bucket of the list in which a seat's thread stands, or stood last.
pub(crate) fn enter_for<'l, R: Wait, A: Allocator>(
    lot: &'l ParkingLot<R, A>,
    seat: &Seat<A>,
) -> (MutexGuard<'l, Bucket<A>>, Found<A>)
    ensures { result.1.bucket.value ≡ mutex_guard_value result.0 }
{
    for _turn in lot.rt.forever() {
        let key = seat.key();
        let bucket = lot.table.lock(&lot.rt, key);
        if seat.key() == key {
            return kept_as_found(bucket);
        }
    }
    unreachable!()
}

/// Gives a bucket's lock back.
#[inline(always)]
pub(crate) fn give_back<A: Allocator>(bucket: MutexGuard<'_, Bucket<A>>, found: Found<A>)
    ensures { (old new : Machine) → HasLists old (waits found.bucket.value.line)
        → HasLists new (waits (mutex_guard_value bucket.entry).line) → WasHeld old new }
{
    drop(bucket);
    drop(found);
}

/// Gives two buckets' locks back. The waiters of the first key are those of the first, and to those of the second key
/// some have come from the first behind those that were there, who bear other numbers in the lot.
pub(crate) fn give_both_back<A: Allocator>(
    source: MutexGuard<'_, Bucket<A>>,
    found_source: Found<A>,
    target: MutexGuard<'_, Bucket<A>>,
    found_target: Found<A>,
)
    ensures { (old new : Machine) (from to shift : ℕ) → HasBoth from to shift
        (waits found_source.bucket.value.line) (waits (mutex_guard_value source.entry).line)
        (waits found_target.bucket.value.line) (waits (mutex_guard_value target.entry).line) old new
        → WasHeld old new }
{
    drop(source);
    drop(target);
    drop(found_source);
    drop(found_target);
}

/// Has a thread find what it was told at its seat: its node, and the token.
pub(crate) fn collect<A: Allocator>(
    mut told: MutexGuard<'_, Told<A>>,
    mine: &mut Chain<A>,
) -> UnparkToken
    ensures token { result ≡ (mutex_guard_value told.entry).token }
    ensures held { (old new : Machine) → WasTold (mutex_guard_value told.entry).token old new → WasHeld old new }
{
    told.node.move_first(mine);
    told.token
}

/// Gives the lock of the numbers of threads back, of which one is free now.
pub(crate) fn close<A: Allocator>(state: MutexGuard<'_, State<A>>, thread: usize)
    ensures { (old new : Machine) → WasFreed thread (mutex_guard_value state.entry).given.items old new
        → WasHeld old new }
{
    drop(state);
    let _ = thread;
}
