//! Requeues, within a bucket and from one to another.
ghost use Rattle.std.specs.Prelude.{◌≡◌, ◌==◌, ◌||◌, ◌++◌, []};
ghost use Rattle.parking_lot_core_model.specs.Operations.{UnparksAndRequeues, is_abort};
ghost use Rattle.parking_lot_core_model.specs.Machine.{either_busy, Does};
ghost use Rattle.parking_lot_core.specs.Shared.{OnSomeLot, Tells};
ghost use Rattle.parking_lot_core.specs.Waits.{onto, woken_of, moved_of, rest_of};
ghost use Rattle.parking_lot_core.specs.Lines.{waits};

use crate::bucket::Bucket;
use crate::chain::{Chain, Links, Wanted};
use crate::going_on::{outcome, ring};
use crate::parking_lot::ParkingLot;
use crate::stuck::stuck;
use crate::under_lock::{give_back, give_both_back, kept_as_found};
use parking_lot_core_model::{RequeueOp, UnparkResult, UnparkToken};
use std::alloc::Allocator;
use std::sync::{MutexGuard, Wait};

/// Takes those of a key that the operation wakes, to the front of the first chain, and those that it moves, the last of
/// which stands first then.
fn take_for<A: Allocator>(
    bucket: &mut Bucket<A>,
    op: RequeueOp,
    key: usize,
    woken: &mut Chain<A>,
    newest: &mut Chain<A>,
)
    requires { (woken.old ≡ []) × (newest.old ≡ []) }
    ensures left { waits bucket.new.line ≡ rest_of op key (waits bucket.old.line) }
    ensures woken { woken.new ≡ woken_of op key (waits bucket.old.line) }
    ensures moved { onto newest.new [] ≡ moved_of op key (waits bucket.old.line) }
{
    let wanted = Wanted::Key(key);
    match op {
        RequeueOp::Abort => {}
        RequeueOp::UnparkOneRequeueRest => {
            bucket.take_first(wanted, woken);
            bucket.take_all(wanted, newest);
        }
        RequeueOp::RequeueAll => bucket.take_all(wanted, newest),
        RequeueOp::UnparkOne => bucket.take_first(wanted, woken),
        RequeueOp::RequeueOne => bucket.take_first(wanted, newest),
    }
}

/// Takes those of a key that the operation wakes, and those that it moves, in their order.
fn pull<A: Allocator>(bucket: &mut Bucket<A>, op: RequeueOp, key: usize) -> (Chain<A>, Chain<A>)
    ensures left { waits bucket.new.line ≡ rest_of op key (waits bucket.old.line) }
    ensures woken { result.0 ≡ woken_of op key (waits bucket.old.line) }
    ensures moved { result.1 ≡ moved_of op key (waits bucket.old.line) }
{
    let mut woken = Chain::new();
    let mut newest = Chain::new();
    let mut moved = Chain::new();
    take_for(bucket, op, key, &mut woken, &mut newest);
    newest.pour(&mut moved);
    (woken, moved)
}

/// Tells those of a chain at their seats that they stand in another list.
fn relist<R: Wait, A: Allocator>(lot: &ParkingLot<R, A>, moved: &Chain<A>, key: usize) {
    let mut at = moved.links();
    while let Links::Link(node) = at {
        match lot.seats.at(node.waiting.waiter.thread) {
            Some(seat) => seat.move_to(key),
            None => match stuck(&lot.rt) {},
        }
        at = &node.next;
    }
}

/// A requeue of keys that have one bucket.
pub(crate) fn requeue_within<R: Wait, A: Allocator, V, C>(
    lot: &ParkingLot<R, A>,
    bucket: MutexGuard<'_, Bucket<A>>,
    key_from: usize,
    key_to: usize,
    validate: V,
    callback: C,
) -> UnparkResult
where
    V: FnOnce() -> RequeueOp + Drop,
    C: FnOnce(RequeueOp, UnparkResult) -> UnparkToken + Drop,
    requires validate { V.IsAlwaysCallable validate }
    requires callback { C.IsAlwaysCallable callback }
    ensures told { Tells (V.post validate) (C.post callback) result }
    ensures done { OnSomeLot (λ k. (k == key_from) || (k == key_to)) (Does (either_busy key_from key_to)
        (UnparksAndRequeues (V.post validate) (C.post callback) key_from key_to)) result }
{
    let (mut bucket, found) = kept_as_found(bucket);
    let op = validate();
    if is_abort(op) {
        give_back(bucket, found);
        return UnparkResult::default();
    }
    let (woken, mut moved) = pull(&mut bucket, op, key_from);
    let result = outcome(lot, &bucket, key_from, &woken, &moved, false);
    let token = callback(op, result);
    relist(lot, &moved, key_to);
    bucket.join_all(key_to, &mut moved);
    give_back(bucket, found);
    ring(lot, woken, token);
    result
}

/// A requeue from one bucket to another.
pub(crate) fn requeue_across<R: Wait, A: Allocator, V, C>(
    lot: &ParkingLot<R, A>,
    source: MutexGuard<'_, Bucket<A>>,
    target: MutexGuard<'_, Bucket<A>>,
    key_from: usize,
    key_to: usize,
    validate: V,
    callback: C,
) -> UnparkResult
where
    V: FnOnce() -> RequeueOp + Drop,
    C: FnOnce(RequeueOp, UnparkResult) -> UnparkToken + Drop,
    requires validate { V.IsAlwaysCallable validate }
    requires callback { C.IsAlwaysCallable callback }
    ensures told { Tells (V.post validate) (C.post callback) result }
    ensures done { OnSomeLot (λ k. (k == key_from) || (k == key_to)) (Does (either_busy key_from key_to)
        (UnparksAndRequeues (V.post validate) (C.post callback) key_from key_to)) result }
{
    if key_from == key_to {
        match stuck(&lot.rt) {}
    }
    let (mut source, found_source) = kept_as_found(source);
    let (mut target, found_target) = kept_as_found(target);
    let op = validate();
    if is_abort(op) {
        give_both_back(source, found_source, target, found_target);
        return UnparkResult::default();
    }
    let (woken, mut moved) = pull(&mut source, op, key_from);
    let result = outcome(lot, &source, key_from, &woken, &moved, false);
    let token = callback(op, result);
    if moved.meets(&target.line) {
        match stuck(&lot.rt) {}
    }
    relist(lot, &moved, key_to);
    target.join_all(key_to, &mut moved);
    give_both_back(source, found_source, target, found_target);
    ring(lot, woken, token);
    result
}

/// Whether the operation is to do nothing.
fn is_abort(op: RequeueOp) -> bool
    ensures { result ≡ is_abort op }
{
    matches!(op, RequeueOp::Abort)
}
