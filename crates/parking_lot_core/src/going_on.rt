//! What threads that were taken, or whose moment is past, go on with.
ghost use Rattle.std.specs.Prelude.{◌≡◌, ◌≢◌, ◌==◌, ℕ, Bool, length};
ghost use Rattle.parking_lot_core_model.specs.declared.parking.ParkResult.TheVariants.{Invalid, TimedOut};
ghost use Rattle.parking_lot_core_model.specs.Operations.{Resumes};
ghost use Rattle.parking_lot_core_model.specs.Machine.{resume_fault, Does};
ghost use Rattle.parking_lot_core.specs.declared.chain.Wanted.TheVariants.{Key};
ghost use Rattle.parking_lot_core.specs.Shared.{OnSomeLot};
ghost use Rattle.parking_lot_core.specs.Waits.{any, fits};
ghost use Rattle.parking_lot_core.specs.Lines.{waits};

use crate::bucket::Bucket;
use crate::chain::{Chain, Wanted};
use crate::parking_lot::ParkingLot;
use crate::seat::Seat;
use crate::stuck::stuck;
use crate::under_lock::{collect, enter_for, give_back};
use parking_lot_core_model::{ParkResult, UnparkResult, UnparkToken};
use std::alloc::Allocator;
use std::sync::Wait;

/// What is answered once these were taken, and those are to stand in another list.
pub(crate) fn outcome<R: Wait, A: Allocator>(
    lot: &ParkingLot<R, A>,
    bucket: &Bucket<A>,
    key: usize,
    taken: &Chain<A>,
    moved: &Chain<A>,
    fair: bool,
) -> UnparkResult
    ensures { result ≡ record {
      unparked_threads = length taken.now;
      requeued_threads = length moved.now;
      have_more_threads = any (fits (Key key)) (waits bucket.now.line);
      be_fair = fair;
    } }
{
    match (taken.count(), moved.count()) {
        (Some(unparked_threads), Some(requeued_threads)) => UnparkResult {
            unparked_threads,
            requeued_threads,
            have_more_threads: bucket.has(Wanted::Key(key)),
            be_fair: fair,
        },
        _ => match stuck(&lot.rt) {},
    }
}

/// Tells those of a chain, of which the last came first, each at its seat.
pub(crate) fn ring<R: Wait, A: Allocator>(
    lot: &ParkingLot<R, A>,
    mut newest: Chain<A>,
    token: UnparkToken,
) {
    let mut taken = Chain::new();
    newest.pour(&mut taken);
    while let Some(first) = taken.head() {
        match lot.seats.at(first.waiter.thread) {
            Some(seat) => seat.tell(&lot.rt, &mut taken, token),
            None => match stuck(&lot.rt) {},
        }
    }
}

/// Has a thread go on whose moment is past: it takes itself out of its list, or was taken before.
pub(crate) fn give_up<R: Wait, A: Allocator, T: FnOnce(usize, bool) + Drop>(
    lot: &ParkingLot<R, A>,
    seat: &Seat<A>,
    node: &mut Chain<A>,
    thread: usize,
    timed_out: T,
) -> ParkResult
    requires { T.IsAlwaysCallable timed_out }
    ensures valid { result ≢ Invalid }
    ensures late { result ≡ TimedOut → (key : ℕ) × (last : Bool) × T.post timed_out key last tt }
    ensures ended { (its : ℕ) × OnSomeLot (λ k. k == its) (Does (λ m. resume_fault m thread)
        (Resumes (λ key last. T.post timed_out key last tt) thread)) result }
{
    let (mut bucket, found) = enter_for(lot, seat);
    if !bucket.has(Wanted::Thread(thread)) {
        give_back(bucket, found);
        return ParkResult::Unparked(collect(seat.told(&lot.rt), node));
    }
    bucket.take_first(Wanted::Thread(thread), node);
    let key = match node.head() {
        Some(first) => first.key,
        None => match stuck(&lot.rt) {},
    };
    timed_out(key, !bucket.has(Wanted::Key(key)));
    give_back(bucket, found);
    ParkResult::TimedOut
}
