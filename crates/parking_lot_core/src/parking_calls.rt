//! Parking and unparking of real threads.
ghost use Rattle.std.specs.Prelude.{◌≡◌, ◌≢◌, ◌<◌, ◌≤◌, ◌==◌, ◌||◌, ℕ, Bool, true, if◌then◌else◌, None, Some, IsSome};
ghost use Rattle.std.specs.Prelude.{is_some, MatchBool, []};
ghost use Rattle.std.specs.Sync.Mutex.{mutex_guard_value};
ghost use Rattle.parking_lot_core_model.specs.declared.parking.ParkResult.TheVariants.{Invalid, TimedOut};
ghost use Rattle.parking_lot_core_model.specs.declared.parking.UnparkToken.{UnparkToken};
ghost use Rattle.parking_lot_core_model.specs.Operations.{Parks, Resumes, UnparksOne, UnparksAll, UnparksAndRequeues};
ghost use Rattle.parking_lot_core_model.specs.Operations.{UnparksByFilter};
ghost use Rattle.parking_lot_core_model.specs.Machine.{busy, either_busy, enter_fault, resume_fault, Does};
ghost use Rattle.parking_lot_core.specs.Lines.{waits};
ghost use Rattle.parking_lot_core.specs.Shared.{OnSomeLot, Counts, Tells};

use crate::bucket::Bucket;
use crate::chain::{Chain, Waiting, Wanted};
use crate::going_on::{give_up, outcome, ring};
use crate::parking_lot::ParkingLot;
use crate::requeues::{requeue_across, requeue_within};
use crate::seat::Seat;
use crate::stuck::stuck;
use crate::table::Both;
use crate::thread_data::ThreadData;
use crate::under_lock::{Found, collect, enter, give_back, kept_as_found};
use parking_lot_core_model::{
    FilterOp, ParkResult, ParkToken, RequeueOp, UnparkResult, UnparkToken, Waiter,
};
use std::alloc::Allocator;
use std::sync::{MutexGuard, Wait};
use std::time::{Clock, Instant};

/// Parks the thread under a key. The validation is asked while the key's list is locked; where it answers false,
/// `Invalid` is answered and nothing else runs. Else the thread joins the end of the list, runs `before_sleep` and
/// sleeps until another takes it, or its moment is past. Then `timed_out` is told the key of the list that it stood in
/// and whether that is empty now.
///
/// `validate` and `timed_out` must not call the lot. `before_sleep` may call the four unparks. Callers show that the
/// participant is one of this lot.
///
/// Blocks until it is unparked, or the moment is past. It takes no memory.
///
/// ```text
/// let closed = || is_open.load(Ordering::SeqCst) == 0;   // asked under the lock of the key's list
/// let timeout: Option<(Instant, &HostRuntime)> = None;   // or the moment, and the clock
/// let ended = park(&lot, &mut me, key, closed, || {}, |_, _| {}, DEFAULT_PARK_TOKEN, timeout);
/// ```
pub fn park<R: Wait, A: Allocator, V, B, T, C: Clock>(
    lot: &ParkingLot<R, A>,
    thread_data: &mut ThreadData<A>,
    key: usize,
    validate: V,
    before_sleep: B,
    timed_out: T,
    park_token: ParkToken,
    timeout: Option<(Instant, &C)>,
) -> ParkResult
where
    V: FnOnce() -> bool + Drop,
    B: FnOnce() + Drop,
    T: FnOnce(usize, bool) + Drop,
    requires validate { V.IsAlwaysCallable validate }
    requires before_sleep { B.IsAlwaysCallable before_sleep }
    requires timed_out { T.IsAlwaysCallable timed_out }
    requires lot { thread_data.old.lot ≡ lot.now.number }
    requires thread { thread_data.old.thread < lot.now.max_threads }
    ensures valid { (valid : Bool) × V.post validate valid × MatchBool valid (result ≢ Invalid) (result ≡ Invalid) }
    ensures joined { (valid : Bool) × MatchBool valid (result ≢ Invalid) (result ≡ Invalid)
        × OnSomeLot (λ k. k == key) (Does (λ m. enter_fault m thread_data.old.thread key)
        (Parks (V.post validate) thread_data.old.thread key park_token (is_some timeout.entry)))
        (if valid then None else Some Invalid) }
    ensures before { result ≢ Invalid → B.post before_sleep tt }
    ensures late { result ≡ TimedOut → (key : ℕ) × (last : Bool) × T.post timed_out key last tt }
    ensures limit { result ≡ TimedOut → IsSome timeout.entry }
    ensures ended { result ≢ Invalid
        → (its : ℕ) × OnSomeLot (λ k. k == its) (Does (λ m. resume_fault m thread_data.old.thread)
        (Resumes (λ key last. T.post timed_out key last tt) thread_data.old.thread)) result }
    ensures same { thread_data.new ≡ thread_data.old }
{
    let thread = thread_data.thread;
    let seat = match lot.seats.at(thread) {
        Some(seat) => seat,
        None => match stuck(&lot.rt) {},
    };
    let waiting = Waiting {
        key,
        waiter: Waiter {
            thread,
            token: park_token,
        },
        timed: timeout.is_some(),
    };
    if !begin(lot, seat, &mut thread_data.node, waiting, validate) {
        return ParkResult::Invalid;
    }
    before_sleep();
    match seat.sleep(&lot.rt, timeout) {
        Some(told) => ParkResult::Unparked(collect(told, &mut thread_data.node)),
        None => give_up(lot, seat, &mut thread_data.node, thread, timed_out),
    }
}

/// Has a thread join a key's list, and answers what the validation answered.
fn begin<R: Wait, A: Allocator, V: FnOnce() -> bool + Drop>(
    lot: &ParkingLot<R, A>,
    seat: &Seat<A>,
    node: &mut Chain<A>,
    waiting: Waiting,
    validate: V,
) -> bool
    requires { V.IsAlwaysCallable validate }
    ensures asked { V.post validate result }
    ensures joined { OnSomeLot (λ k. k == waiting.key) (Does (λ m. enter_fault m waiting.waiter.thread waiting.key)
        (Parks (V.post validate) waiting.waiter.thread waiting.key waiting.waiter.token waiting.timed))
        (if result then None else Some Invalid) }
{
    let (mut bucket, found) = enter(lot, waiting.key);
    if bucket.has(Wanted::Thread(waiting.waiter.thread)) {
        match stuck(&lot.rt) {}
    }
    if !validate() {
        give_back(bucket, found);
        return false;
    }
    seat.move_to(waiting.key);
    if !bucket.join(waiting, node) {
        match stuck(&lot.rt) {}
    }
    give_back(bucket, found);
    true
}

/// Takes the first waiter of a key and wakes it. The callback gets what is answered and gives the token, also where
/// nobody waits. It must not call the lot.
///
/// Waits at most for the lock of the key's bucket, under which callbacks of other calls run.
///
/// ```text
/// let answer = unpark_one(&lot, key, |_| UnparkToken(42));   // whoever was woken is told 42
/// ```
pub fn unpark_one<R: Wait, A: Allocator, C: FnOnce(UnparkResult) -> UnparkToken + Drop>(
    lot: &ParkingLot<R, A>,
    key: usize,
    callback: C,
) -> UnparkResult
    requires { C.IsAlwaysCallable callback }
    ensures told { (token : UnparkToken) × C.post callback result token }
    ensures one { result.unparked_threads ≤ 1 }
    ensures moved { result.requeued_threads ≡ 0 }
    ensures done { (fair : Bool)
        × OnSomeLot (λ k. k == key) (Does (busy key) (UnparksOne fair (C.post callback) key)) result }
{
    let (mut bucket, found) = kept_as_found(lot.table.lock(&lot.rt, key));
    let fair = bucket.turn();
    if bucket.is_empty() {
        return unpark_nobody(bucket, found, key, fair, callback);
    }
    unpark_first(lot, bucket, found, key, fair, callback)
}

/// Gives a bucket's lock back, in which nobody waits.
#[inline(always)]
fn unpark_nobody<A: Allocator, C: FnOnce(UnparkResult) -> UnparkToken + Drop>(
    bucket: MutexGuard<'_, Bucket<A>>,
    found: Found<A>,
    key: usize,
    fair: bool,
    callback: C,
) -> UnparkResult
    requires found { waits found.bucket.value.line ≡ waits (mutex_guard_value bucket).line }
    requires nobody { waits (mutex_guard_value bucket).line ≡ [] }
    requires callback { C.IsAlwaysCallable callback }
    ensures told { (token : UnparkToken) × C.post callback result token }
    ensures one { result.unparked_threads ≤ 1 }
    ensures moved { result.requeued_threads ≡ 0 }
    ensures done { OnSomeLot (λ k. k == key) (Does (busy key) (UnparksOne fair (C.post callback) key)) result }
{
    let result = UnparkResult {
        unparked_threads: 0,
        requeued_threads: 0,
        have_more_threads: false,
        be_fair: fair,
    };
    callback(result);
    give_back(bucket, found);
    let _ = key;
    result
}

/// Takes the first waiter of a key of a bucket, whose lock it gives back, and wakes it.
#[inline(never)]
fn unpark_first<R: Wait, A: Allocator, C: FnOnce(UnparkResult) -> UnparkToken + Drop>(
    lot: &ParkingLot<R, A>,
    mut bucket: MutexGuard<'_, Bucket<A>>,
    found: Found<A>,
    key: usize,
    fair: bool,
    callback: C,
) -> UnparkResult
    requires found { waits found.bucket.value.line ≡ waits (mutex_guard_value bucket).line }
    requires callback { C.IsAlwaysCallable callback }
    ensures told { (token : UnparkToken) × C.post callback result token }
    ensures one { result.unparked_threads ≤ 1 }
    ensures moved { result.requeued_threads ≡ 0 }
    ensures done { OnSomeLot (λ k. k == key) (Does (busy key) (UnparksOne fair (C.post callback) key)) result }
{
    let mut taken = Chain::new();
    bucket.take_first(Wanted::Key(key), &mut taken);
    let result = outcome(lot, &bucket, key, &taken, &Chain::new(), fair);
    let token = callback(result);
    give_back(bucket, found);
    ring(lot, taken, token);
    result
}

/// Takes all waiters of a key, wakes them with the token and answers how many they were.
///
/// Waits at most for the lock of the key's bucket, under which callbacks of other calls run.
///
/// ```text
/// let woken = unpark_all(&lot, key, DEFAULT_UNPARK_TOKEN);
/// ```
pub fn unpark_all<R: Wait, A: Allocator>(
    lot: &ParkingLot<R, A>,
    key: usize,
    unpark_token: UnparkToken,
) -> usize
    ensures { OnSomeLot (λ k. k == key) (Does (busy key) (UnparksAll unpark_token key)) result }
{
    let (mut bucket, found) = enter(lot, key);
    let mut taken = Chain::new();
    bucket.take_all(Wanted::Key(key), &mut taken);
    let result = outcome(lot, &bucket, key, &taken, &Chain::new(), false);
    give_back(bucket, found);
    ring(lot, taken, unpark_token);
    result.unparked_threads
}

/// Does with the waiters of `key_from` what the validation answers: one may be woken, with the callback's token, and
/// others may be moved to the end of `key_to`'s list. `Abort` changes nothing, and there the callback isn't called.
/// Neither may call the lot.
///
/// Waits at most for the lock of the key's bucket, under which callbacks of other calls run.
///
/// ```text
/// let one = || RequeueOp::UnparkOneRequeueRest;
/// let answer = unpark_requeue(&lot, key, key.wrapping_add(1), one, |_, _| DEFAULT_UNPARK_TOKEN);
/// ```
pub fn unpark_requeue<R: Wait, A: Allocator, V, C>(
    lot: &ParkingLot<R, A>,
    key_from: usize,
    key_to: usize,
    validate: V,
    callback: C,
) -> UnparkResult
where
    V: FnOnce() -> RequeueOp + Drop,
    C: FnOnce(RequeueOp, UnparkResult) -> UnparkToken + Drop,
    requires validate { V.IsAlwaysCallable validate }
    requires callback { C.IsAlwaysCallable callback }
    ensures told { Tells (V.post validate) (C.post callback) result }
    ensures done { OnSomeLot (λ k. (k == key_from) || (k == key_to)) (Does (either_busy key_from key_to)
        (UnparksAndRequeues (V.post validate) (C.post callback) key_from key_to)) result }
{
    match lot.table.lock_both(&lot.rt, key_from, key_to) {
        Both::One(bucket) => requeue_within(lot, bucket, key_from, key_to, validate, callback),
        Both::Two(source, target) => {
            requeue_across(lot, source, target, key_from, key_to, validate, callback)
        }
    }
}

/// Shows the tokens of a key's waiters to a filter, in order, until it stops, and takes those that it wants. They are
/// woken with the callback's token. Neither may call the lot.
///
/// Waits at most for the lock of the key's bucket, under which callbacks of other calls run.
///
/// ```text
/// let readers = |token: ParkToken| if token.0 == 1 { FilterOp::Unpark } else { FilterOp::Stop };
/// let answer = unpark_filter(&lot, key, readers, |_| DEFAULT_UNPARK_TOKEN);
/// ```
pub fn unpark_filter<R: Wait, A: Allocator, F, C>(
    lot: &ParkingLot<R, A>,
    key: usize,
    filter: F,
    callback: C,
) -> UnparkResult
where
    F: FnMut(ParkToken) -> FilterOp + Drop,
    C: FnOnce(UnparkResult) -> UnparkToken + Drop,
    requires filter { F.IsAlwaysCallable filter }
    requires callback { C.IsAlwaysCallable callback }
    ensures told { (token : UnparkToken) × C.post callback result token }
    ensures shown { Counts F.step filter result }
    ensures done { (fair : Bool) × OnSomeLot (λ k. k == key) (Does (busy key)
        (UnparksByFilter fair F.step filter (C.post callback) key)) result }
{
    let (mut bucket, found) = enter(lot, key);
    let fair = bucket.turn();
    let mut taken = Chain::new();
    bucket.sift(key, filter, &mut taken);
    let result = outcome(lot, &bucket, key, &taken, &Chain::new(), fair);
    let token = callback(result);
    give_back(bucket, found);
    ring(lot, taken, token);
    result
}
