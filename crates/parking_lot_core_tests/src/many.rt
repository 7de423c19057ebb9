//! Threads that sleep under many keys, whose lists stand in one bucket or in several, and buckets that become more.
use crate::sleepers::{TURNS, are_told, has_come, parked, sleep_each, unparked};
use crate::threads::admitted;
use crate::trials::{Trial, goes_well};
use parking_lot_core::RequeueOp::{Abort, RequeueAll, RequeueOne, UnparkOne, UnparkOneRequeueRest};
use parking_lot_core::{
    DEFAULT_PARK_TOKEN, FilterOp, LotFault, ParkResult, ParkToken, ParkingLot, RequeueOp,
    ThreadData, UnparkToken, park, thread_yield, unpark_all, unpark_filter, unpark_one,
    unpark_requeue,
};
use refusing_heap::{Heap, Refusal, RefusingHeap, Said, Seen};
use std::alloc::{AllocError, Allocator, Global};
use std::sync::Wait;
use std::sync::atomic::{AtomicUsize, Ordering};
use std::test::Fail;
use std::thread;
use std::thread::Threads;
use std::time::{Clock, Instant};

/// How many threads sleep, and as many wake them.
const PAIRS: usize = 4;

const KEYS: usize = 64;

/// How often each is woken.
const ROUNDS: usize = 25_000;

/// How many threads are registered beside them, each once so many more were woken.
const OTHERS: usize = 90;

const BETWEEN: usize = 1_000;

/// So many keys from one on, taken in turn.
#[derive(Clone, Copy)]
struct Keys {
    first: usize,
    count: usize,
}

impl Keys {
    /// The key of a round.
    fn at(self, round: usize) -> usize {
        let behind = round.checked_rem(self.count).unwrap_or(0);
        self.first.wrapping_add(behind)
    }
}

/// Parks so often, and answers whether each park got the token of its round.
fn parked_each<R: Wait + Clock>(
    lot: &ParkingLot<R>,
    keys: Keys,
    rounds: usize,
    over: &AtomicUsize,
) -> bool {
    let Ok(mut me) = lot.thread_data() else {
        return false;
    };
    for round in 0..rounds {
        let ended = parked(lot, &mut me, keys.at(round), DEFAULT_PARK_TOKEN, over);
        if ended != Some(ParkResult::Unparked(UnparkToken(round))) {
            return false;
        }
    }
    true
}

/// The keys of a pair. Keys of different pairs have one bucket, until there are more.
fn keys_of(pair: usize) -> Keys {
    let count = KEYS / PAIRS;
    Keys {
        first: pair.wrapping_mul(count),
        count,
    }
}

/// Moves a sleeper to another key, as soon as there is one, and unparks it there.
fn unparked_elsewhere<R: Wait>(lot: &ParkingLot<R>, key: usize, token: usize) -> bool {
    let other = key.wrapping_add(KEYS);
    let told = UnparkToken(token);
    for _turn in 0..TURNS {
        let answer = unpark_requeue(lot, key, other, || RequeueOp::RequeueOne, |_, _| told);
        if answer.requeued_threads == 1 {
            return unpark_one(lot, other, |_| told).unparked_threads == 1;
        }
        thread_yield();
    }
    false
}

/// Wakes the sleeper of a round, of many keys each second time under another key.
fn woken<R: Wait>(lot: &ParkingLot<R>, keys: Keys, round: usize) -> bool {
    if keys.count == 1 || round % 2 == 0 {
        unparked(lot, keys.at(round), round)
    } else {
        unparked_elsewhere(lot, keys.at(round), round)
    }
}

/// Wakes all of any key, and answers how many there were.
fn woken_of_all<R: Wait>(lot: &ParkingLot<R>) -> usize {
    let mut woken = 0usize;
    for key in 0..2 * KEYS {
        woken = woken.wrapping_add(unpark_all(lot, key, UnparkToken(ROUNDS)));
    }
    woken
}

/// Wakes a sleeper so often, with the number of the round. Where it doesn't come it says that it is over.
fn unparked_each<R: Wait>(
    lot: &ParkingLot<R>,
    keys: Keys,
    rounds: usize,
    over: &AtomicUsize,
    done: &AtomicUsize,
) -> bool {
    for round in 0..rounds {
        if !woken(lot, keys, round) {
            over.store(1, Ordering::SeqCst);
            woken_of_all(lot);
            return false;
        }
        done.fetch_add(1, Ordering::SeqCst);
    }
    true
}

/// Waits until so many were woken, or it is over.
fn are_woken(done: &AtomicUsize, over: &AtomicUsize, count: usize) -> bool {
    for _turn in 0..TURNS {
        if done.load(Ordering::SeqCst) >= count {
            return true;
        }
        if over.load(Ordering::SeqCst) != 0 {
            return false;
        }
        thread_yield();
    }
    false
}

/// Registers threads while others sleep and are woken.
fn registered<R: Wait>(lot: &ParkingLot<R>, over: &AtomicUsize, done: &AtomicUsize) -> bool {
    for number in 0..OTHERS {
        if !are_woken(done, over, number.wrapping_mul(BETWEEN)) || admitted(lot).is_err() {
            return false;
        }
    }
    true
}

/// What one of the threads does.
fn takes_part<R: Wait + Clock>(
    lot: &ParkingLot<R>,
    number: usize,
    over: &AtomicUsize,
    done: &AtomicUsize,
) -> bool {
    if number < PAIRS {
        parked_each(lot, keys_of(number), ROUNDS, over)
    } else if number < 2 * PAIRS {
        unparked_each(lot, keys_of(number - PAIRS), ROUNDS, over, done)
    } else {
        registered(lot, over, done)
    }
}

/// One thread is woken a hundred thousand times under one key, as often as it parks, and at the end nobody is left.
pub fn is_none_lost<R: Wait + Threads + Clock + Sync>(rt: &R, lot: &ParkingLot<R>) -> bool {
    let keys = Keys { first: 3, count: 1 };
    let over = AtomicUsize::new(0);
    let done = AtomicUsize::new(0);
    let (slept, woke) = thread::join(
        rt,
        || parked_each(lot, keys, 100_000, &over),
        || unparked_each(lot, keys, 100_000, &over, &done),
    );
    slept & woke & (unpark_all(lot, 3, UnparkToken(0)) == 0)
}

/// None is lost while buckets grow.
pub fn none_is_lost<R: Wait + Threads + Clock + Sync>(
    rt: &R,
    alloc: Global,
    lot: &ParkingLot<R>,
) -> Result<bool, AllocError> {
    let over = AtomicUsize::new(0);
    let done = AtomicUsize::new(0);
    let part = |number| takes_part(lot, number, &over, &done);
    let ended = thread::map_indices(rt, alloc, 2 * PAIRS + 1, &part)?;
    let are_right = ended.iter().all(|is_right| *is_right);
    let is_done = done.load(Ordering::SeqCst) == PAIRS * ROUNDS;
    Ok(are_right & is_done & (woken_of_all(lot) == 0))
}

/// A key's list: the digits are its waiters' tokens, each and one.
fn list<R: Wait, A: Allocator>(lot: &ParkingLot<R, A>, key: usize) -> usize {
    let mut seen = 0usize;
    unpark_filter(
        lot,
        key,
        |token| {
            seen = seen.wrapping_mul(10).wrapping_add(token.0.wrapping_add(1));
            FilterOp::Skip
        },
        |_| UnparkToken(0),
    );
    seen
}

/// The lists of keys 3 and 67, which have one bucket until there are 128, and of 4 and 5.
fn lists<R: Wait>(lot: &ParkingLot<R>) -> [usize; 4] {
    [list(lot, 3), list(lot, 67), list(lot, 4), list(lot, 5)]
}

/// A call, with the token that those are told that it wakes.
#[derive(Clone, Copy)]
enum Call {
    One(usize),
    All(usize),
    Requeue(usize, usize, RequeueOp),
    /// Wakes whoever has this token.
    Filter(usize, usize),
    /// Registers so many threads.
    Register(usize),
}

fn make<R: Wait>(lot: &ParkingLot<R>, call: Call, token: usize) {
    let told = UnparkToken(token);
    match call {
        Call::One(key) => {
            unpark_one(lot, key, |_| told);
        }
        Call::All(key) => {
            unpark_all(lot, key, told);
        }
        Call::Requeue(from, to, op) => {
            unpark_requeue(lot, from, to, || op, |_, _| told);
        }
        Call::Filter(key, wanted) => {
            let filter = |token: ParkToken| if token.0 == wanted {
                FilterOp::Unpark
            } else {
                FilterOp::Skip
            };
            unpark_filter(lot, key, filter, |_| told);
        }
        Call::Register(count) => {
            for _thread in 0..count {
                let _ = admitted(lot);
            }
        }
    }
}

/// What stands after each call. With 46 threads there are 256 buckets.
const STEPS: [(Call, usize, [usize; 4]); 10] = [
    (Call::One(3), 10, [2, 34, 5, 6]),
    (Call::Register(40), 0, [2, 34, 5, 6]),
    (
        Call::Requeue(67, 4, UnparkOneRequeueRest),
        11,
        [2, 0, 54, 6],
    ),
    (Call::Requeue(4, 67, RequeueOne), 0, [2, 5, 4, 6]),
    (Call::Requeue(3, 67, RequeueAll), 0, [0, 52, 4, 6]),
    (Call::Requeue(5, 4, Abort), 0, [0, 52, 4, 6]),
    (Call::Filter(67, 1), 13, [0, 5, 4, 6]),
    (Call::All(4), 14, [0, 5, 0, 6]),
    (Call::Requeue(5, 3, UnparkOne), 15, [0, 5, 0, 0]),
    (Call::All(67), 16, [0, 0, 0, 0]),
];

/// Makes the calls once all sleep, and answers the first step behind which a list isn't as it should be.
fn wrong_step<R: Wait>(lot: &ParkingLot<R>, joined: &AtomicUsize) -> Option<usize> {
    let mut wrong = None;
    if !has_come(joined, 6) || lists(lot) != [12, 34, 5, 6] {
        wrong = Some(0);
    }
    for (at, (call, token, after)) in STEPS.iter().enumerate() {
        make(lot, *call, *token);
        if wrong.is_none() && lists(lot) != *after {
            wrong = Some(at.wrapping_add(1));
        }
    }
    wrong
}

/// The keys under which six sleep.
const SLEEPERS: [usize; 6] = [3, 3, 67, 67, 4, 5];

/// Whether neighbouring lists stay as they are to while six sleep and the calls are made, and each is told its token.
pub fn lists_stay<R: Wait + Threads + Clock + Sync>(
    rt: &R,
    alloc: Global,
    lot: &ParkingLot<R>,
) -> bool {
    let joined = AtomicUsize::new(0);
    let (tokens, wrong) = thread::join(
        rt,
        || sleep_each(rt, alloc, lot, &joined, &SLEEPERS),
        || wrong_step(lot, &joined),
    );
    wrong.is_none() & are_told(tokens, &[10, 13, 11, 14, 16, 15])
}

/// Parks under key 3 until a moment that is past, and is moved to another key before. Answers how the park ended, under
/// which key it was told that its moment was past, and whether that list was empty then.
fn moved_then_late<R: Wait + Clock>(
    rt: &R,
    lot: &ParkingLot<R>,
    other: usize,
) -> Option<(ParkResult, usize, bool)> {
    let past = Instant::now(rt).ok()?;
    let mut me = lot.thread_data().ok()?;
    let mut told = (0, false);
    let ended = park(
        lot,
        &mut me,
        3,
        || true,
        || {
            unpark_requeue(
                lot,
                3,
                other,
                || RequeueOp::RequeueAll,
                |_, _| UnparkToken(0),
            );
        },
        |key, is_last| told = (key, is_last),
        ParkToken(1),
        Some((past, rt)),
    );
    Some((ended, told.0, told.1))
}

/// A moved thread gives up at its new key.
pub fn gives_up<R: Wait + Clock>(rt: &R, lot: &ParkingLot<R>, other: usize) -> bool {
    let is_late = moved_then_late(rt, lot, other) == Some((ParkResult::TimedOut, other, true));
    is_late & (list(lot, 3) == 0) & (list(lot, other) == 0)
}

#[test]
fn a_hundred_thousand_unparks_are_not_lost(rt: HostRuntime) -> Result<(), Fail> {
    assert!(rt; goes_well(rt, rt.alloc(), 2, Trial::HundredThousand)?);
    Ok(())
}

#[test]
fn none_is_lost_while_buckets_grow(rt: HostRuntime) -> Result<(), Fail> {
    assert!(rt; goes_well(rt, rt.alloc(), 100, Trial::Grows)?);
    Ok(())
}

#[test]
fn lists_of_a_bucket_stay(rt: HostRuntime) -> Result<(), Fail> {
    assert!(rt; goes_well(rt, rt.alloc(), 46, Trial::Neighbours)?);
    assert!(rt; goes_well(rt, rt.alloc(), 4, Trial::Moved)?);
    Ok(())
}

/// Registers the next. Where it is refused the sleeper stands in its list, and it is registered then. The sleeper is
/// woken.
fn register<R: Wait>(heap: &Heap, lot: &ParkingLot<R, &Heap>, threads: usize) -> Option<Seen> {
    let before = heap.asked();
    let said = admitted(lot);
    let behind = heap.asked();
    let is_done = said == Ok(threads);
    let stands = list(lot, 3) == 2;
    let again = is_done || admitted(lot) == Ok(threads);
    let still = list(lot, 3) == 2;
    let woken = unpark_one(lot, 3, |_| UnparkToken(42)).unparked_threads == 1;
    let fits = Said::of(is_done, said == Err(LotFault::NoMemory)).fits(heap);
    Seen::of(before, behind, fits & stands & again & still & woken)
}

/// Waits for the sleeper, and registers the next. Whoever sleeps is woken.
fn register_beside<R: Wait>(
    heap: &Heap,
    lot: &ParkingLot<R, &Heap>,
    threads: usize,
    over: &AtomicUsize,
) -> Option<Seen> {
    for _turn in 0..TURNS {
        if list(lot, 3) == 2 {
            break;
        }
        thread_yield();
    }
    let seen = register(heap, lot, threads);
    over.store(1, Ordering::SeqCst);
    unpark_all(lot, 3, UnparkToken(43));
    seen
}

/// One sleeps, and the next is registered beside it.
fn both_go_on<'h, R: Wait + Threads + Clock + Sync>(
    rt: &R,
    heap: &Heap,
    lot: &ParkingLot<R, &'h Heap>,
    me: &mut ThreadData<&'h Heap>,
    threads: usize,
) -> (Option<ParkResult>, Option<Seen>) {
    let over = AtomicUsize::new(0);
    thread::join(
        rt,
        || parked(lot, me, 3, ParkToken(1), &over),
        || register_beside(heap, lot, threads, &over),
    )
}

/// The same behind so many registrations, the sleeper's among them.
fn run_beside<'h, R: Wait + Threads + Clock + Sync>(
    rt: &R,
    heap: &Heap,
    lot: &ParkingLot<R, &'h Heap>,
    threads: usize,
) -> Option<Seen> {
    let mut me = lot.thread_data().ok()?;
    for _thread in 1..threads {
        admitted(lot).ok()?;
    }
    let (ended, seen) = both_go_on(rt, heap, lot, &mut me, threads);
    if ended == Some(ParkResult::Unparked(UnparkToken(42))) {
        seen
    } else {
        None
    }
}

/// The same in this memory.
fn run_in<R: Wait + Threads + Clock + Sync + Copy + Drop>(
    rt: R,
    heap: &Heap,
    threads: usize,
) -> Option<Seen> {
    match ParkingLot::new(rt, heap, 40, 7) {
        Ok(lot) => run_beside(&rt, heap, &lot, threads),
        Err(_) => None,
    }
}

/// The same with ample memory, and with each growth of it refused in turn. Answers how many there are, where all stood.
fn run_in_turn<R: Wait + Threads + Clock + Sync + Copy + Drop>(
    rt: R,
    alloc: Global,
    threads: usize,
) -> Option<u64> {
    let seen = run_in(rt, &RefusingHeap::new(alloc, Refusal::Never), threads)?;
    let growths = seen.behind.saturating_sub(seen.before);
    for growth in 0..growths {
        let number = seen.before.saturating_add(growth).saturating_add(1);
        let heap = RefusingHeap::new(alloc, Refusal::Once(number));
        if !run_in(rt, &heap, threads)?.stood || heap.refused() != 1 {
            return None;
        }
    }
    if seen.stood { Some(growths) } else { None }
}

#[test]
fn a_refused_growth_leaves_a_sleeper(rt: HostRuntime) {
    for (threads, growths) in &[(1, 1), (5, 2), (10, 2), (16, 3)] {
        let refused = run_in_turn(rt, rt.alloc(), *threads).unwrap_or(0);
        assert!(rt; refused == *growths, "behind {threads}: {refused} growths");
    }
}
