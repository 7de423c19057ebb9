//! Threads that sleep and are woken. Each waits for a flag or a thread for a bounded number of turns.
use crate::trials::{Trial, goes_well};
use parking_lot_core::{
    DEFAULT_PARK_TOKEN, FilterOp, ParkResult, ParkToken, ParkingLot, RequeueOp, ThreadData,
    ThreadParker, ThreadParkerT, UnparkHandleT, UnparkResult, UnparkToken, WordLock, park,
    thread_yield, unpark_all, unpark_filter, unpark_one, unpark_requeue,
};
use std::alloc::{AllocError, Allocator, Global};
use std::sync::Wait;
use std::sync::atomic::{AtomicUsize, Ordering};
use std::test::Fail;
use std::thread;
use std::thread::Threads;
use std::time::{Clock, Instant};

pub const TURNS: u32 = 10_000_000;

/// Waits until the flag has come so far, and answers whether it has.
pub fn has_come(flag: &AtomicUsize, value: usize) -> bool {
    for _turn in 0..TURNS {
        if flag.load(Ordering::SeqCst) == value {
            return true;
        }
        thread_yield();
    }
    false
}

/// Unparks a waiter of the key, as soon as there is one.
pub fn unparked<R: Wait>(lot: &ParkingLot<R>, key: usize, token: usize) -> bool {
    for _turn in 0..TURNS {
        if unpark_one(lot, key, |_| UnparkToken(token)).unparked_threads == 1 {
            return true;
        }
        thread_yield();
    }
    false
}

/// Parks under the key with a token, as long as it isn't over.
pub fn parked<R: Wait + Clock, A: Allocator>(
    lot: &ParkingLot<R, A>,
    me: &mut ThreadData<A>,
    key: usize,
    token: ParkToken,
    over: &AtomicUsize,
) -> Option<ParkResult> {
    let going = 0usize;
    if !lot.same_lot(me) {
        return None;
    }
    Some(park(
        lot,
        me,
        key,
        || over.load(Ordering::SeqCst) == going,
        || {},
        |_, _| {},
        token,
        None::<(Instant, &R)>,
    ))
}

/// Parks under key 3 until a moment that is past, once another has been told of it and has had its turn.
fn parked_late<R: Wait + Clock>(
    lot: &ParkingLot<R>,
    rt: &R,
    step: &AtomicUsize,
    late: &AtomicUsize,
) -> Option<ParkResult> {
    let mut me = lot.thread_data().ok()?;
    let moment = Instant::now(rt).ok()?;
    Some(park(
        lot,
        &mut me,
        3,
        || true,
        || {
            step.store(1, Ordering::SeqCst);
            has_come(step, 2);
        },
        |_, _| late.store(1, Ordering::SeqCst),
        DEFAULT_PARK_TOKEN,
        Some((moment, rt)),
    ))
}

/// Unparks a waiter of key 3 in its turn.
fn unparked_then<R: Wait>(lot: &ParkingLot<R>, step: &AtomicUsize) -> bool {
    let woke = has_come(step, 1) && unparked(lot, 3, 9);
    step.store(2, Ordering::SeqCst);
    woke
}

/// Whether a deadline behind a taking is no time out: another takes the thread, which isn't told to be late.
pub fn is_in_time<R: Wait + Threads + Clock + Sync>(rt: &R, lot: &ParkingLot<R>) -> bool {
    let step = AtomicUsize::new(0);
    let late = AtomicUsize::new(0);
    let (ended, woke) = thread::join(
        rt,
        || parked_late(lot, rt, &step, &late),
        || unparked_then(lot, &step),
    );
    let is_unparked = ended == Some(ParkResult::Unparked(UnparkToken(9)));
    is_unparked & woke & (late.load(Ordering::SeqCst) == 0)
}

/// Parks under the key as the sleeper of that number, behind those with lesser numbers, and answers its token.
fn sleeps<R: Wait + Clock>(
    lot: &ParkingLot<R>,
    joined: &AtomicUsize,
    number: usize,
    key: usize,
) -> Option<UnparkToken> {
    let mut me = lot.thread_data().ok()?;
    if !has_come(joined, number) || number >= 8 {
        return None;
    }
    let ended = park(
        lot,
        &mut me,
        key,
        || true,
        || joined.store(number + 1, Ordering::SeqCst),
        |_, _| {},
        ParkToken(number),
        None::<(Instant, &R)>,
    );
    match ended {
        ParkResult::Unparked(token) => Some(token),
        _ => None,
    }
}

/// Whether the sleepers were told these tokens.
pub fn are_told(tokens: Result<Vec<Option<UnparkToken>>, AllocError>, told: &[usize]) -> bool {
    let Ok(tokens) = tokens else {
        return false;
    };
    let mut are_right = tokens.len() == told.len();
    for (token, wanted) in tokens.iter().zip(told.iter()) {
        are_right = are_right & (*token == Some(UnparkToken(*wanted)));
    }
    are_right
}

/// One sleeps under each of the keys. Answers what each was told.
pub fn sleep_each<R: Wait + Threads + Clock + Sync>(
    rt: &R,
    alloc: Global,
    lot: &ParkingLot<R>,
    joined: &AtomicUsize,
    keys: &[usize],
) -> Result<Vec<Option<UnparkToken>>, AllocError> {
    let sleeper = |number| match keys.get(number) {
        Some(key) => sleeps(lot, joined, number, *key),
        None => None,
    };
    thread::map_indices(rt, alloc, keys.len(), &sleeper)
}

/// As soon as all sleep, wakes the second by a filter, and then all others by another.
fn filters<R: Wait>(
    lot: &ParkingLot<R>,
    joined: &AtomicUsize,
) -> Option<(UnparkResult, UnparkResult)> {
    if !has_come(joined, 3) {
        return None;
    }
    let second = |token: ParkToken| match token {
        ParkToken(0) => FilterOp::Skip,
        ParkToken(1) => FilterOp::Unpark,
        _ => FilterOp::Stop,
    };
    let one = unpark_filter(lot, 3, second, |_| UnparkToken(7));
    let rest = unpark_filter(lot, 3, |_| FilterOp::Unpark, |_| UnparkToken(8));
    Some((one, rest))
}

/// Whether the filters wake whom they want.
pub fn are_filtered<R: Wait + Threads + Clock + Sync>(
    rt: &R,
    alloc: Global,
    lot: &ParkingLot<R>,
) -> bool {
    let joined = AtomicUsize::new(0);
    let (tokens, woke) = thread::join(
        rt,
        || sleep_each(rt, alloc, lot, &joined, &[3, 3, 3]),
        || filters(lot, &joined),
    );
    let Some((one, rest)) = woke else {
        return false;
    };
    let is_one = (one.unparked_threads == 1) & one.have_more_threads;
    let are_two = (rest.unparked_threads == 2) & !rest.have_more_threads;
    is_one & are_two & are_told(tokens, &[8, 7, 8])
}

/// As soon as all sleep, wakes the first and has the others sleep under key 4, where they are woken. Answers the first
/// step, and how many were left under key 3 and under key 4.
fn requeues<R: Wait>(
    lot: &ParkingLot<R>,
    joined: &AtomicUsize,
) -> Option<(UnparkResult, usize, usize)> {
    if !has_come(joined, 3) {
        return None;
    }
    let op = || RequeueOp::UnparkOneRequeueRest;
    let moved = unpark_requeue(lot, 3, 4, op, |_, _| UnparkToken(7));
    let left = unpark_all(lot, 3, UnparkToken(6));
    Some((moved, left, unpark_all(lot, 4, UnparkToken(8))))
}

/// Whether those that were requeued wake under the other key.
pub fn are_requeued<R: Wait + Threads + Clock + Sync>(
    rt: &R,
    alloc: Global,
    lot: &ParkingLot<R>,
) -> bool {
    let joined = AtomicUsize::new(0);
    let (tokens, woke) = thread::join(
        rt,
        || sleep_each(rt, alloc, lot, &joined, &[3, 3, 3]),
        || requeues(lot, &joined),
    );
    let Some((moved, left, rest)) = woke else {
        return false;
    };
    let are_moved = (moved.unparked_threads == 1) & (moved.requeued_threads == 2);
    are_moved & (left == 0) & (rest == 2) & are_told(tokens, &[7, 8, 8])
}

/// Unparks nobody or filters nobody, and answers whether that is to be fair.
fn is_fair<R: Wait>(lot: &ParkingLot<R>, filters: bool) -> bool {
    if filters {
        unpark_filter(lot, 3, |_| FilterOp::Stop, |_| UnparkToken(0)).be_fair
    } else {
        unpark_one(lot, 3, |_| UnparkToken(0)).be_fair
    }
}

/// Whether a requeue of nobody is to be fair, or somebody waits.
fn is_other<R: Wait>(lot: &ParkingLot<R>) -> bool {
    let other = unpark_requeue(lot, 3, 4, || RequeueOp::UnparkOne, |_, _| UnparkToken(0));
    other.be_fair | (unpark_all(lot, 3, UnparkToken(0)) != 0)
}

/// Whether each 64th unpark or filter is fair up to that turn, where each third is a filter or none; and no other call.
pub fn are_fair<R: Wait>(lot: &ParkingLot<R>, turns: u32, filters: bool) -> bool {
    for turn in 1..turns {
        let is_fair = is_fair(lot, filters & (turn % 3 == 0));
        if is_fair != (turn % 64 == 0) || (filters && is_other(lot)) {
            return false;
        }
    }
    true
}

/// Whether a thread that sleeps on the seat is told to be late. Another unparks it.
fn is_parked_late<R: Wait + Threads + Sync>(rt: &R, seat: &ThreadParker) -> bool {
    let sleeper = || {
        seat.park(rt);
        seat.timed_out(rt)
    };
    let (late, ()) = thread::join(rt, sleeper, || seat.unpark_lock(rt).unpark());
    late
}

/// Whether a park on the seat until that moment is not in time, and tells so.
fn is_late<R: Wait + Clock>(rt: &R, seat: &ThreadParker, past: Instant) -> bool {
    seat.prepare_park(rt);
    let is_in_time = seat.park_until(rt, past, rt);
    !is_in_time & seat.timed_out(rt)
}

#[test]
fn a_seat_is_unparked_by_its_handle(rt: HostRuntime) -> Result<(), Fail> {
    let seat = ThreadParker::new();
    let past = Instant::now(&rt)?;
    let is_late = is_late(&rt, &seat, past);
    let is_parked_late = is_parked_late(&rt, &seat);
    assert!(rt; is_late & !is_parked_late & seat.park_until(&rt, past, &rt));
    Ok(())
}

/// Counts up by steps that another thread's could come between, but for the lock.
fn counts<R: Wait>(rt: &R, lock: &WordLock, count: &AtomicUsize) {
    for _round in 0..10_000u32 {
        let pass = lock.lock(rt);
        let seen = count.load(Ordering::SeqCst);
        count.store(seen.wrapping_add(1), Ordering::SeqCst);
        lock.unlock(pass);
    }
}

/// How far two threads count.
fn counted_by_two<R: Wait + Threads + Sync>(rt: &R) -> usize {
    let lock = WordLock::new();
    let count = AtomicUsize::new(0);
    thread::join(
        rt,
        || counts(rt, &lock, &count),
        || counts(rt, &lock, &count),
    );
    count.load(Ordering::SeqCst)
}

#[test]
fn a_word_lock_excludes(rt: HostRuntime) {
    assert!(rt; counted_by_two(&rt) == 20_000);
}

/// Awaits its turn so many times, parked under its own key, and gives it to the other side.
fn take_turns<R: Wait + Clock>(
    lot: &ParkingLot<R>,
    turn: &AtomicUsize,
    mine: usize,
    rounds: u32,
) -> bool {
    let Ok(mut me) = lot.thread_data() else {
        return false;
    };
    let other = if mine == 0 { 1 } else { 0 };
    for _round in 0..rounds {
        if !await_turn(lot, &mut me, turn, mine) {
            return false;
        }
        turn.store(other, Ordering::SeqCst);
        unpark_one(lot, other, |_| UnparkToken(0));
    }
    true
}

/// Parks until it is the side's turn, and answers whether it came.
fn await_turn<R: Wait + Clock>(
    lot: &ParkingLot<R>,
    me: &mut ThreadData,
    turn: &AtomicUsize,
    mine: usize,
) -> bool {
    for _look in 0..TURNS {
        if turn.load(Ordering::SeqCst) == mine {
            return true;
        }
        if lot.same_lot(me) {
            park(
                lot,
                me,
                mine,
                || turn.load(Ordering::SeqCst) != mine,
                || {},
                |_, _| {},
                DEFAULT_PARK_TOKEN,
                None::<(Instant, &R)>,
            );
        }
    }
    false
}

/// Whether two threads hand a turn to one another so often.
pub fn hand_turns<R: Wait + Threads + Clock + Sync>(
    rt: &R,
    lot: &ParkingLot<R>,
    rounds: u32,
) -> bool {
    let turn = AtomicUsize::new(0);
    let (left, right) = thread::join(
        rt,
        || take_turns(lot, &turn, 0, rounds),
        || take_turns(lot, &turn, 1, rounds),
    );
    left & right & (turn.load(Ordering::SeqCst) == 0)
}

const TRIALS: &[(&'static str, usize, Trial)] = &[
    ("a deadline behind a taking", 2, Trial::InTime),
    ("a filter takes whom it wants", 3, Trial::Filters),
    ("those that are requeued", 3, Trial::Requeues),
    ("each 64th unpark or filter", 2, Trial::FairFilters),
    ("a turn to and fro", 2, Trial::Turns),
];

#[test]
fn sleepers_are_woken(rt: HostRuntime) -> Result<(), Fail> {
    for (name, threads, trial) in TRIALS {
        assert!(rt; goes_well(rt, rt.alloc(), *threads, *trial)?, "{name}");
    }
    Ok(())
}
