//! Turns that two threads hand to one another by the lot, and unparks of nobody.

use crate::fault::Fault;
use crate::times::nanos_each;
use parking_lot_core::{
    DEFAULT_PARK_TOKEN, DEFAULT_UNPARK_TOKEN, ParkingLot, ThreadData, park, unpark_one,
};
use std::alloc::Global;
use std::sync::atomic::{AtomicUsize, Ordering};
use std::sync::{Condvar, Mutex, Wait};
use std::thread;
use std::thread::Threads;
use std::time::{Clock, Instant};

/// The two sides, and the keys under which they park.
const LEFT: usize = 0;

const RIGHT: usize = 1;

/// How many pairs hand turns to and fro at one time.
const PAIRS: usize = 4;

/// Hands the turn to and fro both ways, so many times each, and answers whose turn it is at the end.
pub fn both_ways<R: Wait + Threads + Clock + Sync + Copy + Drop>(
    rt: R,
    alloc: Global,
    rounds: u32,
) -> Result<(usize, usize), Fault> {
    Ok((by_parking(rt, alloc, rounds)?, by_condvars(&rt, rounds)))
}

/// How many nanoseconds one turn takes of each way.
pub fn turns_of<R: Wait + Threads + Clock + Sync + Copy + Drop>(
    rt: R,
    alloc: Global,
    rounds: u32,
) -> Result<(u128, u128), Fault> {
    let start = Instant::now(&rt)?;
    by_parking(rt, alloc, rounds)?;
    let parking = start.elapsed(&rt)?;
    let start = Instant::now(&rt)?;
    by_condvars(&rt, rounds);
    let condvars = start.elapsed(&rt)?;
    Ok((nanos_each(parking, rounds), nanos_each(condvars, rounds)))
}

/// Hands the turn to and fro by parking.
fn by_parking<R: Wait + Threads + Clock + Sync + Copy + Drop>(
    rt: R,
    alloc: Global,
    rounds: u32,
) -> Result<usize, Fault> {
    let lot = ParkingLot::new(rt, alloc, 2, 7)?;
    one_pair(&rt, &lot, LEFT, rounds)
}

/// How many nanoseconds one turn takes of one pair of threads, and of each of four pairs at one time.
pub fn pairs_of<R: Wait + Threads + Clock + Sync + Copy + Drop>(
    rt: R,
    alloc: Global,
    rounds: u32,
) -> Result<(u128, u128), Fault> {
    let start = Instant::now(&rt)?;
    by_parking(rt, alloc, rounds)?;
    let one = start.elapsed(&rt)?;
    let start = Instant::now(&rt)?;
    by_pairs(rt, alloc, rounds)?;
    let four = start.elapsed(&rt)?;
    Ok((nanos_each(one, rounds), nanos_each(four, rounds)))
}

/// Has four pairs of threads hand their turns to and fro under keys of different buckets, and answers how many of them
/// end where they have to.
pub fn by_pairs<R: Wait + Threads + Clock + Sync + Copy + Drop>(
    rt: R,
    alloc: Global,
    rounds: u32,
) -> Result<usize, Fault> {
    let lot = ParkingLot::new(rt, alloc, 2 * PAIRS, 7)?;
    let ended = thread::map_indices(
        &rt,
        alloc,
        PAIRS,
        &|pair| one_pair(&rt, &lot, pair.wrapping_mul(2), rounds).ok(),
    )?;
    let mut right = 0usize;
    for (pair, turn) in ended.iter().enumerate() {
        right = right.wrapping_add(usize::from(*turn == Some(pair.wrapping_mul(2))));
    }
    Ok(right)
}

/// Hands a turn to and fro between two threads, which park under that key and the next, and answers whose it is.
fn one_pair<R: Wait + Threads + Clock + Sync>(
    rt: &R,
    lot: &ParkingLot<R>,
    key: usize,
    rounds: u32,
) -> Result<usize, Fault> {
    let next = key.wrapping_add(1);
    let mut left = lot.thread_data()?;
    let mut right = lot.thread_data()?;
    let turn = AtomicUsize::new(key);
    thread::join(
        rt,
        || park_in_turns(lot, &mut left, &turn, key, next, rounds),
        || park_in_turns(lot, &mut right, &turn, next, key, rounds),
    );
    Ok(turn.load(Ordering::SeqCst))
}

/// Awaits its turn so many times, and gives it to the other side.
fn park_in_turns<R: Wait + Clock>(
    lot: &ParkingLot<R>,
    me: &mut ThreadData,
    turn: &AtomicUsize,
    mine: usize,
    other: usize,
    rounds: u32,
) {
    for _round in 0..rounds {
        await_turn(lot, me, turn, mine);
        turn.store(other, Ordering::SeqCst);
        unpark_one(lot, other, |_| DEFAULT_UNPARK_TOKEN);
    }
}

/// Parks until it is the side's turn.
fn await_turn<R: Wait + Clock>(
    lot: &ParkingLot<R>,
    me: &mut ThreadData,
    turn: &AtomicUsize,
    mine: usize,
) {
    for _look in lot.runtime().forever() {
        if turn.load(Ordering::SeqCst) == mine {
            return;
        }
        if lot.same_lot(me) {
            park(
                lot,
                me,
                mine,
                || turn.load(Ordering::SeqCst) != mine,
                || {},
                |_, _| {},
                DEFAULT_PARK_TOKEN,
                None::<(Instant, &R)>,
            );
        }
    }
}

/// Hands the turn to and fro by condition variables.
fn by_condvars<R: Wait + Threads + Sync>(rt: &R, rounds: u32) -> usize {
    let turn = Mutex::new(LEFT);
    let left = Condvar::new();
    let right = Condvar::new();
    thread::join(
        rt,
        || wait_in_turns(rt, &turn, &left, &right, LEFT, RIGHT, rounds),
        || wait_in_turns(rt, &turn, &right, &left, RIGHT, LEFT, rounds),
    );
    turn.into_inner()
}

/// Awaits its turn so many times, and gives it to the other side.
fn wait_in_turns<R: Wait>(
    rt: &R,
    turn: &Mutex<usize>,
    seat: &Condvar,
    others: &Condvar,
    mine: usize,
    other: usize,
    rounds: u32,
) {
    for _round in 0..rounds {
        let mut now = seat.wait_while(rt, turn.lock(rt), |now| *now != mine);
        *now = other;
        drop(now);
        others.notify_one();
    }
}

/// Unparks the first waiter of a key that has none so many times, and answers how often it was to be fair.
pub fn fair_turns<R: Wait + Drop>(rt: R, alloc: Global, rounds: u32) -> Result<u32, Fault> {
    let lot = ParkingLot::new(rt, alloc, 2, 7)?;
    let mut fair = 0u32;
    for _round in 0..rounds {
        if unpark_one(&lot, 5, |_| DEFAULT_UNPARK_TOKEN).be_fair {
            fair = fair.wrapping_add(1);
        }
    }
    Ok(fair)
}
