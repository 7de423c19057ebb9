//! Calls of several threads at once.

use crate::fault::Fault;
use crate::work::{Fold, Map, Shared, map_over};
use dashmap_calls::workload::spread;
use lock_api_raw::RawRwLock;
use parking_lot_core::{ParkingLot, ThreadData};
use parking_lot_rwlock::LockTable;
use std::alloc::Global;
use std::sync::Wait;
use std::thread;
use std::thread::Threads;
use std::time::{Clock, Duration, Instant};

/// How many keys of one shard there are.
const OF_ONE_SHARD: usize = 4_096;

/// How many threads make calls.
#[derive(Clone, Copy)]
pub enum Team {
    One,
    Two,
    Four,
}

impl Team {
    /// Each of them.
    pub const ALL: [Team; 3] = [Team::One, Team::Two, Team::Four];

    /// How many threads it has.
    pub fn count(self) -> u32 {
        match self {
            Team::One => 1,
            Team::Two => 2,
            Team::Four => 4,
        }
    }
}

/// Which calls the threads make together, on which keys.
#[derive(Clone, Copy)]
pub struct Mix {
    /// How it is called.
    pub name: &'static str,
    /// Whether only keys of one shard are taken.
    pub is_crowded: bool,
    /// How many of a hundred calls look for a key; the others put one in.
    pub looks: u64,
}

impl Mix {
    /// Each of them.
    pub const ALL: [Mix; 4] = [
        Mix {
            name: "g90",
            is_crowded: false,
            looks: 90,
        },
        Mix {
            name: "g50",
            is_crowded: false,
            looks: 50,
        },
        Mix {
            name: "one_shard_g90",
            is_crowded: true,
            looks: 90,
        },
        Mix {
            name: "one_shard_g50",
            is_crowded: true,
            looks: 50,
        },
    ];
}

/// What came of a run.
#[derive(Drop)]
pub struct Told {
    /// How long the calls took.
    pub took: Duration,
    /// The sum of the values that were seen, which the threads' order decides.
    pub saw: u64,
    /// How many pairs there are in the end.
    pub left: usize,
}

/// The keys of the numbers below so many, or those of them that lie in the shard of the first.
fn keys_of<Q>(
    alloc: Global,
    map: &Map<Fold, Q>,
    is_crowded: bool,
    numbers: u64,
) -> Result<Vec<u64>, Fault> {
    let shard = map.determine_map(&spread(0));
    let mut keys = Vec::new(alloc);
    for number in 0..numbers {
        let key = spread(number);
        if !is_crowded || (keys.len() < OF_ONE_SHARD && map.determine_map(&key) == shard) {
            keys.push(key)?;
        }
    }
    Ok(keys)
}

/// Puts the first half of the keys in, each with the value 1.
fn put_half<Q: RawRwLock>(map: &Map<Fold, Q>, me: &mut Q::Party, keys: &[u64]) -> Result<(), Fault>
where
    Q::Runtime: Wait,
{
    for key in keys.iter().take(keys.len() / 2) {
        if map.insert(*key, 1, me).is_err() {
            return Err(Fault);
        }
    }
    Ok(())
}

/// The number behind one on a way through all numbers but 0.
#[inline(always)]
fn stepped(number: u64) -> u64 {
    let once = number ^ (number << 13);
    let twice = once ^ (once >> 7);
    twice ^ (twice << 17)
}

/// Makes so many calls of one thread, and answers the sum of the values that it saw.
#[inline(never)]
fn calls<Q: RawRwLock>(
    map: &Map<Fold, Q>,
    mut me: Q::Party,
    keys: &[u64],
    looks: u64,
    seed: u64,
    count: u32,
) -> Result<u64, Fault>
where
    Q::Runtime: Wait,
    Q::Party: Drop,
{
    let mut number = spread(seed);
    let mut sum = 0u64;
    for _call in 0..count {
        number = stepped(number);
        let at = (number >> 20) as usize & keys.len().wrapping_sub(1);
        let key = keys.get(at).copied().unwrap_or(0);
        if number % 100 < looks {
            if let Some(value) = map.get(&key, &mut me) {
                sum = sum.wrapping_add(*value);
            }
        } else if map.insert(key, number, &mut me).is_err() {
            return Err(Fault);
        }
    }
    Ok(sum)
}

/// Both sums together.
fn both(sums: (Result<u64, Fault>, Result<u64, Fault>)) -> Result<u64, Fault> {
    let (one, two) = sums;
    Ok(one?.wrapping_add(two?))
}

/// Two threads, each with its seed.
fn two<R: Wait + Threads + Sync>(
    rt: &R,
    map: &Shared<'_, '_, R, Fold>,
    parties: (ThreadData, ThreadData),
    keys: &[u64],
    looks: u64,
    seed: u64,
    count: u32,
) -> Result<u64, Fault> {
    let (one, two) = parties;
    both(thread::join(
        rt,
        || calls(map, one, keys, looks, seed, count),
        || calls(map, two, keys, looks, seed.wrapping_add(1), count),
    ))
}

/// The calls of all the threads of a team.
fn together<R: Wait + Threads + Sync>(
    rt: &R,
    map: &Shared<'_, '_, R, Fold>,
    lot: &ParkingLot<R>,
    team: Team,
    keys: &[u64],
    looks: u64,
    count: u32,
) -> Result<u64, Fault> {
    let one = lot.thread_data()?;
    match team {
        Team::One => calls(map, one, keys, looks, 1, count),
        Team::Two => two(rt, map, (one, lot.thread_data()?), keys, looks, 1, count),
        Team::Four => {
            let left = (one, lot.thread_data()?);
            let right = (lot.thread_data()?, lot.thread_data()?);
            both(thread::join(
                rt,
                || two(rt, map, left, keys, looks, 1, count),
                || two(rt, map, right, keys, looks, 3, count),
            ))
        }
    }
}

/// Fills a new map with half of the keys of so many numbers, and has a team make so many calls in all.
pub fn run<R: Wait + Threads + Clock + Sync + Copy + Drop>(
    rt: R,
    alloc: Global,
    team: Team,
    mix: Mix,
    numbers: u64,
    count: u32,
) -> Result<Told, Fault> {
    let lot = ParkingLot::new(rt, alloc, 5, 7)?;
    let table = LockTable::new(alloc, &lot, 16)?;
    let map: Shared<'_, '_, R, Fold> = map_over(alloc, &table)?;
    let mut me = lot.thread_data()?;
    let keys = keys_of(alloc, &map, mix.is_crowded, numbers)?;
    put_half(&map, &mut me, keys.as_slice())?;
    let each = count / team.count().max(1);
    let start = Instant::now(&rt)?;
    let saw = together(&rt, &map, &lot, team, keys.as_slice(), mix.looks, each)?;
    Ok(Told {
        took: start.elapsed(&rt)?,
        saw,
        left: map.len(&mut me),
    })
}
