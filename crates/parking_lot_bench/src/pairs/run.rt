//! So many pairs of a kind, on a lock of their own.

use crate::fault::Fault;
use crate::pairs::pair::Pair;
use crate::pairs::{at_once, guards, in_time, raw, upgrades};
use lock_api::{Mutex, ReentrantMutex, RwLock};
use lock_api_raw::{MakeCondvar as _, MakeLock as _};
use parking_lot_core::{ParkingLot, ThreadData};
use parking_lot_mutex::condvar::RawCondvar;
use parking_lot_mutex::once::Once;
use parking_lot_mutex::{RawFairMutex, RawMutex};
use parking_lot_rwlock::{LockTable, RawRwLock};
use std::alloc::Global;
use std::sync::Wait;
use std::time::{Clock, Instant};

/// Makes so many pairs of each kind, and answers the sum of what is left.
pub fn all_pairs<R: Wait + Clock + Copy + Drop>(
    rt: R,
    alloc: Global,
    pairs: u32,
) -> Result<u64, Fault> {
    let mut sum = 0u64;
    for pair in Pair::ALL {
        sum = sum.wrapping_add(pairs_of(rt, alloc, pair, pairs)?);
    }
    Ok(sum)
}

/// Makes so many pairs of each kind, and answers a line for each: its name and how many nanoseconds a pair took.
pub fn told_times<R: Wait + Clock + Copy + Drop>(
    rt: R,
    alloc: Global,
    pairs: u32,
) -> Result<String, Fault> {
    let mut lines = String::new(alloc);
    for pair in Pair::ALL {
        let start = Instant::now(&rt)?;
        pairs_of(rt, alloc, pair, pairs)?;
        let nanos = start.elapsed(&rt)?.as_secs_f64() * 1e9 / f64::from(pairs);
        let line = format!(in alloc; "lock.{} {nanos}\n", pair.name())?;
        lines.push_str(line.as_str())?;
    }
    Ok(lines)
}

/// Makes so many pairs, and answers the word that is left; of a lock of std the value.
pub fn pairs_of<R: Wait + Clock + Copy + Drop>(
    rt: R,
    alloc: Global,
    pair: Pair,
    pairs: u32,
) -> Result<u64, Fault> {
    match pair {
        Pair::StdMutex => return Ok(guards::by_std_mutex(&rt, pairs)),
        Pair::StdRead => return Ok(guards::by_std_reading(&rt, pairs)),
        Pair::StdWrite => return Ok(guards::by_std_writing(&rt, pairs)),
        _ => {}
    }
    let lot = ParkingLot::new(rt, alloc, 1, 7)?;
    let table = LockTable::new(alloc, &lot, 1)?;
    let mut me = lot.thread_data()?;
    on_a_row(&rt, &table, &mut me, pair, pairs)?;
    Ok(table.word(0).unwrap_or(1))
}

/// Makes them on a row of the table.
fn on_a_row<R: Wait + Clock + Copy + Drop>(
    rt: &R,
    table: &LockTable<'_, R>,
    me: &mut ThreadData,
    pair: Pair,
    pairs: u32,
) -> Result<(), Fault> {
    match pair {
        Pair::Mutex | Pair::MutexTry | Pair::MutexFairly | Pair::MutexInTime | Pair::MutexBump => {
            of_a_mutex(rt, &RawMutex::new(table, 1)?, me, pair, pairs)
        }
        Pair::FairMutex => {
            raw::by_fair_mutex(&RawFairMutex::new(table, 1)?, me, pairs);
            Ok(())
        }
        Pair::ReadRecursive => {
            raw::by_reading::<R, 1>(&RawRwLock::new(table, 100)?, me, pairs);
            Ok(())
        }
        Pair::Guard | Pair::FairGuard => of_mutex_guards(table, me, pair, pairs),
        Pair::Reader | Pair::Writer | Pair::UpgradableGuard | Pair::UpgradedGuard => {
            of_guards(&RwLock::new(table, 100, 0)?, me, pair, pairs);
            Ok(())
        }
        Pair::Reentrant | Pair::Nested => {
            of_nested_holds(table, me, matches!(pair, Pair::Nested), pairs)
        }
        Pair::NotifyOne | Pair::NotifyAll | Pair::OnceDone => over_at_once(table, me, pair, pairs),
        _ => of_a_lock(rt, &RawRwLock::new(table, 100)?, me, pair, pairs),
    }
}

/// Pairs of the raw mutex.
fn of_a_mutex<R: Wait + Clock>(
    rt: &R,
    mutex: &RawMutex<'_, '_, R>,
    me: &mut ThreadData,
    pair: Pair,
    pairs: u32,
) -> Result<(), Fault> {
    match pair {
        Pair::Mutex => raw::by_mutex(mutex, me, pairs),
        Pair::MutexTry => raw::by_trying(mutex, pairs),
        Pair::MutexFairly => raw::by_fair_release(mutex, me, pairs),
        Pair::MutexBump => raw::by_bumping(mutex, me, pairs),
        _ => in_time::mutex_in_time(rt, mutex, Instant::now(rt)?, me, pairs),
    }
    Ok(())
}

/// Pairs of the raw reader-writer lock.
fn of_a_lock<R: Wait + Clock>(
    rt: &R,
    lock: &RawRwLock<'_, '_, R, 0>,
    me: &mut ThreadData,
    pair: Pair,
    pairs: u32,
) -> Result<(), Fault> {
    let moment = Instant::now(rt)?;
    match pair {
        Pair::Read => raw::by_reading(lock, me, pairs),
        Pair::ReadTry => raw::by_trying_to_read(lock, pairs),
        Pair::ReadInTime => in_time::reads_in_time(rt, lock, moment, me, pairs),
        Pair::Write => raw::by_writing(lock, me, pairs),
        Pair::WriteInTime => in_time::writes_in_time(rt, lock, moment, me, pairs),
        Pair::Downgrade => raw::by_downgrading(lock, me, pairs),
        Pair::Upgradable => upgrades::by_upgradable(lock, me, pairs),
        Pair::UpgradableInTime => in_time::upgradable_in_time(rt, lock, moment, me, pairs),
        Pair::Upgrade => upgrades::by_upgrading(lock, me, pairs),
        Pair::UpgradeTry => upgrades::by_trying_to_upgrade(lock, me, pairs),
        Pair::UpgradeInTime => in_time::upgrades_in_time(rt, lock, moment, me, pairs),
        Pair::ToShared => upgrades::by_becoming_shared(lock, me, pairs),
        _ => upgrades::by_becoming_upgradable(lock, me, pairs),
    }
    Ok(())
}

/// Pairs of guards of a mutex.
fn of_mutex_guards<R: Wait + Drop>(
    table: &LockTable<'_, R>,
    me: &mut ThreadData,
    pair: Pair,
    pairs: u32,
) -> Result<(), Fault> {
    match pair {
        Pair::Guard => guards::by_guard::<RawMutex<R>>(&Mutex::new(table, 0)?, me, pairs),
        _ => guards::by_guard::<RawFairMutex<R>>(&Mutex::new(table, 0)?, me, pairs),
    }
    Ok(())
}

/// Pairs of guards of a reader-writer lock.
fn of_guards<R: Wait>(
    lock: &RwLock<RawRwLock<'_, '_, R, 0>, u64>,
    me: &mut ThreadData,
    pair: Pair,
    pairs: u32,
) {
    match pair {
        Pair::Reader => guards::by_reader(lock, me, pairs),
        Pair::Writer => guards::by_writer(lock, me, pairs),
        Pair::UpgradableGuard => guards::by_upgradable_guard(lock, me, pairs),
        _ => guards::by_upgraded_guard(lock, me, pairs),
    }
}

/// Pairs of a reentrant mutex, which is held beside them where they are to be nested.
fn of_nested_holds<R: Wait + Drop>(
    table: &LockTable<'_, R>,
    me: &mut ThreadData,
    nested: bool,
    pairs: u32,
) -> Result<(), Fault> {
    let mutex: guards::Reentrant<R> = ReentrantMutex::new(table, 100, 0)?;
    if !nested {
        return guards::by_reentrant(&mutex, me, pairs);
    }
    let outer = mutex.lock(me)?;
    let made = guards::by_reentrant(&mutex, me, pairs);
    drop(outer);
    made
}

/// Calls that are over at once.
fn over_at_once<R: Wait + Drop>(
    table: &LockTable<'_, R>,
    me: &mut ThreadData,
    pair: Pair,
    calls: u32,
) -> Result<(), Fault> {
    match pair {
        Pair::NotifyOne => at_once::by_notifying_one(&RawCondvar::new(table)?, calls),
        Pair::NotifyAll => at_once::by_notifying_all(&RawCondvar::new(table)?, calls),
        _ => return at_once::by_once(&Once::new_completed(table)?, me, calls),
    }
    Ok(())
}
