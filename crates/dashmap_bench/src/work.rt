//! The calls of one thread that are measured.

use crate::fault::Fault;
use crate::keys::Way;
use dashmap_calls::workload::spread;
use dashmap_map::DashMap;
use dashmap_table::MapFault;
use lock_api_raw::{MakeLock, RawRwLock};
use parking_lot_rwlock::RawRwLock as RawRwLockOfRows;
use std::alloc::Global;
use std::hash::{BuildHasher, BuildHasherDefault, DefaultHasher, FoldHasher};
use std::sync::Wait;

/// A hasher that takes one multiplication.
pub type Fold = BuildHasherDefault<FoldHasher>;

/// The default hasher, whose key is the same in each run.
pub type Sip = BuildHasherDefault<DefaultHasher>;

/// A hasher that maps are measured with. Two of them make two types of map in one program, as programs of users have.
pub trait Measured: BuildHasher + Drop {
    /// How it is called at the end of a line.
    fn name() -> &'static str;

    /// One of it.
    fn made() -> Self;
}

impl Measured for Fold {
    fn name() -> &'static str {
        "dash_fold"
    }

    fn made() -> Fold {
        BuildHasherDefault::new()
    }
}

impl Measured for Sip {
    fn name() -> &'static str {
        "dash_sip"
    }

    fn made() -> Sip {
        BuildHasherDefault::new()
    }
}

/// A map of numbers.
pub type Map<S, Q> = DashMap<u64, u64, S, Q, Global>;

/// The same over rows of a table.
pub type Shared<'t, 'l, R, S> = Map<S, RawRwLockOfRows<'t, 'l, R, 0>>;

/// A map of 16 shards, which is the default for 4 processors.
pub fn map_over<T: Copy, S: Measured, Q: RawRwLock + MakeLock<T> + Drop>(
    alloc: Global,
    table: T,
) -> Result<Map<S, Q>, MapFault> {
    DashMap::with_hasher(alloc, S::made(), 4, table)
}

/// Puts so many pairs in, each with its turn as the value.
#[inline(never)]
pub fn put_all<W: Way, S: BuildHasher, Q: RawRwLock>(
    map: &Map<S, Q>,
    me: &mut Q::Party,
    count: u64,
) -> Result<u64, Fault>
where
    Q::Runtime: Wait,
{
    for turn in 0..count {
        if map.insert(spread(W::number(turn)), turn, me).is_err() {
            return Err(Fault);
        }
    }
    Ok(count)
}

/// The sum of the values of so many keys; an absent key counts 0.
#[inline(never)]
pub fn look_up_all<W: Way, S: BuildHasher, Q: RawRwLock>(
    map: &Map<S, Q>,
    me: &mut Q::Party,
    count: u64,
) -> u64
where
    Q::Runtime: Wait,
{
    let mut sum = 0u64;
    for turn in 0..count {
        if let Some(value) = map.get(&spread(W::number(turn)), me) {
            sum = sum.wrapping_add(*value);
        }
    }
    sum
}

/// How many of so many keys are there, without a look at their values.
#[inline(never)]
pub fn ask_all<W: Way, S: BuildHasher, Q: RawRwLock>(
    map: &Map<S, Q>,
    me: &mut Q::Party,
    count: u64,
) -> u64
where
    Q::Runtime: Wait,
{
    let mut found = 0u64;
    for turn in 0..count {
        if map.contains_key(&spread(W::number(turn)), me) {
            found = found.wrapping_add(1);
        }
    }
    found
}

/// The sum of the values that so many keys have once an absent one has 1.
#[inline(never)]
pub fn enter_all<W: Way, S: BuildHasher, Q: RawRwLock>(
    map: &Map<S, Q>,
    me: &mut Q::Party,
    count: u64,
) -> Result<u64, Fault>
where
    Q::Runtime: Wait,
{
    let mut sum = 0u64;
    for turn in 0..count {
        match map.entry(spread(W::number(turn)), me) {
            Ok(entry) => sum = sum.wrapping_add(*entry.or_insert(1)),
            Err(_) => return Err(Fault),
        }
    }
    Ok(sum)
}

/// How many of so many keys were there to be taken out.
#[inline(never)]
pub fn take_all<W: Way, S: BuildHasher, Q: RawRwLock>(
    map: &Map<S, Q>,
    me: &mut Q::Party,
    count: u64,
) -> u64
where
    Q::Runtime: Wait,
{
    let mut taken = 0u64;
    for turn in 0..count {
        if map.remove(&spread(W::number(turn)), me).is_some() {
            taken = taken.wrapping_add(1);
        }
    }
    taken
}

/// Puts each of so many pairs in and takes it out before the next, and answers how many were there to be taken out.
#[inline(never)]
pub fn churn<W: Way, S: BuildHasher, Q: RawRwLock>(
    map: &Map<S, Q>,
    me: &mut Q::Party,
    count: u64,
) -> Result<u64, Fault>
where
    Q::Runtime: Wait,
{
    let mut taken = 0u64;
    for turn in 0..count {
        let key = spread(W::number(turn));
        if map.insert(key, turn, me).is_err() {
            return Err(Fault);
        }
        if map.remove(&key, me).is_some() {
            taken = taken.wrapping_add(1);
        }
    }
    Ok(taken)
}
