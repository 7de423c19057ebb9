//! The walks of one thread that are measured.

use crate::fault::Fault;
use crate::work::Map;
use dashmap_iter::LendingWalks;
use dashmap_iter::walks::Walks;
use lock_api_raw::RawRwLock;
use std::hash::BuildHasher;
use std::sync::Wait;

/// The sum of key and value, bit by bit, of so many pairs at most, which a walk lends.
#[inline(never)]
pub fn read_all<S: BuildHasher, Q: RawRwLock>(
    map: &Map<S, Q>,
    me: &mut Q::Party,
    count: u64,
) -> Result<u64, Fault>
where
    Q::Runtime: Wait,
{
    let mut walk = {
        let me = &mut *me;
        map.iter(me)
    };
    let mut sum = 0u64;
    for _ in 0..count {
        match walk.next() {
            Some(Ok(pair)) => sum = sum.wrapping_add(*pair.key() ^ *pair.value()),
            Some(Err(_)) => return Err(Fault),
            None => return Ok(sum),
        }
    }
    Ok(sum)
}

/// Counts each value up, which a walk lends to be written, and answers how many there were, of so many at most.
#[inline(never)]
pub fn write_all<S: BuildHasher, Q: RawRwLock>(
    map: &Map<S, Q>,
    me: &mut Q::Party,
    count: u64,
) -> u64
where
    Q::Runtime: Wait,
{
    let mut walk = map.iter_mut(me);
    for turn in 0..count {
        let Some(mut pair) = walk.next_mut() else {
            return turn;
        };
        *pair = pair.wrapping_add(1);
    }
    count
}

/// Counts each value up and keeps all pairs; answers how many there are.
#[inline(never)]
pub fn keep_all<S: BuildHasher, Q: RawRwLock>(map: &Map<S, Q>, me: &mut Q::Party) -> u64
where
    Q::Runtime: Wait,
{
    map.retain(
        |_, value| {
            *value = value.wrapping_add(1);
            true
        },
        me,
    );
    map.len(me) as u64
}

/// Asks so many times how many pairs there are, and answers the sum.
#[inline(never)]
pub fn count_all<S: BuildHasher, Q: RawRwLock>(
    map: &Map<S, Q>,
    me: &mut Q::Party,
    times: u64,
) -> u64
where
    Q::Runtime: Wait,
{
    let mut sum = 0u64;
    for _ in 0..times {
        sum = sum.wrapping_add(map.len(me) as u64);
    }
    sum
}
