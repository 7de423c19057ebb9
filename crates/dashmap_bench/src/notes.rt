//! Histories and logs of so many calls.

use crate::fault::Fault;
use dashmap_record::{Caller, Entered, RecordFault, Recorded};
use dashmap_table::MapFault;
use lock_api_spin::PackedLock;
use std::alloc::Allocator;
use std::hash::{BuildHasherDefault, FoldHasher};
use std::sync::Wait;

pub type Fold = BuildHasherDefault<FoldHasher>;

/// Histories, or logs.
pub type Lists<A> = Vec<Vec<Entered<u64, u64>, A>, A>;

/// A map of numbers over locks of one word each.
type Map<R, A> = Recorded<u64, u64, Fold, PackedLock<R>, A>;

const SHARDS: usize = 8;

const CALLERS: usize = 4;

/// Makes call number `i`, on one of so many keys.
fn call<R: Wait + Drop, A: Allocator + Clone>(
    map: &Map<R, A>,
    caller: &mut Caller<u64, u64, A>,
    i: u64,
    keys: u64,
) -> Result<(), RecordFault> {
    let key = i.wrapping_mul(7).checked_rem(keys).unwrap_or(0);
    match i % 5 {
        0 | 1 => drop(map.insert(key, i, caller, &mut 1)?),
        2 => drop(map.replace_if(&key, i.wrapping_sub(1), i, caller, &mut 1)?),
        3 => drop(map.get_copied(&key, caller, &mut 1)?),
        _ => drop(map.remove(&key, caller, &mut 1)?),
    }
    Ok(())
}

/// Makes so many calls, each by the next caller.
fn calls<R: Wait + Drop, A: Allocator + Clone>(
    map: &Map<R, A>,
    callers: &mut [Caller<u64, u64, A>],
    count: u64,
) -> Result<(), RecordFault> {
    let mut turn = 0usize;
    for i in 0..count {
        turn = if turn < callers.len() { turn } else { 0 };
        if let Some(caller) = callers.get_mut(turn) {
            call(map, caller, i, count / 4 + 1)?;
        }
        turn = turn.wrapping_add(1);
    }
    Ok(())
}

/// The histories and the logs of so many calls on a quarter as many keys.
pub fn noted<R: Wait + Copy + Drop, A: Allocator + Clone + Drop>(
    rt: R,
    alloc: A,
    count: u64,
) -> Result<(Lists<A>, Lists<A>), Fault> {
    let made: Result<(Map<R, A>, _), MapFault> = Recorded::new(
        alloc.clone()?,
        SHARDS,
        Fold::new(),
        CALLERS,
        rt,
    );
    let (map, mut callers) = made?;
    calls(&map, &mut callers, count)?;
    let mut logs = Vec::new(alloc);
    for caller in callers {
        logs.push(caller.log())?;
    }
    Ok((map.histories(), logs))
}
