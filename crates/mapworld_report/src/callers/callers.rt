//! Two callers.
ghost use Rattle.std.specs.Prelude.{◌≡◌, ◌+◌, [], length, IfSome, IfOk};
ghost use Rattle.dashmap_record.specs.Recorded.{AreNew};

use crate::callers::fault::CallersFault;
use dashmap_record::{Caller, Entered, RecordFault, Recorded, gather};
use dashmap_table::{MapFault, SpreadState};
use parking_lot_core::ParkingLot;
use parking_lot_rwlock::{LockTable, RawRwLock};
use std::alloc::Global;
use std::sync::Wait;
use std::thread;
use std::thread::Threads;

/// A map of numbers over any raw lock.
type Map<Q> = Recorded<u64, u64, SpreadState, Q>;

/// A log of it.
type Log = Vec<Entered<u64, u64>>;

/// Inserts four keys, from one on, and gives the caller's log.
fn inserts<Q: lock_api_raw::RawRwLock>(
    map: &Map<Q>,
    first: u64,
    mut caller: Caller<u64, u64>,
    mut me: Q::Party,
) -> Result<Log, RecordFault>
where
    Q::Party: Drop,
    Q::Runtime: Wait,
    ensures { IfOk result (λ log. length log.items ≡ length caller.log.entries + 4) }
{
    for key in 0..4 {
        map.insert(first.wrapping_add(key), key, &mut caller, &mut me)?;
    }
    Ok(caller.log())
}

/// The two callers of a new map.
fn two_of(mut callers: Vec<Caller<u64, u64>>) -> Option<(Caller<u64, u64>, Caller<u64, u64>)>
    requires { AreNew 0 callers.items }
    ensures { IfSome result (λ two. (two.0.log.entries ≡ []) × (two.1.log.entries ≡ [])) }
{
    let second = callers.pop()?;
    let first = callers.pop()?;
    Some((first, second))
}

/// How many calls are gathered of two logs.
fn count_of(alloc: Global, histories: Vec<Log>, one: Log, two: Log) -> Result<usize, CallersFault>
    ensures { IfOk result (λ count. count ≡ length one.items + length two.items) }
{
    let mut logs = Vec::new(alloc);
    logs.push(one)?;
    logs.push(two)?;
    let all = gather(alloc, histories, logs, &SpreadState)?;
    Ok(all.len())
}

/// Lets two callers insert in threads of their own, and answers how many calls are gathered.
fn both<R: Threads + Sync, Q: lock_api_raw::RawRwLock + Drop + Sync>(
    rt: &R,
    alloc: Global,
    map: Map<Q>,
    callers: Vec<Caller<u64, u64>>,
    parties: (Q::Party, Q::Party),
) -> Result<usize, CallersFault>
where
    Q::Party: Drop + Send,
    Q::Runtime: Wait,
    requires { AreNew 0 callers.items }
    ensures { IfOk result (λ count. count ≡ 8) }
{
    let (first, second) = parties;
    let Some((a, b)) = two_of(callers) else {
        return Err(CallersFault::Call(RecordFault::NoMemory));
    };
    let (one, two) = thread::join(
        rt,
        || inserts(&map, 0, a, first),
        || inserts(&map, 4, b, second),
    );
    count_of(alloc, map.histories(), one?, two?)
}

/// Makes a recorded map of two shards, lets two callers make four inserts each, keys 0 to 3 and 4 to 7, in threads of
/// their own, and answers how many calls are gathered afterwards.
///
/// It is refused as the lot, the table, the map, its calls or the gathering are.
pub fn gathered<R: Threads + Wait + Sync + Copy>(
    rt: R,
    alloc: Global,
) -> Result<usize, CallersFault>
    ensures { IfOk result (λ count. count ≡ 8) }
{
    let lot = ParkingLot::new(rt, alloc, 2, 0)?;
    let parties = (lot.thread_data()?, lot.thread_data()?);
    let table = LockTable::new(alloc, &lot, 2)?;
    let made: Result<(Map<RawRwLock<'_, '_, R, 0>>, _), MapFault> = Recorded::new(
        alloc,
        2,
        SpreadState,
        2,
        &table,
    );
    let (map, callers) = made?;
    both(&rt, alloc, map, callers, parties)
}
