//! Calls that wait up to a moment: where nobody holds the shard, beside a guard of another party, and where a shard
//! can't grow.

use crate::tables::{Map, Parked, Word, map_of};
use dashmap_guard::TryResult;
use dashmap_map::UntilFault;
use dashmap_table::{MapFault, Shard};
use linked_list_allocator::LocalHeap;
use lock_api_raw::{MakeLock, RawRwLockTimed};
use lock_api_rw::Evidence;
use parking_lot_core::ParkingLot;
use parking_lot_rwlock::LockTable;
use std::alloc::{Allocator, Global};
use std::rt::Clock;
use std::sync::Wait;
use std::test::Fail;
use std::time::Instant;

/// A call that waits up to a moment.
#[derive(Clone, Copy)]
enum Timed {
    Get(u64),
    /// Writes the second number through the guard.
    GetMut(u64, u64),
    Remove(u64),
    Insert(u64, u64),
}

/// What it answers.
#[derive(Clone, Copy, PartialEq, Eq, Debug)]
enum Told {
    Absent,
    Value(u64),
    Pair(u64, u64),
    Late,
    /// An insertion was refused: its number, and the pair that came back.
    Refused(u16, (u64, u64)),
}

/// Looks at the pair of a key.
fn seen<Q: RawRwLockTimed + Evidence<Shard<u64, u64, A>>, A: Allocator, C: Clock>(
    map: &Map<Q, A>,
    key: u64,
    moment: Q::Instant,
    clock: &C,
    me: &mut Q::Party,
) -> Told
where
    Q::Runtime: Wait,
{
    match map.get_until(&key, moment, clock, me) {
        TryResult::Present(pair) => Told::Pair(*pair.key(), *pair.value()),
        TryResult::Absent => Told::Absent,
        TryResult::Locked => Told::Late,
    }
}

/// Writes through the guard of a key, and tells what was there.
fn written<Q: RawRwLockTimed + Evidence<Shard<u64, u64, A>>, A: Allocator, C: Clock>(
    map: &Map<Q, A>,
    (key, value): (u64, u64),
    moment: Q::Instant,
    clock: &C,
    me: &mut Q::Party,
) -> Told
where
    Q::Runtime: Wait,
{
    match map.get_mut_until(&key, moment, clock, me) {
        TryResult::Present(mut pair) => {
            let was = *pair;
            *pair = value;
            Told::Value(was)
        }
        TryResult::Absent => Told::Absent,
        TryResult::Locked => Told::Late,
    }
}

/// Makes a call.
fn made<Q: RawRwLockTimed + Evidence<Shard<u64, u64, A>>, A: Allocator + Clone, C: Clock>(
    map: &Map<Q, A>,
    call: Timed,
    moment: Q::Instant,
    clock: &C,
    me: &mut Q::Party,
) -> Told
where
    Q::Runtime: Wait,
{
    match call {
        Timed::Get(key) => seen(map, key, moment, clock, me),
        Timed::GetMut(key, value) => written(map, (key, value), moment, clock, me),
        Timed::Remove(key) => match map.remove_until(&key, moment, clock, me) {
            TryResult::Present((key, value)) => Told::Pair(key, value),
            TryResult::Absent => Told::Absent,
            TryResult::Locked => Told::Late,
        },
        Timed::Insert(key, value) => match map.insert_until(key, value, moment, clock, me) {
            Ok(None) => Told::Absent,
            Ok(Some(had)) => Told::Value(had),
            Err(fault) => Told::Refused(fault.code(), fault.into_pair()),
        },
    }
}

/// How many rows of a table are answered as they say, up to the first that isn't. Each call's moment is the same.
fn answered<
    Q: RawRwLockTimed<Instant = Instant> + Evidence<Shard<u64, u64, A>>,
    A: Allocator + Clone,
    C: Clock,
>(map: &Map<Q, A>, rows: &[(Timed, Told)], moment: Instant, clock: &C, me: &mut Q::Party) -> usize
where
    Q::Runtime: Wait,
{
    for (at, &(call, answer)) in rows.iter().enumerate() {
        if made(map, call, moment, clock, me) != answer {
            return at;
        }
    }
    rows.len()
}

const ALONE: &[(Timed, Told)] = &[
    (Timed::Insert(1, 9), Told::Absent),
    (Timed::Insert(1, 8), Told::Value(9)),
    (Timed::Get(1), Told::Pair(1, 8)),
    (Timed::Get(2), Told::Absent),
    (Timed::GetMut(1, 7), Told::Value(8)),
    (Timed::GetMut(2, 7), Told::Absent),
    (Timed::Remove(1), Told::Pair(1, 7)),
    (Timed::Remove(1), Told::Absent),
    (Timed::Insert(1, 5), Told::Absent),
];

/// Key 2 is in another shard than key 1.
const BESIDE_A_WRITER: &[(Timed, Told)] = &[
    (Timed::Insert(1, 9), Told::Refused(35, (1, 9))),
    (Timed::Get(1), Told::Late),
    (Timed::GetMut(1, 6), Told::Late),
    (Timed::Remove(1), Told::Late),
    (Timed::Get(2), Told::Absent),
    (Timed::Insert(2, 4), Told::Absent),
    (Timed::GetMut(2, 3), Told::Value(4)),
    (Timed::Remove(2), Told::Pair(2, 3)),
];

const BESIDE_A_READER: &[(Timed, Told)] = &[
    (Timed::Get(1), Told::Pair(1, 5)),
    (Timed::GetMut(1, 6), Told::Late),
    (Timed::Remove(1), Told::Late),
    (Timed::Insert(1, 6), Told::Refused(35, (1, 6))),
    (Timed::Insert(3, 6), Told::Refused(35, (3, 6))),
];

const AFTERWARDS: &[(Timed, Told)] = &[
    (Timed::Get(1), Told::Pair(1, 5)),
    (Timed::Get(3), Told::Absent),
];

/// Whether each table is answered, the first on an empty map of two shards, the others beside guards of a second party.
fn is_answered<
    Q: RawRwLockTimed<Instant = Instant> + Evidence<Shard<u64, u64, A>>,
    A: Allocator + Clone,
    C: Clock,
>(map: &Map<Q, A>, moment: Instant, clock: &C, me: &mut Q::Party, you: &mut Q::Party) -> bool
where
    Q::Runtime: Wait,
{
    let alone = answered(map, ALONE, moment, clock, me) == ALONE.len();
    let writing = match map.get_mut(&1, you) {
        Some(guard) => {
            let rows = answered(map, BESIDE_A_WRITER, moment, clock, me);
            drop(guard);
            rows == BESIDE_A_WRITER.len()
        }
        None => false,
    };
    let reading = match map.get(&1, you) {
        Some(guard) => {
            let rows = answered(map, BESIDE_A_READER, moment, clock, me);
            drop(guard);
            rows == BESIDE_A_READER.len()
        }
        None => false,
    };
    let after = answered(map, AFTERWARDS, moment, clock, me) == AFTERWARDS.len();
    alone & writing & reading & after
}

/// The same of a new map.
fn is_answered_by_new<T: Copy, Q: RawRwLockTimed<Instant = Instant> + MakeLock<T> + Drop, C: Clock>(
    table: T,
    alloc: Global,
    moment: Instant,
    clock: &C,
    me: &mut Q::Party,
    you: &mut Q::Party,
) -> bool
where
    Q::Runtime: Wait,
{
    let made: Result<Map<Q, Global>, MapFault> = map_of(table, alloc, 2);
    match made {
        Ok(map) => is_answered(&map, moment, clock, me, you),
        Err(_) => false,
    }
}

/// The same over rows of a table.
fn is_answered_over<'t, 'l, R: Wait + Clock>(
    table: &'t LockTable<'l, R>,
    alloc: Global,
    moment: Instant,
    clock: &R,
) -> Result<bool, Fail> {
    let lot = table.lot();
    let (mut me, mut you) = (lot.thread_data()?, lot.thread_data()?);
    Ok(is_answered_by_new::<_, Parked<'t, 'l, R>, _>(
        table, alloc, moment, clock, &mut me, &mut you,
    ))
}

#[test]
fn a_call_gives_up_at_its_moment_beside_a_guard_of_its_shard(rt: HostRuntime) -> Result<(), Fail> {
    let moment = Instant::now(&rt)?;
    let spun = is_answered_by_new::<_, Word, _>(rt, rt.alloc(), moment, &rt, &mut 1, &mut 2);
    assert!(rt; spun);
    let lot = ParkingLot::new(rt, rt.alloc(), 2, 7)?;
    let table = LockTable::new(rt.alloc(), &lot, 2)?;
    assert!(rt; is_answered_over(&table, rt.alloc(), moment, &rt)?);
    Ok(())
}

/// Puts keys in, each with itself, until one finds no room, and tells how many. A refused one comes back and isn't there,
/// and those before it are.
fn filled<Q: RawRwLockTimed + Evidence<Shard<u64, u64, A>>, A: Allocator + Clone, C: Clock>(
    map: &Map<Q, A>,
    moment: Q::Instant,
    clock: &C,
    me: &mut Q::Party,
) -> Option<u64>
where
    Q::Runtime: Wait,
    Q::Instant: Copy,
{
    for key in 0..12 {
        let put = made(map, Timed::Insert(key, key), moment, clock, me);
        if put != Told::Absent {
            let is_refused = put == Told::Refused(99, (key, key));
            let is_away = made(map, Timed::Get(key), moment, clock, me) == Told::Absent;
            return (is_refused & is_away & (map.len(me) as u64 == key)).then_some(key);
        }
    }
    Some(12)
}

/// Fills a new map, if there is one.
fn new_filled<
    T: Copy,
    Q: RawRwLockTimed<Instant = Instant> + MakeLock<T> + Drop,
    A: Allocator + Clone,
    C: Clock,
>(table: T, alloc: A, moment: Instant, clock: &C, me: &mut Q::Party) -> Option<Option<u64>>
where
    Q::Runtime: Wait,
{
    let made: Result<Map<Q, A>, MapFault> = map_of(table, alloc, 2);
    match made {
        Ok(map) => Some(filled(&map, moment, clock, me)),
        Err(_) => None,
    }
}

#[test]
fn each_growth_that_is_refused_gives_the_pair_back(rt: HostRuntime) -> Result<(), Fail> {
    let (mut refused, mut whole) = (false, false);
    let moment = Instant::now(&rt)?;
    for size in 0..60 {
        let heap = LocalHeap::new(rt.alloc(), size * 64)?;
        if let Some(count) = new_filled::<_, Word, _, _>(rt, &heap, moment, &rt, &mut 1) {
            assert!(rt; count.is_some(), "of {size}");
            refused |= count != Some(12);
            whole |= count == Some(12);
        }
    }
    assert!(rt; refused & whole);
    Ok(())
}

#[test]
fn refusals_have_numbers_and_names(rt: HostRuntime) -> Result<(), Fail> {
    let (late, full) = (UntilFault::Locked(3), UntilFault::NoMemory(4));
    assert!(rt; (late.code() == 35) & (full.code() == 99));
    let text = format!(in rt.alloc(); "{late} {late:?} {full} {full:?}")?;
    assert!(rt; text.as_str() == "Locked Locked(3) NoMemory NoMemory(4)");
    assert!(rt; (late.into_pair() == 3) & (full.into_pair() == 4));
    Ok(())
}
