//! A map beside plain shards, over many calls.

use crate::tables::{Lock, Map, Parked, Word, map_of};
use dashmap_calls::{Answer, Call, Keyed, Many, Numbers, Place, call_many, make};
use dashmap_table::{MapFault, Shards, SpreadState};
use lock_api_raw::MakeLock;
use parking_lot_core::ParkingLot;
use parking_lot_rwlock::LockTable;
use std::alloc::{Allocator, Global};
use std::hash::BuildHasher;
use std::sync::Wait;
use std::test::Fail;

/// Plain shards with the hasher of the tests.
type Plain = Shards<u64, u64, SpreadState, Global>;

/// How many keys there are.
const KEYS: u64 = 64;

/// The call of a number.
fn call_of(number: u64) -> Call {
    let key = (number / 3) % KEYS;
    match number % 8 {
        0 | 4 => Call::Key(Keyed::Insert(key, number)),
        1 => Call::Key(Keyed::View(key)),
        5 => Call::Key(Keyed::Get(key)),
        2 => Call::Key(Keyed::Remove(key)),
        6 => Call::Key(Keyed::ContainsKey(key)),
        3 => Call::Entry(key, Place::OrInsert(number)),
        _ => Call::Key(Keyed::Alter(key, number)),
    }
}

/// The value of a key in plain shards.
fn value_of(plain: &Plain, key: u64) -> Option<u64> {
    let (shard, slot) = plain.find(&key)?;
    let (_, value) = plain.shard(shard).pair(slot)?;
    Some(*value)
}

/// What a call answers on plain shards.
fn answer_of(plain: &mut Plain, call: Call) -> Answer {
    match call {
        Call::Key(Keyed::Insert(key, value)) => Answer::of_insertion(plain.insert(key, value)),
        Call::Key(Keyed::View(key)) => Answer::of_value(value_of(plain, key)),
        Call::Key(Keyed::Get(key)) => Answer::of_pair(value_of(plain, key).map(|value| (
            key, value,
        ))),
        Call::Key(Keyed::ContainsKey(key)) => Answer::Flag(plain.find(&key).is_some()),
        Call::Key(Keyed::Remove(key)) => Answer::of_pair(plain.remove(&key)),
        Call::Key(Keyed::Alter(key, by)) => {
            if let Some(value) = value_of(plain, key) {
                let _old = plain.insert(key, value.wrapping_add(by)).is_ok();
            }
            Answer::Done
        }
        Call::Entry(key, Place::OrInsert(value)) => {
            if value_of(plain, key).is_none() {
                let _is_new = plain.insert(key, value).is_ok();
            }
            Answer::of_value(value_of(plain, key))
        }
        _ => Answer::Flag(false),
    }
}

/// The number of the first call, if any, that a map answers otherwise than plain shards do. In the end both have the
/// same pairs.
fn first_difference<S: BuildHasher, Q: Lock, A: Allocator + Clone>(
    map: &Numbers<S, Q, A>,
    plain: &mut Plain,
    me: &mut Q::Party,
) -> Option<u64> {
    for number in 0..10_000 {
        let call = call_of(number);
        if make(map, call, me) != answer_of(plain, call) {
            return Some(number);
        }
    }
    let mut count = 0u64;
    for key in 0..KEYS {
        let value = value_of(plain, key);
        count = count.wrapping_add(u64::from(value.is_some()));
        if make(map, Call::Key(Keyed::View(key)), me) != Answer::of_value(value) {
            return Some(key);
        }
    }
    if make(map, Call::Len, me) == Answer::Number(count)
        && call_many(map, Many::Miss(64, 99), me) == 35
    {
        None
    } else {
        Some(count)
    }
}

/// The same of new ones.
fn difference_of_new<T: Copy, Q: Lock + MakeLock<T>>(
    table: T,
    alloc: Global,
    me: &mut Q::Party,
) -> Result<Option<u64>, MapFault> {
    let mut plain = Shards::new(alloc, 8, SpreadState)?;
    let map: Map<Q, Global> = map_of(table, alloc, 8)?;
    Ok(first_difference(&map, &mut plain, me))
}

/// The same over rows of a table.
fn difference_over<'t, 'l, R: Wait>(
    table: &'t LockTable<'l, R>,
    alloc: Global,
) -> Result<Option<u64>, Fail> {
    let mut me = table.lot().thread_data()?;
    Ok(difference_of_new::<_, Parked<'t, 'l, R>>(table, alloc, &mut me)?)
}

#[test]
fn a_map_answers_as_plain_shards_do(rt: HostRuntime) -> Result<(), Fail> {
    let spun = difference_of_new::<_, Word>(rt, rt.alloc(), &mut 1)?;
    let lot = ParkingLot::new(rt, rt.alloc(), 1, 7)?;
    let table = LockTable::new(rt.alloc(), &lot, 8)?;
    let parked = difference_over(&table, rt.alloc())?;
    assert!(rt; spun.is_none() && parked.is_none(), "{spun:?} {parked:?}");
    Ok(())
}
