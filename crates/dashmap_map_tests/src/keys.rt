//! Odd keys: equal ones that differ, one that stands alone, ones that share a hash, and the least and the greatest.

use crate::tables::{Lock, Row, Spread, Word, check, map_of};
use dashmap_calls::{Answer, Call, Keyed, Many, Numbers, run};
use dashmap_map::DashMap;
use dashmap_map::mapref::entry::Entry;
use dashmap_table::MapFault;
use lock_api_raw::MakeLock;
use std::alloc::Global;
use std::hash::{BuildHasher, Hasher};
use std::test::Fail;

/// A letter that is compared without its case.
#[derive(Drop)]
#[derive_where(PartialEq, Eq, Hash, Debug)]
struct Letter {
    folded: u8,
    #[derive_where(skip)]
    shown: u8,
}

impl Letter {
    fn of(shown: u8) -> Letter {
        Letter {
            folded: shown.to_ascii_lowercase(),
            shown,
        }
    }
}

/// Gives every key the same hash.
#[derive(Clone, Copy)]
struct OneHash;

#[derive(Clone, Copy)]
struct OneHasher;

impl Hasher for OneHasher {
    ghost write = { λ hasher bytes. hasher };

    ghost finish = { λ hasher. 0 };

    fn write(&mut self, _bytes: &[u8]) {}

    fn finish(&self) -> u64 {
        0
    }
}

impl BuildHasher for OneHash {
    type Hasher = OneHasher;

    ghost build_hasher = { λ builder. record {} };

    fn build_hasher(&self) -> OneHasher {
        OneHasher
    }
}

/// A map of letters.
type Letters<Q> = Spread<Letter, u64, Q, Global>;

/// Writes a value at the place of a letter that is there. Answers the value that was there, and the letter as it is
/// stored.
fn written<Q: Lock>(
    map: &Letters<Q>,
    letter: u8,
    value: u64,
    me: &mut Q::Party,
) -> Option<(u64, u8)> {
    match map.entry(Letter::of(letter), me) {
        Ok(Entry::Occupied(mut entry)) => {
            let old = entry.insert(value);
            Some((old, entry.key().shown))
        }
        Ok(Entry::Vacant(_)) | Err(_) => None,
    }
}

/// Replaces the pair at the place of a letter that is there, and answers the old one.
fn replaced<Q: Lock>(
    map: &Letters<Q>,
    letter: u8,
    value: u64,
    me: &mut Q::Party,
) -> Option<(u8, u64)> {
    match map.entry(Letter::of(letter), me) {
        Ok(Entry::Occupied(entry)) => {
            let (stored, old) = entry.replace_entry(value);
            Some((stored.shown, old))
        }
        Ok(Entry::Vacant(_)) | Err(_) => None,
    }
}

/// Whether a letter that is put into an empty map stays as it was stored until it is replaced.
fn stays<Q: Lock>(map: &Letters<Q>, me: &mut Q::Party) -> bool {
    let mut right = map.insert(Letter::of(b'k'), 1, me) == Ok(None);
    right &= written(map, b'K', 2, me) == Some((1, b'k'));
    right &= replaced(map, b'K', 3, me) == Some((b'k', 2));
    match map.remove(&Letter::of(b'k'), me) {
        Some((stored, value)) => right && stored.shown == b'K' && value == 3,
        None => false,
    }
}

/// The same on a new map.
fn stays_in_new<T: Copy, Q: Lock + MakeLock<T>>(
    table: T,
    alloc: Global,
    me: &mut Q::Party,
) -> bool {
    let made: Result<Letters<Q>, MapFault> = map_of(table, alloc, 4);
    match made {
        Ok(map) => stays(&map, me),
        Err(_) => false,
    }
}

#[test]
fn a_stored_key_stays_until_it_is_replaced(rt: HostRuntime) -> Result<(), Fail> {
    assert!(rt; stays_in_new::<_, Word>(rt, rt.alloc(), &mut 1));
    Ok(())
}

/// Whether an empty map takes the unit once.
fn has_one_unit<Q: Lock>(map: &Spread<(), u64, Q, Global>, me: &mut Q::Party) -> bool {
    let mut right = map.insert((), 1, me) == Ok(None);
    right &= map.insert((), 2, me) == Ok(Some(1));
    right &= map.len(me) == 1 && map.determine_map(&()) < 2;
    right & (map.remove(&(), me) == Some(((), 2)))
}

/// The same of a new map.
fn new_has_one_unit<T: Copy, Q: Lock + MakeLock<T>>(
    table: T,
    alloc: Global,
    me: &mut Q::Party,
) -> bool {
    let made: Result<Spread<(), u64, Q, Global>, MapFault> = map_of(table, alloc, 2);
    match made {
        Ok(map) => has_one_unit(&map, me),
        Err(_) => false,
    }
}

#[test]
fn there_is_one_unit(rt: HostRuntime) -> Result<(), Fail> {
    assert!(rt; new_has_one_unit::<_, Word>(rt, rt.alloc(), &mut 1));
    Ok(())
}

const OF_ONE_HASH: &[Row] = &[
    (Call::Many(Many::Insert(0, 100, 0)), Answer::Number(100)),
    (Call::Many(Many::Remove(0, 50, 0)), Answer::Number(50)),
    (Call::Many(Many::View(50, 100, 0)), Answer::Number(50)),
    (Call::Many(Many::Miss(0, 50)), Answer::Number(50)),
    (Call::Len, Answer::Number(50)),
    (Call::Key(Keyed::ContainsKey(0)), Answer::Flag(false)),
];

/// Makes the calls of a table on an empty map in which all keys have one hash.
fn run_by_one_hash<T: Copy, Q: Lock + MakeLock<T>>(
    table: T,
    alloc: Global,
    rows: &[Row],
    me: &mut Q::Party,
) -> Result<(), Fail> {
    let map: Numbers<OneHash, Q, Global> = DashMap::with_hasher_and_shard_amount(
        alloc, OneHash, 8, table,
    )?;
    run(&map, rows, me)
}

#[test]
fn keys_of_one_hash_stay_apart(rt: HostRuntime) -> Result<(), Fail> {
    run_by_one_hash::<_, Word>(rt, rt.alloc(), OF_ONE_HASH, &mut 1)
}

const ENDS: &[Row] = &[
    (Call::Key(Keyed::Insert(0, 1)), Answer::Absent),
    (Call::Key(Keyed::Insert(u64::MAX, 2)), Answer::Absent),
    (Call::Key(Keyed::Insert(u64::MAX, 3)), Answer::Number(2)),
    (Call::Key(Keyed::Remove(0)), Answer::Pair(0, 1)),
    (
        Call::Key(Keyed::Remove(u64::MAX)),
        Answer::Pair(u64::MAX, 3),
    ),
];

#[test]
fn the_least_and_the_greatest_key(rt: HostRuntime) -> Result<(), Fail> {
    check(rt, rt.alloc(), 2, ENDS)
}
