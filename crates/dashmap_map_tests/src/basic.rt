//! Calls on one key, and a map's room.

use crate::tables::{Lock, Row, Spread, Word, check, map_of};
use dashmap_calls::{Answer, Call, Keyed, Many, Try};
use dashmap_table::MapFault;
use lock_api_raw::MakeLock;
use std::alloc::{AllocError, Global};
use std::string::String;
use std::test::Fail;

const IN_AND_OUT: &[Row] = &[
    (Call::IsEmpty, Answer::Flag(true)),
    (Call::HasRoom(1), Answer::Flag(false)),
    (Call::Key(Keyed::Insert(0, 0)), Answer::Absent),
    (Call::Key(Keyed::Get(0)), Answer::Pair(0, 0)),
    (Call::Key(Keyed::GetPair(0)), Answer::Three(0, 0, 0)),
    (Call::Key(Keyed::GetPair(1)), Answer::Absent),
    (Call::Key(Keyed::Get(1)), Answer::Absent),
    (Call::Key(Keyed::GetMut(1, 1)), Answer::Absent),
    (Call::Key(Keyed::Insert(0, 9)), Answer::Number(0)),
    (Call::Key(Keyed::GetPair(0)), Answer::Three(0, 9, 9)),
    (Call::Len, Answer::Number(1)),
    (Call::Key(Keyed::GetMut(0, 7)), Answer::Number(9)),
    (Call::Key(Keyed::Remove(0)), Answer::Pair(0, 7)),
    (Call::Key(Keyed::Remove(0)), Answer::Absent),
    (Call::Key(Keyed::ContainsKey(0)), Answer::Flag(false)),
    (Call::IsEmpty, Answer::Flag(true)),
    (Call::ShrinkToFit, Answer::Flag(true)),
    (Call::HasRoom(1), Answer::Flag(false)),
];

#[test]
fn a_pair_is_put_in_and_taken_out(rt: HostRuntime) -> Result<(), Fail> {
    check(rt, rt.alloc(), 4, IN_AND_OUT)
}

const HUNDRED: &[Row] = &[
    (Call::Many(Many::Insert(0, 100, 0)), Answer::Number(100)),
    (Call::Many(Many::Replace(1, 100)), Answer::Number(99)),
    (Call::Many(Many::View(1, 100, 0)), Answer::Number(99)),
    (Call::Key(Keyed::View(0)), Answer::Number(99)),
    (Call::Len, Answer::Number(100)),
    (Call::Many(Many::Miss(100, 200)), Answer::Number(100)),
];

#[test]
fn a_hundred_keys(rt: HostRuntime) -> Result<(), Fail> {
    check(rt, rt.alloc(), 8, HUNDRED)
}

const LOOKED_AT: &[Row] = &[
    (Call::Key(Keyed::Insert(9, 50)), Answer::Absent),
    (Call::Key(Keyed::Insert(12, 60)), Answer::Absent),
    (Call::Key(Keyed::ViewIs(9, 50)), Answer::Flag(true)),
    (Call::Key(Keyed::ViewIs(12, 50)), Answer::Flag(false)),
    (Call::Key(Keyed::ViewIs(30, 50)), Answer::Absent),
];

#[test]
fn a_closure_looks_at_a_pair(rt: HostRuntime) -> Result<(), Fail> {
    check(rt, rt.alloc(), 4, LOOKED_AT)
}

const DECIDED: &[Row] = &[
    (Call::Key(Keyed::Insert(1, 5)), Answer::Absent),
    (Call::Key(Keyed::RemoveIf(1, 6)), Answer::Absent),
    (Call::Key(Keyed::RemoveIf(2, 5)), Answer::Absent),
    (Call::Key(Keyed::RemoveIfMut(1, 9, false)), Answer::Absent),
    (Call::Key(Keyed::View(1)), Answer::Number(9)),
    (Call::Key(Keyed::Alter(1, 9)), Answer::Done),
    (Call::Key(Keyed::Alter(2, 9)), Answer::Done),
    (Call::Key(Keyed::RemoveIf(1, 18)), Answer::Pair(1, 18)),
    (Call::Key(Keyed::ContainsKey(1)), Answer::Flag(false)),
    (Call::Key(Keyed::Insert(1, 5)), Answer::Absent),
    (
        Call::Key(Keyed::RemoveIfMut(1, 8, true)),
        Answer::Pair(1, 8),
    ),
    (Call::Try(Try::Get(1)), Answer::Absent),
];

#[test]
fn a_closure_decides_what_goes(rt: HostRuntime) -> Result<(), Fail> {
    check(rt, rt.alloc(), 4, DECIDED)
}

/// A value that owns memory.
#[derive(Drop, PartialEq, Debug)]
struct Large {
    text: String,
    byte: u8,
}

/// A map of such values.
type Larges<Q> = Spread<u8, Large, Q, Global>;

/// Whether the value of a key has this text, and the key as its byte.
fn has<Q: Lock>(map: &Larges<Q>, key: u8, text: &str, me: &mut Q::Party) -> bool {
    match map.get(&key, me) {
        Some(guard) => guard.text.as_str() == text && guard.byte == key,
        None => false,
    }
}

/// Puts in the value of a key, and tells whether it is new and found.
fn put<Q: Lock>(
    map: &Larges<Q>,
    alloc: Global,
    byte: u8,
    me: &mut Q::Party,
) -> Result<bool, AllocError> {
    let large = Large {
        text: format!(in alloc; "{byte}")?,
        byte,
    };
    let is_new = matches!(map.insert(byte, large, me), Ok(None));
    let text = format!(in alloc; "{byte}")?;
    Ok(is_new && has(map, byte, text.as_str(), me))
}

/// How many of ten such values a new map takes and finds, and how many it has then.
fn put_ten<T: Copy, Q: Lock + MakeLock<T>>(
    table: T,
    alloc: Global,
    me: &mut Q::Party,
) -> Result<(u8, usize), AllocError> {
    let made: Result<Larges<Q>, MapFault> = map_of(table, alloc, 4);
    match made {
        Ok(map) => {
            let mut count = 0u8;
            for byte in 0..10u8 {
                count = count.wrapping_add(u8::from(put(&map, alloc, byte, me)?));
            }
            Ok((count, map.len(me)))
        }
        Err(_) => Ok((0, 0)),
    }
}

#[test]
fn values_may_own_memory(rt: HostRuntime) -> Result<(), Fail> {
    let put = put_ten::<_, Word>(rt, rt.alloc(), &mut 1)?;
    assert!(rt; put == (10, 10), "{put:?}");
    Ok(())
}
