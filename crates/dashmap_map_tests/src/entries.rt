//! Tables of what is done at the place of a key.

use crate::tables::{Row, check};
use dashmap_calls::{Answer, Call, Keyed, Place, Try};
use std::test::Fail;

const ADDS_ONCE: &[Row] = &[
    (Call::Entry(9, Place::OrInsertWith(4)), Answer::Pair(9, 4)),
    (Call::Entry(9, Place::AndModify(1, 0)), Answer::Number(5)),
    (
        Call::Entry(8, Place::OrTryInsertWith(3)),
        Answer::Refused(3),
    ),
    (Call::Key(Keyed::ContainsKey(8)), Answer::Flag(false)),
    (Call::Try(Try::Get(8)), Answer::Absent),
    (Call::Entry(9, Place::OrTryInsertWith(3)), Answer::Number(5)),
    (Call::Entry(9, Place::OrInsert(7)), Answer::Number(5)),
    (Call::Entry(8, Place::AndModify(1, 6)), Answer::Number(6)),
    (Call::Entry(8, Place::AddTo(1)), Answer::Number(7)),
];

#[test]
fn an_entry_adds_once(rt: HostRuntime) -> Result<(), Fail> {
    check(rt, rt.alloc(), 4, ADDS_ONCE)
}

const KINDS: &[Row] = &[
    (Call::Entry(1, Place::Replace(3)), Answer::Absent),
    (
        Call::Entry(1, Place::VacantInsertEntry(1000)),
        Answer::Number(1000),
    ),
    (
        Call::Entry(1, Place::VacantInsertEntry(2)),
        Answer::Flag(false),
    ),
    (Call::Entry(1, Place::Replace(2)), Answer::Number(1000)),
    (Call::Key(Keyed::Remove(1)), Answer::Pair(1, 2)),
];

#[test]
fn an_entry_is_vacant_or_occupied(rt: HostRuntime) -> Result<(), Fail> {
    check(rt, rt.alloc(), 4, KINDS)
}

const STAYS: &[Row] = &[
    (Call::Entry(1, Place::InsertEntry(2)), Answer::Number(2)),
    (Call::Entry(1, Place::InsertEntry(3)), Answer::Number(3)),
    (Call::Entry(1, Place::Insert(4)), Answer::Number(4)),
    (Call::Key(Keyed::View(1)), Answer::Number(4)),
    (Call::Entry(1, Place::ReplaceEntry(3)), Answer::Pair(1, 4)),
    (Call::Entry(1, Place::IntoKey), Answer::Number(1)),
    (Call::Entry(1, Place::Get), Answer::Pair(1, 3)),
    (Call::Try(Try::GetMut(1, 3)), Answer::Number(3)),
];

#[test]
fn an_entry_stays_where_it_stored(rt: HostRuntime) -> Result<(), Fail> {
    check(rt, rt.alloc(), 4, STAYS)
}

const KEY_AND_PAIR: &[Row] = &[
    (Call::Entry(7, Place::IntoKey), Answer::Number(7)),
    (Call::Key(Keyed::ContainsKey(7)), Answer::Flag(false)),
    (Call::Entry(7, Place::OrDefault), Answer::Number(0)),
    (Call::Entry(7, Place::IntoKey), Answer::Number(7)),
    (Call::Key(Keyed::ContainsKey(7)), Answer::Flag(true)),
    (Call::Entry(7, Place::Take(8)), Answer::Pair(7, 8)),
    (Call::IsEmpty, Answer::Flag(true)),
];

#[test]
fn an_entry_gives_its_key_and_its_pair(rt: HostRuntime) -> Result<(), Fail> {
    check(rt, rt.alloc(), 4, KEY_AND_PAIR)
}
