//! Tables of calls that don't wait, beside what holds a shard meanwhile.

use crate::tables::{Row, check};
use dashmap_calls::{Answer, Call, Hold, Keyed, Try};
use std::test::Fail;

const BESIDE_GUARDS: &[Row] = &[
    (Call::Key(Keyed::Insert(1, 21)), Answer::Absent),
    (Call::Try(Try::Get(1)), Answer::Number(21)),
    (Call::Beside(Hold::Writer(1), Try::Get(1)), Answer::Locked),
    (
        Call::Beside(Hold::Writer(1), Try::GetMut(1, 3)),
        Answer::Locked,
    ),
    (Call::Beside(Hold::Writer(1), Try::Entry(1)), Answer::Locked),
    (Call::Try(Try::Entry(1)), Answer::Number(1)),
    (Call::Try(Try::GetMut(1, 22)), Answer::Number(21)),
    (Call::Try(Try::Get(2)), Answer::Absent),
    (Call::Try(Try::GetMut(2, 1)), Answer::Absent),
    (Call::Try(Try::Get(1)), Answer::Number(22)),
    (Call::Key(Keyed::View(1)), Answer::Number(22)),
    (
        Call::Beside(Hold::Reader(1), Try::Get(1)),
        Answer::Number(22),
    ),
    (
        Call::Beside(Hold::Reader(1), Try::GetMut(1, 3)),
        Answer::Locked,
    ),
    (Call::Beside(Hold::Writer(1), Try::Get(2)), Answer::Absent),
    (Call::Beside(Hold::Place(1), Try::Get(1)), Answer::Locked),
    (Call::Beside(Hold::Place(1), Try::Entry(1)), Answer::Locked),
    (Call::Try(Try::GetMut(1, 22)), Answer::Number(22)),
    (Call::Beside(Hold::Added(3), Try::Get(3)), Answer::Locked),
    (Call::Key(Keyed::Remove(3)), Answer::Pair(3, 0)),
];

#[test]
fn a_try_beside_a_guard_is_told_that_it_is_locked(rt: HostRuntime) -> Result<(), Fail> {
    check(rt, rt.alloc(), 4, BESIDE_GUARDS)
}

const LET_DOWN: &[Row] = &[
    (Call::Key(Keyed::Insert(1, 5)), Answer::Absent),
    (
        Call::Beside(Hold::LetDown(1, 6), Try::Get(1)),
        Answer::Locked,
    ),
    (Call::Try(Try::Get(1)), Answer::Number(6)),
    (Call::Try(Try::GetMut(1, 6)), Answer::Number(6)),
    (Call::Key(Keyed::Get(1)), Answer::Pair(1, 6)),
];

#[test]
fn a_guard_that_is_let_down_keeps_its_hold(rt: HostRuntime) -> Result<(), Fail> {
    check(rt, rt.alloc(), 4, LET_DOWN)
}

const BESIDE_AN_ITEM: &[Row] = &[
    (Call::Key(Keyed::Insert(0, 10)), Answer::Absent),
    (
        Call::Beside(Hold::Item(10), Try::GetMut(0, 7)),
        Answer::Locked,
    ),
    (
        Call::Beside(Hold::Item(10), Try::Get(0)),
        Answer::Number(10),
    ),
    (Call::Try(Try::GetMut(0, 10)), Answer::Number(10)),
];

#[test]
fn an_item_keeps_its_shard(rt: HostRuntime) -> Result<(), Fail> {
    check(rt, rt.alloc(), 2, BESIDE_AN_ITEM)
}

/// Key 0 is on the first of two shards, and key 1 on the last, which a walk that writes keeps until it is dropped.
const BESIDE_A_WRITING_WALK: &[Row] = &[
    (Call::Key(Keyed::Insert(0, 10)), Answer::Absent),
    (
        Call::Beside(Hold::Walk(0), Try::GetMut(0, 10)),
        Answer::Number(10),
    ),
    (Call::Beside(Hold::Walk(1), Try::Get(0)), Answer::Locked),
    (Call::Beside(Hold::Walk(2), Try::Get(0)), Answer::Number(10)),
    (Call::Try(Try::GetMut(0, 10)), Answer::Number(10)),
    (Call::Key(Keyed::Remove(0)), Answer::Pair(0, 10)),
    (Call::Key(Keyed::Insert(1, 10)), Answer::Absent),
    (Call::Beside(Hold::Walk(1), Try::Get(1)), Answer::Locked),
    (Call::Beside(Hold::Walk(2), Try::Get(1)), Answer::Locked),
    (Call::Try(Try::GetMut(1, 10)), Answer::Number(10)),
];

#[test]
fn a_writing_walk_keeps_the_last_shard(rt: HostRuntime) -> Result<(), Fail> {
    check(rt, rt.alloc(), 2, BESIDE_A_WRITING_WALK)
}
