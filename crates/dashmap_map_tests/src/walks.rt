//! Tables of walks over all pairs.

use crate::tables::{Row, check};
use dashmap_calls::{Answer, Call, Keyed, Many, Walk};
use std::test::Fail;

const MET_ONCE: &[Row] = &[
    (Call::Many(Many::Insert(0, 100, 0)), Answer::Number(100)),
    (
        Call::Walk(Walk::Retain(0, 1000)),
        Answer::Three(100, 4950, 0),
    ),
    (Call::Len, Answer::Number(50)),
    (Call::Walk(Walk::RetainAll), Answer::Number(50)),
    (Call::Walk(Walk::Iter(1000)), Answer::Three(50, 2450, 50)),
    (Call::Key(Keyed::View(0)), Answer::Number(1000)),
    (Call::Key(Keyed::View(1)), Answer::Absent),
    (Call::Key(Keyed::View(98)), Answer::Number(1098)),
    (Call::Key(Keyed::View(99)), Answer::Absent),
    (Call::Walk(Walk::AlterAll(1)), Answer::Done),
    (Call::Walk(Walk::Iter(1001)), Answer::Three(50, 2450, 50)),
    (Call::Walk(Walk::Retain(1, 0)), Answer::Three(50, 2450, 0)),
    (Call::IsEmpty, Answer::Flag(true)),
];

#[test]
fn each_pair_is_met_once(rt: HostRuntime) -> Result<(), Fail> {
    check(rt, rt.alloc(), 8, MET_ONCE)
}

const LENT: &[Row] = &[
    (Call::Walk(Walk::Iter(0)), Answer::Three(0, 0, 0)),
    (Call::Walk(Walk::IterMut(1)), Answer::Number(0)),
    (Call::Many(Many::Insert(0, 100, 1000)), Answer::Number(100)),
    (Call::Walk(Walk::Iter(1000)), Answer::Three(100, 4950, 100)),
    (Call::Walk(Walk::IterMut(1)), Answer::Number(100)),
    (Call::Walk(Walk::Iter(1001)), Answer::Three(100, 4950, 100)),
    (Call::Many(Many::Remove(0, 100, 1001)), Answer::Number(100)),
    (Call::IsEmpty, Answer::Flag(true)),
];

#[test]
fn each_pair_is_lent_once(rt: HostRuntime) -> Result<(), Fail> {
    check(rt, rt.alloc(), 8, LENT)
}

const CLEARED: &[Row] = &[
    (Call::Many(Many::Insert(0, 100, 0)), Answer::Number(100)),
    (Call::HasRoom(100), Answer::Flag(true)),
    (Call::Walk(Walk::Clear), Answer::Flag(true)),
    (Call::IsEmpty, Answer::Flag(true)),
    (Call::Key(Keyed::Insert(7, 7)), Answer::Absent),
    (Call::Len, Answer::Number(1)),
    (Call::Walk(Walk::Clear), Answer::Flag(true)),
    (Call::ShrinkToFit, Answer::Flag(true)),
    (Call::HasRoom(1), Answer::Flag(false)),
];

#[test]
fn a_map_is_cleared(rt: HostRuntime) -> Result<(), Fail> {
    check(rt, rt.alloc(), 8, CLEARED)
}
