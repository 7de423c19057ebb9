//! A table of calls by operators.

use crate::tables::{Row, check};
use dashmap_calls::{Answer, Call, Operator};
use std::test::Fail;

const OPERATORS: &[Row] = &[
    (Call::Operator(Operator::Shr(7)), Answer::Absent),
    (Call::Operator(Operator::BitOr(7, 1)), Answer::Absent),
    (Call::Operator(Operator::Shl(7, 5)), Answer::Absent),
    (Call::Operator(Operator::Shl(7, 6)), Answer::Number(5)),
    (Call::Operator(Operator::BitAnd(7)), Answer::Flag(true)),
    (Call::Operator(Operator::BitAnd(8)), Answer::Flag(false)),
    (Call::Operator(Operator::BitOr(7, 9)), Answer::Done),
    (Call::Operator(Operator::Shr(7)), Answer::Number(9)),
    (Call::Operator(Operator::Sub(7)), Answer::Pair(7, 9)),
    (Call::Operator(Operator::Sub(7)), Answer::Absent),
];

#[test]
fn operators_are_calls(rt: HostRuntime) -> Result<(), Fail> {
    check(rt, rt.alloc(), 4, OPERATORS)
}
