//! Calls by operators.

use crate::calls::{Answer, Numbers};
use lock_api_raw::RawRwLock;
use std::alloc::Allocator;
use std::hash::BuildHasher;
use std::sync::Wait;

/// A call by an operator.
#[derive(Clone, Copy)]
pub enum Operator {
    /// `map << (key, value)` puts a pair in.
    Shl(u64, u64),
    /// `map >> key` lends a value to be read.
    Shr(u64),
    /// `map | key` lends a value, and this is written.
    BitOr(u64, u64),
    /// `map & key` tells whether the key is there.
    BitAnd(u64),
    /// `map - key` takes the pair out.
    Sub(u64),
}

/// Makes a call by an operator.
pub fn operate<S: BuildHasher, Q: RawRwLock, A: Allocator + Clone>(
    map: &Numbers<S, Q, A>,
    call: Operator,
    me: &mut Q::Party,
) -> Answer
where
    Q::Runtime: Wait,
{
    match call {
        Operator::Shl(key, value) => Answer::of_insertion(map << (key, value, me)),
        Operator::Shr(key) => match map >> (&key, me) {
            Some(guard) => Answer::Number(*guard),
            None => Answer::Absent,
        },
        Operator::BitOr(key, value) => match map | (&key, me) {
            Some(mut guard) => {
                *guard = value;
                Answer::Done
            }
            None => Answer::Absent,
        },
        Operator::BitAnd(key) => Answer::Flag(map & (&key, me)),
        Operator::Sub(key) => Answer::of_pair(map - (&key, me)),
    }
}
