//! Calls on many keys, one after another.

use crate::calls::{Answer, Numbers};
use crate::keyed::{Keyed, call_key};
use lock_api_raw::RawRwLock;
use std::alloc::Allocator;
use std::hash::BuildHasher;
use std::sync::Wait;

/// Calls on each key from the first number up to below the second. Each counts the answers that were as they are to be.
#[derive(Clone, Copy)]
pub enum Many {
    /// Puts in new keys, each with so much more than itself.
    Insert(u64, u64, u64),
    /// Looks at keys that have so much more than themselves.
    View(u64, u64, u64),
    /// Takes out keys that have so much more than themselves.
    Remove(u64, u64, u64),
    /// Looks for keys that aren't there.
    Miss(u64, u64),
    /// Puts in new keys, each with 0.
    Zero(u64, u64),
    /// Puts key 0 in, which has the number before the first, with each number in turn.
    Replace(u64, u64),
}

impl Many {
    /// The numbers that are gone through.
    fn range(self) -> (u64, u64) {
        match self {
            Many::Insert(from, to, _)
            | Many::View(from, to, _)
            | Many::Remove(from, to, _)
            | Many::Miss(from, to)
            | Many::Zero(from, to)
            | Many::Replace(from, to) => (from, to),
        }
    }

    /// The call on a number.
    fn call(self, number: u64) -> Keyed {
        match self {
            Many::Insert(_, _, more) => Keyed::Insert(number, number.wrapping_add(more)),
            Many::View(_, _, _) | Many::Miss(_, _) => Keyed::View(number),
            Many::Remove(_, _, _) => Keyed::Remove(number),
            Many::Zero(_, _) => Keyed::Insert(number, 0),
            Many::Replace(_, _) => Keyed::Insert(0, number),
        }
    }

    /// What the call on a number is to answer.
    fn answer(self, number: u64) -> Answer {
        match self {
            Many::Insert(_, _, _) | Many::Zero(_, _) | Many::Miss(_, _) => Answer::Absent,
            Many::View(_, _, more) => Answer::Number(number.wrapping_add(more)),
            Many::Remove(_, _, more) => Answer::Pair(number, number.wrapping_add(more)),
            Many::Replace(_, _) => Answer::Number(number.wrapping_sub(1)),
        }
    }
}

/// Makes the calls, and counts the answers that were as they are to be.
pub fn call_many<S: BuildHasher, Q: RawRwLock, A: Allocator + Clone>(
    map: &Numbers<S, Q, A>,
    calls: Many,
    me: &mut Q::Party,
) -> u64
where
    Q::Runtime: Wait,
{
    let mut count = 0u64;
    let (from, to) = calls.range();
    for number in from..to {
        if call_key(map, calls.call(number), me) == calls.answer(number) {
            count = count.wrapping_add(1);
        }
    }
    count
}
