//! Calls as data, and what they answer.

use crate::entries::{Place, enter};
use crate::keyed::{Keyed, call_key};
use crate::many::{Many, call_many};
use crate::operators::{Operator, operate};
use crate::tries::{Hold, Try, call_at_once, call_beside};
use crate::walks::{Walk, make_walk};
use dashmap_map::DashMap;
use lock_api_raw::RawRwLock;
use std::alloc::Allocator;
use std::hash::BuildHasher;
use std::sync::Wait;

/// A map of numbers, over any lock.
pub type Numbers<S, Q, A> = DashMap<u64, u64, S, Q, A>;

/// A call on a map of numbers.
#[derive(Clone, Copy)]
pub enum Call {
    /// A call on one key.
    Key(Keyed),
    /// What is done at the place of a key.
    Entry(u64, Place),
    /// A call by an operator.
    Operator(Operator),
    /// A call that doesn't wait.
    Try(Try),
    /// A call that doesn't wait, while something holds a shard.
    Beside(Hold, Try),
    /// Calls on many keys, one after another.
    Many(Many),
    /// A walk over all pairs.
    Walk(Walk),
    /// How many pairs there are.
    Len,
    /// Whether there is no pair.
    IsEmpty,
    /// Whether there is room for so many pairs.
    HasRoom(usize),
    /// Gives up the room that no pair needs.
    ShrinkToFit,
}

/// What a call answers.
#[derive(Clone, Copy, PartialEq, Eq, Debug)]
pub enum Answer {
    /// It is done.
    Done,
    /// There is no such pair.
    Absent,
    /// Another holds the shard.
    Locked,
    /// No memory for this key.
    Refused(u64),
    /// No memory for this pair, which comes back.
    Back(u64, u64),
    /// Whether something is so.
    Flag(bool),
    /// A key, a value or an amount.
    Number(u64),
    /// A key and its value.
    Pair(u64, u64),
    /// Three numbers. Of a walk: how many pairs it met, the sum of their keys, and how many had the value that was
    /// looked for.
    Three(u64, u64, u64),
}

impl Answer {
    /// A value that may be there.
    pub fn of_value(value: Option<u64>) -> Answer {
        match value {
            Some(value) => Answer::Number(value),
            None => Answer::Absent,
        }
    }

    /// A pair that may be there.
    pub fn of_pair(pair: Option<(u64, u64)>) -> Answer {
        match pair {
            Some((key, value)) => Answer::Pair(key, value),
            None => Answer::Absent,
        }
    }

    /// What an insertion answers.
    pub fn of_insertion(outcome: Result<Option<u64>, (u64, u64)>) -> Answer {
        match outcome {
            Ok(old) => Answer::of_value(old),
            Err((key, value)) => Answer::Back(key, value),
        }
    }
}

/// Makes a call.
pub fn make<S: BuildHasher, Q: RawRwLock, A: Allocator + Clone>(
    map: &Numbers<S, Q, A>,
    call: Call,
    me: &mut Q::Party,
) -> Answer
where
    Q::Runtime: Wait,
{
    match call {
        Call::Key(call) => call_key(map, call, me),
        Call::Entry(key, place) => enter(map, key, place, me),
        Call::Operator(call) => operate(map, call, me),
        Call::Try(call) => call_at_once(map, call),
        Call::Beside(hold, call) => call_beside(map, hold, call, me),
        Call::Many(calls) => Answer::Number(call_many(map, calls, me)),
        Call::Walk(call) => make_walk(map, call, me),
        Call::Len => Answer::Number(map.len(me) as u64),
        Call::IsEmpty => Answer::Flag(map.is_empty(me)),
        Call::HasRoom(pairs) => Answer::Flag(map.capacity(me) >= pairs),
        Call::ShrinkToFit => Answer::Flag(map.shrink_to_fit(me).is_ok()),
    }
}
