//! Calls that don't wait, beside what holds a shard meanwhile.

use crate::calls::{Answer, Numbers};
use dashmap_guard::TryResult;
use dashmap_iter::LendingWalks;
use lock_api_raw::RawRwLock;
use std::alloc::Allocator;
use std::hash::BuildHasher;
use std::sync::Wait;

/// A call that doesn't wait: `try_get`, `try_get_mut` or `try_entry`.
#[derive(Clone, Copy)]
pub enum Try {
    Get(u64),
    /// Writes this value by the guard, and answers the value that was there.
    GetMut(u64, u64),
    /// Answers the key.
    Entry(u64),
}

/// What holds a shard.
#[derive(Clone, Copy)]
pub enum Hold {
    /// A guard of a key that reads.
    Reader(u64),
    /// A guard of a key that writes.
    Writer(u64),
    /// A guard of a key that wrote this value and was let down to read.
    LetDown(u64, u64),
    /// The place of a key.
    Place(u64),
    /// The guard of a key that was put in with 0 where it wasn't there.
    Added(u64),
    /// The one item of a walk that reads, which has this value, once the walk is over.
    Item(u64),
    /// A walk that writes, after so many steps.
    Walk(u32),
}

/// Makes a call that doesn't wait.
pub fn call_at_once<S: BuildHasher, Q: RawRwLock, A: Allocator + Clone>(
    map: &Numbers<S, Q, A>,
    call: Try,
) -> Answer
where
    Q::Runtime: Wait,
{
    match call {
        Try::Get(key) => match map.try_get(&key) {
            TryResult::Present(guard) => Answer::Number(*guard),
            TryResult::Absent => Answer::Absent,
            TryResult::Locked => Answer::Locked,
        },
        Try::GetMut(key, value) => match map.try_get_mut(&key) {
            TryResult::Present(mut guard) => {
                let old = *guard;
                *guard = value;
                Answer::Number(old)
            }
            TryResult::Absent => Answer::Absent,
            TryResult::Locked => Answer::Locked,
        },
        Try::Entry(key) => match map.try_entry(key) {
            Ok(Some(entry)) => Answer::Number(entry.into_key()),
            Ok(None) => Answer::Locked,
            Err(key) => Answer::Refused(key),
        },
    }
}

/// Makes a call that doesn't wait while something holds a shard.
pub fn call_beside<S: BuildHasher, Q: RawRwLock, A: Allocator + Clone>(
    map: &Numbers<S, Q, A>,
    hold: Hold,
    call: Try,
    me: &mut Q::Party,
) -> Answer
where
    Q::Runtime: Wait,
{
    match hold {
        Hold::Reader(key) => match map.get(&key, me) {
            Some(_guard) => call_at_once(map, call),
            None => Answer::Absent,
        },
        Hold::Writer(key) => match map.get_mut(&key, me) {
            Some(_guard) => call_at_once(map, call),
            None => Answer::Absent,
        },
        Hold::Place(key) => match map.entry(key, me) {
            Ok(_entry) => call_at_once(map, call),
            Err(key) => Answer::Refused(key),
        },
        Hold::Added(key) => match map.entry(key, me) {
            Ok(entry) => {
                let _guard = entry.or_insert(0);
                call_at_once(map, call)
            }
            Err(key) => Answer::Refused(key),
        },
        Hold::LetDown(key, value) => call_beside_one_let_down(map, key, value, call, me),
        Hold::Item(value) => call_beside_item(map, value, call, me),
        Hold::Walk(steps) => call_beside_writing_walk(map, steps, call, me),
    }
}

/// Makes the call beside a guard that wrote a value and was let down. The guard has to lend what it wrote.
fn call_beside_one_let_down<S: BuildHasher, Q: RawRwLock, A: Allocator + Clone>(
    map: &Numbers<S, Q, A>,
    key: u64,
    value: u64,
    call: Try,
    me: &mut Q::Party,
) -> Answer
where
    Q::Runtime: Wait,
{
    let Some(mut guard) = map.get_mut(&key, me) else {
        return Answer::Absent;
    };
    *guard = value.wrapping_sub(1);
    let lent = guard.value_mut();
    *lent = lent.wrapping_add(1);
    let guard = guard.downgrade();
    let answer = call_at_once(map, call);
    if *guard == value {
        answer
    } else {
        Answer::Flag(false)
    }
}

/// Makes the call beside the one item of a walk that is over.
fn call_beside_item<S: BuildHasher, Q: RawRwLock, A: Allocator + Clone>(
    map: &Numbers<S, Q, A>,
    value: u64,
    call: Try,
    me: &mut Q::Party,
) -> Answer
where
    Q::Runtime: Wait,
{
    let mut walk = {
        let me = &mut *me;
        map.iter(me)
    };
    let Some(Ok(pair)) = walk.next() else {
        return Answer::Absent;
    };
    let is_over = walk.next().is_none();
    drop(walk);
    let answer = call_at_once(map, call);
    if is_over { answer } else { Answer::Flag(false) }
}

/// Makes the call beside a walk that writes, after so many steps.
fn call_beside_writing_walk<S: BuildHasher, Q: RawRwLock, A: Allocator + Clone>(
    map: &Numbers<S, Q, A>,
    steps: u32,
    call: Try,
    me: &mut Q::Party,
) -> Answer
where
    Q::Runtime: Wait,
{
    let mut walk = map.iter_mut(me);
    for _ in 0..steps {
        let _has_pair = walk.next_mut().is_some();
    }
    call_at_once(map, call)
}
