//! Walks over all pairs.

use crate::calls::{Answer, Numbers};
use dashmap_iter::LendingWalks;
use dashmap_iter::walks::Walks;
use lock_api_raw::RawRwLock;
use std::alloc::Allocator;
use std::hash::BuildHasher;
use std::sync::Wait;

/// A walk over all pairs, by its name in the map.
#[derive(Clone, Copy)]
pub enum Walk {
    /// Adds to each value, and keeps the pairs whose key leaves this rest where it is divided by two.
    Retain(u64, u64),
    /// Keeps all pairs.
    RetainAll,
    /// Adds to each value.
    AlterAll(u64),
    /// Answers whether there is no more room than before.
    Clear,
    /// A walk that reads, and looks for values that are so much more than their keys.
    Iter(u64),
    /// A walk that writes: it adds to each value. It answers how many pairs it met.
    IterMut(u64),
}

/// Makes a walk.
pub fn make_walk<S: BuildHasher, Q: RawRwLock, A: Allocator + Clone>(
    map: &Numbers<S, Q, A>,
    call: Walk,
    me: &mut Q::Party,
) -> Answer
where
    Q::Runtime: Wait,
{
    match call {
        Walk::Retain(rest, more) => retain(map, rest, more, me),
        Walk::RetainAll => retain_all(map, me),
        Walk::AlterAll(by) => {
            map.alter_all(|_, value| value.wrapping_add(by), me);
            Answer::Done
        }
        Walk::Clear => {
            let room = map.capacity(me);
            map.clear(me);
            Answer::Flag(map.capacity(me) <= room)
        }
        Walk::Iter(more) => read_each(map, more, me),
        Walk::IterMut(by) => write_each(map, by, me),
    }
}

/// Adds to each value, and keeps the pairs whose key leaves a rest.
fn retain<S: BuildHasher, Q: RawRwLock, A: Allocator>(
    map: &Numbers<S, Q, A>,
    rest: u64,
    more: u64,
    me: &mut Q::Party,
) -> Answer
where
    Q::Runtime: Wait,
{
    let mut met = 0u64;
    let mut sum = 0u64;
    map.retain(
        |key, value| {
            met = met.wrapping_add(1);
            sum = sum.wrapping_add(*key);
            *value = value.wrapping_add(more);
            *key % 2 == rest
        },
        me,
    );
    Answer::Three(met, sum, 0)
}

/// Keeps all pairs.
fn retain_all<S: BuildHasher, Q: RawRwLock, A: Allocator>(
    map: &Numbers<S, Q, A>,
    me: &mut Q::Party,
) -> Answer
where
    Q::Runtime: Wait,
{
    let mut met = 0u64;
    map.retain(
        |_, _| {
            met = met.wrapping_add(1);
            true
        },
        me,
    );
    Answer::Number(met)
}

/// Reads each pair by a walk that lends it. Where one item is refused it answers how many were lent.
fn read_each<S: BuildHasher, Q: RawRwLock, A: Allocator + Clone>(
    map: &Numbers<S, Q, A>,
    more: u64,
    me: &mut Q::Party,
) -> Answer
where
    Q::Runtime: Wait,
{
    let (mut met, mut sum, mut right, mut refused) = (0u64, 0u64, 0u64, 0u64);
    let walk = {
        let me = &mut *me;
        map.iter(me)
    };
    for item in walk {
        match item {
            Ok(pair) => {
                let key = *pair.key();
                met = met.wrapping_add(1);
                sum = sum.wrapping_add(key);
                right = right.wrapping_add(u64::from(*pair == key.wrapping_add(more)));
            }
            Err(_) => refused = refused.wrapping_add(1),
        }
    }
    match refused {
        0 => Answer::Three(met, sum, right),
        1 => Answer::Refused(met),
        _ => Answer::Flag(false),
    }
}

/// How many pairs a walk that writes is asked for at most.
const MOST: u64 = 1000;

/// Adds to each value by a walk that lends it.
fn write_each<S: BuildHasher, Q: RawRwLock, A: Allocator + Clone>(
    map: &Numbers<S, Q, A>,
    by: u64,
    me: &mut Q::Party,
) -> Answer
where
    Q::Runtime: Wait,
{
    let mut walk = map.iter_mut(me);
    for met in 0..MOST {
        let Some(mut pair) = walk.next_mut() else {
            return Answer::Number(met);
        };
        *pair = pair.wrapping_add(by);
    }
    Answer::Number(MOST)
}
