//! The calls of plain shards that are measured, and how many of them had each answer.

ghost use Rattle.std.specs.Prelude.{◌≤◌};

mod bare;
pub mod clock;

pub use bare::{Bare, Deed, spread};
use dashmap_table::{MapFault, Shards};
use std::alloc::Allocator;
use std::hash::{BuildHasherDefault, FoldHasher};

/// What is done after the shards are filled.
#[derive(Clone, Copy, PartialEq, Eq)]
pub enum Call {
    /// Nothing more.
    Fill,
    /// A look for each key.
    Hit,
    /// A look for as many keys that aren't there.
    Miss,
    /// An insertion of each key that is there.
    Insert,
    /// A removal of each key.
    Remove,
    /// Each of these, in this order.
    All,
}

impl Call {
    /// The call that an argument names; `All` has no name.
    pub fn named(name: &str) -> Option<Call> {
        match name {
            "fill" => Some(Call::Fill),
            "hit" => Some(Call::Hit),
            "miss" => Some(Call::Miss),
            "insert" => Some(Call::Insert),
            "remove" => Some(Call::Remove),
            _ => None,
        }
    }

    fn has(self, other: Call) -> bool {
        self == Call::All || self == other
    }
}

/// How many calls had each answer.
#[derive(Drop)]
pub struct Sums {
    /// Keys that were put in.
    pub filled: u64,
    /// Keys that were found.
    pub hit: u64,
    /// Other keys that weren't.
    pub missed: u64,
    /// Keys whose value was replaced.
    pub inserted: u64,
    /// Keys that were taken out.
    pub removed: u64,
}

/// The run can't be made: no such amount of shards, or no memory.
#[derive(Debug, Drop)]
pub struct Fault;

type Map<A> = Shards<u64, u64, BuildHasherDefault<FoldHasher>, A>;

fn filled<A: Allocator + Clone>(alloc: A, keys: u64, shards: usize) -> Result<Map<A>, Fault> {
    let Ok(mut map) = Shards::new(alloc, shards, BuildHasherDefault::new()) else {
        return Err(Fault);
    };
    for key in 0..keys {
        if map.insert(key, key).is_err() {
            return Err(Fault);
        }
    }
    Ok(map)
}

/// For how many of the keys that begin at `from` the test holds.
fn found<A: Allocator>(map: &Map<A>, from: u64, keys: u64) -> u64
    ensures { result ≤ keys }
{
    let mut sum = 0;
    for key in 0..keys {
        if map.find(&key.wrapping_add(from)).is_some() {
            sum += 1;
        }
    }
    sum
}

/// Inserts the keys again, and counts those that were there.
fn replaced<A: Allocator + Clone>(map: &mut Map<A>, keys: u64) -> Result<u64, Fault> {
    let mut sum = 0u64;
    for key in 0..keys {
        match map.insert(key, keys) {
            Ok(Some(_)) => sum = sum.wrapping_add(1),
            Ok(None) => {}
            Err(_) => return Err(Fault),
        }
    }
    Ok(sum)
}

fn removed<A: Allocator>(map: &mut Map<A>, keys: u64) -> u64 {
    let mut sum = 0u64;
    for key in 0..keys {
        if map.remove(&key).is_some() {
            sum = sum.wrapping_add(1);
        }
    }
    sum
}

/// Fills so many shards with the keys 0, 1, .. and makes the call once for each key.
pub fn run<A: Allocator + Clone>(
    alloc: A,
    call: Call,
    keys: u64,
    shards: usize,
) -> Result<Sums, Fault> {
    let mut map = filled(alloc, keys, shards)?;
    let mut sums = Sums {
        filled: keys,
        hit: 0,
        missed: 0,
        inserted: 0,
        removed: 0,
    };
    if call.has(Call::Hit) {
        sums.hit = found(&map, 0, keys);
    }
    if call.has(Call::Miss) {
        sums.missed = keys - found(&map, keys, keys);
    }
    if call.has(Call::Insert) {
        sums.inserted = replaced(&mut map, keys)?;
    }
    if call.has(Call::Remove) {
        sums.removed = removed(&mut map, keys);
    }
    Ok(sums)
}
