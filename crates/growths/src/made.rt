//! How maps and sets are made, over a table of locks whose rows are counted.

use crate::memory::Memory;
use crate::rows::{On, Rows, Setup, keys, pairs};
use dashmap::set::DashSet;
use dashmap_calls::Numbers;
use dashmap_map::{DashMap, NewFault};
use dashmap_plain::from_par_iter;
use dashmap_table::{MapFault, SpreadState};
use refusing_heap::{Line, Seen, made};
use std::hash::RandomState;
use std::random::RandomSource;

/// How many rows a map or a set of one thread takes, and one that is asked for as many shards.
const TAKEN: usize = 4;

/// A constructor, by its name.
#[derive(Clone, Copy)]
pub enum Make {
    New,
    WithCapacity,
    WithShards,
    WithBoth,
    By,
    ByCapacity,
    ByShards,
    ByBoth,
    Default,
    Iter,
    ParIter,
}

type Map<S, T, A> = Numbers<S, <T as Rows>::Lock, A>;

type Set<S, T, A> = DashSet<u64, S, <T as Rows>::Lock, A>;

type Made<M> = Result<M, MapFault>;

/// Makes a map with its own hasher.
fn new_map<T: Rows, A: Memory>(
    alloc: A,
    table: T,
    make: Make,
) -> Result<Map<RandomState, T, A>, NewFault>
where
    T::Runtime: RandomSource,
{
    match make {
        Make::New => DashMap::new(alloc, 1, table),
        Make::WithCapacity => DashMap::with_capacity(alloc, 100, 1, table),
        Make::WithShards => DashMap::with_shard_amount(alloc, TAKEN, table),
        _ => DashMap::with_capacity_and_shard_amount(alloc, 100, TAKEN, table),
    }
}

/// Makes an empty map with this hasher.
fn map_by<T: Rows, A: Memory>(alloc: A, table: T, make: Make) -> Made<Map<SpreadState, T, A>> {
    let by = SpreadState;
    match make {
        Make::By => DashMap::with_hasher(alloc, by, 1, table),
        Make::ByCapacity => DashMap::with_capacity_and_hasher(alloc, 100, by, 1, table),
        Make::ByShards => DashMap::with_hasher_and_shard_amount(alloc, by, TAKEN, table),
        Make::ByBoth => {
            DashMap::with_capacity_and_hasher_and_shard_amount(alloc, 100, by, TAKEN, table)
        }
        _ => DashMap::default(alloc, by, 1, table),
    }
}

/// Makes a map of pairs.
fn map_of<T: Rows, R, A: Memory>(setup: &Setup<'_, T, R, A>, make: Make) -> Option<Seen> {
    let (alloc, table, by) = (setup.alloc, setup.table, SpreadState);
    let pairs = pairs(alloc)?;
    let before = setup.heap.asked();
    let map: Made<Map<SpreadState, T, A>> = match make {
        Make::Iter => DashMap::from_iter(alloc, pairs.into_iter(), by, 1, table),
        _ => from_par_iter(alloc, pairs, by, 1, table),
    };
    made(map, MapFault::NoMemory).seen(setup.heap, before, table.are_taken(TAKEN))
}

/// Makes a map. The rows that it took stay used, of a refused one too.
pub fn make_map<T: Rows, R, A: Memory>(setup: &Setup<'_, T, R, A>, make: Make) -> Option<Seen>
where
    T::Runtime: RandomSource,
{
    let (alloc, table) = (setup.alloc, setup.table);
    let before = setup.heap.asked();
    let said = match make {
        Make::New | Make::WithCapacity | Make::WithShards | Make::WithBoth => made(
            new_map::<T, A>(alloc, table, make),
            NewFault::Map(MapFault::NoMemory),
        ),
        Make::Iter | Make::ParIter => return map_of(setup, make),
        _ => made(map_by::<T, A>(alloc, table, make), MapFault::NoMemory),
    };
    said.seen(setup.heap, before, table.are_taken(TAKEN))
}

fn new_set<T: Rows, A: Memory>(
    alloc: A,
    table: T,
    make: Make,
) -> Result<Set<RandomState, T, A>, NewFault>
where
    T::Runtime: RandomSource,
{
    match make {
        Make::New => DashSet::new(alloc, 1, table),
        _ => DashSet::with_capacity(alloc, 100, 1, table),
    }
}

fn set_by<T: Rows, A: Memory>(alloc: A, table: T, make: Make) -> Made<Set<SpreadState, T, A>> {
    match make {
        Make::By => DashSet::with_hasher(alloc, SpreadState, 1, table),
        Make::ByCapacity => DashSet::with_capacity_and_hasher(alloc, 100, SpreadState, 1, table),
        _ => DashSet::default(alloc, SpreadState, 1, table),
    }
}

/// Makes a set of keys.
fn set_of<T: Rows, R, A: Memory>(setup: &Setup<'_, T, R, A>, make: Make) -> Option<Seen> {
    let (alloc, table, by) = (setup.alloc, setup.table, SpreadState);
    let keys = keys(alloc)?;
    let before = setup.heap.asked();
    let set: Made<Set<SpreadState, T, A>> = match make {
        Make::Iter => DashSet::from_iter(alloc, keys.into_iter(), by, 1, table),
        _ => DashSet::from_par_iter(alloc, keys, by, 1, table),
    };
    made(set, MapFault::NoMemory).seen(setup.heap, before, table.are_taken(TAKEN))
}

/// Makes a set, as a map is made.
pub fn make_set<T: Rows, R, A: Memory>(setup: &Setup<'_, T, R, A>, make: Make) -> Option<Seen>
where
    T::Runtime: RandomSource,
{
    let (alloc, table) = (setup.alloc, setup.table);
    let before = setup.heap.asked();
    let said = match make {
        Make::New | Make::WithCapacity => made(
            new_set::<T, A>(alloc, table, make),
            NewFault::Map(MapFault::NoMemory),
        ),
        Make::Iter | Make::ParIter => return set_of(setup, make),
        _ => made(set_by::<T, A>(alloc, table, make), MapFault::NoMemory),
    };
    said.seen(setup.heap, before, table.are_taken(TAKEN))
}

const ROWS: &str = "nothing is made; its rows of the table stay used";

const ALL: &str = "with_capacity_and_hasher_and_shard_amount";

pub const LINES: &[Line<On<'static>>] = &[
    ("new", On::Make(Make::New), ROWS),
    ("with_capacity", On::Make(Make::WithCapacity), ROWS),
    ("with_shard_amount", On::Make(Make::WithShards), ROWS),
    (
        "with_capacity_and_shard_amount",
        On::Make(Make::WithBoth),
        ROWS,
    ),
    ("with_hasher", On::Make(Make::By), ROWS),
    ("with_capacity_and_hasher", On::Make(Make::ByCapacity), ROWS),
    (
        "with_hasher_and_shard_amount",
        On::Make(Make::ByShards),
        ROWS,
    ),
    (ALL, On::Make(Make::ByBoth), ROWS),
    ("default", On::Make(Make::Default), ROWS),
    ("from_iter, of 20 pairs", On::Make(Make::Iter), ROWS),
    ("from_par_iter, of 20 pairs", On::Make(Make::ParIter), ROWS),
];

pub const OF_SETS: &[Line<On<'static>>] = &[
    ("new", On::MakeSet(Make::New), ROWS),
    ("with_capacity", On::MakeSet(Make::WithCapacity), ROWS),
    ("with_hasher", On::MakeSet(Make::By), ROWS),
    (
        "with_capacity_and_hasher",
        On::MakeSet(Make::ByCapacity),
        ROWS,
    ),
    ("default", On::MakeSet(Make::Default), ROWS),
    ("from_iter, of 20 keys", On::MakeSet(Make::Iter), ROWS),
    (
        "from_par_iter, of 20 keys",
        On::MakeSet(Make::ParIter),
        ROWS,
    ),
];
