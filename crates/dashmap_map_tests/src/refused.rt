//! A map's owner and a shrink on heaps of all small sizes, and what a map is refused for first.

use crate::tables::{Lock, Map, Word};
use dashmap_calls::{Answer, Call, Keyed, Many, call_many, make};
use dashmap_map::DashMap;
use dashmap_table::{MapFault, SpreadState};
use linked_list_allocator::LocalHeap;
use lock_api_raw::MakeLock;
use std::alloc::{AllocError, Allocator, Global};
use std::test::Fail;

/// A map with so much room in some memory.
fn small<T: Copy, Q: Lock + MakeLock<T>, A: Allocator + Clone>(
    table: T,
    alloc: A,
    capacity: usize,
    shards: usize,
) -> Result<Map<Q, A>, MapFault> {
    DashMap::with_capacity_and_hasher_and_shard_amount(alloc, capacity, SpreadState, shards, table)
}

/// Whether a call answers this.
fn answers<Q: Lock, A: Allocator + Clone>(
    map: &Map<Q, A>,
    call: Call,
    answer: Answer,
    me: &mut Q::Party,
) -> bool {
    make(map, call, me) == answer
}

/// Puts in as many of the keys up to a number, each with itself, as there is room for, and tells how many.
fn filled<Q: Lock, A: Allocator + Clone>(map: &Map<Q, A>, most: u64, me: &mut Q::Party) -> u64 {
    for key in 0..most {
        let call = Call::Key(Keyed::Insert(key, key));
        if !answers(map, call, Answer::Absent, me) {
            return key;
        }
    }
    most
}

/// Whether the keys below a number are there, each with itself, and no others.
fn has_all<Q: Lock, A: Allocator + Clone>(map: &Map<Q, A>, count: u64, me: &mut Q::Party) -> bool {
    call_many(map, Many::View(0, count, 0), me) == count
        && answers(map, Call::Len, Answer::Number(count), me)
}

/// What the owner of a map was told.
#[derive(Clone, Copy)]
struct Told {
    /// Whether there was room for twenty pairs where room was made, each pair stayed, and each that was refused came
    /// back and isn't there.
    right: bool,
    /// Whether room was made.
    reserved: bool,
    /// Whether an insertion was refused.
    refused: bool,
}

/// Puts in the keys from a number on up to below 20, as a map's owner. Answers whether one was refused, if each that was
/// came back and isn't there.
fn owner_puts<Q: Lock, A: Allocator + Clone>(
    map: &mut Map<Q, A>,
    from: u64,
    me: &mut Q::Party,
) -> Option<bool> {
    let mut refused = false;
    for key in from..20 {
        if let Err(back) = map.insert_mut(key, 7) {
            let look = Call::Key(Keyed::ContainsKey(key));
            if back != (key, 7) || !answers(map, look, Answer::Flag(false), me) {
                return None;
            }
            refused = true;
        }
    }
    Some(refused)
}

/// Makes room in an empty map, and puts pairs in, as its owner.
fn told_to_owner<Q: Lock, A: Allocator + Clone>(map: &mut Map<Q, A>, me: &mut Q::Party) -> Told {
    let count = filled(map, 3, me);
    let reserved = map.try_reserve(10).is_ok();
    let mut right = !reserved || answers(map, Call::HasRoom(20), Answer::Flag(true), me);
    right &= has_all(map, count, me);
    let put = owner_puts(map, count, me);
    right &= put.is_some() && (count == 0 || map.insert_mut(0, 9) == Ok(Some(0)));
    Told {
        right,
        reserved,
        refused: put == Some(true),
    }
}

/// The same of a new map, if there is one.
fn told_to_new<T: Copy, Q: Lock + MakeLock<T>, A: Allocator + Clone>(
    table: T,
    alloc: A,
    me: &mut Q::Party,
) -> Option<Told> {
    let made: Result<Map<Q, A>, MapFault> = small(table, alloc, 0, 2);
    match made {
        Ok(mut map) => Some(told_to_owner(&mut map, me)),
        Err(_) => None,
    }
}

#[test]
fn the_owner_is_refused_alike(rt: HostRuntime) -> Result<(), Fail> {
    let (mut refused, mut unreserved, mut reserved) = (false, false, false);
    for size in 0..60 {
        let heap = LocalHeap::new(rt.alloc(), size * 64)?;
        if let Some(told) = told_to_new::<_, Word, _>(rt, &heap, &mut 1) {
            refused |= told.refused;
            reserved |= told.reserved;
            unreserved |= !told.reserved;
            assert!(rt; told.right, "of {size}");
        }
    }
    assert!(rt; refused && unreserved && reserved);
    Ok(())
}

/// As many small blocks as are asked for, or as a heap still has.
fn filling<A: Allocator + Copy + Drop>(
    alloc: Global,
    heap: A,
    most: u64,
) -> Result<Vec<Vec<u8, A>>, AllocError> {
    let mut blocks = Vec::new(alloc);
    for _ in 0..most {
        match Vec::with_capacity(heap, 16) {
            Ok(block) => blocks.push(block)?,
            Err(_) => break,
        }
    }
    Ok(blocks)
}

/// Shrinks a map beside so many small blocks, and tells whether that was done.
fn shrinks<Q: Lock, A: Allocator + Copy + Drop>(
    map: &Map<Q, A>,
    heap: A,
    alloc: Global,
    most: u64,
    me: &mut Q::Party,
) -> Result<bool, AllocError> {
    let blocks = filling(alloc, heap, most)?;
    let is_done = answers(map, Call::ShrinkToFit, Answer::Flag(true), me);
    drop(blocks);
    Ok(is_done)
}

/// Fills an empty map, takes out all keys but two, and shrinks it. Answers whether that was done, if it has these two
/// then, and no more room than before.
fn shrinks_to_two<Q: Lock, A: Allocator + Copy + Drop>(
    map: &Map<Q, A>,
    heap: A,
    alloc: Global,
    most: u64,
    me: &mut Q::Party,
) -> Result<Option<bool>, AllocError> {
    let count = filled(map, 24, me);
    let gone = call_many(map, Many::Remove(2, count, 0), me);
    let room = map.capacity(me);
    let is_done = shrinks(map, heap, alloc, most, me)?;
    let right = gone == count.saturating_sub(2) && map.capacity(me) <= room;
    Ok((right && has_all(map, count.min(2), me)).then_some(is_done))
}

/// The same of a new map, if there is one.
fn new_shrinks<T: Copy, Q: Lock + MakeLock<T>, A: Allocator + Copy + Drop>(
    table: T,
    heap: A,
    alloc: Global,
    most: u64,
    me: &mut Q::Party,
) -> Result<Option<Option<bool>>, AllocError> {
    let made: Result<Map<Q, A>, MapFault> = small(table, heap, 0, 2);
    match made {
        Ok(map) => Ok(Some(shrinks_to_two(&map, heap, alloc, most, me)?)),
        Err(_) => Ok(None),
    }
}

#[test]
fn a_refused_shrink_keeps_the_pairs(rt: HostRuntime) -> Result<(), Fail> {
    let (mut refused, mut done) = (false, false);
    for size in 8..80 {
        let heap = LocalHeap::new(rt.alloc(), size * 64)?;
        let most = if size % 2 == 0 { 400 } else { 0 };
        let shrunk = new_shrinks::<_, Word, _>(rt, &heap, rt.alloc(), most, &mut 1)?;
        done |= shrunk == Some(Some(true));
        refused |= shrunk == Some(Some(false));
        assert!(rt; shrunk != Some(None), "of {size}");
    }
    assert!(rt; refused && done);
    Ok(())
}

/// What a map in some memory is refused as.
fn fault_of<T: Copy, Q: Lock + MakeLock<T>, A: Allocator + Clone>(
    table: T,
    alloc: A,
    capacity: usize,
    shards: usize,
) -> Option<MapFault> {
    let made: Result<Map<Q, A>, MapFault> = small(table, alloc, capacity, shards);
    made.err()
}

/// What a map for so many threads is refused as.
fn default_fault_of<T: Copy, Q: Lock + MakeLock<T>>(
    table: T,
    alloc: Global,
    parallelism: usize,
) -> Option<MapFault> {
    let made: Result<Map<Q, Global>, MapFault> = DashMap::with_hasher(
        alloc,
        SpreadState,
        parallelism,
        table,
    );
    made.err()
}

#[test]
fn a_map_is_refused_for_its_amount_first(rt: HostRuntime) -> Result<(), Fail> {
    let heap = LocalHeap::new(rt.alloc(), 0)?;
    for (capacity, shards, fault) in [
        (usize::MAX, 3, MapFault::BadShards),
        (usize::MAX, 4, MapFault::CapacityOverflow),
        (0, 2, MapFault::NoMemory),
    ] {
        let told = fault_of::<_, Word, _>(rt, &heap, capacity, shards);
        assert!(rt; told == Some(fault), "of {shards}");
    }
    let told = default_fault_of::<_, Word>(rt, rt.alloc(), 16_385);
    assert!(rt; told == Some(MapFault::BadShards));
    Ok(())
}
