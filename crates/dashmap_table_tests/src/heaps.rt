//! Each growth of a table refused in turn, by heaps of all small sizes.

use crate::calls::{Answer, Call, Hashes, Numbers, make};
use dashmap_calls::workload;
use dashmap_table::{MapFault, Shard, Shards};
use linked_list_allocator::LocalHeap;
use std::alloc::Global;
use std::hash::{BuildHasherDefault, FoldHasher};
use std::test::Fail;

type Fold = BuildHasherDefault<FoldHasher>;

/// A shard in a heap.
type Small<'h> = Numbers<&'h LocalHeap>;

/// A shard in that heap with as many pairs as it takes, up to a number, and how many it took.
fn packed(heap: &LocalHeap, most: u64) -> (Small<'_>, u64) {
    let mut shard = Shard::new(heap);
    for key in 0..most {
        if make(&mut shard, Call::Insert(key, key, key)) != Answer::Absent {
            return (shard, key);
        }
    }
    (shard, most)
}

/// Whether a call answers this.
fn answers(shard: &mut Small<'_>, call: Call, answer: Answer) -> bool {
    make(shard, call) == answer
}

/// Whether the keys below a number are there with themselves, and no others.
fn has_all(shard: &mut Small<'_>, count: u64) -> bool {
    let even = make(shard, Call::FindEach(Hashes::Own, 0, 0, count));
    let odd = make(shard, Call::FindEach(Hashes::Own, 1, 0, count));
    even == Answer::Number(count.div_ceil(2))
        && odd == Answer::Number(count / 2)
        && answers(shard, Call::Len, Answer::Number(count))
}

/// On a heap: how many of ten keys are taken, if a refused one comes back and changes nothing, and one that is there
/// needs no memory.
fn taken_of_ten(heap: &LocalHeap) -> Option<u64> {
    let (mut shard, count) = packed(heap, 10);
    let capacity = shard.capacity();
    let mut right = true;
    if count < 10 {
        let refused = Answer::Back(count, 7);
        right &= answers(&mut shard, Call::Insert(count, count, 7), refused);
        right &= shard.capacity() == capacity;
        right &= answers(&mut shard, Call::Find(count, count), Answer::Absent);
    }
    for key in 0..count {
        right &= answers(&mut shard, Call::Insert(key, key, 100), Answer::Number(key));
        right &= answers(&mut shard, Call::Insert(key, key, key), Answer::Number(100));
    }
    if right && has_all(&mut shard, count) {
        Some(count)
    } else {
        None
    }
}

#[test]
fn a_refused_insertion_hands_the_pair_back_and_a_present_key_needs_no_memory(
    rt: HostRuntime,
) -> Result<(), Fail> {
    let (mut refused, mut whole) = (false, false);
    for size in 0..40 {
        let heap = LocalHeap::new(rt.alloc(), size * 64)?;
        let taken = taken_of_ten(&heap);
        assert!(rt; taken.is_some(), "of {size}");
        refused |= taken < Some(10);
        whole |= taken == Some(10);
    }
    assert!(rt; refused && whole);
    Ok(())
}

/// On a heap: whether twelve pairs fill it, and whether a shard without spare room shrinks to its pairs.
fn is_full_and_shrinks(heap: &LocalHeap) -> (bool, bool) {
    let (mut shard, count) = packed(heap, 12);
    let is_shrunk = shard.shrink().is_ok() && shard.capacity() as u64 == count;
    (count < 12, is_shrunk && has_all(&mut shard, count))
}

#[test]
fn a_shard_without_spare_room_shrinks_without_memory(rt: HostRuntime) -> Result<(), Fail> {
    let mut full = false;
    for size in 2..40 {
        let heap = LocalHeap::new(rt.alloc(), size * 64)?;
        let (is_full, shrinks) = is_full_and_shrinks(&heap);
        full |= is_full;
        assert!(rt; shrinks || !is_full, "of {size}");
    }
    let heap = LocalHeap::new(rt.alloc(), 0)?;
    let mut shard: Small<'_> = Shard::new(&heap);
    assert!(rt; full && shard.shrink().is_ok() && shard.capacity() == 0);
    Ok(())
}

/// Plain shards in a heap.
type SmallShards<'h> = Shards<u64, u64, Fold, &'h LocalHeap>;

/// On shards: whether each of the first two has room for one more, or makes it.
fn have_room(map: &mut SmallShards<'_>) -> bool {
    for shard in 0..2 {
        if shard >= map.count() || map.reserve(shard).is_err() {
            return false;
        }
    }
    true
}

/// On shards: whether room that was had is had again, and is enough for a pair; `None` where none was had.
fn room_is_had_again(map: &mut SmallShards<'_>) -> Option<bool> {
    if !have_room(map) {
        return None;
    }
    let is_reserved = have_room(map);
    Some(is_reserved && map.insert(0u64, 0u64) == Ok(None))
}

/// On shards: how many of twelve keys are refused, if each comes back and isn't there.
fn refused_of_twelve(map: &mut SmallShards<'_>) -> Option<u64> {
    let mut refused = 0u64;
    for key in 1..13 {
        if let Err(back) = map.insert(key, 5u64) {
            if back != (key, 5) || map.find(&key).is_some() {
                return None;
            }
            refused = refused.wrapping_add(1);
        }
    }
    Some(refused)
}

#[test]
fn plain_shards_hand_the_pair_back_and_refuse_no_room_that_is_there(
    rt: HostRuntime,
) -> Result<(), Fail> {
    let (mut reserved, mut refused) = (false, false);
    for size in 4..80 {
        let heap = LocalHeap::new(rt.alloc(), size * 32)?;
        let Ok(mut map) = Shards::new(&heap, 2, Fold::new()) else {
            continue;
        };
        let again = room_is_had_again(&mut map);
        reserved |= again == Some(true);
        let back = refused_of_twelve(&mut map);
        refused |= back > Some(0);
        assert!(rt; again != Some(false) && back.is_some(), "of {size}");
    }
    assert!(rt; reserved && refused);
    Ok(())
}

/// What plain shards in a heap are refused as.
fn fault_of(heap: &LocalHeap, shards: usize) -> Option<MapFault> {
    let made: Result<SmallShards<'_>, MapFault> = Shards::new(heap, shards, Fold::new());
    made.err()
}

#[test]
fn shards_are_refused_for_their_amount_first(rt: HostRuntime) -> Result<(), Fail> {
    let heap = LocalHeap::new(rt.alloc(), 0)?;
    assert!(rt; fault_of(&heap, 3) == Some(MapFault::BadShards));
    assert!(rt; fault_of(&heap, 4) == Some(MapFault::NoMemory));
    Ok(())
}

/// Whether the small run finds what it put in.
fn runs(alloc: Global) -> Result<bool, Fail> {
    let sums = workload::run(alloc, workload::Call::All, 100, 2)?;
    let right = sums.filled == 100 && sums.hit == 100 && sums.missed == 100;
    Ok(right && sums.inserted == 100 && sums.removed == 100)
}

#[test]
fn the_small_run_finds_what_it_put_in(rt: HostRuntime) -> Result<(), Fail> {
    assert!(rt; runs(rt.alloc())?);
    Ok(())
}
