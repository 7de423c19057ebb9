//! One shard: its room, its keys and its pairs.

use crate::calls::{Answer, Call, Hashes, Row, run};
use crate::words::{Word, spelled};
use dashmap_table::Shard;
use std::test::Fail;

const ROOM: &[Row] = &[
    (Call::HasRoomAtMost(0), Answer::Flag(true)),
    (Call::Len, Answer::Number(0)),
    (Call::Reserve(10), Answer::Flag(true)),
    (Call::HasRoom(10), Answer::Flag(true)),
    (Call::Len, Answer::Number(0)),
    (Call::Insert(7, 1, 2), Answer::Absent),
    (Call::Len, Answer::Number(1)),
    (Call::Remove(7, 1), Answer::Pair(1, 2)),
    (Call::Remove(7, 1), Answer::Absent),
    (Call::Shrink, Answer::Flag(true)),
    (Call::HasRoomAtMost(0), Answer::Flag(true)),
];

#[test]
fn room_comes_and_goes(rt: HostRuntime) -> Result<(), Fail> {
    run(&mut Shard::new(rt.alloc()), ROOM)
}

const TOO_MUCH: &[Row] = &[
    (Call::Reserve(usize::MAX), Answer::Flag(false)),
    (Call::Len, Answer::Number(1)),
    (Call::Find(7, 1), Answer::Number(2)),
];

const RESERVED: &[Row] = &[
    (Call::InsertEach(Hashes::Own, 2, 22), Answer::Number(20)),
    (Call::Len, Answer::Number(21)),
];

#[test]
fn room_stays_where_it_is_enough_or_refused(rt: HostRuntime) -> Result<(), Fail> {
    let mut shard = Shard::new(rt.alloc());
    let mut right = shard.is_empty() && shard.insert(7, 1, 2).is_ok() && !shard.is_empty();
    let capacity = shard.capacity();
    run(&mut shard, TOO_MUCH)?;
    right &= shard.capacity() == capacity && shard.reserve(21).is_ok();
    let capacity = shard.capacity();
    run(&mut shard, RESERVED)?;
    assert!(rt; right && shard.capacity() == capacity);
    Ok(())
}

const ADDED: &[Row] = &[
    (Call::Add(7, 1, 10), Answer::Done),
    (Call::Add(7, 2, 20), Answer::Done),
    (Call::Add(7, 1, 30), Answer::Absent),
    (Call::Len, Answer::Number(2)),
    (Call::Find(7, 1), Answer::Number(10)),
    (Call::Remove(7, 2), Answer::Pair(2, 20)),
    (Call::Remove(7, 1), Answer::Pair(1, 10)),
];

#[test]
fn a_key_that_is_known_to_be_absent_is_added(rt: HostRuntime) -> Result<(), Fail> {
    let mut shard = Shard::new(rt.alloc());
    shard.reserve(3)?;
    let capacity = shard.capacity();
    run(&mut shard, ADDED)?;
    assert!(rt; shard.capacity() == capacity);
    Ok(())
}

#[test]
fn full_slots_are_shown_together(rt: HostRuntime) {
    let mut shard = Shard::new(rt.alloc());
    let mut right = shard.slots() == 0 && shard.full_from(0).is_none();
    right &= shard.insert(7, 1u64, 2u64).is_ok() & (shard.slots() > 0);
    let full = shard.full_from(0);
    right &= full.first() == shard.next_from(0);
    match full.first() {
        Some(lane) => assert!(rt; right && full.without(lane).is_none()),
        None => assert!(rt; false),
    }
}

const OF_ONE_HASH: &[Row] = &[
    (
        Call::InsertEach(Hashes::One(0), 0, 200),
        Answer::Number(200),
    ),
    (
        Call::RemoveEach(Hashes::One(0), 0, 0, 200),
        Answer::Number(100),
    ),
    (Call::Len, Answer::Number(100)),
    (
        Call::FindEach(Hashes::One(0), 1, 0, 200),
        Answer::Number(100),
    ),
    (Call::FindEach(Hashes::One(0), 0, 0, 200), Answer::Number(0)),
    (Call::FindEach(Hashes::One(1), 0, 0, 200), Answer::Number(0)),
    (Call::FindEach(Hashes::One(1), 1, 0, 200), Answer::Number(0)),
];

#[test]
fn one_hash_keeps_all_keys_apart(rt: HostRuntime) -> Result<(), Fail> {
    run(&mut Shard::new(rt.alloc()), OF_ONE_HASH)
}

#[test]
fn new_keys_come_and_go(rt: HostRuntime) {
    let mut shard = Shard::new(rt.alloc());
    let mut right = true;
    for key in 0u64..10_000 {
        right &= match shard.insert(key, key, ()) {
            Ok((slot, _)) => shard.remove(slot).is_some(),
            Err(_) => false,
        };
        right &= shard.find(key, &key).is_none() & (shard.capacity() < 16);
    }
    assert!(rt; right && shard.is_empty());
}

/// Whether the slot has a key that was spelled so, and that value.
fn has(shard: &Shard<Word, u64>, slot: usize, shown: &[u8; 3], value: u64) -> bool {
    match shard.pair(slot) {
        Some((key, stored)) => key.shown == *shown && *stored == value,
        None => false,
    }
}

#[test]
fn a_stored_key_stays_until_it_is_replaced(rt: HostRuntime) -> Result<(), Fail> {
    let mut shard = Shard::new(rt.alloc());
    let (slot, _) = shard.insert(5, spelled(b"Key"), 1u64)?;
    let (again, old) = shard.insert(5, spelled(b"KEY"), 2)?;
    assert!(rt; again == slot && old == Some(1) && has(&shard, slot, b"Key", 2));
    Ok(())
}

#[test]
fn replacing_gives_the_old_pair(rt: HostRuntime) -> Result<(), Fail> {
    let mut shard = Shard::new(rt.alloc());
    shard.insert(5, spelled(b"Key"), 2u64)?;
    let upper = spelled(b"KEY");
    let slot = shard.find(5, &upper).ok_or("no pair")?;
    let (key, value) = shard.replace(slot, upper, 3).ok_or("no old pair")?;
    assert!(rt; key.shown == *b"Key" && value == 2);
    assert!(rt; has(&shard, slot, b"KEY", 3));
    Ok(())
}

#[test]
fn a_walk_may_remove_as_it_goes(rt: HostRuntime) -> Result<(), Fail> {
    let mut shard = Shard::new(rt.alloc());
    let mut right = true;
    for key in 0u64..8 {
        right &= shard.insert(key, key, ()).is_ok();
    }
    let mut seen = 0;
    let mut from = 0;
    for _ in 0..8 {
        let slot = shard.next_from(from).ok_or("a pair is left out")?;
        let (key, ()) = shard.remove(slot).ok_or("a free slot")?;
        seen |= 1u64 << (key % 8);
        from = slot + 1;
    }
    assert!(rt; right && seen == 255 && shard.next_from(0).is_none() && shard.is_empty());
    Ok(())
}

#[test]
fn slots_lend_their_pairs(rt: HostRuntime) -> Result<(), Fail> {
    let mut shard = Shard::new(rt.alloc());
    let (slot, _) = shard.insert(9, 1u64, 2u64)?;
    let mut right = shard.hash_of(slot) == Some(9);
    right &= shard.hash_of(slot + 1).is_none() & shard.pair_mut(slot + 1).is_none();
    let (key, value) = shard.pair_mut(slot).ok_or("no pair")?;
    right &= (*key == 1) & (*value == 2);
    *value = 3;
    let value = shard.value_mut(slot).ok_or("no value")?;
    right &= *value == 3;
    *value = 4;
    let (_, value) = shard.lend(slot);
    right &= *value == 4;
    *value = 5;
    assert!(rt; right && shard.remove(slot) == Some((1, 5)));
    Ok(())
}

const SHRUNK: &[Row] = &[
    (Call::InsertEach(Hashes::Own, 0, 40), Answer::Number(40)),
    (Call::RemoveEach(Hashes::Own, 0, 0, 39), Answer::Number(20)),
    (Call::RemoveEach(Hashes::Own, 1, 0, 39), Answer::Number(19)),
    (Call::Shrink, Answer::Flag(true)),
    (Call::Len, Answer::Number(1)),
    (Call::HasRoomAtMost(4), Answer::Flag(true)),
    (Call::Find(39, 39), Answer::Number(39)),
    (Call::Replace(39, 39, 40), Answer::Pair(39, 39)),
    (Call::Remove(39, 39), Answer::Pair(39, 40)),
];

#[test]
fn a_shard_that_shrinks_keeps_its_pairs(rt: HostRuntime) -> Result<(), Fail> {
    run(&mut Shard::new(rt.alloc()), SHRUNK)
}

#[test]
fn pairs_are_given_up_in_order(rt: HostRuntime) -> Result<(), Fail> {
    let mut shard = Shard::new(rt.alloc());
    let mut right = true;
    for key in 0u64..4 {
        right &= shard.insert(key, key, 10 + key).is_ok();
    }
    let slot = shard.find(1, &1).ok_or("no pair")?;
    right &= shard.remove(slot).is_some();
    let first = shard.next_from(0).ok_or("no pair")?;
    let hash = shard.hash_of(first).ok_or("a free slot")?;
    let mut pairs = shard.into_pairs();
    right &= pairs.size_hint() == (3, Some(3));
    let (key, value) = pairs.next().ok_or("no first pair")?;
    right &= (key == hash) & (value == 10 + hash % 4);
    assert!(rt; right && pairs.count() == 2);
    Ok(())
}
