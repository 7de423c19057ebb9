//! What reads the tags and the slots of a table as two slices.
ghost use Rattle.std.specs.Prelude.{◌≡◌, ℕ, ◌+◌, ◌/◌, ◌^◌, ◌<◌, ◌≤◌, true, false, length, slice_index, None, Some};
ghost use Rattle.std.specs.Prelude.{IsSome, IfSome, IfNone, MatchOption, IfOk, IfErr, OnErr};
ghost use Rattle.dashmap_table.specs.Tags.Lanes.{HasLane};
ghost use Rattle.dashmap_table.specs.Slots.{at, holds, slot_of, AreDistinct};
ghost use Rattle.dashmap_table.specs.Tagged.{IsTagged, IsFree, IsEmpty, IsFullFrom, IsPlace, IsWhole, empties};

use crate::entry::Entry;
use crate::tags::{
    EMPTY, Lanes, REMOVED, WIDTH, Wanted, first_on_way, lanes_at, tag_of, whole_lanes_at,
    window_on_way, windows,
};

/// Whether a full slot has this hash and an equal key.
#[inline(always)]
fn is_held<K: Eq, V>(slot: &Option<Entry<K, V>>, hash: u64, key: &K) -> bool
    requires { IsSome slot.now }
    ensures { result ≡ holds K.eq hash key.now slot.now }
{
    match slot {
        Some(entry) => entry.hash == hash && entry.key == *key,
        None => unreachable!(),
    }
}

/// The first of some lanes of a window whose slot has the hash and an equal key.
#[inline(always)]
fn find_among<K: Eq, V>(
    slots: &[Option<Entry<K, V>>],
    lanes: Lanes,
    from: usize,
    hash: u64,
    key: &K,
) -> Option<usize>
    requires within { (k : ℕ) → HasLane lanes k → from + k < length slots.now }
    requires full { (k : ℕ) → HasLane lanes k → IsSome (at slots.now (from + k)) }
    ensures found { IfSome result (λ i. holds K.eq hash key.now (at slots.now i) ≡ true) }
    ensures absent { IfNone result
        ((k : ℕ) → HasLane lanes k → holds K.eq hash key.now (at slots.now (from + k)) ≡ false) }
{
    let mut left = lanes;
    while let Some(lane) = left.first() {
        let slot = from + lane;
        if is_held(&slots[slot], hash, key) {
            return Some(slot);
        }
        left = left.without(lane);
    }
    None
}

/// The slot of a hash and key, wherever it is on the way of the hash. Windows are looked through until one has an empty
/// slot.
#[cold]
#[inline(never)]
fn find_on_way<K: Eq, V>(
    tags: &[u8],
    slots: &[Option<Entry<K, V>>],
    hash: u64,
    key: &K,
) -> Option<usize>
    requires tagged { IsTagged tags.now slots.now }
    requires distinct { AreDistinct K.eq slots.now }
    requires small { length tags.now < 2 ^ 63 }
    ensures { result ≡ slot_of K.eq slots.now hash key.now }
{
    let count = windows(tags.len());
    for passed in 0..count {
        let from = WIDTH * window_on_way(hash, passed, count);
        let same = lanes_at(tags, from, Wanted::Tag(tag_of(hash)));
        if let Some(slot) = find_among(slots, same, from, hash, key) {
            return Some(slot);
        }
        if let Some(_) = lanes_at(tags, from, Wanted::Tag(EMPTY)).first() {
            return None;
        }
    }
    None
}

/// The slot of a hash and key. Mostly it is in the window that is looked through first, or that window has an empty
/// slot: so the others, and tables with fewer slots than a window, are looked through out of line.
#[inline(always)]
pub(crate) fn find_slot<K: Eq, V>(
    tags: &[u8],
    slots: &[Option<Entry<K, V>>],
    hash: u64,
    key: &K,
) -> Option<usize>
    requires tagged { IsTagged tags.now slots.now }
    requires distinct { AreDistinct K.eq slots.now }
    requires small { length tags.now < 2 ^ 63 }
    requires whole { IsWhole tags.now }
    ensures { result ≡ slot_of K.eq slots.now hash key.now }
{
    if tags.len() < WIDTH {
        return find_on_way(tags, slots, hash, key);
    }
    let from = first_on_way(hash, tags.len());
    let same = whole_lanes_at(tags, from, Wanted::Tag(tag_of(hash)));
    if let Some(slot) = find_among(slots, same, from, hash, key) {
        return Some(slot);
    }
    if let Some(_) = whole_lanes_at(tags, from, Wanted::Tag(EMPTY)).first() {
        return None;
    }
    find_on_way(tags, slots, hash, key)
}

/// The first slot on the way of a hash with nothing in it, wherever it is.
#[cold]
#[inline(never)]
fn free_on_way(tags: &[u8], hash: u64) -> usize
    requires some { 0 < empties tags.now }
    requires small { length tags.now < 2 ^ 63 }
    ensures { IsPlace tags.now hash result }
{
    let count = windows(tags.len());
    for passed in 0..count {
        let from = WIDTH * window_on_way(hash, passed, count);
        if let Some(lane) = lanes_at(tags, from, Wanted::Free).first() {
            return from + lane;
        }
    }
    unreachable!()
}

/// The first slot on the way of a hash with nothing in it. Mostly it is in the window that is looked through first.
#[inline(always)]
pub(crate) fn free_slot(tags: &[u8], hash: u64) -> usize
    requires some { 0 < empties tags.now }
    requires small { length tags.now < 2 ^ 63 }
    requires whole { IsWhole tags.now }
    ensures { IsPlace tags.now hash result }
{
    if tags.len() < WIDTH {
        return free_on_way(tags, hash);
    }
    let from = first_on_way(hash, tags.len());
    match whole_lanes_at(tags, from, Wanted::Free).first() {
        Some(lane) => from + lane,
        None => free_on_way(tags, hash),
    }
}

/// The slot of a hash and key, or where they may be put.
#[cold]
#[inline(never)]
fn find_or_place_on_way<K: Eq, V>(
    tags: &[u8],
    slots: &[Option<Entry<K, V>>],
    hash: u64,
    key: &K,
) -> Result<usize, usize>
    requires tagged { IsTagged tags.now slots.now }
    requires distinct { AreDistinct K.eq slots.now }
    requires some { 0 < empties tags.now }
    requires small { length tags.now < 2 ^ 63 }
    ensures held { IfOk result (λ i. slot_of K.eq slots.now hash key.now ≡ Some i) }
    ensures absent { OnErr result (slot_of K.eq slots.now hash key.now ≡ None) }
    ensures place { IfErr result (λ i. IsPlace tags.now hash i) }
{
    match find_on_way(tags, slots, hash, key) {
        Some(slot) => Ok(slot),
        None => Err(free_on_way(tags, hash)),
    }
}

/// The slot of a hash and key, or where they may be put: the window that is looked through first mostly tells both.
#[inline(always)]
pub(crate) fn find_or_place<K: Eq, V>(
    tags: &[u8],
    slots: &[Option<Entry<K, V>>],
    hash: u64,
    key: &K,
) -> Result<usize, usize>
    requires tagged { IsTagged tags.now slots.now }
    requires distinct { AreDistinct K.eq slots.now }
    requires some { 0 < empties tags.now }
    requires small { length tags.now < 2 ^ 63 }
    requires whole { IsWhole tags.now }
    ensures held { IfOk result (λ i. slot_of K.eq slots.now hash key.now ≡ Some i) }
    ensures absent { OnErr result (slot_of K.eq slots.now hash key.now ≡ None) }
    ensures place { IfErr result (λ i. IsPlace tags.now hash i) }
{
    if tags.len() < WIDTH {
        return find_or_place_on_way(tags, slots, hash, key);
    }
    let from = first_on_way(hash, tags.len());
    let same = whole_lanes_at(tags, from, Wanted::Tag(tag_of(hash)));
    if let Some(slot) = find_among(slots, same, from, hash, key) {
        return Ok(slot);
    }
    let ended = whole_lanes_at(tags, from, Wanted::Tag(EMPTY));
    let free = whole_lanes_at(tags, from, Wanted::Free);
    if let Some(_) = ended.first() {
        if let Some(lane) = free.first() {
            return Err(from + lane);
        }
    }
    find_or_place_on_way(tags, slots, hash, key)
}

/// `freed_tag` in a table with fewer slots than a window.
#[cold]
#[inline(never)]
fn freed_tag_of_few(tags: &[u8], slot: usize) -> u8
    requires { slot < length tags.now }
    ensures free { IsFree result }
    ensures ends { IsEmpty result → (l : ℕ) × (l < length tags.now) × (l / 16 ≡ slot / 16)
        × IsEmpty (slice_index tags.now l) }
{
    let from = slot / WIDTH * WIDTH;
    match lanes_at(tags, from, Wanted::Tag(EMPTY)).first() {
        Some(_) => EMPTY,
        None => REMOVED,
    }
}

/// The tag of a slot whose entry goes: it is empty again where its window has another empty slot, so that no way goes
/// on past it.
#[inline(always)]
pub(crate) fn freed_tag(tags: &[u8], slot: usize) -> u8
    requires within { slot < length tags.now }
    requires whole { IsWhole tags.now }
    ensures free { IsFree result }
    ensures ends { IsEmpty result → (l : ℕ) × (l < length tags.now) × (l / 16 ≡ slot / 16)
        × IsEmpty (slice_index tags.now l) }
{
    if tags.len() < WIDTH {
        return freed_tag_of_few(tags, slot);
    }
    let from = slot / WIDTH * WIDTH;
    match whole_lanes_at(tags, from, Wanted::Tag(EMPTY)).first() {
        Some(_) => EMPTY,
        None => REMOVED,
    }
}

/// The first full slot that isn't below a slot.
#[inline(always)]
pub(crate) fn full_slot_from(tags: &[u8], slot: usize) -> Option<usize>
    requires { length tags.now < 2 ^ 63 }
    ensures { MatchOption result ((i : ℕ) → slot ≤ i → i < length tags.now → IsFree (slice_index tags.now i))
        (IsFullFrom tags.now slot) }
{
    let mut from = slot;
    while from < tags.len() {
        if let Some(lane) = lanes_at(tags, from, Wanted::Full).first() {
            return Some(from + lane);
        }
        from += WIDTH;
    }
    None
}
