//! A table of tags: a byte for each slot, which are looked through sixteen at a time, and the slots beside them.
ghost use Rattle.std.specs.Prelude.{◌≡◌, ℕ, ◌+◌, ◌*◌, ◌%◌, ◌^◌, ◌<◌, ◌≤◌, ◌↔◌, [], None, Some, IsTrue, IsSome, IfSome};
ghost use Rattle.std.specs.Prelude.{IfNone, MatchOption, IfOk, IfErr, OnOk, OnErr, length, replicate, slice_index};
ghost use Rattle.std.specs.Prelude.{slice_set, ◌==◌, max};
ghost use Rattle.std.specs.Option.{option_map, option_copied_mut, is_some};
ghost use Rattle.std.specs.Borrow.{sem};
ghost use Rattle.dashmap_table.specs.Slots.{at, count, slot_of, entry_of, entry_with, pair_of, AreDistinct, IsNextFull};
ghost use Rattle.dashmap_table.specs.Table.{IsSound, Adds, Frees, SamePairs, with_value, with_pair, grown_to};
ghost use Rattle.dashmap_table.specs.Tags.Lanes.{HasLane};
ghost use Rattle.dashmap_table.specs.Tags.Way.{tag_of};
ghost use Rattle.dashmap_table.specs.Tagged.{no_entry, room_of};

use crate::entry::Entry;
use crate::probe::{find_or_place, find_slot, free_slot, freed_tag, full_slot_from};
use crate::slot::{lend_pair, lend_value, set_pair, set_value};
use crate::tags::{EMPTY, Lanes, Tags, Wanted, lanes_at, tag_of};
use lock_api_raw::NoMemory;
use std::alloc::Allocator;
use std::hash::Hash;
use std::marker::Model;

/// Tags and slots, seen as the slots and the room that there is. A slot is always empty, unless there is none at all,
/// so that each look-up ends.
#[derive(Drop)]
pub(crate) struct TagTable<K: Eq + Hash, V, A: Allocator> {
    tags: Tags<A>,
    slots: Vec<Option<Entry<K, V>>, A>,
    full: usize,
    left: usize,
}

impl<K: Eq + Hash, V, A: Allocator> Model for TagTable<K, V, A> {
    ghost use Rattle.dashmap_table.specs.Table.{Table};

    ghost Value = { Table K V };

    ghost use Rattle.std.specs.Prelude.{◌+◌};
    ghost use Rattle.dashmap_table.specs.Tagged.{IsTable};

    ghost view = { λ t. record { slots = t.slots.items; room = t.full + t.left } };

    ghost invariant = { λ t. IsTable K.eq t.tags t.slots.items t.full t.left };
}

/// A table with more pairs isn't made: its slots couldn't be numbered.
const MOST_PAIRS: usize = 1 << 56;

/// For how many pairs so many slots have room: one in eight stays empty, so that ways are short.
fn room_of(slots: usize) -> usize
    requires { 0 < slots }
    ensures { result ≡ room_of slots }
{
    slots - (slots / 8).max(1)
}

/// The fewest slots, a power of two from 4 on, that have room for so many pairs.
fn slots_for(pairs: usize) -> Option<usize>
    ensures room { IfSome result (λ slots. pairs ≤ room_of slots) }
    ensures some { IfSome result (λ slots. 4 ≤ slots) }
    ensures whole { IfSome result (λ slots. 16 ≤ slots → slots % 16 ≡ 0) }
    ensures tight { IfSome result (λ slots. 0 < pairs → slots ≤ 4 * pairs) }
{
    if pairs > MOST_PAIRS {
        return None;
    }
    let mut slots = 4;
    while room_of(slots) < pairs {
        slots *= 2;
    }
    Some(slots)
}

/// So many slots with nothing in them.
fn free_slots<K, V, A: Allocator>(
    alloc: A,
    count: usize,
) -> Result<Vec<Option<Entry<K, V>>, A>, NoMemory>
    ensures { IfOk result (λ v. v.items ≡ replicate count (no_entry K V)) }
{
    let mut slots = Vec::with_capacity(alloc, count)?;
    for _ in 0..count {
        slots.push_reserved(None);
    }
    Ok(slots)
}

/// Puts an entry into a slot, under its hash's tag, and answers whether nothing was put there before.
#[inline(always)]
fn fill<K: Drop, V: Drop, A: Allocator>(
    tags: &mut Tags<A>,
    slots: &mut Vec<Option<Entry<K, V>>, A>,
    slot: usize,
    entry: Entry<K, V>,
) -> bool
    requires tagged { slot < length tags.old }
    requires within { slot < length slots.old.items }
    ensures empty { result ≡ (slice_index tags.old slot == 255) }
    ensures tags { tags.new ≡ slice_set tags.old slot (tag_of entry.hash) }
    ensures low { tag_of entry.hash < 128 }
    ensures slots { slots.new.items ≡ slice_set slots.old.items slot (Some entry) }
{
    let is_empty = tags.as_slice()[slot] == EMPTY;
    tags.set(slot, tag_of(entry.hash));
    slots[slot] = Some(entry);
    is_empty
}

impl<K: Eq + Hash, V, A: Allocator> TagTable<K, V, A> {
    ghost use Rattle.dashmap_table.specs.Lending.{lends_tagged, lends_tagged_if};

    pub(crate) fn new(alloc: A) -> TagTable<K, V, A>
        ensures slots { result.slots ≡ [] }
        ensures room { result.room ≡ 0 }
    {
        TagTable {
            tags: Tags::none(),
            slots: Vec::new(alloc),
            full: 0,
            left: 0,
        }
    }

    /// A table without pairs that has so many slots and room for so many pairs.
    fn with_slots(alloc: A, slots: usize, room: usize) -> Result<TagTable<K, V, A>, NoMemory>
    where
        A: Clone,
        requires some { room < slots }
        requires whole { 16 ≤ slots → slots % 16 ≡ 0 }
        ensures slots { IfOk result (λ t. count t.slots ≡ 0) }
        ensures room { IfOk result (λ t. t.room ≡ room) }
    {
        let tags = Tags::empty(alloc.clone()?, slots)?;
        Ok(TagTable {
            tags,
            slots: free_slots(alloc, slots)?,
            full: 0,
            left: room,
        })
    }

    #[inline(always)]
    pub(crate) fn find(&self, hash: u64, key: &K) -> Option<usize>
        ensures slot { result ≡ slot_of K.eq self.now.slots hash key.now }
        ensures equal { IfSome result
            (λ i. IfSome (at self.now.slots i) (λ e. (e.hash ≡ hash) × IsTrue (K.eq e.key key.now))) }
        ensures sound { IsSound K.eq self.now }
    {
        find_slot(self.tags.as_slice(), self.slots.as_slice(), hash, key)
    }

    #[inline(always)]
    pub(crate) fn len(&self) -> usize
        ensures count { result ≡ count self.now.slots }
        ensures sound { IsSound K.eq self.now }
    {
        self.full
    }

    pub(crate) fn capacity(&self) -> usize
        ensures room { result ≡ self.now.room }
        ensures fits { count self.now.slots ≤ result }
    {
        self.full + self.left
    }

    #[inline(always)]
    pub(crate) fn pair(&self, slot: usize) -> Option<(&K, &V)>
        ensures { option_map (λ p. (p.0.now, p.1.now)) result ≡ option_map pair_of (at self.now.slots slot) }
    {
        match self.slots.get(slot) {
            Some(Some(entry)) => Some((&entry.key, &entry.value)),
            _ => None,
        }
    }

    #[inline(always)]
    pub(crate) fn is_full(&self, slot: usize) -> bool
        ensures { result ≡ is_some (at self.now.slots slot) }
    {
        matches!(self.slots.get(slot), Some(Some(_)))
    }

    #[inline(always)]
    pub(crate) fn hash_of(&self, slot: usize) -> Option<u64>
        ensures { result ≡ option_map (λ e. e.hash) (at self.now.slots slot) }
    {
        match self.slots.get(slot) {
            Some(Some(entry)) => Some(entry.hash),
            _ => None,
        }
    }

    pub(crate) fn next_from(&self, slot: usize) -> Option<usize>
        ensures { MatchOption result ((i : ℕ) → slot ≤ i → at self.now.slots i ≡ None)
            (IsNextFull self.now.slots slot) }
    {
        full_slot_from(self.tags.as_slice(), slot)
    }

    #[inline(always)]
    pub(crate) fn slots(&self) -> usize
        ensures { result ≡ length self.now.slots }
    {
        self.slots.len()
    }

    #[inline(always)]
    pub(crate) fn full_from(&self, slot: usize) -> Lanes
        requires { slot ≤ length self.now.slots }
        ensures { (k : ℕ) → HasLane result k ↔ ((k < 16) × IsSome (at self.now.slots (slot + k))) }
    {
        lanes_at(self.tags.as_slice(), slot, Wanted::Full)
    }

    #[inline(always)]
    pub(crate) fn remove(&mut self, slot: usize) -> Option<(K, V)>
        ensures pair { result ≡ option_map pair_of (at self.old.slots slot) }
        ensures frees { Frees self.old self.new slot }
        ensures sound { IsSound K.eq self.new }
    {
        let entry = self.slots.get_mut(slot)?.take()?;
        self.full -= 1;
        let tag = freed_tag(self.tags.as_slice(), slot);
        self.tags.set(slot, tag);
        self.left += (tag == EMPTY) as usize;
        let Entry {
            hash: _,
            key,
            value,
        } = entry;
        Some((key, value))
    }

    pub(crate) fn replace(&mut self, slot: usize, key: K, value: V) -> Option<(K, V)>
    where
        K: Drop,
        V: Drop,
        requires { IfSome (at self.old.slots slot) (λ e. IsTrue (K.eq e.key key)) }
        ensures pair { result ≡ option_map pair_of (at self.old.slots slot) }
        ensures after { self.new ≡ with_pair self.old slot key value }
        ensures sound { IsSound K.eq self.new }
    {
        if slot >= self.slots.len() {
            return None;
        }
        set_pair(&mut self.slots[slot], key, value)
    }

    /// Puts a value into a full slot and gives the one that was there.
    #[inline(always)]
    fn replace_value(&mut self, slot: usize, value: V) -> Option<V>
    where
        V: Drop,
        ensures value { result ≡ option_map (λ e. e.value) (at self.old.slots slot) }
        ensures after { self.new ≡ with_value self.old slot value }
        ensures sound { IsSound K.eq self.new }
    {
        if slot >= self.slots.len() {
            return None;
        }
        set_value(&mut self.slots[slot], value)
    }

    /// Puts an entry that isn't found into the first free slot on its way.
    #[inline(always)]
    pub(crate) fn add(&mut self, entry: Entry<K, V>) -> usize
    where
        K: Drop,
        V: Drop,
        requires absent { slot_of K.eq self.old.slots entry.hash entry.key ≡ None }
        requires room { count self.old.slots < self.old.room }
        ensures added { Adds K.eq self.old self.new entry result }
        ensures room { self.new.room ≤ self.old.room + 1 }
        ensures sound { IsSound K.eq self.new }
    {
        let slot = free_slot(self.tags.as_slice(), entry.hash);
        self.left -= fill(&mut self.tags, &mut self.slots, slot, entry) as usize;
        self.full += 1;
        slot
    }

    /// Lends the value of a full slot for writing, beside its key.
    #[inline(always)]
    pub(crate) fn lend(&mut self, slot: usize) -> (&K, &mut V)
        requires { IsSome (at self.old.slots slot) }
        ensures* writes_back { sem 𝓛 (lends_tagged K.row V.row A.row K.Hash A.Allocator self.entry slot result.1) }
        ensures pair { option_map pair_of (at self.old.slots slot) ≡ Some (result.0.now, result.1.now) }
    {
        lend_pair(&mut self.slots[slot])
    }

    #[inline(always)]
    pub(crate) fn lend_value(&mut self, slot: usize) -> &mut V
        requires { IsSome (at self.old.slots slot) }
        ensures* writes_back { sem 𝓛 (lends_tagged K.row V.row A.row K.Hash A.Allocator self.entry slot result) }
        ensures value { option_map (λ e. e.value) (at self.old.slots slot) ≡ Some result.now }
    {
        lend_value(&mut self.slots[slot])
    }

    #[inline(always)]
    pub(crate) fn value_mut(&mut self, slot: usize) -> Option<&mut V>
        ensures* writes_back { sem 𝓛 (lends_tagged_if K.row V.row A.row K.Hash A.Allocator self.entry slot result) }
        ensures value { option_copied_mut result ≡ option_map (λ e. e.value) (at self.old.slots slot) }
    {
        if self.is_full(slot) {
            Some(self.lend_value(slot))
        } else {
            None
        }
    }

    pub(crate) fn into_slots(self) -> Vec<Option<Entry<K, V>>, A>
        ensures { result.items ≡ self.slots }
    {
        let TagTable {
            tags: _,
            slots,
            full: _,
            left: _,
        } = self;
        slots
    }

    /// Promises room for no more than so many pairs.
    fn limit(&mut self, room: usize)
        requires fits { count self.old.slots ≤ room }
        requires less { room ≤ self.old.room }
        ensures slots { self.new.slots ≡ self.old.slots }
        ensures room { self.new.room ≡ room }
        ensures sound { IsSound K.eq self.new }
    {
        self.left = room - self.full;
    }

    /// Moves the pairs into a new table of so many slots with room for so many pairs.
    fn rebuild(&mut self, slots: usize, room: usize) -> Result<(), NoMemory>
    where
        K: Drop,
        V: Drop,
        A: Clone,
        requires fits { count self.old.slots ≤ room }
        requires some { room < slots }
        requires whole { 16 ≤ slots → slots % 16 ≡ 0 }
        ensures pairs { SamePairs K.eq self.old self.new }
        ensures room { OnOk result (self.new.room ≡ room) }
        ensures refused { OnErr result (self.new ≡ self.old) }
        ensures sound { IsSound K.eq self.new }
    {
        let mut table = TagTable::with_slots(self.slots.allocator().clone()?, slots, room)?;
        move_all(&mut self.slots, &mut table);
        table.limit(room);
        let TagTable {
            tags,
            slots,
            full,
            left,
        } = table;
        self.tags = tags;
        self.slots = slots;
        self.full = full;
        self.left = left;
        Ok(())
    }

    /// Makes room for more pairs than there is room for, and for half as many again as there are, so that a table that
    /// fills up is rebuilt seldom.
    fn grow(&mut self, additional: usize) -> Result<(), NoMemory>
    where
        K: Drop,
        V: Drop,
        A: Clone,
        requires { self.old.room < count self.old.slots + additional }
        ensures ok { OnOk result (count self.new.slots + additional ≤ self.new.room) }
        ensures pairs { SamePairs K.eq self.old self.new }
        ensures room { self.old.room ≤ self.new.room }
        ensures most { self.new.room ≤ max self.old.room (4 * grown_to (count self.old.slots) additional) }
        ensures refused { OnErr result (self.new ≡ self.old) }
        ensures sound { IsSound K.eq self.new }
    {
        let full = self.full;
        if additional > MOST_PAIRS {
            return Err(NoMemory);
        }
        let more = additional.max(full / 2 + 1);
        match slots_for(full + more) {
            Some(slots) => self.rebuild(slots, room_of(slots)),
            None => Err(NoMemory),
        }
    }

    pub(crate) fn reserve(&mut self, additional: usize) -> Result<(), NoMemory>
    where
        K: Drop,
        V: Drop,
        A: Clone,
        ensures ok { OnOk result (count self.new.slots + additional ≤ self.new.room) }
        ensures pairs { SamePairs K.eq self.old self.new }
        ensures room { self.old.room ≤ self.new.room }
        ensures most { self.new.room ≤ max self.old.room (4 * grown_to (count self.old.slots) additional) }
        ensures enough { count self.old.slots + additional ≤ self.old.room → (result ≡ Ok tt) × (self.new ≡ self.old) }
        ensures refused { OnErr result (self.new ≡ self.old) }
        ensures sound { IsSound K.eq self.new }
    {
        if additional <= self.left {
            return Ok(());
        }
        self.grow(additional)
    }

    /// `insert` where there is no room, so that the table has to grow for a new key.
    #[cold]
    #[inline(never)]
    fn insert_growing(&mut self, hash: u64, key: K, value: V) -> Result<(usize, Option<V>), (K, V)>
    where
        K: Drop,
        V: Drop,
        A: Clone,
        ensures present { IfSome (slot_of K.eq self.old.slots hash key)
            (λ i. (result ≡ Ok (i, option_map (λ e. e.value) (at self.old.slots i)))
            × (self.new ≡ with_value self.old i value)) }
        ensures added { IfNone (slot_of K.eq self.old.slots hash key)
            (IfOk result (λ r. (r.1 ≡ None) × Adds K.eq self.old self.new (entry_with hash key value) r.0)) }
        ensures refused { IfErr result
            (λ back. (back ≡ (key, value)) × (self.new ≡ self.old) × (self.old.room ≤ count self.old.slots)) }
        ensures sound { IsSound K.eq self.new }
    {
        if let Some(slot) = self.find(hash, &key) {
            let old = self.replace_value(slot, value);
            return Ok((slot, old));
        }
        match self.reserve(1) {
            Ok(()) => Ok((self.add(Entry { hash, key, value }), None)),
            Err(NoMemory) => Err((key, value)),
        }
    }

    #[inline(always)]
    pub(crate) fn insert(
        &mut self,
        hash: u64,
        key: K,
        value: V,
    ) -> Result<(usize, Option<V>), (K, V)>
    where
        K: Drop,
        V: Drop,
        A: Clone,
        ensures present { IfSome (slot_of K.eq self.old.slots hash key)
            (λ i. (result ≡ Ok (i, option_map (λ e. e.value) (at self.old.slots i)))
            × (self.new ≡ with_value self.old i value)) }
        ensures added { IfNone (slot_of K.eq self.old.slots hash key)
            (IfOk result (λ r. (r.1 ≡ None) × Adds K.eq self.old self.new (entry_with hash key value) r.0)) }
        ensures refused { IfErr result
            (λ back. (back ≡ (key, value)) × (self.new ≡ self.old) × (self.old.room ≤ count self.old.slots)) }
        ensures sound { IsSound K.eq self.new }
    {
        if self.left < 1 {
            return self.insert_growing(hash, key, value);
        }
        match find_or_place(self.tags.as_slice(), self.slots.as_slice(), hash, &key) {
            Ok(slot) => Ok((slot, self.replace_value(slot, value))),
            Err(slot) => {
                let entry = Entry { hash, key, value };
                self.left -= fill(&mut self.tags, &mut self.slots, slot, entry) as usize;
                self.full += 1;
                Ok((slot, None))
            }
        }
    }

    pub(crate) fn shrink(&mut self) -> Result<(), NoMemory>
    where
        K: Drop,
        V: Drop,
        A: Clone,
        ensures pairs { SamePairs K.eq self.old self.new }
        ensures tight { OnOk result (self.new.room ≤ 4 * count self.new.slots) }
        ensures room { self.new.room ≤ self.old.room }
        ensures empty { count self.old.slots ≡ 0 → result ≡ Ok tt }
        ensures tight_already { self.old.room ≤ count self.old.slots → (result ≡ Ok tt) × (self.new ≡ self.old) }
        ensures refused { OnErr result (self.new ≡ self.old) }
        ensures sound { IsSound K.eq self.new }
    {
        if self.left == 0 {
            return Ok(());
        }
        if self.full == 0 {
            self.tags = Tags::none();
            self.slots.clear();
            self.slots.shrink_to_fit();
            self.left = 0;
            return Ok(());
        }
        match slots_for(self.full) {
            Some(slots) if slots < self.slots.len() => {
                self.rebuild(slots, room_of(slots).min(self.full + self.left))
            }
            Some(_) => Ok(()),
            None => Err(NoMemory),
        }
    }
}

/// Moves the entries of some slots into a table that has none, and room for them.
fn move_all<K: Eq + Hash + Drop, V: Drop, A: Allocator>(
    slots: &mut [Option<Entry<K, V>>],
    table: &mut TagTable<K, V, A>,
)
    requires distinct { AreDistinct K.eq slots.old }
    requires empty { count table.old.slots ≡ 0 }
    requires room { count slots.old ≤ table.old.room }
    ensures found { (hash : ℕ) (key : K) → entry_of K.eq table.new.slots hash key ≡ entry_of K.eq slots.old hash key }
    ensures counted { count table.new.slots ≡ count slots.old }
    ensures room { table.old.room ≤ table.new.room }
{
    for i in 0..slots.len() {
        if let Some(entry) = slots[i].take() {
            table.add(entry);
        }
    }
}
