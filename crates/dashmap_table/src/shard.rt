//! One shard of the map: a finite map from hash and key to a pair.
ghost use Rattle.std.specs.Prelude.{◌≡◌, ℕ, ◌+◌, ◌*◌, ◌<◌, ◌≤◌, ◌↔◌, ◌==◌, [], length, None, Some, IsTrue, IsSome};
ghost use Rattle.std.specs.Prelude.{max};
ghost use Rattle.std.specs.Prelude.{IfSome, IfNone, MatchOption, IfOk, IfErr, OnOk, OnErr};
ghost use Rattle.std.specs.Option.{option_map, option_copied_mut, is_some};
ghost use Rattle.std.specs.Borrow.{sem};
ghost use Rattle.dashmap_table.specs.Tags.Lanes.{HasLane};
ghost use Rattle.dashmap_table.specs.Slots.{at, count, slot_of, entry_with, pair_of, pairs_of, IsNextFull};
ghost use Rattle.dashmap_table.specs.Table.{IsSound, Adds, Frees, SamePairs, with_value, with_pair, grown_to};

use crate::entry::Entry;
use crate::pairs::ShardPairs;
use crate::tag_table::TagTable;
use crate::tags::Lanes;
use lock_api_raw::NoMemory;
use std::alloc::{Allocator, Global};
use std::hash::Hash;
use std::marker::Model;

/// Pairs, each with the hash of its key, in numbered slots. Among equal keys under one hash there is only ever one.
///
/// A contract sees the slots and the room (`Table`). The caller hashes: a shard takes the hash beside the key, keeps
/// it, and never calls a hasher, not even when it grows. So one map can hash a key once and find both the shard, by
/// [`route`](crate::route), and the pair.
///
/// **Memory.** An insertion of a new key may ask for memory, and so do `reserve` and `shrink`; nothing else does. A
/// slot takes a byte, the room of a hash, a key and a value, and 8 bytes more, and at most seven slots in eight are
/// full. While a shard grows or shrinks it has both tables.
///
/// ```rust
/// let mut shard = Shard::new(alloc);
/// shard.reserve(1)?;
/// let (slot, old) = shard.insert(7, "seven", 1u64)?;   // no old value
/// let found = shard.find(7, &"seven");                 // that slot
/// let pair = shard.remove(slot);                       // the pair
/// ```
#[derive(Drop)]
pub struct Shard<K: Eq + Hash, V, A: Allocator = Global> {
    table: TagTable<K, V, A>,
}

impl<K: Eq + Hash, V, A: Allocator> Model for Shard<K, V, A> {
    ghost use Rattle.dashmap_table.specs.Table.{Table};

    ghost Value = { Table K V };

    ghost view = { λ s. s.table };
}

impl<K: Eq + Hash, V, A: Allocator> Shard<K, V, A> {
    ghost use Rattle.dashmap_table.specs.ShardLending.{lends_slot, lends_slot_if};

    /// A shard without pairs, with room for none. It takes no memory.
    ///
    /// ```text
    /// let shard: Shard<&str, u64> = Shard::new(alloc);
    /// ```
    pub fn new(alloc: A) -> Shard<K, V, A>
        ensures slots { result.slots ≡ [] }
        ensures room { result.room ≡ 0 }
    {
        Shard {
            table: TagTable::new(alloc),
        }
    }

    /// The slot of the pair with this hash and an equal key.
    ///
    /// The slot is good for the calls that take one until the shard is changed by an insertion of a new key, `reserve`
    /// or `shrink`. A removal moves no other pair.
    ///
    /// ```text
    /// let slot = shard.find(7, &"seven");   // the hash, and the key
    /// ```
    #[inline(always)]
    pub fn find(&self, hash: u64, key: &K) -> Option<usize>
        ensures slot { result ≡ slot_of K.eq self.now.slots hash key.now }
        ensures equal { IfSome result
            (λ i. IfSome (at self.now.slots i) (λ e. (e.hash ≡ hash) × IsTrue (K.eq e.key key.now))) }
        ensures sound { IsSound K.eq self.now }
    {
        self.table.find(hash, key)
    }

    /// Puts a pair in, and answers its slot and the value that its key had.
    ///
    /// A present key keeps its slot and the stored key; the key that was handed in is let go. A new key takes a slot
    /// that is none of the other pairs': while there is room nothing moves and no memory is asked for. Where there is
    /// no room the shard has to grow, which may move pairs; where it can't, the pair comes back and nothing has
    /// changed.
    ///
    /// Equal keys have to come with equal hashes, or the shard keeps both.
    ///
    /// ```text
    /// if let Ok((slot, old)) = shard.insert(7, "seven", 1) { last = slot; }
    /// ```
    #[inline(always)]
    pub fn insert(&mut self, hash: u64, key: K, value: V) -> Result<(usize, Option<V>), (K, V)>
    where
        K: Drop,
        V: Drop,
        A: Clone,
        // A present key keeps its slot and its stored key, and gets the value. This is never refused.
        ensures present { IfSome (slot_of K.eq self.old.slots hash key)
            (λ i. (result ≡ Ok (i, option_map (λ e. e.value) (at self.old.slots i)))
            × (self.new ≡ with_value self.old i value)) }

        // An absent one gets a slot, unless there was no room and none is to be had.
        ensures added { IfNone (slot_of K.eq self.old.slots hash key)
            (IfOk result (λ r. (r.1 ≡ None) × Adds K.eq self.old self.new (entry_with hash key value) r.0)) }
        ensures refused { IfErr result
            (λ back. (back ≡ (key, value)) × (self.new ≡ self.old) × (self.old.room ≤ count self.old.slots)) }
        ensures sound { IsSound K.eq self.new }
    {
        self.table.insert(hash, key, value)
    }

    /// Puts a pair in whose key isn't there, and answers its slot. There has to be room, so it can't be refused and
    /// asks for no memory. Where `find` and `reserve` went before, an insertion looks through the shard no more than it
    /// has to.
    ///
    /// ```text
    /// shard.reserve(1)?;
    /// if shard.find(7, &"seven").is_none() { shard.add(7, "seven", 1); }
    /// ```
    #[inline(always)]
    pub fn add(&mut self, hash: u64, key: K, value: V) -> usize
    where
        K: Drop,
        V: Drop,
        requires absent { slot_of K.eq self.old.slots hash key ≡ None }
        requires room { count self.old.slots < self.old.room }
        ensures added { Adds K.eq self.old self.new (entry_with hash key value) result }
        ensures room { self.new.room ≤ self.old.room + 1 }
        ensures sound { IsSound K.eq self.new }
    {
        self.table.add(Entry { hash, key, value })
    }

    /// Takes the pair out of a slot and frees the slot; `None` where it is free. No other pair moves.
    ///
    /// ```text
    /// if let Some(slot) = shard.find(7, &"seven") { let pair = shard.remove(slot); }
    /// ```
    #[inline(always)]
    pub fn remove(&mut self, slot: usize) -> Option<(K, V)>
        ensures pair { result ≡ option_map pair_of (at self.old.slots slot) }
        ensures frees { Frees self.old self.new slot }
        ensures sound { IsSound K.eq self.new }
    {
        self.table.remove(slot)
    }

    /// Puts another key and value into a full slot and gives the old pair; `None` where the slot is free, and then what
    /// was handed in is let go. The new key has to be equal to the stored one.
    ///
    /// ```text
    /// if let Some(slot) = shard.find(7, &"seven") { let old = shard.replace(slot, "seven", 2); }
    /// ```
    pub fn replace(&mut self, slot: usize, key: K, value: V) -> Option<(K, V)>
    where
        K: Drop,
        V: Drop,
        requires { IfSome (at self.old.slots slot) (λ e. IsTrue (K.eq e.key key)) }
        ensures pair { result ≡ option_map pair_of (at self.old.slots slot) }
        ensures after { self.new ≡ with_pair self.old slot key value }
        ensures sound { IsSound K.eq self.new }
    {
        self.table.replace(slot, key, value)
    }

    /// Lends the pair of a full slot.
    ///
    /// ```text
    /// if let Some((key, count)) = shard.pair(0) { sum = sum.wrapping_add(*count); }
    /// ```
    #[inline(always)]
    pub fn pair(&self, slot: usize) -> Option<(&K, &V)>
        ensures { option_map (λ p. (p.0.now, p.1.now)) result ≡ option_map pair_of (at self.now.slots slot) }
    {
        self.table.pair(slot)
    }

    /// Lends the value of a full slot for writing, beside its key.
    ///
    /// Its contract says what is lent, and not what the shard is once the loan ends. A caller that has to know takes
    /// [`lend`] or [`value_mut`], which hand the write back.
    ///
    /// [`lend`]: Shard::lend
    /// [`value_mut`]: Shard::value_mut
    ///
    /// ```text
    /// if let Some((_, count)) = shard.pair_mut(0) { *count = 2; }
    /// ```
    pub fn pair_mut(&mut self, slot: usize) -> Option<(&K, &mut V)>
        ensures { option_map (λ p. (p.0.now, p.1.now)) result ≡ option_map pair_of (at self.old.slots slot) }
    {
        if self.is_full(slot) {
            Some(self.lend(slot))
        } else {
            None
        }
    }

    /// `pair_mut` for a slot that is known to be full. It is for the layer above, which keeps the slot of a pair while
    /// it holds the shard: afterwards the slot has the value that was written, and nothing else has changed.
    ///
    /// ```text
    /// if let Some(slot) = shard.find(7, &"seven") { *shard.lend(slot).1 = 2; }
    /// ```
    #[inline(always)]
    pub fn lend(&mut self, slot: usize) -> (&K, &mut V)
        requires { IsSome (at self.old.slots slot) }
        ensures* writes_back { sem 𝓛 (lends_slot K.row V.row A.row K.Hash A.Allocator self.entry slot result.1) }
        ensures pair { option_map pair_of (at self.old.slots slot) ≡ Some (result.0.now, result.1.now) }
    {
        self.table.lend(slot)
    }

    #[inline(always)]
    pub(crate) fn is_full(&self, slot: usize) -> bool
        ensures { result ≡ is_some (at self.now.slots slot) }
    {
        self.table.is_full(slot)
    }

    /// Lends the value of a full slot for writing.
    #[inline(always)]
    pub(crate) fn lend_value(&mut self, slot: usize) -> &mut V
        requires { IsSome (at self.old.slots slot) }
        ensures* writes_back { sem 𝓛 (lends_slot K.row V.row A.row K.Hash A.Allocator self.entry slot result) }
        ensures value { option_map (λ e. e.value) (at self.old.slots slot) ≡ Some result.now }
    {
        self.table.lend_value(slot)
    }

    /// Lends the value of a full slot for writing. Afterwards the slot has the value that was written, and nothing else
    /// has changed.
    ///
    /// ```text
    /// if let Some(count) = shard.value_mut(0) { *count = 2; }
    /// ```
    #[inline(always)]
    pub fn value_mut(&mut self, slot: usize) -> Option<&mut V>
        ensures* writes_back { sem 𝓛 (lends_slot_if K.row V.row A.row K.Hash A.Allocator self.entry slot result) }
        ensures value { option_copied_mut result ≡ option_map (λ e. e.value) (at self.old.slots slot) }
    {
        self.table.value_mut(slot)
    }

    /// The hash that is kept with the pair of a full slot.
    ///
    /// ```text
    /// let hash = shard.hash_of(0);
    /// ```
    #[inline(always)]
    pub fn hash_of(&self, slot: usize) -> Option<u64>
        ensures { result ≡ option_map (λ e. e.hash) (at self.now.slots slot) }
    {
        self.table.hash_of(slot)
    }

    /// The first full slot that isn't below `slot`.
    ///
    /// A walk begins at 0 and goes on behind the slot that it was given: so it meets each pair once, also where it
    /// removes pairs as it goes.
    ///
    /// ```text
    /// let first = shard.next_from(0);   // and behind it `next_from(first + 1)`
    /// ```
    pub fn next_from(&self, slot: usize) -> Option<usize>
        ensures { MatchOption result ((i : ℕ) → slot ≤ i → at self.now.slots i ≡ None)
            (IsNextFull self.now.slots slot) }
    {
        self.table.next_from(slot)
    }

    /// How many slots there are, full and free.
    ///
    /// ```text
    /// let slots = shard.slots();
    /// ```
    #[inline(always)]
    pub fn slots(&self) -> usize
        ensures { result ≡ length self.now.slots }
    {
        self.table.slots()
    }

    /// Which of the sixteen slots from one on are full.
    ///
    /// Where a walk removes nothing it may go from sixteen slots to the next sixteen, instead of asking for each by
    /// `next_from`.
    ///
    /// ```text
    /// if !shard.full_from(0).is_none() { println!(rt; "a pair in the first sixteen slots")?; }
    /// ```
    #[inline(always)]
    pub fn full_from(&self, slot: usize) -> Lanes
        requires { slot ≤ length self.now.slots }
        ensures { (k : ℕ) → HasLane result k ↔ ((k < 16) × IsSome (at self.now.slots (slot + k))) }
    {
        self.table.full_from(slot)
    }

    /// Makes room for so many more pairs than there are. As many insertions of new keys then take no memory and move no
    /// pair, unless the room is given up by `shrink` before. Where there is such room already nothing changes; else
    /// pairs may move, and there is room for at most four times the pairs that there are to be.
    ///
    /// ```text
    /// shard.reserve(100)?;
    /// ```
    pub fn reserve(&mut self, additional: usize) -> Result<(), NoMemory>
    where
        K: Drop,
        V: Drop,
        A: Clone,
        ensures ok { OnOk result (count self.new.slots + additional ≤ self.new.room) }
        ensures pairs { SamePairs K.eq self.old self.new }
        ensures room { self.old.room ≤ self.new.room }
        ensures most { self.new.room ≤ max self.old.room (4 * grown_to (count self.old.slots) additional) }
        ensures enough { count self.old.slots + additional ≤ self.old.room → (result ≡ Ok tt) × (self.new ≡ self.old) }
        ensures refused { OnErr result (self.new ≡ self.old) }
        ensures sound { IsSound K.eq self.new }
    {
        self.table.reserve(additional)
    }

    /// Gives up room that the pairs don't need: at most four times as much as there are pairs is left. Pairs may move.
    /// It asks for memory for the smaller shard first, but for none where there is no pair, nor where the pairs take up
    /// all the room.
    ///
    /// ```text
    /// shard.shrink()?;
    /// ```
    pub fn shrink(&mut self) -> Result<(), NoMemory>
    where
        K: Drop,
        V: Drop,
        A: Clone,
        ensures pairs { SamePairs K.eq self.old self.new }
        ensures tight { OnOk result (self.new.room ≤ 4 * count self.new.slots) }
        ensures room { self.new.room ≤ self.old.room }
        ensures empty { count self.old.slots ≡ 0 → result ≡ Ok tt }
        ensures tight_already { self.old.room ≤ count self.old.slots → (result ≡ Ok tt) × (self.new ≡ self.old) }
        ensures refused { OnErr result (self.new ≡ self.old) }
        ensures sound { IsSound K.eq self.new }
    {
        self.table.shrink()
    }

    /// How many pairs there are.
    ///
    /// ```text
    /// let pairs = shard.len();
    /// ```
    #[inline(always)]
    pub fn len(&self) -> usize
        ensures count { result ≡ count self.now.slots }
        ensures sound { IsSound K.eq self.now }
    {
        self.table.len()
    }

    /// Whether there are none.
    ///
    /// ```text
    /// let none = shard.is_empty();
    /// ```
    pub fn is_empty(&self) -> bool
        ensures { result ≡ (count self.now.slots == 0) }
    {
        self.len() == 0
    }

    /// For how many pairs there is room.
    ///
    /// ```text
    /// let room = shard.capacity();
    /// ```
    pub fn capacity(&self) -> usize
        ensures room { result ≡ self.now.room }
        ensures fits { count self.now.slots ≤ result }
    {
        self.table.capacity()
    }

    /// Gives the pairs one after another, in the order of their slots, which is open.
    ///
    /// ```text
    /// for (key, count) in shard.into_pairs() { sum = sum.wrapping_add(count); }
    /// ```
    pub fn into_pairs(self) -> ShardPairs<K, V, A>
        ensures { result ≡ pairs_of self.slots }
    {
        let Shard { table } = self;
        let left = table.len();
        ShardPairs::new(table.into_slots(), left)
    }
}
