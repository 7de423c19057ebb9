//! A present key, at its pair.
ghost use Rattle.std.specs.Prelude.{◌≡◌, Some};
ghost use Rattle.std.specs.Borrow.{Lends, sem};
ghost use Rattle.dashmap_table.specs.Table.{Table, Frees, with_value, with_pair};
ghost use Rattle.dashmap_guard.specs.Guarded.{pair_in, key_in, value_in};
ghost use Rattle.dashmap_guard.specs.contracts.mapref.entry.occupied.OccupiedEntry.{the_row};

use crate::leaving::{LeavingEvidence, leave};
use crate::mapref::one::RefMut;
use dashmap_table::Shard;
use lock_api_guards::{Guard, Hold, Lender, LenderMut};
use std::alloc::Allocator;
use std::hash::Hash;
use std::marker::Model;
use std::mem;
use std::sync::Wait;

/// A present key, whose shard is held exclusively, with the key that was handed in. Its drop releases the shard.
///
/// What ends the hold, its drop or a call by value that answers no guard, waits for the lot's short sections at most.
/// While it lives, a call with other data of the same thread waits for ever where it wants the same shard.
pub struct OccupiedEntry<
    K: Eq + Hash,
    V,
    A: Allocator,
    W: Lender<Part = Shard<K, V, A>> + Drop,
    H: Hold,
    D,
>
where
    H::Runtime: Wait,
{
    pub(crate) of: RefMut<K, V, A, W, H, D>,
    pub(crate) key: K,
}

impl<K: Eq + Hash, V, A: Allocator, W: Lender<Part = Shard<K, V, A>> + Drop, H: Hold, D> Model
    for OccupiedEntry<K, V, A, W, H, D>
where
    H::Runtime: Wait,
{
    ghost use Rattle.std.specs.Prelude.{ℕ, IfSome, IsTrue};
    ghost use Rattle.lock_api_guards.specs.declared.guard.Guard.{Guard};
    ghost use Rattle.dashmap_guard.specs.Guarded.{key_in};

    ghost Value = { (Guard W H H.Lock H.Runtime H.Party H.Apart × ℕ) × K };

    ghost view = { λ s. (s.of, s.key) };

    ghost invariant = { λ s. IfSome (key_in (W.part s.of.0.inner) s.of.1) (λ stored. IsTrue (K.eq stored s.key)) };
}

impl<K: Eq + Hash, V, A: Allocator, W: Lender<Part = Shard<K, V, A>> + Drop, H: Hold, D> Drop
    for OccupiedEntry<K, V, A, W, H, D>
where
    K: Drop,
    H::Runtime: Wait,
{
    fn drop(self) {
        let OccupiedEntry { of, key } = self;
        drop(of);
        drop(key);
    }
}

impl<
    K: Eq + Hash,
    V,
    A: Allocator,
    W: Lender<Part = Shard<K, V, A>> + Drop,
    H: Hold,
    D,
> OccupiedEntry<K, V, A, W, H, D>
where
    H::Runtime: Wait,
{
    /// The stored key: equal to the one that was handed in, and not always the same.
    ///
    /// ```text
    /// Entry::Occupied(there) => print(rt, there.key())?,
    /// ```
    pub fn key(&self) -> &K
        ensures { key_in (W.part self.now.0.0.inner) self.now.0.1 ≡ Some result.now }
    {
        self.of.key()
    }

    /// The value. It stays the same as long as it is borrowed, since nobody else has the shard.
    ///
    /// ```text
    /// Entry::Occupied(there) => sum.wrapping_add(*there.get()),
    /// ```
    pub fn get(&self) -> &V
        ensures { value_in (W.part self.now.0.0.inner) self.now.0.1 ≡ Some result.now }
    {
        self.of.value()
    }

    /// An exclusive guard of the pair, under the same hold. The key that was handed in is let go.
    ///
    /// ```text
    /// Entry::Occupied(there) => there.into_ref(),
    /// ```
    pub fn into_ref(self) -> RefMut<K, V, A, W, H, D>
    where
        K: Drop,
        ensures { result ≡ self.0 }
    {
        let OccupiedEntry { of, key: _ } = self;
        of
    }

    /// Gives the key back that was handed in, and releases the shard. The pair stays.
    ///
    /// ```text
    /// Entry::Occupied(there) => doubles.push(there.into_key()),
    /// ```
    pub fn into_key(self) -> K
    where
        H: LeavingEvidence<Shard<K, V, A>>,
        ensures key { result ≡ self.1 }
        ensures left { H.left self.0.0.held.0 (W.part self.0.0.inner) }
    {
        let OccupiedEntry { of, key } = self;
        let (guard, _slot) = of.into_parts();
        leave(guard);
        key
    }
}

impl<
    K: Eq + Hash,
    V,
    A: Allocator,
    W: LenderMut<Part = Shard<K, V, A>> + Drop,
    H: Hold,
    D,
> OccupiedEntry<K, V, A, W, H, D>
where
    H::Runtime: Wait,
{
    /// The value for writing. What is left there is what the entry lends from then on.
    ///
    /// ```text
    /// let count = there.get_mut();
    /// *count = count.wrapping_add(1);
    /// ```
    pub fn get_mut(&mut self) -> &mut V
        ensures* writes_back { sem 𝓛 (Lends (the_row K.row V.row A.row W.row H.row D.row H.Lock.row H.Runtime.row H.Party.row
            H.Apart.row K.PartialEq (record { hash_input = K.hash_input }) A.Allocator W.Lender H.Hold) V.row self.entry
            result (λ value. (
              (
                record self.old.0.0
                    { inner = W.with_part self.old.0.0.inner (with_value (W.part self.old.0.0.inner) self.old.0.1 value) },
                self.old.0.1,
              ),
              self.old.1,
            ))) }
        ensures value { value_in (W.part self.old.0.0.inner) self.old.0.1 ≡ Some result.now }
    {
        self.of.value_mut()
    }

    /// Stores the value and answers the old one. The stored key stays. It takes no memory.
    ///
    /// ```text
    /// let old = there.insert(6);
    /// ```
    pub fn insert(&mut self, value: V) -> V
        ensures old { value_in (W.part self.old.0.0.inner) self.old.0.1 ≡ Some result }
        ensures new { self.new
            ≡ (
              (
                record self.old.0.0
                    { inner = W.with_part self.old.0.0.inner (with_value (W.part self.old.0.0.inner) self.old.0.1 value) },
                self.old.0.1,
              ),
              self.old.1,
            ) }
    {
        mem::replace(self.of.value_mut(), value)
    }

    /// Takes the pair out, and answers it with the guard of the shard.
    fn take(self) -> (Guard<W, H>, (K, V))
    where
        K: Drop,
        ensures pair { pair_in (W.part self.0.0.inner) self.0.1 ≡ Some result.1 }
        ensures frees { Frees (W.part self.0.0.inner) (W.part result.0.inner) self.0.1 }
        ensures held { result.0.held ≡ self.0.0.held }
    {
        let OccupiedEntry { of, key: _ } = self;
        let (mut guard, slot) = of.into_parts();
        match guard.inner.lend().remove(slot) {
            Some(pair) => (guard, pair),
            None => unreachable!(),
        }
    }

    /// Takes the stored pair out, and releases the shard, whose room stays.
    ///
    /// ```text
    /// Entry::Occupied(there) => Some(there.remove_entry()),   // the stored key and the value
    /// ```
    pub fn remove_entry(self) -> (K, V)
    where
        K: Drop,
        H: LeavingEvidence<Shard<K, V, A>>,
        ensures pair { pair_in (W.part self.0.0.inner) self.0.1 ≡ Some result }
        ensures left { (new : Table K V) × H.left self.0.0.held.0 new × Frees (W.part self.0.0.inner) new self.0.1 }
    {
        let (guard, pair) = self.take();
        leave(guard);
        pair
    }

    /// Takes the pair out, answers its value, and releases the shard, whose room stays.
    ///
    /// ```text
    /// if let Entry::Occupied(there) = map.entry(7, &mut me)? { sum = sum.wrapping_add(there.remove()); }
    /// ```
    pub fn remove(self) -> V
    where
        K: Drop,
        H: LeavingEvidence<Shard<K, V, A>>,
        ensures value { value_in (W.part self.0.0.inner) self.0.1 ≡ Some result }
        ensures left { (new : Table K V) × H.left self.0.0.held.0 new × Frees (W.part self.0.0.inner) new self.0.1 }
    {
        self.remove_entry().1
    }

    /// Stores the key that was handed in and the value, and answers the old pair with the guard of the shard.
    fn put(self, value: V) -> (Guard<W, H>, (K, V))
    where
        K: Drop,
        V: Drop,
        ensures pair { pair_in (W.part self.0.0.inner) self.0.1 ≡ Some result.1 }
        ensures after { W.part result.0.inner ≡ with_pair (W.part self.0.0.inner) self.0.1 self.1 value }
        ensures held { result.0.held ≡ self.0.0.held }
    {
        let OccupiedEntry { of, key } = self;
        let (mut guard, slot) = of.into_parts();
        match guard.inner.lend().replace(slot, key, value) {
            Some(pair) => (guard, pair),
            None => unreachable!(),
        }
    }

    /// Stores the key that was handed in and the value, gives the old pair, and releases the shard. It takes no memory.
    ///
    /// ```text
    /// let (key, value) = there.replace_entry(9);   // the key as it was stored before
    /// ```
    pub fn replace_entry(self, value: V) -> (K, V)
    where
        K: Drop,
        V: Drop,
        H: LeavingEvidence<Shard<K, V, A>>,
        ensures pair { pair_in (W.part self.0.0.inner) self.0.1 ≡ Some result }
        ensures left { H.left self.0.0.held.0 (with_pair (W.part self.0.0.inner) self.0.1 self.1 value) }
    {
        let (guard, pair) = self.put(value);
        leave(guard);
        pair
    }
}
