//! Items of a walk that writes.
ghost use Rattle.std.specs.Prelude.{◌≡◌, [], Some, IsSome};
ghost use Rattle.std.specs.Borrow.{Lends, sem};
ghost use Rattle.std.specs.Option.{option_map};
ghost use Rattle.dashmap_table.specs.Slots.{at};
ghost use Rattle.dashmap_iter.specs.Lending.{slots_held};
ghost use Rattle.dashmap_iter.specs.Writing.{pair_held, walk_written, if_full};
ghost use mir.Syntax.{named};

use crate::iter_mut::WritingWalk;
use crate::shards::{GivesShards, MapShards};
use dashmap_table::Shard;
use lock_api_guards::{Hold, Lender, LenderMut};
use lock_api_rw::{Exclusive, RawHold, RwLock};
use std::alloc::{Allocator, Global};
use std::fmt::Debug;
use std::hash::Hash;
use std::ops::{Deref, DerefMut};
use std::sync::Wait;
use std::{fmt, sync};

/// An item of a walk that writes: one pair of the shard that the walk holds. The walk lends it until its next call.
///
/// It is named [`RefMutMulti`].
pub struct MultiGuardMut<
    'w,
    K: Eq + Hash,
    V,
    A: Allocator,
    W: Lender<Part = Shard<K, V, A>> + Drop,
    H: Hold,
    L: GivesShards<W, H>,
>
where
    H::Runtime: Wait,
{
    pub(crate) walk: &'w mut WritingWalk<K, V, A, W, H, L>,
    pub(crate) slot: usize,
    ghost full: { IsSome (at (slots_held (λ g. W.part g.inner) walk.now.held) slot) },
}

/// An item of a walk over a map that writes. `'w` is the borrow of the walk.
///
/// ```text
/// let mut walk = map.iter_mut(&mut me);
/// while let Some(mut pair) = walk.next_mut() {
///     *pair = pair.wrapping_add(1);  // the value; `pair.key()` lends the key
/// }
/// ```
pub type RefMutMulti<'w, 'm, 'd, K, V, Q, A = Global> = MultiGuardMut<
    'w,
    K,
    V,
    A,
    sync::RwLockWriteGuard<'m, Shard<K, V, A>>,
    RawHold<&'m RwLock<Q, Shard<K, V, A>>, Exclusive>,
    MapShards<'m, 'd, K, V, Q, A>,
>;

impl<
    K: Eq + Hash,
    V,
    A: Allocator,
    W: Lender<Part = Shard<K, V, A>> + Drop,
    H: Hold,
    L: GivesShards<W, H>,
> Drop for MultiGuardMut<'_, K, V, A, W, H, L>
where
    H::Runtime: Wait,
{
    fn drop(self)
        ensures { self.exit.0.now ≡ self.entry.walk.now }
    {
        let MultiGuardMut { walk: _, slot: _ } = self;
    }
}

impl<
    K: Eq + Hash,
    V,
    A: Allocator,
    W: Lender<Part = Shard<K, V, A>> + Drop,
    H: Hold,
    L: GivesShards<W, H>,
> MultiGuardMut<'_, K, V, A, W, H, L>
where
    H::Runtime: Wait,
{
    /// The stored key and the value.
    ///
    /// ```text
    /// let (key, value) = item.pair();
    /// ```
    pub fn pair(&self) -> (&K, &V)
        ensures { pair_held (λ g. W.part g.inner) self.now.walk.now.held self.now.slot ≡ Some
            (result.0.now, result.1.now) }
    {
        self.walk.pair(self.slot)
    }

    /// The stored key.
    ///
    /// ```text
    /// if *item.key() == 7 { break; }
    /// ```
    pub fn key(&self) -> &K
        ensures { option_map (λ p. p.0) (pair_held (λ g. W.part g.inner) self.now.walk.now.held self.now.slot) ≡ Some
            result.now }
    {
        let (key, _value) = self.pair();
        key
    }

    /// The value.
    ///
    /// ```text
    /// sum = sum.wrapping_add(*item.value());
    /// ```
    pub fn value(&self) -> &V
        ensures { option_map (λ p. p.1) (pair_held (λ g. W.part g.inner) self.now.walk.now.held self.now.slot) ≡ Some
            result.now }
    {
        let (_key, value) = self.pair();
        value
    }
}

impl<
    K: Eq + Hash,
    V,
    A: Allocator,
    W: LenderMut<Part = Shard<K, V, A>> + Drop,
    H: Hold,
    L: GivesShards<W, H>,
> MultiGuardMut<'_, K, V, A, W, H, L>
where
    H::Runtime: Wait,
{
    ghost use Rattle.dashmap_iter.specs.contracts.multiple_mut.MultiGuardMut.{the_row};

    /// The value for writing, beside the stored key. What is left there is what the item lends from then on, and no
    /// other pair changes.
    ///
    /// ```text
    /// let (key, value) = item.pair_mut();
    /// *value = value.wrapping_add(*key);
    /// ```
    pub fn pair_mut(&mut self) -> (&K, &mut V)
        ensures* writes_back { sem 𝓛 (Lends (the_row (record { mir = named 1; lft = [] }) K.row V.row A.row W.row H.row L.row H.Lock.row
            H.Runtime.row H.Party.row H.Apart.row K.PartialEq (record { hash_input = K.hash_input }) A.Allocator
            W.Lender H.Hold L.GivesShards) V.row self.entry result.1
            (λ value. let walk = walk_written (λ g. W.part g.inner)
            (λ g table. record g { inner = W.with_part g.inner table }) self.old.walk.now self.old.slot value in
            if_full (at (slots_held (λ g. W.part g.inner) walk.held) self.old.slot)
            (λ full. record self.old { walk = record self.old.walk { now = walk }; full = full }) self.old)) }
        ensures pair { pair_held (λ g. W.part g.inner) self.old.walk.now.held self.old.slot ≡ Some
            (result.0.now, result.1.now) }
    {
        let slot = self.slot;
        let walk = &mut *self.walk;
        walk.lend(slot)
    }

    /// The value for writing.
    ///
    /// ```text
    /// while let Some(mut item) = walk.next_mut() { *item.value_mut() = 0; }
    /// ```
    pub fn value_mut(&mut self) -> &mut V
        ensures* writes_back { sem 𝓛 (Lends (the_row (record { mir = named 1; lft = [] }) K.row V.row A.row W.row H.row L.row H.Lock.row
            H.Runtime.row H.Party.row H.Apart.row K.PartialEq (record { hash_input = K.hash_input }) A.Allocator
            W.Lender H.Hold L.GivesShards) V.row self.entry result
            (λ value. let walk = walk_written (λ g. W.part g.inner)
            (λ g table. record g { inner = W.with_part g.inner table }) self.old.walk.now self.old.slot value in
            if_full (at (slots_held (λ g. W.part g.inner) walk.held) self.old.slot)
            (λ full. record self.old { walk = record self.old.walk { now = walk }; full = full }) self.old)) }
        ensures value { option_map (λ p. p.1) (pair_held (λ g. W.part g.inner) self.old.walk.now.held self.old.slot)
            ≡ Some result.now }
    {
        self.pair_mut().1
    }
}

impl<
    K: Eq + Hash,
    V,
    A: Allocator,
    W: Lender<Part = Shard<K, V, A>> + Drop,
    H: Hold,
    L: GivesShards<W, H>,
> Deref for MultiGuardMut<'_, K, V, A, W, H, L>
where
    H::Runtime: Wait,
{
    type Target = V;

    ghost deref_gives = { λ item value. option_map (λ p. p.1) (pair_held (λ g. W.part g.inner) item.walk.now.held item.slot) ≡ Some
        value };

    fn deref(&self) -> &V {
        self.value()
    }
}

impl<
    K: Eq + Hash,
    V,
    A: Allocator,
    W: LenderMut<Part = Shard<K, V, A>> + Drop,
    H: Hold,
    L: GivesShards<W, H>,
> DerefMut for MultiGuardMut<'_, K, V, A, W, H, L>
where
    H::Runtime: Wait,
{
    ghost use Rattle.dashmap_iter.specs.contracts.multiple_mut.MultiGuardMut.{the_row};

    ghost deref_mut_gives = { λ item value. option_map (λ p. p.1) (pair_held (λ g. W.part g.inner) item.walk.now.held item.slot) ≡ Some
        value };

    fn deref_mut(&mut self) -> &mut V
        ensures* writes_back { sem 𝓛 (Lends (the_row (record { mir = named 1; lft = [] }) K.row V.row A.row W.row H.row L.row H.Lock.row
            H.Runtime.row H.Party.row H.Apart.row K.PartialEq (record { hash_input = K.hash_input }) A.Allocator
            W.Lender H.Hold L.GivesShards) V.row self.entry result
            (λ value. let walk = walk_written (λ g. W.part g.inner)
            (λ g table. record g { inner = W.with_part g.inner table }) self.old.walk.now self.old.slot value in
            if_full (at (slots_held (λ g. W.part g.inner) walk.held) self.old.slot)
            (λ full. record self.old { walk = record self.old.walk { now = walk }; full = full }) self.old)) }
        ensures value { option_map (λ p. p.1) (pair_held (λ g. W.part g.inner) self.old.walk.now.held self.old.slot)
            ≡ Some result.now }
    {
        self.value_mut()
    }
}

impl<
    K: Eq + Hash + Debug,
    V: Debug,
    A: Allocator,
    W: Lender<Part = Shard<K, V, A>> + Drop,
    H: Hold,
    L: GivesShards<W, H>,
> Debug for MultiGuardMut<'_, K, V, A, W, H, L>
where
    H::Runtime: Wait,
{
    fn fmt<F: fmt::Write>(&self, f: &mut fmt::Formatter<F>) -> fmt::Result {
        f.debug_struct("RefMutMulti")
            .field("k", self.key())
            .field("v", self.value())
            .finish()
    }
}
