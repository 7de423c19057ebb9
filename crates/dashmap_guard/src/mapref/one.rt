//! Guards of one pair, as `get` and `get_mut` give them.
ghost use Rattle.std.specs.Prelude.{◌≡◌, None, Some, IsSome, IsTrue, IfSome, MatchOption};
ghost use Rattle.std.specs.Borrow.{Lends, sem};
ghost use Rattle.dashmap_table.specs.Slots.{at, slot_of};
ghost use Rattle.dashmap_table.specs.Table.{with_value};
ghost use Rattle.dashmap_guard.specs.Guarded.{pair_in, key_in, value_in};
ghost use Rattle.dashmap_guard.specs.contracts.mapref.one.PairGuard.{the_row};
ghost use Rattle.dashmap_guard.specs.contracts.mapref.one.Writes as writes;

pub use crate::mapref::mapped::{MappedRef, MappedRefMut};
use dashmap_table::Shard;
use lock_api_guards::{Guard, Hold, Lender, LenderMut};
use std::alloc::Allocator;
use std::fmt;
use std::fmt::Debug;
use std::hash::Hash;
use std::marker::{Model, PhantomData};
use std::ops::{Deref, DerefMut};
use std::sync::Wait;

/// A guard that only reads.
pub struct Reads {}

/// A guard that may write, too.
pub struct Writes {}

/// A guard of one pair: a hold of its shard, and its slot. It lends the pair, which is there as long as the guard
/// lives.
///
/// It is named [`Ref`] and [`RefMut`]. Its drop releases the shard and may wait for the lot's short sections.
pub struct PairGuard<
    K: Eq + Hash,
    V,
    A: Allocator,
    W: Lender<Part = Shard<K, V, A>> + Drop,
    H: Hold,
    D,
    M,
>
where
    H::Runtime: Wait,
{
    guard: Guard<W, H>,
    slot: usize,
    party: PhantomData<D>,
    kind: PhantomData<M>,
}

/// A guard of one pair that only reads it: a shared hold of its shard, or, after [`RefMut::downgrade`], an exclusive
/// one.
///
/// The pair stays the same until the guard is dropped.
///
/// ```rust
/// let guard = map.get(&"seven", &mut me).ok_or("gone")?;
/// assert!(*guard == 7);
/// ```
pub type Ref<K, V, A, W, H, D> = PairGuard<K, V, A, W, H, D, Reads>;

/// A guard of one pair that may write its value: an exclusive hold of its shard. What is written through it is what it
/// lends next.
///
/// ```rust
/// let mut guard = map.get_mut(&"seven", &mut me).ok_or("gone")?;
/// *guard = guard.wrapping_add(1);
/// ```
pub type RefMut<K, V, A, W, H, D> = PairGuard<K, V, A, W, H, D, Writes>;

impl<K: Eq + Hash, V, A: Allocator, W: Lender<Part = Shard<K, V, A>> + Drop, H: Hold, D, M> Model
    for PairGuard<K, V, A, W, H, D, M>
where
    H::Runtime: Wait,
{
    ghost use Rattle.std.specs.Prelude.{ℕ, IsSome};
    ghost use Rattle.lock_api_guards.specs.declared.guard.Guard.{Guard};
    ghost use Rattle.dashmap_table.specs.Slots.{at};

    ghost Value = { Guard W H H.Lock H.Runtime H.Party H.Apart × ℕ };

    ghost view = { λ s. (s.guard, s.slot) };

    ghost invariant = { λ s. IsSome (at (W.part s.guard.inner).slots s.slot) };
}

// By hand: where a derived drop ends the scope of a caller that dereferenced, the caller isn't covered.
impl<K: Eq + Hash, V, A: Allocator, W: Lender<Part = Shard<K, V, A>> + Drop, H: Hold, D, M> Drop
    for PairGuard<K, V, A, W, H, D, M>
where
    H::Runtime: Wait,
{
    #[inline(always)]
    fn drop(self) {
        let (guard, _slot) = self.into_parts();
        drop(guard);
    }
}

impl<
    K: Eq + Hash,
    V,
    A: Allocator,
    W: Lender<Part = Shard<K, V, A>> + Drop,
    H: Hold,
    D,
    M,
> PairGuard<K, V, A, W, H, D, M>
where
    H::Runtime: Wait,
{
    /// Keeps the guard of a shard and a full slot of it. For the layer above.
    #[inline(always)]
    pub fn of_slot(guard: Guard<W, H>, slot: usize) -> PairGuard<K, V, A, W, H, D, M>
        requires { IsSome (at (W.part guard.inner).slots slot) }
        ensures { result ≡ (guard, slot) }
    {
        PairGuard {
            guard,
            slot,
            party: PhantomData,
            kind: PhantomData,
        }
    }

    /// The guard of a key's pair in a shard that is held. Where the key isn't there, the shard is let go. For the layer
    /// above.
    #[inline(always)]
    pub fn find(guard: Guard<W, H>, hash: u64, key: &K) -> Option<PairGuard<K, V, A, W, H, D, M>>
        ensures place { MatchOption result (slot_of K.eq (W.part guard.inner).slots hash key.now ≡ None)
            (λ r. (r.0 ≡ guard) × (slot_of K.eq (W.part guard.inner).slots hash key.now ≡ Some r.1)) }
        ensures asked { IfSome result (λ r. IfSome (key_in (W.part r.0.inner) r.1) (λ k. IsTrue (K.eq k key.now))) }
    {
        match guard.look().find(hash, key) {
            Some(slot) => Some(PairGuard::of_slot(guard, slot)),
            None => None,
        }
    }

    /// The guard of the shard, and the slot.
    pub(crate) fn into_parts(self) -> (Guard<W, H>, usize)
        ensures { result ≡ self }
    {
        let PairGuard {
            guard,
            slot,
            party: _,
            kind: _,
        } = self;
        (guard, slot)
    }

    /// The stored key and the value, lent as long as the guard is borrowed.
    ///
    /// ```text
    /// if let Some(guard) = map.get(&7, &mut me) { let (key, value) = guard.pair(); }
    /// ```
    #[inline(always)]
    pub fn pair(&self) -> (&K, &V)
        ensures { pair_in (W.part self.now.0.inner) self.now.1 ≡ Some (result.0.now, result.1.now) }
    {
        match self.guard.look().pair(self.slot) {
            Some(pair) => pair,
            None => unreachable!(),
        }
    }

    /// The stored key: equal to the one that was asked for, and not always the same.
    ///
    /// ```text
    /// if let Some(guard) = map.get(&7, &mut me) { let stored = guard.key(); }
    /// ```
    pub fn key(&self) -> &K
        ensures { key_in (W.part self.now.0.inner) self.now.1 ≡ Some result.now }
    {
        let (key, _value) = self.pair();
        key
    }

    /// The value. `*guard` is the same.
    ///
    /// ```text
    /// let sum = guard.value().wrapping_add(*guard);   // twice the value
    /// ```
    pub fn value(&self) -> &V
        ensures { value_in (W.part self.now.0.inner) self.now.1 ≡ Some result.now }
    {
        let (_key, value) = self.pair();
        value
    }
}

impl<K: Eq + Hash, V, A: Allocator, W: Lender<Part = Shard<K, V, A>> + Drop, H: Hold, D> RefMut<
    K,
    V,
    A,
    W,
    H,
    D,
>
where
    H::Runtime: Wait,
{
    /// A guard that only reads. The shard stays held exclusively until it is dropped, so nobody reads beside it.
    ///
    /// ```text
    /// if let Some(guard) = map.get_mut(&7, &mut me) { let reader = guard.downgrade(); }
    /// ```
    pub fn downgrade(self) -> Ref<K, V, A, W, H, D>
        ensures { result ≡ self }
    {
        let (guard, slot) = self.into_parts();
        Ref::of_slot(guard, slot)
    }
}

impl<K: Eq + Hash, V, A: Allocator, W: LenderMut<Part = Shard<K, V, A>> + Drop, H: Hold, D> RefMut<
    K,
    V,
    A,
    W,
    H,
    D,
>
where
    H::Runtime: Wait,
{
    /// The value for writing, beside the stored key. What is left there is what the guard lends from then on.
    ///
    /// ```text
    /// let (key, value) = guard.pair_mut();
    /// *value = value.wrapping_add(*key);
    /// ```
    pub fn pair_mut(&mut self) -> (&K, &mut V)
        ensures* writes_back { sem 𝓛 (Lends (the_row K.row V.row A.row W.row H.row D.row writes.the_row H.Lock.row H.Runtime.row
            H.Party.row H.Apart.row K.PartialEq (record { hash_input = K.hash_input }) A.Allocator W.Lender H.Hold)
            V.row self.entry result.1
            (λ value. (
              record self.old.0
                  { inner = W.with_part self.old.0.inner (with_value (W.part self.old.0.inner) self.old.1 value) },
              self.old.1,
            ))) }
        ensures pair { pair_in (W.part self.old.0.inner) self.old.1 ≡ Some (result.0.now, result.1.now) }
    {
        self.guard.lend().lend(self.slot)
    }

    /// The value for writing. `*guard = value` writes it too.
    ///
    /// ```text
    /// let old = mem::replace(guard.value_mut(), 9);
    /// ```
    pub fn value_mut(&mut self) -> &mut V
        ensures* writes_back { sem 𝓛 (Lends (the_row K.row V.row A.row W.row H.row D.row writes.the_row H.Lock.row H.Runtime.row
            H.Party.row H.Apart.row K.PartialEq (record { hash_input = K.hash_input }) A.Allocator W.Lender H.Hold)
            V.row self.entry result
            (λ value. (
              record self.old.0
                  { inner = W.with_part self.old.0.inner (with_value (W.part self.old.0.inner) self.old.1 value) },
              self.old.1,
            ))) }
        ensures value { value_in (W.part self.old.0.inner) self.old.1 ≡ Some result.now }
    {
        self.pair_mut().1
    }
}

impl<K: Eq + Hash, V, A: Allocator, W: Lender<Part = Shard<K, V, A>> + Drop, H: Hold, D, M> Deref
    for PairGuard<K, V, A, W, H, D, M>
where
    H::Runtime: Wait,
{
    type Target = V;

    ghost deref_gives = { λ r value. value_in (W.part r.0.inner) r.1 ≡ Some value };

    fn deref(&self) -> &V {
        self.value()
    }
}

impl<K: Eq + Hash, V, A: Allocator, W: LenderMut<Part = Shard<K, V, A>> + Drop, H: Hold, D> DerefMut
    for RefMut<K, V, A, W, H, D>
where
    H::Runtime: Wait,
{
    ghost deref_mut_gives = { λ r value. value_in (W.part r.0.inner) r.1 ≡ Some value };

    fn deref_mut(&mut self) -> &mut V
        ensures* writes_back { sem 𝓛 (Lends (the_row K.row V.row A.row W.row H.row D.row writes.the_row H.Lock.row H.Runtime.row
            H.Party.row H.Apart.row K.PartialEq (record { hash_input = K.hash_input }) A.Allocator W.Lender H.Hold)
            V.row self.entry result
            (λ value. (
              record self.old.0
                  { inner = W.with_part self.old.0.inner (with_value (W.part self.old.0.inner) self.old.1 value) },
              self.old.1,
            ))) }
        ensures value { value_in (W.part self.old.0.inner) self.old.1 ≡ Some result.now }
    {
        self.value_mut()
    }
}

impl<K: Eq + Hash, V, A: Allocator, W: Lender<Part = Shard<K, V, A>> + Drop, H: Hold, D> Debug
    for Ref<K, V, A, W, H, D>
where
    K: Debug,
    V: Debug,
    H::Runtime: Wait,
{
    fn fmt<F: fmt::Write>(&self, f: &mut fmt::Formatter<F>) -> fmt::Result {
        f.debug_struct("Ref")
            .field("k", self.key())
            .field("v", self.value())
            .finish()
    }
}

impl<K: Eq + Hash, V, A: Allocator, W: Lender<Part = Shard<K, V, A>> + Drop, H: Hold, D> Debug
    for RefMut<K, V, A, W, H, D>
where
    K: Debug,
    V: Debug,
    H::Runtime: Wait,
{
    fn fmt<F: fmt::Write>(&self, f: &mut fmt::Formatter<F>) -> fmt::Result {
        f.debug_struct("RefMut")
            .field("k", self.key())
            .field("v", self.value())
            .finish()
    }
}
