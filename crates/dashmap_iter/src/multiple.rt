//! Items of walks that lend.
ghost use Rattle.std.specs.Prelude.{◌≡◌, Some, IsSome};
ghost use Rattle.dashmap_table.specs.Slots.{at};
ghost use Rattle.dashmap_guard.specs.Guarded.{pair_in, key_in, value_in};

use crate::shared::SharedGuard;
use dashmap_table::Shard;
use lock_api_guards::{Hold, Lender};
use lock_api_raw::RawRwLock;
use lock_api_rw::{RawHold, RwLock, Shared};
use std::alloc::{Allocator, Global};
use std::hash::Hash;
use std::marker::{Model, PhantomData};
use std::ops::Deref;
use std::sync;
use std::sync::Wait;

/// An item of a walk that reads: one pair of the shard that the walk holds. It shares the hold with the walk, and keeps
/// it as long as it lives, also where the walk has gone on.
///
/// It is named [`RefMulti`].
pub struct MultiGuard<
    K: Eq + Hash,
    V,
    A: Allocator,
    W: Lender<Part = Shard<K, V, A>> + Drop,
    H: Hold,
    D,
>
where
    H::Runtime: Wait,
{
    guard: SharedGuard<W, H, A>,
    slot: usize,
    party: PhantomData<D>,
}

/// An item of a walk over a map that reads. `'m` is the borrow of the map, and `'d` of what the thread lent to the
/// walk.
///
/// ```text
/// for item in map.iter(&mut me) {
///     let pair = item?;
///     sum = sum.wrapping_add(*pair);  // the value; `pair.key()` lends the key
/// }
/// ```
pub type RefMulti<'m, 'd, K, V, Q, A = Global> = MultiGuard<
    K,
    V,
    A,
    sync::RwLockReadGuard<'m, Shard<K, V, A>>,
    RawHold<&'m RwLock<Q, Shard<K, V, A>>, Shared>,
    &'d mut <Q as RawRwLock>::Party,
>;

impl<K: Eq + Hash, V, A: Allocator, W: Lender<Part = Shard<K, V, A>> + Drop, H: Hold, D> Model
    for MultiGuard<K, V, A, W, H, D>
where
    H::Runtime: Wait,
{
    ghost use Rattle.std.specs.Prelude.{ℕ, IsSome};
    ghost use Rattle.lock_api_guards.specs.declared.guard.Guard.{Guard};
    ghost use Rattle.dashmap_table.specs.Slots.{at};

    ghost Value = { Guard W H H.Lock H.Runtime H.Party H.Apart × ℕ };

    ghost view = { λ s. (s.guard, s.slot) };

    ghost invariant = { λ s. IsSome (at (W.part s.guard.inner).slots s.slot) };
}

// By hand: where a derived drop ends the scope of a caller that dereferenced, the caller isn't covered.
impl<K: Eq + Hash, V, A: Allocator, W: Lender<Part = Shard<K, V, A>> + Drop, H: Hold, D> Drop
    for MultiGuard<K, V, A, W, H, D>
where
    H::Runtime: Wait,
{
    fn drop(self) {
        let MultiGuard {
            guard,
            slot: _,
            party: _,
        } = self;
        drop(guard);
    }
}

impl<K: Eq + Hash, V, A: Allocator, W: Lender<Part = Shard<K, V, A>> + Drop, H: Hold, D> MultiGuard<
    K,
    V,
    A,
    W,
    H,
    D,
>
where
    H::Runtime: Wait,
{
    /// Keeps a shared guard of a shard and a full slot of it. For the layer above.
    pub fn of_slot(guard: SharedGuard<W, H, A>, slot: usize) -> MultiGuard<K, V, A, W, H, D>
        requires { IsSome (at (W.part guard.inner).slots slot) }
        ensures { result ≡ (guard, slot) }
    {
        MultiGuard {
            guard,
            slot,
            party: PhantomData,
        }
    }

    /// The stored key and the value.
    ///
    /// ```text
    /// while let Some(Ok(item)) = walk.next() { let (key, value) = item.pair(); }
    /// ```
    pub fn pair(&self) -> (&K, &V)
        ensures { pair_in (W.part self.now.0.inner) self.now.1 ≡ Some (result.0.now, result.1.now) }
    {
        match self.guard.inner().look().pair(self.slot) {
            Some(pair) => pair,
            None => unreachable!(),
        }
    }

    /// The stored key.
    ///
    /// ```text
    /// if *item.key() == 7 { break; }
    /// ```
    pub fn key(&self) -> &K
        ensures { key_in (W.part self.now.0.inner) self.now.1 ≡ Some result.now }
    {
        let (key, _value) = self.pair();
        key
    }

    /// The value.
    ///
    /// ```text
    /// sum = sum.wrapping_add(*item.value());   // `*item` is the same
    /// ```
    pub fn value(&self) -> &V
        ensures { value_in (W.part self.now.0.inner) self.now.1 ≡ Some result.now }
    {
        let (_key, value) = self.pair();
        value
    }
}

impl<K: Eq + Hash, V, A: Allocator, W: Lender<Part = Shard<K, V, A>> + Drop, H: Hold, D> Deref
    for MultiGuard<K, V, A, W, H, D>
where
    H::Runtime: Wait,
{
    type Target = V;

    ghost deref_gives = { λ r value. value_in (W.part r.0.inner) r.1 ≡ Some value };

    fn deref(&self) -> &V {
        self.value()
    }
}
