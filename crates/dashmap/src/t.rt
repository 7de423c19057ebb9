//! The map's calls as a trait's.
ghost use Rattle.std.specs.Prelude.{◌≡◌, ℕ, ◌==◌, ◌≤◌, Option, length, None, Some, true, IsTrue, IfSome, IfOk, IfErr};
ghost use Rattle.std.specs.Prelude.{MatchOption, MatchResult};
ghost use Rattle.std.specs.Option.{is_some};
ghost use Rattle.std.specs.Sync.RwLock.{read_guard_value, write_guard_value};
ghost use Rattle.dashmap_guard.specs.Guarded.{key_in};
ghost use Rattle.dashmap_guard.specs.Entries.{by_entry};
ghost use Rattle.dashmap_guard.specs.Tries.{found};
ghost use Rattle.dashmap_table.specs.Slots.{count, slot_of};
ghost use Rattle.dashmap_map.specs.Calls.{AnswersAt, LeavesAt};
ghost use Rattle.dashmap_map.specs.Effects.{Inserts, Removes, RemovesIf, RemovesIfMut, AltersAt, Views, Finds, Enters};
ghost use Rattle.dashmap_map.specs.Effects.{IsEntryOf};
ghost use Rattle.dashmap_map.specs.Evidence.{UnderLock, OnSight, OnTry, OnRefusal, SumsTo, by_try};
ghost use Rattle.dashmap_map.specs.Locked.{Locked};
ghost use Rattle.dashmap_map.specs.Owner.{ShrinksAll};

use dashmap_guard::TryResult;
use dashmap_map::DashMap;
use dashmap_map::mapref::entry::Entry;
use dashmap_map::mapref::one::{Ref, RefMut};
use dashmap_map::parts::shard_locks;
use dashmap_table::Shard;
use lock_api_raw::{NoMemory, RawRwLock};
use lock_api_rw::Evidence;
use std::alloc::{AllocError, Allocator};
use std::hash::{BuildHasher, Hash};
use std::sync::Wait;

/// The map's calls under underscored names. [`DashMap`] is its one implementation.
///
/// ```text
/// let shards = map._shard_count();                        // as `shards().count()`
/// let old = map._insert(7, 70, &mut me).ok().flatten();   // each as the method without an underscore
/// if let Some(seven) = map._get(&7, &mut me) { sum = *seven; }
/// ```
pub trait Map<K: Eq + Hash + Drop, V: Drop, S> {
    /// The raw lock of a shard, which the guards name.
    type Lock: Evidence<Shard<K, V, Self::Alloc>>;

    /// The allocator, which guards and shards name.
    type Alloc: Allocator + Clone;

    /// The raw locks of the shards, and the hasher.
    ghost seen: { Self → Locked Self.Lock S };

    /// How many shards there are.
    ghost amount: { Self → ℕ };

    /// The hasher.
    ghost hasher_of: { Self → S };

    /// The hash of a key.
    ghost hash_of_key: { Self → K → ℕ };

    /// The raw lock of a key's shard.
    ghost lock_of: { Self → K → Option Self.Lock };

    /// How many shards there are.
    fn _shard_count(&self) -> usize
        ensures { result ≡ amount self.now };

    /// A clone of the hasher. A hasher has to be equal to its clone.
    fn _hasher(&self) -> Result<S, AllocError>
    where
        S: Clone,
        requires { (hasher copy : S) → S.is_clone hasher copy → copy ≡ hasher }
        ensures { IfOk result (λ hasher. hasher ≡ hasher_of self.now) };

    /// As `insert`.
    fn _insert(
        &self,
        key: K,
        value: V,
        td: &mut <Self::Lock as RawRwLock>::Party,
    ) -> Result<Option<V>, (K, V)>
    where
        <Self::Lock as RawRwLock>::Runtime: Wait,
        ensures refused { IfErr result (λ back. back ≡ (key, value)) }
        ensures evidence { UnderLock Self.Lock.held (lock_of self.now key) td.old td.new
            (λ old new. Inserts K.eq old new (hash_of_key self.now key) key value result) };

    /// As `remove`.
    fn _remove(&self, key: &K, td: &mut <Self::Lock as RawRwLock>::Party) -> Option<(K, V)>
    where
        <Self::Lock as RawRwLock>::Runtime: Wait,
        ensures asked { IfSome result (λ p. IsTrue (K.eq p.0 key.now)) }
        ensures evidence { UnderLock Self.Lock.held (lock_of self.now key.now) td.old td.new
            (λ old new. Removes K.eq old new (hash_of_key self.now key.now) key.now result) };

    /// As `remove_if`.
    fn _remove_if<F: FnOnce(&K, &V) -> bool + Drop>(
        &self,
        key: &K,
        f: F,
        td: &mut <Self::Lock as RawRwLock>::Party,
    ) -> Option<(K, V)>
    where
        <Self::Lock as RawRwLock>::Runtime: Wait,
        requires { F.IsAlwaysCallable f }
        ensures asked { IfSome result (λ p. IsTrue (K.eq p.0 key.now) × AnswersAt F.FnOnce f p.0 p.1 true) }
        ensures evidence { UnderLock Self.Lock.held (lock_of self.now key.now) td.old td.new
            (λ old new. RemovesIf K.eq F.FnOnce f old new (hash_of_key self.now key.now) key.now result) };

    /// As `remove_if_mut`.
    fn _remove_if_mut<F: FnOnce(&K, &mut V) -> bool + Drop>(
        &self,
        key: &K,
        f: F,
        td: &mut <Self::Lock as RawRwLock>::Party,
    ) -> Option<(K, V)>
    where
        <Self::Lock as RawRwLock>::Runtime: Wait,
        requires { F.IsAlwaysCallable f }
        ensures asked { IfSome result
            (λ p. IsTrue (K.eq p.0 key.now) × (v : V) × LeavesAt F.FnOnce f p.0 v true p.1) }
        ensures evidence { UnderLock Self.Lock.held (lock_of self.now key.now) td.old td.new
            (λ old new. RemovesIfMut K.eq F.FnOnce f old new (hash_of_key self.now key.now) key.now result) };

    /// As `get`.
    fn _get<'m, 'd>(
        &'m self,
        key: &K,
        td: &'d mut <Self::Lock as RawRwLock>::Party,
    ) -> Option<Ref<'m, 'd, K, V, Self::Lock, Self::Alloc>>
    where
        <Self::Lock as RawRwLock>::Runtime: Wait,
        ensures asked { IfSome result
            (λ r. IfSome (key_in (read_guard_value r.0.inner) r.1) (λ k. IsTrue (K.eq k key.now))) }
        ensures lock { IfSome result (λ r. lock_of self.now key.now ≡ Some r.0.held.0.place.now) }
        ensures evidence { (left : Self.Lock.Party) × OnSight Self.Lock.showed (lock_of self.now key.now) td.old left
            (λ shard. Finds K.eq (λ r. (read_guard_value r.0.inner, r.1)) shard (hash_of_key self.now key.now) key.now
            result) };

    /// As `get_mut`.
    fn _get_mut<'m, 'd>(
        &'m self,
        key: &K,
        td: &'d mut <Self::Lock as RawRwLock>::Party,
    ) -> Option<RefMut<'m, 'd, K, V, Self::Lock, Self::Alloc>>
    where
        <Self::Lock as RawRwLock>::Runtime: Wait,
        ensures asked { IfSome result
            (λ r. IfSome (key_in (write_guard_value r.0.inner) r.1) (λ k. IsTrue (K.eq k key.now))) }
        ensures lock { IfSome result (λ r. lock_of self.now key.now ≡ Some r.0.held.0.place.now) }
        ensures evidence { (left : Self.Lock.Party) × OnSight Self.Lock.found (lock_of self.now key.now) td.old left
            (λ shard. Finds K.eq (λ r. (write_guard_value r.0.inner, r.1)) shard (hash_of_key self.now key.now) key.now
            result) };

    /// As `try_get`.
    fn _try_get<'m>(&'m self, key: &K) -> TryResult<Ref<'m, 'm, K, V, Self::Lock, Self::Alloc>>
    where
        <Self::Lock as RawRwLock>::Runtime: Wait,
        ensures asked { IfSome (found result)
            (λ r. IfSome (key_in (read_guard_value r.0.inner) r.1) (λ k. IsTrue (K.eq k key.now))) }
        ensures lock { IfSome (found result) (λ r. lock_of self.now key.now ≡ Some r.0.held.0.place.now) }
        ensures evidence { by_try
            (OnRefusal Self.Lock.refused_shared (lock_of self.now key.now))
            (OnTry Self.Lock.showed_at_once (lock_of self.now key.now)
            (λ shard. slot_of K.eq shard.slots (hash_of_key self.now key.now) key.now ≡ None))
            (λ r. OnTry Self.Lock.showed_at_once (lock_of self.now key.now)
            (λ shard. (read_guard_value r.0.inner ≡ shard)
            × (slot_of K.eq shard.slots (hash_of_key self.now key.now) key.now ≡ Some r.1)))
            result };

    /// As `try_get_mut`.
    fn _try_get_mut<'m>(
        &'m self,
        key: &K,
    ) -> TryResult<RefMut<'m, 'm, K, V, Self::Lock, Self::Alloc>>
    where
        <Self::Lock as RawRwLock>::Runtime: Wait,
        ensures asked { IfSome (found result)
            (λ r. IfSome (key_in (write_guard_value r.0.inner) r.1) (λ k. IsTrue (K.eq k key.now))) }
        ensures lock { IfSome (found result) (λ r. lock_of self.now key.now ≡ Some r.0.held.0.place.now) }
        ensures evidence { by_try
            (OnRefusal Self.Lock.refused_exclusive (lock_of self.now key.now))
            (OnTry Self.Lock.found_at_once (lock_of self.now key.now)
            (λ shard. slot_of K.eq shard.slots (hash_of_key self.now key.now) key.now ≡ None))
            (λ r. OnTry Self.Lock.found_at_once (lock_of self.now key.now)
            (λ shard. (write_guard_value r.0.inner ≡ shard)
            × (slot_of K.eq shard.slots (hash_of_key self.now key.now) key.now ≡ Some r.1)))
            result };

    /// As `shrink_to_fit`.
    fn _shrink_to_fit(&self, td: &mut <Self::Lock as RawRwLock>::Party) -> Result<(), NoMemory>
    where
        <Self::Lock as RawRwLock>::Runtime: Wait,
        ensures { ShrinksAll K.eq Self.Lock.held (seen self.now) td.old td.new result };

    /// As `len`.
    fn _len(&self, td: &mut <Self::Lock as RawRwLock>::Party) -> usize
    where
        <Self::Lock as RawRwLock>::Runtime: Wait,
        ensures { SumsTo Self.Lock.showed (seen self.now) (λ shard. count shard.slots) td.old td.new result };

    /// As `capacity`.
    fn _capacity(&self, td: &mut <Self::Lock as RawRwLock>::Party) -> usize
    where
        <Self::Lock as RawRwLock>::Runtime: Wait,
        ensures { SumsTo Self.Lock.showed (seen self.now) (λ shard. shard.room) td.old td.new result };

    /// As `alter`.
    fn _alter<F: FnOnce(&K, V) -> V + Drop>(
        &self,
        key: &K,
        f: F,
        td: &mut <Self::Lock as RawRwLock>::Party,
    )
    where
        <Self::Lock as RawRwLock>::Runtime: Wait,
        requires { F.IsAlwaysCallable f }
        ensures { UnderLock Self.Lock.held (lock_of self.now key.now) td.old td.new
            (λ old new. AltersAt K.eq F.FnOnce f old new (hash_of_key self.now key.now) key.now) };

    /// As `view`.
    fn _view<U, F: FnOnce(&K, &V) -> U + Drop>(
        &self,
        key: &K,
        f: F,
        td: &mut <Self::Lock as RawRwLock>::Party,
    ) -> Option<U>
    where
        <Self::Lock as RawRwLock>::Runtime: Wait,
        requires { F.IsAlwaysCallable f }
        ensures asked { IfSome result (λ u. (k : K) × (v : V) × IsTrue (K.eq k key.now) × AnswersAt F.FnOnce f k v u) }
        ensures evidence { OnSight Self.Lock.showed (lock_of self.now key.now) td.old td.new
            (λ shard. Views K.eq F.FnOnce f shard (hash_of_key self.now key.now) key.now result) };

    /// As `entry`.
    fn _entry<'m, 'd>(
        &'m self,
        key: K,
        td: &'d mut <Self::Lock as RawRwLock>::Party,
    ) -> Result<Entry<'m, 'd, K, V, Self::Lock, Self::Alloc>, K>
    where
        <Self::Lock as RawRwLock>::Runtime: Wait,
        ensures found { IfOk result (by_entry
            (λ o. (o.1 ≡ key) × (lock_of self.now key ≡ Some o.0.0.held.0.place.now))
            (λ v. (v.2 ≡ key) × (v.1 ≡ hash_of_key self.now key)
            × (lock_of self.now key ≡ Some v.0.held.0.place.now))) }
        ensures refused { IfErr result (λ back. back ≡ key) }
        ensures evidence { (left : Self.Lock.Party) × OnSight Self.Lock.found (lock_of self.now key) td.old left
            (λ shard. Enters K.eq (λ w. write_guard_value w) shard (hash_of_key self.now key) key result) };

    /// As `try_entry`.
    fn _try_entry<'m>(
        &'m self,
        key: K,
    ) -> Result<Option<Entry<'m, 'm, K, V, Self::Lock, Self::Alloc>>, K>
    where
        <Self::Lock as RawRwLock>::Runtime: Wait,
        ensures found { IfOk result (λ place. IfSome place (by_entry
            (λ o. (o.1 ≡ key) × (lock_of self.now key ≡ Some o.0.0.held.0.place.now))
            (λ v. (v.2 ≡ key) × (v.1 ≡ hash_of_key self.now key)
            × (lock_of self.now key ≡ Some v.0.held.0.place.now)))) }
        ensures refused { IfErr result (λ back. back ≡ key) }
        ensures evidence { MatchResult result
            (λ place. MatchOption place
            (OnRefusal Self.Lock.refused_exclusive (lock_of self.now key))
            (λ entry. OnTry Self.Lock.found_at_once (lock_of self.now key)
            (λ shard. IsEntryOf K.eq (λ w. write_guard_value w) shard (hash_of_key self.now key) key entry)))
            (λ _. OnTry Self.Lock.found_at_once (lock_of self.now key)
            (λ shard. (slot_of K.eq shard.slots (hash_of_key self.now key) key ≡ None)
            × (shard.room ≤ count shard.slots))) };

    /// As `contains_key`.
    fn _contains_key(&self, key: &K, td: &mut <Self::Lock as RawRwLock>::Party) -> bool
    where
        <Self::Lock as RawRwLock>::Runtime: Wait,
        ensures { OnSight Self.Lock.showed (lock_of self.now key.now) td.old td.new
            (λ shard. result ≡ is_some (slot_of K.eq shard.slots (hash_of_key self.now key.now) key.now)) };

    /// As `is_empty`.
    fn _is_empty(&self, td: &mut <Self::Lock as RawRwLock>::Party) -> bool
    where
        <Self::Lock as RawRwLock>::Runtime: Wait,
        ensures { (sum : ℕ) × SumsTo Self.Lock.showed (seen self.now) (λ shard. count shard.slots) td.old td.new sum
            × (result ≡ (sum == 0)) };
}

impl<
    K: Eq + Hash + Drop,
    V: Drop,
    S: BuildHasher,
    Q: Evidence<Shard<K, V, A>>,
    A: Allocator + Clone,
> Map<K, V, S> for DashMap<K, V, S, Q, A> {
    ghost use Rattle.std.specs.Prelude.{length};
    ghost use Rattle.dashmap_table.specs.Shards.{key_hash};
    ghost use Rattle.dashmap_map.specs.Locked as locked;

    type Lock = Q;

    type Alloc = A;

    ghost seen = { λ m. m };

    ghost amount = { λ m. length m.locks };

    ghost hasher_of = { λ m. m.hasher };

    ghost hash_of_key = { λ m key. key_hash S.BuildHasher S.Hasher.Hasher K.hash_input m.hasher key };

    ghost lock_of = { λ m key. locked.lock_of S.BuildHasher S.Hasher.Hasher K.hash_input m key };

    fn _shard_count(&self) -> usize {
        shard_locks(self).len()
    }

    fn _hasher(&self) -> Result<S, AllocError>
    where
        S: Clone,
    {
        self.hasher().clone()
    }

    fn _insert(&self, key: K, value: V, td: &mut Q::Party) -> Result<Option<V>, (K, V)>
    where
        Q::Runtime: Wait,
    {
        self.insert(key, value, td)
    }

    fn _remove(&self, key: &K, td: &mut Q::Party) -> Option<(K, V)>
    where
        Q::Runtime: Wait,
    {
        self.remove(key, td)
    }

    fn _remove_if<F: FnOnce(&K, &V) -> bool + Drop>(
        &self,
        key: &K,
        f: F,
        td: &mut Q::Party,
    ) -> Option<(K, V)>
    where
        Q::Runtime: Wait,
    {
        self.remove_if(key, f, td)
    }

    fn _remove_if_mut<F: FnOnce(&K, &mut V) -> bool + Drop>(
        &self,
        key: &K,
        f: F,
        td: &mut Q::Party,
    ) -> Option<(K, V)>
    where
        Q::Runtime: Wait,
    {
        self.remove_if_mut(key, f, td)
    }

    fn _get<'m, 'd>(&'m self, key: &K, td: &'d mut Q::Party) -> Option<Ref<'m, 'd, K, V, Q, A>>
    where
        Q::Runtime: Wait,
    {
        self.get(key, td)
    }

    fn _get_mut<'m, 'd>(
        &'m self,
        key: &K,
        td: &'d mut Q::Party,
    ) -> Option<RefMut<'m, 'd, K, V, Q, A>>
    where
        Q::Runtime: Wait,
    {
        self.get_mut(key, td)
    }

    fn _try_get<'m>(&'m self, key: &K) -> TryResult<Ref<'m, 'm, K, V, Q, A>>
    where
        Q::Runtime: Wait,
    {
        self.try_get(key)
    }

    fn _try_get_mut<'m>(&'m self, key: &K) -> TryResult<RefMut<'m, 'm, K, V, Q, A>>
    where
        Q::Runtime: Wait,
    {
        self.try_get_mut(key)
    }

    fn _shrink_to_fit(&self, td: &mut Q::Party) -> Result<(), NoMemory>
    where
        Q::Runtime: Wait,
    {
        self.shrink_to_fit(td)
    }

    fn _len(&self, td: &mut Q::Party) -> usize
    where
        Q::Runtime: Wait,
    {
        self.len(td)
    }

    fn _capacity(&self, td: &mut Q::Party) -> usize
    where
        Q::Runtime: Wait,
    {
        self.capacity(td)
    }

    fn _alter<F: FnOnce(&K, V) -> V + Drop>(&self, key: &K, f: F, td: &mut Q::Party)
    where
        Q::Runtime: Wait,
    {
        self.alter(key, f, td);
    }

    fn _view<U, F: FnOnce(&K, &V) -> U + Drop>(&self, key: &K, f: F, td: &mut Q::Party) -> Option<U>
    where
        Q::Runtime: Wait,
    {
        self.view(key, f, td)
    }

    fn _entry<'m, 'd>(
        &'m self,
        key: K,
        td: &'d mut Q::Party,
    ) -> Result<Entry<'m, 'd, K, V, Q, A>, K>
    where
        Q::Runtime: Wait,
    {
        self.entry(key, td)
    }

    fn _try_entry<'m>(&'m self, key: K) -> Result<Option<Entry<'m, 'm, K, V, Q, A>>, K>
    where
        Q::Runtime: Wait,
    {
        self.try_entry(key)
    }

    fn _contains_key(&self, key: &K, td: &mut Q::Party) -> bool
    where
        Q::Runtime: Wait,
    {
        self.contains_key(key, td)
    }

    fn _is_empty(&self, td: &mut Q::Party) -> bool
    where
        Q::Runtime: Wait,
    {
        self.is_empty(td)
    }
}
