//! Calls on one key that wait up to a moment. A call that gives up has changed nothing and holds nothing.
ghost use Rattle.std.specs.Prelude.{◌≡◌, None, Some, IsTrue, IfSome, IfErr};
ghost use Rattle.std.specs.Sync.RwLock.{read_guard_value, write_guard_value};
ghost use Rattle.dashmap_guard.specs.Guarded.{key_in};
ghost use Rattle.dashmap_guard.specs.Tries.{found};
ghost use Rattle.dashmap_table.specs.Slots.{slot_of};
ghost use Rattle.dashmap_map.specs.Effects.{Inserts, Removes};
ghost use Rattle.dashmap_map.specs.Evidence.{UnderKey, OnSightOfKey, OnGivingUp, by_try};
ghost use Rattle.dashmap_map.specs.Faults.{until_pair, by_until};
ghost use Rattle.dashmap_map.specs.Locked.{lock_of};

use crate::fault::UntilFault;
use crate::held::{insert_into, remove_from};
use crate::map::DashMap;
use crate::mapref::one::{Ref, RefMut};
use dashmap_guard::TryResult;
use dashmap_table::Shard;
use lock_api_raw::RawRwLockTimed;
use lock_api_rw::{Evidence, read_until_shown, write_until_found, write_until_traced};
use std::alloc::Allocator;
use std::hash::{BuildHasher, Hash};
use std::rt::Clock;
use std::sync::Wait;

impl<
    K: Eq + Hash,
    V,
    S: BuildHasher,
    Q: RawRwLockTimed + Evidence<Shard<K, V, A>>,
    A: Allocator,
> DashMap<K, V, S, Q, A>
where
    Q::Runtime: Wait,
{
    /// As `get`, but `Locked` where the wait for the key's shard is given up at the moment, by the clock that is handed
    /// in. It takes no memory.
    ///
    /// Blocks until the moment at most, but for the lot's short sections. A moment that has passed is looked at only
    /// where the shard can't be had at once.
    ///
    /// ```text
    /// match map.get_until(&7, soon, &clock, &mut me) {
    ///     Ok(Some(guard)) => sum.wrapping_add(*guard),
    ///     Ok(None) => sum,
    ///     Err(Locked) => 0,                  // given up; nothing is held
    /// }
    /// ```
    pub fn get_until<'m, 'd, C: Clock>(
        &'m self,
        key: &K,
        deadline: Q::Instant,
        clock: &C,
        td: &'d mut Q::Party,
    ) -> TryResult<Ref<'m, 'd, K, V, Q, A>>
        ensures asked { IfSome (found result)
            (λ r. IfSome (key_in (read_guard_value r.0.inner) r.1) (λ k. IsTrue (K.eq k key.now))) }
        ensures lock { IfSome (found result)
            (λ r. lock_of S.BuildHasher S.Hasher.Hasher K.hash_input self.now key.now ≡ Some r.0.held.0.place.now) }
        ensures evidence { (left : Q.Party) × by_try
            (Q.shared_locked_in_time None × OnGivingUp Q.gave_up_shared
            (lock_of S.BuildHasher S.Hasher.Hasher K.hash_input self.now key.now) td.old left)
            (OnSightOfKey S.BuildHasher S.Hasher.Hasher K.hash_input Q.showed self.now key.now td.old left
            (λ hash shard. slot_of K.eq shard.slots hash key.now ≡ None))
            (λ r. OnSightOfKey S.BuildHasher S.Hasher.Hasher K.hash_input Q.showed self.now key.now td.old left
            (λ hash shard. (read_guard_value r.0.inner ≡ shard) × (slot_of K.eq shard.slots hash key.now ≡ Some r.1)))
            result }
    {
        let (hash, lock) = self.place_of(key);
        let Some(guard) = read_until_shown(lock, deadline, clock, td) else {
            return TryResult::Locked;
        };
        match Ref::find(guard, hash, key) {
            Some(pair) => TryResult::Present(pair),
            None => TryResult::Absent,
        }
    }

    /// As `get_mut`, but `Locked` where the wait for the key's shard is given up at the moment, by the clock that is
    /// handed in. It takes no memory.
    ///
    /// Blocks as `get_until` does.
    ///
    /// ```text
    /// if let Ok(Some(mut count)) = map.get_mut_until(&7, soon, &clock, &mut me) { *count = 0; }
    /// ```
    pub fn get_mut_until<'m, 'd, C: Clock>(
        &'m self,
        key: &K,
        deadline: Q::Instant,
        clock: &C,
        td: &'d mut Q::Party,
    ) -> TryResult<RefMut<'m, 'd, K, V, Q, A>>
        ensures asked { IfSome (found result)
            (λ r. IfSome (key_in (write_guard_value r.0.inner) r.1) (λ k. IsTrue (K.eq k key.now))) }
        ensures lock { IfSome (found result)
            (λ r. lock_of S.BuildHasher S.Hasher.Hasher K.hash_input self.now key.now ≡ Some r.0.held.0.place.now) }
        ensures evidence { (left : Q.Party) × by_try
            (Q.exclusive_locked_in_time None × OnGivingUp Q.gave_up_exclusive
            (lock_of S.BuildHasher S.Hasher.Hasher K.hash_input self.now key.now) td.old left)
            (OnSightOfKey S.BuildHasher S.Hasher.Hasher K.hash_input Q.found self.now key.now td.old left
            (λ hash shard. slot_of K.eq shard.slots hash key.now ≡ None))
            (λ r. OnSightOfKey S.BuildHasher S.Hasher.Hasher K.hash_input Q.found self.now key.now td.old left
            (λ hash shard. (write_guard_value r.0.inner ≡ shard) × (slot_of K.eq shard.slots hash key.now ≡ Some r.1)))
            result }
    {
        let (hash, lock) = self.place_of(key);
        let Some(guard) = write_until_found(lock, deadline, clock, td) else {
            return TryResult::Locked;
        };
        match RefMut::find(guard, hash, key) {
            Some(pair) => TryResult::Present(pair),
            None => TryResult::Absent,
        }
    }

    /// As `remove`, but `Locked` where the wait for the key's shard is given up at the moment, by the clock that is
    /// handed in. It takes no memory.
    ///
    /// Blocks as `get_until` does.
    ///
    /// ```text
    /// if let Ok(Some((key, value))) = map.remove_until(&7, soon, &clock, &mut me) { .. }
    /// ```
    pub fn remove_until<C: Clock>(
        &self,
        key: &K,
        deadline: Q::Instant,
        clock: &C,
        td: &mut Q::Party,
    ) -> TryResult<(K, V)>
        ensures asked { IfSome (found result) (λ p. IsTrue (K.eq p.0 key.now)) }
        ensures evidence { by_try
            (Q.exclusive_locked_in_time None × OnGivingUp Q.gave_up_exclusive
            (lock_of S.BuildHasher S.Hasher.Hasher K.hash_input self.now key.now) td.old td.new)
            (UnderKey S.BuildHasher S.Hasher.Hasher K.hash_input Q.held self.now key.now td.old td.new
            (λ hash old new. Removes K.eq old new hash key.now None))
            (λ pair. UnderKey S.BuildHasher S.Hasher.Hasher K.hash_input Q.held self.now key.now td.old td.new
            (λ hash old new. Removes K.eq old new hash key.now (Some pair)))
            result }
    {
        let (hash, lock) = self.place_of(key);
        let Some(mut shard) = write_until_traced(lock, deadline, clock, td) else {
            return TryResult::Locked;
        };
        let pair = remove_from(&mut *shard, hash, key);
        shard.give_back();
        match pair {
            Some(pair) => TryResult::Present(pair),
            None => TryResult::Absent,
        }
    }
}

impl<
    K: Eq + Hash + Drop,
    V: Drop,
    S: BuildHasher,
    Q: RawRwLockTimed + Evidence<Shard<K, V, A>>,
    A: Allocator + Clone,
> DashMap<K, V, S, Q, A>
where
    Q::Runtime: Wait,
{
    /// As `insert`, but `Locked` with the pair where the wait for the key's shard is given up at the moment, by the
    /// clock that is handed in, and `NoMemory` with the pair where a new key finds no room.
    ///
    /// Blocks as `get_until` does. Memory: as `insert`.
    ///
    /// ```text
    /// match map.insert_until(7, 70, soon, &clock, &mut me) {
    ///     Ok(old) => { .. }                              // None where the key was new
    ///     Err(fault) => later.push(fault.into_pair()),  // the pair comes back
    /// }
    /// ```
    pub fn insert_until<C: Clock>(
        &self,
        key: K,
        value: V,
        deadline: Q::Instant,
        clock: &C,
        td: &mut Q::Party,
    ) -> Result<Option<V>, UntilFault<(K, V)>>
        ensures refused { IfErr result (λ fault. until_pair fault ≡ (key, value)) }
        ensures evidence { by_until
            (Q.exclusive_locked_in_time None × OnGivingUp Q.gave_up_exclusive
            (lock_of S.BuildHasher S.Hasher.Hasher K.hash_input self.now key) td.old td.new)
            (λ made. UnderKey S.BuildHasher S.Hasher.Hasher K.hash_input Q.held self.now key td.old td.new
            (λ hash old new. Inserts K.eq old new hash key value made))
            result }
    {
        let (hash, lock) = self.place_of(&key);
        let Some(mut shard) = write_until_traced(lock, deadline, clock, td) else {
            return Err(UntilFault::Locked((key, value)));
        };
        let made = insert_into(&mut *shard, hash, key, value);
        shard.give_back();
        match made {
            Ok(had) => Ok(had),
            Err(back) => Err(UntilFault::NoMemory(back)),
        }
    }
}
