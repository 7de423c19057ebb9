//! Calls of the map's one owner, who needs no lock.
//!
//! A shard is taken out of its lock and put back behind the same raw lock.
ghost use Rattle.std.specs.Prelude.{◌≡◌, ◌<◌, List, length, Some, IfErr, OnErr, OnOk, slice_index_or};
ghost use Rattle.std.specs.Iterator.{IsFinite, Drains, YieldsThen};
ghost use Rattle.std.specs.List.{All};
ghost use Rattle.crossbeam_utils.specs.declared.cache_padded.CachePadded.{CachePadded};
ghost use Rattle.crossbeam_utils.specs.Padded.{padded_value};
ghost use Rattle.dashmap_table.specs.Shards.{key_hash};
ghost use Rattle.dashmap_map.specs.Effects.{Inserts};
ghost use Rattle.dashmap_map.specs.Locked.{shard_of};
ghost use Rattle.dashmap_map.specs.Owner.{Alone, AloneUpTo, AsksForRoom, EachAlone, AloneAtKey, IsPut, HadNoRoom};
ghost use Rattle.dashmap_map.specs.Owner.{LacksRoom, Reserves};

use crate::fault::TryReserveError;
use crate::held::insert_into;
use crate::map::DashMap;
use crate::owner::{OwnerEvidence, put_behind, take_out};
use core::mem;
use crossbeam_utils::CachePadded;
use dashmap_table::{Shard, route};
use lock_api_rw::RwLock;
use std::alloc::Allocator;
use std::hash::{BuildHasher, Hash};

/// The lock with the pair put into the shard behind it.
#[inline(always)]
fn inserted<K: Eq + Hash + Drop, V: Drop, Q: OwnerEvidence<Shard<K, V, A>>, A: Allocator + Clone>(
    lock: RwLock<Q, Shard<K, V, A>>,
    hash: u64,
    key: K,
    value: V,
) -> (RwLock<Q, Shard<K, V, A>>, Result<Option<V>, (K, V)>)
    ensures lock { result.0 ≡ lock }
    ensures evidence { Alone Q.taken Q.put (λ old new. Inserts K.eq old new hash key value result.1) lock }
{
    let (raw, mut shard) = take_out(lock);
    let answer = insert_into(&mut shard, hash, key, value);
    (put_behind(raw, shard), answer)
}

/// Puts a pair into the shard behind a lock that nobody else has.
fn insert_alone<
    K: Eq + Hash + Drop,
    V: Drop,
    Q: OwnerEvidence<Shard<K, V, A>>,
    A: Allocator + Clone,
>(lock: &mut RwLock<Q, Shard<K, V, A>>, hash: u64, key: K, value: V) -> Result<Option<V>, (K, V)>
    ensures lock { lock.new ≡ lock.old }
    ensures evidence { Alone Q.taken Q.put (λ old new. Inserts K.eq old new hash key value result) lock.old }
{
    mem::replace_with(
        lock,
        (hash, key, value),
        |lock, (hash, key, value)|
            ensures lock { result.0 ≡ lock }
            ensures evidence { Alone Q.taken Q.put (λ old new. Inserts K.eq old new hash key value result.1) lock }
        { inserted(lock, hash, key, value) },
    )
}

/// The lock with room made in the shard behind it.
#[inline(always)]
fn reserved<K: Eq + Hash + Drop, V: Drop, Q: OwnerEvidence<Shard<K, V, A>>, A: Allocator + Clone>(
    lock: RwLock<Q, Shard<K, V, A>>,
    additional: usize,
) -> (RwLock<Q, Shard<K, V, A>>, Result<(), TryReserveError>)
    ensures lock { result.0 ≡ lock }
    ensures evidence { Alone Q.taken Q.put (AsksForRoom K.eq additional result.1) lock }
{
    let (raw, mut shard) = take_out(lock);
    let Ok(()) = shard.reserve(additional) else {
        return (put_behind(raw, shard), Err(TryReserveError {}));
    };
    (put_behind(raw, shard), Ok(()))
}

/// Makes room in the shard behind a lock that nobody else has.
fn reserve_alone<
    K: Eq + Hash + Drop,
    V: Drop,
    Q: OwnerEvidence<Shard<K, V, A>>,
    A: Allocator + Clone,
>(lock: &mut RwLock<Q, Shard<K, V, A>>, additional: usize) -> Result<(), TryReserveError>
    ensures lock { lock.new ≡ lock.old }
    ensures evidence { Alone Q.taken Q.put (AsksForRoom K.eq additional result) lock.old }
{
    mem::replace_with(
        lock,
        additional,
        |lock, additional|
            ensures lock { result.0 ≡ lock }
            ensures evidence { Alone Q.taken Q.put (AsksForRoom K.eq additional result.1) lock }
        { reserved(lock, additional) },
    )
}

/// Makes room in one of these shards.
fn reserve_at<K: Eq + Hash + Drop, V: Drop, Q: OwnerEvidence<Shard<K, V, A>>, A: Allocator + Clone>(
    locks: &mut [CachePadded<RwLock<Q, Shard<K, V, A>>>],
    shard: usize,
    additional: usize,
) -> Result<(), TryReserveError>
    requires { shard < length locks.old }
    ensures locks { locks.new ≡ locks.old }
    ensures evidence { (other : CachePadded Q) → Alone Q.taken Q.put (AsksForRoom K.eq additional result)
        (padded_value (slice_index_or locks.old shard other)) }
{
    reserve_alone(&mut locks[shard], additional)
}

/// Makes room in each of these shards, one after another.
fn reserve_each<
    K: Eq + Hash + Drop,
    V: Drop,
    Q: OwnerEvidence<Shard<K, V, A>>,
    A: Allocator + Clone,
>(
    locks: &mut [CachePadded<RwLock<Q, Shard<K, V, A>>>],
    additional: usize,
) -> Result<(), TryReserveError>
    ensures locks { locks.new ≡ locks.old }
    ensures made { OnOk result (EachAlone Q.taken Q.put (Reserves K.eq additional) locks.old) }
    ensures refused { OnErr result (AloneUpTo Q.taken Q.put (Reserves K.eq additional) (LacksRoom additional)
        locks.old) }
{
    for shard in 0..locks.len() {
        reserve_at(locks, shard, additional)?;
    }
    Ok(())
}

impl<
    K: Eq + Hash + Drop,
    V: Drop,
    S: BuildHasher,
    Q: OwnerEvidence<Shard<K, V, A>>,
    A: Allocator + Clone,
> DashMap<K, V, S, Q, A> {
    /// The hash of a key and the number of its shard.
    #[inline(always)]
    fn hash_and_shard(&self, key: &K) -> (u64, usize)
        ensures hash { result.0 ≡ key_hash S.BuildHasher S.Hasher.Hasher K.hash_input self.now.hasher key.now }
        ensures shard { result.1 ≡ shard_of S.BuildHasher S.Hasher.Hasher K.hash_input self.now key.now }
        ensures below { result.1 < length self.now.locks }
    {
        let hash = self.hasher.hash_one(key);
        (hash, route(hash, self.shards.len()))
    }

    /// As `insert`, by the map's owner, without a lock: nothing waits.
    ///
    /// Memory: as `insert`, and the pair comes back where it is refused.
    ///
    /// ```text
    /// let old = map.insert_mut("seven", 7)?;
    /// ```
    pub fn insert_mut(&mut self, key: K, value: V) -> Result<Option<V>, (K, V)>
        ensures refused { IfErr result (λ back. back ≡ (key, value)) }
        ensures locks { self.new ≡ self.old }
        ensures evidence { AloneAtKey Q.taken Q.put S.BuildHasher S.Hasher.Hasher K.hash_input self.old key
            (λ hash old new. Inserts K.eq old new hash key value result) }
    {
        let (hash, shard) = self.hash_and_shard(&key);
        insert_alone(&mut self.shards[shard], hash, key, value)
    }

    /// As `insert_mut`, and lets the value go that the key had.
    #[inline(always)]
    fn put_alone(&mut self, key: K, value: V) -> Result<(), (K, V)>
        ensures locks { self.new ≡ self.old }
        ensures put { OnOk result
            (IsPut Q.taken Q.put S.BuildHasher S.Hasher.Hasher K.hash_input self.old K.eq (key, value)) }
        ensures refused { IfErr result (λ back. (back ≡ (key, value))
            × HadNoRoom Q.taken Q.put S.BuildHasher S.Hasher.Hasher K.hash_input self.old K.eq (key, value)) }
    {
        let _old = self.insert_mut(key, value)?;
        Ok(())
    }

    /// Puts pairs in, one after another, as `insert_mut` does. Nothing waits.
    ///
    /// Memory: the first pair that is refused comes back: the pairs before it stay, and the rest of the iterator is let
    /// go.
    ///
    /// ```text
    /// map.extend(pairs.into_iter())?;
    /// ```
    pub fn extend<I: Iterator<Item = (K, V)> + Drop>(&mut self, iter: I) -> Result<(), (K, V)>
        requires can { I.can_next iter }
        requires ends { IsFinite (I.remaining iter) }
        ensures locks { self.new ≡ self.old }
        ensures all { OnOk result ((pairs : List (K × V)) × Drains I.next_gives iter pairs
            × All (IsPut Q.taken Q.put S.BuildHasher S.Hasher.Hasher K.hash_input self.old K.eq) pairs) }
        ensures refused { IfErr result
            (λ back. (before : List (K × V)) × (rest : I) × YieldsThen I.next_gives iter before (Some back) rest
            × All (IsPut Q.taken Q.put S.BuildHasher S.Hasher.Hasher K.hash_input self.old K.eq) before
            × HadNoRoom Q.taken Q.put S.BuildHasher S.Hasher.Hasher K.hash_input self.old K.eq back) }
    {
        let mut rest = iter;
        while let Some((key, value)) = rest.next() {
            if let Err(back) = self.put_alone(key, value) {
                return Err(back);
            }
        }
        Ok(())
    }

    /// Makes room for so many more pairs in each shard: not in all together, since nobody knows their hashes. Nothing
    /// waits.
    ///
    /// Memory: where a shard can't have it all pairs stay, and the shards before it keep their room.
    ///
    /// ```text
    /// map.try_reserve(100)?;
    /// ```
    pub fn try_reserve(&mut self, additional: usize) -> Result<(), TryReserveError>
        ensures locks { self.new ≡ self.old }
        ensures evidence { OnOk result (EachAlone Q.taken Q.put (Reserves K.eq additional) self.old.locks) }
        ensures refused { OnErr result (AloneUpTo Q.taken Q.put (Reserves K.eq additional) (LacksRoom additional)
            self.old.locks) }
    {
        reserve_each(&mut self.shards, additional)
    }
}
