//! How a set is made.
ghost use Rattle.std.specs.Prelude.{◌≡◌, ◌^◌, ◌<◌, ◌↔◌, List, length, Err, IfOk};
ghost use Rattle.std.specs.Iterator.{IsFinite, Drains};
ghost use Rattle.std.specs.List.{All};
ghost use Rattle.std.specs.Int.{IsNextPowerOfTwo};
ghost use Rattle.dashmap_table.specs.Route.{wanted_shards};
ghost use Rattle.dashmap_table.specs.declared.fault.MapFault.{MapFault};
ghost use Rattle.dashmap_map.specs.declared.fault.NewFault.{NewFault};
ghost use Rattle.dashmap_map.specs.Making.{HasNoDefaultShare};
ghost use Rattle.dashmap_map.specs.Owner.{HasRoom};
ghost use Rattle.dashmap.specs.Set.Owner.{KeyIsPut};

use crate::set::DashSet;
use dashmap_map::owner::OwnerEvidence;
use dashmap_map::{DashMap, NewFault};
use dashmap_table::{MapFault, Shard};
use lock_api_raw::{MakeLock, RawRwLock};
use std::alloc::Allocator;
use std::hash::{BuildHasher, Hash, RandomState};
use std::random::RandomSource;

impl<
    K: Eq + Hash + Drop,
    Q: RawRwLock + OwnerEvidence<Shard<K, (), A>> + Drop,
    A: Allocator + Clone,
> DashSet<K, RandomState, Q, A>
where
    Q::Runtime: RandomSource,
{
    /// An empty set with the default shard amount for so many threads, whose capacity is 0. The locks' runtime makes
    /// the hasher.
    ///
    /// Refused as `BadShards`, `TableFull`, `NoRandom` or `NoMemory`, in this order. It takes a row of the table for
    /// each shard.
    ///
    /// ```text
    /// let set = DashSet::new(alloc, 3, &table)?; // 16 rows
    /// ```
    pub fn new<T: Copy>(
        alloc: A,
        parallelism: usize,
        table: T,
    ) -> Result<DashSet<K, RandomState, Q, A>, NewFault>
    where
        Q: MakeLock<T>,
        ensures made { IfOk result (λ s. IsNextPowerOfTwo (wanted_shards parallelism) (length s.locks)) }
        ensures room { IfOk result (HasRoom Q.put 0) }
        ensures bad_shards { (result ≡ Err (NewFault.Map MapFault.BadShards)) ↔ (2 ^ 16 < wanted_shards parallelism) }
        ensures fits { ¬ (result ≡ Err (NewFault.Map MapFault.CapacityOverflow)) }
    {
        match DashMap::new(alloc, parallelism, table) {
            Ok(inner) => Ok(DashSet { inner }),
            Err(fault) => Err(fault),
        }
    }

    /// As `new`, with room for the capacity's share in each shard.
    ///
    /// Refused as `new`, and as `CapacityOverflow` right after `BadShards`.
    ///
    /// ```text
    /// let set = DashSet::with_capacity(alloc, 1000, 3, &table)?;
    /// ```
    pub fn with_capacity<T: Copy>(
        alloc: A,
        capacity: usize,
        parallelism: usize,
        table: T,
    ) -> Result<DashSet<K, RandomState, Q, A>, NewFault>
    where
        Q: MakeLock<T>,
        ensures made { IfOk result (λ s. IsNextPowerOfTwo (wanted_shards parallelism) (length s.locks)) }
        ensures room { IfOk result (HasRoom Q.put capacity) }
        ensures bad_shards { (result ≡ Err (NewFault.Map MapFault.BadShards)) ↔ (2 ^ 16 < wanted_shards parallelism) }
        ensures overflow { (result ≡ Err (NewFault.Map MapFault.CapacityOverflow)) ↔ HasNoDefaultShare capacity
            parallelism }
    {
        match DashMap::with_capacity(alloc, capacity, parallelism, table) {
            Ok(inner) => Ok(DashSet { inner }),
            Err(fault) => Err(fault),
        }
    }
}

impl<
    K: Eq + Hash + Drop,
    S: BuildHasher + Drop,
    Q: RawRwLock + OwnerEvidence<Shard<K, (), A>> + Drop,
    A: Allocator + Clone,
> DashSet<K, S, Q, A> {
    /// An empty set with the default shard amount for so many threads, whose capacity is 0.
    ///
    /// Refused as `BadShards`, `TableFull` or `NoMemory`, in this order. It takes a row of the table for each shard.
    ///
    /// ```text
    /// let set = DashSet::with_hasher(alloc, hasher, 3, &table)?; // 16 rows
    /// ```
    pub fn with_hasher<T: Copy>(
        alloc: A,
        hasher: S,
        parallelism: usize,
        table: T,
    ) -> Result<DashSet<K, S, Q, A>, MapFault>
    where
        Q: MakeLock<T>,
        ensures made { IfOk result (λ s. IsNextPowerOfTwo (wanted_shards parallelism) (length s.locks)
            × (s.hasher ≡ hasher)) }
        ensures room { IfOk result (HasRoom Q.put 0) }
        ensures bad_shards { (result ≡ Err MapFault.BadShards) ↔ (2 ^ 16 < wanted_shards parallelism) }
        ensures fits { ¬ (result ≡ Err MapFault.CapacityOverflow) }
    {
        match DashMap::with_hasher(alloc, hasher, parallelism, table) {
            Ok(inner) => Ok(DashSet { inner }),
            Err(fault) => Err(fault),
        }
    }

    /// As `with_hasher`, with room for the capacity's share in each shard.
    ///
    /// Refused as `with_hasher`, and as `CapacityOverflow` right after `BadShards`.
    ///
    /// ```text
    /// let set = DashSet::with_capacity_and_hasher(alloc, 1000, hasher, 3, &table)?;
    /// ```
    pub fn with_capacity_and_hasher<T: Copy>(
        alloc: A,
        capacity: usize,
        hasher: S,
        parallelism: usize,
        table: T,
    ) -> Result<DashSet<K, S, Q, A>, MapFault>
    where
        Q: MakeLock<T>,
        ensures made { IfOk result (λ s. IsNextPowerOfTwo (wanted_shards parallelism) (length s.locks)
            × (s.hasher ≡ hasher)) }
        ensures room { IfOk result (HasRoom Q.put capacity) }
        ensures bad_shards { (result ≡ Err MapFault.BadShards) ↔ (2 ^ 16 < wanted_shards parallelism) }
        ensures overflow { (result ≡ Err MapFault.CapacityOverflow) ↔ HasNoDefaultShare capacity parallelism }
    {
        match DashMap::with_capacity_and_hasher(alloc, capacity, hasher, parallelism, table) {
            Ok(inner) => Ok(DashSet { inner }),
            Err(fault) => Err(fault),
        }
    }

    /// The same as `with_hasher`.
    ///
    /// ```text
    /// let set: DashSet<'_, '_, u64, RandomState, HostRuntime> = DashSet::default(alloc, hasher, 4, &table)?;
    /// ```
    pub fn default<T: Copy>(
        alloc: A,
        hasher: S,
        parallelism: usize,
        table: T,
    ) -> Result<DashSet<K, S, Q, A>, MapFault>
    where
        Q: MakeLock<T>,
        ensures made { IfOk result (λ s. IsNextPowerOfTwo (wanted_shards parallelism) (length s.locks)
            × (s.hasher ≡ hasher)) }
        ensures room { IfOk result (HasRoom Q.put 0) }
        ensures bad_shards { (result ≡ Err MapFault.BadShards) ↔ (2 ^ 16 < wanted_shards parallelism) }
        ensures fits { ¬ (result ≡ Err MapFault.CapacityOverflow) }
    {
        DashSet::with_hasher(alloc, hasher, parallelism, table)
    }

    /// A set with the default shard amount for so many threads, into which the keys of the iterator are put one after
    /// another: of equal keys the first stays.
    ///
    /// Refused as `BadShards`, `TableFull` or `NoMemory`, in this order.
    ///
    /// ```text
    /// let set = DashSet::from_iter(alloc, names.into_iter(), hasher, 3, &table)?;
    /// ```
    pub fn from_iter<I: Iterator<Item = K> + Drop, T: Copy>(
        alloc: A,
        iter: I,
        hasher: S,
        parallelism: usize,
        table: T,
    ) -> Result<DashSet<K, S, Q, A>, MapFault>
    where
        Q: MakeLock<T>,
        requires can { I.can_next iter }
        requires ends { IsFinite (I.remaining iter) }
        ensures made { IfOk result (λ s. IsNextPowerOfTwo (wanted_shards parallelism) (length s.locks)
            × (s.hasher ≡ hasher)) }
        ensures all { IfOk result (λ s. (keys : List K) × Drains I.next_gives iter keys
            × All (KeyIsPut Q.taken Q.put S.BuildHasher S.Hasher.Hasher K.hash_input K.eq s) keys) }
        ensures bad_shards { (result ≡ Err MapFault.BadShards) ↔ (2 ^ 16 < wanted_shards parallelism) }
        ensures fits { ¬ (result ≡ Err MapFault.CapacityOverflow) }
    {
        let mut set = DashSet::default(alloc, hasher, parallelism, table)?;
        match set.extend(iter) {
            Ok(()) => Ok(set),
            Err(_) => Err(MapFault::NoMemory),
        }
    }
}
