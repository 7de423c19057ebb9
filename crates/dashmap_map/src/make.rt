//! How a map is made.
ghost use Rattle.std.specs.Prelude.{◌≡◌, ℕ, ◌^◌, ◌<◌, ◌↔◌, ◌⊎◌, List, length, Err, IfOk, IfErr, OnOk};
ghost use Rattle.std.specs.Iterator.{IsFinite, Drains};
ghost use Rattle.std.specs.List.{All};
ghost use Rattle.std.specs.Int.{IsNextPowerOfTwo};
ghost use Rattle.dashmap_table.specs.Route.{IsShardAmount, HasNoShare, share_of, wanted_shards};
ghost use Rattle.dashmap_map.specs.Making.{has_shards, have_room, HasNoDefaultShare};
ghost use Rattle.dashmap_map.specs.Owner.{IsFresh, EachBehind, HasRoom, IsPut};

use crate::fault::NewFault;
use crate::map::DashMap;
use crate::owner::OwnerEvidence;
use crate::room::Made;
use dashmap_table::{MapFault, Shard, capacity_share, default_shards, is_shard_amount};
use lock_api_raw::{MakeLock, RawRwLock};
use std::alloc::Allocator;
use std::hash::{BuildHasher, Hash, RandomState};
use std::random::RandomSource;

/// The share of each of so many shards in a capacity.
fn share_for(capacity: usize, shard_amount: usize) -> Result<usize, MapFault>
    ensures amount { OnOk result (IsShardAmount shard_amount) }
    ensures share { IfOk result (λ share. share ≡ share_of capacity shard_amount) }
    ensures bad_shards { (result ≡ Err MapFault.BadShards) ↔ ¬ IsShardAmount shard_amount }
    ensures overflow { (result ≡ Err MapFault.CapacityOverflow) ↔
        (IsShardAmount shard_amount × HasNoShare capacity shard_amount) }
{
    if !is_shard_amount(shard_amount) {
        return Err(MapFault::BadShards);
    }
    match capacity_share(capacity, shard_amount) {
        Some(share) => Ok(share),
        None => Err(MapFault::CapacityOverflow),
    }
}

/// The map over the shards that were made, with this hasher.
fn with_given_hasher<
    K: Eq + Hash + Drop,
    V: Drop,
    S: BuildHasher + Drop,
    Q: OwnerEvidence<Shard<K, V, A>> + Drop,
    A: Allocator,
>(made: Made<K, V, Q, A>, hasher: S) -> Result<DashMap<K, V, S, Q, A>, MapFault>
    requires { (shards : ℕ) × IsShardAmount shards × has_shards shards made }
    ensures made { (shards : ℕ) → has_shards shards made → IfOk result (λ m. length m.locks ≡ shards) }
    ensures hasher { IfOk result (λ m. m.hasher ≡ hasher) }
    ensures room { (share : ℕ) → have_room Q.put share made
        → IfOk result (λ m. EachBehind Q.put (IsFresh share) m.locks) }
    ensures refused { IfErr result (λ fault. fault ≡ MapFault.NoMemory) }
{
    match made {
        Made::Whole(shards, spare) => Ok(DashMap {
            shards,
            spare,
            hasher,
        }),
        Made::Short(_lock) => Err(MapFault::NoMemory),
    }
}

/// The map over the shards that were made, with a hasher that their locks' runtime makes.
fn with_own_hasher<
    K: Eq + Hash + Drop,
    V: Drop,
    Q: RawRwLock + OwnerEvidence<Shard<K, V, A>> + Drop,
    A: Allocator + Clone,
>(made: Made<K, V, Q, A>) -> Result<DashMap<K, V, RandomState, Q, A>, NewFault>
where
    Q::Runtime: RandomSource,
    requires { (shards : ℕ) × IsShardAmount shards × has_shards shards made }
    ensures made { (shards : ℕ) → has_shards shards made → IfOk result (λ m. length m.locks ≡ shards) }
    ensures room { (share : ℕ) → have_room Q.put share made
        → IfOk result (λ m. EachBehind Q.put (IsFresh share) m.locks) }
    ensures refused { IfErr result (λ fault. (fault ≡ NewFault.NoRandom) ⊎ (fault ≡ NewFault.Map MapFault.NoMemory)) }
{
    let Some(hasher) = made.hasher() else {
        return Err(NewFault::NoRandom);
    };
    match made {
        Made::Whole(shards, spare) => Ok(DashMap {
            shards,
            spare,
            hasher,
        }),
        Made::Short(_lock) => Err(NewFault::Map(MapFault::NoMemory)),
    }
}

impl<
    K: Eq + Hash + Drop,
    V: Drop,
    S: BuildHasher + Drop,
    Q: RawRwLock + OwnerEvidence<Shard<K, V, A>> + Drop,
    A: Allocator + Clone,
> DashMap<K, V, S, Q, A> {
    /// An empty map with that many shards and room for the capacity's share in each. A capacity of 0 takes no room.
    ///
    /// Refused as `BadShards` (no power of two from 2 to 65,536), `CapacityOverflow`, `TableFull` or `NoMemory`, in
    /// this order. It takes a row of the table for each shard, which don't come back, also where it is refused for
    /// memory.
    ///
    /// ```text
    /// let map = DashMap::with_capacity_and_hasher_and_shard_amount(alloc, 1000, hasher, 8, &table)?; // 8 rows
    /// ```
    pub fn with_capacity_and_hasher_and_shard_amount<T: Copy>(
        alloc: A,
        capacity: usize,
        hasher: S,
        shard_amount: usize,
        table: T,
    ) -> Result<DashMap<K, V, S, Q, A>, MapFault>
    where
        Q: MakeLock<T>,
        ensures made { IfOk result (λ m. (length m.locks ≡ shard_amount) × (m.hasher ≡ hasher)) }
        ensures room { IfOk result (HasRoom Q.put capacity) }
        ensures bad_shards { (result ≡ Err MapFault.BadShards) ↔ ¬ IsShardAmount shard_amount }
        ensures overflow { (result ≡ Err MapFault.CapacityOverflow) ↔
            (IsShardAmount shard_amount × HasNoShare capacity shard_amount) }
    {
        let share = share_for(capacity, shard_amount)?;
        match Made::of(alloc, shard_amount, share, table) {
            Ok(made) => with_given_hasher(made, hasher),
            Err(_) => Err(MapFault::TableFull),
        }
    }

    /// An empty map with that many shards, whose capacity is 0.
    ///
    /// Refused as `BadShards`, `TableFull` or `NoMemory`, in this order. It takes a row of the table for each shard.
    ///
    /// ```text
    /// let map = DashMap::with_hasher_and_shard_amount(alloc, hasher, 8, &table)?; // 8 rows
    /// ```
    pub fn with_hasher_and_shard_amount<T: Copy>(
        alloc: A,
        hasher: S,
        shard_amount: usize,
        table: T,
    ) -> Result<DashMap<K, V, S, Q, A>, MapFault>
    where
        Q: MakeLock<T>,
        ensures made { IfOk result (λ m. (length m.locks ≡ shard_amount) × (m.hasher ≡ hasher)) }
        ensures room { IfOk result (HasRoom Q.put 0) }
        ensures bad_shards { (result ≡ Err MapFault.BadShards) ↔ ¬ IsShardAmount shard_amount }
        ensures fits { ¬ (result ≡ Err MapFault.CapacityOverflow) }
    {
        DashMap::with_capacity_and_hasher_and_shard_amount(alloc, 0, hasher, shard_amount, table)
    }

    /// An empty map with the default shard amount for so many threads, and room for the capacity's share in each shard.
    ///
    /// The default is four shards a thread, rounded up to a power of two; each takes a row. Refusals: as above.
    ///
    /// ```text
    /// let map = DashMap::with_capacity_and_hasher(alloc, 1000, hasher, 3, &table)?; // 16 rows
    /// ```
    pub fn with_capacity_and_hasher<T: Copy>(
        alloc: A,
        capacity: usize,
        hasher: S,
        parallelism: usize,
        table: T,
    ) -> Result<DashMap<K, V, S, Q, A>, MapFault>
    where
        Q: MakeLock<T>,
        ensures made { IfOk result (λ m. IsNextPowerOfTwo (wanted_shards parallelism) (length m.locks)
            × (m.hasher ≡ hasher)) }
        ensures room { IfOk result (HasRoom Q.put capacity) }
        ensures bad_shards { (result ≡ Err MapFault.BadShards) ↔ (2 ^ 16 < wanted_shards parallelism) }
        ensures overflow { (result ≡ Err MapFault.CapacityOverflow) ↔ HasNoDefaultShare capacity parallelism }
    {
        let Some(amount) = default_shards(parallelism) else {
            return Err(MapFault::BadShards);
        };
        DashMap::with_capacity_and_hasher_and_shard_amount(alloc, capacity, hasher, amount, table)
    }

    /// An empty map with the default shard amount for so many threads, whose capacity is 0.
    ///
    /// Refused as `BadShards` (above 16,384 threads), `TableFull` or `NoMemory`, in this order.
    ///
    /// ```text
    /// let map = DashMap::with_hasher(alloc, hasher, 3, &table)?; // 16 rows
    /// ```
    pub fn with_hasher<T: Copy>(
        alloc: A,
        hasher: S,
        parallelism: usize,
        table: T,
    ) -> Result<DashMap<K, V, S, Q, A>, MapFault>
    where
        Q: MakeLock<T>,
        ensures made { IfOk result (λ m. IsNextPowerOfTwo (wanted_shards parallelism) (length m.locks)
            × (m.hasher ≡ hasher)) }
        ensures room { IfOk result (HasRoom Q.put 0) }
        ensures bad_shards { (result ≡ Err MapFault.BadShards) ↔ (2 ^ 16 < wanted_shards parallelism) }
        ensures fits { ¬ (result ≡ Err MapFault.CapacityOverflow) }
    {
        DashMap::with_capacity_and_hasher(alloc, 0, hasher, parallelism, table)
    }

    /// A map with the default shard amount for so many threads, into which the pairs of the iterator are put one after
    /// another: of equal keys the first stays, with the value of the last.
    ///
    /// Refused as `BadShards`, `TableFull` or `NoMemory`, in this order. Refused for memory, it lets the pairs go.
    ///
    /// ```text
    /// let map = DashMap::from_iter(alloc, pairs.into_iter(), hasher, 3, &table)?;
    /// ```
    pub fn from_iter<I: Iterator<Item = (K, V)> + Drop, T: Copy>(
        alloc: A,
        iter: I,
        hasher: S,
        parallelism: usize,
        table: T,
    ) -> Result<DashMap<K, V, S, Q, A>, MapFault>
    where
        Q: MakeLock<T>,
        requires can { I.can_next iter }
        requires ends { IsFinite (I.remaining iter) }
        ensures made { IfOk result (λ m. IsNextPowerOfTwo (wanted_shards parallelism) (length m.locks)
            × (m.hasher ≡ hasher)) }
        ensures all { IfOk result (λ m. (pairs : List (K × V)) × Drains I.next_gives iter pairs
            × All (IsPut Q.taken Q.put S.BuildHasher S.Hasher.Hasher K.hash_input m K.eq) pairs) }
        ensures bad_shards { (result ≡ Err MapFault.BadShards) ↔ (2 ^ 16 < wanted_shards parallelism) }
        ensures fits { ¬ (result ≡ Err MapFault.CapacityOverflow) }
    {
        let mut map = DashMap::default(alloc, hasher, parallelism, table)?;
        match map.extend(iter) {
            Ok(()) => Ok(map),
            Err(_) => Err(MapFault::NoMemory),
        }
    }

    /// The same as `with_hasher`.
    ///
    /// ```text
    /// let map: DashMap<'_, '_, u64, u64, RandomState, HostRuntime> = DashMap::default(alloc, hasher, 4, &table)?;
    /// ```
    pub fn default<T: Copy>(
        alloc: A,
        hasher: S,
        parallelism: usize,
        table: T,
    ) -> Result<DashMap<K, V, S, Q, A>, MapFault>
    where
        Q: MakeLock<T>,
        ensures made { IfOk result (λ m. IsNextPowerOfTwo (wanted_shards parallelism) (length m.locks)
            × (m.hasher ≡ hasher)) }
        ensures room { IfOk result (HasRoom Q.put 0) }
        ensures bad_shards { (result ≡ Err MapFault.BadShards) ↔ (2 ^ 16 < wanted_shards parallelism) }
        ensures fits { ¬ (result ≡ Err MapFault.CapacityOverflow) }
    {
        DashMap::with_hasher(alloc, hasher, parallelism, table)
    }
}

impl<
    K: Eq + Hash + Drop,
    V: Drop,
    Q: RawRwLock + OwnerEvidence<Shard<K, V, A>> + Drop,
    A: Allocator + Clone,
> DashMap<K, V, RandomState, Q, A>
where
    Q::Runtime: RandomSource,
{
    /// An empty map with that many shards, room for the capacity's share in each, and a hasher that the locks' runtime
    /// makes: its hashes differ from run to run.
    ///
    /// Refused as `with_capacity_and_hasher_and_shard_amount`, and as `NoRandom` right before `NoMemory`.
    ///
    /// ```text
    /// let map = DashMap::with_capacity_and_shard_amount(alloc, 1000, 8, &table)?; // 8 rows
    /// ```
    pub fn with_capacity_and_shard_amount<T: Copy>(
        alloc: A,
        capacity: usize,
        shard_amount: usize,
        table: T,
    ) -> Result<DashMap<K, V, RandomState, Q, A>, NewFault>
    where
        Q: MakeLock<T>,
        ensures made { IfOk result (λ m. length m.locks ≡ shard_amount) }
        ensures room { IfOk result (HasRoom Q.put capacity) }
        ensures bad_shards { (result ≡ Err (NewFault.Map MapFault.BadShards)) ↔ ¬ IsShardAmount shard_amount }
        ensures overflow { (result ≡ Err (NewFault.Map MapFault.CapacityOverflow)) ↔
            (IsShardAmount shard_amount × HasNoShare capacity shard_amount) }
    {
        let share = share_for(capacity, shard_amount)?;
        match Made::of(alloc, shard_amount, share, table) {
            Ok(made) => with_own_hasher(made),
            Err(_) => Err(NewFault::Map(MapFault::TableFull)),
        }
    }

    /// An empty map with that many shards, whose capacity is 0, and a hasher that the locks' runtime makes.
    ///
    /// Refused as `BadShards`, `TableFull`, `NoRandom` or `NoMemory`, in this order.
    ///
    /// ```text
    /// let map = DashMap::with_shard_amount(alloc, 8, &table)?; // 8 rows
    /// ```
    pub fn with_shard_amount<T: Copy>(
        alloc: A,
        shard_amount: usize,
        table: T,
    ) -> Result<DashMap<K, V, RandomState, Q, A>, NewFault>
    where
        Q: MakeLock<T>,
        ensures made { IfOk result (λ m. length m.locks ≡ shard_amount) }
        ensures room { IfOk result (HasRoom Q.put 0) }
        ensures bad_shards { (result ≡ Err (NewFault.Map MapFault.BadShards)) ↔ ¬ IsShardAmount shard_amount }
        ensures fits { ¬ (result ≡ Err (NewFault.Map MapFault.CapacityOverflow)) }
    {
        DashMap::with_capacity_and_shard_amount(alloc, 0, shard_amount, table)
    }

    /// An empty map with the default shard amount for so many threads, room for the capacity's share in each shard, and
    /// a hasher that the locks' runtime makes. Refusals: as `with_capacity_and_shard_amount`.
    ///
    /// ```text
    /// let map = DashMap::with_capacity(alloc, 1000, 3, &table)?; // 16 rows
    /// ```
    pub fn with_capacity<T: Copy>(
        alloc: A,
        capacity: usize,
        parallelism: usize,
        table: T,
    ) -> Result<DashMap<K, V, RandomState, Q, A>, NewFault>
    where
        Q: MakeLock<T>,
        ensures made { IfOk result (λ m. IsNextPowerOfTwo (wanted_shards parallelism) (length m.locks)) }
        ensures room { IfOk result (HasRoom Q.put capacity) }
        ensures bad_shards { (result ≡ Err (NewFault.Map MapFault.BadShards)) ↔ (2 ^ 16 < wanted_shards parallelism) }
        ensures overflow { (result ≡ Err (NewFault.Map MapFault.CapacityOverflow)) ↔ HasNoDefaultShare capacity
            parallelism }
    {
        let Some(amount) = default_shards(parallelism) else {
            return Err(NewFault::Map(MapFault::BadShards));
        };
        DashMap::with_capacity_and_shard_amount(alloc, capacity, amount, table)
    }

    /// An empty map with the default shard amount for so many threads, whose capacity is 0, and a hasher that the
    /// locks' runtime makes. Refusals: as `with_shard_amount`.
    ///
    /// ```text
    /// let map = DashMap::new(alloc, 3, &table)?; // 16 rows
    /// ```
    pub fn new<T: Copy>(
        alloc: A,
        parallelism: usize,
        table: T,
    ) -> Result<DashMap<K, V, RandomState, Q, A>, NewFault>
    where
        Q: MakeLock<T>,
        ensures made { IfOk result (λ m. IsNextPowerOfTwo (wanted_shards parallelism) (length m.locks)) }
        ensures room { IfOk result (HasRoom Q.put 0) }
        ensures bad_shards { (result ≡ Err (NewFault.Map MapFault.BadShards)) ↔ (2 ^ 16 < wanted_shards parallelism) }
        ensures fits { ¬ (result ≡ Err (NewFault.Map MapFault.CapacityOverflow)) }
    {
        DashMap::with_capacity(alloc, 0, parallelism, table)
    }
}
