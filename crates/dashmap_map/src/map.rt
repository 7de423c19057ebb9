//! The map, and where its keys are.
ghost use Rattle.std.specs.Prelude.{◌≡◌, ◌<◌, length, Some, IsTrue};
ghost use Rattle.dashmap_table.specs.Route.{IsShardAmount, route_of};
ghost use Rattle.dashmap_table.specs.Shards.{key_hash};
ghost use Rattle.dashmap_map.specs.Locked.{lock_at, lock_of, shard_of};

use crossbeam_utils::CachePadded;
use dashmap_table::{Shard, route};
use lock_api_rw::RwLock;
use std::alloc::{Allocator, Global};
use std::hash::{BuildHasher, Hash};
use std::marker::Model;

/// A map that threads share by reference: shards, each behind a lock, and a hasher.
///
/// A contract sees the raw locks and the hasher (`Locked`): what lies behind a lock is known to its holder alone.
///
/// ```text
/// let map = DashMap::with_hasher_and_shard_amount(alloc, hasher, 4, &table)?;
/// map.insert("seven", 7u64, &mut me)?;                   // no old value
/// let guard = map.get(&"seven", &mut me).ok_or("gone")?; // the pair, lent until the guard is dropped
/// ```
#[derive(Drop)]
pub struct DashMap<K: Eq + Hash, V, S: BuildHasher, Q, A: Allocator = Global> {
    pub(crate) shards: Vec<CachePadded<RwLock<Q, Shard<K, V, A>>>, A>,
    /// As many shards without pairs: room for the map's plain shards.
    pub(crate) spare: Vec<Shard<K, V, A>, A>,
    pub(crate) hasher: S,
}

impl<K: Eq + Hash, V, S: BuildHasher, Q, A: Allocator> Model for DashMap<K, V, S, Q, A> {
    ghost use Rattle.std.specs.Prelude.{◌≡◌, length};
    ghost use Rattle.dashmap_table.specs.Route.{IsShardAmount};
    ghost use Rattle.dashmap_map.specs.Locked.{Locked};

    ghost Value = { Locked Q S };

    ghost view = { λ m. record { locks = m.shards.items; hasher = m.hasher } };

    ghost invariant = { λ m. IsShardAmount (length m.shards.items) × (length m.spare.items ≡ length m.shards.items) };
}

impl<K: Eq + Hash, V, S: BuildHasher, Q, A: Allocator> DashMap<K, V, S, Q, A> {
    /// Lends the hasher.
    ///
    /// ```text
    /// let hash = map.hasher().hash_one(&7u64);
    /// ```
    pub fn hasher(&self) -> &S
        ensures { result.now ≡ self.now.hasher }
    {
        &self.hasher
    }

    /// The hasher's hash of anything that can be hashed. `determine_shard` takes it.
    ///
    /// ```text
    /// let shard = map.determine_shard(map.hash_usize(&key)); // as `map.determine_map(&key)`
    /// ```
    pub fn hash_usize<T: Eq + Hash>(&self, item: &T) -> usize
        ensures { result ≡ key_hash S.BuildHasher S.Hasher.Hasher T.hash_input self.now.hasher item.now }
    {
        self.hasher.hash_one(item) as usize
    }

    /// The number of the shard that a hash belongs to.
    ///
    /// ```text
    /// let same = map.determine_shard(map.hash_usize(&7)) == map.determine_map(&7);   // true
    /// ```
    pub fn determine_shard(&self, hash: usize) -> usize
        ensures value { result ≡ route_of hash (length self.now.locks) }
        ensures below { result < length self.now.locks }
        ensures amount { IsShardAmount (length self.now.locks) }
    {
        route(hash as u64, self.shards.len())
    }

    /// The number of the shard that a key belongs to. Equal keys belong to one shard, so their calls wait for one
    /// another.
    ///
    /// ```text
    /// let apart = map.determine_map(&1) != map.determine_map(&2); // then guards of both never meet
    /// ```
    pub fn determine_map(&self, key: &K) -> usize
        ensures value { result ≡ shard_of S.BuildHasher S.Hasher.Hasher K.hash_input self.now key.now }
        ensures below { result < length self.now.locks }
        ensures same { (other : K) → IsTrue (K.eq key.now other) → shard_of S.BuildHasher S.Hasher.Hasher K.hash_input
            self.now other ≡ result }
    {
        self.determine_shard(self.hash_usize(key))
    }

    /// A shard behind its lock.
    #[inline(always)]
    pub(crate) fn shard_lock(&self, shard: usize) -> &RwLock<Q, Shard<K, V, A>>
        requires { shard < length self.now.locks }
        ensures { lock_at self.now shard ≡ Some result.now }
    {
        &*self.shards[shard]
    }

    /// The hash of a key, and its shard behind its lock.
    #[inline(always)]
    pub(crate) fn place_of(&self, key: &K) -> (u64, &RwLock<Q, Shard<K, V, A>>)
        ensures hash { result.0 ≡ key_hash S.BuildHasher S.Hasher.Hasher K.hash_input self.now.hasher key.now }
        ensures lock { lock_of S.BuildHasher S.Hasher.Hasher K.hash_input self.now key.now ≡ Some result.1.now }
    {
        let hash = self.hasher.hash_one(key);
        let shard = route(hash, self.shards.len());
        (hash, &*self.shards[shard])
    }
}
