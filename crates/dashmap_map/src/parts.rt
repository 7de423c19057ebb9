//! What a layer above makes of a map: its shards behind their locks.
//!
//! These are functions of a module, and no methods: who has a shard's lock may put a pair into a shard that isn't the one
//! of its key's route, where no call finds it.
ghost use Rattle.std.specs.Prelude.{◌≡◌, length};
ghost use Rattle.dashmap_table.specs.Route.{IsShardAmount};

use crate::map::DashMap;
use crossbeam_utils::CachePadded;
use dashmap_table::Shard;
use lock_api_rw::RwLock;
use std::alloc::Allocator;
use std::hash::{BuildHasher, Hash};

/// Lends the allocator that a map keeps.
pub fn allocator<K: Eq + Hash, V, S: BuildHasher, Q, A: Allocator>(
    map: &DashMap<K, V, S, Q, A>,
) -> &A {
    map.shards.allocator()
}

/// Lends the shards of a map in their order, each behind its lock.
pub fn shard_locks<K: Eq + Hash, V, S: BuildHasher, Q, A: Allocator>(
    map: &DashMap<K, V, S, Q, A>,
) -> &[CachePadded<RwLock<Q, Shard<K, V, A>>>]
    ensures locks { result.now ≡ map.now.locks }
    ensures amount { IsShardAmount (length map.now.locks) }
{
    &map.shards
}

/// Takes a map apart: its shards behind their locks, as many without pairs, and the hasher.
pub fn into_parts<K: Eq + Hash, V, S: BuildHasher, Q, A: Allocator>(
    map: DashMap<K, V, S, Q, A>,
) -> (
    Vec<CachePadded<RwLock<Q, Shard<K, V, A>>>, A>,
    Vec<Shard<K, V, A>, A>,
    S,
)
    ensures locks { result.0.items ≡ map.locks }
    ensures spare { length result.1.items ≡ length map.locks }
    ensures hasher { result.2 ≡ map.hasher }
    ensures amount { IsShardAmount (length map.locks) }
{
    let DashMap {
        shards,
        spare,
        hasher,
    } = map;
    (shards, spare, hasher)
}

/// Puts a map together of shards behind their locks, as many without pairs, and a hasher. Each pair has to be in the
/// shard of its route, or its key doesn't find it.
pub fn from_parts<K: Eq + Hash, V, S: BuildHasher, Q, A: Allocator>(
    locks: Vec<CachePadded<RwLock<Q, Shard<K, V, A>>>, A>,
    spare: Vec<Shard<K, V, A>, A>,
    hasher: S,
) -> DashMap<K, V, S, Q, A>
    requires amount { IsShardAmount (length locks.items) }
    requires spare { length spare.items ≡ length locks.items }
    ensures locks { result.locks ≡ locks.items }
    ensures hasher { result.hasher ≡ hasher }
{
    DashMap {
        shards: locks,
        spare,
        hasher,
    }
}
