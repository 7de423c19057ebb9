//! Which shard a key is on.
ghost use Rattle.std.specs.Prelude.{◌≡◌, ◌<◌, ◌↔◌, IsTrue};
ghost use Rattle.dashmap_table.specs.Route.{route_of, hash_of};
ghost use Rattle.mapworld_state.specs.Route.{IsWorldAmount};

use dashmap_table::{is_shard_amount, route};
use std::hash::{BuildHasher, Hash};

/// Whether a world may have so many shards: a power of two from 2 to 4,096.
pub fn is_world_amount(shards: usize) -> bool
    ensures { IsTrue result ↔ IsWorldAmount shards }
{
    shards <= 4096 && is_shard_amount(shards)
}

/// The shard of a key, which is also that of every equal key.
pub fn shard_of<K: Eq + Hash, S: BuildHasher>(hasher: &S, shards: usize, key: &K) -> usize
    requires { IsWorldAmount shards }
    ensures value { result ≡ route_of (hash_of S.BuildHasher S.Hasher.Hasher hasher.now (K.hash_input key.now)) shards }
    ensures below { result < shards }
    ensures equal_keys { (other : K) → IsTrue (K.eq key.now other)
        → route_of (hash_of S.BuildHasher S.Hasher.Hasher hasher.now (K.hash_input other)) shards ≡ result }
{
    route(hasher.hash_one(key), shards)
}
