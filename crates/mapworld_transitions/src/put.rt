//! How a pair gets into a shard, whether its key is there or not.
ghost use Rattle.std.specs.Prelude.{◌≡◌, not, is_some, IfOk, OnErr, Some};
ghost use Rattle.dashmap_table.specs.Shards.{put_over};
ghost use Rattle.mapworld_calls.specs.Pairs.{pair_of};
ghost use Rattle.mapworld_state.specs.Shards.{shard_pairs, Puts};
ghost use Rattle.mapworld_state.specs.Slots.{HasHashes, key_hash};

use dashmap_table::{NoMemory, Shard};
use std::alloc::Allocator;
use std::hash::{BuildHasher, Hash};

/// Puts a pair in: a key that is there keeps its stored key and gets the value. Whether the key is new.
///
/// A new one may need memory. Where that is short nothing is changed, and the pair is let go.
pub fn put_pair<K: Eq + Hash + Drop, V: Drop, S: BuildHasher, A: Allocator + Clone>(
    shard: &mut Shard<K, V, A>,
    hasher: &S,
    key: K,
    value: V,
) -> Result<bool, NoMemory>
    requires hashed { HasHashes (key_hash S.BuildHasher S.Hasher.Hasher K.hash_input hasher.now) shard.old }
    ensures new { IfOk result (λ new. new ≡ not (is_some (pair_of K.eq (shard_pairs shard.old).items key))) }
    ensures puts { IfOk result (λ _. let was = pair_of K.eq (shard_pairs shard.old).items key in
        Puts K.eq (shard_pairs shard.old) (shard_pairs shard.new) key (Some (put_over was key value))) }
    ensures refused { OnErr result (shard.new ≡ shard.old) }
    ensures hashed { HasHashes (key_hash S.BuildHasher S.Hasher.Hasher K.hash_input hasher.now) shard.new }
{
    let count = shard.len();
    match shard.insert(hasher.hash_one(&key), key, value) {
        Ok(_) => Ok(count < shard.len()),
        Err(_) => Err(NoMemory),
    }
}
