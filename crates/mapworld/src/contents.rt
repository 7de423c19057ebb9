//! The pairs of all shards.
ghost use Rattle.std.specs.Prelude.{◌≡◌, map, IfOk};
ghost use Rattle.std.specs.Option.{option_map};
ghost use Rattle.mapworld_calls.specs.Pairs.{pair_of, AreDistinct};
ghost use Rattle.mapworld_state.specs.Shards.{shard_pairs};
ghost use Rattle.mapworld_state.specs.Slots.{HasHashes, key_hash};
ghost use Rattle.dashmap_view.specs.Views.{all_pairs};
ghost use Rattle.mapworld.specs.Views.{shown};

use dashmap_table::{NoMemory, Shard};
use dashmap_view::ViewIter;
use mapworld_transitions::pairs::{find_pair, pair_at};
use std::alloc::Allocator;
use std::hash::{BuildHasher, Hash};

/// References to the pairs of all shards, in their order.
pub(crate) fn pairs_in<'a, K: Eq + Hash, V, A: Allocator + Drop>(
    shards: &'a [Shard<K, V, A>],
    alloc: A,
) -> Result<Vec<(&'a K, &'a V), A>, NoMemory>
    ensures { IfOk result (λ pairs. map shown pairs.items ≡ all_pairs shards.now) }
{
    let mut list = Vec::new(alloc);
    for pair in ViewIter::new(shards) {
        list.push(pair)?;
    }
    Ok(list)
}

/// References to the key's pair in its shard, if there is one.
pub(crate) fn pair_in<'a, K: Eq + Hash, V, S: BuildHasher, A: Allocator>(
    shard: &'a Shard<K, V, A>,
    hasher: &S,
    key: &K,
) -> Option<(&'a K, &'a V)>
    requires hashed { HasHashes (key_hash S.BuildHasher S.Hasher.Hasher K.hash_input hasher.now) shard.now }
    requires distinct { AreDistinct K.eq (shard_pairs shard.now).items }
    ensures { option_map shown result ≡ pair_of K.eq (shard_pairs shard.now).items key.now }
{
    match find_pair(shard, hasher, key) {
        Some(slot) => Some(pair_at(shard, slot)),
        None => None,
    }
}
