//! Whether pairs are where a look-up looks for them.
ghost use Rattle.std.specs.Prelude.{◌↔◌, IsTrue, IfSome, length};
ghost use Rattle.dashmap_table.specs.Route.{IsShardAmount};
ghost use Rattle.dashmap_table.specs.Slots.{at};
ghost use Rattle.dashmap_table.specs.Table.{IsSound};
ghost use Rattle.dashmap_table.specs.Shards.{table_at};
ghost use Rattle.dashmap_view.specs.Views.{IsHome, IsShardHome, AreRouted, AllSound};

use dashmap_table::{Shard, route};
use std::alloc::Allocator;
use std::hash::{BuildHasher, Hash};

/// Whether the pair in a slot of shard `number` is kept under its key's hash, and belongs to that shard.
fn is_home<K: Eq + Hash, V, S: BuildHasher, A: Allocator>(
    shard: &Shard<K, V, A>,
    slot: usize,
    number: usize,
    amount: usize,
    hasher: &S,
) -> bool
    requires { IsShardAmount amount }
    ensures { IfSome (at shard.now.slots slot)
        (λ e. IsTrue result ↔ IsHome S.BuildHasher S.Hasher.Hasher K.hash_input hasher.now amount number e) }
{
    match (shard.hash_of(slot), shard.pair(slot)) {
        (Some(kept), Some((key, _))) => {
            let hash = hasher.hash_one(key);
            kept == hash && route(hash, amount) == number
        }
        _ => true,
    }
}

/// Whether each pair of shard `number` is.
fn is_shard_home<K: Eq + Hash, V, S: BuildHasher, A: Allocator>(
    shard: &Shard<K, V, A>,
    number: usize,
    amount: usize,
    hasher: &S,
) -> bool
    requires { IsShardAmount amount }
    ensures home { IsTrue result ↔ IsShardHome S.BuildHasher S.Hasher.Hasher K.hash_input hasher.now amount number
        shard.now }
    ensures sound { IsSound K.eq shard.now }
{
    let mut slot = 0;
    if shard.len() == 0 {
        return true;
    }
    while let Some(full) = shard.next_from(slot) {
        if !is_home(shard, full, number, amount, hasher) {
            return false;
        }
        slot = full + 1;
    }
    true
}

/// Whether each pair of each shard is.
pub(crate) fn are_routed<K: Eq + Hash, V, S: BuildHasher, A: Allocator>(
    shards: &[Shard<K, V, A>],
    hasher: &S,
) -> bool
    requires { IsShardAmount (length shards.now) }
    ensures routed { IsTrue result ↔ AreRouted S.BuildHasher S.Hasher.Hasher K.hash_input hasher.now shards.now }
    ensures sound { IsTrue result → AllSound K.eq shards.now }
{
    for (number, shard) in shards.iter().enumerate() {
        if !is_shard_home(shard, number, shards.len(), hasher) {
            return false;
        }
    }
    true
}
