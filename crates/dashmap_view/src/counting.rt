//! How many pairs some shards have, and for how many they have room.
ghost use Rattle.std.specs.Prelude.{◌≡◌};
ghost use Rattle.dashmap_view.specs.Views.{pair_count, room_in, at_most_max};

use dashmap_table::Shard;
use std::alloc::Allocator;
use std::hash::Hash;

/// How many pairs there are. It stops at `usize::MAX`.
pub(crate) fn pairs_in<K: Eq + Hash, V, A: Allocator>(shards: &[Shard<K, V, A>]) -> usize
    ensures { result ≡ at_most_max (pair_count shards.now) }
{
    let mut pairs = 0usize;
    for shard in shards {
        pairs = pairs.saturating_add(shard.len());
    }
    pairs
}

/// For how many pairs there is room. It stops at `usize::MAX`.
pub(crate) fn room_for<K: Eq + Hash, V, A: Allocator>(shards: &[Shard<K, V, A>]) -> usize
    ensures { result ≡ at_most_max (room_in shards.now) }
{
    let mut room = 0usize;
    for shard in shards {
        room = room.saturating_add(shard.capacity());
    }
    room
}
