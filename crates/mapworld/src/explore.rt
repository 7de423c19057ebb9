//! What one who goes through schedules looks at: where each thread stands, the tables of the shards, and their locks.
ghost use Rattle.std.specs.Prelude.{◌≡◌, length, map, slice_get};
ghost use Rattle.std.specs.Option.{option_map};
ghost use Rattle.mapworld_state.specs.Locks.Views.{owner_in};
ghost use Rattle.mapworld_state.specs.Places.{place_of};
ghost use Rattle.mapworld_state.specs.Shards.{shard_pairs};

use crate::world::MapWorld;
use dashmap_table::Shard;
use lock_api_desk::Mode;
use mapworld_calls::Deed;
use mapworld_state::Place;
use mapworld_state::locks::ShardLocks;
use std::alloc::Allocator;
use std::hash::{BuildHasher, Hash};

/// What the next steps depend on, step numbers aside: two worlds of the same programs of which all this is the same go
/// on alike. It is lent, takes no memory and cannot fail.
impl<K: Eq + Hash, V, S: BuildHasher, D: Deed<K, V>, A: Allocator> MapWorld<K, V, S, D, A> {
    /// How many shards the world has. They are numbered from 0.
    pub fn shards(&self) -> usize
        ensures { result ≡ length self.now.tables }
    {
        self.core.tables.len()
    }

    /// Where a thread stands: the calls that it hasn't started, what its next step is, its shard, its holds and its
    /// guard, and what its walk has read. `None` of a thread that the world doesn't have.
    pub fn place(&self, thread: usize) -> Option<&Place<K, V, D, D::Answer, A>>
        ensures { option_map (λ place. place_of place.now) result ≡ slice_get self.now.places thread }
    {
        match self.core.places.get(thread) {
            Some(place) => Some(place),
            None => None,
        }
    }

    /// The tables of the shards, in their order: pairs by their slots, and room.
    pub fn tables(&self) -> &[Shard<K, V, A>]
        ensures { map shard_pairs result.now ≡ self.now.tables }
    {
        &self.core.tables
    }

    /// The locks of the shards: words, queues and owners, and where each thread's call at a lock stands.
    pub fn locks(&self) -> &ShardLocks<A>
        ensures { result.now ≡ self.now.locks }
    {
        &self.core.locks
    }

    /// How a thread holds a shard now; `None` where it doesn't, or the world doesn't have the thread or the shard.
    pub fn hold(&self, thread: usize, shard: usize) -> Option<Mode>
        ensures { result ≡ owner_in self.now.locks shard thread }
    {
        self.core.locks.owner(thread, shard)
    }
}
