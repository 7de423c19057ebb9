//! What the code keeps of a world.

use crate::locks::ShardLocks;
use crate::place::Place;
use crate::step::Step;
use dashmap_table::Shard;
use mapworld_calls::past::Past;
use mapworld_calls::{Ask, Block, Reply};
use std::alloc::Allocator;
use std::hash::Hash;
use std::snapshot::Snapshot;

/// A world's parts. Each step changes them by the definition of its kind.
#[derive(Drop)]
pub struct Core<K: Eq + Hash, V, S, D, T, A: Allocator> {
    pub hasher: S,
    /// The pairs that it was made with, for contracts alone.
    pub opening: Snapshot<Vec<(K, V), A>>,
    /// The programs that it was made with, for contracts alone.
    pub programs: Snapshot<Vec<Vec<Ask<K, V, D>, A>, A>>,
    /// The steps so far, for contracts alone.
    pub steps: Past<Step>,
    /// How many steps there were.
    pub count: u64,
    /// How many pairs all tables have.
    pub pairs: u64,
    /// How many calls aren't answered.
    pub unanswered: u64,
    /// Where each thread stands.
    pub places: Vec<Place<K, V, D, T, A>, A>,
    /// The pairs of each shard.
    pub tables: Vec<Shard<K, V, A>, A>,
    /// The lock of each shard, and the desk beside its word.
    pub locks: ShardLocks<A>,
    pub blocks: Vec<Block<K>, A>,
    pub replies: Vec<Reply<K, V, T, A>, A>,
}
