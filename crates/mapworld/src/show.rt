//! A world's text.

use crate::world::MapWorld;
use dashmap_table::Shard;
use dashmap_view::ViewIter;
use mapworld_calls::Deed;
use std::alloc::Allocator;
use std::fmt;
use std::fmt::Debug;
use std::hash::{BuildHasher, Hash};

/// Where each thread stands.
#[derive(Drop)]
struct Threads<'w, K: Eq + Hash, V, S: BuildHasher, D: Deed<K, V>, A: Allocator>(
    &'w MapWorld<K, V, S, D, A>,
);

impl<K: Eq + Hash, V, S: BuildHasher, D: Deed<K, V>, A: Allocator> Debug
    for Threads<'_, K, V, S, D, A> {
    fn fmt<F: fmt::Write>(&self, f: &mut fmt::Formatter<F>) -> fmt::Result {
        let mut out = f.debug_list();
        for thread in 0..self.0.threads() {
            out.entry(&self.0.status(thread));
        }
        out.finish()
    }
}

/// The word of each shard's lock.
#[derive(Drop)]
struct Words<'w, K: Eq + Hash, V, S: BuildHasher, D: Deed<K, V>, A: Allocator>(
    &'w MapWorld<K, V, S, D, A>,
);

impl<K: Eq + Hash, V, S: BuildHasher, D: Deed<K, V>, A: Allocator> Debug
    for Words<'_, K, V, S, D, A> {
    fn fmt<F: fmt::Write>(&self, f: &mut fmt::Formatter<F>) -> fmt::Result {
        let mut out = f.debug_list();
        for shard in 0..self.0.shards() {
            out.entry(&self.0.word(shard));
        }
        out.finish()
    }
}

/// The pairs of all shards.
#[derive(Drop)]
struct Contents<'w, K: Eq + Hash, V, A: Allocator>(&'w [Shard<K, V, A>]);

impl<K: Eq + Hash + Debug, V: Debug, A: Allocator> Debug for Contents<'_, K, V, A> {
    fn fmt<F: fmt::Write>(&self, f: &mut fmt::Formatter<F>) -> fmt::Result {
        f.debug_map().entries(ViewIter::new(self.0)).finish()
    }
}

/// How many steps were made, where each thread stands, the word of each shard's lock and the pairs, as
/// `MapWorld { steps: 3, threads: [Running, Running], words: [0, 8], pairs: {3: 7} }`.
impl<K, V, S, D, A> Debug for MapWorld<K, V, S, D, A>
where
    K: Eq + Hash + Debug,
    V: Debug,
    S: BuildHasher,
    D: Deed<K, V>,
    A: Allocator,
{
    fn fmt<F: fmt::Write>(&self, f: &mut fmt::Formatter<F>) -> fmt::Result {
        f.debug_struct("MapWorld")
            .field("steps", &self.steps())
            .field("threads", &Threads(self))
            .field("words", &Words(self))
            .field("pairs", &Contents(self.tables()))
            .finish()
    }
}
