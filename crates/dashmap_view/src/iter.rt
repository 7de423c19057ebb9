//! Walks over the pairs of a view, lent.
ghost use Rattle.std.specs.Prelude.{◌≡◌, map};
ghost use Rattle.std.specs.Iterator.{YieldsFirstBy, YieldsFirstRef, item_count};
ghost use Rattle.dashmap_view.specs.Views.{all_pairs};

use dashmap_table::Shard;
use std::alloc::{Allocator, Global};
use std::hash::Hash;
use std::iter::FusedIterator;
use std::marker::Model;

/// The pairs of a view, lent, shards and their slots in order. A contract sees the list of those that are left.
///
/// It takes no memory. Each pair comes once, and behind the last it gives `None` for good.
#[derive(Drop)]
pub struct ViewIter<'v, K: Eq + Hash, V, A: Allocator = Global> {
    shards: &'v [Shard<K, V, A>],
    slot: usize,
}

impl<'v, K: Eq + Hash, V, A: Allocator> Model for ViewIter<'v, K, V, A> {
    ghost use Rattle.std.specs.Prelude.{List};
    ghost use Rattle.dashmap_view.specs.Views.{pairs_from};

    ghost Value = { List (K × V) };

    ghost view = { λ it. pairs_from it.slot it.shards.now };
}

impl<'v, K: Eq + Hash, V, A: Allocator> ViewIter<'v, K, V, A> {
    /// The pairs of these shards, for whoever keeps plain shards of their own.
    ///
    /// ```text
    /// let sum: u64 = ViewIter::new(&shards).map(|(_, value)| *value).sum();
    /// ```
    pub fn new(shards: &'v [Shard<K, V, A>]) -> ViewIter<'v, K, V, A>
        ensures { result ≡ all_pairs shards.now }
    {
        ViewIter { shards, slot: 0 }
    }
}

impl<'v, K: Eq + Hash, V, A: Allocator> Iterator for ViewIter<'v, K, V, A> {
    type Item = (&'v K, &'v V);

    ghost next_gives = { YieldsFirstBy (λ p. (p.0.now, p.1.now)) (λ rest. rest) };

    ghost remaining = { item_count (λ rest. rest) };

    fn next(&mut self) -> Option<(&'v K, &'v V)> {
        while let Some((shard, rest)) = self.shards.split_first() {
            if let Some(slot) = shard.next_from(self.slot) {
                self.slot = slot + 1;
                return shard.pair(slot);
            }
            self.shards = rest;
            self.slot = 0;
        }
        None
    }
}

impl<K: Eq + Hash, V, A: Allocator> FusedIterator for ViewIter<'_, K, V, A> {}

/// The keys of a view, in the order of its pairs. A contract sees the list of those that are left.
#[derive(Drop)]
pub struct ViewKeys<'v, K: Eq + Hash, V, A: Allocator = Global> {
    pairs: ViewIter<'v, K, V, A>,
}

impl<'v, K: Eq + Hash, V, A: Allocator> Model for ViewKeys<'v, K, V, A> {
    ghost use Rattle.std.specs.Prelude.{List, map};

    ghost Value = { List K };

    ghost view = { λ it. map (λ p. p.0) it.pairs };
}

impl<'v, K: Eq + Hash, V, A: Allocator> ViewKeys<'v, K, V, A> {
    pub(crate) fn new(pairs: ViewIter<'v, K, V, A>) -> ViewKeys<'v, K, V, A>
        ensures { result ≡ map (λ p. p.0) pairs.entry }
    {
        ViewKeys { pairs }
    }
}

impl<'v, K: Eq + Hash, V, A: Allocator> Iterator for ViewKeys<'v, K, V, A> {
    type Item = &'v K;

    ghost next_gives = { YieldsFirstRef (λ rest. rest) };

    ghost remaining = { item_count (λ rest. rest) };

    fn next(&mut self) -> Option<&'v K> {
        let (key, _) = self.pairs.next()?;
        Some(key)
    }
}

impl<K: Eq + Hash, V, A: Allocator> FusedIterator for ViewKeys<'_, K, V, A> {}

/// The values of a view, in the order of its pairs. A contract sees the list of those that are left.
#[derive(Drop)]
pub struct ViewValues<'v, K: Eq + Hash, V, A: Allocator = Global> {
    pairs: ViewIter<'v, K, V, A>,
}

impl<'v, K: Eq + Hash, V, A: Allocator> Model for ViewValues<'v, K, V, A> {
    ghost use Rattle.std.specs.Prelude.{List, map};

    ghost Value = { List V };

    ghost view = { λ it. map (λ p. p.1) it.pairs };
}

impl<'v, K: Eq + Hash, V, A: Allocator> ViewValues<'v, K, V, A> {
    pub(crate) fn new(pairs: ViewIter<'v, K, V, A>) -> ViewValues<'v, K, V, A>
        ensures { result ≡ map (λ p. p.1) pairs.entry }
    {
        ViewValues { pairs }
    }
}

impl<'v, K: Eq + Hash, V, A: Allocator> Iterator for ViewValues<'v, K, V, A> {
    type Item = &'v V;

    ghost next_gives = { YieldsFirstRef (λ rest. rest) };

    ghost remaining = { item_count (λ rest. rest) };

    fn next(&mut self) -> Option<&'v V> {
        let (_, value) = self.pairs.next()?;
        Some(value)
    }
}

impl<K: Eq + Hash, V, A: Allocator> FusedIterator for ViewValues<'_, K, V, A> {}
