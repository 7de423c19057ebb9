//! The pairs of a view that is given up.
ghost use Rattle.std.specs.Prelude.{◌≡◌};
ghost use Rattle.std.specs.Iterator.{YieldsFirst, item_count};
ghost use Rattle.dashmap_view.specs.Views.{all_pairs};

use dashmap_table::{Shard, ShardPairs};
use std::alloc::{Allocator, Global};
use std::hash::Hash;
use std::iter::FusedIterator;
use std::marker::Model;
use std::vec;

/// The pairs of shards that are given up, shards and their slots in order. A contract sees the list of those that are
/// left.
///
/// It gives up a shard's memory once its pairs are given, and takes none. Each pair comes once, and behind the last it
/// gives `None` for good.
#[derive(Drop)]
pub struct OwningIter<K: Eq + Hash, V, A: Allocator = Global> {
    pairs: Option<ShardPairs<K, V, A>>,
    shards: vec::IntoIter<Shard<K, V, A>, A>,
}

impl<K: Eq + Hash, V, A: Allocator> Model for OwningIter<K, V, A> {
    ghost use Rattle.std.specs.Prelude.{List};
    ghost use Rattle.std.specs.Vec.Iter.{into_iter_items};
    ghost use Rattle.dashmap_view.specs.Owning.{pairs_left};

    ghost Value = { List (K × V) };

    ghost view = { λ it. pairs_left it.pairs (into_iter_items it.shards) };
}

impl<K: Eq + Hash, V, A: Allocator> OwningIter<K, V, A> {
    /// The pairs of these shards.
    ///
    /// ```text
    /// let pairs = OwningIter::new(shards);
    /// ```
    pub fn new(shards: Vec<Shard<K, V, A>, A>) -> OwningIter<K, V, A>
        ensures { result ≡ all_pairs shards.items }
    {
        OwningIter {
            pairs: None,
            shards: shards.into_iter(),
        }
    }
}

impl<K: Eq + Hash + Drop, V: Drop, A: Allocator> Iterator for OwningIter<K, V, A> {
    type Item = (K, V);

    ghost next_gives = { YieldsFirst (λ rest. rest) };

    ghost remaining = { item_count (λ rest. rest) };

    fn next(&mut self) -> Option<(K, V)> {
        loop {
            if let Some(pairs) = &mut self.pairs
                && let Some(pair) = pairs.next()
            {
                return Some(pair);
            }
            self.pairs = Some(self.shards.next()?.into_pairs());
        }
    }
}

impl<K: Eq + Hash + Drop, V: Drop, A: Allocator> FusedIterator for OwningIter<K, V, A> {}
