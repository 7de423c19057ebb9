//! The pairs of a shard, one after another.
ghost use Rattle.std.specs.Prelude.{◌≡◌, length, Some, IfSome};
ghost use Rattle.std.specs.Iterator.{YieldsFirst, UpTo, at_most, item_count};
ghost use Rattle.std.specs.Iterator.SizeHint.{IsWithinCount};
ghost use Rattle.dashmap_table.specs.Slots.{pairs_of};

use crate::entry::Entry;
use std::alloc::{Allocator, Global};
use std::marker::Model;
use std::vec;

/// The pairs of a shard that was given up, in the order of its slots. A contract sees the list of those that are left.
///
/// It keeps the shard's memory until it is dropped, and takes none.
#[derive(Drop)]
pub struct ShardPairs<K, V, A: Allocator = Global> {
    slots: vec::IntoIter<Option<Entry<K, V>>, A>,
    left: usize,
}

impl<K, V, A: Allocator> Model for ShardPairs<K, V, A> {
    ghost use Rattle.std.specs.Prelude.{◌≡◌, List, length};
    ghost use Rattle.std.specs.Vec.Iter.{into_iter_items};

    ghost Value = { List (K × V) };

    ghost use Rattle.dashmap_table.specs.Slots.{pairs_of};

    ghost view = { λ it. pairs_of (into_iter_items it.slots) };

    ghost invariant = { λ it. it.left ≡ length (pairs_of (into_iter_items it.slots)) };
}

impl<K, V, A: Allocator> ShardPairs<K, V, A> {
    pub(crate) fn new(slots: Vec<Option<Entry<K, V>>, A>, left: usize) -> ShardPairs<K, V, A>
        requires { left ≡ length (pairs_of slots.items) }
        ensures { result ≡ pairs_of slots.items }
    {
        ShardPairs {
            slots: slots.into_iter(),
            left,
        }
    }
}

impl<K: Drop, V: Drop, A: Allocator> Iterator for ShardPairs<K, V, A> {
    type Item = (K, V);

    ghost next_gives = { YieldsFirst (λ rest. rest) };

    ghost remaining = { item_count (λ rest. rest) };

    fn next(&mut self) -> Option<(K, V)> {
        while let Some(slot) = self.slots.next() {
            if let Some(entry) = slot {
                self.left -= 1;
                let Entry {
                    hash: _,
                    key,
                    value,
                } = entry;
                return Some((key, value));
            }
        }
        None
    }

    fn size_hint(&self) -> (usize, Option<usize>)
        ensures exact { result ≡ (length self.now, Some (length self.now)) }
        ensures lower { IsWithinCount result.0 (at_most (length self.now)) }
        ensures upper { IfSome result.1 (UpTo (at_most (length self.now))) }
    {
        (self.left, Some(self.left))
    }
}
