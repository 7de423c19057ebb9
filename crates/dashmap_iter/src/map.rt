//! The walks of a map that lend.
ghost use Rattle.std.specs.Prelude.{◌≡◌, false, None};
ghost use Rattle.dashmap_map.specs.Locked.{Locked};

use crate::iter::Iter;
use crate::iter_mut::{IterMut, WritingWalk};
use crate::shards::MapShards;
use dashmap_map::DashMap;
use dashmap_map::parts::{allocator, shard_locks};
use dashmap_table::Shard;
use lock_api_rw::Evidence;
use std::alloc::Allocator;
use std::hash::{BuildHasher, Hash};
use std::sync::Wait;

/// Walks over a map that lend its pairs one by one. A walk is lent what the thread has, and keeps it until it is
/// dropped.
///
/// ```text
/// for item in map.iter(&mut me) {
///     let pair = item?;
///     sum = sum.wrapping_add(*pair);
/// }
/// let mut walk = map.iter_mut(&mut me);
/// while let Some(mut pair) = walk.next_mut() {
///     *pair = pair.wrapping_add(1);
/// }
/// ```
pub trait LendingWalks<K: Eq + Hash, V, S, Q: Evidence<Shard<K, V, A>>, A: Allocator>
where
    Q::Runtime: Wait,
{
    /// The locks and the hasher of a map.
    ghost seen: { Self → Locked Q S };

    /// A walk that reads. It holds nothing before its first item, and then one shard, or two for a moment.
    ///
    /// Blocks at each shard while another holds it exclusively, or waits to. It keeps the borrow of `td`: a call beside
    /// it doesn't compile. Memory: an item shares its shard's hold, which takes some; refused, it is an error, and the
    /// walk ends.
    ///
    /// ```text
    /// for item in map.iter(&mut me) { sum = sum.wrapping_add(*item?); }
    /// ```
    fn iter<'m, 'd>(&'m self, td: &'d mut Q::Party) -> Iter<'m, 'd, K, V, Q, A>
        ensures { result ≡ record { locks = (seen self.now).locks; next = 0; held = None; from = 0; failed = false } };

    /// A walk that writes. It holds nothing before its first item. It takes no memory, and keeps the borrow of `td`.
    ///
    /// ```text
    /// let mut walk = map.iter_mut(&mut me);
    /// if let Some(mut pair) = walk.next_mut() { *pair = 9; }
    /// ```
    fn iter_mut<'m, 'd>(&'m self, td: &'d mut Q::Party) -> IterMut<'m, 'd, K, V, Q, A>
        ensures { result ≡ record { locks = (seen self.now).locks; next = 0; held = None; from = 0; failed = false } };

    /// As `iter`.
    ///
    /// ```text
    /// let mut walk = map._iter(&mut me);
    /// while let Some(Ok(pair)) = walk.next() { sum = sum.wrapping_add(*pair); }
    /// ```
    fn _iter<'m, 'd>(&'m self, td: &'d mut Q::Party) -> Iter<'m, 'd, K, V, Q, A>
        ensures { result ≡ record { locks = (seen self.now).locks; next = 0; held = None; from = 0; failed = false } };

    /// As `iter_mut`.
    ///
    /// ```text
    /// let mut walk = map._iter_mut(&mut me);
    /// if let Some(mut first) = walk.next_mut() { *first = 0; }
    /// ```
    fn _iter_mut<'m, 'd>(&'m self, td: &'d mut Q::Party) -> IterMut<'m, 'd, K, V, Q, A>
        ensures { result ≡ record { locks = (seen self.now).locks; next = 0; held = None; from = 0; failed = false } };
}

impl<K: Eq + Hash, V, S: BuildHasher, Q: Evidence<Shard<K, V, A>>, A: Allocator> LendingWalks<
    K,
    V,
    S,
    Q,
    A,
> for DashMap<K, V, S, Q, A>
where
    Q::Runtime: Wait,
{
    ghost seen = { λ map. map };

    fn iter<'m, 'd>(&'m self, td: &'d mut Q::Party) -> Iter<'m, 'd, K, V, Q, A> {
        Iter::over(shard_locks(self), allocator(self), td)
    }

    fn iter_mut<'m, 'd>(&'m self, td: &'d mut Q::Party) -> IterMut<'m, 'd, K, V, Q, A> {
        WritingWalk::over(MapShards::of(shard_locks(self), td))
    }

    fn _iter<'m, 'd>(&'m self, td: &'d mut Q::Party) -> Iter<'m, 'd, K, V, Q, A> {
        self.iter(td)
    }

    fn _iter_mut<'m, 'd>(&'m self, td: &'d mut Q::Party) -> IterMut<'m, 'd, K, V, Q, A> {
        self.iter_mut(td)
    }
}
