//! A look at the shards of a map.
ghost use Rattle.std.specs.Prelude.{◌≡◌, ◌<◌, ◌≤◌, length, Some, IfSome, MatchOption};
ghost use Rattle.std.specs.Sync.RwLock.{read_guard_value};
ghost use Rattle.dashmap_table.specs.Route.{IsShardAmount};
ghost use Rattle.dashmap_map.specs.Evidence.{OnSight};
ghost use Rattle.dashmap_map.specs.Locked.{lock_at};

use crate::shard_guards::guard::{ShardReadGuard, hold_to_read};
use dashmap_map::DashMap;
use dashmap_map::parts::shard_locks;
use dashmap_table::Shard;
use lock_api_rw::{Evidence, RwLock};
use std::alloc::{Allocator, Global};
use std::hash::{BuildHasher, Hash};
use std::marker::Model;
use std::sync::Wait;

/// The shards of a map, to be counted and read. It borrows the map and holds no shard.
///
/// A contract sees what it sees of the map: the raw locks and the hasher (`Locked`).
///
/// ```text
/// let shards = map.shards();
/// let first = shards.read(0, &mut me).ok_or("none")?;   // the shard, lent until the guard is dropped
/// ```
#[derive(Drop)]
pub struct ShardsView<'m, K: Eq + Hash, V, S: BuildHasher, Q, A: Allocator = Global> {
    map: &'m DashMap<K, V, S, Q, A>,
}

impl<'m, K: Eq + Hash, V, S: BuildHasher, Q, A: Allocator> Model for ShardsView<'m, K, V, S, Q, A> {
    ghost use Rattle.dashmap_map.specs.Locked.{Locked};

    ghost Value = { Locked Q S };

    ghost view = { λ v. v.map.now };
}

impl<'m, K: Eq + Hash, V, S: BuildHasher, Q, A: Allocator> ShardsView<'m, K, V, S, Q, A> {
    /// The shards of a map.
    ///
    /// ```text
    /// let shards = ShardsView::of(&map);   // the same as `map.shards()`
    /// ```
    pub fn of(map: &'m DashMap<K, V, S, Q, A>) -> ShardsView<'m, K, V, S, Q, A>
        ensures { result ≡ map.now }
    {
        ShardsView { map }
    }

    /// How many shards there are.
    ///
    /// ```text
    /// for number in 0..map.shards().count() { .. }
    /// ```
    pub fn count(&self) -> usize
        ensures count { result ≡ length self.now.locks }
        ensures amount { IsShardAmount result }
    {
        shard_locks(self.map).len()
    }

    /// A shared hold of a shard, which lends the shard to be read alone; `None` from `count` on.
    ///
    /// Blocks while another holds the shard exclusively, or waits to. The guard keeps the borrow of `td`.
    ///
    /// ```text
    /// if let Some(shard) = map.shards().read(0, &mut me) { let pairs = shard.len(); }
    /// ```
    pub fn read<'d>(
        &self,
        shard: usize,
        td: &'d mut Q::Party,
    ) -> Option<ShardReadGuard<'m, 'd, K, V, Q, A>>
    where
        Q: Evidence<Shard<K, V, A>>,
        Q::Runtime: Wait,
        ensures lock { MatchOption result (length self.now.locks ≤ shard)
            (λ g. lock_at self.now shard ≡ Some g.held.0.place.now) }
        ensures evidence { IfSome result (λ g. (left : Q.Party)
            × OnSight Q.showed (lock_at self.now shard) td.old left (λ table. table ≡ read_guard_value g.inner)) }
    {
        if shard < self.count() {
            Some(hold_to_read(self.lock(shard), td))
        } else {
            None
        }
    }

    /// A shard behind its lock.
    pub(crate) fn lock(&self, shard: usize) -> &'m RwLock<Q, Shard<K, V, A>>
        requires { shard < length self.now.locks }
        ensures { lock_at self.now shard ≡ Some result.now }
    {
        &*shard_locks(self.map)[shard]
    }
}
