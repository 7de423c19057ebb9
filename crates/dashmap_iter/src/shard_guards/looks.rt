//! The calls of a map that hold a shard by its number.
ghost use Rattle.std.specs.Prelude.{◌≡◌, ◌<◌, length, Some, IfSome, MatchOption};
ghost use Rattle.std.specs.Sync.RwLock.{read_guard_value, write_guard_value};
ghost use Rattle.dashmap_map.specs.Evidence.{OnSight, OnTry, OnRefusal};
ghost use Rattle.dashmap_map.specs.Locked.{Locked, lock_at};

use crate::shard_guards::guard::{
    ShardGuard, ShardReadGuard, ShardWriteGuard, hold_to_read, hold_to_write,
};
use crate::shard_guards::view::ShardsView;
use dashmap_map::DashMap;
use dashmap_table::Shard;
use lock_api_rw::{Evidence, try_read_shown, try_write_found};
use std::alloc::Allocator;
use std::hash::{BuildHasher, Hash};
use std::sync::Wait;

/// Looks at the shards of a map, each held as a whole.
///
/// ```text
/// let amount = map.shards().count();
/// let last = map._yield_read_shard(amount - 1, &mut me);
/// ```
pub trait Looks<K: Eq + Hash, V, S: BuildHasher, Q: Evidence<Shard<K, V, A>>, A: Allocator> {
    /// The locks and the hasher of a map.
    ghost seen: { Self → Locked Q S };

    /// The shards, to be counted and read. It holds nothing.
    ///
    /// ```text
    /// let shards = map.shards();
    /// for number in 0..shards.count() {
    ///     if let Some(shard) = shards.read(number, &mut me) { pairs = pairs.wrapping_add(shard.len()); }
    /// }
    /// ```
    fn shards(&self) -> ShardsView<'_, K, V, S, Q, A>
        ensures { result ≡ seen self.now };

    /// Waits for a shared hold of a shard that there is.
    ///
    /// Blocks while another holds it exclusively, or waits to. The guard keeps the borrow of `td`.
    ///
    /// ```text
    /// let pairs = map._yield_read_shard(0, &mut me).len();
    /// ```
    fn _yield_read_shard<'m, 'd>(
        &'m self,
        shard: usize,
        td: &'d mut Q::Party,
    ) -> ShardReadGuard<'m, 'd, K, V, Q, A>
    where
        Q::Runtime: Wait,
        requires { shard < length (seen self.now).locks }
        ensures lock { lock_at (seen self.now) shard ≡ Some result.held.0.place.now }
        ensures evidence { (left : Q.Party) × OnSight Q.showed (lock_at (seen self.now) shard) td.old left
            (λ table. table ≡ read_guard_value result.inner) };

    /// Waits for an exclusive hold of a shard that there is.
    ///
    /// Blocks while it is held. The guard keeps the borrow of `td`.
    ///
    /// ```text
    /// map._yield_write_shard(0, &mut me).shrink_to_fit();
    /// ```
    fn _yield_write_shard<'m, 'd>(
        &'m self,
        shard: usize,
        td: &'d mut Q::Party,
    ) -> ShardWriteGuard<'m, 'd, K, V, Q, A>
    where
        Q::Runtime: Wait,
        requires { shard < length (seen self.now).locks }
        ensures lock { lock_at (seen self.now) shard ≡ Some result.held.0.place.now }
        ensures evidence { (left : Q.Party) × OnSight Q.found (lock_at (seen self.now) shard) td.old left
            (λ table. table ≡ write_guard_value result.inner) };

    /// A shared hold of a shard that there is, or None where it can't be had at once.
    ///
    /// ```text
    /// if let Some(shard) = map._try_yield_read_shard(0) { sum = sum.wrapping_add(shard.len()); }
    /// ```
    fn _try_yield_read_shard<'m>(
        &'m self,
        shard: usize,
    ) -> Option<ShardReadGuard<'m, 'm, K, V, Q, A>>
    where
        Q::Runtime: Wait,
        requires { shard < length (seen self.now).locks }
        ensures lock { IfSome result (λ g. lock_at (seen self.now) shard ≡ Some g.held.0.place.now) }
        ensures evidence { MatchOption result (OnRefusal Q.refused_shared (lock_at (seen self.now) shard))
            (λ g. OnTry Q.showed_at_once (lock_at (seen self.now) shard) (λ table. table ≡ read_guard_value g.inner)) };

    /// An exclusive hold of a shard that there is, or None where it can't be had at once.
    ///
    /// ```text
    /// let is_free = map._try_yield_write_shard(0).is_some();
    /// ```
    fn _try_yield_write_shard<'m>(
        &'m self,
        shard: usize,
    ) -> Option<ShardWriteGuard<'m, 'm, K, V, Q, A>>
    where
        Q::Runtime: Wait,
        requires { shard < length (seen self.now).locks }
        ensures lock { IfSome result (λ g. lock_at (seen self.now) shard ≡ Some g.held.0.place.now) }
        ensures evidence { MatchOption result (OnRefusal Q.refused_exclusive (lock_at (seen self.now) shard))
            (λ g. OnTry Q.found_at_once (lock_at (seen self.now) shard) (λ table. table ≡ write_guard_value g.inner)) };
}

impl<K: Eq + Hash, V, S: BuildHasher, Q: Evidence<Shard<K, V, A>>, A: Allocator> Looks<
    K,
    V,
    S,
    Q,
    A,
> for DashMap<K, V, S, Q, A> {
    ghost seen = { λ map. map };

    fn shards(&self) -> ShardsView<'_, K, V, S, Q, A> {
        ShardsView::of(self)
    }

    fn _yield_read_shard<'m, 'd>(
        &'m self,
        shard: usize,
        td: &'d mut Q::Party,
    ) -> ShardReadGuard<'m, 'd, K, V, Q, A>
    where
        Q::Runtime: Wait,
    {
        hold_to_read(self.shards().lock(shard), td)
    }

    fn _yield_write_shard<'m, 'd>(
        &'m self,
        shard: usize,
        td: &'d mut Q::Party,
    ) -> ShardWriteGuard<'m, 'd, K, V, Q, A>
    where
        Q::Runtime: Wait,
    {
        hold_to_write(self.shards().lock(shard), td)
    }

    fn _try_yield_read_shard<'m>(
        &'m self,
        shard: usize,
    ) -> Option<ShardReadGuard<'m, 'm, K, V, Q, A>>
    where
        Q::Runtime: Wait,
    {
        Some(ShardGuard::new(try_read_shown(self.shards().lock(shard))?))
    }

    fn _try_yield_write_shard<'m>(
        &'m self,
        shard: usize,
    ) -> Option<ShardWriteGuard<'m, 'm, K, V, Q, A>>
    where
        Q::Runtime: Wait,
    {
        Some(ShardGuard::new(try_write_found(self.shards().lock(shard))?))
    }
}
