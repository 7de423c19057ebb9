//! The shards of a map, to be held one after another.
ghost use Rattle.std.specs.Prelude.{◌≡◌, ◌+◌, ◌^◌, ◌<◌, List, Some, length, slice_get};
ghost use Rattle.std.specs.Option.{option_map};
ghost use Rattle.crossbeam_utils.specs.declared.cache_padded.CachePadded.{CachePadded};
ghost use Rattle.crossbeam_utils.specs.Padded.{padded_value};

use crossbeam_utils::CachePadded;
use dashmap_table::Shard;
use lock_api_guards::{Guard, Hold, Lender};
use lock_api_raw::RawRwLock;
use lock_api_rw::{Evidence, Exclusive, RawHold, RwLock, write_found};
use std::alloc::Allocator;
use std::hash::Hash;
use std::marker::Model;
use std::sync;
use std::sync::Wait;

/// What gives exclusive guards of shards by their numbers: the shards of a map.
///
/// ```text
/// for number in 0..shards.amount() { let guard = shards.hold(number); }
/// ```
pub trait GivesShards<W: Lender + Drop, H: Hold>
where
    H::Runtime: Wait,
{
    /// The locks of the shards, in their order.
    ghost locks: { Self → List (CachePadded H.Lock) };

    /// That a hold of that lock was had, and found a shard so.
    ghost seen: { H.Lock → W.Part → Type 0 };

    /// How many shards there are.
    fn amount(&self) -> usize
        ensures { result ≡ length (locks self.now) };

    /// Waits for an exclusive hold of a shard that there is.
    fn hold(&mut self, shard: usize) -> Guard<W, H>
        requires { shard < length (locks self.old) }
        ensures lock { option_map padded_value (slice_get (locks self.old) shard) ≡ Some (H.lock_of result.held.0) }
        ensures seen { seen (H.lock_of result.held.0) (W.part result.inner) }
        ensures stays { self.new ≡ self.old }
        ensures numbered { shard + 1 < 2 ^ 64 };
}

/// The shards of a map, each behind its lock, and what a thread lends to wait for them. A contract sees the locks.
pub struct MapShards<'m, 'd, K: Eq + Hash, V, Q: RawRwLock, A: Allocator> {
    locks: &'m [CachePadded<RwLock<Q, Shard<K, V, A>>>],
    party: &'d mut Q::Party,
}

impl<'m, 'd, K: Eq + Hash, V, Q: RawRwLock, A: Allocator> Model for MapShards<'m, 'd, K, V, Q, A> {
    ghost use Rattle.std.specs.Prelude.{List};
    ghost use Rattle.crossbeam_utils.specs.declared.cache_padded.CachePadded.{CachePadded};

    ghost Value = { List (CachePadded Q) };

    ghost view = { λ s. s.locks.now };
}

impl<'m, 'd, K: Eq + Hash, V, Q: RawRwLock, A: Allocator> Drop for MapShards<'m, 'd, K, V, Q, A> {
    fn drop(self) {
        let MapShards { locks: _, party: _ } = self;
    }
}

impl<'m, 'd, K: Eq + Hash, V, Q: RawRwLock, A: Allocator> MapShards<'m, 'd, K, V, Q, A> {
    /// These shards, for a thread that has this.
    pub(crate) fn of(
        locks: &'m [CachePadded<RwLock<Q, Shard<K, V, A>>>],
        party: &'d mut Q::Party,
    ) -> MapShards<'m, 'd, K, V, Q, A>
        ensures { result ≡ locks.now }
    {
        MapShards { locks, party }
    }
}

impl<'m, 'd, K: Eq + Hash, V, Q: Evidence<Shard<K, V, A>>, A: Allocator> GivesShards<
    sync::RwLockWriteGuard<'m, Shard<K, V, A>>,
    RawHold<&'m RwLock<Q, Shard<K, V, A>>, Exclusive>,
> for MapShards<'m, 'd, K, V, Q, A>
where
    Q::Runtime: Wait,
{
    ghost use Rattle.dashmap_iter.specs.Lending.{by_some_wait};

    ghost locks = { λ s. s };

    ghost seen = { by_some_wait Q.found };

    fn amount(&self) -> usize {
        self.locks.len()
    }

    fn hold(
        &mut self,
        shard: usize,
    ) -> Guard<
        sync::RwLockWriteGuard<'m, Shard<K, V, A>>,
        RawHold<&'m RwLock<Q, Shard<K, V, A>>, Exclusive>,
    > {
        let locks = self.locks;
        write_found(&locks[shard], &mut *self.party)
    }
}
