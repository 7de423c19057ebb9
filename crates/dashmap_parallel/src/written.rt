//! The values of a shared map, lent for writing.
ghost use Rattle.std.specs.Prelude.{◌≡◌, ◌<◌, length, All};
ghost use Rattle.crossbeam_utils.specs.Padded.{padded_value};
ghost use Rattle.dashmap_view.specs.Parallel.Calls.{WritesEach};
ghost use Rattle.dashmap_iter.specs.Walks.Held.{WhileHeld};

use crate::behind::write_behind;
use crate::pieces::in_pieces;
use crossbeam_utils::CachePadded;
use dashmap_table::Shard;
use lock_api_raw::RawRwLock;
use lock_api_rw::{Evidence, RwLock};
use std::alloc::{Allocator, Global};
use std::hash::Hash;
use std::marker::Model;
use std::sync::Wait;
use std::thread::Threads;

/// The pairs of a shared map, whose values are lent for writing to a closure that threads share. It borrows the map and
/// the threads' data, and holds no shard until it is run. It is cut into pieces as [`SharedIter`](crate::SharedIter)
/// is.
#[derive(Drop)]
pub struct SharedIterMut<'m, 'd, K: Eq + Hash, V, Q: RawRwLock, A: Allocator = Global> {
    locks: &'m [CachePadded<RwLock<Q, Shard<K, V, A>>>],
    parties: &'d mut [Q::Party],
}

impl<'m, 'd, K: Eq + Hash, V, Q: RawRwLock, A: Allocator> Model
    for SharedIterMut<'m, 'd, K, V, Q, A> {
    ghost use Rattle.std.specs.Prelude.{◌<◌, List, length};
    ghost use Rattle.crossbeam_utils.specs.declared.cache_padded.CachePadded.{CachePadded};

    ghost Value = { List (CachePadded Q) };

    ghost view = { λ it. it.locks.now };

    ghost invariant = { λ it. 0 < length it.parties.now };
}

impl<'m, 'd, K: Eq + Hash, V, Q: RawRwLock, A: Allocator> SharedIterMut<'m, 'd, K, V, Q, A> {
    /// The pairs behind these locks, for these threads' data.
    pub(crate) fn new(
        locks: &'m [CachePadded<RwLock<Q, Shard<K, V, A>>>],
        parties: &'d mut [Q::Party],
    ) -> SharedIterMut<'m, 'd, K, V, Q, A>
        requires { 0 < length parties.old }
        ensures { result ≡ locks.now }
    {
        SharedIterMut { locks, parties }
    }
}

impl<
    'm,
    'd,
    K: Eq + Hash + Send + Sync,
    V: Send + Sync,
    Q: Evidence<Shard<K, V, A>> + Sync,
    A: Allocator + Send + Sync,
> SharedIterMut<'m, 'd, K, V, Q, A>
where
    Q::Runtime: Wait,
    Q::Party: Send,
{
    /// Lends the closure the value of each pair for writing, each once. It takes no memory.
    ///
    /// Each thread blocks while the shard that it comes to is held.
    ///
    /// ```text
    /// map.par_iter_mut_shared(&mut datas)?.for_each(&rt, |key, value| { *value = *key; });
    /// ```
    pub fn for_each<R: Threads + Sync, F: Fn(&K, &mut V) + Sync>(self, rt: &R, f: F)
        requires { F.IsAlwaysCallable f }
        ensures { All (λ lock. WhileHeld Q.held (padded_value lock) (WritesEach F.Fn f))
            self.entry }
    {
        let SharedIterMut { locks, parties } = self;
        let f = &f;
        in_pieces(
            rt,
            locks,
            parties,
            &|lock: &CachePadded<RwLock<Q, Shard<K, V, A>>>, td: &mut Q::Party|
                requires { F.IsAlwaysCallable f.now }
                ensures { WhileHeld Q.held (padded_value lock.now)
                    (WritesEach F.Fn f.entry.now) }
            { write_behind(&**lock, td, f) },
        );
    }
}
