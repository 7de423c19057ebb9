//! The pairs of a shared map, lent.
ghost use Rattle.std.specs.Prelude.{◌≡◌, ◌<◌, length, All, IfOk};
ghost use Rattle.std.specs.List.{AllZip};
ghost use Rattle.crossbeam_utils.specs.Padded.{padded_value};
ghost use Rattle.dashmap_table.specs.Slots.{pairs_of};
ghost use Rattle.dashmap_view.specs.Parallel.Calls.{AnswersOf};
ghost use Rattle.dashmap_parallel.specs.Visits.{WhileShared, GatheredFrom};

use crate::behind::visit_behind;
use crate::gather::{answers_in_piece, made_in_pieces};
use crate::pieces::in_pieces;
use crossbeam_utils::CachePadded;
use dashmap_table::{NoMemory, Shard};
use dashmap_view::parallel::join::joined;
use lock_api_raw::RawRwLock;
use lock_api_rw::{Evidence, RwLock};
use std::alloc::{Allocator, Global};
use std::hash::Hash;
use std::marker::Model;
use std::sync::Wait;
use std::thread::Threads;

/// The pairs of a shared map, lent to a closure that threads share. It borrows the map and the threads' data, and holds
/// no shard until it is run.
///
/// The shards are cut into contiguous pieces, one for each thread's data, whose sizes differ by one at the most; larger
/// pieces come first. A contract sees the raw locks of the shards.
#[derive(Drop)]
pub struct SharedIter<'m, 'd, K: Eq + Hash, V, Q: RawRwLock, A: Allocator = Global> {
    locks: &'m [CachePadded<RwLock<Q, Shard<K, V, A>>>],
    parties: &'d mut [Q::Party],
}

impl<'m, 'd, K: Eq + Hash, V, Q: RawRwLock, A: Allocator> Model for SharedIter<'m, 'd, K, V, Q, A> {
    ghost use Rattle.std.specs.Prelude.{◌<◌, List, length};
    ghost use Rattle.crossbeam_utils.specs.declared.cache_padded.CachePadded.{CachePadded};

    ghost Value = { List (CachePadded Q) };

    ghost view = { λ it. it.locks.now };

    ghost invariant = { λ it. 0 < length it.parties.now };
}

impl<'m, 'd, K: Eq + Hash, V, Q: RawRwLock, A: Allocator> SharedIter<'m, 'd, K, V, Q, A> {
    /// The pairs behind these locks, for these threads' data.
    pub(crate) fn new(
        locks: &'m [CachePadded<RwLock<Q, Shard<K, V, A>>>],
        parties: &'d mut [Q::Party],
    ) -> SharedIter<'m, 'd, K, V, Q, A>
        requires { 0 < length parties.old }
        ensures { result ≡ locks.now }
    {
        SharedIter { locks, parties }
    }
}

impl<
    'm,
    'd,
    K: Eq + Hash + Send + Sync,
    V: Send + Sync,
    Q: Evidence<Shard<K, V, A>> + Sync,
    A: Allocator + Send + Sync,
> SharedIter<'m, 'd, K, V, Q, A>
where
    Q::Runtime: Wait,
    Q::Party: Send,
{
    /// Calls the closure once for each pair. It takes no memory.
    ///
    /// Each thread blocks while another holds the shard that it comes to exclusively, or waits to.
    ///
    /// ```text
    /// map.par_iter(&mut datas)?.for_each(&rt, |_, count| { sum.add(*count); });
    /// ```
    pub fn for_each<R: Threads + Sync, F: Fn(&K, &V) + Sync>(self, rt: &R, f: F)
        requires { F.IsAlwaysCallable f }
        ensures { All (λ lock. WhileShared Q.showed (padded_value lock)
            (λ table. All (λ p. AnswersOf F.Fn f p tt) (pairs_of table.slots))) self.entry }
    {
        let SharedIter { locks, parties } = self;
        let f = &f;
        in_pieces(
            rt,
            locks,
            parties,
            &|lock: &CachePadded<RwLock<Q, Shard<K, V, A>>>, td: &mut Q::Party|
                requires { F.IsAlwaysCallable f.now }
                ensures { WhileShared Q.showed (padded_value lock.now)
                    (λ table. All (λ p. AnswersOf F.Fn f.entry.now p tt) (pairs_of table.slots)) }
            { visit_behind(&**lock, td, f) },
        );
    }

    /// What the closure answers of each pair, in the order of the shards and of their slots.
    ///
    /// Refused as `NoMemory`, where a list of answers finds no room.
    ///
    /// ```text
    /// let counts = map.par_iter(&mut datas)?.map_collect(&rt, Global, |_, count| *count)?;
    /// ```
    pub fn map_collect<
        R: Threads + Sync,
        T: Send + Drop,
        B: Allocator + Clone + Send + Sync,
        F: Fn(&K, &V) -> T + Sync,
    >(self, rt: &R, alloc: B, f: F) -> Result<Vec<T, B>, NoMemory>
        requires { F.IsAlwaysCallable f }
        ensures { IfOk result
            (λ v. GatheredFrom Q.showed
            (λ table. AllZip (AnswersOf F.Fn f) (pairs_of table.slots)) self.entry v.items) }
    {
        let SharedIter { locks, parties } = self;
        let f = &f;
        let alloc = &alloc;
        let part = |locks: &[CachePadded<RwLock<Q, Shard<K, V, A>>>], td: &mut Q::Party| -> Result<
            Vec<T, B>,
            NoMemory,
        >
            requires { F.IsAlwaysCallable f.now }
            ensures { IfOk result
                (λ v. GatheredFrom Q.showed
                (λ table. AllZip (AnswersOf F.Fn f.entry.now) (pairs_of table.slots)) locks.now v.items) }
        { answers_in_piece(locks, td, f, alloc) };
        let lists = made_in_pieces(rt, locks, parties, alloc.clone()?, &part)?;
        joined(lists, alloc.clone()?)
    }
}
