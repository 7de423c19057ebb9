//! The keys of a shared set, lent.
ghost use Rattle.std.specs.Prelude.{◌≡◌, All, IfOk};
ghost use Rattle.std.specs.List.{AllZip};
ghost use Rattle.crossbeam_utils.specs.Padded.{padded_value};
ghost use Rattle.dashmap_table.specs.Slots.{pairs_of};
ghost use Rattle.dashmap_parallel.specs.Visits.{WhileShared, GatheredFrom};
ghost use Rattle.dashmap.specs.Set.Parallel.{AnswersOfKey};

use dashmap_parallel::SharedIter;
use dashmap_table::Shard;
use lock_api_raw::{NoMemory, RawRwLock};
use lock_api_rw::Evidence;
use std::alloc::{Allocator, Global};
use std::hash::Hash;
use std::marker::Model;
use std::sync::Wait;
use std::thread::Threads;

/// The keys of a shared set, lent to a closure that threads share. It borrows the set and the threads' data, and holds
/// no shard until it is run.
///
/// The shards are cut into contiguous pieces, one for each thread's data, whose sizes differ by one at the most; larger
/// pieces come first. A contract sees the raw locks of the shards.
#[derive(Drop)]
pub struct Iter<'m, 'd, K: Eq + Hash, Q: RawRwLock, A: Allocator = Global> {
    pairs: SharedIter<'m, 'd, K, (), Q, A>,
}

impl<'m, 'd, K: Eq + Hash, Q: RawRwLock, A: Allocator> Model for Iter<'m, 'd, K, Q, A> {
    ghost use Rattle.std.specs.Prelude.{List};
    ghost use Rattle.crossbeam_utils.specs.declared.cache_padded.CachePadded.{CachePadded};

    ghost Value = { List (CachePadded Q) };

    ghost view = { λ it. it.pairs };
}

impl<'m, 'd, K: Eq + Hash, Q: RawRwLock, A: Allocator> Iter<'m, 'd, K, Q, A> {
    /// The keys of these pairs.
    pub(crate) fn of_pairs(pairs: SharedIter<'m, 'd, K, (), Q, A>) -> Iter<'m, 'd, K, Q, A>
        ensures { result ≡ pairs.entry }
    {
        Iter { pairs }
    }
}

/// Calls a closure at a key.
fn lend_to<K, F: Fn(&K)>(key: &K, f: &F)
    requires { F.IsAlwaysCallable f.now }
    ensures { AnswersOfKey F.Fn f.now key.now tt }
{
    f(key);
}

impl<
    'm,
    'd,
    K: Eq + Hash + Send + Sync,
    Q: Evidence<Shard<K, (), A>> + Sync,
    A: Allocator + Send + Sync,
> Iter<'m, 'd, K, Q, A>
where
    Q::Runtime: Wait,
    Q::Party: Send,
{
    /// Calls the closure once for each key. It takes no memory.
    ///
    /// ```text
    /// set.par_iter(&mut datas)?.for_each(&rt, |key| { seen.add(*key); });
    /// ```
    pub fn for_each<R: Threads + Sync, F: Fn(&K) + Sync>(self, rt: &R, f: F)
        requires { F.IsAlwaysCallable f }
        ensures { All (λ lock. WhileShared {K = K} {V = Unit {0}} Q.showed (padded_value lock)
            (λ table. All (λ p. AnswersOfKey F.Fn f p.0 tt) (pairs_of table.slots))) self.entry }
    {
        let Iter { pairs } = self;
        let f = &f;
        pairs.for_each(
            rt,
            |key: &K, _: &()|
                requires { F.IsAlwaysCallable f.now }
                ensures { AnswersOfKey F.Fn f.entry.now key.now tt }
            { lend_to(key, f) },
        );
    }

    /// What the closure answers of each key, in the order of the shards and of their slots.
    ///
    /// Refused as `NoMemory`, where a list of answers finds no room.
    ///
    /// ```text
    /// let lengths = set.par_iter(&mut datas)?.map_collect(&rt, Global, |name| name.len())?;
    /// ```
    pub fn map_collect<
        R: Threads + Sync,
        T: Send + Drop,
        B: Allocator + Clone + Send + Sync,
        F: Fn(&K) -> T + Sync,
    >(self, rt: &R, alloc: B, f: F) -> Result<Vec<T, B>, NoMemory>
        requires { F.IsAlwaysCallable f }
        ensures { IfOk result
            (λ v. GatheredFrom {K = K} {V = Unit {0}} Q.showed
            (λ table. AllZip (λ p. AnswersOfKey F.Fn f p.0) (pairs_of table.slots)) self.entry v.items) }
    {
        let Iter { pairs } = self;
        let f = &f;
        pairs.map_collect(
            rt,
            alloc,
            |key: &K, _: &()| -> T
                requires { F.IsAlwaysCallable f.now }
                ensures { AnswersOfKey F.Fn f.entry.now key.now result }
            { f(key) },
        )
    }
}
