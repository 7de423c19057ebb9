//! The pairs of some shards, lent.
ghost use Rattle.std.specs.Prelude.{◌≡◌, All, IfOk};
ghost use Rattle.std.specs.List.{AllZip};
ghost use Rattle.dashmap_table.specs.Slots.{pairs_of};
ghost use Rattle.dashmap_view.specs.Views.{all_pairs};
ghost use Rattle.dashmap_view.specs.Parallel.Calls.{AnswersOf};

use crate::parallel::join::joined;
use crate::parallel::visit::{answers_of, visit_each};
use dashmap_table::{NoMemory, Shard};
use rayon::prelude::*;
use std::alloc::{Allocator, Global};
use std::hash::Hash;
use std::marker::Model;
use std::thread::Threads;

/// The pairs of some plain shards, those of a view among them, lent to a closure that threads share. A contract sees
/// the shards.
///
/// The pairs of one shard are one piece of work: shards go side by side, in as many threads as there are processors.
#[derive(Drop)]
pub struct Iter<'v, K: Eq + Hash, V, A: Allocator = Global> {
    shards: &'v [Shard<K, V, A>],
}

impl<'v, K: Eq + Hash, V, A: Allocator> Model for Iter<'v, K, V, A> {
    ghost use Rattle.std.specs.Prelude.{List};
    ghost use Rattle.dashmap_table.specs.Table.{Table};

    ghost Value = { List (Table K V) };

    ghost view = { λ it. it.shards.now };
}

impl<'v, K: Eq + Hash, V, A: Allocator> Iter<'v, K, V, A> {
    /// The pairs of these shards.
    ///
    /// ```text
    /// let pairs = Iter::new(&shards);
    /// ```
    pub fn new(shards: &'v [Shard<K, V, A>]) -> Iter<'v, K, V, A>
        ensures { result ≡ shards.now }
    {
        Iter { shards }
    }
}

impl<'v, K: Eq + Hash + Sync, V: Sync, A: Allocator + Sync> Iter<'v, K, V, A> {
    /// Calls the closure once for each pair. It takes no memory.
    ///
    /// ```text
    /// view.par_iter().for_each(&rt, |_, count| { total.fetch_add(*count, Ordering::SeqCst); });
    /// ```
    pub fn for_each<R: Threads + Sync, F: Fn(&K, &V) + Sync>(self, rt: &R, f: F)
        requires { F.IsAlwaysCallable f }
        ensures { All (λ p. AnswersOf F.Fn f p tt) (all_pairs self.entry) }
    {
        let f = &f;
        self.shards.par_iter().with_min_len(1).for_each(
            rt,
            |shard: &Shard<K, V, A>|
                requires { F.IsAlwaysCallable f.now }
                ensures { All (λ p. AnswersOf F.Fn f.entry.now p tt) (pairs_of shard.now.slots) }
            { visit_each(shard, f) },
        );
    }

    /// What the closure answers of each pair, in the order of the shards and of their slots: the list that one thread
    /// would make.
    ///
    /// Refused as `NoMemory`, where the list or a part of it finds no room.
    ///
    /// ```text
    /// let counts = view.par_iter().map_collect(&rt, alloc, |_, count| *count)?;
    /// ```
    pub fn map_collect<
        R: Threads + Sync,
        T: Send + Drop,
        B: Allocator + Clone + Send + Sync,
        F: Fn(&K, &V) -> T + Sync,
    >(self, rt: &R, alloc: B, f: F) -> Result<Vec<T, B>, NoMemory>
        requires { F.IsAlwaysCallable f }
        ensures { IfOk result (λ v. AllZip (AnswersOf F.Fn f) (all_pairs self.entry) v.items) }
    {
        let f = &f;
        let alloc = &alloc;
        let lists: Vec<Result<Vec<T, B>, NoMemory>, B> = self
            .shards
            .par_iter()
            .with_min_len(1)
            .map(
                |shard: &Shard<K, V, A>| -> Result<Vec<T, B>, NoMemory>
                    requires { F.IsAlwaysCallable f.now }
                    ensures { IfOk result
                        (λ v. AllZip (AnswersOf F.Fn f.entry.now) (pairs_of shard.now.slots) v.items) }
                { answers_of(shard, f, alloc.clone()?) },
            )
            .collect(rt, alloc.clone()?)?;
        joined(lists, alloc.clone()?)
    }
}
