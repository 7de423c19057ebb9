//! The pairs of some shards, given away.
ghost use Rattle.std.specs.Prelude.{◌≡◌, All, IfOk};
ghost use Rattle.std.specs.List.{AllZip};
ghost use Rattle.dashmap_table.specs.Slots.{pairs_of};
ghost use Rattle.dashmap_view.specs.Views.{all_pairs};
ghost use Rattle.dashmap_view.specs.Parallel.Calls.{MakesOf};

use crate::parallel::join::joined;
use crate::parallel::visit::{hand_each, made_of};
use dashmap_table::{NoMemory, Shard};
use rayon::prelude::*;
use std::alloc::{Allocator, Global};
use std::hash::Hash;
use std::marker::Model;
use std::thread::Threads;

/// The pairs of some plain shards, given to a closure that threads share. A contract sees the shards.
///
/// The pairs of one shard are one piece of work: shards go side by side, in as many threads as there are processors. A
/// shard's memory is given up once its pairs are given.
#[derive(Drop)]
pub struct OwningIter<K: Eq + Hash, V, A: Allocator = Global> {
    shards: Vec<Shard<K, V, A>, A>,
}

impl<K: Eq + Hash, V, A: Allocator> Model for OwningIter<K, V, A> {
    ghost use Rattle.std.specs.Prelude.{List};
    ghost use Rattle.dashmap_table.specs.Table.{Table};

    ghost Value = { List (Table K V) };

    ghost view = { λ it. it.shards.items };
}

impl<K: Eq + Hash, V, A: Allocator> OwningIter<K, V, A> {
    /// The pairs of these shards.
    ///
    /// ```text
    /// let pairs = OwningIter::new(shards);
    /// ```
    pub fn new(shards: Vec<Shard<K, V, A>, A>) -> OwningIter<K, V, A>
        ensures { result ≡ shards.items }
    {
        OwningIter { shards }
    }
}

impl<K: Eq + Hash + Send + Drop, V: Send + Drop, A: Allocator + Clone + Send> OwningIter<K, V, A> {
    /// Gives the closure each pair once. It takes no memory.
    ///
    /// ```text
    /// view.into_par_iter().for_each(&rt, |_, count| { total.fetch_add(count, Ordering::SeqCst); });
    /// ```
    pub fn for_each<R: Threads + Sync, F: Fn(K, V) + Sync>(self, rt: &R, f: F)
        requires { F.IsAlwaysCallable f }
        ensures { All (λ p. MakesOf F.Fn f p tt) (all_pairs self) }
    {
        let OwningIter { shards } = self;
        let f = &f;
        shards.into_par_iter().with_min_len(1).for_each(
            rt,
            |shard: Shard<K, V, A>|
                requires { F.IsAlwaysCallable f.now }
                ensures { All (λ p. MakesOf F.Fn f.entry.now p tt) (pairs_of shard.slots) }
            { hand_each(shard, f) },
        );
    }

    /// What the closure answers of each pair, in the order of the shards and of their slots: the list that one thread
    /// would make.
    ///
    /// Refused as `NoMemory`, where the list or a part of it finds no room; then all pairs are let go.
    ///
    /// ```text
    /// let counts = view.into_par_iter().map_collect(&rt, alloc, |_, count| count)?;
    /// ```
    pub fn map_collect<
        R: Threads + Sync,
        T: Send + Drop,
        B: Allocator + Clone + Send + Sync,
        F: Fn(K, V) -> T + Sync,
    >(self, rt: &R, alloc: B, f: F) -> Result<Vec<T, B>, NoMemory>
        requires { F.IsAlwaysCallable f }
        ensures { IfOk result (λ v. AllZip (MakesOf F.Fn f) (all_pairs self) v.items) }
    {
        let OwningIter { shards } = self;
        let f = &f;
        let alloc = &alloc;
        let lists: Vec<Result<Vec<T, B>, NoMemory>, B> = shards
            .into_par_iter()
            .with_min_len(1)
            .map(
                |shard: Shard<K, V, A>| -> Result<Vec<T, B>, NoMemory>
                    requires { F.IsAlwaysCallable f.now }
                    ensures { IfOk result (λ v. AllZip (MakesOf F.Fn f.entry.now) (pairs_of shard.slots) v.items) }
                { made_of(shard, f, alloc.clone()?) },
            )
            .collect(rt, alloc.clone()?)?;
        joined(lists, alloc.clone()?)
    }
}
