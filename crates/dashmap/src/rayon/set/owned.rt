//! The keys of a set that is given up, given to a closure that threads share.
ghost use Rattle.std.specs.Prelude.{◌≡◌, All, IfOk};
ghost use Rattle.std.specs.List.{AllZip};
ghost use Rattle.dashmap_view.specs.Views.{all_pairs};
ghost use Rattle.dashmap.specs.Set.Parallel.{MakesOfKey};

use dashmap_view::parallel::OwningIter as Pairs;
use lock_api_raw::NoMemory;
use std::alloc::{Allocator, Global};
use std::hash::Hash;
use std::marker::Model;
use std::thread::Threads;

/// The keys of a set that is given up, by value. A contract sees the shards.
///
/// The keys of one shard are one piece of work: shards go side by side, in as many threads as there are processors. A
/// shard's memory is given up once its keys are given.
#[derive(Drop)]
pub struct OwningIter<K: Eq + Hash, A: Allocator = Global> {
    pairs: Pairs<K, (), A>,
}

impl<K: Eq + Hash, A: Allocator> Model for OwningIter<K, A> {
    ghost use Rattle.std.specs.Prelude.{List};
    ghost use Rattle.dashmap_table.specs.Table.{Table};

    ghost Value = { List (Table K (Unit {0})) };

    ghost view = { λ it. it.pairs };
}

impl<K: Eq + Hash, A: Allocator> OwningIter<K, A> {
    /// The keys of these pairs.
    pub(crate) fn of_pairs(pairs: Pairs<K, (), A>) -> OwningIter<K, A>
        ensures { result ≡ pairs }
    {
        OwningIter { pairs }
    }
}

impl<K: Eq + Hash + Send + Drop, A: Allocator + Clone + Send> OwningIter<K, A> {
    /// Gives the closure each key once. It takes no memory.
    ///
    /// ```text
    /// set.into_par_iter().for_each(&rt, |key| { sum.add(key); });
    /// ```
    pub fn for_each<R: Threads + Sync, F: Fn(K) + Sync>(self, rt: &R, f: F)
        requires { F.IsAlwaysCallable f }
        ensures { All (λ p. MakesOfKey F.Fn f p.0 tt) (all_pairs self) }
    {
        let OwningIter { pairs } = self;
        let f = &f;
        pairs.for_each(
            rt,
            |key: K, _unit: ()|
                requires { F.IsAlwaysCallable f.now }
                ensures { MakesOfKey F.Fn f.entry.now key tt }
            {
                f(key);
            },
        );
    }

    /// What the closure answers of each key, in the order of the shards and of their slots: the list that one thread
    /// would make.
    ///
    /// Refused as `NoMemory`, where the list or a part of it finds no room; then all keys are let go.
    ///
    /// ```text
    /// let keys = set.into_par_iter().map_collect(&rt, Global, |key| key)?;
    /// ```
    pub fn map_collect<
        R: Threads + Sync,
        T: Send + Drop,
        B: Allocator + Clone + Send + Sync,
        F: Fn(K) -> T + Sync,
    >(self, rt: &R, alloc: B, f: F) -> Result<Vec<T, B>, NoMemory>
        requires { F.IsAlwaysCallable f }
        ensures { IfOk result (λ v. AllZip (λ p. MakesOfKey F.Fn f p.0) (all_pairs self) v.items) }
    {
        let OwningIter { pairs } = self;
        let f = &f;
        pairs.map_collect(
            rt,
            alloc,
            |key: K, _unit: ()| -> T
                requires { F.IsAlwaysCallable f.now }
                ensures { MakesOfKey F.Fn f.entry.now key result }
            { f(key) },
        )
    }
}
