//! Parallel forms for the one owner of a map or of a view: the pairs of one shard are one piece of work, and shards go
//! side by side.
ghost use Rattle.std.specs.Prelude.{◌≡◌};
ghost use Rattle.std.specs.List.{AllZip};
ghost use Rattle.dashmap_view.specs.Parallel.Calls.{WritesEach};

use crate::read_only::ReadOnlyView;
use crate::unlocked::Unlocked;
use dashmap_view::parallel::{Iter, OwningIter, par_write};
use std::alloc::Allocator;
use std::hash::{BuildHasher, Hash};
use std::thread::Threads;

impl<K: Eq + Hash, V, S: BuildHasher, Q, A: Allocator> Unlocked<K, V, S, Q, A> {
    /// Lends a closure that threads share the value of each pair for writing, each once. It takes no memory.
    ///
    /// ```text
    /// let mut unlocked = Unlocked::of(map);
    /// unlocked.par_write(&rt, |_, count| *count = count.wrapping_add(1));
    /// ```
    pub fn par_write<R: Threads + Sync, F: Fn(&K, &mut V) + Sync>(&mut self, rt: &R, f: F)
    where
        K: Send,
        V: Send,
        A: Send,
        requires { F.IsAlwaysCallable f }
        ensures values { AllZip (WritesEach F.Fn f) self.old.plain.tables self.new.plain.tables }
        ensures locks { self.new.locks ≡ self.old.locks }
        ensures hasher { self.new.plain.hasher ≡ self.old.plain.hasher }
    {
        par_write(rt, &mut self.shards, f);
    }
}

impl<K: Eq + Hash + Drop, V: Drop, S: BuildHasher + Drop, Q: Drop, A: Allocator> Unlocked<
    K,
    V,
    S,
    Q,
    A,
> {
    /// All pairs by value. The locks go; their rows stay used.
    ///
    /// ```text
    /// Unlocked::of(map).into_par_iter().for_each(&rt, |_key, _count| ());
    /// ```
    pub fn into_par_iter(self) -> OwningIter<K, V, A>
        ensures { result ≡ self.plain.tables }
    {
        OwningIter::new(self.into_shards())
    }
}

impl<K: Eq + Hash, V, S: BuildHasher, Q, A: Allocator> ReadOnlyView<K, V, S, Q, A> {
    /// All pairs, lent.
    ///
    /// ```text
    /// let counts = view.par_iter().map_collect(&rt, alloc, |_, count| *count)?;
    /// ```
    pub fn par_iter(&self) -> Iter<'_, K, V, A>
        ensures { result ≡ self.now.plain.tables }
    {
        Iter::new(self.shards())
    }
}

impl<K: Eq + Hash + Drop, V: Drop, S: BuildHasher + Drop, Q: Drop, A: Allocator> ReadOnlyView<
    K,
    V,
    S,
    Q,
    A,
> {
    /// All pairs by value. The locks go; their rows stay used.
    ///
    /// ```text
    /// let counts = view.into_par_iter().map_collect(&rt, alloc, |_, count| count)?;
    /// ```
    pub fn into_par_iter(self) -> OwningIter<K, V, A>
        ensures { result ≡ self.plain.tables }
    {
        self.into_unlocked().into_par_iter()
    }
}
