//! Parallel forms of a view.
ghost use Rattle.std.specs.Prelude.{◌≡◌, List};
ghost use Rattle.dashmap_table.specs.Table.{Table};

use crate::PlainView;
use crate::parallel::lent::Iter;
use crate::parallel::owned::OwningIter;
use std::alloc::Allocator;
use std::hash::{BuildHasher, Hash};

/// The parallel forms of a view. They are methods by this trait, which has to be in scope.
///
/// ```text
/// let ages = view.par_iter().map_collect(&rt, alloc, |_, age| *age)?;    // in the order of the shards
/// view.into_par_iter().for_each(&rt, |name, age| ..);
/// ```
pub trait ParallelView<K: Eq + Hash, V, A: Allocator>: Sized {
    ghost tables_of: { Self → List (Table K V) };

    /// All pairs, lent: shards go side by side.
    ///
    /// ```text
    /// let counts = view.par_iter().map_collect(&rt, alloc, |_, count| *count)?;
    /// ```
    fn par_iter(&self) -> Iter<'_, K, V, A>
        ensures { result ≡ tables_of self.now };

    /// All pairs by value: shards go side by side.
    ///
    /// ```text
    /// view.into_par_iter().for_each(&rt, |_, _| ());
    /// ```
    fn into_par_iter(self) -> OwningIter<K, V, A>
        ensures { result ≡ tables_of self };
}

impl<K: Eq + Hash, V, S: BuildHasher + Drop, A: Allocator> ParallelView<K, V, A>
    for PlainView<K, V, S, A> {
    ghost tables_of = { λ v. v.tables };

    fn par_iter(&self) -> Iter<'_, K, V, A> {
        Iter::new(self.shards())
    }

    fn into_par_iter(self) -> OwningIter<K, V, A> {
        let (shards, _hasher) = self.into_parts();
        OwningIter::new(shards)
    }
}
