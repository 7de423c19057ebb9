//! The parallel forms of a map that is shared.
ghost use Rattle.std.specs.Prelude.{◌≡◌, ◌<◌, length, MatchResult};
ghost use Rattle.dashmap_map.specs.Locked.{Locked};

use crate::fault::NoThreadData;
use crate::lent::SharedIter;
use crate::written::SharedIterMut;
use dashmap_map::DashMap;
use dashmap_map::parts::shard_locks;
use lock_api_raw::RawRwLock;
use std::alloc::Allocator;
use std::hash::{BuildHasher, Hash};

/// The parallel forms of a shared map. They are methods by this trait, which has to be in scope.
///
/// ```text
/// map.par_iter(&mut datas)?.for_each(&rt, |name, age| ..);
/// let ages = map.par_iter(&mut datas)?.map_collect(&rt, alloc, |_, age| *age)?;   // in the order of the shards
/// map.par_iter_mut_shared(&mut datas)?.for_each(&rt, |_, age| *age = age.wrapping_add(1));
/// ```
pub trait ParallelMap<K: Eq + Hash, V, S, Q: RawRwLock, A: Allocator> {
    /// The locks and the hasher of a map.
    ghost seen: { Self → Locked Q S };

    /// All pairs, lent, by as many threads as data is handed in; none is refused.
    ///
    /// Nothing is held before its `for_each` or `map_collect` is called.
    ///
    /// ```text
    /// let all = map.par_iter(&mut datas)?;      // NoThreadData, if there is none
    /// ```
    fn par_iter<'m, 'd>(
        &'m self,
        tds: &'d mut [Q::Party],
    ) -> Result<SharedIter<'m, 'd, K, V, Q, A>, NoThreadData>
        ensures { MatchResult result (λ it. (it ≡ (seen self.now).locks) × (0 < length tds.old))
            (λ _. length tds.old ≡ 0) };

    /// All pairs, their values lent for writing, by as many threads as data is handed in; none is refused.
    ///
    /// Nothing is held before its `for_each` is called.
    ///
    /// ```text
    /// map.par_iter_mut_shared(&mut datas)?.for_each(&rt, |_, count| { *count = 0; });
    /// ```
    fn par_iter_mut_shared<'m, 'd>(
        &'m self,
        tds: &'d mut [Q::Party],
    ) -> Result<SharedIterMut<'m, 'd, K, V, Q, A>, NoThreadData>
        ensures { MatchResult result (λ it. (it ≡ (seen self.now).locks) × (0 < length tds.old))
            (λ _. length tds.old ≡ 0) };
}

impl<K: Eq + Hash, V, S: BuildHasher, Q: RawRwLock, A: Allocator> ParallelMap<K, V, S, Q, A>
    for DashMap<K, V, S, Q, A> {
    ghost seen = { λ map. map };

    fn par_iter<'m, 'd>(
        &'m self,
        tds: &'d mut [Q::Party],
    ) -> Result<SharedIter<'m, 'd, K, V, Q, A>, NoThreadData> {
        if tds.is_empty() {
            return Err(NoThreadData);
        }
        Ok(SharedIter::new(shard_locks(self), tds))
    }

    fn par_iter_mut_shared<'m, 'd>(
        &'m self,
        tds: &'d mut [Q::Party],
    ) -> Result<SharedIterMut<'m, 'd, K, V, Q, A>, NoThreadData> {
        if tds.is_empty() {
            return Err(NoThreadData);
        }
        Ok(SharedIterMut::new(shard_locks(self), tds))
    }
}
