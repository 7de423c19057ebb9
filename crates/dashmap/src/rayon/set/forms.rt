//! The parallel forms of a set: those that are begun on a shared set, and those of its one owner.
ghost use Rattle.std.specs.Prelude.{◌≡◌, ◌^◌, ◌<◌, ◌↔◌, ◌++◌, ◌∷◌, List, length, Err, IfOk, IfErr, OnOk};
ghost use Rattle.std.specs.Prelude.{MatchResult};
ghost use Rattle.std.specs.List.{All};
ghost use Rattle.std.specs.Int.{IsNextPowerOfTwo};
ghost use Rattle.dashmap_table.specs.Route.{wanted_shards};
ghost use Rattle.dashmap_table.specs.declared.fault.MapFault.{MapFault};
ghost use Rattle.dashmap_map.specs.Owner.{EachOf};
ghost use Rattle.dashmap.specs.Set.Owner.{KeyIsPut, KeyHadNoRoom};

use super::lent::Iter;
use super::owned::OwningIter;
use crate::set::DashSet;
use dashmap_map::owner::OwnerEvidence;
use dashmap_parallel::{NoThreadData, ParallelMap};
use dashmap_plain::Plain;
use dashmap_table::{MapFault, Shard};
use lock_api_raw::{MakeLock, RawRwLock};
use std::alloc::Allocator;
use std::hash::{BuildHasher, Hash};

impl<K: Eq + Hash, S: BuildHasher, Q: RawRwLock, A: Allocator> DashSet<K, S, Q, A> {
    /// All keys, lent, by as many threads as data is handed in; none is refused.
    ///
    /// ```text
    /// set.par_iter(&mut datas)?.for_each(&rt, |name| ..);
    /// let lengths = set.par_iter(&mut datas)?.map_collect(&rt, alloc, |name| name.len())?;    // in the order of the shards
    /// ```
    pub fn par_iter<'m, 'd>(
        &'m self,
        tds: &'d mut [Q::Party],
    ) -> Result<Iter<'m, 'd, K, Q, A>, NoThreadData>
        ensures { MatchResult result (λ it. (it ≡ self.now.locks) × (0 < length tds.old)) (λ _. length tds.old ≡ 0) }
    {
        match self.inner.par_iter(tds) {
            Ok(pairs) => Ok(Iter::of_pairs(pairs)),
            Err(fault) => Err(fault),
        }
    }
}

impl<
    K: Eq + Hash + Drop,
    S: BuildHasher + Drop,
    Q: OwnerEvidence<Shard<K, (), A>> + Drop,
    A: Allocator,
> DashSet<K, S, Q, A> {
    /// All keys by value: the keys of one shard are one piece of work, and shards go side by side. The locks go; their
    /// rows stay used. Nothing waits for a lock.
    ///
    /// ```text
    /// set.into_par_iter().for_each(&rt, |name| ..);
    /// ```
    pub fn into_par_iter(self) -> OwningIter<K, A>
        ensures amount { length result ≡ length self.locks }
        ensures taken { EachOf Q.taken self.locks result }
    {
        let DashSet { inner } = self;
        OwningIter::of_pairs(Plain::into_par_iter(inner))
    }
}

impl<
    K: Eq + Hash + Drop,
    S: BuildHasher,
    Q: OwnerEvidence<Shard<K, (), A>>,
    A: Allocator + Clone,
> DashSet<K, S, Q, A> {
    /// Puts keys in, as `extend` does, in the order in which they are handed in. The first one that is refused comes
    /// back: the keys before it stay, and those behind it are let go.
    ///
    /// ```text
    /// set.par_extend(names)?; // a `Vec`
    /// ```
    pub fn par_extend(&mut self, keys: Vec<K, A>) -> Result<(), K>
        ensures all { OnOk result
            (All (KeyIsPut Q.taken Q.put S.BuildHasher S.Hasher.Hasher K.hash_input K.eq self.old) keys.items) }
        ensures refused { IfErr result
            (λ back. (before : List K) × (rest : List K) × (keys.items ≡ before ++ back ∷ rest)
            × All (KeyIsPut Q.taken Q.put S.BuildHasher S.Hasher.Hasher K.hash_input K.eq self.old) before
            × KeyHadNoRoom Q.taken Q.put S.BuildHasher S.Hasher.Hasher K.hash_input K.eq self.old back) }
        ensures locks { self.new ≡ self.old }
    {
        self.extend(keys.into_iter())
    }
}

impl<
    K: Eq + Hash + Drop,
    S: BuildHasher + Drop,
    Q: RawRwLock + OwnerEvidence<Shard<K, (), A>> + Drop,
    A: Allocator + Clone,
> DashSet<K, S, Q, A> {
    /// As `from_iter`, of keys in the order in which they are handed in.
    ///
    /// Refused as `BadShards`, `TableFull` or `NoMemory`, in this order.
    ///
    /// ```text
    /// let set = DashSet::from_par_iter(alloc, names, hasher, 3, &table)?;
    /// ```
    pub fn from_par_iter<T: Copy>(
        alloc: A,
        keys: Vec<K, A>,
        hasher: S,
        parallelism: usize,
        table: T,
    ) -> Result<DashSet<K, S, Q, A>, MapFault>
    where
        Q: MakeLock<T>,
        ensures made { IfOk result (λ s. IsNextPowerOfTwo (wanted_shards parallelism) (length s.locks)
            × (s.hasher ≡ hasher)) }
        ensures all { IfOk result
            (λ s. All (KeyIsPut Q.taken Q.put S.BuildHasher S.Hasher.Hasher K.hash_input K.eq s) keys.items) }
        ensures bad_shards { (result ≡ Err MapFault.BadShards) ↔ (2 ^ 16 < wanted_shards parallelism) }
        ensures fits { ¬ (result ≡ Err MapFault.CapacityOverflow) }
    {
        DashSet::from_iter(alloc, keys.into_iter(), hasher, parallelism, table)
    }
}
