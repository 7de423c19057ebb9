//! Extension of a shared set by several threads.
ghost use Rattle.std.specs.Prelude.{◌≡◌, ◌<◌, ◌↔◌, length, map, All, IfOk, OnOk, MatchResult};
ghost use Rattle.dashmap_parallel.specs.declared.fault.ParExtendFault.{ParExtendFault};
ghost use Rattle.dashmap_parallel.specs.Puts.{WasPut, PutInPieces};

use crate::set::DashSet;
use dashmap_map::parts::allocator;
use dashmap_parallel::{ParExtendFault, par_extend_shared};
use dashmap_table::Shard;
use lock_api_raw::NoMemory;
use lock_api_rw::Evidence;
use std::alloc::Allocator;
use std::hash::{BuildHasher, Hash};
use std::sync::Wait;
use std::thread::Threads;

/// Keys as the pairs of a map to `()`.
fn with_units<K: Drop, A: Allocator + Clone>(
    keys: Vec<K, A>,
    alloc: &A,
) -> Result<Vec<(K, ()), A>, NoMemory>
    ensures { IfOk result (λ v. v.items ≡ map (λ k. (k, tt)) keys.items) }
{
    let mut pairs = Vec::with_capacity(alloc.clone()?, keys.len())?;
    for key in keys {
        pairs.push((key, ()))?;
    }
    Ok(pairs)
}

impl<K: Eq + Hash, S: BuildHasher, Q: Evidence<Shard<K, (), A>>, A: Allocator> DashSet<K, S, Q, A>
where
    Q::Runtime: Wait,
    Q::Party: Send,
{
    /// Puts keys into a shared set, as the map's `par_extend_shared` puts pairs: each goes to the piece of its shard,
    /// which takes its keys in their order, and pieces go side by side, one for each thread's data.
    ///
    /// Refused as `NoThreadData`, where no thread's data was handed in, and nothing is done. Refused as `NoMemory`,
    /// where there is no memory to deal the keys out, and nothing is put in; or where a shard would have to grow and
    /// can't. Then its piece stops, and lets go of what it has left, while the others go on to their end: what is put
    /// in stays.
    ///
    /// ```text
    /// set.par_extend_shared(&rt, keys, &mut datas)?;
    /// ```
    pub fn par_extend_shared<R: Threads + Sync>(
        &self,
        rt: &R,
        keys: Vec<K, A>,
        tds: &mut [Q::Party],
    ) -> Result<(), ParExtendFault>
    where
        K: Drop + Send + Sync,
        Q: Sync,
        A: Clone + Send + Sync,
        ensures threads { MatchResult result (λ _. 0 < length tds.old)
            (λ fault. (fault ≡ ParExtendFault.NoThreadData) ↔ (length tds.old ≡ 0)) }
        ensures turns { OnOk result
            (PutInPieces {V = Unit {0}} S.BuildHasher S.Hasher.Hasher K.hash_input K.eq Q.held self.now
            (map (λ k. (k, tt)) keys.items) tds.old tds.new) }
        ensures put { OnOk result
            (All (λ k. WasPut {V = Unit {0}} S.BuildHasher S.Hasher.Hasher K.hash_input K.eq Q.held self.now (k, tt))
            keys.items) }
    {
        if tds.is_empty() {
            return Err(ParExtendFault::NoThreadData);
        }
        let pairs = with_units(keys, allocator(&self.inner))?;
        par_extend_shared(&self.inner, rt, pairs, tds)
    }
}
