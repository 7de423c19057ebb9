//! Extension of a shared map by several threads.
ghost use Rattle.std.specs.Prelude.{◌≡◌, ◌<◌, ◌↔◌, length, All, OnOk, MatchResult};
ghost use Rattle.dashmap_table.specs.Route.{IsShardAmount};
ghost use Rattle.dashmap_parallel.specs.declared.fault.ParExtendFault.{ParExtendFault};
ghost use Rattle.dashmap_parallel.specs.Puts.{PutInTurn, WasPut, PutInPieces};

use crate::deal::dealt;
use crate::fault::ParExtendFault;
use crate::gifts::given_each;
use crate::put::put_each;
use dashmap_map::DashMap;
use dashmap_map::parts::shard_locks;
use dashmap_table::{NoMemory, Shard};
use lock_api_rw::Evidence;
use std::alloc::Allocator;
use std::hash::{BuildHasher, Hash};
use std::sync::Wait;
use std::thread::Threads;

/// Puts pairs in, each by the piece of its shard.
fn put_in_pieces<
    R: Threads + Sync,
    K: Eq + Hash + Drop + Send + Sync,
    V: Drop + Send + Sync,
    S: BuildHasher,
    Q: Evidence<Shard<K, V, A>> + Sync,
    A: Allocator + Clone + Send + Sync,
>(
    rt: &R,
    map: &DashMap<K, V, S, Q, A>,
    pairs: Vec<(K, V), A>,
    tds: &mut [Q::Party],
) -> Result<(), NoMemory>
where
    Q::Runtime: Wait,
    Q::Party: Send,
    requires { 0 < length tds.old }
    ensures { OnOk result
        (PutInPieces S.BuildHasher S.Hasher.Hasher K.hash_input K.eq Q.held map.now pairs.items tds.old tds.new) }
{
    let mut lists = dealt(map, pairs, tds.len())?;
    let locks = shard_locks(map);
    let part = |list: Vec<(u64, K, V), A>, td: &mut Q::Party| -> Result<(), NoMemory>
        requires { IsShardAmount (length locks.now) }
        ensures { OnOk result (PutInTurn K.eq Q.held locks.entry.now td.old list.items td.new) }
    { put_each(locks, td, list) };
    given_each(rt, &part, &mut lists, tds)
}

/// Puts pairs into a shared map. Each goes to the piece of its shard, which takes its pairs in their order; pieces go
/// side by side, one for each thread's data, and shards are cut into them as `par_iter` cuts them.
///
/// Refused as `NoThreadData`, where no thread's data was handed in, and nothing is done. Refused as `NoMemory`, where
/// there is no memory to deal the pairs out, and nothing is put in; or where a shard would have to grow and can't. Then
/// its piece stops, and lets go of what it has left, while the others go on to their end: what is put in stays.
///
/// ```text
/// par_extend_shared(&map, &rt, pairs, &mut datas)?;
/// ```
pub fn par_extend_shared<
    R: Threads + Sync,
    K: Eq + Hash + Drop + Send + Sync,
    V: Drop + Send + Sync,
    S: BuildHasher,
    Q: Evidence<Shard<K, V, A>> + Sync,
    A: Allocator + Clone + Send + Sync,
>(
    map: &DashMap<K, V, S, Q, A>,
    rt: &R,
    pairs: Vec<(K, V), A>,
    tds: &mut [Q::Party],
) -> Result<(), ParExtendFault>
where
    Q::Runtime: Wait,
    Q::Party: Send,
    ensures threads { MatchResult result (λ _. 0 < length tds.old)
        (λ fault. (fault ≡ ParExtendFault.NoThreadData) ↔ (length tds.old ≡ 0)) }
    ensures turns { OnOk result
        (PutInPieces S.BuildHasher S.Hasher.Hasher K.hash_input K.eq Q.held map.now pairs.items tds.old tds.new) }
    ensures put { OnOk result
        (All (WasPut S.BuildHasher S.Hasher.Hasher K.hash_input K.eq Q.held map.now)
        pairs.items) }
{
    if tds.is_empty() {
        return Err(ParExtendFault::NoThreadData);
    }
    put_in_pieces(rt, map, pairs, tds)?;
    Ok(())
}
