//! Pairs that are put into a shared map, each under an exclusive hold of its shard.
ghost use Rattle.std.specs.Prelude.{◌≡◌, ◌<◌, Some, length, slice_get, MatchResult};
ghost use Rattle.std.specs.Option.{option_map};
ghost use Rattle.crossbeam_utils.specs.Padded.{padded_value};
ghost use Rattle.dashmap_table.specs.Route.{IsShardAmount};
ghost use Rattle.dashmap_table.specs.Table.{PutsIn};
ghost use Rattle.dashmap_map.specs.Evidence.{UnderLock};
ghost use Rattle.dashmap_parallel.specs.Puts.{FindsNoRoom, PutAt, RefusedAt, PutInTurn, PutUpTo};

use crossbeam_utils::CachePadded;
use dashmap_map::held::insert_into;
use dashmap_table::{NoMemory, Shard, route};
use lock_api_rw::{Evidence, RwLock, write_traced};
use std::alloc::Allocator;
use std::hash::Hash;
use std::sync::Wait;

/// Puts a pair into a shard that is held.
fn put_held<K: Eq + Hash + Drop, V: Drop, A: Allocator + Clone>(
    shard: &mut Shard<K, V, A>,
    hash: u64,
    key: K,
    value: V,
) -> Result<(), NoMemory>
    ensures { MatchResult result (λ _. PutsIn K.eq shard.old shard.new hash key value)
        (λ _. FindsNoRoom K.eq shard.old shard.new hash key) }
{
    match insert_into(shard, hash, key, value) {
        Ok(_) => Ok(()),
        Err(_) => Err(NoMemory),
    }
}

/// Puts a pair into the shard behind a lock, under an exclusive hold.
fn put_behind<K: Eq + Hash + Drop, V: Drop, Q: Evidence<Shard<K, V, A>>, A: Allocator + Clone>(
    lock: &RwLock<Q, Shard<K, V, A>>,
    td: &mut Q::Party,
    hash: u64,
    key: K,
    value: V,
) -> Result<(), NoMemory>
where
    Q::Runtime: Wait,
    ensures { MatchResult result
        (λ _. UnderLock Q.held (Some lock.now) td.old td.new (λ old new. PutsIn K.eq old new hash key value))
        (λ _. UnderLock {V = V} Q.held (Some lock.now) td.old td.new
        (λ old new. FindsNoRoom K.eq old new hash key)) }
{
    let mut shard = write_traced(lock, td);
    let put = put_held(&mut *shard, hash, key, value);
    shard.give_back();
    put
}

/// The lock of a shard.
fn lock_behind<K: Eq + Hash, V, Q, A: Allocator>(
    locks: &[CachePadded<RwLock<Q, Shard<K, V, A>>>],
    shard: usize,
) -> &RwLock<Q, Shard<K, V, A>>
    requires { shard < length locks.now }
    ensures { option_map padded_value (slice_get locks.now shard) ≡ Some result.now }
{
    &*locks[shard]
}

/// Puts a pair into the shard to which its hash leads.
fn put_one<K: Eq + Hash + Drop, V: Drop, Q: Evidence<Shard<K, V, A>>, A: Allocator + Clone>(
    locks: &[CachePadded<RwLock<Q, Shard<K, V, A>>>],
    td: &mut Q::Party,
    hash: u64,
    key: K,
    value: V,
) -> Result<(), NoMemory>
where
    Q::Runtime: Wait,
    requires { IsShardAmount (length locks.now) }
    ensures { MatchResult result
        (λ _. PutAt K.eq Q.held locks.now td.old (hash, key, value) td.new)
        (λ _. RefusedAt K.eq Q.held locks.now td.old (hash, key, value) td.new) }
{
    let shard = route(hash, locks.len());
    put_behind(lock_behind(locks, shard), td, hash, key, value)
}

/// Puts pairs in, each behind its hash, by one hold after another, up to the first that is refused.
pub(crate) fn put_each<
    K: Eq + Hash + Drop,
    V: Drop,
    Q: Evidence<Shard<K, V, A>>,
    A: Allocator + Clone,
>(
    locks: &[CachePadded<RwLock<Q, Shard<K, V, A>>>],
    td: &mut Q::Party,
    pairs: Vec<(u64, K, V), A>,
) -> Result<(), NoMemory>
where
    Q::Runtime: Wait,
    requires { IsShardAmount (length locks.now) }
    ensures { MatchResult result
        (λ _. PutInTurn K.eq Q.held locks.now td.old pairs.items td.new)
        (λ _. PutUpTo K.eq Q.held locks.now td.old pairs.items td.new) }
{
    for (hash, key, value) in pairs {
        put_one(locks, td, hash, key, value)?;
    }
    Ok(())
}
