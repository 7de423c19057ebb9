//! What a recorded map is made of, before it is made.
ghost use Rattle.std.specs.Prelude.{◌≡◌, ◌+◌, ◌≤◌, [], length, IsTrue, IfOk, vec_capacity};
ghost use Rattle.std.specs.List.{All};
ghost use Rattle.dashmap_record.specs.History.Match.{rises};
ghost use Rattle.dashmap_record.specs.Recorded.{AreNew};
ghost use Rattle.dashmap_record.specs.Replaying.{no_pair, Replies};

use crate::caller::Caller;
use crate::history::Entered;
use crate::shard::RecordingShard;
use crossbeam_utils::CachePadded;
use lock_api_raw::{MAX_READERS, MakeLock, NoMemory, RawRwLock, TableFull};
use lock_api_rw::RwLock;
use std::alloc::Allocator;
use std::hash::Hash;

/// A history or a log.
pub(crate) type List<K, V, A> = Vec<Entered<K, V>, A>;

/// A shard behind its lock.
pub(crate) type LockedShard<K, V, Q, A> = CachePadded<RwLock<Q, RecordingShard<K, V, A>>>;

/// So many shards without pairs.
fn empty_shards<K: Copy + Eq + Hash, V: Copy + Eq, A: Allocator + Clone>(
    alloc: A,
    amount: usize,
) -> Result<Vec<RecordingShard<K, V, A>, A>, NoMemory>
    ensures { IfOk result (λ v. length v.items ≡ amount) }
{
    let mut shards = Vec::with_capacity(alloc.clone()?, amount)?;
    for _ in 0..amount {
        shards.push(RecordingShard::new(alloc.clone()?, alloc.clone()?))?;
    }
    Ok(shards)
}

/// The callers 0, 1, .. up to so many.
fn new_callers<K: Copy, V: Copy, A: Allocator + Clone>(
    alloc: A,
    amount: usize,
) -> Result<Vec<Caller<K, V, A>, A>, NoMemory>
    ensures count { IfOk result (λ v. length v.items ≡ amount) }
    ensures new { IfOk result (λ v. AreNew 0 v.items) }
{
    let mut callers = Vec::with_capacity(alloc.clone()?, amount)?;
    for number in 0..amount {
        callers.push(Caller::after(alloc.clone()?, number, 0))?;
    }
    Ok(callers)
}

/// The memory of a map that isn't made yet, and its callers.
#[derive(Drop)]
pub(crate) struct Room<K: Eq + Hash, V: Eq, Q, A: Allocator> {
    pub(crate) shards: Vec<RecordingShard<K, V, A>, A>,
    pub(crate) locks: Vec<LockedShard<K, V, Q, A>, A>,
    pub(crate) lists: Vec<List<K, V, A>, A>,
    pub(crate) callers: Vec<Caller<K, V, A>, A>,
}

impl<K: Copy + Eq + Hash, V: Copy + Eq, Q: RawRwLock + Drop, A: Allocator + Clone> Room<
    K,
    V,
    Q,
    A,
> {
    /// For so many shards and callers.
    pub(crate) fn new(alloc: A, shards: usize, callers: usize) -> Result<Room<K, V, Q, A>, NoMemory>
        ensures shards { IfOk result (λ r. length r.shards.items ≡ shards) }
        ensures locks { IfOk result (λ r. (r.locks.items ≡ []) × (shards ≤ vec_capacity r.locks)) }
        ensures lists { IfOk result (λ r. (r.lists.items ≡ []) × (shards ≤ vec_capacity r.lists)) }
        ensures callers { IfOk result (λ r. (length r.callers.items ≡ callers) × AreNew 0 r.callers.items) }
    {
        let locks = Vec::with_capacity(alloc.clone()?, shards)?;
        let lists = Vec::with_capacity(alloc.clone()?, shards)?;
        let callers = new_callers(alloc.clone()?, callers)?;
        Ok(Room {
            shards: empty_shards(alloc, shards)?,
            locks,
            lists,
            callers,
        })
    }
}

/// Puts each of the shards behind a lock of its own. The list has to have room for them.
pub(crate) fn lock_shards<
    K: Copy + Eq + Hash,
    V: Copy + Eq,
    Q: RawRwLock + MakeLock<T> + Drop,
    A: Allocator,
    T: Copy,
>(
    mut shards: Vec<RecordingShard<K, V, A>, A>,
    mut locks: Vec<LockedShard<K, V, Q, A>, A>,
    table: T,
) -> Result<Vec<LockedShard<K, V, Q, A>, A>, TableFull>
    requires { length locks.items + length shards.items ≤ vec_capacity locks }
    ensures { IfOk result (λ v. length v.items ≡ length locks.items + length shards.items) }
{
    while let Some(shard) = shards.pop() {
        let raw = Q::new(table, MAX_READERS)?;
        locks.push_reserved(CachePadded::new(RwLock::from_raw(raw, shard)));
    }
    Ok(locks)
}

/// Takes so many rows, which stay used: for a map whose memory is wanting, so that a full table is told before that.
pub(crate) fn take_rows<Q: RawRwLock + MakeLock<T> + Drop, T: Copy>(
    table: T,
    amount: usize,
) -> Result<(), TableFull> {
    for _ in 0..amount {
        let _lock: Q = Q::new(table, MAX_READERS)?;
    }
    Ok(())
}

/// Takes the histories out of the shards, in order of shard. The list has to have room for them.
pub(crate) fn take_histories<
    K: Copy + Eq + Hash,
    V: Copy + Eq,
    Q: RawRwLock + Drop,
    A: Allocator + Clone,
>(
    shards: Vec<LockedShard<K, V, Q, A>, A>,
    mut histories: Vec<List<K, V, A>, A>,
) -> Vec<List<K, V, A>, A>
    requires empty { histories.items ≡ [] }
    requires room { length shards.items ≤ vec_capacity histories }
    ensures count { length result.items ≡ length shards.items }
    ensures rise { All (λ history. IsTrue (rises history.items)) result.items }
    ensures replies { All (λ history. Replies K.eq V.eq (no_pair K V) history.items) result.items }
{
    for shard in shards {
        histories.push_reserved(shard.into_inner().into_inner().into_history());
    }
    histories
}
