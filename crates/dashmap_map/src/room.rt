//! What a map is made of, before it is made.
ghost use Rattle.std.specs.Prelude.{◌≡◌, ℕ, ◌+◌, ◌<◌, ◌≤◌, [], length, IfOk, vec_len, vec_capacity};
ghost use Rattle.std.specs.List.{All};
ghost use Rattle.dashmap_map.specs.Making.{has_shards, have_room};
ghost use Rattle.dashmap_map.specs.Owner.{IsFresh, EachBehind};

use crate::owner::{OwnerEvidence, put_behind};
use crossbeam_utils::CachePadded;
use dashmap_table::Shard;
use lock_api_raw::{MAX_READERS, MakeLock, NoMemory, RawRwLock, TableFull};
use lock_api_rw::{HasRaw, RwLock};
use std::alloc::Allocator;
use std::hash::{Hash, RandomState};
use std::random::RandomSource;

/// A shard without pairs, with room for so many; for none it takes no memory.
pub(crate) fn empty_shard<K: Eq + Hash + Drop, V: Drop, A: Allocator + Clone>(
    alloc: A,
    share: usize,
) -> Result<Shard<K, V, A>, NoMemory>
    ensures { IfOk result (IsFresh share) }
{
    let mut shard = Shard::new(alloc);
    shard.reserve(share)?;
    Ok(shard)
}

/// So many shards without pairs, each with room for so many.
pub(crate) fn empty_shards<K: Eq + Hash + Drop, V: Drop, A: Allocator + Clone>(
    alloc: A,
    amount: usize,
    share: usize,
) -> Result<Vec<Shard<K, V, A>, A>, NoMemory>
    ensures amount { IfOk result (λ v. length v.items ≡ amount) }
    ensures fresh { IfOk result (λ v. All (IsFresh share) v.items) }
{
    let mut shards = Vec::with_capacity(alloc.clone()?, amount)?;
    for _ in 0..amount {
        shards.push(empty_shard(alloc.clone()?, share)?)?;
    }
    Ok(shards)
}

/// Puts each of the shards behind a lock of its own. The list has to have room for them.
pub(crate) fn lock_shards<
    K: Eq + Hash + Drop,
    V: Drop,
    Q: RawRwLock + MakeLock<T> + OwnerEvidence<Shard<K, V, A>> + Drop,
    A: Allocator,
    T: Copy,
>(
    mut shards: Vec<Shard<K, V, A>, A>,
    mut locks: Vec<CachePadded<RwLock<Q, Shard<K, V, A>>>, A>,
    table: T,
) -> Result<Vec<CachePadded<RwLock<Q, Shard<K, V, A>>>, A>, TableFull>
    requires { vec_len locks + vec_len shards ≤ vec_capacity locks }
    ensures amount { IfOk result (λ v. length v.items ≡ length locks.items + length shards.items) }
    ensures fresh { (share : ℕ) → All (IsFresh share) shards.items → EachBehind Q.put (IsFresh share) locks.items
        → IfOk result (λ v. EachBehind Q.put (IsFresh share) v.items) }
{
    while let Some(shard) = shards.pop() {
        let raw = Q::new(table, MAX_READERS)?;
        locks.push_reserved(CachePadded::new(put_behind(raw, shard)));
    }
    Ok(locks)
}

/// Takes so many rows, and keeps the lock of the first alone. Rows that were taken stay used.
pub(crate) fn first_of_rows<Q: RawRwLock + MakeLock<T> + Drop, T: Copy>(
    table: T,
    amount: usize,
) -> Result<Q, TableFull> {
    let first = Q::new(table, MAX_READERS)?;
    for _ in 1..amount {
        let _lock: Q = Q::new(table, MAX_READERS)?;
    }
    Ok(first)
}

/// What came of the shards of a map.
#[derive(Drop)]
pub(crate) enum Made<K: Eq + Hash, V, Q, A: Allocator> {
    /// They are there, each behind its lock, and as many without locks, for none of which there is room for a pair.
    Whole(Vec<CachePadded<RwLock<Q, Shard<K, V, A>>>, A>, Vec<Shard<K, V, A>, A>),
    /// Each had its row, but there was no memory for them. One of the locks is left.
    Short(Q),
}

/// Shards, a list with room for as many behind their locks, and as many more that are spare.
fn room_for<K: Eq + Hash + Drop, V: Drop, Q: RawRwLock + Drop, A: Allocator + Clone>(
    alloc: A,
    amount: usize,
    share: usize,
) -> Result<
    (
        Vec<Shard<K, V, A>, A>,
        Vec<CachePadded<RwLock<Q, Shard<K, V, A>>>, A>,
        Vec<Shard<K, V, A>, A>,
    ),
    NoMemory,
>
    ensures shards { IfOk result (λ r. vec_len r.0 ≡ amount) }
    ensures empty { IfOk result (λ r. r.1.items ≡ []) }
    ensures room { IfOk result (λ r. amount ≤ vec_capacity r.1) }
    ensures spare { IfOk result (λ r. length r.2.items ≡ amount) }
    ensures fresh { IfOk result (λ r. All (IsFresh share) r.0.items) }
{
    let locks = Vec::with_capacity(alloc.clone()?, amount)?;
    let spare = empty_shards(alloc.clone()?, amount, 0)?;
    Ok((empty_shards(alloc, amount, share)?, locks, spare))
}

impl<
    K: Eq + Hash + Drop,
    V: Drop,
    Q: RawRwLock + OwnerEvidence<Shard<K, V, A>> + Drop,
    A: Allocator + Clone,
> Made<K, V, Q, A> {
    /// Takes a row for each shard, whether or not there is memory for them: a table without rows is told before want of
    /// memory.
    pub(crate) fn of<T: Copy>(
        alloc: A,
        amount: usize,
        share: usize,
        table: T,
    ) -> Result<Made<K, V, Q, A>, TableFull>
    where
        Q: MakeLock<T>,
        ensures shards { IfOk result (has_shards amount) }
        ensures room { IfOk result (have_room Q.put share) }
    {
        match room_for(alloc, amount, share) {
            Ok((shards, locks, spare)) => Ok(Made::Whole(
                lock_shards(shards, locks, table)?,
                spare,
            )),
            Err(_) => Ok(Made::Short(first_of_rows(table, amount)?)),
        }
    }
}

impl<K: Eq + Hash, V, Q: RawRwLock, A: Allocator> Made<K, V, Q, A> {
    /// The runtime that the locks keep. There has to be a shard, if there are any.
    fn runtime(&self) -> &Q::Runtime
        requires { (shards : ℕ) × (0 < shards) × has_shards shards self.now }
    {
        match self {
            Made::Whole(shards, _spare) => match shards.first() {
                Some(lock) => lock.raw().runtime(),
                None => unreachable!(),
            },
            Made::Short(lock) => lock.runtime(),
        }
    }

    /// A hasher that the runtime of the locks makes, unless it gives no random words. There has to be a shard, if there
    /// are any.
    pub(crate) fn hasher(&self) -> Option<RandomState>
    where
        Q::Runtime: RandomSource,
        requires { (shards : ℕ) × (0 < shards) × has_shards shards self.now }
    {
        RandomState::new(self.runtime()).ok()
    }
}
