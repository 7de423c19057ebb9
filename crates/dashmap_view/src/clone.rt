//! Clones of plain shards.
ghost use Rattle.std.specs.Prelude.{◌≡◌, ℕ, ◌<◌, ◌≤◌, length, None, IfOk, OnOk, IfSome, MatchOption};
ghost use Rattle.std.specs.List.{AllZip};
ghost use Rattle.dashmap_table.specs.Slots.{at, count, slot_of};
ghost use Rattle.dashmap_table.specs.Table.{Adds, IsSound, SamePairs};
ghost use Rattle.dashmap_view.specs.Clones.{IsCloneOf};

use dashmap_table::{NoMemory, Shard};
use std::alloc::Allocator;
use std::hash::Hash;

/// Adds a clone of the pair in a slot to a shard that has room for it and doesn't have its key. A free slot adds
/// nothing.
fn clone_slot<K: Eq + Hash + Clone + Drop, V: Clone + Drop, A: Allocator>(
    shard: &Shard<K, V, A>,
    slot: usize,
    clones: Shard<K, V, A>,
) -> Result<Shard<K, V, A>, NoMemory>
    requires keys { (key copy : K) → K.is_clone key copy → copy ≡ key }
    requires values { (value copy : V) → V.is_clone value copy → copy ≡ value }
    requires absent { IfSome (at shard.now.slots slot) (λ e. slot_of K.eq clones.slots e.hash e.key ≡ None) }
    requires room { IfSome (at shard.now.slots slot) (λ e. count clones.slots < clones.room) }
    ensures { IfOk result
        (λ after. MatchOption (at shard.now.slots slot) (after ≡ clones)
        (λ e. (i : ℕ) × Adds K.eq clones after e i × IsSound K.eq after)) }
{
    let (Some(hash), Some((key, value))) = (shard.hash_of(slot), shard.pair(slot)) else {
        return Ok(clones);
    };
    let mut clones = clones;
    let key = key.clone()?;
    clones.add(hash, key, value.clone()?);
    Ok(clones)
}

/// A clone of a hasher, which has to be equal to it.
pub fn clone_hasher<S: Clone>(hasher: &S) -> Result<S, NoMemory>
    requires { (hasher copy : S) → S.is_clone hasher copy → copy ≡ hasher }
    ensures { IfOk result (λ copy. copy ≡ hasher.now) }
{
    Ok(hasher.clone()?)
}

/// A shard with clones of all pairs of another, under the same hashes. It has room for them and asks for no more.
pub fn clone_shard<K: Eq + Hash + Clone + Drop, V: Clone + Drop, A: Allocator + Clone>(
    shard: &Shard<K, V, A>,
    alloc: A,
) -> Result<Shard<K, V, A>, NoMemory>
    requires keys { (key copy : K) → K.is_clone key copy → copy ≡ key }
    requires values { (value copy : V) → V.is_clone value copy → copy ≡ value }
    ensures { IfOk result (IsCloneOf K.eq shard.now) }
{
    let mut clones = Shard::new(alloc);
    clones.reserve(shard.len())?;
    for slot in 0..shard.slots() {
        clones = clone_slot(shard, slot, clones)?;
    }
    let _pairs = clones.len();
    Ok(clones)
}

/// Clones of all shards, in their order.
pub(crate) fn clone_shards<K: Eq + Hash + Clone + Drop, V: Clone + Drop, A: Allocator + Clone>(
    shards: &[Shard<K, V, A>],
    alloc: A,
) -> Result<Vec<Shard<K, V, A>, A>, NoMemory>
    requires keys { (key copy : K) → K.is_clone key copy → copy ≡ key }
    requires values { (value copy : V) → V.is_clone value copy → copy ≡ value }
    ensures { IfOk result (λ v. AllZip (IsCloneOf K.eq) shards.now v.items) }
{
    let mut clones = Vec::with_capacity(alloc.clone()?, shards.len())?;
    for shard in shards {
        clones.push(clone_shard(shard, alloc.clone()?)?)?;
    }
    Ok(clones)
}
