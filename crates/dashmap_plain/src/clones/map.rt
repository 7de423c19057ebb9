//! Clones of maps.
ghost use Rattle.std.specs.Prelude.{◌≡◌, ◌⊎◌, length, IfOk, IfErr};
ghost use Rattle.dashmap_map.specs.Locked.{Locked};
ghost use Rattle.dashmap_table.specs.Route.{IsShardAmount};
ghost use Rattle.dashmap_table.specs.declared.fault.MapFault.{MapFault};
ghost use Rattle.dashmap_plain.specs.Clones.Clones.{IsCloneBehind, AreClonesBehind, IsCloneOfMap};

use crate::Unlocked;
use crate::clones::rows::fault_without_memory;
use dashmap_map::DashMap;
use dashmap_map::owner::OwnerEvidence;
use dashmap_map::parts::{allocator, shard_locks};
use dashmap_table::{MapFault, Shard};
use dashmap_view::{clone_hasher, clone_shard};
use lock_api_raw::{MakeLock, NoMemory, RawRwLock};
use lock_api_rw::{Evidence, RwLock, read_shown};
use std::alloc::Allocator;
use std::hash::{BuildHasher, Hash};
use std::sync::Wait;

/// What a map has in place of `Clone`.
///
/// ```text
/// let copy = map.clone(&table, &mut me)?;
/// ```
pub trait CloneMap<
    K: Eq + Hash,
    V,
    S: BuildHasher,
    Q: Evidence<Shard<K, V, A>> + OwnerEvidence<Shard<K, V, A>>,
    A: Allocator,
>: Sized {
    /// The locks and the hasher of a map.
    ghost seen: { Self → Locked Q S };

    /// A map with clones of all pairs, and as many shards. The shards are taken in their order, and one is held at a
    /// time: pairs that others put in or take out meanwhile may be there or not.
    ///
    /// Refused as `TableFull` or `NoMemory`, in this order; then the rows that were taken stay used.
    ///
    /// Blocks while another holds a shard exclusively, or waits to. Memory: a list of locks, and each shard with its
    /// pairs.
    ///
    /// ```text
    /// let copy = map.clone(&table, &mut me)?;   // rows of the same table for its locks
    /// ```
    fn clone<T: Copy>(&self, table: T, td: &mut Q::Party) -> Result<Self, MapFault>
    where
        K: Clone,
        V: Clone,
        S: Clone,
        Q: MakeLock<T>,
        Q::Runtime: Wait,
        requires keys { (key copy : K) → K.is_clone key copy → copy ≡ key }
        requires values { (value copy : V) → V.is_clone value copy → copy ≡ value }
        requires hasher { (hasher copy : S) → S.is_clone hasher copy → copy ≡ hasher }
        ensures made { IfOk result
            (λ m. (length (seen m).locks ≡ length (seen self.now).locks) × ((seen m).hasher ≡ (seen self.now).hasher)) }
        ensures put { IfOk result (λ m. IsCloneOfMap Q.showed Q.put K.eq (seen self.now) (seen m)) }
        ensures refused { IfErr result (λ fault. (fault ≡ MapFault.TableFull) ⊎ (fault ≡ MapFault.NoMemory)) };
}

/// A clone of the shard behind a lock, which is held meanwhile.
fn clone_behind<
    K: Eq + Hash + Clone + Drop,
    V: Clone + Drop,
    Q: Evidence<Shard<K, V, A>>,
    A: Allocator + Clone,
>(lock: &RwLock<Q, Shard<K, V, A>>, alloc: A, td: &mut Q::Party) -> Result<Shard<K, V, A>, NoMemory>
where
    Q::Runtime: Wait,
    requires keys { (key copy : K) → K.is_clone key copy → copy ≡ key }
    requires values { (value copy : V) → V.is_clone value copy → copy ≡ value }
    ensures { IfOk result (IsCloneBehind Q.showed K.eq lock.now) }
{
    let guard = read_shown(lock, td);
    clone_shard(&*guard, alloc)
}

/// Clones of all shards of a map, in their order, each of what its lock showed while it was held. One is held at a
/// time.
///
/// This is what `clone` puts behind the locks of the new map.
pub fn clone_locked<
    K: Eq + Hash + Clone + Drop,
    V: Clone + Drop,
    S: BuildHasher,
    Q: Evidence<Shard<K, V, A>>,
    A: Allocator + Clone,
>(map: &DashMap<K, V, S, Q, A>, td: &mut Q::Party) -> Result<Vec<Shard<K, V, A>, A>, NoMemory>
where
    Q::Runtime: Wait,
    requires keys { (key copy : K) → K.is_clone key copy → copy ≡ key }
    requires values { (value copy : V) → V.is_clone value copy → copy ≡ value }
    ensures { IfOk result (λ v. AreClonesBehind Q.showed K.eq map.now v.items) }
{
    let locks = shard_locks(map);
    let alloc = allocator(map);
    let mut clones = Vec::with_capacity(alloc.clone()?, locks.len())?;
    for lock in locks {
        clones.push(clone_behind(&**lock, alloc.clone()?, td)?)?;
    }
    Ok(clones)
}

/// Clones of all shards of a map, as `clone_locked` makes them, and of its hasher.
fn clone_parts<
    K: Eq + Hash + Clone + Drop,
    V: Clone + Drop,
    S: BuildHasher + Clone + Drop,
    Q: Evidence<Shard<K, V, A>>,
    A: Allocator + Clone,
>(map: &DashMap<K, V, S, Q, A>, td: &mut Q::Party) -> Result<(Vec<Shard<K, V, A>, A>, S), NoMemory>
where
    Q::Runtime: Wait,
    requires keys { (key copy : K) → K.is_clone key copy → copy ≡ key }
    requires values { (value copy : V) → V.is_clone value copy → copy ≡ value }
    requires hasher { (hasher copy : S) → S.is_clone hasher copy → copy ≡ hasher }
    ensures shards { IfOk result (λ r. AreClonesBehind Q.showed K.eq map.now r.0.items) }
    ensures hasher { IfOk result (λ r. r.1 ≡ map.now.hasher) }
{
    let shards = clone_locked(map, td)?;
    let hasher = clone_hasher(map.hasher())?;
    Ok((shards, hasher))
}

/// A map of these shards, each behind a new lock, taken apart.
pub(crate) fn map_of<
    K: Eq + Hash + Drop,
    V: Drop,
    S: BuildHasher + Drop,
    Q: RawRwLock + MakeLock<T> + OwnerEvidence<Shard<K, V, A>> + Drop,
    A: Allocator + Clone,
    T: Copy,
>(shards: Vec<Shard<K, V, A>, A>, hasher: S, table: T) -> Result<Unlocked<K, V, S, Q, A>, MapFault>
    requires { IsShardAmount (length shards.items) }
    ensures plain { IfOk result (λ u. u.plain ≡ record { tables = shards.items; hasher = hasher }) }
    ensures locks { IfOk result (λ u. length u.locks ≡ length shards.items) }
    ensures refused { IfErr result (λ fault. (fault ≡ MapFault.TableFull) ⊎ (fault ≡ MapFault.NoMemory)) }
{
    let amount = shards.len();
    let Ok(alloc) = shards.allocator().clone() else {
        return Err(fault_without_memory::<Q, T>(table, amount));
    };
    match DashMap::with_hasher_and_shard_amount(alloc, hasher, amount, table) {
        Ok(map) => Ok(Unlocked::of(map).with_shards(shards)),
        Err(fault) => Err(fault),
    }
}

/// What `CloneMap::clone` makes, before its shards go behind their locks.
///
/// Refused as `TableFull` or `NoMemory`, in this order; then the rows that were taken stay used.
pub fn clone_unlocked<
    K: Eq + Hash + Clone + Drop,
    V: Clone + Drop,
    S: BuildHasher + Clone + Drop,
    Q: Evidence<Shard<K, V, A>> + OwnerEvidence<Shard<K, V, A>> + MakeLock<T> + Drop,
    A: Allocator + Clone,
    T: Copy,
>(
    map: &DashMap<K, V, S, Q, A>,
    table: T,
    td: &mut Q::Party,
) -> Result<Unlocked<K, V, S, Q, A>, MapFault>
where
    Q::Runtime: Wait,
    requires keys { (key copy : K) → K.is_clone key copy → copy ≡ key }
    requires values { (value copy : V) → V.is_clone value copy → copy ≡ value }
    requires hasher { (hasher copy : S) → S.is_clone hasher copy → copy ≡ hasher }
    ensures shards { IfOk result (λ u. AreClonesBehind Q.showed K.eq map.now u.plain.tables) }
    ensures hasher { IfOk result (λ u. u.plain.hasher ≡ map.now.hasher) }
    ensures locks { IfOk result (λ u. length u.locks ≡ length map.now.locks) }
    ensures refused { IfErr result (λ fault. (fault ≡ MapFault.TableFull) ⊎ (fault ≡ MapFault.NoMemory)) }
{
    let amount = shard_locks(map).len();
    match clone_parts(map, td) {
        Ok((shards, hasher)) => map_of(shards, hasher, table),
        Err(_) => Err(fault_without_memory::<Q, T>(table, amount)),
    }
}

impl<
    K: Eq + Hash + Drop,
    V: Drop,
    S: BuildHasher + Drop,
    Q: Evidence<Shard<K, V, A>> + OwnerEvidence<Shard<K, V, A>> + Drop,
    A: Allocator + Clone,
> CloneMap<K, V, S, Q, A> for DashMap<K, V, S, Q, A> {
    ghost seen = { λ map. map };

    fn clone<T: Copy>(
        &self,
        table: T,
        td: &mut Q::Party,
    ) -> Result<DashMap<K, V, S, Q, A>, MapFault>
    where
        K: Clone,
        V: Clone,
        S: Clone,
        Q: MakeLock<T>,
        Q::Runtime: Wait,
    {
        match clone_unlocked(self, table, td) {
            Ok(clone) => Ok(clone.into_map()),
            Err(fault) => Err(fault),
        }
    }
}
