//! The set: keys that threads share by reference, a map to `()`.
//!
//! A [`DashSet`] is a `DashMap` whose values are `()`. Each call is the map's call of the same name, with keys alone:
//! it takes the map's arguments, waits as it waits and takes memory as it does. A call that may wait is lent what a
//! thread of the raw lock has (`Q::Party`) last, and a guard that it gives keeps that borrow.
ghost use Rattle.std.specs.Prelude.{◌≡◌, ◌<◌, length, IsTrue};
ghost use Rattle.dashmap_table.specs.Route.{IsShardAmount, route_of};
ghost use Rattle.dashmap_table.specs.Shards.{key_hash};
ghost use Rattle.dashmap_map.specs.Locked.{shard_of};

mod alone;
mod clone;
mod keyed;
mod make;
mod show;
mod walks;
mod whole;

use dashmap_iter::shard_guards::ShardsView;
use dashmap_map::DashMap;
use std::alloc::{Allocator, Global};
use std::hash::{BuildHasher, Hash};
use std::marker::Model;

/// A set of keys that threads share by reference: a map to `()`.
///
/// A contract sees what it sees of the map: the raw locks and the hasher (`Locked`). What lies behind a lock is known
/// to its holder alone.
///
/// ```text
/// let set = DashSet::with_hasher(alloc, hasher, 8, &table)?;
/// set.insert("seven", &mut me)?;                         // true: it is new
/// let guard = set.get(&"seven", &mut me).ok_or("gone")?; // the key, lent until the guard is dropped
/// ```
#[derive(Drop)]
pub struct DashSet<K: Eq + Hash, S: BuildHasher, Q, A: Allocator = Global> {
    pub(crate) inner: DashMap<K, (), S, Q, A>,
}

impl<K: Eq + Hash, S: BuildHasher, Q, A: Allocator> Model for DashSet<K, S, Q, A> {
    ghost use Rattle.dashmap_map.specs.Locked.{Locked};

    ghost Value = { Locked Q S };

    ghost view = { λ s. s.inner };
}

impl<K: Eq + Hash, S: BuildHasher, Q, A: Allocator> DashSet<K, S, Q, A> {
    /// The shards, to be counted and read.
    ///
    /// ```text
    /// if let Some(shard) = set.shards().read(0, &mut me) { let keys = shard.len(); }
    /// ```
    pub fn shards(&self) -> ShardsView<'_, K, (), S, Q, A>
        ensures { result ≡ self.now }
    {
        ShardsView::of(&self.inner)
    }

    /// The hasher's hash of anything that can be hashed.
    ///
    /// ```text
    /// let hash = set.hash_usize(&"ann");
    /// ```
    pub fn hash_usize<T: Eq + Hash>(&self, item: &T) -> usize
        ensures { result ≡ key_hash S.BuildHasher S.Hasher.Hasher T.hash_input self.now.hasher item.now }
    {
        self.inner.hash_usize(item)
    }

    /// The number of the shard that a key belongs to. Equal keys belong to one shard, so their calls wait for one
    /// another.
    ///
    /// ```text
    /// let together = set.determine_map(&"ann") == set.determine_map(&"ben");
    /// ```
    pub fn determine_map(&self, key: &K) -> usize
        ensures value { result ≡ shard_of S.BuildHasher S.Hasher.Hasher K.hash_input self.now key.now }
        ensures below { result < length self.now.locks }
        ensures same { (other : K) → IsTrue (K.eq key.now other) → shard_of S.BuildHasher S.Hasher.Hasher K.hash_input
            self.now other ≡ result }
    {
        self.inner.determine_map(key)
    }

    /// The number of the shard that a hash belongs to.
    ///
    /// ```text
    /// let number = set.determine_shard(set.hash_usize(&"ann"));
    /// ```
    pub fn determine_shard(&self, hash: usize) -> usize
        ensures value { result ≡ route_of hash (length self.now.locks) }
        ensures below { result < length self.now.locks }
        ensures amount { IsShardAmount (length self.now.locks) }
    {
        self.inner.determine_shard(hash)
    }
}
