//! The map, the set, their guards, walks and views over the locks of `parking_lot`, under their usual names.
//!
//! `S` is the hasher, `R` the lot's runtime and `A` the allocator of the lot and of the map. The lifetimes `'t` and `'l`
//! are those of the lock table and of the lot; of guards and walks `'m` is the borrow of the map, and `'d` that of the
//! thread's data.

use dashmap_guard::mapref as over;
use dashmap_iter::shard_guards;
use dashmap_map::mapref::{entry, one};
use dashmap_table::Shard;
use lock_api_rw::{Exclusive, RawHold, Shared};
use parking_lot_core::ThreadData;
use parking_lot_rwlock::RawRwLock;
use std::alloc::Global;
use std::sync;

/// A shard of a map and its lock.
type Locked<'t, 'l, K, V, R, A> = RwLock<'t, 'l, Shard<K, V, A>, R, A>;

/// A shared hold of a shard.
type Reads<'m, 't, 'l, K, V, R, A> = RawHold<&'m Locked<'t, 'l, K, V, R, A>, Shared>;

/// An exclusive hold of a shard.
type Writes<'m, 't, 'l, K, V, R, A> = RawHold<&'m Locked<'t, 'l, K, V, R, A>, Exclusive>;

/// A map that threads share by reference.
pub type DashMap<'t, 'l, K, V, S, R, A = Global> = dashmap_map::DashMap<
    K,
    V,
    S,
    RawRwLock<'t, 'l, R, 0, A>,
    A,
>;

/// A set of keys that threads share by reference: a map to `()`.
pub type DashSet<'t, 'l, K, S, R, A = Global> = crate::set::DashSet<
    K,
    S,
    RawRwLock<'t, 'l, R, 0, A>,
    A,
>;

/// A map whose callers write each call down, so that the run can be judged afterwards.
pub type Recorded<'t, 'l, K, V, S, R, A = Global> = dashmap_record::Recorded<
    K,
    V,
    S,
    RawRwLock<'t, 'l, R, 0, A>,
    A,
>;

/// A shared guard of one pair: what `get` gives.
pub type Ref<'m, 'd, 't, 'l, K, V, R, A = Global> = one::Ref<
    'm,
    'd,
    K,
    V,
    RawRwLock<'t, 'l, R, 0, A>,
    A,
>;

/// An exclusive guard of one pair: what `get_mut` gives, and an entry once it is filled.
pub type RefMut<'m, 'd, 't, 'l, K, V, R, A = Global> = one::RefMut<
    'm,
    'd,
    K,
    V,
    RawRwLock<'t, 'l, R, 0, A>,
    A,
>;

/// The place of a key, whose shard is held until the entry is let go: what `entry` gives.
pub type Entry<'m, 'd, 't, 'l, K, V, R, A = Global> = entry::Entry<
    'm,
    'd,
    K,
    V,
    RawRwLock<'t, 'l, R, 0, A>,
    A,
>;

/// An entry of a key that has a pair.
pub type OccupiedEntry<'m, 'd, 't, 'l, K, V, R, A = Global> = over::entry::OccupiedEntry<
    K,
    V,
    A,
    sync::RwLockWriteGuard<'m, Shard<K, V, A>>,
    Writes<'m, 't, 'l, K, V, R, A>,
    &'d mut ThreadData<A>,
>;

/// An entry of a key that has no pair, with room for one.
pub type VacantEntry<'m, 'd, 't, 'l, K, V, R, A = Global> = over::entry::VacantEntry<
    K,
    V,
    A,
    sync::RwLockWriteGuard<'m, Shard<K, V, A>>,
    Writes<'m, 't, 'l, K, V, R, A>,
    &'d mut ThreadData<A>,
>;

/// A [`Ref`] that a projection of the type `P` narrows to a part of the value.
pub type MappedRef<'m, 'd, 't, 'l, K, V, P, R, A = Global> = over::one::MappedRef<
    K,
    V,
    A,
    sync::RwLockReadGuard<'m, Shard<K, V, A>>,
    Reads<'m, 't, 'l, K, V, R, A>,
    &'d mut ThreadData<A>,
    P,
>;

/// A [`RefMut`] that a projection of the type `P` narrows to a part of the value.
pub type MappedRefMut<'m, 'd, 't, 'l, K, V, P, R, A = Global> = over::one::MappedRefMut<
    K,
    V,
    A,
    sync::RwLockWriteGuard<'m, Shard<K, V, A>>,
    Writes<'m, 't, 'l, K, V, R, A>,
    &'d mut ThreadData<A>,
    P,
>;

/// A reading walk over a map: what `iter` gives.
pub type Iter<'m, 'd, 't, 'l, K, V, R, A = Global> = dashmap_iter::Iter<
    'm,
    'd,
    K,
    V,
    RawRwLock<'t, 'l, R, 0, A>,
    A,
>;

/// A writing walk over a map: what `iter_mut` gives.
pub type IterMut<'m, 'd, 't, 'l, K, V, R, A = Global> = dashmap_iter::IterMut<
    'm,
    'd,
    K,
    V,
    RawRwLock<'t, 'l, R, 0, A>,
    A,
>;

/// A pair that a reading walk lends.
pub type RefMulti<'m, 'd, 't, 'l, K, V, R, A = Global> = dashmap_iter::multiple::RefMulti<
    'm,
    'd,
    K,
    V,
    RawRwLock<'t, 'l, R, 0, A>,
    A,
>;

/// A pair that a writing walk lends, for as long as `'w`, the borrow of the walk.
pub type RefMutMulti<'w, 'm, 'd, 't, 'l, K, V, R, A = Global> =
    dashmap_iter::multiple_mut::RefMutMulti<'w, 'm, 'd, K, V, RawRwLock<'t, 'l, R, 0, A>, A>;

/// A shared guard of one key of a set.
pub type SetRef<'m, 'd, 't, 'l, K, R, A = Global> = crate::setref::one::Ref<
    'm,
    'd,
    K,
    RawRwLock<'t, 'l, R, 0, A>,
    A,
>;

/// A walk over the keys of a set.
pub type SetIter<'m, 'd, 't, 'l, K, R, A = Global> = crate::iter_set::Iter<
    'm,
    'd,
    K,
    RawRwLock<'t, 'l, R, 0, A>,
    A,
>;

/// A key that a walk over a set lends.
pub type SetRefMulti<'m, 'd, 't, 'l, K, R, A = Global> = crate::setref::multiple::RefMulti<
    'm,
    'd,
    K,
    RawRwLock<'t, 'l, R, 0, A>,
    A,
>;

/// A map that nobody writes, for any number of readers.
pub type ReadOnlyView<'t, 'l, K, V, S, R, A = Global> = dashmap_plain::ReadOnlyView<
    K,
    V,
    S,
    RawRwLock<'t, 'l, R, 0, A>,
    A,
>;

/// The shards of a map, to be counted and read.
pub type ShardsView<'m, 't, 'l, K, V, S, R, A = Global> = shard_guards::ShardsView<
    'm,
    K,
    V,
    S,
    RawRwLock<'t, 'l, R, 0, A>,
    A,
>;

/// A guard that lends a whole shard to be read, beside other readers.
pub type ShardReadGuard<'m, 'd, 't, 'l, K, V, R, A = Global> = shard_guards::ShardReadGuard<
    'm,
    'd,
    K,
    V,
    RawRwLock<'t, 'l, R, 0, A>,
    A,
>;

/// A guard that lends a whole shard to be read, with nobody beside it.
pub type ShardWriteGuard<'m, 'd, 't, 'l, K, V, R, A = Global> = shard_guards::ShardWriteGuard<
    'm,
    'd,
    K,
    V,
    RawRwLock<'t, 'l, R, 0, A>,
    A,
>;

/// A reader-writer lock and a value.
pub type RwLock<'t, 'l, T, R, A = Global> = lock_api_rw::RwLock<RawRwLock<'t, 'l, R, 0, A>, T>;

/// The guard of a reader of an [`RwLock`].
pub type RwLockReadGuard<'m, 't, 'l, T, R, A = Global> = lock_api_rw::RwLockReadGuard<
    'm,
    RawRwLock<'t, 'l, R, 0, A>,
    T,
>;

/// The guard of a writer of an [`RwLock`].
pub type RwLockWriteGuard<'m, 't, 'l, T, R, A = Global> = lock_api_rw::RwLockWriteGuard<
    'm,
    RawRwLock<'t, 'l, R, 0, A>,
    T,
>;
