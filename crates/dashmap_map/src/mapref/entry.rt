//! Entries.

use dashmap_guard::mapref::entry;
pub use dashmap_guard::mapref::entry::{OccupiedEntry, VacantEntry};
use dashmap_table::Shard;
use lock_api_raw::RawRwLock;
use lock_api_rw::{Exclusive, RawHold, RwLock};
use std::alloc::Global;
use std::sync;

/// The place of a key of a map, whose shard is held exclusively.
pub type Entry<'m, 'd, K, V, Q, A = Global> = entry::Entry<
    K,
    V,
    A,
    sync::RwLockWriteGuard<'m, Shard<K, V, A>>,
    RawHold<&'m RwLock<Q, Shard<K, V, A>>, Exclusive>,
    &'d mut <Q as RawRwLock>::Party,
>;
