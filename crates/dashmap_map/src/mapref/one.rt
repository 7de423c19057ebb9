//! Guards of one pair.

use dashmap_guard::mapref::one;
pub use dashmap_guard::mapref::one::{MappedRef, MappedRefMut, PairGuard};
use dashmap_table::Shard;
use lock_api_raw::RawRwLock;
use lock_api_rw::{Exclusive, RawHold, RwLock, Shared};
use std::alloc::Global;
use std::sync;

/// A shared guard of one pair of a map. `'m` is the borrow of the map, and `'d` of what the thread lent to the call.
pub type Ref<'m, 'd, K, V, Q, A = Global> = one::Ref<
    K,
    V,
    A,
    sync::RwLockReadGuard<'m, Shard<K, V, A>>,
    RawHold<&'m RwLock<Q, Shard<K, V, A>>, Shared>,
    &'d mut <Q as RawRwLock>::Party,
>;

/// An exclusive guard of one pair of a map.
pub type RefMut<'m, 'd, K, V, Q, A = Global> = one::RefMut<
    K,
    V,
    A,
    sync::RwLockWriteGuard<'m, Shard<K, V, A>>,
    RawHold<&'m RwLock<Q, Shard<K, V, A>>, Exclusive>,
    &'d mut <Q as RawRwLock>::Party,
>;
