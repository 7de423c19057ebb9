//! The crate to name for maps and sets that threads share by reference.
//!
//! It hands on the running map and the set, with their guards and entries, plain shards and views of them, the recorded
//! map with its judge, and what a map's locks are made of. [`DashMap`] and [`DashSet`] are those over `parking_lot`'s
//! reader-writer lock.
//!
//! ```text
//! let lot = ParkingLot::new(rt, alloc, 3, 1)?;
//! let table = LockTable::new(alloc, &lot, 8)?;
//! let map = DashMap::with_hasher(alloc, hasher, 2, &table)?;
//! let mut me = lot.thread_data()?;
//! map.insert("seven", 7u64, &mut me)?;
//! ```
#![tactic(auto)]

pub mod iter;
pub mod iter_set;
mod locks;
pub mod mapref;
mod names;
pub mod prelude;
pub mod rayon;
pub mod set;
pub mod setref;
mod t;
pub mod try_result;

pub use dashmap_guard::{SharedValue, map_in_place_2, ptr_size_bits};
pub use dashmap_iter::LendingWalks;
pub use dashmap_iter::shard_guards::{Looks, ShardReadGuard, ShardWriteGuard};
pub use dashmap_iter::walks::Walks;
pub use dashmap_map::mapref::entry::{Entry, OccupiedEntry, VacantEntry};
pub use dashmap_map::{NewFault, TryReserveError, UntilFault};
pub use dashmap_parallel::{NoThreadData, ParExtendFault, ParallelMap, par_extend_shared};
pub use dashmap_plain::clones::{CloneMap, CloneView};
pub use dashmap_plain::{
    ExtendShards, Plain, Unlocked, from_par_iter, par_extend, par_extend_shards,
};
pub use dashmap_record::{
    Call, CallReply, Caller, Entered, GatherFault, RecordFault, Recorded, gather, next_stamp,
};
pub use dashmap_table::{
    MapFault, NoMemory, Shard, ShardPairs, Shards, capacity_share, default_shards, is_shard_amount,
    route,
};
pub use dashmap_view::parallel::ParallelView;
pub use dashmap_view::{Displaced, PlainView, ViewIter, ViewKeys, ViewValues};
pub use locks::table_for;
pub use names::{
    DashMap, DashSet, ReadOnlyView, RwLock, RwLockReadGuard, RwLockWriteGuard, ShardsView,
};
pub use parking_lot_core::{ParkingLot, ThreadData};
pub use parking_lot_rwlock::{LockTable, RawRwLock};
pub use t::Map;
