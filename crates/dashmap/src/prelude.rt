//! What a program with maps and sets imports at once: `use dashmap::prelude::*;`.
//!
//! Beside the types these are the traits that have the maps' calls, so that each method is found: walks (`Walks`,
//! `LendingWalks`), what an owner can do with nobody beside it (`Plain`, `ExtendShards`), clones, parallel forms, and a
//! look into the shards (`Looks`). With them go those names of std that the signatures of such programs say: where memory
//! comes from, the default hasher, and the bounds on a runtime whose calls may wait, start threads or give a hasher keys.

pub use crate::locks::table_for;
pub use crate::names::{
    DashMap, DashSet, Entry, Iter, IterMut, MappedRef, MappedRefMut, OccupiedEntry, ReadOnlyView,
    Recorded, Ref, RefMulti, RefMut, RefMutMulti, SetIter, SetRef, SetRefMulti, ShardReadGuard,
    ShardWriteGuard, ShardsView, VacantEntry,
};
pub use crate::t::Map;
pub use dashmap_guard::{SharedValue, TryResult};
pub use dashmap_iter::LendingWalks;
pub use dashmap_iter::shard_guards::Looks;
pub use dashmap_iter::walks::Walks;
pub use dashmap_map::{NewFault, TryReserveError, UntilFault};
pub use dashmap_parallel::{NoThreadData, ParExtendFault, ParallelMap};
pub use dashmap_plain::clones::{CloneMap, CloneView};
pub use dashmap_plain::{ExtendShards, Plain, Unlocked};
pub use dashmap_record::{Caller, GatherFault, RecordFault, gather};
pub use dashmap_table::{MapFault, NoMemory};
pub use dashmap_view::parallel::ParallelView;
pub use dashmap_view::{Displaced, PlainView};
pub use lock_api_guards::{At, First, Inside, Second};
pub use lock_api_raw::{Projection, TableFull, Then, TotalProjection, WaitFault};
pub use parking_lot_core::{LotFault, ParkingLot, SizeFault, ThreadData};
pub use parking_lot_rwlock::LockTable;
pub use std::alloc::Global;
pub use std::hash::RandomState;
pub use std::random::RandomSource;
pub use std::sync::Wait;
pub use std::thread::Threads;
