//! Each path of `dashmap` and of its prelude is named here, and each alias but those of entries stands in a signature. A
//! table has rows for as many maps as it was made for.

pub use dashmap::iter::{Iter as MapIter, IterMut as MapIterMut, OwningIter};
pub use dashmap::iter_set::{Iter as KeyIter, OwningIter as OwningKeyIter};
pub use dashmap::mapref::entry::{
    Entry as MapEntry, OccupiedEntry as OccupiedPlace, VacantEntry as VacantPlace,
};
pub use dashmap::mapref::multiple::{RefMulti as WalkRef, RefMutMulti as WalkRefMut};
pub use dashmap::mapref::one::{
    MappedRef as PartRef, MappedRefMut as PartRefMut, Ref as PairRef, RefMut as PairRefMut,
};
use dashmap::prelude::*;
pub use dashmap::prelude::{
    CloneMap, CloneView, Entry as Place, ExtendShards, Map, OccupiedEntry as Taken, ParallelMap,
    ParallelView, Plain, Projection, ThreadData, TotalProjection, UntilFault, VacantEntry as Free,
    gather,
};
pub use dashmap::rayon::map::{
    Iter as ParIter, IterMut as ParIterMut, OwningIter as OwningParIter, SharedIter, SharedIterMut,
};
pub use dashmap::rayon::set::{Iter as ParKeyIter, OwningIter as OwningParKeyIter};
pub use dashmap::setref::multiple::RefMulti as WalkKey;
pub use dashmap::setref::one::Ref as KeyRef;
pub use dashmap::try_result::TryResult as Tried;
pub use dashmap::{
    Call, CallReply, Entered, RawRwLock, Shard, ShardPairs, Shards, ViewIter, ViewKeys, ViewValues,
    capacity_share, default_shards, from_par_iter, is_shard_amount, map_in_place_2, next_stamp,
    par_extend, par_extend_shards, par_extend_shared, ptr_size_bits, route,
};
use std::hash::{BuildHasherDefault, FoldHasher};
use std::sync::Wait;
use std::test::Fail;

type Fold = BuildHasherDefault<FoldHasher>;

/// A map of numbers.
type Numbers<'t, 'l, R> = DashMap<'t, 'l, u64, u64, Fold, R>;

/// What maps and sets are, whoever has them.
pub fn wholes<R: Wait>(
    _map: &Numbers<'_, '_, R>,
    _set: &DashSet<'_, '_, u64, Fold, R>,
    _recorded: &Recorded<'_, '_, u64, u64, Fold, R>,
    _caller: &Caller<u64, u64>,
    _view: &ReadOnlyView<'_, '_, u64, u64, Fold, R>,
    _plain: &PlainView<u64, u64, Fold>,
    _shards: &ShardsView<'_, '_, '_, u64, u64, Fold, R>,
    _plain_shards: &Unlocked<u64, u64, Fold, RawRwLock<'_, '_, R, 0>>,
) {}

/// Guards of one pair, of a part of one, and of a key.
pub fn guards<R: Wait>(
    _reads: &Ref<'_, '_, '_, '_, u64, u64, R>,
    _writes: &RefMut<'_, '_, '_, '_, u64, u64, R>,
    _part: &MappedRef<'_, '_, '_, '_, u64, (u64, u64), First, R>,
    _written_part: &MappedRefMut<'_, '_, '_, '_, u64, (u64, u64), Second, R>,
    _key: &SetRef<'_, '_, '_, '_, u64, R>,
) {}

/// Walks, what they lend, and guards of whole shards.
pub fn walks<R: Wait>(
    _reads: &Iter<'_, '_, '_, '_, u64, u64, R>,
    _writes: &IterMut<'_, '_, '_, '_, u64, u64, R>,
    _pair: &RefMulti<'_, '_, '_, '_, u64, u64, R>,
    _lent: &RefMutMulti<'_, '_, '_, '_, '_, u64, u64, R>,
    _keys: &SetIter<'_, '_, '_, '_, u64, R>,
    _key: &SetRefMulti<'_, '_, '_, '_, u64, R>,
    _shard: &ShardReadGuard<'_, '_, '_, '_, u64, u64, R>,
    _alone: &ShardWriteGuard<'_, '_, '_, '_, u64, u64, R>,
) {}

/// A lock of the kind that shards have, and its guards.
pub fn locks<R: Wait>(
    _lock: &dashmap::RwLock<'_, '_, u64, R>,
    _reader: &dashmap::RwLockReadGuard<'_, '_, '_, u64, R>,
    _writer: &dashmap::RwLockWriteGuard<'_, '_, '_, u64, R>,
) {}

/// Refusals, and what tries and projections are.
pub fn answers(
    _made: (
        NewFault,
        MapFault,
        NoMemory,
        SizeFault,
        LotFault,
        TableFull,
        WaitFault,
    ),
    _grown: &TryReserveError,
    _judged: (&RecordFault, &GatherFault, &NoThreadData),
    _extended: &ParExtendFault,
    _displaced: &Displaced<u64>,
    _found: &TryResult<u64>,
    _kept: &SharedValue<u64>,
    _parts: &Then<Inside, First>,
    _element: &At,
) {}

/// How many empty maps of eight shards a table has rows left for, of three at most.
fn maps_on<R: Wait + Drop>(alloc: std::alloc::Global, table: &LockTable<'_, R>) -> u64 {
    let mut made = 0u64;
    for _ in 0..3 {
        let map: Result<Numbers<'_, '_, R>, MapFault> = DashMap::with_hasher_and_shard_amount(
            alloc,
            Fold::new(),
            8,
            table,
        );
        made = made.wrapping_add(u64::from(map.is_ok()));
    }
    made
}

#[test]
fn a_table_has_rows_for_its_maps(rt: HostRuntime) -> Result<(), Fail> {
    let alloc = rt.alloc();
    let lot = ParkingLot::new(rt, alloc, 1, 7)?;
    let table = table_for(alloc, &lot, 2, 8)?;
    let none = table_for(alloc, &lot, 0, 8).err() == Some(SizeFault::BadSize);
    let many = table_for(alloc, &lot, 1 << 50, 1 << 50).err() == Some(SizeFault::BadSize);
    assert!(rt; maps_on(alloc, &table) == 2 && none && many);
    Ok(())
}
