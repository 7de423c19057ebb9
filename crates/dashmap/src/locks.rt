//! The table for maps of a known shard amount.
ghost use Rattle.std.specs.Prelude.{◌≡◌, ◌*◌, ◌<◌, ◌^◌, ◌↔◌, ◌⊎◌, IsErrOf, IfOk, length};
ghost use Rattle.parking_lot_core_model.specs.declared.fault.SizeFault.TheVariants.{BadSize};

use parking_lot_core::{ParkingLot, SizeFault};
use parking_lot_rwlock::LockTable;
use std::alloc::Allocator;

/// Makes a table with a row for each lock of so many maps and sets, which have that many shards each.
///
/// `BadSize` where these are no rows, or more than 2^20. It takes memory once, for all words. A table borrows its lot, so
/// no one call makes both.
///
/// ```text
/// let lot = ParkingLot::new(rt, alloc, 3, 1)?;     // three threads
/// let table = table_for(alloc, &lot, 2, 8)?;       // two maps of eight shards
/// let map = DashMap::with_shard_amount(alloc, 8, &table)?;
/// ```
pub fn table_for<'l, R, A: Allocator>(
    alloc: A,
    lot: &'l ParkingLot<R, A>,
    maps: usize,
    shards: usize,
) -> Result<LockTable<'l, R, A>, SizeFault>
    ensures size { IsErrOf result BadSize ↔ ((maps * shards ≡ 0) ⊎ (2 ^ 20 < maps * shards)) }
    ensures made { IfOk result (λ table. (length table.words.items ≡ maps * shards) × (table.lot.now ≡ lot.now)) }
{
    match maps.checked_mul(shards) {
        Some(rows) => LockTable::new(alloc, lot, rows),
        None => Err(SizeFault::BadSize),
    }
}
