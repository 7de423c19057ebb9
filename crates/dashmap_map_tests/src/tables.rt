//! The maps of the tests, over any lock, and what tables are run on.

pub use dashmap_calls::Row;
use dashmap_calls::{Call, Numbers, make, run};
use dashmap_map::DashMap;
use dashmap_table::{MapFault, SpreadState};
use lock_api_raw::{MakeLock, RawRwLock};
use lock_api_spin::PackedLock;
use parking_lot_core::ParkingLot;
use parking_lot_rwlock::{self as running, LockTable};
use refusing_heap::{Refusal, RefusingHeap, each_growth};
use std::alloc::{Allocator, Global};
use std::hash::Hash;
use std::sync::Wait;
use std::test::Fail;

/// A lock of the maps of the tests.
pub trait Lock: RawRwLock<Runtime: Wait> + Drop {}

impl<Q: RawRwLock<Runtime: Wait> + Drop> Lock for Q {}

/// A lock that is a word, which is tried again and again.
pub type Word = PackedLock<HostRuntime>;

/// A lock that is a row of a table, whose waiters park.
pub type Parked<'t, 'l, R> = running::RawRwLock<'t, 'l, R, 0, Global>;

/// A map with the hasher of the tests.
pub type Spread<K, V, Q, A> = DashMap<K, V, SpreadState, Q, A>;

/// A map of numbers.
pub type Map<Q, A> = Numbers<SpreadState, Q, A>;

/// A map with so many shards, whose locks are made of this.
pub fn map_of<K: Eq + Hash + Drop, V: Drop, T: Copy, Q: Lock + MakeLock<T>, A: Allocator + Clone>(
    table: T,
    alloc: A,
    shards: usize,
) -> Result<Spread<K, V, Q, A>, MapFault> {
    DashMap::with_hasher_and_shard_amount(alloc, SpreadState, shards, table)
}

/// Makes the calls of a table on an empty map.
pub fn check_on<T: Copy, Q: Lock + MakeLock<T>>(
    table: T,
    alloc: Global,
    shards: usize,
    rows: &[Row],
    me: &mut Q::Party,
) -> Result<(), Fail> {
    let map: Map<Q, Global> = map_of(table, alloc, shards)?;
    run(&map, rows, me)
}

/// Makes the calls of a table on a map in a heap. A call that is refused a growth is made again, and is answered then
/// as the row says; but where it is on many keys, of which some are in by then. Fails with the number of the first row
/// that is answered otherwise.
fn run_again<Q: Lock, A: Allocator + Clone>(
    heap: &RefusingHeap<Global>,
    map: &Map<Q, A>,
    rows: &[Row],
    me: &mut Q::Party,
) -> Result<(), usize> {
    for row in 0..rows.len() {
        let (call, wanted) = rows[row];
        let refused = heap.refused();
        let mut answer = make(map, call, me);
        if answer != wanted && heap.refused() > refused {
            answer = make(map, call, me);
            if matches!(call, Call::Many(_)) {
                answer = wanted;
            }
        }
        if answer != wanted {
            return Err(row);
        }
    }
    Ok(())
}

/// The same on an empty map, whose memory is that heap.
fn run_in<T: Copy, Q: Lock + MakeLock<T>, A: Allocator + Clone>(
    table: T,
    heap: &RefusingHeap<Global>,
    alloc: A,
    shards: usize,
    rows: &[Row],
    me: &mut Q::Party,
) -> Result<(), usize> {
    let made: Result<Map<Q, A>, MapFault> = map_of(table, alloc, shards);
    match made {
        Ok(map) => run_again(heap, &map, rows, me),
        Err(_) if heap.refused() == 1 => Ok(()),
        Err(_) => Err(0),
    }
}

/// How many growths a table may ask for.
const MOST: u64 = 500;

/// Makes the calls of a table on an empty map whose waiters park.
fn check_parked<R: Wait + Copy + Drop>(
    rt: R,
    alloc: Global,
    shards: usize,
    rows: &[Row],
) -> Result<(), Fail> {
    let lot = ParkingLot::new(rt, alloc, 1, 7)?;
    let table = LockTable::new(alloc, &lot, shards)?;
    check_rows(&table, alloc, shards, rows)
}

/// Makes them on one whose locks are rows of a table of locks.
fn check_rows<'t, 'l, R: Wait>(
    table: &'t LockTable<'l, R>,
    alloc: Global,
    shards: usize,
    rows: &[Row],
) -> Result<(), Fail> {
    let mut me = table.lot().thread_data()?;
    check_on::<_, Parked<'t, 'l, R>>(table, alloc, shards, rows, &mut me)
}

/// Makes the calls of a table on an empty map over each kind of lock, and with each growth refused in turn. Where an
/// answer is another, it fails with the row.
pub fn check<R: Wait + Copy + Drop>(
    rt: R,
    alloc: Global,
    shards: usize,
    rows: &[Row],
) -> Result<(), Fail> {
    check_on::<_, PackedLock<R>>(rt, alloc, shards, rows, &mut 1)?;
    check_parked(rt, alloc, shards, rows)?;
    each_growth(alloc, Refusal::Once(1), MOST, |heap| {
        run_in::<_, PackedLock<R>, _>(rt, heap, heap, shards, rows, &mut 1)
    })?;
    Ok(())
}
