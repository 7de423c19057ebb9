//! Tables of lock words, on a parking lot, and the locks that have a row each.

use lock_api_raw::{MakeLock as _, RawMutex as _, RawRwLock as _, TableFull};
use parking_lot_core::{ParkingLot, SizeFault};
use parking_lot_mutex::RawMutex;
use parking_lot_rwlock::{Act, ActResult, CoreAnswer, LockTable, RawRwLock, Row, RwCore};
use std::test::Fail;

#[test]
fn sizes_are_bounded(rt: HostRuntime) -> Result<(), Fail> {
    let lot = ParkingLot::new(rt, rt.alloc(), 4, 7)?;
    for size in [0, 1_048_577] {
        let fault = LockTable::new(rt.alloc(), &lot, size).err();
        assert!(rt; fault == Some(SizeFault::BadSize), "{size} rows");
    }
    Ok(())
}

/// Whether a row has that number and those keys.
fn is_row(row: &Row<'_, '_, HostRuntime>, number: usize, first: usize) -> bool {
    let are_keys = (row.first_key() == first) & (row.second_key() == first.wrapping_add(1));
    (row.number() == number) & are_keys & (row.lot().number() == 7)
}

#[test]
fn rows_are_claimed_once(rt: HostRuntime) -> Result<(), Fail> {
    let lot = ParkingLot::new(rt, rt.alloc(), 4, 7)?;
    let table = LockTable::new(rt.alloc(), &lot, 2)?;
    let first = table.claim()?;
    let second = table.claim()?;
    let is_full = table.claim().err() == Some(TableFull);
    let other = LockTable::new(rt.alloc(), &lot, 1)?;
    let third = other.claim()?;
    let are_rows = is_row(&first, 0, 0) & is_row(&second, 1, 2) & is_row(&third, 0, 4);
    assert!(rt; is_full & are_rows & (table.lot().number() == 7));
    Ok(())
}

#[test]
fn words_change_by_atomic_steps(rt: HostRuntime) -> Result<(), Fail> {
    let lot = ParkingLot::new(rt, rt.alloc(), 4, 7)?;
    let table = LockTable::new(rt.alloc(), &lot, 2)?;
    let row = table.claim()?;
    let loaded = row.load();
    let won = row.exchange(0, 16);
    let lost = row.exchange(0, 16);
    let added = row.add(10);
    let masked = row.mask(24);
    let word = table.word(0);
    row.store(9);
    let is_exchanged = (loaded == 0) & (won == Ok(())) & (lost == Err(16));
    let is_changed = (added == 16) & (masked == 26) & (word == Some(24));
    let is_stored = (table.word(0) == Some(9)) & (table.word(1) == Some(0));
    assert!(rt; is_exchanged & is_changed & is_stored & table.word(2).is_none());
    Ok(())
}

/// Makes the act that a core without waiters can ask for, on a row.
fn make(row: &Row<'_, '_, HostRuntime>, act: Act) -> Option<ActResult> {
    match act {
        Act::Load => Some(ActResult::Word(row.load())),
        Act::Exchange(from, to) => Some(match row.exchange(from, to) {
            Ok(()) => ActResult::Exchanged,
            Err(word) => ActResult::Word(word),
        }),
        Act::Add(by) => Some(ActResult::Before(row.add(by))),
        _ => None,
    }
}

/// Runs a call on a row to its end.
fn run(row: &Row<'_, '_, HostRuntime>, mut core: RwCore) -> Act {
    let mut act = core.next(ActResult::Start);
    for _act in 0..20 {
        match make(row, act) {
            Some(seen) => act = core.next(seen),
            None => return act,
        }
    }
    act
}

#[test]
fn a_core_runs_on_a_row(rt: HostRuntime) -> Result<(), Fail> {
    let lot = ParkingLot::new(rt, rt.alloc(), 4, 7)?;
    let table = LockTable::new(rt.alloc(), &lot, 1)?;
    let row = table.claim()?;
    let script = [
        (RwCore::lock_shared(false), CoreAnswer::Owned, 16),
        (RwCore::try_lock_exclusive(), CoreAnswer::Refused, 16),
        (RwCore::unlock_shared(), CoreAnswer::Released, 0),
        (RwCore::lock_exclusive(), CoreAnswer::Owned, 8),
        (RwCore::downgrade(), CoreAnswer::Owned, 16),
        (RwCore::unlock_shared(), CoreAnswer::Released, 0),
    ];
    for (at, (core, answer, word)) in script.iter().enumerate() {
        let is_answered = run(&row, *core) == Act::Done(*answer);
        assert!(rt; is_answered & (row.load() == *word), "call {at}");
    }
    Ok(())
}

#[test]
fn each_lock_has_a_row(rt: HostRuntime) -> Result<(), Fail> {
    let lot = ParkingLot::new(rt, rt.alloc(), 4, 7)?;
    let mut me = lot.thread_data()?;
    let table = LockTable::new(rt.alloc(), &lot, 2)?;
    let first: RawRwLock<HostRuntime, 0> = RawRwLock::new(&table, 5)?;
    let second = RawMutex::new(&table, 5)?;
    let third = RawMutex::new(&table, 5).err();
    let fourth: Result<RawRwLock<HostRuntime, 0>, TableFull> = RawRwLock::new(&table, 5);
    let is_full = (third == Some(TableFull)) & (fourth.err() == Some(TableFull));
    let token = first.lock_exclusive(&mut me);
    let is_written = are_words(&table, 8, 0);
    first.unlock_exclusive(token);
    let token = second.lock(&mut me);
    let is_locked = are_words(&table, 0, 1);
    second.unlock(token);
    assert!(rt; is_full & is_written & is_locked & are_words(&table, 0, 0));
    Ok(())
}

/// Whether the first two words of a table are these.
fn are_words(table: &LockTable<'_, HostRuntime>, first: u64, second: u64) -> bool {
    (table.word(0) == Some(first)) & (table.word(1) == Some(second))
}

#[test]
fn lots_are_told_apart(rt: HostRuntime) -> Result<(), Fail> {
    let lot = ParkingLot::new(rt, rt.alloc(), 4, 7)?;
    let other = ParkingLot::new(rt, rt.alloc(), 4, 8)?;
    let me = other.thread_data()?;
    let table = LockTable::new(rt.alloc(), &lot, 2)?;
    assert!(rt; !table.lot().same_lot(&me) & other.same_lot(&me));
    Ok(())
}
