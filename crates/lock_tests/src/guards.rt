//! Guards of the running locks, in the forms in which programs keep them.

use lock_api::{ArcMutexGuard, Guard, Mutex, NoMemory, RwLock, RwLockWriteGuard};
use lock_api_guards::{Hold, LenderMut};
use lock_api_raw::{RawMutex, RawMutexTimed, RawRwLock};
use parking_lot_core::ParkingLot;
use parking_lot_rwlock::LockTable;
use std::alloc::Global;
use std::ops::AddAssign;
use std::sync::{Arc, Wait};
use std::test::Fail;
use std::time::{Clock, Duration, Instant};

/// Writes by a guard that lives for one statement, and reads by the next one.
fn overwrites<R: RawRwLock>(lock: &RwLock<R, u64>, me: &mut R::Party, number: u64) -> bool
where
    R::Runtime: Wait,
{
    *lock.write(me) = number;
    let read = *lock.read(me);
    read == number
}

/// A guard of the lock, under which the number is written.
fn writer_of<'m, R: RawRwLock>(
    lock: &'m RwLock<R, u64>,
    me: &mut R::Party,
    number: u64,
) -> RwLockWriteGuard<'m, R, u64>
where
    R::Runtime: Wait,
{
    let mut writer = lock.write(me);
    *writer = number;
    writer
}

/// Adds to what a guard lends.
fn add<R: RawRwLock>(writer: &mut RwLockWriteGuard<'_, R, u64>, by: u64)
where
    R::Runtime: Wait,
{
    **writer = writer.wrapping_add(by);
}

/// A number that is being changed, and whether it was.
#[derive(Drop)]
struct Entry<W: Drop, H: Hold>
where
    H::Runtime: Wait,
{
    guard: Guard<W, H>,
    changed: bool,
}

impl<W: LenderMut<Part = u64> + Drop, H: Hold> Entry<W, H>
where
    H::Runtime: Wait,
{
    /// Nothing is changed yet.
    fn new(guard: Guard<W, H>) -> Entry<W, H> {
        Entry {
            guard,
            changed: false,
        }
    }

    /// Writes the number, and reads it.
    fn set(&mut self, number: u64) -> u64 {
        let guard = &mut self.guard;
        **guard = number;
        self.changed = true;
        **guard
    }

    /// Whether the number was written. Others may come in then.
    fn close(self) -> bool {
        let Entry { guard, changed } = self;
        drop(guard);
        changed
    }
}

/// A count that begins anew at 0 behind its greatest number.
#[derive(Clone, Copy)]
struct Ticks(u64);

impl AddAssign<u64> for Ticks {
    fn add_assign(&mut self, by: u64) {
        self.0 = self.0.wrapping_add(by);
    }
}

/// Counts one up by a guard that lives for one statement, and once more under one that looks before and then.
fn tick_and_look<R: RawMutex>(ticker: &Mutex<R, Ticks>, me: &mut R::Party) -> (u64, u64)
where
    R::Runtime: Wait,
{
    *ticker.lock(me) += 1;
    let mut guard = ticker.lock(me);
    let before = guard.0;
    *guard += 1;
    (before, guard.0)
}

#[test]
fn guards_are_kept_and_handed_on(rt: HostRuntime) -> Result<(), Fail> {
    let lot = ParkingLot::new(rt, rt.alloc(), 1, 7)?;
    let mut me = lot.thread_data()?;
    let table = LockTable::new(rt.alloc(), &lot, 3)?;
    let lock: RwLock<parking_lot_rwlock::RawRwLock<HostRuntime, 0>, u64> = RwLock::new(
        &table, 5, 0,
    )?;
    assert!(rt; overwrites(&lock, &mut me, 1) & overwrites(&lock, &mut me, 2));
    let mut writer = writer_of(&lock, &mut me, 3);
    add(&mut writer, 1);
    let mut entry = Entry::new(writer);
    assert!(rt; (entry.set(5) == 5) & lock.is_locked_exclusive());
    assert!(rt; entry.close() & !lock.is_locked() & (lock.into_inner() == 5));
    let counter: Mutex<parking_lot_mutex::RawMutex<HostRuntime>, u64> = Mutex::new(&table, 1)?;
    let mut tally = Entry::new(counter.lock(&mut me));
    assert!(rt; (tally.set(6) == 6) & counter.is_locked());
    assert!(rt; tally.close() & !counter.is_locked() & (counter.into_inner() == 6));
    let ticker: Mutex<parking_lot_mutex::RawMutex<HostRuntime>, Ticks> = Mutex::new(
        &table,
        Ticks(0),
    )?;
    assert!(rt; tick_and_look(&ticker, &mut me) == (1, 2));
    assert!(rt; tick_and_look(&ticker, &mut me) == (3, 4));
    Ok(())
}

/// Whether there is a guard, by which 1 is added.
fn adds<R: RawMutex + Drop>(had: Result<Option<ArcMutexGuard<R, u64, Global>>, NoMemory>) -> bool
where
    R::Runtime: Wait,
{
    match had {
        Ok(Some(mut guard)) => {
            guard.with_mut(|number| *number = number.wrapping_add(1));
            true
        }
        _ => false,
    }
}

/// Whether calls have a guard that give up at the moment and after each of these times.
fn have_it<R, C: Clock>(
    clock: &C,
    mutex: &Arc<Mutex<R, u64>, Global>,
    past: Instant,
    me: &mut R::Party,
    limit: Duration,
) -> [bool; 2]
where
    R: RawMutexTimed<Duration = Duration, Instant = Instant> + Drop,
    R::Runtime: Wait,
{
    let at_once = adds(Mutex::try_lock_arc_until(mutex, past, clock, me));
    [
        at_once,
        adds(Mutex::try_lock_arc_for(mutex, limit, clock, me)),
    ]
}

#[test]
fn a_mutex_in_an_arc_is_had_in_time_or_given_up(rt: HostRuntime) -> Result<(), Fail> {
    let lot = ParkingLot::new(rt, rt.alloc(), 2, 7)?;
    let mut one = lot.thread_data()?;
    let mut other = lot.thread_data()?;
    let table = LockTable::new(rt.alloc(), &lot, 1)?;
    let mutex: Mutex<parking_lot_mutex::RawMutex<HostRuntime>, u64> = Mutex::new(&table, 5)?;
    let mutex = Arc::new(rt.alloc(), mutex)?;
    let past = Instant::now(&rt)?;
    let short = Duration::from_millis(1);
    let guard = mutex.lock(&mut one);
    let beside = have_it(&rt, &mutex, past, &mut other, short);
    let is_left = table.word(0) == Some(1);
    drop(guard);
    assert!(rt; (beside == [false; 2]) & is_left);
    assert!(rt; have_it(&rt, &mutex, past, &mut other, short) == [true; 2]);
    assert!(rt; have_it(&rt, &mutex, past, &mut other, Duration::MAX) == [true; 2]);
    let mut tally = Entry::new(mutex.lock(&mut one));
    let sum = *tally.guard;
    assert!(rt; (sum == 9) & (tally.set(1) == 1) & tally.close() & (table.word(0) == Some(0)));
    Ok(())
}
