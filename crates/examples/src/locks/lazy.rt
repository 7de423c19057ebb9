//! Lazy initialization: a number is worked out once, when it is first asked for.
//!
//! The closure of a `Once` answers a `Result`. One that failed poisons: later calls are refused, but for forced ones.

use parking_lot::{LockTable, LotFault, Once, OnceFault, ParkingLot, TableFull, ThreadData};
use std::alloc::Global;
use std::sync::Wait;
use std::sync::atomic::{AtomicU64, Ordering};
use std::thread::{self, Threads};

/// A number that is worked out when it is first asked for, and how often that was done.
#[derive(Drop)]
struct Lazy<'t, 'l, R> {
    once: Once<'t, 'l, R>,
    number: AtomicU64,
    runs: AtomicU64,
}

/// Why it can't be worked out.
#[derive(Debug, PartialEq, Drop)]
struct NotFound;

/// The first number above a bound that 7, 11 and 13 divide.
fn search(above: u64) -> Result<u64, NotFound> {
    for number in above..above.saturating_add(500) {
        if number % 7 == 0 && number % 11 == 0 && number % 13 == 0 {
            return Ok(number);
        }
    }
    Err(NotFound)
}

impl<'t, 'l, R: Wait> Lazy<'t, 'l, R> {
    /// One that nobody has asked yet.
    fn over(table: &'t LockTable<'l, R>) -> Result<Lazy<'t, 'l, R>, TableFull> {
        Ok(Lazy {
            once: Once::new(table)?,
            number: AtomicU64::new(0),
            runs: AtomicU64::new(0),
        })
    }

    /// The number. Whoever asks first works it out; who comes meanwhile waits for it.
    fn get(&self, above: u64, me: &mut ThreadData) -> Result<u64, OnceFault<NotFound>> {
        self.once.call_once(me, || {
            self.runs.fetch_add(1, Ordering::SeqCst);
            self.number.store(search(above)?, Ordering::SeqCst);
            Ok(())
        })?;
        Ok(self.number.load(Ordering::SeqCst))
    }

    /// Asks fifty times, and answers how often the number was this one.
    fn ask(&self, wanted: u64, mut me: ThreadData) -> u64 {
        let mut right = 0u64;
        for _ in 0..50 {
            right = right.wrapping_add(u64::from(self.get(5000, &mut me).ok() == Some(wanted)));
        }
        right
    }
}

/// Two threads ask beside each other.
fn both<R: Wait + Threads + Sync>(
    rt: &R,
    lot: &ParkingLot<R>,
    lazy: &Lazy<'_, '_, R>,
) -> Result<u64, LotFault> {
    let (one, two) = (lot.thread_data()?, lot.thread_data()?);
    let (here, there) = thread::join(rt, || lazy.ask(5005, one), || lazy.ask(5005, two));
    Ok(here.wrapping_add(there))
}

/// How many answers were right, how often the closure ran, and whether one that can't work it out has failed.
pub fn run<R: Wait + Threads + Sync + Copy + Drop>(
    rt: R,
    alloc: Global,
) -> Result<(u64, u64, bool), anyhow::Error> {
    let lot = ParkingLot::new(rt, alloc, 3, 3)?;
    let table = LockTable::new(alloc, &lot, 2)?;
    let (lazy, never) = (Lazy::over(&table)?, Lazy::over(&table)?);
    let right = both(&rt, &lot, &lazy)?;
    let failed = never.get(5500, &mut lot.thread_data()?).is_err(); // no closure runs after one that failed
    Ok((right, lazy.runs.into_inner(), failed))
}
