//! Each check of the generic locks, on the raw locks of a lock table.

use lock_api_checks::upgrades::{rwlock_timed_checks, upgradable_arc_checks, upgradable_checks};
use lock_api_checks::{mutex_checks, reentrant_checks, rwlock_arc_checks, rwlock_checks};
use lock_api_raw::{
    GetThreadId, MakeLock, RawMutexFair, RawMutexTimed, RawRwLockUpgradeDowngrade,
    RawRwLockUpgradeFair, RawRwLockUpgradeTimed,
};
use parking_lot_core::ParkingLot;
use parking_lot_mutex::{RawFairMutex, RawMutex, RawThreadId};
use parking_lot_rwlock::{LockTable, RawRwLock};
use std::alloc::Global;
use std::process::Abort;
use std::sync::Wait;
use std::test::Fail;
use std::thread::Threads;
use std::time::{Clock, Duration, Instant};

/// Whether each check of the mutex finds what it must.
fn of_mutex<R, T: Threads + Clock + Sync, S: Copy>(
    rt: &T,
    alloc: Global,
    source: S,
    one: &mut R::Party,
    other: &mut R::Party,
) -> bool
where
    R: RawMutexFair + RawMutexTimed<Duration = Duration, Instant = Instant>,
    R: MakeLock<S> + Drop + Sync,
    R::Party: Send,
    R::Runtime: Wait,
{
    let passed_0 = mutex_checks::all::<R, T, Global, S>(rt, alloc, source, one, other).is_ok();
    let last = mutex_checks::gives_up_in_time::<R, T, S>(source, rt, one).is_ok();
    passed_0 & last
}

/// The same of the reader-writer lock, and of guards that own an Arc of it.
fn of_lock<R, T: Threads + Sync, S: Copy>(
    rt: &T,
    alloc: Global,
    source: S,
    one: &mut R::Party,
    other: &mut R::Party,
) -> bool
where
    R: RawRwLockUpgradeFair + RawRwLockUpgradeDowngrade + MakeLock<S> + Drop + Sync,
    R::Party: Send,
    R::Runtime: Wait,
{
    let passed_0 = rwlock_checks::all::<R, T, Global, S>(rt, alloc, source, one, other).is_ok();
    let passed_1 = rwlock_arc_checks::all::<R, Global, S>(alloc, source, one).is_ok();
    let last = upgradable_checks::excludes::<R, T, S>(rt, source, one, other).is_ok();
    passed_0 & passed_1 & last
}

/// And of upgradable guards.
fn of_upgrades<R, S: Copy>(alloc: Global, source: S, party: &mut R::Party) -> bool
where
    R: RawRwLockUpgradeFair + RawRwLockUpgradeDowngrade + MakeLock<S> + Drop,
    R::Runtime: Wait,
{
    let passed_0 = upgradable_checks::admits_one::<R, S>(source, party).is_ok();
    let passed_1 = upgradable_checks::counts_among_readers::<R, S>(source, party).is_ok();
    let passed_2 = upgradable_checks::upgrades::<R, S>(source, party).is_ok();
    let passed_3 = upgradable_checks::writes_upgraded::<R, S>(source, party).is_ok();
    let passed_4 = upgradable_checks::downgrades::<R, S>(source, party).is_ok();
    let passed_5 = upgradable_checks::unlocks_for_a_while::<R, S>(source, party).is_ok();
    let passed_6 = upgradable_checks::prints::<R, Global, S>(alloc, source, party).is_ok();
    let passed_7 = upgradable_arc_checks::upgrades::<R, Global, S>(alloc, source, party).is_ok();
    let last = upgradable_arc_checks::writes_upgraded::<R, Global, S>(alloc, source, party).is_ok();
    passed_0 & passed_1 & passed_2 & passed_3 & passed_4 & passed_5 & passed_6 & passed_7 & last
}

/// And of waits that give up.
fn of_waits<R, C: Clock, S: Copy>(clock: &C, alloc: Global, source: S, party: &mut R::Party) -> bool
where
    R: RawRwLockUpgradeDowngrade + MakeLock<S> + Drop,
    R: RawRwLockUpgradeTimed<Duration = Duration, Instant = Instant>,
    R::Runtime: Wait,
{
    let passed_0 = rwlock_timed_checks::gives_up_in_time::<R, C, S>(source, clock, party).is_ok();
    let passed_1 = rwlock_timed_checks::gives_up_an_upgrade::<R, C, S>(
        source, clock, party,
    ).is_ok();
    let passed_2 = rwlock_timed_checks::gives_up_an_arc_in_time::<R, C, Global, S>(
        alloc, source, clock, party,
    ).is_ok();
    let last = rwlock_timed_checks::gives_up_an_upgrade_of_an_arc::<R, C, Global, S>(
        alloc, source, clock, party,
    ).is_ok();
    passed_0 & passed_1 & passed_2 & last
}

/// And of the reentrant mutex.
fn of_reentrant<R, G: GetThreadId<Party = R::Party> + Drop, C: Clock, S: Copy>(
    clock: &C,
    alloc: Global,
    source: S,
    one: &mut R::Party,
    other: &mut R::Party,
) -> bool
where
    R: RawMutexFair + RawMutexTimed<Duration = Duration, Instant = Instant> + MakeLock<S> + Drop,
    R::Runtime: Wait,
{
    let passed_0 = reentrant_checks::all::<R, G, Global, S>(alloc, source, one, other).is_ok();
    let last = reentrant_checks::gives_up_in_time::<R, G, C, Global, S>(
        alloc, source, clock, one, other,
    ).is_ok();
    passed_0 & last
}

/// Looks whether the checks of a lock have passed.
fn expect(rt: &impl Abort, lock: &str, passed: bool) {
    assert!(rt; passed, "{lock}");
}

#[test]
fn the_checks_pass(rt: HostRuntime) -> Result<(), Fail> {
    let alloc = rt.alloc();
    let lot = ParkingLot::new(rt, alloc, 2, 7)?;
    let mut a = lot.thread_data()?;
    let mut b = lot.thread_data()?;
    let ids: RawThreadId = RawThreadId::new();
    let is_first = ids.nonzero_thread_id(&a).get() == 1;
    assert!(rt; is_first & (ids.nonzero_thread_id(&b).get() == 2));
    let table = LockTable::new(alloc, &lot, 150)?;
    let rows = &table;
    let passed = of_mutex::<RawMutex<HostRuntime>, _, _>(&rt, alloc, rows, &mut a, &mut b);
    expect(&rt, "the mutex", passed);
    let passed = of_mutex::<RawFairMutex<HostRuntime>, _, _>(&rt, alloc, rows, &mut a, &mut b);
    expect(&rt, "the fair mutex", passed);
    let passed = of_lock::<RawRwLock<HostRuntime, 0>, _, _>(&rt, alloc, rows, &mut a, &mut b);
    expect(&rt, "the lock", passed);
    let passed = of_upgrades::<RawRwLock<HostRuntime, 0>, _>(alloc, rows, &mut a);
    expect(&rt, "the lock's upgrades", passed);
    let passed = of_waits::<RawRwLock<HostRuntime, 0>, _, _>(&rt, alloc, rows, &mut a);
    expect(&rt, "the lock's waits", passed);
    let passed = of_lock::<RawRwLock<HostRuntime, 1>, _, _>(&rt, alloc, rows, &mut a, &mut b);
    expect(&rt, "the recursive lock", passed);
    let passed = of_upgrades::<RawRwLock<HostRuntime, 1>, _>(alloc, rows, &mut a);
    expect(&rt, "the recursive lock's upgrades", passed);
    let passed = of_waits::<RawRwLock<HostRuntime, 1>, _, _>(&rt, alloc, rows, &mut a);
    expect(&rt, "the recursive lock's waits", passed);
    let passed = of_reentrant::<RawMutex<HostRuntime>, RawThreadId, _, _>(
        &rt, alloc, rows, &mut a, &mut b,
    );
    expect(&rt, "the reentrant mutex", passed);
    Ok(())
}
