//! Mapped guards of locks that are named.

use crate::steps::all_right;
use lock_api::{
    First, Inside, MappedMutexGuard, Mutex, MutexGuard, RwLock, RwLockReadGuard, RwLockWriteGuard,
};
use lock_api_spin::{PackedLock, PackedMutex};
use std::test::Fail;

#[test]
fn a_mapped_mutex_guard_reads_and_writes_its_part(rt: HostRuntime) -> Result<(), Fail> {
    let mut party = 1;
    let mutex = Mutex::<PackedMutex<HostRuntime>, (Option<u64>, u64)>::new(rt, (Some(1), 2))?;
    let mut first = MutexGuard::map(mutex.lock(&mut party), First);
    let read = *first == Some(1);
    *first = None;
    let missing = match MappedMutexGuard::try_map(first, Inside) {
        Ok(inside) => {
            drop(inside);
            false
        }
        Err(first) => {
            drop(first);
            true
        }
    };
    let freed = !mutex.is_locked();
    all_right(
        &rt,
        &[read, missing, freed, mutex.into_inner() == (None, 2)],
    );
    Ok(())
}

#[test]
fn a_mapped_lock_guard_reads_and_writes_its_part(rt: HostRuntime) -> Result<(), Fail> {
    let mut party = 1;
    let lock = RwLock::<PackedLock<HostRuntime>, (Option<u64>, u64)>::new(rt, 4, (Some(1), 2))?;
    let mut writer = RwLockWriteGuard::map(lock.write(&mut party), First);
    let exclusive = lock.is_locked_exclusive();
    let read = *writer == Some(1);
    *writer = None;
    drop(writer);
    let freed = !lock.is_locked();
    let reader = RwLockReadGuard::map(lock.read(&mut party), First);
    let written = *reader == None;
    let shared = lock.is_locked() && !lock.is_locked_exclusive();
    drop(reader);
    let freed_again = !lock.is_locked();
    let kept = lock.into_inner() == (None, 2);
    all_right(
        &rt,
        &[exclusive, read, freed, written, shared, freed_again, kept],
    );
    Ok(())
}
