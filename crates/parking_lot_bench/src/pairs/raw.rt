//! Pairs of the raw locks.

use lock_api_raw::{RawMutex as _, RawMutexFair as _, RawRwLock as _, RawRwLockDowngrade as _};
use parking_lot_core::ThreadData;
use parking_lot_mutex::{RawFairMutex, RawMutex};
use parking_lot_rwlock::RawRwLock;
use std::sync::Wait;

#[inline(never)]
pub fn by_mutex<R: Wait>(mutex: &RawMutex<'_, '_, R>, me: &mut ThreadData, pairs: u32) {
    for _pair in 0..pairs {
        let token = mutex.lock(me);
        mutex.unlock(token);
    }
}

#[inline(never)]
pub fn by_trying<R: Wait>(mutex: &RawMutex<'_, '_, R>, pairs: u32) {
    for _pair in 0..pairs {
        if let Some(token) = mutex.try_lock() {
            mutex.unlock(token);
        }
    }
}

#[inline(never)]
pub fn by_fair_release<R: Wait>(mutex: &RawMutex<'_, '_, R>, me: &mut ThreadData, pairs: u32) {
    for _pair in 0..pairs {
        let token = mutex.lock(me);
        mutex.unlock_fair(token);
    }
}

#[inline(never)]
pub fn by_bumping<R: Wait>(mutex: &RawMutex<'_, '_, R>, me: &mut ThreadData, pairs: u32) {
    for _pair in 0..pairs {
        let token = mutex.lock(me);
        let token = mutex.bump(token, me);
        mutex.unlock(token);
    }
}

#[inline(never)]
pub fn by_fair_mutex<R: Wait>(mutex: &RawFairMutex<'_, '_, R>, me: &mut ThreadData, pairs: u32) {
    for _pair in 0..pairs {
        let token = mutex.lock(me);
        mutex.unlock(token);
    }
}

#[inline(never)]
pub fn by_reading<R: Wait, const RECURSIVE: u8>(
    lock: &RawRwLock<'_, '_, R, RECURSIVE>,
    me: &mut ThreadData,
    pairs: u32,
) {
    for _pair in 0..pairs {
        let token = lock.lock_shared(me);
        lock.unlock_shared(token);
    }
}

#[inline(never)]
pub fn by_trying_to_read<R: Wait>(lock: &RawRwLock<'_, '_, R, 0>, pairs: u32) {
    for _pair in 0..pairs {
        if let Some(token) = lock.try_lock_shared() {
            lock.unlock_shared(token);
        }
    }
}

#[inline(never)]
pub fn by_writing<R: Wait>(lock: &RawRwLock<'_, '_, R, 0>, me: &mut ThreadData, pairs: u32) {
    for _pair in 0..pairs {
        let token = lock.lock_exclusive(me);
        lock.unlock_exclusive(token);
    }
}

#[inline(never)]
pub fn by_downgrading<R: Wait>(lock: &RawRwLock<'_, '_, R, 0>, me: &mut ThreadData, pairs: u32) {
    for _pair in 0..pairs {
        let token = lock.lock_exclusive(me);
        let token = lock.downgrade(token);
        lock.unlock_shared(token);
    }
}
