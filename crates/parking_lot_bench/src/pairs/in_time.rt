//! Pairs of calls that may give up at a moment. It is past, and no matter where nobody is in the way.

use lock_api_raw::{
    RawMutex as _, RawMutexTimed as _, RawRwLock as _, RawRwLockTimed as _, RawRwLockUpgrade as _,
    RawRwLockUpgradeTimed as _,
};
use parking_lot_core::ThreadData;
use parking_lot_mutex::RawMutex;
use parking_lot_rwlock::RawRwLock;
use std::sync::Wait;
use std::time::{Clock, Instant};

#[inline(never)]
pub fn mutex_in_time<R: Wait + Clock>(
    rt: &R,
    mutex: &RawMutex<'_, '_, R>,
    moment: Instant,
    me: &mut ThreadData,
    pairs: u32,
) {
    for _pair in 0..pairs {
        if let Some(token) = mutex.try_lock_until(moment, rt, me) {
            mutex.unlock(token);
        }
    }
}

#[inline(never)]
pub fn reads_in_time<R: Wait + Clock>(
    rt: &R,
    lock: &RawRwLock<'_, '_, R, 0>,
    moment: Instant,
    me: &mut ThreadData,
    pairs: u32,
) {
    for _pair in 0..pairs {
        if let Some(token) = lock.try_lock_shared_until(moment, rt, me) {
            lock.unlock_shared(token);
        }
    }
}

#[inline(never)]
pub fn writes_in_time<R: Wait + Clock>(
    rt: &R,
    lock: &RawRwLock<'_, '_, R, 0>,
    moment: Instant,
    me: &mut ThreadData,
    pairs: u32,
) {
    for _pair in 0..pairs {
        if let Some(token) = lock.try_lock_exclusive_until(moment, rt, me) {
            lock.unlock_exclusive(token);
        }
    }
}

#[inline(never)]
pub fn upgradable_in_time<R: Wait + Clock>(
    rt: &R,
    lock: &RawRwLock<'_, '_, R, 0>,
    moment: Instant,
    me: &mut ThreadData,
    pairs: u32,
) {
    for _pair in 0..pairs {
        if let Some(token) = lock.try_lock_upgradable_until(moment, rt, me) {
            lock.unlock_upgradable(token);
        }
    }
}

#[inline(never)]
pub fn upgrades_in_time<R: Wait + Clock>(
    rt: &R,
    lock: &RawRwLock<'_, '_, R, 0>,
    moment: Instant,
    me: &mut ThreadData,
    pairs: u32,
) {
    for _pair in 0..pairs {
        let token = lock.lock_upgradable(me);
        match lock.try_upgrade_until(token, moment, rt, me) {
            Ok(token) => lock.unlock_exclusive(token),
            Err(token) => lock.unlock_upgradable(token),
        }
    }
}
