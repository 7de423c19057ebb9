//! Pairs of upgradable holds.

use lock_api_raw::{RawRwLock as _, RawRwLockUpgrade as _, RawRwLockUpgradeDowngrade as _};
use parking_lot_core::ThreadData;
use parking_lot_rwlock::RawRwLock;
use std::sync::Wait;

#[inline(never)]
pub fn by_upgradable<R: Wait>(lock: &RawRwLock<'_, '_, R, 0>, me: &mut ThreadData, pairs: u32) {
    for _pair in 0..pairs {
        let token = lock.lock_upgradable(me);
        lock.unlock_upgradable(token);
    }
}

#[inline(never)]
pub fn by_upgrading<R: Wait>(lock: &RawRwLock<'_, '_, R, 0>, me: &mut ThreadData, pairs: u32) {
    for _pair in 0..pairs {
        let token = lock.lock_upgradable(me);
        let token = lock.upgrade(token, me);
        lock.unlock_exclusive(token);
    }
}

#[inline(never)]
pub fn by_trying_to_upgrade<R: Wait>(
    lock: &RawRwLock<'_, '_, R, 0>,
    me: &mut ThreadData,
    pairs: u32,
) {
    for _pair in 0..pairs {
        let token = lock.lock_upgradable(me);
        match lock.try_upgrade(token) {
            Ok(token) => lock.unlock_exclusive(token),
            Err(token) => lock.unlock_upgradable(token),
        }
    }
}

#[inline(never)]
pub fn by_becoming_shared<R: Wait>(
    lock: &RawRwLock<'_, '_, R, 0>,
    me: &mut ThreadData,
    pairs: u32,
) {
    for _pair in 0..pairs {
        let token = lock.lock_upgradable(me);
        let token = lock.downgrade_upgradable(token);
        lock.unlock_shared(token);
    }
}

#[inline(never)]
pub fn by_becoming_upgradable<R: Wait>(
    lock: &RawRwLock<'_, '_, R, 0>,
    me: &mut ThreadData,
    pairs: u32,
) {
    for _pair in 0..pairs {
        let token = lock.lock_exclusive(me);
        let token = lock.downgrade_to_upgradable(token);
        lock.unlock_upgradable(token);
    }
}
