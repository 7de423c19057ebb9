//! The calls of a list.

/// One call of a list. The first number is the party, the second the guard.
#[derive(Drop)]
pub enum DeskCall<T> {
    /// [`lock`](crate::Desk::lock).
    Lock(u64, u64),
    /// [`try_lock`](crate::Desk::try_lock).
    TryLock(u64, u64),
    /// [`read`](crate::Desk::read).
    Read(u64, u64),
    /// [`try_read`](crate::Desk::try_read).
    TryRead(u64, u64),
    /// [`write`](crate::Desk::write).
    Write(u64, u64),
    /// [`try_write`](crate::Desk::try_write).
    TryWrite(u64, u64),
    /// [`upgradable_read`](crate::Desk::upgradable_read).
    UpgradableRead(u64, u64),
    /// [`try_upgradable_read`](crate::Desk::try_upgradable_read).
    TryUpgradableRead(u64, u64),
    /// [`unlock`](crate::Desk::unlock).
    Unlock(u64, u64),
    /// [`unlock_fair`](crate::Desk::unlock_fair).
    UnlockFair(u64, u64),
    /// [`bump`](crate::Desk::bump).
    Bump(u64, u64),
    /// [`downgrade`](crate::Desk::downgrade).
    Downgrade(u64, u64),
    /// [`downgrade_to_upgradable`](crate::Desk::downgrade_to_upgradable).
    DowngradeToUpgradable(u64, u64),
    /// [`downgrade_upgradable`](crate::Desk::downgrade_upgradable).
    DowngradeUpgradable(u64, u64),
    /// [`upgrade`](crate::Desk::upgrade).
    Upgrade(u64, u64),
    /// [`try_upgrade`](crate::Desk::try_upgrade).
    TryUpgrade(u64, u64),
    /// [`set_aside`](crate::Desk::set_aside).
    SetAside(u64, u64),
    /// [`take_up`](crate::Desk::take_up).
    TakeUp(u64, u64),
    /// [`read_value`](crate::Desk::read_value), whose answer is dropped.
    ReadValue(u64, u64),
    /// [`with_upgraded`](crate::Desk::with_upgraded), which stores the value.
    WithUpgraded(u64, u64, T),
    /// [`try_with_upgraded`](crate::Desk::try_with_upgraded), which stores the value.
    TryWithUpgraded(u64, u64, T),
    /// [`write_value`](crate::Desk::write_value), whose answer is dropped.
    WriteValue(u64, u64, T),
}
