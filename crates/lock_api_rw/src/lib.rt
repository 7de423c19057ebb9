//! The generic reader-writer lock over any raw lock and, from the crate below, its guards.
//!
//! The value lies in a std lock, and the raw lock decides who may come in. **A held guard lends its value**: what it
//! lends is the guarded value, and nobody writes it but the guard's holder.
#![tactic(auto)]

mod arc_forms;
mod arc_hold;
mod evidence;
mod mode;
mod raw_hold;
mod rwlock;
mod show;
mod timed;
mod traced;
mod traced_timed;
mod turns;

pub use arc_forms::{ArcRwLockReadGuard, ArcRwLockUpgradableReadGuard, ArcRwLockWriteGuard};
pub use evidence::{Ended, Evidence, Found, FoundAtOnce, GaveUp, Refused};
pub use lock_api_guards::{
    Access, ArcGuard, ArcHold, DowngradeHold, DowngradeToUpgradable, FairHold, Guard, HasValue,
    HasValueMut, Held, Hold, Lender, LenderMut, Mapped, MutexHold, ReentrantHold, RestoreHold,
    RwLockHold, TimedUpgradeHold, UpgradeHold, WriteHold, lent, lent_mut,
};
pub use mode::{Exclusive, FairMode, Locked, Mode, Shared, TimedMode, Upgradable, Writes};
pub use raw_hold::{HasRaw, LockValue, Place, RawHold};
pub use rwlock::{
    MappedRwLockReadGuard, MappedRwLockWriteGuard, RwLock, RwLockReadGuard,
    RwLockUpgradableReadGuard, RwLockWriteGuard,
};
pub use traced::{
    Traced, TracedWriteGuard, read_shown, try_read_shown, try_write_found, write_found,
    write_traced,
};
pub use traced_timed::{read_until_shown, write_until_found, write_until_traced};
