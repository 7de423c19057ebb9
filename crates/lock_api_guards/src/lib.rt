//! The guards of all generic locks, over any hold of any lock.
//!
//! A hold is a lock and the token that it issued; a guard is a hold with the std guard of the value, or with an Arc of
//! the lock. **A held guard lends its value**: what it lends is the guarded value, and nobody writes it but the guard's
//! holder.
#![tactic(auto)]

mod arc_convert;
mod arc_guard;
mod convert;
mod guard;
mod held;
mod lend;
mod lock;
mod mapped;
mod parts;
mod show;
mod with_upgraded;

pub use arc_guard::ArcGuard;
pub use guard::Guard;
pub use held::{
    Access, ArcHold, DowngradeHold, DowngradeToUpgradable, FairHold, Held, Hold, MutexHold,
    ReentrantHold, RestoreHold, RwLockHold, TimedUpgradeHold, UpgradeHold, WriteHold,
};
pub use lend::{Lender, LenderMut};
pub use lock::{HasValue, HasValueMut, lent, lent_mut};
pub use mapped::Mapped;
pub use parts::{At, First, Inside, Second};
