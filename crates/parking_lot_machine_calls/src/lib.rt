//! Calls of threads at the locks of a machine, as plain data: what they ask for, where they stand, and what that says
//! of their threads.
#![tactic(auto)]

mod call_views;
mod calls;
mod late_rw;
pub mod laws;
mod open_call;
mod seat;
mod starts;
mod upgrade_views;

pub use calls::{LockCall, LockKind, OwnMode};
pub use late_rw::{LateRwPhase, RwSleeper};
pub use open_call::Call;
pub use seat::{Core, Hold, LatePhase, QueuePosition, WakeResult, Wakeup, sleeping_mutex};
