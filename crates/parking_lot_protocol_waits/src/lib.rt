//! The calls of a condition variable as plain data: the decision cores of a wait and of a notification.
//!
//! A core does nothing itself: it is told what its last act gave, and answers the next act. So whoever runs it decides
//! where the words lie and where the waiters stand.
//!
//! The word of a condition variable is 0 where nobody waits, and else shows the mutex that all wait with: its number
//! and 1 more.
#![tactic(auto)]

mod notify_act;
mod notify_core;
pub mod once;
mod wait_act;
mod wait_core;

pub use notify_act::{NotifyAct, NotifySeen};
pub use notify_core::{Notice, NotifyCore, NotifyPhase};
pub use wait_act::{WaitAct, WaitAnswer, WaitSeen};
pub use wait_core::{WaitCore, WaitPhase};
