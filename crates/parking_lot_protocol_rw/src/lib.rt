//! Calls of a reader-writer lock that ask for an upgradable hold, give it up or convert it, as plain data: one decision
//! core of all calls of such a lock.
//!
//! An upgradable hold stands beside readers and keeps writers and other upgradable ones out. It is asked for as an
//! exclusive one is: the same words are waited for, and another share is added. To upgrade it a thread becomes a writer
//! that waits for readers to leave.
#![tactic(auto)]

mod inner;
pub mod timed;
mod upgrade_act;
mod upgrade_core;
mod upgrade_next;
mod upgrade_phase;

pub use upgrade_core::UpgradeCore;
pub use upgrade_phase::{Hold, Release, UpgradePhase};
