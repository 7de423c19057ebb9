//! A map that writes down each call that isn't refused.
//!
//! Each shard of a [`Recorded`] map keeps the history of the calls on it, under its lock, and each [`Caller`] the log
//! of the calls that it made. Afterwards [`gather`] tests that histories and logs belong together, and answers all
//! entries in one order: one legal history of one plain map.
//!
//! What other threads do to a shard no clause of a shared call can say. What a call does to the shard while it holds
//! it, and what is written down, is said by [`RecordingShard::record`], which is lent the shard.
#![tactic(auto)]

mod caller;
mod effect;
mod fault;
pub mod history;
mod notes;
mod recorded;
mod reply;
mod room;
mod shard;

pub use crate::history::{Call, CallReply, Entered, GatherFault, gather, next_stamp};
pub use caller::Caller;
pub use fault::RecordFault;
pub use recorded::Recorded;
pub use shard::RecordingShard;
