//! Recorded histories of a map, and whether they belong together.
//!
//! Each shard of a recorded map keeps a history of the calls on it, and each caller a log of the calls that it made.
//! [`gather`] tests afterwards that histories and logs are two views of one and the same calls, and that each history's
//! replies are those of a plain map; then it answers all entries in one order, which is a legal history of one plain
//! map.
//!
//! Nothing here waits, locks or runs threads: what is gathered may have been written down by any program.

mod entry;
mod fault;
mod gathering;
mod matching;
mod replay;

pub use entry::{Call, CallReply, Entered, next_stamp};
pub use fault::GatherFault;
pub use gathering::gather;
