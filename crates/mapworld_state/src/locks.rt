//! The locks of shards: a word and two queues for each, and beside the word the guards of those that own it.
//!
//! [`ShardLocks`] has a reader-writer lock for each shard, as words and lists that threads change one atomic step at a
//! time, in any order among the threads. Beside each word stands a desk, with a guard for each thread that holds the
//! shard, under the thread's number. A step that moves ownership moves the guards in the same step. All memory is taken
//! where the locks are made.
//!
//! ```rust
//! let mut locks = ShardLocks::new(alloc, 2, 4)?;   // two threads, four shards
//! locks.begin(0, 3, LockCall::Read);               // thread 0 asks for shard 3
//! while locks.can_move(0) && locks.ended(0).is_none() {
//!     locks.step(0, false);
//! }
//! locks.finish(0);                                 // Owned
//! locks.start(0, 3, LockCall::UnlockRead, false);  // and gives it up again
//! ```

mod desks;
pub mod laws;
mod new_locks;
mod shard_locks;

pub use desks::ShardDesk;
pub use shard_locks::ShardLocks;
