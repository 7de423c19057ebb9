//! Calls of a reader-writer lock that give up at a moment, as plain data: one decision core of all of them.
//!
//! Until its moment passes while it sleeps it is a call that waits, act by act. Then it goes back into the section in
//! which it fell asleep and takes itself off the list. As the last one there that wants the lock it masks the parked
//! bit. As a writer that waits for readers to leave it takes its bit back, and looks after those that it kept out.
//! Where another had taken it before it goes on as if it were woken.

mod timed_core;
mod timed_phase;

pub use timed_core::TimedRwCore;
pub use timed_phase::{Sleeper, TimedRwPhase};
