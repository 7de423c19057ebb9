//! Calls of a mutex that give up at a moment, as plain data: the decision core of such a call.
//!
//! Until its moment passes while it sleeps it is a call that waits, act by act. Then it goes back into the section in
//! which it fell asleep and takes itself off the list. As the last one there it masks the parked bit, and it changes
//! nothing else.
//! Where another had taken it before it goes on as if it were woken.

mod course;
mod plain_acts;
mod timed_act;
mod timed_core;

pub use course::{CallCore, Course};
pub use plain_acts::giving;
pub use timed_act::{TimedAct, TimedSeen};
pub use timed_core::{TimedMutexCore, TimedMutexPhase};
