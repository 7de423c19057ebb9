//! What threads do at the words of locks: the decision cores of the locks.
//!
//! A core is one call of a lock as plain data. It does nothing itself: it is told what its last act gave, and answers
//! the next act. So whoever runs it decides where the word lies and where the waiters stand: threads run it on a row of
//! a lock table and on the lists of a parking lot, and a world under a schedule runs it on numbers.
//!
//! The word of a mutex is 1 where it is locked, and 2 where threads may wait. The word of a reader-writer lock counts
//! 16 for each reader, 8 for the writer, also while it waits for readers to leave, 2 where that writer may sleep, and 1
//! where threads may wait for the lock.
#![tactic(auto)]

mod act;
mod mutex_core;
mod mutex_phase;
mod rw_act;
mod rw_core;
mod rw_next;
mod rw_phase;
pub mod timed;
mod wake;
pub mod word;

pub use act::{Act, ActResult, CoreAnswer, HAND_OVER, SectionAct, TRY_AGAIN, WordChange};
pub use mutex_core::MutexCore;
pub use mutex_phase::{Asking, Giving, MutexPhase};
pub use rw_core::RwCore;
pub use rw_phase::{AfterWake, Draining, LockMode, Outcome, RwPhase, Scanning, Seeking};
pub use wake::wake_sum;
