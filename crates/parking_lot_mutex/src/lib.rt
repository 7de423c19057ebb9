//! Mutexes of running threads, on the rows of a lock table: the raw mutex, the raw mutex whose every release is fair,
//! how participants are told apart; and what waits beside them, the condition variable in [`condvar`] and one-time
//! initialization in [`once`].
//!
//! A raw lock owns one row. Each of its calls runs a decision core there, by `parking_lot_driver`. Where one exchange
//! is enough it is made before a core is set up: that is the core's own first way, cut short.
//!
//! **A token is the one right to its mutex**, so two threads never hold it. Nothing else is said of a word.
//!
//! Calls that may sleep take the data of a participant of the table's lot. A participant of another lot can't sleep; it
//! yields and asks again. A release may wait for the lot's short sections, in which sleeping threads are woken.
#![tactic(auto)]

pub mod condvar;
pub mod laws;
pub mod once;
mod raw_fair_mutex;
mod raw_mutex;
mod resting;
mod stuck;
mod thread_id;
mod token;

pub use parking_lot_driver::{Call, DecisionCore, LockTable, Row, run_to_its_end, to_deadline};
pub use parking_lot_protocol::{
    Act, ActResult, CoreAnswer, MutexCore, SectionAct, WordChange, wake_sum,
};
pub use raw_fair_mutex::RawFairMutex;
pub use raw_mutex::RawMutex;
pub use thread_id::RawThreadId;
pub use token::{FairMutexToken, MutexToken};
