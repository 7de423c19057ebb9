//! Raw locks of one atomic word, for checks, tests and measurements.
//!
//! [`PackedLock`] is a raw reader-writer lock, and [`PackedMutex`] is its exclusive half. Nobody sleeps: a call that
//! has to wait yields and tries again. [`Parties`] tells apart who takes a lock.
#![tactic(auto)]

mod packed_lock;
mod packed_mutex;
mod party;
mod turn;

pub use packed_lock::PackedLock;
pub use packed_mutex::PackedMutex;
pub use party::Parties;
