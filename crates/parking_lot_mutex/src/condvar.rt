//! The condition variable of running threads, on a row of a lock table.
//!
//! A wait and a notification run their decision cores: each does what its core answers, on the row's word, on the lists
//! of the lot and at the mutex, and tells the core what it saw. A notification moves waiters to the mutex's own list
//! where that is locked, so that they aren't woken before they can have it.
//!
//! Calls that wait take the data of a participant of the row's lot.

mod clock;
mod notify;
mod raw_condvar;
mod wait;

pub use raw_condvar::RawCondvar;
