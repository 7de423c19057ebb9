//! The machines beside the machine of locks: one-time initializations in [`once`], and condition variables in
//! [`condvar`]. Each runs calls of many threads by any schedule, one atomic step at a time.
#![tactic(auto)]

pub mod buckets;
pub mod condvar;
pub mod once;
