//! The exact lot: lists of waiting threads, one list for each key, for one owner.
//!
//! [`Lot`] is exclusive and exact: each of its calls is a move on the lists, and its contracts say which.
//!
//! Contracts speak of a machine: a list of waiters for each key, a place and recorded resources for each thread, and
//! the sections that are open, one at most in each bucket of keys. What a `Lot` is made of is hidden behind it.
#![tactic(auto)]

mod buckets;
mod chains;
mod fault;
pub mod laws;
mod lists;
mod lot;
mod operations;
mod parking;
mod place;
mod places;
mod returns;
mod sections;
mod spread;
mod steps;
mod waiters;

pub use buckets::buckets_for;
pub use fault::{LotFault, SizeFault};
pub use lot::Lot;
pub use parking::{
    DEFAULT_PARK_TOKEN, DEFAULT_UNPARK_TOKEN, FilterOp, ParkResult, ParkToken, RequeueOp,
    UnparkResult, UnparkToken,
};
pub use place::{Place, Sleep, Taking, ThreadStatus, Waiter};
