//! One-time initialization for running threads, on the rows of a lock table.
//!
//! Each call of a [`Once`] runs a core of `parking_lot_protocol_waits` on its row, by the runner of
//! `parking_lot_driver`. A closure is called only where the core has answered that it is to run, and how it ended is
//! stored by a core of its own, which wakes those that wait.
//!
//! Calls that may sleep take the data of a participant of the table's lot. A participant of another lot can't sleep; it
//! yields and looks again.

mod calls;
mod fault;
mod once;

pub use fault::{OnceFault, Poisoned};
pub use once::Once;
pub use parking_lot_protocol_waits::once::{OnceAnswer, OnceCore, OnceState};
