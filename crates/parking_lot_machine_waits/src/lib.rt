//! Threads' calls at locks and at condition variables together, one atomic step at a time, by any schedule.
#![tactic(auto)]

mod allowed;
mod buckets;
mod ended;
pub mod laws;
mod machines;
mod moving;
mod new_machine;
mod parts;
mod seat;
mod sides;
mod steps;
mod turn;
mod views;
mod wait_machine;

pub use ended::Ended;
pub use parking_lot_core_model::SizeFault;
pub use parking_lot_machine::{LockCall, LockKind, OwnMode, RowMachine};
pub use parking_lot_machine_sides::condvar::{CondvarCall, CondvarMachine, CondvarReply, OpenCall};
pub use seat::Seat;
pub use turn::Turn;
pub use wait_machine::WaitMachine;
