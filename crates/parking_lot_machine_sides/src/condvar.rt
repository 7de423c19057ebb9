//! Threads' calls at a condition variable, one atomic step at a time, by any schedule.

mod acts;
mod calls;
mod condvar_machine;
pub mod laws;
mod machine_views;
mod new_machine;
mod open_call;
mod outside;

pub use calls::{CondvarCall, CondvarReply};
pub use condvar_machine::CondvarMachine;
pub use open_call::{Core, OpenCall};
pub use outside::Outside;
pub use parking_lot_core_model::SizeFault;
pub use parking_lot_protocol_waits::{
    NotifyAct, NotifyCore, NotifySeen, WaitAct, WaitCore, WaitSeen,
};
