//! Threads' calls at one-time initializations, one atomic step at a time, by any schedule.

mod acts;
mod calls;
mod entry;
pub mod laws;
mod machine_views;
mod new_machine;
mod once_machine;
mod open_call;

pub use calls::{OnceCall, OnceReply};
pub use entry::Entry;
pub use once_machine::OnceMachine;
pub use open_call::OpenCall;
pub use parking_lot_core_model::SizeFault;
pub use parking_lot_protocol_waits::once::{OnceAnswer, OnceCore, OncePhase, OnceState, Wish};
