//! Worlds of locks, condition variables and one-time initializations: threads' calls at them, one atomic step at a
//! time, by any schedule.
#![tactic(auto)]

mod allowed;
pub mod call_laws;
mod calls;
mod fault;
pub mod laws;
mod new_world;
mod step;
mod world;
mod world_views;

pub use calls::{Asked, LockAnswer, LockCall, LockKind};
pub use fault::{WorldFault, WorldRefusal};
pub use parking_lot_core_model::SizeFault;
pub use parking_lot_machine::{OwnMode, RowMachine};
pub use parking_lot_machine_sides::once::{OnceCall, OnceMachine, OnceReply, OnceState};
pub use parking_lot_machine_waits::{CondvarCall, WaitMachine};
pub use step::WorldStep;
pub use world::World;
