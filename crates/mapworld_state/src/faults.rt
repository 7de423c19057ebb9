//! Why a world of maps isn't made, and why a run of it stops.

mod fault;

pub use fault::{RunFault, WorldNewFault};
