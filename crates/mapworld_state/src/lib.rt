//! What a world of maps consists of: where its threads stand, how shards are held, and what the code keeps of it.
//!
//! The definitions of its steps, of what holds between two steps and of what runs promise stand in `specs/`.
#![tactic(auto)]

pub mod faults;
mod holds;
pub mod invariant;
pub mod locks;
mod place;
mod step;
mod world_core;

pub use holds::{Hold, Manner, Mode};
pub use place::{Growth, Guard, Phase, Place, Request, Way};
pub use step::{Status, Step};
pub use world_core::Core;
