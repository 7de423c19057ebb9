//! What the steps of a world of maps are made of: where each kind leads a thread, what it does to the list of blocks
//! and to a shard's list, and what it asks of the holds.
#![tactic(auto)]

pub mod blocks;
mod effect;
pub mod effects;
pub mod holds;
pub mod moves;
pub mod pairs;
pub mod put;
mod route;
pub mod walks;

pub use route::{is_world_amount, shard_of};
