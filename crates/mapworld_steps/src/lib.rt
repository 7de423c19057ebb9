//! The steps of a world of maps, one function for each kind, and where they leave a thread.
#![tactic(auto)]

mod ends;
mod looks;
mod one_step;
mod queues;
mod standing;
mod starts;
mod walking;
mod walks;

pub use mapworld_transitions::{is_world_amount, shard_of};
pub use one_step::advance;
pub use standing::{can_move, may_step, status};
