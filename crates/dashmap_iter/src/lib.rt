//! Walks over the running map that lend its pairs one by one or do one thing to each, and guards of its shards.
//!
//! A walk takes the shards in their order and lends each pair of a shard once, in the order of its slots, which is
//! open. It holds nothing before its first item.
#![tactic(auto)]

mod iter;
mod iter_mut;
mod map;
pub mod multiple;
pub mod multiple_mut;
pub mod shard_guards;
mod shards;
mod shared;
pub mod walks;

pub use iter::Iter;
pub use iter_mut::{IterMut, WritingWalk};
pub use map::LendingWalks;
pub use shards::{GivesShards, MapShards};
