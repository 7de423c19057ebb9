//! One shard of the map, and plain shards without locks.
//!
//! A [`Shard`] is a finite map from a hash and a key to a pair. [`Shards`] is the map as a whole for one owner: a list
//! of shards, a hasher, and the [`route`] by which a key's hash tells its shard.
//!
//! What a shard is made of is private, and its contract leaves it open: pairs may move where an insertion finds no room
//! and where `reserve` or `shrink` make another table, and at no other time. It is a table of tags: a byte for each
//! slot tells most of the slots that can't have a hash apart from the few that may, and sixteen bytes are compared at
//! once.
#![tactic(auto)]

mod entry;
mod fault;
mod pairs;
mod probe;
mod routing;
mod shard;
mod shards;
mod slot;
mod spread;
mod tag_table;
pub mod tags;

pub use crate::tags::{Lanes, WIDTH};
pub use fault::MapFault;
pub use lock_api_raw::NoMemory;
pub use pairs::ShardPairs;
pub use routing::{capacity_share, default_shards, is_shard_amount, route};
pub use shard::Shard;
pub use shards::Shards;
pub use spread::{SpreadHasher, SpreadState, spread_hash};
