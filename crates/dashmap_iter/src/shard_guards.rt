//! The shards of the running map, each to be held as a whole.
//!
//! [`Looks`] gives a [`ShardsView`], which counts the shards of a map and holds one of them to be read; beside it stand
//! the map's calls that hold one shard by its number. A guard of a shard lends the shard to be read, also where its
//! hold is an exclusive one: pairs change by the map's calls alone, so each stays in the shard of its route.

mod guard;
mod looks;
mod view;

pub use guard::{ShardGuard, ShardReadGuard, ShardWriteGuard};
pub use looks::Looks;
pub use view::ShardsView;
