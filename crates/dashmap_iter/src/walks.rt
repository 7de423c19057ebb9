//! Walks over the running map: what is done with each pair of each shard, one shard after another.
//!
//! What a walk does to a shard while it holds it is said by the functions of [`each`], which are lent the shard.

pub mod each;
mod walks;

pub use walks::{Walks, lock_behind};
