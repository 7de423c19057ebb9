//! Views: plain shards that are read without locks, by any number of readers.
//!
//! A [`PlainView`] is made of the shards of a map and its hasher, when nobody else can reach them. It tests once that
//! each pair is in the shard of its key's route, and from then on finds keys and walks over pairs without a lock and
//! without memory.
#![tactic(auto)]

mod clone;
mod counting;
mod displaced;
mod iter;
mod owning;
pub mod parallel;
mod routed;
mod view;

pub use clone::{clone_hasher, clone_shard};
pub use displaced::Displaced;
pub use iter::{ViewIter, ViewKeys, ViewValues};
pub use owning::OwningIter;
pub use view::PlainView;
