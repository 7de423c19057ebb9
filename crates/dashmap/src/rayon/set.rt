//! Parallel forms of a set: the keys of one shard are one piece of work, or those of some shards.

mod forms;
mod lent;
mod owned;
mod shared;

pub use lent::Iter;
pub use owned::OwningIter;
