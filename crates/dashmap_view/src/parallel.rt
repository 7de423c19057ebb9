//! Parallel forms over plain shards: the pairs of one shard are one piece of work, and shards go side by side.
//!
//! [`Iter`] lends the pairs, [`OwningIter`] gives them away, and [`par_write`] lends values for writing. Each is handed
//! the runtime that starts threads, at the call that does the work.

pub mod join;
mod lent;
mod owned;
mod pieces;
mod view;
pub mod visit;
mod written;

pub use lent::Iter;
pub use owned::OwningIter;
pub use pieces::first_of;
pub use view::ParallelView;
pub use written::par_write;
