//! Pairs of plain shards and of shared maps, side by side.

pub use dashmap_parallel::{SharedIter, SharedIterMut};
pub use dashmap_plain::IterMut;
pub use dashmap_view::parallel::{Iter, OwningIter};
