//! Walks.

pub use dashmap_iter::{Iter, IterMut};
pub use dashmap_view::OwningIter;
