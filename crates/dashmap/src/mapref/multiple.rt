//! Guards of one pair that a walk lends.

pub use dashmap_iter::multiple::RefMulti;
pub use dashmap_iter::multiple_mut::RefMutMulti;
