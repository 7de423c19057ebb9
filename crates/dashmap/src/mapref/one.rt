//! Guards of one pair.

pub use dashmap_map::mapref::one::{MappedRef, MappedRefMut, Ref, RefMut};
