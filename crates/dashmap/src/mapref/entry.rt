//! The place of a key.

pub use dashmap_map::mapref::entry::{Entry, OccupiedEntry, VacantEntry};
