//! Guards of pairs.
pub mod entry;
mod mapped;
pub mod one;
