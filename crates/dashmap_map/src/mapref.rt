//! Guards of pairs and entries of a map.
pub mod entry;
pub mod one;
