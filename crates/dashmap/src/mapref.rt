//! Guards of pairs, and entries.

pub mod entry;
pub mod multiple;
pub mod one;
