//! The steps of a world of maps that change or read a pair, one function for each kind.

mod deeds;
mod items;

pub use deeds::{append, apply, change, fill, read, view};
pub use items::item;
