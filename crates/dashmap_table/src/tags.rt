//! The tags of a table's slots, and how they are looked through: sixteen lanes at a time.
//!
//! A table keeps a byte for each slot. The byte of a full slot has seven bits of the hash that is kept there, so most
//! slots are passed over without a look at what they hold. This module has the bytes alone: which lanes of a window
//! have what ([`lanes_at`], [`Lanes`]), which tag a hash has ([`tag_of`]), and in which order the windows of a table
//! are looked through for a hash ([`window_on_way`]).

mod lanes;
mod tags;
mod way;
mod window;

pub use lanes::Lanes;
pub use tags::Tags;
pub use way::{EMPTY, REMOVED, first_on_way, tag_of, window_on_way, windows};
pub use window::{WIDTH, Wanted, lanes_at, whole_lanes_at};
