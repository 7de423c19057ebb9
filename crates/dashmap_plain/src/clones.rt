//! Clones of the running map and of its views.
//!
//! A map's clone takes locks of its own, so it is told the table that they are rows of: [`CloneMap`] and [`CloneView`]
//! stand in place of `Clone`. Keys, values and the hasher have to be equal to their clones.

mod map;
mod rows;
mod view;

pub use map::{CloneMap, clone_locked, clone_unlocked};
pub use view::CloneView;
