//! Parallel forms.

pub mod map;
pub mod set;
