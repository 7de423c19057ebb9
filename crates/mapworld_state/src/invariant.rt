//! The proof that each step of a world of maps keeps it sound: whichever thread makes it, and whichever kind it is of.

pub mod causes;
pub mod laws;
