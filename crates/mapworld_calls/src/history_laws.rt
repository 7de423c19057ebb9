//! Laws that hold of every world of maps whose replies and contents are those of its blocks: what a session reads, what
//! a walk gives, what a count says, and what a refusal leaves.

pub mod laws;
