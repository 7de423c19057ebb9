//! What calls at locks are answered, and how their threads own the locks then.

pub mod laws;
