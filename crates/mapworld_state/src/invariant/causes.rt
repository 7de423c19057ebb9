//! The proof that a try which finds its shard locked has a cause: a call of another thread was on that shard.

pub mod laws;
