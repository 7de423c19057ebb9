//! What a try found.

pub use dashmap_guard::TryResult;
