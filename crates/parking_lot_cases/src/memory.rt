//! The memory of what is called, and what came of calls.

use refusing_heap::{Heap, Said};
use std::alloc::Allocator;

/// The memory of what is called. What is generic in it is cheaper to prove than what names the heap.
pub trait Memory: Allocator + Copy + Send + Sync + Drop {}

impl Memory for &Heap {}

/// What came of a list, which is to have so many items.
pub fn listed<T: Drop, A: Memory, E: PartialEq + Drop>(
    list: Result<Vec<T, A>, E>,
    length: usize,
    refusal: E,
) -> Said {
    match list {
        Ok(items) => Said::of(items.len() == length, false),
        Err(fault) => Said::of(false, fault == refusal),
    }
}

/// Whether it is done.
pub fn is_done(said: Said) -> bool {
    matches!(said, Said::Done)
}
