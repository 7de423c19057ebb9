//! The heap that refuses growths, and a check that is run with each refused in turn.

mod counts;
mod turns;

use refusing_heap::RefusingHeap;
use std::alloc::Global;

/// A vector of numbers in such a heap.
pub type Items<'h> = Vec<u64, &'h RefusingHeap<Global>>;

/// Pushes the numbers below one, and tells how many pushes were refused: each such left the items as they were.
pub fn push_all(heap: &RefusingHeap<Global>, count: u64) -> Result<u64, &'static str> {
    let mut items: Items<'_> = Vec::new(heap);
    let mut refused = 0u64;
    for i in 0..count {
        let len = items.len();
        let last = items.last().copied();
        if items.push(i).is_err() {
            refused = refused.wrapping_add(1);
            if items.len() != len || items.last().copied() != last {
                return Err("a refused push has changed the vector");
            }
        }
    }
    Ok(refused)
}

/// As many pushes are refused as the heap has refused growths.
pub fn check(heap: &RefusingHeap<Global>, count: u64) -> Result<(), &'static str> {
    if push_all(heap, count)? == heap.refused() {
        Ok(())
    } else {
        Err("the heap has counted otherwise")
    }
}
