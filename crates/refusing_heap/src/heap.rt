//! The allocator.
ghost use Rattle.std.specs.Prelude.{◌≡◌};

use crate::growths::{Growths, Refusal};
use std::alloc::{AllocError, Allocator};

/// An allocator that passes each call on to the one that it stands on, but for the growths that it refuses.
///
/// A growth is an allocation, or a reallocation by `grow`. A refused one answers `AllocError`, leaves a block that was
/// to grow as it was, and doesn't reach the allocator below. A block that shrinks or is given back is passed on always.
/// Blocks are those of the allocator below.
///
/// Collections take `&heap`, which is `Copy`, and count together. Threads may share it where they may share the
/// allocator below. It never waits, and needs no memory of its own.
///
/// ```text
/// let heap = RefusingHeap::new(rt.alloc(), Refusal::Once(3));
/// let mut items: Vec<u64, &RefusingHeap<Global>> = Vec::new(&heap); // its third growth is refused
/// ```
#[derive(Debug, Drop)]
pub struct RefusingHeap<A: Allocator> {
    inner: A,
    growths: Growths,
}

impl<A: Allocator> RefusingHeap<A> {
    /// A heap of which no growth was asked for.
    pub fn new(inner: A, refusal: Refusal) -> RefusingHeap<A>
        ensures inner { result.inner ≡ inner }
        ensures refusal { result.growths.refusal ≡ refusal }
    {
        RefusingHeap {
            inner,
            growths: Growths::new(refusal),
        }
    }

    /// The allocator that it stands on. What is asked of that one isn't counted here.
    pub fn inner(&self) -> &A
        ensures { result.now ≡ self.now.inner }
    {
        &self.inner
    }

    /// Which growths it refuses.
    pub fn refusal(&self) -> Refusal
        ensures { result ≡ self.now.growths.refusal }
    {
        self.growths.refusal()
    }

    /// How many growths were asked for, those that were refused among them.
    pub fn asked(&self) -> u64 {
        self.growths.asked()
    }

    /// How many growths it refused. What the allocator below refused isn't counted.
    pub fn refused(&self) -> u64 {
        self.growths.refused()
    }
}

unsafe impl<A: Allocator> Allocator for RefusingHeap<A> {
    ghost dealloc_token = { λ heap ty ptr. A.dealloc_token heap.inner ty ptr };

    fn allocate(&self, size: usize, align: usize) -> Result<*mut u8, AllocError> {
        if self.growths.refuse_next() {
            return Err(AllocError);
        }
        self.inner.allocate(size, align)
    }

    unsafe fn deallocate(&self, ptr: *mut u8, size: usize, align: usize) {
        self.inner.deallocate(ptr, size, align);
    }

    unsafe fn grow<T>(
        &self,
        ptr: *mut T,
        len: usize,
        old_cap: usize,
        new_cap: usize,
    ) -> Result<*mut T, AllocError> {
        if self.growths.refuse_next() {
            return Err(AllocError);
        }
        self.inner.grow(ptr, len, old_cap, new_cap)
    }

    unsafe fn shrink<T>(
        &self,
        ptr: *mut T,
        len: usize,
        old_cap: usize,
        new_cap: usize,
    ) -> Result<*mut T, AllocError> {
        self.inner.shrink(ptr, len, old_cap, new_cap)
    }
}
