//! A key whose clone takes memory.
ghost use Rattle.std.specs.Prelude.{◌≡◌, ◌==◌};
ghost use Rattle.std.proofs.Common.{rules};
ghost use Rattle.std.specs.Cmp.Rules.{comparing, hashing};
ghost use Rattle.std.specs.Ordering.{on};
ghost use Rattle.std.specs.Hash as fed;

use refusing_heap::Heap;
use std::alloc::AllocError;
use std::hash::{Hash, Hasher};

/// A number in a heap from which each of its clones takes a growth, which it gives back at once.
#[derive(Drop)]
pub struct Costly<'h> {
    number: u64,
    heap: &'h Heap,
}

impl<'h> Costly<'h> {
    /// Takes none.
    pub fn new(heap: &'h Heap, number: u64) -> Costly<'h> {
        Costly { number, heap }
    }

    pub fn number(&self) -> u64 {
        self.number
    }
}

impl Clone for Costly<'_> {
    ghost is_clone = { λ key copy. copy ≡ key };

    fn clone(&self) -> Result<Self, AllocError> {
        match Box::new(self.heap, self.number) {
            Ok(_block) => Ok(Costly {
                number: self.number,
                heap: self.heap,
            }),
            Err(_) => Err(AllocError),
        }
    }
}

impl PartialEq for Costly<'_> {
    ghost eq = { on (λ key. key.number) ◌==◌ };

    ghost laws = { Prim.search (comparing, rules) };

    fn eq(&self, other: &Self) -> bool {
        self.number == other.number
    }
}

impl Eq for Costly<'_> {
    ghost laws = { Prim.search (comparing, rules) };
}

impl Hash for Costly<'_> {
    ghost hash_input = { λ key. fed.u64 key.number };

    ghost respects_eq = { Prim.search (hashing, rules) };

    fn hash<H: Hasher>(&self, state: &mut H) {
        self.number.hash(state);
    }
}
