//! Evidence of what an exclusive hold left in its shard when it ended, which only that end gives.
//!
//! A receipt's fields are private to this file. Nothing else is known of the member that says what it is worth.
ghost use Rattle.std.specs.Prelude.{⊤};

use lock_api_guards::{Guard, Hold, Lender};
use std::snapshot::Snapshot;
use std::sync::Wait;

/// That a hold ended, and what it left. It is there for proofs alone.
#[derive(Drop)]
pub struct Left<H, T> {
    hold: Snapshot<H>,
    value: Snapshot<T>,
}

/// A hold that gives evidence of what it leaves when it ends. Each hold is one.
///
/// Where it is a parameter's bound, nothing is known of its member but what its call ensures.
pub trait LeavingEvidence<T>: Hold {
    /// That the hold has ended, and left the value behind its lock.
    ghost left: { Self → T → Type 0 } = { λ _ _. ⊤ };

    /// Tells of a hold that has ended.
    fn tell_left(seen: Left<Self, T>)
        ensures { left seen.hold.value seen.value.value };
}

impl<H: Hold, T> LeavingEvidence<T> for H {
    #[inline(always)]
    fn tell_left(seen: Left<H, T>)
        ensures { ⊤ }
    {
        drop(seen);
    }
}

/// Ends a guard's hold, with evidence of what it left.
#[inline(always)]
pub(crate) fn leave<W: Lender + Drop, H: LeavingEvidence<W::Part>>(guard: Guard<W, H>)
where
    H::Runtime: Wait,
    ensures { H.left guard.held.0 (W.part guard.inner) }
{
    let (inner, held) = Guard::into_parts(guard);
    let value = Snapshot::of(inner.look());
    let hold = Snapshot::of(held.hold());
    drop(Guard { inner, held });
    H::tell_left(Left { hold, value });
}
