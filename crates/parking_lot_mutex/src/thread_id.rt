//! How participants of a lot are told apart.
ghost use Rattle.std.specs.Prelude.{◌-◌, ◌^◌, min};

use lock_api_raw::GetThreadId;
use parking_lot_core::ThreadData;
use std::alloc::{Allocator, Global};
use std::marker::PhantomData;
use std::num::NonZeroUsize;

/// Tells the participants of one lot apart, by their numbers plus one. Participants of two lots may have one number: a
/// reentrant mutex is for those of its own lot alone.
#[derive(Drop)]
pub struct RawThreadId<A = Global> {
    of: PhantomData<A>,
}

impl<A: Allocator> GetThreadId for RawThreadId<A> {
    type Party = ThreadData<A>;

    // No participant of a lot has so large a number that it would be cut off.
    ghost party_number = { λ party. min party.thread (2 ^ 64 - 2) };

    fn new() -> RawThreadId<A> {
        RawThreadId { of: PhantomData }
    }

    fn nonzero_thread_id(&self, party: &ThreadData<A>) -> NonZeroUsize {
        NonZeroUsize::MIN.saturating_add(party.thread_number())
    }
}
