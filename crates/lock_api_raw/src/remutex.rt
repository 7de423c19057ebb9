//! How a reentrant mutex tells threads apart.
ghost use Rattle.std.specs.Prelude.{◌≡◌, ℕ, ◌+◌};
ghost use Rattle.std.specs.Int.NonZero.{non_zero_usize_get};

use std::num::NonZeroUsize;

/// How a reentrant mutex tells threads apart: by what a thread lends to a blocking call.
///
/// No two threads share a party, so two threads that run at one time have different answers, and a thread has the same
/// answer as long as it lends the same party.
pub trait GetThreadId {
    /// The same party that the mutex below takes.
    type Party;

    /// The number of a party.
    ghost party_number: { Self.Party → ℕ };

    /// Makes the helper. It takes no memory.
    ///
    /// ```text
    /// let get_thread_id: RawThreadId = RawThreadId::new();
    /// ```
    fn new() -> Self;

    /// The number of the party, plus one.
    ///
    /// ```text
    /// let get_thread_id: RawThreadId = RawThreadId::new();
    /// let number = get_thread_id.nonzero_thread_id(&me).get();
    /// ```
    fn nonzero_thread_id(&self, party: &Self::Party) -> NonZeroUsize
        ensures { non_zero_usize_get result ≡ party_number party.now + 1 };
}
