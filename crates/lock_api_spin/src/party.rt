//! Who takes a lock.
ghost use Rattle.std.specs.Prelude.{◌≡◌, ◌+◌};

use lock_api_raw::GetThreadId;
use std::num::NonZeroUsize;

/// Tells the parties of the locks here apart: each is a number, and threads lend different ones.
///
/// ```text
/// let number = Parties::new().nonzero_thread_id(&party).get();   // one more than the party
/// ```
#[derive(Drop)]
pub struct Parties;

impl GetThreadId for Parties {
    type Party = u32;

    ghost party_number = { λ party. party };

    fn new() -> Parties {
        Parties
    }

    fn nonzero_thread_id(&self, party: &u32) -> NonZeroUsize {
        let number = *party;
        NonZeroUsize::MIN.saturating_add(number as usize)
    }
}
