//! The calls of a one-time initialization, as plain data.
//!
//! A core is one call. It does nothing itself: it is told what its last act gave, and answers the next act, in the
//! words of `parking_lot_protocol`. A call that runs its closure takes two cores: the first ends where the closure is
//! to be run, and the second begins with how that ended.
//!
//! The word is 0 where no closure has run, 4 while one runs, 1 where one has ended well, and 2 where the last one has
//! failed; 8 is added where callers may wait.

mod once_core;
mod once_phase;
mod seen;

pub use once_core::OnceCore;
pub use once_phase::{OnceAnswer, OncePhase, Seeking, state_of};
pub use parking_lot_rules::once::{OnceState, Wish};
