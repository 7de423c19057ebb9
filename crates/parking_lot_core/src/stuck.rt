//! What can't come about.

use std::convert::Infallible;
use std::sync::Wait;

/// Waits for ever: for what can't come about, since a participant is lent to one call at a time, and what belongs to it
/// is made before it.
pub(crate) fn stuck<R: Wait>(rt: &R) -> Infallible {
    for _turn in rt.forever() {}
    unreachable!()
}
