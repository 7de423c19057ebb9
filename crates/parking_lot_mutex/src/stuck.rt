//! What can't come about.

use std::convert::Infallible;
use std::sync::Wait;

/// Waits for ever: for what can't come about, since a call's acts give what it was told.
pub(crate) fn stuck<R: Wait>(rt: &R) -> Infallible {
    for _turn in rt.forever() {}
    unreachable!()
}
