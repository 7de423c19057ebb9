//! How a test says what it found.

use std::process::Abort;

/// Fails the test where a step went wrong, and names the first such step by its number, from 0.
pub(crate) fn all_right(rt: &impl Abort, steps: &[bool]) {
    let wrong = steps.iter().position(|right| !*right);
    assert!(rt; wrong.is_none(), "the first wrong step: {wrong:?}");
}
