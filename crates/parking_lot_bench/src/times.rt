//! How long a turn takes.

use std::time::Duration;

/// How many nanoseconds one turn took; each round is two.
pub fn nanos_each(took: Duration, rounds: u32) -> u128 {
    took.as_nanos() / (u128::from(rounds.max(1)) * 2)
}
