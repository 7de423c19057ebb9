//! How long the checks wait.

use crate::wrong::Wrong;
use std::rt::Clock;
use std::time::{Duration, Instant};

/// How long a wait lasts that is to give up.
pub fn short() -> Duration {
    Duration::from_millis(1)
}

/// A moment that has come.
pub fn moment<C: Clock>(clock: &C) -> Result<Instant, Wrong> {
    match Instant::now(clock) {
        Ok(now) => Ok(now),
        Err(_unread) => Err(Wrong {
            what: "the clock can't be read",
        }),
    }
}
