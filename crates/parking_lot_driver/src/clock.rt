//! A clock for sleeps that no moment ends.

use std::io;
use std::time::{Clock, Duration};

/// A clock that stands still. A sleep without a deadline never reads it.
pub(crate) struct StillClock;

impl Clock for StillClock {
    fn monotonic(&self) -> io::Result<Duration> {
        Ok(Duration::ZERO)
    }

    fn since_1970(&self) -> io::Result<Duration> {
        Ok(Duration::ZERO)
    }
}
