//! Moments at which waits are given up.
ghost use Rattle.std.specs.Prelude.{◌≡◌, ◌+◌, IfSome};
ghost use Rattle.std.specs.Duration.{as_nanos};
ghost use Rattle.std.specs.Time.{FitsClock, instant_nanos};
ghost use Rattle.std.specs.declared.time.Instant.{Instant};

use std::time::{Clock, Duration, Instant};

/// The moment that lies `timeout` ahead, by the clock. `None` where no moment can say that, or the clock can't be read:
/// then a wait has no limit.
///
/// ```text
/// let deadline = to_deadline(&rt, Duration::from_millis(5));
/// ```
pub fn to_deadline<C: Clock>(clock: &C, timeout: Duration) -> Option<Instant>
    ensures { IfSome result
        (λ deadline. (now : Instant) × FitsClock (instant_nanos now)
        × (instant_nanos deadline ≡ instant_nanos now + as_nanos timeout)) }
{
    let now = Instant::now(clock).ok()?;
    now.checked_add(timeout)
}
