//! How a timed wait ended.
ghost use Rattle.std.specs.Prelude.{◌≡◌};

/// Whether a timed wait ran out.
#[derive(Clone, Copy, PartialEq, Eq, Debug)]
pub struct WaitTimeoutResult(pub(crate) bool);

impl WaitTimeoutResult {
    /// For the layer that waits.
    ///
    /// ```text
    /// Ok(WaitTimeoutResult::new(ran_out))
    /// ```
    pub fn new(timed_out: bool) -> WaitTimeoutResult
        ensures { result.0 ≡ timed_out }
    {
        WaitTimeoutResult(timed_out)
    }

    /// Whether the time ran out.
    ///
    /// ```text
    /// let late = changed.wait_for(&mut queue, Duration::from_secs(1), &rt, &mut me)?;
    /// if late.timed_out() { println!(rt; "nothing came")?; }
    /// ```
    pub fn timed_out(self) -> bool
        ensures { result ≡ self.0 }
    {
        self.0
    }
}
