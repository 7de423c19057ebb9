//! What a call of a one-time initialization may refuse.
ghost use Rattle.std.specs.Prelude.{◌≡◌, Some, None};
ghost use Rattle.parking_lot_mutex.specs.Once.Faults.{fault_code};

use std::error::Error;
use std::fmt;

/// The last closure has failed, and nobody has run one since: code 24. [`Once::wait`](crate::once::Once::wait) answers
/// it.
#[derive(Clone, Copy, Debug, PartialEq, Eq)]
pub struct Poisoned;

impl Poisoned {
    /// The number of the refusal.
    ///
    /// ```text
    /// let number = Poisoned.code();   // 24
    /// ```
    pub fn code(&self) -> u16
        ensures { result ≡ 24 }
    {
        24
    }
}

impl fmt::Display for Poisoned {
    ghost use Rattle.std.specs.Prelude.{Some, codes};

    ghost output = { λ _. Some (codes "Poisoned") };

    fn fmt<W: fmt::Write>(&self, f: &mut fmt::Formatter<W>) -> fmt::Result {
        f.write_str("Poisoned")
    }
}

impl Error for Poisoned {}

/// Why [`Once::call_once`](crate::once::Once::call_once) hasn't ended well.
#[derive(Debug, Drop)]
pub enum OnceFault<E> {
    /// The last closure has failed: the caller's own has not run. Code 24.
    Poisoned,
    /// The caller's closure ran and has failed with this error, which has no code of its own. The thing is poisoned
    /// now.
    Failed(E),
}

impl<E> OnceFault<E> {
    /// The number of the refusal, `None` of a closure's own error.
    ///
    /// ```text
    /// let number = OnceFault::Failed(5_u8).code();   // None: the closure's own error
    /// ```
    pub fn code(&self) -> Option<u16>
        ensures { result ≡ fault_code self.now }
    {
        match self {
            OnceFault::Poisoned => Some(24),
            OnceFault::Failed(_) => None,
        }
    }
}

impl<E: fmt::Display> fmt::Display for OnceFault<E> {
    fn fmt<W: fmt::Write>(&self, f: &mut fmt::Formatter<W>) -> fmt::Result {
        match self {
            OnceFault::Poisoned => f.write_str("Poisoned"),
            OnceFault::Failed(error) => error.fmt(f),
        }
    }
}

impl<E: fmt::Debug + fmt::Display + Drop> Error for OnceFault<E> {}
