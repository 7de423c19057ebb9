//! How far a one-time initialization is.
ghost use Rattle.std.specs.Prelude.{◌≡◌, ◌↔◌, IsTrue};
ghost use Rattle.parking_lot_rules.specs.declared.once.once_state.OnceState.TheVariants.{Poisoned, Done};

/// How far a one-time initialization is.
#[derive(Clone, Copy, PartialEq, Eq, Debug)]
pub enum OnceState {
    /// No closure has run yet.
    New,
    /// The last closure that ran has failed.
    Poisoned,
    /// A closure runs.
    InProgress,
    /// A closure has run, and ended well.
    Done,
}

impl OnceState {
    /// Whether the last closure that ran has failed.
    pub fn is_poisoned(self) -> bool
        ensures { IsTrue result ↔ (self ≡ Poisoned) }
    {
        self == OnceState::Poisoned
    }

    /// The same as [`is_poisoned`](OnceState::is_poisoned).
    pub fn poisoned(self) -> bool
        ensures { IsTrue result ↔ (self ≡ Poisoned) }
    {
        self.is_poisoned()
    }

    /// Whether a closure has run, and ended well.
    pub fn is_completed(self) -> bool
        ensures { IsTrue result ↔ (self ≡ Done) }
    {
        self == OnceState::Done
    }

    /// The same as [`is_completed`](OnceState::is_completed).
    pub fn done(self) -> bool
        ensures { IsTrue result ↔ (self ≡ Done) }
    {
        self.is_completed()
    }
}
