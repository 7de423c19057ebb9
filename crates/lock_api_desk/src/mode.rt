//! How a guard holds.
ghost use Rattle.std.specs.Prelude.{◌≡◌};

/// How a guard holds.
#[derive(Clone, Copy, PartialEq, Eq, Debug)]
pub enum Mode {
    /// Beside other readers.
    Shared,
    /// Alone.
    Exclusive,
    /// Beside shared guards, as the one reader that may become exclusive.
    Upgradable,
}

impl Mode {
    ghost use Rattle.lock_api_desk.specs.Guards.{excludes, is_reader, is_mode};

    /// Whether a guard held in this mode keeps out a new one in the other.
    pub(crate) fn excludes(self, other: Mode) -> bool
        ensures { result ≡ excludes self other }
    {
        match (self, other) {
            (Mode::Shared, Mode::Shared | Mode::Upgradable) => false,
            (Mode::Upgradable, Mode::Shared) => false,
            _ => true,
        }
    }

    /// Whether the mode counts against the limit of readers.
    pub(crate) fn is_reader(self) -> bool
        ensures { result ≡ is_reader self }
    {
        match self {
            Mode::Shared | Mode::Upgradable => true,
            Mode::Exclusive => false,
        }
    }

    /// Whether the two modes are one.
    pub(crate) fn is(self, other: Mode) -> bool
        ensures { result ≡ is_mode other self }
    {
        match (self, other) {
            (Mode::Shared, Mode::Shared) => true,
            (Mode::Exclusive, Mode::Exclusive) => true,
            (Mode::Upgradable, Mode::Upgradable) => true,
            _ => false,
        }
    }
}
