//! What threads ask of the locks of a machine.
ghost use Rattle.std.specs.Prelude.{◌≡◌};
ghost use Rattle.std.specs.Prelude.{Some};
ghost use Rattle.parking_lot_machine_calls.specs.Calls.{is_timed, given_up, manner_for, takes};
ghost use Rattle.parking_lot_machine_calls.specs.Kinds.{is_manner, AsMutex};

/// The kind of a lock.
#[derive(Clone, Copy, PartialEq, Eq, Debug)]
pub enum LockKind {
    /// One owner at a time.
    Mutex,
    /// One owner at a time, which hands the lock over to whoever waits longest.
    FairMutex,
    /// One writer, or readers.
    Rw,
    /// One writer, or readers, who may read again, also past a writer that waits.
    RwRecursive,
}

/// What a thread asks of a lock.
#[derive(Clone, Copy, PartialEq, Eq, Debug)]
pub enum LockCall {
    /// It locks a mutex, and waits for it.
    Lock,
    /// It locks a mutex, and doesn't wait.
    TryLock,
    /// It locks a mutex, and waits for it until its deadline.
    LockUntil,
    /// It gives a mutex up.
    Unlock,
    /// It wants a shared hold, and waits for it.
    Read,
    /// It wants a shared hold, and doesn't wait.
    TryRead,
    /// It gives its shared hold up.
    UnlockRead,
    /// It wants the exclusive hold, and waits for it.
    Write,
    /// It wants the exclusive hold, and doesn't wait.
    TryWrite,
    /// It gives its exclusive hold up.
    UnlockWrite,
    /// It makes its exclusive hold a shared one.
    Downgrade,
    /// It wants the upgradable hold, and waits for it.
    UpgradableRead,
    /// It wants the upgradable hold, and doesn't wait.
    TryUpgradableRead,
    /// It gives its upgradable hold up.
    UnlockUpgradable,
    /// It makes its upgradable hold the exclusive one, and waits until the readers have left.
    Upgrade,
    /// It makes its upgradable hold the exclusive one where nobody else reads, and doesn't wait. Where it is refused it
    /// keeps what it has.
    TryUpgrade,
    /// It makes its exclusive hold the upgradable one.
    DowngradeToUpgradable,
    /// It makes its upgradable hold a shared one.
    DowngradeUpgradable,
    /// It wants a shared hold, and waits for it until its deadline.
    ReadUntil,
    /// It wants the exclusive hold, and waits for it until its deadline, also until the readers have left.
    WriteUntil,
    /// It wants the upgradable hold, and waits for it until its deadline.
    UpgradableUntil,
    /// It makes its upgradable hold the exclusive one, and waits until its deadline for the readers to leave. Then it
    /// keeps what it has.
    UpgradeUntil,
}

/// How a thread owns a lock.
#[derive(Clone, Copy, PartialEq, Eq, Debug)]
pub enum OwnMode {
    /// It is the only owner.
    Exclusive,
    /// It is to be the only owner as soon as the readers have left.
    Pending,
    /// It reads, beside others.
    Shared,
    /// It reads beside others, and alone may become the writer.
    Upgradable,
}

impl LockKind {
    /// Whether a lock of this kind can be asked so.
    pub fn takes(&self, call: LockCall) -> bool
        ensures { result ≡ takes (Some self.now) call }
    {
        match self {
            LockKind::Mutex | LockKind::FairMutex => call.is_of_mutexes(),
            LockKind::Rw | LockKind::RwRecursive => !call.is_of_mutexes(),
        }
    }
}

impl LockCall {
    /// Whether it is for mutexes, and not for reader-writer locks.
    fn is_of_mutexes(&self) -> bool
        ensures { result ≡ is_manner (Some AsMutex) (manner_for self.now) }
    {
        match self {
            LockCall::Lock | LockCall::TryLock | LockCall::LockUntil => true,
            LockCall::Unlock => true,
            LockCall::Read | LockCall::TryRead | LockCall::UnlockRead => false,
            LockCall::Write | LockCall::TryWrite | LockCall::UnlockWrite => false,
            LockCall::Downgrade => false,
            LockCall::UpgradableRead | LockCall::TryUpgradableRead => false,
            LockCall::UnlockUpgradable | LockCall::Upgrade | LockCall::TryUpgrade => false,
            LockCall::DowngradeToUpgradable | LockCall::DowngradeUpgradable => false,
            LockCall::ReadUntil | LockCall::WriteUntil => false,
            LockCall::UpgradableUntil | LockCall::UpgradeUntil => false,
        }
    }

    /// How the thread has to own the lock that asks for it; for the calls that ask for the lock it may not own it at
    /// all.
    pub(crate) fn gives_up(&self) -> Option<OwnMode>
        ensures { result ≡ given_up self.now }
    {
        match self {
            LockCall::Unlock | LockCall::UnlockWrite => Some(OwnMode::Exclusive),
            LockCall::Downgrade => Some(OwnMode::Exclusive),
            LockCall::UnlockRead => Some(OwnMode::Shared),
            LockCall::UnlockUpgradable | LockCall::Upgrade => Some(OwnMode::Upgradable),
            LockCall::TryUpgrade | LockCall::DowngradeUpgradable => Some(OwnMode::Upgradable),
            LockCall::UpgradeUntil => Some(OwnMode::Upgradable),
            LockCall::DowngradeToUpgradable => Some(OwnMode::Exclusive),
            LockCall::UpgradableRead | LockCall::TryUpgradableRead => None,
            LockCall::ReadUntil | LockCall::WriteUntil | LockCall::UpgradableUntil => None,
            LockCall::Lock | LockCall::TryLock | LockCall::LockUntil => None,
            LockCall::Read | LockCall::TryRead => None,
            LockCall::Write | LockCall::TryWrite => None,
        }
    }
}

impl LockCall {
    /// Whether its moment may pass as it sleeps.
    pub fn is_timed(&self) -> bool
        ensures { result ≡ is_timed self.now }
    {
        match self {
            LockCall::LockUntil | LockCall::ReadUntil | LockCall::WriteUntil => true,
            LockCall::UpgradableUntil | LockCall::UpgradeUntil => true,
            _ => false,
        }
    }
}
