//! What is locked and unlocked.

/// A pair of a lock and its release, or a call that is over at once.
#[derive(Clone, Copy)]
pub enum Pair {
    /// The raw mutex: by a call that waits, by a try, by a fair release, by a call that may give up, and with a bump
    /// before the release.
    Mutex,
    MutexTry,
    MutexFairly,
    MutexInTime,
    MutexBump,
    /// The raw fair mutex.
    FairMutex,
    /// Shared holds of the raw reader-writer lock: by a call that waits, by a try, of the recursive lock, and by a call
    /// that may give up.
    Read,
    ReadTry,
    ReadRecursive,
    ReadInTime,
    /// Its exclusive hold, by a call that waits and by one that may give up, and one that becomes a shared hold.
    Write,
    WriteInTime,
    Downgrade,
    /// Its upgradable hold, by a call that waits and by one that may give up; one that is upgraded, by a call that
    /// waits, by a try and by a call that may give up; and one that becomes a shared hold, or was an exclusive one.
    Upgradable,
    UpgradableInTime,
    Upgrade,
    UpgradeTry,
    UpgradeInTime,
    ToShared,
    ToUpgradable,
    /// Guards of the generic locks over them: of the mutex, of the fair mutex, and of the reader-writer lock; there an
    /// upgradable one too, and one that is upgraded before it is given up.
    Guard,
    FairGuard,
    Reader,
    Writer,
    UpgradableGuard,
    UpgradedGuard,
    /// The reentrant mutex, and a nested hold of it.
    Reentrant,
    Nested,
    /// Notifications of a condition variable on which nobody waits.
    NotifyOne,
    NotifyAll,
    /// A call of a one-time initialization that is done.
    OnceDone,
    /// The locks of std.
    StdMutex,
    StdRead,
    StdWrite,
}

impl Pair {
    /// All of them.
    pub const ALL: [Pair; 34] = [
        Pair::Mutex,
        Pair::MutexTry,
        Pair::MutexFairly,
        Pair::MutexInTime,
        Pair::MutexBump,
        Pair::FairMutex,
        Pair::Read,
        Pair::ReadTry,
        Pair::ReadRecursive,
        Pair::ReadInTime,
        Pair::Write,
        Pair::WriteInTime,
        Pair::Downgrade,
        Pair::Upgradable,
        Pair::UpgradableInTime,
        Pair::Upgrade,
        Pair::UpgradeTry,
        Pair::UpgradeInTime,
        Pair::ToShared,
        Pair::ToUpgradable,
        Pair::Guard,
        Pair::FairGuard,
        Pair::Reader,
        Pair::Writer,
        Pair::UpgradableGuard,
        Pair::UpgradedGuard,
        Pair::Reentrant,
        Pair::Nested,
        Pair::NotifyOne,
        Pair::NotifyAll,
        Pair::OnceDone,
        Pair::StdMutex,
        Pair::StdRead,
        Pair::StdWrite,
    ];

    /// The one of that name.
    pub fn named(word: &str) -> Option<Pair> {
        Pair::ALL.iter().copied().find(|pair| pair.name() == word)
    }

    /// Its name.
    pub fn name(self) -> &'static str {
        match self {
            Pair::Mutex => "mutex",
            Pair::MutexTry => "mutex-try",
            Pair::MutexFairly => "mutex-fairly",
            Pair::MutexInTime => "mutex-in-time",
            Pair::MutexBump => "mutex-bump",
            Pair::FairMutex => "fair-mutex",
            Pair::Read => "read",
            Pair::ReadTry => "read-try",
            Pair::ReadRecursive => "read-recursive",
            Pair::ReadInTime => "read-in-time",
            Pair::Write => "write",
            Pair::WriteInTime => "write-in-time",
            Pair::Downgrade => "downgrade",
            Pair::Upgradable => "upgradable",
            Pair::UpgradableInTime => "upgradable-in-time",
            Pair::Upgrade => "upgrade",
            Pair::UpgradeTry => "upgrade-try",
            Pair::UpgradeInTime => "upgrade-in-time",
            Pair::ToShared => "to-shared",
            Pair::ToUpgradable => "to-upgradable",
            Pair::Guard => "guard",
            Pair::FairGuard => "fair-guard",
            Pair::Reader => "reader",
            Pair::Writer => "writer",
            Pair::UpgradableGuard => "upgradable-guard",
            Pair::UpgradedGuard => "upgraded-guard",
            Pair::Reentrant => "reentrant",
            Pair::Nested => "nested",
            Pair::NotifyOne => "notify-one",
            Pair::NotifyAll => "notify-all",
            Pair::OnceDone => "once-done",
            Pair::StdMutex => "std-mutex",
            Pair::StdRead => "std-read",
            Pair::StdWrite => "std-write",
        }
    }
}
