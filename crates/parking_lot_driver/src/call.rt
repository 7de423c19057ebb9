//! The calls of locks: which core each begins with.
ghost use Rattle.std.specs.Prelude.{◌≡◌, ◌==◌, true, false};
ghost use Rattle.parking_lot_protocol.specs.declared.mutex_phase.MutexPhase.TheVariants as mutex;
ghost use Rattle.parking_lot_protocol.specs.declared.rw_phase.RwPhase.TheVariants as rw;
ghost use Rattle.parking_lot_protocol.specs.declared.rw_phase.LockMode.TheVariants as want;

use crate::decision::DecisionCore;
use parking_lot_protocol::{MutexCore, RwCore};

/// A kind of call: the core that it begins with. A type for each, so that whoever runs one shows by its type which.
pub trait Call: Copy {
    /// The core.
    type Core: DecisionCore;

    /// The core as it begins.
    ghost begun: { Self.Core };

    /// Makes the core as it begins.
    fn begin() -> Self::Core
        ensures { result ≡ begun };
}

/// Locks a mutex.
#[derive(Clone, Copy)]
pub struct Lock;

/// Unlocks a mutex.
#[derive(Clone, Copy)]
pub struct Unlock;

/// Unlocks a mutex, and hands it over to the first that waits.
#[derive(Clone, Copy)]
pub struct UnlockFairly;

/// Lets those that wait for a mutex go first.
#[derive(Clone, Copy)]
pub struct Bump;

/// Tries to lock a mutex.
#[derive(Clone, Copy)]
pub struct TryLock;

/// Tries to read.
#[derive(Clone, Copy)]
pub struct TryRead<const RECURSIVE: u8>;

/// Tries to write.
#[derive(Clone, Copy)]
pub struct TryWrite;

/// Reads.
#[derive(Clone, Copy)]
pub struct Read<const RECURSIVE: u8>;

/// Stops reading.
#[derive(Clone, Copy)]
pub struct StopReading;

/// Writes.
#[derive(Clone, Copy)]
pub struct Write;

/// Stops writing.
#[derive(Clone, Copy)]
pub struct StopWriting;

/// Stops writing, and hands the lock over to the first that wait.
#[derive(Clone, Copy)]
pub struct StopWritingFairly;

/// Reads in place of writing.
#[derive(Clone, Copy)]
pub struct Downgrade;

/// Lets those that wait go before one that reads.
#[derive(Clone, Copy)]
pub struct BumpReader;

/// Lets those that wait go before one that writes.
#[derive(Clone, Copy)]
pub struct BumpWriter;

impl Call for Lock {
    type Core = MutexCore;

    ghost begun = { record { phase = mutex.Locking } };

    fn begin() -> MutexCore {
        MutexCore::lock()
    }
}

impl Call for Unlock {
    type Core = MutexCore;

    ghost begun = { record { phase = mutex.Unlocking false } };

    fn begin() -> MutexCore {
        MutexCore::unlock()
    }
}

impl Call for UnlockFairly {
    type Core = MutexCore;

    ghost begun = { record { phase = mutex.Unlocking true } };

    fn begin() -> MutexCore {
        MutexCore::unlock_fair()
    }
}

impl Call for Bump {
    type Core = MutexCore;

    ghost begun = { record { phase = mutex.Bumping } };

    fn begin() -> MutexCore {
        MutexCore::bump()
    }
}

impl Call for TryLock {
    type Core = MutexCore;

    ghost begun = { record { phase = mutex.Trying } };

    fn begin() -> MutexCore {
        MutexCore::try_lock()
    }
}

impl<const RECURSIVE: u8> Call for TryRead<RECURSIVE> {
    type Core = RwCore;

    ghost begun = { record { phase = rw.Trying (want.Shared (RECURSIVE == 1)) } };

    fn begin() -> RwCore {
        RwCore::try_lock_shared(RECURSIVE == 1)
    }
}

impl Call for TryWrite {
    type Core = RwCore;

    ghost begun = { record { phase = rw.Trying want.Exclusive } };

    fn begin() -> RwCore {
        RwCore::try_lock_exclusive()
    }
}

impl<const RECURSIVE: u8> Call for Read<RECURSIVE> {
    type Core = RwCore;

    ghost begun = { record { phase = rw.Locking (want.Shared (RECURSIVE == 1)) } };

    fn begin() -> RwCore {
        RwCore::lock_shared(RECURSIVE == 1)
    }
}

impl Call for StopReading {
    type Core = RwCore;

    ghost begun = { record { phase = rw.UnlockingShared } };

    fn begin() -> RwCore {
        RwCore::unlock_shared()
    }
}

impl Call for Write {
    type Core = RwCore;

    ghost begun = { record { phase = rw.Locking want.Exclusive } };

    fn begin() -> RwCore {
        RwCore::lock_exclusive()
    }
}

impl Call for StopWriting {
    type Core = RwCore;

    ghost begun = { record { phase = rw.UnlockingExclusive false } };

    fn begin() -> RwCore {
        RwCore::unlock_exclusive()
    }
}

impl Call for StopWritingFairly {
    type Core = RwCore;

    ghost begun = { record { phase = rw.UnlockingExclusive true } };

    fn begin() -> RwCore {
        RwCore::unlock_exclusive_fair()
    }
}

impl Call for Downgrade {
    type Core = RwCore;

    ghost begun = { record { phase = rw.Downgrading } };

    fn begin() -> RwCore {
        RwCore::downgrade()
    }
}

impl Call for BumpReader {
    type Core = RwCore;

    ghost begun = { record { phase = rw.BumpingShared } };

    fn begin() -> RwCore {
        RwCore::bump_shared()
    }
}

impl Call for BumpWriter {
    type Core = RwCore;

    ghost begun = { record { phase = rw.BumpingExclusive } };

    fn begin() -> RwCore {
        RwCore::bump_exclusive()
    }
}
