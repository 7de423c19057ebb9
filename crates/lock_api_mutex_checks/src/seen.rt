//! What a lock shows to one who looks.

use crate::guard_checks::is_had;
use lock_api::{Mutex, ReentrantMutex, RwLock};
use lock_api_raw::{GetThreadId, RawMutex, RawRwLock};
use std::sync::Wait;

/// How a lock is held, as it shows itself.
#[derive(Clone, Copy, PartialEq)]
pub enum Seen {
    /// It says that nobody holds it, and lets in whoever comes.
    Free,
    /// It says that it is held, and lets in another reader and no writer.
    Read,
    /// It says that it is held, but not alone, and lets in nobody, since it has no room for another reader.
    Full,
    /// It says that it is held alone, and lets in nobody.
    Alone,
    /// What it says isn't how it answers.
    Odd,
}

/// A lock that can be looked at.
pub trait Look {
    /// The runtime that the lock uses to wait.
    type Runtime;

    /// How the lock is held.
    fn look(&self) -> Seen
    where
        Self::Runtime: Wait;
}

impl<R: RawRwLock, T> Look for RwLock<R, T> {
    type Runtime = R::Runtime;

    fn look(&self) -> Seen
    where
        R::Runtime: Wait,
    {
        let reader = is_had(self.try_read());
        let writer = is_had(self.try_write());
        match (self.is_locked(), self.is_locked_exclusive(), reader, writer) {
            (false, false, true, true) => Seen::Free,
            (true, false, true, false) => Seen::Read,
            (true, false, false, false) => Seen::Full,
            (true, true, false, false) => Seen::Alone,
            _ => Seen::Odd,
        }
    }
}

impl<R: RawMutex, T> Look for Mutex<R, T> {
    type Runtime = R::Runtime;

    fn look(&self) -> Seen
    where
        R::Runtime: Wait,
    {
        let admitted = is_had(self.try_lock());
        match (self.is_locked(), admitted) {
            (false, true) => Seen::Free,
            (true, false) => Seen::Alone,
            _ => Seen::Odd,
        }
    }
}

impl<R: RawMutex + Drop, G: GetThreadId<Party = R::Party> + Drop, T> Look
    for ReentrantMutex<R, G, T>
where
    R::Runtime: Wait,
{
    type Runtime = R::Runtime;

    fn look(&self) -> Seen {
        if self.is_locked() {
            Seen::Alone
        } else {
            Seen::Free
        }
    }
}

/// Nobody holds the lock.
pub fn is_free<L: Look>(lock: &L) -> bool
where
    L::Runtime: Wait,
{
    lock.look() == Seen::Free
}

/// Readers hold the lock, and there is room for more.
pub fn is_read<L: Look>(lock: &L) -> bool
where
    L::Runtime: Wait,
{
    lock.look() == Seen::Read
}

/// One holds the lock alone.
pub fn is_alone<L: Look>(lock: &L) -> bool
where
    L::Runtime: Wait,
{
    lock.look() == Seen::Alone
}
