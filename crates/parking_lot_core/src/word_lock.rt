//! A small lock without a value.

use std::sync::{Mutex, MutexGuard, Wait};

/// A lock that guards nothing of its own.
///
/// ```text
/// let pass = lock.lock(&rt);
/// lock.unlock(pass);
/// ```
#[derive(Drop)]
pub struct WordLock {
    taken: Mutex<()>,
}

/// What a [`WordLock`] gives whoever has locked it. It can't be copied or let go: it is spent by `unlock`.
pub struct WordLockPass<'l> {
    guard: MutexGuard<'l, ()>,
}

impl WordLock {
    /// Unlocked.
    ///
    /// ```text
    /// let lock = WordLock::new();
    /// ```
    pub fn new() -> WordLock {
        WordLock {
            taken: Mutex::new(()),
        }
    }

    /// Waits until it is unlocked, and locks it.
    ///
    /// Blocks while another has it. A thread that has it and asks again waits for itself for ever.
    ///
    /// ```text
    /// let lock = WordLock::new();
    /// let pass = lock.lock(&rt);
    /// lock.unlock(pass);
    /// ```
    pub fn lock<R: Wait>(&self, rt: &R) -> WordLockPass<'_> {
        WordLockPass {
            guard: self.taken.lock(rt),
        }
    }

    /// Unlocks what the pass has locked. It waits for nobody.
    ///
    /// ```text
    /// let lock = WordLock::new();
    /// let pass = lock.lock(&rt);
    /// lock.unlock(pass);   // the pass is spent
    /// ```
    pub fn unlock(&self, pass: WordLockPass<'_>) {
        let WordLockPass { guard } = pass;
        drop(guard);
    }
}

impl Default for WordLock {
    /// Unlocked.
    fn default() -> WordLock {
        WordLock::new()
    }
}
