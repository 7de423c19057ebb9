//! How raw locks and raw condition variables are made.
ghost use Rattle.std.specs.Prelude.{◌≡◌, ℕ, IfOk};
ghost use Rattle.lock_api_raw.specs.Limits.{kept_limit};

use crate::fault::TableFull;

/// A raw lock that can be made from a source: a table of lock words, or for a lock without a table the runtime alone.
///
/// The source is a parameter of this trait and no type of a raw lock. A table owns memory, and a type that owns memory
/// may stand in no type that a contract speaks of: by a raw lock's own types a guard would name it.
///
/// ```text
/// let raw: RawMutex<HostRuntime> = RawMutex::new(&table, 1)?;
/// ```
pub trait MakeLock<S> {
    /// How many may hold the lock together: 1 for a mutex.
    ghost limit: { Self → ℕ };

    /// The greatest limit that a lock of this type can keep.
    ghost own_limit: { ℕ };

    /// Makes an unlocked lock whose limit of holds is `readers`, where 0 counts as 1, or the greatest that it can keep
    /// if that is less. `TableFull` is the only refusal, and it takes no memory.
    ///
    /// ```text
    /// let raw: RawMutex<'_, '_, HostRuntime> = RawMutex::new(&table, 1)?;
    /// ```
    fn new(source: S, readers: u64) -> Result<Self, TableFull>
        ensures { IfOk result (λ lock. limit lock ≡ kept_limit own_limit readers) };
}

/// A raw condition variable that can be made from a source.
pub trait MakeCondvar<S> {
    /// Makes a condition variable on which nobody waits. `TableFull` is the only refusal, and it takes no memory.
    ///
    /// ```text
    /// let changed: Condvar<'_, '_, HostRuntime> = Condvar::new(&table)?;   // over a raw one
    /// ```
    fn new(source: S) -> Result<Self, TableFull>;
}
