//! What a guard holds the value by.
ghost use Rattle.std.specs.Prelude.{◌≡◌, refl};
ghost use Rattle.std.specs.Borrow.{Lends, sem};
ghost use Rattle.std.specs.Sync.RwLock.{read_guard_value, write_guard_value, write_guard_with_value};
ghost use Rattle.std.specs.Sync.Mutex.{mutex_guard_value, mutex_guard_with_value};

use std::sync;

/// What lends a value to be read, as a guard does. For the layer above.
///
/// A lender shows one part, and shows the same one until it is changed.
///
/// ```text
/// let value = guard.look();
/// ```
pub trait Lender {
    /// The value that is lent.
    type Part;

    /// The value that a lender lends.
    ghost part: { Self → Self.Part };

    /// Lends the value.
    fn look(&self) -> &Self::Part
        ensures { result.now ≡ part self.now };
}

/// What lends a value to be written, too. For the layer above.
///
/// ```text
/// let value = guard.lend();   // what is left there is what `look` shows next
/// ```
pub trait LenderMut: Lender {
    /// The lender with another value.
    ghost with_part: { Self → Self.Part → Self };

    /// Lends the value for writing. What is left there is what is lent from then on.
    fn lend(&mut self) -> &mut Self::Part
        ensures* writes_back { sem 𝓛 (Lends Self.row Self.Part.row self.entry result (with_part self.old)) }
        ensures value { result.now ≡ Self.part self.old };

    /// What was written is what is lent next.
    ghost reads_written: { (lender : Self) (part : Self.Part) → Self.part (with_part lender part) ≡ part };
}

impl<T> Lender for sync::RwLockReadGuard<'_, T> {
    type Part = T;

    ghost part = { λ guard. read_guard_value guard };

    #[inline(always)]
    fn look(&self) -> &T {
        &**self
    }
}

impl<T> Lender for sync::RwLockWriteGuard<'_, T> {
    type Part = T;

    ghost part = { λ guard. write_guard_value guard };

    #[inline(always)]
    fn look(&self) -> &T {
        &**self
    }
}

impl<T> LenderMut for sync::RwLockWriteGuard<'_, T> {
    ghost with_part = { λ guard. write_guard_with_value guard };

    #[inline(always)]
    fn lend(&mut self) -> &mut T {
        &mut **self
    }

    ghost reads_written = { λ guard part. refl };
}

impl<T> Lender for sync::MutexGuard<'_, T> {
    type Part = T;

    ghost part = { λ guard. mutex_guard_value guard };

    #[inline(always)]
    fn look(&self) -> &T {
        &**self
    }
}

impl<T> LenderMut for sync::MutexGuard<'_, T> {
    ghost with_part = { λ guard. mutex_guard_with_value guard };

    #[inline(always)]
    fn lend(&mut self) -> &mut T {
        &mut **self
    }

    ghost reads_written = { λ guard part. refl };
}
