//! What a try found.
ghost use Rattle.std.specs.Prelude.{◌≡◌, None, Some, Bool, true, false};
ghost use Rattle.dashmap_guard.specs.Tries.{is_present, is_absent, is_locked, found};
ghost use Rattle.dashmap_guard.specs.declared.try_result.TryResult.TheVariants.{Present};

use std::fmt;
use std::fmt::Debug;

/// What a try on a key found.
///
/// ```rust
/// match map.try_get(&key) {
///     TryResult::Present(guard) => use_it(&*guard),
///     TryResult::Absent => add_it(),
///     TryResult::Locked => come_back_later(),
/// }
/// ```
#[derive(Drop, Debug)]
pub enum TryResult<R> {
    /// The shard was had, and the key is there.
    Present(R),
    /// The shard was had, and the key isn't there.
    Absent,
    /// The shard could not be had.
    Locked,
}

impl<R> TryResult<R> {
    /// Whether the key is there.
    ///
    /// ```text
    /// if map.try_get(&7).is_present() { .. }   // the guard is gone again
    /// ```
    pub fn is_present(&self) -> bool
        ensures { result ≡ is_present self.now }
    {
        match self {
            TryResult::Present(_) => true,
            TryResult::Absent | TryResult::Locked => false,
        }
    }

    /// Whether the shard was had, and the key isn't there.
    ///
    /// ```text
    /// if map.try_get(&7).is_absent() { .. }
    /// ```
    pub fn is_absent(&self) -> bool
        ensures { result ≡ is_absent self.now }
    {
        match self {
            TryResult::Absent => true,
            TryResult::Present(_) | TryResult::Locked => false,
        }
    }

    /// Whether the shard could not be had: another has it, or one of the thread's own guards.
    ///
    /// ```text
    /// if map.try_get(&7).is_locked() { later.push(7); }
    /// ```
    pub fn is_locked(&self) -> bool
        ensures { result ≡ is_locked self.now }
    {
        match self {
            TryResult::Locked => true,
            TryResult::Present(_) | TryResult::Absent => false,
        }
    }

    /// What is there. It has to be there; [`try_unwrap`](TryResult::try_unwrap) asks for nothing.
    ///
    /// ```text
    /// let found = map.try_get(&7);
    /// if found.is_present() { sum = sum.wrapping_add(*found.unwrap()); }
    /// ```
    pub fn unwrap(self) -> R
        requires { is_present self ≡ true }
        ensures { self ≡ Present result }
    {
        match self {
            TryResult::Present(there) => there,
            TryResult::Absent | TryResult::Locked => unreachable!(),
        }
    }

    /// What is there, if it is.
    ///
    /// ```text
    /// let count = map.try_get(&7).try_unwrap().map(|count| *count);
    /// ```
    pub fn try_unwrap(self) -> Option<R>
        ensures { result ≡ found self }
    {
        match self {
            TryResult::Present(there) => Some(there),
            TryResult::Absent | TryResult::Locked => None,
        }
    }
}
