//! The tokens of the raw mutexes. Nobody can make one, so whoever has one got it of a mutex.
ghost use Rattle.std.specs.Prelude.{◌≡◌};

use lock_word::Owner;
use parking_lot_driver::Key;
use std::marker::Model;

/// That a [`RawMutex`](crate::RawMutex) is held: **the one right to it**. It comes from the mutex's word by an exchange
/// that sets bit 0, or is handed over, and its release lays it there again.
///
/// It takes no memory, and carries the name of its mutex and the key of those that want it, which contracts alone see.
/// It may be handed to another thread. It can be neither copied nor dropped, so it is given back, and given back once.
pub struct MutexToken {
    owner: Owner,
    key: Key,
}

impl Model for MutexToken {
    ghost use Rattle.std.specs.Prelude.{ℕ};

    ghost Value = { ℕ × ℕ };

    ghost view = { λ token. (token.owner, token.key.value) };
}

impl MutexToken {
    /// The right to the mutex, and the key.
    #[inline(always)]
    pub(crate) fn into_parts(self) -> (Owner, Key)
        ensures owner { result.0 ≡ self.0 }
        ensures key { result.1.value ≡ self.1 }
    {
        let MutexToken { owner, key } = self;
        (owner, key)
    }

    /// The token for the right to a mutex with this key.
    #[inline(always)]
    pub(crate) fn of(owner: Owner, key: Key) -> MutexToken
        ensures { result ≡ (owner, key.value) }
    {
        MutexToken { owner, key }
    }

    /// The right to the mutex.
    #[inline(always)]
    pub(crate) fn into_owner(self) -> Owner
        ensures { result ≡ self.0 }
    {
        let (owner, key) = self.into_parts();
        key.end();
        owner
    }

    /// Two threads never hold one mutex: a program in which they did could go no further.
    ///
    /// ```text
    /// token.never_two(another);   // of the same mutex: nobody can have both
    /// ```
    pub fn never_two(self, other: MutexToken)
        requires { self.0 ≡ other.0 }
        ensures { ⊥ }
    {
        self.into_owner().never_two(other.into_owner());
    }
}

/// That a [`RawFairMutex`](crate::RawFairMutex) is held, as [`MutexToken`] says it of a mutex.
pub struct FairMutexToken {
    token: MutexToken,
}

impl Model for FairMutexToken {
    ghost use Rattle.std.specs.Prelude.{ℕ};

    ghost Value = { ℕ × ℕ };

    ghost view = { λ guard. guard.token };
}

impl FairMutexToken {
    /// That of a fair mutex for that of the mutex in it.
    #[inline(always)]
    pub(crate) fn new(token: MutexToken) -> FairMutexToken
        ensures { result ≡ token }
    {
        FairMutexToken { token }
    }

    /// That of the mutex in the fair one.
    #[inline(always)]
    pub(crate) fn into_inner(self) -> MutexToken
        ensures { result ≡ self }
    {
        let FairMutexToken { token } = self;
        token
    }
}
