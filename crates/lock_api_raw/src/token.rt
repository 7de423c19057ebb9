//! The tokens that raw locks issue.
ghost use Rattle.std.specs.Prelude.{◌≡◌};

use std::marker::Model;
use std::snapshot::Snapshot;

/// A token that may be handed to another thread.
///
/// It takes no memory and carries the number of the lock that issued it, which contracts alone see. It is linear: it
/// can be neither copied nor cloned nor dropped, so it is spent, and spent once. A raw lock makes one at each admission
/// and nowhere else, and its release spends it.
///
/// ```text
/// fn try_lock(&self) -> Option<GuardSend> {
///     if self.word.take() { Some(GuardSend::new(&self.number)) } else { None }
/// }
///
/// fn unlock(&self, guard: GuardSend) {
///     guard.spend();
///     self.word.give_back();
/// }
/// ```
pub struct GuardSend {
    lock: Snapshot<u64>,
}

impl Model for GuardSend {
    ghost use Rattle.std.specs.Prelude.{ℕ};

    ghost Value = { ℕ };

    ghost view = { λ token. token.lock.value };
}

impl GuardSend {
    /// A token of the lock with this number. It takes no memory.
    ///
    /// ```text
    /// Some(GuardSend::new(&self.number))
    /// ```
    pub fn new(lock: &u64) -> GuardSend
        ensures { result ≡ lock.now }
    {
        GuardSend {
            lock: Snapshot::of(lock),
        }
    }

    /// Ends the token. It is for the release of the lock that issued it.
    ///
    /// ```text
    /// guard.spend();
    /// ```
    pub fn spend(self) {
        let GuardSend { lock: _ } = self;
    }
}

/// A token for a raw lock whose release has to be made by the thread that was admitted.
///
/// It is linear as [`GuardSend`] is, and carries its lock's number as that does. Nothing is promised of handing it to
/// another thread.
pub struct GuardNoSend {
    token: GuardSend,
}

impl Model for GuardNoSend {
    ghost use Rattle.std.specs.Prelude.{ℕ};

    ghost Value = { ℕ };

    ghost view = { λ guard. guard.token };
}

impl GuardNoSend {
    /// A token of the lock with this number. It takes no memory.
    ///
    /// ```text
    /// Ok(GuardNoSend::new(&self.number))
    /// ```
    pub fn new(lock: &u64) -> GuardNoSend
        ensures { result ≡ lock.now }
    {
        GuardNoSend {
            token: GuardSend::new(lock),
        }
    }

    /// Ends the token. It is for the release of the lock that issued it.
    ///
    /// ```text
    /// guard.spend();
    /// ```
    pub fn spend(self) {
        let GuardNoSend { token } = self;
        token.spend();
    }
}
