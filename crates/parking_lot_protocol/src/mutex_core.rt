//! The calls of a mutex, as plain data.
ghost use Rattle.std.specs.Prelude.{◌≡◌, true, false};
ghost use Rattle.parking_lot_protocol.specs.MutexRules.{Ended, Follows};
ghost use Rattle.parking_lot_protocol.specs.MutexTable.{act_of, next_phase, wakes_with};
ghost use Rattle.parking_lot_protocol.specs.declared.mutex_phase.MutexPhase.TheVariants.{Locking, Trying, Unlocking};
ghost use Rattle.parking_lot_protocol.specs.declared.mutex_phase.MutexPhase.TheVariants.{Bumping};

use crate::act::{Act, ActResult, HAND_OVER, TRY_AGAIN};
use crate::mutex_phase::MutexPhase;
use parking_lot_core_model::UnparkToken;

/// The state of one call at a mutex. It is told what its last act gave, and answers the next one.
///
/// ```text
/// let mut core = MutexCore::lock();
/// assert_eq!(rt; core.next(ActResult::Start), Act::Load);
/// assert_eq!(rt; core.next(ActResult::Word(0)), Act::Exchange(0, 1));
/// assert_eq!(rt; core.next(ActResult::Exchanged), Act::Done(CoreAnswer::Owned));
/// ```
#[derive(Clone, Copy)]
pub struct MutexCore {
    phase: MutexPhase,
}

impl MutexCore {
    /// A call that waits until it owns the lock.
    pub fn lock() -> MutexCore
        ensures { result.phase ≡ Locking }
    {
        MutexCore {
            phase: MutexPhase::Locking,
        }
    }

    /// A call that asks for the lock, and doesn't wait.
    pub fn try_lock() -> MutexCore
        ensures { result.phase ≡ Trying }
    {
        MutexCore {
            phase: MutexPhase::Trying,
        }
    }

    /// A call that gives the lock up. Whether it hands it over to the first waiter is said where it stores.
    pub fn unlock() -> MutexCore
        ensures { result.phase ≡ Unlocking false }
    {
        MutexCore {
            phase: MutexPhase::Unlocking(false),
        }
    }

    /// A call that gives the lock up, and hands it over to the first waiter if there is one.
    pub fn unlock_fair() -> MutexCore
        ensures { result.phase ≡ Unlocking true }
    {
        MutexCore {
            phase: MutexPhase::Unlocking(true),
        }
    }

    /// A call that lets waiters go first: where there are some it gives the lock up fairly and asks for it again.
    pub fn bump() -> MutexCore
        ensures { result.phase ≡ Bumping }
    {
        MutexCore {
            phase: MutexPhase::Bumping,
        }
    }

    /// Where it stands.
    pub fn phase(&self) -> MutexPhase
        ensures { result ≡ self.now.phase }
    {
        self.phase
    }

    /// The act that it has asked for. Before it begins it asks for nothing, and says that it is refused.
    pub fn act(&self) -> Act
        ensures { result ≡ act_of self.now.phase }
    {
        self.phase.act()
    }

    /// The token for those that the section has taken, once it has stored.
    pub fn wake_token(&self) -> UnparkToken
        ensures { result ≡ wakes_with self.now.phase }
    {
        match self.phase {
            MutexPhase::Leaves(_, _, true) => HAND_OVER,
            _ => TRY_AGAIN,
        }
    }

    /// Is told what the last act gave, and answers the next. What doesn't fit the act is met by `Done(Refused)`.
    pub fn next(&mut self, seen: ActResult) -> Act
        ensures phase { self.new.phase ≡ next_phase self.old.phase seen }
        ensures act { result ≡ act_of self.new.phase }
        ensures rules { Follows self.old.phase seen }
        ensures end { Ended self.new.phase result }
    {
        self.phase = self.phase.after(seen).unwrap_or(MutexPhase::Invalid);
        self.phase.act()
    }
}
