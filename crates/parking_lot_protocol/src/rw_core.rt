//! The calls of a reader-writer lock, as plain data.
ghost use Rattle.std.specs.Prelude.{◌≡◌, true, false};
ghost use Rattle.parking_lot_protocol.specs.declared.rw_phase.LockMode.TheVariants as want;
ghost use Rattle.parking_lot_protocol.specs.declared.rw_phase.RwPhase.TheVariants.{Locking, Trying, UnlockingShared};
ghost use Rattle.parking_lot_protocol.specs.declared.rw_phase.RwPhase.TheVariants.{UnlockingExclusive, Downgrading};
ghost use Rattle.parking_lot_protocol.specs.declared.rw_phase.RwPhase.TheVariants.{BumpingShared, BumpingExclusive};
ghost use Rattle.parking_lot_protocol.specs.RwRules.{Ended, Follows};
ghost use Rattle.parking_lot_protocol.specs.RwTable.{act_of, next_phase, wakes_with};

use crate::act::{Act, ActResult, HAND_OVER, TRY_AGAIN};
use crate::rw_phase::{LockMode, RwPhase};
use parking_lot_core_model::UnparkToken;

/// The state of one call at a reader-writer lock. It is told what its last act gave, and answers the next one.
///
/// ```text
/// let mut core = RwCore::lock_shared(false);
/// assert_eq!(rt; core.next(ActResult::Start), Act::Load);
/// assert_eq!(rt; core.next(ActResult::Word(16)), Act::Exchange(16, 32));
/// assert_eq!(rt; core.next(ActResult::Exchanged), Act::Done(CoreAnswer::Owned));
/// ```
#[derive(Clone, Copy)]
pub struct RwCore {
    phase: RwPhase,
}

impl RwCore {
    /// A call that waits until it has a shared hold. On a recursive lock one that has a hold may ask again.
    pub fn lock_shared(recursive: bool) -> RwCore
        ensures { result.phase ≡ Locking (want.Shared recursive) }
    {
        RwCore {
            phase: RwPhase::Locking(LockMode::Shared(recursive)),
        }
    }

    /// A call that asks for a shared hold, and doesn't wait.
    pub fn try_lock_shared(recursive: bool) -> RwCore
        ensures { result.phase ≡ Trying (want.Shared recursive) }
    {
        RwCore {
            phase: RwPhase::Trying(LockMode::Shared(recursive)),
        }
    }

    /// A call that gives a shared hold up.
    pub fn unlock_shared() -> RwCore
        ensures { result.phase ≡ UnlockingShared }
    {
        RwCore {
            phase: RwPhase::UnlockingShared,
        }
    }

    /// A call that waits until it has the exclusive hold.
    pub fn lock_exclusive() -> RwCore
        ensures { result.phase ≡ Locking want.Exclusive }
    {
        RwCore {
            phase: RwPhase::Locking(LockMode::Exclusive),
        }
    }

    /// A call that asks for the exclusive hold, and doesn't wait.
    pub fn try_lock_exclusive() -> RwCore
        ensures { result.phase ≡ Trying want.Exclusive }
    {
        RwCore {
            phase: RwPhase::Trying(LockMode::Exclusive),
        }
    }

    /// A call that gives the exclusive hold up. Whether it hands the lock over to waiters is said where it stores.
    pub fn unlock_exclusive() -> RwCore
        ensures { result.phase ≡ UnlockingExclusive false }
    {
        RwCore {
            phase: RwPhase::UnlockingExclusive(false),
        }
    }

    /// A call that gives the exclusive hold up, and hands the lock over to waiters if there are some.
    pub fn unlock_exclusive_fair() -> RwCore
        ensures { result.phase ≡ UnlockingExclusive true }
    {
        RwCore {
            phase: RwPhase::UnlockingExclusive(true),
        }
    }

    /// A call that makes the exclusive hold a shared one.
    pub fn downgrade() -> RwCore
        ensures { result.phase ≡ Downgrading }
    {
        RwCore {
            phase: RwPhase::Downgrading,
        }
    }

    /// A call that lets a writer go first: where one waits or owns the lock it gives its shared hold up and asks for
    /// one again.
    pub fn bump_shared() -> RwCore
        ensures { result.phase ≡ BumpingShared }
    {
        RwCore {
            phase: RwPhase::BumpingShared,
        }
    }

    /// A call that lets waiters go first: where there are some it gives the exclusive hold up fairly and asks for it
    /// again.
    pub fn bump_exclusive() -> RwCore
        ensures { result.phase ≡ BumpingExclusive }
    {
        RwCore {
            phase: RwPhase::BumpingExclusive,
        }
    }

    /// Where it stands.
    pub fn phase(&self) -> RwPhase
        ensures { result ≡ self.now.phase }
    {
        self.phase
    }

    /// The act that it has asked for. Before it begins it asks for nothing, and says that it is refused.
    pub fn act(&self) -> Act
        ensures { result ≡ act_of self.now.phase }
    {
        self.phase.act()
    }

    /// The token for those that the section has taken, once it has stored.
    pub fn wake_token(&self) -> UnparkToken
        ensures { result ≡ wakes_with self.now.phase }
    {
        match self.phase {
            RwPhase::Leaves(_, _, true) => HAND_OVER,
            _ => TRY_AGAIN,
        }
    }

    /// Is told what the last act gave, and answers the next. What doesn't fit the act is met by `Done(Refused)`.
    pub fn next(&mut self, seen: ActResult) -> Act
        ensures phase { self.new.phase ≡ next_phase self.old.phase seen }
        ensures act { result ≡ act_of self.new.phase }
        ensures rules { Follows self.old.phase seen }
        ensures end { Ended self.new.phase }
    {
        self.phase = self.phase.after(seen).unwrap_or(RwPhase::Invalid);
        self.phase.act()
    }
}
