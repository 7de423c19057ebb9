//! The calls of a lock with upgradable holds, as plain data.
ghost use Rattle.std.specs.Prelude.{◌≡◌};
ghost use Rattle.parking_lot_protocol_rw.specs.UpgradeLooks.{LooksRightly, look_of};
ghost use Rattle.parking_lot_protocol_rw.specs.UpgradeRules.{Ended, Follows};
ghost use Rattle.parking_lot_protocol_rw.specs.UpgradeTable.{act_of, next_phase, wakes_with};
ghost use Rattle.parking_lot_protocol_rw.specs.declared.upgrade_phase.Release.TheVariants as release;
ghost use Rattle.parking_lot_protocol_rw.specs.declared.upgrade_phase.UpgradePhase.TheVariants as at;

use crate::upgrade_phase::{Release, UpgradePhase};
use parking_lot_core_model::{FilterOp, ParkToken, UnparkToken};
use parking_lot_protocol::{Act, ActResult, RwCore, SectionAct, TRY_AGAIN, wake_sum};

/// The state of one call at a lock with upgradable holds. It is told what its last act gave, and answers the next one.
///
/// ```text
/// let mut core = UpgradeCore::lock();
/// assert_eq!(rt; core.next(ActResult::Start), Act::Load);
/// assert_eq!(rt; core.next(ActResult::Word(16)), Act::Exchange(16, 36));
/// assert_eq!(rt; core.next(ActResult::Exchanged), Act::Done(CoreAnswer::Owned));
/// ```
#[derive(Clone, Copy)]
pub struct UpgradeCore {
    phase: UpgradePhase,
}

impl UpgradeCore {
    /// A call of shared or exclusive holds.
    pub fn plain(core: RwCore) -> UpgradeCore
        ensures { result.phase ≡ at.Plain core }
    {
        UpgradeCore {
            phase: UpgradePhase::Plain(core),
        }
    }

    /// A call that waits until it has the upgradable hold.
    pub fn lock() -> UpgradeCore
        ensures { result.phase ≡ at.Locking }
    {
        UpgradeCore {
            phase: UpgradePhase::Locking,
        }
    }

    /// A call that asks for the upgradable hold, and doesn't wait.
    pub fn try_lock() -> UpgradeCore
        ensures { result.phase ≡ at.Trying }
    {
        UpgradeCore {
            phase: UpgradePhase::Trying,
        }
    }

    /// A call that gives the upgradable hold up. Whether it hands the lock over to waiters is said where it stores.
    pub fn unlock() -> UpgradeCore
        ensures { result.phase ≡ at.Unlocking release.Plain }
    {
        UpgradeCore {
            phase: UpgradePhase::Unlocking(Release::Plain),
        }
    }

    /// A call that gives the upgradable hold up, and hands the lock over to waiters if there are some.
    pub fn unlock_fair() -> UpgradeCore
        ensures { result.phase ≡ at.Unlocking release.Fair }
    {
        UpgradeCore {
            phase: UpgradePhase::Unlocking(Release::Fair),
        }
    }

    /// A call that lets waiters go first: where there are some it gives the upgradable hold up fairly and asks for it
    /// again.
    pub fn bump() -> UpgradeCore
        ensures { result.phase ≡ at.Bumping }
    {
        UpgradeCore {
            phase: UpgradePhase::Bumping,
        }
    }

    /// A call that makes the upgradable hold the exclusive one, and waits until the readers have left.
    pub fn upgrade() -> UpgradeCore
        ensures { result.phase ≡ at.Upgrading }
    {
        UpgradeCore {
            phase: UpgradePhase::Upgrading,
        }
    }

    /// The same where there are no readers, and it doesn't wait.
    pub fn try_upgrade() -> UpgradeCore
        ensures { result.phase ≡ at.TryingToUpgrade }
    {
        UpgradeCore {
            phase: UpgradePhase::TryingToUpgrade,
        }
    }

    /// A call that makes the upgradable hold a shared one.
    pub fn downgrade() -> UpgradeCore
        ensures { result.phase ≡ at.DowngradingToShared }
    {
        UpgradeCore {
            phase: UpgradePhase::DowngradingToShared,
        }
    }

    /// A call that makes the exclusive hold an upgradable one.
    pub fn downgrade_to_upgradable() -> UpgradeCore
        ensures { result.phase ≡ at.DowngradingToUpgradable }
    {
        UpgradeCore {
            phase: UpgradePhase::DowngradingToUpgradable,
        }
    }

    /// A writer that waits for readers to leave waits no more: it has the upgradable hold again if it had it before,
    /// and else nothing.
    pub fn give_up(from: bool) -> UpgradeCore
        ensures { result.phase ≡ at.GivingUp from }
    {
        UpgradeCore {
            phase: UpgradePhase::GivingUp(from),
        }
    }

    /// Where it stands.
    pub fn phase(&self) -> UpgradePhase
        ensures { result ≡ self.now.phase }
    {
        self.phase
    }

    /// The act that it has asked for. Before it begins it asks for nothing, and says that it is refused.
    pub fn act(&self) -> Act
        ensures { result ≡ act_of self.now.phase }
    {
        self.phase.act()
    }

    /// The token for those that the section has taken, once it has stored.
    pub fn wake_token(&self) -> UnparkToken
        ensures { result ≡ wakes_with self.now.phase }
    {
        match self.phase {
            UpgradePhase::Plain(core) => core.wake_token(),
            UpgradePhase::Frees(_, core) => core.wake_token(),
            UpgradePhase::Owes(_, _, core) => core.wake_token(),
            _ => TRY_AGAIN,
        }
    }

    /// What is done at a waiter with that token where this call goes through a list, and `None` where it doesn't.
    #[tactic(auto, using(crate::proofs::UpgradeLooking::upgrade_looks))]
    pub fn look(&self, token: ParkToken) -> Option<FilterOp>
        ensures answer { result ≡ look_of (act_of self.now.phase) token.0 }
        ensures rules { LooksRightly self.now.phase token.0 result }
    {
        match self.act() {
            Act::Section(SectionAct::TakeNext(sum)) => Some(wake_sum(sum, token)),
            _ => None,
        }
    }

    /// Is told what the last act gave, and answers the next. What doesn't fit the act is met by `Done(Refused)`.
    pub fn next(&mut self, seen: ActResult) -> Act
        ensures phase { self.new.phase ≡ next_phase self.old.phase seen }
        ensures act { result ≡ act_of self.new.phase }
        ensures rules { Follows self.old.phase seen }
        ensures end { Ended self.new.phase }
    {
        self.phase = self.phase.after(seen);
        self.phase.act()
    }
}
