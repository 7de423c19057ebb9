//! How calls begin.
ghost use Rattle.std.specs.Prelude.{◌≡◌};
ghost use Rattle.parking_lot_protocol.specs.declared.mutex_phase.MutexPhase.TheVariants.{Unlocking};
ghost use Rattle.parking_lot_machine_calls.specs.Kinds.{is_recursive};
ghost use Rattle.parking_lot_machine_calls.specs.Beginnings.{AllowedCallsBeginWell, core_of, excludes, holds};
ghost use Rattle.parking_lot_machine_calls.specs.Beginnings.{holds_beside, is_allowed, is_fair, may_share};
ghost use Rattle.parking_lot_machine_calls.specs.Beginnings.{owns_nothing, shares, upgrades};

use crate::calls::{LockCall, LockKind};
use crate::seat::{Core, Hold};
use parking_lot_protocol::{MutexCore, RwCore};
use parking_lot_protocol_rw::UpgradeCore;

impl LockCall {
    /// The core of such a call at a lock of that kind, before it begins.
    pub fn core(&self, kind: LockKind) -> Core
        ensures { result ≡ core_of kind self.now }
    {
        match self {
            LockCall::Lock => Core::Mutex(MutexCore::lock()),
            LockCall::TryLock => Core::Mutex(MutexCore::try_lock()),
            LockCall::LockUntil => Core::Mutex(MutexCore::lock()),
            LockCall::Unlock => Core::Mutex(unlock(kind)),
            LockCall::Read => Core::Rw(RwCore::lock_shared(kind.is_recursive())),
            LockCall::TryRead => Core::Rw(RwCore::try_lock_shared(kind.is_recursive())),
            LockCall::UnlockRead => Core::Rw(RwCore::unlock_shared()),
            LockCall::Write => Core::Rw(RwCore::lock_exclusive()),
            LockCall::TryWrite => Core::Rw(RwCore::try_lock_exclusive()),
            LockCall::UnlockWrite => Core::Rw(RwCore::unlock_exclusive()),
            LockCall::Downgrade => Core::Rw(RwCore::downgrade()),
            LockCall::UpgradableRead => Core::Upgrade(UpgradeCore::lock()),
            LockCall::TryUpgradableRead => Core::Upgrade(UpgradeCore::try_lock()),
            LockCall::UnlockUpgradable => Core::Upgrade(UpgradeCore::unlock()),
            LockCall::Upgrade => Core::Upgrade(UpgradeCore::upgrade()),
            LockCall::TryUpgrade => Core::Upgrade(UpgradeCore::try_upgrade()),
            LockCall::DowngradeToUpgradable => Core::Upgrade(
                UpgradeCore::downgrade_to_upgradable(),
            ),
            LockCall::DowngradeUpgradable => Core::Upgrade(UpgradeCore::downgrade()),
            LockCall::ReadUntil => Core::Rw(RwCore::lock_shared(kind.is_recursive())),
            LockCall::WriteUntil => Core::Rw(RwCore::lock_exclusive()),
            LockCall::UpgradableUntil => Core::Upgrade(UpgradeCore::lock()),
            LockCall::UpgradeUntil => Core::Upgrade(UpgradeCore::upgrade()),
        }
    }
}

impl LockKind {
    /// Whether a thread may read again that reads already, also past a writer.
    fn is_recursive(&self) -> bool
        ensures { result ≡ is_recursive self.now }
    {
        match self {
            LockKind::RwRecursive => true,
            LockKind::Mutex | LockKind::FairMutex | LockKind::Rw => false,
        }
    }
}

/// The core of a call that gives a mutex up: a fair one hands it over.
fn unlock(kind: LockKind) -> MutexCore
    ensures { result ≡ record { phase = Unlocking (is_fair kind) } }
{
    match kind {
        LockKind::FairMutex => MutexCore::unlock_fair(),
        LockKind::Mutex | LockKind::Rw | LockKind::RwRecursive => MutexCore::unlock(),
    }
}

impl Hold {
    /// Whether one that owns a lock of that kind so may ask that of it.
    pub fn allows(&self, kind: LockKind, call: LockCall) -> bool
        ensures { result ≡ is_allowed kind self.now call }
    {
        match call {
            LockCall::Lock | LockCall::TryLock | LockCall::LockUntil => self.is_none(),
            LockCall::Read | LockCall::TryRead => self.may_share(kind),
            LockCall::Write | LockCall::TryWrite => self.is_none(),
            LockCall::UnlockRead => self.shares(),
            LockCall::Unlock | LockCall::UnlockWrite | LockCall::Downgrade => self.excludes(),
            LockCall::UpgradableRead | LockCall::TryUpgradableRead => self.is_none(),
            LockCall::DowngradeToUpgradable => self.excludes(),
            LockCall::UnlockUpgradable | LockCall::Upgrade => self.upgrades(),
            LockCall::TryUpgrade | LockCall::DowngradeUpgradable => self.upgrades(),
            LockCall::ReadUntil => self.may_share(kind),
            LockCall::WriteUntil | LockCall::UpgradableUntil => self.is_none(),
            LockCall::UpgradeUntil => self.upgrades(),
        }
    }

    /// Whether one may read: it owns nothing, or reads already under a recursive lock, with room to count it once more.
    fn may_share(&self, kind: LockKind) -> bool
        ensures { result ≡ may_share kind self.now }
    {
        match (kind, self) {
            (LockKind::RwRecursive, Hold::Shares(holds)) => *holds < 255,
            _ => self.is_none(),
        }
    }

    fn is_none(&self) -> bool
        ensures { result ≡ owns_nothing self.now }
    {
        match self {
            Hold::Shares(holds) => *holds == 0,
            Hold::Excludes | Hold::Upgrades => false,
        }
    }

    fn shares(&self) -> bool
        ensures { result ≡ shares self.now }
    {
        match self {
            Hold::Shares(holds) => *holds > 0,
            Hold::Excludes | Hold::Upgrades => false,
        }
    }

    fn excludes(&self) -> bool
        ensures { result ≡ excludes self.now }
    {
        match self {
            Hold::Shares(_) | Hold::Upgrades => false,
            Hold::Excludes => true,
        }
    }

    fn upgrades(&self) -> bool
        ensures { result ≡ upgrades self.now }
    {
        match self {
            Hold::Shares(_) | Hold::Excludes => false,
            Hold::Upgrades => true,
        }
    }

    /// How many shared holds it is beside the one that a call gives up or asks for.
    pub fn beside(&self, call: LockCall) -> u8
        ensures { result ≡ holds_beside call self.now }
    {
        match call {
            LockCall::Read | LockCall::TryRead | LockCall::ReadUntil => self.holds(),
            _ => self.holds().saturating_sub(1),
        }
    }

    fn holds(&self) -> u8
        ensures { result ≡ holds self.now }
    {
        match self {
            Hold::Shares(holds) => *holds,
            Hold::Excludes | Hold::Upgrades => 0,
        }
    }
}

/// A call that is allowed begins as a step of the rules can: of a thread in the role that it has, outside of sections,
/// with nobody taken.
pub fn allowed_calls_begin_well()
    ensures { AllowedCallsBeginWell }
{}
