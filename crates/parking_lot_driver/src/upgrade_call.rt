//! The calls of upgradable holds: which core each begins with.
ghost use Rattle.parking_lot_protocol_rw.specs.declared.upgrade_phase.Release.TheVariants as release;
ghost use Rattle.parking_lot_protocol_rw.specs.declared.upgrade_phase.UpgradePhase.TheVariants as at;

use crate::call::Call;
use parking_lot_protocol_rw::UpgradeCore;

/// Asks for the upgradable hold.
#[derive(Clone, Copy)]
pub struct AskUpgradably;

/// Gives the upgradable hold up.
#[derive(Clone, Copy)]
pub struct Disown;

/// Gives the upgradable hold up, and hands the lock over to the first that wait.
#[derive(Clone, Copy)]
pub struct DisownFairly;

/// Lets those that wait go before one that has the upgradable hold.
#[derive(Clone, Copy)]
pub struct BumpUpgradable;

/// Tries to have the upgradable hold.
#[derive(Clone, Copy)]
pub struct TryToOwnUpgradably;

/// Writes in place of having the upgradable hold.
#[derive(Clone, Copy)]
pub struct Upgrade;

/// The same where nobody else reads, and it doesn't wait.
#[derive(Clone, Copy)]
pub struct TryToUpgrade;

/// Reads in place of having the upgradable hold.
#[derive(Clone, Copy)]
pub struct DowngradeToShared;

/// Has the upgradable hold in place of writing.
#[derive(Clone, Copy)]
pub struct DowngradeToUpgradable;

impl Call for AskUpgradably {
    type Core = UpgradeCore;

    ghost begun = { record { phase = at.Locking } };

    fn begin() -> UpgradeCore {
        UpgradeCore::lock()
    }
}

impl Call for Disown {
    type Core = UpgradeCore;

    ghost begun = { record { phase = at.Unlocking release.Plain } };

    fn begin() -> UpgradeCore {
        UpgradeCore::unlock()
    }
}

impl Call for DisownFairly {
    type Core = UpgradeCore;

    ghost begun = { record { phase = at.Unlocking release.Fair } };

    fn begin() -> UpgradeCore {
        UpgradeCore::unlock_fair()
    }
}

impl Call for BumpUpgradable {
    type Core = UpgradeCore;

    ghost begun = { record { phase = at.Bumping } };

    fn begin() -> UpgradeCore {
        UpgradeCore::bump()
    }
}

impl Call for Upgrade {
    type Core = UpgradeCore;

    ghost begun = { record { phase = at.Upgrading } };

    fn begin() -> UpgradeCore {
        UpgradeCore::upgrade()
    }
}

impl Call for TryToOwnUpgradably {
    type Core = UpgradeCore;

    ghost begun = { record { phase = at.Trying } };

    fn begin() -> UpgradeCore {
        UpgradeCore::try_lock()
    }
}

impl Call for TryToUpgrade {
    type Core = UpgradeCore;

    ghost begun = { record { phase = at.TryingToUpgrade } };

    fn begin() -> UpgradeCore {
        UpgradeCore::try_upgrade()
    }
}

impl Call for DowngradeToShared {
    type Core = UpgradeCore;

    ghost begun = { record { phase = at.DowngradingToShared } };

    fn begin() -> UpgradeCore {
        UpgradeCore::downgrade()
    }
}

impl Call for DowngradeToUpgradable {
    type Core = UpgradeCore;

    ghost begun = { record { phase = at.DowngradingToUpgradable } };

    fn begin() -> UpgradeCore {
        UpgradeCore::downgrade_to_upgradable()
    }
}
