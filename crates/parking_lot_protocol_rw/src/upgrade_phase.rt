//! Where a call at a lock with upgradable holds stands.

use parking_lot_protocol::{CoreAnswer, RwCore};

/// What a thread owns of the lock, besides shared holds that a call isn't about.
#[derive(Clone, Copy, PartialEq, Eq, Debug)]
pub enum Hold {
    Nothing,
    Shared,
    Upgradable,
    Exclusive,
}

/// How the upgradable hold is given up: waiters are handed the lock over where the schedule says so, or always; or
/// always, and then it is asked for again.
#[derive(Clone, Copy, PartialEq, Eq, Debug)]
pub enum Release {
    Plain,
    Fair,
    Again,
}

/// Where a call stands: it has asked for the act that the case names, and waits for what it gives.
#[derive(Clone, Copy)]
pub enum UpgradePhase {
    /// A call of shared or exclusive holds.
    Plain(RwCore),
    /// Before a call begins.
    Locking,
    Trying,
    Unlocking(Release),
    Bumping,
    Upgrading,
    TryingToUpgrade,
    DowngradingToShared,
    DowngradingToUpgradable,
    GivingUp(bool),
    /// It asks for the upgradable hold: as for an exclusive one, up to the share that it adds.
    Seeks(RwCore),
    /// A try: a load, and exchanges, of which so many may be made after the next; it is refused.
    TryLoads,
    TryAdmits(u64, u8),
    Refuses,
    /// The hold becomes one that waits for readers to leave, as a writer does.
    Upgrades,
    Drains(RwCore),
    /// The same by a try, where there are no other readers.
    TryUpgradeLoads,
    TryUpgrades(u64, u8),
    /// A bump looks for waiters; it begins to ask again.
    BumpLoads,
    Relocks,
    /// The hold is given up by an exchange from that word, or by a section in which waiters are taken in order.
    UnlockLoads(Release),
    Unlocks(Release, u64),
    Frees(Release, RwCore),
    /// The upgradable hold becomes a shared one, or the exclusive one an upgradable one.
    ToShared,
    ToUpgradable,
    /// One that waits for readers to leave gives up: it had the upgradable hold before, or nothing.
    YieldLoads(bool),
    Yields(bool, u64),
    /// A section in which waiters are taken in order, by one that owns this and ends so.
    Owes(Hold, CoreAnswer, RwCore),
    /// The call is over, or was told what its act can't give.
    Ends(Hold, CoreAnswer),
    Invalid,
}
