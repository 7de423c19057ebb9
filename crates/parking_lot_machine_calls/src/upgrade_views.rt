//! What an upgradable call says of its thread: how it owns the lock now, whether it is in debt, and whether it sleeps.
ghost use Rattle.std.specs.Prelude.{◌≡◌, ℕ, List};
ghost use Rattle.parking_lot_rules.specs.Debts as rw_debts;
ghost use Rattle.parking_lot_protocol_rw.specs.UpgradeRoles as of_upgrade;
ghost use Rattle.parking_lot_machine_calls.specs.CallViews.{are_some, drainer_mode, freer_mode, kept_mode, seeker_mode};
ghost use Rattle.parking_lot_machine_calls.specs.CallViews.{upgrade_looks, upgrade_mode};
ghost use Rattle.parking_lot_machine_calls.specs.Stances.{rw_asleep, upgrade_asleep};
ghost use Rattle.parking_lot_protocol.specs.Positions as positions;

use crate::call_views::rw_in_debt;
use crate::calls::OwnMode;
use crate::seat::{QueuePosition, WakeResult};
use parking_lot_protocol::RwPhase;
use parking_lot_protocol_rw::{Hold, UpgradePhase};

/// How one owns a lock that keeps such a hold.
fn kept_mode(kept: Hold) -> Option<OwnMode>
    ensures { result ≡ kept_mode kept }
{
    match kept {
        Hold::Nothing => None,
        Hold::Shared => Some(OwnMode::Shared),
        Hold::Upgradable => Some(OwnMode::Upgradable),
        Hold::Exclusive => Some(OwnMode::Exclusive),
    }
}

/// How one owns a lock that asks for its upgradable hold: as one that sleeps and was handed it, or not.
fn seeker_mode(phase: RwPhase, spot: QueuePosition) -> Option<OwnMode>
    ensures { result ≡ seeker_mode spot phase }
{
    match (phase, spot) {
        (RwPhase::Sleeps(_), QueuePosition::Off(_, WakeResult::HandedOver)) => {
            Some(OwnMode::Upgradable)
        }
        _ => None,
    }
}

/// How one owns a lock that waits for readers to leave.
fn drainer_mode(phase: RwPhase) -> Option<OwnMode>
    ensures { result ≡ drainer_mode phase }
{
    match phase {
        RwPhase::Ends(_) => Some(OwnMode::Exclusive),
        _ => Some(OwnMode::Pending),
    }
}

/// How one owns a lock that gives its upgradable hold up in a section.
fn freer_mode(phase: RwPhase) -> Option<OwnMode>
    ensures { result ≡ freer_mode phase }
{
    match phase {
        RwPhase::LooksExclusive(_, _) | RwPhase::Scans(_) | RwPhase::Stores(_, _) => {
            Some(OwnMode::Upgradable)
        }
        _ => None,
    }
}

/// How one owns a lock in such a phase.
pub(crate) fn upgrade_mode(phase: UpgradePhase, spot: QueuePosition) -> Option<OwnMode>
    ensures { result ≡ upgrade_mode spot phase }
{
    use UpgradePhase::*;
    match phase {
        Seeks(core) => seeker_mode(core.phase(), spot),
        Drains(core) => drainer_mode(core.phase()),
        Frees(_, core) => freer_mode(core.phase()),
        Owes(kept, _, _) => kept_mode(kept),
        Ends(kept, _) => kept_mode(kept),
        Unlocking(_) | Bumping | Upgrading | TryingToUpgrade => Some(OwnMode::Upgradable),
        DowngradingToShared | Upgrades | TryUpgradeLoads => Some(OwnMode::Upgradable),
        TryUpgrades(_, _) | BumpLoads | ToShared => Some(OwnMode::Upgradable),
        UnlockLoads(_) | Unlocks(_, _) => Some(OwnMode::Upgradable),
        DowngradingToUpgradable | ToUpgradable => Some(OwnMode::Exclusive),
        Plain(_) | Locking | Trying | GivingUp(_) | TryLoads | TryAdmits(_, _) => None,
        YieldLoads(_) | Yields(_, _) => Some(OwnMode::Pending),
        Refuses | Relocks | Invalid => None,
    }
}

/// Whether one is in debt in such a phase: it is inside a section, is still to wake another, as it is told, or was
/// woken to try again.
pub(crate) fn upgrade_in_debt(phase: UpgradePhase, wakes: bool) -> bool
    ensures { (at : positions.QueuePosition) (us : List ℕ) → are_some us ≡ wakes
        → result ≡ rw_debts.is_in_debt (of_upgrade.does at us phase) }
{
    match phase {
        UpgradePhase::Plain(core) => rw_in_debt(core.phase(), wakes),
        UpgradePhase::Seeks(core) => rw_in_debt(core.phase(), wakes),
        UpgradePhase::Drains(core) => rw_in_debt(core.phase(), wakes),
        UpgradePhase::Frees(_, core) => rw_in_debt(core.phase(), wakes),
        UpgradePhase::Owes(_, _, core) => rw_in_debt(core.phase(), wakes),
        _ => false,
    }
}

/// Whether a call of a reader-writer lock sleeps in such a phase.
pub(crate) fn rw_asleep(phase: RwPhase) -> bool
    ensures { result ≡ rw_asleep phase }
{
    match phase {
        RwPhase::Sleeps(_) | RwPhase::DrainSleeps(_) => true,
        _ => false,
    }
}

/// Whether an upgradable call does.
pub(crate) fn upgrade_asleep(phase: UpgradePhase) -> bool
    ensures { result ≡ upgrade_asleep phase }
{
    match phase {
        UpgradePhase::Plain(core) => rw_asleep(core.phase()),
        UpgradePhase::Seeks(core) => rw_asleep(core.phase()),
        UpgradePhase::Drains(core) => rw_asleep(core.phase()),
        UpgradePhase::Frees(_, core) => rw_asleep(core.phase()),
        UpgradePhase::Owes(_, _, core) => rw_asleep(core.phase()),
        _ => false,
    }
}

/// Whether one owns the lock, has found that others wait, and enters a section next to give it up.
pub(crate) fn upgrade_looks(phase: UpgradePhase) -> bool
    ensures { result ≡ upgrade_looks phase }
{
    match phase {
        UpgradePhase::Frees(_, core) => match core.phase() {
            RwPhase::LooksExclusive(_, _) => true,
            _ => false,
        },
        _ => false,
    }
}
