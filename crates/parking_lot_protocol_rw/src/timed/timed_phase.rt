//! Where a call stands that may give up.
ghost use Rattle.std.specs.Prelude.{◌≡◌};
ghost use Rattle.parking_lot_protocol_rw.specs.Timed.TimedTable.{inner_sleeper, sleeper_of};

use crate::{UpgradeCore, UpgradePhase};
use parking_lot_core_model::UnparkToken;
use parking_lot_protocol::RwPhase;

/// Who sleeps: one that wants the lock; or one that waits for readers to leave, and had the upgradable hold before or
/// nothing.
#[derive(Clone, Copy, PartialEq, Eq, Debug)]
pub enum Sleeper {
    Wanting,
    Pending(bool),
}

/// Where a call that may give up stands: it has asked for the act that the case names, and waits for what it gives.
#[derive(Clone, Copy)]
pub enum TimedRwPhase {
    /// As a call that waits.
    Asks(UpgradeCore),
    /// The moment of this one has passed as it slept: it enters the section again, and takes itself off the list.
    Expires(UpgradeCore),
    Quits(UpgradeCore),
    /// It is off the first list: as the last one it masks the parked bit; it leaves the section, and the call is over.
    Masks,
    Leaves,
    GivesUp,
    /// It is off the second list, and leaves the section.
    LeavesPending(bool),
    /// Another had taken it before: it leaves the section, and goes on as if it were woken with that token.
    Resumes(UpgradeCore, UnparkToken),
}

/// Who sleeps at this phase of a call of shared and exclusive holds, if one does.
fn inner_sleeper(from: bool, phase: RwPhase) -> Option<Sleeper>
    ensures { result ≡ inner_sleeper from phase }
{
    match phase {
        RwPhase::Sleeps(_) => Some(Sleeper::Wanting),
        RwPhase::DrainSleeps(_) => Some(Sleeper::Pending(from)),
        _ => None,
    }
}

/// Who sleeps at this phase, if one does.
pub(crate) fn sleeper_of(phase: UpgradePhase) -> Option<Sleeper>
    ensures { result ≡ sleeper_of phase }
{
    match phase {
        UpgradePhase::Plain(core) | UpgradePhase::Seeks(core) => inner_sleeper(false, core.phase()),
        UpgradePhase::Drains(core) => inner_sleeper(true, core.phase()),
        _ => None,
    }
}
