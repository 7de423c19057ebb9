//! A call at a reader-writer lock whose moment has passed as it slept.
ghost use Rattle.std.specs.Prelude.{◌≡◌};
ghost use Rattle.parking_lot_machine_calls.specs.Stances.{late_rw_act, late_rw_pending, pending_from, quits_as};
ghost use Rattle.parking_lot_machine_calls.specs.Stances.{sleeper_asleep};

use crate::upgrade_views::{rw_asleep, upgrade_asleep};
use parking_lot_protocol::{Act, CoreAnswer, RwCore, RwPhase, SectionAct};
use parking_lot_protocol_rw::{UpgradeCore, UpgradePhase};

/// The bit of a reader-writer lock's word that says that threads wait in its first list.
const PARKED: u64 = 1;

/// A call that sleeps at a reader-writer lock.
#[derive(Clone, Copy)]
pub enum RwSleeper {
    /// It waits for a shared hold or for the exclusive one, or as the next writer until the readers have left.
    Simple(RwCore),
    /// It waits for the upgradable hold, or in an upgrade until the readers have left.
    Upgradable(UpgradeCore),
}

/// Where a call at a reader-writer lock stands whose moment has passed as it slept.
#[derive(Clone, Copy)]
pub enum LateRwPhase {
    /// It comes back into the section of its list. It still stands there, or was taken in the meantime. Where its taker
    /// wakes it first it goes on from where it sleeps.
    Expires(RwSleeper),
    /// It takes itself out of its list.
    Quits(RwSleeper),
    /// As the last one of the first list it masks the parked bit off the word.
    Masks,
    /// It leaves the section of the first list.
    Leaves,
    /// It has given up, and owns nothing.
    GivesUp,
    /// Off the second list, it leaves that one's section, to take its bit back: whether it had the upgradable hold
    /// before.
    LeavesPending(bool),
    /// Back in the section it has found that it was taken: by that thread, and whether it was handed what it wants. It
    /// leaves the section, and goes on as one that was woken.
    WasTaken(RwSleeper, usize, bool),
}

impl RwSleeper {
    /// Whether it sleeps, as each does that a machine keeps.
    pub(crate) fn is_asleep(self) -> bool
        ensures { result ≡ sleeper_asleep self }
    {
        match self {
            RwSleeper::Simple(core) => rw_asleep(core.phase()),
            RwSleeper::Upgradable(core) => upgrade_asleep(core.phase()),
        }
    }

    /// Of one that waits until the readers have left, whether it had the upgradable hold before; `None` of any other.
    pub(crate) fn pending_from(self) -> Option<bool>
        ensures { result ≡ pending_from self }
    {
        match self {
            RwSleeper::Simple(core) => match core.phase() {
                RwPhase::DrainSleeps(_) => Some(false),
                _ => None,
            },
            RwSleeper::Upgradable(core) => match core.phase() {
                UpgradePhase::Drains(_) => Some(true),
                _ => None,
            },
        }
    }
}

impl LateRwPhase {
    /// What it asks for. It comes back, and takes itself out, by acts of its own.
    pub(crate) fn act(self) -> Act
        ensures { result ≡ late_rw_act self }
    {
        match self {
            LateRwPhase::Expires(_) | LateRwPhase::Quits(_) => Act::Sleep,
            LateRwPhase::Masks => Act::FetchAnd(u64::MAX - PARKED),
            LateRwPhase::Leaves | LateRwPhase::LeavesPending(_) => Act::Section(SectionAct::Leave),
            LateRwPhase::WasTaken(_, _, _) => Act::Section(SectionAct::Leave),
            LateRwPhase::GivesUp => Act::Done(CoreAnswer::Refused),
        }
    }

    /// Whether it comes back to the lock's second list.
    pub(crate) fn is_pending(self) -> bool
        ensures { result ≡ late_rw_pending self }
    {
        match self {
            LateRwPhase::Expires(sleeper) | LateRwPhase::Quits(sleeper) => {
                sleeper.pending_from().is_some()
            }
            _ => false,
        }
    }

    /// Off its list: a pending writer leaves the section, and one that wants the lock masks the parked bit first where
    /// nobody is left.
    pub(crate) fn quits(from: Option<bool>, left: bool) -> LateRwPhase
        ensures { result ≡ quits_as from left }
    {
        match from {
            Some(from) => LateRwPhase::LeavesPending(from),
            None if left => LateRwPhase::Leaves,
            None => LateRwPhase::Masks,
        }
    }
}
