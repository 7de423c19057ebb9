//! Where calls at a reader-writer lock stand that are upgradable, or whose moment has passed.

use parking_lot_machine::{LateRwPhase, RwSleeper};
use parking_lot_protocol::RwPhase;
use parking_lot_protocol_rw::{Hold, UpgradePhase};

/// Where a call stands whose moment has passed: the number of its case, and where it slept.
#[derive(Clone, Copy, PartialEq)]
pub(crate) struct Tardy {
    case: u8,
    simple: Option<RwPhase>,
    upgradable: Option<Upgradable>,
}

/// One that slept there.
fn has_slept(case: u8, sleeper: RwSleeper) -> Tardy {
    match sleeper {
        RwSleeper::Simple(core) => Tardy {
            case,
            simple: Some(core.phase()),
            upgradable: None,
        },
        RwSleeper::Upgradable(core) => Tardy {
            case,
            simple: None,
            upgradable: Some(Upgradable::of(core.phase())),
        },
    }
}

/// One that is off its list.
fn is_off(case: u8) -> Tardy {
    Tardy {
        case,
        simple: None,
        upgradable: None,
    }
}

impl Tardy {
    pub(crate) fn of(phase: LateRwPhase) -> Tardy {
        match phase {
            LateRwPhase::Expires(sleeper) => has_slept(0, sleeper),
            LateRwPhase::Quits(sleeper) => has_slept(1, sleeper),
            LateRwPhase::Masks => is_off(2),
            LateRwPhase::Leaves => is_off(3),
            LateRwPhase::GivesUp => is_off(4),
            LateRwPhase::LeavesPending(false) => is_off(5),
            LateRwPhase::LeavesPending(true) => is_off(6),
            LateRwPhase::WasTaken(sleeper, _, false) => has_slept(7, sleeper),
            LateRwPhase::WasTaken(sleeper, _, true) => has_slept(8, sleeper),
        }
    }
}

/// Where an upgradable call stands: the number of its case, the call as which it goes on, the word and the count that
/// it looks for, and what its thread keeps.
#[derive(Clone, Copy, PartialEq)]
pub(crate) struct Upgradable {
    case: u8,
    core: Option<RwPhase>,
    word: u64,
    left: u8,
    kept: Option<Hold>,
}

/// One that goes on as a call of shared and exclusive holds, or is over, with what its thread keeps.
fn goes_on(case: u8, core: Option<RwPhase>, kept: Option<Hold>) -> Upgradable {
    Upgradable {
        case,
        core,
        word: 0,
        left: 0,
        kept,
    }
}

/// One that exchanges a word.
fn exchanges(case: u8, word: u64, left: u8) -> Upgradable {
    Upgradable {
        case,
        core: None,
        word,
        left,
        kept: None,
    }
}

impl Upgradable {
    pub(crate) fn of(phase: UpgradePhase) -> Upgradable {
        match phase {
            UpgradePhase::Seeks(core) => goes_on(0, Some(core.phase()), None),
            UpgradePhase::Drains(core) => goes_on(1, Some(core.phase()), None),
            UpgradePhase::Frees(_, core) => goes_on(2, Some(core.phase()), None),
            UpgradePhase::Owes(kept, _, core) => goes_on(3, Some(core.phase()), Some(kept)),
            UpgradePhase::Ends(kept, _) => goes_on(4, None, Some(kept)),
            UpgradePhase::TryAdmits(word, left) => exchanges(5, word, left),
            UpgradePhase::TryUpgrades(word, left) => exchanges(6, word, left),
            UpgradePhase::Unlocks(_, word) => exchanges(7, word, 0),
            UpgradePhase::TryLoads => exchanges(8, 0, 0),
            UpgradePhase::Refuses => exchanges(9, 0, 0),
            UpgradePhase::Upgrades => exchanges(10, 0, 0),
            UpgradePhase::TryUpgradeLoads => exchanges(11, 0, 0),
            UpgradePhase::UnlockLoads(_) => exchanges(12, 0, 0),
            UpgradePhase::ToShared => exchanges(13, 0, 0),
            UpgradePhase::ToUpgradable => exchanges(14, 0, 0),
            UpgradePhase::YieldLoads(from) => exchanges(16, 0, u8::from(from)),
            UpgradePhase::Yields(from, word) => exchanges(17, word, u8::from(from)),
            _ => exchanges(15, 0, 0),
        }
    }
}
