//! Calls at locks as data: what each is told stands beside the act that it must ask for then.

use parking_lot_core::ParkToken;
use parking_lot_protocol::timed::{TimedAct, TimedSeen};
use parking_lot_protocol::{Act, ActResult, CoreAnswer, MutexCore, RwCore, SectionAct, TRY_AGAIN};
use parking_lot_protocol_rw::UpgradeCore;
use parking_lot_protocol_rw::timed::TimedRwCore;
use std::process::Abort;

/// What a call is told, and what it must ask for then.
pub type Line = (ActResult, Act);

/// Of a call that asks for the whole lock beside one reader: it sleeps until that reader wakes it, and has the lock.
pub const LAST_READER_WAKES: &[Line] = &[
    (ActResult::Word(24), Act::Exchange(24, 26)),
    (ActResult::Exchanged, Act::Enter(1)),
    (ActResult::Entered, Act::Section(SectionAct::Check)),
    (
        ActResult::Word(26),
        Act::Section(SectionAct::Append(ParkToken(8))),
    ),
    (ActResult::Made, Act::Section(SectionAct::Leave)),
    (ActResult::Made, Act::Sleep),
    (ActResult::Woken(TRY_AGAIN), Act::Load),
    (ActResult::Word(8), Act::Done(CoreAnswer::Owned)),
];

/// Tells a call at a mutex each of these, and looks whether it asks for what it must.
pub fn follow_mutex(rt: &impl Abort, mut core: MutexCore, lines: &[Line]) -> MutexCore {
    for (at, (seen, act)) in lines.iter().enumerate() {
        let is_asked = core.next(*seen) == *act;
        assert!(rt; is_asked, "line {at}");
    }
    core
}

/// The same of a call at a reader-writer lock.
pub fn follow_rw(rt: &impl Abort, mut core: RwCore, lines: &[Line]) -> RwCore {
    for (at, (seen, act)) in lines.iter().enumerate() {
        let is_asked = core.next(*seen) == *act;
        assert!(rt; is_asked, "line {at}");
    }
    core
}

/// The same of a call of an upgradable hold.
pub fn follow_upgrade(rt: &impl Abort, mut core: UpgradeCore, lines: &[Line]) -> UpgradeCore {
    for (at, (seen, act)) in lines.iter().enumerate() {
        let is_asked = core.next(*seen) == *act;
        assert!(rt; is_asked, "line {at}");
    }
    core
}

/// The same of a call that may give up.
pub fn follow_in_time(
    rt: &impl Abort,
    mut core: TimedRwCore,
    lines: &[(TimedSeen, TimedAct)],
) -> TimedRwCore {
    for (at, (seen, act)) in lines.iter().enumerate() {
        let is_asked = core.next(*seen) == *act;
        assert!(rt; is_asked, "line {at}");
    }
    core
}
