//! Calls that may give up, told what they see.

use crate::script::follow_in_time;
use parking_lot_core::ParkToken;
use parking_lot_protocol::timed::{TimedAct, TimedSeen};
use parking_lot_protocol::{Act, ActResult, CoreAnswer, HAND_OVER, SectionAct};
use parking_lot_protocol_rw::timed::TimedRwCore;
use std::process::Abort;

/// What a call sees and does as one that doesn't give up.
macro_rules! plain {
    ($seen:expr, $act:expr) => {
        (TimedSeen::Plain($seen), TimedAct::Makes($act))
    };
}

/// A reader that sleeps behind a writer, as the last in its list or not, and where it stood its moment passes.
fn expires(rt: &impl Abort) -> TimedRwCore {
    follow_in_time(
        rt,
        TimedRwCore::lock_shared_until(false),
        &[
            plain!(ActResult::Start, Act::Load),
            plain!(ActResult::Word(9), Act::Enter(0)),
            plain!(ActResult::Entered, Act::Section(SectionAct::Check)),
            plain!(
                ActResult::Word(9),
                Act::Section(SectionAct::Append(ParkToken(16)))
            ),
            plain!(ActResult::Made, Act::Section(SectionAct::Leave)),
            plain!(ActResult::Made, Act::Sleep),
            (TimedSeen::Expired, TimedAct::Reenters),
            (TimedSeen::Reentered, TimedAct::TakesItself),
        ],
    )
}

#[test]
fn the_last_that_gives_up_masks_the_parked_bit(rt: HostRuntime) {
    let last = expires(&rt);
    follow_in_time(
        &rt,
        last,
        &[
            (TimedSeen::Quit { last: true }, TimedAct::Masks),
            (TimedSeen::Masked, TimedAct::Leaves),
            (TimedSeen::Left, TimedAct::GivesUp),
        ],
    );
    let one_of_several = expires(&rt);
    follow_in_time(
        &rt,
        one_of_several,
        &[
            (TimedSeen::Quit { last: false }, TimedAct::Leaves),
            (TimedSeen::Left, TimedAct::GivesUp),
        ],
    );
}

#[test]
fn one_that_another_took_goes_on(rt: HostRuntime) {
    let taken = expires(&rt);
    follow_in_time(
        &rt,
        taken,
        &[
            (TimedSeen::WasTaken(HAND_OVER), TimedAct::Leaves),
            (
                TimedSeen::Left,
                TimedAct::Makes(Act::Done(CoreAnswer::Owned)),
            ),
        ],
    );
}

/// A call that waits for readers to leave, and its moment passes as it sleeps.
fn gives_up_pending(rt: &impl Abort, core: TimedRwCore, lines: &[(TimedSeen, TimedAct)]) {
    let pending = follow_in_time(rt, core, lines);
    let mut core = pending;
    for _round in 0..10 {
        core = follow_in_time(
            rt,
            core,
            &[
                plain!(ActResult::Word(24), Act::Spin),
                plain!(ActResult::Spun(true), Act::Load),
            ],
        );
    }
    follow_in_time(
        rt,
        core,
        &[
            plain!(ActResult::Word(24), Act::Exchange(24, 26)),
            plain!(ActResult::Exchanged, Act::Enter(1)),
            plain!(ActResult::Entered, Act::Section(SectionAct::Check)),
            plain!(
                ActResult::Word(26),
                Act::Section(SectionAct::Append(ParkToken(8)))
            ),
            plain!(ActResult::Made, Act::Section(SectionAct::Leave)),
            plain!(ActResult::Made, Act::Sleep),
            (TimedSeen::Expired, TimedAct::Reenters),
            (TimedSeen::Reentered, TimedAct::TakesItself),
            (TimedSeen::Quit { last: true }, TimedAct::Leaves),
            (TimedSeen::Left, TimedAct::Makes(Act::Load)),
        ],
    );
}

#[test]
fn a_pending_writer_takes_its_bits_back(rt: HostRuntime) {
    gives_up_pending(
        &rt,
        TimedRwCore::lock_exclusive_until(),
        &[
            plain!(ActResult::Start, Act::Load),
            plain!(ActResult::Word(16), Act::Exchange(16, 24)),
            plain!(ActResult::Exchanged, Act::Load),
        ],
    );
    gives_up_pending(
        &rt,
        TimedRwCore::upgrade_until(),
        &[
            plain!(ActResult::Start, Act::Add(12u64.wrapping_neg())),
            plain!(ActResult::Before(36), Act::Load),
        ],
    );
}
