//! Calls at a reader-writer lock, told what they see.

use crate::acts::{change, store, took};
use crate::script::{LAST_READER_WAKES, follow_rw};
use parking_lot_core::ParkToken;
use parking_lot_protocol::{Act, ActResult, CoreAnswer, HAND_OVER, RwCore, SectionAct, TRY_AGAIN};

#[test]
fn a_writer_waits_for_a_reader_and_is_woken(rt: HostRuntime) {
    let mut core = follow_rw(
        &rt,
        RwCore::lock_exclusive(),
        &[
            (ActResult::Start, Act::Load),
            (ActResult::Word(16), Act::Exchange(16, 24)),
            (ActResult::Exchanged, Act::Load),
        ],
    );
    for _round in 0..10 {
        core = follow_rw(
            &rt,
            core,
            &[
                (ActResult::Word(24), Act::Spin),
                (ActResult::Spun(true), Act::Load),
            ],
        );
    }
    follow_rw(&rt, core, LAST_READER_WAKES);
}

#[test]
fn the_last_reader_wakes_the_writer(rt: HostRuntime) {
    let core = follow_rw(
        &rt,
        RwCore::unlock_shared(),
        &[
            (ActResult::Start, Act::Add(18_446_744_073_709_551_600)),
            (ActResult::Before(26), Act::Enter(1)),
            (ActResult::Entered, Act::Section(SectionAct::TakeFirst)),
        ],
    );
    let token = Some(ParkToken(8));
    follow_rw(
        &rt,
        core,
        &[
            (
                took!(token, false),
                Act::FetchAnd(18_446_744_073_709_551_613),
            ),
            (ActResult::Before(10), Act::Section(SectionAct::Leave)),
            (ActResult::Made, Act::Section(SectionAct::Wake)),
            (ActResult::Made, Act::Done(CoreAnswer::Released)),
        ],
    );
}

#[test]
fn a_reader_sleeps_and_is_handed_the_lock(rt: HostRuntime) {
    follow_rw(
        &rt,
        RwCore::lock_shared(false),
        &[
            (ActResult::Start, Act::Load),
            (ActResult::Word(0), Act::Exchange(0, 16)),
            (ActResult::Word(8), Act::Spin),
            (ActResult::Spun(false), Act::Load),
            (ActResult::Word(8), Act::Exchange(8, 9)),
            (ActResult::Exchanged, Act::Enter(0)),
            (ActResult::Entered, Act::Section(SectionAct::Check)),
            (
                ActResult::Word(9),
                Act::Section(SectionAct::Append(ParkToken(16))),
            ),
            (ActResult::Made, Act::Section(SectionAct::Leave)),
            (ActResult::Made, Act::Sleep),
            (ActResult::Woken(HAND_OVER), Act::Done(CoreAnswer::Owned)),
        ],
    );
}

#[test]
fn a_fair_release_hands_the_lock_over(rt: HostRuntime) {
    let core = follow_rw(
        &rt,
        RwCore::unlock_exclusive_fair(),
        &[
            (ActResult::Start, Act::Exchange(8, 0)),
            (ActResult::Word(9), Act::Enter(0)),
            (ActResult::Entered, Act::Section(SectionAct::TakeNext(0))),
        ],
    );
    let token = Some(ParkToken(16));
    let change = change!(0, 16);
    let store = store!(change, change);
    let core = follow_rw(
        &rt,
        core,
        &[
            (took!(token, false), Act::Section(store)),
            (
                ActResult::Stored { fair: false },
                Act::Section(SectionAct::Leave),
            ),
        ],
    );
    assert!(rt; core.wake_token() == HAND_OVER);
    follow_rw(
        &rt,
        core,
        &[
            (ActResult::Made, Act::Section(SectionAct::Wake)),
            (ActResult::Made, Act::Done(CoreAnswer::Released)),
        ],
    );
}

#[test]
fn a_downgrade_lets_others_try(rt: HostRuntime) {
    let core = follow_rw(
        &rt,
        RwCore::downgrade(),
        &[
            (ActResult::Start, Act::Add(8)),
            (ActResult::Before(9), Act::Enter(0)),
            (ActResult::Entered, Act::Section(SectionAct::TakeNext(16))),
        ],
    );
    let token = Some(ParkToken(16));
    let change = change!(u64::MAX - 1, 0);
    let store = store!(change, change);
    let core = follow_rw(&rt, core, &[(took!(token, false), Act::Section(store))]);
    assert!(rt; change.of(17) == 16);
    let core = follow_rw(
        &rt,
        core,
        &[(
            ActResult::Stored { fair: true },
            Act::Section(SectionAct::Leave),
        )],
    );
    assert!(rt; core.wake_token() == TRY_AGAIN);
    follow_rw(
        &rt,
        core,
        &[
            (ActResult::Made, Act::Section(SectionAct::Wake)),
            (ActResult::Made, Act::Done(CoreAnswer::Owned)),
        ],
    );
}

#[test]
fn tries_are_refused(rt: HostRuntime) {
    follow_rw(
        &rt,
        RwCore::try_lock_shared(false),
        &[
            (ActResult::Start, Act::Load),
            (ActResult::Word(26), Act::Done(CoreAnswer::Refused)),
        ],
    );
    for word in [16, 8, 1] {
        follow_rw(
            &rt,
            RwCore::try_lock_exclusive(),
            &[
                (ActResult::Start, Act::Load),
                (ActResult::Word(word), Act::Done(CoreAnswer::Refused)),
            ],
        );
    }
    let mut unlucky = follow_rw(
        &rt,
        RwCore::try_lock_shared(true),
        &[(ActResult::Start, Act::Load)],
    );
    for _try in 0..64 {
        unlucky = follow_rw(&rt, unlucky, &[(ActResult::Word(0), Act::Exchange(0, 16))]);
    }
    follow_rw(
        &rt,
        unlucky,
        &[(ActResult::Word(0), Act::Done(CoreAnswer::Refused))],
    );
}

#[test]
fn bumps_with_and_without_others(rt: HostRuntime) {
    follow_rw(
        &rt,
        RwCore::bump_shared(),
        &[
            (ActResult::Start, Act::Load),
            (ActResult::Word(32), Act::Done(CoreAnswer::Owned)),
        ],
    );
    follow_rw(
        &rt,
        RwCore::bump_shared(),
        &[
            (ActResult::Start, Act::Load),
            (ActResult::Word(40), Act::Add(18_446_744_073_709_551_600)),
            (ActResult::Before(40), Act::Load),
            (ActResult::Word(0), Act::Exchange(0, 16)),
        ],
    );
    follow_rw(
        &rt,
        RwCore::bump_exclusive(),
        &[
            (ActResult::Start, Act::Load),
            (ActResult::Word(9), Act::Exchange(8, 0)),
            (ActResult::Word(9), Act::Enter(0)),
        ],
    );
}

#[test]
fn what_does_not_fit_is_refused(rt: HostRuntime) {
    follow_rw(
        &rt,
        RwCore::lock_shared(false),
        &[
            (ActResult::Made, Act::Done(CoreAnswer::Refused)),
            (ActResult::Start, Act::Done(CoreAnswer::Refused)),
        ],
    );
}
