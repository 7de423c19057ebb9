//! Calls of upgradable holds, told what they see.

use crate::acts::{change, store, took};
use crate::script::{LAST_READER_WAKES, follow_upgrade as follow};
use parking_lot_core::ParkToken;
use parking_lot_protocol::{Act, ActResult, CoreAnswer, HAND_OVER, SectionAct, TRY_AGAIN};
use parking_lot_protocol_rw::UpgradeCore;

/// Minus so much, modulo 2^64.
fn less(by: u64) -> u64 {
    by.wrapping_neg()
}

#[test]
fn an_upgradable_owner_comes_in_beside_a_reader(rt: HostRuntime) {
    follow(
        &rt,
        UpgradeCore::lock(),
        &[
            (ActResult::Start, Act::Load),
            (ActResult::Word(16), Act::Exchange(16, 36)),
            (ActResult::Exchanged, Act::Done(CoreAnswer::Owned)),
        ],
    );
}

#[test]
fn one_that_asks_sleeps_and_is_handed_the_lock(rt: HostRuntime) {
    follow(
        &rt,
        UpgradeCore::lock(),
        &[
            (ActResult::Start, Act::Load),
            (ActResult::Word(20), Act::Spin),
            (ActResult::Spun(false), Act::Load),
            (ActResult::Word(20), Act::Exchange(20, 21)),
            (ActResult::Exchanged, Act::Enter(0)),
            (ActResult::Entered, Act::Section(SectionAct::Check)),
            (
                ActResult::Word(21),
                Act::Section(SectionAct::Append(ParkToken(20))),
            ),
            (ActResult::Made, Act::Section(SectionAct::Leave)),
            (ActResult::Made, Act::Sleep),
            (ActResult::Woken(HAND_OVER), Act::Done(CoreAnswer::Owned)),
        ],
    );
}

#[test]
fn a_fair_release_hands_over_to_those_that_fit(rt: HostRuntime) {
    let first = Some(ParkToken(20));
    let third = Some(ParkToken(16));
    let change = change!(u64::MAX - 1, 17);
    let store = store!(change, change);
    let core = follow(
        &rt,
        UpgradeCore::unlock_fair(),
        &[
            (ActResult::Start, Act::Load),
            (ActResult::Word(21), Act::Enter(0)),
            (ActResult::Entered, Act::Section(SectionAct::TakeNext(0))),
            (took!(first, true), Act::Section(SectionAct::TakeNext(20))),
            (took!(third, true), Act::Section(SectionAct::TakeNext(36))),
            (took!(None, true), Act::Section(store)),
            (
                ActResult::Stored { fair: false },
                Act::Section(SectionAct::Leave),
            ),
        ],
    );
    assert!(rt; (change.of(21) == 37) & (core.wake_token() == HAND_OVER));
    follow(
        &rt,
        core,
        &[
            (ActResult::Made, Act::Section(SectionAct::Wake)),
            (ActResult::Made, Act::Section(SectionAct::Wake)),
            (ActResult::Made, Act::Done(CoreAnswer::Released)),
        ],
    );
}

#[test]
fn a_plain_release_tells_them_to_try_again(rt: HostRuntime) {
    let token = Some(ParkToken(8));
    let plain = change!(u64::MAX - 1, less(20));
    let fair = change!(u64::MAX - 1, less(12));
    let core = follow(
        &rt,
        UpgradeCore::unlock(),
        &[
            (ActResult::Start, Act::Load),
            (ActResult::Word(36), Act::Exchange(36, 16)),
            (ActResult::Word(37), Act::Enter(0)),
            (ActResult::Entered, Act::Section(SectionAct::TakeNext(0))),
            (
                took!(token, false),
                Act::Section(SectionAct::Store { plain, fair }),
            ),
            (
                ActResult::Stored { fair: false },
                Act::Section(SectionAct::Leave),
            ),
        ],
    );
    let are_right = (plain.of(37) == 16) & (fair.of(37) == 24);
    assert!(rt; are_right & (core.wake_token() == TRY_AGAIN));
}

#[test]
fn an_upgrade_waits_for_the_readers(rt: HostRuntime) {
    let mut core = follow(
        &rt,
        UpgradeCore::upgrade(),
        &[
            (ActResult::Start, Act::Add(less(12))),
            (ActResult::Before(36), Act::Load),
        ],
    );
    for _round in 0..10 {
        core = follow(
            &rt,
            core,
            &[
                (ActResult::Word(24), Act::Spin),
                (ActResult::Spun(true), Act::Load),
            ],
        );
    }
    follow(&rt, core, LAST_READER_WAKES);
}

#[test]
fn conversions_owe_sleepers_a_look(rt: HostRuntime) {
    follow(
        &rt,
        UpgradeCore::downgrade(),
        &[
            (ActResult::Start, Act::Add(less(4))),
            (ActResult::Before(21), Act::Enter(0)),
            (ActResult::Entered, Act::Section(SectionAct::TakeNext(16))),
        ],
    );
    follow(
        &rt,
        UpgradeCore::downgrade(),
        &[
            (ActResult::Start, Act::Add(less(4))),
            (ActResult::Before(20), Act::Done(CoreAnswer::Owned)),
        ],
    );
    let token = Some(ParkToken(16));
    let keep = change!(u64::MAX - 1, 0);
    let store = store!(keep, keep);
    follow(
        &rt,
        UpgradeCore::downgrade_to_upgradable(),
        &[
            (ActResult::Start, Act::Add(12)),
            (ActResult::Before(9), Act::Enter(0)),
            (ActResult::Entered, Act::Section(SectionAct::TakeNext(20))),
            (took!(token, false), Act::Section(store)),
            (
                ActResult::Stored { fair: true },
                Act::Section(SectionAct::Leave),
            ),
            (ActResult::Made, Act::Section(SectionAct::Wake)),
            (ActResult::Made, Act::Done(CoreAnswer::Owned)),
        ],
    );
}

#[test]
fn tries_are_refused(rt: HostRuntime) {
    for word in [8, 20, 26] {
        follow(
            &rt,
            UpgradeCore::try_lock(),
            &[
                (ActResult::Start, Act::Load),
                (ActResult::Word(word), Act::Done(CoreAnswer::Refused)),
            ],
        );
    }
    follow(
        &rt,
        UpgradeCore::try_upgrade(),
        &[
            (ActResult::Start, Act::Load),
            (ActResult::Word(36), Act::Done(CoreAnswer::Refused)),
        ],
    );
    follow(
        &rt,
        UpgradeCore::try_upgrade(),
        &[
            (ActResult::Start, Act::Load),
            (ActResult::Word(21), Act::Exchange(21, 9)),
            (ActResult::Exchanged, Act::Done(CoreAnswer::Owned)),
        ],
    );
    let mut unlucky = follow(
        &rt,
        UpgradeCore::try_lock(),
        &[(ActResult::Start, Act::Load)],
    );
    for _try in 0..64 {
        unlucky = follow(&rt, unlucky, &[(ActResult::Word(0), Act::Exchange(0, 20))]);
    }
    follow(
        &rt,
        unlucky,
        &[(ActResult::Word(0), Act::Done(CoreAnswer::Refused))],
    );
}

#[test]
fn a_bump_lets_sleepers_go_first(rt: HostRuntime) {
    follow(
        &rt,
        UpgradeCore::bump(),
        &[
            (ActResult::Start, Act::Load),
            (ActResult::Word(36), Act::Done(CoreAnswer::Owned)),
        ],
    );
    let token = None;
    let change = change!(u64::MAX - 1, less(20));
    let store = store!(change, change);
    follow(
        &rt,
        UpgradeCore::bump(),
        &[
            (ActResult::Start, Act::Load),
            (ActResult::Word(21), Act::Enter(0)),
            (ActResult::Entered, Act::Section(SectionAct::TakeNext(0))),
            (took!(token, false), Act::Section(store)),
            (
                ActResult::Stored { fair: false },
                Act::Section(SectionAct::Leave),
            ),
            (ActResult::Made, Act::Load),
            (ActResult::Word(0), Act::Load),
            (ActResult::Word(0), Act::Exchange(0, 20)),
        ],
    );
}
