//! Calls told one thing after the other, and what is said of their threads on the way.

use parking_lot_core_model::ParkToken;
use parking_lot_machine::{
    Act, ActResult, Call, Core, HAND_OVER, LockCall, MutexCore, OwnMode, QueuePosition, RwCore,
    SectionAct, TRY_AGAIN, WakeResult,
};
use std::process::Abort;

/// A thread that owns nothing beside, in a call that was told nothing yet.
fn call_of(core: Core) -> Call {
    Call {
        lock: 0,
        others: 0,
        core,
        spot: QueuePosition::Listed,
        asked: LockCall::Read,
    }
}

/// What a call is told, and how its thread owns the lock then, whether it looks next, is in debt, and sleeps.
type Line = (ActResult, Option<OwnMode>, bool, bool, bool);

/// One that is to wake others has some to wake.
fn is_to_wake(call: &Call) -> bool {
    let act = match &call.core {
        Core::Mutex(core) => core.act(),
        Core::Rw(core) => core.act(),
        Core::Upgrade(core) => core.act(),
        _ => return false,
    };
    act == Act::Section(SectionAct::Wake)
}

fn follow(rt: &impl Abort, call: Call, lines: &[Line]) -> Call {
    let mut call = call;
    for (seen, owns, looks, in_debt, asleep) in lines {
        call = call.told(*seen);
        let is_owned = (call.owns() == *owns) & (call.looks() == *looks);
        let is_about = (call.is_in_debt(is_to_wake(&call)) == *in_debt)
            & (call.is_asleep() == *asleep);
        assert!(rt; is_owned & is_about, "told {seen:?}");
    }
    call
}

/// One that took it off its list has told it so.
fn owns_off_list(rt: &impl Abort, call: Call, told: WakeResult, owns: Option<OwnMode>) {
    let call = Call {
        spot: QueuePosition::Off(3, told),
        ..call
    };
    let is_owned = call.owns() == owns;
    assert!(rt;
        call.is_asleep() & !call.is_in_debt(false) & is_owned,
        "told {told:?}"
    );
}

fn taken(token: usize, left: bool) -> ActResult {
    ActResult::Took {
        token: Some(ParkToken(token)),
        left,
    }
}

const EXCLUSIVE: Option<OwnMode> = Some(OwnMode::Exclusive);

const PENDING: Option<OwnMode> = Some(OwnMode::Pending);

const SHARED: Option<OwnMode> = Some(OwnMode::Shared);

#[test]
fn a_locker_sleeps_and_is_woken(rt: HostRuntime) {
    let asleep = follow(
        &rt,
        call_of(Core::Mutex(MutexCore::lock())),
        &[
            (ActResult::Start, None, false, false, false),
            (ActResult::Word(1), None, false, false, false),
            (ActResult::Spun(false), None, false, false, false),
            (ActResult::Exchanged, None, false, false, false),
            (ActResult::Entered, None, false, true, false),
            (ActResult::Word(3), None, false, true, false),
            (ActResult::Made, None, false, true, false),
            (ActResult::Made, None, false, false, true),
        ],
    );
    owns_off_list(&rt, asleep, WakeResult::Nothing, None);
    owns_off_list(&rt, asleep, WakeResult::TryAgain, None);
    owns_off_list(&rt, asleep, WakeResult::HandedOver, EXCLUSIVE);
    follow(
        &rt,
        asleep,
        &[(ActResult::Woken(HAND_OVER), EXCLUSIVE, false, false, false)],
    );
    follow(
        &rt,
        asleep,
        &[
            (ActResult::Woken(TRY_AGAIN), None, false, true, false),
            (ActResult::Word(0), None, false, true, false),
            (ActResult::Exchanged, EXCLUSIVE, false, false, false),
        ],
    );
}

#[test]
fn an_unlock_is_in_debt_until_it_has_woken_the_first(rt: HostRuntime) {
    follow(
        &rt,
        call_of(Core::Mutex(MutexCore::unlock())),
        &[
            (ActResult::Start, EXCLUSIVE, false, false, false),
            (ActResult::Word(3), EXCLUSIVE, true, false, false),
            (ActResult::Entered, EXCLUSIVE, false, true, false),
            (taken(0, true), EXCLUSIVE, false, true, false),
            (ActResult::Stored { fair: true }, None, false, true, false),
            (ActResult::Made, None, false, true, false),
            (ActResult::Made, None, false, false, false),
        ],
    );
}

#[test]
fn a_writer_is_pending_while_readers_are_left(rt: HostRuntime) {
    follow(
        &rt,
        call_of(Core::Rw(RwCore::lock_exclusive())),
        &[
            (ActResult::Start, None, false, false, false),
            (ActResult::Word(16), None, false, false, false),
            (ActResult::Exchanged, PENDING, false, false, false),
            (ActResult::Word(24), PENDING, false, false, false),
            (ActResult::Spun(false), PENDING, false, false, false),
            (ActResult::Word(24), PENDING, false, false, false),
            (ActResult::Exchanged, PENDING, false, false, false),
            (ActResult::Entered, PENDING, false, true, false),
            (ActResult::Word(26), PENDING, false, true, false),
            (ActResult::Made, PENDING, false, true, false),
            (ActResult::Made, PENDING, false, false, true),
            (ActResult::Woken(TRY_AGAIN), PENDING, false, true, false),
            (ActResult::Word(8), EXCLUSIVE, false, false, false),
        ],
    );
}

/// What one is told until it sleeps, at a lock that a writer owns.
const TO_SLEEP: [ActResult; 9] = [
    ActResult::Start,
    ActResult::Word(8),
    ActResult::Spun(false),
    ActResult::Word(8),
    ActResult::Exchanged,
    ActResult::Entered,
    ActResult::Word(9),
    ActResult::Made,
    ActResult::Made,
];

#[test]
fn a_sleeper_that_was_handed_the_lock_owns_it(rt: HostRuntime) {
    for (core, owns) in [
        (RwCore::lock_shared(false), SHARED),
        (RwCore::lock_exclusive(), PENDING),
    ] {
        let mut call = call_of(Core::Rw(core));
        for seen in TO_SLEEP {
            call = call.told(seen);
        }
        assert!(rt; call.is_asleep() & call.owns().is_none());
        owns_off_list(&rt, call, WakeResult::Nothing, None);
        owns_off_list(&rt, call, WakeResult::TryAgain, None);
        owns_off_list(&rt, call, WakeResult::HandedOver, owns);
    }
}

#[test]
fn a_writer_gives_the_lock_to_two(rt: HostRuntime) {
    follow(
        &rt,
        call_of(Core::Rw(RwCore::unlock_exclusive())),
        &[
            (ActResult::Start, EXCLUSIVE, false, false, false),
            (ActResult::Word(9), EXCLUSIVE, true, false, false),
            (ActResult::Entered, EXCLUSIVE, false, true, false),
            (taken(16, true), EXCLUSIVE, false, true, false),
            (taken(16, false), EXCLUSIVE, false, true, false),
            (ActResult::Stored { fair: false }, None, false, true, false),
            (ActResult::Made, None, false, true, false),
            (ActResult::Made, None, false, true, false),
            (ActResult::Made, None, false, false, false),
        ],
    );
}

#[test]
fn a_downgrade_leaves_a_reader_that_owes_a_look(rt: HostRuntime) {
    follow(
        &rt,
        call_of(Core::Rw(RwCore::downgrade())),
        &[
            (ActResult::Start, EXCLUSIVE, false, false, false),
            (ActResult::Before(9), SHARED, false, true, false),
            (ActResult::Entered, SHARED, false, true, false),
            (taken(16, false), SHARED, false, true, false),
            (ActResult::Stored { fair: true }, SHARED, false, true, false),
            (ActResult::Made, SHARED, false, true, false),
            (ActResult::Made, SHARED, false, false, false),
        ],
    );
}

#[test]
fn the_last_reader_owes_the_pending_writer_a_wake(rt: HostRuntime) {
    follow(
        &rt,
        call_of(Core::Rw(RwCore::unlock_shared())),
        &[
            (ActResult::Start, SHARED, false, false, false),
            (ActResult::Before(26), None, false, true, false),
            (ActResult::Entered, None, false, true, false),
            (taken(8, false), None, false, true, false),
            (ActResult::Before(10), None, false, true, false),
            (ActResult::Made, None, false, true, false),
            (ActResult::Made, None, false, false, false),
        ],
    );
}
