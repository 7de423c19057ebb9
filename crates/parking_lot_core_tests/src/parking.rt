//! Sizes, participants and sleeps of an exclusive lot.

use crate::script::{
    Answer, Call, FULL, IS, Line, Play, WAITS, WRONG, follow_each, stands, took, woken,
};
use parking_lot_core::{Lot, LotFault, ParkResult, SizeFault, UnparkToken};
use std::process::Abort;
use std::test::Fail;

const SIZES: &[(usize, Option<SizeFault>)] = &[
    (0, Some(SizeFault::BadSize)),
    (1, None),
    (65_536, None),
    (65_537, Some(SizeFault::BadSize)),
];

#[test]
fn sizes_are_limited(rt: HostRuntime) {
    for (size, fault) in SIZES {
        let made = Lot::new(rt.alloc(), *size, 7).err();
        assert!(rt; made == *fault, "{size} threads");
    }
}

#[test]
fn lots_are_told_apart(rt: HostRuntime) -> Result<(), Fail> {
    let lot = Lot::new(rt.alloc(), 2, 7)?;
    let is_own = lot.same_lot(7, 1);
    let is_other = lot.same_lot(8, 1) | lot.same_lot(7, 2);
    assert!(rt; (lot.number() == 7) & is_own & !is_other);
    Ok(())
}

/// Numbers are given out again.
const NUMBERS: &[Line] = &[
    (Call::Register, Answer::Number(6)),
    (Call::Register, Answer::Number(7)),
    (Call::Register, FULL),
    (Call::Retire(0), Answer::Done),
    (Call::Retire(0), WRONG),
    (Call::Status(0), Answer::Stands(None)),
    (Call::Register, Answer::Number(0)),
];

/// Resources are counted.
const RESOURCES: &[Line] = &[
    (Call::Acquire(1, 9), Answer::Done),
    (Call::Acquire(1, 9), Answer::Done),
    (Call::Release(1, 9), Answer::Done),
    (Call::Release(1, 4), Answer::Done),
    (Call::AreResources(1, &[9]), IS),
    (Call::Acquire(2, 9), WRONG),
    (Call::Release(2, 9), WRONG),
    (Call::AreResources(2, &[]), WRONG),
    (Call::Retire(1), Answer::Done),
    (Call::Register, Answer::Number(1)),
    (Call::AreResources(1, &[]), IS),
];

/// A thread is unparked with a token.
const UNPARKED: &[Line] = &[
    (Call::Park(0, 3), WAITS),
    (
        Call::Status(0),
        stands!(Waiting {
            key: 3,
            timed: false
        }),
    ),
    (Call::Park(0, 3), WRONG),
    (Call::UnparkOne(3, 42), took!(1, 0, false)),
    (Call::Status(0), stands!(Taken(UnparkToken(42)))),
    (Call::Resume(0), woken!(42)),
    (Call::Status(0), stands!(Running)),
];

/// An invalid park leaves the list.
const INVALID: &[Line] = &[
    (
        Call::ParkInvalid(0, 3),
        Answer::Ended(Some(ParkResult::Invalid)),
    ),
    (Call::IsQueue(3, &[]), IS),
    (Call::Status(0), stands!(Running)),
];

/// A deadline ends a timed sleep.
const TIMED_OUT: &[Line] = &[
    (Call::Deadline(0), WRONG),
    (Call::Park(1, 3), WAITS),
    (Call::Deadline(1), WRONG),
    (Call::ParkTimed(0, 3), WAITS),
    (Call::Resume(0), WRONG),
    (Call::Deadline(0), Answer::Done),
    (Call::Status(0), stands!(PastDeadline)),
    (Call::Deadline(0), WRONG),
    (
        Call::Resume(0),
        Answer::Resumed(ParkResult::TimedOut, Some((3, false))),
    ),
    (Call::IsQueue(3, &[1]), IS),
];

/// A late thread that was taken is unparked.
const TAKEN_LATE: &[Line] = &[
    (Call::ParkTimed(0, 3), WAITS),
    (Call::Deadline(0), Answer::Done),
    (Call::UnparkOne(3, 5), took!(1, 0, false)),
    (Call::Status(0), stands!(PastDeadline)),
    (Call::Resume(0), woken!(5)),
];

const PLAYS: &[Play] = &[
    ("numbers", 8, 6, &[], NUMBERS),
    ("resources", 8, 2, &[], RESOURCES),
    ("unparked", 8, 1, &[], UNPARKED),
    ("invalid", 8, 1, &[], INVALID),
    ("timed out", 8, 2, &[], TIMED_OUT),
    ("taken late", 8, 1, &[], TAKEN_LATE),
];

#[test]
fn threads_sleep_and_go_on(rt: HostRuntime) -> Result<(), Fail> {
    follow_each(&rt, PLAYS)
}

/// Whether a refusal has that number and prints that name.
fn is_named(rt: &impl Abort, code: u16, text: &str, name: &str, must: u16) {
    assert!(rt; (code == must) & (text == name), "{name}");
}

const REFUSALS: &[(LotFault, u16, &'static str)] = &[
    (LotFault::TooManyThreads, 11, "TooManyThreads"),
    (LotFault::Busy, 12, "Busy"),
    (LotFault::WrongStatus, 13, "WrongStatus"),
    (LotFault::NoMemory, 99, "NoMemory"),
];

const SIZE_REFUSALS: &[(SizeFault, u16, &'static str)] = &[
    (SizeFault::BadSize, 20, "BadSize"),
    (SizeFault::NoMemory, 99, "NoMemory"),
];

#[test]
fn refusals_have_names_and_numbers(rt: HostRuntime) -> Result<(), Fail> {
    for (fault, code, name) in REFUSALS {
        let text = format!(in rt.alloc(); "{fault}")?;
        is_named(&rt, fault.code(), text.as_str(), name, *code);
    }
    for (fault, code, name) in SIZE_REFUSALS {
        let text = format!(in rt.alloc(); "{fault}")?;
        is_named(&rt, fault.code(), text.as_str(), name, *code);
    }
    Ok(())
}
