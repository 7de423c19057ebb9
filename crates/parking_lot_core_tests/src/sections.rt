//! Sections of an exclusive lot, step by step.

use crate::script::{
    Answer, BUSY, Call, IS, IS_NOT, Line, Play, WAITS, WRONG, follow_each, stands, woken,
};
use parking_lot_core::UnparkToken;
use std::test::Fail;

/// Thread 1 waits under key 5, and thread 0 is in that key's section.
const ENTERED: &[Line] = &[
    (Call::ParkTimed(1, 5), WAITS),
    (Call::Enter(0, 5), Answer::Done),
];

/// A section is entered once.
const ENTERED_ONCE: &[Line] = &[
    (Call::Status(0), stands!(InSection)),
    (Call::Enter(2, 5), BUSY),
    (Call::Enter(2, 21), BUSY),
    (Call::Enter(0, 9), WRONG),
    (Call::Park(2, 21), BUSY),
    (Call::UnparkAll(5, 1), BUSY),
    (Call::Retire(0), WRONG),
    (Call::Leave(0), Answer::Done),
    (Call::Leave(0), WRONG),
];

/// Steps fit no thread outside.
const STEPS_OUTSIDE: &[Line] = &[
    (Call::Check(2, true), WRONG),
    (Call::TakeNext(2), WRONG),
    (Call::Append(2, false), WRONG),
    (Call::Store(2, 1), WRONG),
    (Call::Leave(2), WRONG),
];

/// Only a leave fits behind a false check.
const CHECKED_IN_VAIN: &[Line] = &[
    (Call::Check(0, false), Answer::Is(false)),
    (Call::Check(0, true), WRONG),
    (Call::Append(0, false), WRONG),
    (Call::TakeNext(0), WRONG),
    (Call::Leave(0), Answer::Done),
    (Call::Status(0), stands!(Running)),
];

/// A thread appends itself.
const APPENDED: &[Line] = &[
    (Call::Check(0, true), IS),
    (Call::Append(0, true), Answer::Done),
    (Call::Status(0), stands!(InSection)),
    (Call::Append(0, true), WRONG),
    (Call::Deadline(0), WRONG),
    (Call::Leave(0), Answer::Done),
    (
        Call::Status(0),
        stands!(Waiting {
            key: 5,
            timed: true
        }),
    ),
    (Call::IsQueue(5, &[1, 0]), IS),
];

/// A waiter is taken and woken.
const TAKEN: &[Line] = &[
    (Call::TakeNext(0), Answer::Taken(Some(1))),
    (Call::TakeNext(0), Answer::Taken(None)),
    (Call::TakeNext(0), WRONG),
    (Call::Resume(1), BUSY),
    (Call::Store(0, 4), Answer::Done),
    (Call::Store(0, 4), WRONG),
    (Call::Leave(0), Answer::Done),
    (Call::Status(1), stands!(Taken(UnparkToken(4)))),
    (Call::Wake(1, 1), IS),
    (Call::Wake(1, 1), IS_NOT),
    (Call::Resume(1), woken!(4)),
];

/// A late wake ends no later sleep.
const WOKEN_LATE: &[Line] = &[
    (Call::TakeNext(0), Answer::Taken(Some(1))),
    (Call::Leave(0), Answer::Done),
    (Call::Deadline(1), Answer::Done),
    (Call::Status(1), stands!(PastDeadline)),
    (Call::Resume(1), woken!(0)),
    (Call::Park(1, 5), WAITS),
    (Call::Enter(0, 5), Answer::Done),
    (Call::TakeNext(0), Answer::Taken(Some(1))),
    (Call::Leave(0), Answer::Done),
    (Call::Wake(1, 0), IS_NOT),
    (Call::Wake(1, 1), IS),
];

/// A section shows on from where it was.
const SHOWN_ON: &[Line] = &[
    (Call::Park(1, 5), WAITS),
    (Call::Park(2, 5), WAITS),
    (Call::Park(3, 5), WAITS),
    (Call::Enter(0, 5), Answer::Done),
    (Call::TakeBehindOne(0), Answer::Taken(Some(2))),
    (Call::TakeNext(0), Answer::Taken(Some(3))),
    (Call::Leave(0), Answer::Done),
    (Call::IsQueue(5, &[1]), IS),
];

/// A sleeper comes back and takes itself out.
const COMES_BACK: &[Line] = &[
    (Call::Park(1, 5), WAITS),
    (Call::Park(2, 5), WAITS),
    (Call::ComeBack(0, 5), WRONG),
    (Call::ComeBack(1, 6), WRONG),
    (Call::Quit(1), WRONG),
    (Call::ComeBack(1, 5), Answer::Done),
    (Call::IsQueue(5, &[1, 2]), IS),
    (Call::Enter(0, 21), BUSY),
    (Call::ComeBack(2, 5), BUSY),
    (Call::Quit(1), Answer::Left(None)),
    (Call::Quit(1), WRONG),
    (Call::Leave(1), Answer::Done),
    (Call::Status(1), stands!(Running)),
    (Call::IsQueue(5, &[2]), IS),
];

/// A sleeper comes back to find itself taken.
const COMES_BACK_TAKEN: &[Line] = &[
    (Call::TakeNext(0), Answer::Taken(Some(1))),
    (Call::Store(0, 4), Answer::Done),
    (Call::Leave(0), Answer::Done),
    (Call::ComeBack(1, 5), Answer::Done),
    (Call::Quit(1), Answer::Left(Some(UnparkToken(4)))),
    (Call::Leave(1), Answer::Done),
    (Call::Wake(1, 1), IS_NOT),
];

const PLAYS: &[Play] = &[
    ("entered once", 8, 3, ENTERED, ENTERED_ONCE),
    ("steps outside", 8, 3, ENTERED, STEPS_OUTSIDE),
    ("checked in vain", 8, 3, ENTERED, CHECKED_IN_VAIN),
    ("appended", 8, 3, ENTERED, APPENDED),
    ("taken", 8, 3, ENTERED, TAKEN),
    ("woken late", 8, 3, ENTERED, WOKEN_LATE),
    ("shown on", 8, 4, &[], SHOWN_ON),
    ("comes back", 8, 3, &[], COMES_BACK),
    ("comes back taken", 8, 3, ENTERED, COMES_BACK_TAKEN),
];

#[test]
fn sections_go_step_by_step(rt: HostRuntime) -> Result<(), Fail> {
    follow_each(&rt, PLAYS)
}
