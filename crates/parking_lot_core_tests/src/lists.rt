//! What unparks, filters and requeues do with lists.

use crate::script::{Answer, Call, IS, Line, Play, WAITS, follow_each, outcome, took, woken};
use parking_lot_core::{
    DEFAULT_PARK_TOKEN, DEFAULT_UNPARK_TOKEN, ParkToken, RequeueOp, UnparkResult, UnparkToken,
};
use std::test::Fail;

/// Key 1 has threads 0 and 1, and key 2 has thread 2.
const TWO_LISTS: &[Line] = &[
    (Call::Park(0, 1), WAITS),
    (Call::Park(1, 1), WAITS),
    (Call::Park(2, 2), WAITS),
];

/// A filter skips, takes and stops.
const FILTERED: &[Line] = &[
    (Call::Park(0, 4), WAITS),
    (Call::Park(1, 4), WAITS),
    (Call::Park(2, 4), WAITS),
    (Call::UnparkFilter(4, 6), took!(1, 0, true)),
    (Call::IsQueue(4, &[0, 2]), IS),
    (Call::Resume(1), woken!(6)),
];

/// Nothing is shown behind a stop.
const STOPPED: &[Line] = &[(
    Call::UnparkStopping(1),
    Answer::Counted(outcome!(0, 0, true), 1),
)];

/// A requeue from the first list to the second answers so, and these are the lists then.
macro_rules! requeued {
    ($op:ident, $answer:expr, $first:expr, $second:expr) => {
        &[
            (Call::Requeue(1, 2, RequeueOp::$op), $answer),
            (Call::IsQueue(1, $first), IS),
            (Call::IsQueue(2, $second), IS),
        ]
    };
}

/// One is woken, and the rest moved or stays.
const REST_MOVED: &[Line] = requeued!(UnparkOneRequeueRest, took!(1, 1, false), &[], &[2, 1]);

const THE_FIRST_MOVED: &[Line] = requeued!(RequeueOne, took!(0, 1, true), &[1], &[2, 0]);

const ALL_MOVED: &[Line] = requeued!(RequeueAll, took!(0, 2, false), &[], &[2, 0, 1]);

const ONE_WOKEN: &[Line] = requeued!(UnparkOne, took!(1, 0, true), &[1], &[2]);

/// An aborted requeue calls nobody back.
const ABORTED: &[Line] = &[
    (
        Call::RequeueCounting(1, 2, RequeueOp::Abort),
        Answer::Counted(outcome!(0, 0, false), 0),
    ),
    (Call::IsQueue(1, &[0, 1]), IS),
];

/// A list that moves to itself stays.
const MOVED_TO_ITSELF: &[Line] = &[
    (
        Call::Requeue(1, 1, RequeueOp::RequeueAll),
        took!(0, 2, false),
    ),
    (Call::IsQueue(1, &[0, 1]), IS),
];

const ALL_WOKEN: &[Line] = &[
    (Call::UnparkAll(1, 3), Answer::Number(2)),
    (Call::UnparkAll(1, 3), Answer::Number(0)),
    (Call::Resume(1), woken!(3)),
    (Call::IsQueue(2, &[2]), IS),
];

/// A callback is called where nobody waits.
const NOBODY_THERE: &[Line] = &[(
    Call::UnparkCounting(1),
    Answer::Counted(outcome!(0, 0, false), 1),
)];

const PLAYS: &[Play] = &[
    ("filtered", 8, 3, &[], FILTERED),
    ("stopped", 8, 3, TWO_LISTS, STOPPED),
    ("the rest moved", 8, 3, TWO_LISTS, REST_MOVED),
    ("the first moved", 8, 3, TWO_LISTS, THE_FIRST_MOVED),
    ("all moved", 8, 3, TWO_LISTS, ALL_MOVED),
    ("one woken", 8, 3, TWO_LISTS, ONE_WOKEN),
    ("aborted", 8, 3, TWO_LISTS, ABORTED),
    ("moved to itself", 8, 3, TWO_LISTS, MOVED_TO_ITSELF),
    ("all woken", 8, 3, TWO_LISTS, ALL_WOKEN),
    ("nobody there", 8, 1, &[], NOBODY_THERE),
];

#[test]
fn lists_are_as_calls_leave_them(rt: HostRuntime) -> Result<(), Fail> {
    follow_each(&rt, PLAYS)
}

#[test]
fn defaults_are_zero(rt: HostRuntime) {
    let are_zero = (DEFAULT_PARK_TOKEN == ParkToken(0)) & (DEFAULT_UNPARK_TOKEN == UnparkToken(0));
    assert!(rt; are_zero & (UnparkResult::default() == outcome!(0, 0, false)));
}
