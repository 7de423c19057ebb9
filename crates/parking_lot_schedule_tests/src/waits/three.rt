//! All schedules of three threads. A step that nobody else sees is made at once, as its order to steps of others
//! changes nothing.

use super::{
    LOCK, LOCK_OTHER, NOTIFY_ALL, NOTIFY_ONE, UNLOCK, UNLOCK_OTHER, WAIT, WAIT_OTHER, WAIT_UNTIL,
    explore,
};
use parking_lot_explorer::{Calls, Three};
use std::process::Abort;
use std::test::Fail;

/// One that waits, and one that waits until its deadline.
const WAITER: Calls = [LOCK, WAIT, UNLOCK];

const TIMED: Calls = [LOCK, WAIT_UNTIL, UNLOCK];

/// Those that notify once, without the mutex.
const ONE: Calls = [NOTIFY_ONE, None, None];

const ALL: Calls = [NOTIFY_ALL, None, None];

/// Makes all schedules of three threads. Were there fewer states than that, different ones might have been taken for
/// one.
fn search(
    rt: &(impl AllocGlobal + Abort),
    first: Calls,
    second: Calls,
    third: Calls,
    least: u64,
) -> Result<(), Fail> {
    let states = explore(rt, Three(first, second, third), 3)?.states;
    assert!(rt; states >= least, "{states} states");
    Ok(())
}

#[test]
fn of_two_waits_and_one_notification(rt: HostRuntime) -> Result<(), Fail> {
    search(&rt, WAITER, TIMED, ONE, 295_000)
}

#[test]
fn of_two_waits_and_one_notification_with_the_mutex(rt: HostRuntime) -> Result<(), Fail> {
    search(&rt, WAITER, WAITER, [LOCK, NOTIFY_ONE, UNLOCK], 524_000)
}

#[test]
fn of_two_waits_and_two_notifications(rt: HostRuntime) -> Result<(), Fail> {
    search(&rt, WAITER, WAITER, [NOTIFY_ONE, NOTIFY_ONE, None], 420_000)
}

#[test]
fn of_two_waits_and_a_notification_of_all(rt: HostRuntime) -> Result<(), Fail> {
    search(&rt, WAITER, TIMED, ALL, 322_000)
}

#[test]
fn of_two_waits_and_a_notification_of_all_with_the_mutex(rt: HostRuntime) -> Result<(), Fail> {
    search(&rt, WAITER, WAITER, [LOCK, NOTIFY_ALL, UNLOCK], 528_000)
}

#[test]
fn of_a_wait_and_two_that_notify(rt: HostRuntime) -> Result<(), Fail> {
    search(&rt, TIMED, ONE, ALL, 2_100)
}

#[test]
fn of_waits_with_two_mutexes_and_a_notification(rt: HostRuntime) -> Result<(), Fail> {
    search(
        &rt,
        TIMED,
        [LOCK_OTHER, WAIT_OTHER, UNLOCK_OTHER],
        ALL,
        5_200,
    )
}
