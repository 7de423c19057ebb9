//! All schedules of threads at a condition variable and its mutexes: they come to what calls come to that are made
//! whole, one after another, and to nothing else.

mod crossed;
mod notes;
mod rules;
mod three;
mod watch;

use crate::ends::end_so;
use parking_lot_explorer::{Ask, Calls, Explorer, Pairs, PlainWait, Three, ends, pairs_of};
use parking_lot_world::LockCall;
use std::process::Abort;
use std::test::Fail;
use watch::{M, OTHER, V, WaitWatch};

/// More calls and ends of waits than three threads make.
const MOST_MOVES: u32 = 40;

/// No call at all.
const NONE: Calls = [None; 3];

/// What is found on the way through all schedules.
#[derive(Clone, Copy)]
struct Found {
    states: u64,
    /// Whether sections were open in two buckets at once. A notification's is in two.
    beside: bool,
}

/// Makes all schedules of some threads.
fn explore(
    rt: &(impl AllocGlobal + Abort),
    programs: Three<Calls>,
    threads: usize,
) -> Result<Found, Fail> {
    let watch = WaitWatch {
        programs,
        threads,
        beside: false,
    };
    let found = Explorer::explore(rt, watch)?;
    let wanted = ends(rt, PlainWait::of(programs), MOST_MOVES)?;
    end_so(rt, programs, &found.broken, &found.ends, &wanted);
    Ok(Found {
        states: found.states,
        beside: found.watch.beside,
    })
}

/// Those of some pairs of programs. Were there fewer states than the least, different ones might have been taken for
/// one.
fn search(
    rt: &(impl AllocGlobal + Abort),
    groups: &[Pairs<'_, Calls>],
    least: u64,
) -> Result<(), Fail> {
    let mut states = 0u64;
    for (first, second) in &pairs_of(rt.alloc(), groups)? {
        let found = explore(rt, Three(*first, *second, NONE), 2)?;
        states = states.saturating_add(found.states);
    }
    assert!(rt; states >= least, "{states} states");
    Ok(())
}

/// A call at that lock.
macro_rules! ask_at {
    ($lock:expr, $call:expr) => {
        Some(Ask {
            lock: $lock,
            call: $call,
        })
    };
}

const LOCK: Option<Ask> = ask_at!(M, LockCall::Lock);

const UNLOCK: Option<Ask> = ask_at!(M, LockCall::Unlock);

const WAIT: Option<Ask> = ask_at!(V, LockCall::Wait(M));

const WAIT_UNTIL: Option<Ask> = ask_at!(V, LockCall::WaitUntil(M));

const NOTIFY_ONE: Option<Ask> = ask_at!(V, LockCall::NotifyOne);

const NOTIFY_ALL: Option<Ask> = ask_at!(V, LockCall::NotifyAll);

/// The same with the other mutex.
const LOCK_OTHER: Option<Ask> = ask_at!(OTHER, LockCall::Lock);

const UNLOCK_OTHER: Option<Ask> = ask_at!(OTHER, LockCall::Unlock);

const WAIT_OTHER: Option<Ask> = ask_at!(V, LockCall::Wait(OTHER));

const WAIT_OTHER_UNTIL: Option<Ask> = ask_at!(V, LockCall::WaitUntil(OTHER));

/// Those that wait without a deadline.
const WAITERS: [Calls; 3] = [[LOCK, WAIT, UNLOCK], [LOCK, WAIT, None], [LOCK, WAIT, WAIT]];

/// Those that wait until their deadlines, and one that does so twice.
const TIMED: [Calls; 2] = [[LOCK, WAIT_UNTIL, UNLOCK], [LOCK, WAIT_UNTIL, None]];

const TIMED_TWICE: [Calls; 1] = [[LOCK, WAIT_UNTIL, WAIT_UNTIL]];

/// Those that notify, with the mutex and without it.
const NOTIFIERS: [Calls; 9] = [
    [NOTIFY_ONE, None, None],
    [NOTIFY_ONE, NOTIFY_ONE, None],
    [NOTIFY_ALL, NOTIFY_ONE, None],
    [LOCK, NOTIFY_ONE, UNLOCK],
    [LOCK, NOTIFY_ALL, UNLOCK],
    [LOCK, UNLOCK, NOTIFY_ONE],
    [LOCK, UNLOCK, NOTIFY_ALL],
    [NOTIFY_ONE, LOCK, UNLOCK],
    [LOCK, NOTIFY_ALL, None],
];

/// Those that notify and wait.
const BOTH: [Calls; 4] = [
    [LOCK, WAIT, NOTIFY_ONE],
    [LOCK, NOTIFY_ONE, WAIT],
    [LOCK, NOTIFY_ALL, WAIT_UNTIL],
    [LOCK, WAIT_UNTIL, NOTIFY_ALL],
];

/// Those that wait with the other mutex.
const OTHERS: [Calls; 3] = [
    [LOCK_OTHER, WAIT_OTHER, UNLOCK_OTHER],
    [LOCK_OTHER, WAIT_OTHER_UNTIL, UNLOCK_OTHER],
    [LOCK_OTHER, WAIT_OTHER_UNTIL, NOTIFY_ALL],
];

#[test]
fn of_a_wait_and_notifications(rt: HostRuntime) -> Result<(), Fail> {
    search(&rt, &[Pairs::Between(&WAITERS, &NOTIFIERS)], 79_000)
}

#[test]
fn of_a_timed_wait_and_notifications(rt: HostRuntime) -> Result<(), Fail> {
    search(&rt, &[Pairs::Between(&TIMED, &NOTIFIERS)], 253_000)
}

#[test]
fn of_a_second_timed_wait_and_notifications(rt: HostRuntime) -> Result<(), Fail> {
    search(&rt, &[Pairs::Between(&TIMED_TWICE, &NOTIFIERS)], 403_000)
}

#[test]
fn of_two_that_wait(rt: HostRuntime) -> Result<(), Fail> {
    search(
        &rt,
        &[
            Pairs::Among(&WAITERS),
            Pairs::Between(&WAITERS, &TIMED),
            Pairs::Between(&WAITERS, &TIMED_TWICE),
        ],
        240_000,
    )
}

#[test]
fn of_two_that_wait_until_their_deadlines(rt: HostRuntime) -> Result<(), Fail> {
    search(
        &rt,
        &[Pairs::Among(&TIMED), Pairs::Between(&TIMED_TWICE, &TIMED)],
        664_000,
    )
}

#[test]
fn of_two_that_wait_until_two_deadlines(rt: HostRuntime) -> Result<(), Fail> {
    search(&rt, &[Pairs::Among(&TIMED_TWICE)], 559_000)
}

#[test]
fn of_two_that_wait_and_notify(rt: HostRuntime) -> Result<(), Fail> {
    search(&rt, &[Pairs::Among(&BOTH)], 587_000)
}

#[test]
fn of_one_that_waits_and_notifies_beside_a_wait(rt: HostRuntime) -> Result<(), Fail> {
    search(
        &rt,
        &[
            Pairs::Between(&BOTH, &WAITERS),
            Pairs::Between(&BOTH, &TIMED[..1]),
        ],
        304_000,
    )
}

#[test]
fn of_waits_with_two_mutexes(rt: HostRuntime) -> Result<(), Fail> {
    search(
        &rt,
        &[
            Pairs::Between(&OTHERS, &WAITERS),
            Pairs::Between(&OTHERS, &TIMED),
            Pairs::Between(&OTHERS, &TIMED_TWICE),
        ],
        12_600,
    )
}
