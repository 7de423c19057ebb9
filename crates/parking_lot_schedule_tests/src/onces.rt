//! All schedules of threads at one once: they come to what calls come to that are made whole, one after another, and to
//! nothing else.

mod rules;
mod watch;

use crate::ends::end_so;
use parking_lot_explorer::{Ask, Calls, Explorer, Pairs, PlainOnce, Three, ends, pairs_of};
use parking_lot_world::LockCall;
use std::process::Abort;
use std::test::Fail;
use watch::OnceWatch;

/// No call at all.
const NONE: Calls = [None; 3];

/// Makes all schedules of some threads. Answers how many states there were.
fn explore(
    rt: &(impl AllocGlobal + Abort),
    programs: Three<Calls>,
    threads: usize,
) -> Result<u64, Fail> {
    let found = Explorer::explore(rt, OnceWatch { programs, threads })?;
    let wanted = ends(rt, PlainOnce::of(programs), 7)?;
    end_so(rt, programs, &found.broken, &found.ends, &wanted);
    Ok(found.states)
}

fn asked(call: LockCall) -> Option<Ask> {
    Some(Ask { lock: 0, call })
}

/// Each call that can be made at a once.
const CALLS: [LockCall; 6] = [
    LockCall::CallOnce(true),
    LockCall::CallOnce(false),
    LockCall::CallOnceForce(true),
    LockCall::CallOnceForce(false),
    LockCall::OnceWait,
    LockCall::OnceWaitForce,
];

/// Each call of a thread that makes one.
fn of_one(rt: &impl AllocGlobal) -> Result<Vec<Calls>, Fail> {
    let mut programs = Vec::new(rt.alloc());
    for call in CALLS {
        programs.push([asked(call), None, None])?;
    }
    Ok(programs)
}

/// Each two calls of a thread, six for each first call.
fn of_two(rt: &impl AllocGlobal) -> Result<Vec<Calls>, Fail> {
    let mut programs = Vec::new(rt.alloc());
    for at in 0..36usize {
        let first = CALLS.get(at / 6).copied();
        let then = CALLS.get(at % 6).copied();
        programs.push([first.and_then(asked), then.and_then(asked), None])?;
    }
    Ok(programs)
}

/// Those of so many of the programs, from that one on, each beside itself and all behind it. Were there fewer states
/// than the least, different ones might have been taken for one.
fn search(
    rt: &(impl AllocGlobal + Abort),
    programs: &[Calls],
    count: usize,
    least: u64,
) -> Result<(), Fail> {
    let mut states = 0u64;
    for (first, second) in &pairs_of(rt.alloc(), &[Pairs::FirstOf(programs, count)])? {
        let found = explore(rt, Three(*first, *second, NONE), 2)?;
        states = states.saturating_add(found);
    }
    assert!(rt; states >= least, "{states} states");
    Ok(())
}

/// Those of so many programs of two calls, from that one on.
fn search_two(
    rt: &(impl AllocGlobal + Abort),
    from: usize,
    count: usize,
    least: u64,
) -> Result<(), Fail> {
    let programs = of_two(rt)?;
    search(rt, programs.get(from..).unwrap_or(&[]), count, least)
}

#[test]
fn of_two_calls(rt: HostRuntime) -> Result<(), Fail> {
    search(&rt, &of_one(&rt)?, 6, 14_100)
}

#[test]
fn of_a_call_that_ends_well_and_a_call(rt: HostRuntime) -> Result<(), Fail> {
    search_two(&rt, 0, 2, 201_000)
}

#[test]
fn of_a_call_that_ends_well_and_a_forced_call(rt: HostRuntime) -> Result<(), Fail> {
    search_two(&rt, 2, 2, 365_000)
}

#[test]
fn of_a_call_that_ends_well_and_a_wait(rt: HostRuntime) -> Result<(), Fail> {
    search_two(&rt, 4, 2, 264_000)
}

#[test]
fn of_a_failing_call_and_a_call(rt: HostRuntime) -> Result<(), Fail> {
    search_two(&rt, 6, 2, 566_000)
}

#[test]
fn of_a_failing_call_and_a_forced_call(rt: HostRuntime) -> Result<(), Fail> {
    search_two(&rt, 8, 2, 1_209_000)
}

#[test]
fn of_a_failing_call_and_a_wait(rt: HostRuntime) -> Result<(), Fail> {
    search_two(&rt, 10, 2, 781_000)
}

#[test]
fn of_a_forced_call_that_ends_well_and_one_more(rt: HostRuntime) -> Result<(), Fail> {
    search_two(&rt, 12, 6, 683_000)
}

#[test]
fn of_a_forced_failure_and_one_more(rt: HostRuntime) -> Result<(), Fail> {
    search_two(&rt, 18, 6, 1_337_000)
}

#[test]
fn of_a_wait_and_one_more(rt: HostRuntime) -> Result<(), Fail> {
    search_two(&rt, 24, 6, 54_800)
}

#[test]
fn of_a_forced_wait_and_one_more(rt: HostRuntime) -> Result<(), Fail> {
    search_two(&rt, 30, 6, 20_200)
}

/// One call each of three threads: a failure, a refusal and a forced call; two that wait for a failure; two that wait
/// for an end; a failure, a forced call and a wait.
const OF_THREE: [[LockCall; 3]; 4] = [
    [
        LockCall::CallOnce(false),
        LockCall::CallOnce(true),
        LockCall::CallOnceForce(true),
    ],
    [
        LockCall::CallOnce(false),
        LockCall::OnceWait,
        LockCall::OnceWaitForce,
    ],
    [
        LockCall::CallOnce(true),
        LockCall::OnceWait,
        LockCall::OnceWaitForce,
    ],
    [
        LockCall::CallOnceForce(false),
        LockCall::CallOnceForce(true),
        LockCall::OnceWaitForce,
    ],
];

#[test]
fn of_three_threads(rt: HostRuntime) -> Result<(), Fail> {
    for calls in OF_THREE {
        let [first, second, third] = calls;
        let of = |call| [asked(call), None, None];
        let programs = Three(of(first), of(second), of(third));
        let states = explore(&rt, programs, 3)?;
        assert!(rt; states >= 2_000, "{states} states of {programs:?}");
    }
    Ok(())
}
