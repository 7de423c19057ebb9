//! All schedules of threads at two mutexes that they lock in turn, and of a wait beside a mutex. Their lists are in
//! different buckets: a section of the one may be open while one of the other is, and in each of these searches there
//! are such states.

use super::{LOCK, LOCK_OTHER, NONE, UNLOCK, UNLOCK_OTHER, WAIT, WAIT_UNTIL, explore};
use parking_lot_explorer::{Calls, Pairs, Three, pairs_of};
use std::process::Abort;
use std::test::Fail;

/// Those that lock the one mutex and then the other.
const FORWARDS: [Calls; 3] = [
    [LOCK, LOCK_OTHER, None],
    [LOCK, LOCK_OTHER, UNLOCK],
    [LOCK, LOCK_OTHER, UNLOCK_OTHER],
];

/// Those that lock the other first.
const BACKWARDS: [Calls; 3] = [
    [LOCK_OTHER, LOCK, None],
    [LOCK_OTHER, LOCK, UNLOCK],
    [LOCK_OTHER, LOCK, UNLOCK_OTHER],
];

/// Two threads, each of which may come to own the mutex that the other locks next. They enter sections of both beside
/// each other, and then sleep, or one of them goes on.
#[test]
fn of_two_that_lock_in_opposite_orders(rt: HostRuntime) -> Result<(), Fail> {
    let mut states = 0u64;
    for (first, second) in &pairs_of(rt.alloc(), &[Pairs::Between(&FORWARDS, &BACKWARDS)])? {
        let found = explore(&rt, Three(*first, *second, NONE), 2)?;
        assert!(rt;
            found.beside,
            "both are open at once: {first:?} and {second:?}"
        );
        states = states.saturating_add(found.states);
    }
    assert!(rt; states >= 29_000, "{states} states");
    Ok(())
}

/// Those of three threads, in which sections of both mutexes are open at once in some states. Were there fewer states
/// than that, different ones might have been taken for one.
fn search(rt: &(impl AllocGlobal + Abort), programs: Three<Calls>, least: u64) -> Result<(), Fail> {
    let found = explore(rt, programs, 3)?;
    assert!(rt; found.beside, "both are open at once");
    let states = found.states;
    assert!(rt; states >= least, "{states} states");
    Ok(())
}

/// One thread comes to own both mutexes, and the two others ask for one of them each: their sections are open beside
/// each other.
#[test]
fn of_an_owner_of_both_and_two_that_ask(rt: HostRuntime) -> Result<(), Fail> {
    let [_, _, owner] = FORWARDS;
    let others = [LOCK_OTHER, UNLOCK_OTHER, None];
    search(&rt, Three(owner, [LOCK, UNLOCK, None], others), 34_000)
}

/// Two lock them in opposite orders, beside a third.
#[test]
fn of_two_in_opposite_orders_and_a_third(rt: HostRuntime) -> Result<(), Fail> {
    let [_, _, forwards] = FORWARDS;
    let [_, backwards, _] = BACKWARDS;
    search(
        &rt,
        Three(forwards, backwards, [LOCK, UNLOCK, None]),
        284_000,
    )
}

/// One owns the other mutex and waits with the first, and another asks for the other: its section is open while the
/// variable's is.
#[test]
fn of_a_wait_and_one_that_asks_for_the_other(rt: HostRuntime) -> Result<(), Fail> {
    for wait in [WAIT, WAIT_UNTIL] {
        let found = explore(
            &rt,
            Three([LOCK_OTHER, LOCK, wait], [LOCK_OTHER, None, None], NONE),
            2,
        )?;
        assert!(rt; found.beside, "both are open at once: {wait:?}");
    }
    Ok(())
}
