//! Steps of a thread at a mutex.

use crate::calls::{Answer, How, Line, Mode, NOTHING, Round, Step, Tally, Verdict, WRONG, sum};
use crate::held::{add_under, write_by, write_under};
use crate::scene::Scene;
use lock_api::{Mutex, MutexGuard};
use lock_api_raw::{RawMutexFair, RawMutexTimed};
use std::sync::Wait;
use std::time::{Clock, Duration, Instant};

/// What is asked for.
fn ask<'m, M, R: Clock>(
    mutex: &'m Mutex<M, u64>,
    scene: &Scene<'_, '_, R>,
    how: How,
    party: &mut M::Party,
) -> Option<MutexGuard<'m, M, u64>>
where
    M: RawMutexTimed<Duration = Duration, Instant = Instant>,
    M::Runtime: Wait,
{
    match how {
        How::Waits => Some(mutex.lock(party)),
        How::Tries => mutex.try_lock(),
        How::For(micros) => mutex.try_lock_for(Duration::from_micros(micros), scene.rt, party),
        How::Past => mutex.try_lock_until(scene.past, scene.rt, party),
        How::Always => mutex.try_lock_for(Duration::MAX, scene.rt, party),
    }
}

/// Asks for a hold that ends at once.
fn probe<M, R: Clock>(
    mutex: &Mutex<M, u64>,
    scene: &Scene<'_, '_, R>,
    how: How,
    party: &mut M::Party,
) -> Answer
where
    M: RawMutexTimed<Duration = Duration, Instant = Instant>,
    M::Runtime: Wait,
{
    match ask(mutex, scene, how, party) {
        Some(_guard) => scene.had(),
        None => Answer::Refused,
    }
}

/// Makes one step, with what the hand holds.
fn make<'m, M, R: Clock>(
    mutex: &'m Mutex<M, u64>,
    scene: &Scene<'_, '_, R>,
    hand: Option<MutexGuard<'m, M, u64>>,
    step: Step,
    me: &mut M::Party,
    other: &mut M::Party,
) -> (Option<MutexGuard<'m, M, u64>>, Answer)
where
    M: RawMutexFair + RawMutexTimed<Duration = Duration, Instant = Instant>,
    M::Runtime: Wait,
{
    match (hand, step) {
        (None, Step::Ask(Mode::Exclusive, how)) => match ask(mutex, scene, how, me) {
            Some(guard) => (Some(guard), Answer::Had),
            None => (None, Answer::Refused),
        },
        (Some(guard), Step::Do(deed)) => write_by(guard, deed, me),
        (hand, Step::Probe(Mode::Exclusive, how)) => (hand, probe(mutex, scene, how, other)),
        (hand, Step::Aside(what)) => {
            let locked = mutex.is_locked();
            (hand, scene.look(what, locked, locked))
        }
        (hand, _) => (hand, Answer::Unknown),
    }
}

/// Follows the lines until one is answered otherwise.
pub fn follow<M, R: Clock>(
    mutex: &Mutex<M, u64>,
    scene: &Scene<'_, '_, R>,
    lines: &[Line],
    me: &mut M::Party,
    other: &mut M::Party,
) -> Verdict
where
    M: RawMutexFair + RawMutexTimed<Duration = Duration, Instant = Instant>,
    M::Runtime: Wait,
{
    let mut hand = None;
    for (at, (step, expected)) in lines.iter().enumerate() {
        let (held, answer) = make(mutex, scene, hand, *step, me, other);
        hand = held;
        if answer != *expected {
            return Some(at);
        }
    }
    None
}

/// Makes one round.
fn turn<M, R: Clock>(
    mutex: &Mutex<M, u64>,
    scene: &Scene<'_, '_, R>,
    round: Round,
    party: &mut M::Party,
) -> Tally
where
    M: RawMutexTimed<Duration = Duration, Instant = Instant>,
    M::Runtime: Wait,
{
    match round {
        Round::Adds(how) => add_under(ask(mutex, scene, how, party), scene, how, None),
        Round::AddsAt(how, word) => {
            add_under(ask(mutex, scene, how, party), scene, how, Some(word))
        }
        Round::Writes(how) => write_under(ask(mutex, scene, how, party), scene),
        _ => WRONG,
    }
}

/// Makes each of the rounds in turn, so many times.
pub fn take_turns<M, R: Clock>(
    mutex: &Mutex<M, u64>,
    scene: &Scene<'_, '_, R>,
    rounds: &[Round],
    times: u32,
    party: &mut M::Party,
) -> Tally
where
    M: RawMutexTimed<Duration = Duration, Instant = Instant>,
    M::Runtime: Wait,
{
    let mut all = NOTHING;
    for _time in 0..times {
        for round in rounds {
            all = sum(all, turn(mutex, scene, *round, party));
        }
    }
    all
}
