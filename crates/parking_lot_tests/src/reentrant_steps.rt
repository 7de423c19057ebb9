//! Steps of a thread at a reentrant mutex.

use crate::calls::{Answer, How, Line, Mode, NOTHING, ONE, Step, Tally, Verdict, WRONG, sum};
use crate::held::read_by;
use crate::scene::Scene;
use lock_api::{ReadersFull, ReentrantMutex, ReentrantMutexGuard};
use lock_api_raw::{GetThreadId, RawMutexFair, RawMutexTimed};
use std::sync::Wait;
use std::time::{Clock, Duration, Instant};

/// What is asked for.
fn ask<'m, M, G, R: Clock>(
    mutex: &'m ReentrantMutex<M, G, u64>,
    scene: &Scene<'_, '_, R>,
    how: How,
    party: &mut M::Party,
) -> Result<Option<ReentrantMutexGuard<'m, M, G, u64>>, ReadersFull>
where
    M: RawMutexTimed<Duration = Duration, Instant = Instant> + Drop,
    G: GetThreadId<Party = M::Party> + Drop,
    M::Runtime: Wait,
{
    match how {
        How::Waits => match mutex.lock(party) {
            Ok(guard) => Ok(Some(guard)),
            Err(ReadersFull) => Err(ReadersFull),
        },
        How::Tries => mutex.try_lock(party),
        How::For(micros) => mutex.try_lock_for(Duration::from_micros(micros), scene.rt, party),
        How::Past => mutex.try_lock_until(scene.past, scene.rt, party),
        How::Always => mutex.try_lock_for(Duration::MAX, scene.rt, party),
    }
}

/// Asks for a hold that ends at once.
fn probe<M, G, R: Clock>(
    mutex: &ReentrantMutex<M, G, u64>,
    scene: &Scene<'_, '_, R>,
    how: How,
    party: &mut M::Party,
) -> Answer
where
    M: RawMutexTimed<Duration = Duration, Instant = Instant> + Drop,
    G: GetThreadId<Party = M::Party> + Drop,
    M::Runtime: Wait,
{
    match ask(mutex, scene, how, party) {
        Ok(Some(_guard)) => scene.had(),
        Ok(None) => Answer::Refused,
        Err(ReadersFull) => Answer::Full,
    }
}

/// Makes a step with a hand.
fn make_by<'m, M, G, R: Clock>(
    mutex: &'m ReentrantMutex<M, G, u64>,
    scene: &Scene<'_, '_, R>,
    hand: Option<ReentrantMutexGuard<'m, M, G, u64>>,
    step: Step,
    me: &mut M::Party,
) -> (Option<ReentrantMutexGuard<'m, M, G, u64>>, Answer)
where
    M: RawMutexFair + RawMutexTimed<Duration = Duration, Instant = Instant> + Drop,
    G: GetThreadId<Party = M::Party> + Drop,
    M::Runtime: Wait,
{
    match (hand, step) {
        (None, Step::Ask(Mode::Exclusive, how)) => match ask(mutex, scene, how, me) {
            Ok(Some(guard)) => (Some(guard), Answer::Had),
            Ok(None) => (None, Answer::Refused),
            Err(ReadersFull) => (None, Answer::Full),
        },
        (Some(guard), Step::Do(deed)) => read_by(guard, deed, me),
        (hand, _) => (hand, Answer::Unknown),
    }
}

/// Makes a step for which no hand is needed.
fn look<M, G, R: Clock>(
    mutex: &ReentrantMutex<M, G, u64>,
    scene: &Scene<'_, '_, R>,
    step: Step,
    me: &mut M::Party,
    other: &mut M::Party,
) -> Answer
where
    M: RawMutexTimed<Duration = Duration, Instant = Instant> + Drop,
    G: GetThreadId<Party = M::Party> + Drop,
    M::Runtime: Wait,
{
    match step {
        Step::Probe(Mode::Exclusive, how) => probe(mutex, scene, how, other),
        Step::Nest(Mode::Exclusive, how) => probe(mutex, scene, how, me),
        Step::Aside(what) => {
            let locked = mutex.is_locked();
            scene.look(what, locked, locked)
        }
        _ => Answer::Unknown,
    }
}

/// Follows the lines until one is answered otherwise.
pub fn follow<M, G, R: Clock>(
    mutex: &ReentrantMutex<M, G, u64>,
    scene: &Scene<'_, '_, R>,
    lines: &[Line],
    me: &mut M::Party,
    other: &mut M::Party,
) -> Verdict
where
    M: RawMutexFair + RawMutexTimed<Duration = Duration, Instant = Instant> + Drop,
    G: GetThreadId<Party = M::Party> + Drop,
    M::Runtime: Wait,
{
    let mut first = None;
    let mut second = None;
    for (at, (step, expected)) in lines.iter().enumerate() {
        let answer = match *step {
            Step::Ask(mode, how) => {
                let (held, answer) = make_by(mutex, scene, first, Step::Ask(mode, how), me);
                first = held;
                answer
            }
            Step::Do(deed) => {
                let (held, answer) = make_by(mutex, scene, first, Step::Do(deed), me);
                first = held;
                answer
            }
            Step::AskToo(mode, how) => {
                let (held, answer) = make_by(mutex, scene, second, Step::Ask(mode, how), me);
                second = held;
                answer
            }
            Step::DoToo(deed) => {
                let (held, answer) = make_by(mutex, scene, second, Step::Do(deed), me);
                second = held;
                answer
            }
            step => look(mutex, scene, step, me, other),
        };
        if answer != *expected {
            return Some(at);
        }
    }
    None
}

/// Adds 1 in two steps, the second of them under a hold that is nested in the first one's.
fn add_nested<M, G, R: Clock>(
    mutex: &ReentrantMutex<M, G, u64>,
    scene: &Scene<'_, '_, R>,
    party: &mut M::Party,
) -> Tally
where
    M: RawMutexTimed<Duration = Duration, Instant = Instant> + Drop,
    G: GetThreadId<Party = M::Party> + Drop,
    M::Runtime: Wait,
{
    let Ok(_outer) = mutex.lock(party) else {
        return NOTHING;
    };
    let seen = scene.said();
    std::thread::yield_now();
    match mutex.lock(party) {
        Ok(_inner) => {
            scene.say(seen.wrapping_add(1));
            ONE
        }
        Err(ReadersFull) => WRONG,
    }
}

/// Makes each of the rounds in turn, so many times.
pub fn take_turns<M, G, R: Clock>(
    mutex: &ReentrantMutex<M, G, u64>,
    scene: &Scene<'_, '_, R>,
    times: u32,
    party: &mut M::Party,
) -> Tally
where
    M: RawMutexTimed<Duration = Duration, Instant = Instant> + Drop,
    G: GetThreadId<Party = M::Party> + Drop,
    M::Runtime: Wait,
{
    let mut all = NOTHING;
    for _time in 0..times {
        all = sum(all, add_nested(mutex, scene, party));
    }
    all
}
