//! How a case is played: in each way that it may be, line by line.

use crate::checked::is_text;
use crate::search::plain;
use crate::seen::write_seen;
use crate::traced::Traced;
use crate::worlds::{calls_of, go, world_of};
use mapworld::WorldNewFault;
use mapworld_text::{Case, Line, Order, View};
use std::alloc::{AllocError, Global};
use std::fmt;

/// How a case comes to its end.
#[derive(Clone, Copy, PartialEq, Eq)]
pub(crate) enum Ending {
    Round,
    Drain,
}

/// How a case is played: its ending, and the threads whose steps are fair, as bits.
#[derive(Clone, Copy)]
pub struct Way {
    pub(crate) ending: Ending,
    pub(crate) fair: u64,
}

impl fmt::Display for Way {
    fn fmt<W: fmt::Write>(&self, f: &mut fmt::Formatter<W>) -> fmt::Result {
        let fair = self.fair;
        match self.ending {
            Ending::Round => write!(f, "by rounds, fair {fair:b}"),
            Ending::Drain => write!(f, "by drains, fair {fair:b}"),
        }
    }
}

/// What isn't as it is to be.
#[derive(Drop)]
pub struct Failure {
    /// Which of the case's lines; one more than there are for the world itself.
    pub line: usize,
    pub way: Way,
    pub found: String,
}

/// Runs one step of each of these threads, and writes how that is answered.
fn write_run(traced: &mut Traced, threads: &[usize], out: &mut String) -> Result<(), AllocError> {
    let mut steps = Vec::with_capacity(traced.alloc, threads.len())?;
    for thread in threads {
        steps.push(plain(*thread))?;
    }
    let before = traced.world.steps();
    match go(&mut traced.world, &steps) {
        Ok(()) => out.push_str("done"),
        Err(fault) => {
            let made = traced.world.steps().saturating_sub(before);
            if made != fault.done() {
                write!(out, "{made} steps, ")?;
            }
            write!(out, "refused {} {}", fault.name(), fault.done())
        }
    }
}

/// Steps a thread until that is seen, 50 steps at the most.
fn step_until(
    traced: &mut Traced,
    case: &Case<'_>,
    thread: usize,
    view: View,
    want: &[&str],
) -> Result<bool, AllocError> {
    for _ in 0..50 {
        let mut found = String::new(traced.alloc);
        write_seen(traced, case, view, &mut found)?;
        if is_text(found.as_str(), want, false) {
            return Ok(true);
        }
        let _ = traced.step(thread, false)?;
    }
    Ok(false)
}

/// Comes to the end, where all is at rest.
fn ends(traced: &mut Traced, case: &Case<'_>, ending: Ending) -> Result<bool, AllocError> {
    let is_done = match ending {
        Ending::Round => traced.step_round()?,
        Ending::Drain => traced.drains()?,
    };
    Ok(is_done && traced.is_at_rest(calls_of(case)))
}

/// Whether a line is carried out or seen; what is found instead is written. A drain's words aren't seen one by one.
fn holds(
    traced: &mut Traced,
    case: &Case<'_>,
    ending: Ending,
    line: &Line<'_>,
    found: &mut String,
) -> Result<bool, AllocError> {
    match line.order {
        Order::Step {
            thread,
            times,
            fair,
        } => traced.step_times(thread, times, fair),
        Order::Until(thread, view) => step_until(traced, case, thread, view, &line.want),
        Order::End => ends(traced, case, ending),
        Order::Drain => traced.drains(),
        Order::Run => {
            write_run(traced, &line.threads, found)?;
            Ok(is_text(found.as_str(), &line.want, false))
        }
        Order::Expect(View::Words(_)) if ending == Ending::Drain => Ok(true),
        Order::Expect(view) => {
            write_seen(traced, case, view, found)?;
            Ok(is_text(found.as_str(), &line.want, false))
        }
        Order::Through(thread) => traced.step_through(thread),
        Order::Deadline(thread) => traced.deadline(thread),
        Order::Claim(_) => Ok(true),
        Order::Round => traced.step_round(),
        Order::Seed { seed, steps } => traced.step_at_random(seed, steps),
    }
}

/// Plays the lines of a case on its world.
pub(crate) fn failure_on(
    traced: &mut Traced,
    case: &Case<'_>,
    way: Way,
) -> Result<Option<Failure>, AllocError> {
    for (line, told) in case.lines.iter().enumerate() {
        let mut found = String::new(traced.alloc);
        if !holds(traced, case, way.ending, told, &mut found)? {
            return Ok(Some(Failure { line, way, found }));
        }
    }
    Ok(None)
}

/// Whether a line says that a world isn't made, and why.
fn tells(line: &Line<'_>, fault: WorldNewFault) -> bool {
    matches!(line.order, Order::Expect(View::World)) && is_text(fault.name(), &line.want, false)
}

/// What is wrong with a world that isn't made: its lines may only say why.
fn failure_without(
    alloc: Global,
    case: &Case<'_>,
    way: Way,
    fault: WorldNewFault,
) -> Result<Option<Failure>, AllocError> {
    let other = case.lines.iter().position(|line| !tells(line, fault));
    if other.is_none() && !case.lines.is_empty() {
        return Ok(None);
    }
    let line = other.unwrap_or(0);
    let found = String::from_str(alloc, fault.name())?;
    Ok(Some(Failure { line, way, found }))
}

/// Plays a case in one way.
fn failure_by(alloc: Global, case: &Case<'_>, way: Way) -> Result<Option<Failure>, AllocError> {
    match world_of(alloc, case)? {
        Ok(world) => {
            let mut traced = Traced::new(alloc, world, case.shards, way.fair);
            failure_on(&mut traced, case, way)
        }
        Err(fault) => failure_without(alloc, case, way, fault),
    }
}

/// The bits of these threads, of which the choice has as many bits.
pub(crate) fn bits_of(threads: &[usize], choice: u64) -> u64 {
    let mut bits = 0;
    let mut left = choice;
    for thread in threads {
        if left & 1 == 1 {
            bits |= 1_u64.checked_shl((*thread & 63) as u32).unwrap_or(0);
        }
        left >>= 1;
    }
    bits
}

/// Plays a case in each way that it may be, and gives the first that fails.
pub fn failure_of(alloc: Global, case: &Case<'_>) -> Result<Option<Failure>, AllocError> {
    let always = bits_of(&case.fair, u64::MAX);
    let is_ended = case
        .lines
        .iter()
        .any(|line| matches!(line.order, Order::End));
    let choices = 1_u64
        .checked_shl((case.either.len() & 7) as u32)
        .unwrap_or(1);
    for choice in 0..choices {
        let fair = always | bits_of(&case.either, choice);
        for ending in [Ending::Round, Ending::Drain] {
            if ending == Ending::Round || is_ended {
                let failure = failure_by(alloc, case, Way { ending, fair })?;
                if failure.is_some() {
                    return Ok(failure);
                }
            }
        }
    }
    Ok(None)
}
