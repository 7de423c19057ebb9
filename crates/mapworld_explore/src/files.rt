//! Files of cases, and what is told of them.

use crate::command::Options;
use mapworld::Step;
use mapworld_explorer::{ExploreFault, Limit, Outcome, Search};
use mapworld_text::Case;
use std::alloc::{AllocError, Global};
use std::rt::Files;
use std::{fs, io};

/// How many states are visited between two looks at how far a search is.
const VISITS: usize = 20_000;

/// The text of a file. Where it can't be read that is told.
pub fn text_of<R: Files + Eprint + AllocGlobal>(rt: &R, file: &str) -> io::Result<Option<String>> {
    match fs::read_to_string(rt, file) {
        Ok(text) => Ok(Some(text)),
        Err(error) => {
            eprintln!(rt; "{file}: {error}")?;
            Ok(None)
        }
    }
}

/// Whether a case is one that is meant.
pub fn is_meant(options: &Options<'_, '_>, case: &Case<'_>) -> bool {
    match options.case() {
        Some(name) => case.name == name,
        None => true,
    }
}

/// The first case that is meant.
pub fn meant<'c, 'a>(options: &Options<'_, '_>, cases: &'c [Case<'a>]) -> Option<&'c Case<'a>> {
    cases.iter().find(|case| is_meant(options, case))
}

/// Goes on with a search to its end, and tells on standard error how far it is where that takes long.
fn go_through<R: Eprint>(
    rt: &R,
    search: &mut Search<'_, '_>,
    states: usize,
) -> io::Result<Result<(), ExploreFault>> {
    for _ in 0..=states {
        match search.go_on(VISITS) {
            Ok(true) => {
                let states = search.states();
                let left = states.saturating_sub(search.visited());
                eprintln!(rt; "{states} states, {left} of them not visited yet")?;
            }
            Ok(false) => break,
            Err(fault) => return Ok(Err(fault)),
        }
    }
    Ok(Ok(()))
}

/// Goes through all schedules of a case.
pub fn searched<'c, 'a, R: Eprint + AllocGlobal>(
    rt: &R,
    options: &Options<'_, '_>,
    case: &'c Case<'a>,
) -> io::Result<Result<Search<'c, 'a>, ExploreFault>> {
    let limits = options.limits();
    match Search::new(rt.alloc(), case, limits, !options.is_plain()) {
        Ok(mut search) => match go_through(rt, &mut search, limits.states)? {
            Ok(()) => Ok(Ok(search)),
            Err(fault) => Ok(Err(fault)),
        },
        Err(fault) => Ok(Err(fault)),
    }
}

/// What the limit is called that a search has met.
pub fn limit_name(limit: Limit) -> &'static str {
    match limit {
        Limit::States => "--states",
        Limit::Steps => "--steps",
    }
}

/// Writes so many steps of a thread in a row, or its deadline, as the lines of a case have them.
fn write_steps(
    case: &Case<'_>,
    step: Step,
    times: usize,
    out: &mut String,
) -> Result<(), AllocError> {
    if !out.is_empty() {
        out.push_str(", ")?;
    }
    if step.deadline {
        return write!(out, "deadline {}", case.name_of(step.thread));
    }
    write!(out, "step {} {times}", case.name_of(step.thread))?;
    if step.fair {
        out.push_str(" fair")?;
    }
    Ok(())
}

/// A schedule, as the lines of a case have it.
pub fn schedule_text(
    alloc: Global,
    case: &Case<'_>,
    schedule: &[Step],
) -> Result<String, AllocError> {
    let mut out = String::new(alloc);
    let mut row: Option<(Step, usize)> = None;
    for step in schedule {
        row = match row {
            Some((last, times)) if last == *step => Some((last, times.saturating_add(1))),
            Some((last, times)) => {
                write_steps(case, last, times, &mut out)?;
                Some((*step, 1))
            }
            None => Some((*step, 1)),
        };
    }
    if let Some((last, times)) = row {
        write_steps(case, last, times, &mut out)?;
    }
    Ok(out)
}

/// How an outcome is written in a claim.
pub fn outcome_text(
    alloc: Global,
    case: &Case<'_>,
    outcome: &Outcome,
) -> Result<String, AllocError> {
    let mut text = String::new(alloc);
    outcome.write(case, &mut text)?;
    Ok(text)
}

/// The line that a file's name and a case's begin.
pub fn title_of(alloc: Global, file: &str, case: &Case<'_>) -> Result<String, AllocError> {
    if case.name == "the only one" {
        String::from_str(alloc, file)
    } else {
        format!(in alloc; "{file}, `{}`", case.name)
    }
}
