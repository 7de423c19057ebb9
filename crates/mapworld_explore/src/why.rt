//! One schedule to an outcome, in words and as a picture.

use crate::command::Options;
use crate::files::{meant, outcome_text, searched};
use crate::late::with_late_starts;
use crate::picture::page;
use mapworld::Step;
use mapworld_explorer::{
    Course, ExploreFault, Outcome, Search, course_of, is_so, outcome_behind, play_once,
};
use mapworld_text::{Case, Expected, terms};
use std::alloc::Global;
use std::io;

/// How an outcome's schedule is told.
#[derive(Clone, Copy, PartialEq, Eq)]
pub enum Form {
    Words,
    Picture,
}

/// The outcome of a number or of words, if there is one.
fn outcome_by(
    alloc: Global,
    case: &Case<'_>,
    search: &Search<'_, '_>,
    words: &[&str],
) -> Result<Option<usize>, Expected> {
    if let [word] = *words
        && let Ok(number) = word.parse::<usize>()
    {
        return Ok(number.checked_sub(1));
    }
    let terms = terms(alloc, case, words)?;
    Ok(
        search
            .outcomes
            .iter()
            .position(|outcome| is_so(outcome, &terms)),
    )
}

/// Tells a course in words.
fn tell_course<R: Print>(rt: &R, course: &Course) -> io::Result<()> {
    for told in &course.told {
        println!(rt; "step {}: {}", told.step, told.text.as_str())?;
    }
    Ok(())
}

/// Tells a course in words or as a picture, headed so.
fn tell_headed<R: Print + AllocGlobal>(
    rt: &R,
    form: Form,
    case: &Case<'_>,
    heading: &str,
    course: &Course,
) -> io::Result<()> {
    if form == Form::Picture {
        let page = page(rt.alloc(), case, heading, course)?;
        print!(rt; "{}", page.as_str())
    } else {
        println!(rt; "{heading}")?;
        tell_course(rt, course)
    }
}

/// Tells a schedule, which is headed so.
fn tell_schedule<R: Print + Eprint + AllocGlobal>(
    rt: &R,
    form: Form,
    case: &Case<'_>,
    heading: &str,
    schedule: &[Step],
) -> io::Result<bool> {
    match course_of(rt.alloc(), case, schedule) {
        Ok(course) => {
            tell_headed(rt, form, case, heading, &course)?;
            Ok(true)
        }
        Err(fault) => {
            eprintln!(rt; "{fault}")?;
            Ok(false)
        }
    }
}

/// Tells a case's own schedule.
fn tell_own<R: Print + Eprint + AllocGlobal>(
    rt: &R,
    form: Form,
    file: &str,
    case: &Case<'_>,
) -> io::Result<bool> {
    match play_once(rt.alloc(), case) {
        Ok(played) => tell_schedule(rt, form, case, "by its own schedule", &played.schedule),
        Err(fault) => {
            eprintln!(rt; "{file}: {fault}")?;
            Ok(false)
        }
    }
}

/// What an outcome's schedule is headed by: the outcome that is read off the world to which that very schedule leads.
fn heading_of(
    alloc: Global,
    case: &Case<'_>,
    schedule: &[Step],
    number: usize,
    outcomes: usize,
) -> Result<String, ExploreFault> {
    let led = outcome_behind(alloc, case, schedule)?;
    let text = outcome_text(alloc, case, &led)?;
    Ok(format!(in alloc; "outcome {number} of {outcomes}: {}", text.as_str())?)
}

/// A schedule to an outcome, and what it is headed by.
fn told_schedule(
    alloc: Global,
    case: &Case<'_>,
    search: &Search<'_, '_>,
    outcome: &Outcome,
    number: usize,
) -> Result<(Vec<Step>, String), ExploreFault> {
    let shortest = search.schedule(outcome.state)?;
    let schedule = with_late_starts(alloc, case, &shortest)?;
    let heading = heading_of(alloc, case, &schedule, number, search.outcomes.len())?;
    Ok((schedule, heading))
}

/// Tells one schedule to an outcome.
fn tell<R: Print + Eprint + AllocGlobal>(
    rt: &R,
    form: Form,
    case: &Case<'_>,
    search: &Search<'_, '_>,
    outcome: &Outcome,
    number: usize,
) -> io::Result<bool> {
    match told_schedule(rt.alloc(), case, search, outcome, number) {
        Ok((schedule, heading)) => tell_schedule(rt, form, case, heading.as_str(), &schedule),
        Err(fault) => {
            eprintln!(rt; "{fault}")?;
            Ok(false)
        }
    }
}

/// Tells one schedule to the outcome of that index, if there is one.
fn tell_indexed<R: Print + Eprint + AllocGlobal>(
    rt: &R,
    form: Form,
    file: &str,
    case: &Case<'_>,
    search: &Search<'_, '_>,
    index: Option<usize>,
) -> io::Result<bool> {
    if let Some(index) = index
        && let Some(outcome) = search.outcomes.get(index)
    {
        return tell(rt, form, case, search, outcome, index.saturating_add(1));
    }
    let outcomes = search.outcomes.len();
    eprintln!(rt; "{file}: none of the {outcomes} outcomes is that one")?;
    Ok(false)
}

/// Finds the outcome that is meant among those of a search, and tells one schedule to it.
fn tell_found<R: Print + Eprint + AllocGlobal>(
    rt: &R,
    form: Form,
    file: &str,
    case: &Case<'_>,
    search: &Search<'_, '_>,
    words: &[&str],
) -> io::Result<bool> {
    match outcome_by(rt.alloc(), case, search, words) {
        Ok(index) => tell_indexed(rt, form, file, case, search, index),
        Err(expected) => {
            let words = expected.words();
            eprintln!(rt; "expected the number of an outcome, or {words}")?;
            Ok(false)
        }
    }
}

/// Finds the outcome that is meant, and tells one schedule to it.
fn tell_case<R: Print + Eprint + AllocGlobal>(
    rt: &R,
    options: &Options<'_, '_>,
    form: Form,
    file: &str,
    case: &Case<'_>,
) -> io::Result<bool> {
    let Some(words) = options.outcome() else {
        return Ok(false);
    };
    if let ["run"] = *words {
        return tell_own(rt, form, file, case);
    }
    match searched(rt, options, case)? {
        Ok(search) => tell_found(rt, form, file, case, &search, words),
        Err(fault) => {
            eprintln!(rt; "{file}: {fault}")?;
            Ok(false)
        }
    }
}

/// Tells one schedule to an outcome of the case that is meant.
pub fn tell_meant<R: Print + Eprint + AllocGlobal>(
    rt: &R,
    options: &Options<'_, '_>,
    form: Form,
    file: &str,
    cases: &[Case<'_>],
) -> io::Result<bool> {
    match meant(options, cases) {
        Some(case) => tell_case(rt, options, form, file, case),
        None => {
            eprintln!(rt; "{file}: no such case")?;
            Ok(false)
        }
    }
}
