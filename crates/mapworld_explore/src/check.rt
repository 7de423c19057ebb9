//! Whether cases are as their files say.

use crate::command::Options;
use crate::files::{limit_name, outcome_text, schedule_text, searched, text_of};
use mapworld_explorer::{Broken, Failure, Outcome, Search, broken_claim, failure_of, is_claim};
use mapworld_text::{Case, Line, read};
use std::alloc::{AllocError, Global};
use std::io;
use std::rt::Files;

/// How many cases passed, and how many failed.
#[derive(Clone, Copy)]
struct Tally {
    passed: usize,
    failed: usize,
}

impl Tally {
    const NOTHING: Tally = Tally {
        passed: 0,
        failed: 0,
    };

    fn add(self, other: Tally) -> Tally {
        Tally {
            passed: self.passed.saturating_add(other.passed),
            failed: self.failed.saturating_add(other.failed),
        }
    }
}

/// One case.
fn counted(passed: bool) -> Tally {
    Tally {
        passed: usize::from(passed),
        failed: usize::from(!passed),
    }
}

/// The text, or another where it has no word.
fn or_else<'a>(text: &'a str, other: &'a str) -> &'a str {
    if text.trim_start().is_empty() {
        other
    } else {
        text.trim_start()
    }
}

/// The words that a line wants, with spaces between them.
fn wanted(alloc: Global, line: Option<&Line<'_>>) -> Result<String, AllocError> {
    let mut text = String::new(alloc);
    if let Some(line) = line {
        for word in &line.want {
            if !text.is_empty() {
                text.push_str(" ")?;
            }
            text.push_str(word)?;
        }
    }
    Ok(text)
}

/// The number of a case's line in its file.
fn number_of(case: &Case<'_>, line: usize) -> usize {
    match case.lines.get(line) {
        Some(line) => line.number,
        None => case.number,
    }
}

/// Tells why a case fails that is played by its own lines.
pub fn tell_failure<R: Print + AllocGlobal>(
    rt: &R,
    file: &str,
    case: &Case<'_>,
    failure: &Failure,
) -> io::Result<()> {
    let number = number_of(case, failure.line);
    let want = wanted(rt.alloc(), case.lines.get(failure.line))?;
    let want = or_else(want.as_str(), "that it can be done");
    let found = or_else(failure.found.as_str(), "that it can't");
    let name = case.name;
    let way = failure.way;
    println!(rt; "{file}:{number}: in `{name}`, {way}: expected `{want}`, found `{found}`")
}

/// A schedule that leads to an outcome of which a claim isn't so.
fn way_to(
    alloc: Global,
    case: &Case<'_>,
    search: &Search<'_, '_>,
    outcome: &Outcome,
) -> Result<String, AllocError> {
    let schedule = search.schedule(outcome.state)?;
    schedule_text(alloc, case, &schedule)
}

/// An outcome of which a claim isn't so, and a schedule that leads to it.
fn told_outcome(
    alloc: Global,
    case: &Case<'_>,
    search: &Search<'_, '_>,
    outcome: &Outcome,
) -> Result<String, AllocError> {
    let text = outcome_text(alloc, case, outcome)?;
    let way = way_to(alloc, case, search, outcome)?;
    format!(in alloc;
        "not so of `{}`, to which leads\n  {}",
        text.as_str(),
        way.as_str()
    )
}

/// Tells which claim of a case isn't so, and by which schedule.
fn tell_broken<R: Print + AllocGlobal>(
    rt: &R,
    file: &str,
    case: &Case<'_>,
    search: &Search<'_, '_>,
    broken: Broken,
) -> io::Result<()> {
    let number = number_of(case, broken.line);
    let name = case.name;
    let outcome = match broken.outcome {
        Some(outcome) => search.outcomes.get(outcome),
        None => None,
    };
    match outcome {
        Some(outcome) => {
            let text = told_outcome(rt.alloc(), case, search, outcome)?;
            println!(rt; "{file}:{number}: in `{name}`: {}", text.as_str())
        }
        None => {
            let outcomes = search.outcomes.len();
            println!(rt; "{file}:{number}: in `{name}`: not so of the {outcomes} outcomes")
        }
    }
}

/// Whether all that a case claims is so of a search that has come to its end; what isn't is told.
fn keeps_found<R: Print + AllocGlobal>(
    rt: &R,
    file: &str,
    case: &Case<'_>,
    search: &Search<'_, '_>,
) -> io::Result<bool> {
    match broken_claim(rt.alloc(), case, search) {
        Ok(None) => Ok(true),
        Ok(Some(broken)) => {
            tell_broken(rt, file, case, search, broken)?;
            Ok(false)
        }
        Err(expected) => {
            let number = case.number;
            let name = case.name;
            let words = expected.words();
            println!(rt; "{file}:{number}: in `{name}`: expected {words}")?;
            Ok(false)
        }
    }
}

/// Whether all that a case claims of every schedule is so; what isn't is told.
fn keeps_claims<R: Print + Eprint + AllocGlobal>(
    rt: &R,
    options: &Options<'_, '_>,
    file: &str,
    case: &Case<'_>,
) -> io::Result<bool> {
    let number = case.number;
    let name = case.name;
    match searched(rt, options, case)? {
        Ok(search) => match search.limit {
            None => keeps_found(rt, file, case, &search),
            Some(limit) => {
                let limit = limit_name(limit);
                println!(rt; "{file}:{number}: in `{name}`: the limit {limit} was met")?;
                Ok(false)
            }
        },
        Err(fault) => {
            println!(rt; "{file}:{number}: in `{name}`: {fault}")?;
            Ok(false)
        }
    }
}

/// Whether a case is as its file says; what isn't is told.
fn passes<R: Print + Eprint + AllocGlobal>(
    rt: &R,
    options: &Options<'_, '_>,
    file: &str,
    case: &Case<'_>,
) -> io::Result<bool> {
    if let Some(failure) = failure_of(rt.alloc(), case)? {
        tell_failure(rt, file, case, &failure)?;
        return Ok(false);
    }
    if case.lines.iter().any(|line| is_claim(line)) {
        return keeps_claims(rt, options, file, case);
    }
    Ok(true)
}

/// Checks cases.
fn check_cases<R: Print + Eprint + AllocGlobal>(
    rt: &R,
    options: &Options<'_, '_>,
    file: &str,
    cases: &[Case<'_>],
) -> io::Result<Tally> {
    let mut tally = Tally::NOTHING;
    for case in cases {
        tally = tally.add(counted(passes(rt, options, file, case)?));
    }
    println!(rt; "{file}: {} passed", tally.passed)?;
    Ok(tally)
}

/// Checks the cases of a file.
fn check_file<R: Files + Print + Eprint + AllocGlobal>(
    rt: &R,
    options: &Options<'_, '_>,
    file: &str,
) -> io::Result<Tally> {
    match text_of(rt, file)? {
        Some(text) => match read(rt.alloc(), text.as_str()) {
            Ok(cases) => check_cases(rt, options, file, &cases),
            Err(fault) => {
                println!(rt; "{file}: {fault}")?;
                Ok(counted(false))
            }
        },
        None => Ok(counted(false)),
    }
}

/// Checks the cases of all files that are named.
pub fn check<R: Files + Print + Eprint + AllocGlobal>(
    rt: &R,
    options: &Options<'_, '_>,
) -> io::Result<bool> {
    let Some(files) = options.files() else {
        return Ok(false);
    };
    let mut tally = Tally::NOTHING;
    for file in files {
        tally = tally.add(check_file(rt, options, file)?);
    }
    println!(rt; "{} passed, {} failed", tally.passed, tally.failed)?;
    Ok(tally.failed == 0)
}
