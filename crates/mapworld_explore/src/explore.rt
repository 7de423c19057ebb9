//! All that the cases of a file can come to.

use crate::command::Options;
use crate::files::{is_meant, limit_name, outcome_text, schedule_text, searched, title_of};
use crate::json::json_of;
use mapworld::Step;
use mapworld_explorer::{Outcome, Search, outcome_behind};
use mapworld_text::Case;
use std::io;

/// Tells an outcome that was read off a world, and the schedule that led there, to which so many ends come.
fn tell_led<R: Print + AllocGlobal>(
    rt: &R,
    case: &Case<'_>,
    number: usize,
    led: &Outcome,
    schedule: &[Step],
    (at, ends): (usize, usize),
) -> io::Result<()> {
    let text = outcome_text(rt.alloc(), case, led)?;
    println!(rt; "outcome {number}: {}", text.as_str())?;
    println!(rt;
        "  at {at} of {ends} ends, the nearest by {} steps:",
        led.steps
    )?;
    let steps = schedule_text(rt.alloc(), case, schedule)?;
    println!(rt; "  {}", steps.as_str())
}

/// Tells one outcome: the answers and the contents of a world that is led anew by the schedule which is told with them.
fn tell_outcome<R: Print + Eprint + AllocGlobal>(
    rt: &R,
    case: &Case<'_>,
    search: &Search<'_, '_>,
    number: usize,
    outcome: &Outcome,
) -> io::Result<()> {
    let schedule = search.schedule(outcome.state)?;
    match outcome_behind(rt.alloc(), case, &schedule) {
        Ok(led) => {
            let ends = (outcome.ends, search.ends);
            tell_led(rt, case, number, &led, &schedule, ends)
        }
        Err(fault) => eprintln!(rt; "{fault}"),
    }
}

/// Tells for how many steps each thread slept at most.
fn tell_waits<R: Print + AllocGlobal>(
    rt: &R,
    case: &Case<'_>,
    search: &Search<'_, '_>,
) -> io::Result<()> {
    let waits = search.longest_waits()?;
    print!(rt; "  the longest sleep, in steps:")?;
    for (thread, steps) in waits.iter().enumerate() {
        print!(rt; " {} {steps}", case.name_of(thread))?;
    }
    println!(rt; "")
}

/// Tells what was found of a case.
fn tell<R: Print + Eprint + AllocGlobal>(
    rt: &R,
    title: &str,
    case: &Case<'_>,
    search: &Search<'_, '_>,
) -> io::Result<()> {
    let outcomes = search.outcomes.len();
    println!(rt;
        "{title}: {} states, {} ends, {outcomes} outcomes",
        search.states(),
        search.ends
    )?;
    if let Some(limit) = search.limit {
        println!(rt;
            "  not all schedules: the limit {} was met",
            limit_name(limit)
        )?;
    }
    tell_waits(rt, case, search)?;
    for (index, outcome) in search.outcomes.iter().enumerate() {
        tell_outcome(rt, case, search, index.saturating_add(1), outcome)?;
    }
    Ok(())
}

/// Tells what was found of a case, as the command line asks for it.
fn tell_search<R: Print + Eprint + AllocGlobal>(
    rt: &R,
    is_json: bool,
    file: &str,
    case: &Case<'_>,
    search: &Search<'_, '_>,
) -> io::Result<()> {
    if is_json {
        match json_of(rt.alloc(), file, case, search) {
            Ok(text) => println!(rt; "{}", text.as_str()),
            Err(fault) => eprintln!(rt; "{fault}"),
        }
    } else {
        let title = title_of(rt.alloc(), file, case)?;
        tell(rt, title.as_str(), case, search)
    }
}

/// Explores a case; says whether that came to its end.
fn explore_case<R: Print + Eprint + AllocGlobal>(
    rt: &R,
    options: &Options<'_, '_>,
    file: &str,
    case: &Case<'_>,
) -> io::Result<bool> {
    match searched(rt, options, case)? {
        Ok(search) => {
            tell_search(rt, options.is_json(), file, case, &search)?;
            Ok(search.limit.is_none())
        }
        Err(fault) => {
            let title = title_of(rt.alloc(), file, case)?;
            println!(rt; "{}: {fault}", title.as_str())?;
            Ok(false)
        }
    }
}

/// Explores the cases that are meant; says whether that came to its end.
pub fn explore_cases<R: Print + Eprint + AllocGlobal>(
    rt: &R,
    options: &Options<'_, '_>,
    file: &str,
    cases: &[Case<'_>],
) -> io::Result<bool> {
    let mut is_whole = true;
    for case in cases {
        if is_meant(options, case) {
            is_whole = is_whole & explore_case(rt, options, file, case)?;
        }
    }
    Ok(is_whole)
}
