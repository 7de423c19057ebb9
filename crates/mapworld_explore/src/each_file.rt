//! What is done with the cases of each file that is named.

use crate::command::Options;
use crate::explore::explore_cases;
use crate::files::text_of;
use crate::run::run_cases;
use crate::why::{Form, tell_meant};
use mapworld_text::{Case, read};
use std::io;
use std::rt::Files;

/// What is done with cases.
#[derive(Clone, Copy)]
pub enum Work {
    Run,
    Explore,
    Tell(Form),
}

fn work_on<R: Print + Eprint + AllocGlobal>(
    rt: &R,
    options: &Options<'_, '_>,
    work: Work,
    file: &str,
    cases: &[Case<'_>],
) -> io::Result<bool> {
    match work {
        Work::Run => run_cases(rt, file, cases),
        Work::Explore => explore_cases(rt, options, file, cases),
        Work::Tell(form) => tell_meant(rt, options, form, file, cases),
    }
}

/// Works on the cases of a file; says whether all of it was done and is so.
fn work_in<R: Files + Print + Eprint + AllocGlobal>(
    rt: &R,
    options: &Options<'_, '_>,
    work: Work,
    file: &str,
) -> io::Result<bool> {
    match text_of(rt, file)? {
        Some(text) => match read(rt.alloc(), text.as_str()) {
            Ok(cases) => work_on(rt, options, work, file, &cases),
            Err(fault) => {
                eprintln!(rt; "{file}: {fault}")?;
                Ok(false)
            }
        },
        None => Ok(false),
    }
}

/// Works on the cases of all files that are named; says whether all of it was done and is so.
pub fn each<R: Files + Print + Eprint + AllocGlobal>(
    rt: &R,
    options: &Options<'_, '_>,
    work: Work,
) -> io::Result<bool> {
    let Some(files) = options.files() else {
        return Ok(false);
    };
    let mut is_so = true;
    for file in files {
        is_so = is_so & work_in(rt, options, work, file)?;
    }
    Ok(is_so)
}
