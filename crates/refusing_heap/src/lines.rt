//! A table of calls, with a line for each.

use crate::cases::{Case, Heap, Said, Wrong, make_in_turn};
use std::io;

/// A line: the call by its name, the case, and what stands behind a refused one.
pub type Line<C> = (&'static str, C, &'static str);

/// Prints the first lines of a table, and answers whether they were written.
pub fn print_head<R: Print + Drop>(rt: R) -> bool {
    println!(rt; "| Call | Growths refused | What stood |\n|---|---|---|").is_ok()
}

/// Prints a line of what came of a call of some type or module.
pub fn print_line<R: Print + Drop>(
    rt: R,
    of: &str,
    call: &str,
    said: Result<u64, Wrong>,
    stands: &str,
) -> io::Result<()> {
    match said {
        Ok(growths) => println!(rt; "| {of}{call} | {growths} | {stands} |"),
        Err(wrong) => println!(rt; "| {of}{call} | {wrong} | {stands} |"),
    }
}

/// Makes the call of each line in turn and prints what came of it. Answers whether all stood and was written.
pub fn print_lines<R: AllocGlobal + Print + Copy + Drop, C: Case<R>>(
    rt: R,
    of: &str,
    lines: &[Line<C>],
) -> bool {
    let mut all = true;
    for &(call, case, stands) in lines {
        let said = make_in_turn(rt, rt.alloc(), case);
        let is_right = said.is_ok();
        all &= print_line(rt, of, call, said, stands).is_ok() && is_right;
    }
    all
}

/// What came of a call whose answer isn't looked at: it is done, or this is its refusal.
pub fn made<T: Drop, E: PartialEq + Drop>(answer: Result<T, E>, refusal: E) -> Said {
    match answer {
        Ok(_done) => Said::Done,
        Err(fault) => Said::of(false, fault == refusal),
    }
}

/// What came of a list, which is to have so many items.
pub fn listed<T: Drop, E: PartialEq + Drop>(
    list: Result<Vec<T, &Heap>, E>,
    length: usize,
    refusal: E,
) -> Said {
    match list {
        Ok(items) => Said::of(items.len() == length, false),
        Err(fault) => Said::of(false, fault == refusal),
    }
}
