//! Cases of locks. First those of threads at the locks of a world, worked by hand, each a paragraph of a file: its lines
//! are done one after another, and what comes of them is compared with what they say. Then each call of locks, lots and
//! worlds of locks that may be refused for want of memory: with ample memory first, and then with each of its growths
//! refused in turn. What is printed of these is a table of the calls, how many growths of each were refused, and what
//! stood behind it.
#![tactic(auto)]

mod arcs;
mod deed;
mod desk;
mod lock_worlds;
mod lots;
mod memory;
mod script;
mod words;

use refusing_heap::{print_head, print_lines};
use script::Found;
use std::process::ExitCode;
use std::rt::Clock;
use std::sync::Wait;
use std::{env, fs, io};

/// Follows the files that the arguments name, and answers whether every line came true.
fn follow_all(rt: HostRuntime) -> io::Result<bool> {
    let mut is_true = true;
    for name in env::args(&rt)?.skip(1) {
        let text = fs::read_to_string(&rt, name.as_str())?;
        let found = script::follow(&rt, name.as_str(), text.as_str())?;
        println!(rt; "{name}: {found}")?;
        is_true = is_true & found.is_true();
    }
    Ok(is_true)
}

/// Prints the lines of locks, and answers whether all stood.
fn print_locks<R: AllocGlobal + Print + Wait + Clock + Copy + Drop>(rt: R) -> bool {
    let mut all = print_lines(rt, "Mutex::", arcs::OF_MUTEX);
    all &= print_lines(rt, "ReentrantMutex::", arcs::OF_NESTED);
    all &= print_lines(rt, "RwLock::", arcs::OF_LOCK);
    all &= print_lines(rt, "Desk::", desk::LINES);
    all
}

/// Prints the lines of lots and of worlds of locks, and answers whether all stood.
fn print_lots<R: AllocGlobal + Print + Wait + Copy + Drop>(rt: R) -> bool {
    let mut all = print_lines(rt, "Lot::", lots::LINES);
    all &= print_lines(rt, "", lots::SHARED);
    all &= print_lines(rt, "World::", lock_worlds::LINES);
    all
}

/// Succeeds where every line came true and all stood. A failed write is not told, since nobody may be listening.
fn main(rt: HostRuntime) -> ExitCode {
    let mut all = matches!(follow_all(rt), Ok(true));
    all &= print_head(rt);
    all &= print_locks(rt);
    all &= print_lots(rt);
    match all {
        true => ExitCode::SUCCESS,
        false => ExitCode::FAILURE,
    }
}
