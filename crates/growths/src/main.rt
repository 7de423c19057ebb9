//! Each call of maps, sets and worlds of maps that may be refused for want of memory: with ample memory first, and then
//! with each of its growths refused in turn. What is printed is a table of the calls, how many growths of each were
//! refused, and what stood behind it.
#![tactic(auto)]

mod costly;
mod entries;
mod forms;
mod made;
mod map_worlds;
mod maps;
mod memory;
mod owners;
mod records;
mod rows;
mod sets;
mod tables;

use refusing_heap::{print_head, print_lines};
use rows::print_rows;
use std::process::ExitCode;
use std::random::RandomSource;
use std::rt::Clock;
use std::sync::Wait;
use std::thread::Threads;

/// Prints the lines of maps, sets and worlds of maps, and answers whether all stood.
fn print_maps<
    R: AllocGlobal + Print + Wait + Threads + Clock + RandomSource + Copy + Send + Sync + Drop,
>(rt: R) -> bool {
    let mut all = print_lines(rt, "", tables::LINES);
    all &= print_rows(rt, "DashMap::", made::LINES);
    all &= print_rows(rt, "DashMap::", maps::LINES);
    all &= print_rows(rt, "DashMap::", entries::LINES);
    all &= print_rows(rt, "DashMap::", owners::LINES);
    all &= print_rows(rt, "DashSet::", made::OF_SETS);
    all &= print_rows(rt, "Recorded::", records::LINES);
    all &= print_rows(rt, "", records::WHOLE);
    all &= print_rows(rt, "DashMap::", owners::FORMS);
    all &= print_rows(rt, "", forms::VIEWS);
    all &= print_rows(rt, "DashSet::", sets::LINES);
    all &= print_lines(rt, "MapWorld::", map_worlds::WHOLE);
    all &= print_lines(rt, "a world's ", map_worlds::LINES);
    all
}

/// Prints the table. Succeeds where all stood. A failed write is not told, since nobody may be listening.
fn main(rt: HostRuntime) -> ExitCode {
    let mut all = print_head(rt);
    all &= print_maps(rt);
    match all {
        true => ExitCode::SUCCESS,
        false => ExitCode::FAILURE,
    }
}
