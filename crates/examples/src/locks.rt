//! Programs with locks, over the one crate `parking_lot`.

mod cache;
mod counter;
mod lazy;
mod nested;
mod part;
mod queue;
mod sale;
mod timed;
mod turns;

use std::rt::Clock;
use std::sync::Wait;
use std::thread::Threads;

/// Runs one after another, and prints what comes of each.
pub fn run_all<R>(rt: R) -> Result<(), anyhow::Error>
where
    R: AllocGlobal + Print + Wait + Threads + Clock + Sync + Copy + Drop,
{
    let (visits, beside) = counter::run(rt, rt.alloc())?;
    println!(rt; "counter: {visits} visits, a try beside a guard gives {beside:?}")?;
    let (put, taken, sum) = queue::run(rt, rt.alloc())?;
    println!(rt; "queue: {put} put, {taken} taken, sum {sum}")?;
    let (right, runs, failed) = lazy::run(rt, rt.alloc())?;
    println!(rt; "lazy: {right} right, the closure ran {runs} time, another failed: {failed}")?;
    let (low, high, kept) = cache::run(rt, rt.alloc())?;
    println!(rt; "cache: longest ways {low} and {high}, {kept} answers kept")?;
    let (points, badge, letters) = part::run(rt, rt.alloc())?;
    println!(rt; "part: {points} points, a badge before: {badge:?}, letters: {letters:?}")?;
    let (refused, sold, locked) = sale::run(rt, rt.alloc())?;
    println!(rt; "sale: a second refused: {refused}, {sold} sold, locked: {locked}")?;
    let (pages, used, free) = timed::run(rt, rt.alloc())?;
    println!(rt; "timed: {pages} pages, while it is in use: {used}, once it is free: {free}")?;
    let (asked, always) = turns::run(rt, rt.alloc())?;
    println!(rt; "turns: {asked} handed over, {always} at a fair mutex")?;
    let (alone, refused, lines) = nested::run(rt, rt.alloc())?;
    println!(rt;
        "nested: {alone} squares drawn alone, a third hold refused: {refused}, {lines} lines"
    )?;
    Ok(())
}
