//! What a step of a world costs.

use crate::command::Options;
use crate::load::{Fault, World, run_through, world_of};
use std::alloc::Global;
use std::io;
use std::time::{Clock, Instant};

/// Runs a world through, and tells what a step of it took.
fn told<R: Clock>(rt: &R, alloc: Global, world: &mut World<Global>) -> Result<String, Fault> {
    let start = Instant::now(rt).map_err(|_| Fault)?;
    run_through(world);
    let took = start.elapsed(rt).map_err(|_| Fault)?;
    let each = took.as_nanos() / u128::from(world.steps().max(1));
    Ok(format!(in alloc;
        "{} steps of {} threads, {} replies, {each} ns a step",
        world.steps(),
        world.threads(),
        world.replies().len()
    )?)
}

/// Times the world that the command line asks for.
fn timed<R: Clock>(rt: &R, alloc: Global, options: &Options<'_, '_>) -> Result<String, Fault> {
    let mut world = world_of(alloc, options.threads(), options.calls(), options.keys())?;
    told(rt, alloc, &mut world)
}

/// Prints what a step takes. Answers whether the world could be made.
pub fn time<R: Clock + Print + AllocGlobal>(rt: &R, options: &Options<'_, '_>) -> io::Result<bool> {
    match timed(rt, rt.alloc(), options) {
        Ok(line) => {
            println!(rt; "{line}")?;
            Ok(true)
        }
        Err(Fault) => {
            println!(rt; "there is no memory for the world, no thread, or no clock")?;
            Ok(false)
        }
    }
}
