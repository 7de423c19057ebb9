//! Cases of a file by their own schedules.

use crate::check::tell_failure;
use crate::files::title_of;
use mapworld_explorer::{Played, World, play_once};
use mapworld_text::{Case, Shown};
use std::alloc::{AllocError, Global};
use std::io;

/// Tells what each call was answered.
fn tell_replies<R: Print>(rt: &R, case: &Case<'_>, world: &World) -> io::Result<()> {
    for reply in world.replies() {
        let name = case.name_of(reply.thread);
        let call = case.call_of(reply.thread, reply.call);
        println!(rt; "  {name}: {call}: {}", Shown(&reply.answer))?;
    }
    Ok(())
}

/// Tells in which order the map took what was asked.
fn tell_blocks<R: Print>(rt: &R, case: &Case<'_>, world: &World) -> io::Result<()> {
    println!(rt; "  taken in this order:")?;
    for block in world.blocks() {
        let name = case.name_of(block.thread);
        let call = case.call_of(block.thread, block.call);
        println!(rt; "    step {}: {name}: {call}", block.position)?;
    }
    Ok(())
}

/// Tells who waits in a queue of a shard.
fn tell_queue<R: Print>(
    rt: &R,
    case: &Case<'_>,
    world: &World,
    shard: usize,
    queue: usize,
) -> io::Result<()> {
    if let Ok(threads) = world.queue(queue) {
        for thread in &threads {
            println!(rt; "  {} waits for shard {shard}", case.name_of(*thread))?;
        }
    }
    Ok(())
}

/// Tells the words of locks that aren't free, and who waits there.
fn tell_locks<R: Print>(rt: &R, case: &Case<'_>, world: &World) -> io::Result<()> {
    for shard in 0..world.shards() {
        let word = world.word(shard);
        if word != 0 {
            println!(rt; "  the word of shard {shard} is {word}")?;
        }
        let queue = shard.saturating_mul(2);
        tell_queue(rt, case, world, shard, queue)?;
        tell_queue(rt, case, world, shard, queue.saturating_add(1))?;
    }
    Ok(())
}

/// The pairs of the map, by their keys.
fn sorted_pairs(alloc: Global, world: &World) -> Result<Vec<(u64, u64)>, AllocError> {
    let mut pairs: Vec<(u64, u64)> = Vec::new(alloc);
    for (key, value) in world.pairs() {
        pairs.push((*key, *value))?;
    }
    pairs.sort_unstable();
    Ok(pairs)
}

/// Tells the pairs of the map.
fn tell_contents<R: Print + AllocGlobal>(rt: &R, world: &World) -> io::Result<()> {
    let pairs = sorted_pairs(rt.alloc(), world)?;
    if pairs.is_empty() {
        return println!(rt; "  contents none");
    }
    print!(rt; "  contents")?;
    for (key, value) in &pairs {
        print!(rt; " {key}={value}")?;
    }
    println!(rt; "")
}

/// Tells what a case came to by its own schedule; says whether its own lines are so.
fn tell_played<R: Print + AllocGlobal>(
    rt: &R,
    file: &str,
    case: &Case<'_>,
    title: &str,
    played: &Played,
) -> io::Result<bool> {
    let world = &played.world;
    println!(rt; "{title}: {} steps", world.steps())?;
    tell_replies(rt, case, world)?;
    tell_blocks(rt, case, world)?;
    tell_locks(rt, case, world)?;
    tell_contents(rt, world)?;
    match &played.failure {
        Some(failure) => {
            tell_failure(rt, file, case, failure)?;
            Ok(false)
        }
        None => Ok(true),
    }
}

/// Runs a case; says whether its own lines are so.
fn run_case<R: Print + AllocGlobal>(rt: &R, file: &str, case: &Case<'_>) -> io::Result<bool> {
    let title = title_of(rt.alloc(), file, case)?;
    match play_once(rt.alloc(), case) {
        Ok(played) => tell_played(rt, file, case, title.as_str(), &played),
        Err(fault) => {
            println!(rt; "{}: {fault}", title.as_str())?;
            Ok(false)
        }
    }
}

/// Runs cases; says whether their own lines are so.
pub fn run_cases<R: Print + AllocGlobal>(
    rt: &R,
    file: &str,
    cases: &[Case<'_>],
) -> io::Result<bool> {
    let mut is_so = true;
    for case in cases {
        is_so = is_so & run_case(rt, file, case)?;
    }
    Ok(is_so)
}
