//! What is seen of a world, as it is written in a text.

use crate::outcome::Written;
use crate::reading::Replied;
use crate::traced::Traced;
use crate::worlds::World;
use mapworld::{Answer, Block, Status};
use mapworld_text::{Case, Shown, View};
use std::alloc::AllocError;
use std::fmt;

fn write_it(shown: &impl fmt::Display, out: &mut String) -> Written {
    write!(out, "{shown}")
}

fn write_reply(replies: &[Replied], thread: usize, call: usize, out: &mut String) -> Written {
    let found = replies
        .iter()
        .find(|reply| reply.thread == thread && reply.call == call);
    match found {
        Some(reply) => write_it(&Shown(&reply.answer), out),
        None => out.push_str("unanswered"),
    }
}

fn write_block(blocks: &[Block<u64>], of: (usize, usize, usize), out: &mut String) -> Written {
    let found = blocks.iter().find(|block| block.thread == of.0
        && block.call == of.1
        && block.visit == of.2);
    match found {
        Some(block) => {
            write!(out, "start {} position {}", block.start, block.position)?;
            match block.end {
                Some(end) => write!(out, " end {end}"),
                None => Ok(()),
            }
        }
        None => out.push_str("none"),
    }
}

/// How many blocks of a thread's call there are.
fn blocks_of(blocks: &[Block<u64>], thread: usize, call: usize) -> usize {
    blocks
        .iter()
        .filter(|block| block.thread == thread && block.call == call)
        .count()
}

/// How many pairs a walk was answered.
fn write_items(replies: &[Replied], thread: usize, call: usize, out: &mut String) -> Written {
    for reply in replies {
        if reply.thread == thread
            && reply.call == call
            && let Answer::Reads(reads) = &reply.answer
        {
            return write_it(&reads.len(), out);
        }
    }
    out.push_str("none")
}

/// How many pairs have that value.
fn having(traced: &Traced, value: u64) -> Result<usize, AllocError> {
    let pairs = pairs_of(traced)?;
    Ok(pairs.iter().filter(|pair| pair.1 == value).count())
}

fn write_pair(world: &World, key: u64, out: &mut String) -> Written {
    match world.pair(&key) {
        Some(pair) if *pair.0 == key => write_it(pair.1, out),
        Some(_) => out.push_str("the pair of another key"),
        None => out.push_str("none"),
    }
}

/// The pairs that a walk meets, by their keys.
fn pairs_of(traced: &Traced) -> Result<Vec<(u64, u64)>, AllocError> {
    let mut pairs: Vec<(u64, u64)> = Vec::new(traced.alloc);
    for (key, value) in traced.world.pairs() {
        pairs.push((*key, *value))?;
    }
    pairs.sort_unstable();
    Ok(pairs)
}

/// How many pairs the contents have.
fn count_of(traced: &Traced) -> Result<usize, AllocError> {
    match traced.world.contents() {
        Ok(contents) => Ok(contents.len()),
        Err(_) => Err(AllocError),
    }
}

/// Pairs, each of which is to be found by its key.
fn write_each(traced: &Traced, pairs: &[(u64, u64)], out: &mut String) -> Written {
    for (key, value) in pairs {
        write!(out, " {key}=")?;
        write_pair(&traced.world, *key, out)?;
        if traced.world.pair(key) != Some((key, value)) {
            out.push_str(" elsewhere")?;
        }
    }
    Ok(())
}

/// The pairs, each of which is to be found by its key, and to come once by a walk.
fn write_pairs(traced: &Traced, out: &mut String) -> Written {
    let count = count_of(traced)?;
    let pairs = pairs_of(traced)?;
    let walked = pairs.len();
    if walked != count {
        write!(out, "{count} pairs, and {walked} by a walk")
    } else if walked == 0 {
        out.push_str("none")
    } else {
        write_each(traced, &pairs, out)
    }
}

fn write_words(traced: &Traced, shard: usize, out: &mut String) -> Written {
    for (of, word) in &traced.words {
        if *of == shard {
            write!(out, " {word}")?;
        }
    }
    Ok(())
}

fn write_names(case: &Case<'_>, threads: &[usize], out: &mut String) -> Written {
    if threads.is_empty() {
        return out.push_str("nobody");
    }
    for thread in threads {
        write!(out, " {}", case.name_of(*thread))?;
    }
    Ok(())
}

fn write_queue(world: &World, case: &Case<'_>, key: usize, out: &mut String) -> Written {
    match world.queue(key) {
        Ok(threads) => write_names(case, &threads, out),
        Err(_) => Err(AllocError),
    }
}

fn status_of(world: &World, thread: usize) -> &'static str {
    match world.status(thread) {
        Status::Running => "running",
        Status::Asleep => "asleep",
        Status::Finished => "finished",
    }
}

/// Writes what is seen.
pub(crate) fn write_seen(
    traced: &Traced,
    case: &Case<'_>,
    view: View,
    out: &mut String,
) -> Written {
    let world = &traced.world;
    match view {
        View::World => out.push_str("made"),
        View::Reply(thread, call) => write_reply(world.replies(), thread, call, out),
        View::Replies => write_it(&world.replies().len(), out),
        View::Blocks(thread, call) => write_it(&blocks_of(world.blocks(), thread, call), out),
        View::Block(thread, call, visit) => write_block(world.blocks(), (thread, call, visit), out),
        View::Items(thread, call) => write_items(world.replies(), thread, call, out),
        View::Having(value) => write_it(&having(traced, value)?, out),
        View::Pair(key) => write_pair(world, key, out),
        View::Pairs => write_pairs(traced, out),
        View::Shard(key) => write_it(&world.shard_of(&key), out),
        View::Word(shard) => write_it(&world.word(shard), out),
        View::Words(shard) => write_words(traced, shard, out),
        View::Queue(key) => write_queue(world, case, key, out),
        View::Status(thread) => out.push_str(status_of(world, thread)),
        View::Moves(thread) => out.push_str(if world.can_move(thread) { "yes" } else { "no" }),
        View::Started(thread) => match world.started(thread) {
            Some(step) => write_it(&step, out),
            None => out.push_str("no"),
        },
        View::Steps => write_it(&world.steps(), out),
        View::Bound => write_it(&world.bound(), out),
    }
}
