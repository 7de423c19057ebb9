//! Worlds beside the plain map of `mapworld_oracle`.

use super::worlds::Numbers;
use mapworld_oracle::judge::{Halfway, broken_at_end, broken_halfway, shows_ends};
use mapworld_oracle::replay::{Broken, Made, Seen};
use mapworld_text::Change;
use std::alloc::{AllocError, Global};

/// The shard of each key below that number.
fn routes_of<W: Numbers>(alloc: Global, world: &W, keys: u64) -> Result<Vec<usize>, AllocError> {
    let mut routes = Vec::new(alloc);
    for key in 0..keys {
        routes.push(world.route(key))?;
    }
    Ok(routes)
}

/// What the world shows now, behind steps of these threads and these deadlines; none where a block doesn't show the end
/// of its call exactly where that is answered.
pub fn shown_now<W: Numbers>(
    alloc: Global,
    world: &W,
    schedule: Vec<usize>,
    deadlines: Vec<(usize, u64)>,
) -> Result<Option<Halfway>, AllocError> {
    let replies = world.said(alloc)?;
    let seen = Seen {
        blocks: world.blocks(),
        replies: &replies,
        routes: &[],
        deadlines: &[],
    };
    if !shows_ends(seen) {
        return Ok(None);
    }
    Ok(Some(Halfway {
        schedule,
        deadlines,
        pairs: world.walked(alloc)?,
        replies: replies.len(),
        blocks: world.blocks().len(),
    }))
}

/// Whether every call is answered, every word is 0 and nobody waits.
fn is_at_rest<W: Numbers>(world: &W, replies: usize, made: Made<'_, Change>) -> bool {
    let queues = made.shards.saturating_mul(2);
    replies == made.calls()
        && (0..queues).all(|queue| world.is_empty(queue))
        && (0..made.shards).all(|shard| world.word(shard) == 0)
}

/// The rule that a world at its end breaks, or broke at a moment before, if it breaks one. Its keys are below that
/// number.
pub fn broken<W: Numbers>(
    made: Made<'_, Change>,
    world: &W,
    keys: u64,
    halfway: &Halfway,
) -> Result<Broken, AllocError> {
    let replies = world.said(made.alloc)?;
    if !is_at_rest(world, replies.len(), made) {
        return Ok(Some("at its end all is answered and nobody waits"));
    }
    let routes = routes_of(made.alloc, world, keys)?;
    let pairs = world.walked(made.alloc)?;
    let seen = Seen {
        blocks: world.blocks(),
        replies: &replies,
        routes: &routes,
        deadlines: &halfway.deadlines,
    };
    let at_end = broken_at_end(made, seen, &pairs, world.steps(), &halfway.schedule)?;
    if at_end.is_some() {
        return Ok(at_end);
    }
    broken_halfway(made, seen, halfway)
}

/// What a world shows before its first step, which may stand for a moment that isn't looked at.
pub fn at_first(alloc: Global, pairs: &[(u64, u64)]) -> Result<Halfway, AllocError> {
    let mut first: Vec<(u64, u64)> = Vec::new(alloc);
    for pair in pairs {
        first.retain(|other| other.0 != pair.0);
        first.push(*pair)?;
    }
    Ok(Halfway {
        schedule: Vec::new(alloc),
        deadlines: Vec::new(alloc),
        pairs: first,
        replies: 0,
        blocks: 0,
    })
}
