//! Worlds of two threads and two shards, and what they show beside the plain map of `mapworld_oracle`.

use mapworld::{MapWorld, RunFault, SpreadState, Step};
use mapworld_oracle::judge::{Halfway, broken_at_end, broken_halfway, shows_ends};
use mapworld_oracle::replay::{Broken, Made, Seen};
use mapworld_oracle::said::replies_of;
use mapworld_text::{Asked, Case, Change, programs_again, read};
use std::alloc::{AllocError, Global};
use std::test::Fail;

pub type World = MapWorld<u64, u64, SpreadState, Change>;

/// The shard that a key is on, of two.
pub fn shard_of(key: u64) -> usize {
    (key & 1) as usize
}

/// The programs of a text.
pub fn programs_of(alloc: Global, text: &str) -> Result<Vec<Vec<Asked>>, Fail> {
    match read(alloc, text)?.pop() {
        Some(Case { programs, .. }) => Ok(programs),
        None => Ok(Vec::new(alloc)),
    }
}

/// The same program once more.
pub fn copy_of(alloc: Global, program: &[Asked]) -> Result<Vec<Asked>, AllocError> {
    let mut copy = Vec::with_capacity(alloc, program.len())?;
    for ask in program {
        copy.push(ask.clone()?)?;
    }
    Ok(copy)
}

/// A world of two shards that begins with these pairs, and has a thread for each of the programs.
pub fn world_of(
    alloc: Global,
    pairs: &[(u64, u64)],
    programs: &[Vec<Asked>],
) -> Result<World, Fail> {
    let first = Vec::from_slice(alloc, pairs)?;
    let asked = programs_again(alloc, programs)?;
    Ok(MapWorld::new(alloc, 2, SpreadState, first, asked)?)
}

/// Makes steps, or says which can't be made. Tests step a world by this alone, so that what `run` promises is looked at
/// once.
pub fn run(world: &mut World, steps: &[Step]) -> Result<(), RunFault> {
    world.run(steps)
}

/// Drains a world, by so many steps.
pub fn drain(world: &mut World) -> u64 {
    world.drain()
}

/// The contents as pairs of numbers.
fn contents(alloc: Global, world: &World) -> Result<Vec<(u64, u64)>, AllocError> {
    let mut pairs = Vec::new(alloc);
    for (key, value) in world.pairs() {
        pairs.push((*key, *value))?;
    }
    Ok(pairs)
}

/// What the world shows now, behind steps of these threads and these deadlines; and whether each block shows the end of
/// its call exactly where that is answered.
pub fn shown_now(
    alloc: Global,
    world: &World,
    schedule: Vec<usize>,
    deadlines: Vec<(usize, u64)>,
) -> Result<(Halfway, bool), AllocError> {
    let replies = replies_of(alloc, world.replies())?;
    let seen = Seen {
        blocks: world.blocks(),
        replies: &replies,
        routes: &[],
        deadlines: &[],
    };
    let is_shown = shows_ends(seen);
    let halfway = Halfway {
        schedule,
        deadlines,
        pairs: contents(alloc, world)?,
        replies: replies.len(),
        blocks: world.blocks().len(),
    };
    Ok((halfway, is_shown))
}

/// Whether every call is answered, every word is 0 and nobody waits.
fn is_at_rest(world: &World, calls: usize) -> bool {
    let nobody_waits = (0..4).all(|key| match world.queue(key) {
        Ok(threads) => threads.is_empty(),
        Err(_) => false,
    });
    world.replies().len() == calls && nobody_waits && world.word(0) == 0 && world.word(1) == 0
}

/// The shard of each key below that number.
fn routes_of(alloc: Global, world: &World, keys: u64) -> Result<Vec<usize>, AllocError> {
    let mut routes = Vec::new(alloc);
    for key in 0..keys {
        routes.push(world.shard_of(&key))?;
    }
    Ok(routes)
}

/// The rule that a world at its end breaks, or broke at a moment before, if it breaks one. Its keys are below that
/// number.
pub fn broken(
    made: Made<'_, Change>,
    world: &World,
    keys: u64,
    halfway: &Halfway,
) -> Result<Broken, AllocError> {
    if !is_at_rest(world, made.calls()) {
        return Ok(Some("at its end all is answered and nobody waits"));
    }
    let routes = routes_of(made.alloc, world, keys)?;
    let replies = replies_of(made.alloc, world.replies())?;
    let pairs = contents(made.alloc, world)?;
    let seen = Seen {
        blocks: world.blocks(),
        replies: &replies,
        routes: &routes,
        deadlines: &halfway.deadlines,
    };
    let at_end = broken_at_end(made, seen, &pairs, world.steps(), &halfway.schedule)?;
    if at_end.is_some() {
        return Ok(at_end);
    }
    broken_halfway(made, seen, halfway)
}
