//! Random programs of random threads, run by random steps to a random moment and drained from there, beside the plain
//! map.

use super::judged::{broken, shown_now};
use super::programs::{KEYS, KINDS, Random, Shape, pairs, programs};
use super::worlds::{Numbers, count_said, world_of};
use dashmap_table::SpreadState;
use mapworld::Step;
use mapworld_oracle::judge::Halfway;
use mapworld_oracle::replay::{Broken, Made};
use mapworld_oracle::said::Said;
use mapworld_text::Change;
use std::alloc::{AllocError, Global};
use std::hash::{BuildHasher, BuildHasherDefault, FoldHasher};
use std::process::Abort;
use std::test::Fail;

type Fold = BuildHasherDefault<FoldHasher>;

/// What is seen of worlds.
#[derive(Clone, Copy)]
struct Tally {
    worlds: u64,
    steps: u64,
    drained: u64,
    /// The greatest share of the bound that a drain took, in thousandths.
    share: u64,
    locked: usize,
}

impl Tally {
    const NONE: Tally = Tally {
        worlds: 0,
        steps: 0,
        drained: 0,
        share: 0,
        locked: 0,
    };

    /// Counts a world of so many steps, and so many calls that were locked out, whose drain took so many steps of so
    /// many.
    fn add(&mut self, steps: u64, locked: usize, made: u64, bound: u64) {
        let share = made.saturating_mul(1000).checked_div(bound).unwrap_or(0);
        self.worlds = self.worlds.saturating_add(1);
        self.steps = self.steps.saturating_add(steps);
        self.drained = self.drained.saturating_add(made);
        self.share = self.share.max(share);
        self.locked = self.locked.saturating_add(locked);
    }
}

/// Whether one pair alone has that key.
fn is_alone(pairs: &[(u64, u64)], key: u64) -> bool {
    pairs.iter().filter(|pair| pair.0 == key).count() == 1
}

/// Whether a pair is the one that its key finds, which is looked for on the key's shard alone, and no other of the pairs
/// has an equal key.
fn is_placed<W: Numbers>(
    world: &W,
    pairs: &[(u64, u64)],
    (key, value): (u64, u64),
    shards: usize,
) -> bool {
    let is_found = world.route(key) < shards && world.found(key) == Some((key, value));
    is_found && is_alone(pairs, key)
}

/// Whether each pair is placed so.
fn pairs_are_placed<W: Numbers>(
    alloc: Global,
    world: &W,
    shards: usize,
) -> Result<bool, AllocError> {
    let pairs = world.walked(alloc)?;
    let mut right = true;
    for pair in &pairs {
        right &= is_placed(world, &pairs, *pair, shards);
    }
    Ok(right)
}

/// How a world is run: up to so many random steps, and whether all pairs are looked at behind each.
#[derive(Clone, Copy)]
struct Run {
    limit: u64,
    looks: bool,
}

/// A step of a thread that is picked at random, if it can make one.
fn random_step<W: Numbers>(world: &W, random: &mut Random) -> Option<Step> {
    let thread = random.below(world.threads() as u64) as usize;
    let deadline = world.may_expire(thread) && random.below(4) == 0;
    if deadline || world.can_move(thread) {
        let fair = random.below(4) == 0;
        Some(Step {
            thread,
            fair,
            deadline,
        })
    } else {
        None
    }
}

/// Whether a thread can move.
fn goes_on<W: Numbers>(world: &W) -> bool {
    (0..world.threads()).any(|thread| world.can_move(thread))
}

/// Makes random steps, and notes them. Answers the rule that is broken, if one is.
fn run_some<W: Numbers>(
    made: Made<'_, Change>,
    world: &mut W,
    random: &mut Random,
    run: Run,
    steps: &mut Vec<Step>,
) -> Result<Broken, AllocError> {
    for _ in 0..run.limit {
        if run.looks && !goes_on(world) {
            break;
        }
        if let Some(step) = random_step(world, random) {
            if world.make(step).is_err() {
                return Ok(Some("a step of a thread that can move, or a deadline, is made"));
            }
            steps.push(step)?;
            if run.looks && !pairs_are_placed(made.alloc, world, made.shards)? {
                return Ok(Some("each key has one pair at most, on its shard"));
            }
        }
    }
    Ok(None)
}

/// Drains a world, and gives the rule that it breaks on the way or broke at that moment, if it breaks one.
fn drained<W: Numbers>(
    made: Made<'_, Change>,
    world: &mut W,
    moment: &Halfway,
    tally: &mut Tally,
) -> Result<Broken, AllocError> {
    let bound = world.bound();
    let before = world.steps();
    let steps = world.drain();
    if steps > bound || world.steps() != before.wrapping_add(steps) {
        return Ok(Some("a drain takes no more steps than the bound"));
    }
    if world.drain() != 0 {
        return Ok(Some("behind a drain there is nothing left to do"));
    }
    let locked = count_said(made.alloc, world, Said::Locked)?;
    tally.add(world.steps(), locked, steps, bound);
    broken(made, world, KEYS, moment)
}

/// The threads that made these steps, and their deadlines.
fn schedule_of(
    alloc: Global,
    steps: &[Step],
) -> Result<(Vec<usize>, Vec<(usize, u64)>), AllocError> {
    let mut schedule = Vec::new(alloc);
    let mut deadlines = Vec::new(alloc);
    for (i, step) in steps.iter().enumerate() {
        schedule.push(step.thread)?;
        if step.deadline {
            deadlines.push((step.thread, (i as u64).saturating_add(1)))?;
        }
    }
    Ok((schedule, deadlines))
}

/// Runs a world to a random moment, and gives what it shows then, or the rule that is broken.
fn moment_of<W: Numbers>(
    made: Made<'_, Change>,
    world: &mut W,
    random: &mut Random,
    run: Run,
) -> Result<Result<Halfway, &'static str>, AllocError> {
    let mut steps = Vec::new(made.alloc);
    if let Some(rule) = run_some(made, world, random, run, &mut steps)? {
        return Ok(Err(rule));
    }
    let (schedule, deadlines) = schedule_of(made.alloc, &steps)?;
    match shown_now(made.alloc, world, schedule, deadlines)? {
        Some(moment) => Ok(Ok(moment)),
        None => Ok(Err("a block shows its end exactly where its call is answered")),
    }
}

/// Runs a world to a random moment and drains it; and gives the rule that is broken, if one is.
fn broken_by<W: Numbers>(
    made: Made<'_, Change>,
    world: &mut W,
    random: &mut Random,
    run: Run,
    tally: &mut Tally,
) -> Result<Broken, AllocError> {
    match moment_of(made, world, random, run)? {
        Ok(moment) => drained(made, world, &moment, tally),
        Err(rule) => Ok(Some(rule)),
    }
}

/// Makes a world and tries it; and gives the rule that is broken, if one is.
fn broken_on<S: BuildHasher + Drop>(
    made: Made<'_, Change>,
    hasher: S,
    random: &mut Random,
    run: Run,
    tally: &mut Tally,
) -> Result<Broken, AllocError> {
    match world_of(made.alloc, made.shards, hasher, made.pairs, made.programs) {
        Some(mut world) => broken_by(made, &mut world, random, run, tally),
        None => Ok(Some("a world is made")),
    }
}

/// An amount of shards, up to 16.
fn shards(random: &mut Random) -> usize {
    match random.below(4) {
        0 => 2,
        1 => 4,
        2 => 8,
        _ => 16,
    }
}

/// Tries a world of some threads and shards, run to a random moment.
fn broken_in(
    alloc: Global,
    seed: u64,
    shape: Shape,
    tally: &mut Tally,
) -> Result<Broken, AllocError> {
    let mut random = Random::new(seed);
    let threads = random.below(8).saturating_add(1);
    let shards = shards(&mut random);
    let pairs = pairs(alloc, &mut random)?;
    let programs = programs(alloc, &mut random, threads, shape)?;
    let made = Made {
        alloc,
        shards,
        pairs: &pairs,
        programs: &programs,
    };
    // Some worlds are drained that never ran.
    let limit = random.below(1200).checked_sub(200).unwrap_or(0);
    let run = Run {
        limit,
        looks: false,
    };
    broken_on(made, Fold::new(), &mut random, run, tally)
}

/// Tries a world of three threads and two shards, run to its end, whose pairs are looked at behind each step.
fn broken_in_long(alloc: Global, seed: u64, tally: &mut Tally) -> Result<Broken, AllocError> {
    let mut random = Random::new(seed);
    let programs = programs(alloc, &mut random, 3, Shape::Long)?;
    let made = Made {
        alloc,
        shards: 2,
        pairs: &[(0, 5), (1, 6)],
        programs: &programs,
    };
    let run = Run {
        limit: 1_000_000,
        looks: true,
    };
    broken_on(made, SpreadState, &mut random, run, tally)
}

/// Tries so many worlds of programs of that shape.
fn try_worlds(
    rt: &(impl AllocGlobal + Abort),
    seeds: u64,
    shape: Shape,
    tally: &mut Tally,
) -> Result<(), AllocError> {
    for seed in 0..seeds {
        let broken = match shape {
            Shape::Long => broken_in_long(rt.alloc(), seed, tally)?,
            _ => broken_in(rt.alloc(), seed, shape, tally)?,
        };
        assert!(rt; broken.is_none(), "world {seed} of {shape:?}: {broken:?}");
    }
    Ok(())
}

/// Prints what was seen.
fn print(rt: &impl Print, tally: Tally) -> Result<(), Fail> {
    let Tally {
        worlds,
        steps,
        drained,
        share,
        locked,
    } = tally;
    println!(rt;
        "{worlds} worlds, {steps} steps, {drained} by drains, at most {share} thousandths of a bound; {locked} calls locked"
    )?;
    Ok(())
}

#[test]
fn worlds_of_any_calls_are_one_plain_map(rt: HostRuntime) -> Result<(), Fail> {
    let mut tally = Tally::NONE;
    try_worlds(&rt, 1000, Shape::Any, &mut tally)?;
    print(&rt, tally)
}

#[test]
fn worlds_of_one_kind_of_calls_are_one_plain_map(rt: HostRuntime) -> Result<(), Fail> {
    let mut tally = Tally::NONE;
    for kind in 0..KINDS {
        try_worlds(&rt, 25, Shape::Kind(kind), &mut tally)?;
    }
    print(&rt, tally)
}

#[test]
fn long_programs_are_one_plain_map_with_each_pair_on_its_shard(
    rt: HostRuntime,
) -> Result<(), Fail> {
    let mut tally = Tally::NONE;
    try_worlds(&rt, 60, Shape::Long, &mut tally)?;
    print(&rt, tally)
}
