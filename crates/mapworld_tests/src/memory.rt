//! Worlds whose memory ends: on heaps from which all that is left is taken at one step, or while they are drained; so
//! each growth is refused once. The program `growths` refuses single growths.

use super::judged::{at_first, broken};
use super::worlds::{
    Look, Numbers, are_finished, count_said, looked_at, looked_in, programs_of, step_through,
    step_times,
};
use dashmap_table::SpreadState;
use linked_list_allocator::LocalHeap;
use mapworld_oracle::replay::{Broken, Made};
use mapworld_oracle::said::Said;
use mapworld_text::Change;
use std::alloc::{AllocError, Global};
use std::process::Abort;
use std::test::Fail;

/// How large the heaps are that have enough for each of the worlds.
const SIZE: usize = 16384;

/// More keys than the programs use.
const KEYS: u64 = 40;

/// Takes pieces of that size, as many as there are.
fn take<'h>(
    heap: &'h LocalHeap,
    size: usize,
    pieces: &mut Vec<Vec<u8, &'h LocalHeap>>,
) -> Result<(), AllocError> {
    for _ in 0..SIZE {
        match Vec::with_capacity(heap, size) {
            Ok(piece) => pieces.push(piece)?,
            Err(_) => break,
        }
    }
    Ok(())
}

/// Takes all memory that is left, in pieces.
fn hoard<'h>(
    alloc: Global,
    heap: &'h LocalHeap,
) -> Result<Vec<Vec<u8, &'h LocalHeap>>, AllocError> {
    let mut pieces = Vec::new(alloc);
    for size in [4096, 1024, 256, 64, 16] {
        take(heap, size, &mut pieces)?;
    }
    Ok(pieces)
}

/// A program that puts in so many keys, which are even and so all on one shard.
fn insertions(alloc: Global, keys: u64) -> Result<String, AllocError> {
    let mut text = String::from_str(alloc, "thread a\n")?;
    for number in 0..keys {
        write!(text, "  insert {} {number}\n", number << 1)?;
    }
    Ok(text)
}

/// Looks whether a world puts so many new pairs in by its one thread, the keys twice their values.
#[derive(Drop)]
struct Grows(u64);

impl Look for Grows {
    type Seen = bool;

    fn look<W: Numbers>(self, alloc: Global, world: &mut W) -> Result<bool, Fail> {
        let is_done = step_through(world, 0) && are_finished(world);
        let added = count_said(alloc, world, Said::None)? as u64;
        let pairs = world.walked(alloc)?.len() as u64;
        let last = self.0.saturating_sub(1);
        let is_there = world.found(last << 1) == Some((last << 1, last));
        Ok(is_done && added == self.0 && pairs == self.0 && is_there)
    }
}

#[test]
fn a_shard_grows_to_thousands_of_pairs(rt: HostRuntime) -> Result<(), Fail> {
    let text = insertions(rt.alloc(), 3000)?;
    assert!(rt; looked_at(rt.alloc(), 2, &[], text.as_str(), Grows(3000))?);
    Ok(())
}

/// Looks whether a world makes all its walks, and shows no visit.
#[derive(Drop)]
struct NoVisits;

impl Look for NoVisits {
    type Seen = bool;

    fn look<W: Numbers>(self, _alloc: Global, world: &mut W) -> Result<bool, Fail> {
        Ok(step_through(world, 0) && are_finished(world) && world.blocks().is_empty())
    }
}

#[test]
fn walks_with_the_stop_0_take_no_room_for_visits(rt: HostRuntime) -> Result<(), Fail> {
    let programs = programs_of(rt.alloc(), "thread a\n  iter stop 0\nagain 999\n")?;
    // A block for each visit of 64 shards would take seven times as much.
    let heap = LocalHeap::new(rt.alloc(), 500_000)?;
    let seen = looked_in(rt.alloc(), &heap, 64, SpreadState, &[], &programs, NoVisits)?;
    assert!(rt; seen == Some(true));
    Ok(())
}

/// When there is no memory.
#[derive(Clone, Copy, Debug)]
enum When {
    /// At that step.
    Step(u64),
    /// While the world is drained behind so many steps.
    Drain(u64),
}

/// The next thread in turn that can move, if one can.
fn next_thread<W: Numbers>(world: &W, last: usize) -> Option<usize> {
    let threads = world.threads();
    (1..threads.saturating_add(1))
        .map(|more| last.wrapping_add(more).checked_rem(threads).unwrap_or(0))
        .find(|thread| world.can_move(*thread))
}

/// Steps the threads in turn up to so many steps, and gives who made the last one; none where a step of a thread that
/// can move isn't done.
fn step_some<W: Numbers>(world: &mut W, steps: u64) -> Option<usize> {
    let mut thread = 0;
    for _ in 0..steps {
        match next_thread(world, thread) {
            Some(next) => thread = next,
            None => break,
        }
        if !step_times(world, thread, 1) {
            return None;
        }
    }
    Some(thread)
}

/// Makes a step of the next thread in turn, if one can move, and says whether it was done.
fn step_next<W: Numbers>(world: &mut W, last: Option<usize>) -> bool {
    match last {
        Some(last) => match next_thread(world, last) {
            Some(next) => step_times(world, next, 1),
            None => true,
        },
        None => false,
    }
}

/// Runs the world to its end, without memory when that is to be; and says whether all steps of threads that can move
/// were done.
fn run_without<W: Numbers>(
    alloc: Global,
    heap: &LocalHeap,
    world: &mut W,
    when: When,
) -> Result<bool, AllocError> {
    let (When::Step(number) | When::Drain(number)) = when;
    let last = step_some(world, number);
    let pieces = hoard(alloc, heap)?;
    let done = match when {
        When::Step(_) => step_next(world, last),
        When::Drain(_) => {
            let _ = world.drain();
            last.is_some()
        }
    };
    drop(pieces);
    let _ = world.drain();
    Ok(done)
}

/// Whether a call was refused, and the rule that is broken, if one is.
type Outcome = (bool, Broken);

/// Runs a world without memory at that time, and looks at what came of it.
#[derive(Drop)]
struct Short<'a> {
    made: Made<'a, Change>,
    heap: &'a LocalHeap,
    when: When,
}

impl<'a> Look for Short<'a> {
    type Seen = Outcome;

    fn look<W: Numbers>(self, alloc: Global, world: &mut W) -> Result<Outcome, Fail> {
        if !run_without(alloc, self.heap, world, self.when)? {
            return Ok((false, Some("a step of a thread that can move is made")));
        }
        let refused = count_said(alloc, world, Said::NoMemory)?;
        let first = at_first(alloc, self.made.pairs)?;
        let broken = broken(self.made, world, KEYS, &first)?;
        Ok((refused > 0, broken))
    }
}

/// Makes a world and runs it without memory at that time.
fn outcome_without(made: Made<'_, Change>, when: When) -> Result<Outcome, Fail> {
    let heap = LocalHeap::new(made.alloc, SIZE)?;
    let look = Short {
        made,
        heap: &heap,
        when,
    };
    let seen = looked_in(
        made.alloc,
        &heap,
        made.shards,
        SpreadState,
        made.pairs,
        made.programs,
        look,
    )?;
    Ok(seen.unwrap_or((false, Some("a world is made"))))
}

/// Whether calls of programs are refused for want of memory.
#[derive(Clone, Copy, PartialEq)]
enum Refusals {
    AtSome,
    Never,
}

/// Programs that are run without memory at each of so many steps, and in drains from each of them.
#[derive(Clone, Copy)]
struct Shortage {
    pairs: &'static [(u64, u64)],
    programs: &'static str,
    steps: u64,
    refusals: Refusals,
}

/// Runs programs without memory at each of their steps, and in drains from each of them.
fn try_each(rt: &(impl AllocGlobal + Abort), row: Shortage) -> Result<(), Fail> {
    let text = row.programs;
    let programs = programs_of(rt.alloc(), text)?;
    let made = Made {
        alloc: rt.alloc(),
        shards: 2,
        pairs: row.pairs,
        programs: &programs,
    };
    let mut has_refused = false;
    let mut has_done = false;
    for number in 0..row.steps {
        for when in [When::Step(number), When::Drain(number)] {
            let (refused, broken) = outcome_without(made, when)?;
            assert!(rt;
                broken.is_none(),
                "without memory at {when:?}: {broken:?} in\n{text}"
            );
            has_refused |= refused;
            has_done |= !refused;
        }
    }
    let is_so = has_refused == (row.refusals == Refusals::AtSome);
    assert!(rt; has_done && is_so, "in\n{text}");
    Ok(())
}

/// Calls that may grow a shard, beside a reader.
const GROWTHS: [&str; 4] = [
    "thread a\n  insert 1 7\nthread b\n  get 1\n    drop\n",
    "thread a\n  insert-until 1 7\nthread b\n  get 1\n    drop\n",
    "thread a\n  entry 1\n    insert 7\n    drop\nthread b\n  get 1\n    drop\n",
    "thread a\n  try-entry 1\n    insert 7\n    drop\nthread b\n  get 1\n    drop\n",
];

#[test]
fn a_refused_call_changes_nothing_and_leaves_no_hold(rt: HostRuntime) -> Result<(), Fail> {
    for programs in GROWTHS {
        try_each(
            &rt,
            Shortage {
                pairs: &[],
                programs,
                steps: 16,
                refusals: Refusals::AtSome,
            },
        )?;
    }
    Ok(())
}

/// Walks that may be refused, behind a removal and beside other calls.
const WALKS: [&str; 5] = [
    "thread a\n  remove 17\n  iter\nthread b\n  remove 3\n  get 2\n    drop\n",
    "thread a\n  remove 17\n  iter stop 4\nthread b\n  remove 3\n  get 2\n    drop\n",
    "thread a\n  remove 17\n  iter-mut add 1\nthread b\n  remove 3\n  get 2\n    drop\n",
    "thread a\n  remove 17\n  iter-mut stop 8 add 1\nthread b\n  remove 3\n  get 2\n    drop\n",
    "thread a\n  remove 17\n  shrink-to-fit\nthread b\n  remove 3\n  get 2\n    drop\n",
];

/// Ten pairs.
const TEN: &[(u64, u64)] = &[
    (2, 5),
    (1, 1),
    (3, 2),
    (5, 3),
    (7, 4),
    (9, 5),
    (11, 6),
    (13, 7),
    (15, 8),
    (17, 9),
];

#[test]
fn a_refused_visit_leaves_those_before_it(rt: HostRuntime) -> Result<(), Fail> {
    for programs in WALKS {
        try_each(
            &rt,
            Shortage {
                pairs: TEN,
                programs,
                steps: 50,
                refusals: Refusals::AtSome,
            },
        )?;
    }
    Ok(())
}

#[test]
fn calls_that_need_no_memory_are_never_refused(rt: HostRuntime) -> Result<(), Fail> {
    try_each(
        &rt,
        Shortage {
            pairs: &[(1, 5), (2, 6), (3, 7)],
            programs: "thread a\n  insert 1 6\n  entry 2\n    insert 9\n    drop\n  retain add 1 keep value < 9\nthread b\n  iter stop 0\n  try-entry 3\n    insert 8\n    drop\n  clear\n",
            steps: 60,
            refusals: Refusals::Never,
        },
    )
}
