//! Worlds of maps, whose threads go by a schedule.

use crate::maps::wanted;
use crate::memory::{Memory, is_done, listed};
use dashmap_table::SpreadState;
use mapworld::{MapWorld, NoMemory, Status, Step, WorldNewFault};
use mapworld_text::{Asked, Case as Text, Change, Shown, read};
use refusing_heap::{Case, Heap, Line, Said, Seen, made, refused_growth};
use std::alloc::{AllocError, Global};

type World<A> = MapWorld<u64, u64, SpreadState, Change, A>;

const SHARDS: usize = 2;

/// Keys at first, each with 0, and programs; and what is told behind them: where all is done, and where the first
/// growth is refused, the second, .., and behind the last of these alike. The programs are drained once thread 0 has
/// made so many steps, and then thread 1 as many as it can, which sleeps then.
#[derive(Clone, Copy)]
pub struct Played(
    &'static [u64],
    &'static str,
    usize,
    &'static str,
    &'static [&'static str],
);

type Programs<A> = Vec<Vec<Asked, A>, A>;

fn program_in<A: Memory>(alloc: A, program: Vec<Asked>) -> Option<Vec<Asked, A>> {
    let (mut moved, mut is_moved) = (Vec::new(alloc), true);
    for ask in program {
        is_moved &= moved.push(ask).is_ok();
    }
    match is_moved {
        true => Some(moved),
        false => None,
    }
}

/// Adds a program to those in this memory.
fn add<A: Memory>(alloc: A, programs: &mut Programs<A>, program: Vec<Asked>) -> bool {
    match program_in(alloc, program) {
        Some(program) => programs.push(program).is_ok(),
        None => false,
    }
}

/// The programs of a text.
fn programs_of(alloc: Global, text: &str) -> Option<Vec<Vec<Asked>>> {
    Some(read(alloc, text).ok()?.pop()?.programs)
}

fn programs_in<A: Memory>(heap: &Heap, alloc: A, text: &str) -> Option<Programs<A>> {
    let (mut moved, mut are_moved) = (Vec::new(alloc), true);
    for program in programs_of(*heap.inner(), text)? {
        are_moved &= add(alloc, &mut moved, program);
    }
    match are_moved {
        true => Some(moved),
        false => None,
    }
}

/// Pairs in this memory: these keys, each with 0.
fn pairs_in<A: Memory>(alloc: A, keys: &[u64]) -> Option<Vec<(u64, u64), A>> {
    let mut pairs = Vec::new(alloc);
    for key in keys {
        pairs.push((*key, 0)).ok()?;
    }
    Some(pairs)
}

/// A world of these keys and of the programs of a text, and how many growths were asked for before.
fn world_of<A: Memory>(
    heap: &Heap,
    alloc: A,
    keys: &[u64],
    text: &str,
) -> Option<(u64, Result<World<A>, WorldNewFault>)> {
    let programs = programs_in(heap, alloc, text)?;
    let pairs = pairs_in(alloc, keys)?;
    let before = heap.asked();
    Some((
        before,
        MapWorld::new(alloc, SHARDS, SpreadState, pairs, programs),
    ))
}

/// Makes so many steps of a thread, or as many as it can.
fn go<A: Memory>(world: &mut World<A>, thread: usize, steps: usize) {
    let step = Step {
        thread,
        fair: false,
        deadline: false,
    };
    for _ in 0..steps {
        if world.run(&[step]).is_err() {
            return;
        }
    }
}

fn count_of<A: Memory>(world: &World<A>) -> u64 {
    let mut count = 0u64;
    for _pair in world.pairs() {
        count = count.wrapping_add(1);
    }
    count
}

/// Adds who was answered what, and whose the blocks are.
fn tell_calls<A: Memory>(world: &World<A>, text: &mut String) -> Result<(), AllocError> {
    for reply in world.replies() {
        write!(text, "{} {}, ", reply.thread, Shown(&reply.answer))?;
    }
    text.push_str("blocks")?;
    for block in world.blocks() {
        write!(text, " {}", block.thread)?;
    }
    Ok(())
}

/// Adds the pairs of the keys 1 and 2, and how many pairs there are.
fn tell_pairs<A: Memory>(world: &World<A>, text: &mut String) -> Result<(), AllocError> {
    text.push_str(";")?;
    for key in 1..3 {
        if let Some((key, value)) = world.pair(&key) {
            write!(text, " {key}={value}")?;
        }
    }
    write!(text, " of {}", count_of(world))
}

/// Adds both.
fn tell<A: Memory>(world: &World<A>, text: &mut String) -> Result<(), AllocError> {
    tell_calls(world, text)?;
    tell_pairs(world, text)
}

fn is_told<A: Memory>(alloc: Global, world: &World<A>, wanted: &str) -> bool {
    let mut text = String::new(alloc);
    tell(world, &mut text).is_ok() && text.as_str() == wanted
}

/// Whether each word is 0, nobody waits in a queue, and each thread is at its end.
fn is_at_rest<A: Memory>(world: &World<A>) -> bool {
    let mut rests = true;
    for key in 0..2 * SHARDS {
        let queue = listed(world.queue(key), 0, NoMemory);
        rests &= is_done(queue) && world.word(key / 2) == 0;
    }
    for thread in 0..world.threads() {
        rests &= world.status(thread) == Status::Finished;
    }
    rests
}

/// Plays in a world to its end, and compares what is told then.
fn play<A: Memory>(heap: &Heap, world: &mut World<A>, played: Played) -> Option<Seen> {
    let Played(_, _, steps, done, refused) = played;
    go(world, 0, steps);
    let mut sleeps = true;
    if steps > 0 {
        go(world, 1, 100);
        sleeps = world.status(1) == Status::Asleep;
    }
    let before = heap.asked();
    let drained = world.drain();
    let behind = heap.asked();
    let wanted = wanted(done, refused, refused_growth(heap, before));
    let is_right = is_told(*heap.inner(), world, wanted) && is_at_rest(world);
    Seen::of(before, behind, is_right && sleeps && drained > 0)
}

/// A call that makes a world, or looks at one whose thread 1 waits for what thread 0 holds.
#[derive(Clone, Copy)]
pub enum Whole {
    New,
    Contents,
    Queue,
}

const HELD: &str = "thread a\n  get-mut 1\n    drop\nthread b\n  insert 1 7\n";

/// What came of a view that is to list one pair or thread.
fn list<A: Memory>(world: &World<A>, call: Whole) -> Said {
    match call {
        Whole::Contents => listed(world.contents(), 1, NoMemory),
        _ => listed(world.queue(2), 1, NoMemory),
    }
}

/// Looks at a world. A view may do with less memory than it asks for first.
fn look<A: Memory>(heap: &Heap, world: &mut World<A>, call: Whole) -> Option<Seen> {
    go(world, 0, 6);
    go(world, 1, 100);
    let before = heap.asked();
    let said = list(world, call);
    let behind = heap.asked();
    let has_pair = is_done(list(world, Whole::Contents));
    let is_kept = has_pair && is_done(list(world, Whole::Queue));
    Seen::of(before, behind, said.may_fit(heap) && is_kept)
}

/// What a world is made for.
#[derive(Clone, Copy)]
enum Aim {
    Play(Played),
    Look(Whole),
}

/// Plays in a world, or looks at it.
fn ask<A: Memory>(heap: &Heap, world: &mut World<A>, aim: Aim) -> Option<Seen> {
    match aim {
        Aim::Play(played) => play(heap, world, played),
        Aim::Look(call) => look(heap, world, call),
    }
}

/// The same in a new world.
fn ask_new<A: Memory>(
    heap: &Heap,
    world: Result<World<A>, WorldNewFault>,
    aim: Aim,
) -> Option<Seen> {
    match world {
        Ok(mut world) => ask(heap, &mut world, aim),
        Err(_) => None,
    }
}

/// Makes a world of these keys and of the programs of a text, and plays in it or looks at it.
fn with_world<A: Memory>(
    heap: &Heap,
    alloc: A,
    keys: &[u64],
    text: &str,
    aim: Aim,
) -> Option<Seen> {
    match world_of(heap, alloc, keys, text) {
        Some((_, world)) => ask_new(heap, world, aim),
        None => None,
    }
}

/// Makes a world.
fn make_world<A: Memory>(heap: &Heap, alloc: A) -> Option<Seen> {
    match world_of(heap, alloc, &[1, 2], HELD) {
        Some((before, world)) => made(world, WorldNewFault::NoMemory).seen(heap, before, true),
        None => None,
    }
}

impl<R: Drop> Case<R> for Played {
    fn run(self, _rt: R, heap: &Heap) -> Option<Seen> {
        with_world(heap, heap, self.0, self.1, Aim::Play(self))
    }
}

impl<R: Drop> Case<R> for Whole {
    fn run(self, _rt: R, heap: &Heap) -> Option<Seen> {
        match self {
            Whole::New => make_world(heap, heap),
            _ => with_world(heap, heap, &[1], HELD, Aim::Look(self)),
        }
    }
}

const ALONE: &str = "NoMemory; no pair; the others go on; each word is 0";

const EARLIER: &str = "NoMemory; what earlier visits did; each word is 0";

const INSERT: &str = "thread a\n  insert 1 9\nthread b\n  get 1\n    drop\n";

const INSERTED: &str = "0 none, 1 held, 1 done, blocks 0 1; 1=9 of 1";

const SET: &str = "0 value 0, 1 held, 1 done, blocks 0 1; 1=9 of 1";

const NOT_INSERTED: &[&str] = &["0 no-memory, 1 none, 1 no-guard, blocks 1; of 0"];

const BY_DEADLINE: &str = "thread a\n  insert-until 1 9\nthread b\n  get 1\n    drop\n";

const ENTRY: &str = "thread a\n  entry 1\n    insert 9\n    drop\nthread b\n  get 1\n    drop\n";

const TRY: &str = "thread a\n  try-entry 1\n    insert 9\n    drop\nthread b\n  get 1\n    drop\n";

const ENTERED: &str = "0 vacant, 0 held, 0 done, 1 held, 1 done, blocks 0 1; 1=9 of 1";

const NOT_ENTERED: &[&str] = &[
    "0 no-memory, 0 no-guard, 0 no-guard, 1 none, 1 no-guard, blocks 1; of 0",
];

const READ: &str = "0 reads 2=0 1=0, blocks 0 0; 1=0 2=0 of 2";

const NOT_READ: &[&str] = &[
    "0 no-memory, blocks; 1=0 2=0 of 2",
    "0 no-memory, blocks 0; 1=0 2=0 of 2",
];

const WRITTEN: &str = "0 reads 2=0 1=0, blocks 0 0; 1=1 2=1 of 2";

const NOT_WRITTEN: &[&str] = &[
    "0 no-memory, blocks; 1=0 2=0 of 2",
    "0 no-memory, blocks 0; 1=0 2=1 of 2",
];

/// More keys of one shard than the least room is for, and one of the other.
const MANY: &[u64] = &[1, 2, 3, 5, 7, 9, 11, 13, 15, 17, 19, 21, 23, 25, 27, 29];

const SHRINK: &str = "thread a\n  remove 29\n  shrink-to-fit\n";

const SHRUNK: &str = "0 pair 29=0, 0 done, blocks 0 0 0; 1=0 2=0 of 15";

const NOT_SHRUNK: &[&str] = &["0 pair 29=0, 0 no-memory, blocks 0 0; 1=0 2=0 of 15"];

const ITER: &str = "thread a\n  iter\n";

const ITER_MUT: &str = "thread a\n  iter-mut add 1\n";

const INSERTS: Played = Played(&[], INSERT, 5, INSERTED, NOT_INSERTED);

const INSERTS_IN_TIME: Played = Played(&[], BY_DEADLINE, 5, INSERTED, NOT_INSERTED);

const SETS: Played = Played(&[1], INSERT, 5, SET, &[]);

const ENTERS: Played = Played(&[], ENTRY, 5, ENTERED, NOT_ENTERED);

const TRIES: Played = Played(&[], TRY, 4, ENTERED, NOT_ENTERED);

const READS: Played = Played(&[1, 2], ITER, 0, READ, NOT_READ);

const WRITES: Played = Played(&[1, 2], ITER_MUT, 0, WRITTEN, NOT_WRITTEN);

const SHRINKS: Played = Played(MANY, SHRINK, 0, SHRUNK, NOT_SHRUNK);

pub const LINES: &[Line<Played>] = &[
    ("Insert, beside a sleeper", INSERTS, ALONE),
    ("Insert, of a key that is there", SETS, "takes none"),
    ("InsertUntil, beside a sleeper", INSERTS_IN_TIME, ALONE),
    ("Entry, beside a sleeper", ENTERS, ALONE),
    ("TryEntry, beside a sleeper", TRIES, ALONE),
    ("Iter, two visits", READS, EARLIER),
    ("IterMut, two visits", WRITES, EARLIER),
    ("ShrinkToFit, two shards", SHRINKS, EARLIER),
];

pub const WHOLE: &[Line<Whole>] = &[
    ("new", Whole::New, "nothing is made"),
    ("contents", Whole::Contents, "pairs, queues"),
    ("queue", Whole::Queue, "pairs, queues"),
];
