//! Worlds for the other tests: how they are made, stepped and looked at.

use dashmap_table::SpreadState;
use mapworld::{Block, Deed, MapWorld, NoMemory, RunFault, Status, Step};
use mapworld_oracle::said::{Replied, Said, replies_of};
use mapworld_text::{Asked, Change, Shown, programs_again, read};
use std::alloc::{AllocError, Allocator, Global};
use std::fmt;
use std::hash::{BuildHasher, Hash};
use std::test::Fail;

/// A world of numbers.
pub type World<S = SpreadState, A = Global> = MapWorld<u64, u64, S, Change, A>;

/// A world as tests step it, whatever its keys, its hasher and its memory are.
pub trait Stepped {
    fn threads(&self) -> usize;

    fn bound(&self) -> u64;

    /// How many steps were made.
    fn steps(&self) -> u64;

    fn status(&self, thread: usize) -> Status;

    fn can_move(&self, thread: usize) -> bool;

    /// Makes a step, or says why it can't be made.
    fn make(&mut self, step: Step) -> Result<(), RunFault>;
}

impl<
    K: Eq + Hash + Drop,
    V: Drop,
    S: BuildHasher,
    D: Deed<K, V> + Drop,
    A: Allocator + Clone,
> Stepped for MapWorld<K, V, S, D, A> {
    fn threads(&self) -> usize {
        MapWorld::threads(self)
    }

    fn bound(&self) -> u64 {
        MapWorld::bound(self)
    }

    fn steps(&self) -> u64 {
        MapWorld::steps(self)
    }

    fn status(&self, thread: usize) -> Status {
        MapWorld::status(self, thread)
    }

    fn can_move(&self, thread: usize) -> bool {
        MapWorld::can_move(self, thread)
    }

    fn make(&mut self, step: Step) -> Result<(), RunFault> {
        self.run(&[step])
    }
}

/// A world of numbers as tests look at it, whatever its hasher and its memory are.
pub trait Numbers: Stepped + fmt::Debug {
    /// Makes all steps that are left, and says how many these are.
    fn drain(&mut self) -> u64;

    /// Whether the thread's deadline may come.
    fn may_expire(&self, thread: usize) -> bool;

    /// The word of a shard.
    fn word(&self, shard: usize) -> u64;

    /// Whether nobody waits in a queue.
    fn is_empty(&self, queue: usize) -> bool;

    /// The shard that a key is on.
    fn route(&self, key: u64) -> usize;

    /// The stored pair of a key.
    fn found(&self, key: u64) -> Option<(u64, u64)>;

    /// How many pairs the contents have.
    fn count(&self) -> Result<usize, NoMemory>;

    /// The pairs, as a walk meets them.
    fn walked(&self, alloc: Global) -> Result<Vec<(u64, u64)>, AllocError>;

    fn blocks(&self) -> &[Block<u64>];

    /// What calls were answered.
    fn said(&self, alloc: Global) -> Result<Vec<Replied<'_>>, AllocError>;

    /// What the calls of all threads were answered, in the words of a report, and how many blocks each thread has.
    fn told(&self, alloc: Global) -> Result<String, AllocError>;
}

impl<S: BuildHasher, A: Allocator + Clone + Drop> Numbers for World<S, A> {
    fn drain(&mut self) -> u64 {
        MapWorld::drain(self)
    }

    fn may_expire(&self, thread: usize) -> bool {
        self.locks().may_expire(thread)
    }

    fn word(&self, shard: usize) -> u64 {
        MapWorld::word(self, shard)
    }

    fn is_empty(&self, queue: usize) -> bool {
        match self.queue(queue) {
            Ok(threads) => threads.is_empty(),
            Err(_) => false,
        }
    }

    fn route(&self, key: u64) -> usize {
        self.shard_of(&key)
    }

    fn found(&self, key: u64) -> Option<(u64, u64)> {
        match self.pair(&key) {
            Some((key, value)) => Some((*key, *value)),
            None => None,
        }
    }

    fn count(&self) -> Result<usize, NoMemory> {
        match self.contents() {
            Ok(pairs) => Ok(pairs.len()),
            Err(refused) => Err(refused),
        }
    }

    fn walked(&self, alloc: Global) -> Result<Vec<(u64, u64)>, AllocError> {
        let mut pairs = Vec::new(alloc);
        for (key, value) in self.pairs() {
            pairs.push((*key, *value))?;
        }
        Ok(pairs)
    }

    fn blocks(&self) -> &[Block<u64>] {
        MapWorld::blocks(self)
    }

    fn said(&self, alloc: Global) -> Result<Vec<Replied<'_>>, AllocError> {
        replies_of(alloc, self.replies())
    }

    fn told(&self, alloc: Global) -> Result<String, AllocError> {
        let mut text = String::new(alloc);
        for thread in 0..MapWorld::threads(self) {
            write_replies(self, thread, &mut text)?;
            write!(
                text,
                "blocks {}; ",
                count_of(MapWorld::blocks(self), thread)
            )?;
        }
        Ok(text)
    }
}

/// Writes what the calls of a thread were answered.
fn write_replies<S: BuildHasher, A: Allocator>(
    world: &World<S, A>,
    thread: usize,
    text: &mut String,
) -> Result<(), AllocError> {
    for reply in world.replies() {
        if reply.thread == thread {
            write!(text, "{}, ", Shown(&reply.answer))?;
        }
    }
    Ok(())
}

/// How many of the blocks are a thread's.
fn count_of(blocks: &[Block<u64>], thread: usize) -> usize {
    let own = blocks.iter().filter(|block| block.thread == thread);
    own.count()
}

/// How many calls were answered so.
pub fn count_said<W: Numbers>(
    alloc: Global,
    world: &W,
    answer: Said<'_>,
) -> Result<usize, AllocError> {
    let said = world.said(alloc)?;
    Ok(said.iter().filter(|reply| reply.answer == answer).count())
}

/// The programs of a text.
pub fn programs_of(alloc: Global, text: &str) -> Result<Vec<Vec<Asked>>, Fail> {
    let cases = read(alloc, text)?;
    match cases.last() {
        Some(case) => Ok(programs_again(alloc, &case.programs)?),
        None => Ok(Vec::new(alloc)),
    }
}

/// The same program, in another memory.
fn copy_of<A: Allocator>(alloc: A, program: &[Asked]) -> Result<Vec<Asked, A>, AllocError> {
    let mut copy = Vec::with_capacity(alloc, program.len())?;
    for ask in program {
        copy.push(ask.clone()?)?;
    }
    Ok(copy)
}

/// The same programs, in another memory.
fn copies_of<A: Allocator + Copy>(
    alloc: A,
    programs: &[Vec<Asked>],
) -> Result<Vec<Vec<Asked, A>, A>, AllocError> {
    let mut copies = Vec::with_capacity(alloc, programs.len())?;
    for program in programs {
        copies.push(copy_of(alloc, program)?)?;
    }
    Ok(copies)
}

/// A world of so many shards that begins with these pairs, and has a thread for each of the programs; all is in one
/// memory. None where it isn't made.
pub fn world_of<S: BuildHasher + Drop, A: Allocator + Copy + Drop>(
    alloc: A,
    shards: usize,
    hasher: S,
    pairs: &[(u64, u64)],
    programs: &[Vec<Asked>],
) -> Option<World<S, A>> {
    let pairs = Vec::from_slice(alloc, pairs).ok()?;
    let asked = copies_of(alloc, programs).ok()?;
    MapWorld::new(alloc, shards, hasher, pairs, asked).ok()
}

/// What is looked for in a world.
pub trait Look {
    /// What is seen.
    type Seen: Drop;

    fn look<W: Numbers>(self, alloc: Global, world: &mut W) -> Result<Self::Seen, Fail>;
}

/// Makes a world in a memory, and looks at it. None where it isn't made.
pub fn looked_in<S: BuildHasher + Drop, A: Allocator + Copy + Drop, L: Look + Drop>(
    alloc: Global,
    memory: A,
    shards: usize,
    hasher: S,
    pairs: &[(u64, u64)],
    programs: &[Vec<Asked>],
    look: L,
) -> Result<Option<L::Seen>, Fail> {
    match world_of(memory, shards, hasher, pairs, programs) {
        Some(mut world) => Ok(Some(look.look(alloc, &mut world)?)),
        None => Ok(None),
    }
}

/// Makes a world of the programs of a text, of so many shards, that begins with these pairs; and looks at it.
pub fn looked_by<S: BuildHasher + Drop, L: Look + Drop>(
    alloc: Global,
    shards: usize,
    hasher: S,
    pairs: &[(u64, u64)],
    text: &str,
    look: L,
) -> Result<L::Seen, Fail> {
    let programs = programs_of(alloc, text)?;
    match looked_in(alloc, alloc, shards, hasher, pairs, &programs, look)? {
        Some(seen) => Ok(seen),
        None => Err(Fail::new("no world")),
    }
}

/// The same, with a hasher that spreads numbers.
pub fn looked_at<L: Look + Drop>(
    alloc: Global,
    shards: usize,
    pairs: &[(u64, u64)],
    text: &str,
    look: L,
) -> Result<L::Seen, Fail> {
    looked_by(alloc, shards, SpreadState, pairs, text, look)
}

/// Makes as many steps of the thread, and says whether all of them were done.
pub fn step_times<W: Stepped>(world: &mut W, thread: usize, times: usize) -> bool {
    let step = Step {
        thread,
        fair: false,
        deadline: false,
    };
    let mut done = true;
    for _ in 0..times {
        done &= world.make(step).is_ok();
    }
    done
}

/// Steps the thread while it can move, and says whether all steps were done.
pub fn step_through<W: Stepped>(world: &mut W, thread: usize) -> bool {
    let mut done = true;
    for _ in 0..world.bound() {
        if !world.can_move(thread) {
            break;
        }
        done &= step_times(world, thread, 1);
    }
    done
}

/// Steps each thread once in turn, if it can move; says whether one could, and whether all of these steps were done.
fn step_each<W: Stepped>(world: &mut W) -> (bool, bool) {
    let mut moved = false;
    let mut done = true;
    for thread in 0..world.threads() {
        if world.can_move(thread) {
            done &= step_times(world, thread, 1);
            moved = true;
        }
    }
    (moved, done)
}

/// Steps the threads in turn, each once if it can move, until none can; and says whether all steps were done.
pub fn step_round<W: Stepped>(world: &mut W) -> bool {
    let mut all_done = true;
    for _ in 0..world.bound() {
        let (moved, done) = step_each(world);
        if !moved {
            break;
        }
        all_done &= done;
    }
    all_done
}

/// Whether each thread is at its end.
pub fn are_finished<W: Stepped>(world: &W) -> bool {
    (0..world.threads()).all(|thread| world.status(thread) == Status::Finished)
}
