//! Worlds with many calls, by which steps are timed: threads that call keys of their own, or one key.

use mapworld::{Ask, Deed, Keyed, MapWorld, Step, WorldNewFault};
use std::alloc::{AllocError, AllocFailed, Allocator};
use std::hash::{BuildHasherDefault, FoldHasher};

pub type Fold = BuildHasherDefault<FoldHasher>;

pub type World<A> = MapWorld<u64, u64, Fold, ReadValue, A>;

type Program<A> = Vec<Ask<u64, u64, ReadValue>, A>;

/// Where the threads of a world call.
#[derive(Clone, Copy, PartialEq, Eq)]
pub enum Keys {
    /// Each calls a key of its own, and there are so many shards that few threads call one.
    Apart,
    /// All call one key.
    One,
}

impl Keys {
    fn shards(self) -> usize {
        match self {
            Keys::Apart => 4096,
            Keys::One => 2,
        }
    }

    fn key(self, thread: usize) -> u64 {
        match self {
            Keys::Apart => thread as u64,
            Keys::One => 0,
        }
    }
}

/// The world can't be made, run or told of.
#[derive(Debug, Drop)]
pub struct Fault;

impl From<WorldNewFault> for Fault {
    fn from(_refused: WorldNewFault) -> Fault {
        Fault
    }
}

impl From<AllocError> for Fault {
    fn from(_refused: AllocError) -> Fault {
        Fault
    }
}

impl<T: Drop> From<AllocFailed<T>> for Fault {
    fn from(_refused: AllocFailed<T>) -> Fault {
        Fault
    }
}

/// Reads a pair's value, and would keep the pair and leave the value.
#[derive(Drop)]
pub struct ReadValue;

impl Deed<u64, u64> for ReadValue {
    type Answer = u64;

    ghost use Rattle.std.specs.Prelude.{true};

    ghost answer_of = { λ deed key value. value };

    ghost keeps = { λ deed key value. true };

    ghost effect_of = { λ deed key value. value };

    fn answer(&self, _key: &u64, value: &u64) -> u64 {
        *value
    }

    fn keep(&self, _key: &u64, _value: &u64) -> bool {
        true
    }

    fn effect(&self, _key: &u64, value: u64) -> u64 {
        value
    }
}

/// Call number `i` on the key: it is stored, read and looked for, and taken out.
fn call(key: u64, i: usize) -> Ask<u64, u64, ReadValue> {
    match i % 4 {
        0 => Ask::Keyed(Keyed::Insert(key, key)),
        1 => Ask::Keyed(Keyed::View(key, ReadValue)),
        2 => Ask::Keyed(Keyed::ContainsKey(key)),
        _ => Ask::Keyed(Keyed::Remove(key)),
    }
}

/// So many calls on the key.
fn program_on<A: Allocator>(alloc: A, key: u64, calls: usize) -> Result<Program<A>, AllocError> {
    let mut program = Vec::with_capacity(alloc, calls)?;
    for i in 0..calls {
        program.push(call(key, i))?;
    }
    Ok(program)
}

/// The programs of so many threads, each of so many calls.
fn programs_of<A: Allocator + Copy>(
    alloc: A,
    threads: usize,
    calls: usize,
    keys: Keys,
) -> Result<Vec<Program<A>, A>, AllocError> {
    let mut programs = Vec::with_capacity(alloc, threads)?;
    for thread in 0..threads {
        programs.push(program_on(alloc, keys.key(thread), calls)?)?;
    }
    Ok(programs)
}

/// A world of so many threads, which share so many calls.
pub fn world_of<A: Allocator + Copy + Drop>(
    alloc: A,
    threads: usize,
    calls: usize,
    keys: Keys,
) -> Result<World<A>, Fault> {
    let each = calls.checked_div(threads).unwrap_or(0);
    let programs = programs_of(alloc, threads, each, keys)?;
    let hasher = Fold::new();
    Ok(MapWorld::new(alloc, keys.shards(), hasher, Vec::new(alloc), programs)?)
}

/// Gives each thread one step, if it can move.
fn step_each<A: Allocator + Clone + Drop>(world: &mut World<A>) {
    for thread in 0..world.threads() {
        let _ = world.run(&[Step {
            thread,
            fair: false,
            deadline: false,
        }]);
    }
}

/// Steps the threads in turn until a whole turn makes no step.
pub fn run_through<A: Allocator + Clone + Drop>(world: &mut World<A>) {
    for _ in 0..world.bound() {
        let before = world.steps();
        step_each(world);
        if world.steps() == before {
            break;
        }
    }
}
