//! The worlds of cases.
ghost use Rattle.std.specs.Prelude.{◌≡◌, length, map, sum_by, IfOk};
ghost use Rattle.mapworld_calls.specs.Programs.{saturated};
ghost use Rattle.mapworld.specs.Making.{new_refusal, IsMadeUnless, IsNew};
ghost use Rattle.mapworld_state.specs.Running.{Ran};
ghost use Rattle.mapworld_state.specs.World.{setup_of};
ghost use Rattle.mapworld_explorer.specs.Led.{IsLedBy};

use mapworld::{MapWorld, NoMemory, RunFault, SpreadHasher, SpreadState, Step, WorldNewFault};
use mapworld_calls::{Ask, Deed};
use mapworld_text::{Asked, Case, Change, programs_again};
use std::alloc::{AllocError, AllocFailed, Allocator, Global};
use std::error::Error;
use std::fmt;
use std::hash::{BuildHasher, Hash, Hasher};

/// A world of a case.
pub type World = MapWorld<u64, u64, SpreadState, Change>;

/// Why a case isn't explored.
#[derive(Clone, Copy)]
pub enum ExploreFault {
    /// Its world isn't made.
    NotMade(WorldNewFault),
    /// A step that could be made before is refused.
    Refused(RunFault),
    /// A thread can still move behind a schedule that is to lead to an end.
    Unfinished,
    /// Room was refused.
    NoMemory,
}

impl fmt::Display for ExploreFault {
    fn fmt<W: fmt::Write>(&self, f: &mut fmt::Formatter<W>) -> fmt::Result {
        match self {
            ExploreFault::NotMade(fault) => write!(f, "the world isn't made: {}", fault.name()),
            ExploreFault::Refused(fault) => write!(f, "a step is refused: {}", fault.name()),
            ExploreFault::Unfinished => f.write_str("a thread can still move"),
            ExploreFault::NoMemory => f.write_str("out of memory"),
        }
    }
}

/// Shows what `Display` writes.
impl fmt::Debug for ExploreFault {
    fn fmt<W: fmt::Write>(&self, f: &mut fmt::Formatter<W>) -> fmt::Result {
        write!(f, "{self}")
    }
}

impl Error for ExploreFault {}

impl From<AllocError> for ExploreFault {
    fn from(_refused: AllocError) -> ExploreFault {
        ExploreFault::NoMemory
    }
}

impl<T: Drop> From<AllocFailed<T>> for ExploreFault {
    fn from(_refused: AllocFailed<T>) -> ExploreFault {
        ExploreFault::NoMemory
    }
}

impl From<NoMemory> for ExploreFault {
    fn from(_refused: NoMemory) -> ExploreFault {
        ExploreFault::NoMemory
    }
}

impl From<WorldNewFault> for ExploreFault {
    fn from(fault: WorldNewFault) -> ExploreFault {
        match fault {
            WorldNewFault::NoMemory => ExploreFault::NoMemory,
            _ => ExploreFault::NotMade(fault),
        }
    }
}

impl From<RunFault> for ExploreFault {
    fn from(fault: RunFault) -> ExploreFault {
        ExploreFault::Refused(fault)
    }
}

/// The world of a case, or why it isn't made.
pub fn world_of(alloc: Global, case: &Case<'_>) -> Result<Result<World, WorldNewFault>, AllocError>
    ensures refused { let asked = map (λ program. program.items) case.now.programs.items in
        IfOk result (IsMadeUnless (new_refusal case.now.shards (length case.now.pairs.items) asked)) }
    ensures made { let asked = map (λ program. program.items) case.now.programs.items in
        IfOk result (λ made. IfOk made
        (λ world. IsNew ⟦<u64 as PartialEq>⟧.eq case.now.shards world.hasher case.now.pairs.items asked world)) }
{
    let pairs = Vec::from_slice(alloc, &case.pairs)?;
    let programs = programs_again(alloc, &case.programs)?;
    Ok(MapWorld::new(alloc, case.shards, SpreadState, pairs, programs))
}

/// A new world of these programs, led by a schedule.
pub fn world_led_by<
    K: Eq + Hash + Drop,
    V: Drop,
    S: BuildHasher + Drop,
    D: Deed<K, V> + Drop,
    A: Allocator + Clone + Drop,
>(
    alloc: A,
    shards: usize,
    hasher: S,
    pairs: Vec<(K, V), A>,
    programs: Vec<Vec<Ask<K, V, D>, A>, A>,
    schedule: &[Step],
) -> Result<MapWorld<K, V, S, D, A>, ExploreFault>
    ensures { let asked = map (λ program. program.items) programs.items in
        IfOk result (IsLedBy D.Deed S.BuildHasher S.Hasher.Hasher K.eq K.hash_input shards hasher pairs.items asked
        schedule.now) }
{
    match MapWorld::new(alloc, shards, hasher, pairs, programs) {
        Ok(world) => led_on(world, schedule),
        Err(fault) => Err(ExploreFault::from(fault)),
    }
}

/// A world, led on by a schedule.
fn led_on<
    K: Eq + Hash + Drop,
    V: Drop,
    S: BuildHasher + Drop,
    D: Deed<K, V> + Drop,
    A: Allocator + Clone + Drop,
>(
    world: MapWorld<K, V, S, D, A>,
    schedule: &[Step],
) -> Result<MapWorld<K, V, S, D, A>, ExploreFault>
    ensures { let setup = setup_of D.Deed S.BuildHasher S.Hasher.Hasher K.eq K.hash_input world in
        IfOk result (Ran setup 0 world schedule.now) }
{
    let mut world = world;
    match world.run(schedule) {
        Ok(()) => Ok(world),
        Err(fault) => Err(ExploreFault::from(fault)),
    }
}

/// The world of a case behind a schedule: it was made of the case's shards, pairs and programs, and `run` has led it
/// there by these steps.
pub fn world_behind(
    alloc: Global,
    case: &Case<'_>,
    schedule: &[Step],
) -> Result<World, ExploreFault>
    ensures { let asked = map (λ program. program.items) case.now.programs.items in
        IfOk result (IsLedBy ⟦<Change as Deed<u64, u64>>⟧ ⟦<SpreadState as BuildHasher>⟧ ⟦<SpreadHasher as Hasher>⟧
        ⟦<u64 as PartialEq>⟧.eq ⟦<u64 as Hash>⟧.hash_input case.now.shards (record {}) case.now.pairs.items asked
        schedule.now) }
{
    let pairs = Vec::from_slice(alloc, &case.pairs)?;
    let programs = programs_again(alloc, &case.programs)?;
    world_led_by(alloc, case.shards, SpreadState, pairs, programs, schedule)
}

/// How many calls so many programs have.
fn calls_in(programs: &[Vec<Asked>]) -> usize
    ensures { result ≡ saturated (sum_by (λ program. length program.items) programs.now) }
{
    let mut calls: usize = 0;
    for program in programs {
        calls = calls.saturating_add(program.len());
    }
    calls
}

/// How many calls the programs have; the greatest number where there are more.
pub fn calls_of(case: &Case<'_>) -> usize
    ensures { result ≡ saturated (sum_by (λ program. length program.items) case.now.programs.items) }
{
    calls_in(&case.programs)
}

/// Makes steps in a world; they are as `run` promises.
pub(crate) fn go(world: &mut World, steps: &[Step]) -> Result<(), RunFault> {
    world.run(steps)
}
