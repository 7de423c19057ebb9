//! The report: a world of two threads that insert, read and remove, its replies and its contents, and what two callers
//! in threads of their own leave behind.
#![tactic(auto)]

ghost use Rattle.mapworld_report.specs.Report.{LeavesOnFault};

use crate::callers::{CallersFault, gathered};
use mapworld::{
    Answer, Ask, Begin, Deed, Held, Keyed, MapWorld, NoMemory, Reply, RunFault, SpreadState, Step,
    WorldNewFault,
};
use std::alloc::{AllocError, AllocFailed, Allocator, Global};
use std::io;
use std::sync::Wait;
use std::thread::Threads;

/// Why a report ended early.
#[derive(Debug, Drop)]
pub enum ReportFault {
    /// A call of the library was refused, or a reply is `NoMemory`: its code and its name. Nothing was written.
    Fault { code: u16, name: &'static str },
    /// The writer failed.
    Write,
}

impl From<WorldNewFault> for ReportFault {
    fn from(fault: WorldNewFault) -> ReportFault {
        ReportFault::Fault {
            code: fault.code(),
            name: fault.name(),
        }
    }
}

impl From<RunFault> for ReportFault {
    fn from(fault: RunFault) -> ReportFault {
        ReportFault::Fault {
            code: fault.code(),
            name: fault.name(),
        }
    }
}

impl From<NoMemory> for ReportFault {
    fn from(fault: NoMemory) -> ReportFault {
        ReportFault::Fault {
            code: fault.code(),
            name: "NoMemory",
        }
    }
}

impl From<CallersFault> for ReportFault {
    fn from(fault: CallersFault) -> ReportFault {
        ReportFault::Fault {
            code: fault.code(),
            name: fault.name(),
        }
    }
}

impl From<AllocError> for ReportFault {
    fn from(_refused: AllocError) -> ReportFault {
        ReportFault::from(NoMemory)
    }
}

impl<T: Drop> From<AllocFailed<T>> for ReportFault {
    fn from(_refused: AllocFailed<T>) -> ReportFault {
        ReportFault::from(NoMemory)
    }
}

/// Reads a pair's value, and would keep the pair and leave the value.
#[derive(Drop)]
struct ReadValue;

impl Deed<u64, u64> for ReadValue {
    type Answer = u64;

    ghost use Rattle.std.specs.Prelude.{true};

    ghost answer_of = { λ deed key value. value };

    ghost keeps = { λ deed key value. true };

    ghost effect_of = { λ deed key value. value };

    fn answer(&self, _key: &u64, value: &u64) -> u64 {
        *value
    }

    fn keep(&self, _key: &u64, _value: &u64) -> bool {
        true
    }

    fn effect(&self, _key: &u64, value: u64) -> u64 {
        value
    }
}

type World<A> = MapWorld<u64, u64, SpreadState, ReadValue, A>;

type Program<A> = Vec<Ask<u64, u64, ReadValue>, A>;

/// Writes the replies by thread and call, then the contents by key, and last how many calls of two callers in threads
/// are gathered.
/// The whole text is made first, so on a fault nothing is written.
///
/// The world and the text lie in memory of `alloc`, and what the callers share in that of `shared`.
pub fn report<R: Threads + Wait + Sync + Copy, A: Allocator + Clone + Drop, W: io::Write>(
    rt: R,
    alloc: A,
    shared: Global,
    out: &mut W,
) -> Result<(), ReportFault>
    ensures { LeavesOnFault result out.old out.new }
{
    let mut world = made(&alloc)?;
    run_once(&mut world, 0)?;
    run_through(&mut world, 1)?;
    let _ = world.drain();
    let mut text = told(&alloc, &world)?;
    writeln!(text, "gathered: {} entries", gathered(rt, shared)?)?;
    out.write_all(text.as_bytes())
        .map_err(|_| ReportFault::Write)
}

fn first_program<A: Allocator>(alloc: A) -> Result<Program<A>, AllocError> {
    let mut program = Vec::with_capacity(alloc, 4)?;
    program.push(Ask::Keyed(Keyed::Insert(1, 10)))?;
    program.push(Ask::Begin(Begin::Get(1)))?;
    program.push(Ask::Held(Held::Read(ReadValue)))?;
    program.push(Ask::Held(Held::Drop))?;
    Ok(program)
}

fn second_program<A: Allocator>(alloc: A) -> Result<Program<A>, AllocError> {
    let mut program = Vec::with_capacity(alloc, 2)?;
    program.push(Ask::Keyed(Keyed::Insert(1, 20)))?;
    program.push(Ask::Keyed(Keyed::Remove(2)))?;
    Ok(program)
}

/// A world of two shards with an empty map.
fn made<A: Allocator + Clone + Drop>(alloc: &A) -> Result<World<A>, ReportFault> {
    let mut programs = Vec::with_capacity(alloc.clone()?, 2)?;
    programs.push(first_program(alloc.clone()?)?)?;
    programs.push(second_program(alloc.clone()?)?)?;
    let pairs = Vec::new(alloc.clone()?);
    Ok(MapWorld::new(alloc.clone()?, 2, SpreadState, pairs, programs)?)
}

fn run_once<A: Allocator + Clone + Drop>(
    world: &mut World<A>,
    thread: usize,
) -> Result<(), RunFault> {
    world.run(&[Step {
        thread,
        fair: false,
        deadline: false,
    }])
}

/// Steps the thread while it can move.
fn run_through<A: Allocator + Clone + Drop>(
    world: &mut World<A>,
    thread: usize,
) -> Result<(), RunFault> {
    for _ in 0..world.bound() {
        if !world.can_move(thread) {
            break;
        }
        run_once(world, thread)?;
    }
    Ok(())
}

fn told<A: Allocator + Clone + Drop>(
    alloc: &A,
    world: &World<A>,
) -> Result<String<A>, ReportFault> {
    if world
        .replies()
        .iter()
        .any(|reply| matches!(reply.answer, Answer::NoMemory))
    {
        return Err(ReportFault::from(NoMemory));
    }
    let mut text = String::new(alloc.clone()?);
    for thread in 0..2 {
        for reply in world.replies() {
            if reply.thread == thread {
                tell_reply(&mut text, reply)?;
            }
        }
    }
    let mut pairs = world.contents()?;
    pairs.sort_by_key(|pair| *pair.0)?;
    for (key, value) in &pairs {
        writeln!(text, "pair {key}: {value}")?;
    }
    Ok(text)
}

fn tell_reply<A: Allocator>(
    text: &mut String<A>,
    reply: &Reply<u64, u64, u64, A>,
) -> Result<(), AllocError> {
    let thread = reply.thread;
    let call = reply.call;
    write!(text, "thread {thread} call {call}: ")?;
    match &reply.answer {
        Answer::Done => writeln!(text, "done"),
        Answer::None => writeln!(text, "none"),
        Answer::Value(value) => writeln!(text, "value {value}"),
        Answer::Pair(key, value) => writeln!(text, "pair {key}: {value}"),
        Answer::Key(key) => writeln!(text, "key {key}"),
        Answer::Read(value) => writeln!(text, "value {value}"),
        Answer::Held => writeln!(text, "held"),
        Answer::Vacant => writeln!(text, "vacant"),
        Answer::NoGuard => writeln!(text, "no guard"),
        Answer::WrongGuard => writeln!(text, "wrong guard"),
        Answer::Flag(flag) => writeln!(text, "{flag}"),
        Answer::Count(count) => writeln!(text, "{count}"),
        Answer::Reads(values) => writeln!(text, "values {values:?}"),
        Answer::Locked => writeln!(text, "locked"),
        Answer::NoMemory => writeln!(text, "no memory"),
    }
}

pub mod callers;
