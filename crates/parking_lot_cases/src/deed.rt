//! What a line does in a world or asks of it, and what comes of it, as text.

use crate::words::{call, named, number, step};
use parking_lot_world::{LockAnswer, LockCall, SizeFault, World, WorldFault, WorldStep};
use std::alloc::{AllocError, Global};
use std::str::SplitWhitespace;

/// More steps than a call makes alone.
const MOST_STEPS: u32 = 50;

/// What is done in a world, or asked of it.
#[derive(Clone, Copy)]
enum Deed {
    /// A thread makes a call at a lock, to its answer or its sleep, and what it releases it hands over where this says
    /// so.
    Calls(usize, usize, LockCall, bool),
    /// A thread goes on, to its answer or its sleep.
    GoesOn(usize),
    /// A thread makes so many steps.
    Steps(usize, usize),
    /// What a thread's last call has answered.
    Answer(usize),
    Word(usize),
    Owners(usize),
    /// The list of a key.
    Queue(usize),
    Debts,
}

/// What came of a line, and whether it did what it says.
#[derive(Drop)]
pub struct Outcome {
    pub text: String,
    pub is_done: bool,
}

/// What the first word of a line says of a thread, a lock or a key, whose number comes next.
#[derive(Clone, Copy)]
enum Verb {
    /// What it releases is handed over where this says so.
    Call(bool),
    On,
    Steps,
    Answer,
    Word,
    Owners,
    Queue,
}

const VERBS: &[(&str, Verb)] = &[
    ("call", Verb::Call(false)),
    ("call_fairly", Verb::Call(true)),
    ("on", Verb::On),
    ("steps", Verb::Steps),
    ("answer", Verb::Answer),
    ("word", Verb::Word),
    ("owners", Verb::Owners),
    ("queue", Verb::Queue),
];

/// The call of a thread by the next words: the number of its lock, and what it asks for.
fn read_call(thread: usize, fair: bool, words: &mut SplitWhitespace<'_>) -> Option<Deed> {
    let lock = number(words)?;
    Some(Deed::Calls(thread, lock, call(words)?, fair))
}

/// A deed by a verb and the words behind it.
fn read_of(verb: Verb, words: &mut SplitWhitespace<'_>) -> Option<Deed> {
    let at = number(words)?;
    match verb {
        Verb::Call(fair) => read_call(at, fair, words),
        Verb::On => Some(Deed::GoesOn(at)),
        Verb::Steps => Some(Deed::Steps(at, number(words)?)),
        Verb::Answer => Some(Deed::Answer(at)),
        Verb::Word => Some(Deed::Word(at)),
        Verb::Owners => Some(Deed::Owners(at)),
        Verb::Queue => Some(Deed::Queue(at)),
    }
}

/// A deed by its words; `None` where the line isn't one.
fn read_deed(words: &mut SplitWhitespace<'_>) -> Option<Deed> {
    match words.next()? {
        "debts" => Some(Deed::Debts),
        verb => read_of(named(VERBS, verb)?, words),
    }
}

/// What a question is answered.
fn told(text: String) -> Outcome {
    Outcome {
        text,
        is_done: true,
    }
}

/// An answer, or that there is none yet.
fn of_answer(alloc: Global, answer: Option<LockAnswer>) -> Result<String, AllocError> {
    match answer {
        Some(answer) => format!(in alloc; "{answer:?}"),
        None => String::from_str(alloc, "none"),
    }
}

/// That steps were done, or why one wasn't, and behind how many.
fn of_run(alloc: Global, ran: Result<(), WorldFault>) -> Result<Outcome, AllocError> {
    let text = match ran {
        Ok(()) => String::from_str(alloc, "done")?,
        Err(WorldFault { done: 0, fault }) => format!(in alloc; "{fault:?}")?,
        Err(WorldFault { done, fault }) => format!(in alloc; "{fault:?} behind {done}")?,
    };
    Ok(Outcome {
        text,
        is_done: ran.is_ok(),
    })
}

/// One step of a thread.
fn go(world: &mut World, thread: usize, fair: bool) -> Result<(), WorldFault> {
    world.run(&[WorldStep::Go(thread, fair)])
}

/// A thread goes on until its call is answered or it can't. Answers whether that came.
fn goes_on(world: &mut World, thread: usize, fair: bool) -> bool {
    for _ in 0..MOST_STEPS {
        if world.answer(thread).is_some() || go(world, thread, fair).is_err() {
            return true;
        }
    }
    false
}

/// So many steps of a thread, up to the first that is refused.
fn steps(world: &mut World, thread: usize, count: usize) -> Result<(), WorldFault> {
    for _ in 0..count {
        let gone = go(world, thread, false);
        if gone.is_err() {
            return gone;
        }
    }
    Ok(())
}

/// A thread goes on, and what its call is answered then.
fn gone_on(
    alloc: Global,
    world: &mut World,
    thread: usize,
    fair: bool,
) -> Result<Outcome, AllocError> {
    let is_done = goes_on(world, thread, fair);
    let text = if is_done {
        of_answer(alloc, world.answer(thread))?
    } else {
        String::from_str(alloc, "no end")?
    };
    Ok(Outcome { text, is_done })
}

/// A thread makes a call at a lock, if it may.
fn called(
    alloc: Global,
    world: &mut World,
    begin: WorldStep,
    fair: bool,
) -> Result<Outcome, AllocError> {
    let begun = world.run(&[begin]);
    if begun.is_err() {
        return of_run(alloc, begun);
    }
    gone_on(alloc, world, begin.thread(), fair)
}

/// The owners of a lock.
fn owners(alloc: Global, world: &World, lock: usize) -> Result<String, AllocError> {
    match world.owners(lock) {
        Ok(owners) => format!(in alloc; "{owners:?}"),
        Err(fault) => format!(in alloc; "{fault:?}"),
    }
}

/// Some threads in their order.
fn of_threads(alloc: Global, threads: Result<Vec<usize>, SizeFault>) -> Result<String, AllocError> {
    match threads {
        Ok(threads) => format!(in alloc; "{threads:?}"),
        Err(fault) => format!(in alloc; "{fault:?}"),
    }
}

/// Makes a deed.
fn made(alloc: Global, world: &mut World, deed: Deed) -> Result<Outcome, AllocError> {
    let text = match deed {
        Deed::Calls(thread, lock, call, fair) => {
            return called(alloc, world, WorldStep::Begin(thread, lock, call), fair);
        }
        Deed::GoesOn(thread) => return gone_on(alloc, world, thread, false),
        Deed::Steps(thread, count) => return of_run(alloc, steps(world, thread, count)),
        Deed::Answer(thread) => of_answer(alloc, world.answer(thread)),
        Deed::Word(lock) => format!(in alloc; "{}", world.word(lock)),
        Deed::Owners(lock) => owners(alloc, world, lock),
        Deed::Queue(key) => of_threads(alloc, world.queue(key)),
        Deed::Debts => of_threads(alloc, world.debts()),
    };
    Ok(told(text?))
}

/// The steps of a line; `None` where it isn't such a line.
fn steps_of(alloc: Global, line: &str) -> Result<Option<Vec<WorldStep>>, AllocError> {
    let mut steps = Vec::new(alloc);
    for text in line.split(", ") {
        match step(text) {
            Some(step) => steps.push(step)?,
            None => return Ok(None),
        }
    }
    Ok(Some(steps))
}

/// Makes the deed that a line says, or its steps in one run.
pub fn make(alloc: Global, world: &mut World, line: &str) -> Result<Outcome, AllocError> {
    if let Some(deed) = read_deed(&mut line.split_whitespace()) {
        return made(alloc, world, deed);
    }
    match steps_of(alloc, line)? {
        Some(steps) => of_run(alloc, world.run(&steps)),
        None => Ok(Outcome {
            text: String::from_str(alloc, "it can't be read")?,
            is_done: false,
        }),
    }
}
