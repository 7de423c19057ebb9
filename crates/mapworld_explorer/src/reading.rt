//! What a world comes to, read off it: what each call is answered, and the contents at the end.
ghost use Rattle.std.specs.Prelude.{◌≡◌, ◌++◌, length, map, IfOk, string_bytes};
ghost use Rattle.std.specs.declared.alloc.Global.{Global as Heap};
ghost use Rattle.mapworld_state.specs.State.{pairs_of};
ghost use Rattle.mapworld_text.specs.Texts.{contents_text};
ghost use Rattle.mapworld_explorer.specs.Outcomes.{of_thread, AreReadsWritten, AreRepliesTold, IsAnswerWritten};
ghost use Rattle.mapworld_explorer.specs.Outcomes.{IsContentsText, IsOutcomeBy, IsOutcomeOf, IsReplyTold};
ghost use Rattle.mapworld_explorer.specs.Standing.{HasEnded};

use crate::outcome::{Answering, Outcome, Written};
use crate::standing::has_ended;
use crate::worlds::{ExploreFault, World, world_behind};
use mapworld::{Answer, Reply, SpreadHasher, SpreadState, Step};
use mapworld_calls::Deed;
use mapworld_text::{Answered, Case, Change, Pairs, Shown};
use std::alloc::{AllocError, Global};
use std::hash::{BuildHasher, Hash, Hasher};

/// A call's answer in a world of a case.
pub(crate) type Replied = Reply<u64, u64, (u64, u64), Global>;

/// Writes what a walk has read. The order within a shard is open, so pairs stand by their keys.
fn write_reads(alloc: Global, reads: &[(u64, u64)], out: &mut String) -> Written
    ensures { IfOk result (λ _. AreReadsWritten reads.now (string_bytes out.old)
        (string_bytes out.new)) }
{
    let mut sorted = Vec::from_slice(alloc, reads)?;
    sorted.sort_unstable();
    let told: Answered = Answer::Reads(sorted);
    write!(out, "{}", Shown(&told))
}

/// Writes what a call is answered.
pub(crate) fn write_answer(alloc: Global, answer: &Answered, out: &mut String) -> Written
    ensures { IfOk result (λ _. IsAnswerWritten answer.now (string_bytes out.old)
        (string_bytes out.new)) }
{
    match answer {
        Answer::Reads(reads) => write_reads(alloc, reads, out),
        _ => write!(out, "{}", Shown(answer)),
    }
}

/// What a call is answered, as a text.
fn answering_of(alloc: Global, reply: &Replied) -> Result<Answering, AllocError>
    ensures { IfOk result (IsReplyTold reply.now) }
{
    let mut text = String::new(alloc);
    write_answer(alloc, &reply.answer, &mut text)?;
    Ok(Answering {
        thread: reply.thread,
        call: reply.call,
        text,
    })
}

/// Puts what a thread is answered behind what is told of others.
fn tell_thread(
    alloc: Global,
    replies: &[Replied],
    thread: usize,
    answers: &mut Vec<Answering>,
) -> Written
    ensures { (before : _) → AreRepliesTold before answers.old.items → IfOk result
        (λ _. AreRepliesTold (before ++ of_thread thread replies.now) answers.new.items) }
{
    for reply in replies {
        if reply.thread == thread {
            answers.push(answering_of(alloc, reply)?)?;
        }
    }
    Ok(())
}

/// The pairs of a world, as its shards have them.
fn pairs_in(alloc: Global, world: &World) -> Result<Vec<(u64, u64)>, AllocError>
    ensures { IfOk result (λ pairs. pairs.items ≡ pairs_of world.now) }
{
    let mut pairs = Vec::new(alloc);
    for (key, value) in world.pairs() {
        pairs.push((*key, *value))?;
    }
    Ok(pairs)
}

/// Pairs as they are written.
fn text_of(alloc: Global, pairs: &[(u64, u64)]) -> Result<String, AllocError>
    ensures { IfOk result (λ text. string_bytes text ≡ contents_text pairs.now) }
{
    match pairs {
        [] => String::from_str(alloc, "none"),
        [first, rest @ ..] => format!(in alloc; "{}={}{}", first.0, first.1, Pairs(rest)),
    }
}

/// The pairs of a world, by their keys.
pub(crate) fn contents_of(alloc: Global, world: &World) -> Result<String, AllocError>
    ensures { IfOk result
        (λ text. IsContentsText (pairs_of world.now) (string_bytes text)) }
{
    let mut pairs = pairs_in(alloc, world)?;
    pairs.sort_unstable();
    text_of(alloc, &pairs)
}

impl Outcome {
    /// Of a world at its end, which is a state reached by so many steps.
    pub fn of(
        alloc: Global,
        world: &World,
        state: usize,
        steps: usize,
    ) -> Result<Outcome, AllocError>
        ensures told { IfOk result (IsOutcomeOf world.now) }
        ensures end { IfOk result (λ outcome. (outcome.ends ≡ 1) × (outcome.state ≡ state) × (outcome.steps ≡ steps)) }
    {
        let mut answers = Vec::new(alloc);
        for thread in 0..world.threads() {
            tell_thread(alloc, world.replies(), thread, &mut answers)?;
        }
        Ok(Outcome {
            answers,
            contents: contents_of(alloc, world)?,
            ends: 1,
            state,
            steps,
        })
    }
}

/// What a world comes to that so many steps have led to its end.
fn outcome_at_end(alloc: Global, world: &World, steps: usize) -> Result<Outcome, ExploreFault>
    ensures told { IfOk result (λ outcome. HasEnded world.now × IsOutcomeOf world.now outcome) }
    ensures steps { IfOk result (λ outcome. outcome.steps ≡ steps) }
{
    if has_ended(world) {
        Ok(Outcome::of(alloc, world, 0, steps)?)
    } else {
        Err(ExploreFault::Unfinished)
    }
}

/// What a schedule of a case comes to: the answers and the contents of a world that was made of the case's shards,
/// pairs and programs, and that `run` has led there by these steps, as they are written. `Unfinished` where a thread of
/// that world can still move.
pub fn outcome_behind(
    alloc: Global,
    case: &Case<'_>,
    schedule: &[Step],
) -> Result<Outcome, ExploreFault>
    ensures told { let asked = map (λ program. program.items) case.now.programs.items in
        IfOk result (IsOutcomeBy Heap ⟦<Change as Deed<u64, u64>>⟧
        ⟦<SpreadState as BuildHasher>⟧ ⟦<SpreadHasher as Hasher>⟧ ⟦<u64 as PartialEq>⟧.eq ⟦<u64 as Hash>⟧.hash_input
        case.now.shards (record {}) case.now.pairs.items asked schedule.now) }
    ensures steps { IfOk result (λ outcome. outcome.steps ≡ length schedule.now) }
{
    let world = world_behind(alloc, case, schedule)?;
    outcome_at_end(alloc, &world, schedule.len())
}
