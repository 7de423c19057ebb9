//! What must be seen of a world that is at its end, and of what it showed on the way.

use crate::placing::{broken_by_blocks, broken_by_replies};
use crate::replay::{Broken, Made, Replay, Seen};
use mapworld_calls::{Block, Deed};
use std::alloc::AllocError;

/// What a world shows at a moment.
#[derive(Drop)]
pub struct Halfway {
    /// The threads of the steps so far.
    pub schedule: Vec<usize>,
    /// The deadlines so far: whose, and at which step.
    pub deadlines: Vec<(usize, u64)>,
    /// The contents.
    pub pairs: Vec<(u64, u64)>,
    /// How many replies there are.
    pub replies: usize,
    /// How many blocks there are.
    pub blocks: usize,
}

/// Whether each block shows the end of its call exactly where that is answered.
pub fn shows_ends(seen: Seen<'_>) -> bool {
    seen.blocks.iter().all(|block| is_ended(seen, block))
}

/// Whether the block shows the end of its call exactly where that is answered.
fn is_ended(seen: Seen<'_>, block: &Block<u64>) -> bool {
    match seen.reply(block.thread, block.call) {
        Some(reply) => block.end == Some(reply.end),
        None => block.end.is_none(),
    }
}

/// The rule that a world at its end breaks, with these contents and behind that many steps, if it breaks one. The
/// schedule is that of the first steps.
pub fn broken_at_end<D: Deed<u64, u64, Answer = (u64, u64)> + Copy>(
    made: Made<'_, D>,
    seen: Seen<'_>,
    pairs: &[(u64, u64)],
    steps: u64,
    schedule: &[usize],
) -> Result<Broken, AllocError> {
    if let Some(rule) = broken_by_replies(&made, seen) {
        return Ok(Some(rule));
    }
    if let Some(rule) = broken_by_blocks(seen, schedule) {
        return Ok(Some(rule));
    }
    let (replay, by_replay) = Replay::of(made, seen, steps)?;
    if by_replay.is_some() {
        return Ok(by_replay);
    }
    let holds = replay.may_hold(pairs) && replay.open_keys() == 0;
    Ok((!holds).then_some("the contents at the end are those of the replay"))
}

/// The rule that a world at its end shows to have been broken at a moment before, if one was.
pub fn broken_halfway<D: Deed<u64, u64, Answer = (u64, u64)> + Copy>(
    made: Made<'_, D>,
    seen: Seen<'_>,
    halfway: &Halfway,
) -> Result<Broken, AllocError> {
    let until = halfway.schedule.len() as u64;
    let answered = seen
        .replies
        .iter()
        .filter(|reply| reply.end <= until)
        .count();
    let listed = seen
        .blocks
        .iter()
        .filter(|block| block.position <= until)
        .count();
    if answered != halfway.replies || listed != halfway.blocks {
        return Ok(Some("steps only add replies and blocks"));
    }
    let (replay, by_replay) = Replay::of(made, seen, until)?;
    if by_replay.is_some() {
        return Ok(by_replay);
    }
    let holds = replay.may_hold(&halfway.pairs);
    Ok((!holds).then_some("the contents halfway are those of the replay"))
}
