//! Where the blocks of a finished world stand, which replies have none, what stood beside a try that is locked, and
//! which deadline came for a call that gave up.

use crate::plain::{has_deadline, is_drop, is_opening, is_try, is_walk, may_grow, stop_of};
use crate::replay::{Broken, Made, Seen};
use crate::said::{Replied, Said};
use mapworld_calls::{Ask, Block};

/// Whether the number of a call's blocks is one that its answer may have.
fn has_its_blocks<D>(
    made: &Made<'_, D>,
    seen: Seen<'_>,
    reply: &Replied<'_>,
    call: &Ask<u64, u64, D>,
) -> bool {
    let blocks = seen.blocks_of(reply.thread, reply.call);
    if is_walk(call) {
        return match reply.answer {
            Said::NoMemory => blocks < made.shards,
            Said::Reads(reads) if stop_of(call) == Some(0) => blocks == 0 && reads.is_empty(),
            _ => blocks > 0,
        };
    }
    if call.key().is_none() {
        return blocks == 0;
    }
    match reply.answer {
        Said::Locked => (is_try(call) || has_deadline(call)) && blocks == 0,
        Said::NoMemory => may_grow(call) && blocks == 0,
        _ => blocks == 1,
    }
}

/// Whether a call on a guard is answered `NoGuard` where its session has no block.
fn is_guarded<D>(made: &Made<'_, D>, seen: Seen<'_>, reply: &Replied<'_>) -> bool {
    let opening = (0..reply.call).rev().find(|call| match made.call(reply.thread, *call) {
        Some(before) => before.key().is_some() || is_walk(before) || is_drop(before),
        None => false,
    });
    let has_block = match opening {
        Some(call) => {
            made.call(reply.thread, call).is_some_and(is_opening)
                && seen.blocks_of(reply.thread, call) == 1
        }
        None => false,
    };
    has_block || reply.answer == Said::NoGuard
}

/// Whether the deadline of a call's thread came while the call was under way.
fn is_late(seen: Seen<'_>, reply: &Replied<'_>) -> bool {
    seen.deadlines.iter().any(|(thread, step)| *thread == reply.thread
        && reply.start < *step
        && *step < reply.end)
}

/// The rule of calls that are answered `Locked` that is broken, if one is.
fn broken_by_locked<D>(
    made: &Made<'_, D>,
    seen: Seen<'_>,
    reply: &Replied<'_>,
    call: &Ask<u64, u64, D>,
) -> Broken {
    if reply.answer != Said::Locked {
        None
    } else if has_deadline(call) {
        (!is_late(seen, reply)).then_some("a call with a deadline is locked only behind it")
    } else {
        (!has_cause(made, seen, reply, call)).then_some("a locked try has a cause")
    }
}

/// The rule of replies that is broken, if one is.
pub fn broken_by_replies<D>(made: &Made<'_, D>, seen: Seen<'_>) -> Broken {
    let mut last = 0;
    for reply in seen.replies {
        let Some(call) = made.call(reply.thread, reply.call) else {
            return Some("a reply is of a call of its program");
        };
        if reply.end <= last || reply.start >= reply.end || reply.start == 0 {
            return Some("replies come in the order of their ends, each behind its start");
        }
        last = reply.end;
        if !has_its_blocks(made, seen, reply, call) {
            return Some("a call has the blocks that its answer needs");
        }
        let is_held = call.key().is_none() && !is_walk(call);
        if is_held && !is_guarded(made, seen, reply) {
            return Some("without a guard's block it is NoGuard");
        }
        let by_locked = broken_by_locked(made, seen, reply, call);
        if by_locked.is_some() {
            return by_locked;
        }
    }
    (seen.replies.len() != made.calls()).then_some("each call is answered")
}

/// Whether a step is the thread's, where the list of the first steps shows it.
fn is_own(schedule: &[usize], step: u64, thread: usize) -> bool {
    match (step as usize).checked_sub(1) {
        Some(i) => schedule.get(i).is_none_or(|made| *made == thread),
        None => false,
    }
}

/// Whether a block stands within its call, by steps of its own thread.
fn is_placed(block: &Block<u64>, reply: &Replied<'_>, schedule: &[usize]) -> bool {
    let is_shown = block.start == reply.start && block.end == Some(reply.end);
    let is_within = block.start <= block.position && block.position < reply.end;
    let is_own_step = [block.start, block.position, reply.end]
        .iter()
        .all(|step| is_own(schedule, *step, block.thread));
    is_shown && is_within && is_own_step
}

/// The rule of blocks that is broken, if one is. The schedule is that of the first steps.
pub fn broken_by_blocks(seen: Seen<'_>, schedule: &[usize]) -> Broken {
    let mut last = 0;
    for block in seen.blocks {
        if block.position <= last {
            return Some("positions rise");
        }
        last = block.position;
        match seen.reply(block.thread, block.call) {
            Some(reply) if is_placed(block, reply, schedule) => {}
            _ => return Some("a block stands at an own step within its call"),
        }
    }
    None
}

/// From which step until which one a call is on a shard.
type On = Option<(u64, u64)>;

/// When a call that finds its key is on its shard: a session until the answer of the call that ends its guard.
fn keyed_on<D>(
    made: &Made<'_, D>,
    seen: Seen<'_>,
    reply: &Replied<'_>,
    call: &Ask<u64, u64, D>,
) -> On {
    let mut end = reply.end;
    if is_opening(call) {
        let calls = made.programs.get(reply.thread)?;
        for (j, call) in calls.iter().enumerate().skip(reply.call.saturating_add(1)) {
            let of_guard = seen.reply(reply.thread, j)?;
            if of_guard.answer != Said::NoGuard {
                end = of_guard.end;
            }
            if is_drop(call) {
                break;
            }
        }
    }
    Some((reply.start, end))
}

/// The position of a walk's visit.
fn visit_at(seen: Seen<'_>, reply: &Replied<'_>, visit: usize) -> Option<u64> {
    let found = seen.blocks.iter().find(|block| block.thread == reply.thread
        && block.call == reply.call
        && block.visit == visit);
    found.map(|block| block.position)
}

/// When a walk is on a shard.
fn walk_on(seen: Seen<'_>, reply: &Replied<'_>, shard: usize) -> On {
    let from = match shard.checked_sub(1) {
        Some(before) => visit_at(seen, reply, before)?,
        None => reply.start,
    };
    let until = visit_at(seen, reply, shard.saturating_add(2)).unwrap_or(reply.end);
    Some((from, until))
}

/// When a call is on a shard.
fn call_on<D>(made: &Made<'_, D>, seen: Seen<'_>, reply: &Replied<'_>, shard: usize) -> On {
    let call = made.call(reply.thread, reply.call)?;
    match call.key() {
        Some(key) if seen.route(*key) == shard => keyed_on(made, seen, reply, call),
        None if is_walk(call) => walk_on(seen, reply, shard),
        _ => None,
    }
}

/// Whether another thread's call is on a try's shard at a step of the try.
fn has_cause<D>(
    made: &Made<'_, D>,
    seen: Seen<'_>,
    locked: &Replied<'_>,
    call: &Ask<u64, u64, D>,
) -> bool {
    let Some(key) = call.key() else {
        return false;
    };
    let shard = seen.route(*key);
    seen.replies.iter().any(|reply| reply.thread != locked.thread
        && match call_on(made, seen, reply, shard) {
            Some((from, until)) => from < locked.end && locked.start < until,
            None => false,
        })
}
