//! What must be seen of a world in each of its states.

use crate::worlds::{World, run};
use mapworld::{RunFault, Status, Step};
use mapworld_explorer::{Ahead, ahead_of};
use parking_lot_core_model::{Place, ThreadStatus};
use parking_lot_machine::Act;
use std::alloc::Global;
use std::test::Fail;

/// In how many queues a thread stands; more than one, where one can't be looked at.
fn places_of(world: &World, thread: usize) -> usize {
    let mut places: usize = 0;
    for key in 0..world.shards().saturating_mul(2) {
        match world.queue(key) {
            Ok(threads) if threads.contains(&thread) => places = places.saturating_add(1),
            Ok(_) => {}
            Err(_) => return 5,
        }
    }
    places
}

/// How many sections are open: one at most in each bucket of queues.
pub fn open_sections(world: &World) -> usize {
    let lot = world.locks().machine().lot();
    (0..lot.buckets())
        .filter(|bucket| lot.is_entered(*bucket))
        .count()
}

/// How many threads are in a section.
fn threads_inside(world: &World) -> usize {
    let lot = world.locks().machine().lot();
    (0..world.threads())
        .filter(|thread| lot.status(*thread) == Some(ThreadStatus::InSection))
        .count()
}

/// The queue whose section a thread enters next, if it is before one: one of its shard's two, or the one in which its
/// deadline has come.
fn queue_before(world: &World, thread: usize) -> Option<usize> {
    let machine = world.locks().machine();
    let call = machine.call(thread)?;
    let first = call.lock.saturating_mul(2);
    match (call.core.act(), machine.lot().place(thread)) {
        (Act::Enter(0), _) => Some(first),
        (Act::Enter(_), _) => Some(first.saturating_add(1)),
        (Act::Sleep, Some(Place::Waiting(key, sleep))) if sleep.late => Some(key),
        (Act::Sleep, Some(Place::Taken(_, key, sleep, _))) if sleep.late => Some(key),
        _ => None,
    }
}

/// Whether a thread before a section can move exactly where none is open in the bucket of its queue: the queue's number
/// modulo the number of buckets.
fn is_shut_out_by_bucket(world: &World, thread: usize) -> bool {
    let lot = world.locks().machine().lot();
    match queue_before(world, thread) {
        Some(queue) => match queue.checked_rem(lot.buckets()) {
            Some(bucket) => world.can_move(thread) != lot.is_entered(bucket),
            None => false,
        },
        None => true,
    }
}

/// Whether one that sleeps can't move, and stands in one queue or was taken out of it; and one that has finished
/// stands in none.
fn stands(world: &World, thread: usize) -> bool {
    let places = places_of(world, thread);
    match world.status(thread) {
        Status::Running => places <= 1,
        Status::Asleep => places <= 1 && !world.can_move(thread),
        Status::Finished => places == 0 && !world.can_move(thread),
    }
}

/// The rule that the threads of a state break, if they break one.
pub fn broken_by_threads(world: &World) -> Option<&'static str> {
    let threads = world.threads();
    let is_over = (0..threads).all(|thread| world.status(thread) == Status::Finished);
    if !(0..threads).all(|thread| stands(world, thread)) {
        Some("a thread stands in one queue at most, and one that sleeps can't move")
    } else if !is_over && !(0..threads).any(|thread| world.can_move(thread)) {
        Some("somebody can move while a call isn't answered")
    } else if threads_inside(world) != open_sections(world) {
        Some("a section is open in a bucket for each thread that is in one")
    } else if !(0..threads).all(|thread| is_shut_out_by_bucket(world, thread)) {
        Some("a thread before a section can move where none is open in its bucket")
    } else {
        None
    }
}

/// Whether a step that can't be made is refused, and changes nothing.
fn is_refused(alloc: Global, world: &mut World, ahead: &Ahead, step: Step) -> Result<bool, Fail> {
    let is_refused = run(world, &[step]) == Err(RunFault::CannotMove(0));
    Ok(is_refused && ahead_of(alloc, world)? == *ahead)
}

/// Whether a thread's step is refused where it can't move, and its deadline where that can't come; and they change
/// nothing.
fn refuses_of(
    alloc: Global,
    world: &mut World,
    ahead: &Ahead,
    thread: usize,
) -> Result<bool, Fail> {
    let step = Step {
        thread,
        fair: false,
        deadline: false,
    };
    let late = Step {
        deadline: true,
        ..step
    };
    let stays = world.can_move(thread) || is_refused(alloc, world, ahead, step)?;
    Ok(stays && (world.locks().may_expire(thread) || is_refused(alloc, world, ahead, late)?))
}

/// Whether a step of each thread that can't move is refused, and so is each deadline that can't come; and they change
/// nothing.
pub fn refuses(alloc: Global, world: &mut World, ahead: &Ahead) -> Result<bool, Fail> {
    let mut is_kept = true;
    for thread in 0..world.threads() {
        is_kept &= refuses_of(alloc, world, ahead, thread)?;
    }
    Ok(is_kept)
}
