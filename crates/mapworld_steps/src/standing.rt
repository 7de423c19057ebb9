//! Where a thread stands.
ghost use Rattle.std.specs.Prelude.{◌≡◌, length};
ghost use Rattle.mapworld_state.specs.Running.{status_before, status_of, moves_before, can_move_in, may_step};
ghost use Rattle.mapworld_state.specs.Core.{state_of};

use mapworld_state::locks::ShardLocks;
use mapworld_state::{Core, Phase, Place, Status, Step};
use std::alloc::Allocator;
use std::hash::Hash;

/// Where a thread stands that has that place.
fn status_at<K, V, D, T, A: Allocator>(
    locks: &ShardLocks<A>,
    thread: usize,
    place: &Place<K, V, D, T, A>,
) -> Status
    ensures { result ≡ status_before locks.now thread (length place.now.asks.items) place.now.phase }
{
    match &place.phase {
        Phase::Rest => {
            if place.asks.is_empty() {
                Status::Finished
            } else {
                Status::Running
            }
        }
        Phase::Admit(_)
        | Phase::Reach(_)
        | Phase::Visit(_)
        | Phase::Onward(_)
        | Phase::Idle(_)
        | Phase::Answer(_) => {
            if locks.is_asleep(thread) {
                Status::Asleep
            } else {
                Status::Running
            }
        }
        _ => Status::Running,
    }
}

/// Where a thread stands. One that the world doesn't have is finished.
pub fn status<K: Eq + Hash, V, S, D, T, A: Allocator>(
    core: &Core<K, V, S, D, T, A>,
    thread: usize,
) -> Status
    ensures { result ≡ status_of (state_of core.now) thread }
{
    match core.places.get(thread) {
        Some(place) => status_at(&core.locks, thread, place),
        None => Status::Finished,
    }
}

/// Whether a thread that has that place can make a step.
fn moves_at<K, V, D, T, A: Allocator>(
    locks: &ShardLocks<A>,
    thread: usize,
    place: &Place<K, V, D, T, A>,
) -> bool
    ensures { result ≡ moves_before locks.now thread (length place.now.asks.items) place.now.phase }
{
    match &place.phase {
        Phase::Rest => !place.asks.is_empty(),
        Phase::Admit(_)
        | Phase::Reach(_)
        | Phase::Visit(_)
        | Phase::Onward(_)
        | Phase::Idle(_)
        | Phase::Answer(_) => { !locks.is_in_call(thread) || locks.can_move(thread) }
        _ => true,
    }
}

/// Whether a step of a thread would be done. One of a thread that the world doesn't have would not.
pub fn can_move<K: Eq + Hash, V, S, D, T, A: Allocator>(
    core: &Core<K, V, S, D, T, A>,
    thread: usize,
) -> bool
    ensures { result ≡ can_move_in (state_of core.now) thread }
{
    match core.places.get(thread) {
        Some(place) => moves_at(&core.locks, thread, place),
        None => false,
    }
}

/// Whether a step would be done: its thread can make one, or, where it is the thread's deadline, the thread sleeps in a
/// call that has one.
pub fn may_step<K: Eq + Hash, V, S, D, T, A: Allocator>(
    core: &Core<K, V, S, D, T, A>,
    step: Step,
) -> bool
    ensures { result ≡ may_step (state_of core.now) step }
{
    if step.deadline {
        core.locks.may_expire(step.thread)
    } else {
        can_move(core, step.thread)
    }
}
