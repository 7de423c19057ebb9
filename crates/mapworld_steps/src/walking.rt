//! The steps of walks that wait for a shard's lock, or owe something to one.
ghost use Rattle.std.specs.Prelude.{◌≡◌, true, None, MatchBool, is_some};
ghost use Rattle.parking_lot_machine.specs.Machines.{can_move, ended};
ghost use Rattle.parking_lot_machine.specs.Rows.{state};
ghost use Rattle.mapworld_state.specs.Locks.Stands.{stand_in};
ghost use Rattle.mapworld_state.specs.declared.place.Phase.TheVariants as phase;
ghost use Rattle.mapworld_state.specs.Running.{has_next, goes_on};
ghost use Rattle.mapworld_state.specs.Core.{state_of, Room, IsBefore, IsSoundCore, IsSlotted, MakesStep};
ghost use Rattle.mapworld_state.specs.Steps.{Reaches, GivesNone, IsOwnStep};

use crate::ends::answer;
use crate::queues::{leave_lock, move_lock};
use crate::walks::{look, part, start_visit};
use mapworld_calls::Deed;
use mapworld_state::{Core, Hold, Phase, Step};
use mapworld_transitions::moves::enter;
use mapworld_transitions::walks::{entered_phase, walk_answer, walk_mode};
use std::alloc::Allocator;
use std::hash::{BuildHasher, Hash};
use std::mem;

/// Ends an admission of a walk: the lock's call is answered, and the place has the hold. Whether it has the last shard
/// beside. It is part of the step that comes next.
fn reach_shard<K: Eq + Hash + Drop, V: Drop, S: BuildHasher, D: Deed<K, V> + Drop, A: Allocator>(
    core: &mut Core<K, V, S, D, D::Answer, A>,
    thread: usize,
) -> bool
    requires sound { IsSoundCore D.Deed S.BuildHasher S.Hasher.Hasher K.eq K.hash_input core.old }
    requires room { Room core.old }
    requires slots { IsSlotted D.Deed S.BuildHasher S.Hasher.Hasher K.eq K.hash_input core.old }
    requires before { (walk : _) × IsBefore (state_of core.old).places thread (phase.Reach walk) }
    requires over { is_some (ended (state core.old.locks.rows) thread) ≡ true }
    ensures reaches { Reaches (state_of core.old) thread (state_of core.new) }
    ensures next { MatchBool result
        ((walk : _) × IsBefore (state_of core.new).places thread (phase.Part walk))
        ((walk : _) × IsBefore (state_of core.new).places thread (phase.Visit walk)) }
    ensures out { stand_in (state_of core.new).locks thread ≡ None }
    ensures sound { IsSoundCore D.Deed S.BuildHasher S.Hasher.Hasher K.eq K.hash_input core.new }
    ensures room { Room core.new }
    ensures slots { IsSlotted D.Deed S.BuildHasher S.Hasher.Hasher K.eq K.hash_input core.new }
    ensures numbers { has_next (state_of core.new) ≡ has_next (state_of core.old) }
{
    let place = &mut core.places[thread];
    let walk = match mem::replace(&mut place.phase, Phase::Rest) {
        Phase::Reach(walk) => walk,
        _ => unreachable!(),
    };
    let hold = Hold {
        shard: place.shard,
        mode: walk_mode(&walk),
    };
    let beside = !place.holds.is_empty();
    let next = entered_phase(walk, &place.holds);
    place.holds.push(hold);
    enter(&mut place.phase, next);
    core.locks.finish(thread);
    beside
}

/// A step of a walk that waits for its next shard: one of the lock's call, or where that is over the release of the
/// last shard, or the look.
pub(crate) fn reach<
    K: Eq + Hash + Drop,
    V: Drop,
    S: BuildHasher,
    D: Deed<K, V> + Drop,
    A: Allocator + Clone,
>(core: &mut Core<K, V, S, D, D::Answer, A>, step: Step)
    requires sound { IsSoundCore D.Deed S.BuildHasher S.Hasher.Hasher K.eq K.hash_input core.old }
    requires room { Room core.old }
    requires slots { IsSlotted D.Deed S.BuildHasher S.Hasher.Hasher K.eq K.hash_input core.old }
    requires numbers { has_next (state_of core.old) ≡ true }
    requires before { (walk : _) × IsBefore (state_of core.old).places step.thread (phase.Reach walk) }
    requires moves { can_move (state core.old.locks.rows) step.thread ≡ true }
    ensures step { MakesStep IsOwnStep D.Deed S.BuildHasher S.Hasher.Hasher K.eq K.hash_input core.old step core.new }
    ensures room { Room core.new }
    ensures slots { IsSlotted D.Deed S.BuildHasher S.Hasher.Hasher K.eq K.hash_input core.new }
{
    if core.locks.ended(step.thread).is_none() {
        move_lock(core, step);
    } else if reach_shard(core, step.thread) {
        part(core, step);
    } else {
        look(core, step);
    }
}

/// A step of a walk that has its shard: one of what it still owes to the last shard's lock, or the look.
pub(crate) fn visit<
    K: Eq + Hash + Drop,
    V: Drop,
    S: BuildHasher,
    D: Deed<K, V> + Drop,
    A: Allocator + Clone,
>(core: &mut Core<K, V, S, D, D::Answer, A>, step: Step)
    requires sound { IsSoundCore D.Deed S.BuildHasher S.Hasher.Hasher K.eq K.hash_input core.old }
    requires room { Room core.old }
    requires slots { IsSlotted D.Deed S.BuildHasher S.Hasher.Hasher K.eq K.hash_input core.old }
    requires numbers { has_next (state_of core.old) ≡ true }
    requires before { (walk : _) × IsBefore (state_of core.old).places step.thread (phase.Visit walk) }
    requires moves { goes_on (state_of core.old).locks step.thread ≡ true }
    ensures step { MakesStep IsOwnStep D.Deed S.BuildHasher S.Hasher.Hasher K.eq K.hash_input core.old step core.new }
    ensures room { Room core.new }
    ensures slots { IsSlotted D.Deed S.BuildHasher S.Hasher.Hasher K.eq K.hash_input core.new }
{
    if !core.locks.is_in_call(step.thread) {
        look(core, step);
    } else if core.locks.ended(step.thread).is_some() {
        leave_lock(core, step.thread);
        look(core, step);
    } else {
        move_lock(core, step);
    }
}

/// A step of a walk between two visits: one of what it still owes to the last shard's lock, or the start of the next
/// visit.
pub(crate) fn onward<
    K: Eq + Hash + Drop,
    V: Drop,
    S: BuildHasher,
    D: Deed<K, V> + Drop,
    A: Allocator,
>(core: &mut Core<K, V, S, D, D::Answer, A>, step: Step)
    requires sound { IsSoundCore D.Deed S.BuildHasher S.Hasher.Hasher K.eq K.hash_input core.old }
    requires room { Room core.old }
    requires slots { IsSlotted D.Deed S.BuildHasher S.Hasher.Hasher K.eq K.hash_input core.old }
    requires numbers { has_next (state_of core.old) ≡ true }
    requires before { (walk : _) × IsBefore (state_of core.old).places step.thread (phase.Onward walk) }
    requires moves { goes_on (state_of core.old).locks step.thread ≡ true }
    ensures step { MakesStep IsOwnStep D.Deed S.BuildHasher S.Hasher.Hasher K.eq K.hash_input core.old step core.new }
    ensures room { Room core.new }
    ensures slots { IsSlotted D.Deed S.BuildHasher S.Hasher.Hasher K.eq K.hash_input core.new }
{
    if !core.locks.is_in_call(step.thread) {
        start_visit(core, step);
    } else if core.locks.ended(step.thread).is_some() {
        leave_lock(core, step.thread);
        start_visit(core, step);
    } else {
        move_lock(core, step);
    }
}

/// A walk that is to give no item has read nothing. It is part of the step of the answer.
fn give_none<K: Eq + Hash + Drop, V: Drop, S: BuildHasher, D: Deed<K, V> + Drop, A: Allocator>(
    core: &mut Core<K, V, S, D, D::Answer, A>,
    thread: usize,
)
    requires sound { IsSoundCore D.Deed S.BuildHasher S.Hasher.Hasher K.eq K.hash_input core.old }
    requires room { Room core.old }
    requires slots { IsSlotted D.Deed S.BuildHasher S.Hasher.Hasher K.eq K.hash_input core.old }
    requires before { (walk : _) × IsBefore (state_of core.old).places thread (phase.Idle walk) }
    ensures gives { GivesNone (state_of core.old) thread (state_of core.new) }
    ensures told { (answer : _) × IsBefore (state_of core.new).places thread (phase.Answer answer) }
    ensures out { stand_in (state_of core.new).locks thread ≡ None }
    ensures sound { IsSoundCore D.Deed S.BuildHasher S.Hasher.Hasher K.eq K.hash_input core.new }
    ensures room { Room core.new }
    ensures slots { IsSlotted D.Deed S.BuildHasher S.Hasher.Hasher K.eq K.hash_input core.new }
    ensures numbers { has_next (state_of core.new) ≡ has_next (state_of core.old) }
{
    let place = &mut core.places[thread];
    let walk = match mem::replace(&mut place.phase, Phase::Rest) {
        Phase::Idle(walk) => walk,
        _ => unreachable!(),
    };
    let answer = walk_answer(&walk, &mut place.reads, &mut place.lists, 0);
    enter(&mut place.phase, Phase::Answer(answer));
}

/// The answer of a walk that was to give no item.
pub(crate) fn idle<
    K: Eq + Hash + Drop,
    V: Drop,
    S: BuildHasher,
    D: Deed<K, V> + Drop,
    A: Allocator,
>(core: &mut Core<K, V, S, D, D::Answer, A>, step: Step)
    requires sound { IsSoundCore D.Deed S.BuildHasher S.Hasher.Hasher K.eq K.hash_input core.old }
    requires room { Room core.old }
    requires slots { IsSlotted D.Deed S.BuildHasher S.Hasher.Hasher K.eq K.hash_input core.old }
    requires numbers { has_next (state_of core.old) ≡ true }
    requires before { (walk : _) × IsBefore (state_of core.old).places step.thread (phase.Idle walk) }
    ensures step { MakesStep IsOwnStep D.Deed S.BuildHasher S.Hasher.Hasher K.eq K.hash_input core.old step core.new }
    ensures room { Room core.new }
    ensures slots { IsSlotted D.Deed S.BuildHasher S.Hasher.Hasher K.eq K.hash_input core.new }
{
    give_none(core, step.thread);
    answer(core, step);
}
