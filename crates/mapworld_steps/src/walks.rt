//! The steps of walks between their shards and within them, but for the deeds.
ghost use Rattle.std.specs.Prelude.{◌≡◌, true, None, ◌∷◌};
ghost use Rattle.mapworld_state.specs.Locks.Steps.{LockStarts, MayAsk};
ghost use Rattle.mapworld_state.specs.Locks.Stands.{stand_in};
ghost use Rattle.mapworld_state.specs.declared.place.Phase.TheVariants as phase;
ghost use Rattle.mapworld_state.specs.Holds.{gives_up};
ghost use Rattle.mapworld_state.specs.Running.{has_next};
ghost use Rattle.mapworld_state.specs.Core.{state_of, Room, IsBefore, IsSoundCore, IsSlotted, MakesStep};
ghost use Rattle.mapworld_state.specs.Steps.{StartsVisit, Seeks};
ghost use Rattle.mapworld_steps.specs.Visits.{LooksOrIsRefused, Gives, PartsOnly};

use crate::ends::take_first;
use arrayvec::ArrayVec;
use mapworld_calls::{Answer, Deed};
use mapworld_state::locks::ShardLocks;
use mapworld_state::{Core, Hold, Phase, Step};
use mapworld_transitions::blocks::{Started, list_visit};
use mapworld_transitions::holds::{asks_for, gives_up};
use mapworld_transitions::moves::enter;
use mapworld_transitions::walks::{
    first_slot, lead_on, looked_count, looked_keys, make_ready, walk_mode,
};
use std::alloc::Allocator;
use std::hash::{BuildHasher, Hash};
use std::mem;

/// The first of these holds ends: the release of its shard's lock begins, and makes its first act.
fn give_first<A: Allocator>(locks: &mut ShardLocks<A>, holds: &mut ArrayVec<Hold, 2>, step: Step)
    requires first { (hold : _) × (more : _) × (holds.old.items ≡ hold ∷ more) }
    requires may { (hold : _) (more : _) → holds.old.items ≡ hold ∷ more
        → MayAsk step.thread hold.shard (gives_up hold.mode) locks.old }
    ensures { (hold : _) × (holds.old.items ≡ hold ∷ holds.new.items)
        × LockStarts step.thread hold.shard (gives_up hold.mode) step.fair locks.old locks.new }
{
    let hold = take_first(holds);
    locks.start(step.thread, hold.shard, gives_up(hold.mode), step.fair);
}

/// A walk that has its next shard parts with the last one.
pub(crate) fn part<
    K: Eq + Hash + Drop,
    V: Drop,
    S: BuildHasher,
    D: Deed<K, V> + Drop,
    A: Allocator,
>(core: &mut Core<K, V, S, D, D::Answer, A>, step: Step)
    requires sound { IsSoundCore D.Deed S.BuildHasher S.Hasher.Hasher K.eq K.hash_input core.old }
    requires room { Room core.old }
    requires slots { IsSlotted D.Deed S.BuildHasher S.Hasher.Hasher K.eq K.hash_input core.old }
    requires numbers { has_next (state_of core.old) ≡ true }
    requires before { (walk : _) × IsBefore (state_of core.old).places step.thread (phase.Part walk) }
    ensures step { MakesStep PartsOnly D.Deed S.BuildHasher S.Hasher.Hasher K.eq K.hash_input core.old step core.new }
    ensures room { Room core.new }
    ensures slots { IsSlotted D.Deed S.BuildHasher S.Hasher.Hasher K.eq K.hash_input core.new }
{
    let place = &mut core.places[step.thread];
    let walk = match mem::replace(&mut place.phase, Phase::Rest) {
        Phase::Part(walk) => walk,
        _ => unreachable!(),
    };
    give_first(&mut core.locks, &mut place.holds, step);
    enter(&mut place.phase, Phase::Visit(walk));
    core.count += 1;
    core.steps = core.steps.appended(&step);
}

/// A walk that holds one shard at a time gives it back.
pub(crate) fn give<
    K: Eq + Hash + Drop,
    V: Drop,
    S: BuildHasher,
    D: Deed<K, V> + Drop,
    A: Allocator,
>(core: &mut Core<K, V, S, D, D::Answer, A>, step: Step)
    requires sound { IsSoundCore D.Deed S.BuildHasher S.Hasher.Hasher K.eq K.hash_input core.old }
    requires room { Room core.old }
    requires slots { IsSlotted D.Deed S.BuildHasher S.Hasher.Hasher K.eq K.hash_input core.old }
    requires numbers { has_next (state_of core.old) ≡ true }
    requires before { (walk : _) × IsBefore (state_of core.old).places step.thread (phase.Give walk) }
    ensures step { MakesStep Gives D.Deed S.BuildHasher S.Hasher.Hasher K.eq K.hash_input core.old step core.new }
    ensures room { Room core.new }
    ensures slots { IsSlotted D.Deed S.BuildHasher S.Hasher.Hasher K.eq K.hash_input core.new }
{
    let place = &mut core.places[step.thread];
    let walk = match mem::replace(&mut place.phase, Phase::Rest) {
        Phase::Give(walk) => walk,
        _ => unreachable!(),
    };
    give_first(&mut core.locks, &mut place.holds, step);
    enter(&mut place.phase, Phase::Onward(walk));
    core.count += 1;
    core.steps = core.steps.appended(&step);
}

/// A pair of the visit is found that isn't done: that of the slot which the place keeps.
pub(crate) fn seek<
    K: Eq + Hash + Drop,
    V: Drop,
    S: BuildHasher,
    D: Deed<K, V> + Drop,
    A: Allocator,
>(core: &mut Core<K, V, S, D, D::Answer, A>, step: Step)
    requires sound { IsSoundCore D.Deed S.BuildHasher S.Hasher.Hasher K.eq K.hash_input core.old }
    requires room { Room core.old }
    requires slots { IsSlotted D.Deed S.BuildHasher S.Hasher.Hasher K.eq K.hash_input core.old }
    requires numbers { has_next (state_of core.old) ≡ true }
    requires before { (walk : _) × IsBefore (state_of core.old).places step.thread (phase.Seek walk) }
    ensures step { MakesStep Seeks D.Deed S.BuildHasher S.Hasher.Hasher K.eq K.hash_input core.old step core.new }
    ensures room { Room core.new }
    ensures slots { IsSlotted D.Deed S.BuildHasher S.Hasher.Hasher K.eq K.hash_input core.new }
{
    let place = &mut core.places[step.thread];
    let walk = match mem::replace(&mut place.phase, Phase::Rest) {
        Phase::Seek(walk) => walk,
        _ => unreachable!(),
    };
    enter(&mut place.phase, Phase::Item(walk));
    core.count += 1;
    core.steps = core.steps.appended(&step);
}

/// The next visit of a walk starts.
pub(crate) fn start_visit<
    K: Eq + Hash + Drop,
    V: Drop,
    S: BuildHasher,
    D: Deed<K, V> + Drop,
    A: Allocator,
>(core: &mut Core<K, V, S, D, D::Answer, A>, step: Step)
    requires sound { IsSoundCore D.Deed S.BuildHasher S.Hasher.Hasher K.eq K.hash_input core.old }
    requires room { Room core.old }
    requires slots { IsSlotted D.Deed S.BuildHasher S.Hasher.Hasher K.eq K.hash_input core.old }
    requires numbers { has_next (state_of core.old) ≡ true }
    requires before { (walk : _) × IsBefore (state_of core.old).places step.thread (phase.Onward walk) }
    requires out { stand_in (state_of core.old).locks step.thread ≡ None }
    ensures step { MakesStep StartsVisit D.Deed S.BuildHasher S.Hasher.Hasher K.eq K.hash_input core.old step core.new }
    ensures room { Room core.new }
    ensures slots { IsSlotted D.Deed S.BuildHasher S.Hasher.Hasher K.eq K.hash_input core.new }
{
    let place = &mut core.places[step.thread];
    let walk = match mem::replace(&mut place.phase, Phase::Rest) {
        Phase::Onward(walk) => walk,
        _ => unreachable!(),
    };
    place.shard += 1;
    let call = asks_for(walk_mode(&walk));
    core.locks.begin(step.thread, place.shard, call);
    enter(&mut place.phase, Phase::Reach(walk));
    core.count += 1;
    core.steps = core.steps.appended(&step);
}

/// The look with which a visit begins, or its refusal.
pub(crate) fn look<
    K: Eq + Hash + Drop,
    V: Drop,
    S: BuildHasher,
    D: Deed<K, V> + Drop,
    A: Allocator + Clone,
>(core: &mut Core<K, V, S, D, D::Answer, A>, step: Step)
    requires sound { IsSoundCore D.Deed S.BuildHasher S.Hasher.Hasher K.eq K.hash_input core.old }
    requires room { Room core.old }
    requires slots { IsSlotted D.Deed S.BuildHasher S.Hasher.Hasher K.eq K.hash_input core.old }
    requires numbers { has_next (state_of core.old) ≡ true }
    requires before { (walk : _) × IsBefore (state_of core.old).places step.thread (phase.Visit walk) }
    requires out { stand_in (state_of core.old).locks step.thread ≡ None }
    ensures step { MakesStep LooksOrIsRefused D.Deed S.BuildHasher S.Hasher.Hasher K.eq K.hash_input core.old step
        core.new }
    ensures room { Room core.new }
    ensures slots { IsSlotted D.Deed S.BuildHasher S.Hasher.Hasher K.eq K.hash_input core.new }
{
    let number = core.count + 1;
    let index = core.blocks.len();
    let shards = core.tables.len();
    let place = &mut core.places[step.thread];
    let Some(start) = place.started else {
        unreachable!()
    };
    let walk = match mem::replace(&mut place.phase, Phase::Rest) {
        Phase::Visit(walk) => walk,
        _ => unreachable!(),
    };
    core.count = number;
    core.steps = core.steps.appended(&step);
    let shard = &mut core.tables[place.shard];
    let keys = looked_keys(&walk, shard);
    let count = place.count.saturating_add(looked_count(&walk, shard));
    let Ok(()) = make_ready(shard, &mut place.reads, &walk, count) else {
        place.reads.clear();
        enter(&mut place.phase, Phase::Release(Answer::NoMemory));
        return;
    };
    let started = Started {
        thread: step.thread,
        call: place.next,
        start,
    };
    let next = first_slot(&walk, shard);
    list_visit(&mut core.blocks, place.shard, keys, started, number);
    place.visits.push_reserved(index);
    place.count = count;
    lead_on(place, walk, shards, next);
}
