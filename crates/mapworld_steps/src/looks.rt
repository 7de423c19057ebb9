//! The steps that look into a held shard.
ghost use Rattle.std.specs.Prelude.{◌≡◌, true};
ghost use Rattle.mapworld_state.specs.declared.place.Phase.TheVariants as phase;
ghost use Rattle.mapworld_state.specs.Running.{has_next};
ghost use Rattle.mapworld_state.specs.Core.{state_of, Room, IsBefore, IsSoundCore, IsSlotted, MakesStep};
ghost use Rattle.mapworld_state.specs.Steps.{Finds, Grows};

use mapworld_calls::{Answer, Deed};
use mapworld_state::{Core, Phase, Step};
use mapworld_transitions::blocks::{Started, list_block};
use mapworld_transitions::moves::{
    block_behind, enter, found, found_done, request_key, request_of,
};
use mapworld_transitions::pairs::{self, find_pair, has_room};
use std::alloc::Allocator;
use std::hash::{BuildHasher, Hash};
use std::mem;

/// The look into the held shard.
pub(crate) fn find<
    K: Eq + Hash + Drop,
    V: Drop,
    S: BuildHasher,
    D: Deed<K, V> + Drop,
    A: Allocator,
>(core: &mut Core<K, V, S, D, D::Answer, A>, step: Step)
    requires sound { IsSoundCore D.Deed S.BuildHasher S.Hasher.Hasher K.eq K.hash_input core.old }
    requires room { Room core.old }
    requires slots { IsSlotted D.Deed S.BuildHasher S.Hasher.Hasher K.eq K.hash_input core.old }
    requires numbers { has_next (state_of core.old) ≡ true }
    requires before { (request : _) × IsBefore (state_of core.old).places step.thread (phase.Find request) }
    ensures step { MakesStep Finds D.Deed S.BuildHasher S.Hasher.Hasher K.eq K.hash_input core.old step core.new }
    ensures room { Room core.new }
    ensures slots { IsSlotted D.Deed S.BuildHasher S.Hasher.Hasher K.eq K.hash_input core.new }
{
    let number = core.count + 1;
    let index = core.blocks.len();
    let place = &mut core.places[step.thread];
    let Some(start) = place.started else {
        unreachable!()
    };
    let request = match mem::replace(&mut place.phase, Phase::Rest) {
        Phase::Find(request) => request,
        _ => unreachable!(),
    };
    let shard = &core.tables[place.shard];
    let room = has_room(shard);
    let slot = find_pair(shard, &core.hasher, request_key(&request));
    let present = slot.is_some();
    let done = found_done(&request, present, room);
    let started = Started {
        thread: step.thread,
        call: place.next,
        start,
    };
    place.block = block_behind(done, index, place.block);
    place.slot = slot.unwrap_or(place.slot);
    let (phase, guard) = found(request, present, room);
    place.guard = guard;
    enter(&mut place.phase, phase);
    list_block(&mut core.blocks, done, started, number);
    core.count = number;
    core.steps = core.steps.appended(&step);
}

/// The growth of the held shard, or its refusal.
pub(crate) fn grow<
    K: Eq + Hash + Drop,
    V: Drop,
    S: BuildHasher,
    D: Deed<K, V> + Drop,
    A: Allocator + Clone,
>(core: &mut Core<K, V, S, D, D::Answer, A>, step: Step)
    requires sound { IsSoundCore D.Deed S.BuildHasher S.Hasher.Hasher K.eq K.hash_input core.old }
    requires room { Room core.old }
    requires slots { IsSlotted D.Deed S.BuildHasher S.Hasher.Hasher K.eq K.hash_input core.old }
    requires numbers { has_next (state_of core.old) ≡ true }
    requires before { (call : _) × IsBefore (state_of core.old).places step.thread (phase.Grow call) }
    ensures step { MakesStep Grows D.Deed S.BuildHasher S.Hasher.Hasher K.eq K.hash_input core.old step core.new }
    ensures room { Room core.new }
    ensures slots { IsSlotted D.Deed S.BuildHasher S.Hasher.Hasher K.eq K.hash_input core.new }
{
    let number = core.count + 1;
    let index = core.blocks.len();
    let place = &mut core.places[step.thread];
    let Some(start) = place.started else {
        unreachable!()
    };
    let call = match mem::replace(&mut place.phase, Phase::Rest) {
        Phase::Grow(call) => call,
        _ => unreachable!(),
    };
    core.count = number;
    core.steps = core.steps.appended(&step);
    let Ok(()) = pairs::grow(&mut core.tables[place.shard]) else {
        enter(&mut place.phase, Phase::Release(Answer::NoMemory));
        return;
    };
    let started = Started {
        thread: step.thread,
        call: place.next,
        start,
    };
    let request = request_of(call);
    let done = found_done(&request, false, true);
    let (phase, guard) = found(request, false, true);
    list_block(&mut core.blocks, done, started, number);
    place.block = Some(index);
    place.guard = guard;
    enter(&mut place.phase, phase);
}
