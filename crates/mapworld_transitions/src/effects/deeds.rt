//! The steps that change or read a pair.
ghost use Rattle.std.specs.Prelude.{◌≡◌, ◌+◌, ◌≤◌, true, if◌then◌else◌};
ghost use Rattle.mapworld_state.specs.declared.place.Phase.TheVariants as phase;
ghost use Rattle.mapworld_state.specs.Running.{has_next};
ghost use Rattle.mapworld_state.specs.Core.{state_of, Room, IsBefore, IsSoundCore, IsSlotted, MakesStep};
ghost use Rattle.mapworld_state.specs.Steps.{Appends, Applies, Views, Reads, Changes, Fills};

use crate::blocks::{Started, count_in, list_block};
use crate::moves::{changed_phase, ends_guard, enter, lent_way, takes_pair, vacant_key};
use crate::pairs::{add_pair, apply_at, change_at, pair_at};
use mapworld_calls::{Answer, Deed};
use mapworld_state::{Core, Guard, Phase, Step, Way};
use std::alloc::Allocator;
use std::hash::{BuildHasher, Hash};
use std::mem;

/// The deed that adds a pair.
pub fn append<K: Eq + Hash + Drop, V: Drop, S: BuildHasher, D: Deed<K, V> + Drop, A: Allocator>(
    core: &mut Core<K, V, S, D, D::Answer, A>,
    step: Step,
)
    requires sound { IsSoundCore D.Deed S.BuildHasher S.Hasher.Hasher K.eq K.hash_input core.old }
    requires slots { IsSlotted D.Deed S.BuildHasher S.Hasher.Hasher K.eq K.hash_input core.old }
    requires room { Room core.old }
    requires numbers { has_next (state_of core.old) ≡ true }
    requires before { (key : _) × (value : _) × IsBefore (state_of core.old).places step.thread
        (phase.Append key value) }
    ensures step { MakesStep Appends D.Deed S.BuildHasher S.Hasher.Hasher K.eq K.hash_input core.old step core.new }
    ensures slots { IsSlotted D.Deed S.BuildHasher S.Hasher.Hasher K.eq K.hash_input core.new }
    ensures room { Room core.new }
{
    let place = &mut core.places[step.thread];
    let (key, value) = match mem::replace(&mut place.phase, Phase::Release(Answer::None)) {
        Phase::Append(key, value) => (key, value),
        _ => unreachable!(),
    };
    let shard = &mut core.tables[place.shard];
    let _slot = add_pair(shard, &core.hasher, key, value);
    count_in(&mut core.blocks, place.block, place.next);
    core.pairs += 1;
    core.count += 1;
    core.steps = core.steps.appended(&step);
}

/// How many pairs there are behind a deed that may have taken one out.
pub(crate) fn less_one(pairs: u64, gone: bool) -> u64
    requires { (if gone then 1 else 0) ≤ pairs }
    ensures { result + (if gone then 1 else 0) ≡ pairs }
{
    if gone { pairs - 1 } else { pairs }
}

/// The deed of a call on one key that found a pair.
pub fn apply<K: Eq + Hash + Drop, V: Drop, S: BuildHasher, D: Deed<K, V> + Drop, A: Allocator>(
    core: &mut Core<K, V, S, D, D::Answer, A>,
    step: Step,
)
    requires sound { IsSoundCore D.Deed S.BuildHasher S.Hasher.Hasher K.eq K.hash_input core.old }
    requires slots { IsSlotted D.Deed S.BuildHasher S.Hasher.Hasher K.eq K.hash_input core.old }
    requires room { Room core.old }
    requires numbers { has_next (state_of core.old) ≡ true }
    requires before { (call : _) × IsBefore (state_of core.old).places step.thread (phase.Apply call) }
    ensures step { MakesStep Applies D.Deed S.BuildHasher S.Hasher.Hasher K.eq K.hash_input core.old step core.new }
    ensures slots { IsSlotted D.Deed S.BuildHasher S.Hasher.Hasher K.eq K.hash_input core.new }
    ensures room { Room core.new }
{
    let place = &mut core.places[step.thread];
    let call = match mem::replace(&mut place.phase, Phase::Rest) {
        Phase::Apply(call) => call,
        _ => unreachable!(),
    };
    let shard = &mut core.tables[place.shard];
    let (answer, gone) = apply_at(shard, place.slot, call);
    enter(&mut place.phase, Phase::Release(answer));
    count_in(&mut core.blocks, place.block, place.next);
    core.pairs = less_one(core.pairs, gone);
    core.count += 1;
    core.steps = core.steps.appended(&step);
}

/// The deed that reads the found pair of a call on one key.
pub fn view<K: Eq + Hash + Drop, V: Drop, S: BuildHasher, D: Deed<K, V> + Drop, A: Allocator>(
    core: &mut Core<K, V, S, D, D::Answer, A>,
    step: Step,
)
    requires sound { IsSoundCore D.Deed S.BuildHasher S.Hasher.Hasher K.eq K.hash_input core.old }
    requires slots { IsSlotted D.Deed S.BuildHasher S.Hasher.Hasher K.eq K.hash_input core.old }
    requires room { Room core.old }
    requires numbers { has_next (state_of core.old) ≡ true }
    requires before { (key : _) × (deed : _) × IsBefore (state_of core.old).places step.thread (phase.View key deed) }
    ensures step { MakesStep Views D.Deed S.BuildHasher S.Hasher.Hasher K.eq K.hash_input core.old step core.new }
    ensures slots { IsSlotted D.Deed S.BuildHasher S.Hasher.Hasher K.eq K.hash_input core.new }
    ensures room { Room core.new }
{
    let number = core.count + 1;
    let index = core.blocks.len();
    let place = &mut core.places[step.thread];
    let Some(start) = place.started else {
        unreachable!()
    };
    let deed = match mem::replace(&mut place.phase, Phase::Rest) {
        Phase::View(_, deed) => deed,
        _ => unreachable!(),
    };
    let (key, value) = pair_at(&core.tables[place.shard], place.slot);
    enter(
        &mut place.phase,
        Phase::Release(Answer::Read(deed.answer(key, value))),
    );
    let started = Started {
        thread: step.thread,
        call: place.next,
        start,
    };
    list_block(&mut core.blocks, Some(1), started, number);
    place.block = Some(index);
    core.count = number;
    core.steps = core.steps.appended(&step);
}

/// The deed that reads the guarded pair.
pub fn read<K: Eq + Hash + Drop, V: Drop, S: BuildHasher, D: Deed<K, V> + Drop, A: Allocator>(
    core: &mut Core<K, V, S, D, D::Answer, A>,
    step: Step,
)
    requires sound { IsSoundCore D.Deed S.BuildHasher S.Hasher.Hasher K.eq K.hash_input core.old }
    requires slots { IsSlotted D.Deed S.BuildHasher S.Hasher.Hasher K.eq K.hash_input core.old }
    requires room { Room core.old }
    requires numbers { has_next (state_of core.old) ≡ true }
    requires before { (deed : _) × IsBefore (state_of core.old).places step.thread (phase.Read deed) }
    ensures step { MakesStep Reads D.Deed S.BuildHasher S.Hasher.Hasher K.eq K.hash_input core.old step core.new }
    ensures slots { IsSlotted D.Deed S.BuildHasher S.Hasher.Hasher K.eq K.hash_input core.new }
    ensures room { Room core.new }
{
    let place = &mut core.places[step.thread];
    let deed = match mem::replace(&mut place.phase, Phase::Rest) {
        Phase::Read(deed) => deed,
        _ => unreachable!(),
    };
    let (key, value) = pair_at(&core.tables[place.shard], place.slot);
    enter(
        &mut place.phase,
        Phase::Answer(Answer::Read(deed.answer(key, value))),
    );
    count_in(&mut core.blocks, place.block, place.next);
    core.count += 1;
    core.steps = core.steps.appended(&step);
}

/// The deed of a call that changes the guarded pair.
pub fn change<K: Eq + Hash + Drop, V: Drop, S: BuildHasher, D: Deed<K, V> + Drop, A: Allocator>(
    core: &mut Core<K, V, S, D, D::Answer, A>,
    step: Step,
)
    requires sound { IsSoundCore D.Deed S.BuildHasher S.Hasher.Hasher K.eq K.hash_input core.old }
    requires slots { IsSlotted D.Deed S.BuildHasher S.Hasher.Hasher K.eq K.hash_input core.old }
    requires room { Room core.old }
    requires numbers { has_next (state_of core.old) ≡ true }
    requires before { (call : _) × IsBefore (state_of core.old).places step.thread (phase.Change call) }
    ensures step { MakesStep Changes D.Deed S.BuildHasher S.Hasher.Hasher K.eq K.hash_input core.old step core.new }
    ensures slots { IsSlotted D.Deed S.BuildHasher S.Hasher.Hasher K.eq K.hash_input core.new }
    ensures room { Room core.new }
{
    let place = &mut core.places[step.thread];
    let call = match mem::replace(&mut place.phase, Phase::Rest) {
        Phase::Change(call) => call,
        _ => unreachable!(),
    };
    let Some(way) = lent_way(mem::replace(&mut place.guard, None)) else {
        unreachable!()
    };
    let ends = ends_guard(&call);
    let gone = takes_pair(&call);
    let shard = &mut core.tables[place.shard];
    let (answer, guard) = change_at(shard, place.slot, call, way);
    place.guard = guard;
    enter(&mut place.phase, changed_phase(ends, answer));
    count_in(&mut core.blocks, place.block, place.next);
    core.pairs = less_one(core.pairs, gone);
    core.count += 1;
    core.steps = core.steps.appended(&step);
}

/// The deed that adds the pair of a vacant guard's key.
pub fn fill<K: Eq + Hash + Drop, V: Drop, S: BuildHasher, D: Deed<K, V> + Drop, A: Allocator>(
    core: &mut Core<K, V, S, D, D::Answer, A>,
    step: Step,
)
    requires sound { IsSoundCore D.Deed S.BuildHasher S.Hasher.Hasher K.eq K.hash_input core.old }
    requires slots { IsSlotted D.Deed S.BuildHasher S.Hasher.Hasher K.eq K.hash_input core.old }
    requires room { Room core.old }
    requires numbers { has_next (state_of core.old) ≡ true }
    requires before { (value : _) × IsBefore (state_of core.old).places step.thread (phase.Fill value) }
    ensures step { MakesStep Fills D.Deed S.BuildHasher S.Hasher.Hasher K.eq K.hash_input core.old step core.new }
    ensures slots { IsSlotted D.Deed S.BuildHasher S.Hasher.Hasher K.eq K.hash_input core.new }
    ensures room { Room core.new }
{
    let place = &mut core.places[step.thread];
    let value = match mem::replace(&mut place.phase, Phase::Answer(Answer::Held)) {
        Phase::Fill(value) => value,
        _ => unreachable!(),
    };
    let Some(key) = vacant_key(mem::replace(&mut place.guard, None)) else {
        unreachable!()
    };
    let shard = &mut core.tables[place.shard];
    place.slot = add_pair(shard, &core.hasher, key, value);
    place.guard = Some(Guard::Pair(Way::Exclusive));
    count_in(&mut core.blocks, place.block, place.next);
    core.pairs += 1;
    core.count += 1;
    core.steps = core.steps.appended(&step);
}
