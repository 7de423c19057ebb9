//! The starts of calls.
ghost use Rattle.std.specs.Prelude.{◌≡◌, ◌<◌, true, length, slice_get};
ghost use Rattle.mapworld_state.specs.Locks.Steps.{MayAsk};
ghost use Rattle.mapworld_state.specs.declared.place.Phase.TheVariants as phase;
ghost use Rattle.mapworld_state.specs.Holds.{asks_for, wants_for};
ghost use Rattle.mapworld_state.specs.Moves.{mode_of, request_manner};
ghost use Rattle.mapworld_state.specs.Walks.{walk_mode};
ghost use Rattle.mapworld_state.specs.Running.{has_next};
ghost use Rattle.mapworld_state.specs.Core.{state_of, Room, IsBefore, IsSoundCore, IsSlotted, MakesStep};
ghost use Rattle.mapworld_state.specs.Steps.{EntersBy, Starts};

use mapworld_calls::Deed;
use mapworld_state::locks::ShardLocks;
use mapworld_state::{Core, Phase, Step};
use mapworld_transitions::blocks::count_in;
use mapworld_transitions::holds::{asks_for, wants_for};
use mapworld_transitions::moves::{
    enter, is_last, mode_of, request_manner, start_call, start_counts, start_shard,
};
use mapworld_transitions::walks::walk_mode;
use std::alloc::Allocator;
use std::hash::{BuildHasher, Hash};
use std::mem;

/// Begins the call of the shard's lock, where the call that starts needs its shard.
fn ask_for_shard<K, V, D, T, A: Allocator>(
    locks: &mut ShardLocks<A>,
    thread: usize,
    shard: usize,
    next: &Phase<K, V, D, T, A>,
)
    requires admit { (request : _) → next.now ≡ phase.Admit request
        → MayAsk thread shard (wants_for (request_manner request) (mode_of request)) locks.old }
    requires reach { (walk : _) → next.now ≡ phase.Reach walk → MayAsk thread shard (asks_for (walk_mode walk))
        locks.old }
    ensures { EntersBy thread shard next.now locks.old locks.new }
{
    match next {
        Phase::Admit(request) => {
            let call = wants_for(request_manner(request), mode_of(request));
            locks.begin(thread, shard, call);
        }
        Phase::Reach(walk) => locks.begin(thread, shard, asks_for(walk_mode(walk))),
        _ => {}
    }
}

/// The start of a call.
pub(crate) fn start<
    K: Eq + Hash + Drop,
    V: Drop,
    S: BuildHasher,
    D: Deed<K, V> + Drop,
    A: Allocator,
>(core: &mut Core<K, V, S, D, D::Answer, A>, step: Step)
    requires sound { IsSoundCore D.Deed S.BuildHasher S.Hasher.Hasher K.eq K.hash_input core.old }
    requires room { Room core.old }
    requires slots { IsSlotted D.Deed S.BuildHasher S.Hasher.Hasher K.eq K.hash_input core.old }
    requires numbers { has_next (state_of core.old) ≡ true }
    requires before { IsBefore (state_of core.old).places step.thread phase.Rest }
    requires left { (p : _) → slice_get (state_of core.old).places step.thread ≡ Some p → 0 < length p.asks }
    ensures step { MakesStep Starts D.Deed S.BuildHasher S.Hasher.Hasher K.eq K.hash_input core.old step core.new }
    ensures room { Room core.new }
    ensures slots { IsSlotted D.Deed S.BuildHasher S.Hasher.Hasher K.eq K.hash_input core.new }
{
    let number = core.count + 1;
    let shards = core.tables.len();
    let place = &mut core.places[step.thread];
    let Some(ask) = place.asks.pop_front() else {
        unreachable!()
    };
    place.started = Some(number);
    place.closes = is_last(&ask);
    place.shard = start_shard(&core.hasher, shards, &ask, place.shard);
    let (phase, guard) = start_call(ask, mem::replace(&mut place.guard, None));
    let counts = start_counts(&phase, place.block);
    place.guard = guard;
    ask_for_shard(&mut core.locks, step.thread, place.shard, &phase);
    enter(&mut place.phase, phase);
    count_in(&mut core.blocks, counts, place.next);
    core.count = number;
    core.steps = core.steps.appended(&step);
}
