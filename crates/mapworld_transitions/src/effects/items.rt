//! The deed of a walk at one pair of a visit.
ghost use Rattle.std.specs.Prelude.{◌≡◌, true};
ghost use Rattle.mapworld_state.specs.declared.place.Phase.TheVariants as phase;
ghost use Rattle.mapworld_state.specs.Running.{has_next};
ghost use Rattle.mapworld_state.specs.Core.{state_of, Room, IsBefore, IsSoundCore, IsSlotted, MakesStep};
ghost use Rattle.mapworld_state.specs.Steps.{DoesItem};

use crate::effects::deeds::less_one;
use crate::walks::{lead_on, visit_pair};
use mapworld_calls::Deed;
use mapworld_state::{Core, Phase, Step};
use std::alloc::Allocator;
use std::hash::{BuildHasher, Hash};
use std::mem;

/// The deed of a walk at the pair that its visit has come to; then the walk goes on to the next pair or the next shard,
/// or it ends.
pub fn item<K: Eq + Hash + Drop, V: Drop, S: BuildHasher, D: Deed<K, V> + Drop, A: Allocator>(
    core: &mut Core<K, V, S, D, D::Answer, A>,
    step: Step,
)
    requires sound { IsSoundCore D.Deed S.BuildHasher S.Hasher.Hasher K.eq K.hash_input core.old }
    requires slots { IsSlotted D.Deed S.BuildHasher S.Hasher.Hasher K.eq K.hash_input core.old }
    requires room { Room core.old }
    requires numbers { has_next (state_of core.old) ≡ true }
    requires before { (walk : _) × IsBefore (state_of core.old).places step.thread (phase.Item walk) }
    ensures step { MakesStep DoesItem D.Deed S.BuildHasher S.Hasher.Hasher K.eq K.hash_input core.old step core.new }
    ensures slots { IsSlotted D.Deed S.BuildHasher S.Hasher.Hasher K.eq K.hash_input core.new }
    ensures room { Room core.new }
{
    let shards = core.tables.len();
    let place = &mut core.places[step.thread];
    let walk = match mem::replace(&mut place.phase, Phase::Rest) {
        Phase::Item(walk) => walk,
        _ => unreachable!(),
    };
    let block = &mut core.blocks[place.visits[place.shard]];
    let shard = &mut core.tables[place.shard];
    let gone = visit_pair(shard, place.slot, block, &mut place.reads, &walk);
    place.count = place.count.saturating_add(1);
    let next = shard.next_from(place.slot + 1);
    lead_on(place, walk, shards, next);
    core.pairs = less_one(core.pairs, gone);
    core.count += 1;
    core.steps = core.steps.appended(&step);
}
