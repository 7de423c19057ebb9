//! One step of a world, of the kind that its thread stands before.
ghost use Rattle.std.specs.Prelude.{◌≡◌, ◌<◌, true, MatchBool, length};
ghost use Rattle.mapworld_state.specs.Steps.{IsOwnStep, IsStep};
ghost use Rattle.mapworld_state.specs.Running.{has_next, can_move_in, may_step};
ghost use Rattle.mapworld_state.specs.Core.{state_of, Room, IsBefore, IsSoundCore, IsSlotted, MakesStep};

use crate::ends::{downgrade, release};
use crate::looks::{find, grow};
use crate::queues::{admit, expire, finish};
use crate::standing::can_move;
use crate::starts::start;
use crate::walking::{idle, onward, reach, visit};
use crate::walks::{give, part, seek};
use mapworld_calls::Deed;
use mapworld_state::{Core, Phase, Step};
use mapworld_transitions::effects::{append, apply, change, fill, item, read, view};
use std::alloc::Allocator;
use std::hash::{BuildHasher, Hash};

/// The step of the kind that its thread stands before. The thread can move.
fn go_on<K: Eq + Hash + Drop, V: Drop, S: BuildHasher, D: Deed<K, V> + Drop, A: Allocator + Clone>(
    core: &mut Core<K, V, S, D, D::Answer, A>,
    step: Step,
)
    requires sound { IsSoundCore D.Deed S.BuildHasher S.Hasher.Hasher K.eq K.hash_input core.old }
    requires room { Room core.old }
    requires slots { IsSlotted D.Deed S.BuildHasher S.Hasher.Hasher K.eq K.hash_input core.old }
    requires numbers { has_next (state_of core.old) ≡ true }
    requires thread { step.thread < length core.old.places.items }
    requires moves { can_move_in (state_of core.old) step.thread ≡ true }
    ensures step { MakesStep IsOwnStep D.Deed S.BuildHasher S.Hasher.Hasher K.eq K.hash_input core.old step core.new }
    ensures room { Room core.new }
    ensures slots { IsSlotted D.Deed S.BuildHasher S.Hasher.Hasher K.eq K.hash_input core.new }
{
    match &core.places[step.thread].phase {
        Phase::Rest => start(core, step),
        Phase::Admit(_) => admit(core, step),
        Phase::Find(_) => find(core, step),
        Phase::Grow(_) => grow(core, step),
        Phase::Append(_, _) => append(core, step),
        Phase::Apply(_) => apply(core, step),
        Phase::View(_, _) => view(core, step),
        Phase::Read(_) => read(core, step),
        Phase::Change(_) => change(core, step),
        Phase::Fill(_) => fill(core, step),
        Phase::Downgrade => downgrade(core, step),
        Phase::Idle(_) => idle(core, step),
        Phase::Reach(_) => reach(core, step),
        Phase::Part(_) => part(core, step),
        Phase::Visit(_) => visit(core, step),
        Phase::Seek(_) => seek(core, step),
        Phase::Item(_) => item(core, step),
        Phase::Give(_) => give(core, step),
        Phase::Onward(_) => onward(core, step),
        Phase::Release(_) => release(core, step),
        Phase::Answer(_) => finish(core, step),
    }
}

/// The step that the thread stands before, if it can move, or its deadline, if it sleeps in a call that has one:
/// whether it was made. Otherwise the world stays as it is.
///
/// Whether a thread is kept out of its shard is asked of the shard's lock, so no step looks at the places of other
/// threads.
pub fn advance<
    K: Eq + Hash + Drop,
    V: Drop,
    S: BuildHasher,
    D: Deed<K, V> + Drop,
    A: Allocator + Clone,
>(core: &mut Core<K, V, S, D, D::Answer, A>, step: Step) -> bool
    requires sound { IsSoundCore D.Deed S.BuildHasher S.Hasher.Hasher K.eq K.hash_input core.old }
    requires room { Room core.old }
    requires slots { IsSlotted D.Deed S.BuildHasher S.Hasher.Hasher K.eq K.hash_input core.old }
    requires numbers { has_next (state_of core.old) ≡ true }
    requires thread { step.thread < length core.old.places.items }
    ensures moves { result ≡ may_step (state_of core.old) step }
    ensures made { MatchBool result
        (MakesStep IsStep D.Deed S.BuildHasher S.Hasher.Hasher K.eq K.hash_input core.old step core.new)
        (state_of core.new ≡ state_of core.old) }
    ensures room { Room core.new }
    ensures slots { IsSlotted D.Deed S.BuildHasher S.Hasher.Hasher K.eq K.hash_input core.new }
{
    if step.deadline {
        if !core.locks.may_expire(step.thread) {
            return false;
        }
        expire(core, step);
        return true;
    }
    if !can_move(core, step.thread) {
        return false;
    }
    go_on(core, step);
    true
}
