//! The steps that end a hold and a call.
ghost use Rattle.std.specs.Prelude.{◌≡◌, ◌+◌, ◌<◌, ◌^◌, [], ◌∷◌, true, if◌then◌else◌, vec_capacity};
ghost use Rattle.mapworld_state.specs.Locks.Stands.{stand_in};
ghost use Rattle.mapworld_state.specs.declared.place.Phase.TheVariants as phase;
ghost use Rattle.mapworld_state.specs.Running.{has_next};
ghost use Rattle.mapworld_state.specs.Core.{state_of, Room, IsBefore, IsSoundCore, IsSlotted, MakesStep};
ghost use Rattle.mapworld_state.specs.Steps.{Downgrades, Releases, Answers};

use arrayvec::ArrayVec;
use mapworld_calls::{Answer, Deed, Reply};
use mapworld_state::{Core, Guard, Hold, Mode, Phase, Place, Step, Way};
use mapworld_transitions::blocks::{count_in, end_call};
use mapworld_transitions::holds::gives_up;
use mapworld_transitions::moves::{enter, release_counts};
use parking_lot_machine::LockCall;
use std::alloc::Allocator;
use std::hash::{BuildHasher, Hash};
use std::mem;

/// Leads a place behind the answer of its call, which it gives back.
fn leave_call<K, V, D, T, A: Allocator>(place: &mut Place<K, V, D, T, A>) -> Answer<K, V, T, A>
    requires before { (answer : _) × (place.old.phase ≡ phase.Answer answer) }
    requires fits { place.old.next < 2 ^ 63 }
    ensures answer { place.old.phase ≡ phase.Answer result }
    ensures none { place.new.visits.items ≡ [] }
    ensures capacity { vec_capacity place.new.visits ≡ vec_capacity place.old.visits }
    ensures after { place.new ≡ record place.old {
      next = place.old.next + 1;
      started = None;
      block = if place.old.closes then None else place.old.block;
      visits = place.new.visits;
      count = 0;
      phase = phase.Rest;
    } }
{
    place.next += 1;
    place.started = None;
    place.visits.clear();
    place.count = 0;
    if place.closes {
        place.block = None;
    }
    match mem::replace(&mut place.phase, Phase::Rest) {
        Phase::Answer(answer) => answer,
        _ => unreachable!(),
    }
}

/// Lets the first of these holds share its shard, and answers it as it was.
fn share_first(holds: &mut ArrayVec<Hold, 2>) -> Hold
    requires { (hold : _) × (more : _) × (holds.old.items ≡ hold ∷ more) }
    ensures { (more : _) × (holds.old.items ≡ result ∷ more)
        × (holds.new.items ≡ record result { mode = Mode.Shared } ∷ more) }
{
    let first = &mut holds[0];
    let hold = *first;
    first.mode = Mode::Shared;
    hold
}

/// Takes the first of these holds out.
pub(crate) fn take_first(holds: &mut ArrayVec<Hold, 2>) -> Hold
    requires { (hold : _) × (more : _) × (holds.old.items ≡ hold ∷ more) }
    ensures { holds.old.items ≡ result ∷ holds.new.items }
{
    holds.remove(0)
}

/// The step by which a guard that holds its shard alone shares it: the downgrade of the shard's lock begins, and makes
/// its first act.
pub(crate) fn downgrade<
    K: Eq + Hash + Drop,
    V: Drop,
    S: BuildHasher,
    D: Deed<K, V> + Drop,
    A: Allocator,
>(core: &mut Core<K, V, S, D, D::Answer, A>, step: Step)
    requires sound { IsSoundCore D.Deed S.BuildHasher S.Hasher.Hasher K.eq K.hash_input core.old }
    requires room { Room core.old }
    requires slots { IsSlotted D.Deed S.BuildHasher S.Hasher.Hasher K.eq K.hash_input core.old }
    requires numbers { has_next (state_of core.old) ≡ true }
    requires before { IsBefore (state_of core.old).places step.thread phase.Downgrade }
    ensures step { MakesStep Downgrades D.Deed S.BuildHasher S.Hasher.Hasher K.eq K.hash_input core.old step core.new }
    ensures room { Room core.new }
    ensures slots { IsSlotted D.Deed S.BuildHasher S.Hasher.Hasher K.eq K.hash_input core.new }
{
    let place = &mut core.places[step.thread];
    let hold = share_first(&mut place.holds);
    place.guard = Some(Guard::Pair(Way::Shared));
    enter(&mut place.phase, Phase::Answer(Answer::Held));
    core.locks
        .start(step.thread, hold.shard, LockCall::Downgrade, step.fair);
    count_in(&mut core.blocks, place.block, place.next);
    core.count += 1;
    core.steps = core.steps.appended(&step);
}

/// The end of a hold, and of its guard: the release of the shard's lock begins, and makes its first act.
pub(crate) fn release<
    K: Eq + Hash + Drop,
    V: Drop,
    S: BuildHasher,
    D: Deed<K, V> + Drop,
    A: Allocator,
>(core: &mut Core<K, V, S, D, D::Answer, A>, step: Step)
    requires sound { IsSoundCore D.Deed S.BuildHasher S.Hasher.Hasher K.eq K.hash_input core.old }
    requires room { Room core.old }
    requires slots { IsSlotted D.Deed S.BuildHasher S.Hasher.Hasher K.eq K.hash_input core.old }
    requires numbers { has_next (state_of core.old) ≡ true }
    requires before { (answer : _) × IsBefore (state_of core.old).places step.thread (phase.Release answer) }
    ensures step { MakesStep Releases D.Deed S.BuildHasher S.Hasher.Hasher K.eq K.hash_input core.old step core.new }
    ensures room { Room core.new }
    ensures slots { IsSlotted D.Deed S.BuildHasher S.Hasher.Hasher K.eq K.hash_input core.new }
{
    let place = &mut core.places[step.thread];
    let hold = take_first(&mut place.holds);
    let answer = match mem::replace(&mut place.phase, Phase::Rest) {
        Phase::Release(answer) => answer,
        _ => unreachable!(),
    };
    let counts = release_counts(&place.guard, place.block);
    place.guard = None;
    enter(&mut place.phase, Phase::Answer(answer));
    let call = gives_up(hold.mode);
    core.locks.start(step.thread, hold.shard, call, step.fair);
    count_in(&mut core.blocks, counts, place.next);
    core.count += 1;
    core.steps = core.steps.appended(&step);
}

/// The answer of a call.
pub(crate) fn answer<
    K: Eq + Hash + Drop,
    V: Drop,
    S: BuildHasher,
    D: Deed<K, V> + Drop,
    A: Allocator,
>(core: &mut Core<K, V, S, D, D::Answer, A>, step: Step)
    requires sound { IsSoundCore D.Deed S.BuildHasher S.Hasher.Hasher K.eq K.hash_input core.old }
    requires room { Room core.old }
    requires slots { IsSlotted D.Deed S.BuildHasher S.Hasher.Hasher K.eq K.hash_input core.old }
    requires numbers { has_next (state_of core.old) ≡ true }
    requires before { (answer : _) × IsBefore (state_of core.old).places step.thread (phase.Answer answer) }
    requires out { stand_in (state_of core.old).locks step.thread ≡ None }
    ensures step { MakesStep Answers D.Deed S.BuildHasher S.Hasher.Hasher K.eq K.hash_input core.old step core.new }
    ensures room { Room core.new }
    ensures slots { IsSlotted D.Deed S.BuildHasher S.Hasher.Hasher K.eq K.hash_input core.new }
{
    let end = core.count + 1;
    let place = &mut core.places[step.thread];
    let call = place.next;
    let Some(start) = place.started else {
        unreachable!()
    };
    end_call(&mut core.blocks, place.block, &place.visits, call, end);
    let answer = leave_call(place);
    core.replies.push_reserved(Reply {
        thread: step.thread,
        call,
        start,
        end,
        answer,
    });
    core.unanswered -= 1;
    core.count = end;
    core.steps = core.steps.appended(&step);
}
