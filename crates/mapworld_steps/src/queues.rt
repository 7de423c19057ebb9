//! The steps at a shard's lock, and what ends them.
ghost use Rattle.std.specs.Prelude.{◌≡◌, ◌≢◌, ◌<◌, true, Some, None, is_some, length, slice_get};
ghost use Rattle.parking_lot_machine.specs.Machines.{can_move, ended, may_expire};
ghost use Rattle.parking_lot_machine.specs.Rows.{state};
ghost use Rattle.parking_lot_protocol.specs.declared.act.CoreAnswer.TheVariants.{Owned};
ghost use Rattle.mapworld_state.specs.Locks.Stands.{stand_in};
ghost use Rattle.mapworld_state.specs.declared.place.Phase.TheVariants as phase;
ghost use Rattle.mapworld_state.specs.Running.{has_next, goes_on};
ghost use Rattle.mapworld_state.specs.Core.{state_of, Room, IsBefore, IsSoundCore, IsSlotted, MakesStep};
ghost use Rattle.mapworld_state.specs.Classes.{class_of, owes_in};
ghost use Rattle.mapworld_state.specs.Steps.{Enters, Expires, IsLocked, Leaves, MovesLock, IsOwnStep};

use crate::ends::answer;
use crate::looks::find;
use mapworld_calls::{Answer, Deed};
use mapworld_state::{Core, Hold, Phase, Step};
use mapworld_transitions::moves::{enter, mode_of};
use parking_lot_protocol::CoreAnswer;
use std::alloc::Allocator;
use std::hash::{BuildHasher, Hash};
use std::mem;

/// One step of the call of a shard's lock that a thread is in.
pub(crate) fn move_lock<
    K: Eq + Hash + Drop,
    V: Drop,
    S: BuildHasher,
    D: Deed<K, V> + Drop,
    A: Allocator,
>(core: &mut Core<K, V, S, D, D::Answer, A>, step: Step)
    requires sound { IsSoundCore D.Deed S.BuildHasher S.Hasher.Hasher K.eq K.hash_input core.old }
    requires room { Room core.old }
    requires slots { IsSlotted D.Deed S.BuildHasher S.Hasher.Hasher K.eq K.hash_input core.old }
    requires numbers { has_next (state_of core.old) ≡ true }
    requires stands { (place : _) × (slice_get (state_of core.old).places step.thread ≡ Some place) }
    requires moves { can_move (state core.old.locks.rows) step.thread ≡ true }
    requires open { ended (state core.old.locks.rows) step.thread ≡ None }
    ensures step { MakesStep MovesLock D.Deed S.BuildHasher S.Hasher.Hasher K.eq K.hash_input core.old step core.new }
    ensures room { Room core.new }
    ensures slots { IsSlotted D.Deed S.BuildHasher S.Hasher.Hasher K.eq K.hash_input core.new }
{
    core.locks.step(step.thread, step.fair);
    core.count += 1;
    core.steps = core.steps.appended(&step);
}

/// The deadline of a thread comes, as it sleeps in a call of a shard's lock that has one.
pub(crate) fn expire<
    K: Eq + Hash + Drop,
    V: Drop,
    S: BuildHasher,
    D: Deed<K, V> + Drop,
    A: Allocator,
>(core: &mut Core<K, V, S, D, D::Answer, A>, step: Step)
    requires sound { IsSoundCore D.Deed S.BuildHasher S.Hasher.Hasher K.eq K.hash_input core.old }
    requires room { Room core.old }
    requires slots { IsSlotted D.Deed S.BuildHasher S.Hasher.Hasher K.eq K.hash_input core.old }
    requires numbers { has_next (state_of core.old) ≡ true }
    requires thread { step.thread < length core.old.places.items }
    requires may { may_expire (state core.old.locks.rows) step.thread ≡ true }
    ensures step { MakesStep Expires D.Deed S.BuildHasher S.Hasher.Hasher K.eq K.hash_input core.old step core.new }
    ensures room { Room core.new }
    ensures slots { IsSlotted D.Deed S.BuildHasher S.Hasher.Hasher K.eq K.hash_input core.new }
{
    core.locks.deadline(step.thread);
    core.count += 1;
    core.steps = core.steps.appended(&step);
}

/// Ends an admission: the lock's call is answered, and the place has the hold. It is part of the step of the look.
fn enter_shard<K: Eq + Hash + Drop, V: Drop, S: BuildHasher, D: Deed<K, V> + Drop, A: Allocator>(
    core: &mut Core<K, V, S, D, D::Answer, A>,
    thread: usize,
)
    requires sound { IsSoundCore D.Deed S.BuildHasher S.Hasher.Hasher K.eq K.hash_input core.old }
    requires room { Room core.old }
    requires slots { IsSlotted D.Deed S.BuildHasher S.Hasher.Hasher K.eq K.hash_input core.old }
    requires before { (request : _) × IsBefore (state_of core.old).places thread (phase.Admit request) }
    requires owned { ended (state core.old.locks.rows) thread ≡ Some Owned }
    ensures enters { Enters (state_of core.old) thread (state_of core.new) }
    ensures found { (request : _) × IsBefore (state_of core.new).places thread (phase.Find request) }
    ensures sound { IsSoundCore D.Deed S.BuildHasher S.Hasher.Hasher K.eq K.hash_input core.new }
    ensures room { Room core.new }
    ensures slots { IsSlotted D.Deed S.BuildHasher S.Hasher.Hasher K.eq K.hash_input core.new }
    ensures numbers { has_next (state_of core.new) ≡ has_next (state_of core.old) }
{
    let place = &mut core.places[thread];
    let request = match mem::replace(&mut place.phase, Phase::Rest) {
        Phase::Admit(request) => request,
        _ => unreachable!(),
    };
    place.holds.push(Hold {
        shard: place.shard,
        mode: mode_of(&request),
    });
    enter(&mut place.phase, Phase::Find(request));
    core.locks.finish(thread);
}

/// Ends a try that could not have its shard, or a call with a deadline that gave up: it is to be answered so. It is
/// part of the step of the answer.
fn refuse_call<K: Eq + Hash + Drop, V: Drop, S: BuildHasher, D: Deed<K, V> + Drop, A: Allocator>(
    core: &mut Core<K, V, S, D, D::Answer, A>,
    thread: usize,
)
    requires sound { IsSoundCore D.Deed S.BuildHasher S.Hasher.Hasher K.eq K.hash_input core.old }
    requires room { Room core.old }
    requires slots { IsSlotted D.Deed S.BuildHasher S.Hasher.Hasher K.eq K.hash_input core.old }
    requires before { (request : _) × IsBefore (state_of core.old).places thread (phase.Admit request) }
    requires over { is_some (ended (state core.old.locks.rows) thread) ≡ true }
    requires unowned { ended (state core.old.locks.rows) thread ≢ Some Owned }
    ensures locked { IsLocked (state_of core.old) thread (state_of core.new) }
    ensures told { (answer : _) × IsBefore (state_of core.new).places thread (phase.Answer answer) }
    ensures out { stand_in (state_of core.new).locks thread ≡ None }
    ensures sound { IsSoundCore D.Deed S.BuildHasher S.Hasher.Hasher K.eq K.hash_input core.new }
    ensures room { Room core.new }
    ensures slots { IsSlotted D.Deed S.BuildHasher S.Hasher.Hasher K.eq K.hash_input core.new }
    ensures numbers { has_next (state_of core.new) ≡ has_next (state_of core.old) }
{
    let place = &mut core.places[thread];
    enter(&mut place.phase, Phase::Answer(Answer::Locked));
    core.locks.finish(thread);
}

/// A step of a thread that waits for its shard: one of the lock's call, or where that is over the look, or of a call
/// that could not have its shard the answer.
pub(crate) fn admit<
    K: Eq + Hash + Drop,
    V: Drop,
    S: BuildHasher,
    D: Deed<K, V> + Drop,
    A: Allocator,
>(core: &mut Core<K, V, S, D, D::Answer, A>, step: Step)
    requires sound { IsSoundCore D.Deed S.BuildHasher S.Hasher.Hasher K.eq K.hash_input core.old }
    requires room { Room core.old }
    requires slots { IsSlotted D.Deed S.BuildHasher S.Hasher.Hasher K.eq K.hash_input core.old }
    requires numbers { has_next (state_of core.old) ≡ true }
    requires before { (request : _) × IsBefore (state_of core.old).places step.thread (phase.Admit request) }
    requires moves { can_move (state core.old.locks.rows) step.thread ≡ true }
    ensures step { MakesStep IsOwnStep D.Deed S.BuildHasher S.Hasher.Hasher K.eq K.hash_input core.old step core.new }
    ensures room { Room core.new }
    ensures slots { IsSlotted D.Deed S.BuildHasher S.Hasher.Hasher K.eq K.hash_input core.new }
{
    match core.locks.ended(step.thread) {
        None => move_lock(core, step),
        Some(CoreAnswer::Owned) => {
            enter_shard(core, step.thread);
            find(core, step);
        }
        Some(_) => {
            refuse_call(core, step.thread);
            answer(core, step);
        }
    }
}

/// Ends the call of a lock to which nothing more is owed. It is part of the step that comes next.
pub(crate) fn leave_lock<
    K: Eq + Hash + Drop,
    V: Drop,
    S: BuildHasher,
    D: Deed<K, V> + Drop,
    A: Allocator,
>(core: &mut Core<K, V, S, D, D::Answer, A>, thread: usize)
    requires sound { IsSoundCore D.Deed S.BuildHasher S.Hasher.Hasher K.eq K.hash_input core.old }
    requires room { Room core.old }
    requires slots { IsSlotted D.Deed S.BuildHasher S.Hasher.Hasher K.eq K.hash_input core.old }
    requires owes { (place : _) × (slice_get (state_of core.old).places thread ≡ Some place)
        × (owes_in (class_of place.phase) ≡ true) }
    requires over { is_some (ended (state core.old.locks.rows) thread) ≡ true }
    ensures leaves { Leaves (state_of core.old) thread (state_of core.new) }
    ensures sound { IsSoundCore D.Deed S.BuildHasher S.Hasher.Hasher K.eq K.hash_input core.new }
    ensures room { Room core.new }
    ensures slots { IsSlotted D.Deed S.BuildHasher S.Hasher.Hasher K.eq K.hash_input core.new }
    ensures numbers { has_next (state_of core.new) ≡ has_next (state_of core.old) }
{
    core.locks.finish(thread);
}

/// A step of a thread whose call is to be answered: one of what is still owed to the lock, or the answer.
pub(crate) fn finish<
    K: Eq + Hash + Drop,
    V: Drop,
    S: BuildHasher,
    D: Deed<K, V> + Drop,
    A: Allocator,
>(core: &mut Core<K, V, S, D, D::Answer, A>, step: Step)
    requires sound { IsSoundCore D.Deed S.BuildHasher S.Hasher.Hasher K.eq K.hash_input core.old }
    requires room { Room core.old }
    requires slots { IsSlotted D.Deed S.BuildHasher S.Hasher.Hasher K.eq K.hash_input core.old }
    requires numbers { has_next (state_of core.old) ≡ true }
    requires before { (answer : _) × IsBefore (state_of core.old).places step.thread (phase.Answer answer) }
    requires moves { goes_on (state_of core.old).locks step.thread ≡ true }
    ensures step { MakesStep IsOwnStep D.Deed S.BuildHasher S.Hasher.Hasher K.eq K.hash_input core.old step core.new }
    ensures room { Room core.new }
    ensures slots { IsSlotted D.Deed S.BuildHasher S.Hasher.Hasher K.eq K.hash_input core.new }
{
    if !core.locks.is_in_call(step.thread) {
        answer(core, step);
    } else if core.locks.ended(step.thread).is_some() {
        leave_lock(core, step.thread);
        answer(core, step);
    } else {
        move_lock(core, step);
    }
}
