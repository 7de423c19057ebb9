//! Laws of the world's routes, setups and steps. Each function's contract is the law: they are for proofs, and do
//! nothing when they run.
ghost use Rattle.std.specs.Prelude.{◌≡◌, ℕ, IsTrue};
ghost use Rattle.mapworld.specs.Laws.{FoundInsertsAreApplied};
ghost use Rattle.mapworld.specs.ReachableLaws.{FinishedWorldsAreAtRest, GrowthsAreForNewKeys, LoneThreadsStop};
ghost use Rattle.mapworld.specs.ReachableLaws.{ReachableStepsAreAtomic, ReachableWorldsAreLinearized};
ghost use Rattle.mapworld.specs.ReachableLaws.{ReachableWorldsAreRouted, RefusedKeysWereAbsent, RunsAreSchedules};
ghost use Rattle.mapworld.specs.ReachableLaws.{SchedulesStayReachable, SomebodyCanMove, StoppedWorldsAreAtRest};
ghost use Rattle.mapworld.specs.ReachableLaws.{TriesNeverSleep};
ghost use Rattle.mapworld_calls.specs.Setup.{Laws};
ghost use Rattle.mapworld_state.specs.Route.{key_route};
ghost use Rattle.mapworld_state.specs.State.{State};
ghost use Rattle.mapworld_state.specs.World.{setup_of};

use mapworld_calls::Deed;
pub use mapworld_state::locks::laws::{
    desks_count_as_words, lock_steps_are_lawful, queues_are_waiters, steps_touch_one_lock,
};
use parking_lot_machine::laws;
use std::hash::{BuildHasher, Hash};

/// Equal keys are routed to one shard, by every lawful hasher and for every number of shards. So no two shards of a
/// world hold equal keys.
pub fn equal_keys_share_a_shard<K: Eq + Hash, S: BuildHasher>()
    ensures { (hasher : _) (shards : ℕ) (j k : _) → IsTrue (K.eq j k)
        → key_route S.BuildHasher S.Hasher.Hasher K.hash_input hasher shards j ≡ key_route S.BuildHasher S.Hasher.Hasher
        K.hash_input hasher shards k }
{}

/// The setup of every world is lawful: its keys are compared by an equivalence, and equal keys route to one shard. So
/// the laws of the replay, which ask for that, hold of each world.
pub fn setups_are_lawful<K: Eq + Hash, V, S: BuildHasher, D: Deed<K, V>, A>()
    ensures { (w : State K V S D D.Answer A)
        → Laws (setup_of D.Deed S.BuildHasher S.Hasher.Hasher K.eq K.hash_input w) }
{}

/// An insertion whose look finds the pair of its key goes on to its deed, whether its shard has room or not: it is
/// never refused.
pub fn found_insertions_are_applied<K, V, S, D, T, A>()
    ensures { FoundInsertsAreApplied K V S D T A }
{}

/// What a schedule leads to from a reachable state is reachable, has what the world was made with, and adds to steps,
/// blocks and replies.
pub fn schedules_stay_reachable<K: Eq + Hash, V, S: BuildHasher, D: Deed<K, V>, A>()
    ensures { SchedulesStayReachable A D.Deed S.BuildHasher S.Hasher.Hasher K.eq K.hash_input }
{
    laws::each_step_is_a_case();
    laws::owners_agree();
}

/// What a run has made is a schedule that leads from the one state to the other, so the laws of schedules hold of runs.
pub fn runs_are_schedules<K: Eq + Hash, V, S: BuildHasher, D: Deed<K, V>, A>()
    ensures { RunsAreSchedules A D.Deed S.BuildHasher S.Hasher.Hasher K.eq K.hash_input }
{}

/// In every reachable state replies and contents are those of the replay, each block has its place, tries have causes,
/// and guards are the owners of locks: what `run` promises of the state that it leaves. And so are the invariants
/// behind it, on holds and locks.
pub fn reachable_worlds_are_linearized<K: Eq + Hash, V, S: BuildHasher, D: Deed<K, V>, A>()
    ensures { ReachableWorldsAreLinearized A D.Deed S.BuildHasher S.Hasher.Hasher K.eq K.hash_input }
{
    laws::each_step_is_a_case();
    laws::owners_agree();
    desks_count_as_words();
}

/// In every reachable state each pair is in the shard that its key routes to, and each key routes to one of the shards.
/// So the laws of replays hold of it.
pub fn reachable_worlds_are_routed<K: Eq + Hash, V, S: BuildHasher, D: Deed<K, V>, A>()
    ensures { ReachableWorldsAreRouted A D.Deed S.BuildHasher S.Hasher.Hasher K.eq K.hash_input }
{
    laws::each_step_is_a_case();
    laws::owners_agree();
}

/// In every reachable state in which a call is unanswered some thread can move: there is no deadlock.
pub fn somebody_can_move<K: Eq + Hash, V, S: BuildHasher, D: Deed<K, V>, A>()
    ensures { SomebodyCanMove A D.Deed S.BuildHasher S.Hasher.Hasher K.eq K.hash_input }
{
    laws::each_step_is_a_case();
    laws::owners_agree();
    laws::somebody_can_move();
}

/// A reachable state in which nobody can move is at rest: every call is answered, nobody holds anything or waits, and
/// no bit of a word is set.
pub fn stopped_worlds_are_at_rest<K: Eq + Hash, V, S: BuildHasher, D: Deed<K, V>, A>()
    ensures { StoppedWorldsAreAtRest A D.Deed S.BuildHasher S.Hasher.Hasher K.eq K.hash_input }
{
    laws::each_step_is_a_case();
    laws::owners_agree();
    laws::somebody_can_move();
}

/// In a reachable state in which every call is answered and every thread has finished, nothing is left: no thread has a
/// hold, a guard or a call at a lock, and no bit of a word is set. So it is where [`drain`](crate::MapWorld::drain) has
/// ended.
pub fn finished_worlds_are_at_rest<K: Eq + Hash, V, S: BuildHasher, D: Deed<K, V>, A>()
    ensures { FinishedWorldsAreAtRest A D.Deed S.BuildHasher S.Hasher.Hasher K.eq K.hash_input }
{
    laws::each_step_is_a_case();
    laws::owners_agree();
    laws::somebody_can_move();
}

/// From every reachable state a thread that is stepped alone, with any choice of fair steps and without deadlines, can
/// no longer move after fewer steps than the bound.
pub fn lone_threads_stop<K: Eq + Hash, V, S: BuildHasher, D: Deed<K, V>, A>()
    ensures { LoneThreadsStop A D.Deed S.BuildHasher S.Hasher.Hasher K.eq K.hash_input }
{
    laws::each_step_is_a_case();
    laws::owners_agree();
    laws::steps_are_few();
}

/// A step from a reachable state does one thing: it starts a call, or looks, or changes one key's pair, or changes of
/// one shard's lock the word or one of its queues, or answers its thread's call, or is its thread's deadline. No other
/// thread's place is another, and of the calls of others at locks at most one goes on, which it wakes.
pub fn reachable_steps_are_atomic<K: Eq + Hash, V, S: BuildHasher, D: Deed<K, V>, A>()
    ensures { ReachableStepsAreAtomic A D.Deed S.BuildHasher S.Hasher.Hasher K.eq K.hash_input }
{
    laws::each_step_is_a_case();
    laws::owners_agree();
    steps_touch_one_lock();
}

/// Where a shard grows for a call, and where that is refused, the map has no pair of the call's key.
pub fn growths_are_for_new_keys<K: Eq + Hash, V, S: BuildHasher, D: Deed<K, V>, A>()
    ensures { GrowthsAreForNewKeys A D.Deed S.BuildHasher S.Hasher.Hasher K.eq K.hash_input }
{
    laws::each_step_is_a_case();
    laws::owners_agree();
}

/// A call on a key that was answered `NoMemory` had a moment, between its start and its end, at which the map had no
/// pair of the key.
pub fn refused_keys_were_absent<K: Eq + Hash, V, S: BuildHasher, D: Deed<K, V>, A>()
    ensures { RefusedKeysWereAbsent A D.Deed S.BuildHasher S.Hasher.Hasher K.eq K.hash_input }
{
    laws::each_step_is_a_case();
    laws::owners_agree();
    steps_touch_one_lock();
}

/// A thread whose call is a try, or whose next call is one, is never asleep: a try waits for nobody.
pub fn tries_never_sleep<K: Eq + Hash, V, S: BuildHasher, D: Deed<K, V>, A>()
    ensures { TriesNeverSleep A D.Deed S.BuildHasher S.Hasher.Hasher K.eq K.hash_input }
{
    laws::each_step_is_a_case();
    laws::owners_agree();
    steps_touch_one_lock();
    queues_are_waiters();
}
