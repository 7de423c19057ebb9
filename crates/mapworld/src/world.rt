//! The world of maps: how it is made, run and looked at.
ghost use Rattle.std.specs.Prelude.{◌≡◌, ◌<◌, ◌↔◌, IfOk, IfErr, MatchResult, length, map, take};
ghost use Rattle.std.specs.Option.{option_map};
ghost use Rattle.mapworld_calls.specs.Pairs.{pair_of};
ghost use Rattle.mapworld_state.specs.State.{pairs_of, started_of};
ghost use Rattle.mapworld_state.specs.Route.{key_route};
ghost use Rattle.mapworld_state.specs.Running.{status_of, can_move_in, bound_of, refusal, Ran, steps_done, StopsAt};
ghost use Rattle.mapworld_state.specs.Running.{StaysFixed};
ghost use Rattle.mapworld.specs.Asleep.{IsAsleep, IsFinished};
ghost use Rattle.mapworld.specs.Views.{shown};
ghost use Rattle.mapworld.specs.Making.{new_refusal, IsMadeUnless, IsNew};
ghost use Rattle.mapworld_state.specs.Steps.{IsStep};
ghost use Rattle.mapworld_state.specs.World.{setup_of};
ghost use Rattle.mapworld_state.specs.Sound.{Sound};
ghost use Rattle.parking_lot_machine.specs.Rows.{state, queue_at};
ghost use Rattle.mapworld_state.specs.Locks.Fits.{LocksFit};
ghost use Rattle.mapworld_state.specs.Footprint.{word_of};
ghost use Rattle.mapworld_state.specs.Held.{HoldByPhase};
ghost use Rattle.mapworld.specs.Drained.{DrainedBy};
ghost use Rattle.mapworld.specs.Guarded.{GuardsAreOwners};
ghost use Rattle.mapworld.specs.History.{history_of, HistoryAddsTo, HistoryAgrees, HistoryHasCauses, HistoryIsPlaced};
ghost use Rattle.mapworld.specs.History.{HistoryHasDeadlines, HistoryStaysFixed};
ghost use Rattle.mapworld.specs.Over.{IsOver};
ghost use Rattle.mapworld.specs.Reachable.{IsReachable};
ghost use Rattle.mapworld_state.specs.Invariant.Causes.World.{TakenShardsAreUsed, NobodyWaitsAlone};

use crate::laws::{desks_count_as_words, queues_are_waiters, steps_touch_one_lock};
use crate::{contents, counts, limits, making};
use dashmap_table::NoMemory;
use dashmap_view::ViewIter;
use mapworld_calls::{Ask, Block, Deed, Reply};
use mapworld_state::faults::{RunFault, WorldNewFault};
use mapworld_state::{Core, Status, Step};
use mapworld_steps as steps;
use parking_lot_machine::laws::{each_step_is_a_case, owners_agree, steps_are_few};
use std::alloc::{Allocator, Global};
use std::hash::{BuildHasher, Hash};
use std::marker::Model;

/// A world: some threads, each with a finite program of map calls, and the one map that serves them all.
///
/// Nothing in it moves by itself: [`run`](MapWorld::run) is told which thread makes each step. A step is small, as the
/// start of a call, one access to the word of a shard's lock, one act in the section of a queue, a look for a key, one
/// change of a pair or an answer, and it is done whole; so every order of these steps can be written as a list, and
/// looked at. That threads which run take such steps no clause says.
///
/// Each shard has a lock of a word and two queues, as the locks of running maps are: threads take it, wait for it in a
/// queue, are handed it or woken to try again, step by step, and the [`word`](MapWorld::word) and the
/// [`queue`](MapWorld::queue)s can be looked at between any two steps.
///
/// Contracts see a world as a `State`: what it was made with, the steps so far, where each thread stands, the pairs of
/// each shard, the locks of the shards, and the blocks and replies so far. What callers can look at of it is its
/// `History`, and `run` says that it is linearizable: replies and contents are those of one plain map that takes the
/// blocks in their order, each of which stands at a step between the start of its call and the answer.
///
/// `K` is a key, `V` a value, `S` makes the hasher that picks a key's shard, and `D` is what a program does with a pair
/// that it is lent. The world keeps the allocator that it was made with, and takes all that it needs for its threads,
/// their blocks and their replies when it is made. After that only a shard may grow or shrink, and a walk that reads
/// takes room for what it reads, shard by shard; where memory is short then, the call is answered `NoMemory`, and
/// nothing else is changed.
///
/// ```text
/// let mut world = MapWorld::new(alloc, 2, SpreadState, pairs, programs)?;
/// world.run(&[Step { thread: 0, fair: false, deadline: false }])?;
/// for reply in world.replies() { .. }
/// ```
#[derive(Drop)]
pub struct MapWorld<K: Eq + Hash, V, S: BuildHasher, D: Deed<K, V>, A: Allocator = Global> {
    pub(crate) core: Core<K, V, S, D, D::Answer, A>,
}

impl<K: Eq + Hash, V, S: BuildHasher, D: Deed<K, V>, A: Allocator> Model
    for MapWorld<K, V, S, D, A> {
    ghost use Rattle.mapworld_state.specs.State.{State};

    ghost Value = { State K V S D D.Answer A };

    ghost use Rattle.mapworld_state.specs.Core.{state_of, IsSoundCore, IsSlotted, Room};
    ghost use Rattle.mapworld.specs.Progress.Drains.{IsInTime};
    ghost use Rattle.mapworld_state.specs.Invariant.Causes.World.{CoreHasCauses};
    ghost use Rattle.mapworld.specs.Reachable.{CoreIsReachable};

    ghost view = { λ w. state_of w.core };

    ghost invariant = { λ w. IsSoundCore D.Deed S.BuildHasher S.Hasher.Hasher K.eq K.hash_input w.core × Room w.core
        × IsSlotted D.Deed S.BuildHasher S.Hasher.Hasher K.eq K.hash_input w.core
        × IsInTime D.Deed S.BuildHasher S.Hasher.Hasher K.eq K.hash_input w.core
        × CoreHasCauses D.Deed S.BuildHasher S.Hasher.Hasher K.eq K.hash_input w.core
        × CoreIsReachable D.Deed S.BuildHasher S.Hasher.Hasher K.eq K.hash_input w.core };
}

impl<K: Eq + Hash, V, S: BuildHasher, D: Deed<K, V>, A: Allocator> MapWorld<K, V, S, D, A> {
    /// The answers so far, in the order in which they were given. It takes no memory and cannot fail.
    pub fn replies(&self) -> &[Reply<K, V, D::Answer, A>]
        ensures { result.now ≡ self.now.replies }
    {
        &self.core.replies
    }

    /// The blocks so far, in the order of their positions: the keyed calls, the sessions of guards, and the visits of
    /// walks, a shard each, each of which the map takes whole. It takes no memory and cannot fail.
    pub fn blocks(&self) -> &[Block<K>]
        ensures { result.now ≡ self.now.blocks }
    {
        &self.core.blocks
    }

    /// The key's pair as the map has it now, calls half done included; `None` where it has none. It takes no memory and
    /// cannot fail.
    pub fn pair(&self, key: &K) -> Option<(&K, &V)>
        ensures { option_map shown result ≡ pair_of K.eq (pairs_of self.now) key.now }
    {
        let shard = steps::shard_of(&self.core.hasher, self.core.tables.len(), key);
        contents::pair_in(&self.core.tables[shard], &self.core.hasher, key)
    }

    /// The pairs of the map as it is now, lent one after another, in any order. It takes no memory and cannot fail.
    pub fn pairs(&self) -> ViewIter<'_, K, V, A>
        ensures { result ≡ pairs_of self.now }
    {
        ViewIter::new(&self.core.tables)
    }

    /// How many threads the world has: one for each program. Threads are numbered from 0.
    pub fn threads(&self) -> usize
        ensures { result ≡ length self.now.programs }
    {
        self.core.places.len()
    }

    /// How many steps were made so far, over the life of the world: the number of the last one. It takes no memory and
    /// cannot fail.
    pub fn steps(&self) -> u64
        ensures { result ≡ length self.now.steps }
    {
        self.core.count
    }

    /// The shard that a key is on, which is also that of every equal key. It takes no memory and cannot fail.
    pub fn shard_of(&self, key: &K) -> usize
        ensures value { let shards = length self.now.tables in
            result ≡ key_route S.BuildHasher S.Hasher.Hasher K.hash_input self.now.hasher shards key.now }
        ensures below { result < length self.now.tables }
    {
        steps::shard_of(&self.core.hasher, self.core.tables.len(), key)
    }

    /// Where a thread stands: `Finished` where all its calls are answered, `Asleep` where it waits in a queue of its
    /// shard, or was taken from it and isn't woken yet, and otherwise `Running`. A thread that is asleep is `Running`
    /// again once another thread has woken it, or its deadline has come. One that is `Running` may still be before a
    /// queue's section whose bucket another thread has entered; whether it can go on says
    /// [`can_move`](MapWorld::can_move). It takes no memory and cannot fail.
    ///
    /// Threads are numbered from 0, one for each program. A thread that the world doesn't have is `Finished`.
    pub fn status(&self, thread: usize) -> Status
        ensures value { result ≡ status_of self.now thread }
        ensures asleep { (result ≡ Status.Asleep) ↔ IsAsleep self.now thread }
        ensures finished { (result ≡ Status.Finished) ↔ IsFinished self.now thread }
    {
        queues_are_waiters();
        self.core.locks.known();
        steps::status(&self.core, thread)
    }

    /// The step at which a thread's call started, while it is in one; `None` between two calls, and of a thread that
    /// the world doesn't have. Steps are numbered from 1 over the life of the world. It takes no memory and cannot
    /// fail.
    pub fn started(&self, thread: usize) -> Option<u64>
        ensures { result ≡ started_of self.now thread }
    {
        match self.core.places.get(thread) {
            Some(place) => place.started,
            None => None,
        }
    }

    /// Whether a step of the thread's own would be done: it is `Running`, and isn't before a queue's section whose
    /// bucket another thread has entered. Shard i has the queues 2i and 2i + 1, a queue's bucket is its number modulo
    /// the number of buckets, and only one thread at a time is in a section of a bucket. A thread that the world
    /// doesn't have can't move.
    ///
    /// It says nothing of the thread's deadline, and doesn't say that step numbers are left, which
    /// [`run`](MapWorld::run) tests too. It takes no memory and cannot fail.
    pub fn can_move(&self, thread: usize) -> bool
        ensures { result ≡ can_move_in self.now thread }
    {
        steps::can_move(&self.core, thread)
    }

    /// The word of a shard's lock, as the shard's lock has it now; 0 beyond the last shard. It takes no memory and
    /// cannot fail.
    pub fn word(&self, shard: usize) -> u64
        ensures { result ≡ word_of self.now.locks shard }
    {
        self.core.locks.word(shard)
    }

    /// A law, which does nothing when it runs: the state is reachable, so all laws of reachable states hold of it.
    pub fn known(&self)
        ensures { IsReachable D.Deed S.BuildHasher S.Hasher.Hasher K.eq K.hash_input self.now }
    {
        let _ = &self.core;
    }

    /// How many steps are to be enough from here, by the world's size alone: its threads, shards and pairs, and the
    /// calls that aren't answered. It takes no memory and cannot fail.
    pub fn bound(&self) -> u64
        ensures { result ≡ bound_of self.now }
    {
        counts::bound(&self.core)
    }
}

impl<K, V, S, D, A> MapWorld<K, V, S, D, A>
where
    K: Eq + Hash,
    S: BuildHasher,
    D: Deed<K, V>,
    A: Allocator + Clone + Drop,
{
    /// All pairs of the map as it is now, calls half done included. Their order may be any.
    ///
    /// The list is on an allocator like the world's own, and has room for one reference to each key and value. Where
    /// memory is short it answers [`NoMemory`].
    pub fn contents(&self) -> Result<Vec<(&K, &V), A>, NoMemory>
        ensures { IfOk result (λ pairs. map shown pairs.items ≡ pairs_of self.now) }
    {
        contents::pairs_in(&self.core.tables, self.core.tables.allocator().clone()?)
    }

    /// The threads that wait in a queue now, in the order in which they joined it. The lock of shard `i` has two
    /// queues, of the keys `2 * i` and `2 * i + 1`: in the first wait those that ask for the shard, in the second a
    /// writer that waits for the last readers to leave. One whose deadline has come stands there until it has taken
    /// itself out, or was. Beyond the last key nobody waits.
    ///
    /// The list is on an allocator like the world's own, and has room for a number of each waiter. Where memory is
    /// short it answers [`NoMemory`].
    pub fn queue(&self, key: usize) -> Result<Vec<usize, A>, NoMemory>
        ensures { IfOk result (λ threads. threads.items ≡ queue_at (state self.now.locks.rows) key) }
    {
        match self.core.locks.queue(key) {
            Ok(threads) => Ok(threads),
            Err(_) => Err(NoMemory),
        }
    }
}

impl<K, V, S, D, A> MapWorld<K, V, S, D, A>
where
    K: Eq + Hash + Drop,
    V: Drop,
    S: BuildHasher + Drop,
    D: Deed<K, V> + Drop,
    A: Allocator + Clone + Drop,
{
    /// A world of so many shards that begins with these pairs, and has a thread for each program.
    ///
    /// Of opening pairs with equal keys the first key and the last value stay. Each thread is before the first call of
    /// its program, which is queued as it was handed in, and none has started.
    ///
    /// # Errors
    ///
    /// The tests are made in this order, and the first that fails is answered:
    ///
    /// - `BadShards`: the amount of shards isn't a power of two from 2 to 4,096;
    /// - `TooManyThreads`: there is no program, or more than 256;
    /// - `TooManyCalls`: the programs have more than 2^20 calls in all;
    /// - `TooManyPairs`: there are more than 2^31 opening pairs;
    /// - `AsksWhileHolding`: a program doesn't pass `holds_one_guard`;
    /// - `NoGuardNumbers`: the programs take 2^32 guards or more: one for each call on one key and each opening, and as
    ///   many as there are shards for each walk;
    /// - `NoMemory`: memory ran out. All that the world's threads, blocks and replies will ever need is taken here, but
    ///   for what walks read: a reply for each call, a block for each guard that the programs take, as
    ///   `guard_numbers` counts them, and in each thread with walks a number for each shard. Many walks over many
    ///   shards take much: 2^20 walks over 2,048 shards ask for room for 2^31 blocks of 56 bytes, some 120 GB. A walk
    ///   with the stop 0 visits no shard: it takes neither blocks nor numbers.
    ///
    /// What was passed in is let go with the error.
    pub fn new(
        alloc: A,
        shards: usize,
        hasher: S,
        pairs: Vec<(K, V), A>,
        programs: Vec<Vec<Ask<K, V, D>, A>, A>,
    ) -> Result<MapWorld<K, V, S, D, A>, WorldNewFault>
        ensures refused { let asked = map (λ program. program.items) programs.items in
            IsMadeUnless (new_refusal shards (length pairs.items) asked) result }
        ensures made { let asked = map (λ program. program.items) programs.items in
            IfOk result (λ world. IsNew K.eq shards hasher pairs.items asked world) }
        ensures agrees { IfOk result
            (λ world. HistoryAgrees D.Deed S.BuildHasher S.Hasher.Hasher K.eq K.hash_input (history_of world)) }
        ensures placed { IfOk result
            (λ world. HistoryIsPlaced D.Deed S.BuildHasher S.Hasher.Hasher K.eq K.hash_input (history_of world)) }
        ensures guards { IfOk result (λ world. GuardsAreOwners world.locks) }
        ensures causes { IfOk result
            (λ world. HistoryHasCauses D.Deed S.BuildHasher S.Hasher.Hasher K.eq K.hash_input (history_of world)) }
        ensures late { IfOk result
            (λ world. HistoryHasDeadlines D.Deed S.BuildHasher S.Hasher.Hasher K.eq K.hash_input (history_of world)) }
        ensures reachable { IfOk result (IsReachable D.Deed S.BuildHasher S.Hasher.Hasher K.eq K.hash_input) }
    {
        if let Some(fault) = limits::refusal(shards, pairs.len(), &programs) {
            return Err(fault);
        }
        match making::core_of(alloc, shards, hasher, pairs, programs) {
            Ok(core) => Ok(MapWorld { core }),
            Err(_) => Err(WorldNewFault::NoMemory),
        }
    }
}

impl<K, V, S, D, A> MapWorld<K, V, S, D, A>
where
    K: Eq + Hash + Drop,
    V: Drop,
    S: BuildHasher,
    D: Deed<K, V> + Drop,
    A: Allocator + Clone,
{
    /// Makes a step, or says why not, where so many steps of the run are done.
    fn make_step(&mut self, step: Step, done: u64) -> Result<(), RunFault>
        ensures sound { Sound (setup_of D.Deed S.BuildHasher S.Hasher.Hasher K.eq K.hash_input self.old) self.old }
        ensures fit { LocksFit self.old.locks }
        ensures made { let setup = setup_of D.Deed S.BuildHasher S.Hasher.Hasher K.eq K.hash_input self.old in
            MatchResult result
            (λ _. (refusal self.old done step ≡ None) × IsStep setup self.old step self.new)
            (λ fault. (self.new ≡ self.old) × (refusal self.old done step ≡ Some fault)) }
    {
        steps_are_few();
        each_step_is_a_case();
        owners_agree();
        self.core.locks.known();
        if step.thread >= self.core.places.len() {
            return Err(RunFault::NoSuchThread(done));
        }
        if !counts::fits(&self.core) {
            return if steps::may_step(&self.core, step) {
                Err(RunFault::StepsShort(done))
            } else {
                Err(RunFault::CannotMove(done))
            };
        }
        if !steps::advance(&mut self.core, step) {
            return Err(RunFault::CannotMove(done));
        }
        self.core.locks.known();
        Ok(())
    }

    /// Makes the steps, one after another, up to the first that is refused.
    fn make_steps(&mut self, steps: &[Step]) -> Result<(), RunFault>
        ensures ran { let setup = setup_of D.Deed S.BuildHasher S.Hasher.Hasher K.eq K.hash_input self.old in
            Ran setup 0 self.old (take (steps_done result (length steps.now)) steps.now) self.new }
        ensures refused { IfErr result (StopsAt self.new steps.now) }
        ensures adds { HistoryAddsTo (history_of self.old) (history_of self.new) }
        ensures fixed { StaysFixed self.old self.new }
    {
        steps_touch_one_lock();
        let mut done = 0;
        for step in steps {
            self.make_step(*step, done)?;
            done += 1;
        }
        Ok(())
    }

    /// Makes the steps, one after another, up to the first that is refused.
    ///
    /// Behind it, also behind an error, the replies and the contents are those of one plain map that takes the blocks
    /// in their order; each block stands at a step of its own thread between the start of its call and the answer; what
    /// was listed and answered before is still there. Each shard's guards are the owners of its lock, as its word
    /// counts them, and none of them excludes another. A try that was answered `Locked` had a cause: at some step of it
    /// a call of another thread was on its shard. A call with a deadline is answered `Locked` only where its thread's
    /// deadline came while it was under way. A word that isn't 0 and a thread that sleeps have a cause too: a call on
    /// that shard now, and of another thread.
    ///
    /// A step with `deadline` is its thread's deadline: one that sleeps in a call with a deadline comes back, by steps
    /// of its own, and gives up, unless another thread takes it out of its queue before it does so itself. Such a step
    /// may come as soon as the thread sleeps, and it never has to. A deadline is of one sleep: who is woken, asks again
    /// and sleeps again needs another.
    ///
    /// # Errors
    ///
    /// The steps before the refused one are done, and the fault has their number. The refused one changes nothing, and
    /// the steps behind it aren't tried. The world goes on from there with the next `run`. The tests of a step are made
    /// in this order:
    ///
    /// - `NoSuchThread`: the world doesn't have the thread;
    /// - `CannotMove`: the thread is asleep or finished, or before a section whose bucket another thread has entered;
    ///   or, where the step is a deadline, it isn't asleep, or its call has none;
    /// - `StepsShort`: no step numbers are left for the step and all that must come after it.
    ///
    /// It takes memory only where a shard grows or shrinks, and for what a walk reads. Where that is refused it is no
    /// error of `run`: the call is answered `NoMemory`.
    ///
    /// ```text
    /// match world.run(&steps) {
    ///     Ok(()) => {}
    ///     Err(RunFault::CannotMove(done)) => { /* steps[done] is of a thread that sleeps, or has finished */ }
    ///     Err(fault) => return Err(fault),
    /// }
    /// ```
    pub fn run(&mut self, steps: &[Step]) -> Result<(), RunFault>
        ensures ran { let setup = setup_of D.Deed S.BuildHasher S.Hasher.Hasher K.eq K.hash_input self.old in
            Ran setup 0 self.old (take (steps_done result (length steps.now)) steps.now) self.new }
        ensures refused { IfErr result (StopsAt self.new steps.now) }
        ensures agrees { HistoryAgrees D.Deed S.BuildHasher S.Hasher.Hasher K.eq K.hash_input (history_of self.new) }
        ensures placed { HistoryIsPlaced D.Deed S.BuildHasher S.Hasher.Hasher K.eq K.hash_input (history_of self.new) }
        ensures adds { HistoryAddsTo (history_of self.old) (history_of self.new) }
        ensures fixed { HistoryStaysFixed (history_of self.old) (history_of self.new) }
        ensures guards { GuardsAreOwners self.new.locks }
        ensures by_phase { HoldByPhase self.new.places }
        ensures causes { HistoryHasCauses D.Deed S.BuildHasher S.Hasher.Hasher K.eq K.hash_input (history_of self.new) }
        ensures late { let past = history_of self.new in
            HistoryHasDeadlines D.Deed S.BuildHasher S.Hasher.Hasher K.eq K.hash_input past }
        ensures reachable { IsReachable D.Deed S.BuildHasher S.Hasher.Hasher K.eq K.hash_input self.new }
        ensures used { TakenShardsAreUsed D.Deed S.BuildHasher S.Hasher.Hasher K.eq K.hash_input self.new }
        ensures waits { NobodyWaitsAlone D.Deed S.BuildHasher S.Hasher.Hasher K.eq K.hash_input self.new }
    {
        desks_count_as_words();
        let result = self.make_steps(steps);
        self.core.locks.known();
        result
    }

    /// Runs the world until every call is answered and every section left, and answers how many steps that took:
    /// threads that can move are stepped, in an order of its own, until nobody can move. It makes no deadline: a call
    /// whose deadline hasn't come waits as a plain one does, and one whose deadline has goes on to give up. There are
    /// fewer steps than the [`bound`](MapWorld::bound) at the call. Behind it each call of each program has its reply,
    /// every thread is finished, every word is 0 and every queue is empty; so no shard is held and no guard is left
    /// ([`finished_worlds_are_at_rest`](crate::laws::finished_worlds_are_at_rest)).
    ///
    /// It is never refused, and goes on from whatever state a [`run`](MapWorld::run) has left, calls half done
    /// included. It takes memory only where a shard grows or shrinks, and for what a walk reads. A second one in a row
    /// has nothing left to do, and answers 0.
    ///
    /// ```text
    /// world.run(&steps)?;
    /// let more = world.drain();     // and every program is at its end
    /// ```
    pub fn drain(&mut self) -> u64
        ensures ran { let setup = setup_of D.Deed S.BuildHasher S.Hasher.Hasher K.eq K.hash_input self.old in
            DrainedBy setup self.old result self.new }
        ensures few { result < bound_of self.old }
        ensures rest { IsOver self.new }
        ensures agrees { HistoryAgrees D.Deed S.BuildHasher S.Hasher.Hasher K.eq K.hash_input (history_of self.new) }
        ensures placed { HistoryIsPlaced D.Deed S.BuildHasher S.Hasher.Hasher K.eq K.hash_input (history_of self.new) }
        ensures adds { HistoryAddsTo (history_of self.old) (history_of self.new) }
        ensures fixed { HistoryStaysFixed (history_of self.old) (history_of self.new) }
        ensures guards { GuardsAreOwners self.new.locks }
        ensures by_phase { HoldByPhase self.new.places }
        ensures causes { HistoryHasCauses D.Deed S.BuildHasher S.Hasher.Hasher K.eq K.hash_input (history_of self.new) }
        ensures late { let past = history_of self.new in
            HistoryHasDeadlines D.Deed S.BuildHasher S.Hasher.Hasher K.eq K.hash_input past }
        ensures reachable { IsReachable D.Deed S.BuildHasher S.Hasher.Hasher K.eq K.hash_input self.new }
    {
        steps_touch_one_lock();
        each_step_is_a_case();
        owners_agree();
        desks_count_as_words();
        let steps = crate::progress::drain(&mut self.core);
        self.core.locks.known();
        steps
    }
}
