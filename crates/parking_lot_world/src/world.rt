//! Worlds of locks, condition variables and onces: threads at them, moved by a schedule.
ghost use Rattle.std.specs.Prelude.{◌≡◌, length, take, slice_get, slice_set, None, Some, true, false, IfErr};
ghost use Rattle.std.specs.Prelude.{MatchResult};
ghost use Rattle.parking_lot_machine_waits.specs.JointMoves as joint;
ghost use Rattle.parking_lot_world.specs.declared.calls.Asked.TheVariants.{OfLock, OfOnce, OfVariable};
ghost use Rattle.parking_lot_world.specs.WorldLaws.{DoneStays, IsSoundWorld};
ghost use Rattle.parking_lot_world.specs.Worlds.{IsAsked, IsFit, IsGone, IsLate, IsMade, IsWhole, Ran, is_in_once};
ghost use Rattle.parking_lot_world.specs.Worlds.{may_ask, may_go, may_make, refusal, steps_done};

use crate::calls::{Asked, LockAnswer, LockKind};
use crate::fault::{WorldFault, WorldRefusal};
use crate::step::WorldStep;
use parking_lot_machine::{LockCall as RowCall, laws as of_locks};
use parking_lot_machine_sides::once::laws::what_is_done_stays_done;
use parking_lot_machine_sides::once::{OnceCall, OnceMachine};
use parking_lot_machine_waits::{CondvarCall, WaitMachine, laws as of_waits};
use std::alloc::{Allocator, Global};
use std::marker::Model;

/// Threads, and locks, condition variables and onces, stepped by a schedule.
///
/// Nothing in it moves by itself: [`run`](World::run) is told which thread makes each step. A step is one atomic act of
/// a thread's call, as a load of the lock's word, an exchange, entering a section, or running a closure, and it is done
/// whole. Its code takes nothing from outside, so a run can be repeated; no clause says that it ends the same.
///
/// A list's bucket is its key modulo the number of buckets: the least power of two from 16 on that is three times as
/// many as the threads, or more. While a section of a list is open, none of a list of that bucket is entered; one of
/// another bucket may be. A variable and a once have their first key's list, and a notification enters the bucket of
/// the mutex together with the variable's.
///
/// The locks have the numbers of their kinds in the list that the world is made with, and threads are numbered from 0.
/// It takes all memory that its runs need where it is made.
///
/// ```text
/// let mut world = World::new(alloc, 2, vec![in alloc; LockKind::Rw, LockKind::Once]?)?;
/// world.run(&[WorldStep::Begin(0, 1, LockCall::CallOnce(true)), WorldStep::Go(0, false)])?;
/// world.word(1)
/// ```
#[derive(Drop)]
pub struct World<A: Allocator = Global> {
    pub(crate) kinds: Vec<LockKind, A>,
    pub(crate) waits: WaitMachine<A>,
    pub(crate) onces: OnceMachine<A>,
    /// What each thread's last call answered; `None` while it isn't answered.
    pub(crate) answers: Vec<Option<LockAnswer>, A>,
}

impl<A: Allocator> Model for World<A> {
    ghost use Rattle.parking_lot_world.specs.Worlds.{IsWhole, Shown};

    ghost Value = { Shown };

    ghost view = { λ w. record { kinds = w.kinds.items; waits = w.waits; onces = w.onces; answers = w.answers.items } };

    ghost invariant = { λ w. IsWhole
        (record { kinds = w.kinds.items; waits = w.waits; onces = w.onces; answers = w.answers.items }) };
}

impl<A: Allocator> World<A> {
    /// What holds of the world at every moment. It does nothing.
    pub fn known(&self)
        ensures { IsSoundWorld self.now }
    {
        self.waits.known();
        self.onces.known();
        of_locks::owners_agree();
        of_locks::lists_are_waiters();
        of_locks::debts_are_kept();
        of_locks::awake_can_move();
        of_locks::somebody_can_move();
        of_locks::steps_are_few();
        of_waits::somebody_can_move();
        of_waits::somebody_inside_goes();
        of_waits::steps_are_few();
    }

    /// A thread begins a call at a lock.
    fn ask_lock(&mut self, thread: usize, lock: usize, call: RowCall)
        requires allowed { may_ask self.old thread lock (OfLock call) ≡ true }
        ensures asked { IsAsked thread lock (OfLock call) self.old self.new }
        ensures answers { self.new.answers ≡ slice_set self.old.answers thread None }
        ensures kinds { self.new.kinds ≡ self.old.kinds }
    {
        self.waits.known();
        self.waits.ask(thread, lock, call);
        self.answers[thread] = None;
    }

    /// A thread begins a call at a condition variable.
    fn ask_variable(&mut self, thread: usize, lock: usize, call: CondvarCall)
        requires allowed { may_ask self.old thread lock (OfVariable call) ≡ true }
        ensures asked { IsAsked thread lock (OfVariable call) self.old self.new }
        ensures answers { self.new.answers ≡ slice_set self.old.answers thread None }
        ensures kinds { self.new.kinds ≡ self.old.kinds }
    {
        self.waits.known();
        self.waits.call(thread, lock, call);
        self.answers[thread] = None;
    }

    /// A thread begins a call at a once.
    fn ask_once(&mut self, thread: usize, lock: usize, call: OnceCall)
        requires allowed { may_ask self.old thread lock (OfOnce call) ≡ true }
        ensures asked { IsAsked thread lock (OfOnce call) self.old self.new }
        ensures answers { self.new.answers ≡ slice_set self.old.answers thread None }
        ensures kinds { self.new.kinds ≡ self.old.kinds }
    {
        self.waits.known();
        self.onces.begin(thread, lock, call);
        self.answers[thread] = None;
    }

    /// A thread makes a step of its call at a lock or a condition variable.
    fn go_lock(&mut self, thread: usize, fair: bool)
        requires there { is_in_once self.old thread ≡ false }
        requires allowed { may_go self.old thread ≡ true }
        ensures gone { IsGone false thread fair self.old self.new }
        ensures kinds { self.new.kinds ≡ self.old.kinds }
    {
        self.waits.known();
        let call = self.waits.lock_call(thread);
        if let Some(ended) = self.waits.step(thread, fair) {
            self.answers[thread] = Some(LockAnswer::of_ended(call, ended));
        }
    }

    /// A thread makes a step of its call at a once.
    fn go_once(&mut self, thread: usize, fair: bool)
        requires there { is_in_once self.old thread ≡ true }
        requires allowed { may_go self.old thread ≡ true }
        ensures gone { IsGone true thread fair self.old self.new }
        ensures kinds { self.new.kinds ≡ self.old.kinds }
    {
        let _ = fair;
        self.waits.known();
        if let Some(reply) = self.onces.step(thread) {
            self.answers[thread] = Some(LockAnswer::of_reply(reply));
        }
    }

    /// A thread's deadline comes.
    fn expire(&mut self, thread: usize)
        requires allowed { joint.may_expire self.old.waits thread ≡ true }
        ensures late { IsLate thread self.old self.new }
        ensures kinds { self.new.kinds ≡ self.old.kinds }
    {
        self.waits.known();
        self.waits.deadline(thread);
    }

    /// A thread begins a call.
    fn ask(&mut self, thread: usize, lock: usize, call: Asked)
        requires allowed { may_ask self.old thread lock call ≡ true }
        ensures asked { IsAsked thread lock call self.old self.new }
        ensures answers { self.new.answers ≡ slice_set self.old.answers thread None }
        ensures kinds { self.new.kinds ≡ self.old.kinds }
    {
        match call {
            Asked::OfLock(call) => self.ask_lock(thread, lock, call),
            Asked::OfVariable(call) => self.ask_variable(thread, lock, call),
            Asked::OfOnce(call) => self.ask_once(thread, lock, call),
        }
    }

    /// A thread makes a step of its call.
    fn go(&mut self, thread: usize, fair: bool)
        requires allowed { may_go self.old thread ≡ true }
        ensures gone { IsGone (is_in_once self.old thread) thread fair self.old self.new }
        ensures kinds { self.new.kinds ≡ self.old.kinds }
    {
        if self.is_in_once(thread) {
            self.go_once(thread, fair);
        } else {
            self.go_lock(thread, fair);
        }
    }

    /// Makes a step.
    fn make(&mut self, step: WorldStep)
        requires allowed { may_make self.old step ≡ true }
        ensures { IsMade step self.old self.new }
    {
        match step {
            WorldStep::Begin(thread, lock, call) => self.ask(thread, lock, call.asked()),
            WorldStep::Go(thread, fair) => self.go(thread, fair),
            WorldStep::Deadline(thread) => self.expire(thread),
        }
    }

    /// Makes a step, or says why not.
    fn make_step(&mut self, step: WorldStep) -> Result<(), WorldRefusal>
        ensures made { MatchResult result
            (λ _. (refusal self.old step ≡ None) × IsMade step self.old self.new)
            (λ fault. (self.new ≡ self.old) × (refusal self.old step ≡ Some fault)) }
        ensures fits { IsFit self.new }
        ensures lasts { DoneStays self.old self.new }
    {
        self.known();
        what_is_done_stays_done();
        if step.thread() >= self.answers.len() {
            return Err(WorldRefusal::NoSuchThread);
        }
        if !self.may_make(step) {
            return Err(WorldRefusal::CannotMove);
        }
        self.make(step);
        self.known();
        Ok(())
    }

    /// Makes the steps, one after another, up to the first that is refused.
    fn make_steps(&mut self, steps: &[WorldStep]) -> Result<(), WorldFault>
        ensures ran { Ran self.old (take (steps_done result (length steps.now)) steps.now) self.new }
        ensures refused { IfErr result (λ fault. (step : _) × (slice_get steps.now fault.done ≡ Some step)
            × (refusal self.new step ≡ Some fault.fault)) }
        ensures lasts { DoneStays self.old self.new }
    {
        let mut done = 0;
        for step in steps {
            if let Err(fault) = self.make_step(*step) {
                return Err(WorldFault { done, fault });
            }
            done += 1;
        }
        Ok(())
    }

    /// Makes the steps, one after another, up to the first that is refused. It takes no memory.
    ///
    /// Each is steps of the rules of the lock, the condition variable or the once that the thread's call is at, and
    /// after it each is still sound. A wait gives its mutex up and locks it again by steps at the mutex.
    ///
    /// # Errors
    ///
    /// The steps before the refused one are done, and the fault has their number. The refused one changes nothing, and
    /// the steps behind it aren't tried. `NoSuchThread` where the world doesn't have the thread; else `CannotMove`
    /// where the step isn't allowed now:
    ///
    /// - `Begin` where the thread is in a call, the world has no such lock or it is of another kind, or the call gives
    ///   up what the thread
    /// doesn't own or asks for a lock that it owns, but for a reader of a recursive lock that reads again and has fewer
    /// than 255 holds; that of a
    ///   wait also where its mutex is no lock of the kind `Mutex` that the thread owns;
    /// - `Go` where the thread is in no call, sleeps, or is before a section that one which is open keeps out;
    /// - `Deadline` where the thread doesn't sleep in a timed call, or its deadline has come before in that sleep.
    pub fn run(&mut self, steps: &[WorldStep]) -> Result<(), WorldFault>
        ensures ran { Ran self.old (take (steps_done result (length steps.now)) steps.now) self.new }
        ensures refused { IfErr result (λ fault. (step : _) × (slice_get steps.now fault.done ≡ Some step)
            × (refusal self.new step ≡ Some fault.fault)) }
        ensures promises { IsSoundWorld self.new }
        ensures lasts { DoneStays self.old self.new }
    {
        let result = self.make_steps(steps);
        self.known();
        result
    }
}
