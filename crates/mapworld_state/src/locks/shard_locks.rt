//! The locks of shards, with the desks that follow them.
ghost use Rattle.std.specs.Option.{option_copied};
ghost use Rattle.std.specs.Prelude.{◌≡◌, ◌↔◌, length, None, Some, true, is_some, slice_get, IfOk, IfErr, IsTrue};
ghost use Rattle.parking_lot_core_model.specs.declared.fault.SizeFault.TheVariants.{NoMemory};
ghost use Rattle.parking_lot_machine.specs.Machines.{can_move, ended, is_asleep, may_expire};
ghost use Rattle.parking_lot_machine.specs.Rows.{queue_at, state, word_at};
ghost use Rattle.mapworld_state.specs.Locks.Fits.{LocksFit};
ghost use Rattle.mapworld_state.specs.Locks.Stands.{gives, is_of_shards, needs, stand_in};
ghost use Rattle.mapworld_state.specs.Locks.Steps.{LockBegins, LockEnds, LockExpires, LockMoves, LockStarts};
ghost use Rattle.mapworld_state.specs.Locks.Steps.{MayAsk};
ghost use Rattle.mapworld_state.specs.Locks.Views.{owner_in};

use crate::locks::desks::{ShardDesk, follow, holds};
use lock_api_desk::Mode;
use parking_lot_core_model::SizeFault;
use parking_lot_machine::{CoreAnswer, LockCall, RowMachine, laws};
use std::alloc::{Allocator, Global};
use std::marker::Model;

/// The locks of shards, one for each, and beside each the guards of the threads that hold it.
///
/// A thread [begins](ShardLocks::begin) a call at a shard, or [starts](ShardLocks::start) to give its hold up, makes
/// one atomic [step](ShardLocks::step) after another, in any order among the threads, and
/// [finishes](ShardLocks::finish) where only the answer is left. As it sleeps in a call that has a deadline, that may
/// [come](ShardLocks::deadline). The desk of a shard has a guard for each thread that
/// holds the shard, in the same step in which it comes to hold it.
#[derive(Drop)]
pub struct ShardLocks<A: Allocator = Global> {
    pub(crate) machine: RowMachine<A>,
    /// By the number of the shard.
    pub(crate) desks: Vec<ShardDesk<A>, A>,
}

impl<A: Allocator> Model for ShardLocks<A> {
    ghost use Rattle.mapworld_state.specs.Locks.Fits.{LocksFit};
    ghost use Rattle.mapworld_state.specs.Locks.Views.{Shown};

    ghost Value = { Shown };

    ghost view = { λ l. record { rows = l.machine; desks = l.desks.items } };

    ghost invariant = { λ l. LocksFit (record { rows = l.machine; desks = l.desks.items }) };
}

impl<A: Allocator> ShardLocks<A> {
    /// A thread begins a call at a shard.
    pub fn begin(&mut self, thread: usize, shard: usize, call: LockCall)
        requires may { MayAsk thread shard call self.old }
        ensures { LockBegins thread shard call self.old self.new }
    {
        self.machine.begin(thread, shard, call);
    }

    /// A thread begins to give its hold of a shard up, or to turn it into a shared one, and makes the first act of that
    /// at once: nobody can come in between.
    pub fn start(&mut self, thread: usize, shard: usize, call: LockCall, fair: bool)
        requires may { MayAsk thread shard call self.old }
        requires gives { gives call ≡ true }
        ensures { LockStarts thread shard call fair self.old self.new }
    {
        self.begin(thread, shard, call);
        self.step(thread, fair);
        self.known();
    }

    /// A thread makes one step of its call. `fair` says whether it hands a lock over, where it stores in the section of
    /// an exclusive release.
    pub fn step(&mut self, thread: usize, fair: bool)
        requires can { can_move (state self.old.rows) thread ≡ true }
        requires open { ended (state self.old.rows) thread ≡ None }
        ensures { LockMoves thread fair self.old self.new }
    {
        laws::each_step_is_a_case();
        laws::owners_agree();
        let Some(call) = self.machine.call(thread) else {
            unreachable!();
        };
        let shard = call.lock;
        let before = holds(&self.machine, thread, shard);
        let _ = self.machine.step(thread, fair);
        follow(&mut self.desks[shard], &self.machine, thread, shard, before);
    }

    /// A thread's call is answered, where only the answer is left of it.
    pub fn finish(&mut self, thread: usize) -> CoreAnswer
        requires over { is_some (ended (state self.old.rows) thread) ≡ true }
        ensures { LockEnds thread result self.old self.new }
    {
        laws::each_step_is_a_case();
        let Some(answer) = self.machine.step(thread, false) else {
            unreachable!();
        };
        answer
    }

    /// Whether a thread's deadline may come: it sleeps in a call that has one, in a list or taken off it and not woken
    /// yet, and its deadline hasn't come before.
    pub fn may_expire(&self, thread: usize) -> bool
        ensures { result ≡ may_expire (state self.now.rows) thread }
    {
        self.machine.may_expire(thread)
    }

    /// A thread's deadline comes as it sleeps. No word, queue, guard or hold changes. From then on the thread can move:
    /// it takes itself off its list and is refused, and as a pending writer it gives its bit back and wakes those whom
    /// it has kept out. Where another has taken it off before, it goes on as it was told.
    pub fn deadline(&mut self, thread: usize)
        requires may { may_expire (state self.old.rows) thread ≡ true }
        ensures { LockExpires thread self.old self.new }
    {
        laws::each_step_is_a_case();
        self.machine.deadline(thread);
    }

    /// That locks and desks fit together, for who says what a run of them did. It does nothing.
    pub fn known(&self)
        ensures { LocksFit self.now }
    {
        let _ = &self.machine;
    }

    /// Whether a thread may begin that call at a shard: it is in none, and holds the shard as the call needs it.
    pub fn may_ask(&self, thread: usize, shard: usize, call: LockCall) -> bool
        ensures { IsTrue result ↔ MayAsk thread shard call self.now }
    {
        thread < self.threads()
            && shard < self.shards()
            && is_of_shards(call)
            && !self.is_in_call(thread)
            && self.owner(thread, shard) == needed(call)
    }

    /// The locks themselves: their words, queues and owners, and where each thread's call at them stands.
    pub fn machine(&self) -> &RowMachine<A>
        ensures { result.now ≡ self.now.rows }
    {
        &self.machine
    }

    /// How many threads there are.
    pub fn threads(&self) -> usize
        ensures { result ≡ length self.now.rows.calls }
    {
        self.machine.threads()
    }

    /// How many shards there are.
    pub fn shards(&self) -> usize
        ensures { result ≡ length self.now.rows.kinds }
    {
        self.desks.len()
    }

    /// The word of a shard's lock; 0 beyond the last.
    pub fn word(&self, shard: usize) -> u64
        ensures { result ≡ word_at (state self.now.rows) shard }
    {
        self.machine.word(shard)
    }

    /// How a thread holds a shard now, also within a call there. A pending writer doesn't yet.
    pub fn owner(&self, thread: usize, shard: usize) -> Option<Mode>
        ensures { result ≡ owner_in self.now shard thread }
    {
        holds(&self.machine, thread, shard)
    }

    /// Whether a thread can make a step: it is in a call, doesn't sleep, and isn't before a section that another has
    /// entered.
    pub fn can_move(&self, thread: usize) -> bool
        ensures { result ≡ can_move (state self.now.rows) thread }
    {
        self.machine.can_move(thread)
    }

    /// Whether a thread sleeps in its call, until another wakes it. One whose deadline has come doesn't: it comes back
    /// by itself.
    pub fn is_asleep(&self, thread: usize) -> bool
        ensures { result ≡ is_asleep (state self.now.rows) thread }
    {
        self.machine.is_asleep(thread)
    }

    /// How a thread's call ended, where nothing of it is left but its answer.
    pub fn ended(&self, thread: usize) -> Option<CoreAnswer>
        ensures { result ≡ ended (state self.now.rows) thread }
    {
        self.machine.ended(thread)
    }

    /// Whether a thread is in a call.
    pub fn is_in_call(&self, thread: usize) -> bool
        ensures { result ≡ is_some (stand_in self.now thread) }
    {
        self.machine.call(thread).is_some()
    }

    /// The desk of a shard; `None` beyond the last.
    pub fn desk(&self, shard: usize) -> Option<&ShardDesk<A>>
        ensures { option_copied result ≡ slice_get self.now.desks shard }
    {
        self.desks.get(shard)
    }
}

/// Whether the call is one of shards' locks: they are read and written, and never held as upgradable.
fn is_of_shards(call: LockCall) -> bool
    ensures { result ≡ is_of_shards call }
{
    match call {
        LockCall::Read | LockCall::TryRead | LockCall::ReadUntil => true,
        LockCall::Write | LockCall::TryWrite | LockCall::WriteUntil => true,
        LockCall::UnlockRead | LockCall::UnlockWrite | LockCall::Downgrade => true,
        _ => false,
    }
}

/// How a thread has to hold a shard before the call.
fn needed(call: LockCall) -> Option<Mode>
    ensures { result ≡ needs call }
{
    match call {
        LockCall::UnlockRead => Some(Mode::Shared),
        LockCall::UnlockWrite | LockCall::Downgrade => Some(Mode::Exclusive),
        _ => None,
    }
}

impl<A: Allocator + Clone> ShardLocks<A> {
    /// The threads that wait in the list of a key, in order: the first list of shard `i` has key `2 * i`, the second `2
    /// * i + 1`.
    pub fn queue(&self, key: usize) -> Result<Vec<usize, A>, SizeFault>
        ensures ok { IfOk result (λ threads. threads.items ≡ queue_at (state self.now.rows) key) }
        ensures err { IfErr result (λ fault. fault ≡ NoMemory) }
    {
        self.machine.queue(key)
    }
}
