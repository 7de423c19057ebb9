//! What is seen of a machine of locks: who owns a lock, who waits, and who is in debt.
ghost use Rattle.std.specs.Prelude.{◌≡◌, false, slice_get, IfOk, IfErr};
ghost use Rattle.parking_lot_core_model.specs.declared.fault.SizeFault.TheVariants.{NoMemory};
ghost use Rattle.parking_lot_machine.specs.Machines.{can_move, ended, is_asleep};
ghost use Rattle.parking_lot_machine.specs.Ranks.{AnyMayBeStepped};
ghost use Rattle.parking_lot_machine.specs.RowFits.{FitsTogether};
ghost use Rattle.parking_lot_machine.specs.Rows.{lock_at, queue_at, state, taken_by};
ghost use Rattle.parking_lot_machine.specs.Worlds.{is_indebted, mode_in};

use crate::row_machine::RowMachine;
use parking_lot_core_model::SizeFault;
use parking_lot_machine_calls::{Hold, LockKind, OwnMode, Wakeup};
use parking_lot_protocol::{Act, CoreAnswer};
use std::alloc::Allocator;

impl<A: Allocator> RowMachine<A> {
    /// That all of the machine fits together, for who says what a run of it did: each lock is sound as the rules say.
    /// It does nothing.
    pub fn known(&self)
        ensures { FitsTogether (state self.now) }
    {
        let _ = &self.kinds;
    }

    /// That another thread may be stepped from here on where this one can't move, for who goes on so: no more steps are
    /// left than before. It does nothing.
    pub fn others_go_on(&self, thread: usize)
        ensures { can_move (state self.now) thread ≡ false → AnyMayBeStepped (state self.now) thread }
    {
        self.known();
    }

    /// How a thread owns a lock now, also within a call there.
    pub fn owner(&self, thread: usize, lock: usize) -> Option<OwnMode>
        ensures { result ≡ mode_in (lock_at (state self.now) lock) thread }
    {
        self.known();
        match self.call(thread) {
            Some(call) if call.lock == lock => call.owns(),
            _ => self.hold(thread, lock).mode(self.kind(lock)),
        }
    }

    /// Whether a thread owes a wake or is about to retry.
    pub fn is_in_debt(&self, thread: usize) -> bool
        ensures { result ≡ is_indebted (state self.now) thread }
    {
        self.known();
        match self.call(thread) {
            Some(call) => call.looks() || call.is_in_debt(self.taken(thread, 0).is_some()),
            None => false,
        }
    }

    /// How a thread's call ended, where nothing of it is left but its answer: the thread's next step gives it, and
    /// changes no word, no list and no other thread.
    pub fn ended(&self, thread: usize) -> Option<CoreAnswer>
        ensures { result ≡ ended (state self.now) thread }
    {
        match self.call(thread)?.core.act() {
            Act::Done(answer) => Some(answer),
            _ => None,
        }
    }

    /// Whether a thread sleeps in its call, until another wakes it. One whose deadline has come doesn't: it comes back
    /// by itself.
    pub fn is_asleep(&self, thread: usize) -> bool
        ensures { result ≡ is_asleep (state self.now) thread }
    {
        match self.call(thread) {
            Some(call) => call.core.sleeps_in_time(),
            None => false,
        }
    }

    /// Whom a thread has taken off a list and is still to wake: the first of them by 0, in the order of the list.
    pub fn taken(&self, thread: usize, nth: usize) -> Option<usize>
        ensures { result ≡ slice_get (taken_by (state self.now).wakes thread) nth }
    {
        nth_taken(&self.wakes, thread, nth)
    }
}

/// The one whom a thread is to wake after so many others.
fn nth_taken(wakes: &[Wakeup], by: usize, nth: usize) -> Option<usize>
    ensures { result ≡ slice_get (taken_by wakes.now by) nth }
{
    let mut left = nth;
    for wakeup in wakes {
        if wakeup.by == by {
            if left == 0 {
                return Some(wakeup.thread);
            }
            left -= 1;
        }
    }
    None
}

impl<A: Allocator + Clone> RowMachine<A> {
    /// The threads of a key's list, in order.
    pub fn queue(&self, key: usize) -> Result<Vec<usize, A>, SizeFault>
        ensures ok { IfOk result (λ threads. threads.items ≡ queue_at (state self.now) key) }
        ensures err { IfErr result (λ fault. fault ≡ NoMemory) }
    {
        match self.lot.queue(key) {
            Ok(threads) => Ok(threads),
            Err(_) => Err(SizeFault::NoMemory),
        }
    }
}
