//! What is seen of a world.
ghost use Rattle.std.specs.Prelude.{◌≡◌, length, slice_get, IfErr, IfOk};
ghost use Rattle.std.specs.Option.{option_and_then};
ghost use Rattle.parking_lot_core_model.specs.declared.fault.SizeFault.TheVariants.{NoMemory};
ghost use Rattle.parking_lot_world.specs.Worlds.{is_indebted, mode_at, owners_below, queue_at, those_below, word_at};

use crate::calls::{LockAnswer, LockKind};
use crate::world::World;
use parking_lot_core_model::SizeFault;
use parking_lot_machine::OwnMode;
use parking_lot_machine_sides::once::OnceMachine;
use parking_lot_machine_waits::WaitMachine;
use std::alloc::Allocator;

impl<A: Allocator> World<A> {
    /// The machine of the locks and condition variables.
    pub fn waits(&self) -> &WaitMachine<A>
        ensures { result.now ≡ self.now.waits }
    {
        &self.waits
    }

    /// The machine of the onces.
    pub fn onces(&self) -> &OnceMachine<A>
        ensures { result.now ≡ self.now.onces }
    {
        &self.onces
    }

    /// The kind of a lock; `None` beyond the last.
    pub fn kind(&self, lock: usize) -> Option<LockKind>
        ensures { result ≡ slice_get self.now.kinds lock }
    {
        self.kinds.get(lock).copied()
    }

    /// The lock's word; 0 of one that the world doesn't have. That of a once is 0 where it is new, 1 where it is done,
    /// 2 where it is poisoned, 4 while a closure runs, and 8 more where callers may wait. That of a condition variable
    /// is 0 where nobody waits, and else the number of the mutex that all wait with, and 1 more.
    pub fn word(&self, lock: usize) -> u64
        ensures { result ≡ word_at self.now lock }
    {
        if self.is_once(lock) {
            self.onces.word(lock)
        } else {
            self.waits.word(lock)
        }
    }

    /// What the thread's last call answered; `None` while it isn't answered and before the first.
    pub fn answer(&self, thread: usize) -> Option<LockAnswer>
        ensures { result ≡ option_and_then (λ answer. answer) (slice_get self.now.answers thread) }
    {
        self.answers.get(thread).copied().flatten()
    }

    /// How a thread owns a lock now. Nobody owns a condition variable or a once.
    pub fn owner(&self, thread: usize, lock: usize) -> Option<OwnMode>
        ensures { result ≡ mode_at self.now lock thread }
    {
        if self.is_once(lock) || self.is_variable(lock) {
            None
        } else {
            self.waits.owner(thread, lock)
        }
    }

    /// Whether a thread owes a wake or is about to retry.
    pub fn is_in_debt(&self, thread: usize) -> bool
        ensures { result ≡ is_indebted self.now thread }
    {
        self.onces.is_in_debt(thread) || self.waits.is_in_debt(thread)
    }
}

impl<A: Allocator + Clone + Drop> World<A> {
    /// The threads that own the lock, and how, in the order of their numbers. One that sleeps and was handed the lock
    /// owns it.
    pub fn owners(&self, lock: usize) -> Result<Vec<(usize, OwnMode), A>, SizeFault>
        ensures ok { IfOk result
            (λ owners. owners.items ≡ owners_below (mode_at self.now lock) (length self.now.answers)) }
        ensures err { IfErr result (λ fault. fault ≡ NoMemory) }
    {
        let threads = self.answers.len();
        let alloc = self.answers.allocator().clone()?;
        let mut owners = Vec::with_capacity(alloc, threads)?;
        for thread in 0..threads {
            if let Some(mode) = self.owner(thread, lock) {
                owners.push_reserved((thread, mode));
            }
        }
        Ok(owners)
    }

    /// The threads of that key's list, in order. A lock has two keys: twice its number, and one more; the list of a
    /// once and that of a condition variable is the first.
    pub fn queue(&self, key: usize) -> Result<Vec<usize, A>, SizeFault>
        ensures ok { IfOk result (λ threads. threads.items ≡ queue_at self.now key) }
        ensures err { IfErr result (λ fault. fault ≡ NoMemory) }
    {
        let lock = key / 2;
        if !self.is_once(lock) {
            self.waits.queue(key)
        } else if key == 2 * lock {
            self.onces.queue(lock)
        } else {
            let alloc = self.answers.allocator().clone()?;
            Ok(Vec::new(alloc))
        }
    }

    /// The threads that owe a wake or are about to retry, in the order of their numbers.
    pub fn debts(&self) -> Result<Vec<usize, A>, SizeFault>
        ensures ok { IfOk result
            (λ threads. threads.items ≡ those_below (is_indebted self.now) (length self.now.answers)) }
        ensures err { IfErr result (λ fault. fault ≡ NoMemory) }
    {
        let threads = self.answers.len();
        let alloc = self.answers.allocator().clone()?;
        let mut debtors = Vec::with_capacity(alloc, threads)?;
        for thread in 0..threads {
            if self.is_in_debt(thread) {
                debtors.push_reserved(thread);
            }
        }
        Ok(debtors)
    }
}
