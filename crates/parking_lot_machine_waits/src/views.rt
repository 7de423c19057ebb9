//! What is seen of the machines.
ghost use Rattle.std.specs.Prelude.{◌≡◌, map, IfErr, IfOk};
ghost use Rattle.parking_lot_core_model.specs.declared.fault.SizeFault.TheVariants.{NoMemory};
ghost use Rattle.parking_lot_machine.specs.RowFits.{FitsTogether};
ghost use Rattle.parking_lot_machine.specs.Rows.{state};
ghost use Rattle.parking_lot_machine_waits.specs.Joint.{mode_at, thread_of, var_at, waiters_of, word_at};
ghost use Rattle.parking_lot_machine_waits.specs.JointSides.{queue_at};
ghost use Rattle.parking_lot_machine_waits.specs.JointSteps.{AreKnown};

use crate::machines::Machines;
use parking_lot_core_model::SizeFault;
use parking_lot_machine::OwnMode;
use std::alloc::Allocator;

impl<A: Allocator> Machines<A> {
    /// What holds of the machines at every moment. It does nothing.
    pub fn known(&self)
        ensures locks { FitsTogether (state self.now.rows) }
        ensures variables { AreKnown self.now.vars }
    {
        self.rows.known();
    }

    /// The word of a lock. That of a condition variable is 0 where nobody waits, and else the number of the mutex that
    /// all wait with, and 1 more.
    pub fn word(&self, lock: usize) -> u64
        ensures { result ≡ word_at self.now lock }
    {
        match self.vars.get(lock) {
            Some(Some(machine)) => machine.word(),
            _ => self.rows.word(lock),
        }
    }

    /// How a thread owns a lock now, by one of its numbers.
    pub fn owner(&self, thread: usize, lock: usize) -> Option<OwnMode>
        ensures { result ≡ mode_at self.now thread lock }
    {
        if thread >= self.threads() {
            return None;
        }
        match self.rows.owner(thread, lock) {
            Some(mode) => Some(mode),
            None => self.rows.owner(self.number(thread, true), lock),
        }
    }

    /// The thread of a number at the locks.
    pub fn thread_of(&self, number: usize) -> usize
        ensures { result ≡ thread_of self.now number }
    {
        if number < self.threads() {
            number
        } else {
            number - self.threads()
        }
    }
}

impl<A: Allocator + Clone + Drop> Machines<A> {
    /// The threads of those numbers at the locks.
    fn threads_of(&self, numbers: &[usize]) -> Result<Vec<usize, A>, SizeFault>
        ensures ok { IfOk result (λ threads. threads.items ≡ map (thread_of self.now) numbers.now) }
        ensures err { IfErr result (λ fault. fault ≡ NoMemory) }
    {
        let alloc = self.seats.allocator().clone()?;
        let mut threads = Vec::with_capacity(alloc, numbers.len())?;
        for number in numbers {
            threads.push_reserved(self.thread_of(*number));
        }
        Ok(threads)
    }

    /// Who waits at a condition variable, as a list of its own.
    fn waiters_at(&self, variable: usize) -> Result<Vec<usize, A>, SizeFault>
        ensures ok { IfOk result (λ threads. threads.items ≡ waiters_of (var_at self.now variable)) }
        ensures err { IfErr result (λ fault. fault ≡ NoMemory) }
    {
        let alloc = self.seats.allocator().clone()?;
        Ok(self.waiters(variable).to_vec(alloc)?)
    }

    /// The threads of that key's list, in order. A lock has two keys: twice its number, and one more; the list of a
    /// condition variable is the first.
    pub fn queue(&self, key: usize) -> Result<Vec<usize, A>, SizeFault>
        ensures ok { IfOk result (λ threads. threads.items ≡ queue_at self.now key) }
        ensures err { IfErr result (λ fault. fault ≡ NoMemory) }
    {
        let lock = key / 2;
        if !self.is_variable(lock) {
            let numbers = self.rows.queue(key)?;
            self.threads_of(&numbers)
        } else if key == 2 * lock {
            self.waiters_at(lock)
        } else {
            let alloc = self.seats.allocator().clone()?;
            Ok(Vec::new(alloc))
        }
    }
}
