//! The machine of locks and condition variables: threads at both, moved one atomic step at a time.
ghost use Rattle.std.specs.Prelude.{◌≡◌, ◌<◌, ◌≤◌, ◌*◌, ◌↔◌, ◌⊎◌, ◌^◌, length, map, replicate, true, IsErrOf, IfErr};
ghost use Rattle.std.specs.Prelude.{IfOk};
ghost use Rattle.parking_lot_core_model.specs.declared.fault.SizeFault.TheVariants.{BadSize, NoMemory};
ghost use Rattle.parking_lot_machine.specs.Machines.{at_rest};
ghost use Rattle.parking_lot_machine.specs.Rows.{state};
ghost use Rattle.parking_lot_machine_waits.specs.Joint.{buckets, call_at, is_shut, is_var, mode_at, nowhere, seat_at};
ghost use Rattle.parking_lot_machine_waits.specs.Joint.{thread_of, var_at, waiters_of, word_at};
ghost use Rattle.parking_lot_machine_waits.specs.JointMoves.{may_ask, may_call_at, may_expire, may_go};
ghost use Rattle.parking_lot_machine_waits.specs.JointLaws.{PartsFit};
ghost use Rattle.parking_lot_machine_waits.specs.JointProgress.{GiversAreOut};
ghost use Rattle.parking_lot_machine_waits.specs.JointSides.{enters, enters_beside, is_busy, is_indebted, lock_call};
ghost use Rattle.parking_lot_machine_waits.specs.JointSides.{queue_at};
ghost use Rattle.parking_lot_machine_waits.specs.JointSteps.{IsAsked, IsCalled, IsGone, IsLate, var_of};
ghost use Rattle.parking_lot_machine_waits.specs.Whole.{IsWhole};

use crate::ended::Ended;
use crate::laws::{givers_stay_out, stays_whole};
use crate::machines::Machines;
use crate::seat::Seat;
use parking_lot_core_model::SizeFault;
use parking_lot_machine::{Call, LockCall, LockKind, OwnMode, RowMachine};
use parking_lot_machine_sides::condvar::{CondvarCall, OpenCall};
use std::alloc::{Allocator, Global};
use std::marker::Model;

/// Locks and condition variables, and threads at them, each in one call at a time.
///
/// A thread has two numbers at the locks. A wait gives its mutex up as one of them, and sleeps and locks it again as
/// the other: so another thread may move it to the mutex's list while it is still giving the mutex up.
#[derive(Drop)]
pub struct WaitMachine<A: Allocator = Global> {
    machines: Machines<A>,
}

impl<A: Allocator> Model for WaitMachine<A> {
    ghost use Rattle.parking_lot_machine_waits.specs.Joint.{Joint};
    ghost use Rattle.parking_lot_machine_waits.specs.JointProgress.{GiversAreOut};
    ghost use Rattle.parking_lot_machine_waits.specs.Whole.{IsWhole};

    ghost Value = { Joint };

    ghost view = { λ m. m.machines };

    ghost invariant = { λ m. IsWhole m.machines × GiversAreOut m.machines };
}

impl<A: Allocator + Clone + Drop> WaitMachine<A> {
    /// A machine of so many threads, in no call, of locks of these kinds, which nobody owns, and of condition variables
    /// on which nobody waits: 1 to 65,536 threads, and 1 to 2^20 locks. `variables` says of each lock whether it is a
    /// condition variable; the row of such a one is never asked. All memory that its steps need is taken here.
    pub fn new(
        alloc: &A,
        threads: usize,
        kinds: Vec<LockKind, A>,
        variables: &[bool],
    ) -> Result<WaitMachine<A>, SizeFault>
        ensures size { IsErrOf result BadSize ↔
            ((threads ≡ 0) ⊎ (65536 < threads) ⊎ (length kinds.items ≡ 0) ⊎ (2 ^ 20 < length kinds.items)) }
        ensures rows { IfOk result (λ machine. state machine.rows ≡ at_rest true (2 * threads) kinds.items) }
        ensures vars { IfOk result (λ machine. machine.vars ≡ map (var_of threads) variables.now) }
        ensures seats { IfOk result (λ machine. machine.seats ≡ replicate threads nowhere) }
    {
        let machines = Machines::new(alloc, threads, kinds, variables)?;
        Ok(WaitMachine { machines })
    }
}

impl<A: Allocator> WaitMachine<A> {
    /// How many threads there are.
    pub fn threads(&self) -> usize
        ensures { result ≡ length self.now.seats }
    {
        self.machines.threads()
    }

    /// The machine of the locks. Of n threads, thread t has the numbers t and n + t there.
    pub fn rows(&self) -> &RowMachine<A>
        ensures { result.now ≡ self.now.rows }
    {
        self.machines.rows()
    }

    /// Where a thread is in a call at a condition variable.
    pub fn seat(&self, thread: usize) -> Seat
        ensures { result ≡ seat_at self.now thread }
    {
        self.machines.seat(thread)
    }

    /// Whether a lock is a condition variable.
    pub fn is_variable(&self, lock: usize) -> bool
        ensures { result ≡ is_var self.now lock }
    {
        self.machines.is_variable(lock)
    }

    /// The call that a thread is in at a condition variable.
    pub fn call_at(&self, variable: usize, thread: usize) -> Option<OpenCall>
        ensures { result ≡ call_at self.now variable thread }
    {
        self.machines.call_at(variable, thread)
    }

    /// Who waits at a variable, in the order in which they came.
    pub fn waiters(&self, variable: usize) -> &[usize]
        ensures { result.now ≡ waiters_of (var_at self.now variable) }
    {
        self.machines.waiters(variable)
    }

    /// The word of a lock. That of a condition variable is 0 where nobody waits, and else the number of the mutex that
    /// all wait with, and 1 more.
    pub fn word(&self, lock: usize) -> u64
        ensures { result ≡ word_at self.now lock }
    {
        self.machines.word(lock)
    }

    /// How a thread owns a lock now, by one of its numbers.
    pub fn owner(&self, thread: usize, lock: usize) -> Option<OwnMode>
        ensures { result ≡ mode_at self.now thread lock }
    {
        self.machines.owner(thread, lock)
    }

    /// The thread of a number at the locks.
    pub fn thread_of(&self, number: usize) -> usize
        ensures { result ≡ thread_of self.now number }
    {
        self.machines.thread_of(number)
    }

    /// Whether a thread is in a call.
    pub fn is_busy(&self, thread: usize) -> bool
        ensures { result ≡ is_busy self.now thread }
    {
        self.machines.is_busy(thread)
    }

    /// The bucket that a thread's next step enters, where it enters a section, of a lock or a variable.
    pub fn enters(&self, thread: usize) -> Option<usize>
        ensures { result ≡ enters self.now thread }
    {
        self.machines.enters(thread)
    }

    /// The bucket of the mutex, which a notification enters with it.
    pub fn enters_beside(&self, thread: usize) -> Option<usize>
        ensures { result ≡ enters_beside self.now thread }
    {
        self.machines.enters_beside(thread)
    }

    /// How many buckets of keys there are.
    pub fn buckets(&self) -> usize
        ensures { result ≡ buckets self.now }
    {
        self.machines.buckets()
    }

    /// Whether a section is open in a bucket, of a lock or a variable.
    pub fn is_shut(&self, bucket: usize) -> bool
        ensures { result ≡ is_shut self.now bucket }
    {
        self.machines.is_shut(bucket)
    }

    /// The call that a thread is in at a lock.
    pub fn lock_call(&self, thread: usize) -> Option<Call>
        ensures { result ≡ lock_call self.now thread }
    {
        self.machines.lock_call(thread)
    }

    /// Whether a thread owes a section or a wake, or is about to retry: by one of its numbers at the locks, or at a
    /// variable.
    pub fn is_in_debt(&self, thread: usize) -> bool
        ensures { result ≡ is_indebted self.now thread }
    {
        self.machines.is_in_debt(thread)
    }

    /// What holds of the machine at every moment. It does nothing.
    pub fn known(&self)
        ensures whole { IsWhole self.now }
        ensures givers { GiversAreOut self.now }
        ensures parts { PartsFit self.now }
    {
        self.machines.known();
    }
}

impl<A: Allocator + Clone + Drop> WaitMachine<A> {
    /// The threads of that key's list, in order. A lock has two keys: twice its number, and one more; the list of a
    /// condition variable is the first.
    pub fn queue(&self, key: usize) -> Result<Vec<usize, A>, SizeFault>
        ensures ok { IfOk result (λ threads. threads.items ≡ queue_at self.now key) }
        ensures err { IfErr result (λ fault. fault ≡ NoMemory) }
    {
        self.machines.queue(key)
    }
}

impl<A: Allocator> WaitMachine<A> {
    /// Whether a thread may begin a call at a lock: it is in none, the lock is no variable, and what it owns there
    /// allows it.
    pub fn may_ask(&self, thread: usize, lock: usize, call: LockCall) -> bool
        ensures { result ≡ may_ask self.now thread lock call }
    {
        self.machines.may_ask(thread, lock, call)
    }

    /// Whether a thread may begin a call at a condition variable: it is in none, and a wait is with a mutex that it
    /// owns.
    pub fn may_call_at(&self, thread: usize, variable: usize, call: CondvarCall) -> bool
        ensures { result ≡ may_call_at self.now thread variable call }
    {
        self.machines.may_call_at(thread, variable, call)
    }

    /// Whether a thread may make a step of its call: it doesn't sleep, and isn't before a section that one which is
    /// open keeps out.
    pub fn may_go(&self, thread: usize) -> bool
        ensures { result ≡ may_go self.now thread }
    {
        self.machines.may_go(thread)
    }

    /// Whether a thread's deadline may come: it sleeps in a list in a timed call, and it hasn't come before.
    pub fn may_expire(&self, thread: usize) -> bool
        ensures { result ≡ may_expire self.now thread }
    {
        self.machines.may_expire(thread)
    }

    /// A thread begins a call at a lock.
    pub fn ask(&mut self, thread: usize, lock: usize, call: LockCall)
        requires may { may_ask self.old thread lock call ≡ true }
        ensures { IsAsked thread lock call self.old self.new }
    {
        stays_whole();
        givers_stay_out();
        self.machines.known();
        self.machines.ask(thread, lock, call);
    }

    /// A thread begins a call at a condition variable.
    pub fn call(&mut self, thread: usize, variable: usize, call: CondvarCall)
        requires may { may_call_at self.old thread variable call ≡ true }
        ensures { IsCalled thread variable call self.old self.new }
    {
        stays_whole();
        givers_stay_out();
        self.machines.known();
        self.machines.call(thread, variable, call);
    }

    /// A thread makes a step. `fair` says whether it hands a lock over, where it stores in the section of an exclusive
    /// release. Answers how the call ended, where it did.
    pub fn step(&mut self, thread: usize, fair: bool) -> Option<Ended>
        requires can { may_go self.old thread ≡ true }
        ensures { IsGone thread fair result self.old self.new }
    {
        stays_whole();
        givers_stay_out();
        self.machines.known();
        self.machines.step(thread, fair)
    }

    /// A thread's deadline comes as it sleeps in a list of a timed call. From then on it can move, and takes itself off
    /// that list, unless it is taken first.
    pub fn deadline(&mut self, thread: usize)
        requires may { may_expire self.old thread ≡ true }
        ensures { IsLate thread self.old self.new }
    {
        stays_whole();
        givers_stay_out();
        self.machines.known();
        self.machines.deadline(thread);
    }
}
