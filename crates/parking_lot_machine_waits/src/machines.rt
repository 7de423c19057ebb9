//! The machines of the locks and of the condition variables, and who is in a call where.
ghost use Rattle.std.specs.Prelude.{◌≡◌, ◌<◌, length};
ghost use Rattle.parking_lot_machine_waits.specs.Joint.{asking_number, back_number, busy_number, call_at, front_number};
ghost use Rattle.parking_lot_machine_waits.specs.Joint.{has_by_second, is_idle, is_var, number};
ghost use Rattle.parking_lot_machine_waits.specs.Joint.{seat_at};

use crate::seat::{NOWHERE, Seat};
use parking_lot_machine::{Hold, RowMachine};
use parking_lot_machine_sides::condvar::{CondvarMachine, OpenCall};
use std::alloc::{Allocator, Global};
use std::marker::Model;

/// The machines of the locks and of the condition variables, and who is in a call where, with nothing that ties them.
#[derive(Drop)]
pub struct Machines<A: Allocator = Global> {
    pub(crate) rows: RowMachine<A>,
    /// By the number of the lock: the condition variables.
    pub(crate) vars: Vec<Option<CondvarMachine<A>>, A>,
    /// By the number of the thread.
    pub(crate) seats: Vec<Seat, A>,
}

impl<A: Allocator> Model for Machines<A> {
    ghost use Rattle.std.specs.Prelude.{◌≤◌, length};
    ghost use Rattle.parking_lot_machine_waits.specs.Joint.{Joint};
    ghost use Rattle.parking_lot_machine_waits.specs.JointSteps.{AreKnown};

    ghost Value = { Joint };

    ghost view = { λ m. record { rows = m.rows; vars = m.vars.items; seats = m.seats.items } };

    ghost invariant = { λ m. (length m.seats.items ≤ 65536) × AreKnown m.vars.items };
}

impl<A: Allocator> Machines<A> {
    /// How many threads there are.
    pub fn threads(&self) -> usize
        ensures { result ≡ length self.now.seats }
    {
        self.seats.len()
    }

    /// The machine of the locks. Of n threads, thread t has the numbers t and n + t there.
    pub fn rows(&self) -> &RowMachine<A>
        ensures { result.now ≡ self.now.rows }
    {
        &self.rows
    }

    /// Where a thread is in a call at a condition variable.
    pub fn seat(&self, thread: usize) -> Seat
        ensures { result ≡ seat_at self.now thread }
    {
        self.seats.get(thread).copied().unwrap_or(NOWHERE)
    }

    /// Whether a lock is a condition variable.
    pub fn is_variable(&self, lock: usize) -> bool
        ensures { result ≡ is_var self.now lock }
    {
        match self.vars.get(lock) {
            Some(Some(_)) => true,
            _ => false,
        }
    }

    /// The call that a thread is in at a condition variable.
    pub fn call_at(&self, variable: usize, thread: usize) -> Option<OpenCall>
        ensures { result ≡ call_at self.now variable thread }
    {
        match self.vars.get(variable) {
            Some(Some(machine)) => machine.call(thread),
            _ => None,
        }
    }

    /// One of a thread's two numbers at the locks.
    pub(crate) fn number(&self, thread: usize, second: bool) -> usize
        requires low { thread < length self.now.seats }
        ensures { result ≡ number self.now thread second }
    {
        if second {
            thread + self.seats.len()
        } else {
            thread
        }
    }
}

impl<A: Allocator> Machines<A> {
    /// The number that a wait of the thread sleeps with, and locks its mutex again.
    pub(crate) fn back_number(&self, thread: usize) -> usize
        requires low { thread < length self.now.seats }
        ensures { result ≡ back_number self.now thread }
    {
        self.number(thread, self.seat(thread).second)
    }

    /// The number that gives it up.
    pub(crate) fn front_number(&self, thread: usize) -> usize
        requires low { thread < length self.now.seats }
        ensures { result ≡ front_number self.now thread }
    {
        self.number(thread, !self.seat(thread).second)
    }

    /// Whether the thread has a lock by its second number.
    pub(crate) fn has_by_second(&self, thread: usize, lock: usize) -> bool
        requires low { thread < length self.now.seats }
        ensures { result ≡ has_by_second self.now thread lock }
    {
        match self.rows.hold(self.number(thread, true), lock) {
            Hold::Excludes => true,
            Hold::Shares(_) | Hold::Upgrades => false,
        }
    }

    /// The number by which the thread asks for a lock, and gives it up.
    pub(crate) fn asking_number(&self, thread: usize, lock: usize) -> usize
        requires low { thread < length self.now.seats }
        ensures { result ≡ asking_number self.now thread lock }
    {
        self.number(thread, self.has_by_second(thread, lock))
    }

    /// The number by which the thread is in a call at a lock.
    pub(crate) fn busy_number(&self, thread: usize) -> usize
        requires low { thread < length self.now.seats }
        ensures { result ≡ busy_number self.now thread }
    {
        match self.rows.call(thread) {
            Some(_) => thread,
            None => self.number(thread, true),
        }
    }

    /// Whether the thread is in no call at a lock.
    pub(crate) fn is_idle(&self, thread: usize) -> bool
        requires low { thread < length self.now.seats }
        ensures { result ≡ is_idle self.now thread }
    {
        self.rows.call(thread).is_none() && self.rows.call(self.number(thread, true)).is_none()
    }
}
