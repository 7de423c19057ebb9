//! The machine of a condition variable: its word, its list and a call for each thread, moved one atomic step at a time.
ghost use Rattle.std.specs.Prelude.{◌≡◌, length, is_some, true, IfSome};
ghost use Rattle.parking_lot_machine_sides.specs.Condvar.Machines.{call_at, can_step, can_take, may_begin};
ghost use Rattle.parking_lot_machine_sides.specs.Condvar.Outsides.{can_be_told};
ghost use Rattle.parking_lot_machine_sides.specs.Condvar.Steps.{IsBegun, IsStepped, IsTaken, IsTold};

use crate::condvar::calls::{CondvarCall, CondvarReply};
use crate::condvar::open_call::{Core, OpenCall};
use crate::condvar::outside::Outside;
use std::alloc::{Allocator, Global};
use std::marker::Model;

/// A condition variable, and threads at it, each in one call at a time.
///
/// A thread [begins](CondvarMachine::begin) a call, and then makes one atomic [step](CondvarMachine::step) at the
/// variable after another, in any order among the threads, until the call is answered. What a call does elsewhere (it
/// gives its mutex up and locks it again, sleeps, moves waiters to the mutex's list) is for whoever runs the machine,
/// who [tells](CondvarMachine::tell) the call what came of it. All room is taken where the machine is made.
#[derive(Drop)]
pub struct CondvarMachine<A: Allocator = Global> {
    pub(crate) word: u64,
    pub(crate) calls: Vec<Option<OpenCall>, A>,
    pub(crate) queue: Vec<usize, A>,
    /// Who is in the variable's section.
    pub(crate) inside: Option<usize>,
    /// The mutex whose bucket it has entered too, as a notification does.
    pub(crate) beside: Option<u64>,
}

impl<A: Allocator> Model for CondvarMachine<A> {
    ghost use Rattle.std.specs.Prelude.{◌≤◌, length, vec_capacity};
    ghost use Rattle.parking_lot_machine_sides.specs.Condvar.Machines.{State};
    ghost use Rattle.parking_lot_machine_sides.specs.Condvar.Fitting.{Fits};

    ghost Value = { State };

    ghost view = { λ m. record {
      word = m.word;
      calls = m.calls.items;
      queue = m.queue.items;
      inside = m.inside;
      beside = m.beside;
    } };

    ghost invariant = { λ m. Fits
        (record {
          word = m.word;
          calls = m.calls.items;
          queue = m.queue.items;
          inside = m.inside;
          beside = m.beside;
        })
        × (length m.calls.items ≤ vec_capacity m.queue) };
}

impl<A: Allocator> CondvarMachine<A> {
    /// How many threads there are.
    pub fn threads(&self) -> usize
        ensures { result ≡ length self.now.calls }
    {
        self.calls.len()
    }

    /// The word: 0 where nobody waits, and else the number of the mutex that all wait with, and 1 more.
    pub fn word(&self) -> u64
        ensures { result ≡ self.now.word }
    {
        self.word
    }

    /// Who waits, in the order in which they joined the list.
    pub fn queue(&self) -> &[usize]
        ensures { result.now ≡ self.now.queue }
    {
        &self.queue
    }

    /// The call that a thread is in.
    pub fn call(&self, thread: usize) -> Option<OpenCall>
        ensures { result ≡ call_at self.now thread }
    {
        self.calls.get(thread).copied().flatten()
    }

    /// Who is in the section.
    pub fn inside(&self) -> Option<usize>
        ensures { result ≡ self.now.inside }
    {
        self.inside
    }

    /// The mutex whose bucket who is in the section has entered too, as a notification does.
    pub fn beside(&self) -> Option<u64>
        ensures { result ≡ self.now.beside }
    {
        self.beside
    }

    /// Whether a thread's next act is one of its own at the variable, and can be made: a section is entered only while
    /// nobody is inside.
    pub fn can_step(&self, thread: usize) -> bool
        ensures { result ≡ can_step self.now thread }
    {
        match self.call(thread) {
            Some(call) => call.is_own() && (!call.enters() || self.inside.is_none()),
            None => false,
        }
    }

    /// Whether a thread notifies, and is to take the first that waits.
    pub fn can_take(&self, thread: usize) -> bool
        ensures { result ≡ can_take self.now thread }
    {
        match self.call(thread) {
            Some(call) => call.takes() && self.queue.len() > 0,
            None => false,
        }
    }

    /// Whether a thread waits for what an act elsewhere gives, and this can be what it gave.
    pub fn can_be_told(&self, thread: usize, seen: Outside) -> bool
        ensures { result ≡ can_be_told self.now thread seen }
    {
        match self.call(thread) {
            Some(call) => call.may_hear(self.queue.len() > 0, seen),
            None => false,
        }
    }

    /// Whether a thread may begin that call: the machine has it, it is in no call, and the number of the mutex is below
    /// 2^64 - 1.
    pub fn may_begin(&self, thread: usize, call: CondvarCall) -> bool
        ensures { result ≡ may_begin self.now thread call }
    {
        thread < self.threads() && (self.call(thread).is_none() && call.has_number())
    }

    /// A thread begins a call. It adds 13 to the steps that are left, and a notification 10 and 1 for each thread.
    pub fn begin(&mut self, thread: usize, call: CondvarCall)
        requires may { may_begin self.old thread call ≡ true }
        ensures { IsBegun thread call self.old self.new }
    {
        let _ = &self.word;
        self.calls[thread] = Some(OpenCall::begun(call));
    }

    /// A thread makes one act at the variable. Answers how the call ended, where it did. Each lowers the steps that are
    /// left of all calls.
    pub fn step(&mut self, thread: usize) -> Option<CondvarReply>
        requires can { can_step self.old thread ≡ true }
        ensures { IsStepped thread result self.old self.new }
    {
        let _ = &self.word;
        let call = self.call(thread)?;
        match call.core {
            Core::Wait(core) => self.step_wait(thread, call, core),
            Core::Notify(core) => self.step_notify(thread, call, core),
        }
        call.reply()
    }

    /// A thread that notifies takes the first that waits off the list, and answers who that was: it is to be woken, or
    /// moved to the list of its mutex.
    pub fn take_first(&mut self, thread: usize) -> Option<usize>
        requires can { can_take self.old thread ≡ true }
        ensures took { IfSome result (λ waiter. IsTaken thread waiter self.old self.new) }
        ensures some { is_some result ≡ true }
    {
        let _ = &self.word;
        let call = self.call(thread)?;
        self.take(thread, call)
    }

    /// A thread is told what an act elsewhere gave.
    pub fn tell(&mut self, thread: usize, seen: Outside)
        requires can { can_be_told self.old thread seen ≡ true }
        ensures { IsTold thread seen self.old self.new }
    {
        let _ = &self.word;
        if let Some(call) = self.call(thread) {
            let left = self.queue.len() > 0;
            self.calls[thread] = Some(call.told(left, seen));
        }
    }
}
