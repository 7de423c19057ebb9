//! Which calls a thread may begin, and which steps it may make.
ghost use Rattle.std.specs.Prelude.{◌≡◌, ◌<◌, length, Some};
ghost use Rattle.parking_lot_machine_waits.specs.Joint.{lock_of, row_goes};
ghost use Rattle.parking_lot_machine_waits.specs.Joint.{var_at, var_goes, var_hears, waiters_of};
ghost use Rattle.parking_lot_machine_waits.specs.JointMoves.{has_mutex, is_free, may_ask, may_call, may_call_at};
ghost use Rattle.parking_lot_machine_waits.specs.JointMoves.{may_expire, may_expire_as, may_go, may_go_as, sleeps_on};

use crate::machines::Machines;
use crate::turn::{Turn, is_wait, mutex_of, turn_of};
use parking_lot_machine::{LockCall, LockKind};
use parking_lot_machine_sides::condvar::{CondvarCall, OpenCall, Outside};
use std::alloc::Allocator;

impl<A: Allocator> Machines<A> {
    /// Whether a number can make its step at a lock.
    fn row_goes(&self, number: usize) -> bool
        ensures { result ≡ row_goes self.now number }
    {
        self.rows.can_move(number) && !self.keeps_out(self.enters_at_lock(number))
    }

    /// Whether a thread can make its own step at a variable.
    fn var_goes(&self, thread: usize, variable: usize, call: &OpenCall) -> bool
        ensures { result ≡ var_goes self.now variable thread call.now (var_at self.now variable) }
    {
        match self.vars.get(variable) {
            Some(Some(machine)) => machine.can_step(thread)
                && !(self.shuts_out(self.enters_var(variable, call))
                    || self.shuts_out(self.enters_mutex(call))),
            _ => false,
        }
    }

    /// Whether a thread can be told that at a variable.
    fn var_hears(&self, thread: usize, variable: usize, seen: Outside) -> bool
        ensures { result ≡ var_hears (var_at self.now variable) thread seen }
    {
        match self.vars.get(variable) {
            Some(Some(machine)) => machine.can_be_told(thread, seen),
            _ => false,
        }
    }

    /// Whether a thread is in no call.
    pub(crate) fn is_free(&self, thread: usize) -> bool
        requires low { thread < length self.now.seats }
        ensures { result ≡ is_free self.now thread }
    {
        self.seat(thread).at.is_none() && self.is_idle(thread)
    }

    /// Whether a thread may begin a call at a lock: it is in none, the lock is no variable, and what it owns there
    /// allows it.
    pub fn may_ask(&self, thread: usize, lock: usize, call: LockCall) -> bool
        ensures { result ≡ may_ask self.now thread lock call }
    {
        thread < self.threads()
            && self.is_free(thread)
            && !self.is_variable(lock)
            && self
                .rows
                .may_begin(self.asking_number(thread, lock), lock, call)
    }

    /// Whether a lock is a mutex that the thread owns.
    fn has_mutex(&self, thread: usize, lock: usize) -> bool
        requires low { thread < length self.now.seats }
        ensures { result ≡ has_mutex self.now thread lock }
    {
        self.rows.kind(lock) == Some(LockKind::Mutex)
            && !self.is_variable(lock)
            && self
                .rows
                .may_begin(self.asking_number(thread, lock), lock, LockCall::Unlock)
    }

    /// Whether a variable takes that call.
    fn may_call(&self, thread: usize, variable: usize, call: CondvarCall) -> bool
        ensures { result ≡ may_call (var_at self.now variable) thread call }
    {
        match self.vars.get(variable) {
            Some(Some(machine)) => machine.may_begin(thread, call),
            _ => false,
        }
    }

    /// Whether a thread may begin a call at a condition variable: it is in none, and a wait is with a mutex that it
    /// owns.
    pub fn may_call_at(&self, thread: usize, variable: usize, call: CondvarCall) -> bool
        ensures { result ≡ may_call_at self.now thread variable call }
    {
        thread < self.threads()
            && self.is_free(thread)
            && self.may_call(thread, variable, call)
            && (!is_wait(call) || self.has_mutex(thread, mutex_of(call)))
    }

    /// The number of the mutex that a variable shows; 0 where it shows none.
    pub(crate) fn lock_of(&self, variable: usize) -> usize
        ensures { result ≡ lock_of (var_at self.now variable) }
    {
        match self.vars.get(variable) {
            Some(Some(machine)) => machine.word().saturating_sub(1) as usize,
            _ => 0,
        }
    }

    /// Who waits at a variable, in the order in which they came.
    pub fn waiters(&self, variable: usize) -> &[usize]
        ensures { result.now ≡ waiters_of (var_at self.now variable) }
    {
        match self.vars.get(variable) {
            Some(Some(machine)) => machine.queue(),
            _ => &[],
        }
    }

    /// Whether a thread in that call at a variable may make its step.
    fn may_turn(&self, thread: usize, variable: usize, call: &OpenCall) -> bool
        requires low { thread < length self.now.seats }
        ensures { result ≡ may_go_as (Some call.now) self.now thread variable }
    {
        match turn_of(call) {
            Turn::Sleeps => false,
            Turn::Acts | Turn::GivesUp | Turn::LocksAgain => self.var_goes(thread, variable, call),
            Turn::Unlocks => self.row_goes(self.front_number(thread)),
            Turn::Follows | Turn::Locks => self.row_goes(self.back_number(thread)),
            Turn::ComesBack | Turn::Hears | Turn::Moves => true,
        }
    }

    /// Whether a thread may make a step of its call: it doesn't sleep, and isn't before a section that one which is
    /// open keeps out.
    pub fn may_go(&self, thread: usize) -> bool
        ensures { result ≡ may_go self.now thread }
    {
        if thread >= self.threads() {
            return false;
        }
        match self.seat(thread).at {
            None => self.row_goes(self.busy_number(thread)),
            Some(variable) => match self.call_at(variable, thread) {
                Some(call) => self.may_turn(thread, variable, &call),
                None => false,
            },
        }
    }

    /// Whether a thread in that call sleeps: in the variable's list, or at the mutex that it was moved to, in its list
    /// or taken and not woken yet.
    fn sleeps_on(&self, thread: usize, call: &OpenCall) -> bool
        requires low { thread < length self.now.seats }
        ensures { result ≡ sleeps_on call.now self.now thread }
    {
        call.listed || self.rows.may_expire(self.back_number(thread))
    }

    /// Whether a thread's deadline may come: it sleeps in a timed call, in a list or at a lock taken off it and not
    /// woken yet, and it hasn't come before.
    pub fn may_expire(&self, thread: usize) -> bool
        ensures { result ≡ may_expire self.now thread }
    {
        if thread >= self.threads() {
            return false;
        }
        match self.seat(thread).at {
            None => self.rows.may_expire(self.busy_number(thread)),
            Some(variable) => match self.call_at(variable, thread) {
                Some(call) => self.sleeps_on(thread, &call)
                    && self.var_hears(thread, variable, Outside::Expired),
                None => false,
            },
        }
    }
}
