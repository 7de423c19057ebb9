//! The steps.
ghost use Rattle.std.specs.Prelude.{◌≡◌, ◌<◌, length, slice_set, None, Some, true};
ghost use Rattle.parking_lot_machine_sides.specs.declared.condvar.outside.Outside.TheVariants.{Made};
ghost use Rattle.parking_lot_machine_calls.specs.declared.calls.LockCall.TheVariants as lock_call;
ghost use Rattle.parking_lot_machine.specs.Machines as rows;
ghost use Rattle.parking_lot_machine.specs.Rows.{state};
ghost use Rattle.parking_lot_machine.specs.Rows as row;
ghost use Rattle.parking_lot_machine_waits.specs.declared.turn.Turn.TheVariants as turn;
ghost use Rattle.parking_lot_machine_waits.specs.Joint.{back_number, call_at, nowhere, row_goes, var_acts, var_at};
ghost use Rattle.parking_lot_machine_waits.specs.Joint.{var_hears};
ghost use Rattle.parking_lot_machine_waits.specs.JointMoves.{may_ask, may_call_at, may_expire, may_go, may_go_as};
ghost use Rattle.parking_lot_machine_waits.specs.JointMoves.{may_turn};
ghost use Rattle.parking_lot_machine_waits.specs.JointSteps.{ActsAt, ComesBackIf, GoesAtVariable, HearsAt, IsAsked};
ghost use Rattle.parking_lot_machine_waits.specs.JointSteps.{IsCalled, IsFollowing, IsGone, IsLate, Turned};
ghost use Rattle.parking_lot_machine_waits.specs.Ready.{call_is_ready, is_ready, is_there, turn_is_ready};
ghost use Rattle.parking_lot_machine_waits.specs.Turns.{is_at_mutex, retried, turn_of, wakes_with};

use crate::ended::Ended;
use crate::machines::Machines;
use crate::seat::{NOWHERE, Seat};
use crate::turn::{Turn, is_late, is_wait, mutex_of, turn_of, wakes_with};
use parking_lot_machine::{Call as RowCall, LockCall};
use parking_lot_machine_sides::condvar::{CondvarCall, CondvarReply, Core, OpenCall, Outside};
use parking_lot_protocol::{CoreAnswer, HAND_OVER, TRY_AGAIN};
use std::alloc::Allocator;

impl<A: Allocator> Machines<A> {
    /// A thread begins a call at a lock.
    pub fn ask(&mut self, thread: usize, lock: usize, call: LockCall)
        requires may { may_ask self.old thread lock call ≡ true }
        ensures { IsAsked thread lock call self.old self.new }
    {
        let _ = &self.seats;
        let number = self.asking_number(thread, lock);
        self.rows.begin(number, lock, call);
    }

    /// A thread begins a call at a condition variable.
    pub fn call(&mut self, thread: usize, variable: usize, call: CondvarCall)
        requires may { may_call_at self.old thread variable call ≡ true }
        ensures { IsCalled thread variable call self.old self.new }
    {
        let _ = &self.rows;
        let second = is_wait(call) && !self.has_by_second(thread, mutex_of(call));
        self.begin_at(thread, variable, call);
        self.seats[thread] = Seat {
            at: Some(variable),
            second,
        };
    }

    /// A thread's deadline comes as it sleeps in a timed call. From then on it can move, and takes itself off its list,
    /// unless it was taken: at a lock it finds that out then, and goes on as its taker told it, and off a variable's
    /// list it goes on at the mutex.
    pub fn deadline(&mut self, thread: usize)
        requires may { may_expire self.old thread ≡ true }
        ensures { IsLate thread self.old self.new }
    {
        let _ = &self.rows;
        match self.seat(thread).at {
            None => {
                let number = self.busy_number(thread);
                self.rows.deadline(number);
            }
            Some(variable) => self.hear(thread, variable, Outside::Expired),
        }
    }

    /// A waiter that was taken off the list makes a step at its mutex. The first that it makes awake is told at the
    /// variable; where its call there is over it owns the mutex, or it has taken itself off the mutex's list and asks
    /// for it again.
    fn follow(
        &mut self,
        thread: usize,
        variable: usize,
        number: usize,
        fair: bool,
        at: RowCall,
        call: OpenCall,
    )
        requires here { call_at self.old variable thread ≡ Some call }
        requires turn { turn_of call ≡ turn.Follows }
        requires can { row_goes self.old number ≡ true }
        requires there { row.call_at (state self.old.rows) number ≡ Some at }
        requires mutex { is_at_mutex at.core ≡ true }
        ensures follows { IsFollowing thread variable number fair call self.old self.new }
        ensures seats { self.new.seats ≡ self.old.seats }
    {
        let _ = &self.seats;
        self.rows.known();
        match self.rows.step(number, fair) {
            None if is_late(at.core) => (),
            None => self.hear(thread, variable, wakes_with(call.core, TRY_AGAIN)),
            Some(CoreAnswer::Owned) => self.hear(
                thread,
                variable,
                wakes_with(call.core, HAND_OVER),
            ),
            Some(CoreAnswer::Refused) => self.ask_again(
                thread, variable, number, at.lock, call.core,
            ),
            Some(CoreAnswer::Released) => self.ask_again(
                thread, variable, number, at.lock, call.core,
            ),
        }
    }

    /// A number asks again for its mutex, as one that is awake.
    fn ask_again(&mut self, thread: usize, variable: usize, number: usize, lock: usize, core: Core)
        requires may { rows.may_begin (state self.old.rows) number lock lock_call.Lock ≡ true }
        requires hears { var_hears (var_at self.old variable) thread (wakes_with core retried) ≡ true }
        ensures begins { rows.IsBegun number lock lock_call.Lock (state self.old.rows) (state self.new.rows) }
        ensures hears { HearsAt thread variable (wakes_with core retried) self.old self.new }
        ensures seats { self.new.seats ≡ self.old.seats }
    {
        let _ = &self.seats;
        self.rows.begin(number, lock, LockCall::Lock);
        self.hear(thread, variable, wakes_with(core, TRY_AGAIN));
    }

    /// One whose moment had passed before it was moved comes back into the mutex's list, where it sleeps there still.
    fn come_back(&mut self, thread: usize, variable: usize, number: usize)
        requires hears { var_hears (var_at self.old variable) thread Made ≡ true }
        ensures hears { HearsAt thread variable Made self.old self.new }
        ensures comes { ComesBackIf (rows.may_expire (state self.old.rows) number) number self.old self.new }
        ensures seats { self.new.seats ≡ self.old.seats }
    {
        let _ = &self.seats;
        if self.rows.may_expire(number) {
            self.rows.deadline(number);
        }
        self.hear(thread, variable, Outside::Made);
    }

    /// A thread leaves the variable's section, and begins a call at its mutex as that number.
    fn leave_for(
        &mut self,
        thread: usize,
        variable: usize,
        number: usize,
        lock: usize,
        call: LockCall,
    ) -> Option<CondvarReply>
        requires can { var_acts (var_at self.old variable) thread ≡ true }
        requires may { rows.may_begin (state self.old.rows) number lock call ≡ true }
        ensures acts { ActsAt thread variable result self.old self.new }
        ensures begins { rows.IsBegun number lock call (state self.old.rows) (state self.new.rows) }
        ensures seats { self.new.seats ≡ self.old.seats }
    {
        let _ = &self.seats;
        self.rows.begin(number, lock, call);
        self.act(thread, variable)
    }

    /// A waiter that was taken off the list makes its step.
    fn follow_on(&mut self, thread: usize, variable: usize, fair: bool, call: OpenCall)
        requires low { thread < length self.old.seats }
        requires here { call_at self.old variable thread ≡ Some call }
        requires turn { turn_of call ≡ turn.Follows }
        requires can { row_goes self.old (back_number self.old thread) ≡ true }
        requires there { is_there self.old (back_number self.old thread) ≡ true }
        ensures follows { IsFollowing thread variable (back_number self.old thread) fair call self.old self.new }
        ensures seats { self.new.seats ≡ self.old.seats }
    {
        let _ = &self.seats;
        let number = self.back_number(thread);
        let Some(at) = self.rows.call(number) else {
            return;
        };
        self.follow(thread, variable, number, fair, at, call);
    }

    /// A thread in that call at a variable takes its turn.
    fn turn(
        &mut self,
        thread: usize,
        variable: usize,
        fair: bool,
        call: OpenCall,
    ) -> Option<CondvarReply>
        requires low { thread < length self.old.seats }
        requires here { call_at self.old variable thread ≡ Some call }
        requires can { may_turn (turn_of call) self.old thread variable call ≡ true }
        requires ready { turn_is_ready (turn_of call) self.old thread variable call ≡ true }
        ensures turned { Turned (turn_of call) thread variable fair call result self.old self.new }
        ensures seats { self.new.seats ≡ self.old.seats }
    {
        let _ = &self.seats;
        let lock = mutex_of(call.call);
        let front = self.front_number(thread);
        let back = self.back_number(thread);
        match turn_of(&call) {
            Turn::Acts => self.act(thread, variable),
            Turn::GivesUp => self.leave_for(thread, variable, front, lock, LockCall::Unlock),
            Turn::LocksAgain => self.leave_for(thread, variable, back, lock, LockCall::Lock),
            Turn::Unlocks => {
                self.go_at_mutex(thread, variable, front, fair);
                None
            }
            Turn::Locks => {
                self.go_at_mutex(thread, variable, back, fair);
                None
            }
            Turn::Follows => {
                self.follow_on(thread, variable, fair, call);
                None
            }
            Turn::ComesBack => {
                self.come_back(thread, variable, back);
                None
            }
            Turn::Hears => {
                self.hear(thread, variable, Outside::Made);
                None
            }
            Turn::Moves => {
                self.move_at(thread, variable, call);
                None
            }
            Turn::Sleeps => None,
        }
    }

    /// A thread makes a step of its call at a variable.
    fn go_at(&mut self, thread: usize, variable: usize, fair: bool) -> Option<CondvarReply>
        requires low { thread < length self.old.seats }
        requires can { may_go_as (call_at self.old variable thread) self.old thread variable ≡ true }
        requires ready { call_is_ready (call_at self.old variable thread) self.old thread variable ≡ true }
        ensures { GoesAtVariable thread variable fair result self.old self.new }
    {
        let _ = &self.rows;
        let call = self.call_at(variable, thread)?;
        let reply = self.turn(thread, variable, fair, call);
        if reply.is_some() {
            self.free(thread);
        }
        reply
    }

    /// A thread's call at a variable is over.
    fn free(&mut self, thread: usize)
        requires low { thread < length self.old.seats }
        ensures { self.new ≡ record self.old { seats = slice_set self.old.seats thread nowhere } }
    {
        let _ = &self.rows;
        self.seats[thread] = NOWHERE;
    }

    /// A thread makes a step. `fair` says whether it hands a lock over, where it stores in the section of an exclusive
    /// release. Answers how the call ended, where it did.
    pub fn step(&mut self, thread: usize, fair: bool) -> Option<Ended>
        requires can { may_go self.old thread ≡ true }
        requires ready { is_ready self.old thread ≡ true }
        ensures { IsGone thread fair result self.old self.new }
    {
        let _ = &self.rows;
        match self.seat(thread).at {
            None => {
                let number = self.busy_number(thread);
                self.rows.step(number, fair).map(Ended::AtLock)
            }
            Some(variable) => self.go_at(thread, variable, fair).map(Ended::AtVariable),
        }
    }
}
