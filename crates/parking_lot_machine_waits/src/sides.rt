//! What the machine is to another one beside it.
ghost use Rattle.std.specs.Prelude.{◌≡◌, ◌<◌, length, Some};
ghost use Rattle.parking_lot_machine_waits.specs.Joint.{seat_at};
ghost use Rattle.parking_lot_machine_waits.specs.JointSides.{call_owes, enters, enters_as, enters_beside, is_busy};
ghost use Rattle.parking_lot_machine_waits.specs.JointSides.{is_indebted, lock_call, notice_owes, owes_at};
ghost use Rattle.parking_lot_machine_sides.specs.Condvar.Turns.{wait_is_inside};

use crate::machines::Machines;
use crate::turn::{Turn, turn_of};
use parking_lot_machine::Call;
use parking_lot_machine_sides::condvar::{Core, OpenCall};
use parking_lot_protocol_waits::{NotifyPhase, WaitPhase};
use std::alloc::Allocator;

impl<A: Allocator> Machines<A> {
    /// Whether a thread is in a call.
    pub fn is_busy(&self, thread: usize) -> bool
        ensures { result ≡ is_busy self.now thread }
    {
        thread < self.threads() && !self.is_free(thread)
    }

    /// The bucket that the next step of a thread in that call at a variable enters.
    fn turn_enters(&self, thread: usize, variable: usize, call: &OpenCall) -> Option<usize>
        requires low { thread < length self.now.seats }
        ensures { result ≡ enters_as (Some call.now) self.now variable thread }
    {
        match turn_of(call) {
            Turn::Acts => self.enters_var(variable, call),
            Turn::Unlocks => self.enters_at_lock(self.front_number(thread)),
            Turn::Follows | Turn::Locks => self.enters_at_lock(self.back_number(thread)),
            Turn::Sleeps | Turn::GivesUp | Turn::LocksAgain => None,
            Turn::ComesBack | Turn::Moves | Turn::Hears => None,
        }
    }

    /// The bucket that a thread's next step enters, where it enters a section, of a lock or a variable.
    pub fn enters(&self, thread: usize) -> Option<usize>
        ensures { result ≡ enters self.now thread }
    {
        if thread >= self.threads() {
            return None;
        }
        match self.seat(thread).at {
            None => self.enters_at_lock(self.busy_number(thread)),
            Some(variable) => match self.call_at(variable, thread) {
                Some(call) => self.turn_enters(thread, variable, &call),
                None => None,
            },
        }
    }

    /// The bucket of the mutex, which a notification enters with it.
    pub fn enters_beside(&self, thread: usize) -> Option<usize>
        ensures { result ≡ enters_beside self.now thread }
    {
        if thread >= self.threads() {
            return None;
        }
        match self.seat(thread).at {
            None => None,
            Some(variable) => match self.call_at(variable, thread) {
                Some(call) => match turn_of(&call) {
                    Turn::Acts => self.enters_mutex(&call),
                    _ => None,
                },
                None => None,
            },
        }
    }

    /// The call that a thread is in at a lock.
    pub fn lock_call(&self, thread: usize) -> Option<Call>
        ensures { result ≡ lock_call self.now thread }
    {
        if thread < self.threads() {
            self.rows.call(self.busy_number(thread))
        } else {
            None
        }
    }
}

/// Whether a wait that stands so is in the variable's section. One that was taken off the list enters none.
fn wait_is_inside(listed: bool, phase: WaitPhase) -> bool
    ensures { result ≡ wait_is_inside listed phase }
{
    match phase {
        WaitPhase::Checks(_) | WaitPhase::Retreats | WaitPhase::Appends(_) => true,
        WaitPhase::Shows(_) | WaitPhase::Rests(_) | WaitPhase::Forgets => true,
        WaitPhase::Quits(_) => listed,
        WaitPhase::Leaves(here) => here,
        _ => false,
    }
}

/// Whether a notification has seen that somebody waits, and isn't over with it.
fn notice_owes(phase: NotifyPhase) -> bool
    ensures { result ≡ notice_owes phase }
{
    match phase {
        NotifyPhase::Enters(_, _) | NotifyPhase::Checks(_, _) | NotifyPhase::Marks(_) => true,
        NotifyPhase::Moves(_, _) | NotifyPhase::MarksRest(_) | NotifyPhase::Forgets(_) => true,
        NotifyPhase::Leaves(_) | NotifyPhase::Wakes(_) => true,
        _ => false,
    }
}

/// Whether a thread in that call at a variable stands in its section, or has seen that somebody waits there, or is to
/// wake whom it has taken.
fn call_owes(call: &OpenCall) -> bool
    ensures { result ≡ call_owes call.now.listed call.now.core }
{
    match call.core {
        Core::Wait(core) => wait_is_inside(call.listed, core.phase()),
        Core::Notify(core) => notice_owes(core.phase()),
    }
}

impl<A: Allocator> Machines<A> {
    /// Whether a thread owes at the variable that it is in a call at.
    fn owes_at(&self, thread: usize) -> bool
        ensures { result ≡ owes_at (seat_at self.now thread).at self.now thread }
    {
        match self.seat(thread).at {
            None => false,
            Some(variable) => match self.call_at(variable, thread) {
                Some(call) => call_owes(&call),
                None => false,
            },
        }
    }

    /// Whether a thread owes a section or a wake, or is about to retry: by one of its numbers at the locks, or at a
    /// variable.
    pub fn is_in_debt(&self, thread: usize) -> bool
        ensures { result ≡ is_indebted self.now thread }
    {
        thread < self.threads()
            && (self.owes_at(thread)
                || self.rows.is_in_debt(thread)
                || self.rows.is_in_debt(self.number(thread, true)))
    }
}
