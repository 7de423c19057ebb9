//! The parts of which steps consist.
ghost use Rattle.std.specs.Prelude.{◌≡◌, ◌<◌, length, slice_set, Some, true};
ghost use Rattle.parking_lot_machine_calls.specs.declared.calls.LockCall.TheVariants as call;
ghost use Rattle.parking_lot_machine.specs.Machines as rows;
ghost use Rattle.parking_lot_machine.specs.Rows.{state};
ghost use Rattle.parking_lot_machine.specs.Rows as row;
ghost use Rattle.parking_lot_machine_sides.specs.declared.condvar.outside.Outside.TheVariants.{Made};
ghost use Rattle.parking_lot_machine_waits.specs.Joint.{row_goes, var_acts, var_at, var_hears};
ghost use Rattle.parking_lot_machine_waits.specs.JointMoves.{may_call};
ghost use Rattle.parking_lot_machine_waits.specs.JointSteps.{ActsAt, ActsIn, BeginsIn, HearsAt, HearsIn, HearsOf};
ghost use Rattle.parking_lot_machine_waits.specs.JointSteps.{KnownIn};

use crate::machines::Machines;
use parking_lot_machine_sides::condvar::{CondvarCall, CondvarMachine, CondvarReply, Outside};
use parking_lot_protocol::CoreAnswer;
use std::alloc::Allocator;

/// A thread makes an act at the variable, which is there.
fn act_in<A: Allocator>(
    place: &mut Option<CondvarMachine<A>>,
    thread: usize,
) -> Option<CondvarReply>
    requires can { var_acts place.old thread ≡ true }
    ensures acts { ActsIn thread result place.old place.new }
    ensures known { KnownIn place.new }
{
    match place {
        Some(machine) => {
            let reply = machine.step(thread);
            machine.known();
            reply
        }
        None => None,
    }
}

/// It is told there what was done elsewhere.
fn hear_in<A: Allocator>(place: &mut Option<CondvarMachine<A>>, thread: usize, seen: Outside)
    requires can { var_hears place.old thread seen ≡ true }
    ensures hears { HearsIn thread seen place.old place.new }
    ensures known { KnownIn place.new }
{
    match place {
        Some(machine) => {
            machine.tell(thread, seen);
            machine.known();
        }
        None => (),
    }
}

/// A call begins at the variable.
fn begin_in<A: Allocator>(place: &mut Option<CondvarMachine<A>>, thread: usize, call: CondvarCall)
    requires may { may_call place.old thread call ≡ true }
    ensures begins { BeginsIn thread call place.old place.new }
    ensures known { KnownIn place.new }
{
    match place {
        Some(machine) => {
            machine.begin(thread, call);
            machine.known();
        }
        None => (),
    }
}

impl<A: Allocator> Machines<A> {
    /// A call begins at a variable.
    pub(crate) fn begin_at(&mut self, thread: usize, variable: usize, call: CondvarCall)
        requires may { may_call (var_at self.old variable) thread call ≡ true }
        ensures begins { (y : _) × BeginsIn thread call (var_at self.old variable) y
            × (self.new.vars ≡ slice_set self.old.vars variable y) }
        ensures rows { self.new.rows ≡ self.old.rows }
        ensures seats { self.new.seats ≡ self.old.seats }
    {
        let _ = &self.seats;
        let Some(place) = self.vars.get_mut(variable) else {
            return;
        };
        begin_in(place, thread, call);
    }

    /// A thread makes an act at a variable.
    pub(crate) fn act(&mut self, thread: usize, variable: usize) -> Option<CondvarReply>
        requires can { var_acts (var_at self.old variable) thread ≡ true }
        ensures acts { ActsAt thread variable result self.old self.new }
        ensures rows { self.new.rows ≡ self.old.rows }
        ensures seats { self.new.seats ≡ self.old.seats }
    {
        let _ = &self.seats;
        let Some(place) = self.vars.get_mut(variable) else {
            return None;
        };
        act_in(place, thread)
    }

    /// A thread is told at a variable what was done elsewhere.
    pub(crate) fn hear(&mut self, thread: usize, variable: usize, seen: Outside)
        requires can { var_hears (var_at self.old variable) thread seen ≡ true }
        ensures hears { HearsAt thread variable seen self.old self.new }
        ensures rows { self.new.rows ≡ self.old.rows }
        ensures seats { self.new.seats ≡ self.old.seats }
    {
        let _ = &self.seats;
        let Some(place) = self.vars.get_mut(variable) else {
            return;
        };
        hear_in(place, thread, seen);
    }

    /// A number makes a step of its call at a mutex; where that is over the thread is told so at the variable.
    pub(crate) fn go_at_mutex(&mut self, thread: usize, variable: usize, number: usize, fair: bool)
        requires can { row_goes self.old number ≡ true }
        requires hears { var_hears (var_at self.old variable) thread Made ≡ true }
        ensures steps { (a : _) × rows.IsStepped number fair a (state self.old.rows) (state self.new.rows)
            × HearsOf a thread variable self.old self.new }
        ensures seats { self.new.seats ≡ self.old.seats }
    {
        let _ = &self.seats;
        if self.rows.step(number, fair).is_some() {
            self.hear(thread, variable, Outside::Made);
        }
    }
}
