//! The buckets of keys in which sections are open, of locks and of condition variables.
ghost use Rattle.std.specs.Prelude.{◌≡◌, ◌<◌, ◌%◌};
ghost use Rattle.std.specs.Option.{option_map};
ghost use Rattle.parking_lot_machine_calls.specs.CallActs.{key_of};
ghost use Rattle.parking_lot_machine.specs.Rows.{state};
ghost use Rattle.parking_lot_machine_waits.specs.Joint.{act_bucket, bucket_in, buckets, call_enters, enters_at_lock};
ghost use Rattle.parking_lot_machine_waits.specs.Joint.{enters_mutex, enters_var, is_kept, is_open_in, is_shut};
ghost use Rattle.parking_lot_machine_waits.specs.Joint.{is_that};
ghost use Rattle.parking_lot_machine_waits.specs.Joint.{keeps, keeps_at, keeps_out, late_bucket, shuts_out};

use crate::machines::Machines;
use parking_lot_machine::{Call, Core, LatePhase, LateRwPhase};
use parking_lot_machine_sides::buckets::first_bucket;
use parking_lot_machine_sides::condvar::{CondvarMachine, OpenCall};
use parking_lot_protocol::Act;
use std::alloc::Allocator;

/// The bucket of one of the keys of a call's lock, of so many.
fn key_bucket(call: Call, which: u8, buckets: usize) -> usize
    requires some { 0 < buckets }
    ensures { result ≡ key_of call which % buckets }
{
    ((2 * (call.lock as u128) + (which as u128)) % (buckets as u128)) as usize
}

/// The bucket of the section that an act of a call enters.
fn act_bucket(call: Call, act: Act, buckets: usize) -> Option<usize>
    requires some { 0 < buckets }
    ensures { result ≡ act_bucket buckets call act }
{
    match act {
        Act::Enter(which) => Some(key_bucket(call, which, buckets)),
        _ => None,
    }
}

/// That into which a call comes back whose moment has passed.
fn late_bucket(call: Call, comes: bool, buckets: usize) -> Option<usize>
    requires some { 0 < buckets }
    ensures { result ≡ late_bucket buckets call comes }
{
    if comes {
        Some(key_bucket(call, call.core.late_list(), buckets))
    } else {
        None
    }
}

/// The bucket of the section that a call's next act at a lock enters.
fn call_enters(call: Call, buckets: usize) -> Option<usize>
    requires some { 0 < buckets }
    ensures { result ≡ call_enters buckets call }
{
    match call.core {
        Core::Mutex(core) => act_bucket(call, core.act(), buckets),
        Core::Rw(core) => act_bucket(call, core.act(), buckets),
        Core::Upgrade(core) => act_bucket(call, core.act(), buckets),
        Core::Late(phase) => match phase {
            LatePhase::Expires => late_bucket(call, true, buckets),
            LatePhase::Quits | LatePhase::Masks | LatePhase::Leaves | LatePhase::GivesUp => None,
            LatePhase::WasTaken(_, _) => None,
        },
        Core::LateRw(phase) => match phase {
            LateRwPhase::Expires(_) => late_bucket(call, true, buckets),
            _ => None,
        },
    }
}

/// The bucket of that mutex, if there is one.
fn bucket_of(mutex: Option<u64>, buckets: usize) -> Option<usize>
    requires some { 0 < buckets }
    ensures { result ≡ option_map (bucket_in buckets) mutex }
{
    match mutex {
        Some(mutex) => Some(first_bucket(mutex as usize, buckets)),
        None => None,
    }
}

/// Whether it is that one.
fn is_that(found: Option<usize>, bucket: usize) -> bool
    ensures { result ≡ is_that found bucket }
{
    match found {
        Some(found) => bucket == found,
        None => false,
    }
}

/// Whether who is in a variable's section keeps a bucket.
fn keeps<A: Allocator>(
    machine: &Option<CondvarMachine<A>>,
    variable: usize,
    buckets: usize,
    bucket: usize,
) -> bool
    requires some { 0 < buckets }
    ensures { result ≡ keeps buckets variable machine.now bucket }
{
    match machine {
        Some(machine) => machine.inside().is_some()
            && (bucket == first_bucket(variable, buckets)
                || is_that(bucket_of(machine.beside(), buckets), bucket)),
        None => false,
    }
}

impl<A: Allocator> Machines<A> {
    /// How many buckets of keys there are.
    pub fn buckets(&self) -> usize
        ensures count { result ≡ buckets self.now }
        ensures some { 0 < result }
    {
        self.rows.known();
        self.rows.lot().buckets()
    }

    /// Whether a section of a lock is open in a bucket.
    fn is_open_in(&self, bucket: usize) -> bool
        ensures { result ≡ is_open_in (state self.now.rows) bucket }
    {
        bucket < self.buckets() && self.rows.lot().is_entered(bucket)
    }

    /// Whether a section of a variable keeps a bucket.
    fn keeps(&self, variable: usize, bucket: usize) -> bool
        ensures { result ≡ keeps_at self.now variable bucket }
    {
        match self.vars.get(variable) {
            Some(machine) => keeps(machine, variable, self.buckets(), bucket),
            None => false,
        }
    }

    /// Whether one of any variable does.
    fn is_kept(&self, bucket: usize) -> bool
        ensures { result ≡ is_kept self.now bucket }
    {
        for variable in 0..self.vars.len() {
            if self.keeps(variable, bucket) {
                return true;
            }
        }
        false
    }

    /// Whether a section is open in a bucket, of a lock or a variable.
    pub fn is_shut(&self, bucket: usize) -> bool
        ensures { result ≡ is_shut self.now bucket }
    {
        self.is_open_in(bucket) || self.is_kept(bucket)
    }

    /// Whether a section of a variable keeps out who enters that bucket.
    pub(crate) fn keeps_out(&self, bucket: Option<usize>) -> bool
        ensures { result ≡ keeps_out self.now bucket }
    {
        match bucket {
            Some(bucket) => self.is_kept(bucket),
            None => false,
        }
    }

    /// Whether any section does.
    pub(crate) fn shuts_out(&self, bucket: Option<usize>) -> bool
        ensures { result ≡ shuts_out self.now bucket }
    {
        match bucket {
            Some(bucket) => self.is_shut(bucket),
            None => false,
        }
    }

    /// The bucket that a number's next act at a lock enters.
    pub(crate) fn enters_at_lock(&self, number: usize) -> Option<usize>
        ensures { result ≡ enters_at_lock self.now number }
    {
        match self.rows.call(number) {
            Some(call) => call_enters(call, self.buckets()),
            None => None,
        }
    }

    /// That of the variable, where a call's next act there enters its section.
    pub(crate) fn enters_var(&self, variable: usize, call: &OpenCall) -> Option<usize>
        ensures { result ≡ enters_var (buckets self.now) variable call.now }
    {
        if call.enters() {
            Some(first_bucket(variable, self.buckets()))
        } else {
            None
        }
    }

    /// And that of the mutex, where it is a notification that enters.
    pub(crate) fn enters_mutex(&self, call: &OpenCall) -> Option<usize>
        ensures { result ≡ enters_mutex (buckets self.now) call.now }
    {
        bucket_of(call.enters_beside(), self.buckets())
    }
}
