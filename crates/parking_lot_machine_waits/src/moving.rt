//! How a notification takes waiters off the list, and wakes them or moves them to their mutex.
ghost use Rattle.std.specs.Prelude.{◌≡◌, ◌<◌, length, slice_set, Some, true};
ghost use Rattle.parking_lot_machine.specs.Rows.{state};
ghost use Rattle.parking_lot_machine_waits.specs.Joint.{call_at, lock_of, var_at};
ghost use Rattle.parking_lot_machine_waits.specs.JointSteps.{IsMoving, KnownIn, MayMoveIn, MovesIn, is_locked};
ghost use Rattle.parking_lot_machine_waits.specs.JointSteps.{takes_now};
ghost use Rattle.parking_lot_machine_waits.specs.declared.turn.Turn.TheVariants as turn;
ghost use Rattle.parking_lot_machine_waits.specs.Ready.{may_move_all};
ghost use Rattle.parking_lot_machine_waits.specs.Turns.{turn_of};
ghost use Rattle.parking_lot_machine_waits.specs.Moving.{AreMoved, AreMovedAs, AreTaken, MayMove, MayMoveAs};
ghost use Rattle.parking_lot_machine_waits.specs.Moving.{MayNotifyIn, MayTake, NotifiesIn, back_in, moved_of, taken_of};
ghost use Rattle.parking_lot_machine_waits.specs.Moving.{timed_in};

use crate::machines::Machines;
use crate::seat::{NOWHERE, Seat};
use parking_lot_machine::RowMachine;
use parking_lot_machine_sides::condvar::{CondvarCall, CondvarMachine, OpenCall, Outside};
use std::alloc::Allocator;

/// How many a notification takes of so many that wait: all, or the first.
pub(crate) fn taken_of(call: CondvarCall, waiting: usize) -> usize
    ensures { result ≡ taken_of call waiting }
{
    match call {
        CondvarCall::NotifyAll => waiting,
        CondvarCall::NotifyOne if waiting > 0 => 1,
        CondvarCall::NotifyOne => 0,
        CondvarCall::Wait(_) | CondvarCall::WaitUntil(_) => 0,
    }
}

/// What a notification tells that has taken so many: of a mutex that isn't locked it wakes the first, and it moves the
/// others.
fn moved_of(locked: bool, taken: usize) -> Outside
    ensures { result ≡ moved_of locked taken }
{
    let unparked = if locked || taken == 0 { 0 } else { 1 };
    Outside::Moved {
        unparked,
        requeued: taken.saturating_sub(unparked),
    }
}

/// So many are taken off the list, one after another.
fn take_all<A: Allocator>(machine: &mut CondvarMachine<A>, thread: usize, count: usize)
    requires may { MayTake thread count machine.old }
    ensures { AreTaken thread count machine.old machine.new }
{
    for _ in 0..count {
        let _ = machine.take_first(thread);
    }
}

/// A notification looks whether the mutex is locked, and takes so many.
pub(crate) fn notify_in<A: Allocator>(
    place: &mut Option<CondvarMachine<A>>,
    thread: usize,
    locked: bool,
    count: usize,
)
    requires may { MayNotifyIn thread locked count place.old }
    ensures notifies { NotifiesIn thread locked count place.old place.new }
    ensures known { KnownIn place.new }
{
    match place {
        Some(machine) => {
            machine.tell(thread, Outside::Marked(locked));
            take_all(machine, thread, count);
            machine.tell(thread, moved_of(locked, count));
            machine.known();
        }
        None => (),
    }
}

/// The number that a waiter sleeps with.
fn back_in(seats: &[Seat], thread: usize) -> usize
    requires low { thread < length seats.now }
    ensures { result ≡ back_in seats.now thread }
{
    let seat = seats.get(thread).copied().unwrap_or(NOWHERE);
    if seat.second {
        seats.len() + thread
    } else {
        thread
    }
}

/// Whether a waiter's deadline may come.
fn timed_in<A: Allocator>(machine: &CondvarMachine<A>, thread: usize) -> bool
    ensures { result ≡ timed_in machine.now thread }
{
    match machine.call(thread) {
        Some(call) => call.call.is_timed(),
        None => false,
    }
}

/// One after the other is moved into the list of the mutex.
fn move_rest<A: Allocator>(
    rows: &mut RowMachine<A>,
    seats: &[Seat],
    machine: &CondvarMachine<A>,
    lock: usize,
    waiters: &[usize],
)
    requires may { MayMove seats.now machine.now lock waiters.now (state rows.old) }
    ensures { AreMoved seats.now machine.now lock waiters.now (state rows.old) (state rows.new) }
{
    for waiter in waiters {
        rows.take_in(back_in(seats, *waiter), lock, timed_in(machine, *waiter));
    }
}

/// Where the mutex is locked, all are moved; else the first is woken, and the others are moved behind it.
pub(crate) fn move_all<A: Allocator>(
    rows: &mut RowMachine<A>,
    seats: &[Seat],
    machine: &CondvarMachine<A>,
    lock: usize,
    locked: bool,
    waiters: &[usize],
)
    requires may { MayMoveAs locked seats.now machine.now lock waiters.now (state rows.old) }
    ensures { AreMovedAs locked seats.now machine.now lock waiters.now (state rows.old) (state rows.new) }
{
    if locked {
        move_rest(rows, seats, machine, lock, waiters);
    } else if let Some((first, rest)) = waiters.split_first() {
        rows.rouse_in(back_in(seats, *first), lock, false);
        move_rest(rows, seats, machine, lock, rest);
    }
}

impl<A: Allocator> Machines<A> {
    /// The mutex that a variable shows, and whether it is locked.
    fn shown(&self, variable: usize) -> (usize, bool)
        ensures lock { result.0 ≡ lock_of (var_at self.now variable) }
        ensures locked { result.1 ≡ is_locked self.now result.0 }
    {
        let lock = self.lock_of(variable);
        (lock, self.rows.word(lock) % 2 == 1)
    }

    /// The waiters that a notification takes are woken, or moved to the mutex. Answers how many there are.
    fn move_waiters(
        &mut self,
        variable: usize,
        call: CondvarCall,
        lock: usize,
        locked: bool,
    ) -> usize
        requires may { MayMoveIn (var_at self.old variable) locked self.old.seats lock
            (takes_now call (var_at self.old variable)) (state self.old.rows) }
        ensures moves { MovesIn (var_at self.old variable) locked self.old.seats lock
            (takes_now call (var_at self.old variable)) (state self.old.rows) (state self.new.rows) }
        ensures count { result ≡ length (takes_now call (var_at self.old variable)) }
        ensures vars { self.new.vars ≡ self.old.vars }
        ensures seats { self.new.seats ≡ self.old.seats }
    {
        let _ = &self.seats;
        let Some(Some(machine)) = self.vars.get(variable) else {
            return 0;
        };
        let waiting = machine.queue();
        let waiters = &waiting[..taken_of(call, waiting.len())];
        move_all(&mut self.rows, &self.seats, machine, lock, locked, waiters);
        waiters.len()
    }

    /// It takes them off the variable's list.
    fn notify_at(&mut self, thread: usize, variable: usize, locked: bool, count: usize)
        requires may { MayNotifyIn thread locked count (var_at self.old variable) }
        ensures notifies { (y : _) × NotifiesIn thread locked count (var_at self.old variable) y
            × (self.new.vars ≡ slice_set self.old.vars variable y) }
        ensures rows { self.new.rows ≡ self.old.rows }
        ensures seats { self.new.seats ≡ self.old.seats }
    {
        let _ = &self.seats;
        let Some(place) = self.vars.get_mut(variable) else {
            return;
        };
        notify_in(place, thread, locked, count);
    }

    /// A notification takes waiters off the variable's list, and wakes them or moves them to the mutex.
    pub(crate) fn move_at(&mut self, thread: usize, variable: usize, call: OpenCall)
        requires here { call_at self.old variable thread ≡ Some call }
        requires turn { turn_of call ≡ turn.Moves }
        requires can { may_move_all self.old (var_at self.old variable) ≡ true }
        ensures moves { IsMoving thread variable call self.old self.new }
        ensures seats { self.new.seats ≡ self.old.seats }
    {
        let _ = &self.seats;
        self.known();
        let (lock, locked) = self.shown(variable);
        let count = self.move_waiters(variable, call.call, lock, locked);
        self.notify_at(thread, variable, locked, count);
    }
}
