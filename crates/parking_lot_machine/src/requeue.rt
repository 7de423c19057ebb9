//! Waiters of a condition variable are moved to a mutex.
ghost use Rattle.std.specs.Prelude.{◌≡◌, ◌%◌, ◌==◌, ◌||◌, true};
ghost use Rattle.std.specs.List.{list_any};
ghost use Rattle.parking_lot_core_model.specs.Machine.{machine};
ghost use Rattle.parking_lot_machine.specs.Requeues.{AllRequeuesAreRuns, IsRousedIn, IsTakenIn, MayJoin, MayTakeIn};
ghost use Rattle.parking_lot_machine.specs.Requeues.{MovesAreCases, MovesAreRuns, core_retries, lock_ask, lot_with};
ghost use Rattle.parking_lot_machine.specs.Requeues.{may_rouse_in, may_take_in, phase_retries, retries_at, retrying_call};
ghost use Rattle.parking_lot_machine.specs.Requeues.{sleeping_call};
ghost use Rattle.parking_lot_machine.specs.Rows.{state, word_at};

use crate::lot_calls;
use crate::row_machine::RowMachine;
use parking_lot_core_model::{DEFAULT_PARK_TOKEN, Lot};
use parking_lot_machine_calls::{Call, Core, LockCall, QueuePosition, sleeping_mutex};
use parking_lot_protocol::{MutexPhase, TRY_AGAIN};
use std::alloc::Allocator;

impl<A: Allocator> RowMachine<A> {
    /// Whether a thread may be [woken to ask](RowMachine::rouse_in) for a mutex: it may ask for it, and no section is
    /// open in the bucket of its list.
    pub fn may_rouse_in(&self, waiter: usize, lock: usize) -> bool
        ensures { result ≡ may_rouse_in (state self.now) waiter lock }
    {
        self.may_begin(waiter, lock, LockCall::Lock) && !self.lot.is_entered(2 * lock)
    }

    /// Whether a thread may be [taken into the list](RowMachine::take_in) of a mutex: the same, and the mutex is
    /// locked, or a thread there was woken and is about to try again.
    pub fn may_take_in(&self, waiter: usize, lock: usize) -> bool
        ensures is { result ≡ may_take_in (state self.now) waiter lock }
        ensures may { result ≡ true → MayTakeIn (state self.now) waiter lock }
    {
        let _ = &self.wakes;
        self.may_rouse_in(waiter, lock) && self.is_kept(lock)
    }

    /// Whether the mutex is locked, or a thread there is about to try again.
    fn is_kept(&self, lock: usize) -> bool
        ensures { result ≡ (word_at (state self.now) lock % 2 == 1
            || list_any (retries_at lock) (state self.now).calls) }
    {
        self.word(lock) % 2 == 1 || is_retried(&self.calls, lock)
    }

    /// A thread in no call, which owns nothing of the mutex, is moved into its list by another, and sleeps there as if
    /// it had asked for the mutex; the parked bit is set. `timed` says whether its moment may pass there.
    pub fn take_in(&mut self, waiter: usize, lock: usize, timed: bool)
        requires may { MayTakeIn (state self.old) waiter lock }
        ensures { IsTakenIn waiter lock timed (state self.old) (state self.new) }
    {
        let _ = &self.wakes;
        let word = self.word(lock);
        join(&mut self.lot, waiter, 2 * lock);
        self.words[lock] = word % 2 + 2;
        self.calls[waiter] = Some(sleeping(lock, timed));
    }

    /// A thread in no call, which owns nothing of the mutex, is woken by another to ask for it, as one that slept in
    /// its list. Those that are [taken in](RowMachine::take_in) afterwards stand behind it.
    pub fn rouse_in(&mut self, waiter: usize, lock: usize, timed: bool)
        requires may { may_rouse_in (state self.old) waiter lock ≡ true }
        ensures { IsRousedIn waiter lock timed (state self.old) (state self.new) }
    {
        let _ = &self.wakes;
        self.calls[waiter] = Some(retrying(lock, timed));
    }
}

/// Whether a thread was woken at a mutex, and is about to try again.
fn is_retried(calls: &[Option<Call>], lock: usize) -> bool
    ensures { result ≡ list_any (retries_at lock) calls.now }
{
    calls.iter().any(|call| retries_at(*call, lock))
}

fn retries_at(call: Option<Call>, lock: usize) -> bool
    ensures { result ≡ retries_at lock call }
{
    match call {
        Some(call) => call.lock == lock && core_retries(call.core),
        None => false,
    }
}

fn core_retries(core: Core) -> bool
    ensures { result ≡ core_retries core }
{
    match core {
        Core::Mutex(core) => phase_retries(core.phase()),
        Core::Rw(_) | Core::Late(_) | Core::Upgrade(_) | Core::LateRw(_) => false,
    }
}

fn phase_retries(phase: MutexPhase) -> bool
    ensures { result ≡ phase_retries phase }
{
    match phase {
        MutexPhase::Loads(asking) | MutexPhase::Locks(asking, _) => asking.woken,
        MutexPhase::Spins(asking) | MutexPhase::Parks(asking) => asking.woken,
        MutexPhase::Enters(woken) | MutexPhase::Checks(woken) | MutexPhase::Retreats(woken) =>
            woken,
        _ => false,
    }
}

/// A thread that runs joins a list, in a section of its own.
fn join<A: Allocator>(lot: &mut Lot<A>, thread: usize, key: usize)
    requires may { MayJoin (machine lot.old) thread key }
    ensures { machine lot.new ≡ lot_with (machine lot.old) thread key }
{
    lot_calls::enter(lot, thread, key);
    lot_calls::check(lot, thread, true);
    lot_calls::append(lot, thread, DEFAULT_PARK_TOKEN);
    lot_calls::leave(lot, thread);
}

/// What one asks for that is to have the mutex, by whether its moment may pass.
fn lock_ask(timed: bool) -> LockCall
    ensures { result ≡ lock_ask timed }
{
    if timed {
        LockCall::LockUntil
    } else {
        LockCall::Lock
    }
}

/// The call of one that sleeps in the list of a mutex.
fn sleeping(lock: usize, timed: bool) -> Call
    ensures { result ≡ sleeping_call lock timed }
{
    Call {
        lock,
        others: 0,
        core: Core::Mutex(sleeping_mutex()),
        spot: QueuePosition::Listed,
        asked: lock_ask(timed),
    }
}

/// The call of one that was woken from there to try again.
fn retrying(lock: usize, timed: bool) -> Call
    ensures { result ≡ retrying_call lock timed }
{
    sleeping(lock, timed).woken(TRY_AGAIN)
}

/// A waiter that is moved is a case of a mutex without a word, and leaves every other lock.
pub fn moves_are_cases()
    ensures { MovesAreCases }
{}

/// To move several waiters is one run of the rules, from the mutex as it was to the mutex as it is, by any thread in no
/// call that isn't one of them.
pub fn moves_are_runs()
    ensures { MovesAreRuns }
{}

/// To move waiters to a mutex, one after the other, is a run of the steps of the rules of the one that moves them: all
/// into the list, where it is locked; and else the first is woken, and the rest stand behind it.
pub fn requeues_are_runs()
    ensures { AllRequeuesAreRuns }
{}
