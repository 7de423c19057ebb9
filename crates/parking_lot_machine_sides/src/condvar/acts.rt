//! What acts do to the machine.
ghost use Rattle.std.specs.Prelude.{◌≡◌, ◌<◌, true, Some, length, slice_get, vec_capacity, IfSome};
ghost use Rattle.std.specs.Option.{option_map};
ghost use Rattle.parking_lot_machine_sides.specs.declared.condvar.open_call.Core.TheVariants as of;
ghost use Rattle.parking_lot_machine_sides.specs.Condvar.Calls.{off_list};
ghost use Rattle.parking_lot_machine_sides.specs.Condvar.Machines.{call_at, call_in, is_left, may_step, may_take};
ghost use Rattle.parking_lot_machine_sides.specs.Condvar.OwnSteps.{WhereItJoins, beside_after_notify};
ghost use Rattle.parking_lot_machine_sides.specs.Condvar.OwnSteps.{beside_after_wait, inside_after_notify};
ghost use Rattle.parking_lot_machine_sides.specs.Condvar.OwnSteps.{inside_after_wait, notify_sees, place_of};
ghost use Rattle.parking_lot_machine_sides.specs.Condvar.OwnSteps.{queue_after_wait, stepped, wait_sees, without};
ghost use Rattle.parking_lot_machine_sides.specs.Condvar.OwnSteps.{word_after_notify, word_after_wait};
ghost use Rattle.parking_lot_machine_sides.specs.Condvar.Steps.{taken_by};

use crate::condvar::condvar_machine::CondvarMachine;
use crate::condvar::open_call::OpenCall;
use parking_lot_protocol_waits::{
    NotifyCore, NotifyPhase, NotifySeen, WaitCore, WaitPhase, WaitSeen,
};
use std::alloc::Allocator;

/// What an act of a wait at the variable gives, at that word, and with somebody left in the list or nobody.
fn wait_sees(word: u64, left: bool, phase: WaitPhase) -> WaitSeen
    ensures { result ≡ wait_sees word left phase }
{
    match phase {
        WaitPhase::Checks(_) => WaitSeen::Word(word),
        WaitPhase::Quits(_) => WaitSeen::Quit {
            here: true,
            last: !left,
        },
        _ => WaitSeen::Made,
    }
}

/// What an act of a notification gives.
fn notify_sees(word: u64, phase: NotifyPhase) -> NotifySeen
    ensures { result ≡ notify_sees word phase }
{
    match phase {
        NotifyPhase::Loads(_) | NotifyPhase::Checks(_, _) => NotifySeen::Word(word),
        _ => NotifySeen::Made,
    }
}

/// The word after an act of a wait.
fn word_after_wait(phase: WaitPhase, word: u64) -> u64
    ensures { result ≡ word_after_wait phase word }
{
    match phase {
        WaitPhase::Shows(mutex) => mutex.wrapping_add(1),
        WaitPhase::Forgets => 0,
        _ => word,
    }
}

/// The word after an act of a notification.
fn word_after_notify(phase: NotifyPhase, word: u64) -> u64
    ensures { result ≡ word_after_notify phase word }
{
    match phase {
        NotifyPhase::Forgets(_) => 0,
        _ => word,
    }
}

/// Who is in the section after an act of a wait.
fn inside_after_wait(thread: usize, phase: WaitPhase, inside: Option<usize>) -> Option<usize>
    ensures { result ≡ inside_after_wait thread phase inside }
{
    match phase {
        WaitPhase::Enters(_) | WaitPhase::Expires(_) => Some(thread),
        WaitPhase::Retreats | WaitPhase::Rests(_) | WaitPhase::Leaves(_) => None,
        _ => inside,
    }
}

/// Who is in the section after an act of a notification.
fn inside_after_notify(thread: usize, phase: NotifyPhase, inside: Option<usize>) -> Option<usize>
    ensures { result ≡ inside_after_notify thread phase inside }
{
    match phase {
        NotifyPhase::Enters(_, _) => Some(thread),
        NotifyPhase::Leaves(_) => None,
        _ => inside,
    }
}

/// The mutex whose bucket is entered too after an act of a wait, which enters its own alone.
fn beside_after_wait(phase: WaitPhase, beside: Option<u64>) -> Option<u64>
    ensures { result ≡ beside_after_wait phase beside }
{
    match phase {
        WaitPhase::Enters(_) | WaitPhase::Expires(_) => None,
        _ => beside,
    }
}

/// The mutex whose bucket is entered too after an act of a notification.
fn beside_after_notify(phase: NotifyPhase, beside: Option<u64>) -> Option<u64>
    ensures { result ≡ beside_after_notify phase beside }
{
    match phase {
        NotifyPhase::Enters(_, word) => Some(word.saturating_sub(1)),
        _ => beside,
    }
}

/// Where a thread stands in a list.
fn place_of(queue: &[usize], thread: usize) -> Option<usize>
    ensures { result ≡ place_of thread queue.now }
{
    queue.iter().position(|other| *other == thread)
}

/// A thread goes from a list, if it stands there.
fn take_out<A: Allocator>(queue: &mut Vec<usize, A>, thread: usize)
    ensures items { queue.new.items ≡ without (place_of thread queue.old.items) queue.old.items }
    ensures room { vec_capacity queue.new ≡ vec_capacity queue.old }
{
    if let Some(at) = place_of(queue, thread) {
        queue.remove(at);
    }
}

/// What an act of a wait does to the list.
fn move_in_list<A: Allocator>(queue: &mut Vec<usize, A>, thread: usize, phase: WaitPhase)
    requires room { WhereItJoins phase (length queue.old.items < vec_capacity queue.old) }
    ensures items { queue.new.items ≡ queue_after_wait thread phase queue.old.items }
    ensures room { vec_capacity queue.new ≡ vec_capacity queue.old }
{
    match phase {
        WaitPhase::Appends(_) => queue.push_reserved(thread),
        WaitPhase::Quits(_) => take_out(queue, thread),
        _ => (),
    }
}

/// The call that a thread is in.
fn call_in(calls: &[Option<OpenCall>], thread: usize) -> Option<OpenCall>
    ensures { result ≡ call_in calls.now thread }
{
    calls.get(thread).copied().flatten()
}

/// The call of a waiter once it is taken off the list.
fn off_list(call: Option<OpenCall>) -> Option<OpenCall>
    ensures { result ≡ option_map off_list call }
{
    call.map(|call| call.off_list())
}

impl<A: Allocator> CondvarMachine<A> {
    /// An act of a wait at the variable.
    pub(crate) fn step_wait(&mut self, thread: usize, call: OpenCall, core: WaitCore)
        requires here { call_at self.old thread ≡ Some call }
        requires its { call.core ≡ of.Wait core }
        requires may { may_step self.old.inside call ≡ true }
        ensures { self.new ≡ stepped self.old thread call }
    {
        let phase = core.phase();
        move_in_list(&mut self.queue, thread, phase);
        let seen = wait_sees(self.word, self.queue.len() > 0, phase);
        self.word = word_after_wait(phase, self.word);
        self.inside = inside_after_wait(thread, phase, self.inside);
        self.beside = beside_after_wait(phase, self.beside);
        self.calls[thread] = call.goes_on_waiting(core, seen);
    }

    /// An act of a notification at the variable.
    pub(crate) fn step_notify(&mut self, thread: usize, call: OpenCall, core: NotifyCore)
        requires here { call_at self.old thread ≡ Some call }
        requires its { call.core ≡ of.Notify core }
        requires may { may_step self.old.inside call ≡ true }
        ensures { self.new ≡ stepped self.old thread call }
    {
        let phase = core.phase();
        let seen = notify_sees(self.word, phase);
        self.word = word_after_notify(phase, self.word);
        self.inside = inside_after_notify(thread, phase, self.inside);
        self.beside = beside_after_notify(phase, self.beside);
        self.calls[thread] = call.goes_on_notifying(core, seen);
    }

    /// It takes the first off the list.
    pub(crate) fn take(&mut self, thread: usize, call: OpenCall) -> Option<usize>
        requires here { call_at self.old thread ≡ Some call }
        requires may { may_take self.old.queue call ≡ true }
        ensures first { result ≡ slice_get self.old.queue 0 }
        ensures became { IfSome result (λ waiter. self.new ≡ taken_by self.old thread call waiter) }
    {
        let _ = &self.word;
        if self.queue.is_empty() {
            return None;
        }
        let waiter = self.queue.remove(0);
        self.calls[waiter] = off_list(call_in(&self.calls, waiter));
        self.calls[thread] = Some(call.took_one());
        Some(waiter)
    }
}
