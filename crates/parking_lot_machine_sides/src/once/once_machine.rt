//! The machine of onces: words, lists and a call for each thread, moved one atomic step at a time.
ghost use Rattle.std.specs.Prelude.{◌≡◌, length, None, Some, true};
ghost use Rattle.parking_lot_protocol.specs.declared.act.Act.TheVariants as asks;
ghost use Rattle.parking_lot_protocol_waits.specs.Once.OnceTable.{act_of};
ghost use Rattle.parking_lot_core_model.specs.Buckets.{slot};
ghost use Rattle.parking_lot_machine_sides.specs.Once.Onces.{bucket_of, call_at, inside_at, word_at};
ghost use Rattle.parking_lot_machine_sides.specs.Once.OnceActs.{can_move, may_begin};
ghost use Rattle.parking_lot_machine_sides.specs.Once.OnceSteps.{IsBegun, IsStepped};

use crate::buckets::first_bucket;
use crate::once::calls::{OnceCall, OnceReply};
use crate::once::entry::Entry;
use crate::once::open_call::OpenCall;
use parking_lot_protocol::{Act, SectionAct};
use std::alloc::{Allocator, Global};
use std::marker::Model;

/// One-time initializations, and threads at them, each in one call at a time.
///
/// A thread [begins](OnceMachine::begin) a call at a once, and then makes one atomic [step](OnceMachine::step) after
/// another, in any order among the threads, until the call is answered. Each step is a step of the rules of the once,
/// or changes nothing there. All room is taken where the machine is made. The list of a once has twice its number as
/// its key, and at most one section is open in each bucket of keys.
#[derive(Drop)]
pub struct OnceMachine<A: Allocator = Global> {
    pub(crate) words: Vec<u64, A>,
    pub(crate) calls: Vec<Option<OpenCall>, A>,
    /// Who waits, by the number of the once.
    pub(crate) waiting: Vec<Entry, A>,
    /// Whom threads have taken and are still to wake, by the number of the one that is to wake them.
    pub(crate) wakes: Vec<Entry, A>,
    /// By bucket: who is in the section that is open there.
    pub(crate) inside: Vec<Option<usize>, A>,
}

impl<A: Allocator> Model for OnceMachine<A> {
    ghost use Rattle.std.specs.Prelude.{◌≤◌, length, vec_capacity};
    ghost use Rattle.parking_lot_machine_sides.specs.Once.Onces.{Onces};
    ghost use Rattle.parking_lot_machine_sides.specs.Once.OnceFits.{Fits};

    ghost Value = { Onces };

    ghost view = { λ m. record {
      words = m.words.items;
      calls = m.calls.items;
      waiting = m.waiting.items;
      wakes = m.wakes.items;
      inside = m.inside.items;
    } };

    ghost invariant = { λ m. Fits
        (record {
          words = m.words.items;
          calls = m.calls.items;
          waiting = m.waiting.items;
          wakes = m.wakes.items;
          inside = m.inside.items;
        }) × (length m.calls.items ≤ vec_capacity m.waiting)
        × (length m.calls.items ≤ vec_capacity m.wakes) };
}

impl<A: Allocator> OnceMachine<A> {
    /// How many threads there are.
    pub fn threads(&self) -> usize
        ensures { result ≡ length self.now.calls }
    {
        self.calls.len()
    }

    /// How many onces there are.
    pub fn onces(&self) -> usize
        ensures { result ≡ length self.now.words }
    {
        self.words.len()
    }

    /// The word of a once: 0 where it is new, 1 where it is done, 2 where it is poisoned, 4 while a closure runs, and 8
    /// more where callers may wait; 0 beyond the last.
    pub fn word(&self, once: usize) -> u64
        ensures { result ≡ word_at self.now once }
    {
        self.words.get(once).copied().unwrap_or(0)
    }

    /// The call that a thread is in.
    pub fn call(&self, thread: usize) -> Option<OpenCall>
        ensures { result ≡ call_at self.now thread }
    {
        self.calls.get(thread).copied().flatten()
    }

    /// Who has entered a bucket, if a section is open in it.
    pub fn entered(&self, bucket: usize) -> Option<usize>
        ensures { result ≡ slot self.now.inside bucket }
    {
        self.inside.get(bucket).copied().flatten()
    }

    /// The bucket of a once.
    pub fn bucket(&self, once: usize) -> usize
        ensures { result ≡ bucket_of self.now once }
    {
        first_bucket(once, self.inside.len())
    }

    /// Who has entered the bucket of a once.
    pub fn inside(&self, once: usize) -> Option<usize>
        ensures { result ≡ inside_at self.now once }
    {
        self.entered(self.bucket(once))
    }

    /// Whether a thread can make a step: it is in a call, doesn't sleep, and isn't before a section while one is open in
    /// its bucket.
    pub fn can_move(&self, thread: usize) -> bool
        ensures { result ≡ can_move self.now thread }
    {
        let Some(call) = self.call(thread) else {
            return false;
        };
        match call.core.act() {
            Act::Sleep => false,
            Act::Enter(_) => self.inside(call.once).is_none(),
            _ => true,
        }
    }

    /// Whether a thread may begin a call at a once: it is in no call, and the machine has both.
    pub fn may_begin(&self, thread: usize, once: usize) -> bool
        ensures { result ≡ may_begin self.now thread once }
    {
        thread < self.threads() && self.call(thread).is_none() && once < self.onces()
    }

    /// A thread begins a call at a once. It is the call's first step, and adds to the steps that are left 51 at most,
    /// and where the call has a closure 53 for each thread and 7 more.
    pub fn begin(&mut self, thread: usize, once: usize, call: OnceCall)
        requires may { may_begin self.old thread once ≡ true }
        ensures { IsBegun thread once call self.old self.new }
    {
        let _ = &self.words;
        self.calls[thread] = Some(OpenCall::begun(once, call));
    }

    /// A thread makes one step. Answers how the call ended, where it did. To run the call's own closure is one step.
    ///
    /// Each step lowers the steps that are left of all threads' calls, where the same thread is stepped on. So no
    /// thread can be stepped for ever: it sleeps, is shut out of a section or is answered.
    pub fn step(&mut self, thread: usize) -> Option<OnceReply>
        requires can { can_move self.old thread ≡ true }
        ensures { IsStepped thread result self.old self.new }
    {
        let _ = &self.words;
        let call = self.call(thread)?;
        match call.core.act() {
            Act::Section(next) => self.step_in_section(thread, call, next),
            Act::Done(_) => return self.end(thread, call),
            act => self.act(thread, call, act),
        }
        None
    }

    /// The same in a section, or after one.
    fn step_in_section(&mut self, thread: usize, call: OpenCall, next: SectionAct)
        requires here { call_at self.old thread ≡ Some call }
        requires asked { act_of call.core.phase ≡ asks.Section next }
        ensures { IsStepped thread None self.old self.new }
    {
        let _ = &self.words;
        match next {
            SectionAct::TakeNext(_) => self.take(thread, call),
            SectionAct::Append(_) => self.append(thread, call),
            SectionAct::Wake => self.wake(thread, call),
            next => self.act(thread, call, Act::Section(next)),
        }
    }
}
