//! What each act of a call does to the machine.
ghost use Rattle.std.specs.Prelude.{◌≡◌, ◌≢◌, ℕ, Some, None, slice_get};
ghost use Rattle.std.specs.Option.{option_and_then, option_map};
ghost use Rattle.parking_lot_protocol.specs.declared.act.Act.TheVariants as asks;
ghost use Rattle.parking_lot_protocol.specs.declared.act.CoreAnswer.{CoreAnswer};
ghost use Rattle.parking_lot_protocol.specs.declared.act.SectionAct.TheVariants as section;
ghost use Rattle.parking_lot_core_model.specs.declared.parking.ParkToken.{ParkToken};
ghost use Rattle.parking_lot_protocol_waits.specs.Once.OnceTable.{act_of};
ghost use Rattle.parking_lot_machine_sides.specs.Once.Onces.{call_at, call_in, inside_at};
ghost use Rattle.parking_lot_machine_sides.specs.Once.OnceActs.{acted, appended, ended, inside_after, off_list};
ghost use Rattle.parking_lot_machine_sides.specs.Once.OnceActs.{replied, shown, took, woke, woken, written};
ghost use Rattle.parking_lot_machine_sides.specs.Once.OnceSteps.{IsActOfItsOwn, IsEntry};

use crate::once::calls::OnceReply;
use crate::once::entry::{Entry, first_of};
use crate::once::once_machine::OnceMachine;
use crate::once::open_call::OpenCall;
use parking_lot_core_model::DEFAULT_PARK_TOKEN;
use parking_lot_protocol::{Act, ActResult, SectionAct};
use parking_lot_protocol_waits::once::OnceAnswer;
use std::alloc::Allocator;

/// What an act of a thread and its once alone gives at a word.
fn shown(act: Act, word: u64) -> ActResult
    ensures { result ≡ shown act word }
{
    match act {
        Act::Load | Act::Section(SectionAct::Check) => ActResult::Word(word),
        Act::Exchange(from, _) => {
            if word == from {
                ActResult::Exchanged
            } else {
                ActResult::Word(word)
            }
        }
        Act::Spin => ActResult::Spun(true),
        Act::Enter(_) => ActResult::Entered,
        Act::Section(SectionAct::Store { .. }) => ActResult::Stored { fair: false },
        _ => ActResult::Made,
    }
}

/// The word after it.
fn written(act: Act, word: u64) -> u64
    ensures { result ≡ written act word }
{
    match act {
        Act::Exchange(from, to) if word == from => to,
        Act::Section(SectionAct::Store { plain, .. }) => plain.of(word),
        _ => word,
    }
}

/// Who is in the section of its bucket after it.
fn inside_after(act: Act, thread: usize, inside: Option<usize>) -> Option<usize>
    ensures { result ≡ inside_after act thread inside }
{
    match act {
        Act::Enter(_) => Some(thread),
        Act::Section(SectionAct::Leave) => None,
        _ => inside,
    }
}

/// The call that a thread is in.
fn call_in(calls: &[Option<OpenCall>], thread: usize) -> Option<OpenCall>
    ensures { result ≡ call_in calls.now thread }
{
    calls.get(thread).copied().flatten()
}

/// The call of a sleeper once a thread has taken it off its list.
fn off_list(call: Option<OpenCall>, by: usize) -> Option<OpenCall>
    ensures { result ≡ option_map (off_list by) call }
{
    call.map(|call| call.off_list(by))
}

/// The call of a sleeper once it is woken.
fn woken(call: Option<OpenCall>) -> Option<OpenCall>
    ensures { result ≡ option_map woken call }
{
    call.map(|call| call.woken())
}

impl<A: Allocator> OnceMachine<A> {
    /// An act of the thread and its once alone.
    pub(crate) fn act(&mut self, thread: usize, call: OpenCall, act: Act)
        requires here { call_at self.old thread ≡ Some call }
        requires asked { act_of call.core.phase ≡ act }
        requires own { IsActOfItsOwn act }
        requires free { IsEntry act (inside_at self.old call.once ≡ None) }
        ensures { self.new ≡ acted self.old thread call }
    {
        let word = self.word(call.once);
        let bucket = self.bucket(call.once);
        let inside = inside_after(act, thread, self.entered(bucket));
        self.words[call.once] = written(act, word);
        self.calls[thread] = Some(call.told(shown(act, word)));
        self.inside[bucket] = inside;
    }

    /// It joins the list.
    pub(crate) fn append(&mut self, thread: usize, call: OpenCall)
        requires here { call_at self.old thread ≡ Some call }
        requires asked { (token : ParkToken) × (act_of call.core.phase ≡ asks.Section (section.Append token)) }
        ensures { self.new ≡ appended self.old thread call }
    {
        self.calls[thread] = Some(call.told(ActResult::Made));
        self.waiting.push_reserved(Entry {
            list: call.once,
            thread,
        });
    }

    /// It takes the first of the list, or finds nobody there.
    pub(crate) fn take(&mut self, thread: usize, call: OpenCall)
        requires here { call_at self.old thread ≡ Some call }
        requires asked { (sum : ℕ) × (act_of call.core.phase ≡ asks.Section (section.TakeNext sum)) }
        ensures { self.new ≡ took self.old thread call }
    {
        let Some(at) = first_of(&self.waiting, call.once) else {
            self.calls[thread] = Some(call.told(ActResult::Took {
                token: None,
                left: false,
            }));
            return;
        };
        let sleeper = self.waiting.remove(at).thread;
        let left = first_of(&self.waiting, call.once).is_some();
        self.calls[sleeper] = off_list(call_in(&self.calls, sleeper), thread);
        self.calls[thread] = Some(call.told(ActResult::Took {
            token: Some(DEFAULT_PARK_TOKEN),
            left,
        }));
        self.wakes.push_reserved(Entry {
            list: thread,
            thread: sleeper,
        });
    }

    /// It wakes the first of those whom it has taken.
    pub(crate) fn wake(&mut self, thread: usize, call: OpenCall)
        requires here { call_at self.old thread ≡ Some call }
        requires asked { act_of call.core.phase ≡ asks.Section section.Wake }
        ensures { self.new ≡ woke self.old thread call }
    {
        let Some(at) = first_of(&self.wakes, thread) else {
            return;
        };
        let sleeper = self.wakes.remove(at).thread;
        self.calls[sleeper] = woken(call_in(&self.calls, sleeper));
        self.calls[thread] = Some(call.told(ActResult::Made));
    }

    /// Its closure runs and returns, or the call is over.
    pub(crate) fn end(&mut self, thread: usize, call: OpenCall) -> Option<OnceReply>
        requires here { call_at self.old thread ≡ Some call }
        requires asked { (answer : CoreAnswer) × (act_of call.core.phase ≡ asks.Done answer) }
        ensures became { self.new ≡ ended self.old thread call }
        ensures replies { result ≡ replied call }
    {
        let _ = &self.words;
        match call.core.answer()? {
            OnceAnswer::Runs(before) => {
                self.calls[thread] = Some(call.ran(before));
                None
            }
            OnceAnswer::Completed => {
                self.calls[thread] = None;
                Some(OnceReply::Completed)
            }
            OnceAnswer::Poisoned => {
                self.calls[thread] = None;
                Some(OnceReply::Poisoned)
            }
            OnceAnswer::Finished => {
                self.calls[thread] = None;
                Some(call.call.ran_or_failed(call.before))
            }
        }
    }
}
