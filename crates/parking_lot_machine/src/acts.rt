//! What each act of a call does to the machine.
ghost use Rattle.std.specs.Prelude.{◌≡◌, ◌<◌, ◌≤◌, ℕ, ◌+◌, ◌*◌, ◌%◌, ◌^◌, [], length, map, slice_get, Some, None};
ghost use Rattle.std.specs.Prelude.{if◌then◌else◌, vec_capacity, vec_len};
ghost use Rattle.std.specs.Option.{option_map, option_and_then, option_map_or};
ghost use Rattle.std.specs.List.{position_or_len, position};
ghost use Rattle.parking_lot_protocol.specs.declared.act.ActResult.TheVariants as seen;
ghost use Rattle.parking_lot_machine_calls.specs.declared.seat.QueuePosition.TheVariants as spot;
ghost use Rattle.parking_lot_core_model.specs.declared.place.Taking.{Taking};
ghost use Rattle.parking_lot_core_model.specs.Machine.{machine};
ghost use Rattle.parking_lot_core_model.specs.Results.{is_left};
ghost use Rattle.parking_lot_protocol.specs.declared.act.Act.TheVariants as act;
ghost use Rattle.parking_lot_protocol.specs.declared.act.SectionAct.TheVariants as section;
ghost use Rattle.parking_lot_protocol.specs.declared.act.CoreAnswer.{CoreAnswer};
ghost use Rattle.parking_lot_protocol.specs.declared.act.WordChange.{WordChange};
ghost use Rattle.parking_lot_machine.specs.ActLaws.{MayBegin};
ghost use Rattle.parking_lot_machine.specs.Rows.{call_at, is_by, open_at, state, taken_by, word_at};
ghost use Rattle.parking_lot_machine_calls.specs.Stances.{In, Joins, Takes, core_act, stance};
ghost use Rattle.parking_lot_machine.specs.Machines.{IsTakenFrom, IsWoken, owes_to, takes_off_by};
ghost use Rattle.parking_lot_machine.specs.TellLaws.{IsDue};
ghost use Rattle.parking_lot_core_model.specs.declared.parking.UnparkToken.{UnparkToken};
ghost use Rattle.parking_lot_machine_calls.specs.declared.open_call.Call.{Call};
ghost use Rattle.parking_lot_machine_calls.specs.declared.seat.Wakeup.{Wakeup};
ghost use Rattle.parking_lot_machine.specs.RowActs.{added, answered, appended, begun, checked, entered, exchanged};
ghost use Rattle.parking_lot_machine.specs.RowActs.{left, loaded, masked, spun, told_all, took, took_nobody, woke};
ghost use Rattle.parking_lot_machine.specs.RowActs.{woke_nobody};
ghost use Rattle.parking_lot_machine_calls.specs.CallActs.{hears, key_of, off_list, settled};

use crate::lot_calls;
use crate::row_machine::RowMachine;
use parking_lot_core_model::{Lot, ParkToken, Taking, UnparkToken};
use parking_lot_machine_calls::{Call, WakeResult, Wakeup};
use parking_lot_protocol::{ActResult, TRY_AGAIN, WordChange};
use std::alloc::Allocator;

/// One that took sleepers tells all of them whom it hasn't told yet.
fn settle<A: Allocator>(calls: &mut Vec<Option<Call>, A>, by: usize, said: WakeResult)
    ensures { calls.new.items ≡ map (option_map (settled by said)) calls.old.items }
{
    settle_each(calls, by, said);
}

/// The same of a slice.
fn settle_each(calls: &mut [Option<Call>], by: usize, said: WakeResult)
    ensures { calls.new ≡ map (option_map (settled by said)) calls.old }
{
    for call in calls.iter_mut() {
        *call = settled(*call, by, said);
    }
}

/// The same of one thread.
fn settled(call: Option<Call>, by: usize, said: WakeResult) -> Option<Call>
    ensures { result ≡ option_map (settled by said) call }
{
    call.map(|call| call.settled(by, said))
}

/// Where the first stands whom one is to wake; behind the last, where there is none.
fn first_by(wakes: &[Wakeup], by: usize) -> usize
    ensures { result ≡ position_or_len (is_by by) wakes.now }
{
    place_by(wakes, by).unwrap_or(wakes.len())
}

/// The same; `None` where there is none.
fn place_by(wakes: &[Wakeup], by: usize) -> Option<usize>
    ensures { result ≡ position (is_by by) wakes.now }
{
    wakes.iter().position(|wakeup| wakeup.by == by)
}

/// The call that a thread is in.
fn call_in(calls: &[Option<Call>], thread: usize) -> Option<Call>
    ensures { result ≡ option_and_then (λ c. c) (slice_get calls.now thread) }
{
    calls.get(thread).copied().flatten()
}

/// The call of a sleeper once it is woken.
fn woken(call: Option<Call>, token: UnparkToken) -> Option<Call>
    ensures { result ≡ option_map {T = Call} (λ d. record (hears d (seen.Woken token)) { spot = spot.Listed }) call }
{
    call.map(|call| call.woken(token))
}

/// The call of a sleeper once a thread has taken it off its list.
fn off_list(call: Option<Call>, by: usize) -> Option<Call>
    ensures { result ≡ option_map (off_list by) call }
{
    call.map(|call| call.off_list(by))
}

/// Whoever was taken, if there was one, is off its list, and is to be woken.
fn note_taking<A: Allocator>(
    calls: &mut Vec<Option<Call>, A>,
    wakes: &mut Vec<Wakeup, A>,
    by: usize,
    taking: Option<Taking>,
)
    requires low { (x : Taking) → taking ≡ Some x → x.thread < vec_len calls.old }
    requires room { (x : Taking) → taking ≡ Some x → vec_len wakes.old < vec_capacity wakes.old }
    ensures calls { calls.new.items ≡ option_map_or (takes_off_by by calls.old.items) taking calls.old.items }
    ensures slots { vec_len calls.new ≡ vec_len calls.old }
    ensures wakes { wakes.new.items ≡ option_map_or (owes_to by wakes.old.items) taking wakes.old.items }
    ensures capacity { vec_capacity wakes.new ≡ vec_capacity wakes.old }
{
    if let Some(taking) = taking {
        let sleeper = call_in(calls, taking.thread);
        calls[taking.thread] = off_list(sleeper, by);
        wakes.push_reserved(Wakeup {
            by,
            thread: taking.thread,
            mark: taking.mark,
        });
    }
}

/// The call of one that has taken the first of its list, or nobody.
fn taker<A: Allocator>(lot: &Lot<A>, call: Call, taking: Option<Taking>) -> Call
    requires small { call.lock ≤ 2 ^ 62 }
    ensures { (k : ℕ) → stance call.core ≡ In k Takes
        → result ≡ hears call
        (seen.Took (option_map (λ x. x.token) taking) (is_left ((machine lot.now).queues (key_of call k)))) }
{
    let left = lot.has_waiters(call.key(call.core.list()));
    let token = taking.map(|taking| taking.token);
    call.told(ActResult::Took { token, left })
}

impl<A: Allocator> RowMachine<A> {
    /// It looks at the word.
    pub(crate) fn load(&mut self, thread: usize, call: Call)
        requires here { call_at (state self.old) thread ≡ Some call }
        requires asked { core_act call.core ≡ act.Load }
        ensures { state self.new ≡ loaded (state self.old) thread call }
    {
        let word = self.word(call.lock);
        self.calls[thread] = Some(call.told(ActResult::Word(word)));
    }

    /// It compares the word and exchanges it.
    pub(crate) fn exchange(&mut self, thread: usize, call: Call, from: u64, to: u64)
        requires here { call_at (state self.old) thread ≡ Some call }
        requires asked { core_act call.core ≡ act.Exchange from to }
        ensures { state self.new ≡ exchanged (state self.old) thread call from to }
    {
        let word = self.word(call.lock);
        if word == from {
            self.words[call.lock] = to;
            self.calls[thread] = Some(call.told(ActResult::Exchanged));
        } else {
            self.calls[thread] = Some(call.told(ActResult::Word(word)));
        }
    }

    /// It adds to the word.
    pub(crate) fn add(&mut self, thread: usize, call: Call, by: u64)
        requires here { call_at (state self.old) thread ≡ Some call }
        requires asked { core_act call.core ≡ act.Add by }
        ensures { state self.new ≡ added (state self.old) thread call by }
    {
        let word = self.word(call.lock);
        self.words[call.lock] = word.wrapping_add(by);
        self.calls[thread] = Some(call.told(ActResult::Before(word)));
    }

    /// It clears bits of the word, in a section of the second list.
    pub(crate) fn mask(&mut self, thread: usize, call: Call, keep: u64)
        requires here { call_at (state self.old) thread ≡ Some call }
        requires asked { core_act call.core ≡ act.FetchAnd keep }
        ensures { state self.new ≡ masked (state self.old) thread call keep }
    {
        let word = self.word(call.lock);
        lot_calls::store(&mut self.lot, thread, TRY_AGAIN);
        self.words[call.lock] = word & keep;
        self.calls[thread] = Some(call.told(ActResult::Before(word)));
        settle(&mut self.calls, thread, WakeResult::TryAgain);
    }

    /// It spins for a round.
    pub(crate) fn spin(&mut self, thread: usize, call: Call)
        requires here { call_at (state self.old) thread ≡ Some call }
        requires asked { core_act call.core ≡ act.Spin }
        ensures { state self.new ≡ spun (state self.old) thread call }
    {
        self.calls[thread] = Some(call.told(ActResult::Spun(true)));
    }

    /// It enters a section, where nobody is in one of the same bucket.
    pub(crate) fn enter(&mut self, thread: usize, call: Call, which: u8)
        requires here { call_at (state self.old) thread ≡ Some call }
        requires asked { core_act call.core ≡ act.Enter which }
        requires free { open_at (state self.old) (key_of call which) ≡ None }
        requires small { call.lock ≤ 2 ^ 62 }
        ensures { state self.new ≡ entered (state self.old) thread call which }
    {
        lot_calls::enter(&mut self.lot, thread, call.key(which));
        self.calls[thread] = Some(call.told(ActResult::Entered));
    }

    /// It looks at the word in its section.
    pub(crate) fn check(&mut self, thread: usize, call: Call)
        requires here { call_at (state self.old) thread ≡ Some call }
        requires asked { core_act call.core ≡ act.Section section.Check }
        ensures { state self.new ≡ checked (state self.old) thread call }
    {
        let next = call.told(ActResult::Word(self.word(call.lock)));
        lot_calls::check(&mut self.lot, thread, next.core.joins());
        self.calls[thread] = Some(next);
    }

    /// It joins the list.
    pub(crate) fn append(&mut self, thread: usize, call: Call, token: ParkToken)
        requires here { call_at (state self.old) thread ≡ Some call }
        requires asked { core_act call.core ≡ act.Section (section.Append token) }
        ensures { (k : ℕ) × (stance call.core ≡ In k (Joins token))
            × (state self.new ≡ appended (state self.old) thread call (key_of call k) token) }
    {
        lot_calls::append(&mut self.lot, thread, token);
        self.calls[thread] = Some(call.listed());
    }

    /// It takes the first waiter, whatever it waits for.
    pub(crate) fn take_first(&mut self, thread: usize, call: Call)
        requires here { call_at (state self.old) thread ≡ Some call }
        requires asked { core_act call.core ≡ act.Section section.TakeFirst }
        ensures { IsTakenFrom thread call (state self.old) (state self.new) }
    {
        let taking = lot_calls::take_first(&mut self.lot, thread);
        note_taking(&mut self.calls, &mut self.wakes, thread, taking);
        self.calls[thread] = Some(taker(&self.lot, call, taking));
    }

    /// It takes the next waiter that it may take at that sum of tokens.
    pub(crate) fn take_next(&mut self, thread: usize, call: Call, sum: u64)
        requires here { call_at (state self.old) thread ≡ Some call }
        requires asked { core_act call.core ≡ act.Section (section.TakeNext sum) }
        ensures { IsTakenFrom thread call (state self.old) (state self.new) }
    {
        let taking = lot_calls::take_next(&mut self.lot, thread, sum);
        note_taking(&mut self.calls, &mut self.wakes, thread, taking);
        self.calls[thread] = Some(taker(&self.lot, call, taking));
    }

    /// It changes the word, and tells those whom it took.
    pub(crate) fn store(&mut self, thread: usize, call: Call, change: WordChange, fair: bool)
        requires here { call_at (state self.old) thread ≡ Some call }
        requires asked { (plain handing : WordChange) × (core_act call.core ≡ act.Section (section.Store plain handing))
            × (change ≡ (if fair then handing else plain)) }
        ensures { state self.new ≡ told_all (state self.old) thread call change fair }
    {
        let word = self.word(call.lock);
        let next = call.told(ActResult::Stored { fair });
        let token = next.core.wake_token();
        lot_calls::store(&mut self.lot, thread, token);
        self.words[call.lock] = change.of(word);
        self.calls[thread] = Some(next);
        settle(&mut self.calls, thread, WakeResult::by(token));
    }

    /// It leaves its section.
    pub(crate) fn leave(&mut self, thread: usize, call: Call)
        requires here { call_at (state self.old) thread ≡ Some call }
        requires asked { core_act call.core ≡ act.Section section.Leave }
        ensures { state self.new ≡ left (state self.old) thread call }
    {
        lot_calls::leave(&mut self.lot, thread);
        self.calls[thread] = Some(call.told(ActResult::Made));
    }

    /// It wakes the first of those whom it has taken and who haven't gone on by themselves, or nobody where all have.
    pub(crate) fn wake(&mut self, thread: usize, call: Call)
        requires here { call_at (state self.old) thread ≡ Some call }
        requires asked { core_act call.core ≡ act.Section section.Wake }
        ensures { IsWoken thread call (state self.old) (state self.new) }
    {
        let _ = &self.wakes;
        if self.taken(thread, 0).is_some() {
            self.wake_first(thread, call);
        } else {
            self.wake_nobody(thread, call);
        }
    }

    /// All whom it has taken have gone on by themselves.
    fn wake_nobody(&mut self, thread: usize, call: Call)
        requires here { call_at (state self.old) thread ≡ Some call }
        requires asked { core_act call.core ≡ act.Section section.Wake }
        requires gone { taken_by (state self.old).wakes thread ≡ [] }
        ensures { state self.new ≡ woke_nobody (state self.old) thread call }
    {
        self.calls[thread] = Some(call.told(ActResult::Made));
    }

    /// It wakes the first of those whom it has taken.
    fn wake_first(&mut self, thread: usize, call: Call)
        requires here { call_at (state self.old) thread ≡ Some call }
        requires asked { core_act call.core ≡ act.Section section.Wake }
        requires some { 1 ≤ length (taken_by (state self.old).wakes thread) }
        ensures { (e : Wakeup) × (d : Call) × (token : UnparkToken) × IsDue (state self.old) thread e d token
            × (state self.new ≡ woke (state self.old) thread call e.thread d token) }
    {
        let at = first_by(&self.wakes, thread);
        let wakeup = self.wakes.remove(at);
        let token = lot_calls::rouse(&mut self.lot, wakeup.thread, wakeup.mark);
        let sleeper = call_in(&self.calls, wakeup.thread);
        self.calls[wakeup.thread] = woken(sleeper, token);
        self.calls[thread] = Some(call.told(ActResult::Made));
    }

    /// A call begins.
    pub(crate) fn begin_call(&mut self, thread: usize, call: Call)
        requires may { MayBegin (state self.old) thread call }
        ensures { state self.new ≡ begun (state self.old) thread call }
    {
        self.calls[thread] = Some(call.told(ActResult::Start));
    }

    /// Its call is over.
    pub(crate) fn answer(&mut self, thread: usize, call: Call)
        requires here { call_at (state self.old) thread ≡ Some call }
        requires asked { (answer : CoreAnswer) × (core_act call.core ≡ act.Done answer) }
        ensures { state self.new ≡ answered (state self.old) thread call }
    {
        let cell = thread * self.kinds.len() + call.lock;
        self.holds[cell] = call.core.hold_after(call.others);
        self.calls[thread] = None;
    }
}
