//! The machine of locks: words, lists and a call for each thread, moved one atomic step at a time.
ghost use Rattle.std.specs.Prelude.{◌≡◌, ◌<◌, ◌≤◌, ◌↔◌, ◌⊎◌, ◌^◌, length, slice_get, Some, None, true, if◌then◌else◌};
ghost use Rattle.std.specs.Prelude.{IsErrOf, IfOk, IfErr, IsTrue};
ghost use Rattle.parking_lot_core_model.specs.declared.fault.SizeFault.TheVariants.{BadSize, NoMemory};
ghost use Rattle.parking_lot_protocol.specs.declared.act.Act.TheVariants as act;
ghost use Rattle.parking_lot_machine_calls.specs.Calls.{takes};
ghost use Rattle.parking_lot_machine_calls.specs.Kinds.{kind_in};
ghost use Rattle.parking_lot_machine_calls.specs.Stances.{core_act};
ghost use Rattle.parking_lot_machine.specs.Rows.{call_at, hold_at, state, word_at};
ghost use Rattle.parking_lot_machine.specs.Machines.{at_rest, can_move, goes_late, may_expire, IsExpired, may_begin};
ghost use Rattle.parking_lot_machine.specs.Machines.{IsBegun, IsStepped};

use parking_lot_core_model::{Lot, SizeFault};
use parking_lot_machine_calls::{Call, Hold, LockCall, LockKind, QueuePosition, Wakeup};
use parking_lot_protocol::{Act, CoreAnswer, SectionAct, WordChange};
use std::alloc::{Allocator, Global};
use std::marker::Model;

/// Locks, and threads at them, each in one call at a time.
///
/// A thread [begins](RowMachine::begin) a call at a lock, and then makes one atomic [step](RowMachine::step) after
/// another, in any order among the threads, until the call is answered. Each step is a step of the rules of the lock.
/// All room is taken where the machine is made.
#[derive(Drop)]
pub struct RowMachine<A: Allocator = Global> {
    pub(crate) kinds: Vec<LockKind, A>,
    pub(crate) words: Vec<u64, A>,
    /// What each thread owns of each lock, thread by thread; of the lock of the call that it is in, what it owned
    /// before.
    pub(crate) holds: Vec<Hold, A>,
    pub(crate) calls: Vec<Option<Call>, A>,
    /// Who is still to be woken, and by whom.
    pub(crate) wakes: Vec<Wakeup, A>,
    pub(crate) lot: Lot<A>,
}

impl<A: Allocator> Model for RowMachine<A> {
    ghost use Rattle.std.specs.Prelude.{◌≤◌, length, vec_capacity};
    ghost use Rattle.parking_lot_machine.specs.Rows.{Rows, state};
    ghost use Rattle.parking_lot_machine.specs.RowFits.{FitsTogether};

    ghost Value = { Rows };

    ghost view = { λ m. record {
      kinds = m.kinds.items;
      words = m.words.items;
      holds = m.holds.items;
      calls = m.calls.items;
      wakes = m.wakes.items;
      lot = m.lot;
    } };

    ghost invariant = { λ m. FitsTogether
        (state (record {
          kinds = m.kinds.items;
          words = m.words.items;
          holds = m.holds.items;
          calls = m.calls.items;
          wakes = m.wakes.items;
          lot = m.lot;
        })) × (length m.calls.items ≤ vec_capacity m.wakes) };
}

impl<A: Allocator> RowMachine<A> {
    /// How many threads there are.
    pub fn threads(&self) -> usize
        ensures { result ≡ length (state self.now).calls }
    {
        self.calls.len()
    }

    /// The kind of a lock; `None` beyond the last.
    pub fn kind(&self, lock: usize) -> Option<LockKind>
        ensures { result ≡ slice_get (state self.now).kinds lock }
    {
        self.kinds.get(lock).copied()
    }

    /// The word of a lock; 0 beyond the last.
    pub fn word(&self, lock: usize) -> u64
        ensures { result ≡ word_at (state self.now) lock }
    {
        self.words.get(lock).copied().unwrap_or(0)
    }

    /// The call that a thread is in.
    pub fn call(&self, thread: usize) -> Option<Call>
        ensures { result ≡ call_at (state self.now) thread }
    {
        self.calls.get(thread).copied().flatten()
    }

    /// What a thread owned of a lock when it was last in no call there.
    pub fn hold(&self, thread: usize, lock: usize) -> Hold
        ensures { result ≡ hold_at (state self.now) thread lock }
    {
        if lock < self.kinds.len() {
            let row = thread.saturating_mul(self.kinds.len());
            self.holds
                .get(row.saturating_add(lock))
                .copied()
                .unwrap_or(Hold::Shares(0))
        } else {
            Hold::Shares(0)
        }
    }

    /// Who is still to be woken, and by whom: the oldest first.
    pub fn wakes(&self) -> &[Wakeup]
        ensures { result.now ≡ self.now.wakes }
    {
        &self.wakes
    }

    /// The lot in which the threads wait.
    pub fn lot(&self) -> &Lot<A>
        ensures { result.now ≡ self.now.lot }
    {
        &self.lot
    }

    /// Whether a thread can make a step: it is in a call, doesn't sleep, and isn't before a section whose bucket
    /// another has entered.
    pub fn can_move(&self, thread: usize) -> bool
        ensures { result ≡ can_move (state self.now) thread }
    {
        let _ = &self.wakes;
        let Some(call) = self.call(thread) else {
            return false;
        };
        self.goes_late(&call)
            || match call.core.act() {
                Act::Sleep => false,
                Act::Enter(which) => !self.lot.is_entered(call.key(which)),
                _ => true,
            }
    }

    /// Whether a thread whose moment has passed comes back now, or takes itself out of its list.
    fn goes_late(&self, call: &Call) -> bool
        requires small { call.now.lock ≤ 2 ^ 62 }
        ensures { result ≡ goes_late (state self.now) call.now call.now.core }
    {
        call.core.is_back()
            || (call.core.comes_late() && !self.lot.is_entered(call.key(call.core.late_list())))
    }

    /// Whether a thread's deadline may come: it sleeps in a timed call, in its list or taken and not woken yet, and it
    /// hasn't come before.
    pub fn may_expire(&self, thread: usize) -> bool
        ensures { result ≡ may_expire (state self.now) thread }
    {
        match self.call(thread) {
            Some(call) => call.asked.is_timed() && call.core.sleeps_in_time(),
            None => false,
        }
    }

    /// A thread's deadline comes as it sleeps. From then on it can move: it comes back into the section of its list,
    /// takes itself out there, masks the parked bit off where it was the last, and is answered that it has given up. As
    /// a pending writer it takes its bit back instead, and goes through those that it kept out. Where another has taken
    /// it before it is back it finds that out in the section, leaves it, and goes on as it was told: it owns what it
    /// was handed, or tries again. Its taker wakes it no more then. Where that wake comes first it goes on from where
    /// it sleeps.
    pub fn deadline(&mut self, thread: usize)
        requires may { may_expire (state self.old) thread ≡ true }
        ensures { IsExpired thread (state self.old) (state self.new) }
    {
        let _ = &self.wakes;
        if let Some(call) = self.call(thread) {
            self.expire(thread, call);
        }
    }

    /// The kind of a lock; beyond the last that of readers and writers.
    fn kind_or_rw(&self, lock: usize) -> LockKind
        ensures { result ≡ kind_in (state self.now).kinds lock }
    {
        self.kind(lock).unwrap_or(LockKind::Rw)
    }

    /// Whether a lock can be asked so; of those beyond the last none can.
    fn takes(&self, lock: usize, call: LockCall) -> bool
        ensures { result ≡ takes (slice_get (state self.now).kinds lock) call }
    {
        match self.kind(lock) {
            Some(kind) => kind.takes(call),
            None => false,
        }
    }

    /// Whether a thread may begin that call at a lock: it is in no call, the lock is of a kind that takes it, and it
    /// gives up what it owns there, or asks for a lock of which it owns nothing, or reads once more under a recursive
    /// lock that it reads fewer than 255 times.
    pub fn may_begin(&self, thread: usize, lock: usize, call: LockCall) -> bool
        ensures { result ≡ may_begin (state self.now) thread lock call }
    {
        thread < self.threads()
            && self.call(thread).is_none()
            && self.takes(lock, call)
            && self.hold(thread, lock).allows(self.kind_or_rw(lock), call)
    }

    /// A thread begins a call at a lock. It is the call's first step, and adds to the steps that are left a number that
    /// depends on the call and on how many threads there are.
    pub fn begin(&mut self, thread: usize, lock: usize, call: LockCall)
        requires may { may_begin (state self.old) thread lock call ≡ true }
        ensures { IsBegun thread lock call (state self.old) (state self.new) }
    {
        let _ = &self.wakes;
        let others = self.hold(thread, lock).beside(call);
        self.begin_call(
            thread,
            Call {
                lock,
                others,
                core: call.core(self.kind_or_rw(lock)),
                spot: QueuePosition::Listed,
                asked: call,
            },
        );
    }

    /// A thread makes one step. `fair` says whether it hands a lock over, where it stores in the section of an
    /// exclusive release. Answers how the call ended, where it did.
    ///
    /// Each step lowers the steps that are left of all threads' calls, where the same thread is stepped on. So no
    /// thread can be stepped for ever: it sleeps, is shut out of a section or is answered.
    pub fn step(&mut self, thread: usize, fair: bool) -> Option<CoreAnswer>
        requires can { can_move (state self.old) thread ≡ true }
        ensures { IsStepped thread fair result (state self.old) (state self.new) }
    {
        let _ = &self.wakes;
        let call = self.call(thread)?;
        match call.core.act() {
            Act::Load => self.load(thread, call),
            Act::Exchange(from, to) => self.exchange(thread, call, from, to),
            Act::Add(by) => self.add(thread, call, by),
            Act::FetchAnd(keep) => self.mask(thread, call, keep),
            Act::Spin => self.spin(thread, call),
            Act::Enter(which) => self.enter(thread, call, which),
            Act::Section(next) => self.step_in_section(thread, call, next, fair),
            Act::Sleep => self.step_late(thread, call, fair),
            Act::Done(answer) => {
                self.answer(thread, call);
                return Some(answer);
            }
        }
        None
    }

    /// The same of one whose moment has passed.
    fn step_late(&mut self, thread: usize, call: Call, fair: bool)
        requires here { call_at (state self.old) thread ≡ Some call }
        requires asked { core_act call.core ≡ act.Sleep }
        requires can { goes_late (state self.old) call call.core ≡ true }
        ensures { IsStepped thread fair None (state self.old) (state self.new) }
    {
        let _ = &self.wakes;
        if call.core.is_back() {
            self.quit(thread, call);
        } else {
            match call.spot {
                QueuePosition::Listed => self.come_back(thread, call),
                QueuePosition::Off(by, said) => self.find(thread, call, by, said),
            }
        }
    }

    /// The same in a section, or after one.
    fn step_in_section(&mut self, thread: usize, call: Call, next: SectionAct, fair: bool)
        requires here { call_at (state self.old) thread ≡ Some call }
        requires asked { core_act call.core ≡ act.Section next }
        ensures { IsStepped thread fair None (state self.old) (state self.new) }
    {
        let _ = &self.wakes;
        match next {
            SectionAct::Check => self.check(thread, call),
            SectionAct::TakeFirst => self.take_first(thread, call),
            SectionAct::TakeNext(sum) => self.take_next(thread, call, sum),
            SectionAct::Append(token) => self.append(thread, call, token),
            SectionAct::Store {
                plain,
                fair: handing,
            } => {
                self.store(thread, call, change_by(fair, plain, handing), fair);
            }
            SectionAct::Leave => self.leave(thread, call),
            SectionAct::Wake => self.wake(thread, call),
        }
    }
}

/// The change that a release makes, as it is plain or hands the lock over.
fn change_by(fair: bool, plain: WordChange, handing: WordChange) -> WordChange
    ensures { result ≡ (if fair then handing else plain) }
{
    if fair { handing } else { plain }
}
