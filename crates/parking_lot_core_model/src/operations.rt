//! Whole operations: a thread parks and goes on, and others are unparked.
ghost use Rattle.std.specs.Prelude.{◌≡◌, ◌≤◌, Some, None, true, false, drop, take, length, List};
ghost use Rattle.parking_lot_core_model.specs.declared.parking.FilterOp.{FilterOp};
ghost use Rattle.parking_lot_core_model.specs.declared.place.Place.TheVariants.{Waiting};
ghost use Rattle.parking_lot_core_model.specs.Places.{place_at};
ghost use Rattle.parking_lot_core_model.specs.Results.{Answers, is_stop, unpark_result, chosen_by, passed_by, woken_by};
ghost use Rattle.parking_lot_core_model.specs.Results.{moved_by, left_by, fairly};
ghost use Rattle.parking_lot_core_model.specs.Machine.{machine, tokens_of, busy, enter_fault, resume_fault, stored};
ghost use Rattle.parking_lot_core_model.specs.Machine.{either_busy, open_at};
ghost use Rattle.parking_lot_core_model.specs.Sound.{IsOpen};
ghost use Rattle.parking_lot_core_model.specs.declared.place.Section.{Section};
ghost use Rattle.parking_lot_core_model.specs.Machine.{closed, taken, given_up, moved, Does};
ghost use Rattle.parking_lot_core_model.specs.Operations.{all_taken, is_abort, woken_count, moved_count, Resumes};
ghost use Rattle.parking_lot_core_model.specs.Operations.{Parks, UnparksOne, UnparksAll, UnparksByFilter};
ghost use Rattle.parking_lot_core_model.specs.Operations.{UnparksAndRequeues};

use crate::fault::LotFault;
use crate::lot::Lot;
use crate::parking::{FilterOp, ParkResult, ParkToken, RequeueOp, UnparkResult, UnparkToken};
use crate::place::Place;
use crate::places::put;
use std::alloc::Allocator;

impl<A: Allocator> Lot<A> {
    /// Parks a running thread. The validation is asked in the key's section; where it answers false the park is over,
    /// and answered `Invalid`. Else the thread stands at the end of the key's list, and `None` is answered: its park
    /// goes on until [`resume`](Lot::resume).
    pub fn park<V: FnOnce() -> bool>(
        &mut self,
        thread: usize,
        key: usize,
        validate: V,
        park_token: ParkToken,
        timed: bool,
    ) -> Result<Option<ParkResult>, LotFault>
    where
        V: Drop,
        requires { V.IsAlwaysCallable validate }
        ensures { Does (λ m. enter_fault m thread key) (Parks (V.post validate) thread key park_token timed)
            (machine self.old) result (machine self.new) }
    {
        let _ = &self.number;
        if let Some(fault) = self.enter_fault(thread, key) {
            return Err(fault);
        }
        if !validate() {
            return Ok(Some(ParkResult::Invalid));
        }
        self.join(thread, key, park_token, timed);
        Ok(None)
    }

    /// Has a thread go on that was taken, or whose deadline has come. A late one that still stands in its list takes
    /// itself out, is told whether the list is empty now, and is answered `TimedOut`; each other is answered the token
    /// that it was taken with.
    pub fn resume<T: FnOnce(usize, bool)>(
        &mut self,
        thread: usize,
        timed_out: T,
    ) -> Result<ParkResult, LotFault>
    where
        T: Drop,
        requires { T.IsAlwaysCallable timed_out }
        ensures { Does (λ m. resume_fault m thread) (Resumes (λ key last. T.post timed_out key last tt) thread)
            (machine self.old) result (machine self.new) }
    {
        if let Some(fault) = self.resume_fault(thread) {
            return Err(fault);
        }
        match self.place(thread) {
            Some(Place::Taken(token, _, _, _)) => {
                put(&mut self.places, thread, Some(Place::Running));
                Ok(ParkResult::Unparked(token))
            }
            Some(Place::Waiting(key, _)) => {
                self.give_up(thread, key);
                timed_out(key, !self.has_waiters(key));
                Ok(ParkResult::TimedOut)
            }
            _ => Err(LotFault::WrongStatus),
        }
    }

    /// Why the thread can't go on now.
    fn resume_fault(&self, thread: usize) -> Option<LotFault>
        ensures { result ≡ resume_fault (machine self.now) thread }
    {
        match self.place(thread) {
            Some(Place::Taken(_, _, sleep, _)) if !sleep.late => None,
            Some(Place::Taken(_, key, _, _)) => self.busy(key),
            Some(Place::Held(_, _)) => Some(LotFault::Busy),
            Some(Place::Waiting(key, sleep)) if sleep.late => self.busy(key),
            _ => Some(LotFault::WrongStatus),
        }
    }

    /// Takes the first waiter of a key and wakes it. The callback gets what is answered and gives the token, also where
    /// nobody waits.
    pub fn unpark_one<C: FnOnce(UnparkResult) -> UnparkToken>(
        &mut self,
        key: usize,
        callback: C,
    ) -> Result<UnparkResult, LotFault>
    where
        C: Drop,
        requires { C.IsAlwaysCallable callback }
        ensures { Does (busy key) (UnparksOne false (C.post callback) key) (machine self.old) result
            (machine self.new) }
    {
        self.unpark_first(key, false, callback)
    }

    /// The same, with what is answered of fairness said by the caller.
    pub fn unpark_first<C: FnOnce(UnparkResult) -> UnparkToken>(
        &mut self,
        key: usize,
        fair: bool,
        callback: C,
    ) -> Result<UnparkResult, LotFault>
    where
        C: Drop,
        requires { C.IsAlwaysCallable callback }
        ensures { Does (busy key) (UnparksOne fair (C.post callback) key) (machine self.old) result (machine self.new) }
    {
        if let Some(fault) = self.busy(key) {
            return Err(fault);
        }
        self.open(None, key);
        let woken = self.take_first(key);
        let result = self.outcome(key, woken, fair);
        let token = callback(result);
        self.finish(key, token);
        Ok(result)
    }

    /// Takes all waiters of a key, wakes them with the token and answers how many they were.
    pub fn unpark_all(&mut self, key: usize, unpark_token: UnparkToken) -> Result<usize, LotFault>
        ensures { Does (busy key) (UnparksAll unpark_token key) (machine self.old) result (machine self.new) }
    {
        if let Some(fault) = self.busy(key) {
            return Err(fault);
        }
        self.open(None, key);
        let count = self.count(key);
        self.take_all(key, count);
        self.finish(key, unpark_token);
        Ok(count)
    }

    /// Shows the tokens of a key's waiters to a filter, in order, until it stops, and takes those that it wants. They
    /// are woken with the callback's token.
    pub fn unpark_filter<
        F: FnMut(ParkToken) -> FilterOp + Drop,
        C: FnOnce(UnparkResult) -> UnparkToken,
    >(&mut self, key: usize, filter: F, callback: C) -> Result<UnparkResult, LotFault>
    where
        C: Drop,
        requires filter { F.IsAlwaysCallable filter }
        requires callback { C.IsAlwaysCallable callback }
        ensures { Does (busy key) (UnparksByFilter false F.step filter (C.post callback) key) (machine self.old) result
            (machine self.new) }
    {
        self.unpark_wanted(key, false, filter, callback)
    }

    /// The same, with what is answered of fairness said by the caller.
    pub fn unpark_wanted<
        F: FnMut(ParkToken) -> FilterOp + Drop,
        C: FnOnce(UnparkResult) -> UnparkToken,
    >(&mut self, key: usize, fair: bool, filter: F, callback: C) -> Result<UnparkResult, LotFault>
    where
        C: Drop,
        requires filter { F.IsAlwaysCallable filter }
        requires callback { C.IsAlwaysCallable callback }
        ensures { Does (busy key) (UnparksByFilter fair F.step filter (C.post callback) key) (machine self.old) result
            (machine self.new) }
    {
        if let Some(fault) = self.busy(key) {
            return Err(fault);
        }
        self.open(None, key);
        let woken = self.sift(key, filter);
        let result = self.outcome(key, woken, fair);
        let token = callback(result);
        self.finish(key, token);
        Ok(result)
    }

    /// Does with the waiters of `key_from` what the validation answers: one may be woken, with the callback's token,
    /// and others may be moved to the end of `key_to`'s list. `Abort` changes nothing, and there the callback isn't
    /// called.
    pub fn unpark_requeue<
        V: FnOnce() -> RequeueOp,
        C: FnOnce(RequeueOp, UnparkResult) -> UnparkToken,
    >(
        &mut self,
        key_from: usize,
        key_to: usize,
        validate: V,
        callback: C,
    ) -> Result<UnparkResult, LotFault>
    where
        V: Drop,
        C: Drop,
        requires validate { V.IsAlwaysCallable validate }
        requires callback { C.IsAlwaysCallable callback }
        ensures { Does (either_busy key_from key_to)
            (UnparksAndRequeues (V.post validate) (C.post callback) key_from key_to) (machine self.old) result
            (machine self.new) }
    {
        if let Some(fault) = self.either_busy(key_from, key_to) {
            return Err(fault);
        }
        let op = validate();
        if is_abort(op) {
            return Ok(UnparkResult::default());
        }
        self.open(None, key_from);
        let result = self.requeue(op, key_from, key_to);
        let token = callback(op, result);
        self.finish(key_from, token);
        Ok(result)
    }

    /// Gives those that were taken their token, closes the key's section and wakes them.
    fn finish(&mut self, key: usize, token: UnparkToken)
        requires { IsOpen (machine self.old) key }
        ensures { machine self.new ≡ closed (stored (machine self.old) key token) key true }
    {
        self.say_store(key, token);
        self.close(key, true);
    }

    /// What is answered once so many were woken and the key's list is left as it is.
    fn outcome(&self, key: usize, woken: usize, fair: bool) -> UnparkResult
        ensures { result ≡ fairly fair (unpark_result woken 0 ((machine self.now).queues key)) }
    {
        UnparkResult {
            unparked_threads: woken,
            requeued_threads: 0,
            have_more_threads: self.has_waiters(key),
            be_fair: fair,
        }
    }

    /// Takes the first waiter of a key, and answers how many that were.
    fn take_first(&mut self, key: usize) -> usize
        requires { IsOpen (machine self.old) key }
        ensures count { result ≡ length (take 1 ((machine self.old).queues key)) }
        ensures taken { machine self.new ≡ all_taken (machine self.old) key (take 1 ((machine self.old).queues key))
            (drop 1 ((machine self.old).queues key)) }
    {
        match self.take_out(key, 0) {
            Some(_) => 1,
            None => 0,
        }
    }

    /// Takes so many waiters of a key, from the front.
    fn take_all(&mut self, key: usize, count: usize)
        requires { IsOpen (machine self.old) key }
        ensures { machine self.new ≡ all_taken (machine self.old) key (take count ((machine self.old).queues key))
            (drop count ((machine self.old).queues key)) }
    {
        for nth in 0..count {
            self.take_out(key, 0);
        }
    }

    /// Takes those waiters of a key that a filter wants, and answers how many.
    fn sift<F: FnMut(ParkToken) -> FilterOp + Drop>(&mut self, key: usize, mut filter: F) -> usize
        requires entered { IsOpen (machine self.old) key }
        requires callable { F.IsAlwaysCallable filter }
        ensures { let queue = (machine self.old).queues key in (answers : List FilterOp) × (last : F)
            × Answers F.step is_stop filter (tokens_of queue) answers last × (result ≡ length (chosen_by answers queue))
            × (machine self.new ≡ all_taken (machine self.old) key (chosen_by answers queue)
            (passed_by answers queue)) }
    {
        let count = self.count(key);
        let mut unparked = 0;
        for nth in 0..count {
            let Some(waiter) = self.waiter(key, nth - unparked) else {
                return unparked;
            };
            match filter(waiter.token) {
                FilterOp::Unpark => {
                    self.take_out(key, nth - unparked);
                    unparked += 1;
                }
                FilterOp::Skip => {}
                FilterOp::Stop => return unparked,
            }
        }
        unparked
    }

    /// Takes and moves waiters as the operation says, and answers what was done.
    fn requeue(&mut self, op: RequeueOp, from: usize, to: usize) -> UnparkResult
        requires entered { IsOpen (machine self.old) from }
        requires nobody { (s : Section) → open_at (machine self.old) from ≡ Some s → s.thread ≡ None }
        ensures result { let queue = (machine self.old).queues from in
            result ≡ unpark_result (length (woken_by op queue)) (length (moved_by op queue)) (left_by op queue) }
        ensures lists { let queue = (machine self.old).queues from in
            machine self.new ≡ moved
            (all_taken (machine self.old) from (woken_by op queue) (drop (length (woken_by op queue)) queue)) from to
            (moved_by op queue) (left_by op queue) }
    {
        let count = self.count(from);
        let woken = woken_count(op, count);
        let moved = moved_count(op, count);
        self.take_all(from, woken);
        self.move_all(from, to, moved);
        UnparkResult {
            unparked_threads: woken,
            requeued_threads: moved,
            have_more_threads: woken + moved < count,
            be_fair: false,
        }
    }

    /// Moves so many waiters of a key to the end of another's list, from the front.
    fn move_all(&mut self, from: usize, to: usize, count: usize)
        requires within { count ≤ length ((machine self.old).queues from) }
        requires nobody { (s : Section) → open_at (machine self.old) from ≡ Some s → s.thread ≡ None }
        ensures { machine self.new ≡ moved (machine self.old) from to (take count ((machine self.old).queues from))
            (drop count ((machine self.old).queues from)) }
    {
        for nth in 0..count {
            self.move_first(from, to);
        }
    }

    /// Takes a late thread out of its list, and has it run.
    pub(crate) fn give_up(&mut self, thread: usize, key: usize)
        requires { (sleep : _) × (place_at (machine self.old).places thread ≡ Some (Waiting key sleep)) }
        ensures { machine self.new ≡ given_up (machine self.old) thread key }
    {
        self.waiting.take_number(key, thread);
        put(&mut self.places, thread, Some(Place::Running));
    }
}

/// How many of so many waiters the operation wakes.
fn woken_count(op: RequeueOp, count: usize) -> usize
    ensures { result ≡ woken_count op count }
{
    match op {
        RequeueOp::UnparkOneRequeueRest | RequeueOp::UnparkOne => count.min(1),
        RequeueOp::Abort | RequeueOp::RequeueAll | RequeueOp::RequeueOne => 0,
    }
}

/// How many of so many waiters the operation moves.
fn moved_count(op: RequeueOp, count: usize) -> usize
    ensures { result ≡ moved_count op count }
{
    match op {
        RequeueOp::UnparkOneRequeueRest => count.saturating_sub(1),
        RequeueOp::RequeueAll => count,
        RequeueOp::RequeueOne => count.min(1),
        RequeueOp::Abort | RequeueOp::UnparkOne => 0,
    }
}

/// Whether the operation is to do nothing.
fn is_abort(op: RequeueOp) -> bool
    ensures { result ≡ is_abort op }
{
    matches!(op, RequeueOp::Abort)
}
