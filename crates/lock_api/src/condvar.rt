//! The condition variable.
ghost use Rattle.std.specs.Prelude.{◌≡◌, ◌⊎◌, IfOk, IfErr, OnOk, true};
ghost use Rattle.std.specs.Sync.Mutex.{mutex_guard_value};
ghost use Rattle.std.specs.Sync.Condvar.{StoppedAt, AnsweredAt};
ghost use Rattle.std.specs.Iterator.Runs.{CallKeepsClosure};
ghost use Rattle.lock_api_raw.specs.Waits.{IsRefusedRightly};
ghost use Rattle.lock_api.specs.Waits.{timed_answer, WasRefused, RanOut};

use crate::mutex::{Mutex, MutexGuard};
use crate::parted::{MutexPlace, Parted};
use crate::timed_out::WaitTimeoutResult;
use core::mem;
use lock_api_guards::{Access, Guard};
use lock_api_raw::{
    MakeCondvar, RawCondvar, RawCondvarTimed, RawMutex, RawMutexTimed, TableFull, WaitFault,
};
use lock_api_rw::HasRaw as _;
use std::fmt;
use std::fmt::Debug;
use std::rt::Clock;
use std::sync::Wait;

/// A condition variable that works with guards of one kind of mutex.
///
/// It wakes also without a notification, so use the `while` forms. A wait is refused before anything is done, and the
/// guard is locked again whatever the answer is. Nothing here takes memory.
///
/// ```text
/// condvar.wait_while(&mut guard, &mut party, |ready| !*ready)?;
/// ```
#[derive(Drop)]
pub struct Condvar<C> {
    raw: C,
}

/// The mutex of a guard, for as long as it lives.
fn mutex_of<'l, R: RawMutex, T>(guard: &MutexGuard<'l, R, T>) -> &'l Mutex<R, T>
where
    R::Runtime: Wait,
    ensures { result.now ≡ guard.now.held.0.place.now }
{
    *guard.held.hold().place()
}

/// Gives the value back, has the raw variable wait with the mutex and the token of the guard, and takes the value's std
/// lock again.
fn waits<C: RawCondvar, W: Drop, H: Parted<C::RawMutex> + Access<Inner = W>>(
    raw: &C,
    guard: &mut Guard<W, H>,
    party: &mut <C::RawMutex as RawMutex>::Party,
) -> Result<(), WaitFault>
where
    H::Runtime: Wait,
    <C::RawMutex as RawMutex>::Runtime: Wait,
    ensures place { H.place_of guard.new.held.0 ≡ H.place_of guard.old.held.0 }
    ensures refused { IsRefusedRightly (C.same_lot raw.now (H.Place.raw_of (H.place_of guard.old.held.0)))
        (H.token_of guard.old.held.0) (H.token_of guard.new.held.0) result }
    ensures answer { C.waited raw.now (H.token_of guard.old.held.0) (H.token_of guard.new.held.0) result }
{
    mem::replace_with(
        guard,
        party,
        |guard, party| -> (Guard<W, H>, Result<(), WaitFault>)
            ensures place { H.place_of result.0.held.0 ≡ H.place_of guard.held.0 }
            ensures refused { IsRefusedRightly (C.same_lot raw.entry.now (H.Place.raw_of (H.place_of guard.held.0)))
                (H.token_of guard.held.0) (H.token_of result.0.held.0) result.1 }
            ensures answer { C.waited raw.entry.now (H.token_of guard.held.0) (H.token_of result.0.held.0) result.1 }
        {
            let (place, token) = Guard::into_hold(guard).into_parts();
            let (token, answer) = raw.wait(place.raw_mutex(), token, party);
            (Guard::under(H::from_parts(place, token)), answer)
        },
    )
}

/// As `waits`, until the moment at the latest.
fn waits_until<C: RawCondvarTimed, W: Drop, H: Parted<C::RawMutex> + Access<Inner = W>, K: Clock>(
    raw: &C,
    guard: &mut Guard<W, H>,
    deadline: <C::RawMutex as RawMutexTimed>::Instant,
    clock: &K,
    party: &mut <C::RawMutex as RawMutex>::Party,
) -> Result<bool, WaitFault>
where
    C::RawMutex: RawMutexTimed,
    H::Runtime: Wait,
    <C::RawMutex as RawMutex>::Runtime: Wait,
    ensures place { H.place_of guard.new.held.0 ≡ H.place_of guard.old.held.0 }
    ensures refused { IsRefusedRightly (C.same_lot raw.now (H.Place.raw_of (H.place_of guard.old.held.0)))
        (H.token_of guard.old.held.0) (H.token_of guard.new.held.0) result }
    ensures answer { C.waited_in_time raw.now (H.token_of guard.old.held.0) (H.token_of guard.new.held.0) result }
{
    mem::replace_with(
        guard,
        deadline,
        |guard, deadline| -> (Guard<W, H>, Result<bool, WaitFault>)
            ensures place { H.place_of result.0.held.0 ≡ H.place_of guard.held.0 }
            ensures refused { IsRefusedRightly (C.same_lot raw.entry.now (H.Place.raw_of (H.place_of guard.held.0)))
                (H.token_of guard.held.0) (H.token_of result.0.held.0) result.1 }
            ensures answer { C.waited_in_time raw.entry.now (H.token_of guard.held.0) (H.token_of result.0.held.0)
                result.1 }
        {
            let (place, token) = Guard::into_hold(guard).into_parts();
            let (token, answer) = raw.wait_until(place.raw_mutex(), token, deadline, clock, party);
            (Guard::under(H::from_parts(place, token)), answer)
        },
    )
}

/// As `waits`, for that long at most.
fn waits_for<C: RawCondvarTimed, W: Drop, H: Parted<C::RawMutex> + Access<Inner = W>, K: Clock>(
    raw: &C,
    guard: &mut Guard<W, H>,
    timeout: <C::RawMutex as RawMutexTimed>::Duration,
    clock: &K,
    party: &mut <C::RawMutex as RawMutex>::Party,
) -> Result<bool, WaitFault>
where
    C::RawMutex: RawMutexTimed,
    H::Runtime: Wait,
    <C::RawMutex as RawMutex>::Runtime: Wait,
    ensures place { H.place_of guard.new.held.0 ≡ H.place_of guard.old.held.0 }
    ensures refused { IsRefusedRightly (C.same_lot raw.now (H.Place.raw_of (H.place_of guard.old.held.0)))
        (H.token_of guard.old.held.0) (H.token_of guard.new.held.0) result }
    ensures answer { C.waited_in_time raw.now (H.token_of guard.old.held.0) (H.token_of guard.new.held.0) result }
{
    mem::replace_with(
        guard,
        timeout,
        |guard, timeout| -> (Guard<W, H>, Result<bool, WaitFault>)
            ensures place { H.place_of result.0.held.0 ≡ H.place_of guard.held.0 }
            ensures refused { IsRefusedRightly (C.same_lot raw.entry.now (H.Place.raw_of (H.place_of guard.held.0)))
                (H.token_of guard.held.0) (H.token_of result.0.held.0) result.1 }
            ensures answer { C.waited_in_time raw.entry.now (H.token_of guard.held.0) (H.token_of result.0.held.0)
                result.1 }
        {
            let (place, token) = Guard::into_hold(guard).into_parts();
            let (token, answer) = raw.wait_for(place.raw_mutex(), token, timeout, clock, party);
            (Guard::under(H::from_parts(place, token)), answer)
        },
    )
}

/// What a timed wait answers, of which the raw variable's answer tells.
fn timed(answer: Result<bool, WaitFault>) -> Result<WaitTimeoutResult, WaitFault>
    ensures { timed_answer result ≡ answer }
{
    match answer {
        Ok(ran_out) => Ok(WaitTimeoutResult(ran_out)),
        Err(fault) => Err(fault),
    }
}

impl<C: RawCondvar> Condvar<C>
where
    <C::RawMutex as RawMutex>::Runtime: Wait,
{
    /// One on which nobody waits. `TableFull` where the table has no row left: it takes one.
    ///
    /// ```text
    /// let changed = Condvar::new(&table)?;
    /// ```
    pub fn new<S>(source: S) -> Result<Condvar<C>, TableFull>
    where
        C: MakeCondvar<S>,
    {
        Ok(Condvar {
            raw: C::new(source)?,
        })
    }

    /// The same as `new`.
    ///
    /// ```text
    /// let changed: Condvar<'_, '_, HostRuntime> = Condvar::default(&table)?;
    /// ```
    pub fn default<S>(source: S) -> Result<Condvar<C>, TableFull>
    where
        C: MakeCondvar<S>,
    {
        Condvar::new(source)
    }

    /// Gives the value's std lock and the mutex back, waits until it is notified, and takes both again. Others may have
    /// changed the value since it was notified: test it again, or use `wait_while`.
    ///
    /// `WrongMutex` is answered where other threads wait with another mutex, and then `WrongLot` where the mutex is of
    /// another lot; then it hasn't waited, and the guard is held.
    ///
    /// ```text
    /// let mut queue = tasks.lock(&mut me);
    /// changed.wait(&mut queue, &mut me)?;
    /// ```
    pub fn wait<'l, T>(
        &self,
        guard: &mut MutexGuard<'l, C::RawMutex, T>,
        party: &mut <C::RawMutex as RawMutex>::Party,
    ) -> Result<(), WaitFault>
        ensures lock { guard.new.held.0.place ≡ guard.old.held.0.place }
        ensures refused { IsRefusedRightly (C.same_lot self.now.raw guard.old.held.0.place.now) guard.old.held.0.token
            guard.new.held.0.token result }
        ensures answer { C.waited self.now.raw guard.old.held.0.token guard.new.held.0.token result }
    {
        waits(&self.raw, guard, party)
    }

    /// Asks the condition of the value, and waits as long as it answers true. Where it returns Ok, the condition's last
    /// answer was false and the value is as that call left it. The condition is called under the lock. Refused as
    /// `wait`.
    ///
    /// ```text
    /// changed.wait_while(&mut queue, &mut me, |queue| queue.is_empty())?;
    /// let task = queue.pop_front();
    /// ```
    pub fn wait_while<'l, T, F: FnMut(&mut T) -> bool>(
        &self,
        guard: &mut MutexGuard<'l, C::RawMutex, T>,
        party: &mut <C::RawMutex as RawMutex>::Party,
        mut condition: F,
    ) -> Result<(), WaitFault>
        requires { F.IsAlwaysCallable condition }
        ensures value { OnOk result
            (StoppedAt F.step (CallKeepsClosure F.FnMut condition) condition (mutex_guard_value guard.new.inner)) }
        ensures lock { guard.new.held.0.place ≡ guard.old.held.0.place }
        ensures refused { IfErr result
            (WasRefused (C.same_lot self.now.raw guard.old.held.0.place.now) (C.waited self.now.raw)) }
    {
        for _ in mutex_of(guard).raw().runtime().forever() {
            if !condition(&mut **guard) {
                return Ok(());
            }
            self.wait(guard, party)?;
        }
        unreachable!()
    }

    /// Takes the first waiter, and answers whether one was taken. It blocks nobody; a waiter goes on once it has the
    /// mutex again. Nobody remembers a notification: change the value under the mutex first.
    ///
    /// ```text
    /// tasks.lock(&mut me).push_back(task)?;
    /// changed.notify_one();
    /// ```
    pub fn notify_one(&self) -> bool
        ensures { C.notified_one self.now.raw result }
    {
        self.raw.notify_one()
    }

    /// Takes all waiters, and answers how many there were. They go on one after another, as each gets the mutex.
    ///
    /// ```text
    /// let taken = changed.notify_all();
    /// ```
    pub fn notify_all(&self) -> usize
        ensures { C.notified_all self.now.raw result }
    {
        self.raw.notify_all()
    }
}

impl<C: RawCondvarTimed> Condvar<C>
where
    C::RawMutex: RawMutexTimed,
    <C::RawMutex as RawMutex>::Runtime: Wait,
{
    /// As `wait`, until the moment at the latest, and tells whether the time ran out.
    ///
    /// ```text
    /// let ran_out = changed.wait_until(&mut queue, deadline, &rt, &mut me)?.timed_out();
    /// ```
    pub fn wait_until<'l, T, K: Clock>(
        &self,
        guard: &mut MutexGuard<'l, C::RawMutex, T>,
        deadline: <C::RawMutex as RawMutexTimed>::Instant,
        clock: &K,
        party: &mut <C::RawMutex as RawMutex>::Party,
    ) -> Result<WaitTimeoutResult, WaitFault>
        ensures lock { guard.new.held.0.place ≡ guard.old.held.0.place }
        ensures refused { IsRefusedRightly (C.same_lot self.now.raw guard.old.held.0.place.now) guard.old.held.0.token
            guard.new.held.0.token result }
        ensures answer { C.waited_in_time self.now.raw guard.old.held.0.token guard.new.held.0.token
            (timed_answer result) }
    {
        timed(waits_until(&self.raw, guard, deadline, clock, party))
    }

    /// As `wait_until`, with the moment that lies `timeout` ahead. Where that can't be said there is no limit.
    ///
    /// ```text
    /// let ran_out = changed.wait_for(&mut queue, Duration::from_secs(1), &rt, &mut me)?.timed_out();
    /// ```
    pub fn wait_for<'l, T, K: Clock>(
        &self,
        guard: &mut MutexGuard<'l, C::RawMutex, T>,
        timeout: <C::RawMutex as RawMutexTimed>::Duration,
        clock: &K,
        party: &mut <C::RawMutex as RawMutex>::Party,
    ) -> Result<WaitTimeoutResult, WaitFault>
        ensures lock { guard.new.held.0.place ≡ guard.old.held.0.place }
        ensures refused { IsRefusedRightly (C.same_lot self.now.raw guard.old.held.0.place.now) guard.old.held.0.token
            guard.new.held.0.token result }
        ensures answer { C.waited_in_time self.now.raw guard.old.held.0.token guard.new.held.0.token
            (timed_answer result) }
    {
        timed(waits_for(&self.raw, guard, timeout, clock, party))
    }

    /// As `wait_while`, until the moment at the latest. It timed out exactly if the condition's last answer, asked
    /// after the time ran out, was true.
    ///
    /// ```text
    /// let late = changed.wait_while_until(&mut queue, deadline, &rt, &mut me, |queue| queue.is_empty())?;
    /// if !late.timed_out() { let task = queue.pop_front(); }
    /// ```
    pub fn wait_while_until<'l, T, K: Clock, F: FnMut(&mut T) -> bool>(
        &self,
        guard: &mut MutexGuard<'l, C::RawMutex, T>,
        deadline: <C::RawMutex as RawMutexTimed>::Instant,
        clock: &K,
        party: &mut <C::RawMutex as RawMutex>::Party,
        mut condition: F,
    ) -> Result<WaitTimeoutResult, WaitFault>
    where
        <C::RawMutex as RawMutexTimed>::Instant: Copy,
        requires { F.IsAlwaysCallable condition }
        ensures value { IfOk result
            (λ answer. AnsweredAt F.step (CallKeepsClosure F.FnMut condition) condition answer.0
            (mutex_guard_value guard.new.inner)) }
        ensures lock { guard.new.held.0.place ≡ guard.old.held.0.place }
        ensures late { IfOk result (λ answer. answer.0 ≡ true → RanOut (C.waited_in_time self.now.raw)) }
        ensures refused { IfErr result
            (WasRefused (C.same_lot self.now.raw guard.old.held.0.place.now) (C.waited_in_time self.now.raw)) }
    {
        let mut ran_out = false;
        for _ in mutex_of(guard).raw().runtime().forever() {
            let waits = condition(&mut **guard);
            if ran_out || !waits {
                return Ok(WaitTimeoutResult(waits));
            }
            ran_out = self.wait_until(guard, deadline, clock, party)?.timed_out();
        }
        unreachable!()
    }

    /// As `wait_while_until`, with the moment that lies `timeout` ahead. Where that can't be said there is no limit.
    ///
    /// ```text
    /// let soon = Duration::from_secs(1);
    /// let late = changed.wait_while_for(&mut queue, soon, &rt, &mut me, |queue| queue.is_empty())?.timed_out();
    /// ```
    pub fn wait_while_for<'l, T, K: Clock, F: FnMut(&mut T) -> bool>(
        &self,
        guard: &mut MutexGuard<'l, C::RawMutex, T>,
        timeout: <C::RawMutex as RawMutexTimed>::Duration,
        clock: &K,
        party: &mut <C::RawMutex as RawMutex>::Party,
        condition: F,
    ) -> Result<WaitTimeoutResult, WaitFault>
    where
        <C::RawMutex as RawMutexTimed>::Instant: Copy,
        requires { F.IsAlwaysCallable condition }
        ensures value { IfOk result
            (λ answer. AnsweredAt F.step (CallKeepsClosure F.FnMut condition) condition answer.0
            (mutex_guard_value guard.new.inner)) }
        ensures lock { guard.new.held.0.place ≡ guard.old.held.0.place }
        ensures late { IfOk result (λ answer. answer.0 ≡ true → RanOut (C.waited_in_time self.now.raw)) }
        ensures refused { IfErr result
            (λ fault. WasRefused (C.same_lot self.now.raw guard.old.held.0.place.now) (C.waited self.now.raw) fault
            ⊎ WasRefused (C.same_lot self.now.raw guard.old.held.0.place.now) (C.waited_in_time self.now.raw) fault) }
    {
        match C::checked_duration_to_instant(clock, timeout) {
            Some(deadline) => self.wait_while_until(guard, deadline, clock, party, condition),
            None => match self.wait_while(guard, party, condition) {
                Ok(()) => Ok(WaitTimeoutResult(false)),
                Err(fault) => Err(fault),
            },
        }
    }
}

impl<C> Debug for Condvar<C> {
    ghost use Rattle.std.specs.Prelude.{Some, codes};

    ghost debug_output = { λ _. Some (codes "Condvar { .. }") };

    fn fmt<W: fmt::Write>(&self, f: &mut fmt::Formatter<W>) -> fmt::Result {
        f.write_str("Condvar { .. }")
    }
}
