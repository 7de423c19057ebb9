//! Raw condition variables.
ghost use Rattle.std.specs.Prelude.{◌≡◌, ℕ, ⊤, Bool, Result};
ghost use Rattle.lock_api_raw.specs.Waits.{IsRefusedRightly};
ghost use Rattle.lock_api_raw.specs.declared.fault.WaitFault.{WaitFault};

use crate::fault::WaitFault;
use crate::mutex::{RawMutex, RawMutexTimed};
use std::rt::Clock;
use std::sync::Wait;

/// A condition variable of one kind of mutex.
///
/// ```text
/// let token = raw.lock(&mut me);
/// let (token, answer) = changed.wait(&raw, token, &mut me);
/// raw.unlock(token);   // also where the wait was refused
/// ```
pub trait RawCondvar {
    /// The mutex that it works with.
    type RawMutex: RawMutex;

    /// Whether the mutex belongs to the same lot as the condition variable.
    ghost same_lot: { Self → Self.RawMutex → Bool };

    /// That a wait with the first token gave the second, and this answer. Of a variable of any type a wait alone gives
    /// it.
    ghost waited: { Self → Self.RawMutex.Guard → Self.RawMutex.Guard → Result (Unit {0}) WaitFault → Type 0 } = { λ _ _ _ _. ⊤ };

    /// That a notification of one waiter answered so. Of a variable of any type such a call alone gives it.
    ghost notified_one: { Self → Bool → Type 0 } = { λ _ _. ⊤ };

    /// That a notification of all waiters answered so. Of a variable of any type such a call alone gives it.
    ghost notified_all: { Self → ℕ → Type 0 } = { λ _ _. ⊤ };

    /// Joins the queue, then unlocks the mutex, sleeps until it is notified and locks the mutex again. It spends the
    /// token of the hold and answers the one that is out afterwards.
    ///
    /// `WrongMutex` is answered where other threads wait with another mutex, and then `WrongLot` where the mutex is of
    /// another lot. Either comes before anything is done, and with the token that was handed in.
    ///
    /// Blocks until it is notified, and then until it has the mutex again. It may come back without a notification.
    ///
    /// ```text
    /// let (token, answer) = changed.wait(&raw, token, &mut me);
    /// raw.unlock(token);
    /// ```
    fn wait(
        &self,
        mutex: &Self::RawMutex,
        guard: <Self::RawMutex as RawMutex>::Guard,
        party: &mut <Self::RawMutex as RawMutex>::Party,
    ) -> (<Self::RawMutex as RawMutex>::Guard, Result<(), WaitFault>)
    where
        <Self::RawMutex as RawMutex>::Runtime: Wait,
        requires { Self.RawMutex.issued_by guard ≡ Self.RawMutex.number mutex.now }
        ensures token { Self.RawMutex.issued_by result.0 ≡ Self.RawMutex.number mutex.now }
        ensures refused { IsRefusedRightly (same_lot self.now mutex.now) guard result.0 result.1 }
        ensures answer { waited self.now guard result.0 result.1 };

    /// Takes the first waiter if there is one and the variable still shows the mutex that it looked at, and answers
    /// whether one was taken.
    ///
    /// ```text
    /// let one = changed.notify_one();
    /// raw.unlock(token);
    /// ```
    fn notify_one(&self) -> bool
    where
        <Self::RawMutex as RawMutex>::Runtime: Wait,
        ensures { notified_one self.now result };

    /// Takes all waiters and answers how many there were.
    ///
    /// ```text
    /// let taken = changed.notify_all();
    /// raw.unlock(token);
    /// ```
    fn notify_all(&self) -> usize
    where
        <Self::RawMutex as RawMutex>::Runtime: Wait,
        ensures { notified_all self.now result };
}

/// A condition variable whose wait can give up.
pub trait RawCondvarTimed: RawCondvar
where
    Self::RawMutex: RawMutexTimed,
{
    /// That a wait that could give up, with the first token, gave the second, and this answer. Of a variable of any
    /// type such a wait alone gives it.
    ghost waited_in_time: { Self → Self.RawMutex.Guard → Self.RawMutex.Guard → Result Bool WaitFault → Type 0 } = { λ _ _ _ _. ⊤ };

    /// As `wait`, until the moment at the latest. The answer is true exactly if the time ran out while the caller stood
    /// in this variable's own queue.
    ///
    /// ```text
    /// let (token, ran_out) = changed.wait_until(&raw, token, deadline, &rt, &mut me);
    /// raw.unlock(token);
    /// ```
    fn wait_until<C: Clock>(
        &self,
        mutex: &Self::RawMutex,
        guard: <Self::RawMutex as RawMutex>::Guard,
        deadline: <Self::RawMutex as RawMutexTimed>::Instant,
        clock: &C,
        party: &mut <Self::RawMutex as RawMutex>::Party,
    ) -> (<Self::RawMutex as RawMutex>::Guard, Result<bool, WaitFault>)
    where
        <Self::RawMutex as RawMutex>::Runtime: Wait,
        requires { Self.RawMutex.issued_by guard ≡ Self.RawMutex.number mutex.now }
        ensures token { Self.RawMutex.issued_by result.0 ≡ Self.RawMutex.number mutex.now }
        ensures refused { IsRefusedRightly (Self.same_lot self.now mutex.now) guard result.0 result.1 }
        ensures answer { waited_in_time self.now guard result.0 result.1 };

    /// As `wait_until`, with the moment that lies `timeout` ahead. Where that can't be said there is no limit.
    ///
    /// ```text
    /// let (token, ran_out) = changed.wait_for(&raw, token, Duration::from_secs(1), &rt, &mut me);
    /// raw.unlock(token);
    /// ```
    fn wait_for<C: Clock>(
        &self,
        mutex: &Self::RawMutex,
        guard: <Self::RawMutex as RawMutex>::Guard,
        timeout: <Self::RawMutex as RawMutexTimed>::Duration,
        clock: &C,
        party: &mut <Self::RawMutex as RawMutex>::Party,
    ) -> (<Self::RawMutex as RawMutex>::Guard, Result<bool, WaitFault>)
    where
        <Self::RawMutex as RawMutex>::Runtime: Wait,
        requires { Self.RawMutex.issued_by guard ≡ Self.RawMutex.number mutex.now }
        ensures token { Self.RawMutex.issued_by result.0 ≡ Self.RawMutex.number mutex.now }
        ensures refused { IsRefusedRightly (Self.same_lot self.now mutex.now) guard result.0 result.1 }
        ensures answer { waited_in_time self.now guard result.0 result.1 };

    /// The moment that lies `timeout` after the clock's now. None where it can't be said, or the clock can't be read.
    ///
    /// ```text
    /// match C::checked_duration_to_instant(clock, timeout) {
    ///     Some(deadline) => self.wait_until(raw, token, deadline, clock, party),
    ///     None => self.wait_without_limit(raw, token, party),
    /// }
    /// ```
    fn checked_duration_to_instant<C: Clock>(
        clock: &C,
        timeout: <Self::RawMutex as RawMutexTimed>::Duration,
    ) -> Option<<Self::RawMutex as RawMutexTimed>::Instant>;
}
