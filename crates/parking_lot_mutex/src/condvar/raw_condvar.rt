//! The raw condition variable.
ghost use Rattle.std.specs.Prelude.{◌≡◌, ◌+◌, ◌*◌, ◌%◌, ◌^◌, ◌==◌, Bool, true, false};
ghost use Rattle.parking_lot_mutex.specs.Condvar.Calls.{answer_of, IsOfLotWhere, Notified, NotifiedOne, Waited};
ghost use Rattle.parking_lot_mutex.specs.Condvar.Calls.{WaitedInTime, WaitRan};
ghost use Rattle.parking_lot_protocol_waits.specs.declared.wait_core.WaitPhase.TheVariants.{Stranger};

use crate::condvar::clock::StillClock;
use crate::raw_mutex::announce;
use crate::stuck::stuck;
use crate::token::MutexToken;
use crate::{LockTable, RawMutex, Row, to_deadline};
use lock_api_raw::{MakeCondvar, RawCondvarTimed, TableFull, WaitFault};
use lock_word::Owner;
use parking_lot_core::ThreadData;
use parking_lot_protocol_waits::WaitAnswer;
use std::alloc::{Allocator, Global};
use std::sync;
use std::sync::Wait;
use std::time::{Clock, Duration, Instant};

/// A condition variable on one row of a lock table, for mutexes of the table's lot.
///
/// Its word is 0 where nobody waits, and else shows the mutex that all wait with: the first key of the mutex's row and
/// 1 more.
#[derive(Drop)]
pub struct RawCondvar<'t, 'l, R, A: Allocator = Global> {
    row: Row<'t, 'l, R, A>,
    /// The row of the mutex that is shown. It is read and written in the section of this row's first key alone.
    shown: sync::Mutex<Option<Row<'t, 'l, R, A>>>,
}

impl<'t, 'l, R, A: Allocator> RawCondvar<'t, 'l, R, A> {
    /// Its row.
    pub(crate) fn row(&self) -> &Row<'t, 'l, R, A>
        ensures { result.now ≡ self.now.row }
    {
        &self.row
    }

    /// The lot's runtime.
    pub(crate) fn runtime(&self) -> &R {
        self.row.lot().runtime()
    }

    /// Whether the mutex is of the same lot.
    fn is_of_lot(&self, mutex: &RawMutex<'t, 'l, R, A>) -> bool
        ensures { result ≡ (self.now.row.table.now.lot.now.number == mutex.now.row.table.now.lot.now.number) }
    {
        self.row.lot().number() == mutex.row().lot().number()
    }
}

impl<'t, 'l, R: Wait, A: Allocator> RawCondvar<'t, 'l, R, A> {
    /// Shows the mutex that all wait with.
    pub(crate) fn show(&self, mutex: &RawMutex<'t, 'l, R, A>) {
        *self.shown.lock(self.runtime()) = Some(mutex.row().again());
        self.row
            .store((mutex.row().first_key() as u64).wrapping_add(1));
    }

    /// Shows no mutex.
    pub(crate) fn forget(&self) {
        *self.shown.lock(self.runtime()) = None;
        self.row.store(0);
    }

    /// Sets the parked bit of the mutex that is shown, if it is locked, and answers whether it is.
    pub(crate) fn mark_if_locked(&self) -> bool {
        match &*self.shown.lock(self.runtime()) {
            Some(row) => announce(row, false),
            None => false,
        }
    }

    /// Sets the parked bit of the mutex that is shown.
    pub(crate) fn mark(&self) {
        if let Some(row) = &*self.shown.lock(self.runtime()) {
            announce(row, true);
        }
    }

    /// Waits with a mutex as long as it takes, if that is of this lot.
    fn untimed(
        &self,
        mutex: &RawMutex<'t, 'l, R, A>,
        owner: Owner,
        party: &mut ThreadData<A>,
    ) -> (Owner, Result<(), WaitFault>)
        requires owner { owner ≡ mutex.now.row.mutex.now.word }
        ensures owner { result.0 ≡ mutex.now.row.mutex.now.word }
        ensures ran { Waited ((mutex.now.row.table.now.first_key + 2 * mutex.now.row.number) % 2 ^ 64) result.1 }
        ensures lot { IsOfLotWhere (self.now.row.table.now.lot.now.number == mutex.now.row.table.now.lot.now.number)
            result.1 }
    {
        if !self.is_of_lot(mutex) {
            return (owner, Err(self.refusal()));
        }
        let (owner, ended) = self.wait_by(mutex, owner, party, None::<(Instant, &StillClock)>);
        let answer = match ended {
            WaitAnswer::Woken => Ok(()),
            WaitAnswer::WrongMutex => Err(WaitFault::WrongMutex),
            WaitAnswer::TimedOut | WaitAnswer::WrongLot => match stuck(self.runtime()) {},
        };
        (owner, answer)
    }

    /// Waits with a mutex up to the moment, if that is of this lot, and answers whether it timed out.
    fn in_time<C: Clock>(
        &self,
        mutex: &RawMutex<'t, 'l, R, A>,
        owner: Owner,
        until: (Instant, &C),
        party: &mut ThreadData<A>,
    ) -> (Owner, Result<bool, WaitFault>)
        requires owner { owner ≡ mutex.now.row.mutex.now.word }
        ensures owner { result.0 ≡ mutex.now.row.mutex.now.word }
        ensures ran { WaitedInTime ((mutex.now.row.table.now.first_key + 2 * mutex.now.row.number) % 2 ^ 64) result.1 }
        ensures lot { IsOfLotWhere (self.now.row.table.now.lot.now.number == mutex.now.row.table.now.lot.now.number)
            result.1 }
    {
        if !self.is_of_lot(mutex) {
            return (owner, Err(self.refusal()));
        }
        let (owner, ended) = self.wait_by(mutex, owner, party, Some(until));
        let answer = match ended {
            WaitAnswer::Woken => Ok(false),
            WaitAnswer::TimedOut => Ok(true),
            WaitAnswer::WrongMutex => Err(WaitFault::WrongMutex),
            WaitAnswer::WrongLot => match stuck(self.runtime()) {},
        };
        (owner, answer)
    }

    /// Why a wait with a mutex of another lot is refused.
    fn refusal(&self) -> WaitFault
        ensures { WaitRan Stranger (answer_of result) }
    {
        match self.refuse() {
            WaitAnswer::WrongMutex => WaitFault::WrongMutex,
            WaitAnswer::WrongLot => WaitFault::WrongLot,
            WaitAnswer::Woken | WaitAnswer::TimedOut => match stuck(self.runtime()) {},
        }
    }
}

impl<'t, 'l, R, A: Allocator> MakeCondvar<&'t LockTable<'l, R, A>> for RawCondvar<'t, 'l, R, A> {
    fn new(source: &'t LockTable<'l, R, A>) -> Result<RawCondvar<'t, 'l, R, A>, TableFull> {
        Ok(RawCondvar {
            row: source.claim()?,
            shown: sync::Mutex::new(None),
        })
    }
}

impl<'t, 'l, R, A: Allocator> lock_api_raw::RawCondvar for RawCondvar<'t, 'l, R, A> {
    type RawMutex = RawMutex<'t, 'l, R, A>;

    ghost same_lot = { λ condvar mutex. condvar.row.table.now.lot.now.number == mutex.row.table.now.lot.now.number };

    ghost waited = { λ _ before _ answer. Waited (before.1 % 2 ^ 64) answer };

    ghost notified_one = { λ _ taken. NotifiedOne taken };

    ghost notified_all = { λ _ count. Notified true count };

    fn wait(
        &self,
        mutex: &RawMutex<'t, 'l, R, A>,
        guard: MutexToken,
        party: &mut ThreadData<A>,
    ) -> (MutexToken, Result<(), WaitFault>)
    where
        R: Wait,
    {
        let (owner, key) = mutex.parts(guard);
        let (owner, answer) = self.untimed(mutex, owner, party);
        (MutexToken::of(owner, key), answer)
    }

    fn notify_one(&self) -> bool
    where
        R: Wait,
    {
        self.notify(false) > 0
    }

    fn notify_all(&self) -> usize
    where
        R: Wait,
    {
        self.notify(true)
    }
}

impl<'t, 'l, R, A: Allocator> RawCondvarTimed for RawCondvar<'t, 'l, R, A> {
    ghost waited_in_time = { λ _ before _ answer. WaitedInTime (before.1 % 2 ^ 64) answer };

    fn wait_until<C: Clock>(
        &self,
        mutex: &RawMutex<'t, 'l, R, A>,
        guard: MutexToken,
        deadline: Instant,
        clock: &C,
        party: &mut ThreadData<A>,
    ) -> (MutexToken, Result<bool, WaitFault>)
    where
        R: Wait,
    {
        let (owner, key) = mutex.parts(guard);
        let (owner, answer) = self.in_time(mutex, owner, (deadline, clock), party);
        (MutexToken::of(owner, key), answer)
    }

    fn wait_for<C: Clock>(
        &self,
        mutex: &RawMutex<'t, 'l, R, A>,
        guard: MutexToken,
        timeout: Duration,
        clock: &C,
        party: &mut ThreadData<A>,
    ) -> (MutexToken, Result<bool, WaitFault>)
    where
        R: Wait,
    {
        let (owner, key) = mutex.parts(guard);
        let (owner, answer) = match to_deadline(clock, timeout) {
            Some(deadline) => self.in_time(mutex, owner, (deadline, clock), party),
            None => {
                let (owner, answer) = self.untimed(mutex, owner, party);
                (owner, answer.map(|()| false))
            }
        };
        (MutexToken::of(owner, key), answer)
    }

    fn checked_duration_to_instant<C: Clock>(clock: &C, timeout: Duration) -> Option<Instant> {
        to_deadline(clock, timeout)
    }
}
