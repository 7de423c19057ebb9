//! A raw mutex of one atomic word.
ghost use Rattle.std.specs.Prelude.{IfSome, MatchOption};
ghost use Rattle.lock_api_spin.specs.Turns.{Made, Missed};
ghost use Rattle.lock_api_spin.specs.declared.turn.Turn.TheVariants.{TakeExclusive, GiveExclusive};

use crate::packed_lock::PackedLock;
use lock_api_raw::{
    GuardSend, MakeLock, RawMutex, RawMutexFair, RawMutexTimed, RawRwLock, RawRwLockTimed,
    TableFull,
};
use std::rt::Clock;
use std::sync::Wait;
use std::time::{Duration, Instant};

/// A raw mutex for tests: a [`PackedLock`] that is taken exclusively alone.
///
/// ```text
/// let raw = PackedMutex::new(rt, 1)?;
/// let token = raw.lock(&mut party);   // `party` is the number of whoever asks
/// raw.unlock(token);
/// ```
#[derive(Drop)]
pub struct PackedMutex<R: Drop> {
    lock: PackedLock<R>,
}

impl<R: Drop> MakeLock<R> for PackedMutex<R> {
    ghost limit = { λ _. 1 };

    ghost own_limit = { 1 };

    fn new(source: R, readers: u64) -> Result<PackedMutex<R>, TableFull> {
        Ok(PackedMutex {
            lock: PackedLock::new(source, readers)?,
        })
    }
}

impl<R: Drop> RawMutex for PackedMutex<R> {
    type Runtime = R;

    type Party = u32;

    type Guard = GuardSend;

    ghost number = { λ mutex. mutex.lock.number };

    ghost issued_by = { λ token. token };

    ghost runtime_of = { λ mutex. mutex.lock.rt };

    ghost locked = { λ _. Made TakeExclusive };

    ghost tried = { λ _ answer. MatchOption answer (Missed TakeExclusive) (λ _. Made TakeExclusive) };

    ghost unlocked = { λ _. Made GiveExclusive };

    fn runtime(&self) -> &R {
        self.lock.runtime()
    }

    fn lock(&self, party: &mut u32) -> GuardSend
    where
        R: Wait,
    {
        self.lock.lock_exclusive(party)
    }

    fn try_lock(&self) -> Option<GuardSend> {
        self.lock.try_lock_exclusive()
    }

    fn unlock(&self, guard: GuardSend)
    where
        R: Wait,
    {
        self.lock.unlock_exclusive(guard);
    }

    fn is_locked(&self) -> bool {
        self.lock.is_locked()
    }
}

impl<R: Drop> RawMutexFair for PackedMutex<R> {
    ghost spent_fairly = { λ _. Made GiveExclusive };

    fn unlock_fair(&self, guard: GuardSend)
    where
        R: Wait,
    {
        self.unlock(guard);
    }

    fn bump(&self, guard: GuardSend, _party: &mut u32) -> GuardSend
    where
        R: Wait,
    {
        guard
    }
}

impl<R: Drop> RawMutexTimed for PackedMutex<R> {
    type Duration = Duration;

    type Instant = Instant;

    ghost locked_in_time = { λ answer. IfSome answer (λ _. Made TakeExclusive) };

    fn try_lock_for<C: Clock>(
        &self,
        timeout: Duration,
        clock: &C,
        party: &mut u32,
    ) -> Option<GuardSend>
    where
        R: Wait,
    {
        self.lock.try_lock_exclusive_for(timeout, clock, party)
    }

    fn try_lock_until<C: Clock>(
        &self,
        deadline: Instant,
        clock: &C,
        party: &mut u32,
    ) -> Option<GuardSend>
    where
        R: Wait,
    {
        self.lock.try_lock_exclusive_until(deadline, clock, party)
    }
}
