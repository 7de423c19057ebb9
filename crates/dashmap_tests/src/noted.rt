//! Raw locks that note in the party of whoever takes one which lock was taken.
ghost use Rattle.std.specs.Prelude.{◌-◌, ◌^◌};

use lock_api_raw::{GuardSend, MakeLock, RawRwLock, TableFull};
use lock_api_spin::PackedLock;
use std::sync::Wait;
use std::sync::atomic::{AtomicU64, Ordering};

/// A lock with a number. Its party has the numbers of the locks that it took as digits, the last one last.
#[derive(Drop)]
pub struct NotedLock<R: Drop> {
    inner: PackedLock<R>,
    number: u64,
}

/// What makes such locks: each has the next number.
#[derive(Clone, Copy)]
pub struct Numbers<'n, R> {
    pub rt: R,
    pub next: &'n AtomicU64,
}

impl<R: Drop + Copy> MakeLock<Numbers<'_, R>> for NotedLock<R> {
    ghost limit = { λ lock. lock.inner.limit };

    ghost own_limit = { 2 ^ 60 - 1 };

    fn new(source: Numbers<'_, R>, readers: u64) -> Result<NotedLock<R>, TableFull> {
        Ok(NotedLock {
            inner: PackedLock::new(source.rt, readers)?,
            number: source.next.fetch_add(1, Ordering::SeqCst),
        })
    }
}

impl<R: Drop> RawRwLock for NotedLock<R> {
    type Runtime = R;

    type Party = u64;

    type SharedGuard = GuardSend;

    type ExclusiveGuard = GuardSend;

    ghost number = { λ lock. lock.inner.number };

    ghost shared_by = { λ token. token };

    ghost exclusive_by = { λ token. token };

    ghost runtime_of = { λ lock. lock.inner.rt };

    fn runtime(&self) -> &R {
        self.inner.runtime()
    }

    fn lock_shared(&self, party: &mut u64) -> GuardSend
    where
        R: Wait,
    {
        *party = party.wrapping_mul(10).wrapping_add(self.number);
        self.inner.lock_shared(&mut 0)
    }

    fn try_lock_shared(&self) -> Option<GuardSend> {
        self.inner.try_lock_shared()
    }

    fn unlock_shared(&self, guard: GuardSend)
    where
        R: Wait,
    {
        self.inner.unlock_shared(guard);
    }

    fn lock_exclusive(&self, party: &mut u64) -> GuardSend
    where
        R: Wait,
    {
        *party = party.wrapping_mul(10).wrapping_add(self.number);
        self.inner.lock_exclusive(&mut 0)
    }

    fn try_lock_exclusive(&self) -> Option<GuardSend> {
        self.inner.try_lock_exclusive()
    }

    fn unlock_exclusive(&self, guard: GuardSend)
    where
        R: Wait,
    {
        self.inner.unlock_exclusive(guard);
    }

    fn is_locked(&self) -> bool {
        self.inner.is_locked()
    }

    fn is_locked_exclusive(&self) -> bool {
        self.inner.is_locked_exclusive()
    }
}
