//! Holds of which there is evidence.
ghost use Rattle.std.specs.Prelude.{◌≡◌, IfNone, IfSome, MatchOption};
ghost use Rattle.std.specs.Borrow.{Lends, sem};
ghost use Rattle.std.specs.Sync.RwLock.{read_guard_value, write_guard_value};
ghost use Rattle.lock_api_rw.specs.contracts.traced.Traced.{the_row};
ghost use Rattle.lock_api_rw.specs.Holds.{TriedWithValue};

use crate::evidence::{Ended, Evidence, Found, FoundAtOnce, Refused};
use crate::mode::Exclusive;
use crate::raw_hold::RawHold;
use crate::rwlock::{RwLock, RwLockReadGuard, RwLockWriteGuard};
use lock_api_guards::{Guard, Held, Hold, Lender, LenderMut};
use std::marker::PhantomData;
use std::ops::{Deref, DerefMut};
use std::snapshot::Snapshot;
use std::sync;
use std::sync::Wait;

/// A guard that keeps, for proofs alone, what it found and the party before and after the wait for it. For the layer
/// above.
///
/// It ends by `give_back`, which tells what it found and what it left. Its drop tells nothing.
///
/// ```text
/// let mut shard = write_traced(lock, party);
/// let old = shard.insert(hash, key, value);
/// shard.give_back();   // and now there is evidence of what was found and left
/// ```
pub struct Traced<W: Lender + Drop, H: Hold>
where
    H::Runtime: Wait,
{
    pub(crate) inner: W,
    pub(crate) held: Held<H, W>,
    pub(crate) before: Snapshot<W::Part>,
    pub(crate) from: Snapshot<H::Party>,
    pub(crate) to: Snapshot<H::Party>,
}

/// An exclusive guard of which there will be evidence.
pub type TracedWriteGuard<'l, R, T> = Traced<
    sync::RwLockWriteGuard<'l, T>,
    RawHold<&'l RwLock<R, T>, Exclusive>,
>;

impl<W: Lender + Drop, H: Hold> Drop for Traced<W, H>
where
    H::Runtime: Wait,
{
    #[inline(always)]
    fn drop(self) {
        let Traced {
            inner,
            held,
            before: _,
            from: _,
            to: _,
        } = self;
        drop(Guard { inner, held });
    }
}

impl<W: Lender + Drop, H: Hold> Deref for Traced<W, H>
where
    H::Runtime: Wait,
{
    type Target = W::Part;

    ghost deref_gives = { λ traced x. x ≡ W.part traced.inner };

    #[inline(always)]
    fn deref(&self) -> &W::Part {
        self.inner.look()
    }
}

impl<W: LenderMut + Drop, H: Hold> DerefMut for Traced<W, H>
where
    H::Runtime: Wait,
{
    ghost deref_mut_gives = { λ traced x. x ≡ W.part traced.inner };

    #[inline(always)]
    fn deref_mut(&mut self) -> &mut W::Part
        ensures* writes_back { sem 𝓛 (Lends (the_row W.row H.row W.Part.row H.Lock.row H.Runtime.row H.Party.row H.Apart.row) W.Part.row
            self.entry result (λ part. record self.old { inner = W.with_part self.old.inner part })) }
        ensures value { result.now ≡ W.part self.old.inner }
    {
        let inner = &mut self.inner;
        inner.lend()
    }
}

impl<'l, R: Evidence<T>, T> TracedWriteGuard<'l, R, T>
where
    R::Runtime: Wait,
{
    /// Ends the hold, and gives evidence of what it found and what it left.
    #[inline(always)]
    pub fn give_back(self)
        ensures { R.held self.entry.held.0.place.now self.entry.from.value self.entry.to.value self.entry.before.value
            (write_guard_value self.entry.inner) }
    {
        let Traced {
            inner,
            held,
            before,
            from,
            to,
        } = self;
        let after = Snapshot::of(inner.look());
        let guard = Guard { inner, held };
        let lock = Snapshot::of(Guard::source(&guard));
        drop(guard);
        R::tell_held(Ended {
            lock,
            from,
            to,
            before,
            after,
        });
    }
}

/// As `RwLock::write`, by a guard of whose end there will be evidence.
#[inline(always)]
pub fn write_traced<'l, R: Evidence<T>, T>(
    lock: &'l RwLock<R, T>,
    party: &mut R::Party,
) -> TracedWriteGuard<'l, R, T>
where
    R::Runtime: Wait,
    ensures lock { result.held.0.place.now ≡ lock.now }
    ensures call { R.exclusive_locked result.held.0.token }
    ensures before { result.before.value ≡ write_guard_value result.inner }
    ensures wait { (result.from.value ≡ party.old) × (result.to.value ≡ party.new) }
{
    let from = Snapshot::of(&*party);
    let (inner, held) = Guard::into_parts(lock.write(party));
    let to = Snapshot::of(&*party);
    let before = Snapshot::of(inner.look());
    Traced {
        inner,
        held,
        before,
        from,
        to,
    }
}

/// As `RwLock::write`, with evidence of what the hold found.
#[inline(always)]
pub fn write_found<'l, R: Evidence<T>, T>(
    lock: &'l RwLock<R, T>,
    party: &mut R::Party,
) -> RwLockWriteGuard<'l, R, T>
where
    R::Runtime: Wait,
    ensures lock { result.held.0.place.now ≡ lock.now }
    ensures call { R.exclusive_locked result.held.0.token }
    ensures found { R.found lock.now party.old party.new (write_guard_value result.inner) }
{
    let from = Snapshot::of(&*party);
    let guard = lock.write(party);
    R::tell_found(Found {
        lock: Snapshot::of(lock),
        from,
        to: Snapshot::of(&*party),
        value: Snapshot::of(guard.look()),
        mode: PhantomData,
    });
    guard
}

/// As `RwLock::read`, with evidence of what the hold shows.
#[inline(always)]
pub fn read_shown<'l, R: Evidence<T>, T>(
    lock: &'l RwLock<R, T>,
    party: &mut R::Party,
) -> RwLockReadGuard<'l, R, T>
where
    R::Runtime: Wait,
    ensures lock { result.held.0.place.now ≡ lock.now }
    ensures call { R.shared_locked result.held.0.token }
    ensures showed { R.showed lock.now party.old party.new (read_guard_value result.inner) }
{
    let from = Snapshot::of(&*party);
    let guard = lock.read(party);
    R::tell_showed(Found {
        lock: Snapshot::of(lock),
        from,
        to: Snapshot::of(&*party),
        value: Snapshot::of(guard.look()),
        mode: PhantomData,
    });
    guard
}

/// As `RwLock::try_write`, with evidence of what the hold found, or of the refusal.
#[inline(always)]
pub fn try_write_found<R: Evidence<T>, T>(lock: &RwLock<R, T>) -> Option<RwLockWriteGuard<'_, R, T>>
where
    R::Runtime: Wait,
    ensures lock { IfSome result (λ guard. guard.held.0.place.now ≡ lock.now) }
    ensures call { TriedWithValue lock.now (R.exclusive_tried lock.now) result (λ guard. guard.held.0.token) }
    ensures told { MatchOption result (R.refused_exclusive lock.now)
        (λ guard. R.found_at_once lock.now (write_guard_value guard.inner)) }
{
    match lock.try_write() {
        Some(guard) => {
            R::tell_found_at_once(FoundAtOnce {
                lock: Snapshot::of(lock),
                value: Snapshot::of(guard.look()),
                mode: PhantomData,
            });
            Some(guard)
        }
        None => {
            R::tell_refused_exclusive(Refused {
                lock: Snapshot::of(lock),
                mode: PhantomData,
            });
            None
        }
    }
}

/// As `RwLock::try_read`, with evidence of what the hold shows, or of the refusal.
#[inline(always)]
pub fn try_read_shown<R: Evidence<T>, T>(lock: &RwLock<R, T>) -> Option<RwLockReadGuard<'_, R, T>>
where
    R::Runtime: Wait,
    ensures lock { IfSome result (λ guard. guard.held.0.place.now ≡ lock.now) }
    ensures call { TriedWithValue lock.now (R.shared_tried lock.now) result (λ guard. guard.held.0.token) }
    ensures told { MatchOption result (R.refused_shared lock.now)
        (λ guard. R.showed_at_once lock.now (read_guard_value guard.inner)) }
{
    match lock.try_read() {
        Some(guard) => {
            R::tell_showed_at_once(FoundAtOnce {
                lock: Snapshot::of(lock),
                value: Snapshot::of(guard.look()),
                mode: PhantomData,
            });
            Some(guard)
        }
        None => {
            R::tell_refused_shared(Refused {
                lock: Snapshot::of(lock),
                mode: PhantomData,
            });
            None
        }
    }
}
