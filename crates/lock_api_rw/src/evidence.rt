//! Evidence of holds: what a hold of a lock saw and left, which nobody but that hold can give.
//!
//! A receipt's fields are private, so this crate alone makes one, where a hold was had. Raw locks of any type say what
//! a receipt is worth by members of which nothing else is known.
ghost use Rattle.std.specs.Prelude.{⊤};

use crate::mode::{Exclusive, Shared};
use crate::rwlock::RwLock;
use lock_api_raw::RawRwLock;
use std::marker::PhantomData;
use std::snapshot::Snapshot;

/// That a wait for a hold of the mode `M` found a value. It is there for proofs alone.
#[derive(Drop)]
pub struct Found<M, R, P, T> {
    pub(crate) lock: Snapshot<RwLock<R, T>>,
    pub(crate) from: Snapshot<P>,
    pub(crate) to: Snapshot<P>,
    pub(crate) value: Snapshot<T>,
    pub(crate) mode: PhantomData<M>,
}

/// That a try for a hold of the mode `M` found a value. It is there for proofs alone.
#[derive(Drop)]
pub struct FoundAtOnce<M, R, T> {
    pub(crate) lock: Snapshot<RwLock<R, T>>,
    pub(crate) value: Snapshot<T>,
    pub(crate) mode: PhantomData<M>,
}

/// That a try for a hold of the mode `M` was refused. It is there for proofs alone.
#[derive(Drop)]
pub struct Refused<M, R, T> {
    pub(crate) lock: Snapshot<RwLock<R, T>>,
    pub(crate) mode: PhantomData<M>,
}

/// That an exclusive hold which a wait gave has ended: what it found and what it left. It is there for proofs alone.
#[derive(Drop)]
pub struct Ended<R, P, T> {
    pub(crate) lock: Snapshot<RwLock<R, T>>,
    pub(crate) from: Snapshot<P>,
    pub(crate) to: Snapshot<P>,
    pub(crate) before: Snapshot<T>,
    pub(crate) after: Snapshot<T>,
}

/// That a wait for a hold of the mode `M` was given up. It is there for proofs alone.
#[derive(Drop)]
pub struct GaveUp<M, R, P, T> {
    pub(crate) lock: Snapshot<RwLock<R, T>>,
    pub(crate) from: Snapshot<P>,
    pub(crate) to: Snapshot<P>,
    pub(crate) mode: PhantomData<M>,
}

/// A raw lock that gives evidence of the holds of a lock round a `T`. Each raw lock of readers and writers is one.
///
/// Where it is a parameter's bound, nothing is known of its members but what its calls ensure, and their receipts come
/// from holds alone.
///
/// ```text
/// R::tell_found(Found { lock, from, to, value, mode: PhantomData });   // snapshots, made under the hold
/// ```
pub trait Evidence<T>: RawRwLock {
    /// That an exclusive hold of the lock was had by the wait that took the party from one to the other, and that it
    /// found the first value and left the second.
    ghost held: { Self → Self.Party → Self.Party → T → T → Type 0 } = { λ _ _ _ _ _. ⊤ };

    /// That an exclusive hold of the lock was had by that wait, and found the value.
    ghost found: { Self → Self.Party → Self.Party → T → Type 0 } = { λ _ _ _ _. ⊤ };

    /// That a shared hold of the lock was had by that wait, and showed the value.
    ghost showed: { Self → Self.Party → Self.Party → T → Type 0 } = { λ _ _ _ _. ⊤ };

    /// That an exclusive hold of the lock was had at once, and found the value.
    ghost found_at_once: { Self → T → Type 0 } = { λ _ _. ⊤ };

    /// That a shared hold of the lock was had at once, and showed the value.
    ghost showed_at_once: { Self → T → Type 0 } = { λ _ _. ⊤ };

    /// That a try for an exclusive hold of the lock was refused.
    ghost refused_exclusive: { Self → Type 0 } = { λ _. ⊤ };

    /// That a try for a shared hold of the lock was refused.
    ghost refused_shared: { Self → Type 0 } = { λ _. ⊤ };

    /// That a wait for an exclusive hold of the lock, which took the party from one to the other, was given up.
    ghost gave_up_exclusive: { Self → Self.Party → Self.Party → Type 0 } = { λ _ _ _. ⊤ };

    /// That a wait for a shared hold of the lock, which took the party from one to the other, was given up.
    ghost gave_up_shared: { Self → Self.Party → Self.Party → Type 0 } = { λ _ _ _. ⊤ };

    /// Tells of an exclusive hold that has ended.
    fn tell_held(ended: Ended<Self, Self::Party, T>)
        ensures { held ended.lock.value ended.from.value ended.to.value ended.before.value ended.after.value };

    /// Tells what a wait for an exclusive hold found.
    fn tell_found(seen: Found<Exclusive, Self, Self::Party, T>)
        ensures { found seen.lock.value seen.from.value seen.to.value seen.value.value };

    /// Tells what a wait for a shared hold found.
    fn tell_showed(shown: Found<Shared, Self, Self::Party, T>)
        ensures { showed shown.lock.value shown.from.value shown.to.value shown.value.value };

    /// Tells what a try for an exclusive hold found.
    fn tell_found_at_once(shown: FoundAtOnce<Exclusive, Self, T>)
        ensures { found_at_once shown.lock.value shown.value.value };

    /// Tells what a try for a shared hold found.
    fn tell_showed_at_once(shown: FoundAtOnce<Shared, Self, T>)
        ensures { showed_at_once shown.lock.value shown.value.value };

    /// Tells that a try for an exclusive hold was refused.
    fn tell_refused_exclusive(refused: Refused<Exclusive, Self, T>)
        ensures { refused_exclusive refused.lock.value };

    /// Tells that a try for a shared hold was refused.
    fn tell_refused_shared(refused: Refused<Shared, Self, T>)
        ensures { refused_shared refused.lock.value };

    /// Tells that a wait for an exclusive hold was given up.
    fn tell_gave_up_exclusive(late: GaveUp<Exclusive, Self, Self::Party, T>)
        ensures { gave_up_exclusive late.lock.value late.from.value late.to.value };

    /// Tells that a wait for a shared hold was given up.
    fn tell_gave_up_shared(late: GaveUp<Shared, Self, Self::Party, T>)
        ensures { gave_up_shared late.lock.value late.from.value late.to.value };
}

impl<R: RawRwLock, T> Evidence<T> for R {
    #[inline(always)]
    fn tell_held(ended: Ended<R, R::Party, T>)
        ensures { ⊤ }
    {
        drop(ended);
    }

    #[inline(always)]
    fn tell_found(seen: Found<Exclusive, R, R::Party, T>)
        ensures { ⊤ }
    {
        drop(seen);
    }

    #[inline(always)]
    fn tell_showed(shown: Found<Shared, R, R::Party, T>)
        ensures { ⊤ }
    {
        drop(shown);
    }

    #[inline(always)]
    fn tell_found_at_once(shown: FoundAtOnce<Exclusive, R, T>)
        ensures { ⊤ }
    {
        drop(shown);
    }

    #[inline(always)]
    fn tell_showed_at_once(shown: FoundAtOnce<Shared, R, T>)
        ensures { ⊤ }
    {
        drop(shown);
    }

    #[inline(always)]
    fn tell_refused_exclusive(refused: Refused<Exclusive, R, T>)
        ensures { ⊤ }
    {
        drop(refused);
    }

    #[inline(always)]
    fn tell_refused_shared(refused: Refused<Shared, R, T>)
        ensures { ⊤ }
    {
        drop(refused);
    }

    #[inline(always)]
    fn tell_gave_up_exclusive(late: GaveUp<Exclusive, R, R::Party, T>)
        ensures { ⊤ }
    {
        drop(late);
    }

    #[inline(always)]
    fn tell_gave_up_shared(late: GaveUp<Shared, R, R::Party, T>)
        ensures { ⊤ }
    {
        drop(late);
    }
}
