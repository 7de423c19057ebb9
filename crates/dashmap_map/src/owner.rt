//! Evidence of what the owner of a lock takes out of it and puts behind it, which only that taking and putting gives.
//!
//! A receipt's fields are private to this file. Nothing else is known of the members that say what it is worth.
ghost use Rattle.std.specs.Prelude.{◌≡◌, ⊤};

use lock_api_rw::RwLock;
use std::snapshot::Snapshot;

/// That the owner of a lock took a value out of it. It is there for proofs alone.
#[derive(Drop)]
pub struct TakenOut<R, T> {
    lock: Snapshot<RwLock<R, T>>,
    value: Snapshot<T>,
}

/// That a value was put behind a raw lock by its owner. It is there for proofs alone.
#[derive(Drop)]
pub struct PutBehind<R, T> {
    lock: Snapshot<RwLock<R, T>>,
    value: Snapshot<T>,
}

/// A raw lock that gives evidence of what its owner takes and puts of a `T`. Each type is one.
///
/// Where it is a parameter's bound, nothing is known of its members but what its calls ensure.
pub trait OwnerEvidence<T>: Sized {
    /// That the owner of the lock took the value out of it.
    ghost taken: { Self → T → Type 0 } = { λ _ _. ⊤ };

    /// That the owner of the raw lock put the value behind it.
    ghost put: { Self → T → Type 0 } = { λ _ _. ⊤ };

    /// Tells of a value that was taken out.
    fn tell_taken(seen: TakenOut<Self, T>)
        ensures { taken seen.lock.value seen.value.value };

    /// Tells of a value that was put behind a raw lock.
    fn tell_put(seen: PutBehind<Self, T>)
        ensures { put seen.lock.value seen.value.value };
}

impl<R, T> OwnerEvidence<T> for R {
    #[inline(always)]
    fn tell_taken(seen: TakenOut<R, T>)
        ensures { ⊤ }
    {
        drop(seen);
    }

    #[inline(always)]
    fn tell_put(seen: PutBehind<R, T>)
        ensures { ⊤ }
    {
        drop(seen);
    }
}

/// The raw lock and the value, with evidence that it was there. For the layer above.
#[inline(always)]
pub fn take_out<R: OwnerEvidence<T>, T>(lock: RwLock<R, T>) -> (R, T)
    ensures raw { result.0 ≡ lock }
    ensures taken { R.taken lock result.1 }
{
    let behind = Snapshot::of(&lock);
    let (raw, value) = lock.into_inner_with_raw();
    R::tell_taken(TakenOut {
        lock: behind,
        value: Snapshot::of(&value),
    });
    (raw, value)
}

/// Puts a value behind a raw lock, with evidence of that. Nothing is to be out of the lock. For the layer above.
#[inline(always)]
pub fn put_behind<R: OwnerEvidence<T>, T>(raw: R, value: T) -> RwLock<R, T>
    ensures lock { result ≡ raw }
    ensures put { R.put raw value }
{
    let left = Snapshot::of(&value);
    let lock = RwLock::from_raw(raw, value);
    R::tell_put(PutBehind {
        lock: Snapshot::of(&lock),
        value: left,
    });
    lock
}
