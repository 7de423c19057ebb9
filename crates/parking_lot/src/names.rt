//! The generic locks of `lock_api` over the raw locks of `parking_lot_mutex` and `parking_lot_rwlock`, under their
//! usual names.
//!
//! Of each, `T` is the type of the value, `R` the lot's runtime and `A` the lot's allocator; a guard's first lifetime
//! is that of the lock, and the others are those of the lock table and of the lot.

use parking_lot_mutex::condvar::RawCondvar;
use parking_lot_mutex::{RawFairMutex, RawMutex, RawThreadId};
use parking_lot_rwlock::RawRwLock;
use std::alloc::Global;

/// A mutex and a value.
pub type Mutex<'t, 'l, T, R, A = Global> = lock_api::Mutex<RawMutex<'t, 'l, R, A>, T>;

/// The guard of a [`Mutex`].
pub type MutexGuard<'m, 't, 'l, T, R, A = Global> = lock_api::MutexGuard<
    'm,
    RawMutex<'t, 'l, R, A>,
    T,
>;

/// A [`MutexGuard`] that a projection of the type `P` narrows to a part of the value.
pub type MappedMutexGuard<'m, 't, 'l, T, P, R, A = Global> = lock_api::MappedMutexGuard<
    'm,
    RawMutex<'t, 'l, R, A>,
    T,
    P,
>;

/// A guard of a [`Mutex`] that owns a share of it.
pub type ArcMutexGuard<'t, 'l, T, R, A = Global> = lock_api::ArcMutexGuard<
    RawMutex<'t, 'l, R, A>,
    T,
    A,
>;

/// A mutex that is handed over at each release to the first that waits, and a value.
pub type FairMutex<'t, 'l, T, R, A = Global> = lock_api::Mutex<RawFairMutex<'t, 'l, R, A>, T>;

/// The guard of a [`FairMutex`].
pub type FairMutexGuard<'m, 't, 'l, T, R, A = Global> = lock_api::MutexGuard<
    'm,
    RawFairMutex<'t, 'l, R, A>,
    T,
>;

/// A [`FairMutexGuard`] that a projection of the type `P` narrows to a part of the value.
pub type MappedFairMutexGuard<'m, 't, 'l, T, P, R, A = Global> = lock_api::MappedMutexGuard<
    'm,
    RawFairMutex<'t, 'l, R, A>,
    T,
    P,
>;

/// A guard of a [`FairMutex`] that owns a share of it.
pub type ArcFairMutexGuard<'t, 'l, T, R, A = Global> = lock_api::ArcMutexGuard<
    RawFairMutex<'t, 'l, R, A>,
    T,
    A,
>;

/// A reader-writer lock and a value.
pub type RwLock<'t, 'l, T, R, A = Global> = lock_api::RwLock<RawRwLock<'t, 'l, R, 0, A>, T>;

/// The guard of a reader of an [`RwLock`].
pub type RwLockReadGuard<'m, 't, 'l, T, R, A = Global> = lock_api::RwLockReadGuard<
    'm,
    RawRwLock<'t, 'l, R, 0, A>,
    T,
>;

/// The guard of a writer of an [`RwLock`].
pub type RwLockWriteGuard<'m, 't, 'l, T, R, A = Global> = lock_api::RwLockWriteGuard<
    'm,
    RawRwLock<'t, 'l, R, 0, A>,
    T,
>;

/// The upgradable guard of an [`RwLock`]: it reads beside readers, and may be upgraded to write.
pub type RwLockUpgradableReadGuard<'m, 't, 'l, T, R, A = Global> =
    lock_api::RwLockUpgradableReadGuard<'m, RawRwLock<'t, 'l, R, 0, A>, T>;

/// An [`RwLockReadGuard`] that a projection of the type `P` narrows to a part of the value.
pub type MappedRwLockReadGuard<'m, 't, 'l, T, P, R, A = Global> = lock_api::MappedRwLockReadGuard<
    'm,
    RawRwLock<'t, 'l, R, 0, A>,
    T,
    P,
>;

/// An [`RwLockWriteGuard`] that a projection of the type `P` narrows to a part of the value.
pub type MappedRwLockWriteGuard<'m, 't, 'l, T, P, R, A = Global> = lock_api::MappedRwLockWriteGuard<
    'm,
    RawRwLock<'t, 'l, R, 0, A>,
    T,
    P,
>;

/// A reader's guard of an [`RwLock`] that owns a share of it.
pub type ArcRwLockReadGuard<'t, 'l, T, R, A = Global> = lock_api::ArcRwLockReadGuard<
    RawRwLock<'t, 'l, R, 0, A>,
    T,
    A,
>;

/// A writer's guard of an [`RwLock`] that owns a share of it.
pub type ArcRwLockWriteGuard<'t, 'l, T, R, A = Global> = lock_api::ArcRwLockWriteGuard<
    RawRwLock<'t, 'l, R, 0, A>,
    T,
    A,
>;

/// An upgradable guard of an [`RwLock`] that owns a share of it.
pub type ArcRwLockUpgradableReadGuard<'t, 'l, T, R, A = Global> =
    lock_api::ArcRwLockUpgradableReadGuard<RawRwLock<'t, 'l, R, 0, A>, T, A>;

/// The raw lock of a [`RecursiveRwLock`].
pub type RawRwLockRecursive<'t, 'l, R, A = Global> = RawRwLock<'t, 'l, R, 1, A>;

/// A reader-writer lock whose readers may read again past a writer that waits, and a value.
pub type RecursiveRwLock<'t, 'l, T, R, A = Global> = lock_api::RwLock<
    RawRwLockRecursive<'t, 'l, R, A>,
    T,
>;

/// The guard of a reader of a [`RecursiveRwLock`].
pub type RecursiveRwLockReadGuard<'m, 't, 'l, T, R, A = Global> = lock_api::RwLockReadGuard<
    'm,
    RawRwLockRecursive<'t, 'l, R, A>,
    T,
>;

/// The guard of a writer of a [`RecursiveRwLock`].
pub type RecursiveRwLockWriteGuard<'m, 't, 'l, T, R, A = Global> = lock_api::RwLockWriteGuard<
    'm,
    RawRwLockRecursive<'t, 'l, R, A>,
    T,
>;

/// The upgradable guard of a [`RecursiveRwLock`].
pub type RecursiveRwLockUpgradableReadGuard<'m, 't, 'l, T, R, A = Global> =
    lock_api::RwLockUpgradableReadGuard<'m, RawRwLockRecursive<'t, 'l, R, A>, T>;

/// A [`RecursiveRwLockReadGuard`] that a projection of the type `P` narrows to a part of the value.
pub type MappedRecursiveRwLockReadGuard<'m, 't, 'l, T, P, R, A = Global> =
    lock_api::MappedRwLockReadGuard<'m, RawRwLockRecursive<'t, 'l, R, A>, T, P>;

/// A [`RecursiveRwLockWriteGuard`] that a projection of the type `P` narrows to a part of the value.
pub type MappedRecursiveRwLockWriteGuard<'m, 't, 'l, T, P, R, A = Global> =
    lock_api::MappedRwLockWriteGuard<'m, RawRwLockRecursive<'t, 'l, R, A>, T, P>;

/// A mutex that its owner may take again, and a value that its guards read.
pub type ReentrantMutex<'t, 'l, T, R, A = Global> = lock_api::ReentrantMutex<
    RawMutex<'t, 'l, R, A>,
    RawThreadId<A>,
    T,
>;

/// The guard of one nested hold of a [`ReentrantMutex`].
pub type ReentrantMutexGuard<'m, 't, 'l, T, R, A = Global> = lock_api::ReentrantMutexGuard<
    'm,
    RawMutex<'t, 'l, R, A>,
    RawThreadId<A>,
    T,
>;

/// A [`ReentrantMutexGuard`] that a projection of the type `P` narrows to a part of the value.
pub type MappedReentrantMutexGuard<'m, 't, 'l, T, P, R, A = Global> =
    lock_api::MappedReentrantMutexGuard<'m, RawMutex<'t, 'l, R, A>, RawThreadId<A>, T, P>;

/// A guard of one nested hold that owns a share of its [`ReentrantMutex`].
pub type ArcReentrantMutexGuard<'t, 'l, T, R, A = Global> = lock_api::ArcReentrantMutexGuard<
    RawMutex<'t, 'l, R, A>,
    RawThreadId<A>,
    T,
    A,
>;

/// A condition variable, for guards of a [`Mutex`].
pub type Condvar<'t, 'l, R, A = Global> = lock_api::Condvar<RawCondvar<'t, 'l, R, A>>;
