//! The generic locks over any raw lock: the mutex, the reentrant mutex, the condition variable and, from the crates
//! below, the reader-writer lock, guards, the raw traits and the exact model of guards. This is the one crate to name.
//!
//! The value of a mutex lies in a std lock, and the raw mutex decides who may come in. The std lock is taken after the
//! raw mutex admits and given back before its release, and a try takes the std lock by its own try first. **A held
//! guard lends its value**: what it lends is the guarded value, and what is written through it is what is read next.
//!
//! The calls of guards are associated functions, as guards dereference to their value: `MutexGuard::map(guard, First)`.
//! Calls that wait take the party again. Only the Arc forms may be refused for memory.
//!
//! ```text
//! let mutex = Mutex::<R, u64>::new(source, 5)?;
//! *mutex.lock(&mut party) = 6;
//! ```
#![tactic(auto)]

mod arc_fault;
mod arc_mutex;
mod arc_reentrant;
mod condvar;
mod mutex;
mod parted;
mod raw_reentrant;
mod reentrant;
mod timed_out;

pub use arc_fault::ReentrantArcFault;
pub use arc_mutex::ArcMutexGuard;
pub use arc_reentrant::{ArcReentrantMutexGuard, OwnedReentrant};
pub use condvar::Condvar;
pub use lock_api_desk::{
    Desk, DeskCall, DeskFault, DeskRunFault, Mode, PackedWord, RawState, TokenTable,
};
pub use lock_api_guards::{ArcGuard, At, First, Guard, Inside, Mapped, Second};
pub use lock_api_raw::{
    GetThreadId, GuardNoSend, GuardSend, MakeCondvar, MakeLock, NoMemory, Projection, RawCondvar,
    RawCondvarTimed, RawMutex, RawMutexFair, RawMutexTimed, RawRwLock, RawRwLockDowngrade,
    RawRwLockFair, RawRwLockTimed, RawRwLockUpgrade, RawRwLockUpgradeDowngrade,
    RawRwLockUpgradeFair, RawRwLockUpgradeTimed, ReadersFull, TableFull, Then, TotalProjection,
    WaitFault,
};
pub use lock_api_rw::{
    ArcRwLockReadGuard, ArcRwLockUpgradableReadGuard, ArcRwLockWriteGuard, MappedRwLockReadGuard,
    MappedRwLockWriteGuard, RwLock, RwLockReadGuard, RwLockUpgradableReadGuard, RwLockWriteGuard,
};
pub use mutex::{MappedMutexGuard, Mutex, MutexGuard};
pub use raw_reentrant::RawReentrantMutex;
pub use reentrant::{
    LockedReentrant, MappedReentrantMutexGuard, ReentrantMutex, ReentrantMutexGuard,
};
pub use timed_out::WaitTimeoutResult;
