//! The locks for real threads: raw locks on the rows of a lock table, and the generic locks of `lock_api` over them.
//!
//! The raw locks and the table are those of `parking_lot_mutex` and `parking_lot_rwlock`. Nothing is promised of a
//! word, nor that a call comes back: what keeps two writers from one value is the std lock in which a generic lock
//! keeps it.
//!
//! A [`Once`] of `parking_lot_mutex` runs one closure once.
//!
//! What the calls of locks, condition variables and onces do under every schedule can be tried in a [`World`], whose
//! steps are told one by one.
//!
//! Calls that may sleep take the data of a participant of the table's lot.
//!
//! ```text
//! let lot = ParkingLot::new(rt, alloc, 16, 7)?;
//! let table = LockTable::new(alloc, &lot, 2)?;
//! let mut me = lot.thread_data()?;
//! let lock = RwLock::new(&table, 8, 5)?;
//! *lock.write(&mut me) = 6;
//! ```
#![tactic(auto)]

mod names;

pub use lock_api::{
    At, First, Guard, Inside, Mapped, NoMemory, Projection, ReadersFull, Second, TableFull, Then,
    TotalProjection, WaitFault, WaitTimeoutResult,
};
pub use names::{
    ArcFairMutexGuard, ArcMutexGuard, ArcReentrantMutexGuard, ArcRwLockReadGuard,
    ArcRwLockUpgradableReadGuard, ArcRwLockWriteGuard, Condvar, FairMutex, FairMutexGuard,
    MappedFairMutexGuard, MappedMutexGuard, MappedRecursiveRwLockReadGuard,
    MappedRecursiveRwLockWriteGuard, MappedReentrantMutexGuard, MappedRwLockReadGuard,
    MappedRwLockWriteGuard, Mutex, MutexGuard, RawRwLockRecursive, RecursiveRwLock,
    RecursiveRwLockReadGuard, RecursiveRwLockUpgradableReadGuard, RecursiveRwLockWriteGuard,
    ReentrantMutex, ReentrantMutexGuard, RwLock, RwLockReadGuard, RwLockUpgradableReadGuard,
    RwLockWriteGuard,
};
pub use parking_lot_core::{LotFault, ParkingLot, SizeFault, ThreadData};
pub use parking_lot_mutex::condvar::RawCondvar;
pub use parking_lot_mutex::once::{Once, OnceCore, OnceFault, OnceState, Poisoned};
pub use parking_lot_mutex::{
    Act, ActResult, CoreAnswer, LockTable, MutexCore, RawFairMutex, RawMutex, RawThreadId, Row,
    SectionAct, WordChange, laws, to_deadline, wake_sum,
};
pub use parking_lot_protocol::timed::{TimedAct, TimedMutexCore, TimedSeen};
pub use parking_lot_protocol_rw::UpgradeCore;
pub use parking_lot_protocol_rw::timed::TimedRwCore;
pub use parking_lot_protocol_waits::{
    NotifyAct, NotifyCore, NotifySeen, WaitAct, WaitAnswer, WaitCore, WaitSeen,
};
pub use parking_lot_rwlock::{RawRwLock, RwCore, laws as rw_laws};
pub use parking_lot_world::{
    LockAnswer, LockCall, LockKind, OwnMode, World, WorldFault, WorldRefusal, WorldStep,
};
