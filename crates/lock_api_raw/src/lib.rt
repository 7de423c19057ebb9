//! The bottom layer of the generic locks: what a raw lock is, and the projections by which guards are narrowed to a
//! part of their value.
//!
//! A raw lock holds no value. It admits a caller and issues one token, and it takes the token back when the caller
//! lets go. **An admission issues one token, a release spends it:** a token is moved, never copied or cloned, and it
//! can't be dropped either, so a holder has to hand it to a release. A release takes the token by value and refuses
//! nothing. Each lock has a number that contracts alone see, and a release asks for a token of that number.
//!
//! What may wait for another thread says `where Self::Runtime: Wait`: blocking and timed calls, and releases, which
//! wake those that sleep. Tries wait for nobody.
#![tactic(auto)]

mod condvar;
mod fault;
mod limit;
mod make;
mod mutex;
mod projection;
mod remutex;
mod rwlock;
mod token;

pub use condvar::{RawCondvar, RawCondvarTimed};
pub use fault::{NoMemory, ReadersFull, TableFull, WaitFault};
pub use limit::MAX_READERS;
pub use make::{MakeCondvar, MakeLock};
pub use mutex::{RawMutex, RawMutexFair, RawMutexTimed};
pub use projection::{Projection, Then, TotalProjection};
pub use remutex::GetThreadId;
pub use rwlock::{
    RawRwLock, RawRwLockDowngrade, RawRwLockFair, RawRwLockTimed, RawRwLockUpgrade,
    RawRwLockUpgradeDowngrade, RawRwLockUpgradeFair, RawRwLockUpgradeTimed,
};
pub use token::{GuardNoSend, GuardSend};
