//! The parking lot: lists of waiting threads, one list for each key.
//!
//! It comes twice. [`Lot`] is exclusive and exact, and stands in the crate below; its names are handed on here.
//! [`ParkingLot`] has the same lists for real threads, and is shared by reference. Beside them are the small things
//! that locks need: a counter of spins, a lock without a value and a seat on which a thread sleeps.
#![tactic(auto)]

mod bucket;
mod chain;
pub mod deadlock;
mod going_on;
mod levels;
mod line;
mod parking_calls;
mod parking_lot;
mod requeues;
mod seat;
mod spin;
mod state;
mod stuck;
mod table;
mod thread_data;
mod thread_parker;
mod under_lock;
mod word_lock;

pub use parking_calls::{park, unpark_all, unpark_filter, unpark_one, unpark_requeue};
pub use parking_lot::ParkingLot;
pub use parking_lot_core_model::{
    DEFAULT_PARK_TOKEN, DEFAULT_UNPARK_TOKEN, FilterOp, Lot, LotFault, ParkResult, ParkToken,
    Place, RequeueOp, SizeFault, Sleep, Taking, ThreadStatus, UnparkResult, UnparkToken, laws,
};
pub use spin::{SpinWait, thread_yield};
pub use thread_data::ThreadData;
pub use thread_parker::{ThreadParker, ThreadParkerT, UnparkHandle, UnparkHandleT};
pub use word_lock::{WordLock, WordLockPass};
