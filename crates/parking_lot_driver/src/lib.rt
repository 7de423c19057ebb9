//! Calls of locks, run on the rows of a lock table, for real threads.
//!
//! A lock owns one row of a [`LockTable`]. Each of its calls is a decision core: whoever runs it does what the core
//! answers, one atomic step on the row's word or one act in a section of the lot's lists at a time, and tells the core
//! what it saw. Calls that end by their first act are made by one step on the word, before a core is set up: that is
//! the core's own first way, cut short.
//!
//! A call that has ended was told nothing but what the acts that it asked for can give at some word: the layer above
//! knows by that which call it was. Nothing is promised of a word, nor that a call comes back.
//!
//! Calls that may sleep take the data of a participant of the table's lot. A participant of another lot can't sleep; it
//! yields and asks again. A release may wait for the lot's short sections, in which sleeping threads are woken.
#![tactic(auto)]

mod at_once;
mod call;
mod clock;
mod deadline;
mod decision;
mod handed;
mod key;
mod looking;
mod place;
mod plain_place;
mod run;
mod section;
mod shared_section;
mod stuck;
mod table;
mod timed_call;
mod timed_rw_run;
mod timed_sleep;
mod told;
mod tries;
mod try_call;
mod under_way;
mod upgrade_call;
mod whole_call;

pub use at_once::{
    ended_after_a_load, ended_at_once, ended_by_sum, owned_after_a_look, owned_as_it_is,
    owned_by_sum,
};
pub use call::{
    Bump, BumpReader, BumpWriter, Call, Downgrade, Lock, Read, StopReading, StopWriting,
    StopWritingFairly, TryLock, TryRead, TryWrite, Unlock, UnlockFairly, Write,
};
pub use deadline::to_deadline;
pub use decision::DecisionCore;
pub use key::Key;
pub use parking_lot_protocol::{
    Act, ActResult, CoreAnswer, MutexCore, RwCore, SectionAct, WordChange, wake_sum,
};
pub use place::Place;
pub use section::{SectionWord, sleep, wake_first};
pub use table::{LockTable, Row};
pub use timed_call::{AskUpgradablyInTime, ReadInTime, TimedCall, UpgradeInTime, WriteInTime};
pub use timed_sleep::{InTime, sleep_in_time};
pub use told::Run;
pub use tries::admitted_at_once;
pub use try_call::TryCall;
pub use under_way::UnderWay;
pub use upgrade_call::{
    AskUpgradably, BumpUpgradable, Disown, DisownFairly, DowngradeToShared, DowngradeToUpgradable,
    TryToOwnUpgradably, TryToUpgrade, Upgrade,
};
pub use whole_call::run_to_its_end;
