//! The exact model of the guards of a lock, to be run without threads.
//!
//! A [`Desk`] holds a value and a list of guards. Each guard has a number and a party, both plain numbers that the
//! caller chooses, and a [`Mode`]. Every operation of a lock and of its guards is a call on the desk, under its own
//! name: a blocking one that isn't admitted answers `WouldWait` in place of waiting, and a try answers `Taken`.
//!
//! **Each call is a move of the machine of guards.** An exclusive guard needs no other held guard, and so does an
//! upgrade. A shared guard needs no exclusive one. An upgradable guard needs neither an exclusive nor another
//! upgradable one. Shared guards and the upgradable one together stay within a limit. A guard that is set aside keeps
//! its number, its mode and its party, and excludes nobody. The contract of each call says by that machine when it is
//! refused, why, and what it leaves, and a refused call leaves everything as it was.
//!
//! A desk stands on a [`RawState`], which knows how many holds of each mode are out: a [`TokenTable`], which counts
//! them, or a [`PackedWord`], which packs them into one word as locks do. Over either, equal calls have equal answers
//! where the limits are equal.
//!
//! ```rust
//! let mut desk = Desk::new(alloc, TokenTable::new(8), 5_u64);
//! desk.write(1, 10)?;                  // party 1 holds guard 10 alone
//! desk.try_read(2, 11).unwrap_err();   // Taken
//! desk.downgrade(1, 10)?;
//! desk.read(2, 11)?;                   // beside it
//! desk.unlock(1, 10)?;
//! ```
#![tactic(auto)]

mod acquire;
mod call;
mod change;
mod desk;
mod fault;
mod hold;
mod look;
mod mode;
mod packed_word;
mod raw;
mod run;
mod seat;
mod token_table;
mod value;

pub use call::DeskCall;
pub use desk::Desk;
pub use fault::{DeskFault, DeskRunFault};
pub use mode::Mode;
pub use packed_word::PackedWord;
pub use raw::RawState;
pub use token_table::TokenTable;
