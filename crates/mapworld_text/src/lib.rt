//! Worlds of maps as text: the reader of programs, schedules and what is to be seen, and the printer of what calls are
//! answered.
//!
//! What may stand in a text is told in `README.md`.
#![tactic(auto)]

mod again;
mod asks;
mod case;
mod change;
mod claims;
mod fault;
mod orders;
mod reader;
mod shown;

pub use again::programs_again;
pub use case::{Asked, Case, Line, Order, View};
pub use change::Change;
pub use claims::{Claim, Part, Term, terms};
pub use fault::{Expected, TextFault};
pub use reader::read;
pub use shown::{Answered, Pairs, Shown};
