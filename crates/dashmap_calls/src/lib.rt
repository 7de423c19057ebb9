//! Calls on a running map of numbers as data, and what they answer, for its tests: one function makes any call on a map
//! over any lock.
#![tactic(auto)]

mod calls;
mod entries;
mod keyed;
mod many;
mod operators;
mod tables;
mod tries;
mod walks;
pub mod workload;

pub use calls::{Answer, Call, Numbers, make};
pub use entries::Place;
pub use keyed::Keyed;
pub use many::{Many, call_many};
pub use operators::Operator;
pub use tables::{Row, run};
pub use tries::{Hold, Try};
pub use walks::Walk;
