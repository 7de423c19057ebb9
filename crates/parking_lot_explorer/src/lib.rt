//! Every schedule of some programs at locks of a world, for tests that say what has to hold on the way: the search
//! itself, what states are told apart by, and what calls come to that are made whole, one after another.
#![tactic(auto)]

mod callers;
mod explorer;
mod layers;
mod pairing;
mod plain;
mod plain_once;
mod plain_waits;
pub mod programs;
mod seats;
pub mod shown;
mod sides;
mod state;
mod thread_ends;
mod three;
mod upgradable;

pub use callers::{Answers, Ask, Caller, Calls, callers_of};
pub use explorer::{Broken, Explorer, Watch, first_broken};
pub use layers::Seen;
pub use pairing::{Pairs, pairs_of};
pub use plain::{Plain, ends};
pub use plain_once::{PlainOnce, ends_of, waits};
pub use plain_waits::PlainWait;
pub use state::{LockShown, WorldState};
pub use thread_ends::{Ends, Stay, ThreadEnd};
pub use three::Three;
