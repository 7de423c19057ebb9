//! What a pair of a lock and its release takes with nobody beside it, in every form.

mod at_once;
mod guards;
mod in_time;
mod pair;
mod raw;
mod run;
mod upgrades;

pub use pair::Pair;
pub use run::{all_pairs, pairs_of, told_times};
