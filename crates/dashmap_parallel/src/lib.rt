//! Parallel forms of a map that is shared: its shards are cut into pieces, one for each thread's data that is handed
//! in.
//!
//! A piece is a thread's own: it takes its shards in order and holds one at a time. So a form can run beside calls of
//! other threads.
#![tactic(auto)]

mod behind;
mod deal;
mod extend;
mod fault;
mod gather;
mod gifts;
mod lent;
mod parallel;
mod pieces;
mod put;
mod written;

pub use extend::par_extend_shared;
pub use fault::{NoThreadData, ParExtendFault};
pub use lent::SharedIter;
pub use parallel::ParallelMap;
pub use written::SharedIterMut;
