//! The world of maps: threads with finite programs of map calls, run one atomic step at a time, by any schedule.
#![tactic(auto)]

mod beginning;
mod contents;
mod counts;
mod explore;
pub mod laws;
mod limits;
mod making;
pub mod progress;
mod show;
mod stops;
mod world;

pub use dashmap_table::{NoMemory, SpreadHasher, SpreadState};
pub use dashmap_view::ViewIter as Pairs;
pub use mapworld_calls::{
    Answer, Ask, Begin, Block, Deed, Held, Keyed, Reply, Walk, guard_numbers, holds_one_guard,
};
pub use mapworld_state::faults::{RunFault, WorldNewFault};
pub use mapworld_state::{Status, Step};
pub use world::MapWorld;
