//! The language of the world of maps: what a thread's program may ask of the map, what it is answered, and the test
//! that a program holds one guard at a time. Beside it stand the definitions that the world's theorem speaks of: the
//! plain map, what each call tells and leaves, and the replay of blocks in order of position.
#![tactic(auto)]

mod ask;
mod block;
mod deed;
pub mod history_laws;
pub mod laws;
pub mod past;
mod program;
mod reply;

pub use ask::{Ask, Begin, Held, Keyed, Walk};
pub use block::Block;
pub use dashmap_table::{SpreadHasher, SpreadState, spread_hash};
pub use deed::Deed;
pub use program::{guard_numbers, holds_one_guard};
pub use reply::{Answer, Reply};
