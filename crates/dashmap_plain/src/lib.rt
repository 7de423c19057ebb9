//! The running map for its one owner: its plain shards, and views of them.
//!
//! Who owns a map may take it apart without a lock: [`Plain`] gives its shards, its pairs one after another, or a
//! [`ReadOnlyView`], which any number of readers may share, and of which the map can be made again. None of these takes
//! memory: a map keeps room for its plain shards from its making.
#![tactic(auto)]

pub mod clones;
mod exchange;
mod extend;
mod iter_mut;
mod parallel;
mod plain;
mod read_only;
mod shards;
mod unlocked;

pub use extend::{from_par_iter, par_extend, par_extend_shards};
pub use iter_mut::IterMut;
pub use plain::Plain;
pub use read_only::ReadOnlyView;
pub use shards::ExtendShards;
pub use unlocked::Unlocked;
