//! The parts of the work that the map takes whole.

use crate::past::Past;
use std::fmt;
use std::snapshot::Snapshot;

/// A part of the work that the map takes whole: a keyed call, or all calls of one guard. Contracts read it as one move
/// of a plain map, at its `position` among the steps of the world.
///
/// The first six fields are what is shown and compared. The other two are what the block has done so far; they exist
/// in proofs alone and take no room.
#[derive(Drop)]
#[derive_where(PartialEq, Eq)]
pub struct Block<K> {
    /// Whose it is.
    pub thread: usize,
    /// The keyed call, or the opening.
    pub call: usize,
    /// Which visit of a walk, counted from 0; 0 for all other calls.
    pub visit: usize,
    /// The step at which its call started.
    pub start: u64,
    /// The step, one of its own thread, at which it counts as done.
    pub position: u64,
    /// The step at which its call was answered, `None` until then. Of a session it is the answer of the opening.
    pub end: Option<u64>,
    /// How many of its calls are done: 0 or 1 of a keyed call, the opening and the guard's calls of a session.
    #[derive_where(skip)]
    pub done: Snapshot<usize>,
    /// The keys that a visit has done; no other block has any.
    #[derive_where(skip)]
    pub visited: Past<K>,
}

/// Shows the first six fields.
impl<K> fmt::Debug for Block<K> {
    fn fmt<W: fmt::Write>(&self, f: &mut fmt::Formatter<W>) -> fmt::Result {
        f.debug_struct("Block")
            .field("thread", &self.thread)
            .field("call", &self.call)
            .field("visit", &self.visit)
            .field("start", &self.start)
            .field("position", &self.position)
            .field("end", &self.end)
            .finish()
    }
}
