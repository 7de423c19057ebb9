//! The states that so many steps lead to, each once.

use crate::state::WorldState;
use parking_lot_world::WorldStep;
use std::alloc::{AllocError, Global};

/// Over how many lists the states are spread that so many steps lead to.
const LISTS: u64 = 1021;

/// A state of a world, and what is noted of its threads on the way there.
#[derive(PartialEq, Drop)]
pub struct Seen<N> {
    pub notes: N,
    pub world: Box<WorldState>,
}

/// The same with its number, and with a schedule that leads there.
#[derive(Drop)]
pub(crate) struct Reached<N> {
    number: u64,
    pub(crate) schedule: Vec<WorldStep>,
    pub(crate) seen: Seen<N>,
}

/// The states that so many steps lead to, each once, by their numbers.
#[derive(Drop)]
pub(crate) struct Layer<N> {
    pub(crate) lists: Vec<Vec<Reached<N>>>,
    pub(crate) is_empty: bool,
}

impl<N: Copy + PartialEq> Layer<N> {
    /// No state is known.
    pub(crate) fn new(alloc: Global) -> Result<Layer<N>, AllocError> {
        let mut lists = Vec::new(alloc);
        for _ in 0..LISTS {
            lists.push(Vec::new(alloc))?;
        }
        Ok(Layer {
            lists,
            is_empty: true,
        })
    }

    /// Whether a state is there.
    pub(crate) fn has(&self, seen: &Seen<N>) -> bool {
        let number = seen.world.number();
        match self.lists.get(list_of(number)) {
            Some(list) => list
                .iter()
                .any(|known| known.number == number && known.seen == *seen),
            None => false,
        }
    }

    /// Adds a state that isn't there, behind that schedule.
    pub(crate) fn add(
        &mut self,
        schedule: Vec<WorldStep>,
        seen: Seen<N>,
    ) -> Result<(), AllocError> {
        let number = seen.world.number();
        if let Some(list) = self.lists.get_mut(list_of(number)) {
            list.push(Reached {
                number,
                schedule,
                seen,
            })?;
        }
        self.is_empty = false;
        Ok(())
    }
}

/// The list that a state of that number belongs to.
fn list_of(number: u64) -> usize {
    (number % LISTS) as usize
}
