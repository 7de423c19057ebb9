//! How long threads sleep, over all schedules that a search goes through.

use crate::worlds::World;
use mapworld::Status;
use std::alloc::{AllocError, Global};

/// Which states lead to which, and who sleeps in them.
#[derive(Drop)]
pub(crate) struct Waits {
    threads: usize,
    /// Whether a thread sleeps: by states, and in each by threads.
    asleep: Vec<bool>,
    /// A state, and one to which a step leads from there.
    ways: Vec<(usize, usize)>,
}

impl Waits {
    /// Of so many threads, before the first state.
    pub(crate) fn new(alloc: Global, threads: usize) -> Waits {
        Waits {
            threads,
            asleep: Vec::new(alloc),
            ways: Vec::new(alloc),
        }
    }

    /// Notes who sleeps in the next state.
    pub(crate) fn note_state(&mut self, world: &World) -> Result<(), AllocError> {
        for thread in 0..self.threads {
            self.asleep.push(world.status(thread) == Status::Asleep)?;
        }
        Ok(())
    }

    /// Notes that a step leads from the one state to the other.
    pub(crate) fn note_way(&mut self, from: usize, to: usize) -> Result<(), AllocError> {
        self.ways.push((from, to))?;
        Ok(())
    }

    /// Where a thread stands in a list by states and threads.
    fn place(&self, state: usize, thread: usize) -> usize {
        state.saturating_mul(self.threads).saturating_add(thread)
    }

    fn is_asleep(&self, place: usize) -> bool {
        self.asleep.get(place).copied().unwrap_or(false)
    }

    /// Takes a thread's sleep over from the one state to the other; says whether it is longer there than was known.
    fn carry_one(&self, way: (usize, usize), thread: usize, waited: &mut Vec<usize>) -> bool {
        let from = self.place(way.0, thread);
        let to = self.place(way.1, thread);
        if !self.is_asleep(from) || !self.is_asleep(to) {
            return false;
        }
        let longer = waited.get(from).copied().unwrap_or(0).saturating_add(1);
        match waited.get_mut(to) {
            Some(known) if *known < longer => {
                *known = longer;
                true
            }
            _ => false,
        }
    }

    /// Takes all sleeps over from each state to those behind it; says whether one has become longer.
    fn carry(&self, waited: &mut Vec<usize>) -> bool {
        let mut has_grown = false;
        for way in &self.ways {
            for thread in 0..self.threads {
                if self.carry_one(*way, thread, waited) {
                    has_grown = true;
                }
            }
        }
        has_grown
    }

    /// The longest sleep of a thread, where so long a part of each is behind the states.
    fn longest_of(&self, thread: usize, states: usize, waited: &[usize]) -> usize {
        let mut longest = 0;
        for state in 0..states {
            let place = self.place(state, thread);
            if self.is_asleep(place) {
                let more = waited.get(place).copied().unwrap_or(0).saturating_add(1);
                longest = longest.max(more);
            }
        }
        longest
    }

    /// The longest sleep of each thread, in steps, where there are so many states. No schedule comes to a state a
    /// second time, so there are at most as many rounds as states.
    pub(crate) fn longest(&self, alloc: Global, states: usize) -> Result<Vec<usize>, AllocError> {
        let mut waited = Vec::with_capacity(alloc, self.asleep.len())?;
        for _ in &self.asleep {
            waited.push(0)?;
        }
        for _ in 0..states {
            if !self.carry(&mut waited) {
                break;
            }
        }
        let mut longest = Vec::with_capacity(alloc, self.threads)?;
        for thread in 0..self.threads {
            longest.push(self.longest_of(thread, states, &waited))?;
        }
        Ok(longest)
    }
}
