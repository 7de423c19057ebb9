//! A world that is stepped, and the words that its shards have had.

use crate::search::step_by;
use crate::worlds::{World, go};
use mapworld::{RunFault, Step};
use std::alloc::{AllocError, Global};

/// A world that is stepped.
#[derive(Drop)]
pub(crate) struct Traced {
    pub(crate) world: World,
    pub(crate) alloc: Global,
    /// The threads whose steps are fair, as bits.
    fair: u64,
    /// How many shards there are.
    shards: usize,
    /// Each new word of a shard since the first step, in their order.
    pub(crate) words: Vec<(usize, u64)>,
    /// The steps that were made one by one.
    pub(crate) made: Vec<Step>,
}

impl Traced {
    pub(crate) fn new(alloc: Global, world: World, shards: usize, fair: u64) -> Traced {
        Traced {
            world,
            alloc,
            fair,
            shards,
            words: Vec::new(alloc),
            made: Vec::new(alloc),
        }
    }

    /// The word that a shard had last.
    fn last_word(&self, shard: usize) -> u64 {
        match self.words.iter().rev().find(|noted| noted.0 == shard) {
            Some(noted) => noted.1,
            None => 0,
        }
    }

    /// Notes the words that are new.
    fn note(&mut self) -> Result<(), AllocError> {
        for shard in 0..self.shards {
            let word = self.world.word(shard);
            if self.last_word(shard) != word {
                self.words.push((shard, word))?;
            }
        }
        Ok(())
    }

    fn is_fair(&self, thread: usize) -> bool {
        match u32::try_from(thread) {
            Ok(bit) => self.fair.checked_shr(bit).unwrap_or(0) & 1 == 1,
            Err(_) => false,
        }
    }

    /// Makes a step of a thread, fair if it is to be or the thread's steps are. Answers why it isn't done, if it isn't.
    pub(crate) fn step(
        &mut self,
        thread: usize,
        fair: bool,
    ) -> Result<Option<RunFault>, AllocError> {
        let fair = fair || self.is_fair(thread);
        self.make(step_by(thread, fair, false))
    }

    /// Makes a step, and answers why it isn't done, if it isn't.
    fn make(&mut self, step: Step) -> Result<Option<RunFault>, AllocError> {
        let fault = go(&mut self.world, &[step]).err();
        if fault.is_none() {
            self.made.push(step)?;
        }
        self.note()?;
        Ok(fault)
    }

    /// A thread's deadline comes; says whether it could.
    pub(crate) fn deadline(&mut self, thread: usize) -> Result<bool, AllocError> {
        let fault = self.make(step_by(thread, false, true))?;
        Ok(fault.is_none())
    }

    /// Makes as many steps of a thread; says whether all of them were done.
    pub(crate) fn step_times(
        &mut self,
        thread: usize,
        times: usize,
        fair: bool,
    ) -> Result<bool, AllocError> {
        for _ in 0..times {
            if self.step(thread, fair)?.is_some() {
                return Ok(false);
            }
        }
        Ok(true)
    }

    /// Steps a thread while it can move, and says whether each of these steps was done.
    pub(crate) fn step_through(&mut self, thread: usize) -> Result<bool, AllocError> {
        for _ in 0..self.world.bound() {
            if !self.world.can_move(thread) {
                break;
            }
            if self.step(thread, false)?.is_some() {
                return Ok(false);
            }
        }
        Ok(true)
    }

    /// Gives each thread in turn one step, if it can move. Answers how many were made, or none where one of them was
    /// refused.
    fn step_each(&mut self) -> Result<Option<u64>, AllocError> {
        let mut made: u64 = 0;
        for thread in 0..self.world.threads() {
            if self.world.can_move(thread) {
                if self.step(thread, false)?.is_some() {
                    return Ok(None);
                }
                made = made.saturating_add(1);
            }
        }
        Ok(Some(made))
    }

    /// Steps the threads in turn, each once if it can move, until none can; and says whether each of these steps was
    /// done.
    pub(crate) fn step_round(&mut self) -> Result<bool, AllocError> {
        for _ in 0..self.world.bound() {
            match self.step_each()? {
                Some(0) => break,
                Some(_) => {}
                None => return Ok(false),
            }
        }
        Ok(true)
    }

    /// Whether a drain takes no more steps than the bound, and a second one makes none.
    pub(crate) fn drains(&mut self) -> Result<bool, AllocError> {
        let bound = self.world.bound();
        let steps = self.world.steps();
        let made = self.world.drain();
        self.note()?;
        let is_counted = self.world.steps() == steps.wrapping_add(made);
        Ok(made <= bound && is_counted && self.world.drain() == 0)
    }

    /// Makes so many steps, of threads that are picked by numbers from a seed; one that can't move makes none. Says
    /// whether each was done.
    pub(crate) fn step_at_random(&mut self, seed: u64, steps: u64) -> Result<bool, AllocError> {
        let mut state = seed;
        for _ in 0..steps {
            state = state
                .wrapping_mul(6364136223846793005)
                .wrapping_add(1442695040888963407);
            let threads = self.world.threads() as u64;
            let thread = (state >> 33).checked_rem(threads).unwrap_or(0) as usize;
            if self.world.can_move(thread) && self.step(thread, state >> 63 == 1)?.is_some() {
                return Ok(false);
            }
        }
        Ok(true)
    }

    fn nobody_waits(&self) -> bool {
        (0..self.shards.saturating_mul(2)).all(|key| match self.world.queue(key) {
            Ok(threads) => threads.is_empty(),
            Err(_) => false,
        })
    }

    /// Whether so many calls are answered, every word is 0 and nobody waits.
    pub(crate) fn is_at_rest(&self, calls: usize) -> bool {
        self.world.replies().len() == calls
            && self.nobody_waits()
            && (0..self.shards).all(|shard| self.world.word(shard) == 0)
    }
}
