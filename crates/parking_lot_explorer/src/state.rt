//! What states of a world are told apart by.

use crate::seats::{Seat, Wake};
use crate::three::Three;
use parking_lot_world::{LockAnswer, OwnMode, SizeFault, World};
use std::alloc::Global;

/// What a world shows of a lock: its word, its owners, and who stands in the lists of its two keys.
#[derive(PartialEq, Drop)]
pub struct LockShown {
    pub word: u64,
    pub owners: Vec<(usize, OwnMode)>,
    pub first: Vec<usize>,
    pub second: Vec<usize>,
}

impl LockShown {
    /// Of a lock; nothing of one that the world doesn't have.
    fn of(alloc: Global, world: &World, lock: usize) -> Result<LockShown, SizeFault> {
        if world.kind(lock).is_none() {
            return Ok(LockShown {
                word: 0,
                owners: Vec::new(alloc),
                first: Vec::new(alloc),
                second: Vec::new(alloc),
            });
        }
        let key = lock.saturating_mul(2);
        Ok(LockShown {
            word: world.word(lock),
            owners: world.owners(lock)?,
            first: world.queue(key)?,
            second: world.queue(key.saturating_add(1))?,
        })
    }

    /// How a thread owns it.
    pub fn mode(&self, thread: usize) -> Option<OwnMode> {
        for (owner, mode) in &self.owners {
            if *owner == thread {
                return Some(*mode);
            }
        }
        None
    }

    /// A number that few other states of it share.
    fn number(&self) -> u64 {
        let lists = self.first.len().saturating_add(self.second.len());
        self.word
            .wrapping_mul(31)
            .wrapping_add(lists as u64)
            .wrapping_add((self.owners.len() as u64).wrapping_mul(7))
    }
}

/// All that the further steps of three threads at three locks depend on, and all that is shown of them.
#[derive(PartialEq, Drop)]
pub struct WorldState {
    seats: Three<Seat>,
    answers: Three<Option<LockAnswer>>,
    wakes: Three<Option<Wake>>,
    /// Who is inside of a section of a once, by the once. The keys of three locks are of different buckets.
    inside: Three<Option<usize>>,
    /// In how many buckets a section of a lock or of a condition variable is open.
    pub open_sections: usize,
    pub locks: [LockShown; 3],
    pub debts: Vec<usize>,
}

/// Who is still to be woken: each of three threads at most once.
fn wakes_of(world: &World, counts: bool) -> Three<Option<Wake>> {
    let wakes = world.waits().rows().wakes();
    let at = |nth: usize| {
        wakes
            .get(nth)
            .map(|wakeup| Wake::of(world, *wakeup, counts))
    };
    Three(at(0), at(1), at(2))
}

/// In how many of the buckets of the keys of three locks a section is open.
fn open_sections(world: &World) -> usize {
    (0..6).filter(|key| world.waits().is_shut(*key)).count()
}

fn locks_of(alloc: Global, world: &World) -> Result<[LockShown; 3], SizeFault> {
    Ok([
        LockShown::of(alloc, world, 0)?,
        LockShown::of(alloc, world, 1)?,
        LockShown::of(alloc, world, 2)?,
    ])
}

impl WorldState {
    /// Of a world, and how often its threads have slept where that counts.
    pub(crate) fn of(alloc: Global, world: &World, counts: bool) -> Result<WorldState, SizeFault> {
        let seat = |thread| Seat::of(world, thread, counts);
        let inside = |lock| world.onces().inside(lock);
        Ok(WorldState {
            seats: Three(seat(0), seat(1), seat(2)),
            answers: Three(world.answer(0), world.answer(1), world.answer(2)),
            wakes: wakes_of(world, counts),
            inside: Three(inside(0), inside(1), inside(2)),
            open_sections: open_sections(world),
            locks: locks_of(alloc, world)?,
            debts: world.debts()?,
        })
    }

    fn seat(&self, thread: usize) -> &Seat {
        match thread {
            0 => &self.seats.0,
            1 => &self.seats.1,
            _ => &self.seats.2,
        }
    }

    /// What a thread's last call was answered; `None` while it isn't answered.
    pub fn answer(&self, thread: usize) -> Option<LockAnswer> {
        self.answers.of(thread)
    }

    /// Whether the next step of a thread may store in the section in which it gives a mutex up, so that a fair one
    /// comes to something else.
    pub fn may_hand(&self, thread: usize) -> bool {
        self.seat(thread).may_hand()
    }

    /// Whether a thread has taken one off a list that it is still to wake.
    pub fn has_taken(&self, thread: usize) -> bool {
        let by = |wake: Option<Wake>| match wake {
            Some(wake) => wake.by == thread,
            None => false,
        };
        by(self.wakes.0) || by(self.wakes.1) || by(self.wakes.2)
    }

    /// Whether a caller of a once was taken off its list and isn't woken yet.
    pub fn is_taken(&self, thread: usize) -> bool {
        self.seat(thread).is_taken()
    }

    /// How often a thread stands in a list, or is in debt.
    pub fn times(list: &[usize], thread: usize) -> usize {
        list.iter().filter(|other| **other == thread).count()
    }

    /// The first thread whose next step nobody else sees.
    pub(crate) fn alone(&self) -> Option<usize> {
        if self.seats.0.is_alone() {
            Some(0)
        } else if self.seats.1.is_alone() {
            Some(1)
        } else if self.seats.2.is_alone() {
            Some(2)
        } else {
            None
        }
    }

    /// A number that few others share.
    pub(crate) fn number(&self) -> u64 {
        let [first, second, third] = &self.locks;
        let seats = self
            .seats
            .0
            .number()
            .wrapping_add(self.seats.1.number().wrapping_mul(1_009))
            .wrapping_add(self.seats.2.number().wrapping_mul(1_000_003));
        let locks = first
            .number()
            .wrapping_add(second.number())
            .wrapping_add(third.number());
        seats.wrapping_mul(31).wrapping_add(locks)
    }
}
