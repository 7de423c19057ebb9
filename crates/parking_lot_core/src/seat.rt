//! Seats: where a thread sleeps, and is told by whoever took it.
ghost use Rattle.std.specs.Prelude.{◌≡◌, IsSome, IsNone, IfSome, Some, None, drop, slice_get};
ghost use Rattle.std.specs.Sync.Mutex.{mutex_guard_value};

use crate::chain::Chain;
use crate::levels::{keep, none_made, rows};
use crate::thread_parker::{Timed, time_left};
use parking_lot_core_model::{DEFAULT_UNPARK_TOKEN, UnparkToken};
use std::alloc::{AllocError, Allocator};
use std::sync::atomic::{AtomicUsize, Ordering};
use std::sync::{Condvar, CondvarTimeouts, Mutex, MutexGuard, OnceLock, Wait};
use std::time::{Clock, Instant};

/// How many seats the first level has, and what a thread's number is divided by.
const FIRST_COUNT: usize = 16;

/// How many levels there are at most: seats for 65,536 threads, and more.
const LEVELS: usize = 13;

/// Where one thread sleeps.
#[derive(Drop)]
pub(crate) struct Seat<A: Allocator> {
    told: Mutex<Told<A>>,
    rung: Condvar,
    /// The key of the list in which it stands, or stood last.
    key: AtomicUsize,
    /// So that it has no cache line in common with the next.
    spare: [u64; 8],
}

/// What the thread is told: it is there as soon as its node is back.
#[derive(Drop)]
pub(crate) struct Told<A: Allocator> {
    pub node: Chain<A>,
    pub token: UnparkToken,
}

/// The seats of a lot, by the numbers of its threads.
#[derive(Drop)]
pub(crate) struct Seats<A: Allocator> {
    levels: Vec<OnceLock<Vec<Seat<A>, A>>, A>,
}

impl<A: Allocator> Seat<A> {
    /// Nobody sleeps there.
    fn new() -> Seat<A> {
        Seat {
            told: Mutex::new(Told {
                node: Chain::new(),
                token: DEFAULT_UNPARK_TOKEN,
            }),
            rung: Condvar::new(),
            key: AtomicUsize::new(0),
            spare: [0; 8],
        }
    }

    /// The key of the list in which its thread stands, or stood last.
    pub fn key(&self) -> usize {
        self.key.load(Ordering::SeqCst)
    }

    /// Its thread stands in another list, whose bucket the caller has.
    pub fn move_to(&self, key: usize) {
        self.key.store(key, Ordering::SeqCst);
    }

    /// Gives the thread the first node of a chain, which is its own, with the token, and wakes it.
    pub fn tell<R: Wait>(&self, rt: &R, taken: &mut Chain<A>, token: UnparkToken)
        ensures { taken.new ≡ drop 1 taken.old }
    {
        let mut told = self.told.lock(rt);
        taken.move_first(&mut told.node);
        told.token = token;
        drop(told);
        self.rung.notify_one();
    }

    /// Sleeps until it is told.
    pub fn told<R: Wait>(&self, rt: &R) -> MutexGuard<'_, Told<A>> {
        let mut told = self.told.lock(rt);
        for _turn in rt.forever() {
            if told.node.head().is_some() {
                return told;
            }
            told = self.rung.wait(rt, told);
        }
        unreachable!()
    }

    /// The same, unless the moment is past first.
    fn told_until<R: Wait, C: Clock>(
        &self,
        rt: &R,
        moment: Instant,
        clock: &C,
    ) -> Option<MutexGuard<'_, Told<A>>> {
        let both = Timed { rt, clock };
        let mut told = self.told.lock(rt);
        for _turn in rt.forever() {
            if told.node.head().is_some() {
                return Some(told);
            }
            let left = time_left(moment, clock)?;
            told = self.rung.wait_timeout(&both, told, left).0;
        }
        unreachable!()
    }

    /// Sleeps until it is told, or the moment is past.
    pub fn sleep<R: Wait, C: Clock>(
        &self,
        rt: &R,
        timeout: Option<(Instant, &C)>,
    ) -> Option<MutexGuard<'_, Told<A>>>
        ensures late { IsNone result → IsSome timeout.entry }
    {
        match timeout {
            Some((moment, clock)) => self.told_until(rt, moment, clock),
            None => Some(self.told(rt)),
        }
    }
}

impl<A: Allocator> Seats<A> {
    /// The seat of a thread, where it was made.
    pub fn at(&self, thread: usize) -> Option<&Seat<A>> {
        let (level, place) = spot(thread);
        Some(rows(&self.levels, level)?.get(place)?)
    }
}

impl<A: Allocator + Clone> Seats<A> {
    /// No seats.
    pub fn new(alloc: A) -> Result<Seats<A>, AllocError> {
        Ok(Seats {
            levels: none_made(alloc, LEVELS)?,
        })
    }

    /// Makes the seat of a thread, where there is none.
    pub fn make(&self, thread: usize) -> Result<(), AllocError> {
        let (level, _) = spot(thread);
        if rows(&self.levels, level).is_some() {
            return Ok(());
        }
        let alloc = self.levels.allocator().clone()?;
        let mut seats = Vec::new(alloc);
        let count = FIRST_COUNT << level.min(LEVELS);
        seats.reserve(count)?;
        for _ in 0..count {
            seats.push(Seat::new())?;
        }
        keep(&self.levels, level, seats);
        Ok(())
    }
}

/// The level of a thread's seat, and its place there: the first has 16, and each has twice as many as the one before.
fn spot(thread: usize) -> (usize, usize) {
    let turn = thread / FIRST_COUNT + 1;
    let level = turn.ilog2() as usize;
    let before = FIRST_COUNT * ((1 << level) - 1);
    (level, thread - before)
}
