//! Guards that own an Arc of their lock: each such call clones the Arc first, and takes no lock where that is
//! refused.

use crate::memory::Memory;
use lock_api::{ArcGuard, Mutex, ReentrantMutex, RwLock};
use lock_api_guards::Hold;
use lock_api_raw::{GetThreadId, RawMutexTimed, RawRwLockTimed, RawRwLockUpgradeTimed};
use lock_api_spin::{PackedLock, PackedMutex, Parties};
use refusing_heap::{Case, Heap, Line, Said, Seen};
use std::rt::Clock;
use std::sync::{Arc, Wait};
use std::time::{Duration, Instant};

/// How a lock that nobody has is asked for.
#[derive(Clone, Copy)]
pub enum Ask {
    Waits,
    Tries,
    For,
    Until,
}

/// A call on a lock of some kind.
#[derive(Clone, Copy)]
pub enum OfArc {
    Locks(Ask),
    /// A mutex whose holds nest.
    Nests(Ask),
    Reads(Ask),
    Writes(Ask),
    Upgrades(Ask),
}

type Mutual<Q, A> = Arc<Mutex<Q, u64>, A>;

type Nested<Q, G, A> = Arc<ReentrantMutex<Q, G, u64>, A>;

type Shared<Q, A> = Arc<RwLock<Q, u64>, A>;

fn short() -> Duration {
    Duration::from_millis(1)
}

/// What came of a call that waits: a guard, which goes at once, or a refusal.
fn waited<H: Hold, E: Drop>(guard: Result<ArcGuard<H>, E>) -> Said
where
    H::Runtime: Wait,
{
    match guard {
        Ok(_guard) => Said::Done,
        Err(_) => Said::Refused,
    }
}

/// What came of a call that may give up.
fn tried<H: Hold, E: Drop>(guard: Result<Option<ArcGuard<H>>, E>) -> Said
where
    H::Runtime: Wait,
{
    match guard {
        Ok(Some(_guard)) => Said::Done,
        Ok(None) => Said::Other,
        Err(_) => Said::Refused,
    }
}

fn lock<Q: RawMutexTimed<Duration = Duration, Instant = Instant> + Drop, C: Clock, A: Memory>(
    clock: &C,
    lock: &Mutual<Q, A>,
    ask: Ask,
    now: Instant,
    party: &mut Q::Party,
) -> Said
where
    Q::Runtime: Wait,
{
    match ask {
        Ask::Waits => waited(Mutex::lock_arc(lock, party)),
        Ask::Tries => tried(Mutex::try_lock_arc(lock)),
        Ask::For => tried(Mutex::try_lock_arc_for(lock, short(), clock, party)),
        Ask::Until => tried(Mutex::try_lock_arc_until(lock, now, clock, party)),
    }
}

fn nest<
    Q: RawMutexTimed<Duration = Duration, Instant = Instant> + Drop,
    G: GetThreadId<Party = Q::Party> + Drop,
    C: Clock,
    A: Memory,
>(clock: &C, lock: &Nested<Q, G, A>, ask: Ask, now: Instant, party: &mut Q::Party) -> Said
where
    Q::Runtime: Wait,
{
    match ask {
        Ask::Waits => waited(ReentrantMutex::lock_arc(lock, party)),
        Ask::Tries => tried(ReentrantMutex::try_lock_arc(lock, party)),
        Ask::For => tried(ReentrantMutex::try_lock_arc_for(lock, short(), clock, party)),
        Ask::Until => tried(ReentrantMutex::try_lock_arc_until(lock, now, clock, party)),
    }
}

fn read<Q: RawRwLockTimed<Duration = Duration, Instant = Instant> + Drop, C: Clock, A: Memory>(
    clock: &C,
    lock: &Shared<Q, A>,
    ask: Ask,
    now: Instant,
    party: &mut Q::Party,
) -> Said
where
    Q::Runtime: Wait,
{
    match ask {
        Ask::Waits => waited(RwLock::read_arc(lock, party)),
        Ask::Tries => tried(RwLock::try_read_arc(lock)),
        Ask::For => tried(RwLock::try_read_arc_for(lock, short(), clock, party)),
        Ask::Until => tried(RwLock::try_read_arc_until(lock, now, clock, party)),
    }
}

fn write<Q: RawRwLockTimed<Duration = Duration, Instant = Instant> + Drop, C: Clock, A: Memory>(
    clock: &C,
    lock: &Shared<Q, A>,
    ask: Ask,
    now: Instant,
    party: &mut Q::Party,
) -> Said
where
    Q::Runtime: Wait,
{
    match ask {
        Ask::Waits => waited(RwLock::write_arc(lock, party)),
        Ask::Tries => tried(RwLock::try_write_arc(lock)),
        Ask::For => tried(RwLock::try_write_arc_for(lock, short(), clock, party)),
        Ask::Until => tried(RwLock::try_write_arc_until(lock, now, clock, party)),
    }
}

fn upgrade<
    Q: RawRwLockUpgradeTimed<Duration = Duration, Instant = Instant> + Drop,
    C: Clock,
    A: Memory,
>(clock: &C, lock: &Shared<Q, A>, ask: Ask, now: Instant, party: &mut Q::Party) -> Said
where
    Q::Runtime: Wait,
{
    match ask {
        Ask::Waits => waited(RwLock::upgradable_read_arc(lock, party)),
        Ask::Tries => tried(RwLock::try_upgradable_read_arc(lock)),
        Ask::For => tried(RwLock::try_upgradable_read_arc_for(lock, short(), clock, party)),
        Ask::Until => tried(RwLock::try_upgradable_read_arc_until(lock, now, clock, party)),
    }
}

fn in_arc<T: Drop, E: Drop, A: Memory>(alloc: A, lock: Result<T, E>) -> Option<Arc<T, A>> {
    match lock {
        Ok(lock) => Arc::new(alloc, lock).ok(),
        Err(_) => None,
    }
}

fn on_mutex<R: Wait + Clock + Copy + Drop, A: Memory>(
    rt: R,
    heap: &Heap,
    alloc: A,
    ask: Ask,
    now: Instant,
) -> Option<Seen> {
    let mutex: Mutual<PackedMutex<R>, A> = in_arc(alloc, Mutex::new(rt, 5))?;
    let before = heap.asked();
    lock(&rt, &mutex, ask, now, &mut 1).seen(heap, before, !mutex.is_locked())
}

fn on_nested<R: Wait + Clock + Copy + Drop, A: Memory>(
    rt: R,
    heap: &Heap,
    alloc: A,
    ask: Ask,
    now: Instant,
) -> Option<Seen> {
    let mutex: Nested<PackedMutex<R>, Parties, A> = in_arc(alloc, ReentrantMutex::new(rt, 2, 5))?;
    let before = heap.asked();
    nest(&rt, &mutex, ask, now, &mut 1).seen(heap, before, !mutex.is_locked())
}

fn ask_lock<
    Q: RawRwLockUpgradeTimed<Duration = Duration, Instant = Instant> + Drop,
    C: Clock,
    A: Memory,
>(clock: &C, lock: &Shared<Q, A>, call: OfArc, now: Instant, party: &mut Q::Party) -> Said
where
    Q::Runtime: Wait,
{
    match call {
        OfArc::Reads(ask) => read(clock, lock, ask, now, party),
        OfArc::Writes(ask) => write(clock, lock, ask, now, party),
        OfArc::Upgrades(ask) => upgrade(clock, lock, ask, now, party),
        _ => Said::Other,
    }
}

fn on_lock<R: Wait + Clock + Copy + Drop, A: Memory>(
    rt: R,
    heap: &Heap,
    alloc: A,
    call: OfArc,
    now: Instant,
) -> Option<Seen> {
    let lock: Shared<PackedLock<R>, A> = in_arc(alloc, RwLock::new(rt, 4, 5))?;
    let before = heap.asked();
    ask_lock(&rt, &lock, call, now, &mut 1).seen(heap, before, !lock.is_locked())
}

impl<R: Wait + Clock + Copy + Drop> Case<R> for OfArc {
    fn run(self, rt: R, heap: &Heap) -> Option<Seen> {
        let now = Instant::now(&rt).ok()?;
        match self {
            OfArc::Locks(ask) => on_mutex(rt, heap, heap, ask, now),
            OfArc::Nests(ask) => on_nested(rt, heap, heap, ask, now),
            _ => on_lock(rt, heap, heap, self, now),
        }
    }
}

const NONE: &str = "takes none";

pub const OF_MUTEX: &[Line<OfArc>] = &[
    ("lock_arc", OfArc::Locks(Ask::Waits), NONE),
    ("try_lock_arc", OfArc::Locks(Ask::Tries), NONE),
    ("try_lock_arc_for", OfArc::Locks(Ask::For), NONE),
    ("try_lock_arc_until", OfArc::Locks(Ask::Until), NONE),
];

pub const OF_NESTED: &[Line<OfArc>] = &[
    ("lock_arc", OfArc::Nests(Ask::Waits), NONE),
    ("try_lock_arc", OfArc::Nests(Ask::Tries), NONE),
    ("try_lock_arc_for", OfArc::Nests(Ask::For), NONE),
    ("try_lock_arc_until", OfArc::Nests(Ask::Until), NONE),
];

const WAITS: OfArc = OfArc::Upgrades(Ask::Waits);

const TRIES: OfArc = OfArc::Upgrades(Ask::Tries);

const FOR: OfArc = OfArc::Upgrades(Ask::For);

const UNTIL: OfArc = OfArc::Upgrades(Ask::Until);

pub const OF_LOCK: &[Line<OfArc>] = &[
    ("read_arc", OfArc::Reads(Ask::Waits), NONE),
    ("try_read_arc", OfArc::Reads(Ask::Tries), NONE),
    ("try_read_arc_for", OfArc::Reads(Ask::For), NONE),
    ("try_read_arc_until", OfArc::Reads(Ask::Until), NONE),
    ("write_arc", OfArc::Writes(Ask::Waits), NONE),
    ("try_write_arc", OfArc::Writes(Ask::Tries), NONE),
    ("try_write_arc_for", OfArc::Writes(Ask::For), NONE),
    ("try_write_arc_until", OfArc::Writes(Ask::Until), NONE),
    ("upgradable_read_arc", WAITS, NONE),
    ("try_upgradable_read_arc", TRIES, NONE),
    ("try_upgradable_read_arc_for", FOR, NONE),
    ("try_upgradable_read_arc_until", UNTIL, NONE),
];
