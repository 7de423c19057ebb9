//! Threads that share a map, over the locks of running threads.

use crate::tables::{Lock, Map, Parked, map_of};
use dashmap_calls::{Answer, Call, Keyed, Many, Place, Walk, call_many, make};
use dashmap_table::MapFault;
use linked_list_allocator::LocalHeap;
use lock_api_raw::MakeLock;
use parking_lot_core::ParkingLot;
use parking_lot_rwlock::LockTable;
use std::alloc::{Allocator, Global};
use std::rt::Clock;
use std::sync::Wait;
use std::sync::atomic::{AtomicBool, Ordering};
use std::test::Fail;
use std::thread;
use std::thread::Threads;
use std::time::Duration;

/// How many keys there are.
const KEYS: u64 = 64;

/// What a thread does again and again.
#[derive(Clone, Copy)]
enum Work {
    /// Adds one to the numbers of all keys in turn, at their places.
    Enter,
    /// Adds one to the numbers of all keys in turn.
    Alter,
    /// Adds one to every number by a walk that lends.
    WriteEach,
    /// Adds one to every number.
    AlterAll,
    /// Looks at every pair by a walk that lends.
    ReadEach,
    /// Looks at every pair, and keeps all.
    KeepAll,
}

impl Work {
    /// The call of a turn.
    fn call(self, turn: u64) -> Call {
        let key = turn % KEYS;
        match self {
            Work::Enter => Call::Entry(key, Place::AddTo(1)),
            Work::Alter => Call::Key(Keyed::Alter(key, 1)),
            Work::WriteEach => Call::Walk(Walk::IterMut(1)),
            Work::AlterAll => Call::Walk(Walk::AlterAll(1)),
            Work::ReadEach => Call::Walk(Walk::Iter(0)),
            Work::KeepAll => Call::Walk(Walk::RetainAll),
        }
    }

    /// Whether a call was answered as it is to be: where it is a walk, it met each key.
    fn is_right(self, answer: Answer) -> bool {
        match self {
            Work::Enter => matches!(answer, Answer::Number(_)),
            Work::Alter | Work::AlterAll => answer == Answer::Done,
            Work::WriteEach | Work::KeepAll => answer == Answer::Number(KEYS),
            Work::ReadEach => matches!(answer, Answer::Three(KEYS, 2016, _)),
        }
    }
}

/// What a thread does, and how often.
type Job = (Work, u64);

/// Does a job, and tells whether each call was answered as it is to be.
fn does<Q: Lock>(map: &Map<Q, Global>, job: Job, mut me: Q::Party) -> bool
where
    Q::Party: Drop,
{
    let mut right = true;
    for turn in 0..job.1 {
        right &= job.0.is_right(make(map, job.0.call(turn), &mut me));
    }
    right
}

/// The sum of the numbers, each of which is taken out, if the keys are all there.
fn sum_of<Q: Lock>(map: &Map<Q, Global>, me: &mut Q::Party) -> Option<u64> {
    let mut sum = 0u64;
    for key in 0..KEYS {
        match make(map, Call::Key(Keyed::Remove(key)), me) {
            Answer::Pair(_, number) => sum = sum.wrapping_add(number),
            _ => return None,
        }
    }
    Some(sum)
}

/// A job, and what the thread that does it has.
type Worker<P> = (Job, P);

/// Has two threads do their jobs.
fn two_do<R: Threads, Q: Lock + Sync>(
    rt: &R,
    map: &Map<Q, Global>,
    (one, my): Worker<Q::Party>,
    (two, their): Worker<Q::Party>,
) -> bool
where
    Q::Party: Send + Drop,
{
    let (first, second) = thread::join(rt, || does(map, one, my), || does(map, two, their));
    first & second
}

/// Has four threads do their jobs.
fn four_do<R: Threads + Sync, Q: Lock + Sync>(
    rt: &R,
    map: &Map<Q, Global>,
    (one, two): (Worker<Q::Party>, Worker<Q::Party>),
    (three, four): (Worker<Q::Party>, Worker<Q::Party>),
) -> bool
where
    Q::Party: Send + Drop,
{
    let (first, second) = thread::join(
        rt,
        || two_do(rt, map, one, two),
        || two_do(rt, map, three, four),
    );
    first & second
}

/// Four workers, in pairs.
type Team<P> = ((Worker<P>, Worker<P>), (Worker<P>, Worker<P>));

/// Has four threads share an empty map, of 64 zeros then. It answers what the numbers add up to, if each call was
/// answered as it is to be.
fn share<R: Threads + Sync, Q: Lock + Sync>(
    rt: &R,
    map: &Map<Q, Global>,
    team: Team<Q::Party>,
    me: &mut Q::Party,
) -> Option<u64>
where
    Q::Party: Send + Drop,
{
    let mut right = call_many(map, Many::Zero(0, KEYS), me) == KEYS;
    right &= four_do(rt, map, team.0, team.1);
    right &= make(map, Call::Len, me) == Answer::Number(KEYS);
    let sum = sum_of(map, me);
    right &= make(map, Call::IsEmpty, me) == Answer::Flag(true);
    if right { sum } else { None }
}

/// The same of a new map.
fn share_new<R: Threads + Sync, T: Copy, Q: Lock + MakeLock<T> + Sync>(
    rt: &R,
    table: T,
    alloc: Global,
    team: Team<Q::Party>,
    me: &mut Q::Party,
) -> Option<u64>
where
    Q::Party: Send + Drop,
{
    let made: Result<Map<Q, Global>, MapFault> = map_of(table, alloc, 8);
    match made {
        Ok(map) => share(rt, &map, team, me),
        Err(_) => None,
    }
}

/// The same over rows of a table.
fn shared<'t, 'l, R: Wait + Threads + Sync>(
    rt: &R,
    table: &'t LockTable<'l, R>,
    alloc: Global,
    jobs: [Job; 4],
) -> Result<Option<u64>, Fail> {
    let lot = table.lot();
    let mut me = lot.thread_data()?;
    let one_two = ((jobs[0], lot.thread_data()?), (jobs[1], lot.thread_data()?));
    let three_four = ((jobs[2], lot.thread_data()?), (jobs[3], lot.thread_data()?));
    let team = (one_two, three_four);
    Ok(share_new::<R, _, Parked<'t, 'l, R>>(rt, table, alloc, team, &mut me))
}

/// Jobs of four threads, and the sum that they make of 64 zeros.
const JOBS: [([Job; 4], u64); 3] = [
    ([(Work::Enter, 25_000); 4], 100_000),
    (
        [
            (Work::WriteEach, 200),
            (Work::ReadEach, 200),
            (Work::Alter, 10_000),
            (Work::ReadEach, 0),
        ],
        22_800,
    ),
    (
        [
            (Work::AlterAll, 200),
            (Work::KeepAll, 200),
            (Work::Alter, 10_000),
            (Work::KeepAll, 0),
        ],
        22_800,
    ),
];

#[test]
fn threads_count_and_walk_together(rt: HostRuntime) -> Result<(), Fail> {
    for (jobs, sum) in JOBS {
        let lot = ParkingLot::new(rt, rt.alloc(), 5, 7)?;
        let table = LockTable::new(rt.alloc(), &lot, 8)?;
        let told = shared(&rt, &table, rt.alloc(), jobs)?;
        assert!(rt; told == Some(sum), "to {sum}");
    }
    Ok(())
}

/// How long a thread looks for a flag: so many turns of a millisecond.
const TURNS: u32 = 10_000;

/// Waits for a flag, and tells whether it was seen.
fn saw<C: Clock>(clock: &C, flag: &AtomicBool) -> bool {
    for _ in 0..TURNS {
        if flag.load(Ordering::SeqCst) {
            return true;
        }
        thread::sleep(clock, Duration::from_millis(1));
    }
    false
}

/// Flags of two threads.
#[derive(Drop)]
struct Flags {
    held: AtomicBool,
    answered: AtomicBool,
}

/// Holds key 0 until the other thread's insertion was answered, and tells whether it was.
fn holds<R: Clock, Q: Lock>(
    rt: &R,
    map: &Map<Q, Global>,
    flags: &Flags,
    me: &mut Q::Party,
) -> bool {
    match map.get_mut(&0, me) {
        Some(mut guard) => {
            flags.held.store(true, Ordering::SeqCst);
            let is_answered = saw(rt, &flags.answered);
            *guard = 9;
            is_answered
        }
        None => false,
    }
}

/// Puts a key of the other shard in while key 0 is held.
fn inserts<R: Clock, Q: Lock>(
    rt: &R,
    map: &Map<Q, Global>,
    flags: &Flags,
    me: &mut Q::Party,
) -> bool {
    let is_held = saw(rt, &flags.held);
    let is_new = map.insert(1, 1, me) == Ok(None);
    flags.answered.store(true, Ordering::SeqCst);
    is_held & is_new
}

/// What two threads tell, one of which holds key 0 while the other puts key 1 in.
fn both<R: Threads + Clock + Sync, Q: Lock + Sync>(
    rt: &R,
    map: &Map<Q, Global>,
    one: &mut Q::Party,
    two: &mut Q::Party,
) -> (bool, bool)
where
    Q::Party: Send,
{
    let flags = Flags {
        held: AtomicBool::new(false),
        answered: AtomicBool::new(false),
    };
    thread::join(
        rt,
        || holds(rt, map, &flags, one),
        || inserts(rt, map, &flags, two),
    )
}

/// Whether an empty map of two shards has both held at once.
fn are_held_at_once<R: Threads + Clock + Sync, Q: Lock + Sync>(
    rt: &R,
    map: &Map<Q, Global>,
    one: &mut Q::Party,
    two: &mut Q::Party,
) -> bool
where
    Q::Party: Send,
{
    let mut right = map.insert(0, 0, one) == Ok(None);
    right &= map.determine_map(&0) == 0 && map.determine_map(&1) == 1;
    right &= both(rt, map, one, two) == (true, true);
    right &= map.remove(&0, one) == Some((0, 9));
    right & map.contains_key(&1, one)
}

/// The same of a new map.
fn new_are_held<R: Threads + Clock + Sync, T: Copy, Q: Lock + MakeLock<T> + Sync>(
    rt: &R,
    table: T,
    alloc: Global,
    one: &mut Q::Party,
    two: &mut Q::Party,
) -> bool
where
    Q::Party: Send,
{
    let made: Result<Map<Q, Global>, MapFault> = map_of(table, alloc, 2);
    match made {
        Ok(map) => are_held_at_once(rt, &map, one, two),
        Err(_) => false,
    }
}

/// The same over rows of a table.
fn held_over<'t, 'l, R: Wait + Threads + Clock + Sync>(
    rt: &R,
    table: &'t LockTable<'l, R>,
    alloc: Global,
) -> Result<bool, Fail> {
    let lot = table.lot();
    let (mut one, mut two) = (lot.thread_data()?, lot.thread_data()?);
    Ok(new_are_held::<R, _, Parked<'t, 'l, R>>(rt, table, alloc, &mut one, &mut two))
}

#[test]
fn two_shards_are_held_at_once(rt: HostRuntime) -> Result<(), Fail> {
    let lot = ParkingLot::new(rt, rt.alloc(), 3, 7)?;
    let table = LockTable::new(rt.alloc(), &lot, 2)?;
    assert!(rt; held_over(&rt, &table, rt.alloc())?);
    Ok(())
}

/// What a map of four shards in some memory is refused as.
fn fault_of<T: Copy, Q: Lock + MakeLock<T>, A: Allocator + Clone>(
    table: T,
    alloc: A,
) -> Option<MapFault> {
    let made: Result<Map<Q, A>, MapFault> = map_of(table, alloc, 4);
    made.err()
}

/// The same over rows of a table.
fn fault_over<'t, 'l, R: Wait, A: Allocator + Clone>(
    table: &'t LockTable<'l, R>,
    alloc: A,
) -> Option<MapFault> {
    fault_of::<_, Parked<'t, 'l, R>, A>(table, alloc)
}

#[test]
fn a_full_table_is_told_before_want_of_memory(rt: HostRuntime) -> Result<(), Fail> {
    let lot = ParkingLot::new(rt, rt.alloc(), 1, 7)?;
    let table = LockTable::new(rt.alloc(), &lot, 3)?;
    assert!(rt; fault_over(&table, rt.alloc()) == Some(MapFault::TableFull));
    let table = LockTable::new(rt.alloc(), &lot, 6)?;
    let heap = LocalHeap::new(rt.alloc(), 0)?;
    for fault in [MapFault::NoMemory, MapFault::TableFull] {
        assert!(rt; fault_over(&table, &heap) == Some(fault));
    }
    Ok(())
}
