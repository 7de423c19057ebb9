//! Calls on maps, sets and recorded maps, each over rows of a new table of locks.

use crate::entries::insert_entry;
use crate::forms::{Viewed, collect_all, with_view};
use crate::made::{Make, make_map, make_set};
use crate::maps::{OnMap, look};
use crate::memory::Memory;
use crate::owners::{Owned, ask_on, ask_until};
use crate::records::{OnRecord, gather_twelve, make_record, with_record};
use crate::sets::{OnSet, with_set};
use dashmap_calls::{Answer, Call, Many, Numbers, make as answer};
use dashmap_map::DashMap;
use dashmap_table::{MapFault, SpreadState};
use lock_api_raw::{MakeLock, RawRwLockTimed};
use parking_lot_core::{ParkingLot, ThreadData};
use parking_lot_rwlock::{self as running, LockTable};
use refusing_heap::{Heap, Line, Refusal, RefusingHeap, Seen, Wrong, print_line};
use std::alloc::{Allocator, Global};
use std::random::RandomSource;
use std::rt::Clock;
use std::sync::Wait;
use std::thread::Threads;
use std::time::Instant;

type Table<'l, R> = LockTable<'l, R>;

/// The lock of a shard.
type Row<'t, 'l, R> = running::RawRwLock<'t, 'l, R, 0, Global>;

pub type Map<T, A> = Numbers<SpreadState, <T as Rows>::Lock, A>;

const ROWS: usize = 16;

pub const SHARDS: usize = 2;

pub const PAIR: &str = "the pair comes back; each other pair; no hold";

pub const MIDDLE: &str = "the pair comes back; those before it; none behind it";

pub const EACH: &str = "each pair; no hold";

pub const FROM: u64 = 10;

pub const TO: u64 = 30;

/// A thread, and two others for parallel forms.
#[derive(Drop)]
pub struct Team<P> {
    pub me: P,
    pub others: Vec<P>,
}

/// What a call is made with: the heap that refuses growths, the memory of what is called, a runtime, and a new table of
/// locks.
#[derive(Drop)]
pub struct Setup<'a, T, R, A> {
    pub heap: &'a Heap,
    pub alloc: A,
    pub rt: &'a R,
    pub table: T,
}

/// A call.
#[derive(Clone, Copy)]
pub enum On<'a> {
    Make(Make),
    MakeSet(Make),
    Map(OnMap<'a>),
    Owned(Owned),
    /// Of an entry whose key is a text.
    InsertEntry,
    InsertUntil,
    /// `map_collect` of a map that goes.
    Collect,
    View(Viewed),
    Set(OnSet),
    Record(OnRecord<'a>),
    MakeRecord,
    Gather,
}

/// The pairs of an extension, each key with itself.
pub fn pairs<A: Allocator>(alloc: A) -> Option<Vec<(u64, u64), A>> {
    let mut pairs = Vec::new(alloc);
    for key in FROM..TO {
        pairs.push((key, key)).ok()?;
    }
    Some(pairs)
}

pub fn keys<A: Allocator>(alloc: A) -> Option<Vec<u64, A>> {
    let mut keys = Vec::new(alloc);
    for key in FROM..TO {
        keys.push(key).ok()?;
    }
    Some(keys)
}

pub fn map_of<T: Rows, A: Memory>(alloc: A, table: T) -> Result<Map<T, A>, MapFault> {
    DashMap::with_hasher_and_shard_amount(alloc, SpreadState, SHARDS, table)
}

/// Puts in so many of the keys 0, 1, .., each with itself.
pub fn put<T: Rows, A: Memory>(map: &Map<T, A>, keys: u64, me: &mut T::Party) {
    let _all = answer(map, Call::Many(Many::Insert(0, keys, 0)), me);
}

/// How many of the keys from one number to below another are there, each with itself.
pub fn count<T: Rows, A: Memory>(map: &Map<T, A>, from: u64, to: u64, me: &mut T::Party) -> u64 {
    match answer(map, Call::Many(Many::View(from, to, 0)), me) {
        Answer::Number(count) => count,
        _ => 0,
    }
}

/// A table of locks whose rows are looked at.
pub trait Rows: Copy + Drop {
    /// What a lock waits with.
    type Runtime: Wait;

    /// What a thread lends to a lock.
    type Party: Send;

    /// The lock of a row, which other threads may share.
    type Lock: RawRwLockTimed<Instant = Instant, Runtime = Self::Runtime, Party = Self::Party>
        + MakeLock<Self>
        + Sync
        + Drop;

    /// Whether each word is 0, so nobody holds a shard or waits for one.
    fn are_free(self) -> bool;

    /// Whether so many rows are taken, none of which is held. One more is taken then.
    fn are_taken(self, rows: usize) -> bool;
}

impl<'t, 'l, R: Wait + Sync> Rows for &'t Table<'l, R> {
    type Runtime = R;

    type Party = ThreadData;

    type Lock = Row<'t, 'l, R>;

    fn are_free(self) -> bool {
        let mut free = true;
        for row in 0..ROWS {
            free &= self.word(row) == Some(0);
        }
        free
    }

    fn are_taken(self, rows: usize) -> bool {
        match self.claim() {
            Ok(row) => self.are_free() && row.number() == rows,
            Err(_) => false,
        }
    }
}

/// Makes a call on a map that is lent.
fn ask_map<T: Rows, R: Threads + Clock + Sync, A: Memory>(
    setup: &Setup<'_, T, R, A>,
    map: &mut Map<T, A>,
    team: &mut Team<T::Party>,
    call: On<'_>,
) -> Option<Seen> {
    match call {
        On::Map(call) => look(setup, map, &mut team.me, call),
        On::InsertUntil => ask_until(setup, map, &mut team.me),
        On::Owned(call) => ask_on(setup, map, team, call),
        _ => None,
    }
}

/// Makes a call on a new map.
fn with_map<T: Rows, R: Threads + Clock + Sync, A: Memory>(
    setup: &Setup<'_, T, R, A>,
    team: &mut Team<T::Party>,
    call: On<'_>,
) -> Option<Seen> {
    let map: Result<Map<T, A>, MapFault> = map_of(setup.alloc, setup.table);
    match map {
        Ok(mut map) => ask_map(setup, &mut map, team, call),
        Err(_) => None,
    }
}

/// Makes a call over any table of locks. What owns a map names neither lock nor heap, since that is ten times as dear
/// to prove.
fn ask<T: Rows, R: Threads + Clock + Sync, A: Memory>(
    setup: &Setup<'_, T, R, A>,
    team: &mut Team<T::Party>,
    call: On<'_>,
) -> Option<Seen>
where
    T::Runtime: RandomSource,
{
    match call {
        On::Make(call) => make_map(setup, call),
        On::MakeSet(call) => make_set(setup, call),
        On::InsertEntry => insert_entry(setup, &mut team.me),
        On::Collect => collect_all(setup, &mut team.me),
        On::View(call) => with_view(setup, &mut team.me, call),
        On::MakeRecord => make_record(setup),
        On::Gather => gather_twelve(setup, &mut team.me),
        On::Record(call) => with_record(setup, &mut team.me, call),
        On::Set(call) => with_set(setup, team, call),
        On::Map(_) | On::Owned(_) | On::InsertUntil => with_map(setup, team, call),
    }
}

/// Registers one more thread.
fn add<R: Wait>(lot: &ParkingLot<R>, others: &mut Vec<ThreadData>) -> bool {
    match lot.thread_data() {
        Ok(other) => others.push(other).is_ok(),
        Err(_) => false,
    }
}

/// Names the lock and the memory.
fn cross<'a, R: Wait + Threads + Clock + RandomSource + Sync>(
    heap: &'a Heap,
    table: &'a Table<'_, R>,
    team: &mut Team<ThreadData>,
    call: On<'_>,
) -> Option<Seen> {
    let setup = Setup {
        heap,
        alloc: heap,
        rt: table.lot().runtime(),
        table,
    };
    ask(&setup, team, call)
}

/// Makes a call over a table, by a thread or two others.
fn over<R: Wait + Threads + Clock + RandomSource + Sync + Send>(
    heap: &Heap,
    table: &Table<'_, R>,
    me: ThreadData,
    call: On<'_>,
) -> Option<Seen> {
    let mut others = Vec::new(*heap.inner());
    let are_two = add(table.lot(), &mut others) && add(table.lot(), &mut others);
    let mut team = Team { me, others };
    cross(heap, table, &mut team, call)?.and(are_two)
}

fn with_table<R: Wait + Threads + Clock + RandomSource + Sync + Send>(
    heap: &Heap,
    table: &Table<'_, R>,
    call: On<'_>,
) -> Option<Seen> {
    match table.lot().thread_data() {
        Ok(me) => over(heap, table, me, call),
        Err(_) => None,
    }
}

fn run<R: Wait + Threads + Clock + RandomSource + Sync + Send + Copy + Drop>(
    rt: R,
    heap: &Heap,
    call: On<'_>,
) -> Option<Seen> {
    let lot = ParkingLot::new(rt, *heap.inner(), 3, 7).ok()?;
    let table = LockTable::new(*heap.inner(), &lot, ROWS).ok()?;
    with_table(heap, &table, call)
}

/// Makes the call in memory of this refusal. Answers how many growths were refused, too.
fn run_under<R: Wait + Threads + Clock + RandomSource + Sync + Send + Copy + Drop>(
    rt: R,
    alloc: Global,
    refusal: Refusal,
    call: On<'_>,
) -> Option<(Seen, u64)> {
    let heap = RefusingHeap::new(alloc, refusal);
    match run(rt, &heap, call) {
        Some(seen) => Some((seen, heap.refused())),
        None => None,
    }
}

/// As `make_in_turn`. These calls are no `Case`, since what some send to threads rests on bounds that a case hasn't.
fn run_in_turn<R: Wait + Threads + Clock + RandomSource + Sync + Send + Copy + Drop>(
    rt: R,
    alloc: Global,
    call: On<'_>,
) -> Result<u64, Wrong> {
    let (seen, _) = run_under(rt, alloc, Refusal::Never, call).ok_or(Wrong::Unprepared)?;
    if !seen.stood {
        return Err(Wrong::Ample);
    }
    let growths = seen.behind.saturating_sub(seen.before);
    for growth in 0..growths {
        let number = seen.before.saturating_add(growth).saturating_add(1);
        match run_under(rt, alloc, Refusal::Once(number), call) {
            Some((seen, 1)) if seen.stood => {}
            Some(_) => return Err(Wrong::Refused(growth.saturating_add(1))),
            None => return Err(Wrong::Unprepared),
        }
    }
    Ok(growths)
}

pub fn print_rows<
    R: AllocGlobal + Print + Wait + Threads + Clock + RandomSource + Copy + Send + Sync + Drop,
>(rt: R, of: &str, lines: &[Line<On<'_>>]) -> bool {
    let mut all = true;
    for &(call, case, stands) in lines {
        let said = run_in_turn(rt, rt.alloc(), case);
        let is_right = said.is_ok();
        all &= print_line(rt, of, call, said, stands).is_ok() && is_right;
    }
    all
}
