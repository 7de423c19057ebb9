//! Calls of a map's owner, clones, calls that wait up to a moment, and parallel forms of a shared map.

use crate::memory::{Memory, listed};
use crate::rows::{EACH, FROM, MIDDLE, Map, On, PAIR, Rows, Setup, TO, Team, count, pairs, put};
use dashmap_calls::{Answer, Call, Keyed, make};
use dashmap_map::UntilFault;
use dashmap_parallel::{ParExtendFault, ParallelMap, par_extend_shared};
use dashmap_plain::clones::CloneMap;
use dashmap_plain::par_extend;
use dashmap_table::{MapFault, NoMemory, SpreadState};
use refusing_heap::{Heap, Line, Said, Seen, made, refused_growth};
use std::rt::Clock;
use std::thread::Threads;
use std::time::Instant;

/// A call on a map that is empty, or has the keys 0 and 1, each with itself.
#[derive(Clone, Copy)]
pub enum Owned {
    InsertMut,
    TryReserve,
    Clone,
    /// By two threads.
    MapCollect,
    /// Of the keys from 10 to below 30, each with itself.
    Extend,
    /// The same.
    ParExtend,
    /// The same, by two threads.
    ParExtendShared,
}

/// What a call answers, as far as it is looked for in the map.
#[derive(Clone, Copy)]
enum Came {
    /// Of an insertion of the key 5 with 7.
    Inserted(Result<Option<u64>, (u64, u64)>),
    Extended(Result<(), (u64, u64)>),
    Shared(Result<(), ParExtendFault>),
    Other(Said),
}

/// How many pairs more a shard is asked to have room for.
const MORE: usize = 100;

fn inserted(value: Answer, said: Result<Option<u64>, (u64, u64)>) -> Said {
    match said {
        Ok(old) => Said::of(old.is_none() && value == Answer::Number(7), false),
        Err(back) => Said::of(false, back == (5, 7) && value == Answer::Absent),
    }
}

/// What came of an extension, so many pairs of which are there: the pairs before the one that came back have to be
/// there, and no others of it.
fn extended<T: Rows, A: Memory>(
    map: &Map<T, A>,
    put: u64,
    said: Result<(), (u64, u64)>,
    me: &mut T::Party,
) -> Said {
    let end = FROM.saturating_add(put);
    let is_right = count::<T, A>(map, FROM, end, me) == put;
    match said {
        Ok(()) => Said::of(is_right && end == TO, false),
        Err(back) => Said::of(false, is_right && back == (end, end) && end < TO),
    }
}

/// Compares what came of a call with what the map has: the keys that were there, and of an extension so many more. Of
/// a shared one any may be there.
fn compared<T: Rows, A: Memory>(map: &Map<T, A>, came: Came, me: &mut T::Party) -> Said {
    let put = count::<T, A>(map, FROM, TO, me);
    let is_whole = map.len(me) as u64 == put.saturating_add(2) && count::<T, A>(map, 0, 2, me) == 2;
    match came {
        Came::Inserted(said) => inserted(make(map, Call::Key(Keyed::View(5)), me), said),
        Came::Extended(said) if is_whole => extended::<T, A>(map, put, said, me),
        Came::Shared(Ok(())) if is_whole => Said::of(put == 20, false),
        Came::Shared(Err(fault)) if is_whole => {
            Said::of(false, fault == ParExtendFault::NoMemory && put < 20)
        }
        Came::Other(said) if is_whole => said,
        _ => Said::Other,
    }
}

/// Asks for room, of which a shard takes two growths. Where a growth of the second is refused the first one keeps its
/// room, and else no room is there.
fn try_reserve<T: Rows, A: Memory>(heap: &Heap, map: &mut Map<T, A>, me: &mut T::Party) -> Said {
    let (room, before) = (map.capacity(me), heap.asked());
    let is_done = map.try_reserve(MORE).is_ok();
    let (now, growth) = (map.capacity(me), refused_growth(heap, before));
    let is_kept = if growth > 2 { now >= MORE } else { now == room };
    Said::of(is_done && now >= 2 * MORE, !is_done && is_kept)
}

fn collect<T: Rows, R: Threads + Sync, A: Memory>(
    setup: &Setup<'_, T, R, A>,
    map: &Map<T, A>,
    tds: &mut [T::Party],
) -> Said {
    match map.par_iter(tds) {
        Ok(walk) => {
            let list = walk.map_collect(setup.rt, setup.alloc, |key: &u64, _: &u64| *key);
            listed(list, 2, NoMemory)
        }
        Err(_) => Said::Other,
    }
}

/// Makes a call that takes no thread but this one.
fn make_call<T: Rows, R, A: Memory>(
    setup: &Setup<'_, T, R, A>,
    map: &mut Map<T, A>,
    me: &mut T::Party,
    call: Owned,
) -> Came {
    match call {
        Owned::InsertMut => Came::Inserted(map.insert_mut(5, 7)),
        Owned::TryReserve => Came::Other(try_reserve::<T, A>(setup.heap, map, me)),
        _ => {
            let copy = CloneMap::clone(map, setup.table, me);
            Came::Other(made(copy, MapFault::NoMemory))
        }
    }
}

/// Makes an extension. Answers how many growths were asked for before, too.
fn extend<T: Rows, R: Threads + Sync, A: Memory>(
    setup: &Setup<'_, T, R, A>,
    map: &mut Map<T, A>,
    tds: &mut [T::Party],
    call: Owned,
) -> Option<(u64, Came)> {
    let pairs = pairs(setup.alloc)?;
    let before = setup.heap.asked();
    let came = match call {
        Owned::Extend => Came::Extended(map.extend(pairs.into_iter())),
        Owned::ParExtend => Came::Extended(par_extend(map, pairs)),
        _ => Came::Shared(par_extend_shared(map, setup.rt, pairs, tds)),
    };
    Some((before, came))
}

/// Inserts up to a moment that has come.
fn insert_until<T: Rows, R: Clock, A: Memory>(
    rt: &R,
    map: &Map<T, A>,
    me: &mut T::Party,
) -> Option<Came> {
    let moment = Instant::now(rt).ok()?;
    Some(match map.insert_until(5, 7, moment, rt, me) {
        Ok(old) => Came::Inserted(Ok(old)),
        Err(UntilFault::NoMemory(pair)) => Came::Inserted(Err(pair)),
        Err(UntilFault::Locked(_)) => Came::Other(Said::Other),
    })
}

/// Inserts into an empty map that is lent, up to a moment that has come.
pub fn ask_until<T: Rows, R: Clock, A: Memory>(
    setup: &Setup<'_, T, R, A>,
    map: &Map<T, A>,
    me: &mut T::Party,
) -> Option<Seen> {
    let before = setup.heap.asked();
    let came = insert_until::<T, R, A>(setup.rt, map, me)?;
    let behind = setup.heap.asked();
    let stands = setup.table.are_taken(2) && compared::<T, A>(map, came, me).fits(setup.heap);
    Seen::of(before, behind, stands)
}

/// Makes the call. Answers how many growths were asked for before, too.
fn make_any<T: Rows, R: Threads + Sync, A: Memory>(
    setup: &Setup<'_, T, R, A>,
    map: &mut Map<T, A>,
    team: &mut Team<T::Party>,
    call: Owned,
) -> Option<(u64, Came)> {
    let before = setup.heap.asked();
    match call {
        Owned::Extend | Owned::ParExtend | Owned::ParExtendShared => {
            extend(setup, map, &mut team.others, call)
        }
        Owned::MapCollect => {
            let said = collect(setup, map, &mut team.others);
            Some((before, Came::Other(said)))
        }
        _ => Some((before, make_call(setup, map, &mut team.me, call))),
    }
}

/// Makes the call on an empty map that is lent, behind the insertions that it needs. What stands is looked at where no
/// shard is held, since who asks for one that is waits.
pub fn ask_on<T: Rows, R: Threads + Sync, A: Memory>(
    setup: &Setup<'_, T, R, A>,
    map: &mut Map<T, A>,
    team: &mut Team<T::Party>,
    call: Owned,
) -> Option<Seen> {
    let is_empty = matches!(call, Owned::InsertMut);
    put::<T, A>(map, if is_empty { 0 } else { 2 }, &mut team.me);
    let (before, came) = make_any(setup, map, team, call)?;
    let behind = setup.heap.asked();
    let rows = if let Owned::Clone = call { 4 } else { 2 };
    let are_taken = setup.table.are_taken(rows);
    let stands = are_taken && compared::<T, A>(map, came, &mut team.me).fits(setup.heap);
    Seen::of(before, behind, stands)
}

const ROOM: &str = "each pair; room of earlier shards";

const ROWS: &str = "each pair; no hold; rows of the table stay used";

const PUT: &str = "pairs that were put in; no hold";

const RESERVED: On<'static> = On::Owned(Owned::TryReserve);

const BY_ALL: On<'static> = On::Owned(Owned::ParExtend);

const SHARED: On<'static> = On::Owned(Owned::ParExtendShared);

const COLLECTED: On<'static> = On::Owned(Owned::MapCollect);

pub const LINES: &[Line<On<'static>>] = &[
    ("insert_mut", On::Owned(Owned::InsertMut), PAIR),
    ("insert_until", On::InsertUntil, PAIR),
    ("try_reserve, two shards", RESERVED, ROOM),
    ("extend, 20 pairs", On::Owned(Owned::Extend), MIDDLE),
    ("par_extend, 20 pairs", BY_ALL, MIDDLE),
    ("clone", On::Owned(Owned::Clone), ROWS),
];

pub const FORMS: &[Line<On<'static>>] = &[
    ("par_extend_shared, 20 pairs", SHARED, PUT),
    ("par_iter().map_collect", COLLECTED, EACH),
    ("into_par_iter().map_collect", On::Collect, "no list"),
];
