//! Recorded maps: their calls, and the gathering of what was written down.

use crate::memory::{Memory, is_done, listed};
use crate::rows::{On, Rows, SHARDS, Setup};
use dashmap_record::{
    Call, CallReply, Caller, Entered, GatherFault, RecordFault, Recorded, gather,
};
use dashmap_table::MapFault;
use refusing_heap::{Heap, Line, Said, Seen, made};
use std::hash::{BuildHasherDefault, FoldHasher};

type Fold = BuildHasherDefault<FoldHasher>;

type Small<T, A> = Recorded<u64, u64, Fold, <T as Rows>::Lock, A>;

type Me<A> = Caller<u64, u64, A>;

/// What was written down by one, or of one shard.
type List<A> = Vec<Entered<u64, u64>, A>;

type Reply = Result<CallReply<u64, u64>, RecordFault>;

/// A call on a recorded map on which these were made before, and its reply.
#[derive(Clone, Copy)]
pub struct OnRecord<'a>(&'a [Call<u64, u64>], Call<u64, u64>, CallReply<u64, u64>);

/// The reply of a value that may be there.
fn of_value(said: Result<Option<u64>, RecordFault>) -> Reply {
    match said {
        Ok(Some(value)) => Ok(CallReply::Value(value)),
        Ok(None) => Ok(CallReply::None),
        Err(fault) => Err(fault),
    }
}

fn of_flag(said: Result<bool, RecordFault>) -> Reply {
    match said {
        Ok(flag) => Ok(CallReply::Flag(flag)),
        Err(fault) => Err(fault),
    }
}

fn of_pair(said: Result<Option<(u64, u64)>, RecordFault>) -> Reply {
    match said {
        Ok(Some((key, value))) => Ok(CallReply::Pair(key, value)),
        Ok(None) => Ok(CallReply::None),
        Err(fault) => Err(fault),
    }
}

/// Makes a call, and answers what was written down of it.
fn make<T: Rows, A: Memory>(
    map: &Small<T, A>,
    call: Call<u64, u64>,
    me: &mut Me<A>,
    td: &mut T::Party,
) -> Reply {
    match call {
        Call::Insert(key, value) => of_value(map.insert(key, value, me, td)),
        Call::GetCopied(key) => of_value(map.get_copied(&key, me, td)),
        Call::ReplaceIf(key, old, new) => of_flag(map.replace_if(&key, old, new, me, td)),
        Call::Remove(key) => of_pair(map.remove(&key, me, td)),
    }
}

/// What came of a call that is to have this reply.
fn said_of(reply: Reply, done: CallReply<u64, u64>) -> Said {
    match reply {
        Ok(reply) => Said::of(reply == done, false),
        Err(fault) => Said::of(false, fault == RecordFault::NoMemory),
    }
}

/// How many entries the histories of all shards have.
fn entries<T: Rows, A: Memory>(map: &Small<T, A>, td: &mut T::Party) -> usize {
    let mut count = 0usize;
    for shard in 0..SHARDS {
        let length = map.look(shard, |entries| entries.len(), td);
        count = count.wrapping_add(length.unwrap_or(0));
    }
    count
}

/// Makes calls, and answers whether each was done.
fn make_all<T: Rows, A: Memory>(
    map: &Small<T, A>,
    calls: &[Call<u64, u64>],
    me: &mut Me<A>,
    td: &mut T::Party,
) -> bool {
    let mut are_done = true;
    for call in calls {
        are_done &= make::<T, A>(map, *call, me, td).is_ok();
    }
    are_done
}

/// Whether a refused call has left no entry, of so many before and this last one, and is done when it is made again.
fn is_kept<T: Rows, A: Memory>(
    map: &Small<T, A>,
    (last, count): (u64, usize),
    me: &mut Me<A>,
    td: &mut T::Party,
    call: OnRecord<'_>,
) -> bool {
    let has_none = me.last() == last && entries::<T, A>(map, td) == count;
    has_none && is_done(said_of(make::<T, A>(map, call.1, me, td), call.2))
}

/// Makes the call. A refused one is made again, and is answered then as if it hadn't been made before. What stands is
/// looked at where no shard is held, since who asks for one that is waits.
fn ask<T: Rows, R, A: Memory>(
    setup: &Setup<'_, T, R, A>,
    map: &Small<T, A>,
    me: &mut Me<A>,
    td: &mut T::Party,
    call: OnRecord<'_>,
) -> Option<Seen> {
    if !make_all::<T, A>(map, call.0, me, td) {
        return None;
    }
    let (last, count) = (me.last(), entries::<T, A>(map, td));
    let before = setup.heap.asked();
    let said = said_of(make::<T, A>(map, call.1, me, td), call.2);
    let behind = setup.heap.asked();
    let stood = setup.table.are_free() && said.fits(setup.heap);
    let is_made = is_done(said) || (stood && is_kept::<T, A>(map, (last, count), me, td, call));
    let stands = stood && is_made && setup.table.are_free();
    let is_whole = stands && entries::<T, A>(map, td) == count.wrapping_add(1);
    Seen::of(before, behind, is_whole)
}

/// Gathers these entries. Answers how many growths were asked for before, too.
fn gather_lists<A: Memory>(
    heap: &Heap,
    alloc: A,
    histories: Vec<List<A>, A>,
    logs: Vec<List<A>, A>,
    count: usize,
) -> (u64, Said) {
    let before = heap.asked();
    let list = gather(alloc, histories, logs, &Fold::new());
    (before, listed(list, count, GatherFault::NoMemory))
}

/// Gathers what was written down by the only caller.
fn gather_all<T: Rows, A: Memory>(
    heap: &Heap,
    alloc: A,
    map: Small<T, A>,
    me: Me<A>,
    count: usize,
) -> Option<(u64, Said)> {
    let mut logs = Vec::new(alloc);
    logs.push(me.log()).ok()?;
    Some(gather_lists(heap, alloc, map.histories(), logs, count))
}

/// Makes twelve calls.
fn make_twelve<T: Rows, A: Memory>(map: &Small<T, A>, me: &mut Me<A>, td: &mut T::Party) -> bool {
    let mut are_done = true;
    for key in 0..6 {
        are_done &= make_all::<T, A>(map, &[Call::Insert(key, key), Call::GetCopied(key)], me, td);
    }
    are_done
}

/// Makes the call on a recorded map that goes, and looks at all that was written down.
fn ask_all<T: Rows, R, A: Memory>(
    setup: &Setup<'_, T, R, A>,
    map: Small<T, A>,
    mut me: Me<A>,
    td: &mut T::Party,
    call: OnRecord<'_>,
) -> Option<Seen> {
    let seen = ask(setup, &map, &mut me, td, call);
    let count = call.0.len().wrapping_add(1);
    let gathered = gather_all::<T, A>(setup.heap, setup.alloc, map, me, count);
    seen?.and(is_done(gathered?.1))
}

/// Makes twelve calls on a recorded map that goes, and gathers what was written down of them.
fn gather_its<T: Rows, R, A: Memory>(
    setup: &Setup<'_, T, R, A>,
    map: Small<T, A>,
    mut me: Me<A>,
    td: &mut T::Party,
) -> Option<Seen> {
    let are_done = make_twelve::<T, A>(&map, &mut me, td);
    let (before, said) = gather_all::<T, A>(setup.heap, setup.alloc, map, me, 12)?;
    said.seen(setup.heap, before, are_done)
}

/// A new recorded map, and its only caller.
fn recorded<T: Rows, A: Memory>(alloc: A, table: T) -> Option<(Small<T, A>, Me<A>)> {
    let (map, mut callers) = Recorded::new(alloc, SHARDS, Fold::new(), 1, table).ok()?;
    Some((map, callers.pop()?))
}

/// Makes the call on a new recorded map, and looks at all that was written down.
pub fn with_record<T: Rows, R, A: Memory>(
    setup: &Setup<'_, T, R, A>,
    td: &mut T::Party,
    call: OnRecord<'_>,
) -> Option<Seen> {
    match recorded::<T, A>(setup.alloc, setup.table) {
        Some((map, me)) => ask_all(setup, map, me, td, call),
        None => None,
    }
}

/// Makes twelve calls on a new recorded map, and gathers what was written down of them.
pub fn gather_twelve<T: Rows, R, A: Memory>(
    setup: &Setup<'_, T, R, A>,
    td: &mut T::Party,
) -> Option<Seen> {
    match recorded::<T, A>(setup.alloc, setup.table) {
        Some((map, me)) => gather_its(setup, map, me, td),
        None => None,
    }
}

/// Makes a recorded map. The rows that it took stay used, of a refused one too.
pub fn make_record<T: Rows, R, A: Memory>(setup: &Setup<'_, T, R, A>) -> Option<Seen> {
    let (alloc, table) = (setup.alloc, setup.table);
    let before = setup.heap.asked();
    let map: Result<(Small<T, A>, Vec<Me<A>, A>), MapFault> = Recorded::new(
        alloc,
        SHARDS,
        Fold::new(),
        2,
        table,
    );
    made(map, MapFault::NoMemory).seen(setup.heap, before, table.are_taken(SHARDS))
}

const FOUR: &[Call<u64, u64>] = &[
    Call::Insert(1, 2),
    Call::Insert(1, 3),
    Call::Insert(1, 4),
    Call::Insert(1, 5),
];

const PUT: Call<u64, u64> = Call::Insert(1, 9);

const REPLACE: Call<u64, u64> = Call::ReplaceIf(1, 5, 6);

const FIVE: CallReply<u64, u64> = CallReply::Value(5);

const INTO_NEW: On<'static> = On::Record(OnRecord(&[], PUT, CallReply::None));

const PRESENT: On<'static> = On::Record(OnRecord(FOUR, PUT, FIVE));

const REMOVED: On<'static> = On::Record(OnRecord(FOUR, Call::Remove(1), CallReply::Pair(1, 5)));

const GOT: On<'static> = On::Record(OnRecord(FOUR, Call::GetCopied(1), FIVE));

const REPLACED: On<'static> = On::Record(OnRecord(FOUR, REPLACE, CallReply::Flag(true)));

const KEPT: &str = "log, history, stamps, pairs; no hold";

const ROWS: &str = "no map; its rows of the table stay used";

pub const LINES: &[Line<On<'static>>] = &[
    ("insert, of a new key", INTO_NEW, KEPT),
    ("insert, of a key that is there", PRESENT, KEPT),
    ("remove", REMOVED, KEPT),
    ("get_copied", GOT, KEPT),
    ("replace_if", REPLACED, KEPT),
];

pub const WHOLE: &[Line<On<'static>>] = &[
    ("Recorded::new", On::MakeRecord, ROWS),
    ("gather, of twelve calls", On::Gather, "no history"),
];
