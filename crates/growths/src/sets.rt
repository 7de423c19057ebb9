//! Sets: their calls, their owner's calls and their parallel forms.

use crate::memory::{Memory, listed};
use crate::rows::{FROM, On, Rows, Setup, TO, Team, keys};
use dashmap::set::DashSet;
use dashmap_parallel::ParExtendFault;
use dashmap_table::{MapFault, NoMemory, SpreadState};
use refusing_heap::{Heap, Line, Said, Seen, made};
use std::thread::Threads;

type Set<T, A> = DashSet<u64, SpreadState, <T as Rows>::Lock, A>;

/// A call on a set of four shards that is empty, or has the keys 0 and 1.
#[derive(Clone, Copy)]
pub enum OnSet {
    Insert,
    InsertMut,
    Iter,
    /// Behind more keys that were taken out again.
    ShrinkToFit,
    Clone,
    /// By two threads.
    MapCollect,
    OwnedMapCollect,
    /// Of the keys from 10 to below 30.
    Extend,
    /// The same.
    ParExtend,
    /// The same, by two threads.
    ParExtendShared,
}

/// What a call answers, as far as it is looked for in the set.
#[derive(Clone, Copy)]
enum Came {
    /// Of an insertion of the key 5.
    Inserted(Result<bool, u64>),
    Extended(Result<(), u64>),
    Shared(Result<(), ParExtendFault>),
    Other(Said),
}

fn count<T: Rows, A: Memory>(set: &Set<T, A>, from: u64, to: u64, me: &mut T::Party) -> u64 {
    let mut count = 0u64;
    for key in from..to {
        if set.contains(&key, me) {
            count = count.wrapping_add(1);
        }
    }
    count
}

/// Compares what came of a call with what the set has: of an extension the keys before the one that came back, and no
/// others of it.
fn compared<T: Rows, A: Memory>(set: &Set<T, A>, came: Came, me: &mut T::Party) -> Said {
    let put = count::<T, A>(set, FROM, TO, me);
    match came {
        Came::Inserted(Ok(is_new)) => Said::of(is_new && set.contains(&5, me), false),
        Came::Inserted(Err(back)) => Said::of(false, back == 5 && !set.contains(&5, me)),
        Came::Extended(Ok(())) | Came::Shared(Ok(())) => Said::of(put == 20, false),
        Came::Extended(Err(back)) => {
            let before = back.saturating_sub(FROM);
            Said::of(
                false,
                put == before && count::<T, A>(set, FROM, back, me) == before,
            )
        }
        Came::Shared(Err(fault)) => Said::of(false, fault == ParExtendFault::NoMemory && put < 20),
        Came::Other(said) => said,
    }
}

/// What came of a walk over two keys. It asks for room at each shard, also at those that have no key.
fn walked<T: Rows, A: Memory>(set: &Set<T, A>, me: &mut T::Party) -> Said {
    let (mut met, mut refused) = (0u64, 0u64);
    let walk = {
        let me = &mut *me;
        set.iter(me)
    };
    for item in walk {
        match item {
            Ok(_key) => met = met.wrapping_add(1),
            Err(NoMemory) => refused = refused.wrapping_add(1),
        }
    }
    Said::of(met == 2 && refused == 0, met <= 2 && refused == 1)
}

fn collect<T: Rows, R: Threads + Sync, A: Memory>(
    setup: &Setup<'_, T, R, A>,
    set: &Set<T, A>,
    tds: &mut [T::Party],
) -> Said {
    match set.par_iter(tds) {
        Ok(walk) => {
            let list = walk.map_collect(setup.rt, setup.alloc, |key: &u64| *key);
            listed(list, 2, NoMemory)
        }
        Err(_) => Said::Other,
    }
}

/// Makes a call that takes no thread but this one.
fn make_call<T: Rows, R, A: Memory>(
    setup: &Setup<'_, T, R, A>,
    set: &mut Set<T, A>,
    me: &mut T::Party,
    call: OnSet,
) -> Came {
    match call {
        OnSet::Insert => Came::Inserted(set.insert(5, me)),
        OnSet::InsertMut => Came::Inserted(set.insert_mut(5)),
        OnSet::Iter => Came::Other(walked::<T, A>(set, me)),
        OnSet::Clone => Came::Other(made(set.clone(setup.table, me), MapFault::NoMemory)),
        _ => Came::Other(made(set.shrink_to_fit(me), NoMemory)),
    }
}

/// Makes an extension. Answers how many growths were asked for before, too.
fn extend<T: Rows, R: Threads + Sync, A: Memory>(
    setup: &Setup<'_, T, R, A>,
    set: &mut Set<T, A>,
    tds: &mut [T::Party],
    call: OnSet,
) -> Option<(u64, Came)> {
    let keys = keys(setup.alloc)?;
    let before = setup.heap.asked();
    let came = match call {
        OnSet::Extend => Came::Extended(set.extend(keys.into_iter())),
        OnSet::ParExtend => Came::Extended(set.par_extend(keys)),
        _ => Came::Shared(set.par_extend_shared(setup.rt, keys, tds)),
    };
    Some((before, came))
}

/// How many of the keys 0, 1, .. are there before a call.
fn before(call: OnSet) -> u64 {
    match call {
        OnSet::Insert | OnSet::InsertMut => 0,
        _ => 2,
    }
}

/// Puts so many keys in.
fn put<T: Rows, A: Memory>(set: &Set<T, A>, keys: u64, me: &mut T::Party) -> bool {
    let mut is_done = true;
    for key in 0..keys {
        is_done &= set.insert(key, me).is_ok();
    }
    is_done
}

/// Takes these keys out.
fn take<T: Rows, A: Memory>(set: &Set<T, A>, from: u64, to: u64, me: &mut T::Party) {
    for key in from..to {
        let _key = set.remove(&key, me);
    }
}

/// Puts keys in, and takes those out again that aren't to be there before the call.
fn prepare<T: Rows, A: Memory>(set: &Set<T, A>, me: &mut T::Party, call: OnSet) -> bool {
    let keys = before(call);
    let most = if let OnSet::ShrinkToFit = call {
        40
    } else {
        keys
    };
    let is_put = put::<T, A>(set, most, me);
    take::<T, A>(set, keys, most, me);
    is_put
}

/// Compares what stands where no shard is held, since who asks for one that is waits.
fn stands<T: Rows, A: Memory>(
    heap: &Heap,
    set: &Set<T, A>,
    keys: u64,
    came: Came,
    me: &mut T::Party,
) -> bool {
    compared::<T, A>(set, came, me).fits(heap) && count::<T, A>(set, 0, keys, me) == keys
}

/// Makes a call. Answers how many growths were asked for before, too.
fn make<T: Rows, R: Threads + Sync, A: Memory>(
    setup: &Setup<'_, T, R, A>,
    set: &mut Set<T, A>,
    team: &mut Team<T::Party>,
    call: OnSet,
) -> Option<(u64, Came)> {
    let before = setup.heap.asked();
    match call {
        OnSet::Extend | OnSet::ParExtend | OnSet::ParExtendShared => {
            extend(setup, set, &mut team.others, call)
        }
        OnSet::MapCollect => {
            let said = collect(setup, set, &mut team.others);
            Some((before, Came::Other(said)))
        }
        _ => Some((before, make_call(setup, set, &mut team.me, call))),
    }
}

/// Makes a call on a set that is lent.
fn ask_set<T: Rows, R: Threads + Sync, A: Memory>(
    setup: &Setup<'_, T, R, A>,
    set: &mut Set<T, A>,
    team: &mut Team<T::Party>,
    call: OnSet,
) -> Option<Seen> {
    let is_put = prepare::<T, A>(set, &mut team.me, call);
    let (before_it, came) = make(setup, set, team, call)?;
    let behind = setup.heap.asked();
    let is_right = is_put && setup.table.are_free();
    let is_right = is_right && stands::<T, A>(setup.heap, set, before(call), came, &mut team.me);
    Seen::of(before_it, behind, is_right)
}

/// Collects the keys of a set that goes. It may do with less memory than it asks for first.
fn collect_owned<T: Rows, R: Threads + Sync, A: Memory>(
    setup: &Setup<'_, T, R, A>,
    set: Set<T, A>,
) -> Option<Seen> {
    let before = setup.heap.asked();
    let walk = set.into_par_iter();
    let list = walk.map_collect(setup.rt, setup.alloc, |key: u64| key);
    let said = listed(list, 2, NoMemory);
    let behind = setup.heap.asked();
    Seen::of(
        before,
        behind,
        said.may_fit(setup.heap) && setup.table.are_free(),
    )
}

/// Makes a call on a set, or collects its keys as it goes.
fn ask_or_own<T: Rows, R: Threads + Sync, A: Memory>(
    setup: &Setup<'_, T, R, A>,
    mut set: Set<T, A>,
    team: &mut Team<T::Party>,
    call: OnSet,
) -> Option<Seen> {
    match call {
        OnSet::OwnedMapCollect => {
            let is_put = prepare::<T, A>(&set, &mut team.me, call);
            collect_owned(setup, set)?.and(is_put)
        }
        _ => ask_set(setup, &mut set, team, call),
    }
}

/// Makes a call on a new set.
pub fn with_set<T: Rows, R: Threads + Sync, A: Memory>(
    setup: &Setup<'_, T, R, A>,
    team: &mut Team<T::Party>,
    call: OnSet,
) -> Option<Seen> {
    let (alloc, table) = (setup.alloc, setup.table);
    let set: Result<Set<T, A>, MapFault> = DashSet::with_hasher(alloc, SpreadState, 1, table);
    match set {
        Ok(set) => ask_or_own(setup, set, team, call),
        Err(_) => None,
    }
}

const KEY: &str = "the key comes back; no key; no hold";

const MIDDLE: &str = "the key comes back; those before it; none behind it";

const EACH: &str = "each key; no hold";

const PUT: &str = "keys that were put in; no hold";

const ITEMS: &str = "the items before it; the walk is over; no hold";

const SHARED: On<'static> = On::Set(OnSet::ParExtendShared);

const COLLECT: On<'static> = On::Set(OnSet::MapCollect);

const COLLECT_ALL: On<'static> = On::Set(OnSet::OwnedMapCollect);

pub const LINES: &[Line<On<'static>>] = &[
    ("insert", On::Set(OnSet::Insert), KEY),
    ("insert_mut", On::Set(OnSet::InsertMut), KEY),
    ("extend, 20 keys", On::Set(OnSet::Extend), MIDDLE),
    ("par_extend, 20 keys", On::Set(OnSet::ParExtend), MIDDLE),
    ("par_extend_shared, 20 keys", SHARED, PUT),
    ("iter, four shards", On::Set(OnSet::Iter), ITEMS),
    ("shrink_to_fit", On::Set(OnSet::ShrinkToFit), EACH),
    ("clone", On::Set(OnSet::Clone), EACH),
    ("par_iter().map_collect", COLLECT, EACH),
    ("into_par_iter().map_collect", COLLECT_ALL, "no list"),
];
