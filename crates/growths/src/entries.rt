//! An entry whose key takes memory to be cloned.

use crate::costly::Costly;
use crate::memory::{Memory, is_done};
use crate::rows::{On, Rows, SHARDS, Setup};
use dashmap_map::DashMap;
use dashmap_map::mapref::entry::{Entry, OccupiedEntry};
use dashmap_table::{MapFault, Shard, SpreadState};
use lock_api_guards::{Hold, Lender};
use refusing_heap::{Line, Said, Seen};
use std::hash::Hash;
use std::sync::Wait;

type Entries<'h, T, A> = DashMap<Costly<'h>, u64, SpreadState, <T as Rows>::Lock, A>;

/// The place of a key whose shard is held.
type Place<'m, 'd, 'h, T, A> = Entry<'m, 'd, Costly<'h>, u64, <T as Rows>::Lock, A>;

/// Whether a place that was refused still has its key, of this number, and the value has come back.
fn is_back<T: Rows, A: Memory>(back: (Place<'_, '_, '_, T, A>, u64), number: u64) -> bool {
    back.1 == 7 && back.0.key().number() == number
}

/// Whether the value is there.
fn is_in<K: Eq + Hash + Drop, A: Memory, W: Lender<Part = Shard<K, u64, A>> + Drop, H: Hold, D>(
    entry: OccupiedEntry<K, u64, A, W, H, D>,
) -> bool
where
    H::Runtime: Wait,
{
    *entry.get() == 7
}

/// What came of an insertion of 7 at a place.
fn inserted_at<T: Rows, A: Memory>(entry: Place<'_, '_, '_, T, A>, number: u64) -> Said {
    match entry.insert_entry(7) {
        Ok(entry) => Said::of(is_in(entry), false),
        Err(back) => Said::of(false, is_back::<T, A>(back, number)),
    }
}

/// What came of an insertion of 7 at the place of a new key that stays there: it clones the key.
fn enter<'h, T: Rows, A: Memory>(
    map: &Entries<'h, T, A>,
    key: Costly<'h>,
    me: &mut T::Party,
) -> Said {
    let number = key.number();
    match map.entry(key, me) {
        Ok(entry) => inserted_at::<T, A>(entry, number),
        Err(_key) => Said::Other,
    }
}

/// Makes the call on a map that has another key of the same shard, so there is room for one more.
fn ask_entries<'h, T: Rows, R, A: Memory>(
    setup: &Setup<'h, T, R, A>,
    map: &Entries<'h, T, A>,
    me: &mut T::Party,
) -> Option<Seen> {
    let heap = setup.heap;
    let is_put = map.insert(Costly::new(heap, 1), 0, me).is_ok();
    let before = heap.asked();
    let said = enter::<T, A>(map, Costly::new(heap, 3), me);
    let length = if is_done(said) { 2 } else { 1 };
    let is_right = is_put && setup.table.are_free() && map.len(me) == length;
    said.seen(heap, before, is_right)
}

/// Makes the call on a new map.
pub fn insert_entry<T: Rows, R, A: Memory>(
    setup: &Setup<'_, T, R, A>,
    me: &mut T::Party,
) -> Option<Seen> {
    let (alloc, table) = (setup.alloc, setup.table);
    let map: Result<Entries<'_, T, A>, MapFault> = DashMap::with_hasher_and_shard_amount(
        alloc,
        SpreadState,
        SHARDS,
        table,
    );
    match map {
        Ok(map) => ask_entries(setup, &map, me),
        Err(_) => None,
    }
}

const STANDS: &str = "entry and value come back; each other pair; no hold";

pub const LINES: &[Line<On<'static>>] = &[("entry(..).insert_entry", On::InsertEntry, STANDS)];
