//! Maps and views that are taken apart in parallel, and the calls of views.

use crate::memory::{Memory, listed};
use crate::rows::{EACH, Map, On, Rows, Setup, map_of, put};
use dashmap_plain::clones::CloneView;
use dashmap_plain::{Plain, ReadOnlyView};
use dashmap_table::{MapFault, NoMemory, SpreadState};
use refusing_heap::{Line, Said, Seen, made};
use std::thread::Threads;

/// A call on a view that has the keys 0 and 1, each with itself.
#[derive(Clone, Copy)]
pub enum Viewed {
    Clone,
    PlainClone,
    MapCollect,
    OwnedMapCollect,
}

type View<T, A> = ReadOnlyView<u64, u64, SpreadState, <T as Rows>::Lock, A>;

/// A map of the keys 0 and 1.
fn two<T: Rows, R, A: Memory>(setup: &Setup<'_, T, R, A>, me: &mut T::Party) -> Option<Map<T, A>> {
    let map: Result<Map<T, A>, MapFault> = map_of(setup.alloc, setup.table);
    match map {
        Ok(map) => {
            put::<T, A>(&map, 2, me);
            Some(map)
        }
        Err(_) => None,
    }
}

/// Collects the keys of a map that goes. It may do with less memory than it asks for first.
fn collect_owned<T: Rows, R: Threads + Sync, A: Memory>(
    setup: &Setup<'_, T, R, A>,
    map: Map<T, A>,
) -> Option<Seen> {
    let before = setup.heap.asked();
    let walk = Plain::into_par_iter(map);
    let list = walk.map_collect(setup.rt, setup.alloc, |key: u64, _: u64| key);
    let said = listed(list, 2, NoMemory);
    let behind = setup.heap.asked();
    Seen::of(
        before,
        behind,
        said.may_fit(setup.heap) && setup.table.are_free(),
    )
}

/// Collects the keys of a new map.
pub fn collect_all<T: Rows, R: Threads + Sync, A: Memory>(
    setup: &Setup<'_, T, R, A>,
    me: &mut T::Party,
) -> Option<Seen> {
    let map: Option<Map<T, A>> = two(setup, me);
    match map {
        Some(map) => collect_owned(setup, map),
        None => None,
    }
}

/// Collects the keys of a view that goes.
fn collect_view<T: Rows, R: Threads + Sync, A: Memory>(
    setup: &Setup<'_, T, R, A>,
    view: View<T, A>,
) -> Option<Seen> {
    let before = setup.heap.asked();
    let walk = view.into_par_iter();
    let list = walk.map_collect(setup.rt, setup.alloc, |key: u64, _: u64| key);
    let said = listed(list, 2, NoMemory);
    Seen::of(before, setup.heap.asked(), said.may_fit(setup.heap))
}

/// Collects the keys of a view that stays.
fn collect_lent<T: Rows, R: Threads + Sync, A: Memory>(
    setup: &Setup<'_, T, R, A>,
    view: &View<T, A>,
) -> Said {
    let walk = view.par_iter();
    let list = walk.map_collect(setup.rt, setup.alloc, |key: &u64, _: &u64| *key);
    listed(list, 2, NoMemory)
}

/// What came of a call on a view.
fn say_view<T: Rows, R: Threads + Sync, A: Memory>(
    setup: &Setup<'_, T, R, A>,
    view: &View<T, A>,
    call: Viewed,
) -> Said {
    match call {
        Viewed::Clone => made(CloneView::clone(view, setup.table), MapFault::NoMemory),
        Viewed::PlainClone => made(view.plain().clone(), NoMemory),
        _ => collect_lent(setup, view),
    }
}

/// Whether a view has the keys 0 and 1 alone, each with itself.
fn has_both<T: Rows, A: Memory>(view: &View<T, A>) -> bool {
    view.len() == 2 && view.get(&0) == Some(&0) && view.get(&1) == Some(&1)
}

/// Makes a call on a view that is lent.
fn ask_view<T: Rows, R: Threads + Sync, A: Memory>(
    setup: &Setup<'_, T, R, A>,
    view: &View<T, A>,
    call: Viewed,
) -> Option<Seen> {
    let before = setup.heap.asked();
    let said = say_view(setup, view, call);
    let behind = setup.heap.asked();
    Seen::of(
        before,
        behind,
        said.may_fit(setup.heap) && has_both::<T, A>(view),
    )
}

/// A view of the keys 0 and 1.
fn view_of<T: Rows, R, A: Memory>(
    setup: &Setup<'_, T, R, A>,
    me: &mut T::Party,
) -> Option<View<T, A>> {
    let map: Option<Map<T, A>> = two(setup, me);
    match map {
        Some(map) => map.into_read_only().ok(),
        None => None,
    }
}

/// Makes a call on a view, or collects its keys as it goes.
fn ask_or_own<T: Rows, R: Threads + Sync, A: Memory>(
    setup: &Setup<'_, T, R, A>,
    view: View<T, A>,
    call: Viewed,
) -> Option<Seen> {
    match call {
        Viewed::OwnedMapCollect => collect_view(setup, view),
        _ => ask_view(setup, &view, call),
    }
}

/// Makes a call on a new view.
pub fn with_view<T: Rows, R: Threads + Sync, A: Memory>(
    setup: &Setup<'_, T, R, A>,
    me: &mut T::Party,
    call: Viewed,
) -> Option<Seen> {
    let view: Option<View<T, A>> = view_of(setup, me);
    match view {
        Some(view) => ask_or_own(setup, view, call),
        None => None,
    }
}

const COLLECT: On<'static> = On::View(Viewed::MapCollect);

const COLLECT_ALL: On<'static> = On::View(Viewed::OwnedMapCollect);

pub const VIEWS: &[Line<On<'static>>] = &[
    ("ReadOnlyView::clone", On::View(Viewed::Clone), EACH),
    ("PlainView::clone", On::View(Viewed::PlainClone), EACH),
    ("par_iter().map_collect of a view", COLLECT, EACH),
    ("into_par_iter().map_collect of it", COLLECT_ALL, "no list"),
];
