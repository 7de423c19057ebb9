//! A map's text, its guards' and its items', and many pairs at once.

use crate::tables::{Lock, Map, Word, map_of};
use dashmap_calls::{Answer, Call, Keyed, make};
use dashmap_iter::LendingWalks;
use dashmap_map::DashMap;
use dashmap_table::{MapFault, SpreadState};
use linked_list_allocator::LocalHeap;
use lock_api_raw::MakeLock;
use std::alloc::{AllocError, Allocator, Global};
use std::fmt::Debug;
use std::string::String;
use std::test::Fail;

/// What is printed of a value for one who looks for a fault.
fn text_of<T: Debug>(value: &T, alloc: Global) -> Result<String, AllocError> {
    format!(in alloc; "{value:?}")
}

/// Whether a text is this one.
fn is_text(text: Option<String>, wanted: &str) -> bool {
    match text {
        Some(text) => text.as_str() == wanted,
        None => false,
    }
}

/// What is printed of a map while a guard of key 1 writes.
fn text_beside_writer<Q: Lock>(
    map: &Map<Q, Global>,
    alloc: Global,
    me: &mut Q::Party,
) -> Result<Option<String>, AllocError> {
    match map.get_mut(&1, me) {
        Some(_guard) => Ok(Some(text_of(map, alloc)?)),
        None => Ok(None),
    }
}

/// Whether an empty map is shown so, with one pair, and with two while one is written.
fn is_shown<Q: Lock>(
    map: &Map<Q, Global>,
    alloc: Global,
    me: &mut Q::Party,
) -> Result<bool, AllocError> {
    let mut right = text_of(map, alloc)?.as_str() == "{}";
    right &= map.insert(1, 2, me) == Ok(None);
    right &= text_of(map, alloc)?.as_str() == "{1: 2}";
    right &= map.insert(0, 5, me) == Ok(None);
    let text = text_beside_writer(map, alloc, me)?;
    Ok(right & is_text(text, "{0: 5, <locked>}"))
}

/// The same of a new map.
fn is_new_shown<T: Copy, Q: Lock + MakeLock<T>>(
    table: T,
    alloc: Global,
    me: &mut Q::Party,
) -> Result<bool, AllocError> {
    let made: Result<Map<Q, Global>, MapFault> = map_of(table, alloc, 2);
    match made {
        Ok(map) => is_shown(&map, alloc, me),
        Err(_) => Ok(false),
    }
}

#[test]
fn a_map_is_shown(rt: HostRuntime) -> Result<(), Fail> {
    assert!(rt; is_new_shown::<_, Word>(rt, rt.alloc(), &mut 1)?);
    Ok(())
}

/// What is printed of a guard that reads key 1, and of the value that it lends.
fn text_of_reader<Q: Lock>(
    map: &Map<Q, Global>,
    alloc: Global,
    me: &mut Q::Party,
) -> Result<Option<(String, String)>, AllocError> {
    match map.get(&1, me) {
        Some(guard) => Ok(Some((text_of(&guard, alloc)?, text_of(&*guard, alloc)?))),
        None => Ok(None),
    }
}

/// What is printed of a guard that writes key 1.
fn text_of_writer<Q: Lock>(
    map: &Map<Q, Global>,
    alloc: Global,
    me: &mut Q::Party,
) -> Result<Option<String>, AllocError> {
    match map.get_mut(&1, me) {
        Some(guard) => Ok(Some(text_of(&guard, alloc)?)),
        None => Ok(None),
    }
}

/// What is printed of the first item of a walk that writes.
fn text_of_item<Q: Lock>(
    map: &Map<Q, Global>,
    alloc: Global,
    me: &mut Q::Party,
) -> Result<Option<String>, AllocError> {
    match map.iter_mut(me).next_mut() {
        Some(pair) => Ok(Some(text_of(&pair, alloc)?)),
        None => Ok(None),
    }
}

/// Whether a guard that reads key 1 is shown, and the value that it lends.
fn shows_reader<Q: Lock>(
    map: &Map<Q, Global>,
    alloc: Global,
    me: &mut Q::Party,
) -> Result<bool, AllocError> {
    match text_of_reader(map, alloc, me)? {
        Some((guard, value)) => Ok(guard.as_str() == "Ref { k: 1, v: 2 }" && value.as_str() == "2"),
        None => Ok(false),
    }
}

/// Whether an empty map's guards and items are shown so.
fn shows_guards<Q: Lock>(
    map: &Map<Q, Global>,
    alloc: Global,
    me: &mut Q::Party,
) -> Result<bool, AllocError> {
    let mut right = map.insert(1, 2, me) == Ok(None);
    right &= shows_reader(map, alloc, me)?;
    right &= is_text(text_of_writer(map, alloc, me)?, "RefMut { k: 1, v: 2 }");
    let item = text_of_item(map, alloc, me)?;
    Ok(right & is_text(item, "RefMutMulti { k: 1, v: 2 }"))
}

/// The same of a new map.
fn new_shows_guards<T: Copy, Q: Lock + MakeLock<T>>(
    table: T,
    alloc: Global,
    me: &mut Q::Party,
) -> Result<bool, AllocError> {
    let made: Result<Map<Q, Global>, MapFault> = map_of(table, alloc, 2);
    match made {
        Ok(map) => shows_guards(&map, alloc, me),
        Err(_) => Ok(false),
    }
}

#[test]
fn guards_and_items_are_shown(rt: HostRuntime) -> Result<(), Fail> {
    assert!(rt; new_shows_guards::<_, Word>(rt, rt.alloc(), &mut 1)?);
    Ok(())
}

/// Whether a map takes ten pairs of four keys, and keeps the last ones.
fn takes_many<Q: Lock>(map: &mut Map<Q, Global>, me: &mut Q::Party) -> bool {
    let mut right = map.extend((0..10u64).map(|i| (i % 4, i))).is_ok();
    right &= make(map, Call::Len, me) == Answer::Number(4);
    right & (make(map, Call::Key(Keyed::View(1)), me) == Answer::Number(9))
}

/// The same of a new map.
fn new_takes_many<T: Copy, Q: Lock + MakeLock<T>>(
    table: T,
    alloc: Global,
    me: &mut Q::Party,
) -> bool {
    let made: Result<Map<Q, Global>, MapFault> = map_of(table, alloc, 4);
    match made {
        Ok(mut map) => takes_many(&mut map, me),
        Err(_) => false,
    }
}

/// How many pairs a map has that is made of ten, for so many threads at once.
fn made_of_ten<T: Copy, Q: Lock + MakeLock<T>>(
    table: T,
    alloc: Global,
    parallelism: usize,
    me: &mut Q::Party,
) -> Result<usize, MapFault> {
    let map: Map<Q, Global> = DashMap::from_iter(
        alloc,
        (0..10u64).map(|i| (i, i)),
        SpreadState,
        parallelism,
        table,
    )?;
    Ok(map.len(me))
}

#[test]
fn many_pairs_are_put_in(rt: HostRuntime) -> Result<(), Fail> {
    assert!(rt; new_takes_many::<_, Word>(rt, rt.alloc(), &mut 1));
    for (parallelism, made) in [(1, Ok(10)), (16_385, Err(MapFault::BadShards))] {
        let len = made_of_ten::<_, Word>(rt, rt.alloc(), parallelism, &mut 1);
        assert!(rt; len == made, "for {parallelism}");
    }
    Ok(())
}

/// Whether an extension by a thousand pairs, each key with itself, ends at one that comes back, before which all are
/// there.
fn is_full<Q: Lock, A: Allocator + Clone>(map: &mut Map<Q, A>, me: &mut Q::Party) -> bool {
    match map.extend((0..1000u64).map(|i| (i, i))) {
        Ok(()) => false,
        Err((key, value)) => {
            let right = make(map, Call::Len, me) == Answer::Number(key);
            let missed = make(map, Call::Key(Keyed::ContainsKey(key)), me);
            right && key == value && missed == Answer::Flag(false)
        }
    }
}

/// The same of a new map.
fn is_new_full<T: Copy, Q: Lock + MakeLock<T>, A: Allocator + Clone>(
    table: T,
    alloc: A,
    me: &mut Q::Party,
) -> bool {
    let made: Result<Map<Q, A>, MapFault> = map_of(table, alloc, 2);
    match made {
        Ok(mut map) => is_full(&mut map, me),
        Err(_) => false,
    }
}

#[test]
fn a_refused_pair_comes_back(rt: HostRuntime) -> Result<(), Fail> {
    let heap = LocalHeap::new(rt.alloc(), 2048)?;
    assert!(rt; is_new_full::<_, Word, _>(rt, &heap, &mut 1));
    Ok(())
}
