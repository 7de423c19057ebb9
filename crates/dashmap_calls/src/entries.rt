//! What is done at the place of a key.

use crate::calls::{Answer, Numbers};
use dashmap_map::mapref::entry::Entry;
use dashmap_map::mapref::one::RefMut;
use lock_api_raw::RawRwLock;
use std::alloc::Allocator;
use std::hash::BuildHasher;
use std::sync::Wait;

/// What is done at a place, by its name there. The answer is the value that stands there afterwards, where nothing else
/// is said.
#[derive(Clone, Copy)]
pub enum Place {
    OrInsert(u64),
    /// Answers the pair that the guard lends.
    OrInsertWith(u64),
    /// Puts 0 in where nothing is, and adds this by the guard.
    AddTo(u64),
    /// Adds to a value that is there, and else puts in the second.
    AndModify(u64, u64),
    /// Fails with this error where nothing is there.
    OrTryInsertWith(u64),
    OrDefault,
    Insert(u64),
    InsertEntry(u64),
    /// Answers the key.
    IntoKey,
    /// Of a vacant place alone.
    VacantInsert(u64),
    /// Of a vacant place alone.
    VacantInsertEntry(u64),
    /// Of an occupied place alone. Answers the value that was there.
    Replace(u64),
    /// Of an occupied place alone. Answers the pair.
    Get,
    /// Of an occupied place alone. Answers the pair that was there.
    ReplaceEntry(u64),
    /// Of an occupied place alone. Writes this value by a borrow, takes the pair out, and answers it.
    Take(u64),
}

/// The value that a guard lends.
fn told<Q: RawRwLock, A: Allocator>(guard: RefMut<'_, '_, u64, u64, Q, A>) -> Answer
where
    Q::Runtime: Wait,
{
    Answer::Number(*guard)
}

/// Enters the place of a key.
pub fn enter<S: BuildHasher, Q: RawRwLock, A: Allocator + Clone>(
    map: &Numbers<S, Q, A>,
    key: u64,
    place: Place,
    me: &mut Q::Party,
) -> Answer
where
    Q::Runtime: Wait,
{
    match place {
        Place::Insert(_) | Place::InsertEntry(_) | Place::IntoKey => {
            enter_any(map, key, place, me)
        }
        Place::VacantInsert(_) | Place::VacantInsertEntry(_) => {
            enter_vacant(map, key, place, me)
        }
        Place::Get | Place::Replace(_) | Place::ReplaceEntry(_) | Place::Take(_) => {
            enter_occupied(map, key, place, me)
        }
        _ => enter_or_add(map, key, place, me),
    }
}

/// Enters a place by a call that adds a pair where none is.
fn enter_or_add<S: BuildHasher, Q: RawRwLock, A: Allocator + Clone>(
    map: &Numbers<S, Q, A>,
    key: u64,
    place: Place,
    me: &mut Q::Party,
) -> Answer
where
    Q::Runtime: Wait,
{
    let entry = match map.entry(key, me) {
        Ok(entry) => entry,
        Err(key) => return Answer::Refused(key),
    };
    match place {
        Place::OrInsert(value) => told(entry.or_insert(value)),
        Place::OrInsertWith(value) => {
            let guard = entry.or_insert_with(|| value);
            Answer::Pair(*guard.key(), *guard.value())
        }
        Place::AddTo(by) => {
            let mut guard = entry.or_insert(0);
            *guard = guard.wrapping_add(by);
            Answer::Number(*guard)
        }
        Place::AndModify(by, value) => {
            let entry = entry.and_modify(|old| *old = old.wrapping_add(by));
            told(entry.or_insert(value))
        }
        Place::OrTryInsertWith(error) => {
            match entry.or_try_insert_with(|| Err::<u64, u64>(error)) {
                Ok(guard) => told(guard),
                Err(error) => Answer::Refused(error),
            }
        }
        _ => told(entry.or_default()),
    }
}

/// Enters a place by a call that puts a pair in or gives the key.
fn enter_any<S: BuildHasher, Q: RawRwLock, A: Allocator + Clone>(
    map: &Numbers<S, Q, A>,
    key: u64,
    place: Place,
    me: &mut Q::Party,
) -> Answer
where
    Q::Runtime: Wait,
{
    let entry = match map.entry(key, me) {
        Ok(entry) => entry,
        Err(key) => return Answer::Refused(key),
    };
    match place {
        Place::Insert(value) => told(entry.insert(value)),
        Place::InsertEntry(value) => match entry.insert_entry(value) {
            Ok(entry) => Answer::Number(*entry.get()),
            Err(_) => Answer::Refused(key),
        },
        _ => Answer::Number(entry.into_key()),
    }
}

/// Enters a place where nothing is.
fn enter_vacant<S: BuildHasher, Q: RawRwLock, A: Allocator + Clone>(
    map: &Numbers<S, Q, A>,
    key: u64,
    place: Place,
    me: &mut Q::Party,
) -> Answer
where
    Q::Runtime: Wait,
{
    let vacant = match map.entry(key, me) {
        Ok(Entry::Vacant(vacant)) => vacant,
        Ok(Entry::Occupied(_)) => return Answer::Flag(false),
        Err(key) => return Answer::Refused(key),
    };
    match place {
        Place::VacantInsertEntry(value) => match vacant.insert_entry(value) {
            Ok(entry) => Answer::Number(*entry.get()),
            Err(_) => Answer::Refused(key),
        },
        Place::VacantInsert(value) => told(vacant.insert(value)),
        _ => Answer::Absent,
    }
}

/// Enters a place where a pair is.
fn enter_occupied<S: BuildHasher, Q: RawRwLock, A: Allocator + Clone>(
    map: &Numbers<S, Q, A>,
    key: u64,
    place: Place,
    me: &mut Q::Party,
) -> Answer
where
    Q::Runtime: Wait,
{
    let mut occupied = match map.entry(key, me) {
        Ok(Entry::Occupied(occupied)) => occupied,
        Ok(Entry::Vacant(_)) => return Answer::Absent,
        Err(key) => return Answer::Refused(key),
    };
    match place {
        Place::Replace(value) => Answer::Number(occupied.insert(value)),
        Place::ReplaceEntry(value) => Answer::of_pair(Some(occupied.replace_entry(value))),
        Place::Take(value) => {
            *occupied.get_mut() = value;
            Answer::of_pair(Some(occupied.remove_entry()))
        }
        _ => Answer::Pair(*occupied.key(), *occupied.get()),
    }
}
