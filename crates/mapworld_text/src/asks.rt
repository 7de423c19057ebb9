//! Calls, as they are written.

use crate::case::Asked;
use crate::change::Change;
use crate::fault::Expected;
use mapworld_calls::{Ask, Begin, Held, Keyed, Walk};

/// A number.
pub fn number(word: &str) -> Result<u64, Expected> {
    word.parse::<u64>().map_err(|_| Expected::Number)
}

/// A number of things, as a thread's or a call's.
pub fn count(word: &str) -> Result<usize, Expected> {
    word.parse::<usize>().map_err(|_| Expected::Number)
}

/// What is stored in a value's place, and the words behind that.
fn stored<'w, 'a>(words: &'w [&'a str]) -> Result<(Change, &'w [&'a str]), Expected> {
    match *words {
        ["add", more, ref rest @ ..] => Ok((Change::NONE.add(number(more)?), rest)),
        ["set", more, ref rest @ ..] => Ok((Change::NONE.set(number(more)?), rest)),
        _ => Ok((Change::NONE, words)),
    }
}

/// What is done with a pair: what is stored, and then which pairs are kept. Where nothing is told, values stay and
/// pairs are kept.
fn deed(words: &[&str]) -> Result<Change, Expected> {
    let (change, rest) = stored(words)?;
    match *rest {
        [] | ["keep", "all"] => Ok(change),
        ["keep", "none"] => Ok(change.keep_below(0)),
        ["keep", "value", "<", number_above] => Ok(change.keep_below(number(number_above)?)),
        ["keep", "value", ">=", least] => Ok(change.keep(number(least)?, u64::MAX)),
        _ => Err(Expected::Deed),
    }
}

/// A call on the map.
pub fn call(words: &[&str]) -> Result<Asked, Expected> {
    if let Some(walk) = walk(words)? {
        return Ok(Ask::Walk(walk));
    }
    match *words {
        [name, key] => on_key(name, number(key)?),
        ["insert", key, value] => {
            let key = number(key)?;
            let value = number(value)?;
            Ok(Ask::Keyed(Keyed::Insert(key, value)))
        }
        ["insert-until", key, value] => {
            let key = number(key)?;
            let value = number(value)?;
            Ok(Ask::Keyed(Keyed::InsertUntil(key, value)))
        }
        [name, key, ref rest @ ..] => changing(name, number(key)?, deed(rest)?),
        _ => Err(Expected::Call),
    }
}

/// A call on a key of which no more is told.
fn on_key(name: &str, key: u64) -> Result<Asked, Expected> {
    match name {
        "remove" => Ok(Ask::Keyed(Keyed::Remove(key))),
        "remove-until" => Ok(Ask::Keyed(Keyed::RemoveUntil(key))),
        "view" => Ok(Ask::Keyed(Keyed::View(key, Change::NONE))),
        "contains" => Ok(Ask::Keyed(Keyed::ContainsKey(key))),
        "get" => Ok(Ask::Begin(Begin::Get(key))),
        "get-mut" => Ok(Ask::Begin(Begin::GetMut(key))),
        "entry" => Ok(Ask::Begin(Begin::Entry(key))),
        "try-get" => Ok(Ask::Begin(Begin::TryGet(key))),
        "try-get-mut" => Ok(Ask::Begin(Begin::TryGetMut(key))),
        "try-entry" => Ok(Ask::Begin(Begin::TryEntry(key))),
        "get-until" => Ok(Ask::Begin(Begin::GetUntil(key))),
        "get-mut-until" => Ok(Ask::Begin(Begin::GetMutUntil(key))),
        _ => Err(Expected::Call),
    }
}

/// A call on a key that does that with its pair.
fn changing(name: &str, key: u64, change: Change) -> Result<Asked, Expected> {
    match name {
        "remove-if" => Ok(Ask::Keyed(Keyed::RemoveIf(key, change))),
        "remove-if-mut" => Ok(Ask::Keyed(Keyed::RemoveIfMut(key, change))),
        "alter" => Ok(Ask::Keyed(Keyed::Alter(key, change))),
        _ => Err(Expected::Call),
    }
}

/// A call over all shards, if it is one.
fn walk(words: &[&str]) -> Result<Option<Walk<Change>>, Expected> {
    match *words {
        [name] => Ok(walk_alone(name)),
        [name, "stop", stop, ref rest @ ..] => Ok(stopping(name, deed(rest)?, number(stop)?)),
        ["iter-mut", ref rest @ ..] => Ok(Some(Walk::IterMut(deed(rest)?, None))),
        ["retain", ref rest @ ..] => Ok(Some(Walk::Retain(deed(rest)?))),
        ["alter-all", ref rest @ ..] => Ok(Some(Walk::AlterAll(deed(rest)?))),
        _ => Ok(None),
    }
}

/// A walk of which no more is told.
fn walk_alone(name: &str) -> Option<Walk<Change>> {
    match name {
        "iter" => Some(Walk::Iter(Change::NONE, None)),
        "clear" => Some(Walk::Clear),
        "len" => Some(Walk::Len),
        "is-empty" => Some(Walk::IsEmpty),
        "capacity" => Some(Walk::Capacity),
        "shrink-to-fit" => Some(Walk::ShrinkToFit),
        _ => None,
    }
}

/// A walk that is dropped behind so many items.
fn stopping(name: &str, change: Change, stop: u64) -> Option<Walk<Change>> {
    match name {
        "iter" => Some(Walk::Iter(change, Some(stop))),
        "iter-mut" => Some(Walk::IterMut(change, Some(stop))),
        _ => None,
    }
}

/// A call on a guard.
pub fn guard_call(words: &[&str]) -> Result<Asked, Expected> {
    match *words {
        [name] => on_guard(name),
        ["insert", value] => Ok(Ask::Held(Held::Insert(number(value)?))),
        ["replace-entry", value] => Ok(Ask::Held(Held::ReplaceEntry(number(value)?))),
        ["add" | "set", _] => Ok(Ask::Held(Held::Write(deed(words)?))),
        _ => Err(Expected::GuardCall),
    }
}

/// A call on a guard of which no more is told.
fn on_guard(name: &str) -> Result<Asked, Expected> {
    match name {
        "read" => Ok(Ask::Held(Held::Read(Change::NONE))),
        "downgrade" => Ok(Ask::Held(Held::Downgrade)),
        "into-ref" => Ok(Ask::Held(Held::IntoRef)),
        "remove" => Ok(Ask::Held(Held::Remove)),
        "remove-entry" => Ok(Ask::Held(Held::RemoveEntry)),
        "into-key" => Ok(Ask::Held(Held::IntoKey)),
        "drop" => Ok(Ask::Held(Held::Drop)),
        _ => Err(Expected::GuardCall),
    }
}
