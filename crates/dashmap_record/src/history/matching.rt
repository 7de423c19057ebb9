//! Whether histories and logs belong together, clause by clause.
ghost use Rattle.std.specs.Prelude.{◌≡◌, ◌==◌, IsTrue, map};
ghost use Rattle.std.specs.List.{list_all};
ghost use Rattle.dashmap_table.specs.Shards.{key_hash};
ghost use Rattle.dashmap_record.specs.History.Entries.{key_of};
ghost use Rattle.dashmap_record.specs.History.Match.{is_above, rises, all_rise, is_routed, is_in, is_kept, are_kept};
ghost use Rattle.dashmap_record.specs.History.Match.{are_routed};

use crate::history::entry::{Entered, same_entry};
use dashmap_table::{is_shard_amount, route};
use std::alloc::Allocator;
use std::hash::{BuildHasher, Hash};

/// A history or a log.
pub(crate) type List<K, V, A> = Vec<Entered<K, V>, A>;

/// Whether a stamp is above the last one, if there is a last one.
fn is_above(last: Option<u64>, stamp: u64) -> bool
    ensures { result ≡ is_above last stamp }
{
    match last {
        Some(last) => last < stamp,
        None => true,
    }
}

/// Whether a list's stamps rise strictly.
fn rises<K, V>(list: &[Entered<K, V>]) -> bool
    ensures { result ≡ rises list.now }
{
    let mut last = None;
    for entry in list {
        if !is_above(last, entry.stamp) {
            return false;
        }
        last = Some(entry.stamp);
    }
    true
}

/// Whether the stamps of each list rise strictly.
pub(crate) fn all_rise<K, V, A: Allocator>(lists: &[List<K, V, A>]) -> bool
    ensures { result ≡ list_all (λ list. rises list.items) lists.now }
{
    lists.iter().all(|list| rises(list))
}

/// Whether an equal entry is in the list of this number. The lists' stamps have to rise.
fn is_in<K: PartialEq, V: PartialEq, A: Allocator>(
    lists: &[List<K, V, A>],
    number: usize,
    entry: &Entered<K, V>,
) -> bool
    requires { IsTrue (all_rise (map (λ list. list.items) lists.now)) }
    ensures { result ≡ is_in K.eq V.eq (map (λ list. list.items) lists.now) number entry.now }
{
    let Some(list) = lists.get(number) else {
        return false;
    };
    match list.binary_search_by_key(&entry.stamp, |other| other.stamp) {
        Ok(at) => same_entry(entry, &list[at]),
        Err(_) => false,
    }
}

/// Whether each entry of a history is in its caller's log.
fn is_logged<K: PartialEq, V: PartialEq, A: Allocator>(
    history: &[Entered<K, V>],
    logs: &[List<K, V, A>],
) -> bool
    requires { IsTrue (all_rise (map (λ list. list.items) logs.now)) }
    ensures { result ≡ list_all (λ e. is_in K.eq V.eq (map (λ list. list.items) logs.now) e.caller e) history.now }
{
    history.iter().all(
        |entry| -> bool
            requires { IsTrue (all_rise (map (λ list. list.items) logs.now)) }
        { is_in(logs, entry.caller, entry) },
    )
}

/// The same of all histories.
pub(crate) fn are_logged<K: PartialEq, V: PartialEq, A: Allocator>(
    histories: &[List<K, V, A>],
    logs: &[List<K, V, A>],
) -> bool
    requires { IsTrue (all_rise (map (λ list. list.items) logs.now)) }
    ensures { let logs = map (λ list. list.items) logs.now in
        result ≡ list_all (λ history. list_all (λ e. is_in K.eq V.eq logs e.caller e) history.items) histories.now }
{
    for history in histories {
        if !is_logged(history, logs) {
            return false;
        }
    }
    true
}

/// Whether an entry is this caller's, and in its shard's history.
fn is_entry_kept<K: PartialEq, V: PartialEq, A: Allocator>(
    number: usize,
    entry: &Entered<K, V>,
    histories: &[List<K, V, A>],
) -> bool
    requires { IsTrue (all_rise (map (λ list. list.items) histories.now)) }
    ensures { result ≡ is_kept K.eq V.eq (map (λ list. list.items) histories.now) number entry.now }
{
    entry.caller == number && is_in(histories, entry.shard, entry)
}

/// The same of each entry of log `number`.
fn is_kept<K: PartialEq, V: PartialEq, A: Allocator>(
    number: usize,
    log: &[Entered<K, V>],
    histories: &[List<K, V, A>],
) -> bool
    requires { IsTrue (all_rise (map (λ list. list.items) histories.now)) }
    ensures { result ≡ list_all (is_kept K.eq V.eq (map (λ list. list.items) histories.now) number) log.now }
{
    log.iter().all(
        |entry| -> bool
            requires { IsTrue (all_rise (map (λ list. list.items) histories.now)) }
        { is_entry_kept(number, entry, histories) },
    )
}

/// The same of all logs.
pub(crate) fn are_kept<K: PartialEq, V: PartialEq, A: Allocator>(
    logs: &[List<K, V, A>],
    histories: &[List<K, V, A>],
) -> bool
    requires { IsTrue (all_rise (map (λ list. list.items) histories.now)) }
    ensures { result ≡ are_kept K.eq V.eq (map (λ list. list.items) histories.now) (map (λ list. list.items) logs.now) }
{
    logs.iter().enumerate().all(
        |(number, log)| -> bool
            requires { IsTrue (all_rise (map (λ list. list.items) histories.now)) }
        { is_kept(number, log, histories) },
    )
}

/// Whether an entry's shard is this one, and its hash's route leads there.
fn is_entry_routed<K, V>(shards: usize, number: usize, entry: &Entered<K, V>) -> bool
    ensures { result ≡ is_routed shards number entry.now }
{
    entry.shard == number && is_shard_amount(shards) && route(entry.hash, shards) == number
}

/// The same of each entry of history `number`.
fn is_routed<K, V>(shards: usize, number: usize, history: &[Entered<K, V>]) -> bool
    ensures { result ≡ list_all (is_routed shards number) history.now }
{
    history
        .iter()
        .all(|entry| is_entry_routed(shards, number, entry))
}

/// The same of all histories.
pub(crate) fn are_routed<K, V, A: Allocator>(histories: &[List<K, V, A>]) -> bool
    ensures { result ≡ are_routed (map (λ list. list.items) histories.now) }
{
    let shards = histories.len();
    histories
        .iter()
        .enumerate()
        .all(|(number, history)| is_routed(shards, number, history))
}

/// Whether each entry's hash is the hasher's hash of its key.
fn is_hashed<K: Eq + Hash, V, S: BuildHasher>(history: &[Entered<K, V>], hasher: &S) -> bool
    ensures { result ≡ list_all
        (λ e. e.hash == key_hash S.BuildHasher S.Hasher.Hasher K.hash_input hasher.now (key_of e.call)) history.now }
{
    history
        .iter()
        .all(|entry| entry.hash == hasher.hash_one(entry.call.key()))
}

/// The same of all histories.
pub(crate) fn are_hashed<K: Eq + Hash, V, S: BuildHasher, A: Allocator>(
    histories: &[List<K, V, A>],
    hasher: &S,
) -> bool
    ensures { let hash = key_hash S.BuildHasher S.Hasher.Hasher K.hash_input hasher.now in
        result ≡ list_all (λ history. list_all (λ e. e.hash == hash (key_of e.call)) history.items) histories.now }
{
    for history in histories {
        if !is_hashed(history, hasher) {
            return false;
        }
    }
    true
}
