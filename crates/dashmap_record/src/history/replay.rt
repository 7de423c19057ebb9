//! A history's calls, made once more on an empty map.
ghost use Rattle.std.specs.Prelude.{◌≡◌, None, IfOk};
ghost use Rattle.std.specs.List.{list_all};
ghost use Rattle.std.specs.Option.{option_map};
ghost use Rattle.dashmap_table.specs.Shards.{pair_at};
ghost use Rattle.dashmap_record.specs.declared.history.entry.Call.TheVariants.{ReplaceIf};
ghost use Rattle.dashmap_record.specs.History.Entries.{key_of};
ghost use Rattle.dashmap_record.specs.History.Replay.{PlainMap, nothing, value_told, pair_told, has_value, told};
ghost use Rattle.dashmap_record.specs.History.Replay.{with_value_at, after, replies_hold};

use crate::history::entry::{Call, CallReply, Entered, same_reply};
use crate::history::matching::List;
use dashmap_table::{NoMemory, Shards};
use std::alloc::Allocator;
use std::hash::{BuildHasher, Hash};

/// A hasher that is only lent.
#[derive(Clone, Copy)]
struct Lent<'a, S> {
    hasher: &'a S,
}

impl<S: BuildHasher> BuildHasher for Lent<'_, S> {
    type Hasher = S::Hasher;

    ghost build_hasher = { λ lent. S.build_hasher lent.hasher.now };

    fn build_hasher(&self) -> S::Hasher {
        self.hasher.build_hasher()
    }
}

/// A copy of the value that a key has.
fn value_of<K: Eq + Hash, V: Copy, S: BuildHasher, A: Allocator>(
    map: &Shards<K, V, S, A>,
    key: &K,
) -> Option<V>
    ensures { result ≡ option_map (λ p. p.1) (pair_at S.BuildHasher S.Hasher.Hasher K.hash_input K.eq map.now key.now) }
{
    let (shard, slot) = map.find(key)?;
    let (_, value) = map.shard(shard).pair(slot)?;
    Some(*value)
}

/// Inserts, and answers as it is written down.
fn insert<K: Eq + Hash + Drop, V: Drop, S: BuildHasher, A: Allocator + Clone>(
    map: &mut Shards<K, V, S, A>,
    key: K,
    value: V,
) -> Result<CallReply<K, V>, NoMemory>
    ensures reply { IfOk result (λ reply.
        reply ≡ value_told (pair_at S.BuildHasher S.Hasher.Hasher K.hash_input K.eq map.old key)) }
    ensures after { let at = pair_at S.BuildHasher S.Hasher.Hasher K.hash_input K.eq in
        IfOk result (λ _. (q : K) → at map.new q ≡ with_value_at K.eq key value (at map.old) q) }
{
    match map.insert(key, value) {
        Ok(Some(old)) => Ok(CallReply::Value(old)),
        Ok(None) => Ok(CallReply::None),
        Err(_) => Err(NoMemory),
    }
}

/// Whether a key has this value.
fn has_value<K: Eq + Hash, V: Copy + Eq, S: BuildHasher, A: Allocator>(
    map: &Shards<K, V, S, A>,
    key: &K,
    seen: &V,
) -> bool
    ensures { result ≡ has_value V.eq seen.now
        (pair_at S.BuildHasher S.Hasher.Hasher K.hash_input K.eq map.now key.now) }
{
    match value_of(map, key) {
        Some(stored) => stored == *seen,
        None => false,
    }
}

/// Stores the value where the key has the one that was seen, and answers whether it did.
fn replace_if<K: Eq + Hash + Drop, V: Copy + Eq, S: BuildHasher, A: Allocator + Clone>(
    map: &mut Shards<K, V, S, A>,
    key: K,
    seen: V,
    value: V,
) -> Result<bool, NoMemory>
    ensures flag { IfOk result (λ is.
        is ≡ has_value V.eq seen (pair_at S.BuildHasher S.Hasher.Hasher K.hash_input K.eq map.old key)) }
    ensures after { let at = pair_at S.BuildHasher S.Hasher.Hasher K.hash_input K.eq in
        IfOk result (λ _. (q : K) → at map.new q ≡ after K.eq V.eq (ReplaceIf key seen value) (at map.old) q) }
{
    if !has_value(map, &key, &seen) {
        return Ok(false);
    }
    insert(map, key, value)?;
    Ok(true)
}

/// Makes a call, and answers as it is written down.
fn answer<K: Copy + Eq + Hash, V: Copy + Eq, S: BuildHasher, A: Allocator + Clone>(
    map: &mut Shards<K, V, S, A>,
    call: &Call<K, V>,
) -> Result<CallReply<K, V>, NoMemory>
    ensures reply { IfOk result (λ reply.
        reply ≡ told V.eq call.now
        (pair_at S.BuildHasher S.Hasher.Hasher K.hash_input K.eq map.old (key_of call.now))) }
    ensures after { let at = pair_at S.BuildHasher S.Hasher.Hasher K.hash_input K.eq in
        IfOk result (λ _. (q : K) → at map.new q ≡ after K.eq V.eq call.now (at map.old) q) }
{
    match *call {
        Call::Insert(key, value) => insert(map, key, value),
        Call::Remove(key) => Ok(match map.remove(&key) {
            Some((stored, value)) => CallReply::Pair(stored, value),
            None => CallReply::None,
        }),
        Call::GetCopied(key) => Ok(match value_of(map, &key) {
            Some(value) => CallReply::Value(value),
            None => CallReply::None,
        }),
        Call::ReplaceIf(key, seen, value) => {
            Ok(CallReply::Flag(replace_if(map, key, seen, value)?))
        }
    }
}

/// Whether each reply of a history is that of its call, where the calls are made one after another on this map.
fn replies_hold<K: Copy + Eq + Hash, V: Copy + Eq, S: BuildHasher, A: Allocator + Clone>(
    map: &mut Shards<K, V, S, A>,
    history: &[Entered<K, V>],
) -> Result<bool, NoMemory>
    ensures { let at = pair_at S.BuildHasher S.Hasher.Hasher K.hash_input K.eq in
        IfOk result (λ hold. hold ≡ replies_hold K.eq V.eq (at map.old) history.now) }
{
    for entry in history {
        let reply = answer(map, &entry.call)?;
        if !same_reply(&entry.reply, &reply) {
            return Ok(false);
        }
    }
    Ok(true)
}

/// A map without pairs.
fn empty<K: Eq + Hash + Drop, V: Drop, S: BuildHasher + Drop, A: Allocator + Clone>(
    alloc: A,
    hasher: S,
) -> Result<Shards<K, V, S, A>, NoMemory>
    ensures { IfOk result (λ map. (q : K) → pair_at S.BuildHasher S.Hasher.Hasher K.hash_input K.eq map q ≡ None) }
{
    match Shards::new(alloc, 2, hasher) {
        Ok(map) => Ok(map),
        Err(_) => Err(NoMemory),
    }
}

/// The same on an empty map.
fn is_replayed<K: Copy + Eq + Hash, V: Copy + Eq, S: BuildHasher + Drop, A: Allocator + Clone>(
    alloc: A,
    history: &[Entered<K, V>],
    hasher: S,
) -> Result<bool, NoMemory>
    ensures { IfOk result (λ is. is ≡ replies_hold K.eq V.eq (nothing K V) history.now) }
{
    let mut map = empty(alloc, hasher)?;
    replies_hold(&mut map, history)
}

/// The same of all histories.
pub(crate) fn are_replayed<K: Copy + Eq + Hash, V: Copy + Eq, S: BuildHasher, A: Allocator + Clone>(
    alloc: A,
    histories: &[List<K, V, A>],
    hasher: &S,
) -> Result<bool, NoMemory>
    ensures { IfOk result
        (λ are. are ≡ list_all (λ history. replies_hold K.eq V.eq (nothing K V) history.items) histories.now) }
{
    for history in histories {
        if !is_replayed(alloc.clone()?, history, Lent { hasher })? {
            return Ok(false);
        }
    }
    Ok(true)
}
