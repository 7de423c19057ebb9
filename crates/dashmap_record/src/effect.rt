//! What each call does to a shard, and what it answers.
ghost use Rattle.std.specs.Prelude.{◌≡◌, ℕ, ◌≤◌, None, IfOk, OnOk, OnErr};
ghost use Rattle.std.specs.Option.{option_map};
ghost use Rattle.dashmap_table.specs.Slots.{count};
ghost use Rattle.dashmap_record.specs.declared.history.entry.Call.TheVariants.{Insert, Remove, ReplaceIf};
ghost use Rattle.dashmap_record.specs.History.Entries.{key_of};
ghost use Rattle.dashmap_record.specs.History.Replay.{has_value, told};
ghost use Rattle.dashmap_record.specs.Replaying.{found, after_under};

use crate::history::{Call, CallReply};
use crate::reply::{pair_reply, value_reply};
use dashmap_table::Shard;
use lock_api_raw::NoMemory;
use std::alloc::Allocator;
use std::hash::Hash;

/// Puts a pair in, and answers the value that its key had.
fn put<K: Copy + Eq + Hash, V: Copy + Eq, A: Allocator + Clone>(
    shard: &mut Shard<K, V, A>,
    hash: u64,
    key: K,
    value: V,
) -> Result<Option<V>, NoMemory>
    ensures old { IfOk result (λ old. old ≡ option_map (λ p. p.1) (found K.eq shard.old hash key)) }
    ensures after { OnOk result ((h : ℕ) (q : K) →
        found K.eq shard.new h q ≡ after_under K.eq V.eq hash (Insert key value) (found K.eq shard.old) h q) }
    ensures refused { OnErr result ((shard.new ≡ shard.old) × (shard.old.room ≤ count shard.old.slots)) }
{
    match shard.insert(hash, key, value) {
        Ok((_slot, old)) => Ok(old),
        Err(_) => Err(NoMemory),
    }
}

/// Takes the pair of a key out.
fn take<K: Eq + Hash, V: Eq, A: Allocator>(
    shard: &mut Shard<K, V, A>,
    hash: u64,
    key: &K,
) -> Option<(K, V)>
    ensures pair { result ≡ found K.eq shard.old hash key.now }
    ensures after { (h : ℕ) (q : K) → found K.eq shard.new h q ≡ after_under K.eq V.eq hash (Remove key.now)
        (found K.eq shard.old) h q }
{
    let slot = shard.find(hash, key)?;
    shard.remove(slot)
}

/// A copy of the value that a key has.
fn value_of<K: Eq + Hash, V: Copy, A: Allocator>(
    shard: &Shard<K, V, A>,
    hash: u64,
    key: &K,
) -> Option<V>
    ensures { result ≡ option_map (λ p. p.1) (found K.eq shard.now hash key.now) }
{
    let slot = shard.find(hash, key)?;
    let (_, value) = shard.pair(slot)?;
    Some(*value)
}

/// Whether a key has this value.
fn has_value<K: Eq + Hash, V: Copy + Eq, A: Allocator>(
    shard: &Shard<K, V, A>,
    hash: u64,
    key: &K,
    seen: &V,
) -> bool
    ensures { result ≡ has_value V.eq seen.now (found K.eq shard.now hash key.now) }
{
    match value_of(shard, hash, key) {
        Some(stored) => stored == *seen,
        None => false,
    }
}

/// Stores the value where the key has the one that was seen, and answers whether it did.
fn replace_if<K: Copy + Eq + Hash, V: Copy + Eq, A: Allocator + Clone>(
    shard: &mut Shard<K, V, A>,
    hash: u64,
    key: K,
    seen: V,
    value: V,
) -> Result<bool, NoMemory>
    ensures flag { IfOk result (λ is. is ≡ has_value V.eq seen (found K.eq shard.old hash key)) }
    ensures after { OnOk result ((h : ℕ) (q : K) →
        found K.eq shard.new h q ≡ after_under K.eq V.eq hash (ReplaceIf key seen value) (found K.eq shard.old) h q) }
    ensures refused { OnErr result ((shard.new ≡ shard.old) × (shard.old.room ≤ count shard.old.slots)) }
{
    if !has_value(shard, hash, &key, &seen) {
        return Ok(false);
    }
    put(shard, hash, key, value)?;
    Ok(true)
}

/// Makes a call, and answers what is written down as its reply. A refused one changes nothing.
pub(crate) fn answer<K: Copy + Eq + Hash, V: Copy + Eq, A: Allocator + Clone>(
    shard: &mut Shard<K, V, A>,
    hash: u64,
    call: &Call<K, V>,
) -> Result<CallReply<K, V>, NoMemory>
    ensures reply { IfOk result (λ reply. reply ≡ told V.eq call.now (found K.eq shard.old hash (key_of call.now))) }
    ensures after { OnOk result ((h : ℕ) (q : K) →
        found K.eq shard.new h q ≡ after_under K.eq V.eq hash call.now (found K.eq shard.old) h q) }
    ensures refused { OnErr result ((shard.new ≡ shard.old) × (shard.old.room ≤ count shard.old.slots)) }
{
    match *call {
        Call::Insert(key, value) => Ok(value_reply(put(shard, hash, key, value)?)),
        Call::Remove(key) => Ok(pair_reply(take(shard, hash, &key))),
        Call::GetCopied(key) => Ok(value_reply(value_of(shard, hash, &key))),
        Call::ReplaceIf(key, seen, value) => {
            Ok(CallReply::Flag(replace_if(shard, hash, key, seen, value)?))
        }
    }
}
