//! All entries of histories and logs that belong together, in one order.
ghost use Rattle.std.specs.Prelude.{◌≡◌, ◌⊎◌, ◌+◌, ◌<◌, ℕ, map, flat_map, length, slice_index_or, Some, None, IfOk};
ghost use Rattle.std.specs.Prelude.{IfErr};
ghost use Rattle.std.specs.List.Sorted.{IsPermutation};
ghost use Rattle.dashmap_table.specs.Shards.{key_hash};
ghost use Rattle.dashmap_record.specs.declared.history.fault.GatherFault.{GatherFault};
ghost use Rattle.dashmap_record.specs.History.Match.{first_fault, first_mismatch};
ghost use Rattle.dashmap_record.specs.History.Merge.{IsUpTo, IsMerge, IsLegal};

use crate::history::entry::Entered;
use crate::history::fault::GatherFault;
use crate::history::matching::{List, all_rise, are_hashed, are_kept, are_logged, are_routed};
use crate::history::replay::are_replayed;
use dashmap_table::NoMemory;
use std::alloc::Allocator;
use std::hash::{BuildHasher, Hash};

/// The first clause that fails, replies aside.
fn mismatch<K: Eq + Hash, V: PartialEq, S: BuildHasher, A: Allocator>(
    histories: &[List<K, V, A>],
    logs: &[List<K, V, A>],
    hasher: &S,
) -> Option<GatherFault>
    ensures { let hash = key_hash S.BuildHasher S.Hasher.Hasher K.hash_input hasher.now in
        result ≡ first_mismatch K.eq V.eq hash (map (λ list. list.items) histories.now)
        (map (λ list. list.items) logs.now) }
{
    if !all_rise(histories) {
        return Some(GatherFault::StampOrder);
    }
    if !all_rise(logs) {
        return Some(GatherFault::StampOrder);
    }
    if !are_logged(histories, logs) {
        return Some(GatherFault::NotInLog);
    }
    if !are_kept(logs, histories) {
        return Some(GatherFault::NotInHistory);
    }
    if !are_routed(histories) {
        return Some(GatherFault::WrongShard);
    }
    if !are_hashed(histories, hasher) {
        return Some(GatherFault::WrongHash);
    }
    None
}

/// The first clause that fails.
fn fault_of<K: Copy + Eq + Hash, V: Copy + Eq, S: BuildHasher, A: Allocator + Clone>(
    alloc: A,
    histories: &[List<K, V, A>],
    logs: &[List<K, V, A>],
    hasher: &S,
) -> Result<Option<GatherFault>, NoMemory>
    ensures { let hash = key_hash S.BuildHasher S.Hasher.Hasher K.hash_input hasher.now in
        IfOk result (λ fault. fault ≡ first_fault K.eq V.eq hash (map (λ list. list.items) histories.now)
        (map (λ list. list.items) logs.now)) }
{
    if let Some(fault) = mismatch(histories, logs, hasher) {
        return Ok(Some(fault));
    }
    if are_replayed(alloc, histories, hasher)? {
        Ok(None)
    } else {
        Ok(Some(GatherFault::WrongReply))
    }
}

/// All entries, one history after another.
fn all_of<K: Copy, V: Copy, A: Allocator>(
    alloc: A,
    histories: &[List<K, V, A>],
) -> Result<Vec<Entered<K, V>, A>, NoMemory>
    ensures { IfOk result (λ all. all.items ≡ flat_map (λ history. history.items) histories.now) }
{
    let mut all = Vec::new(alloc);
    for history in histories {
        all.extend_from_slice(history)?;
    }
    Ok(all)
}

/// Puts entries in order of stamp, then of shard.
fn sort<K: Copy, V: Copy>(entries: &mut [Entered<K, V>])
    ensures moved { IsPermutation entries.old entries.new }
    ensures sorted { (k : ℕ) (d : _) → k + 1 < length entries.new →
        IsUpTo (slice_index_or entries.new k d) (slice_index_or entries.new (k + 1) d) }
{
    entries.sort_unstable_by_key(|entry| (entry.stamp, entry.shard));
}

/// All entries, in order of stamp, then of shard.
fn merged<K: Copy, V: Copy, A: Allocator>(
    alloc: A,
    histories: &[List<K, V, A>],
) -> Result<Vec<Entered<K, V>, A>, NoMemory>
    ensures moved { IfOk result (λ all. IsPermutation (flat_map (λ history. history.items) histories.now) all.items) }
    ensures sorted { IfOk result (λ all. (k : ℕ) (d : _) → k + 1 < length all.items →
        IsUpTo (slice_index_or all.items k d) (slice_index_or all.items (k + 1) d)) }
{
    let mut all = all_of(alloc, histories)?;
    sort(&mut all);
    Ok(all)
}

/// `gather` of lent lists.
fn gathered<K: Copy + Eq + Hash, V: Copy + Eq, S: BuildHasher, A: Allocator + Clone>(
    alloc: A,
    histories: &[List<K, V, A>],
    logs: &[List<K, V, A>],
    hasher: &S,
) -> Result<Vec<Entered<K, V>, A>, GatherFault>
    // They belong together, and these are all entries.
    ensures matched { let hash = key_hash S.BuildHasher S.Hasher.Hasher K.hash_input hasher.now in
        IfOk result (λ all.
        (first_fault K.eq V.eq hash (map (λ list. list.items) histories.now) (map (λ list. list.items) logs.now)
        ≡ None)
        × IsMerge (map (λ list. list.items) histories.now) all.items) }

    // They are a legal history of one plain map, in each shard's and each caller's order.
    ensures legal { IfOk result (λ all.
        IsLegal K.eq V.eq (map (λ list. list.items) histories.now) (map (λ list. list.items) logs.now) all.items) }

    // They don't belong together, and this is the first clause that fails.
    ensures fault { let hash = key_hash S.BuildHasher S.Hasher.Hasher K.hash_input hasher.now in
        IfErr result (λ fault. (fault ≡ GatherFault.NoMemory)
        ⊎ (first_fault K.eq V.eq hash (map (λ list. list.items) histories.now) (map (λ list. list.items) logs.now)
        ≡ Some fault)) }
{
    match fault_of(alloc.clone()?, histories, logs, hasher)? {
        Some(fault) => Err(fault),
        None => Ok(merged(alloc, histories)?),
    }
}

/// Tests that the histories of shards 0, 1, .. and the logs of callers 0, 1, .. belong together, and answers all
/// entries in order of stamp, then of shard. So what is answered is one legal history of one plain map.
///
/// It takes some n log n steps for n entries, and memory for a copy of all entries and for one history's map at a time.
/// It can be refused for memory at any point, and gives no list then.
///
/// ```rust
/// let all = gather(alloc, map.histories(), logs, &hasher)?;
/// println!(rt; "{} calls, one history", all.len())?;
/// ```
pub fn gather<K: Copy + Eq + Hash, V: Copy + Eq, S: BuildHasher, A: Allocator + Clone + Drop>(
    alloc: A,
    histories: Vec<Vec<Entered<K, V>, A>, A>,
    logs: Vec<Vec<Entered<K, V>, A>, A>,
    hasher: &S,
) -> Result<Vec<Entered<K, V>, A>, GatherFault>
    // They belong together, and these are all entries.
    ensures matched { let hash = key_hash S.BuildHasher S.Hasher.Hasher K.hash_input hasher.now in
        IfOk result (λ all.
        (first_fault K.eq V.eq hash (map (λ list. list.items) histories.items) (map (λ list. list.items) logs.items)
        ≡ None)
        × IsMerge (map (λ list. list.items) histories.items) all.items) }

    // They are a legal history of one plain map, in each shard's and each caller's order.
    ensures legal { IfOk result (λ all.
        IsLegal K.eq V.eq (map (λ list. list.items) histories.items) (map (λ list. list.items) logs.items) all.items) }

    // They don't belong together, and this is the first clause that fails.
    ensures fault { let hash = key_hash S.BuildHasher S.Hasher.Hasher K.hash_input hasher.now in
        IfErr result (λ fault. (fault ≡ GatherFault.NoMemory)
        ⊎ (first_fault K.eq V.eq hash (map (λ list. list.items) histories.items) (map (λ list. list.items) logs.items)
        ≡ Some fault)) }
{
    gathered(alloc, &histories, &logs, hasher)
}
