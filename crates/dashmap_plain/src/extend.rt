//! Extension by a list, and a map that is made of one.
ghost use Rattle.std.specs.Prelude.{◌≡◌, ◌^◌, ◌<◌, ◌↔◌, ◌∷◌, ◌++◌, List, None, Err, length, IfOk, IfErr, OnOk};
ghost use Rattle.std.specs.List.{All};
ghost use Rattle.dashmap_map.specs.Owner.{IsPut, HadNoRoom};
ghost use Rattle.std.specs.Int.{IsNextPowerOfTwo};
ghost use Rattle.dashmap_table.specs.Route.{wanted_shards};
ghost use Rattle.dashmap_table.specs.Shards.{pair_at};
ghost use Rattle.dashmap_plain.specs.Extended.{PutsAll};

use crate::shards::ExtendShards;
use dashmap_map::DashMap;
use dashmap_map::owner::OwnerEvidence;
use dashmap_table::{MapFault, Shard, Shards};
use lock_api_raw::{MakeLock, RawRwLock};
use std::alloc::Allocator;
use std::hash::{BuildHasher, Hash};

/// As the map's `extend`, with the pairs of a list in its order.
///
/// They are put in one after another, and by one thread: which pair comes back, and which are in by then, is the
/// order's to say.
///
/// ```text
/// par_extend(&mut map, pairs).map_err(|(name, _)| name)?;
/// ```
pub fn par_extend<
    K: Eq + Hash + Drop,
    V: Drop,
    S: BuildHasher,
    Q: OwnerEvidence<Shard<K, V, A>>,
    A: Allocator + Clone,
    B: Allocator,
>(map: &mut DashMap<K, V, S, Q, A>, pairs: Vec<(K, V), B>) -> Result<(), (K, V)>
    ensures locks { map.new ≡ map.old }
    ensures all { OnOk result
        (All (IsPut Q.taken Q.put S.BuildHasher S.Hasher.Hasher K.hash_input map.old K.eq) pairs.items) }
    ensures refused { IfErr result
        (λ back. (before : List (K × V)) × (rest : List (K × V)) × (pairs.items ≡ before ++ back ∷ rest)
        × All (IsPut Q.taken Q.put S.BuildHasher S.Hasher.Hasher K.hash_input map.old K.eq) before
        × HadNoRoom Q.taken Q.put S.BuildHasher S.Hasher.Hasher K.hash_input map.old K.eq back) }
{
    map.extend(pairs.into_iter())
}

/// As the map's `from_iter`, with the pairs of a list in its order: of equal keys the first stays, with the last value.
///
/// ```text
/// let map: DashMap<..> = from_par_iter(alloc, pairs, hasher, 8, &table)?;
/// ```
pub fn from_par_iter<
    K: Eq + Hash + Drop,
    V: Drop,
    S: BuildHasher + Drop,
    Q: RawRwLock + MakeLock<T> + OwnerEvidence<Shard<K, V, A>> + Drop,
    A: Allocator + Clone,
    B: Allocator,
    T: Copy,
>(
    alloc: A,
    pairs: Vec<(K, V), B>,
    hasher: S,
    parallelism: usize,
    table: T,
) -> Result<DashMap<K, V, S, Q, A>, MapFault>
    ensures made { IfOk result
        (λ m. IsNextPowerOfTwo (wanted_shards parallelism) (length m.locks) × (m.hasher ≡ hasher)) }
    ensures all { IfOk result
        (λ m. All (IsPut Q.taken Q.put S.BuildHasher S.Hasher.Hasher K.hash_input m K.eq) pairs.items) }
    ensures bad_shards { (result ≡ Err MapFault.BadShards) ↔ (2 ^ 16 < wanted_shards parallelism) }
    ensures fits { ¬ (result ≡ Err MapFault.CapacityOverflow) }
{
    DashMap::from_iter(alloc, pairs.into_iter(), hasher, parallelism, table)
}

/// As `par_extend`, into plain shards, of which a contract can say what they become.
///
/// ```text
/// par_extend_shards(&mut shards, pairs).map_err(|(name, _)| name)?;
/// ```
pub fn par_extend_shards<
    K: Eq + Hash + Drop,
    V: Drop,
    S: BuildHasher,
    A: Allocator + Clone,
    B: Allocator,
>(shards: &mut Shards<K, V, S, A>, pairs: Vec<(K, V), B>) -> Result<(), (K, V)>
    ensures all { OnOk result
        (PutsAll S.BuildHasher S.Hasher.Hasher K.hash_input K.eq pairs.items shards.old shards.new) }
    ensures refused { IfErr result
        (λ back. (before : List (K × V)) × (rest : List (K × V)) × (pairs.items ≡ before ++ back ∷ rest)
        × PutsAll S.BuildHasher S.Hasher.Hasher K.hash_input K.eq before shards.old shards.new
        × (pair_at S.BuildHasher S.Hasher.Hasher K.hash_input K.eq shards.new back.0 ≡ None)) }
{
    shards.extend(pairs.into_iter())
}
