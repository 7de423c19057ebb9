//! Plain shards that many pairs are put into.
ghost use Rattle.std.specs.Prelude.{◌≡◌, ◌↔◌, List, Some, None, Err, IfOk, IfErr, OnOk};
ghost use Rattle.std.specs.Iterator.{IsFinite, Drains, YieldsThen};
ghost use Rattle.dashmap_table.specs.Shards.{Tables, pair_at};
ghost use Rattle.dashmap_plain.specs.Extended.{Puts, PutsAll};

use dashmap_table::Shards;
use std::alloc::Allocator;
use std::hash::{BuildHasher, Hash};

/// What puts many pairs into plain shards.
///
/// ```text
/// shards.extend(pairs.into_iter()).map_err(|(name, _)| name)?;
/// ```
pub trait ExtendShards<K: Eq + Hash, V, S: BuildHasher> {
    ghost seen: { Self → Tables K V S };

    /// Puts pairs in, one after another, as `insert` does. The first one that is refused comes back: the pairs before
    /// it stay, and the rest of the iterator is let go.
    ///
    /// ```text
    /// shards.extend([(7u64, 70u64), (8, 80)].into_iter()).map_err(|_| Wrong)?;
    /// ```
    fn extend<I: Iterator<Item = (K, V)> + Drop>(&mut self, iter: I) -> Result<(), (K, V)>
        requires can { I.can_next iter }
        requires ends { IsFinite (I.remaining iter) }
        ensures all { OnOk result
            ((pairs : List (K × V)) × Drains I.next_gives iter pairs × PutsAll S.BuildHasher S.Hasher.Hasher
            K.hash_input K.eq pairs (seen self.old) (seen self.new)) }
        ensures refused { IfErr result
            (λ back. (before : List (K × V)) × (rest : I) × YieldsThen I.next_gives iter before (Some back) rest
            × PutsAll S.BuildHasher S.Hasher.Hasher K.hash_input K.eq before (seen self.old) (seen self.new)
            × (pair_at S.BuildHasher S.Hasher.Hasher K.hash_input K.eq (seen self.new) back.0 ≡ None)) };
}

/// Puts a pair in, and lets the value go that its key had.
fn put<K: Eq + Hash + Drop, V: Drop, S: BuildHasher, A: Allocator + Clone>(
    shards: &mut Shards<K, V, S, A>,
    key: K,
    value: V,
) -> Result<(), (K, V)>
    ensures put { OnOk result
        (Puts S.BuildHasher S.Hasher.Hasher K.hash_input K.eq shards.old (key, value) shards.new) }
    ensures refused { IfErr result
        (λ back. (back ≡ (key, value)) × (shards.new ≡ shards.old)
        × (pair_at S.BuildHasher S.Hasher.Hasher K.hash_input K.eq shards.old key ≡ None)) }
{
    let _old = shards.insert(key, value)?;
    Ok(())
}

impl<K: Eq + Hash + Drop, V: Drop, S: BuildHasher, A: Allocator + Clone> ExtendShards<K, V, S>
    for Shards<K, V, S, A> {
    ghost seen = { λ shards. shards };

    fn extend<I: Iterator<Item = (K, V)> + Drop>(&mut self, iter: I) -> Result<(), (K, V)> {
        let mut rest = iter;
        while let Some((key, value)) = rest.next() {
            if let Err(back) = put(self, key, value) {
                return Err(back);
            }
        }
        Ok(())
    }
}
