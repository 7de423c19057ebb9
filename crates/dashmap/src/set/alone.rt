//! Calls of the set's one owner, who needs no lock.
ghost use Rattle.std.specs.Prelude.{◌≡◌, List, map, Option, Result, Some, IfErr, OnOk};
ghost use Rattle.std.specs.Iterator.{IsFinite, Drains, YieldsThen};
ghost use Rattle.std.specs.List.{All};
ghost use Rattle.dashmap_map.specs.Effects.{Inserts};
ghost use Rattle.dashmap_map.specs.Owner.{AloneAtKey, EachOf};
ghost use Rattle.dashmap.specs.Set.Calls.{is_new, is_put};
ghost use Rattle.dashmap.specs.Set.Owner.{KeyIsPut, KeyHadNoRoom};
ghost use Rattle.dashmap_view.specs.Views.{all_pairs};

use crate::iter_set::OwningIter;
use crate::set::DashSet;
use crate::set::keyed::told;
use dashmap_map::owner::OwnerEvidence;
use dashmap_plain::Plain;
use dashmap_table::Shard;
use std::alloc::Allocator;
use std::hash::{BuildHasher, Hash};

/// What the map's insertion tells of a key that is put in: it comes back where it was refused.
fn put_in<K>(answer: Result<Option<()>, (K, ())>) -> Result<(), K>
    ensures { result ≡ is_put answer }
{
    match answer {
        Ok(_) => Ok(()),
        Err((key, ())) => Err(key),
    }
}

impl<
    K: Eq + Hash + Drop,
    S: BuildHasher,
    Q: OwnerEvidence<Shard<K, (), A>>,
    A: Allocator + Clone,
> DashSet<K, S, Q, A> {
    /// As `insert`, by the set's owner, without a lock: nothing waits.
    ///
    /// ```text
    /// let is_new = set.insert_mut("seven")?;
    /// ```
    pub fn insert_mut(&mut self, key: K) -> Result<bool, K>
        ensures refused { IfErr result (λ back. back ≡ key) }
        ensures locks { self.new ≡ self.old }
        ensures evidence { (had : Result (Option (Unit {0})) (K × Unit {0})) × (result ≡ is_new had)
            × AloneAtKey Q.taken Q.put S.BuildHasher S.Hasher.Hasher K.hash_input self.old key
            (λ hash old new. Inserts K.eq old new hash key (tt {0}) had) }
    {
        told(self.inner.insert_mut(key, ()))
    }

    /// As `insert_mut`, and doesn't tell whether the key is new.
    #[inline(always)]
    fn put_alone(&mut self, key: K) -> Result<(), K>
        ensures locks { self.new ≡ self.old }
        ensures put { OnOk result
            (KeyIsPut Q.taken Q.put S.BuildHasher S.Hasher.Hasher K.hash_input K.eq self.old key) }
        ensures refused { IfErr result (λ back. (back ≡ key)
            × KeyHadNoRoom Q.taken Q.put S.BuildHasher S.Hasher.Hasher K.hash_input K.eq self.old key) }
    {
        put_in(self.inner.insert_mut(key, ()))
    }

    /// Puts keys in, one after another, as `insert_mut` does. The first one that is refused comes back: the keys before
    /// it stay, and the rest of the iterator is let go.
    ///
    /// ```text
    /// set.extend(names.into_iter())?;
    /// ```
    pub fn extend<I: Iterator<Item = K> + Drop>(&mut self, iter: I) -> Result<(), K>
        requires can { I.can_next iter }
        requires ends { IsFinite (I.remaining iter) }
        ensures locks { self.new ≡ self.old }
        ensures all { OnOk result ((keys : List K) × Drains I.next_gives iter keys
            × All (KeyIsPut Q.taken Q.put S.BuildHasher S.Hasher.Hasher K.hash_input K.eq self.old) keys) }
        ensures refused { IfErr result
            (λ back. (before : List K) × (rest : I) × YieldsThen I.next_gives iter before (Some back) rest
            × All (KeyIsPut Q.taken Q.put S.BuildHasher S.Hasher.Hasher K.hash_input K.eq self.old) before
            × KeyHadNoRoom Q.taken Q.put S.BuildHasher S.Hasher.Hasher K.hash_input K.eq self.old back) }
    {
        let mut rest = iter;
        while let Some(key) = rest.next() {
            if let Err(back) = self.put_alone(key) {
                return Err(back);
            }
        }
        Ok(())
    }
}

impl<
    K: Eq + Hash + Drop,
    S: BuildHasher + Drop,
    Q: OwnerEvidence<Shard<K, (), A>> + Drop,
    A: Allocator,
> IntoIterator for DashSet<K, S, Q, A> {
    ghost use Rattle.dashmap_table.specs.Table.{Table};

    type Item = K;

    type IntoIter = OwningIter<K, A>;

    ghost into_iter_gives = { λ set it. (tables : List (Table K (Unit {0}))) × EachOf Q.taken set.locks tables
        × (it ≡ map (λ p. p.0) (all_pairs tables)) };

    /// The keys, one after another, shards in order.
    fn into_iter(self) -> OwningIter<K, A> {
        let DashSet { inner } = self;
        OwningIter::of_pairs(Plain::into_iter(inner))
    }
}
