//! What the owner of a map may make of it.
ghost use Rattle.std.specs.Prelude.{◌≡◌, List, length, IfOk, IfErr};
ghost use Rattle.dashmap_map.specs.Locked.{Locked};
ghost use Rattle.dashmap_map.specs.Owner.{EachOf};
ghost use Rattle.dashmap_table.specs.Table.{Table};
ghost use Rattle.dashmap_view.specs.Views.{AreRouted, all_pairs};

use crate::iter_mut::IterMut;
use crate::read_only::ReadOnlyView;
use crate::unlocked::Unlocked;
use dashmap_map::DashMap;
use dashmap_map::owner::OwnerEvidence;
use dashmap_table::Shard;
use dashmap_view::{Displaced, OwningIter};
use std::alloc::Allocator;
use std::hash::{BuildHasher, Hash};

/// What becomes of a map that nobody else can reach. No call takes memory, and none waits.
///
/// What lies behind a lock no contract says. So these say it of plain shards of which there is evidence that they were
/// taken out from behind the map's locks, each of its own.
///
/// ```text
/// let view = map.into_read_only().map_err(|_| "a pair in a wrong shard")?;
/// for (key, value) in other.into_iter() { .. }           // each pair once, shards in order
/// ```
pub trait Plain<
    K: Eq + Hash,
    V,
    S: BuildHasher,
    Q: OwnerEvidence<Shard<K, V, A>>,
    A: Allocator,
>: Sized {
    /// The locks and the hasher of a map.
    ghost seen: { Self → Locked Q S };

    /// The plain shards, in their order. The locks go; their rows stay used.
    ///
    /// It doesn't wait, since nobody else has the map, and takes no memory; so do the other calls here.
    ///
    /// ```text
    /// for shard in map.into_shards() { sum = sum.wrapping_add(shard.len()); }
    /// ```
    fn into_shards(self) -> Vec<Shard<K, V, A>, A>
        ensures amount { length result.items ≡ length (seen self).locks }
        ensures taken { EachOf Q.taken (seen self).locks result.items };

    /// The pairs, one after another, shards in order.
    ///
    /// ```text
    /// for (key, value) in map.into_iter() { .. }
    /// ```
    fn into_iter(self) -> OwningIter<K, V, A>
        ensures { (tables : List (Table K V)) × EachOf Q.taken (seen self).locks tables
            × (result ≡ all_pairs tables) };

    /// A view, for any number of readers.
    ///
    /// It tests once that each pair is under its key's hash and in the shard of its key's route. Where one isn't, the
    /// map comes back; no call of these crates causes it.
    ///
    /// ```text
    /// let view = map.into_read_only().map_err(|_| "displaced")?;
    /// let seven = view.get(&7);                 // no lock, no thread's data
    /// ```
    fn into_read_only(self) -> Result<ReadOnlyView<K, V, S, Q, A>, Displaced<Self>>
        ensures view { IfOk result (λ v. (v.locks ≡ (seen self).locks) × (v.plain.hasher ≡ (seen self).hasher)) }
        ensures taken { IfOk result (λ v. EachOf Q.taken (seen self).locks v.plain.tables) }
        ensures displaced { IfErr result (λ back. (seen back ≡ seen self) × (tables : List (Table K V))
            × EachOf Q.taken (seen self).locks tables × EachOf Q.put (seen self).locks tables
            × ¬ AreRouted S.BuildHasher S.Hasher.Hasher K.hash_input (seen self).hasher tables) };

    /// All pairs, their values lent for writing.
    ///
    /// ```text
    /// map.par_iter_mut().for_each(&rt, |key, value| { *value = value.wrapping_add(*key); });
    /// ```
    fn par_iter_mut(&mut self) -> IterMut<'_, K, V, S, Q, A>
        ensures same { result.map.ghost_name ≡ self.entry.ghost_name }
        ensures value { result.map.now ≡ seen self.old };

    /// All pairs by value: the pairs of one shard are one piece of work, and shards go side by side. The locks go;
    /// their rows stay used.
    ///
    /// ```text
    /// map.into_par_iter().for_each(&rt, |key, value| { sum.add(value); });
    /// ```
    fn into_par_iter(self) -> dashmap_view::parallel::OwningIter<K, V, A>
        ensures amount { length result ≡ length (seen self).locks }
        ensures taken { EachOf Q.taken (seen self).locks result };
}

impl<
    K: Eq + Hash + Drop,
    V: Drop,
    S: BuildHasher + Drop,
    Q: OwnerEvidence<Shard<K, V, A>> + Drop,
    A: Allocator,
> Plain<K, V, S, Q, A> for DashMap<K, V, S, Q, A> {
    ghost seen = { λ map. map };

    fn into_shards(self) -> Vec<Shard<K, V, A>, A> {
        Unlocked::of(self).into_shards()
    }

    fn into_iter(self) -> OwningIter<K, V, A> {
        Unlocked::of(self).into_pairs()
    }

    fn into_par_iter(self) -> dashmap_view::parallel::OwningIter<K, V, A> {
        Unlocked::of(self).into_par_iter()
    }

    fn par_iter_mut(&mut self) -> IterMut<'_, K, V, S, Q, A> {
        IterMut::new(self)
    }

    fn into_read_only(
        self,
    ) -> Result<ReadOnlyView<K, V, S, Q, A>, Displaced<DashMap<K, V, S, Q, A>>> {
        match Unlocked::of(self).into_read_only() {
            Ok(view) => Ok(view),
            Err(back) => Err(Displaced::new(back.into_map().into_map())),
        }
    }
}
