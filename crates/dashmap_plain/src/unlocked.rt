//! A map that is taken apart.
ghost use Rattle.std.specs.Prelude.{◌≡◌, length, IfOk, IfErr};
ghost use Rattle.dashmap_map.specs.Owner.{EachOf};
ghost use Rattle.dashmap_table.specs.Route.{IsShardAmount};
ghost use Rattle.dashmap_table.specs.Shards.{AreSharded};
ghost use Rattle.dashmap_view.specs.Views.{AreRouted, all_pairs};

use crate::exchange::exchange_all;
use crate::read_only::ReadOnlyView;
use crossbeam_utils::CachePadded;
use dashmap_map::DashMap;
use dashmap_map::owner::OwnerEvidence;
use dashmap_map::parts::{from_parts, into_parts};
use dashmap_table::Shard;
use dashmap_view::{Displaced, OwningIter, PlainView};
use lock_api_rw::RwLock;
use std::alloc::{Allocator, Global};
use std::hash::{BuildHasher, Hash};
use std::marker::Model;

/// A map that is taken apart: its plain shards and its hasher, and beside them the locks that they stood behind.
///
/// A contract sees the shards, the hasher and the raw locks (`Opened`). A map can be put together of it again; that its
/// pairs are in the shards of their routes is whose changes the shards to know.
///
/// ```text
/// let unlocked = Unlocked::of(map);   // nobody else can reach the map
/// let map = unlocked.into_map();
/// ```
#[derive(Drop)]
pub struct Unlocked<K: Eq + Hash, V, S: BuildHasher, Q, A: Allocator = Global> {
    pub(crate) shards: Vec<Shard<K, V, A>, A>,
    locks: Vec<CachePadded<RwLock<Q, Shard<K, V, A>>>, A>,
    hasher: S,
}

impl<K: Eq + Hash, V, S: BuildHasher, Q, A: Allocator> Model for Unlocked<K, V, S, Q, A> {
    ghost use Rattle.std.specs.Prelude.{◌≡◌, length};
    ghost use Rattle.dashmap_table.specs.Route.{IsShardAmount};
    ghost use Rattle.dashmap_plain.specs.Opened.{Opened};

    ghost Value = { Opened K V S Q };

    ghost view = { λ u. record {
      plain = record { tables = u.shards.items; hasher = u.hasher };
      locks = u.locks.items;
    } };

    ghost invariant = { λ u. IsShardAmount (length u.shards.items) × (length u.locks.items ≡ length u.shards.items) };
}

/// The parts of a map that is taken apart: its shards, the locks that they stood behind, and its hasher.
type Parts<K, V, S, Q, A> = (
    Vec<Shard<K, V, A>, A>,
    Vec<CachePadded<RwLock<Q, Shard<K, V, A>>>, A>,
    S,
);

impl<K: Eq + Hash, V, S: BuildHasher, Q: OwnerEvidence<Shard<K, V, A>>, A: Allocator> Unlocked<
    K,
    V,
    S,
    Q,
    A,
> {
    /// Takes a map apart. That it is owned shows that nobody holds a shard.
    ///
    /// ```text
    /// let unlocked = Unlocked::of(map);
    /// ```
    pub fn of(map: DashMap<K, V, S, Q, A>) -> Unlocked<K, V, S, Q, A>
        ensures locks { result.locks ≡ map.locks }
        ensures amount { length result.plain.tables ≡ length map.locks }
        ensures hasher { result.plain.hasher ≡ map.hasher }
        ensures taken { EachOf Q.taken map.locks result.plain.tables }
    {
        let (mut locks, mut shards, hasher) = into_parts(map);
        exchange_all(&mut locks, &mut shards);
        Unlocked::of_parts(shards, locks, hasher)
    }

    /// The map again, each shard behind its lock.
    ///
    /// ```text
    /// let map = Unlocked::of(map).into_map();
    /// ```
    pub fn into_map(self) -> DashMap<K, V, S, Q, A>
        ensures locks { result.locks ≡ self.locks }
        ensures hasher { result.hasher ≡ self.plain.hasher }
        ensures put { EachOf Q.put self.locks self.plain.tables }
    {
        let (mut shards, mut locks, hasher) = self.into_parts();
        exchange_all(&mut locks, &mut shards);
        from_parts(locks, shards, hasher)
    }
}

impl<K: Eq + Hash, V, S: BuildHasher, Q, A: Allocator> Unlocked<K, V, S, Q, A> {
    /// As many other shards in place of these, which are let go.
    ///
    /// ```text
    /// let unlocked = unlocked.with_shards(clones);   // as many
    /// ```
    pub(crate) fn with_shards(self, shards: Vec<Shard<K, V, A>, A>) -> Unlocked<K, V, S, Q, A>
    where
        K: Drop,
        V: Drop,
        requires { length shards.items ≡ length self.plain.tables }
        ensures plain { result.plain ≡ record { tables = shards.items; hasher = self.plain.hasher } }
        ensures locks { result.locks ≡ self.locks }
    {
        let (_, locks, hasher) = self.into_parts();
        Unlocked::of_parts(shards, locks, hasher)
    }

    /// A view of the shards.
    ///
    /// It tests each pair once. Where one lies in a shard that isn't its key's, or under another hash than its key's,
    /// there is no view, and all comes back.
    ///
    /// ```text
    /// let view = Unlocked::of(map).into_read_only().map_err(|_| Wrong)?;
    /// ```
    pub fn into_read_only(
        self,
    ) -> Result<ReadOnlyView<K, V, S, Q, A>, Displaced<Unlocked<K, V, S, Q, A>>>
        ensures view { IfOk result (λ v. v ≡ self) }
        ensures displaced { IfErr result (λ back. (back ≡ self) × ¬ AreRouted S.BuildHasher S.Hasher.Hasher K.hash_input
            self.plain.hasher self.plain.tables) }
    {
        let (shards, locks, hasher) = self.into_parts();
        match PlainView::of(shards, hasher) {
            Ok(plain) => Ok(ReadOnlyView::of_parts(plain, locks)),
            Err(back) => {
                let (shards, hasher) = back.into_map();
                Err(Displaced::new(Unlocked::of_parts(shards, locks, hasher)))
            }
        }
    }

    /// A view of shards whose pairs are known to be in the shards of their routes. It tests nothing.
    ///
    /// ```text
    /// let view = unlocked.into_view();
    /// ```
    pub fn into_view(self) -> ReadOnlyView<K, V, S, Q, A>
        requires { AreSharded S.BuildHasher S.Hasher.Hasher K.hash_input K.eq self.plain }
        ensures { result ≡ self }
    {
        let (shards, locks, hasher) = self.into_parts();
        let plain = PlainView::from_parts(shards, hasher);
        ReadOnlyView::of_parts(plain, locks)
    }

    /// Puts what was taken apart together again.
    pub(crate) fn of_parts(
        shards: Vec<Shard<K, V, A>, A>,
        locks: Vec<CachePadded<RwLock<Q, Shard<K, V, A>>>, A>,
        hasher: S,
    ) -> Unlocked<K, V, S, Q, A>
        requires amount { IsShardAmount (length shards.items) }
        requires locks { length locks.items ≡ length shards.items }
        ensures plain { result.plain ≡ record { tables = shards.items; hasher = hasher } }
        ensures locks { result.locks ≡ locks.items }
    {
        Unlocked {
            shards,
            locks,
            hasher,
        }
    }

    /// The shards, the locks and the hasher.
    pub(crate) fn into_parts(self) -> Parts<K, V, S, Q, A>
        ensures shards { result.0.items ≡ self.plain.tables }
        ensures locks { result.1.items ≡ self.locks }
        ensures hasher { result.2 ≡ self.plain.hasher }
        ensures amount { IsShardAmount (length self.plain.tables) }
        ensures as_many { length self.locks ≡ length self.plain.tables }
    {
        let Unlocked {
            shards,
            locks,
            hasher,
        } = self;
        (shards, locks, hasher)
    }
}

impl<K: Eq + Hash + Drop, V: Drop, S: BuildHasher + Drop, Q: Drop, A: Allocator> Unlocked<
    K,
    V,
    S,
    Q,
    A,
> {
    /// The shards, in their order. The locks go; their rows stay used.
    ///
    /// ```text
    /// let shards = Unlocked::of(map).into_shards();
    /// ```
    pub fn into_shards(self) -> Vec<Shard<K, V, A>, A>
        ensures { result.items ≡ self.plain.tables }
    {
        let (shards, _, _) = self.into_parts();
        shards
    }

    /// The pairs, one after another, shards in order. The locks go; their rows stay used.
    ///
    /// ```text
    /// for (key, count) in Unlocked::of(map).into_pairs() { sum = sum.wrapping_add(key).wrapping_add(count); }
    /// ```
    pub fn into_pairs(self) -> OwningIter<K, V, A>
        ensures { result ≡ all_pairs self.plain.tables }
    {
        OwningIter::new(self.into_shards())
    }
}
