//! A map that nobody writes.
ghost use Rattle.std.specs.Prelude.{◌≡◌, ◌↔◌, IsTrue, length, is_some, map};
ghost use Rattle.std.specs.Option.{option_map, option_copied};
ghost use Rattle.dashmap_map.specs.Owner.{EachOf};
ghost use Rattle.dashmap_table.specs.Shards.{AreSharded, pair_at};
ghost use Rattle.dashmap_view.specs.Views.{all_pairs, pair_count, room_in, at_most_max};

use crate::unlocked::Unlocked;
use crossbeam_utils::CachePadded;
use dashmap_map::DashMap;
use dashmap_map::owner::OwnerEvidence;
use dashmap_table::Shard;
use dashmap_view::{PlainView, ViewIter, ViewKeys, ViewValues};
use lock_api_rw::RwLock;
use std::alloc::{Allocator, Global};
use std::fmt;
use std::hash::{BuildHasher, Hash};
use std::marker::Model;

/// A map that nobody else can reach and nobody writes: its plain shards, its hasher, and the locks that they stood
/// behind. Any number of readers may share it: nothing waits, and nothing is lent.
///
/// A contract sees the shards, the hasher and the raw locks (`Opened`). Each pair is in the shard of its key's route.
///
/// ```text
/// let view = map.into_read_only().map_err(|_| "a pair in a wrong shard")?;
/// let seven = view.get(&7);                              // the value, lent
/// let map = view.into_inner();                           // the map again
/// ```
#[derive(Drop)]
pub struct ReadOnlyView<K: Eq + Hash, V, S: BuildHasher, Q, A: Allocator = Global> {
    plain: PlainView<K, V, S, A>,
    locks: Vec<CachePadded<RwLock<Q, Shard<K, V, A>>>, A>,
}

impl<K: Eq + Hash, V, S: BuildHasher, Q, A: Allocator> Model for ReadOnlyView<K, V, S, Q, A> {
    ghost use Rattle.std.specs.Prelude.{◌≡◌, length};
    ghost use Rattle.dashmap_plain.specs.Opened.{Opened};

    ghost Value = { Opened K V S Q };

    ghost view = { λ v. record { plain = v.plain; locks = v.locks.items } };

    ghost invariant = { λ v. length v.locks.items ≡ length v.plain.tables };
}

impl<K: Eq + Hash, V, S: BuildHasher, Q, A: Allocator> ReadOnlyView<K, V, S, Q, A> {
    /// A view, and the locks of its shards.
    pub(crate) fn of_parts(
        plain: PlainView<K, V, S, A>,
        locks: Vec<CachePadded<RwLock<Q, Shard<K, V, A>>>, A>,
    ) -> ReadOnlyView<K, V, S, Q, A>
        requires { length locks.items ≡ length plain.tables }
        ensures plain { result.plain ≡ plain }
        ensures locks { result.locks ≡ locks.items }
    {
        ReadOnlyView { plain, locks }
    }

    /// The map taken apart, as it was before the view was made.
    ///
    /// ```text
    /// let unlocked = view.into_unlocked();
    /// ```
    pub fn into_unlocked(self) -> Unlocked<K, V, S, Q, A>
        ensures { result ≡ self }
    {
        let ReadOnlyView { plain, locks } = self;
        let (shards, hasher) = plain.into_parts();
        Unlocked::of_parts(shards, locks, hasher)
    }

    /// The map again, each shard behind its lock.
    ///
    /// It takes no memory and no row: the locks are those that the map had before.
    ///
    /// ```text
    /// let map = view.into_inner();              // shared again
    /// ```
    pub fn into_inner(self) -> DashMap<K, V, S, Q, A>
    where
        Q: OwnerEvidence<Shard<K, V, A>>,
        ensures locks { result.locks ≡ self.locks }
        ensures hasher { result.hasher ≡ self.plain.hasher }
        ensures put { EachOf Q.put self.locks self.plain.tables }
    {
        self.into_unlocked().into_map()
    }

    /// Lends the view of the plain shards.
    ///
    /// ```text
    /// let pairs = view.plain().len();
    /// ```
    pub fn plain(&self) -> &PlainView<K, V, S, A>
        ensures { result.now ≡ self.now.plain }
    {
        &self.plain
    }

    /// Lends the shards.
    ///
    /// ```text
    /// let pairs = view.shards()[0].len();
    /// ```
    pub fn shards(&self) -> &[Shard<K, V, A>]
        ensures shards { result.now ≡ self.now.plain.tables }
        ensures sharded { AreSharded S.BuildHasher S.Hasher.Hasher K.hash_input K.eq self.now.plain }
    {
        self.plain.shards()
    }

    /// Lends the hasher.
    ///
    /// ```text
    /// let hash = view.hasher().hash_one(&7u64);
    /// ```
    pub fn hasher(&self) -> &S
        ensures { result.now ≡ self.now.plain.hasher }
    {
        self.plain.hasher()
    }

    /// How many pairs there are. It stops at `usize::MAX`.
    ///
    /// ```text
    /// assert!(view.len() == 3);
    /// ```
    pub fn len(&self) -> usize
        ensures { result ≡ at_most_max (pair_count self.now.plain.tables) }
    {
        self.plain.len()
    }

    /// Whether there are none.
    ///
    /// ```text
    /// if view.is_empty() { return Ok(()); }
    /// ```
    pub fn is_empty(&self) -> bool
        ensures { IsTrue result ↔ (pair_count self.now.plain.tables ≡ 0) }
    {
        self.plain.is_empty()
    }

    /// For how many pairs there is room. It stops at `usize::MAX`.
    ///
    /// ```text
    /// let room = view.capacity().wrapping_sub(view.len());
    /// ```
    pub fn capacity(&self) -> usize
        ensures { result ≡ at_most_max (room_in self.now.plain.tables) }
    {
        self.plain.capacity()
    }

    /// Lends the stored pair of a key.
    ///
    /// ```text
    /// if let Some((key, value)) = view.get_key_value(&"seven") { .. }   // the stored key
    /// ```
    pub fn get_key_value(&self, key: &K) -> Option<(&K, &V)>
        ensures { option_map (λ p. (p.0.now, p.1.now)) result ≡ pair_at S.BuildHasher S.Hasher.Hasher K.hash_input K.eq
            self.now.plain key.now }
    {
        self.plain.get_key_value(key)
    }

    /// Lends the value of a key.
    ///
    /// ```text
    /// let seven = view.get(&"seven").copied();
    /// ```
    pub fn get(&self, key: &K) -> Option<&V>
        ensures { option_copied result ≡ option_map (λ p. p.1)
            (pair_at S.BuildHasher S.Hasher.Hasher K.hash_input K.eq self.now.plain key.now) }
    {
        self.plain.get(key)
    }

    /// Whether a key is there.
    ///
    /// ```text
    /// if view.contains_key(&"seven") { .. }
    /// ```
    pub fn contains_key(&self, key: &K) -> bool
        ensures { result ≡ is_some (pair_at S.BuildHasher S.Hasher.Hasher K.hash_input K.eq self.now.plain key.now) }
    {
        self.plain.contains_key(key)
    }

    /// All pairs, lent, shards and their slots in order.
    ///
    /// ```text
    /// for (key, value) in view.iter() { sum = sum.wrapping_add(*value); }
    /// ```
    pub fn iter(&self) -> ViewIter<'_, K, V, A>
        ensures { result ≡ all_pairs self.now.plain.tables }
    {
        self.plain.iter()
    }

    /// All keys, in the order of `iter`.
    ///
    /// ```text
    /// for key in view.keys() { print(rt, key)?; }
    /// ```
    pub fn keys(&self) -> ViewKeys<'_, K, V, A>
        ensures { result ≡ map (λ p. p.0) (all_pairs self.now.plain.tables) }
    {
        self.plain.keys()
    }

    /// All values, in the order of `iter`.
    ///
    /// ```text
    /// for value in view.values() { sum = sum.wrapping_add(*value); }
    /// ```
    pub fn values(&self) -> ViewValues<'_, K, V, A>
        ensures { result ≡ map (λ p. p.1) (all_pairs self.now.plain.tables) }
    {
        self.plain.values()
    }
}

/// A map's text, shards and their slots in order.
impl<K: Eq + Hash + fmt::Debug, V: fmt::Debug, S: BuildHasher, Q, A: Allocator> fmt::Debug
    for ReadOnlyView<K, V, S, Q, A> {
    fn fmt<W: fmt::Write>(&self, f: &mut fmt::Formatter<W>) -> fmt::Result {
        self.plain.fmt(f)
    }
}
