//! Shards that nobody writes.
ghost use Rattle.std.specs.Prelude.{◌≡◌, ◌↔◌, IsTrue, IfOk, IfErr, length, is_some, map};
ghost use Rattle.std.specs.Option.{option_map, option_copied};
ghost use Rattle.dashmap_table.specs.Route.{IsShardAmount};
ghost use Rattle.dashmap_table.specs.Shards.{AreSharded, pair_at};
ghost use Rattle.std.specs.List.{AllZip};
ghost use Rattle.dashmap_view.specs.Clones.{IsCloneOf};
ghost use Rattle.dashmap_view.specs.Views.{AreRouted, all_pairs, pair_count, room_in, at_most_max};

use crate::clone::{clone_hasher, clone_shards};
use crate::counting::{pairs_in, room_for};
use crate::displaced::Displaced;
use crate::iter::{ViewIter, ViewKeys, ViewValues};
use crate::owning::OwningIter;
use crate::routed::are_routed;
use dashmap_table::{NoMemory, Shard, route};
use std::alloc::{Allocator, Global};
use std::fmt;
use std::hash::{BuildHasher, Hash};
use std::marker::Model;

/// The shards of a map and its hasher, as long as nobody writes them. It needs no lock, and its calls take no memory.
///
/// A contract sees what it sees of plain shards (`Tables`), and a key's pair by `pair_at`. Each pair is in the shard of
/// its key's route, under its key's hash.
///
/// ```rust
/// let view = PlainView::of(shards, hasher).map_err(|_| "a pair in a wrong shard")?;
/// let seven = view.get(&"seven");                 // the value, lent
/// let names = view.keys().count();                // as many as `view.len()`
/// let (shards, hasher) = view.into_parts();       // what was handed in
/// ```
#[derive(Drop)]
pub struct PlainView<K: Eq + Hash, V, S: BuildHasher, A: Allocator = Global> {
    shards: Vec<Shard<K, V, A>, A>,
    hasher: S,
}

impl<K: Eq + Hash, V, S: BuildHasher, A: Allocator> Model for PlainView<K, V, S, A> {
    ghost use Rattle.dashmap_table.specs.Shards.{Tables, AreSharded};

    ghost Value = { Tables K V S };

    ghost view = { λ v. record { tables = v.shards.items; hasher = v.hasher } };

    ghost invariant = { λ v. AreSharded S.BuildHasher S.Hasher.Hasher K.hash_input K.eq
        (record { tables = v.shards.items; hasher = v.hasher }) };
}

impl<K: Eq + Hash, V, S: BuildHasher, A: Allocator> PlainView<K, V, S, A> {
    /// A view of these shards, of which there is a power of two from 2 to 65,536.
    ///
    /// It tests each pair once. Where one lies in a shard that isn't its key's, or under another hash than its key's,
    /// there is no view, and the shards come back.
    ///
    /// ```text
    /// let view = PlainView::of(plain, hasher).map_err(|_| Wrong)?;   // with a wrong pair all comes back
    /// ```
    pub fn of(
        shards: Vec<Shard<K, V, A>, A>,
        hasher: S,
    ) -> Result<PlainView<K, V, S, A>, Displaced<(Vec<Shard<K, V, A>, A>, S)>>
        requires { IsShardAmount (length shards.items) }
        ensures view { IfOk result (λ v. v ≡ record { tables = shards.items; hasher = hasher }) }
        ensures displaced { IfErr result (λ back. (back ≡ (shards, hasher)) × ¬ AreRouted S.BuildHasher S.Hasher.Hasher K.hash_input
            hasher shards.items) }
    {
        if are_routed(&shards, &hasher) {
            Ok(PlainView { shards, hasher })
        } else {
            Err(Displaced::new((shards, hasher)))
        }
    }

    /// A view of shards and a hasher that are known to belong together, as those of another view do. It tests nothing.
    ///
    /// ```text
    /// let (plain, hasher) = view.into_parts();
    /// let view = PlainView::from_parts(plain, hasher);
    /// ```
    pub fn from_parts(plain: Vec<Shard<K, V, A>, A>, hasher: S) -> PlainView<K, V, S, A>
        requires { AreSharded S.BuildHasher S.Hasher.Hasher K.hash_input K.eq
            (record { tables = plain.items; hasher = hasher }) }
        ensures { result ≡ record { tables = plain.items; hasher = hasher } }
    {
        PlainView {
            shards: plain,
            hasher,
        }
    }

    /// A view of clones of all pairs, with as many shards. Keys, values and the hasher have to be equal to their
    /// clones.
    ///
    /// ```text
    /// let copy = view.clone()?;
    /// ```
    pub fn clone(&self) -> Result<PlainView<K, V, S, A>, NoMemory>
    where
        K: Clone + Drop,
        V: Clone + Drop,
        S: Clone + Drop,
        A: Clone,
        requires keys { (key copy : K) → K.is_clone key copy → copy ≡ key }
        requires values { (value copy : V) → V.is_clone value copy → copy ≡ value }
        requires hasher { (hasher copy : S) → S.is_clone hasher copy → copy ≡ hasher }
        ensures shards { IfOk result (λ v. AllZip (IsCloneOf K.eq) self.now.tables v.tables) }
        ensures hasher { IfOk result (λ v. v.hasher ≡ self.now.hasher) }
        ensures pairs { IfOk result
            (λ v. (q : K) → pair_at S.BuildHasher S.Hasher.Hasher K.hash_input K.eq v q ≡ pair_at S.BuildHasher
            S.Hasher.Hasher K.hash_input K.eq self.now q) }
    {
        let hasher = clone_hasher(&self.hasher)?;
        let shards = clone_shards(&self.shards, self.shards.allocator().clone()?)?;
        Ok(PlainView { shards, hasher })
    }

    /// The shards and the hasher.
    ///
    /// ```text
    /// let (plain, hasher) = view.into_parts();
    /// ```
    pub fn into_parts(self) -> (Vec<Shard<K, V, A>, A>, S)
        ensures shards { result.0.items ≡ self.tables }
        ensures hasher { result.1 ≡ self.hasher }
        ensures sharded { AreSharded S.BuildHasher S.Hasher.Hasher K.hash_input K.eq self }
    {
        let PlainView { shards, hasher } = self;
        (shards, hasher)
    }

    /// Lends the shards.
    ///
    /// ```text
    /// let pairs = view.shards()[0].len();
    /// ```
    pub fn shards(&self) -> &[Shard<K, V, A>]
        ensures shards { result.now ≡ self.now.tables }
        ensures sharded { AreSharded S.BuildHasher S.Hasher.Hasher K.hash_input K.eq self.now }
    {
        &self.shards
    }

    /// Lends the hasher.
    ///
    /// ```text
    /// let hash = view.hasher().hash_one(&7u64);
    /// ```
    pub fn hasher(&self) -> &S
        ensures { result.now ≡ self.now.hasher }
    {
        &self.hasher
    }

    /// How many pairs there are. It stops at `usize::MAX`.
    ///
    /// ```text
    /// let pairs = view.len();
    /// ```
    pub fn len(&self) -> usize
        ensures { result ≡ at_most_max (pair_count self.now.tables) }
    {
        pairs_in(&self.shards)
    }

    /// Whether there are none.
    ///
    /// ```text
    /// if view.is_empty() { return Ok(()); }
    /// ```
    pub fn is_empty(&self) -> bool
        ensures { IsTrue result ↔ (pair_count self.now.tables ≡ 0) }
    {
        self.len() == 0
    }

    /// For how many pairs there is room. It stops at `usize::MAX`.
    ///
    /// ```text
    /// let spare = view.capacity().wrapping_sub(view.len());
    /// ```
    pub fn capacity(&self) -> usize
        ensures { result ≡ at_most_max (room_in self.now.tables) }
    {
        room_for(&self.shards)
    }

    /// Lends the stored pair of a key.
    ///
    /// ```text
    /// if let Some((key, count)) = view.get_key_value(&7) { println!(rt; "{key} {count}")?; }   // the stored key
    /// ```
    pub fn get_key_value(&self, key: &K) -> Option<(&K, &V)>
        ensures { option_map (λ p. (p.0.now, p.1.now)) result ≡ pair_at S.BuildHasher S.Hasher.Hasher K.hash_input K.eq
            self.now key.now }
    {
        let hash = self.hasher.hash_one(key);
        let shard = &self.shards[route(hash, self.shards.len())];
        shard.pair(shard.find(hash, key)?)
    }

    /// Lends the value of a key.
    ///
    /// ```text
    /// let seven = view.get(&7).copied();
    /// ```
    pub fn get(&self, key: &K) -> Option<&V>
        ensures { option_copied result ≡ option_map (λ p. p.1)
            (pair_at S.BuildHasher S.Hasher.Hasher K.hash_input K.eq self.now key.now) }
    {
        let (_, value) = self.get_key_value(key)?;
        Some(value)
    }

    /// Whether a key is there.
    ///
    /// ```text
    /// let known = view.contains_key(&7);
    /// ```
    pub fn contains_key(&self, key: &K) -> bool
        ensures { result ≡ is_some (pair_at S.BuildHasher S.Hasher.Hasher K.hash_input K.eq self.now key.now) }
    {
        self.get_key_value(key).is_some()
    }

    /// All pairs, lent, shards and their slots in order.
    ///
    /// ```text
    /// for (key, count) in view.iter() { sum = sum.wrapping_add(*key).wrapping_add(*count); }
    /// ```
    pub fn iter(&self) -> ViewIter<'_, K, V, A>
        ensures { result ≡ all_pairs self.now.tables }
    {
        ViewIter::new(&self.shards)
    }

    /// All keys, in the order of `iter`.
    ///
    /// ```text
    /// for key in view.keys() { sum = sum.wrapping_add(*key); }
    /// ```
    pub fn keys(&self) -> ViewKeys<'_, K, V, A>
        ensures { result ≡ map (λ p. p.0) (all_pairs self.now.tables) }
    {
        ViewKeys::new(self.iter())
    }

    /// All values, in the order of `iter`.
    ///
    /// ```text
    /// for count in view.values() { sum = sum.wrapping_add(*count); }
    /// ```
    pub fn values(&self) -> ViewValues<'_, K, V, A>
        ensures { result ≡ map (λ p. p.1) (all_pairs self.now.tables) }
    {
        ViewValues::new(self.iter())
    }
}

impl<K: Eq + Hash + Drop, V: Drop, S: BuildHasher + Drop, A: Allocator> IntoIterator
    for PlainView<K, V, S, A> {
    type Item = (K, V);

    type IntoIter = OwningIter<K, V, A>;

    ghost into_iter_gives = { λ view it. it ≡ all_pairs view.tables };

    fn into_iter(self) -> OwningIter<K, V, A>
        ensures { result ≡ all_pairs self.tables }
    {
        let (shards, _) = self.into_parts();
        OwningIter::new(shards)
    }
}

/// A map's text, shards and their slots in order.
impl<K: Eq + Hash + fmt::Debug, V: fmt::Debug, S: BuildHasher, A: Allocator> fmt::Debug
    for PlainView<K, V, S, A> {
    fn fmt<W: fmt::Write>(&self, f: &mut fmt::Formatter<W>) -> fmt::Result {
        f.debug_map().entries(self.iter()).finish()
    }
}
