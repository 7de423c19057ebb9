//! A list of shards and a hasher, without locks.
ghost use Rattle.std.specs.Prelude.{◌≡◌, ℕ, ◌+◌, ◌<◌, ◌≤◌, ◌↔◌, IsSome, Err, length, replicate, None, Some, slice_set};
ghost use Rattle.std.specs.Prelude.{IsTrue, IfOk, IfErr, OnOk, OnErr, if◌then◌else◌};
ghost use Rattle.std.specs.Option.{option_map, option_copied_mut};
ghost use Rattle.std.specs.Borrow.{sem};
ghost use Rattle.dashmap_table.specs.Route.{IsShardAmount, route_of, hash_of};
ghost use Rattle.dashmap_table.specs.Slots.{at, count, pair_of};
ghost use Rattle.dashmap_table.specs.Table.{SamePairs, TakesOut, PutsIn};
ghost use Rattle.dashmap_table.specs.Shards.{AreApart, AreSharded, no_pairs, table_at, put_over, IsFull, OnlyChanges};
ghost use Rattle.dashmap_table.specs.Shards.{key_hash, key_shard, place_of, pair_at, IsSeenByItsKey};

use crate::fault::MapFault;
use crate::routing::{is_shard_amount, route};
use crate::shard::Shard;
use lock_api_raw::NoMemory;
use std::alloc::{Allocator, Global};
use std::hash::{BuildHasher, Hash};
use std::marker::Model;

/// The whole map for one owner: shards and a hasher, without locks. It routes and answers as the running map does, so
/// it says what that one has to answer.
///
/// A contract sees the shards' tables and the hasher (`Tables`), and a key's pair by `pair_at`.
///
/// ```rust
/// let mut map = Shards::new(alloc, 4, hasher)?;
/// map.insert("seven", 7u64)?;                          // no old value
/// let (shard, slot) = map.find(&"seven").ok_or("gone")?;
/// let key = map.shard(shard).pair(slot);               // the pair, lent
/// let pair = map.remove(&"seven");                     // the pair
/// ```
#[derive(Drop)]
pub struct Shards<K: Eq + Hash, V, S: BuildHasher, A: Allocator = Global> {
    shards: Vec<Shard<K, V, A>, A>,
    hasher: S,
}

impl<K: Eq + Hash, V, S: BuildHasher, A: Allocator> Model for Shards<K, V, S, A> {
    ghost use Rattle.dashmap_table.specs.Shards.{Tables, AreSharded};

    ghost Value = { Tables K V S };

    ghost view = { λ s. record { tables = s.shards.items; hasher = s.hasher } };

    ghost invariant = { λ s. AreSharded S.BuildHasher S.Hasher.Hasher K.hash_input K.eq
        (record { tables = s.shards.items; hasher = s.hasher }) };
}

/// So many shards without pairs.
fn empty_shards<K: Eq + Hash + Drop, V: Drop, A: Allocator + Clone>(
    alloc: A,
    count: usize,
) -> Result<Vec<Shard<K, V, A>, A>, NoMemory>
    ensures { IfOk result (λ v. v.items ≡ replicate count no_pairs) }
{
    let mut shards = Vec::with_capacity(alloc.clone()?, count)?;
    for _ in 0..count {
        shards.push(Shard::new(alloc.clone()?))?;
    }
    Ok(shards)
}

impl<K: Eq + Hash, V, S: BuildHasher, A: Allocator> Shards<K, V, S, A> {
    ghost use Rattle.dashmap_table.specs.ShardsLending.{lends_at, lends_at_if};

    /// So many shards without pairs and without room. What was handed in is let go where they aren't made.
    ///
    /// ```text
    /// let shards: Shards<u64, u64, SpreadState> = Shards::new(alloc, 4, SpreadState)?;
    /// ```
    pub fn new(alloc: A, shards: usize, hasher: S) -> Result<Shards<K, V, S, A>, MapFault>
    where
        K: Drop,
        V: Drop,
        S: Drop,
        A: Clone,
        ensures made { IfOk result (λ made. (made.tables ≡ replicate shards no_pairs) × (made.hasher ≡ hasher)) }
        ensures bad_shards { (result ≡ Err MapFault.BadShards) ↔ ¬ IsShardAmount shards }
        ensures no_memory { IsShardAmount shards → IfErr result (λ fault. fault ≡ MapFault.NoMemory) }
    {
        if !is_shard_amount(shards) {
            return Err(MapFault::BadShards);
        }
        Ok(Shards {
            shards: empty_shards(alloc, shards)?,
            hasher,
        })
    }

    /// How many shards there are.
    ///
    /// ```text
    /// let four = shards.count();
    /// ```
    pub fn count(&self) -> usize
        ensures count { result ≡ length self.now.tables }
        ensures amount { IsShardAmount result }
    {
        self.shards.len()
    }

    /// Lends the hasher.
    ///
    /// ```text
    /// let hash = shards.hasher().hash_one(&7u64);
    /// ```
    pub fn hasher(&self) -> &S
        ensures { result.now ≡ self.now.hasher }
    {
        &self.hasher
    }

    /// The hasher's hash of a key.
    ///
    /// ```text
    /// let shard = route(shards.hash(&7), shards.count());
    /// ```
    pub fn hash(&self, key: &K) -> u64
        ensures { result ≡ key_hash S.BuildHasher S.Hasher.Hasher K.hash_input self.now.hasher key.now }
    {
        self.hasher.hash_one(key)
    }

    /// Lends a shard. Each pair is in the shard of its key's route, under its key's hash, so no two shards have equal
    /// keys.
    ///
    /// ```text
    /// let pairs = shards.shard(0).len();
    /// ```
    pub fn shard(&self, shard: usize) -> &Shard<K, V, A>
        requires { shard < length self.now.tables }
        ensures shard { result.now ≡ table_at self.now.tables shard }
        ensures sharded { AreSharded S.BuildHasher S.Hasher.Hasher K.hash_input K.eq self.now }
        ensures apart { AreApart K.eq self.now.tables }
    {
        &self.shards[shard]
    }

    /// The shard of a key.
    fn shard_of(&self, hash: u64) -> usize
        ensures value { result ≡ route_of hash (length self.now.tables) }
        ensures below { result < length self.now.tables }
    {
        route(hash, self.shards.len())
    }

    /// The shard and the slot of a key.
    ///
    /// ```text
    /// if let Some((shard, slot)) = shards.find(&7) { println!(rt; "{:?}", shards.shard(shard).pair(slot))?; }
    /// ```
    pub fn find(&self, key: &K) -> Option<(usize, usize)>
        ensures place { result ≡ place_of S.BuildHasher S.Hasher.Hasher K.hash_input K.eq self.now key.now }
    {
        let hash = self.hash(key);
        let shard = self.shard_of(hash);
        match self.shards[shard].find(hash, key) {
            Some(slot) => Some((shard, slot)),
            None => None,
        }
    }

    /// Makes room for one more pair in a shard: the next insertion of a key of that shard isn't refused. Where there is
    /// such room already nothing changes.
    ///
    /// ```text
    /// shards.reserve(route(shards.hash(&7), shards.count()))?;
    /// ```
    pub fn reserve(&mut self, shard: usize) -> Result<(), NoMemory>
    where
        K: Drop,
        V: Drop,
        A: Clone,
        requires { shard < length self.old.tables }
        ensures ok { OnOk result
            (count (table_at self.new.tables shard).slots + 1 ≤ (table_at self.new.tables shard).room) }
        ensures pairs { (q : K) → pair_at S.BuildHasher S.Hasher.Hasher K.hash_input K.eq self.new q ≡ pair_at
            S.BuildHasher S.Hasher.Hasher K.hash_input K.eq self.old q }
        ensures others { OnlyChanges self.old self.new shard }
        ensures table { SamePairs K.eq (table_at self.old.tables shard) (table_at self.new.tables shard) }
        ensures room { (table_at self.old.tables shard).room ≤ (table_at self.new.tables shard).room }
        ensures enough { count (table_at self.old.tables shard).slots + 1 ≤ (table_at self.old.tables shard).room
            → (result ≡ Ok tt) × (self.new ≡ self.old) }
        ensures refused { OnErr result (self.new ≡ self.old) }
    {
        self.shards[shard].reserve(1)
    }

    /// Puts a pair in and answers the value that its key had. A present key keeps the stored key, gets the value and is
    /// never refused; a new key is refused only where its shard has no room and can't grow, and then the pair comes
    /// back.
    ///
    /// ```text
    /// let old = shards.insert(7, 70).map_err(|_| Wrong)?;
    /// ```
    pub fn insert(&mut self, key: K, value: V) -> Result<Option<V>, (K, V)>
    where
        K: Drop,
        V: Drop,
        A: Clone,
        ensures old { IfOk result
            (λ old. old ≡ option_map (λ p. p.1)
            (pair_at S.BuildHasher S.Hasher.Hasher K.hash_input K.eq self.old key)) }
        ensures after { OnOk result
            ((q : K) → pair_at S.BuildHasher S.Hasher.Hasher K.hash_input K.eq self.new q
            ≡ (if K.eq key q then Some
            (put_over (pair_at S.BuildHasher S.Hasher.Hasher K.hash_input K.eq self.old key) key value) else pair_at
            S.BuildHasher S.Hasher.Hasher K.hash_input K.eq self.old q)) }
        ensures others { OnlyChanges self.old self.new
            (key_shard S.BuildHasher S.Hasher.Hasher K.hash_input self.old key) }
        ensures table { OnOk result (let shard = key_shard S.BuildHasher S.Hasher.Hasher K.hash_input self.old key in
            PutsIn K.eq (table_at self.old.tables shard) (table_at self.new.tables shard)
            (key_hash S.BuildHasher S.Hasher.Hasher K.hash_input self.old.hasher key) key value) }
        ensures refused { IfErr result
            (λ back. (back ≡ (key, value)) × (self.new ≡ self.old)
            × (pair_at S.BuildHasher S.Hasher.Hasher K.hash_input K.eq self.old key ≡ None)
            × IsFull (table_at self.old.tables (key_shard S.BuildHasher S.Hasher.Hasher K.hash_input self.old key))) }
    {
        let hash = self.hash(&key);
        let shard = self.shard_of(hash);
        let (_, old) = self.shards[shard].insert(hash, key, value)?;
        Ok(old)
    }

    /// Takes the pair of a key out.
    ///
    /// ```text
    /// let pair = shards.remove(&7);
    /// ```
    pub fn remove(&mut self, key: &K) -> Option<(K, V)>
        ensures pair { result ≡ pair_at S.BuildHasher S.Hasher.Hasher K.hash_input K.eq self.old key.now }
        ensures after { (q : K) → pair_at S.BuildHasher S.Hasher.Hasher K.hash_input K.eq self.new q
            ≡ (if K.eq key.now q then None else pair_at S.BuildHasher S.Hasher.Hasher K.hash_input K.eq self.old q) }
        ensures others { OnlyChanges self.old self.new
            (key_shard S.BuildHasher S.Hasher.Hasher K.hash_input self.old key.now) }
        ensures table { let shard = key_shard S.BuildHasher S.Hasher.Hasher K.hash_input self.old key.now in
            TakesOut K.eq (table_at self.old.tables shard) (table_at self.new.tables shard)
            (key_hash S.BuildHasher S.Hasher.Hasher K.hash_input self.old.hasher key.now) key.now }
    {
        let hash = self.hash(key);
        let shard = self.shard_of(hash);
        let slot = self.shards[shard].find(hash, key)?;
        self.shards[shard].remove(slot)
    }

    fn lend_value(&mut self, shard: usize, slot: usize) -> &mut V
        requires within { shard < length self.old.tables }
        requires full { IsSome (at (table_at self.old.tables shard).slots slot) }
        ensures* writes_back { sem 𝓛 (lends_at K.row V.row S.row A.row S.Hasher.row K.Hash S.BuildHasher S.Hasher.Hasher A.Allocator
            self.entry shard slot result) }
        ensures value { option_map (λ e. e.value) (at (table_at self.old.tables shard).slots slot) ≡ Some result.now }
    {
        self.shards[shard].lend_value(slot)
    }

    /// Lends the value of a full slot of a shard for writing; `None` where the slot is free or there is no such shard.
    /// Afterwards the slot has the value that was written, and nothing else has changed: the pair's key finds the
    /// value, and every other key finds what it found.
    ///
    /// ```text
    /// if let Some((shard, slot)) = shards.find(&7) {
    ///     if let Some(count) = shards.value_mut(shard, slot) { *count = 71; }
    /// }
    /// ```
    pub fn value_mut(&mut self, shard: usize, slot: usize) -> Option<&mut V>
        ensures* writes_back { sem 𝓛 (lends_at_if K.row V.row S.row A.row S.Hasher.row K.Hash S.BuildHasher S.Hasher.Hasher A.Allocator
            self.entry shard slot result) }
        ensures value { option_copied_mut result ≡ option_map (λ e. e.value)
            (at (table_at self.old.tables shard).slots slot) }
        ensures seen { IsSeenByItsKey S.BuildHasher S.Hasher.Hasher K.hash_input K.eq self.old shard slot }
    {
        if shard < self.shards.len() && self.shards[shard].is_full(slot) {
            Some(self.lend_value(shard, slot))
        } else {
            None
        }
    }
}
