//! Calls on one key.
ghost use Rattle.std.specs.Prelude.{◌≡◌, Option, Result, Some, true, IsTrue, IfSome, IfErr};
ghost use Rattle.std.specs.Fn.{FnOnceReturnsAt};
ghost use Rattle.std.specs.Option.{is_some};
ghost use Rattle.std.specs.Sync.RwLock.{read_guard_value};
ghost use Rattle.dashmap_guard.specs.Guarded.{key_in};
ghost use Rattle.dashmap_table.specs.Slots.{slot_of};
ghost use Rattle.dashmap_map.specs.Effects.{Inserts, Removes, Finds};
ghost use Rattle.dashmap_map.specs.Evidence.{UnderKey, OnSightOfKey};
ghost use Rattle.dashmap_map.specs.Locked.{lock_of};
ghost use Rattle.dashmap.specs.Set.Calls.{is_new, key_of, RemovesKeyIf};

use crate::set::DashSet;
use crate::setref::one::Ref;
use dashmap_table::Shard;
use lock_api_rw::Evidence;
use std::alloc::Allocator;
use std::hash::{BuildHasher, Hash};
use std::sync::Wait;

/// What the map's insertion tells of a key: whether it is new, or the key that was refused.
pub(crate) fn told<K>(answer: Result<Option<()>, (K, ())>) -> Result<bool, K>
    ensures { result ≡ is_new answer }
{
    match answer {
        Ok(old) => Ok(old.is_none()),
        Err((key, ())) => Err(key),
    }
}

/// The key of a pair that was taken out.
fn key_of<K>(pair: Option<(K, ())>) -> Option<K>
    ensures { result ≡ key_of pair }
{
    let (key, ()) = pair?;
    Some(key)
}

impl<K: Eq + Hash, S: BuildHasher, Q: Evidence<Shard<K, (), A>>, A: Allocator> DashSet<K, S, Q, A>
where
    Q::Runtime: Wait,
{
    /// Takes the stored key out, if it is there. The room stays.
    ///
    /// Blocks while another holds the shard.
    ///
    /// ```text
    /// if let Some(name) = set.remove(&"seven", &mut me) { .. }
    /// ```
    pub fn remove(&self, key: &K, td: &mut Q::Party) -> Option<K>
        ensures asked { IfSome result (λ k. IsTrue (K.eq k key.now)) }
        ensures evidence { (pair : Option (K × Unit {0})) × (result ≡ key_of pair)
            × UnderKey S.BuildHasher S.Hasher.Hasher K.hash_input Q.held self.now key.now td.old td.new
            (λ hash old new. Removes K.eq old new hash key.now pair) }
    {
        key_of(self.inner.remove(key, td))
    }

    /// Takes the stored key out if the closure answers true of it. Else it stays.
    ///
    /// Blocks while another holds the shard; the closure runs under the hold.
    ///
    /// ```text
    /// let gone = set.remove_if(&"seven", |name| name.len() > 4, &mut me);
    /// ```
    pub fn remove_if<F: FnOnce(&K) -> bool + Drop>(
        &self,
        key: &K,
        f: F,
        td: &mut Q::Party,
    ) -> Option<K>
        requires { F.IsAlwaysCallable f }
        ensures asked { IfSome result (λ k. IsTrue (K.eq k key.now) × FnOnceReturnsAt F.FnOnce f k true) }
        ensures evidence { (pair : Option (K × Unit {0})) × (result ≡ key_of pair)
            × UnderKey S.BuildHasher S.Hasher.Hasher K.hash_input Q.held self.now key.now td.old td.new
            (λ hash old new. RemovesKeyIf K.eq F.FnOnce f old new hash key.now pair) }
    {
        key_of(
            self.inner.remove_if(
                key,
                |stored, _| -> bool
                    requires { F.IsAlwaysCallable f }
                    ensures { FnOnceReturnsAt F.FnOnce f stored.now result }
                { f(stored) },
                td,
            ),
        )
    }

    /// A shared guard of a key, if it is there. Others may read keys of its shard meanwhile.
    ///
    /// Blocks while another holds the shard exclusively, or waits to. The guard keeps the borrow of `td`, so a second
    /// call with it beside the guard doesn't compile.
    ///
    /// ```text
    /// if let Some(name) = set.get(&"seven", &mut me) { let bytes = name.len(); }
    /// ```
    pub fn get<'m, 'd>(&'m self, key: &K, td: &'d mut Q::Party) -> Option<Ref<'m, 'd, K, Q, A>>
        ensures asked { IfSome result
            (λ r. IfSome (key_in (read_guard_value r.0.inner) r.1) (λ k. IsTrue (K.eq k key.now))) }
        ensures lock { IfSome result
            (λ r. lock_of S.BuildHasher S.Hasher.Hasher K.hash_input self.now key.now ≡ Some r.0.held.0.place.now) }
        ensures evidence { (left : Q.Party)
            × OnSightOfKey S.BuildHasher S.Hasher.Hasher K.hash_input Q.showed self.now key.now td.old left
            (λ hash shard. Finds K.eq (λ r. (read_guard_value r.0.inner, r.1)) shard hash key.now result) }
    {
        match self.inner.get(key, td) {
            Some(pair) => Some(Ref::of_pair(pair)),
            None => None,
        }
    }

    /// Whether the key is there. By the time it answers others may have put it in or taken it out.
    ///
    /// Blocks while another holds the shard exclusively, or waits to.
    ///
    /// ```text
    /// if set.contains(&"seven", &mut me) { .. }
    /// ```
    pub fn contains(&self, key: &K, td: &mut Q::Party) -> bool
        ensures { OnSightOfKey S.BuildHasher S.Hasher.Hasher K.hash_input Q.showed self.now key.now td.old td.new
            (λ hash shard. result ≡ is_some (slot_of K.eq shard.slots hash key.now)) }
    {
        self.inner.contains_key(key, td)
    }
}

impl<
    K: Eq + Hash + Drop,
    S: BuildHasher,
    Q: Evidence<Shard<K, (), A>>,
    A: Allocator + Clone,
> DashSet<K, S, Q, A>
where
    Q::Runtime: Wait,
{
    /// Puts a key in, and answers whether it is new. Of a present key the stored one stays, and the one that was handed
    /// in is let go; it is never refused.
    ///
    /// Blocks while another holds the shard. Memory: a new key may have its shard grow; where that is refused nothing
    /// changes, and the key comes back as the error.
    ///
    /// ```text
    /// let is_new = set.insert("seven", &mut me)?;
    /// ```
    pub fn insert(&self, key: K, td: &mut Q::Party) -> Result<bool, K>
        ensures refused { IfErr result (λ back. back ≡ key) }
        ensures evidence { (told : Result (Option (Unit {0})) (K × Unit {0})) × (result ≡ is_new told)
            × UnderKey S.BuildHasher S.Hasher.Hasher K.hash_input Q.held self.now key td.old td.new
            (λ hash old new. Inserts K.eq old new hash key (tt {0}) told) }
    {
        told(self.inner.insert(key, (), td))
    }
}
