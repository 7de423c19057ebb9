//! Walks over all shards of a set, each of which is held exclusively in its turn.
ghost use Rattle.std.specs.Prelude.{◌≡◌, ℕ, false, None, Some, IsSome, length};
ghost use Rattle.dashmap_table.specs.Slots.{at};
ghost use Rattle.dashmap_map.specs.Evidence.{UnderLock};
ghost use Rattle.dashmap_iter.specs.Walks.Held.{EachLocked};
ghost use Rattle.dashmap_iter.specs.Walks.Visits.{AtFull, Walked};
ghost use Rattle.dashmap.specs.Set.Walks.{AnswersKey, KeepsKey};

use crate::iter_set::Iter;
use crate::set::DashSet;
use dashmap_iter::LendingWalks;
use dashmap_iter::walks::{Walks, lock_behind};
use dashmap_map::parts::shard_locks;
use dashmap_table::Shard;
use lock_api_raw::RawRwLock;
use lock_api_rw::{Evidence, RwLock, write_traced};
use std::alloc::Allocator;
use std::hash::{BuildHasher, Hash};
use std::sync::Wait;

/// What a closure answers of a key, and the closure after the call.
fn ask<K, F: FnMut(&K) -> bool>(key: &K, f: F) -> (bool, F)
    requires { F.IsAlwaysCallable f }
    ensures answer { AnswersKey F.FnMut f key.now result.0 result.1 }
    ensures again { F.IsAlwaysCallable result.1 }
{
    let mut f = f;
    let answer = f(key);
    (answer, f)
}

/// Asks the closure of the key of a full slot, and takes it out where it answers false.
fn keep_slot<K: Eq + Hash + Drop, A: Allocator, F: FnMut(&K) -> bool>(
    shard: &mut Shard<K, (), A>,
    slot: usize,
    f: F,
) -> F
    requires full { IsSome (at shard.old.slots slot) }
    requires callable { F.IsAlwaysCallable f }
    ensures visit { AtFull (KeepsKey F.FnMut) (f, shard.old) slot (result, shard.new) }
    ensures slots { length shard.new.slots ≡ length shard.old.slots }
    ensures again { F.IsAlwaysCallable result }
{
    let Some((key, _)) = shard.pair(slot) else {
        return f;
    };
    let (stays, f) = ask(key, f);
    if stays {
        return f;
    }
    let _gone = shard.remove(slot);
    f
}

/// `retain` for a shard that is held.
fn retain_in<K: Eq + Hash + Drop, A: Allocator, F: FnMut(&K) -> bool + Drop>(
    shard: &mut Shard<K, (), A>,
    f: F,
) -> F
    requires { F.IsAlwaysCallable f }
    ensures each { Walked (AtFull (KeepsKey F.FnMut)) (length shard.old.slots) (f, shard.old) (result, shard.new) }
    ensures again { F.IsAlwaysCallable result }
{
    let mut f = f;
    let mut from = 0;
    while let Some(slot) = shard.next_from(from) {
        f = keep_slot(shard, slot, f);
        from = slot + 1;
    }
    f
}

/// `retain` for one shard, which is held meanwhile.
fn retain_behind<
    K: Eq + Hash + Drop,
    Q: Evidence<Shard<K, (), A>>,
    A: Allocator,
    F: FnMut(&K) -> bool + Drop,
>(lock: &RwLock<Q, Shard<K, (), A>>, f: F, td: &mut Q::Party) -> F
where
    Q::Runtime: Wait,
    requires { F.IsAlwaysCallable f }
    ensures evidence { UnderLock Q.held (Some lock.now) td.old td.new
        (λ old new. Walked (AtFull (KeepsKey F.FnMut)) (length old.slots) (f, old) (result, new)) }
    ensures again { F.IsAlwaysCallable result }
{
    let mut shard = write_traced(lock, td);
    let f = retain_in(&mut *shard, f);
    shard.give_back();
    f
}

impl<K: Eq + Hash, S: BuildHasher, Q: RawRwLock, A: Allocator> DashSet<K, S, Q, A>
where
    Q::Runtime: Wait,
{
    /// A walk that lends the keys, one by one. It holds nothing before its first item.
    ///
    /// Blocks at each shard while another holds it exclusively. It keeps the borrow of `td`. Memory: an item shares its
    /// shard's hold, which takes some; refused, it is an error, and the walk ends.
    ///
    /// ```text
    /// for item in set.iter(&mut me) {
    ///     let key = item?;                // an error where there was no memory
    /// }
    /// ```
    pub fn iter<'m, 'd>(&'m self, td: &'d mut Q::Party) -> Iter<'m, 'd, K, Q, A>
        ensures { result ≡ record { locks = self.now.locks; next = 0; held = None; from = 0; failed = false } }
    {
        Iter::of_walk(self.inner.iter(td))
    }
}

impl<K: Eq + Hash + Drop, S: BuildHasher, Q: Evidence<Shard<K, (), A>>, A: Allocator> DashSet<
    K,
    S,
    Q,
    A,
>
where
    Q::Runtime: Wait,
{
    /// Asks the closure of each key, and takes those out of which it answers false. One shard is held at a time, shard
    /// 0 first.
    ///
    /// What lies behind a lock is known to its holder alone, so the contract says what happens to each shard while it
    /// is held.
    ///
    /// ```text
    /// set.retain(|name| name.contains('i'), &mut me);
    /// ```
    pub fn retain<F: FnMut(&K) -> bool + Drop>(&self, f: F, td: &mut Q::Party)
        requires { F.IsAlwaysCallable f }
        ensures { (last : F) × EachLocked Q.held self.now
            (λ p q. Walked (AtFull (KeepsKey F.FnMut)) (length p.1.slots) p q) (td.old, f) (td.new, last) }
    {
        let locks = shard_locks(&self.inner);
        let mut f = f;
        for shard in 0..locks.len() {
            f = retain_behind(lock_behind(locks, shard), f, td);
        }
    }

    /// Takes every key out; the room stays. One shard is held at a time, shard 0 first, and others may put keys in
    /// behind it.
    ///
    /// Blocks while another holds a shard, at each in its turn.
    ///
    /// ```text
    /// set.clear(&mut me);
    /// ```
    pub fn clear(&self, td: &mut Q::Party)
        ensures { EachLocked Q.held self.now (λ p q. (i : ℕ) → at q.1.slots i ≡ None) (td.old, tt {0})
            (td.new, tt {0}) }
    {
        Walks::clear(&self.inner, td);
    }
}
