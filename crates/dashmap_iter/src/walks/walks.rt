//! Walks over all shards of a map, each of which is held exclusively in its turn.
ghost use Rattle.std.specs.Prelude.{◌≡◌, ◌<◌, ℕ, None, Some, length, slice_get};
ghost use Rattle.std.specs.Option.{option_map};
ghost use Rattle.std.specs.Sync.RwLock.{write_guard_value};
ghost use Rattle.crossbeam_utils.specs.Padded.{padded_value};
ghost use Rattle.dashmap_table.specs.Slots.{at};
ghost use Rattle.dashmap_map.specs.Evidence.{UnderLock};
ghost use Rattle.dashmap_map.specs.Locked.{Locked};
ghost use Rattle.dashmap_iter.specs.Walks.Visits.{Walked, AtFull, Keeps, Alters};
ghost use Rattle.dashmap_iter.specs.Walks.Held.{EachLocked};

use crate::walks::each::{alter_each_in, clear_in, retain_in};
use crossbeam_utils::CachePadded;
use dashmap_map::DashMap;
use dashmap_map::parts::shard_locks;
use dashmap_table::Shard;
use lock_api_rw::{Evidence, RwLock, TracedWriteGuard, write_traced};
use std::alloc::Allocator;
use std::hash::{BuildHasher, Hash};
use std::sync::Wait;

/// Walks over a map, which takes its shards in their order. What waits is lent what the thread has last.
///
/// What lies behind a lock is known to its holder alone, so each contract says what happens to each shard while it is
/// held: each shard once, from the first on. What others do to a shard before or after, no clause can say.
///
/// ```text
/// map.retain(|_, age| *age > 20, &mut me);
/// map.alter_all(|_, age| age.wrapping_add(1), &mut me);
/// map.clear(&mut me);
/// ```
pub trait Walks<K: Eq + Hash, V, S, Q: Evidence<Shard<K, V, A>>, A: Allocator>
where
    Q::Runtime: Wait,
{
    /// The locks and the hasher of a map.
    ghost seen: { Self → Locked Q S };

    /// Asks the closure of each pair, whose value it may write, and takes those out of which it answers false. One
    /// shard is held at a time, shard 0 first, so calls on other shards go on.
    ///
    /// Blocks while another holds a shard, at each in its turn. The closure runs under the hold: a call on the same map
    /// with data of its own can wait for ever.
    ///
    /// ```text
    /// map.retain(|_, age| *age <= 20, &mut me);
    /// ```
    fn retain<F: FnMut(&K, &mut V) -> bool + Drop>(&self, f: F, td: &mut Q::Party)
    where
        K: Drop,
        V: Drop,
        requires { F.IsAlwaysCallable f }
        ensures { (last : F) × EachLocked Q.held (seen self.now)
            (λ p q. Walked (AtFull (Keeps F.FnMut)) (length p.1.slots) p q) (td.old, f) (td.new, last) };

    /// Stores what the closure makes of each value. The next shard is held before the last one is given back.
    ///
    /// Blocks while another holds a shard, at each in its turn.
    ///
    /// ```text
    /// map.alter_all(|_, age| age.wrapping_add(1), &mut me);
    /// ```
    fn alter_all<F: FnMut(&K, V) -> V + Drop>(&self, f: F, td: &mut Q::Party)
        requires { F.IsAlwaysCallable f }
        ensures { (last : F) × EachLocked Q.held (seen self.now)
            (λ p q. Walked (AtFull (Alters F.FnMut)) (length p.1.slots) p q) (td.old, f) (td.new, last) };

    /// Takes every pair out; the room stays. One shard is held at a time, and others may put pairs in behind it.
    ///
    /// Blocks while another holds a shard, at each in its turn.
    ///
    /// ```text
    /// map.clear(&mut me);
    /// ```
    fn clear(&self, td: &mut Q::Party)
    where
        K: Drop,
        V: Drop,
        ensures { EachLocked Q.held (seen self.now) (λ p q. (i : ℕ) → at q.1.slots i ≡ None)
            (td.old, tt {0}) (td.new, tt {0}) };

    /// As `retain`.
    ///
    /// ```text
    /// map._retain(|_, count| *count > 0, &mut me);
    /// ```
    fn _retain<F: FnMut(&K, &mut V) -> bool + Drop>(&self, f: F, td: &mut Q::Party)
    where
        K: Drop,
        V: Drop,
        requires { F.IsAlwaysCallable f }
        ensures { (last : F) × EachLocked Q.held (seen self.now)
            (λ p q. Walked (AtFull (Keeps F.FnMut)) (length p.1.slots) p q) (td.old, f) (td.new, last) };

    /// As `alter_all`.
    ///
    /// ```text
    /// map._alter_all(|_, count| count.wrapping_add(1), &mut me);
    /// ```
    fn _alter_all<F: FnMut(&K, V) -> V + Drop>(&self, f: F, td: &mut Q::Party)
        requires { F.IsAlwaysCallable f }
        ensures { (last : F) × EachLocked Q.held (seen self.now)
            (λ p q. Walked (AtFull (Alters F.FnMut)) (length p.1.slots) p q) (td.old, f) (td.new, last) };

    /// As `clear`.
    ///
    /// ```text
    /// map._clear(&mut me);
    /// ```
    fn _clear(&self, td: &mut Q::Party)
    where
        K: Drop,
        V: Drop,
        ensures { EachLocked Q.held (seen self.now) (λ p q. (i : ℕ) → at q.1.slots i ≡ None)
            (td.old, tt {0}) (td.new, tt {0}) };
}

/// The lock of a shard. For the layer above.
pub fn lock_behind<K: Eq + Hash, V, Q, A: Allocator>(
    locks: &[CachePadded<RwLock<Q, Shard<K, V, A>>>],
    shard: usize,
) -> &RwLock<Q, Shard<K, V, A>>
    requires { shard < length locks.now }
    ensures { option_map padded_value (slice_get locks.now shard) ≡ Some result.now }
{
    &*locks[shard]
}

/// `retain` for one shard, which is held meanwhile.
fn retain_behind<
    K: Eq + Hash + Drop,
    V: Drop,
    Q: Evidence<Shard<K, V, A>>,
    A: Allocator,
    F: FnMut(&K, &mut V) -> bool + Drop,
>(lock: &RwLock<Q, Shard<K, V, A>>, f: F, td: &mut Q::Party) -> F
where
    Q::Runtime: Wait,
    requires { F.IsAlwaysCallable f }
    ensures evidence { UnderLock Q.held (Some lock.now) td.old td.new
        (λ old new. Walked (AtFull (Keeps F.FnMut)) (length old.slots) (f, old) (result, new)) }
    ensures again { F.IsAlwaysCallable result }
{
    let mut shard = write_traced(lock, td);
    let f = retain_in(&mut *shard, f);
    shard.give_back();
    f
}

/// `clear` for one shard, which is held meanwhile.
fn clear_behind<K: Eq + Hash + Drop, V: Drop, Q: Evidence<Shard<K, V, A>>, A: Allocator>(
    lock: &RwLock<Q, Shard<K, V, A>>,
    td: &mut Q::Party,
)
where
    Q::Runtime: Wait,
    ensures { UnderLock Q.held (Some lock.now) td.old td.new (λ old new. (i : ℕ) → at new.slots i ≡ None) }
{
    let mut shard = write_traced(lock, td);
    clear_in(&mut *shard);
    shard.give_back();
}

/// Holds the next shard, and then gives the last one back.
fn hold_next<'m, K: Eq + Hash, V, Q: Evidence<Shard<K, V, A>>, A: Allocator>(
    lock: &'m RwLock<Q, Shard<K, V, A>>,
    last: TracedWriteGuard<'m, Q, Shard<K, V, A>>,
    td: &mut Q::Party,
) -> TracedWriteGuard<'m, Q, Shard<K, V, A>>
where
    Q::Runtime: Wait,
    ensures lock { result.held.0.place.now ≡ lock.now }
    ensures before { result.before.value ≡ write_guard_value result.inner }
    ensures wait { (result.from.value ≡ td.old) × (result.to.value ≡ td.new) }
    ensures told { Q.held last.entry.held.0.place.now last.entry.from.value last.entry.to.value last.entry.before.value
        (write_guard_value last.entry.inner) }
{
    let next = write_traced(lock, td);
    last.give_back();
    next
}

impl<K: Eq + Hash, V, S: BuildHasher, Q: Evidence<Shard<K, V, A>>, A: Allocator> Walks<
    K,
    V,
    S,
    Q,
    A,
> for DashMap<K, V, S, Q, A>
where
    Q::Runtime: Wait,
{
    ghost seen = { λ map. map };

    fn retain<F: FnMut(&K, &mut V) -> bool + Drop>(&self, f: F, td: &mut Q::Party)
    where
        K: Drop,
        V: Drop,
    {
        let locks = shard_locks(self);
        let mut f = f;
        for shard in 0..locks.len() {
            f = retain_behind(lock_behind(locks, shard), f, td);
        }
    }

    fn alter_all<F: FnMut(&K, V) -> V + Drop>(&self, f: F, td: &mut Q::Party) {
        let locks = shard_locks(self);
        let mut held = write_traced(lock_behind(locks, 0), td);
        let mut f = alter_each_in(&mut *held, f);
        for shard in 1..locks.len() {
            held = hold_next(lock_behind(locks, shard), held, td);
            f = alter_each_in(&mut *held, f);
        }
        held.give_back();
    }

    fn clear(&self, td: &mut Q::Party)
    where
        K: Drop,
        V: Drop,
    {
        let locks = shard_locks(self);
        for shard in 0..locks.len() {
            clear_behind(lock_behind(locks, shard), td);
        }
    }

    fn _retain<F: FnMut(&K, &mut V) -> bool + Drop>(&self, f: F, td: &mut Q::Party)
    where
        K: Drop,
        V: Drop,
    {
        self.retain(f, td);
    }

    fn _alter_all<F: FnMut(&K, V) -> V + Drop>(&self, f: F, td: &mut Q::Party) {
        self.alter_all(f, td);
    }

    fn _clear(&self, td: &mut Q::Party)
    where
        K: Drop,
        V: Drop,
    {
        self.clear(td);
    }
}
