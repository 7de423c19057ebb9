//! Calls on one key, written as operators. What waits is lent what the thread has last in the tuple.
ghost use Rattle.std.specs.Prelude.{◌≡◌, Some, IsTrue, IfSome, IfErr};
ghost use Rattle.std.specs.Option.{is_some};
ghost use Rattle.std.specs.Sync.RwLock.{read_guard_value, write_guard_value};
ghost use Rattle.dashmap_guard.specs.Guarded.{key_in};
ghost use Rattle.dashmap_table.specs.Slots.{slot_of};
ghost use Rattle.dashmap_map.specs.Effects.{Finds, Inserts, Removes};
ghost use Rattle.dashmap_map.specs.Evidence.{OnSightOfKey, UnderKey};
ghost use Rattle.dashmap_map.specs.Locked.{lock_of};

use crate::map::DashMap;
use crate::mapref::one::{Ref, RefMut};
use dashmap_table::Shard;
use lock_api_rw::Evidence;
use std::alloc::Allocator;
use std::hash::{BuildHasher, Hash};
use std::ops::{BitAnd, BitOr, Shl, Shr, Sub};
use std::sync::Wait;

/// `&map << (key, value, td)` is `map.insert(key, value, td)`.
impl<
    'm,
    'd,
    K: Eq + Hash + Drop,
    V: Drop,
    S: BuildHasher,
    Q: Evidence<Shard<K, V, A>>,
    A: Allocator + Clone,
> Shl<(K, V, &'d mut Q::Party)> for &'m DashMap<K, V, S, Q, A>
where
    Q::Runtime: Wait,
{
    type Output = Result<Option<V>, (K, V)>;

    ghost shl_gives = { λ map pair result. IfErr result (λ back. back ≡ (pair.0, pair.1))
        × ((left : Q.Party) × UnderKey S.BuildHasher S.Hasher.Hasher K.hash_input Q.held map.now pair.0 pair.2.now left
        (λ hash old new. Inserts K.eq old new hash pair.0 pair.1 result)) };

    fn shl(self, rhs: (K, V, &'d mut Q::Party)) -> Result<Option<V>, (K, V)> {
        let (key, value, td) = rhs;
        self.insert(key, value, td)
    }
}

/// `&map - (&key, td)` is `map.remove(&key, td)`.
impl<'m, 'k, 'd, K: Eq + Hash, V, S: BuildHasher, Q: Evidence<Shard<K, V, A>>, A: Allocator> Sub<
    (&'k K, &'d mut Q::Party),
> for &'m DashMap<K, V, S, Q, A>
where
    Q::Runtime: Wait,
{
    type Output = Option<(K, V)>;

    ghost sub_gives = { λ map asked result. IfSome result (λ p. IsTrue (K.eq p.0 asked.0.now))
        × ((left : Q.Party) × UnderKey S.BuildHasher S.Hasher.Hasher K.hash_input Q.held map.now asked.0.now asked.1.now
        left (λ hash old new. Removes K.eq old new hash asked.0.now result)) };

    fn sub(self, rhs: (&'k K, &'d mut Q::Party)) -> Option<(K, V)> {
        let (key, td) = rhs;
        self.remove(key, td)
    }
}

/// `&map & (&key, td)` is `map.contains_key(&key, td)`.
impl<'m, 'k, 'd, K: Eq + Hash, V, S: BuildHasher, Q: Evidence<Shard<K, V, A>>, A: Allocator> BitAnd<
    (&'k K, &'d mut Q::Party),
> for &'m DashMap<K, V, S, Q, A>
where
    Q::Runtime: Wait,
{
    type Output = bool;

    ghost bitand_gives = { λ map asked result. (left : Q.Party)
        × OnSightOfKey S.BuildHasher S.Hasher.Hasher K.hash_input Q.showed map.now asked.0.now asked.1.now left
        (λ hash shard. result ≡ is_some (slot_of K.eq shard.slots hash asked.0.now)) };

    fn bitand(self, rhs: (&'k K, &'d mut Q::Party)) -> bool {
        let (key, td) = rhs;
        self.contains_key(key, td)
    }
}

/// `&map >> (&key, td)` is `map.get(&key, td)`.
impl<'m, 'k, 'd, K: Eq + Hash, V, S: BuildHasher, Q: Evidence<Shard<K, V, A>>, A: Allocator> Shr<
    (&'k K, &'d mut Q::Party),
> for &'m DashMap<K, V, S, Q, A>
where
    Q::Runtime: Wait,
{
    type Output = Option<Ref<'m, 'd, K, V, Q, A>>;

    ghost shr_gives = { λ map asked result. IfSome result (λ r.
        IfSome (key_in (read_guard_value r.0.inner) r.1) (λ k. IsTrue (K.eq k asked.0.now))
        × (lock_of S.BuildHasher S.Hasher.Hasher K.hash_input map.now asked.0.now ≡ Some r.0.held.0.place.now))
        × ((left : Q.Party)
        × OnSightOfKey S.BuildHasher S.Hasher.Hasher K.hash_input Q.showed map.now asked.0.now asked.1.now left
        (λ hash shard. Finds K.eq (λ r. (read_guard_value r.0.inner, r.1)) shard hash asked.0.now result)) };

    fn shr(self, rhs: (&'k K, &'d mut Q::Party)) -> Option<Ref<'m, 'd, K, V, Q, A>> {
        let (key, td) = rhs;
        self.get(key, td)
    }
}

/// `&map | (&key, td)` is `map.get_mut(&key, td)`.
impl<'m, 'k, 'd, K: Eq + Hash, V, S: BuildHasher, Q: Evidence<Shard<K, V, A>>, A: Allocator> BitOr<
    (&'k K, &'d mut Q::Party),
> for &'m DashMap<K, V, S, Q, A>
where
    Q::Runtime: Wait,
{
    type Output = Option<RefMut<'m, 'd, K, V, Q, A>>;

    ghost bitor_gives = { λ map asked result. IfSome result (λ r.
        IfSome (key_in (write_guard_value r.0.inner) r.1) (λ k. IsTrue (K.eq k asked.0.now))
        × (lock_of S.BuildHasher S.Hasher.Hasher K.hash_input map.now asked.0.now ≡ Some r.0.held.0.place.now))
        × ((left : Q.Party)
        × OnSightOfKey S.BuildHasher S.Hasher.Hasher K.hash_input Q.found map.now asked.0.now asked.1.now left
        (λ hash shard. Finds K.eq (λ r. (write_guard_value r.0.inner, r.1)) shard hash asked.0.now result)) };

    fn bitor(self, rhs: (&'k K, &'d mut Q::Party)) -> Option<RefMut<'m, 'd, K, V, Q, A>> {
        let (key, td) = rhs;
        self.get_mut(key, td)
    }
}
