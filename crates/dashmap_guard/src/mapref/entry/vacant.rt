//! An absent key, with its room.
ghost use Rattle.std.specs.Prelude.{◌≡◌, MatchResult};
ghost use Rattle.dashmap_table.specs.Slots.{entry_with};
ghost use Rattle.dashmap_table.specs.Table.{Adds};

use crate::leaving::{LeavingEvidence, leave};
use crate::mapref::entry::occupied::OccupiedEntry;
use crate::mapref::one::RefMut;
use dashmap_table::Shard;
use lock_api_guards::{Guard, Hold, Lender, LenderMut};
use std::alloc::Allocator;
use std::hash::Hash;
use std::marker::{Model, PhantomData};
use std::sync::Wait;

/// An absent key, whose shard is held exclusively and has room for it. Its drop releases the shard; the room stays.
///
/// What ends the hold, its drop or a call by value that answers no guard, waits for the lot's short sections at most.
/// While it lives, a call with other data of the same thread waits for ever where it wants the same shard.
pub struct VacantEntry<
    K: Eq + Hash,
    V,
    A: Allocator,
    W: Lender<Part = Shard<K, V, A>> + Drop,
    H: Hold,
    D,
>
where
    H::Runtime: Wait,
{
    pub(crate) guard: Guard<W, H>,
    pub(crate) hash: u64,
    pub(crate) key: K,
    pub(crate) party: PhantomData<D>,
}

impl<K: Eq + Hash, V, A: Allocator, W: Lender<Part = Shard<K, V, A>> + Drop, H: Hold, D> Model
    for VacantEntry<K, V, A, W, H, D>
where
    H::Runtime: Wait,
{
    ghost use Rattle.std.specs.Prelude.{◌≡◌, ◌<◌, ℕ, None};
    ghost use Rattle.lock_api_guards.specs.declared.guard.Guard.{Guard};
    ghost use Rattle.dashmap_table.specs.Slots.{count, slot_of};

    ghost Value = { Guard W H H.Lock H.Runtime H.Party H.Apart × ℕ × K };

    ghost view = { λ s. (s.guard, s.hash, s.key) };

    ghost invariant = { λ s. (slot_of K.eq (W.part s.guard.inner).slots s.hash s.key ≡ None)
        × (count (W.part s.guard.inner).slots < (W.part s.guard.inner).room) };
}

impl<K: Eq + Hash, V, A: Allocator, W: Lender<Part = Shard<K, V, A>> + Drop, H: Hold, D> Drop
    for VacantEntry<K, V, A, W, H, D>
where
    K: Drop,
    H::Runtime: Wait,
{
    fn drop(self) {
        let VacantEntry {
            guard,
            hash: _,
            key,
            party: _,
        } = self;
        drop(guard);
        drop(key);
    }
}

impl<
    K: Eq + Hash,
    V,
    A: Allocator,
    W: Lender<Part = Shard<K, V, A>> + Drop,
    H: Hold,
    D,
> VacantEntry<K, V, A, W, H, D>
where
    H::Runtime: Wait,
{
    /// The key that was handed in.
    ///
    /// ```text
    /// if let Entry::Vacant(place) = map.entry(7, &mut me)? { let missing = *place.key(); }
    /// ```
    pub fn key(&self) -> &K
        ensures { result.now ≡ self.now.2 }
    {
        &self.key
    }

    /// Gives the key back and releases the shard, which stays as it is.
    ///
    /// ```text
    /// Entry::Vacant(place) => names.push(place.into_key()),   // nothing is put in
    /// ```
    pub fn into_key(self) -> K
    where
        H: LeavingEvidence<Shard<K, V, A>>,
        ensures key { result ≡ self.2 }
        ensures left { H.left self.0.held.0 (W.part self.0.inner) }
    {
        let VacantEntry {
            guard,
            hash: _,
            key,
            party: _,
        } = self;
        leave(guard);
        key
    }
}

impl<
    K: Eq + Hash,
    V,
    A: Allocator,
    W: LenderMut<Part = Shard<K, V, A>> + Drop,
    H: Hold,
    D,
> VacantEntry<K, V, A, W, H, D>
where
    H::Runtime: Wait,
{
    /// Adds the pair, and answers its guard under the same hold. It takes no memory and can't be refused.
    ///
    /// ```text
    /// Entry::Vacant(place) => *place.insert(5) == 5,
    /// ```
    pub fn insert(self, value: V) -> RefMut<K, V, A, W, H, D>
    where
        K: Drop,
        V: Drop,
        ensures added { Adds K.eq (W.part self.0.inner) (W.part result.0.inner) (entry_with self.1 self.2 value)
            result.1 }
        ensures held { result.0.held ≡ self.0.held }
    {
        let VacantEntry {
            mut guard,
            hash,
            key,
            party: _,
        } = self;
        let slot = guard.inner.lend().add(hash, key, value);
        RefMut::of_slot(guard, slot)
    }

    /// Adds the pair with a clone of the key, and stays at it. A key has to be equal to its clone.
    ///
    /// Memory: what the key's clone takes. Where that is refused, entry and value come back as the error, and nothing
    /// is added.
    ///
    /// ```text
    /// let mut there = place.insert_entry(5).map_err(|_| "no memory")?;
    /// let five = there.insert(6);
    /// ```
    pub fn insert_entry(
        self,
        value: V,
    ) -> Result<OccupiedEntry<K, V, A, W, H, D>, (VacantEntry<K, V, A, W, H, D>, V)>
    where
        K: Drop + Clone,
        V: Drop,
        requires { (k copy : K) → K.is_clone k copy → copy ≡ k }
        ensures { MatchResult result
            (λ o. Adds K.eq (W.part self.0.inner) (W.part o.0.0.inner) (entry_with self.1 self.2 value) o.0.1
            × (o.0.0.held ≡ self.0.held) × (o.1 ≡ self.2))
            (λ back. back ≡ (self, value)) }
    {
        let Ok(copy) = self.key.clone() else {
            return Err((self, value));
        };
        let VacantEntry {
            mut guard,
            hash,
            key,
            party: _,
        } = self;
        let slot = guard.inner.lend().add(hash, copy, value);
        Ok(OccupiedEntry {
            of: RefMut::of_slot(guard, slot),
            key,
        })
    }
}
