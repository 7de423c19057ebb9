//! The place of one key in a shard that is held exclusively.
ghost use Rattle.std.specs.Prelude.{◌≡◌, Some, Ok, Err, MatchResult};
ghost use Rattle.std.specs.Fn.{FnOnceReturnsAtMut};
ghost use Rattle.dashmap_table.specs.Slots.{entry_with};
ghost use Rattle.dashmap_table.specs.Table.{Adds, with_value};
ghost use Rattle.dashmap_guard.specs.Guarded.{value_in};

pub mod lookup;
mod occupied;
mod vacant;

use crate::leaving::LeavingEvidence;
pub use crate::mapref::entry::occupied::OccupiedEntry;
pub use crate::mapref::entry::vacant::VacantEntry;
use crate::mapref::one::RefMut;
use crate::util::change;
use dashmap_table::Shard;
use lock_api_guards::{Hold, Lender, LenderMut};
use std::alloc::Allocator;
use std::hash::Hash;
use std::sync::Wait;

/// The place of one key: its pair, or room for one. Its shard is held exclusively until the entry, or the guard that it
/// becomes, is dropped.
///
/// No call of it waits for another thread, but that the end of the hold may wait for the lot's short sections. None
/// takes memory but `insert_entry`, for the key's clone.
///
/// ```rust
/// match map.entry(key, &mut me)? {
///     Entry::Occupied(entry) => entry.into_ref(),
///     Entry::Vacant(entry) => entry.insert(5),
/// };
/// ```
#[derive(Drop)]
pub enum Entry<K: Eq + Hash, V, A: Allocator, W: Lender<Part = Shard<K, V, A>> + Drop, H: Hold, D>
where
    H::Runtime: Wait,
{
    /// The key is present.
    Occupied(OccupiedEntry<K, V, A, W, H, D>),
    /// It isn't, and there is room for it.
    Vacant(VacantEntry<K, V, A, W, H, D>),
}

impl<K: Eq + Hash, V, A: Allocator, W: Lender<Part = Shard<K, V, A>> + Drop, H: Hold, D> Entry<
    K,
    V,
    A,
    W,
    H,
    D,
>
where
    H::Runtime: Wait,
{
    ghost use Rattle.dashmap_guard.specs.Entries.{by_entry, entry_key};

    /// The stored key, or the one that a vacant entry was handed.
    ///
    /// ```text
    /// let entry = map.entry(7, &mut me)?;
    /// let seven = *entry.key();
    /// ```
    pub fn key(&self) -> &K
        ensures { entry_key W.part self.now ≡ Some result.now }
    {
        match self {
            Entry::Occupied(entry) => entry.key(),
            Entry::Vacant(entry) => entry.key(),
        }
    }

    /// The key that was handed in. The hold ends, and its shard stays as it is.
    ///
    /// ```text
    /// let seven = map.entry(7, &mut me)?.into_key();
    /// ```
    pub fn into_key(self) -> K
    where
        H: LeavingEvidence<Shard<K, V, A>>,
        ensures { by_entry
            (λ o. (result ≡ o.1) × H.left o.0.0.held.0 (W.part o.0.0.inner))
            (λ v. (result ≡ v.2) × H.left v.0.held.0 (W.part v.0.inner)) self }
    {
        match self {
            Entry::Occupied(entry) => entry.into_key(),
            Entry::Vacant(entry) => entry.into_key(),
        }
    }
}

impl<
    K: Eq + Hash + Drop,
    V: Drop,
    A: Allocator,
    W: LenderMut<Part = Shard<K, V, A>> + Drop,
    H: Hold,
    D,
> Entry<K, V, A, W, H, D>
where
    H::Runtime: Wait,
{
    ghost use Rattle.dashmap_guard.specs.Entries.{by_entry};
    ghost use Rattle.dashmap_guard.specs.declared.mapref.entry.Entry.TheVariants.{Occupied, Vacant};

    /// The pair of an occupied entry, or the given value added.
    ///
    /// ```text
    /// let count = map.entry("seven", &mut me)?.or_insert(0);
    /// ```
    pub fn or_insert(self, value: V) -> RefMut<K, V, A, W, H, D>
        ensures { by_entry
            (λ o. result ≡ o.0)
            (λ v. Adds K.eq (W.part v.0.inner) (W.part result.0.inner) (entry_with v.1 v.2 value) result.1
            × (result.0.held ≡ v.0.held)) self }
    {
        match self {
            Entry::Occupied(entry) => entry.into_ref(),
            Entry::Vacant(entry) => entry.insert(value),
        }
    }

    /// Stores the value. An occupied entry keeps its stored key, and its old value is let go.
    ///
    /// ```text
    /// let guard = map.entry("seven", &mut me)?.insert(7);
    /// ```
    pub fn insert(self, value: V) -> RefMut<K, V, A, W, H, D>
        ensures { by_entry
            (λ o. result ≡ (
              record o.0.0
                  { inner = W.with_part o.0.0.inner (with_value (W.part o.0.0.inner) o.0.1 value) },
              o.0.1,
            ))
            (λ v. Adds K.eq (W.part v.0.inner) (W.part result.0.inner) (entry_with v.1 v.2 value) result.1
            × (result.0.held ≡ v.0.held)) self }
    {
        match self {
            Entry::Occupied(mut entry) => {
                let _old = entry.insert(value);
                entry.into_ref()
            }
            Entry::Vacant(entry) => entry.insert(value),
        }
    }

    /// Lets the closure change the value of an occupied entry. It isn't called for a vacant one.
    ///
    /// It runs under the hold: one that asks the same map with other data of the thread can wait for itself.
    ///
    /// ```text
    /// map.entry("seven", &mut me)?.and_modify(|n| *n = n.wrapping_add(1)).or_insert(1);
    /// ```
    pub fn and_modify<F: FnOnce(&mut V) + Drop>(self, f: F) -> Entry<K, V, A, W, H, D>
        requires { F.IsAlwaysCallable f }
        ensures { by_entry
            (λ o. (old : V) × (new : V) × (value_in (W.part o.0.0.inner) o.0.1 ≡ Some old)
            × FnOnceReturnsAtMut F.FnOnce f old tt new
            × (result ≡ Occupied (
              (record o.0.0 { inner = W.with_part o.0.0.inner (with_value (W.part o.0.0.inner) o.0.1 new) }, o.0.1),
              o.1,
            )))
            (λ v. result ≡ Vacant v) self }
    {
        match self {
            Entry::Occupied(mut entry) => {
                change(entry.get_mut(), f);
                Entry::Occupied(entry)
            }
            Entry::Vacant(entry) => Entry::Vacant(entry),
        }
    }

    /// As `or_insert`, with the closure's answer. It isn't called for an occupied entry, and runs under the hold.
    ///
    /// ```text
    /// let table = map.entry(size, &mut me)?.or_insert_with(|| computed(size));
    /// ```
    pub fn or_insert_with<F: FnOnce() -> V + Drop>(self, f: F) -> RefMut<K, V, A, W, H, D>
        requires { F.IsAlwaysCallable f }
        ensures { by_entry
            (λ o. result ≡ o.0)
            (λ v. (value : V) × F.post f value × Adds K.eq (W.part v.0.inner) (W.part result.0.inner)
            (entry_with v.1 v.2 value) result.1 × (result.0.held ≡ v.0.held)) self }
    {
        match self {
            Entry::Occupied(entry) => entry.into_ref(),
            Entry::Vacant(entry) => entry.insert(f()),
        }
    }

    /// As `or_insert_with`, but where the closure answers an error that error comes back, nothing is added, and the hold
    /// ends.
    ///
    /// ```text
    /// let page = map.entry(7, &mut me)?.or_try_insert_with(|| read(7))?;
    /// ```
    pub fn or_try_insert_with<F: FnOnce() -> Result<V, E> + Drop, E>(
        self,
        f: F,
    ) -> Result<RefMut<K, V, A, W, H, D>, E>
    where
        H: LeavingEvidence<Shard<K, V, A>>,
        requires { F.IsAlwaysCallable f }
        ensures { by_entry
            (λ o. result ≡ Ok o.0)
            (λ v. MatchResult result
            (λ r. (value : V) × F.post f (Ok value) × Adds K.eq (W.part v.0.inner) (W.part r.0.inner)
            (entry_with v.1 v.2 value) r.1 × (r.0.held ≡ v.0.held))
            (λ e. F.post f (Err e) × H.left v.0.held.0 (W.part v.0.inner))) self }
    {
        match self {
            Entry::Occupied(entry) => Ok(entry.into_ref()),
            Entry::Vacant(entry) => match f() {
                Ok(value) => Ok(entry.insert(value)),
                Err(error) => {
                    let _key = entry.into_key();
                    Err(error)
                }
            },
        }
    }

    /// The pair of an occupied entry, or the default value added.
    ///
    /// ```text
    /// let mut count = map.entry("seven", &mut me)?.or_default();
    /// ```
    pub fn or_default(self) -> RefMut<K, V, A, W, H, D>
    where
        V: Default,
        ensures { by_entry
            (λ o. result ≡ o.0)
            (λ v. (value : V) × V.is_default value × Adds K.eq (W.part v.0.inner) (W.part result.0.inner)
            (entry_with v.1 v.2 value) result.1 × (result.0.held ≡ v.0.held)) self }
    {
        match self {
            Entry::Occupied(entry) => entry.into_ref(),
            Entry::Vacant(entry) => entry.insert(V::default()),
        }
    }

    /// Stores the value and stays at the pair. A vacant entry adds it with a clone of the key, as
    /// [`VacantEntry::insert_entry`] does.
    ///
    /// Memory: what the clone takes. Where that is refused, entry and value come back as the error.
    ///
    /// ```text
    /// let there = map.entry("seven", &mut me)?.insert_entry(7).map_err(|_| "no memory")?;
    /// ```
    pub fn insert_entry(
        self,
        value: V,
    ) -> Result<OccupiedEntry<K, V, A, W, H, D>, (Entry<K, V, A, W, H, D>, V)>
    where
        K: Clone,
        requires { (k copy : K) → K.is_clone k copy → copy ≡ k }
        ensures { by_entry
            (λ o. result ≡ Ok (
              (
                record o.0.0 { inner = W.with_part o.0.0.inner (with_value (W.part o.0.0.inner) o.0.1 value) },
                o.0.1,
              ),
              o.1,
            ))
            (λ v. MatchResult result
            (λ o. Adds K.eq (W.part v.0.inner) (W.part o.0.0.inner) (entry_with v.1 v.2 value) o.0.1
            × (o.0.0.held ≡ v.0.held) × (o.1 ≡ v.2))
            (λ back. back ≡ (self, value))) self }
    {
        match self {
            Entry::Occupied(mut entry) => {
                let _old = entry.insert(value);
                Ok(entry)
            }
            Entry::Vacant(entry) => match entry.insert_entry(value) {
                Ok(entry) => Ok(entry),
                Err((entry, value)) => Err((Entry::Vacant(entry), value)),
            },
        }
    }
}
