//! Guards of one pair, narrowed to a part of its value.
ghost use Rattle.std.specs.Prelude.{◌≡◌, Some, IsSome};
ghost use Rattle.std.specs.Borrow.{Lends, sem};
ghost use Rattle.lock_api_raw.specs.Parts.{then_focus};
ghost use Rattle.lock_api_guards.specs.Narrowing.{Narrows};
ghost use Rattle.dashmap_guard.specs.Guarded.{key_in, part_in, with_part_in};
ghost use Rattle.dashmap_guard.specs.contracts.mapref.mapped.MappedGuard.{the_row};
ghost use Rattle.dashmap_guard.specs.contracts.mapref.one.Writes as writes;

use crate::mapref::one::{PairGuard, Reads, Writes};
use core::convert::AsRef;
use dashmap_table::Shard;
use lock_api_guards::{Hold, Lender, LenderMut};
use lock_api_raw::{Projection, Then, TotalProjection};
use std::alloc::Allocator;
use std::fmt;
use std::fmt::{Debug, Display};
use std::hash::Hash;
use std::marker::Model;
use std::ops::{Deref, DerefMut};
use std::sync::Wait;

/// A guard of one pair that is narrowed to a part of its value, which is there as long as the guard lives.
///
/// It is named [`MappedRef`] and [`MappedRefMut`]. The part is found anew by the projection at each access. Its drop
/// ends the guard.
pub struct MappedGuard<
    K: Eq + Hash,
    V,
    A: Allocator,
    W: Lender<Part = Shard<K, V, A>> + Drop,
    H: Hold,
    D,
    M,
    P: Projection<V> + Drop,
>
where
    H::Runtime: Wait,
{
    of: PairGuard<K, V, A, W, H, D, M>,
    by: P,
}

/// A [`Ref`](crate::mapref::one::Ref) narrowed to a part of its value.
pub type MappedRef<K, V, A, W, H, D, P> = MappedGuard<K, V, A, W, H, D, Reads, P>;

/// A [`RefMut`](crate::mapref::one::RefMut) narrowed to a part of its value. What is written to the part is written
/// into the whole.
pub type MappedRefMut<K, V, A, W, H, D, P> = MappedGuard<K, V, A, W, H, D, Writes, P>;

impl<
    K: Eq + Hash,
    V,
    A: Allocator,
    W: Lender<Part = Shard<K, V, A>> + Drop,
    H: Hold,
    D,
    M,
    P: Projection<V> + Drop,
> Model for MappedGuard<K, V, A, W, H, D, M, P>
where
    H::Runtime: Wait,
{
    ghost use Rattle.std.specs.Prelude.{ℕ, IsSome};
    ghost use Rattle.lock_api_guards.specs.declared.guard.Guard.{Guard};
    ghost use Rattle.dashmap_guard.specs.Guarded.{part_in};

    ghost Value = { (Guard W H H.Lock H.Runtime H.Party H.Apart × ℕ) × P };

    ghost view = { λ m. (m.of, m.by) };

    ghost invariant = { λ m. IsSome (part_in (P.focus m.by) (W.part m.of.0.inner) m.of.1) };
}

impl<
    K: Eq + Hash,
    V,
    A: Allocator,
    W: Lender<Part = Shard<K, V, A>> + Drop,
    H: Hold,
    D,
    M,
    P: Projection<V> + Drop,
> Drop for MappedGuard<K, V, A, W, H, D, M, P>
where
    H::Runtime: Wait,
{
    fn drop(self) {
        let MappedGuard { of, by: _ } = self;
        drop(of);
    }
}

impl<
    K: Eq + Hash,
    V,
    A: Allocator,
    W: Lender<Part = Shard<K, V, A>> + Drop,
    H: Hold,
    D,
    M,
> PairGuard<K, V, A, W, H, D, M>
where
    H::Runtime: Wait,
{
    /// Narrows the guard to the part that the projection gives, without letting go: the shard stays held as before.
    ///
    /// ```text
    /// let first = guard.map(First);   // of a value (1, "one"): 1
    /// ```
    pub fn map<P: TotalProjection<V> + Drop>(
        self,
        projection: P,
    ) -> MappedGuard<K, V, A, W, H, D, M, P>
        ensures { result ≡ (self, projection) }
    {
        MappedGuard {
            of: self,
            by: projection,
        }
    }

    /// As `map` where the part is there, and else the same guard back, still locked.
    ///
    /// ```text
    /// match guard.try_map(Inside) {
    ///     Ok(inside) => { .. }    // of a value Some(7): 7
    ///     Err(guard) => { .. }    // of None
    /// }
    /// ```
    ///
    /// ```text
    /// match mapped.try_map(Inside) {
    ///     Ok(inside) => { .. }             // the option's inside
    ///     Err(mapped) => { .. }            // it was None, and the shard is held on
    /// }
    /// ```
    pub fn try_map<P: Projection<V> + Drop>(
        self,
        projection: P,
    ) -> Result<MappedGuard<K, V, A, W, H, D, M, P>, PairGuard<K, V, A, W, H, D, M>>
        ensures { Narrows (part_in (P.focus projection) (W.part self.0.inner) self.1) (self, projection) self result }
    {
        match projection.get(self.value()) {
            Some(_) => Ok(MappedGuard {
                of: self,
                by: projection,
            }),
            None => Err(self),
        }
    }
}

impl<
    K: Eq + Hash,
    V,
    A: Allocator,
    W: Lender<Part = Shard<K, V, A>> + Drop,
    H: Hold,
    D,
    M,
    P: Projection<V> + Drop,
> MappedGuard<K, V, A, W, H, D, M, P>
where
    H::Runtime: Wait,
{
    /// The stored key.
    ///
    /// ```text
    /// let name = guard.map(First);        // of a map from numbers to (name, age)
    /// let seven = *name.key();
    /// ```
    pub fn key(&self) -> &K
        ensures { key_in (W.part self.now.0.0.inner) self.now.0.1 ≡ Some result.now }
    {
        self.of.key()
    }

    /// The part that the projection gives.
    ///
    /// ```text
    /// let length = guard.map(First).value().len();
    /// ```
    pub fn value(&self) -> &P::Out
        ensures { part_in (P.focus self.now.1) (W.part self.now.0.0.inner) self.now.0.1 ≡ Some result.now }
    {
        let MappedGuard { of, by } = self;
        match by.get(of.value()) {
            Some(part) => part,
            None => unreachable!(),
        }
    }

    /// The stored key and the part.
    ///
    /// ```text
    /// let (number, name) = mapped.pair();
    /// ```
    pub fn pair(&self) -> (&K, &P::Out)
        ensures key { key_in (W.part self.now.0.0.inner) self.now.0.1 ≡ Some result.0.now }
        ensures part { part_in (P.focus self.now.1) (W.part self.now.0.0.inner) self.now.0.1 ≡ Some result.1.now }
    {
        (self.key(), self.value())
    }

    /// Narrows further. Mapping twice is mapping by the composition (`Then`).
    ///
    /// ```text
    /// let inside = guard.map(First).try_map(Inside);
    /// ```
    pub fn map<Q: TotalProjection<P::Out> + Drop>(
        self,
        projection: Q,
    ) -> MappedGuard<K, V, A, W, H, D, M, Then<P, Q>>
        ensures { result ≡ (self.0, record { first = self.1; second = projection }) }
    {
        let MappedGuard { of, by: first } = self;
        MappedGuard {
            of,
            by: Then::new(first, projection),
        }
    }

    /// As `map` where the part is there, and else the same guard back, still locked.
    ///
    /// ```text
    /// if let Some(pair) = map.get_mut(&7, &mut me) {
    ///     if let Ok(mut inside) = pair.map(First).try_map(Inside) { *inside = 3; }
    /// }
    /// ```
    pub fn try_map<Q: Projection<P::Out> + Drop>(
        self,
        projection: Q,
    ) -> Result<MappedGuard<K, V, A, W, H, D, M, Then<P, Q>>, MappedGuard<K, V, A, W, H, D, M, P>>
        ensures { Narrows
            (part_in (then_focus (P.focus self.1) (P.with_focus self.1) (Q.focus projection) (Q.with_focus projection))
            (W.part self.0.0.inner) self.0.1) (self.0, record { first = self.1; second = projection }) self result }
    {
        if projection.get(self.value()).is_some() {
            let MappedGuard { of, by } = self;
            Ok(MappedGuard {
                of,
                by: Then::new(by, projection),
            })
        } else {
            Err(self)
        }
    }
}

impl<
    K: Eq + Hash,
    V,
    A: Allocator,
    W: LenderMut<Part = Shard<K, V, A>> + Drop,
    H: Hold,
    D,
    P: Projection<V> + Drop,
> MappedRefMut<K, V, A, W, H, D, P>
where
    H::Runtime: Wait,
{
    /// The part for writing, beside the stored key. What is written is written into the whole value.
    ///
    /// ```text
    /// let (number, age) = mapped.pair_mut();
    /// *age = age.wrapping_add(*number);
    /// ```
    pub fn pair_mut(&mut self) -> (&K, &mut P::Out)
        ensures* writes_back { sem 𝓛 (Lends (the_row K.row V.row A.row W.row H.row D.row writes.the_row P.row H.Lock.row H.Runtime.row
            H.Party.row H.Apart.row P.Out.row K.PartialEq (record { hash_input = K.hash_input }) A.Allocator W.Lender
            H.Hold P.Projection) P.Out.row self.entry result.1
            (λ part. (
              (
                record self.old.0.0 {
                  inner = W.with_part self.old.0.0.inner
                      (with_part_in (P.with_focus self.old.1) (W.part self.old.0.0.inner) self.old.0.1 part);
                },
                self.old.0.1,
              ),
              self.old.1,
            ))) }
        ensures key { key_in (W.part self.old.0.0.inner) self.old.0.1 ≡ Some result.0.now }
        ensures part { part_in (P.focus self.old.1) (W.part self.old.0.0.inner) self.old.0.1 ≡ Some result.1.now }
    {
        let (key, value) = self.of.pair_mut();
        (key, P::part_mut(value, &self.by))
    }

    /// The part for writing. `*guard = part` writes it too, and the rest of the value stays.
    ///
    /// ```text
    /// let old = mem::replace(mapped.value_mut(), 9);
    /// ```
    pub fn value_mut(&mut self) -> &mut P::Out
        ensures* writes_back { sem 𝓛 (Lends (the_row K.row V.row A.row W.row H.row D.row writes.the_row P.row H.Lock.row H.Runtime.row
            H.Party.row H.Apart.row P.Out.row K.PartialEq (record { hash_input = K.hash_input }) A.Allocator W.Lender
            H.Hold P.Projection) P.Out.row self.entry result
            (λ part. (
              (
                record self.old.0.0 {
                  inner = W.with_part self.old.0.0.inner
                      (with_part_in (P.with_focus self.old.1) (W.part self.old.0.0.inner) self.old.0.1 part);
                },
                self.old.0.1,
              ),
              self.old.1,
            ))) }
        ensures part { part_in (P.focus self.old.1) (W.part self.old.0.0.inner) self.old.0.1 ≡ Some result.now }
    {
        self.pair_mut().1
    }
}

impl<
    K: Eq + Hash,
    V,
    A: Allocator,
    W: Lender<Part = Shard<K, V, A>> + Drop,
    H: Hold,
    D,
    M,
    P: Projection<V> + Drop,
> Deref for MappedGuard<K, V, A, W, H, D, M, P>
where
    H::Runtime: Wait,
{
    type Target = P::Out;

    ghost deref_gives = { λ m part. part_in (P.focus m.1) (W.part m.0.0.inner) m.0.1 ≡ Some part };

    fn deref(&self) -> &P::Out {
        self.value()
    }
}

impl<
    K: Eq + Hash,
    V,
    A: Allocator,
    W: LenderMut<Part = Shard<K, V, A>> + Drop,
    H: Hold,
    D,
    P: Projection<V> + Drop,
> DerefMut for MappedRefMut<K, V, A, W, H, D, P>
where
    H::Runtime: Wait,
{
    ghost deref_mut_gives = { λ m part. part_in (P.focus m.1) (W.part m.0.0.inner) m.0.1 ≡ Some part };

    fn deref_mut(&mut self) -> &mut P::Out
        ensures* writes_back { sem 𝓛 (Lends (the_row K.row V.row A.row W.row H.row D.row writes.the_row P.row H.Lock.row H.Runtime.row
            H.Party.row H.Apart.row P.Out.row K.PartialEq (record { hash_input = K.hash_input }) A.Allocator W.Lender
            H.Hold P.Projection) P.Out.row self.entry result
            (λ part. (
              (
                record self.old.0.0 {
                  inner = W.with_part self.old.0.0.inner
                      (with_part_in (P.with_focus self.old.1) (W.part self.old.0.0.inner) self.old.0.1 part);
                },
                self.old.0.1,
              ),
              self.old.1,
            ))) }
        ensures part { part_in (P.focus self.old.1) (W.part self.old.0.0.inner) self.old.0.1 ≡ Some result.now }
    {
        self.value_mut()
    }
}

impl<
    T,
    K: Eq + Hash,
    V,
    A: Allocator,
    W: Lender<Part = Shard<K, V, A>> + Drop,
    H: Hold,
    D,
    P: Projection<V> + Drop,
> AsRef<T> for MappedRef<K, V, A, W, H, D, P>
where
    P::Out: AsRef<T>,
    H::Runtime: Wait,
{
    fn as_ref(&self) -> &T {
        self.value().as_ref()
    }
}

impl<
    K: Eq + Hash,
    V,
    A: Allocator,
    W: Lender<Part = Shard<K, V, A>> + Drop,
    H: Hold,
    D,
    M,
    P: Projection<V> + Drop,
> Display for MappedGuard<K, V, A, W, H, D, M, P>
where
    P::Out: Display,
    H::Runtime: Wait,
{
    fn fmt<F: fmt::Write>(&self, f: &mut fmt::Formatter<F>) -> fmt::Result {
        Display::fmt(self.value(), f)
    }
}

impl<
    K: Eq + Hash,
    V,
    A: Allocator,
    W: Lender<Part = Shard<K, V, A>> + Drop,
    H: Hold,
    D,
    P: Projection<V> + Drop,
> Debug for MappedRef<K, V, A, W, H, D, P>
where
    K: Debug,
    P::Out: Debug,
    H::Runtime: Wait,
{
    fn fmt<F: fmt::Write>(&self, f: &mut fmt::Formatter<F>) -> fmt::Result {
        f.debug_struct("MappedRef")
            .field("k", self.key())
            .field("v", self.value())
            .finish()
    }
}

impl<
    K: Eq + Hash,
    V,
    A: Allocator,
    W: Lender<Part = Shard<K, V, A>> + Drop,
    H: Hold,
    D,
    P: Projection<V> + Drop,
> Debug for MappedRefMut<K, V, A, W, H, D, P>
where
    K: Debug,
    P::Out: Debug,
    H::Runtime: Wait,
{
    fn fmt<F: fmt::Write>(&self, f: &mut fmt::Formatter<F>) -> fmt::Result {
        f.debug_struct("MappedRefMut")
            .field("k", self.key())
            .field("v", self.value())
            .finish()
    }
}
