//! A walk that lends the pairs one by one, to be written.
ghost use Rattle.std.specs.Prelude.{◌≡◌, ℕ, ◌+◌, ◌^◌, ◌<◌, ◌≤◌, None, Some, false, length, MatchOption, IfSome, IfNone};
ghost use Rattle.std.specs.Prelude.{IsSome, IsSomeAnd, slice_get};
ghost use Rattle.std.specs.Borrow.{Lends, RestsIfNone, sem};
ghost use Rattle.std.specs.contracts.option.Option as option;
ghost use Rattle.std.specs.Option.{option_map};
ghost use Rattle.crossbeam_utils.specs.Padded.{padded_value};
ghost use Rattle.dashmap_table.specs.Slots.{at, pair_of, IsNextFull};
ghost use Rattle.dashmap_table.specs.Table.{IsSound, with_value};
ghost use Rattle.dashmap_iter.specs.Lending.{slots_held, IsThrough, Enters, Passes, EndsAt, left};
ghost use Rattle.dashmap_iter.specs.Writing.{pair_held, walk_written, LendsToWrite};

use crate::multiple_mut::MultiGuardMut;
use crate::shards::{GivesShards, MapShards};
use dashmap_table::Shard;
use lock_api_guards::{Guard, Hold, Lender, LenderMut};
use lock_api_rw::{Exclusive, RawHold, RwLock};
use std::alloc::{Allocator, Global};
use std::hash::Hash;
use std::marker::Model;
use std::sync;
use std::sync::Wait;

/// Lends the pair of a full slot of a shard that is held.
fn lend_held<'a, K: Eq + Hash + 'a, V: 'a, A: Allocator + 'a, W: LenderMut<Part = Shard<K, V, A>>>(
    held: &'a mut Option<W>,
    slot: usize,
) -> (&'a K, &'a mut V)
    requires { IsSomeAnd held.old (λ g. IsSome (at (W.part g).slots slot)) }
    ensures* writes_back { sem 𝓛 (Lends (option.the_row W.row) V.row held.entry result.1
        (λ value. option_map (λ g. W.with_part g (with_value (W.part g) slot value)) held.old)) }
    ensures pair { IfSome held.old
        (λ g. option_map pair_of (at (W.part g).slots slot) ≡ Some (result.0.now, result.1.now)) }
{
    match held {
        Some(guard) => guard.lend().lend(slot),
        None => unreachable!(),
    }
}

/// A walk that writes: each pair of the first shard, of the second, and so on. Nothing is held before the first item,
/// and no memory is taken.
///
/// An item is lent until the next call. The next shard is held before the last one is given back, and the last is kept
/// until the walk is dropped. It is named [`IterMut`].
pub struct WritingWalk<
    K: Eq + Hash,
    V,
    A: Allocator,
    W: Lender<Part = Shard<K, V, A>> + Drop,
    H: Hold,
    L: GivesShards<W, H>,
>
where
    H::Runtime: Wait,
{
    shards: L,
    next: usize,
    held: Option<Guard<W, H>>,
    from: usize,
}

/// A walk over a map that writes. `'m` is the borrow of the map, and `'d` of what the thread lent to the walk.
///
/// ```text
/// let mut walk = map.iter_mut(&mut me);
/// while let Some(mut pair) = walk.next_mut() {
///     *pair = pair.wrapping_add(1);
/// }
/// ```
pub type IterMut<'m, 'd, K, V, Q, A = Global> = WritingWalk<
    K,
    V,
    A,
    sync::RwLockWriteGuard<'m, Shard<K, V, A>>,
    RawHold<&'m RwLock<Q, Shard<K, V, A>>, Exclusive>,
    MapShards<'m, 'd, K, V, Q, A>,
>;

impl<
    K: Eq + Hash,
    V,
    A: Allocator,
    W: Lender<Part = Shard<K, V, A>> + Drop,
    H: Hold,
    L: GivesShards<W, H>,
> Model for WritingWalk<K, V, A, W, H, L>
where
    H::Runtime: Wait,
{
    ghost use Rattle.std.specs.Prelude.{false};
    ghost use Rattle.lock_api_guards.specs.declared.guard.Guard.{Guard};
    ghost use Rattle.dashmap_iter.specs.Lending.{Walk};

    ghost Value = { Walk H.Lock (Guard W H H.Lock H.Runtime H.Party H.Apart) };

    ghost view = { λ s. record {
      locks = L.locks s.shards;
      next = s.next;
      held = s.held;
      from = s.from;
      failed = false;
    } };
}

impl<
    K: Eq + Hash,
    V,
    A: Allocator,
    W: Lender<Part = Shard<K, V, A>> + Drop,
    H: Hold,
    L: GivesShards<W, H> + Drop,
> Drop for WritingWalk<K, V, A, W, H, L>
where
    H::Runtime: Wait,
{
    fn drop(self) {
        let WritingWalk {
            shards: _,
            next: _,
            held,
            from: _,
        } = self;
        if let Some(guard) = held {
            drop(guard);
        }
    }
}

impl<
    K: Eq + Hash,
    V,
    A: Allocator,
    W: Lender<Part = Shard<K, V, A>> + Drop,
    H: Hold,
    L: GivesShards<W, H>,
> WritingWalk<K, V, A, W, H, L>
where
    H::Runtime: Wait,
{
    /// A walk from the first of these shards on.
    pub(crate) fn over(shards: L) -> WritingWalk<K, V, A, W, H, L>
        ensures { result ≡ record { locks = L.locks shards; next = 0; held = None; from = 0; failed = false } }
    {
        WritingWalk {
            shards,
            next: 0,
            held: None,
            from: 0,
        }
    }

    /// The next full slot of the shard that is held.
    #[inline(always)]
    fn next_slot(&self) -> Option<usize>
        ensures { MatchOption result (IsThrough (λ g. W.part g.inner) self.now)
            (IsNextFull (slots_held (λ g. W.part g.inner) self.now.held) self.now.from) }
    {
        match &self.held {
            Some(guard) => guard.look().next_from(self.from),
            None => None,
        }
    }

    /// Waits for a hold of the next shard.
    fn hold_next(&mut self) -> Guard<W, H>
        requires { self.old.next < length self.old.locks }
        ensures taken { option_map padded_value (slice_get self.old.locks self.old.next) ≡ Some
            (H.lock_of result.held.0) }
        ensures seen { L.seen (H.lock_of result.held.0) (W.part result.inner) }
        ensures sound { IsSound K.eq (W.part result.inner) }
        ensures numbered { self.new.next + 1 < 2 ^ 64 }
        ensures stays { self.new ≡ self.old }
    {
        let guard = self.shards.hold(self.next);
        let _pairs = guard.look().len();
        guard
    }

    /// Keeps the guard of the next shard, and gives the last one back.
    fn keep(&mut self, guard: Guard<W, H>)
        requires { self.old.next + 1 < 2 ^ 64 }
        ensures { self.new ≡ record {
          locks = self.old.locks;
          next = self.old.next + 1;
          held = Some guard;
          from = 0;
          failed = self.old.failed;
        } }
    {
        let last = self.held.replace(guard);
        self.next += 1;
        self.from = 0;
        if let Some(last) = last {
            drop(last);
        }
    }

    /// Holds the next shard, and then gives the last one back.
    fn enter(&mut self)
        requires { self.old.next < length self.old.locks }
        ensures { Enters K.eq (λ g. W.part g.inner) (λ g. H.lock_of g.held.0) L.seen self.old self.new }
    {
        let guard = self.hold_next();
        self.keep(guard);
    }

    /// Goes on to the next pair, over shards in which none is left, and answers its slot.
    #[inline(always)]
    fn go_on(&mut self) -> Option<usize>
        ensures { (passed : ℕ) × Passes K.eq (λ g. W.part g.inner) (λ g. H.lock_of g.held.0) L.seen passed self.old self.new
            × MatchOption result (IsThrough (λ g. W.part g.inner) self.new × (length self.new.locks ≤ self.new.next))
            (IsNextFull (slots_held (λ g. W.part g.inner) self.new.held) self.new.from) }
    {
        while self.next < self.shards.amount() {
            if let Some(slot) = self.next_slot() {
                return Some(slot);
            }
            self.enter();
        }
        self.next_slot()
    }

    /// Goes on to the next pair, and stands behind it.
    #[inline(always)]
    fn step(&mut self) -> Option<usize>
        ensures lends { IfSome result
            (λ slot. LendsToWrite (λ g. W.part g.inner) K.eq (λ g. H.lock_of g.held.0) L.seen self.old slot self.new) }
        ensures nearer { IfSome result
            (λ slot. left (λ g. W.part g.inner) self.new < left (λ g. W.part g.inner) self.old) }
        ensures full { IfSome result (λ slot. IsSome (at (slots_held (λ g. W.part g.inner) self.new.held) slot)) }
        ensures ends { IfNone result
            (EndsAt K.eq (λ g. W.part g.inner) (λ g. H.lock_of g.held.0) L.seen false self.old self.new) }
    {
        match self.go_on() {
            Some(slot) => {
                self.from = slot + 1;
                Some(slot)
            }
            None => None,
        }
    }

    /// The pair of a full slot of the shard that is held.
    pub(crate) fn pair(&self, slot: usize) -> (&K, &V)
        requires { IsSome (at (slots_held (λ g. W.part g.inner) self.now.held) slot) }
        ensures { pair_held (λ g. W.part g.inner) self.now.held slot ≡ Some (result.0.now, result.1.now) }
    {
        match &self.held {
            Some(guard) => match guard.look().pair(slot) {
                Some(pair) => pair,
                None => unreachable!(),
            },
            None => unreachable!(),
        }
    }
}

impl<
    K: Eq + Hash,
    V,
    A: Allocator,
    W: LenderMut<Part = Shard<K, V, A>> + Drop,
    H: Hold,
    L: GivesShards<W, H>,
> WritingWalk<K, V, A, W, H, L>
where
    H::Runtime: Wait,
{
    ghost use Rattle.dashmap_iter.specs.contracts.iter_mut.WritingWalk.{the_row};

    /// Lends the pair of a full slot of the shard that is held.
    pub(crate) fn lend(&mut self, slot: usize) -> (&K, &mut V)
        requires { IsSome (at (slots_held (λ g. W.part g.inner) self.old.held) slot) }
        ensures* writes_back { sem 𝓛 (Lends (the_row K.row V.row A.row W.row H.row L.row H.Lock.row H.Runtime.row H.Party.row H.Apart.row
            K.PartialEq (record { hash_input = K.hash_input }) A.Allocator W.Lender H.Hold L.GivesShards) V.row
            self.entry result.1
            (walk_written (λ g. W.part g.inner) (λ g table. record g { inner = W.with_part g.inner table }) self.old
            slot)) }
        ensures pair { pair_held (λ g. W.part g.inner) self.old.held slot ≡ Some (result.0.now, result.1.now) }
    {
        lend_held(&mut self.held, slot)
    }

    /// The next pair for writing, lent until the next call; `None` behind the last pair. It takes no memory.
    ///
    /// Blocks at each shard while another holds it. The next shard is held before the last one is given back, so two
    /// threads that each walk and hold a guard besides can wait for one another.
    ///
    /// ```text
    /// for _ in rt.forever() {
    ///     let Some(mut pair) = walk.next_mut() else { break };
    ///     *pair = pair.wrapping_add(1);
    /// }
    /// ```
    #[inline(always)]
    pub fn next_mut(&mut self) -> Option<MultiGuardMut<'_, K, V, A, W, H, L>>
        ensures* rests { sem 𝓛
            (RestsIfNone (the_row K.row V.row A.row W.row H.row L.row H.Lock.row H.Runtime.row H.Party.row H.Apart.row
            K.PartialEq (record { hash_input = K.hash_input }) A.Allocator W.Lender H.Hold L.GivesShards) self.entry
            (λ item. item.walk.ghost_name) result
            (λ last. EndsAt K.eq (λ g. W.part g.inner) (λ g. H.lock_of g.held.0) L.seen false self.old last)) }
        ensures same_walk { IfSome result (λ item. item.walk.ghost_name ≡ self.entry.ghost_name) }
        ensures lends { IfSome result
            (λ item. LendsToWrite (λ g. W.part g.inner) K.eq (λ g. H.lock_of g.held.0) L.seen self.old item.slot
            item.walk.now) }
        ensures nearer { IfSome result
            (λ item. left (λ g. W.part g.inner) item.walk.now < left (λ g. W.part g.inner) self.old) }
    {
        match self.step() {
            Some(slot) => Some(MultiGuardMut { walk: self, slot }),
            None => None,
        }
    }
}
