//! A walk that lends the pairs one by one, to be read.
ghost use Rattle.std.specs.Prelude.{◌≡◌, ℕ, ◌+◌, ◌<◌, ◌≤◌, None, Some, true, false, length, MatchOption, IfOk, IfSome};
ghost use Rattle.std.specs.Prelude.{OnOk, OnErr, slice_get};
ghost use Rattle.std.specs.Iterator.{at_most, UpTo};
ghost use Rattle.std.specs.Iterator.SizeHint.{IsWithinCount};
ghost use Rattle.std.specs.Sync.RwLock.{read_guard_value};
ghost use Rattle.std.specs.Option.{option_map};
ghost use Rattle.crossbeam_utils.specs.Padded.{padded_value};
ghost use Rattle.dashmap_table.specs.Slots.{IsNextFull};
ghost use Rattle.dashmap_table.specs.Table.{IsSound};
ghost use Rattle.dashmap_iter.specs.Lending.{by_some_wait, slots_held, IsThrough, Enters, Passes, Gives, left};

use crate::multiple::RefMulti;
use crate::shared::SharedGuard;
use crossbeam_utils::CachePadded;
use dashmap_table::Shard;
use lock_api_raw::{NoMemory, RawRwLock};
use lock_api_rw::{Evidence, RawHold, RwLock, Shared, read_shown};
use std::alloc::{Allocator, Global};
use std::hash::Hash;
use std::marker::Model;
use std::sync;
use std::sync::Wait;

/// A shared guard of a shard, of which the items of a walk are owners.
type ShardGuard<'m, K, V, Q, A> = SharedGuard<
    sync::RwLockReadGuard<'m, Shard<K, V, A>>,
    RawHold<&'m RwLock<Q, Shard<K, V, A>>, Shared>,
    A,
>;

/// A walk that reads: each pair of the first shard, of the second, and so on. Nothing is held before the first item.
///
/// An item shares the hold of its shard with the walk, which takes memory; where there is none the item is an error,
/// and the walk ends. The next shard is held before the last one is given back, and the last is kept until the walk is
/// dropped.
pub struct Iter<'m, 'd, K: Eq + Hash, V, Q: RawRwLock, A: Allocator = Global>
where
    Q::Runtime: Wait,
{
    locks: &'m [CachePadded<RwLock<Q, Shard<K, V, A>>>],
    alloc: &'m A,
    party: &'d mut Q::Party,
    next: usize,
    held: Option<ShardGuard<'m, K, V, Q, A>>,
    from: usize,
    failed: bool,
}

impl<'m, 'd, K: Eq + Hash, V, Q: RawRwLock, A: Allocator> Model for Iter<'m, 'd, K, V, Q, A>
where
    Q::Runtime: Wait,
{
    ghost use Rattle.std.specs.Borrow.{Bor};
    ghost use Rattle.core.specs.declared.rw.RwLockReadGuard.{RwLockReadGuard};
    ghost use Rattle.lock_api_guards.specs.declared.guard.Guard.{Guard};
    ghost use Rattle.lock_api_rw.specs.Holds.{Issued};
    ghost use Rattle.dashmap_table.specs.Table.{Table};
    ghost use Rattle.dashmap_iter.specs.Lending.{Walk};

    ghost Value = { Walk Q
        (Guard (RwLockReadGuard (Table K V)) (Issued (Bor Q) Q.SharedGuard) Q Q.Runtime Q.Party (Bor Q)) };

    ghost view = { λ s. record {
      locks = s.locks.now;
      next = s.next;
      held = s.held;
      from = s.from;
      failed = s.failed;
    } };
}

impl<'m, 'd, K: Eq + Hash, V, Q: RawRwLock, A: Allocator> Drop for Iter<'m, 'd, K, V, Q, A>
where
    Q::Runtime: Wait,
{
    fn drop(self) {
        let Iter {
            locks: _,
            alloc: _,
            party: _,
            next: _,
            held,
            from: _,
            failed: _,
        } = self;
        if let Some(guard) = held {
            drop(guard);
        }
    }
}

impl<'m, 'd, K: Eq + Hash, V, Q: RawRwLock, A: Allocator> Iter<'m, 'd, K, V, Q, A>
where
    Q::Runtime: Wait,
{
    /// A walk from the first of these locks on, which asks for memory there.
    pub(crate) fn over(
        locks: &'m [CachePadded<RwLock<Q, Shard<K, V, A>>>],
        alloc: &'m A,
        party: &'d mut Q::Party,
    ) -> Iter<'m, 'd, K, V, Q, A>
        ensures { result ≡ record { locks = locks.now; next = 0; held = None; from = 0; failed = false } }
    {
        Iter {
            locks,
            alloc,
            party,
            next: 0,
            held: None,
            from: 0,
            failed: false,
        }
    }

    /// The next full slot of the shard that is held.
    #[inline(always)]
    fn next_slot(&self) -> Option<usize>
        ensures { MatchOption result (IsThrough (λ g. read_guard_value g.inner) self.now)
            (IsNextFull (slots_held (λ g. read_guard_value g.inner) self.now.held) self.now.from) }
    {
        match &self.held {
            Some(guard) => guard.inner().next_from(self.from),
            None => None,
        }
    }

    /// Lends the pair of a full slot.
    #[inline(always)]
    fn share(&mut self, slot: usize) -> Result<RefMulti<'m, 'd, K, V, Q, A>, NoMemory>
        requires { IsNextFull (slots_held (λ g. read_guard_value g.inner) self.old.held) self.old.from slot }
        ensures lent { IfOk result
            (λ item. (self.old.held ≡ Some item.0) × (item.1 ≡ slot)
            × (self.new ≡ record self.old { from = slot + 1 })) }
        ensures refused { OnErr result (self.new ≡ record self.old { failed = true }) }
    {
        let shared = match &self.held {
            Some(guard) => guard.share(),
            None => unreachable!(),
        };
        match shared {
            Ok(guard) => {
                self.from = slot + 1;
                Ok(RefMulti::of_slot(guard, slot))
            }
            Err(_) => {
                self.failed = true;
                Err(NoMemory)
            }
        }
    }
}

impl<'m, 'd, K: Eq + Hash, V, Q: Evidence<Shard<K, V, A>>, A: Allocator + Clone> Iter<
    'm,
    'd,
    K,
    V,
    Q,
    A,
>
where
    Q::Runtime: Wait,
{
    /// Waits for a hold of the next shard.
    fn hold_next(&mut self) -> Result<ShardGuard<'m, K, V, Q, A>, NoMemory>
        requires { self.old.next < length self.old.locks }
        ensures taken { IfOk result
            (λ g. option_map padded_value (slice_get self.old.locks self.old.next) ≡ Some g.held.0.place.now) }
        ensures shown { IfOk result (λ g. by_some_wait Q.showed g.held.0.place.now (read_guard_value g.inner)) }
        ensures sound { IfOk result (λ g. IsSound K.eq (read_guard_value g.inner)) }
        ensures stays { self.new ≡ self.old }
    {
        let alloc = self.alloc.clone()?;
        let locks = self.locks;
        let guard = read_shown(&locks[self.next], &mut *self.party);
        let _pairs = guard.inner.len();
        SharedGuard::new(alloc, guard)
    }

    /// Keeps the guard of the next shard, and gives the last one back.
    fn keep(&mut self, shared: ShardGuard<'m, K, V, Q, A>)
        requires { self.old.next < length self.old.locks }
        ensures { self.new ≡ record {
          locks = self.old.locks;
          next = self.old.next + 1;
          held = Some shared.entry;
          from = 0;
          failed = self.old.failed;
        } }
    {
        let last = self.held.replace(shared);
        self.next += 1;
        self.from = 0;
        if let Some(last) = last {
            drop(last);
        }
    }

    /// Holds the next shard, and then gives the last one back.
    fn enter(&mut self) -> Result<(), NoMemory>
        requires { self.old.next < length self.old.locks }
        ensures entered { OnOk result
            (Enters K.eq (λ g. read_guard_value g.inner) (λ g. g.held.0.place.now) (by_some_wait Q.showed) self.old self.new) }
        ensures refused { OnErr result (self.new ≡ self.old) }
    {
        let shared = self.hold_next()?;
        self.keep(shared);
        Ok(())
    }

    /// Goes on to the next pair, over shards in which none is left, and answers its slot.
    #[inline(always)]
    fn go_on(&mut self) -> Result<Option<usize>, NoMemory>
        ensures there { IfOk result
            (λ found. (passed : ℕ) × Passes K.eq (λ g. read_guard_value g.inner) (λ g. g.held.0.place.now) (by_some_wait Q.showed) passed
            self.old self.new
            × MatchOption found
            (IsThrough (λ g. read_guard_value g.inner) self.new × (length self.new.locks ≤ self.new.next))
            (IsNextFull (slots_held (λ g. read_guard_value g.inner) self.new.held) self.new.from)) }
        ensures refused { OnErr result
            ((passed : ℕ) × Passes K.eq (λ g. read_guard_value g.inner) (λ g. g.held.0.place.now) (by_some_wait Q.showed) passed self.old
            self.new) }
    {
        while self.next < self.locks.len() {
            if let Some(slot) = self.next_slot() {
                return Ok(Some(slot));
            }
            self.enter()?;
        }
        Ok(self.next_slot())
    }
}

impl<'m, 'd, K: Eq + Hash, V, Q: Evidence<Shard<K, V, A>>, A: Allocator + Clone> Iterator
    for Iter<'m, 'd, K, V, Q, A>
where
    Q::Runtime: Wait,
{
    type Item = Result<RefMulti<'m, 'd, K, V, Q, A>, NoMemory>;

    ghost next_gives = { Gives K.eq (λ g. read_guard_value g.inner) (λ g. g.held.0.place.now) (by_some_wait Q.showed) };

    ghost remaining = { λ w. at_most (left (λ g. read_guard_value g.inner) w) };

    #[inline(always)]
    fn next(&mut self) -> Option<Result<RefMulti<'m, 'd, K, V, Q, A>, NoMemory>> {
        if self.failed {
            return None;
        }
        match self.go_on() {
            Ok(Some(slot)) => Some(self.share(slot)),
            Ok(None) => None,
            Err(_) => {
                self.failed = true;
                Some(Err(NoMemory))
            }
        }
    }
}
