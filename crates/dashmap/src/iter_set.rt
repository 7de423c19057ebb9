//! Walks over the keys of a set, and the keys of one that is given up.
ghost use Rattle.std.specs.Prelude.{◌≡◌, map};
ghost use Rattle.std.specs.Iterator.{YieldsFirst, at_most, item_count};
ghost use Rattle.std.specs.Sync.RwLock.{read_guard_value};
ghost use Rattle.dashmap_iter.specs.Lending.{by_some_wait, Gives, left};

use crate::setref::multiple::RefMulti;
use dashmap_iter::Iter as Walk;
use dashmap_table::Shard;
use dashmap_view::OwningIter as Pairs;
use lock_api_raw::{NoMemory, RawRwLock};
use lock_api_rw::Evidence;
use std::alloc::{Allocator, Global};
use std::hash::Hash;
use std::iter::FusedIterator;
use std::marker::Model;
use std::sync::Wait;

/// A walk over the keys of a set that threads share, as the map's `iter`: shards in their order, each held in its turn,
/// and nothing before the first item.
///
/// An item takes memory, once for each shard. Where there is none it is an error, and the walk ends.
#[derive(Drop)]
pub struct Iter<'m, 'd, K: Eq + Hash, Q: RawRwLock, A: Allocator = Global>
where
    Q::Runtime: Wait,
{
    walk: Walk<'m, 'd, K, (), Q, A>,
}

impl<'m, 'd, K: Eq + Hash, Q: RawRwLock, A: Allocator> Model for Iter<'m, 'd, K, Q, A>
where
    Q::Runtime: Wait,
{
    ghost use Rattle.std.specs.Borrow.{Bor};
    ghost use Rattle.core.specs.declared.rw.RwLockReadGuard.{RwLockReadGuard};
    ghost use Rattle.lock_api_guards.specs.declared.guard.Guard.{Guard};
    ghost use Rattle.lock_api_rw.specs.Holds.{Issued};
    ghost use Rattle.dashmap_table.specs.Table.{Table};
    ghost use Rattle.dashmap_iter.specs.Lending.{Walk};

    ghost Value = { Walk Q
        (Guard (RwLockReadGuard (Table K (Unit {0}))) (Issued (Bor Q) Q.SharedGuard) Q Q.Runtime Q.Party (Bor Q)) };

    ghost view = { λ it. it.walk };
}

impl<'m, 'd, K: Eq + Hash, Q: RawRwLock, A: Allocator> Iter<'m, 'd, K, Q, A>
where
    Q::Runtime: Wait,
{
    /// The keys that a map's walk meets.
    pub(crate) fn of_walk(walk: Walk<'m, 'd, K, (), Q, A>) -> Iter<'m, 'd, K, Q, A>
        ensures { result ≡ walk.entry }
    {
        Iter { walk }
    }
}

impl<'m, 'd, K: Eq + Hash, Q: Evidence<Shard<K, (), A>>, A: Allocator + Clone> Iterator
    for Iter<'m, 'd, K, Q, A>
where
    Q::Runtime: Wait,
{
    type Item = Result<RefMulti<'m, 'd, K, Q, A>, NoMemory>;

    ghost next_gives = { Gives K.eq (λ g. read_guard_value g.inner) (λ g. g.held.0.place.now) (by_some_wait Q.showed) };

    ghost remaining = { λ w. at_most (left (λ g. read_guard_value g.inner) w) };

    fn next(&mut self) -> Option<Result<RefMulti<'m, 'd, K, Q, A>, NoMemory>> {
        RefMulti::of_item(self.walk.next())
    }
}

/// The keys of a set that is given up, shards and their slots in order. A contract sees the list of those that are
/// left.
///
/// It takes no memory. Each key comes once, and behind the last it gives `None` for good.
#[derive(Drop)]
pub struct OwningIter<K: Eq + Hash, A: Allocator = Global> {
    pairs: Pairs<K, (), A>,
}

impl<K: Eq + Hash, A: Allocator> Model for OwningIter<K, A> {
    ghost use Rattle.std.specs.Prelude.{List, map};

    ghost Value = { List K };

    ghost view = { λ it. map (λ p. p.0) it.pairs };
}

impl<K: Eq + Hash, A: Allocator> OwningIter<K, A> {
    /// The keys of these pairs.
    pub(crate) fn of_pairs(pairs: Pairs<K, (), A>) -> OwningIter<K, A>
        ensures { result ≡ map (λ p. p.0) pairs }
    {
        OwningIter { pairs }
    }
}

impl<K: Eq + Hash + Drop, A: Allocator> Iterator for OwningIter<K, A> {
    type Item = K;

    ghost next_gives = { YieldsFirst (λ rest. rest) };

    ghost remaining = { item_count (λ rest. rest) };

    fn next(&mut self) -> Option<K> {
        let (key, ()) = self.pairs.next()?;
        Some(key)
    }
}

impl<K: Eq + Hash + Drop, A: Allocator> FusedIterator for OwningIter<K, A> {}
