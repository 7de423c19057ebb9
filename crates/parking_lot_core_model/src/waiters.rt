//! The waiters of a lot by key, as linked nodes.
//!
//! Its contracts speak of the lists alone, so that what they are made of can change.
ghost use Rattle.std.specs.Prelude.{◌≡◌, ◌==◌, ◌<◌, ◌≤◌, ◌+◌, ◌∷◌, ◌++◌, [], ℕ, IfOk, OnOk, length, map, count_by};
ghost use Rattle.std.specs.Prelude.{position, remove, slice_get, is_some, if◌then◌else◌};
ghost use Rattle.parking_lot_core_model.specs.Lists.{updated, without_first};
ghost use Rattle.parking_lot_core_model.specs.Chains.{queued, total, room};
ghost use Rattle.parking_lot_core_model.specs.declared.place.Waiter.{Waiter};

use crate::chains::{
    Head, NOBODY, Node, count_under, first_of, link, nth_under, position_under, threads_under,
    unlink,
};
use crate::lists::Entry;
use crate::place::Waiter;
use crate::spread::{add_nodes, spread};
use std::alloc::{AllocError, Allocator};
use std::marker::Model;

/// How many chains there are at first.
const FIRST_COUNT: usize = 16;

/// Lists of waiters by key: one node for each thread number, linked in one chain for each bucket of keys.
#[derive(Drop)]
pub(crate) struct Waiters<A: Allocator> {
    /// The ends of each bucket's chain.
    heads: Vec<Head, A>,
    /// What is kept of each thread, by its number.
    nodes: Vec<Node, A>,
    /// The waiters in their order while they are spread over more chains; else it is empty.
    order: Vec<Entry<Waiter>, A>,
}

impl<A: Allocator> Model for Waiters<A> {
    ghost use Rattle.parking_lot_core_model.specs.Chains.{WaiterLists, entries, AreLinked};
    ghost use Rattle.std.specs.Prelude.{length};

    ghost Value = { WaiterLists };

    ghost view = { λ w. record { entries = entries w.nodes.items w.heads.items; nodes = length w.nodes.items } };

    ghost invariant = { λ w. AreLinked w.heads.items w.nodes.items };
}

impl<A: Allocator> Waiters<A> {
    /// Makes room for so many threads, and has so many chains, where there are less. Each list stays as it is.
    pub fn reserve(&mut self, count: usize, buckets: usize) -> Result<(), AllocError>
        ensures kept { queued self.new ≡ queued self.old }
        ensures total { total self.new ≡ total self.old }
        ensures room { OnOk result (count ≤ room self.new) }
        ensures grows { room self.old ≤ room self.new }
    {
        add_nodes(&mut self.nodes, count)?;
        if self.heads.len() < buckets {
            spread(&mut self.heads, &mut self.nodes, &mut self.order, buckets)?;
        }
        Ok(())
    }

    /// Adds a waiter that stands in no list at the end of the key's.
    pub fn push(&mut self, key: usize, waiter: Waiter)
        requires apart { (k : ℕ) → count_by (λ (w : Waiter). w.thread == waiter.thread) (queued self.old k) ≡ 0 }
        requires within { waiter.thread < room self.old }
        requires room { total self.old < room self.old }
        ensures kept { queued self.new ≡ updated (queued self.old) key (queued self.old key ++ waiter ∷ []) }
        ensures total { total self.new ≡ total self.old + 1 }
        ensures room { room self.new ≡ room self.old }
    {
        link(&mut self.heads, &mut self.nodes, key, waiter);
    }

    /// Takes the `nth` waiter out of the key's list.
    pub fn take(&mut self, key: usize, nth: usize) -> Option<Waiter>
        ensures item { result ≡ slice_get (queued self.old key) nth }
        ensures kept { queued self.new ≡ updated (queued self.old) key (remove (queued self.old key) nth) }
        ensures total { total self.old ≡ total self.new + (if is_some result then 1 else 0) }
        ensures room { room self.new ≡ room self.old }
    {
        let first = first_of(&self.heads, key);
        let spot = nth_under(&self.nodes, first, key, nth)?;
        unlink(&mut self.heads, &mut self.nodes, spot);
        Some(spot.waiter)
    }

    /// The `nth` waiter of the key's list.
    pub fn get(&self, key: usize, nth: usize) -> Option<Waiter>
        ensures { result ≡ slice_get (queued self.now key) nth }
    {
        let first = first_of(&self.heads, key);
        let spot = nth_under(&self.nodes, first, key, nth)?;
        Some(spot.waiter)
    }

    /// How many waiters the key's list has.
    pub fn count(&self, key: usize) -> usize
        ensures { result ≡ length (queued self.now key) }
    {
        count_under(&self.nodes, first_of(&self.heads, key), key)
    }

    /// Where the thread stands in the key's list.
    pub fn place_of(&self, key: usize, thread: usize) -> Option<usize>
        ensures { result ≡ position (λ (w : Waiter). w.thread == thread) (queued self.now key) }
    {
        position_under(&self.nodes, first_of(&self.heads, key), key, thread)
    }

    /// Takes the thread out of the key's list, and answers whether it stood there.
    pub fn take_number(&mut self, key: usize, thread: usize) -> bool
        ensures kept { queued self.new ≡ updated (queued self.old) key
            (without_first (λ (w : Waiter). w.thread == thread) (queued self.old key)) }
        ensures found { result ≡ is_some (position (λ (w : Waiter). w.thread == thread) (queued self.old key)) }
        ensures total { total self.old ≡ total self.new + (if result then 1 else 0) }
        ensures room { room self.new ≡ room self.old }
    {
        match self.place_of(key, thread) {
            Some(nth) => {
                self.take(key, nth);
                true
            }
            None => false,
        }
    }

    /// The threads of the key's list, in order.
    pub fn numbers(&self, key: usize, alloc: A) -> Result<Vec<usize, A>, AllocError>
        ensures { IfOk result (λ threads. threads.items ≡ map (λ w. w.thread) (queued self.now key)) }
    {
        threads_under(&self.nodes, first_of(&self.heads, key), key, alloc)
    }
}

impl<A: Allocator + Clone> Waiters<A> {
    /// Nobody waits.
    pub fn new(alloc: A) -> Result<Self, AllocError>
        ensures { IfOk result (λ made. (queued made ≡ (λ (_ : ℕ). [])) × (total made ≡ 0)) }
    {
        Ok(Waiters {
            heads: vec![in alloc.clone()?; NOBODY; FIRST_COUNT]?,
            nodes: Vec::new(alloc.clone()?),
            order: Vec::new(alloc),
        })
    }
}
