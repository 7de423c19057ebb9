//! Waiters as linked nodes: one node for each thread number, and one chain of them for each bucket of keys.
ghost use Rattle.std.specs.Prelude.{◌≡◌, ◌==◌, ◌<◌, ◌^◌, ℕ, Some, IfOk, length, map, filter, position, slice_get};
ghost use Rattle.std.specs.Iterator.{YieldsFirst, item_count};
ghost use Rattle.parking_lot_core_model.specs.Chains.{walk_from, left_of};
ghost use Rattle.parking_lot_core_model.specs.Chains.{head_with, head_without, with_next, next_of, Joins, Leaves};
ghost use Rattle.std.specs.Prelude.{slice_set, ◌%◌};
ghost use Rattle.parking_lot_core_model.specs.declared.chains.Head.{Head};

use crate::parking::ParkToken;
use crate::place::Waiter;
use std::alloc::{AllocError, Allocator};

/// What is kept of the thread with the node's number.
#[derive(Clone, Copy)]
pub(crate) struct Node {
    /// The key of its list.
    pub key: usize,
    /// The token that it parked with.
    pub token: ParkToken,
    /// Who stands behind it in its chain.
    pub next: Option<usize>,
}

/// The node of a number that has never waited.
pub(crate) const FREE: Node = Node {
    key: 0,
    token: ParkToken(0),
    next: None,
};

/// The ends of a chain.
#[derive(Clone, Copy)]
pub(crate) struct Head {
    /// The first thread.
    pub first: Option<usize>,
    /// The last.
    pub last: Option<usize>,
}

/// The ends of an empty chain.
pub(crate) const NOBODY: Head = Head {
    first: None,
    last: None,
};

/// A waiter where a walk meets it.
#[derive(Clone, Copy)]
pub(crate) struct Spot {
    /// Who stands before it in its chain.
    pub before: Option<usize>,
    /// The key of its list.
    pub key: usize,
    /// The waiter.
    pub waiter: Waiter,
}

/// A walk along a chain.
#[derive(Drop)]
pub(crate) struct Trail<'a> {
    nodes: &'a [Node],
    /// How many nodes it may still meet.
    left: usize,
    before: Option<usize>,
    at: Option<usize>,
}

impl<'a> Iterator for Trail<'a> {
    type Item = Spot;

    ghost next_gives = { YieldsFirst left_of };

    ghost remaining = { item_count left_of };

    fn next(&mut self) -> Option<Spot> {
        if self.left == 0 {
            return None;
        }
        let thread = self.at?;
        let node = *self.nodes.get(thread)?;
        let before = self.before;
        self.left -= 1;
        self.before = Some(thread);
        self.at = node.next;
        Some(Spot {
            before,
            key: node.key,
            waiter: Waiter {
                thread,
                token: node.token,
            },
        })
    }
}

/// A walk from a chain's first on.
pub(crate) fn walk(nodes: &[Node], first: Option<usize>) -> Trail<'_>
    ensures left { left_of result ≡ walk_from nodes.now first }
    ensures few { length (left_of result) < 2 ^ 64 }
{
    Trail {
        nodes,
        left: nodes.len(),
        before: None,
        at: first,
    }
}

/// How many of a chain are under the key.
pub(crate) fn count_under(nodes: &[Node], first: Option<usize>, key: usize) -> usize
    ensures { result ≡ length (filter (λ spot. spot.key == key) (walk_from nodes.now first)) }
{
    walk(nodes, first).filter(|spot| spot.key == key).count()
}

/// The `nth` of a chain that is under the key.
pub(crate) fn nth_under(
    nodes: &[Node],
    first: Option<usize>,
    key: usize,
    nth: usize,
) -> Option<Spot>
    ensures { result ≡ slice_get (filter (λ spot. spot.key == key) (walk_from nodes.now first)) nth }
{
    walk(nodes, first).filter(|spot| spot.key == key).nth(nth)
}

/// Where the thread stands among those of a chain that are under the key.
pub(crate) fn position_under(
    nodes: &[Node],
    first: Option<usize>,
    key: usize,
    thread: usize,
) -> Option<usize>
    ensures { result ≡ position (λ spot. spot.waiter.thread == thread)
        (filter (λ spot. spot.key == key) (walk_from nodes.now first)) }
{
    walk(nodes, first)
        .filter(|spot| spot.key == key)
        .position(|spot| spot.waiter.thread == thread)
}

/// The threads of a chain that are under the key.
pub(crate) fn threads_under<A: Allocator>(
    nodes: &[Node],
    first: Option<usize>,
    key: usize,
    alloc: A,
) -> Result<Vec<usize, A>, AllocError>
    ensures { IfOk result (λ threads. threads.items
        ≡ map (λ spot. spot.waiter.thread) (filter (λ spot. spot.key == key) (walk_from nodes.now first))) }
{
    walk(nodes, first)
        .filter(|spot| spot.key == key)
        .map(|spot| spot.waiter.thread)
        .collect(alloc)
}

impl Head {
    /// The same once a thread has joined the chain.
    fn with(self, thread: usize) -> Head
        ensures { result ≡ head_with self thread }
    {
        Head {
            first: match self.first {
                Some(first) => Some(first),
                None => Some(thread),
            },
            last: Some(thread),
        }
    }

    /// The same once one has left it that stood between these.
    fn without(self, before: Option<usize>, next: Option<usize>) -> Head
        ensures { result ≡ head_without self before next }
    {
        Head {
            first: match before {
                Some(_) => self.first,
                None => next,
            },
            last: match next {
                Some(_) => self.last,
                None => before,
            },
        }
    }
}

/// Has another stand behind a thread, where there is one.
fn set_next<A: Allocator>(nodes: &mut Vec<Node, A>, thread: Option<usize>, next: Option<usize>)
    ensures { nodes.new.items ≡ with_next nodes.old.items thread next }
{
    if let Some(thread) = thread {
        if thread < nodes.len() {
            let node = nodes[thread];
            nodes[thread] = Node { next, ..node };
        }
    }
}

/// Who stands behind a thread.
fn next_of(nodes: &[Node], thread: usize) -> Option<usize>
    ensures { result ≡ next_of nodes.now thread }
{
    match nodes.get(thread) {
        Some(node) => node.next,
        None => None,
    }
}

/// Puts a waiter at the end of its key's chain.
pub(crate) fn link<A: Allocator>(
    heads: &mut Vec<Head, A>,
    nodes: &mut Vec<Node, A>,
    key: usize,
    waiter: Waiter,
)
    requires some { 0 < length heads.old.items }
    requires within { waiter.thread < length nodes.old.items }
    ensures { Joins heads.old.items nodes.old.items key waiter heads.new.items nodes.new.items }
{
    let bucket = key % heads.len();
    let head = heads[bucket];
    nodes[waiter.thread] = Node {
        key,
        token: waiter.token,
        next: None,
    };
    set_next(nodes, head.last, Some(waiter.thread));
    heads[bucket] = head.with(waiter.thread);
}

/// Takes a waiter out of its chain.
pub(crate) fn unlink<A: Allocator>(heads: &mut Vec<Head, A>, nodes: &mut Vec<Node, A>, spot: Spot)
    requires { 0 < length heads.old.items }
    ensures { Leaves heads.old.items nodes.old.items spot heads.new.items nodes.new.items }
{
    let bucket = spot.key % heads.len();
    let head = heads[bucket];
    let next = next_of(nodes, spot.waiter.thread);
    set_next(nodes, spot.before, next);
    heads[bucket] = head.without(spot.before, next);
}

/// The first of the chain of a key's bucket.
pub(crate) fn first_of(heads: &[Head], key: usize) -> Option<usize>
    requires { 0 < length heads.now }
    ensures { (head : Head) × (slice_get heads.now (key % length heads.now) ≡ Some head) × (result ≡ head.first) }
{
    heads[key % heads.len()].first
}
