//! Chains of nodes, which move from one to another. A node is made once, with its participant.
ghost use Rattle.std.specs.Prelude.{◌≡◌, ◌∷◌, [], IfOk, IfSome, List, length, slice_get, slice_set, drop, take};
ghost use Rattle.std.specs.Prelude.{◌++◌, true};
ghost use Rattle.parking_lot_core_model.specs.declared.parking.FilterOp.{FilterOp};
ghost use Rattle.parking_lot_core_model.specs.Results.{Answers, is_stop};
ghost use Rattle.parking_lot_core_model.specs.Machine.{tokens_of};
ghost use Rattle.parking_lot_core.specs.Waits.{items, fits, onto, without, found, every, others, any, under, queue};
ghost use Rattle.parking_lot_core.specs.Waits.{picked, kept, meet};
ghost use Rattle.parking_lot_core.specs.Lines.{waits};

use crate::line::Line;
use parking_lot_core_model::{FilterOp, ParkToken, Waiter};
use std::alloc::{AllocError, Allocator};
use std::marker::{Model, Send};
use std::mem;

/// Who waits, under which key.
#[derive(Clone, Copy)]
pub(crate) struct Waiting {
    pub key: usize,
    pub waiter: Waiter,
    /// Whether it waits for a moment, too.
    pub timed: bool,
}

/// Who is looked for in a chain.
#[derive(Clone, Copy)]
pub(crate) enum Wanted {
    /// Who waits under this key.
    Key(usize),
    /// The thread of this number.
    Thread(usize),
    /// Who waits under a key of that bucket, of so many.
    Within(usize, usize),
}

/// A waiter and those behind it.
#[derive(Drop)]
#[cycle(chain)]
pub(crate) struct Node<A: Allocator> {
    pub waiting: Waiting,
    pub next: Links<A>,
}

/// Nodes, one behind the other.
#[derive(Drop)]
#[cycle(chain)]
pub(crate) enum Links<A: Allocator> {
    Nil,
    Link(Box<Node<A>, A>),
}

/// The same, as the only type that names nodes. A clause sees the waiters.
///
/// Nodes lead back to nodes. Above such a type each call that has threads share something finds anew that they may, down
/// through all of it, and past the search's limit where they share a little more. So a chain is a type that owns, with a
/// proof of its own that it may go to another thread, and what stands above it is found once.
#[derive(Drop)]
pub(crate) struct Chain<A: Allocator> {
    links: Links<A>,
}

impl<A: Allocator> Model for Chain<A> {
    ghost use Rattle.std.specs.Prelude.{List};
    ghost use base.Fml.{ftrue};
    ghost use Rattle.parking_lot_core.specs.declared.chain.Waiting.{Waiting};
    ghost use Rattle.parking_lot_core.specs.Waits.{items};

    ghost Value = { List Waiting };

    ghost view = { λ c. items c.links };

    ghost also_owns = { λ _. ftrue };

    ghost also_shares = { λ _ _ _. ftrue };
}

unsafe impl<A: Allocator + Send> Send for Chain<A> {}

impl Wanted {
    /// Whether it is this one.
    fn fits(self, waiting: &Waiting) -> bool
        ensures { result ≡ fits self waiting.now }
    {
        match self {
            Wanted::Key(key) => waiting.key == key,
            Wanted::Thread(thread) => waiting.waiter.thread == thread,
            Wanted::Within(bucket, count) => waiting.key.checked_rem(count) == Some(bucket),
        }
    }
}

impl<A: Allocator> Chain<A> {
    /// The chain of these nodes.
    fn of(links: Links<A>) -> Chain<A>
        ensures { result ≡ items links }
    {
        Chain { links }
    }

    /// No nodes.
    pub fn new() -> Chain<A>
        ensures { result ≡ [] }
    {
        Chain::of(Links::Nil)
    }

    /// One node, which takes the memory for it.
    pub fn one(alloc: A, waiting: Waiting) -> Result<Chain<A>, AllocError>
        ensures { IfOk result (λ chain. chain ≡ waiting ∷ []) }
    {
        let node = Box::new(
            alloc,
            Node {
                waiting,
                next: Links::Nil,
            },
        )?;
        Ok(Chain::of(Links::Link(node)))
    }

    /// Its nodes.
    pub fn links(&self) -> &Links<A>
        ensures { items result.now ≡ self.now }
    {
        &self.links
    }

    /// Whether there is none.
    pub fn is_nil(&self) -> bool
        ensures { result ≡ true → self.now ≡ [] }
    {
        match &self.links {
            Links::Nil => true,
            Links::Link(_) => false,
        }
    }

    /// Who stands first.
    pub fn head(&self) -> Option<Waiting>
        ensures { result ≡ slice_get self.now 0 }
    {
        match &self.links {
            Links::Link(node) => Some(node.waiting),
            Links::Nil => None,
        }
    }

    /// Says who the first is.
    pub fn name(&mut self, waiting: Waiting)
        ensures { self.new ≡ slice_set self.old 0 waiting }
    {
        if let Links::Link(node) = &mut self.links {
            node.waiting = waiting;
        }
    }

    /// Moves the first to the front of another chain.
    pub fn move_first(&mut self, to: &mut Chain<A>)
        ensures left { self.new ≡ drop 1 self.old }
        ensures to { to.new ≡ take 1 self.old ++ to.old }
    {
        match mem::replace(&mut self.links, Links::Nil) {
            Links::Link(mut node) => {
                self.links = mem::replace(&mut node.next, Links::Nil);
                node.next = mem::replace(&mut to.links, Links::Nil);
                to.links = Links::Link(node);
            }
            Links::Nil => {}
        }
    }

    /// Moves all to the front of another chain, one by one.
    pub fn pour(&mut self, to: &mut Chain<A>)
        ensures left { self.new ≡ [] }
        ensures to { to.new ≡ onto self.old to.old }
    {
        while let Some(_) = self.head() {
            self.move_first(to);
        }
    }

    /// The same, and has each wait under another key.
    pub fn pour_under(&mut self, key: usize, to: &mut Chain<A>)
        ensures left { self.new ≡ [] }
        ensures to { to.new ≡ onto (under key self.old) to.old }
    {
        while let Some(first) = self.head() {
            self.name(Waiting { key, ..first });
            self.move_first(to);
        }
    }

    /// Moves the first of those that are wanted to the front of another chain.
    pub fn take_first(&mut self, wanted: Wanted, to: &mut Chain<A>)
        ensures left { self.new ≡ without (fits wanted) self.old }
        ensures to { to.new ≡ found (fits wanted) self.old ++ to.old }
    {
        let mut passed = Chain::new();
        while let Some(first) = self.head() {
            if wanted.fits(&first) {
                self.move_first(to);
                passed.pour(self);
                return;
            }
            self.move_first(&mut passed);
        }
        passed.pour(self);
    }

    /// Moves all that are wanted to the front of another chain, one by one.
    pub fn take_all(&mut self, wanted: Wanted, to: &mut Chain<A>)
        ensures left { self.new ≡ others (fits wanted) self.old }
        ensures to { to.new ≡ onto (every (fits wanted) self.old) to.old }
    {
        let mut passed = Chain::new();
        while let Some(first) = self.head() {
            if wanted.fits(&first) {
                self.move_first(to);
            } else {
                self.move_first(&mut passed);
            }
        }
        passed.pour(self);
    }

    /// Shows the tokens of a key's waiters to a filter, in order, until it stops, and moves those that it wants to the
    /// front of another chain.
    pub fn sift<F: FnMut(ParkToken) -> FilterOp + Drop>(
        &mut self,
        key: usize,
        mut filter: F,
        to: &mut Chain<A>,
    )
        requires { F.IsAlwaysCallable filter }
        ensures { (answers : List FilterOp) × (last : F)
            × Answers F.step is_stop filter (tokens_of (queue self.old key)) answers last
            × (self.new ≡ kept key answers self.old)
            × (to.new ≡ onto (picked key answers self.old) to.old) }
    {
        let mut passed = Chain::new();
        while let Some(first) = self.head() {
            if first.key != key {
                self.move_first(&mut passed);
                continue;
            }
            match filter(first.waiter.token) {
                FilterOp::Unpark => self.move_first(to),
                FilterOp::Skip => self.move_first(&mut passed),
                FilterOp::Stop => {
                    passed.pour(self);
                    return;
                }
            }
        }
        passed.pour(self);
    }

    /// Whether one of those that are wanted is there.
    pub fn has(&self, wanted: Wanted) -> bool
        ensures { result ≡ any (fits wanted) self.now }
    {
        let mut at = &self.links;
        while let Links::Link(node) = at {
            if wanted.fits(&node.waiting) {
                return true;
            }
            at = &node.next;
        }
        false
    }

    /// How many they are, where a number can say so.
    pub fn count(&self) -> Option<usize>
        ensures { IfSome result (λ count. count ≡ length self.now) }
    {
        let mut count: usize = 0;
        let mut at = &self.links;
        while let Links::Link(node) = at {
            count = count.checked_add(1)?;
            at = &node.next;
        }
        Some(count)
    }

    /// Whether the thread of one of them stands in a line, too.
    pub fn meets(&self, line: &Line<A>) -> bool
        ensures { result ≡ meet self.now (waits line.now) }
    {
        let mut at = &self.links;
        while let Links::Link(node) = at {
            if line.has(Wanted::Thread(node.waiting.waiter.thread)) {
                return true;
            }
            at = &node.next;
        }
        false
    }
}
