//! The waiters of a bucket, in the order in which they came. One joins them in one step; a taking has them all stand
//! in the first chain before, so each is moved there once.
ghost use Rattle.std.specs.Prelude.{◌≡◌, ◌∷◌, ◌++◌, [], true, false, List};
ghost use Rattle.parking_lot_core_model.specs.declared.parking.FilterOp.{FilterOp};
ghost use Rattle.parking_lot_core_model.specs.Results.{Answers, is_stop};
ghost use Rattle.parking_lot_core_model.specs.Machine.{tokens_of};
ghost use Rattle.parking_lot_core.specs.Waits.{fits, onto, without, found, every, others, any, under, line};
ghost use Rattle.parking_lot_core.specs.Waits.{queue, picked, kept};

use crate::chain::{Chain, Waiting, Wanted};
use parking_lot_core_model::{FilterOp, ParkToken};
use std::alloc::Allocator;

/// Who waits. The newest stands first in the second chain.
#[derive(Drop)]
pub(crate) struct Line<A: Allocator> {
    front: Chain<A>,
    back: Chain<A>,
}

impl<A: Allocator> Line<A> {
    /// Nobody.
    pub fn new() -> Line<A>
        ensures { line result.front result.back ≡ [] }
    {
        Line {
            front: Chain::new(),
            back: Chain::new(),
        }
    }

    /// Those of a chain, the last of which came first.
    pub fn of(mut newest: Chain<A>) -> Line<A>
        ensures { line result.front result.back ≡ onto newest [] }
    {
        let mut front = Chain::new();
        newest.pour(&mut front);
        Line {
            front,
            back: Chain::new(),
        }
    }

    /// Has all stand in the first chain.
    fn settle(&mut self)
        ensures front { self.new.front ≡ line self.old.front self.old.back }
        ensures back { self.new.back ≡ [] }
    {
        if self.back.is_nil() {
            return;
        }
        self.fold();
    }

    /// The same where the second isn't empty.
    fn fold(&mut self)
        ensures front { self.new.front ≡ line self.old.front self.old.back }
        ensures back { self.new.back ≡ [] }
    {
        let mut passed = Chain::new();
        self.front.pour(&mut passed);
        self.back.pour(&mut self.front);
        passed.pour(&mut self.front);
    }

    /// Whether nobody is there.
    #[inline(always)]
    pub fn is_empty(&self) -> bool
        ensures { result ≡ true → line self.now.front self.now.back ≡ [] }
    {
        self.front.is_nil() && self.back.is_nil()
    }

    /// Whether one of those that are wanted is there.
    pub fn has(&self, wanted: Wanted) -> bool
        ensures { result ≡ any (fits wanted) (line self.now.front self.now.back) }
    {
        self.front.has(wanted) || self.back.has(wanted)
    }

    /// One joins them, with its node; false where there is none.
    pub fn join(&mut self, waiting: Waiting, mine: &mut Chain<A>) -> bool
        ensures joined { result ≡ true → line self.new.front self.new.back
            ≡ line self.old.front self.old.back ++ waiting ∷ [] }
        ensures none { result ≡ false → line self.new.front self.new.back ≡ line self.old.front self.old.back }
    {
        match mine.head() {
            Some(_) => {
                mine.name(waiting);
                mine.move_first(&mut self.back);
                true
            }
            None => false,
        }
    }

    /// Those of a chain join them, in their order, under another key.
    pub fn join_all(&mut self, key: usize, chain: &mut Chain<A>)
        ensures { line self.new.front self.new.back
            ≡ line self.old.front self.old.back ++ under key chain.old }
    {
        chain.pour_under(key, &mut self.back);
    }

    /// Moves the first that is wanted to the front of a chain.
    pub fn take_first(&mut self, wanted: Wanted, to: &mut Chain<A>)
        ensures left { line self.new.front self.new.back
            ≡ without (fits wanted) (line self.old.front self.old.back) }
        ensures to { to.new ≡ found (fits wanted) (line self.old.front self.old.back) ++ to.old }
    {
        self.settle();
        self.front.take_first(wanted, to);
    }

    /// Moves all that are wanted to the front of a chain, one by one.
    pub fn take_all(&mut self, wanted: Wanted, to: &mut Chain<A>)
        ensures left { line self.new.front self.new.back ≡ others (fits wanted) (line self.old.front self.old.back) }
        ensures to { to.new ≡ onto (every (fits wanted) (line self.old.front self.old.back)) to.old }
    {
        self.settle();
        self.front.take_all(wanted, to);
    }

    /// Shows the tokens of a key's waiters to a filter, and moves those that it wants to the front of a chain.
    pub fn sift<F: FnMut(ParkToken) -> FilterOp + Drop>(
        &mut self,
        key: usize,
        filter: F,
        to: &mut Chain<A>,
    )
        requires { F.IsAlwaysCallable filter }
        ensures { let old = line self.old.front self.old.back in (answers : List FilterOp) × (last : F)
            × Answers F.step is_stop filter (tokens_of (queue old key)) answers last
            × (line self.new.front self.new.back ≡ kept key answers old)
            × (to.new ≡ onto (picked key answers old) to.old) }
    {
        self.settle();
        self.front.sift(key, filter, to);
    }
}
