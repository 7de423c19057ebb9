//! A bucket: those that wait under one of its keys. No thread stands there twice.
ghost use Rattle.std.specs.Prelude.{◌≡◌, ◌<◌, ◌+◌, ◌%◌, ◌==◌, ◌∷◌, ◌++◌, [], true, false, List};
ghost use Rattle.parking_lot_core_model.specs.declared.parking.FilterOp.{FilterOp};
ghost use Rattle.parking_lot_core_model.specs.Results.{Answers, is_stop};
ghost use Rattle.parking_lot_core_model.specs.Machine.{tokens_of};
ghost use Rattle.parking_lot_core.specs.declared.chain.Wanted.TheVariants.{Thread, Within};
ghost use Rattle.parking_lot_core.specs.Waits.{fits, onto, without, found, every, others, any, under, queue};
ghost use Rattle.parking_lot_core.specs.Waits.{picked, kept, Apart};
ghost use Rattle.parking_lot_core.specs.Lines.{waits};

use crate::chain::{Chain, Waiting, Wanted};
use crate::line::Line;
use parking_lot_core_model::{FilterOp, ParkToken};
use std::alloc::Allocator;
use std::mem;

/// How many unparks come to one that is fair.
const FAIR_TURN: u64 = 64;

/// What a bucket's lock guards.
#[derive(Drop)]
pub(crate) struct Bucket<A: Allocator> {
    pub line: Line<A>,
    /// How many unparks there were since the last fair one.
    turns: u64,
    /// Its waiters stand in a larger table.
    pub moved: bool,
    /// So that it has no cache line in common with the next.
    spare: [u64; 8],
    ghost below: { turns < 64 },
    ghost apart: { Apart (waits line) },
}

impl<A: Allocator> Bucket<A> {
    /// Nobody waits.
    pub fn new() -> Bucket<A>
        ensures line { waits result.line ≡ [] }
        ensures turns { result.turns ≡ 0 }
    {
        Bucket {
            line: Line::new(),
            turns: 0,
            moved: false,
            spare: [0; 8],
        }
    }

    /// Counts an unpark, and answers whether it is to be fair.
    pub fn turn(&mut self) -> bool
        ensures fair { result ≡ (self.new.turns == 0) }
        ensures turns { self.new.turns ≡ (self.old.turns + 1) % 64 }
        ensures line { waits self.new.line ≡ waits self.old.line }
    {
        self.turns = (self.turns + 1) % FAIR_TURN;
        self.turns == 0
    }

    /// Whether nobody is there, as in most buckets.
    #[inline(always)]
    pub fn is_empty(&self) -> bool
        ensures { result ≡ true → waits self.now.line ≡ [] }
    {
        self.line.is_empty()
    }

    /// Whether one of those that are wanted is there.
    pub fn has(&self, wanted: Wanted) -> bool
        ensures { result ≡ any (fits wanted) (waits self.now.line) }
    {
        self.line.has(wanted)
    }

    /// One that isn't there joins them, with its node; false where there is none.
    pub fn join(&mut self, waiting: Waiting, mine: &mut Chain<A>) -> bool
        requires { any (fits (Thread waiting.waiter.thread)) (waits self.old.line) ≡ false }
        ensures joined { result ≡ true → waits self.new.line ≡ waits self.old.line ++ waiting ∷ [] }
        ensures none { result ≡ false → waits self.new.line ≡ waits self.old.line }
    {
        self.line.join(waiting, mine)
    }

    /// Those of a chain join them, under another key.
    pub fn join_all(&mut self, key: usize, chain: &mut Chain<A>)
        requires { Apart (waits self.old.line ++ chain.old) }
        ensures { waits self.new.line ≡ waits self.old.line ++ under key chain.old }
    {
        self.line.join_all(key, chain);
    }

    /// Moves the first that is wanted to the front of a chain.
    pub fn take_first(&mut self, wanted: Wanted, to: &mut Chain<A>)
        ensures left { waits self.new.line ≡ without (fits wanted) (waits self.old.line) }
        ensures to { to.new ≡ found (fits wanted) (waits self.old.line) ++ to.old }
    {
        self.line.take_first(wanted, to);
    }

    /// Moves all that are wanted to the front of a chain, one by one.
    pub fn take_all(&mut self, wanted: Wanted, to: &mut Chain<A>)
        ensures left { waits self.new.line ≡ others (fits wanted) (waits self.old.line) }
        ensures to { to.new ≡ onto (every (fits wanted) (waits self.old.line)) to.old }
    {
        self.line.take_all(wanted, to);
    }

    /// Shows the tokens of a key's waiters to a filter, and moves those that it wants to the front of a chain.
    pub fn sift<F: FnMut(ParkToken) -> FilterOp + Drop>(
        &mut self,
        key: usize,
        filter: F,
        to: &mut Chain<A>,
    )
        requires { F.IsAlwaysCallable filter }
        ensures { let old = waits self.old.line in (answers : List FilterOp) × (last : F)
            × Answers F.step is_stop filter (tokens_of (queue old key)) answers last
            × (waits self.new.line ≡ kept key answers old)
            × (to.new ≡ onto (picked key answers old) to.old) }
    {
        self.line.sift(key, filter, to);
    }

    /// Has all move: those whose bucket of so many is that one are in the second result, the others in the first.
    pub fn part(&mut self, bucket: usize, count: usize) -> (Bucket<A>, Bucket<A>)
        ensures low { waits result.0.line ≡ others (fits (Within bucket count)) (waits self.old.line) }
        ensures high { waits result.1.line ≡ every (fits (Within bucket count)) (waits self.old.line) }
        ensures left { waits self.new.line ≡ [] }
    {
        let mut high = Chain::new();
        self.take_all(Wanted::Within(bucket, count), &mut high);
        self.moved = true;
        let low = mem::replace(&mut self.line, Line::new());
        (
            Bucket {
                line: low,
                turns: self.turns,
                moved: false,
                spare: [0; 8],
            },
            Bucket {
                line: Line::of(high),
                turns: self.turns,
                moved: false,
                spare: [0; 8],
            },
        )
    }
}
