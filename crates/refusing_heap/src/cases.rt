//! A call with ample memory, and then with each of its growths refused in turn.

use crate::growths::Refusal;
use crate::heap::RefusingHeap;
use crate::turns::{EachGrowthFault, each_growth};
use std::alloc::Global;
use std::fmt;

/// The memory of what is called.
pub type Heap = RefusingHeap<Global>;

/// What was seen of a call.
#[derive(Clone, Copy)]
pub struct Seen {
    /// How many growths were asked for before it.
    pub before: u64,
    /// How many were asked for when it was over.
    pub behind: u64,
    /// Whether it answered as it is to, and all stood as it should.
    pub stood: bool,
}

impl Seen {
    /// Of a call that asked for its growths between these two counts.
    pub fn of(before: u64, behind: u64, stood: bool) -> Option<Seen> {
        Some(Seen {
            before,
            behind,
            stood,
        })
    }

    /// The same, where that stood too.
    pub fn and(self, stood: bool) -> Option<Seen> {
        Seen::of(self.before, self.behind, self.stood && stood)
    }
}

/// What came of a call.
#[derive(Clone, Copy, PartialEq)]
pub enum Said {
    /// It is done, and what it did is there.
    Done,
    /// It is refused for want of memory, and what is to stand does.
    Refused,
    /// Anything else.
    Other,
}

impl Said {
    /// Of a call that was right to be done, or else refused for want of memory.
    pub fn of(is_done: bool, is_refused: bool) -> Said {
        match (is_done, is_refused) {
            (true, false) => Said::Done,
            (false, true) => Said::Refused,
            _ => Said::Other,
        }
    }

    /// Whether it is a refusal exactly where a growth was refused.
    pub fn fits(self, heap: &Heap) -> bool {
        match self {
            Said::Done => heap.refused() == 0,
            Said::Refused => heap.refused() > 0,
            Said::Other => false,
        }
    }

    /// The same of a call that may do with less memory than it asks for first.
    pub fn may_fit(self, heap: &Heap) -> bool {
        self == Said::Done || self.fits(heap)
    }

    /// What was seen of a call that is just over, before which so many growths were asked for.
    pub fn seen(self, heap: &Heap, before: u64, stood: bool) -> Option<Seen> {
        Seen::of(before, heap.asked(), self.fits(heap) && stood)
    }
}

/// A call, with all that comes before it.
pub trait Case<R>: Copy {
    /// Makes it in this memory. Where one of its growths is refused it is to be refused, and else it isn't. None where
    /// there was no memory for what comes before it.
    fn run(self, rt: R, heap: &Heap) -> Option<Seen>;
}

/// What went wrong with a call.
#[derive(Clone, Copy)]
pub enum Wrong {
    /// There was no memory for what comes before it.
    Unprepared,
    /// With ample memory it is answered otherwise.
    Ample,
    /// Where this growth of it is refused something doesn't stand.
    Refused(u64),
    /// It asks for more growths than there are turns.
    Endless,
    /// A growth is told by no run.
    Uncounted,
}

impl fmt::Display for Wrong {
    fn fmt<W: fmt::Write>(&self, f: &mut fmt::Formatter<W>) -> fmt::Result {
        match self {
            Wrong::Unprepared => f.write_str("NOT PREPARED"),
            Wrong::Ample => f.write_str("WRONG with ample memory"),
            Wrong::Refused(growth) => write!(f, "WRONG where growth {growth} is refused"),
            Wrong::Endless => f.write_str("ENDLESS"),
            Wrong::Uncounted => f.write_str("NOT COUNTED"),
        }
    }
}

/// How many growths a call may ask for.
const MOST: u64 = 200;

/// The number of the one growth that a heap refuses.
fn refused_one(heap: &Heap) -> u64 {
    match heap.refusal() {
        Refusal::Once(growth) => growth,
        Refusal::Never | Refusal::Onwards(_) => 0,
    }
}

/// Which growth of a call was refused, of which the first is 1; and 0 where none was. So many were asked for before it.
pub fn refused_growth(heap: &Heap, before: u64) -> u64 {
    match heap.refused() {
        0 => 0,
        _ => refused_one(heap).saturating_sub(before),
    }
}

/// Makes the call, where this heap refuses one of its growths.
fn make_refused<R: Drop, C: Case<R>>(
    rt: R,
    case: C,
    heap: &Heap,
    behind: u64,
) -> Result<(), Wrong> {
    if refused_one(heap) > behind {
        return Ok(());
    }
    match case.run(rt, heap) {
        Some(Seen { stood: true, .. }) if heap.refused() == 1 => Ok(()),
        Some(Seen { before, .. }) => Err(Wrong::Refused(refused_one(heap).saturating_sub(before))),
        None => Err(Wrong::Unprepared),
    }
}

/// Makes the call with ample memory, and then with each of its growths refused in turn. Answers how many there are.
pub fn make_in_turn<R: Copy + Drop, C: Case<R>>(
    rt: R,
    alloc: Global,
    case: C,
) -> Result<u64, Wrong> {
    let heap = RefusingHeap::new(alloc, Refusal::Never);
    let seen = case.run(rt, &heap).ok_or(Wrong::Unprepared)?;
    if !seen.stood {
        return Err(Wrong::Ample);
    }
    let first = Refusal::Once(seen.before.saturating_add(1));
    let turns = each_growth(alloc, first, MOST, |heap| {
        make_refused(rt, case, heap, seen.behind)
    });
    match turns {
        Ok(growths) if growths == seen.behind.saturating_sub(seen.before) => Ok(growths),
        Ok(_) => Err(Wrong::Uncounted),
        Err(EachGrowthFault::Wrong(_, wrong)) => Err(wrong),
        Err(EachGrowthFault::Endless) => Err(Wrong::Endless),
    }
}
