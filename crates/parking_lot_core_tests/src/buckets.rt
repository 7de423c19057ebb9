//! Buckets of keys: how many there are, what a growth keeps, and what an open section keeps out.

use crate::script::{
    Answer, BUSY, Call, FULL, IS, Line, Play, WAITS, WRONG, follow_each, stands, took,
};
use parking_lot_core::{DEFAULT_PARK_TOKEN, Lot, LotFault, RequeueOp, UnparkToken};
use refusing_heap::{Case, Heap, Refusal, RefusingHeap, Said, Seen, make_in_turn};
use std::alloc::Global;
use std::test::Fail;

/// Gives so many numbers out, takes some of them back, and answers how many buckets there are.
fn buckets_of(lot: &mut Lot, numbers: usize, retired: usize) -> Result<usize, LotFault> {
    for _number in 0..numbers {
        lot.register()?;
    }
    for number in 0..retired {
        lot.retire(number)?;
    }
    Ok(lot.buckets())
}

/// The same of a new lot, whose threads have two numbers each or one.
fn new_buckets(alloc: Global, wide: bool, numbers: usize, retired: usize) -> Result<usize, Fail> {
    let made = if wide {
        Lot::new_wide(alloc, 512, 7)
    } else {
        Lot::new(alloc, 256, 7)
    };
    Ok(buckets_of(&mut made?, numbers, retired)?)
}

/// Numbers given out of a lot whose threads have two each or one, how many are taken back, and the buckets then.
const BUCKETS: &[(bool, usize, usize, usize)] = &[
    (false, 0, 0, 16),
    (false, 1, 0, 16),
    (false, 5, 0, 16),
    (false, 6, 0, 32),
    (false, 6, 5, 32),
    (false, 256, 0, 1024),
    (true, 10, 0, 16),
    (true, 11, 0, 32),
    (true, 12, 0, 32),
    (true, 512, 0, 1024),
];

#[test]
fn threads_have_buckets(rt: HostRuntime) -> Result<(), Fail> {
    for (wide, numbers, retired, buckets) in BUCKETS {
        let count = new_buckets(rt.alloc(), *wide, *numbers, *retired)?;
        assert!(rt;
            count == *buckets,
            "{numbers} numbers, wide {wide}: {count} buckets"
        );
    }
    Ok(())
}

/// Threads 0 and 1 wait under key 3, and thread 2 under key 19, which is of the same bucket out of 16.
const ONE_BUCKET: &[Line] = &[
    (Call::Park(0, 3), WAITS),
    (Call::Park(1, 3), WAITS),
    (Call::Park(2, 19), WAITS),
];

/// Lists stay as buckets grow.
const GROWN: &[Line] = &[
    (Call::Buckets, Answer::Number(16)),
    (Call::Register, Answer::Number(5)),
    (Call::Buckets, Answer::Number(32)),
    (Call::IsQueue(3, &[0, 1]), IS),
    (Call::IsQueue(19, &[2]), IS),
    (Call::UnparkOne(3, 1), took!(1, 0, true)),
    (Call::IsQueue(3, &[1]), IS),
    (Call::UnparkAll(19, 1), Answer::Number(1)),
    (Call::Enter(3, 3), Answer::Done),
    (Call::Enter(4, 19), Answer::Done),
    (Call::Enter(5, 35), BUSY),
];

/// A section keeps others out of its bucket.
const KEPT_OUT: &[Line] = &[
    (Call::Enter(3, 3), Answer::Done),
    (Call::Enter(4, 19), BUSY),
    (Call::Park(4, 19), BUSY),
    (Call::UnparkOne(19, 1), BUSY),
    (Call::UnparkAll(19, 1), BUSY),
    (Call::UnparkFilter(19, 1), BUSY),
    (Call::ComeBack(2, 19), BUSY),
    (Call::Enter(4, 4), Answer::Done),
    (Call::Status(3), stands!(InSection)),
    (Call::Status(4), stands!(InSection)),
    (Call::TakeNext(3), Answer::Taken(Some(0))),
    (Call::Append(4, false), Answer::Done),
    (Call::Store(3, 1), Answer::Done),
    (Call::Leave(3), Answer::Done),
    (Call::UnparkAll(19, 1), Answer::Number(1)),
    (Call::UnparkAll(4, 1), BUSY),
    (Call::Leave(4), Answer::Done),
    (Call::UnparkAll(4, 1), Answer::Number(1)),
    (Call::IsQueue(3, &[1]), IS),
];

/// Buckets grow in no section.
const GROWN_LATER: &[Line] = &[
    (Call::Enter(3, 4), Answer::Done),
    (Call::Register, Answer::Number(4)),
    (Call::Register, BUSY),
    (Call::Status(5), Answer::Stands(None)),
    (Call::Buckets, Answer::Number(16)),
    (Call::Leave(3), Answer::Done),
    (Call::Register, Answer::Number(5)),
    (Call::Buckets, Answer::Number(32)),
    (Call::Enter(3, 4), Answer::Done),
    (Call::Register, Answer::Number(6)),
    (Call::Register, Answer::Number(7)),
    (Call::Register, FULL),
];

/// That there are too many threads is told first.
const FULL_FIRST: &[Line] = &[
    (Call::Enter(3, 4), Answer::Done),
    (Call::Register, FULL),
    (Call::Leave(3), Answer::Done),
    (Call::Register, FULL),
];

const ALL: RequeueOp = RequeueOp::RequeueAll;

/// A requeue enters two buckets.
const TWO_ENTERED: &[Line] = &[
    (Call::Enter(3, 4), Answer::Done),
    (Call::Requeue(3, 4, ALL), BUSY),
    (Call::Requeue(3, 20, ALL), BUSY),
    (Call::Requeue(20, 3, ALL), BUSY),
    (Call::RequeueCounting(3, 20, ALL), BUSY),
    (Call::IsQueue(3, &[0, 1]), IS),
    (Call::Requeue(3, 19, ALL), took!(0, 2, false)),
    (Call::IsQueue(3, &[]), IS),
    (Call::IsQueue(19, &[2, 0, 1]), IS),
];

/// Thread 1 was moved from key 5 to key 3, and taken there, before its deadline.
const MOVED_AND_TAKEN: &[Line] = &[
    (Call::ParkTimed(1, 5), WAITS),
    (
        Call::Requeue(5, 3, RequeueOp::RequeueOne),
        took!(0, 1, false),
    ),
    (Call::Enter(0, 3), Answer::Done),
    (Call::TakeNext(0), Answer::Taken(Some(1))),
    (Call::Store(0, 4), Answer::Done),
    (Call::Leave(0), Answer::Done),
    (Call::Deadline(1), Answer::Done),
];

/// A taken thread comes back by the bucket of its list.
const COMES_BACK: &[Line] = &[
    (Call::ComeBack(1, 5), WRONG),
    (Call::ComeBack(1, 19), WRONG),
    (Call::Enter(2, 19), Answer::Done),
    (Call::ComeBack(1, 3), BUSY),
    (Call::Resume(1), BUSY),
    (Call::Leave(2), Answer::Done),
    (Call::Enter(2, 5), Answer::Done),
    (Call::ComeBack(1, 3), Answer::Done),
    (Call::Enter(0, 19), BUSY),
    (Call::Quit(1), Answer::Left(Some(UnparkToken(4)))),
    (Call::Leave(1), Answer::Done),
];

const PLAYS: &[Play] = &[
    ("grown", 8, 5, ONE_BUCKET, GROWN),
    ("kept out", 8, 5, ONE_BUCKET, KEPT_OUT),
    ("grown later", 8, 4, ONE_BUCKET, GROWN_LATER),
    ("two entered", 8, 5, ONE_BUCKET, TWO_ENTERED),
    ("full first", 5, 5, ONE_BUCKET, FULL_FIRST),
    ("comes back", 8, 3, MOVED_AND_TAKEN, COMES_BACK),
];

#[test]
fn sections_and_growths_are_of_buckets(rt: HostRuntime) -> Result<(), Fail> {
    follow_each(&rt, PLAYS)
}

/// The thread that stands there in a key's list.
fn at(lot: &Lot<&Heap>, key: usize, nth: usize) -> Option<usize> {
    Some(lot.waiter(key, nth)?.thread)
}

/// Whether both lists of `ONE_BUCKET` stand, and there are so many buckets.
fn stands(lot: &Lot<&Heap>, buckets: usize) -> bool {
    let first = at(lot, 3, 0) == Some(0) && at(lot, 3, 1) == Some(1) && lot.count(3) == 2;
    let other = at(lot, 19, 0) == Some(2) && lot.count(19) == 1;
    first && other && lot.buckets() == buckets
}

/// Registers so many threads, of which the first stand as in `ONE_BUCKET`.
fn fill(lot: &mut Lot<&Heap>, threads: usize) -> Option<()> {
    for _thread in 0..threads {
        lot.register().ok()?;
    }
    for (thread, key) in [(0, 3), (1, 3), (2, 19)] {
        lot.park(thread, key, || true, DEFAULT_PARK_TOKEN, false)
            .ok()?;
    }
    Some(())
}

/// A registration behind so many, which makes these buckets of those.
#[derive(Clone, Copy)]
struct Next(usize, usize, usize);

impl Next {
    /// Registers the next. Where it is refused it has changed nothing, and it is registered then.
    fn register(self, heap: &Heap, lot: &mut Lot<&Heap>) -> Option<Seen> {
        let Next(threads, fewer, more) = self;
        fill(lot, threads)?;
        let before = heap.asked();
        let said = lot.register();
        let behind = heap.asked();
        let is_done = said == Ok(threads);
        let is_short = said == Err(LotFault::NoMemory) && lot.status(threads).is_none();
        let is_kept = stands(lot, if is_done { more } else { fewer });
        let again = is_done || lot.register() == Ok(threads);
        let fits = Said::of(is_done, is_short).fits(heap);
        Seen::of(
            before,
            behind,
            fits && is_kept && again && stands(lot, more),
        )
    }
}

impl<R: Drop> Case<R> for Next {
    fn run(self, _rt: R, heap: &Heap) -> Option<Seen> {
        match Lot::new(heap, 40, 7) {
            Ok(mut lot) => self.register(heap, &mut lot),
            Err(_) => None,
        }
    }
}

const NEXTS: &[Next] = &[
    Next(5, 16, 32),
    Next(8, 32, 32),
    Next(10, 32, 64),
    Next(16, 64, 64),
];

#[test]
fn a_refused_growth_changes_nothing(rt: HostRuntime) {
    for next in NEXTS {
        let refused = make_in_turn(rt, rt.alloc(), *next).unwrap_or(0);
        let threads = next.0;
        assert!(rt; refused == 3, "behind {threads}: {refused} growths");
    }
}

/// Whether the sixth thread is refused as `Busy` while a section is open, with no growth asked for, and behind it for
/// want of memory.
fn is_told_last(heap: &Heap, lot: &mut Lot<&Heap>) -> Option<bool> {
    fill(lot, 5)?;
    lot.enter(3, 4).ok()?;
    let inside = lot.register() == Err(LotFault::Busy) && heap.refused() == 0;
    lot.leave(3).ok()?;
    Some(inside && lot.register() == Err(LotFault::NoMemory) && stands(lot, 16))
}

/// How many growths five threads ask for.
const FIVE_ASK: u64 = 8;

#[test]
fn want_of_memory_is_told_last(rt: HostRuntime) -> Result<(), Fail> {
    let heap = RefusingHeap::new(rt.alloc(), Refusal::Onwards(FIVE_ASK + 1));
    let mut lot = Lot::new(&heap, 40, 7)?;
    let told = is_told_last(&heap, &mut lot);
    let asked = heap.asked();
    assert!(rt; told == Some(true), "{asked} growths");
    Ok(())
}
