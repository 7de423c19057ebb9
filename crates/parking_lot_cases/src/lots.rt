//! The lot, with threads and without, and the table of locks on it.

use crate::memory::{Memory, is_done, listed};
use parking_lot_core::{
    DEFAULT_PARK_TOKEN, Lot, LotFault, ParkingLot, SizeFault, ThreadData, deadlock,
};
use parking_lot_rwlock::LockTable;
use refusing_heap::{Case, Heap, Line, Said, Seen, made};
use std::sync::Wait;

const MOST: usize = 40;

/// A call on a lot.
#[derive(Clone, Copy)]
pub enum Call {
    New,
    /// Behind so many registrations.
    Register(usize),
    /// Of a thread that has three resources.
    AcquireResource,
    Resources,
    Queue,
}

/// Registers so many threads, of which the first gets the resource 9 and waits under the key 5, and the second gets
/// three.
fn fill<A: Memory>(lot: &mut Lot<A>, threads: usize) -> Option<()> {
    for thread in 0..threads {
        lot.register().ok()?;
        let last = if thread > 0 { 12 } else { 10 };
        for key in 9..last {
            lot.acquire_resource(thread, key).ok()?;
        }
    }
    if threads > 0 {
        lot.park(0, 5, || true, DEFAULT_PARK_TOKEN, false).ok()?;
    }
    Some(())
}

/// Whether a thread has so many resources.
fn has<A: Memory>(lot: &Lot<A>, thread: usize, resources: usize) -> bool {
    is_done(listed(lot.resources(thread), resources, LotFault::NoMemory))
}

fn make<A: Memory>(lot: &mut Lot<A>, call: Call) -> Said {
    match call {
        Call::Register(threads) => {
            let buckets = lot.buckets();
            match lot.register() {
                Ok(thread) => Said::of(thread == threads, false),
                Err(fault) => {
                    let is_free = lot.status(threads).is_none() && lot.buckets() == buckets;
                    Said::of(false, fault == LotFault::NoMemory && is_free)
                }
            }
        }
        Call::Resources => listed(lot.resources(0), 1, LotFault::NoMemory),
        Call::Queue => listed(lot.queue(5), 1, LotFault::NoMemory),
        Call::New | Call::AcquireResource => made(lot.acquire_resource(1, 8), LotFault::NoMemory),
    }
}

/// Makes a call. A refused one is made again, and is answered then as if it hadn't been made before. A list may do
/// with less memory than it asks for first.
fn ask<A: Memory>(heap: &Heap, lot: &mut Lot<A>, call: Call) -> Option<Seen> {
    let (threads, second) = match call {
        Call::Register(threads) => (threads, 3),
        Call::AcquireResource => (2, 4),
        _ => (2, 3),
    };
    fill(lot, threads)?;
    let before = heap.asked();
    let said = make(lot, call);
    let behind = heap.asked();
    let fits = match call {
        Call::Resources | Call::Queue => said.may_fit(heap),
        _ => said.fits(heap),
    };
    let is_whole = fits && (is_done(said) || is_done(make(lot, call)));
    let is_kept = threads == 0 || (has(lot, 0, 1) && is_done(make(lot, Call::Queue)));
    let is_right = is_whole && is_kept && (threads < 2 || has(lot, 1, second));
    Seen::of(before, behind, is_right)
}

/// Makes a call on a new lot.
fn with_new<A: Memory>(heap: &Heap, lot: Result<Lot<A>, SizeFault>, call: Call) -> Option<Seen> {
    match lot {
        Ok(mut lot) => ask(heap, &mut lot, call),
        Err(_) => None,
    }
}

fn run<A: Memory>(heap: &Heap, alloc: A, call: Call) -> Option<Seen> {
    let before = heap.asked();
    let lot = Lot::new(alloc, MOST, 7);
    match call {
        Call::New => made(lot, SizeFault::NoMemory).seen(heap, before, true),
        _ => with_new(heap, lot, call),
    }
}

impl<R: Drop> Case<R> for Call {
    fn run(self, _rt: R, heap: &Heap) -> Option<Seen> {
        run(heap, heap, self)
    }
}

/// A call on a lot of threads, or on a table of locks.
#[derive(Clone, Copy)]
pub enum SharedCall {
    New,
    /// Behind so many.
    ThreadData(usize),
    AcquireResource,
    Resources,
    LockTable,
}

fn admitted<R: Wait, A: Memory>(lot: &ParkingLot<R, A>) -> Result<usize, LotFault> {
    match lot.thread_data() {
        Ok(me) => Ok(me.thread_number()),
        Err(fault) => Err(fault),
    }
}

fn admit<R: Wait, A: Memory>(heap: &Heap, lot: &ParkingLot<R, A>, threads: usize) -> Option<Seen> {
    for _ in 0..threads {
        admitted(lot).ok()?;
    }
    let before = heap.asked();
    let said = admitted(lot);
    let behind = heap.asked();
    let is_short = said == Err(LotFault::NoMemory) && admitted(lot) == Ok(threads);
    let is_right = Said::of(said == Ok(threads), is_short).fits(heap);
    Seen::of(before, behind, is_right)
}

/// Records a resource of a thread.
fn note<A: Memory>(heap: &Heap, me: &mut ThreadData<A>) -> Option<Seen> {
    let before = heap.asked();
    let said = made(deadlock::acquire_resource(me, 9), LotFault::NoMemory);
    let behind = heap.asked();
    let count = if is_done(said) { 1 } else { 0 };
    let list = listed(deadlock::resources(me), count, LotFault::NoMemory);
    Seen::of(before, behind, said.fits(heap) && is_done(list))
}

/// Lists the resource of a thread, which may do with less memory than it asks for first.
fn list<A: Memory>(heap: &Heap, me: &mut ThreadData<A>) -> Option<Seen> {
    if deadlock::acquire_resource(me, 9).is_err() {
        return None;
    }
    let before = heap.asked();
    let said = listed(deadlock::resources(me), 1, LotFault::NoMemory);
    let behind = heap.asked();
    let again = listed(deadlock::resources(me), 1, LotFault::NoMemory);
    Seen::of(before, behind, said.may_fit(heap) && is_done(again))
}

/// Makes a call on a thread's data that are lent.
fn ask_thread<A: Memory>(heap: &Heap, me: &mut ThreadData<A>, call: SharedCall) -> Option<Seen> {
    match call {
        SharedCall::AcquireResource => note(heap, me),
        _ => list(heap, me),
    }
}

/// Makes a call on a new thread's data.
fn with_thread<R: Wait, A: Memory>(
    heap: &Heap,
    lot: &ParkingLot<R, A>,
    call: SharedCall,
) -> Option<Seen> {
    match lot.thread_data() {
        Ok(mut me) => ask_thread(heap, &mut me, call),
        Err(_) => None,
    }
}

/// Makes a table of three locks. A refused one has claimed no key of the lot, of which each lock has two.
fn make_table<R: Wait, A: Memory>(heap: &Heap, alloc: A, lot: &ParkingLot<R, A>) -> Option<Seen> {
    let before = heap.asked();
    let said = made(LockTable::new(alloc, lot, 3), SizeFault::NoMemory);
    let behind = heap.asked();
    let wanted = if is_done(said) { 6 } else { 0 };
    let is_right = said.fits(heap) && lot.claim_keys(2) == wanted;
    Seen::of(before, behind, is_right)
}

fn ask_shared<R: Wait, A: Memory>(
    heap: &Heap,
    alloc: A,
    lot: &ParkingLot<R, A>,
    call: SharedCall,
) -> Option<Seen> {
    match call {
        SharedCall::ThreadData(threads) => admit(heap, lot, threads),
        SharedCall::AcquireResource | SharedCall::Resources => with_thread(heap, lot, call),
        SharedCall::New | SharedCall::LockTable => make_table(heap, alloc, lot),
    }
}

/// Makes a call on a new lot of threads.
fn with_shared<R: Wait + Drop, A: Memory>(
    heap: &Heap,
    alloc: A,
    lot: Result<ParkingLot<R, A>, SizeFault>,
    call: SharedCall,
) -> Option<Seen> {
    match lot {
        Ok(lot) => ask_shared(heap, alloc, &lot, call),
        Err(_) => None,
    }
}

fn run_shared<R: Wait + Drop, A: Memory>(
    rt: R,
    heap: &Heap,
    alloc: A,
    call: SharedCall,
) -> Option<Seen> {
    let before = heap.asked();
    let lot = ParkingLot::new(rt, alloc, MOST, 7);
    match call {
        SharedCall::New => made(lot, SizeFault::NoMemory).seen(heap, before, true),
        _ => with_shared(heap, alloc, lot, call),
    }
}

impl<R: Wait + Copy + Drop> Case<R> for SharedCall {
    fn run(self, rt: R, heap: &Heap) -> Option<Seen> {
        run_shared(rt, heap, heap, self)
    }
}

const NEW: &str = "nothing is made";

const GROWN: &str = "its number is free, and the next call has it; buckets, queues, resources";

const SIXTH: SharedCall = SharedCall::ThreadData(5);

const NUMBER: &str = "its number is free, and the next call has it; queues, resources";

const OTHERS: &str = "resources, queues";

const TABLE: &str = "no key of the lot is claimed";

pub const LINES: &[Line<Call>] = &[
    ("new", Call::New, NEW),
    ("register, the first", Call::Register(0), NUMBER),
    ("register, the second", Call::Register(1), NUMBER),
    ("register, the 6th: buckets grow", Call::Register(5), GROWN),
    ("register, the 17th", Call::Register(16), NUMBER),
    ("acquire_resource", Call::AcquireResource, OTHERS),
    ("resources", Call::Resources, OTHERS),
    ("queue", Call::Queue, OTHERS),
];

pub const SHARED: &[Line<SharedCall>] = &[
    ("ParkingLot::new", SharedCall::New, NEW),
    ("thread_data, the first", SharedCall::ThreadData(0), NUMBER),
    ("thread_data, the 6th: buckets grow", SIXTH, NUMBER),
    ("thread_data, the 17th", SharedCall::ThreadData(16), NUMBER),
    (
        "deadlock::acquire_resource",
        SharedCall::AcquireResource,
        OTHERS,
    ),
    ("deadlock::resources", SharedCall::Resources, OTHERS),
    ("LockTable::new", SharedCall::LockTable, TABLE),
];
