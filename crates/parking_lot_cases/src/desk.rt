//! The desk of a lock.

use crate::memory::Memory;
use lock_api_desk::{Desk, DeskCall, DeskFault, DeskRunFault, TokenTable};
use refusing_heap::{Case, Heap, Line, Said, Seen};

type Small<A> = Desk<TokenTable, u64, A>;

const LISTED: u64 = 12;

/// A call on a desk that nobody has asked yet, by its name. An acquisition is by party 1 as guard 1.
#[derive(Clone, Copy)]
pub enum Call {
    New,
    Reserve,
    Lock,
    TryLock,
    Read,
    TryRead,
    Write,
    TryWrite,
    UpgradableRead,
    TryUpgradableRead,
    /// A list of reads, as guards 1, 2, ..
    Run,
}

/// Makes a call that isn't a list.
fn made<A: Memory>(desk: &mut Small<A>, call: Call) -> Result<(), DeskFault> {
    match call {
        Call::Reserve => desk.reserve(9),
        Call::Lock => desk.lock(1, 1),
        Call::TryLock => desk.try_lock(1, 1),
        Call::Read => desk.read(1, 1),
        Call::TryRead => desk.try_read(1, 1),
        Call::Write => desk.write(1, 1),
        Call::TryWrite => desk.try_write(1, 1),
        Call::UpgradableRead => desk.upgradable_read(1, 1),
        Call::TryUpgradableRead => desk.try_upgradable_read(1, 1),
        Call::New | Call::Run => Ok(()),
    }
}

/// How many of the guards 1, 2, .. are held.
fn held<A: Memory>(desk: &Small<A>) -> u64 {
    let mut count = 0u64;
    for guard in 1..LISTED + 1 {
        if desk.held(guard).is_some() {
            count = count.wrapping_add(1);
        }
    }
    count
}

/// Whether nothing is held, and a writer is let in and out.
fn is_free<A: Memory>(desk: &mut Small<A>) -> bool {
    held(desk) == 0 && desk.write(7, 70).is_ok() && desk.unlock(7, 70).is_ok()
}

/// What came of a list: as many reads as it tells were made and hold, and no others.
fn of_run<A: Memory>(desk: &Small<A>, said: Result<(), DeskRunFault>) -> Said {
    match said {
        Ok(()) => Said::of(held(desk) == LISTED, false),
        Err(fault) => {
            let first = fault.place as u64;
            let is_next = desk.held(first.saturating_add(1)).is_none();
            let is_short = fault.fault == DeskFault::NoMemory;
            Said::of(false, is_short && held(desk) == first && is_next)
        }
    }
}

/// The reads of the guards 1, 2, ..
fn reads<A: Memory>(alloc: A) -> Option<Vec<DeskCall<u64>, A>> {
    let mut calls = Vec::new(alloc);
    for guard in 1..LISTED + 1 {
        calls.push(DeskCall::Read(1, guard)).ok()?;
    }
    Some(calls)
}

/// Runs a list of reads.
fn run_reads<A: Memory>(heap: &Heap, alloc: A, desk: &mut Small<A>) -> Option<Seen> {
    let calls = reads(alloc)?;
    let before = heap.asked();
    let said = desk.run(calls);
    of_run(desk, said).seen(heap, before, true)
}

/// Makes a call that isn't a list, and looks at the desk. So many growths were asked for before it was made.
fn ask<A: Memory>(heap: &Heap, desk: &mut Small<A>, call: Call, before: u64) -> Option<Seen> {
    let said = made(desk, call);
    let behind = heap.asked();
    let said = match said {
        Ok(()) => Said::Done,
        Err(fault) => Said::of(false, fault == DeskFault::NoMemory && is_free(desk)),
    };
    Seen::of(before, behind, said.fits(heap) && *desk.value() == 5)
}

fn on_desk<A: Memory>(heap: &Heap, alloc: A, call: Call) -> Option<Seen> {
    let before = heap.asked();
    let mut desk: Small<A> = Desk::new(alloc, TokenTable::new(99), 5);
    match call {
        Call::Run => run_reads(heap, alloc, &mut desk),
        _ => ask(heap, &mut desk, call, before),
    }
}

impl<R: Drop> Case<R> for Call {
    fn run(self, _rt: R, heap: &Heap) -> Option<Seen> {
        on_desk(heap, heap, self)
    }
}

const FREE: &str = "no guard, nobody kept out, the value";

const BEFORE: &str = "the calls before it, and its place is told";

pub const LINES: &[Line<Call>] = &[
    ("new", Call::New, "takes none"),
    ("reserve", Call::Reserve, FREE),
    ("lock", Call::Lock, FREE),
    ("try_lock", Call::TryLock, FREE),
    ("read", Call::Read, FREE),
    ("try_read", Call::TryRead, FREE),
    ("write", Call::Write, FREE),
    ("try_write", Call::TryWrite, FREE),
    ("upgradable_read", Call::UpgradableRead, FREE),
    ("try_upgradable_read", Call::TryUpgradableRead, FREE),
    ("run, of 12 reads", Call::Run, BEFORE),
];
