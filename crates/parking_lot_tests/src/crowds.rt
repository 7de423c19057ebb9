//! Four threads that take a lock in many rounds beside each other.

use crate::calls::{How, Round};
use crate::stage::{Kind, crowd};
use std::test::Fail;

/// A wait that gives up after 20 microseconds.
const SHORT: How = How::For(20);

/// Each round adds 1 under one hold, or under a second one that is nested in it.
const ADDS: &[Round] = &[Round::Adds(How::Waits)];

const NESTS: &[Round] = &[Round::Nests];

/// Each second round upgrades, and the others read.
const UPGRADES: &[Round] = &[
    Round::Upgrades(How::Waits, How::Waits),
    Round::Reads(How::Waits),
];

/// Each eighth round writes and reads that as it becomes a reader, another one writes, and the others read.
const WRITES_AND_READS: &[Round] = &[
    Round::AddsAndReads,
    Round::Reads(How::Waits),
    Round::Reads(How::Waits),
    Round::Reads(How::Waits),
    Round::Adds(How::Waits),
    Round::Reads(How::Waits),
    Round::Reads(How::Waits),
    Round::Reads(How::Waits),
];

#[test]
fn four_threads_exclude_each_other(rt: HostRuntime) -> Result<(), Fail> {
    let alloc = rt.alloc();
    let locked = crowd(rt, alloc, "a mutex", Kind::Plain, ADDS, 25_000)?;
    assert!(rt; locked == 100_000);
    let nested = crowd(rt, alloc, "nested", Kind::Reentrant, NESTS, 5_000)?;
    assert!(rt; nested == 20_000);
    let upgraded = crowd(rt, alloc, "upgrades", Kind::ReadWrite(9), UPGRADES, 2_500)?;
    assert!(rt; upgraded == 10_000);
    for limit in [1, 2, 100] {
        let kind = Kind::ReadWrite(limit);
        let written = crowd(rt, alloc, "writers", kind, WRITES_AND_READS, 3_125)?;
        assert!(rt; written == 25_000, "{limit} readers");
    }
    Ok(())
}

#[test]
fn a_try_that_is_refused_keeps_nothing(rt: HostRuntime) -> Result<(), Fail> {
    let alloc = rt.alloc();
    let adds = [Round::AddsAt(How::Tries, 1)];
    crowd(rt, alloc, "a mutex", Kind::Plain, &adds, 25_000)?;
    let tries = [Round::Reads(How::Tries), Round::AddsAt(How::Tries, 8)];
    crowd(rt, alloc, "a lock", Kind::ReadWrite(100), &tries, 25_000)?;
    Ok(())
}

#[test]
fn four_threads_that_give_up_exclude_each_other(rt: HostRuntime) -> Result<(), Fail> {
    let alloc = rt.alloc();
    let adds = [Round::Adds(SHORT)];
    let added = crowd(rt, alloc, "a mutex", Kind::Plain, &adds, 2_000)?;
    let all = [
        Round::Adds(SHORT),
        Round::Upgrades(SHORT, SHORT),
        Round::Reads(SHORT),
    ];
    let upgraded = crowd(rt, alloc, "a lock", Kind::ReadWrite(9), &all, 667)?;
    assert!(rt; (added > 0) & (upgraded > 0));
    Ok(())
}

#[test]
fn each_guard_finds_what_the_one_before_left(rt: HostRuntime) -> Result<(), Fail> {
    let alloc = rt.alloc();
    let writes = [Round::Writes(How::Waits)];
    let locked = crowd(rt, alloc, "a mutex", Kind::Plain, &writes, 50)?;
    let reads = [Round::Writes(How::Waits), Round::Rereads(How::Waits)];
    let written = crowd(rt, alloc, "a lock", Kind::ReadWrite(5), &reads, 50)?;
    assert!(rt; (locked == 200) & (written == 200));
    Ok(())
}
