//! All schedules of two threads at one lock, each to its end.

/// A program of two calls, and one of three.
macro_rules! calls {
    ($call:ident, $then:ident) => {
        [Some(LockCall::$call), Some(LockCall::$then), None]
    };
    ($call:ident, $then:ident, $last:ident) => {
        [
            Some(LockCall::$call),
            Some(LockCall::$then),
            Some(LockCall::$last),
        ]
    };
}

mod deadlines;
mod progress;
mod rules;
mod upgrades;
mod watch;

use parking_lot_explorer::Pairs::{self, Among, Between};
use parking_lot_explorer::programs::{End, Pair, Program};
use parking_lot_explorer::{Explorer, pairs_of};
use parking_lot_world::LockCall;
use parking_lot_world::LockKind::{self, FairMutex, Mutex, Rw, RwRecursive};
use std::process::Abort;
use std::test::Fail;
use watch::LockWatch;

const ENDS: [End; 3] = [End::Served, End::Refused, End::Waits];

/// The schedules of a pair end as they may, in each of those ways.
fn end_as_they_may(rt: &impl Abort, pair: Pair, ends: &[(End, End)], first: End) {
    for second in ENDS {
        let is_found = ends.contains(&(first, second));
        let is_right = is_found == pair.may_end(first, second);
        assert!(rt; is_right, "{first:?} and {second:?} of {pair:?}");
    }
}

/// Makes all schedules of a pair. Answers how many states there were.
fn explore(rt: &(impl AllocGlobal + Abort), kind: LockKind, pair: Pair) -> Result<u64, Fail> {
    let watch = LockWatch {
        kind,
        pair,
        waited: false,
        handed: false,
    };
    let found = Explorer::explore(rt, watch)?;
    assert!(rt; found.broken.is_none(), "{:?} of {pair:?}", found.broken);
    for first in ENDS {
        end_as_they_may(rt, pair, &found.ends, first);
    }
    let waits = found.watch.waited == pair.may_wait();
    let hands = found.watch.handed == pair.may_hand();
    assert!(rt;
        waits & hands,
        "{pair:?}: waiting {waits} and handing over {hands} are as they may be"
    );
    Ok(found.states)
}

/// A search of all schedules of some pairs of programs at a lock of that kind, and how many states it has at least.
/// Were there fewer, different ones might have been taken for one.
type Row<'s> = (LockKind, &'s [Pairs<'s, Program>], u64);

/// Makes each of the searches.
fn search(rt: &(impl AllocGlobal + Abort), searches: &[Row<'_>]) -> Result<(), Fail> {
    for (at, (kind, groups, least)) in searches.iter().enumerate() {
        let mut states = 0u64;
        for (first, second) in &pairs_of(rt.alloc(), groups)? {
            let found = explore(rt, *kind, Pair(*first, *second))?;
            states = states.saturating_add(found);
        }
        assert!(rt; states >= *least, "row {at}: {states} states");
    }
    Ok(())
}

const LOCKS: Program = calls!(Lock, Unlock);

const TRIES: Program = calls!(TryLock, Unlock);

/// A locker with a deadline.
const IN_TIME: Program = calls!(LockUntil, Unlock);

const READS: Program = calls!(Read, UnlockRead);

const TRIES_TO_READ: Program = calls!(TryRead, UnlockRead);

const READS_IN_TIME: Program = calls!(ReadUntil, UnlockRead);

const WRITES: Program = calls!(Write, UnlockWrite);

const TRIES_TO_WRITE: Program = calls!(TryWrite, UnlockWrite);

const WRITES_IN_TIME: Program = calls!(WriteUntil, UnlockWrite);

const DOWNGRADES: Program = calls!(Write, Downgrade);

const UPGRADABLE: Program = calls!(UpgradableRead, UnlockUpgradable);

const UPGRADABLE_IN_TIME: Program = calls!(UpgradableUntil, UnlockUpgradable);

#[test]
fn at_mutexes(rt: HostRuntime) -> Result<(), Fail> {
    search(
        &rt,
        &[
            // A mutex.
            (Mutex, &[Among(&[LOCKS, TRIES])], 2_000),
            // A fair mutex.
            (FairMutex, &[Among(&[LOCKS, TRIES])], 1_500),
            // Two deadlines.
            (Mutex, &[Among(&[IN_TIME])], 500),
            // A deadline and a lock.
            (Mutex, &[Between(&[IN_TIME], &[LOCKS])], 500),
            // A deadline and a try.
            (Mutex, &[Between(&[IN_TIME], &[TRIES])], 200),
            // Deadlines at a fair mutex.
            (FairMutex, &[Among(&[IN_TIME])], 500),
            // A deadline beside others at a fair mutex.
            (FairMutex, &[Between(&[IN_TIME], &[LOCKS, TRIES])], 2_000),
        ],
    )
}

/// Readers, writers, and those that make their exclusive hold a shared one.
const OF_A_LOCK: [Program; 6] = [
    READS,
    TRIES_TO_READ,
    WRITES,
    TRIES_TO_WRITE,
    DOWNGRADES,
    calls!(Write, Downgrade, UnlockRead),
];

/// Readers that read again, and others.
const OF_A_RECURSIVE_LOCK: [Program; 7] = [
    calls!(Read, Read),
    calls!(TryRead, TryRead),
    calls!(Read, TryRead, UnlockRead),
    READS,
    WRITES,
    TRIES_TO_WRITE,
    DOWNGRADES,
];

/// One that has the upgradable hold, and upgrades it until its deadline.
const UPGRADES_IN_TIME: Program = calls!(UpgradableRead, UpgradeUntil, UnlockWrite);

#[test]
fn at_reader_writer_locks(rt: HostRuntime) -> Result<(), Fail> {
    search(
        &rt,
        &[
            // A reader-writer lock.
            (Rw, &[Among(&OF_A_LOCK)], 50_000),
            // A recursive lock.
            (RwRecursive, &[Among(&OF_A_RECURSIVE_LOCK)], 26_000),
            // Deadlines of readers and writers.
            (
                Rw,
                &[
                    Among(&[READS_IN_TIME, WRITES_IN_TIME]),
                    Between(&[READS_IN_TIME, WRITES_IN_TIME], &[READS, WRITES]),
                ],
                8_000,
            ),
            // Deadlines of upgradable holds.
            (
                Rw,
                &[
                    Between(&[UPGRADES_IN_TIME], &[READS]),
                    Between(&[UPGRADABLE_IN_TIME], &[UPGRADABLE_IN_TIME, READS]),
                ],
                3_500,
            ),
        ],
    )
}
