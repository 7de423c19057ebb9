//! All schedules of two threads with two calls each, of which one at least has a deadline at a reader-writer lock.

use super::upgrades::{READERS, READERS_ONCE, TRYING, UPGRADABLES, WAITING, WRITERS};
use super::{
    READS_IN_TIME, TRIES_TO_READ, TRIES_TO_WRITE, UPGRADABLE_IN_TIME, WRITES_IN_TIME, search,
};
use parking_lot_explorer::Pairs::{Among, Between};
use parking_lot_explorer::programs::Program;
use parking_lot_world::LockCall;
use parking_lot_world::LockKind::{Rw, RwRecursive};
use std::test::Fail;

/// Each two calls of one that asks with a deadline to read or to write.
const IN_TIME: [Program; 2] = [READS_IN_TIME, WRITES_IN_TIME];

/// Each two calls, the first of which asks with a deadline for the upgradable hold.
const UPGRADABLES_IN_TIME: [Program; 5] = [
    UPGRADABLE_IN_TIME,
    calls!(UpgradableUntil, Upgrade),
    calls!(UpgradableUntil, TryUpgrade),
    calls!(UpgradableUntil, UpgradeUntil),
    calls!(UpgradableUntil, DowngradeUpgradable),
];

/// Each two calls, the second of which upgrades with a deadline a hold that has none.
const UPGRADES_IN_TIME: [Program; 2] = [
    calls!(UpgradableRead, UpgradeUntil),
    calls!(TryUpgradableRead, UpgradeUntil),
];

/// Each two calls of one that tries, and gives up what it has.
const TRIES: [Program; 3] = [
    TRIES_TO_READ,
    TRIES_TO_WRITE,
    calls!(TryUpgradableRead, UnlockUpgradable),
];

/// Calls with deadlines at a recursive lock: of one that reads again, that reads, that writes, and that has the
/// upgradable hold.
const AT_A_RECURSIVE_LOCK: [Program; 5] = [
    calls!(ReadUntil, ReadUntil),
    READS_IN_TIME,
    WRITES_IN_TIME,
    UPGRADABLE_IN_TIME,
    calls!(UpgradableRead, UpgradeUntil),
];

#[test]
fn of_deadlines(rt: HostRuntime) -> Result<(), Fail> {
    search(
        &rt,
        &[
            // Deadlines beside tries.
            (Rw, &[Between(&IN_TIME, &TRIES)], 4_200),
            // Deadlines beside upgradable holds.
            (Rw, &[Between(&IN_TIME, &UPGRADABLES)], 16_300),
            // An upgrade with a deadline beside readers.
            (
                Rw,
                &[
                    Between(&UPGRADES_IN_TIME, &[READS_IN_TIME]),
                    Between(&UPGRADES_IN_TIME, &READERS_ONCE),
                ],
                5_500,
            ),
            // An upgrade with a deadline beside writers.
            (
                Rw,
                &[
                    Between(&UPGRADES_IN_TIME, &[WRITES_IN_TIME]),
                    Between(&UPGRADES_IN_TIME, &WRITERS),
                ],
                10_700,
            ),
            // An upgrade with a deadline beside upgradable holds.
            (
                Rw,
                &[
                    Among(&UPGRADES_IN_TIME),
                    Between(&UPGRADES_IN_TIME, &UPGRADABLES),
                ],
                13_600,
            ),
        ],
    )
}

#[test]
fn of_upgradable_holds_with_deadlines(rt: HostRuntime) -> Result<(), Fail> {
    search(
        &rt,
        &[
            // An upgradable hold with a deadline beside writers.
            (
                Rw,
                &[
                    Between(&UPGRADABLES_IN_TIME, &[WRITES_IN_TIME]),
                    Between(&UPGRADABLES_IN_TIME, &WRITERS),
                ],
                44_600,
            ),
            // Two upgradable holds with deadlines.
            (Rw, &[Among(&UPGRADABLES_IN_TIME)], 23_500),
            // A hold and an upgrade with deadlines.
            (
                Rw,
                &[Between(&UPGRADABLES_IN_TIME, &UPGRADES_IN_TIME)],
                9_400,
            ),
            // An upgradable hold with a deadline beside one that waits.
            (Rw, &[Between(&UPGRADABLES_IN_TIME, &WAITING)], 29_800),
            // An upgradable hold with a deadline beside one that tries.
            (Rw, &[Between(&UPGRADABLES_IN_TIME, &TRYING)], 19_300),
        ],
    )
}

#[test]
fn of_deadlines_at_a_recursive_lock(rt: HostRuntime) -> Result<(), Fail> {
    search(
        &rt,
        &[
            // Deadlines at a recursive lock.
            (RwRecursive, &[Among(&AT_A_RECURSIVE_LOCK)], 15_700),
            // Deadlines beside who reads again.
            (
                RwRecursive,
                &[Between(&AT_A_RECURSIVE_LOCK, &READERS)],
                12_200,
            ),
            // Deadlines beside writers at a recursive lock.
            (
                RwRecursive,
                &[Between(&AT_A_RECURSIVE_LOCK, &WRITERS)],
                32_400,
            ),
        ],
    )
}
