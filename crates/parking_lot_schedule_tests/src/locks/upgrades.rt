//! All schedules of two threads with two calls each, of which one at least makes an upgradable call.

use super::{DOWNGRADES, READS, TRIES_TO_READ, TRIES_TO_WRITE, UPGRADABLE, WRITES, search};
use parking_lot_explorer::Pairs::{Among, Between};
use parking_lot_explorer::programs::Program;
use parking_lot_world::LockCall;
use parking_lot_world::LockKind::{Rw, RwRecursive};
use std::test::Fail;

/// Each two calls, the first of which waits for the upgradable hold.
pub const WAITING: [Program; 4] = [
    UPGRADABLE,
    calls!(UpgradableRead, Upgrade),
    calls!(UpgradableRead, TryUpgrade),
    calls!(UpgradableRead, DowngradeUpgradable),
];

/// Each two calls, the first of which tries to get it.
pub const TRYING: [Program; 4] = [
    calls!(TryUpgradableRead, UnlockUpgradable),
    calls!(TryUpgradableRead, Upgrade),
    calls!(TryUpgradableRead, TryUpgrade),
    calls!(TryUpgradableRead, DowngradeUpgradable),
];

/// All of them.
pub const UPGRADABLES: [Program; 8] = [
    UPGRADABLE,
    calls!(UpgradableRead, Upgrade),
    calls!(UpgradableRead, TryUpgrade),
    calls!(UpgradableRead, DowngradeUpgradable),
    calls!(TryUpgradableRead, UnlockUpgradable),
    calls!(TryUpgradableRead, Upgrade),
    calls!(TryUpgradableRead, TryUpgrade),
    calls!(TryUpgradableRead, DowngradeUpgradable),
];

/// Each two calls of one that has the lock alone, and goes on with the upgradable hold.
const TURNED: [Program; 2] = [
    calls!(Write, DowngradeToUpgradable),
    calls!(TryWrite, DowngradeToUpgradable),
];

/// Each two calls of one that writes, without an upgradable one.
pub const WRITERS: [Program; 4] = [
    WRITES,
    TRIES_TO_WRITE,
    DOWNGRADES,
    calls!(TryWrite, Downgrade),
];

/// Each two calls of one that reads once.
pub const READERS_ONCE: [Program; 2] = [READS, TRIES_TO_READ];

/// Each two calls of one that reads again.
pub const READERS: [Program; 4] = [
    calls!(Read, Read),
    calls!(Read, TryRead),
    calls!(TryRead, Read),
    calls!(TryRead, TryRead),
];

/// Three calls of one that goes on alone, or with the upgradable hold, and gives that up.
const GIVEN_UP: [Program; 3] = [
    calls!(UpgradableRead, Upgrade, UnlockWrite),
    calls!(UpgradableRead, TryUpgrade, UnlockWrite),
    calls!(TryWrite, DowngradeToUpgradable, UnlockUpgradable),
];

#[test]
fn of_upgradable_holds(rt: HostRuntime) -> Result<(), Fail> {
    search(
        &rt,
        &[
            // Two upgradable holds.
            (Rw, &[Among(&UPGRADABLES)], 25_100),
            // A writer that turns.
            (
                Rw,
                &[Among(&TURNED), Between(&TURNED, &UPGRADABLES)],
                13_300,
            ),
            // An upgradable hold beside others.
            (
                Rw,
                &[
                    Between(&UPGRADABLES, &READERS_ONCE),
                    Between(&UPGRADABLES, &WRITERS),
                ],
                36_400,
            ),
            // A writer that turns beside others.
            (
                Rw,
                &[Between(&TURNED, &READERS_ONCE), Between(&TURNED, &WRITERS)],
                10_900,
            ),
            // What is given up again.
            (
                Rw,
                &[Between(&GIVEN_UP, &[UPGRADABLE, READS, WRITES])],
                16_300,
            ),
        ],
    )
}

#[test]
fn of_upgradable_holds_at_a_recursive_lock(rt: HostRuntime) -> Result<(), Fail> {
    search(
        &rt,
        &[
            // An upgradable hold beside who reads again.
            (RwRecursive, &[Between(&UPGRADABLES, &READERS)], 13_300),
            // A writer that turns beside who reads again.
            (RwRecursive, &[Between(&TURNED, &READERS)], 5_800),
            // Two upgradable holds at a recursive lock.
            (RwRecursive, &[Among(&UPGRADABLES)], 25_100),
            // An upgradable hold beside writers at a recursive lock.
            (RwRecursive, &[Between(&UPGRADABLES, &WRITERS)], 31_200),
        ],
    )
}
