//! Which calls are refused to whom.

use parking_lot_machine::{Hold, LockCall, LockKind};
use std::process::Abort;

/// Whether a reader, an owner and who owns nothing may ask that of such a lock.
fn may_ask(kind: LockKind, call: LockCall) -> [bool; 3] {
    [
        Hold::Shares(1).allows(kind, call),
        Hold::Excludes.allows(kind, call),
        Hold::Shares(0).allows(kind, call),
    ]
}

#[test]
fn who_owns_a_lock_only_gives_it_up(rt: HostRuntime) {
    let table = [
        (LockCall::Lock, [false, false, true]),
        (LockCall::TryLock, [false, false, true]),
        (LockCall::LockUntil, [false, false, true]),
        (LockCall::ReadUntil, [false, false, true]),
        (LockCall::WriteUntil, [false, false, true]),
        (LockCall::UpgradableUntil, [false, false, true]),
        (LockCall::UpgradeUntil, [false, false, false]),
        (LockCall::Read, [false, false, true]),
        (LockCall::TryRead, [false, false, true]),
        (LockCall::Write, [false, false, true]),
        (LockCall::TryWrite, [false, false, true]),
        (LockCall::Unlock, [false, true, false]),
        (LockCall::UnlockWrite, [false, true, false]),
        (LockCall::Downgrade, [false, true, false]),
        (LockCall::UnlockRead, [true, false, false]),
    ];
    for (call, may) in table {
        assert!(rt; may_ask(LockKind::Rw, call) == may, "{call:?}");
        assert!(rt; may_ask(LockKind::FairMutex, call) == may, "{call:?}");
    }
}

#[test]
fn readers_of_a_recursive_lock_read_again(rt: HostRuntime) {
    let table = [
        (LockCall::Read, [true, false, true]),
        (LockCall::TryRead, [true, false, true]),
        (LockCall::ReadUntil, [true, false, true]),
        (LockCall::Write, [false, false, true]),
        (LockCall::TryWrite, [false, false, true]),
        (LockCall::UnlockWrite, [false, true, false]),
        (LockCall::Downgrade, [false, true, false]),
        (LockCall::UnlockRead, [true, false, false]),
    ];
    for (call, may) in table {
        assert!(rt; may_ask(LockKind::RwRecursive, call) == may, "{call:?}");
    }
    let most = Hold::Shares(254).allows(LockKind::RwRecursive, LockCall::Read);
    let more = Hold::Shares(255).allows(LockKind::RwRecursive, LockCall::Read);
    assert!(rt; most & !more, "255 holds");
}
