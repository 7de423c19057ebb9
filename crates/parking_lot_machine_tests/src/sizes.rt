//! How many threads and locks there may be, and how refusals are named.

use mapworld_state::locks::ShardLocks;
use parking_lot_core_model::SizeFault;
use parking_lot_world::{LockKind, World, WorldFault, WorldRefusal};
use std::test::Fail;

#[test]
fn worlds_have_a_least_and_a_greatest_size(rt: HostRuntime) -> Result<(), Fail> {
    for (threads, locks) in [(0, 1), (65_537, 1), (1, 0), (1, (1 << 20) + 1)] {
        let kinds = vec![in rt.alloc(); LockKind::Rw; locks]?;
        let fault = World::new(rt.alloc(), threads, kinds).err();
        let is_refused = fault == Some(SizeFault::BadSize);
        assert!(rt; is_refused, "{threads} threads, {locks} locks");
    }
    Ok(())
}

#[test]
fn shard_locks_have_a_least_and_a_greatest_size(rt: HostRuntime) {
    let table = [
        (1, 1, true),
        (300, 1, true),
        (1, 300, true),
        (0, 1, false),
        (1, 0, false),
        (65_537, 1, false),
        (1, 1_048_577, false),
    ];
    for (threads, shards, made) in table {
        let is_made = ShardLocks::new(rt.alloc(), threads, shards).is_ok();
        assert!(rt; is_made == made, "{threads} threads, {shards} shards");
    }
}

#[test]
fn refusals_have_codes_and_names(rt: HostRuntime) -> Result<(), Fail> {
    let table = [
        (WorldRefusal::NoSuchThread, 61, "NoSuchThread"),
        (WorldRefusal::CannotMove, 62, "CannotMove"),
    ];
    for (refusal, code, name) in table {
        let fault = WorldFault {
            done: 3,
            fault: refusal,
        };
        let text = format!(in rt.alloc(); "{refusal} {fault}")?;
        let both = format!(in rt.alloc(); "{name} {name}")?;
        let is_named = text.as_str() == both.as_str();
        assert!(rt;
            is_named & (refusal.code() == code) & (fault.code() == code),
            "{name}"
        );
    }
    Ok(())
}
