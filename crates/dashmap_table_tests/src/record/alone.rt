//! One caller after another.

use crate::record::calls::{Fold, Numbers, make};
use dashmap_record::{Call, CallReply, Caller, RecordFault, Recorded, gather};
use dashmap_table::MapFault;
use lock_api_spin::PackedLock;
use refusing_heap::{Refusal, RefusingHeap, each_growth};
use std::alloc::Global;
use std::sync::Wait;
use std::test::Fail;

/// A map of numbers over locks of one word each.
pub type Map<R, A> = Numbers<PackedLock<R>, A>;

/// A map with its callers.
pub type Made<R, A> = (Map<R, A>, Vec<Caller<u64, u64, A>, A>);

/// A map of two shards with so many callers.
fn made_of<R: Copy + Drop>(
    rt: R,
    alloc: Global,
    callers: usize,
) -> Result<Made<R, Global>, MapFault> {
    Recorded::new(alloc, 2, Fold::new(), callers, rt)
}

#[test]
fn an_odd_amount_of_shards_is_refused(rt: HostRuntime) {
    for shards in [0, 1, 3, 131_072] {
        let made: Result<Made<HostRuntime, Global>, MapFault> = Recorded::new(
            rt.alloc(),
            shards,
            Fold::new(),
            2,
            rt,
        );
        assert!(rt; made.err() == Some(MapFault::BadShards), "{shards} shards");
    }
}

/// Calls, and what they reply.
const CALLS: [(Call<u64, u64>, CallReply<u64, u64>); 8] = [
    (Call::Insert(1, 5), CallReply::None),
    (Call::ReplaceIf(1, 5, 6), CallReply::Flag(true)),
    (Call::ReplaceIf(1, 5, 6), CallReply::Flag(false)),
    (Call::GetCopied(1), CallReply::Value(6)),
    (Call::Insert(1, 7), CallReply::Value(6)),
    (Call::Remove(1), CallReply::Pair(1, 7)),
    (Call::Remove(1), CallReply::None),
    (Call::GetCopied(1), CallReply::None),
];

#[test]
fn each_call_is_written_down(rt: HostRuntime) -> Result<(), Fail> {
    let (map, mut callers) = made_of(rt, rt.alloc(), 1)?;
    let mut me = callers.pop().ok_or("no caller")?;
    for (call, reply) in CALLS {
        assert!(rt; make(&map, call, &mut me, &mut 1) == Ok(reply), "{call:?}");
    }
    assert!(rt; me.number() == 0 && me.last() == 8);
    let mut logs = Vec::new(rt.alloc());
    logs.push(me.log())?;
    let all = gather(rt.alloc(), map.histories(), logs, &Fold::new())?;
    assert!(rt; all.len() == 8);
    for (entry, (call, reply)) in all.iter().zip(CALLS.iter()) {
        let is_so = entry.call == *call && entry.reply == *reply && entry.caller == 0;
        assert!(rt; is_so, "{call:?}");
    }
    Ok(())
}

/// Makes the calls in that heap. One that is refused a growth writes nothing down and is made again, and replies then as
/// its row says. Fails with the number of the first call that replies otherwise.
fn run_again<R: Wait + Copy + Drop>(rt: R, heap: &RefusingHeap<Global>) -> Result<(), usize> {
    let made: Result<Made<R, &RefusingHeap<Global>>, MapFault> = Recorded::new(
        heap,
        2,
        Fold::new(),
        1,
        rt,
    );
    let Ok((map, mut callers)) = made else {
        return if heap.refused() == 1 { Ok(()) } else { Err(0) };
    };
    let mut me = callers.pop().ok_or(0usize)?;
    for (at, (call, reply)) in CALLS.iter().enumerate() {
        let refused = heap.refused();
        let mut said = make(&map, *call, &mut me, &mut 1);
        if heap.refused() > refused {
            let is_left = said == Err(RecordFault::NoMemory) && me.last() == at as u64;
            said = make(&map, *call, &mut me, &mut 1);
            if !is_left {
                return Err(at);
            }
        }
        if said != Ok(*reply) {
            return Err(at);
        }
    }
    let is_written = me.last() == CALLS.len() as u64 && me.log().len() == CALLS.len();
    if is_written { Ok(()) } else { Err(CALLS.len()) }
}

#[test]
fn a_call_that_was_refused_a_growth_is_made_again(rt: HostRuntime) -> Result<(), Fail> {
    let growths = each_growth(
        rt.alloc(),
        Refusal::Once(1),
        100,
        |heap| run_again(rt, heap),
    )?;
    assert!(rt; growths > 8, "{growths} growths");
    Ok(())
}

#[test]
fn stamps_rise_above_both_lasts(rt: HostRuntime) -> Result<(), Fail> {
    let (map, mut callers) = made_of(rt, rt.alloc(), 2)?;
    let mut second = callers.pop().ok_or("no caller")?;
    let mut first = callers.pop().ok_or("no caller")?;
    let look = Call::GetCopied(1);
    let mut right = true;
    for _turn in 0..3 {
        right &= make(&map, look, &mut first, &mut 1) == Ok(CallReply::None);
    }
    right &= make(&map, look, &mut second, &mut 1) == Ok(CallReply::None) && second.last() == 4;
    right &= make(&map, look, &mut first, &mut 1) == Ok(CallReply::None) && first.last() == 5;
    assert!(rt; right && first.number() == 0 && second.number() == 1);
    Ok(())
}

/// Calls that a caller without stamps is refused.
const SPENT: [Call<u64, u64>; 4] = [
    Call::Insert(1, 6),
    Call::Remove(1),
    Call::GetCopied(1),
    Call::ReplaceIf(1, 5, 6),
];

#[test]
fn a_caller_without_stamps_adds_nothing(rt: HostRuntime) -> Result<(), Fail> {
    let (map, _) = made_of(rt, rt.alloc(), 0)?;
    let mut me = Caller::after(rt.alloc(), 0, u64::MAX - 1);
    let last = make(&map, Call::Insert(1, 5), &mut me, &mut 1);
    assert!(rt; last == Ok(CallReply::None));
    let mut other = Caller::after(rt.alloc(), 1, 0);
    for call in SPENT {
        let refused = make(&map, call, &mut me, &mut 1);
        assert!(rt; refused == Err(RecordFault::StampsSpent), "{call:?}");
        let refused = make(&map, call, &mut other, &mut 1);
        assert!(rt;
            refused == Err(RecordFault::StampsSpent),
            "{call:?} on a shard"
        );
    }
    assert!(rt; me.last() == u64::MAX && me.log().len() == 1 && other.log().is_empty());
    let mut entries = 0usize;
    for history in map.histories() {
        entries = entries.wrapping_add(history.len());
    }
    assert!(rt; entries == 1);
    Ok(())
}

#[test]
fn refusals_have_numbers_and_names(rt: HostRuntime) -> Result<(), Fail> {
    let faults = [
        (RecordFault::StampsSpent, 41, "StampsSpent"),
        (RecordFault::NoMemory, 99, "NoMemory"),
    ];
    for (fault, code, name) in faults {
        let shown = format!(in rt.alloc(); "{fault} {fault:?}")?;
        let wanted = format!(in rt.alloc(); "{name} {name}")?;
        assert!(rt; (fault.code() == code) & (shown == wanted), "{name}");
    }
    Ok(())
}
