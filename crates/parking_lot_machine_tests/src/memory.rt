//! The locks of shards on heaps of all small sizes: each growth refused in turn.

use linked_list_allocator::LocalHeap;
use lock_api_desk::Mode;
use mapworld_state::locks::ShardLocks;
use parking_lot_core_model::SizeFault;
use parking_lot_machine::LockCall as RowCall;
use std::test::Fail;

/// Makes the locks of two shards, and takes one by a try. Answers whether it is held then.
fn shards_are_run(heap: &LocalHeap) -> Result<bool, SizeFault> {
    let mut locks = ShardLocks::new(heap, 2, 2)?;
    if locks.may_ask(1, 1, RowCall::TryWrite) {
        locks.begin(1, 1, RowCall::TryWrite);
    }
    for _ in 0..20 {
        if locks.can_move(1) && locks.ended(1).is_none() {
            locks.step(1, false);
        }
    }
    Ok(locks.owner(1, 1) == Some(Mode::Exclusive))
}

#[test]
fn locks_without_memory_are_refused(rt: HostRuntime) -> Result<(), Fail> {
    let mut refused = false;
    let mut made = false;
    for size in 0..200usize {
        let heap = LocalHeap::new(rt.alloc(), size.saturating_mul(16))?;
        let run = shards_are_run(&heap);
        let is_refused = run == Err(SizeFault::NoMemory);
        assert!(rt; (run == Ok(true)) | (is_refused & !made), "{size} units");
        refused = refused | is_refused;
        made = made | !is_refused;
    }
    assert!(rt; refused & made);
    Ok(())
}
