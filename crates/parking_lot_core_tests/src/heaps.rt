//! Waits on a heap that is full.
use linked_list_allocator::LocalHeap;
use parking_lot_core::{DEFAULT_PARK_TOKEN, FilterOp, Lot, LotFault, RequeueOp, UnparkToken};
use std::alloc::{AllocError, Allocator, Global};
use std::test::Fail;

/// What fills the rest of a heap.
fn filling<A: Allocator + Copy + Drop>(
    alloc: Global,
    heap: A,
) -> Result<Vec<Box<u64, A>>, AllocError> {
    let mut kept = Vec::new(alloc);
    for _block in 0..10_000u32 {
        match Box::new(heap, 0u64) {
            Ok(block) => kept.push(block)?,
            Err(_) => return Ok(kept),
        }
    }
    Ok(kept)
}

/// Whether no list is told for want of memory.
fn are_short<A: Allocator + Copy + Drop>(lot: &Lot<A>) -> bool {
    let short = Some(LotFault::NoMemory);
    (lot.queue(5).err() == short) & (lot.resources(0).err() == short)
}

/// Whether one is woken and two are moved, and then woken.
fn are_woken<A: Allocator>(lot: &mut Lot<A>) -> Result<bool, LotFault> {
    let op = || RequeueOp::UnparkOneRequeueRest;
    let moved = lot.unpark_requeue(5, 6, op, |_, _| UnparkToken(1))?;
    let woken = lot.unpark_filter(6, |_| FilterOp::Unpark, |_| UnparkToken(2))?;
    let are_moved = (moved.unparked_threads == 1) & (moved.requeued_threads == 2);
    Ok(are_moved & (woken.unparked_threads == 2))
}

/// Whether the three park and all goes well where no memory is left.
fn go<A: Allocator + Copy + Drop>(lot: &mut Lot<A>) -> Result<bool, LotFault> {
    for thread in 0..3 {
        lot.park(thread, 5, || true, DEFAULT_PARK_TOKEN, false)?;
    }
    let short = are_short(lot);
    Ok(short & are_woken(lot)?)
}

/// Whether nobody is left in the list, and the resource is still recorded.
fn is_left<A: Allocator + Copy + Drop>(lot: &Lot<A>) -> Result<bool, LotFault> {
    let queue = lot.queue(6)?;
    let resources = lot.resources(0)?;
    Ok(queue.is_empty() & (resources.as_slice() == [9].as_slice()))
}

/// The same calls on a heap that is filled behind three registrations, and emptied in the end.
fn go_full<A: Allocator + Copy + Drop>(
    alloc: Global,
    heap: A,
    lot: &mut Lot<A>,
) -> Result<bool, Fail> {
    for _thread in 0..3 {
        lot.register()?;
    }
    lot.acquire_resource(0, 9)?;
    let full = filling(alloc, heap)?;
    let well = go(lot);
    drop(full);
    Ok(well? & is_left(lot)?)
}

#[test]
fn waits_take_no_memory(rt: HostRuntime) -> Result<(), Fail> {
    let heap = LocalHeap::new(rt.alloc(), 4096)?;
    let mut lot = Lot::new(&heap, 3, 7)?;
    assert!(rt; go_full(rt.alloc(), &heap, &mut lot)?);
    Ok(())
}
