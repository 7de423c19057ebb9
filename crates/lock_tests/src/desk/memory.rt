//! Memory that is refused.
use crate::steps::all_right;
use linked_list_allocator::LocalHeap;
use lock_api_desk::{Desk, DeskFault, Mode, TokenTable};
use std::alloc::AllocError;
use std::test::Fail;

/// Takes what is left of a heap.
fn hoard(heap: &LocalHeap) -> Vec<u8, &LocalHeap> {
    let mut taken = Vec::new(heap);
    for _ in 0..5000 {
        if taken.push(0).is_err() {
            break;
        }
    }
    taken
}

#[test]
fn a_first_guard_without_memory_is_refused(rt: HostRuntime) -> Result<(), Fail> {
    let heap = LocalHeap::new(rt.alloc(), 0)?;
    let mut desk = Desk::new(&heap, TokenTable::new(9), 0_u64);
    all_right(
        &rt,
        &[
            desk.reserve(1) == Err(DeskFault::NoMemory),
            desk.write(1, 1) == Err(DeskFault::NoMemory),
            desk.held(1) == None,
            desk.unlock(1, 1) == Err(DeskFault::NoSuchGuard),
            desk.reserve(0) == Ok(()),
        ],
    );
    Ok(())
}

#[test]
fn a_guard_within_the_reserve_takes_no_memory(rt: HostRuntime) -> Result<(), Fail> {
    let heap = LocalHeap::new(rt.alloc(), 4000)?;
    let mut desk = Desk::new(&heap, TokenTable::new(9), 0_u64);
    let reserved = desk.reserve(1) == Ok(());
    let _hoard = hoard(&heap);
    all_right(
        &rt,
        &[
            reserved,
            desk.write(1, 1) == Ok(()),
            desk.set_aside(1, 1) == Ok(()),
            desk.take_up(1, 1) == Ok(()),
            desk.unlock(1, 1) == Ok(()),
            desk.read(1, 2) == Ok(()),
        ],
    );
    Ok(())
}

/// Reads under new guards, from the first on, until one is refused. Answers that one and why.
fn first_refused<'h>(
    desk: &mut Desk<TokenTable, u64, &'h LocalHeap>,
) -> (u64, Result<(), DeskFault>) {
    for guard in 1..60 {
        let asked = desk.read(1, guard);
        if asked.is_err() {
            return (guard, asked);
        }
    }
    (0, Ok(()))
}

#[test]
fn a_second_growth_without_memory_is_refused(rt: HostRuntime) -> Result<(), Fail> {
    let heap = LocalHeap::new(rt.alloc(), 4000)?;
    let mut desk = Desk::new(&heap, TokenTable::new(99), 5_u64);
    let reserved = desk.reserve(1) == Ok(());
    let hoard = hoard(&heap);
    let (guard, fault) = first_refused(&mut desk);
    all_right(
        &rt,
        &[
            reserved & (guard > 1),
            fault == Err(DeskFault::NoMemory),
            desk.held(guard) == None,
            desk.unlock(1, guard) == Err(DeskFault::NoSuchGuard),
            desk.reserve(1) == Err(DeskFault::NoMemory),
            desk.held(1) == Some((Mode::Shared, 1)),
            desk.read_value(1, 1) == Ok(&5),
            desk.unlock(1, 1) == Ok(()),
            desk.read(1, guard) == Ok(()),
            desk.held(guard) == Some((Mode::Shared, 1)),
        ],
    );
    drop(hoard);
    all_right(&rt, &[desk.read(1, 1) == Ok(()), *desk.value() == 5]);
    Ok(())
}
