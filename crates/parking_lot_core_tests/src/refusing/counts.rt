//! Which growths are refused and counted, by one thread and by two.

use super::{Items, push_all};
use refusing_heap::{Heap, Refusal, RefusingHeap};
use std::test::Fail;
use std::thread;

/// Which of three growths are made.
fn made(heap: &Heap) -> [bool; 3] {
    let one = Box::new(heap, 1u8).is_ok();
    let two = Box::new(heap, 2u8).is_ok();
    [one, two, Box::new(heap, 3u8).is_ok()]
}

#[test]
fn growths_are_numbered_from_1(rt: HostRuntime) {
    for (refusal, answers, refused) in &[
        (Refusal::Once(2), [true, false, true], 1),
        (Refusal::Onwards(2), [true, false, false], 2),
    ] {
        let heap = RefusingHeap::new(rt.alloc(), *refusal);
        let is_so = made(&heap) == *answers;
        assert!(rt; is_so && heap.asked() == 3 && heap.refused() == *refused);
    }
}

#[test]
fn a_block_shrinks_and_is_not_counted(rt: HostRuntime) -> Result<(), Fail> {
    let heap = RefusingHeap::new(rt.alloc(), Refusal::Onwards(2));
    let mut items: Items<'_> = Vec::new(&heap);
    items.reserve(10)?;
    items.push(7)?;
    items.shrink_to_fit();
    let first = heap.asked() == 1 && heap.refused() == 0;
    let full = items.reserve(10).is_err() && heap.asked() == 2 && heap.refused() == 1;
    assert!(rt; first && full && items.last() == Some(&7));
    Ok(())
}

#[test]
fn one_growth_of_two_threads_is_refused(rt: HostRuntime) -> Result<(), Fail> {
    let heap = RefusingHeap::new(rt.alloc(), Refusal::Once(4));
    let (one, two) = thread::join(&rt, || push_all(&heap, 40), || push_all(&heap, 40));
    let refused = one?.wrapping_add(two?);
    assert!(rt; refused == 1 && heap.refused() == 1);
    Ok(())
}
