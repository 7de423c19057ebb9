//! Growths refused in turn.

use super::check;
use refusing_heap::{EachGrowthFault, Refusal, each_growth};
use std::test::Fail;

#[test]
fn each_growth_of_a_vector_is_refused_in_turn(rt: HostRuntime) -> Result<(), Fail> {
    let mut runs = 0u64;
    let refused = each_growth(rt.alloc(), Refusal::Once(1), 20, |heap| {
        runs = runs.wrapping_add(1);
        check(heap, 40)
    })?;
    assert!(rt; refused == 5 && runs == 6);
    let at_most_six = each_growth(rt.alloc(), Refusal::Once(1), 6, |heap| check(heap, 40))?;
    assert!(rt; at_most_six == 5);
    Ok(())
}

#[test]
fn the_turns_end(rt: HostRuntime) -> Result<(), Fail> {
    let ended = each_growth(rt.alloc(), Refusal::Once(1), 5, |heap| check(heap, 40));
    assert!(rt; ended == Err(EachGrowthFault::Endless));
    Ok(())
}

#[test]
fn what_the_check_says_is_told_with_its_growth(rt: HostRuntime) -> Result<(), Fail> {
    let told = each_growth(rt.alloc(), Refusal::Onwards(2), 20, |heap| {
        if heap.refusal() == Refusal::Onwards(4) {
            Err("the fourth")
        } else {
            check(heap, 40)
        }
    });
    assert!(rt; told == Err(EachGrowthFault::Wrong(Refusal::Onwards(4), "the fourth")));
    Ok(())
}
