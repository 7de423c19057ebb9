//! Projections to the first of two fields, to the inside of an option and to an element of a list.

use crate::steps::all_right;
use lock_api::{At, First, Inside};
use lock_api_raw::{Projection, Then, TotalProjection};
use std::test::Fail;

#[test]
fn a_field_is_read_and_written(rt: HostRuntime) {
    let mut pair = (1u64, 2u64);
    let got = First.get(&pair).copied() == Some(1);
    let set = First.set(&mut pair, 9) == Some(1);
    let written = pair == (9, 2);
    let whole = *First.part(&pair) == 9;
    if let Some(part) = <First as Projection<(u64, u64)>>::get_mut(&mut pair, &First) {
        *part += 1;
    }
    all_right(&rt, &[got, set, written, whole, pair == (10, 2)]);
}

#[test]
fn the_inside_of_an_option_may_be_missing(rt: HostRuntime) {
    let mut none: Option<u64> = None;
    let missing = Inside.get(&none).copied() == None;
    let unset = Inside.set(&mut none, 5) == None;
    let mut one = Some(1u64);
    let set = Inside.set(&mut one, 5) == Some(1);
    all_right(&rt, &[missing, unset, none == None, set, one == Some(5)]);
}

#[test]
fn an_element_of_a_list_may_be_missing(rt: HostRuntime) -> Result<(), Fail> {
    let mut list = vec![in rt.alloc(); 4u64, 5, 6]?;
    let got = At(2).get(&list).copied() == Some(6);
    let set = At(1).set(&mut list, 9) == Some(5);
    let unset = At(3).set(&mut list, 7) == None;
    all_right(
        &rt,
        &[got, set, unset, list.as_slice() == [4, 9, 6].as_slice()],
    );
    Ok(())
}

#[test]
fn one_projection_follows_another(rt: HostRuntime) {
    let by = Then::new(First, Inside);
    let mut pair = (Some(1u64), 2u64);
    let set = by.set(&mut pair, 7) == Some(1);
    let got = by.get(&pair).copied() == Some(7);
    let mut none: (Option<u64>, u64) = (None, 2);
    let unset = by.set(&mut none, 7) == None;
    let twice = Then::new(First, First);
    let part = *twice.part(&((3u64, 4u64), 5u64)) == 3;
    let written = pair == (Some(7), 2);
    all_right(&rt, &[set, written, got, unset, none == (None, 2), part]);
}
