//! Walks over views.

use crate::views::view_of;
use std::test::Fail;

#[test]
fn a_walk_lends_each_pair_once(rt: HostRuntime) -> Result<(), Fail> {
    let view = view_of(rt.alloc(), 100)?;
    let mut seen = [false; 100];
    let mut right = true;
    for (key, value) in view.iter() {
        match seen.get_mut(*key as usize) {
            Some(place) => {
                right &= !*place && *value == key.wrapping_mul(2);
                *place = true;
            }
            None => right = false,
        }
    }
    assert!(rt; right && seen.iter().all(|place| *place));
    Ok(())
}

#[test]
fn keys_and_values_come_in_the_order_of_pairs(rt: HostRuntime) -> Result<(), Fail> {
    let view = view_of(rt.alloc(), 50)?;
    let mut keys = view.keys();
    let mut values = view.values();
    let mut right = true;
    for (key, value) in view.iter() {
        right &= keys.next() == Some(key) && values.next() == Some(value);
    }
    right &= keys.next().is_none() && values.next().is_none();
    assert!(rt; right && keys.next().is_none());
    Ok(())
}

#[test]
fn a_view_that_is_given_up_yields_its_pairs_in_the_same_order(rt: HostRuntime) -> Result<(), Fail> {
    let mut keys = Vec::new(rt.alloc());
    let view = view_of(rt.alloc(), 50)?;
    for key in view.keys() {
        keys.push(*key)?;
    }
    let mut pairs = view.into_iter();
    let mut right = keys.len() == 50;
    for key in keys {
        right &= pairs.next() == Some((key, key.wrapping_mul(2)));
    }
    right &= pairs.next().is_none();
    assert!(rt; right && pairs.next().is_none());
    Ok(())
}

#[test]
fn the_order_of_a_walk_is_that_of_the_shards(rt: HostRuntime) -> Result<(), Fail> {
    let view = view_of(rt.alloc(), 60)?;
    let mut walk = view.iter();
    let mut right = true;
    for shard in view.shards() {
        for slot in 0..shard.slots() {
            if let Some(pair) = shard.pair(slot) {
                right &= walk.next() == Some(pair);
            }
        }
    }
    assert!(rt; right && walk.next().is_none());
    Ok(())
}
