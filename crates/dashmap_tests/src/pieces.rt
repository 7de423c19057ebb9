//! Parallel forms of what a map becomes, and plain shards that are extended.

use crate::maps::{has_all, map_of, view_of};
use dashmap_map::DashMap;
use dashmap_plain::{ExtendShards, Plain, Unlocked, from_par_iter, par_extend, par_extend_shards};
use dashmap_table::{Shards, SpreadState};
use lock_api_spin::PackedLock;
use std::sync::atomic::{AtomicU64, Ordering};
use std::test::Fail;

#[test]
fn a_view_answers_in_pieces_as_one_thread_would(rt: HostRuntime) -> Result<(), Fail> {
    let view = view_of(rt, 100)?;
    let doubles = view
        .par_iter()
        .map_collect(&rt, rt.alloc(), |_: &u64, value: &u64| *value)?;
    let mut right = doubles.len() == 100;
    let mut number = 0usize;
    for value in view.values() {
        right &= doubles.get(number) == Some(value);
        number = number.wrapping_add(1);
    }
    let sum = AtomicU64::new(0);
    view.into_par_iter().for_each(&rt, |key: u64, value: u64| {
        sum.fetch_add(key.wrapping_add(value), Ordering::SeqCst);
    });
    assert!(rt; right && sum.load(Ordering::SeqCst) == 14_850);
    Ok(())
}

#[test]
fn a_map_is_given_up_in_pieces(rt: HostRuntime) -> Result<(), Fail> {
    let calls = AtomicU64::new(0);
    let sum = AtomicU64::new(0);
    map_of(rt, 100)?
        .into_par_iter()
        .for_each(&rt, |key: u64, value: u64| {
            calls.fetch_add(1, Ordering::SeqCst);
            sum.fetch_add(key.wrapping_add(value), Ordering::SeqCst);
        });
    assert!(rt; calls.load(Ordering::SeqCst) == 100 && sum.load(Ordering::SeqCst) == 14_850);
    Ok(())
}

#[test]
fn each_value_of_a_map_that_is_taken_apart_is_written(rt: HostRuntime) -> Result<(), Fail> {
    let mut open = Unlocked::of(map_of(rt, 100)?);
    open.par_write(
        &rt,
        |key: &u64, value: &mut u64| *value = key.wrapping_mul(3),
    );
    open.par_write(
        &rt,
        |key: &u64, value: &mut u64| *value = value.wrapping_sub(*key),
    );
    let map = open.into_map();
    assert!(rt; has_all(&map, 100));
    Ok(())
}

#[test]
fn each_value_of_a_map_that_is_lent_is_written(rt: HostRuntime) -> Result<(), Fail> {
    let mut map = map_of(rt, 100)?;
    let calls = AtomicU64::new(0);
    map.par_iter_mut()
        .for_each(&rt, |key: &u64, value: &mut u64| {
            calls.fetch_add(1, Ordering::SeqCst);
            *value = key.wrapping_mul(3);
        });
    let mut me = 1;
    let mut right = calls.load(Ordering::SeqCst) == 100 && map.len(&mut me) == 100;
    for key in 0..100u64 {
        right &= map.view(&key, |_, value| *value, &mut me) == Some(key.wrapping_mul(3));
    }
    assert!(rt; right);
    Ok(())
}

#[test]
fn a_map_is_lent_and_used_again(rt: HostRuntime) -> Result<(), Fail> {
    let mut map = map_of(rt, 20)?;
    map.par_iter_mut()
        .for_each(&rt, |_: &u64, value: &mut u64| *value = 0);
    let mut right = map.insert_mut(20, 40)? == None;
    map.par_iter_mut().for_each(
        &rt,
        |key: &u64, value: &mut u64| *value = key.wrapping_mul(2),
    );
    right &= has_all(&map, 21);
    assert!(rt; right);
    Ok(())
}

/// A map of small numbers on four shards.
type Small = DashMap<u64, u64, SpreadState, PackedLock<HostRuntime>>;

#[test]
fn a_later_pair_of_an_equal_key_replaces_the_value(rt: HostRuntime) -> Result<(), Fail> {
    let pairs = vec![in rt.alloc(); (1u64, 1u64), (1, 2)]?;
    let one: Small = DashMap::from_iter(rt.alloc(), pairs.into_iter(), SpreadState, 2, rt)?;
    let pairs = vec![in rt.alloc(); (1u64, 1u64), (1, 2)]?;
    let two: Small = from_par_iter(rt.alloc(), pairs, SpreadState, 2, rt)?;
    let mut right = true;
    for made in [one, two] {
        let Ok(view) = made.into_read_only() else {
            return Err("no view".into());
        };
        let values = view
            .par_iter()
            .map_collect(&rt, rt.alloc(), |_: &u64, value: &u64| *value)?;
        right &= values.len() == 1 && values.get(0) == Some(&2);
    }
    assert!(rt; right);
    Ok(())
}

#[test]
fn a_map_is_extended_by_a_list_in_its_order(rt: HostRuntime) -> Result<(), Fail> {
    let mut map = map_of(rt, 3)?;
    let pairs = vec![in rt.alloc(); (3u64, 9u64), (1, 7), (3, 6), (1, 2)]?;
    let right = par_extend(&mut map, pairs) == Ok(());
    assert!(rt; right && has_all(&map, 4));
    Ok(())
}

#[test]
fn plain_shards_are_extended_by_a_list(rt: HostRuntime) -> Result<(), Fail> {
    let mut shards: Shards<u64, u64, SpreadState> = Shards::new(rt.alloc(), 4, SpreadState)?;
    let pairs = vec![in rt.alloc(); (1u64, 1u64), (2, 2), (1, 3)]?;
    let mut right = par_extend_shards(&mut shards, pairs) == Ok(());
    right &= shards.remove(&1) == Some((1, 3)) && shards.remove(&2) == Some((2, 2));
    assert!(rt; right && shards.remove(&1) == None);
    Ok(())
}

#[test]
fn plain_shards_take_pairs_one_after_another(rt: HostRuntime) -> Result<(), Fail> {
    let mut shards: Shards<u64, u64, SpreadState> = Shards::new(rt.alloc(), 4, SpreadState)?;
    let pairs = vec![in rt.alloc(); (1u64, 1u64), (2, 2), (1, 3)]?;
    let mut right = shards.extend(pairs.into_iter()) == Ok(());
    right &= shards.remove(&1) == Some((1, 3)) && shards.remove(&2) == Some((2, 2));
    assert!(rt; right && shards.remove(&1) == None);
    Ok(())
}
