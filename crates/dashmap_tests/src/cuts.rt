//! Which shards each piece visits, and in which order.

use crate::noted::{NotedLock, Numbers};
use dashmap_map::{DashMap, NewFault};
use dashmap_parallel::{NoThreadData, ParExtendFault, ParallelMap, par_extend_shared};
use std::hash::RandomState;
use std::sync::atomic::AtomicU64;
use std::test::Fail;

/// A map of numbers whose locks note who took them.
type Noted<R> = DashMap<u64, u64, RandomState, NotedLock<R>>;

/// An empty map of eight shards, whose locks have the numbers 1 to 8.
fn eight(rt: HostRuntime) -> Result<Noted<HostRuntime>, NewFault> {
    let next = AtomicU64::new(1);
    DashMap::with_shard_amount(rt.alloc(), 8, Numbers { rt, next: &next })
}

/// The key `k` with twice itself, for each `k` below an amount.
fn doubles(rt: HostRuntime, amount: u64) -> Result<Vec<(u64, u64)>, Fail> {
    let mut pairs = Vec::new(rt.alloc());
    for key in 0..amount {
        pairs.push((key, key.wrapping_mul(2)))?;
    }
    Ok(pairs)
}

#[test]
fn eight_shards_are_cut_3_3_2(rt: HostRuntime) -> Result<(), Fail> {
    let map = eight(rt)?;
    let mut parties = [0u64; 3];
    map.par_iter(&mut parties)?
        .for_each(&rt, |_: &u64, _: &u64| {});
    let mut right = parties == [123, 456, 78];
    let mut parties = [0u64; 3];
    let answers = map
        .par_iter(&mut parties)?
        .map_collect(&rt, rt.alloc(), |_: &u64, value: &u64| *value)?;
    right &= parties == [123, 456, 78] && answers.is_empty();
    let mut parties = [0u64; 5];
    map.par_iter_mut_shared(&mut parties)?
        .for_each(&rt, |_: &u64, _: &mut u64| {});
    right &= parties == [12, 34, 56, 7, 8];
    assert!(rt; right);
    Ok(())
}

#[test]
fn each_pair_goes_to_its_piece_in_order(rt: HostRuntime) -> Result<(), Fail> {
    let map = eight(rt)?;
    let mut parties = [0u64; 3];
    let mut expected = [0u64; 3];
    let pairs = doubles(rt, 16)?;
    for (key, _) in &pairs {
        let shard = map.determine_map(key);
        let piece = if shard < 6 { shard / 3 } else { 2 };
        let digits = expected[piece].wrapping_mul(10);
        expected[piece] = digits.wrapping_add(shard as u64).wrapping_add(1);
    }
    let mut right = par_extend_shared(&map, &rt, pairs, &mut parties) == Ok(());
    right &= parties == expected;
    for key in 0..16 {
        right &= map.remove(&key, &mut 0) == Some((key, key * 2));
    }
    assert!(rt; right);
    Ok(())
}

#[test]
fn a_later_pair_of_a_key_replaces_its_value(rt: HostRuntime) -> Result<(), Fail> {
    let map = eight(rt)?;
    let mut parties = [0u64; 3];
    let mut pairs = Vec::new(rt.alloc());
    pairs.push((1, 1))?;
    pairs.push((1, 2))?;
    let mut right = par_extend_shared(&map, &rt, pairs, &mut parties) == Ok(());
    let values = map
        .par_iter(&mut parties)?
        .map_collect(&rt, rt.alloc(), |_: &u64, value: &u64| *value)?;
    right &= values.as_slice() == [2].as_slice();
    assert!(rt; right);
    Ok(())
}

#[test]
fn nobodys_data_is_refused(rt: HostRuntime) -> Result<(), Fail> {
    let map = eight(rt)?;
    let refused = map.par_iter(&mut []).err();
    let mut right = refused == Some(NoThreadData) && NoThreadData.code() == 34;
    right &= map.par_iter_mut_shared(&mut []).err() == Some(NoThreadData);
    let refused = par_extend_shared(&map, &rt, doubles(rt, 16)?, &mut []);
    right &= refused == Err(ParExtendFault::NoThreadData);
    right &= map.is_empty(&mut 0);
    right &= ParExtendFault::NoThreadData.code() == 34 && ParExtendFault::NoMemory.code() == 99;
    let said = format!(in rt.alloc();
        "{NoThreadData} {} {}",
        ParExtendFault::NoThreadData,
        ParExtendFault::NoMemory
    )?;
    right &= said.as_str() == "NoThreadData NoThreadData NoMemory";
    assert!(rt; right);
    Ok(())
}
