//! Shards and pairs of a map that is given up.

use crate::maps::map_of;
use dashmap_plain::Plain;
use dashmap_table::{SpreadState, is_shard_amount, route};
use std::hash::BuildHasher;
use std::test::Fail;

/// The shard of a hash, of four.
fn shard_of(hash: u64) -> usize {
    if is_shard_amount(4) {
        route(hash, 4)
    } else {
        0
    }
}

#[test]
fn the_shards_of_a_map_have_its_pairs_in_their_order(rt: HostRuntime) -> Result<(), Fail> {
    let map = map_of(rt, 100)?;
    let shards = map.into_shards();
    let mut right = shards.len() == 4;
    for key in 0..100u64 {
        let hash = SpreadState.hash_one(&key);
        right &= match shards.get(shard_of(hash)) {
            Some(shard) => shard.find(hash, &key).is_some(),
            None => false,
        };
    }
    assert!(rt; right);
    Ok(())
}

#[test]
fn the_pairs_of_a_map_come_once_each_shards_in_order(rt: HostRuntime) -> Result<(), Fail> {
    let map = map_of(rt, 100)?;
    let mut sum = 0u64;
    let mut pairs = 0u64;
    let mut last = 0;
    let mut right = true;
    for (key, value) in map.into_iter() {
        let shard = shard_of(SpreadState.hash_one(&key));
        right &= last <= shard && value == key.wrapping_mul(2);
        last = shard;
        pairs = pairs.wrapping_add(1);
        sum = sum.wrapping_add(key);
    }
    assert!(rt; right && pairs == 100 && sum == 4950 && last > 0);
    Ok(())
}

#[test]
fn a_map_without_pairs_gives_none(rt: HostRuntime) -> Result<(), Fail> {
    let mut pairs = map_of(rt, 0)?.into_iter();
    assert!(rt; pairs.next().is_none() && pairs.next().is_none());
    Ok(())
}
