//! Each parallel form on sets of four, eight and sixteen shards, beside the plain one.

use dashmap::set::DashSet;
use dashmap_parallel::{NoThreadData, ParExtendFault};
use dashmap_table::{MapFault, SpreadState};
use lock_api_spin::PackedLock;
use std::alloc::Global;
use std::sync::Wait;
use std::sync::atomic::{AtomicU64, Ordering};
use std::test::Fail;
use std::thread::Threads;

/// A set of numbers over locks of one word.
type Shared<R> = DashSet<u64, SpreadState, PackedLock<R>>;

/// The keys below an amount.
fn keys_below(alloc: Global, amount: u64) -> Result<Vec<u64>, Fail> {
    let mut keys = Vec::new(alloc);
    for key in 0..amount {
        keys.push(key)?;
    }
    Ok(keys)
}

/// How many keys a form visits with so many threads' data, and what they add up to.
fn visited<R: Threads + Wait + Sync + Drop>(
    rt: &R,
    set: &Shared<R>,
    parties: &mut [u32],
) -> Option<(u64, u64)> {
    let visits = AtomicU64::new(0);
    let sum = AtomicU64::new(0);
    set.par_iter(parties).ok()?.for_each(rt, |key: &u64| {
        visits.fetch_add(1, Ordering::SeqCst);
        sum.fetch_add(*key, Ordering::SeqCst);
    });
    Some((visits.load(Ordering::SeqCst), sum.load(Ordering::SeqCst)))
}

/// On a set of so many threads' shards: whether each form does with each number of threads' data what calls one by one
/// do.
fn agrees<R: Wait + Threads + Copy + Send + Sync + Drop>(
    rt: R,
    alloc: Global,
    parallelism: usize,
) -> Result<bool, Fail> {
    let made: Result<Shared<R>, MapFault> = DashSet::with_hasher(
        alloc,
        SpreadState,
        parallelism,
        rt,
    );
    let set = made?;
    let mut parties = [1u32, 2, 3, 4, 5, 6, 7, 8];
    let (three, five) = parties.split_at_mut(3);
    let mut right = set.par_extend_shared(&rt, keys_below(alloc, 100)?, three) == Ok(());
    right &= set.par_extend_shared(&rt, keys_below(alloc, 100)?, five) == Ok(());
    right &= set.len(&mut 9) == 100;
    right &= visited(&rt, &set, &mut [1]) == Some((100, 4_950));
    right &= visited(&rt, &set, &mut [1, 2]) == Some((100, 4_950));
    right &= visited(&rt, &set, &mut parties) == Some((100, 4_950));
    let lent = set
        .par_iter(&mut parties)?
        .map_collect(&rt, alloc, |key: &u64| *key)?;
    let mut last = 0;
    for key in &lent {
        let shard = set.determine_map(key);
        right &= last <= shard;
        last = shard;
    }
    let given = set.into_par_iter().map_collect(&rt, alloc, |key: u64| key)?;
    Ok(right && lent.len() == 100 && given == lent)
}

#[test]
fn forms_do_what_calls_do(rt: HostRuntime) -> Result<(), Fail> {
    let mut right = true;
    for parallelism in [1, 2, 4] {
        right &= agrees(rt, rt.alloc(), parallelism)?;
    }
    assert!(rt; right);
    Ok(())
}

#[test]
fn keys_are_given_once_each(rt: HostRuntime) -> Result<(), Fail> {
    let set: Shared<HostRuntime> = DashSet::from_par_iter(
        rt.alloc(),
        keys_below(rt.alloc(), 100)?,
        SpreadState,
        2,
        rt,
    )?;
    let visits = AtomicU64::new(0);
    let sum = AtomicU64::new(0);
    set.into_par_iter().for_each(&rt, |key: u64| {
        visits.fetch_add(1, Ordering::SeqCst);
        sum.fetch_add(key, Ordering::SeqCst);
    });
    assert!(rt; visits.load(Ordering::SeqCst) == 100 && sum.load(Ordering::SeqCst) == 4_950);
    Ok(())
}

#[test]
fn equal_keys_are_put_in_once(rt: HostRuntime) -> Result<(), Fail> {
    let keys = vec![in rt.alloc(); 1u64, 2, 1]?;
    let mut set: Shared<HostRuntime> = DashSet::from_par_iter(
        rt.alloc(),
        keys,
        SpreadState,
        2,
        rt,
    )?;
    let mut right = set.len(&mut 1) == 2;
    right &= set.par_extend(vec![in rt.alloc(); 2u64, 3]?) == Ok(());
    right &= set.len(&mut 1) == 3 && set.contains(&3, &mut 1);
    assert!(rt; right);
    Ok(())
}

#[test]
fn nobodys_data_is_refused(rt: HostRuntime) -> Result<(), Fail> {
    let set: Shared<HostRuntime> = DashSet::with_hasher(rt.alloc(), SpreadState, 2, rt)?;
    let mut right = set.par_iter(&mut []).err() == Some(NoThreadData);
    let refused = set.par_extend_shared(&rt, keys_below(rt.alloc(), 16)?, &mut []);
    right &= refused == Err(ParExtendFault::NoThreadData) && set.is_empty(&mut 1);
    assert!(rt; right);
    Ok(())
}
