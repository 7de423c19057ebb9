//! The map's calls and walks by their underscored names.

use crate::tables::{Lock, Word, map_of};
use dashmap::Map;
use dashmap_calls::Numbers;
use dashmap_iter::walks::Walks;
use dashmap_table::{MapFault, SpreadState};
use lock_api_raw::{MakeLock, RawRwLock};
use std::alloc::{Allocator, Global};
use std::hash::BuildHasher;
use std::sync::Wait;
use std::test::Fail;

/// Uses the calls that give no guard on any map with the pair 7 and 1 alone. It is without pairs and without room
/// afterwards.
fn uses_values<M: Map<u64, u64, SpreadState>>(
    map: &M,
    me: &mut <M::Lock as RawRwLock>::Party,
) -> bool
where
    <M::Lock as RawRwLock>::Runtime: Wait,
{
    map._alter(&7, |_, value| value.wrapping_mul(70), me);
    let mut right = (map._len(me) == 1) & !map._is_empty(me) & (map._capacity(me) >= 1);
    right = right & map._contains_key(&7, me) & !map._contains_key(&8, me);
    right = right & (map._view(&7, |_, value| *value, me) == Some(70));
    right = right & map._remove_if(&7, |_, value| *value == 1, me).is_none();
    right = right & (map._remove_if_mut(&7, |_, value| *value == 70, me) == Some((7, 70)));
    right = right & (map._insert(7, 2, me) == Ok(None)) & (map._remove(&7, me) == Some((7, 2)));
    right & map._shrink_to_fit(me).is_ok() & (map._capacity(me) == 0) & (map._shard_count() == 4)
}

/// Uses the calls that give entries on a map without pairs. It has the pair 7 and 1 afterwards.
fn uses_entries<S: BuildHasher, Q: Lock, A: Allocator + Clone>(
    map: &Numbers<S, Q, A>,
    me: &mut Q::Party,
) -> bool {
    let is_added = match map._entry(7, me) {
        Ok(entry) => *entry.or_insert(1) == 1,
        Err(_) => false,
    };
    match map._try_entry(7) {
        Ok(Some(entry)) => is_added & (entry.into_key() == 7),
        Ok(None) | Err(_) => false,
    }
}

/// Uses the calls that give guards on a map with the pair of 7 alone.
fn uses_guards<S: BuildHasher, Q: Lock, A: Allocator + Clone>(
    map: &Numbers<S, Q, A>,
    me: &mut Q::Party,
) -> bool {
    let mut right = map._get(&8, me).is_none();
    right &= map._get_mut(&7, me).is_some();
    right &= map._try_get(&7).is_present();
    right & map._try_get_mut(&8).is_absent()
}

/// Uses all of these on a new map.
fn uses_all<T: Copy, Q: Lock + MakeLock<T>>(table: T, alloc: Global, me: &mut Q::Party) -> bool {
    let made: Result<Numbers<SpreadState, Q, Global>, MapFault> = map_of(table, alloc, 4);
    match made {
        Ok(map) => {
            let mut right = uses_entries(&map, me) & uses_guards(&map, me);
            right &= uses_values(&map, me);
            right & matches!(map._hasher(), Ok(SpreadState))
        }
        Err(_) => false,
    }
}

#[test]
fn the_trait_calls_the_map(rt: HostRuntime) -> Result<(), Fail> {
    assert!(rt; uses_all::<_, Word>(rt, rt.alloc(), &mut 1));
    Ok(())
}

/// Uses walks on an empty map, which is empty again then.
fn uses_walks<Q: Lock>(map: &mut Numbers<SpreadState, Q, Global>, me: &mut Q::Party) -> bool {
    let mut right = map.extend((0..100u64).map(|key| (key, key))).is_ok();
    map._retain(|key, _| *key % 2 == 1, me);
    map._alter_all(|key, value| value.wrapping_add(*key), me);
    right &= map.len(me) == 50 && !map.contains_key(&10, me);
    right &= map.view(&11, |_, value| *value, me) == Some(22);
    map._clear(me);
    right & map.is_empty(me)
}

/// The same on a new map.
fn uses_walks_of_new<T: Copy, Q: Lock + MakeLock<T>>(
    table: T,
    alloc: Global,
    me: &mut Q::Party,
) -> bool {
    let made: Result<Numbers<SpreadState, Q, Global>, MapFault> = map_of(table, alloc, 8);
    match made {
        Ok(mut map) => uses_walks(&mut map, me),
        Err(_) => false,
    }
}

#[test]
fn walks_by_their_underscored_names_do_the_same(rt: HostRuntime) -> Result<(), Fail> {
    assert!(rt; uses_walks_of_new::<_, Word>(rt, rt.alloc(), &mut 1));
    Ok(())
}
