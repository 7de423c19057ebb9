//! How maps are made, and what they are refused as.

use crate::tables::{Lock, Map, Row, Word, map_of};
use dashmap_calls::{Answer, Call, Keyed, Numbers, run};
use dashmap_map::{DashMap, NewFault};
use dashmap_table::{MapFault, SpreadState};
use lock_api_raw::{MakeLock, RawRwLock};
use lock_api_spin::PackedLock;
use std::alloc::Global;
use std::hash::{BuildHasher, RandomState};
use std::io;
use std::random::RandomSource;
use std::test::Fail;

/// What a map of so much room and so many shards is refused as.
fn refused<T: Copy, Q: Lock + MakeLock<T>>(
    table: T,
    alloc: Global,
    capacity: usize,
    shards: usize,
) -> Option<MapFault> {
    let made: Result<Map<Q, Global>, MapFault> = DashMap::with_capacity_and_hasher_and_shard_amount(
        alloc,
        capacity,
        SpreadState,
        shards,
        table,
    );
    made.err()
}

#[test]
fn a_shard_amount_is_a_power_of_two(rt: HostRuntime) {
    for (capacity, shards, fault) in [
        (0, 0, Some(MapFault::BadShards)),
        (0, 1, Some(MapFault::BadShards)),
        (0, 3, Some(MapFault::BadShards)),
        (0, 131_072, Some(MapFault::BadShards)),
        (usize::MAX, 4, Some(MapFault::CapacityOverflow)),
        (0, 2, None),
    ] {
        assert!(rt;
            refused::<_, Word>(rt, rt.alloc(), capacity, shards) == fault,
            "{capacity} {shards}"
        );
    }
}

/// Whether an empty map makes room for ten pairs, and none for more than there is.
fn makes_room<Q: Lock>(map: &mut Map<Q, Global>, me: &mut Q::Party) -> bool {
    let was_none = map.capacity(me) == 0;
    let is_refused = map.try_reserve(usize::MAX).is_err();
    let is_made = map.try_reserve(10).is_ok();
    was_none & is_refused & is_made & (map.len(me) == 0) & (map.capacity(me) >= 10)
}

/// Whether an empty map with room takes a pair and gives it back, and then gives its room up.
fn gives_up_room<Q: Lock>(map: &mut Map<Q, Global>, me: &mut Q::Party) -> bool {
    let is_new = map.insert_mut(1, 2) == Ok(None);
    let is_back = map.remove(&1, me) == Some((1, 2));
    let is_shrunk = map.shrink_to_fit(me).is_ok();
    is_new & is_back & is_shrunk & (map.capacity(me) == 0)
}

/// The same of a new map.
fn new_makes_room<T: Copy, Q: Lock + MakeLock<T>>(
    table: T,
    alloc: Global,
    me: &mut Q::Party,
) -> bool {
    let made: Result<Map<Q, Global>, MapFault> = map_of(table, alloc, 4);
    match made {
        Ok(mut map) => makes_room(&mut map, me) & gives_up_room(&mut map, me),
        Err(_) => false,
    }
}

#[test]
fn room_is_made_and_given_up(rt: HostRuntime) -> Result<(), Fail> {
    assert!(rt; new_makes_room::<_, Word>(rt, rt.alloc(), &mut 1));
    Ok(())
}

/// How many shards a map for so many threads has, or what it is refused as.
fn default_amount<T: Copy, Q: Lock + MakeLock<T>>(
    table: T,
    alloc: Global,
    parallelism: usize,
) -> Result<usize, MapFault> {
    let map: Map<Q, Global> = DashMap::default(alloc, SpreadState, parallelism, table)?;
    Ok(map.determine_shard(usize::MAX).wrapping_add(1))
}

#[test]
fn a_default_amount_is_four_for_each_thread(rt: HostRuntime) {
    for (threads, amount) in [
        (0, Ok(4)),
        (1, Ok(4)),
        (3, Ok(16)),
        (16_384, Ok(65_536)),
        (16_385, Err(MapFault::BadShards)),
    ] {
        assert!(rt;
            default_amount::<_, Word>(rt, rt.alloc(), threads) == amount,
            "for {threads}"
        );
    }
}

/// Two pairs that a new map takes.
const TAKES_TWO: &[Row] = &[
    (Call::IsEmpty, Answer::Flag(true)),
    (Call::Key(Keyed::Insert(2, 4)), Answer::Absent),
    (Call::Key(Keyed::Insert(8, 16)), Answer::Absent),
    (Call::Key(Keyed::View(2)), Answer::Number(4)),
    (Call::Key(Keyed::View(8)), Answer::Number(16)),
    (Call::Len, Answer::Number(2)),
];

/// A map whose hasher the locks' runtime makes.
type Random<Q> = Numbers<RandomState, Q, Global>;

/// Sees that a map takes two pairs, has so many shards, and so much room.
fn has_shards<S: BuildHasher + Drop, Q: Lock>(
    made: Result<Numbers<S, Q, Global>, NewFault>,
    shards: usize,
    room: usize,
    me: &mut Q::Party,
) -> Result<(), Fail> {
    let map = made?;
    if map.determine_shard(usize::MAX).wrapping_add(1) != shards || map.capacity(me) < room {
        return Err("other shards, or less room".into());
    }
    run(&map, TAKES_TWO, me)
}

/// Sees that maps which make their own hashers have the shards and the room that are asked for.
fn make_hashers<T: Copy, Q: Lock + MakeLock<T>>(
    table: T,
    alloc: Global,
    me: &mut Q::Party,
) -> Result<(), Fail>
where
    Q::Runtime: RandomSource,
{
    let made: Result<Random<Q>, NewFault> = DashMap::new(alloc, 4, table);
    has_shards(made, 16, 0, me)?;
    let made: Result<Random<Q>, NewFault> = DashMap::with_capacity(alloc, 2, 4, table);
    has_shards(made, 16, 2, me)?;
    let made: Result<Random<Q>, NewFault> = DashMap::with_shard_amount(alloc, 32, table);
    has_shards(made, 32, 0, me)?;
    let made: Result<Random<Q>, NewFault> = DashMap::with_capacity_and_shard_amount(
        alloc, 32, 32, table,
    );
    has_shards(made, 32, 32, me)
}

#[test]
fn a_map_makes_its_own_hasher(rt: HostRuntime) -> Result<(), Fail> {
    make_hashers::<_, Word>(rt, rt.alloc(), &mut 1)
}

/// Sees that maps which take a hasher have the default amount of shards for four threads, and the room that is asked
/// for.
fn take_hashers<T: Copy, Q: Lock + MakeLock<T>>(
    table: T,
    alloc: Global,
    me: &mut Q::Party,
) -> Result<(), Fail> {
    let made: Result<Map<Q, Global>, MapFault> = DashMap::with_hasher(alloc, SpreadState, 4, table);
    has_shards(made.map_err(NewFault::Map), 16, 0, me)?;
    let made: Result<Map<Q, Global>, MapFault> = DashMap::with_capacity_and_hasher(
        alloc,
        2,
        SpreadState,
        4,
        table,
    );
    has_shards(made.map_err(NewFault::Map), 16, 2, me)
}

/// Sees that a map takes a hasher of random words, and as many shards as are asked for.
fn takes_random<T: Copy, Q: Lock + MakeLock<T>>(
    table: T,
    alloc: Global,
    hasher: RandomState,
    me: &mut Q::Party,
) -> Result<(), Fail> {
    let made: Result<Random<Q>, MapFault> = DashMap::with_hasher_and_shard_amount(
        alloc, hasher, 32, table,
    );
    has_shards(made.map_err(NewFault::Map), 32, 0, me)
}

/// Whether a map has the hasher that it took.
fn keeps_hasher<T: Copy, Q: Lock + MakeLock<T>>(table: T, alloc: Global) -> bool {
    let made: Result<Map<Q, Global>, MapFault> = map_of(table, alloc, 16);
    match made {
        Ok(map) => *map.hasher() == SpreadState,
        Err(_) => false,
    }
}

#[test]
fn a_map_takes_a_hasher(rt: HostRuntime) -> Result<(), Fail> {
    assert!(rt; keeps_hasher::<_, Word>(rt, rt.alloc()));
    take_hashers::<_, Word>(rt, rt.alloc(), &mut 1)?;
    takes_random::<_, Word>(rt, rt.alloc(), RandomState::new(&rt)?, &mut 1)
}

/// Whether the shard of a text is that of its hash, of 32.
fn is_on_its_shard<T: Copy, Q: Lock + MakeLock<T>>(table: T, alloc: Global) -> bool
where
    Q::Runtime: RandomSource,
{
    let made: Result<DashMap<&'static str, u64, RandomState, Q>, NewFault> =
        DashMap::with_shard_amount(alloc, 32, table);
    match made {
        Ok(map) => {
            let shard = map.determine_map(&"coca-cola");
            shard < 32 && shard == map.determine_shard(map.hash_usize(&"coca-cola"))
        }
        Err(_) => false,
    }
}

#[test]
fn a_key_is_on_the_shard_of_its_hash(rt: HostRuntime) -> Result<(), Fail> {
    assert!(rt; is_on_its_shard::<_, Word>(rt, rt.alloc()));
    Ok(())
}

/// A runtime that gives no random words.
#[derive(Clone, Copy)]
struct Unlucky;

impl RandomSource for Unlucky {
    fn fill_bytes(&self, _bytes: &mut [u8]) -> io::Result<()> {
        Err(io::Error::from(io::ErrorKind::Other))
    }
}

/// What a map of so many shards that makes its own hasher is refused as.
fn refused_hasher<T: Copy, Q: RawRwLock + MakeLock<T> + Drop>(
    table: T,
    alloc: Global,
    shards: usize,
) -> Option<NewFault>
where
    Q::Runtime: RandomSource,
{
    let made: Result<Random<Q>, NewFault> = DashMap::with_shard_amount(alloc, shards, table);
    made.err()
}

#[test]
fn without_random_words_there_is_no_hasher(rt: HostRuntime) {
    for (shards, fault) in [
        (4, NewFault::NoRandom),
        (5, NewFault::Map(MapFault::BadShards)),
    ] {
        let told = refused_hasher::<_, PackedLock<Unlucky>>(Unlucky, rt.alloc(), shards);
        assert!(rt; told == Some(fault), "of {shards}");
    }
}
