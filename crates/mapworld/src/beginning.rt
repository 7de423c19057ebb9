//! How a new world's threads and tables begin.
ghost use Rattle.std.specs.Prelude.{◌≡◌, ◌^◌, ◌≤◌, true, [], length, map, sum_by, vec_capacity, IfOk};
ghost use Rattle.std.specs.List.{list_any};
ghost use Rattle.mapworld_state.specs.Core.{ask_lists, may_visit};
ghost use Rattle.mapworld_state.specs.Route.{IsWorldAmount, key_route};
ghost use Rattle.mapworld_state.specs.Places.{place_of};
ghost use Rattle.mapworld_state.specs.Shards.{shard_pairs};
ghost use Rattle.mapworld_state.specs.Slots.{key_hash};
ghost use Rattle.mapworld.specs.Beginning.{at_start, AreAtStart, AreFilled, HasLists, HaveLists, pairs_in, AreEmpty};
ghost use Rattle.mapworld.specs.Beginning.{AreHashed};

use arrayvec::ArrayVec;
use dashmap_table::{NoMemory, Shard};
use mapworld_calls::{Ask, Walk};
use mapworld_state::{Phase, Place};
use mapworld_steps::shard_of;
use mapworld_transitions::put::put_pair;
use mapworld_transitions::walks::{stop_of, stops_at};
use std::alloc::Allocator;
use std::collections::VecDeque;
use std::hash::{BuildHasher, Hash};

/// Whether a call is a walk that comes to a shard.
fn may_visit<K, V, D>(ask: &Ask<K, V, D>) -> bool
    ensures { result ≡ may_visit ask.now }
{
    match ask {
        Ask::Walk(walk) => !stops_at(stop_of(walk), 0),
        _ => false,
    }
}

/// Whether a program has such a walk.
fn has_visits<K, V, D>(program: &[Ask<K, V, D>]) -> bool
    ensures { result ≡ list_any may_visit program.now }
{
    program.iter().any(|ask| may_visit(ask))
}

/// How many lists a call may be answered with: one where it is a walk that reads.
fn ask_lists<K, V, D>(ask: &Ask<K, V, D>) -> usize
    ensures value { result ≡ ask_lists ask.now }
    ensures one { result ≤ 1 }
{
    match ask {
        Ask::Walk(Walk::Iter(_, _)) | Ask::Walk(Walk::IterMut(_, _)) => 1,
        _ => 0,
    }
}

/// How many lists a program's calls may be answered with.
fn program_lists<K, V, D>(program: &[Ask<K, V, D>]) -> usize
    ensures { result ≡ sum_by ask_lists program.now }
{
    let mut lists = 0;
    for ask in program {
        lists += ask_lists(ask);
    }
    lists
}

/// So many empty lists.
fn empty_lists<T: Drop, A: Allocator + Clone + Drop>(
    alloc: A,
    count: usize,
) -> Result<Vec<Vec<T, A>, A>, NoMemory>
    ensures { IfOk result (λ lists. length lists.items ≡ count) }
{
    let mut lists = Vec::with_capacity(alloc.clone()?, count)?;
    for _ in 0..count {
        lists.push(Vec::new(alloc.clone()?))?;
    }
    Ok(lists)
}

/// A list without visits, with room for one of each shard where the thread may come to them.
fn visits_of<A: Allocator>(alloc: A, walks: bool, shards: usize) -> Result<Vec<usize, A>, NoMemory>
    ensures none { IfOk result (λ visits. visits.items ≡ []) }
    ensures room { IfOk result (λ visits. walks ≡ true → shards ≤ vec_capacity visits) }
{
    if walks {
        Ok(Vec::with_capacity(alloc, shards)?)
    } else {
        Ok(Vec::new(alloc))
    }
}

/// A thread before its first call.
fn at_start<K: Drop, V: Drop, D: Drop, T: Drop, A: Allocator + Clone + Drop>(
    alloc: A,
    shards: usize,
    program: Vec<Ask<K, V, D>, A>,
) -> Result<Place<K, V, D, T, A>, NoMemory>
    ensures start { IfOk result (λ place. place_of place ≡ at_start program.items) }
    ensures lists { IfOk result (HasLists shards) }
{
    let visits = visits_of(alloc.clone()?, has_visits(&program), shards)?;
    let lists = empty_lists(alloc.clone()?, program_lists(&program))?;
    Ok(Place {
        asks: VecDeque::from(program),
        next: 0,
        started: None,
        closes: false,
        shard: 0,
        slot: 0,
        holds: ArrayVec::new(),
        block: None,
        guard: None,
        visits,
        reads: Vec::new(alloc),
        lists,
        count: 0,
        phase: Phase::Rest,
    })
}

/// The threads of the programs, each before its first call.
pub(crate) fn places_of<K: Drop, V: Drop, D: Drop, T: Drop, A: Allocator + Clone + Drop>(
    alloc: A,
    shards: usize,
    programs: Vec<Vec<Ask<K, V, D>, A>, A>,
) -> Result<Vec<Place<K, V, D, T, A>, A>, NoMemory>
    ensures start { IfOk result
        (λ places. AreAtStart (map (λ program. program.items) programs.items) (map place_of places.items)) }
    ensures lists { IfOk result (λ places. HaveLists shards places.items) }
{
    let mut places = Vec::with_capacity(alloc.clone()?, programs.len())?;
    for program in programs {
        places.push(at_start(alloc.clone()?, shards, program)?)?;
    }
    Ok(places)
}

/// Shards without pairs.
pub(crate) fn empty_shards<K: Eq + Hash + Drop, V: Drop, A: Allocator + Clone + Drop>(
    alloc: A,
    shards: usize,
) -> Result<Vec<Shard<K, V, A>, A>, NoMemory>
    ensures { IfOk result (λ tables. (length tables.items ≡ shards) × AreEmpty tables.items) }
{
    let mut tables = Vec::with_capacity(alloc.clone()?, shards)?;
    for _ in 0..shards {
        tables.push(Shard::new(alloc.clone()?))?;
    }
    Ok(tables)
}

/// Puts the opening pairs into their shards, and counts those that are there then.
pub(crate) fn fill<K: Eq + Hash + Drop, V: Drop, S: BuildHasher, A: Allocator + Clone>(
    tables: &mut Vec<Shard<K, V, A>, A>,
    hasher: &S,
    pairs: Vec<(K, V), A>,
) -> Result<u64, NoMemory>
    requires shards { IsWorldAmount (length tables.old.items) }
    requires empty { AreEmpty tables.old.items }
    requires fits { length pairs.items ≤ 2 ^ 31 }
    ensures filled { IfOk result
        (λ count. AreFilled K.eq
        (key_route S.BuildHasher S.Hasher.Hasher K.hash_input hasher.now (length tables.new.items)) pairs.items
        (map shard_pairs tables.new.items)) }
    ensures count { IfOk result
        (λ count. (count ≡ pairs_in (map shard_pairs tables.new.items)) × (count ≤ length pairs.items)) }
    ensures hashed { IfOk result
        (λ _. AreHashed (key_hash S.BuildHasher S.Hasher.Hasher K.hash_input hasher.now) tables.new.items) }
    ensures shards { length tables.new.items ≡ length tables.old.items }
{
    let mut count = 0;
    for (key, value) in pairs {
        let shard = shard_of(hasher, tables.len(), &key);
        if put_pair(&mut tables[shard], hasher, key, value)? {
            count += 1;
        }
    }
    Ok(count)
}
