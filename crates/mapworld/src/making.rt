//! How a world is made.
ghost use Rattle.std.specs.Prelude.{◌≡◌, ◌<◌, ◌≤◌, ◌^◌, length, map, sum_by, IfOk};
ghost use Rattle.mapworld.specs.Making.{new_refusal, IsNew};
ghost use Rattle.mapworld.specs.Reachable.{CoreIsReachable};
ghost use Rattle.mapworld.specs.Guarded.{GuardsAreOwners};
ghost use Rattle.mapworld.specs.History.{history_of, HistoryAgrees, HistoryHasCauses, HistoryHasDeadlines};
ghost use Rattle.mapworld.specs.History.{HistoryIsPlaced};
ghost use Rattle.mapworld_state.specs.Locks.Fresh.{AreFresh};
ghost use Rattle.mapworld.specs.Progress.Drains.{IsInTime};
ghost use Rattle.mapworld_state.specs.Invariant.Causes.World.{CoreHasCauses};
ghost use Rattle.mapworld_state.specs.Core.{blocks_of, state_of, IsSoundCore, IsSlotted, Room};

use crate::beginning::{empty_shards, fill, places_of};
use crate::laws::desks_count_as_words;
use crate::stops::programs_fit;
use dashmap_table::NoMemory;
use mapworld_calls::past::Past;
use mapworld_calls::{Ask, Deed};
use mapworld_state::Core;
use mapworld_state::locks::ShardLocks;
use mapworld_transitions::walks::{stop_of, stops_at};
use parking_lot_machine::laws::steps_are_few;
use std::alloc::Allocator;
use std::hash::{BuildHasher, Hash};
use std::snapshot::Snapshot;

/// How many calls all programs have.
fn calls_in<K, V, D, A: Allocator>(programs: &[Vec<Ask<K, V, D>, A>]) -> usize
    requires { sum_by (λ program. length program.items) programs.now ≤ 2 ^ 20 }
    ensures { result ≡ sum_by (λ program. length program.items) programs.now }
{
    programs.iter().map(|program| program.len()).sum()
}

/// How many blocks a call may list on so many shards.
fn blocks_of<K, V, D>(ask: &Ask<K, V, D>, shards: usize) -> usize
    ensures { result ≡ blocks_of shards ask.now }
{
    match ask {
        Ask::Keyed(_) | Ask::Begin(_) => 1,
        Ask::Held(_) => 0,
        Ask::Walk(walk) => {
            if stops_at(stop_of(walk), 0) {
                0
            } else {
                shards
            }
        }
    }
}

/// How many blocks a program may list on so many shards.
fn program_blocks<K, V, D>(program: &[Ask<K, V, D>], shards: usize) -> usize
    requires { sum_by (blocks_of shards) program.now < 2 ^ 32 }
    ensures { result ≡ sum_by (blocks_of shards) program.now }
{
    program.iter().map(|ask| blocks_of(ask, shards)).sum()
}

/// How many blocks all programs may list on so many shards.
fn blocks_in<K, V, D, A: Allocator>(programs: &[Vec<Ask<K, V, D>, A>], shards: usize) -> usize
    requires { sum_by (λ program. sum_by (blocks_of shards) program.items) programs.now < 2 ^ 32 }
    ensures { result ≡ sum_by (λ program. sum_by (blocks_of shards) program.items) programs.now }
{
    let mut blocks = 0;
    for program in programs {
        blocks += program_blocks(program, shards);
    }
    blocks
}

/// The locks of so many shards, for so many threads, none of which has asked for anything.
fn locks_of<A: Allocator + Clone + Drop>(
    alloc: A,
    threads: usize,
    shards: usize,
) -> Result<ShardLocks<A>, NoMemory>
    ensures { IfOk result (λ locks. AreFresh threads shards locks) }
{
    match ShardLocks::new(alloc, threads, shards) {
        Ok(locks) => Ok(locks),
        Err(_) => Err(NoMemory),
    }
}

/// The parts of a new world.
pub(crate) fn core_of<
    K: Eq + Hash + Drop,
    V: Drop,
    S: BuildHasher + Drop,
    D: Deed<K, V> + Drop,
    A: Allocator + Clone + Drop,
>(
    alloc: A,
    shards: usize,
    hasher: S,
    pairs: Vec<(K, V), A>,
    programs: Vec<Vec<Ask<K, V, D>, A>, A>,
) -> Result<Core<K, V, S, D, D::Answer, A>, NoMemory>
    requires { new_refusal shards (length pairs.items) (map (λ program. program.items) programs.items) ≡ None }
    ensures new { let asked = map (λ program. program.items) programs.items in
        IfOk result (λ core. IsNew K.eq shards hasher pairs.items asked (state_of core)) }
    ensures sound { IfOk result (IsSoundCore D.Deed S.BuildHasher S.Hasher.Hasher K.eq K.hash_input) }
    ensures room { IfOk result Room }
    ensures slots { IfOk result (IsSlotted D.Deed S.BuildHasher S.Hasher.Hasher K.eq K.hash_input) }
    ensures agrees { IfOk result
        (λ core. HistoryAgrees D.Deed S.BuildHasher S.Hasher.Hasher K.eq K.hash_input (history_of (state_of core))) }
    ensures placed { IfOk result
        (λ core. HistoryIsPlaced D.Deed S.BuildHasher S.Hasher.Hasher K.eq K.hash_input (history_of (state_of core))) }
    ensures guards { IfOk result (λ core. GuardsAreOwners (state_of core).locks) }
    ensures time { IfOk result (IsInTime D.Deed S.BuildHasher S.Hasher.Hasher K.eq K.hash_input) }
    ensures causes { IfOk result (CoreHasCauses D.Deed S.BuildHasher S.Hasher.Hasher K.eq K.hash_input) }
    ensures reachable { IfOk result (CoreIsReachable D.Deed S.BuildHasher S.Hasher.Hasher K.eq K.hash_input) }
    ensures tries { IfOk result
        (λ core. HistoryHasCauses D.Deed S.BuildHasher S.Hasher.Hasher K.eq K.hash_input (history_of (state_of core))) }
    ensures late { IfOk result (λ core. HistoryHasDeadlines D.Deed S.BuildHasher S.Hasher.Hasher K.eq K.hash_input
        (history_of (state_of core))) }
{
    steps_are_few();
    desks_count_as_words();
    let opening = Snapshot::of(&pairs);
    let kept = Snapshot::of(&programs);
    programs_fit(&programs);
    let calls = calls_in(&programs);
    let listed = blocks_in(&programs, shards);
    let locks = locks_of(alloc.clone()?, programs.len(), shards)?;
    let places = places_of(alloc.clone()?, shards, programs)?;
    let blocks = Vec::with_capacity(alloc.clone()?, listed)?;
    let replies = Vec::with_capacity(alloc.clone()?, calls)?;
    let mut tables = empty_shards(alloc, shards)?;
    let count = fill(&mut tables, &hasher, pairs)?;
    locks.known();
    Ok(Core {
        hasher,
        opening,
        programs: kept,
        steps: Past::new(),
        count: 0,
        pairs: count,
        unanswered: calls as u64,
        places,
        tables,
        locks,
        blocks,
        replies,
    })
}
