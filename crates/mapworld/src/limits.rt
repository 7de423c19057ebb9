//! Which worlds aren't made.
ghost use Rattle.std.specs.Prelude.{◌≡◌, ◌^◌, ◌<◌, ◌≤◌, ◌&&◌, false, nat_lt, nat_le, length, map, sum_by, MatchOption};
ghost use Rattle.std.specs.List.{list_all};
ghost use Rattle.mapworld_calls.specs.Programs.{one_guard, numbers_of};
ghost use Rattle.mapworld.specs.Making.{new_refusal};

use mapworld_calls::{Ask, guard_numbers, holds_one_guard};
use mapworld_state::faults::WorldNewFault;
use mapworld_steps::is_world_amount;
use std::alloc::Allocator;

/// How many calls all programs have, if they aren't too many.
fn calls_of<K, V, D, A: Allocator>(programs: &[Vec<Ask<K, V, D>, A>]) -> Option<usize>
    ensures { MatchOption result
        (2 ^ 20 < sum_by (λ program. length program.items) programs.now)
        (λ calls. (calls ≡ sum_by (λ program. length program.items) programs.now) × (calls ≤ 2 ^ 20)) }
{
    let mut calls = 0;
    for program in programs {
        if program.len() > (1 << 20) - calls {
            return None;
        }
        calls += program.len();
    }
    Some(calls)
}

/// How many guard numbers all programs take on so many shards, if they aren't too many.
fn numbers_in<K, V, D, A: Allocator>(programs: &[Vec<Ask<K, V, D>, A>], shards: u64) -> Option<u64>
    ensures { MatchOption result
        (2 ^ 32 ≤ sum_by (λ program. sum_by (numbers_of shards) program.items) programs.now)
        (λ numbers. (numbers ≡ sum_by (λ program. sum_by (numbers_of shards) program.items) programs.now)
        × (numbers < 2 ^ 32)) }
{
    let mut numbers = 0;
    for program in programs {
        let more = guard_numbers(program, shards);
        if more >= (1 << 32) - numbers {
            return None;
        }
        numbers += more;
    }
    Some(numbers)
}

/// Whether each program holds one guard at a time.
fn are_guarded<K, V, D, A: Allocator>(programs: &[Vec<Ask<K, V, D>, A>]) -> bool
    ensures { result ≡ list_all (λ program. one_guard false program.items) programs.now }
{
    programs.iter().all(|program| holds_one_guard(program))
}

/// Whether there are programs, and not too many.
fn are_threads(count: usize) -> bool
    ensures { result ≡ nat_le 1 count && nat_le count 256 }
{
    1 <= count && count <= 256
}

/// Why a world isn't made, want of memory aside.
pub(crate) fn refusal<K, V, D, A: Allocator>(
    shards: usize,
    pairs: usize,
    programs: &[Vec<Ask<K, V, D>, A>],
) -> Option<WorldNewFault>
    ensures { result ≡ new_refusal shards pairs (map (λ program. program.items) programs.now) }
{
    if !is_world_amount(shards) {
        return Some(WorldNewFault::BadShards);
    }
    if !are_threads(programs.len()) {
        return Some(WorldNewFault::TooManyThreads);
    }
    if calls_of(programs).is_none() {
        return Some(WorldNewFault::TooManyCalls);
    }
    if pairs > 1 << 31 {
        return Some(WorldNewFault::TooManyPairs);
    }
    if !are_guarded(programs) {
        return Some(WorldNewFault::AsksWhileHolding);
    }
    if numbers_in(programs, shards as u64).is_none() {
        return Some(WorldNewFault::NoGuardNumbers);
    }
    None
}
