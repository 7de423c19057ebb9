//! How many steps a world may still need, and whether their numbers fit.
ghost use Rattle.std.specs.Prelude.{◌≡◌, ◌+◌, ◌≤◌, ◌^◌};
ghost use Rattle.mapworld_state.specs.Running.{bound, bound_of, has_numbers};
ghost use Rattle.mapworld_state.specs.Core.{state_of, Room};

use mapworld_state::Core;
use std::alloc::Allocator;
use std::hash::Hash;

/// How many steps are enough for so many threads, shards, pairs and unanswered calls.
fn bound_for(threads: u64, shards: u64, pairs: u64, calls: u64) -> u64
    requires threads { threads ≤ 256 }
    requires shards { shards ≤ 4096 }
    requires pairs { pairs ≤ 2 ^ 32 }
    requires calls { calls ≤ 2 ^ 20 }
    ensures value { result ≡ bound threads shards pairs calls }
    ensures fits { result ≤ 2 ^ 62 }
{
    let visits = 256 * (threads + 1) * (threads + 1) * (calls + 1) * (shards + 1);
    let deeds = 2 * (calls + 1) * (pairs + calls + 1);
    visits + deeds
}

/// How many steps are enough from here on.
pub(crate) fn bound<K: Eq + Hash, V, S, D, T, A: Allocator>(core: &Core<K, V, S, D, T, A>) -> u64
    requires { Room core.now }
    ensures value { result ≡ bound_of (state_of core.now) }
    ensures fits { result ≤ 2 ^ 62 }
{
    bound_for(
        core.places.len() as u64,
        core.tables.len() as u64,
        core.pairs,
        core.unanswered,
    )
}

/// Whether step numbers are left for one more step and all that must come after it.
pub(crate) fn fits<K: Eq + Hash, V, S, D, T, A: Allocator>(core: &Core<K, V, S, D, T, A>) -> bool
    requires { Room core.now }
    ensures { result ≡ has_numbers (state_of core.now) }
{
    core.count + 1 + bound(core) + 2 * (core.unanswered + 1) <= 1 << 63
}
