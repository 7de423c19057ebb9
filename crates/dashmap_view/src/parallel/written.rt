//! The values of some shards, lent for writing.
ghost use Rattle.std.specs.List.{AllZip};
ghost use Rattle.dashmap_view.specs.Parallel.Calls.{WritesEach};

use crate::parallel::visit::write_each;
use dashmap_table::Shard;
use rayon::slice::par_for_each_mut;
use std::alloc::Allocator;
use std::hash::Hash;
use std::thread::Threads;

/// Lends a closure that threads share the value of each pair of some plain shards for writing, each once. The pairs of
/// one shard are one piece of work: shards go side by side, in as many threads as there are processors. It takes no
/// memory.
///
/// Afterwards each value is what a call of the closure left of it, and all else is as it was.
///
/// ```text
/// par_write(&rt, &mut plain, |_, count| *count = count.wrapping_add(1));
/// ```
pub fn par_write<
    K: Eq + Hash + Send,
    V: Send,
    A: Allocator + Send,
    R: Threads + Sync,
    F: Fn(&K, &mut V) + Sync,
>(rt: &R, shards: &mut [Shard<K, V, A>], f: F)
    requires { F.IsAlwaysCallable f }
    ensures { AllZip (WritesEach F.Fn f) shards.old shards.new }
{
    let f = &f;
    par_for_each_mut(
        rt,
        shards,
        |_, shard: &mut Shard<K, V, A>|
            requires { F.IsAlwaysCallable f.now }
            ensures { WritesEach F.Fn f.entry.now shard.old shard.new }
        { write_each(shard, f) },
    );
}
