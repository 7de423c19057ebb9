//! The values of a map, lent for writing to its one owner.
ghost use Rattle.std.specs.Prelude.{◌≡◌};
ghost use Rattle.dashmap_plain.specs.Written.{WroteAll};

use crate::unlocked::Unlocked;
use core::mem;
use dashmap_map::DashMap;
use dashmap_map::owner::OwnerEvidence;
use dashmap_table::Shard;
use std::alloc::{Allocator, Global};
use std::hash::{BuildHasher, Hash};
use std::thread::Threads;

/// The pairs of a map whose values are lent for writing to a closure that threads share. It borrows the map, and
/// changes nothing before it is run.
#[derive(Drop)]
pub struct IterMut<'m, K: Eq + Hash, V, S: BuildHasher, Q, A: Allocator = Global> {
    map: &'m mut DashMap<K, V, S, Q, A>,
}

impl<'m, K: Eq + Hash, V, S: BuildHasher, Q: OwnerEvidence<Shard<K, V, A>>, A: Allocator> IterMut<
    'm,
    K,
    V,
    S,
    Q,
    A,
> {
    /// The pairs of this map.
    pub(crate) fn new(map: &'m mut DashMap<K, V, S, Q, A>) -> IterMut<'m, K, V, S, Q, A>
        ensures same { result.map.ghost_name ≡ map.entry.ghost_name }
        ensures value { result.map.now ≡ map.old }
    {
        IterMut { map }
    }

    /// Lends the closure the value of each pair for writing, each once. The pairs of one shard are one piece of work,
    /// and shards go side by side. It takes no memory.
    ///
    /// ```text
    /// map.par_iter_mut().for_each(&rt, |_, count| { *count = 0; });
    /// ```
    pub fn for_each<R: Threads + Sync, F: Fn(&K, &mut V) + Sync>(self, rt: &R, f: F)
    where
        K: Send,
        V: Send,
        A: Send,
        requires { F.IsAlwaysCallable f }
        ensures map { self.exit.0.now ≡ self.entry.map.now }
        ensures written { WroteAll Q.taken Q.put F.Fn f self.entry.map.now.locks }
    {
        let IterMut { map } = self;
        write_map(map, rt, f);
    }
}

/// Lends a closure that threads share the value of each pair of a map for writing, each once.
fn write_map<
    K: Eq + Hash + Send,
    V: Send,
    S: BuildHasher,
    Q: OwnerEvidence<Shard<K, V, A>>,
    A: Allocator + Send,
    R: Threads + Sync,
    F: Fn(&K, &mut V) + Sync,
>(map: &mut DashMap<K, V, S, Q, A>, rt: &R, f: F)
    requires { F.IsAlwaysCallable f }
    ensures map { map.new ≡ map.old }
    ensures written { WroteAll Q.taken Q.put F.Fn f map.old.locks }
{
    mem::replace_with(
        map,
        f,
        |map, f|
            requires { F.IsAlwaysCallable f }
            ensures map { result.0 ≡ map }
            ensures written { WroteAll Q.taken Q.put F.Fn f map.locks }
        {
            let mut open = Unlocked::of(map);
            open.par_write(rt, f);
            (open.into_map(), ())
        },
    );
}
