//! A map's text.

use crate::map::DashMap;
use dashmap_table::Shard;
use lock_api_raw::RawRwLock;
use std::alloc::Allocator;
use std::fmt;
use std::fmt::{Debug, DebugSet};
use std::hash::{BuildHasher, Hash};
use std::sync::Wait;

/// What stands for a part of the map.
#[derive(Drop)]
enum Shown<'s, K, V> {
    Pair(&'s K, &'s V),
    Locked,
}

impl<'s, K: Debug, V: Debug> Debug for Shown<'s, K, V> {
    fn fmt<F: fmt::Write>(&self, f: &mut fmt::Formatter<F>) -> fmt::Result {
        match self {
            Shown::Pair(key, value) => {
                key.fmt(f)?;
                f.write_str(": ")?;
                value.fmt(f)
            }
            Shown::Locked => f.write_str("<locked>"),
        }
    }
}

/// Shows the pairs of a shard, in the order of their slots.
fn show_pairs<K: Eq + Hash + Debug, V: Debug, A: Allocator, F: fmt::Write>(
    out: &mut DebugSet<'_, F>,
    shard: &Shard<K, V, A>,
) {
    let mut from = 0;
    while let Some(slot) = shard.next_from(from) {
        if let Some((key, value)) = shard.pair(slot) {
            out.entry(&Shown::Pair(key, value));
        }
        from = slot + 1;
    }
}

/// The pairs of each shard in turn, as `{1: 2, 3: 4}`, and `<locked>` in place of a shard that a try can't have at
/// once.
impl<K: Eq + Hash + Debug, V: Debug, S: BuildHasher, Q: RawRwLock, A: Allocator> Debug
    for DashMap<K, V, S, Q, A>
where
    Q::Runtime: Wait,
{
    fn fmt<F: fmt::Write>(&self, f: &mut fmt::Formatter<F>) -> fmt::Result {
        let mut out = f.debug_set();
        for lock in &self.shards {
            match lock.try_read() {
                Some(guard) => show_pairs(&mut out, &*guard),
                None => {
                    out.entry(&Shown::<K, V>::Locked);
                }
            }
        }
        out.finish()
    }
}
