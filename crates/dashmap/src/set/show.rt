//! What a set prints.

use crate::set::DashSet;
use lock_api_raw::RawRwLock;
use std::alloc::Allocator;
use std::fmt;
use std::hash::{BuildHasher, Hash};
use std::sync::Wait;

/// A map's text, each key with `()`, and `<locked>` in place of a shard that a try can't have.
impl<K: Eq + Hash + fmt::Debug, S: BuildHasher, Q: RawRwLock, A: Allocator> fmt::Debug
    for DashSet<K, S, Q, A>
where
    Q::Runtime: Wait,
{
    fn fmt<W: fmt::Write>(&self, f: &mut fmt::Formatter<W>) -> fmt::Result {
        self.inner.fmt(f)
    }
}
