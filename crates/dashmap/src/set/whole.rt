//! Calls on the set as a whole. Each holds one shard at a time, shard 0 first.
ghost use Rattle.std.specs.Prelude.{◌≡◌, ℕ, ◌==◌};
ghost use Rattle.dashmap_table.specs.Slots.{count};
ghost use Rattle.dashmap_map.specs.Evidence.{SumsTo};
ghost use Rattle.dashmap_map.specs.Owner.{ShrinksAll};

use crate::set::DashSet;
use dashmap_table::Shard;
use lock_api_raw::NoMemory;
use lock_api_rw::Evidence;
use std::alloc::Allocator;
use std::hash::{BuildHasher, Hash};
use std::sync::Wait;

impl<K: Eq + Hash, S: BuildHasher, Q: Evidence<Shard<K, (), A>>, A: Allocator> DashSet<K, S, Q, A>
where
    Q::Runtime: Wait,
{
    /// How many keys there are: the sum over the shards, of which one is held at a time. It stops at `usize::MAX`.
    ///
    /// Blocks as the map's `len` does. Beside others' calls the sum may be one that the set never had.
    ///
    /// ```text
    /// let keys = set.len(&mut me);
    /// ```
    pub fn len(&self, td: &mut Q::Party) -> usize
        ensures { SumsTo Q.showed self.now (λ shard. count shard.slots) td.old td.new result }
    {
        self.inner.len(td)
    }

    /// Whether `len` is 0. Blocks as `len` does.
    ///
    /// ```text
    /// if set.is_empty(&mut me) { return Ok(()); }
    /// ```
    pub fn is_empty(&self, td: &mut Q::Party) -> bool
        ensures { (sum : ℕ) × SumsTo Q.showed self.now (λ shard. count shard.slots) td.old td.new sum
            × (result ≡ (sum == 0)) }
    {
        self.inner.is_empty(td)
    }

    /// For how many keys there is room: the sum over the shards, of which one is held at a time. It stops at
    /// `usize::MAX`.
    ///
    /// Blocks as `len` does.
    ///
    /// ```text
    /// let room = set.capacity(&mut me);
    /// ```
    pub fn capacity(&self, td: &mut Q::Party) -> usize
        ensures { SumsTo Q.showed self.now (λ shard. shard.room) td.old td.new result }
    {
        self.inner.capacity(td)
    }
}

impl<
    K: Eq + Hash + Drop,
    S: BuildHasher,
    Q: Evidence<Shard<K, (), A>>,
    A: Allocator + Clone,
> DashSet<K, S, Q, A>
where
    Q::Runtime: Wait,
{
    /// Gives up room that the keys don't need, one shard after another. A shard without keys takes no memory and keeps
    /// no room.
    ///
    /// Blocks while another holds a shard, at each in its turn. Memory: a smaller table is made before the larger one
    /// is given back. A refusal leaves its shard as it was, and the shards before it shrunk.
    ///
    /// ```text
    /// set.shrink_to_fit(&mut me)?;
    /// ```
    pub fn shrink_to_fit(&self, td: &mut Q::Party) -> Result<(), NoMemory>
        ensures { ShrinksAll K.eq Q.held self.now td.old td.new result }
    {
        self.inner.shrink_to_fit(td)
    }
}
