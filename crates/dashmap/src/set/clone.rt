//! Clones of sets.
ghost use Rattle.std.specs.Prelude.{◌≡◌, ◌⊎◌, length, IfOk, IfErr};
ghost use Rattle.dashmap_table.specs.declared.fault.MapFault.{MapFault};
ghost use Rattle.dashmap_plain.specs.Clones.Clones.{IsCloneOfMap};

use crate::set::DashSet;
use dashmap_map::owner::OwnerEvidence;
use dashmap_plain::clones::CloneMap;
use dashmap_table::{MapFault, Shard};
use lock_api_raw::MakeLock;
use lock_api_rw::Evidence;
use std::alloc::Allocator;
use std::hash::{BuildHasher, Hash};
use std::sync::Wait;

impl<
    K: Eq + Hash + Drop,
    S: BuildHasher + Drop,
    Q: Evidence<Shard<K, (), A>> + OwnerEvidence<Shard<K, (), A>> + Drop,
    A: Allocator + Clone,
> DashSet<K, S, Q, A> {
    /// A set with clones of all keys, and as many shards. Keys and the hasher have to be equal to their clones.
    ///
    /// Blocks while another holds a shard exclusively: the shards are taken in their order, and one is held at a time.
    /// Refused as `TableFull` or `NoMemory`, in this order; then the rows that were taken stay used.
    ///
    /// ```text
    /// let copy = set.clone(&table, &mut me)?;
    /// ```
    pub fn clone<T: Copy>(
        &self,
        table: T,
        td: &mut Q::Party,
    ) -> Result<DashSet<K, S, Q, A>, MapFault>
    where
        K: Clone,
        S: Clone,
        Q: MakeLock<T>,
        Q::Runtime: Wait,
        requires keys { (key copy : K) → K.is_clone key copy → copy ≡ key }
        requires hasher { (hasher copy : S) → S.is_clone hasher copy → copy ≡ hasher }
        ensures made { IfOk result (λ s. (length s.locks ≡ length self.now.locks) × (s.hasher ≡ self.now.hasher)) }
        ensures put { IfOk result (λ s. IsCloneOfMap {V = Unit {0}} Q.showed Q.put K.eq self.now s) }
        ensures refused { IfErr result (λ fault. (fault ≡ MapFault.TableFull) ⊎ (fault ≡ MapFault.NoMemory)) }
    {
        match CloneMap::clone(&self.inner, table, td) {
            Ok(inner) => Ok(DashSet { inner }),
            Err(fault) => Err(fault),
        }
    }
}
