//! Clones of views.
ghost use Rattle.std.specs.Prelude.{◌≡◌, ◌⊎◌, length, IfOk, IfErr};
ghost use Rattle.std.specs.List.{AllZip};
ghost use Rattle.dashmap_table.specs.declared.fault.MapFault.{MapFault};
ghost use Rattle.dashmap_plain.specs.Opened.{Opened};
ghost use Rattle.dashmap_view.specs.Clones.{IsCloneOf};

use crate::ReadOnlyView;
use crate::clones::map::map_of;
use crate::clones::rows::fault_without_memory;
use dashmap_map::owner::OwnerEvidence;
use dashmap_table::{MapFault, Shard};
use lock_api_raw::{MakeLock, RawRwLock};
use std::alloc::Allocator;
use std::hash::{BuildHasher, Hash};

/// What a view has in place of `Clone`.
///
/// ```text
/// let copy = view.clone(&table)?;
/// ```
pub trait CloneView<K: Eq + Hash, V, S, Q>: Sized {
    /// The shards, the hasher and the locks of a view.
    ghost opened: { Self → Opened K V S Q };

    /// A view of clones of all pairs, with as many shards and locks of its own. Every key finds in it what it finds in
    /// this one.
    ///
    /// Refused as `TableFull` or `NoMemory`, in this order; then the rows that were taken stay used.
    ///
    /// ```text
    /// let copy = view.clone(&table)?;
    /// ```
    fn clone<T: Copy>(&self, table: T) -> Result<Self, MapFault>
    where
        K: Clone,
        V: Clone,
        S: Clone,
        Q: MakeLock<T>,
        requires keys { (key copy : K) → K.is_clone key copy → copy ≡ key }
        requires values { (value copy : V) → V.is_clone value copy → copy ≡ value }
        requires hasher { (hasher copy : S) → S.is_clone hasher copy → copy ≡ hasher }
        ensures shards { IfOk result
            (λ v. AllZip (IsCloneOf K.eq) (opened self.now).plain.tables (opened v).plain.tables) }
        ensures hasher { IfOk result (λ v. (opened v).plain.hasher ≡ (opened self.now).plain.hasher) }
        ensures locks { IfOk result (λ v. length (opened v).locks ≡ length (opened self.now).plain.tables) }
        ensures refused { IfErr result (λ fault. (fault ≡ MapFault.TableFull) ⊎ (fault ≡ MapFault.NoMemory)) };
}

impl<
    K: Eq + Hash + Drop,
    V: Drop,
    S: BuildHasher + Drop,
    Q: RawRwLock + OwnerEvidence<Shard<K, V, A>> + Drop,
    A: Allocator + Clone,
> CloneView<K, V, S, Q> for ReadOnlyView<K, V, S, Q, A> {
    ghost opened = { λ view. view };

    fn clone<T: Copy>(&self, table: T) -> Result<ReadOnlyView<K, V, S, Q, A>, MapFault>
    where
        K: Clone,
        V: Clone,
        S: Clone,
        Q: MakeLock<T>,
    {
        let amount = self.shards().len();
        match self.plain().clone() {
            Ok(plain) => {
                let (shards, hasher) = plain.into_parts();
                Ok(map_of(shards, hasher, table)?.into_view())
            }
            Err(_) => Err(fault_without_memory::<Q, T>(table, amount)),
        }
    }
}
