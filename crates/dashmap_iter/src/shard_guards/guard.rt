//! Guards of a whole shard.
ghost use Rattle.std.specs.Prelude.{◌≡◌};
ghost use Rattle.std.specs.Sync.RwLock.{read_guard_value, write_guard_value};

use dashmap_table::Shard;
use lock_api_guards::{Guard, Hold, Lender};
use lock_api_raw::RawRwLock;
use lock_api_rw::{Evidence, Exclusive, RawHold, RwLock, Shared, read_shown, write_found};
use std::alloc::{Allocator, Global};
use std::hash::Hash;
use std::marker::{Model, PhantomData};
use std::ops::Deref;
use std::sync;
use std::sync::Wait;

/// A guard of a shard, that lends the shard to be read. It is named [`ShardReadGuard`] and [`ShardWriteGuard`].
///
/// Its drop releases the shard and may wait for the lot's short sections.
pub struct ShardGuard<W: Lender + Drop, H: Hold, D>
where
    H::Runtime: Wait,
{
    guard: Guard<W, H>,
    party: PhantomData<D>,
}

/// A shared hold of a shard. `'m` is the borrow of the map, and `'d` of what the thread lent to the call.
pub type ShardReadGuard<'m, 'd, K, V, Q, A = Global> = ShardGuard<
    sync::RwLockReadGuard<'m, Shard<K, V, A>>,
    RawHold<&'m RwLock<Q, Shard<K, V, A>>, Shared>,
    &'d mut <Q as RawRwLock>::Party,
>;

/// An exclusive hold of a shard, that lends the shard to be read alone.
pub type ShardWriteGuard<'m, 'd, K, V, Q, A = Global> = ShardGuard<
    sync::RwLockWriteGuard<'m, Shard<K, V, A>>,
    RawHold<&'m RwLock<Q, Shard<K, V, A>>, Exclusive>,
    &'d mut <Q as RawRwLock>::Party,
>;

impl<W: Lender + Drop, H: Hold, D> Model for ShardGuard<W, H, D>
where
    H::Runtime: Wait,
{
    ghost use Rattle.lock_api_guards.specs.declared.guard.Guard.{Guard};

    ghost Value = { Guard W H H.Lock H.Runtime H.Party H.Apart };

    ghost view = { λ s. s.guard };
}

// By hand: where a derived drop ends the scope of a caller that dereferenced, the caller isn't covered.
impl<W: Lender + Drop, H: Hold, D> Drop for ShardGuard<W, H, D>
where
    H::Runtime: Wait,
{
    fn drop(self) {
        let ShardGuard { guard, party: _ } = self;
        drop(guard);
    }
}

impl<W: Lender + Drop, H: Hold, D> ShardGuard<W, H, D>
where
    H::Runtime: Wait,
{
    /// Keeps the guard of a shard. For the layer above.
    pub fn new(guard: Guard<W, H>) -> ShardGuard<W, H, D>
        ensures { result ≡ guard }
    {
        ShardGuard {
            guard,
            party: PhantomData,
        }
    }
}

impl<W: Lender + Drop, H: Hold, D> Deref for ShardGuard<W, H, D>
where
    H::Runtime: Wait,
{
    type Target = W::Part;

    ghost deref_gives = { λ s shard. W.part s.inner ≡ shard };

    fn deref(&self) -> &W::Part {
        self.guard.look()
    }
}

/// Waits for a shared hold of the shard behind a lock.
pub(crate) fn hold_to_read<'m, 'd, K: Eq + Hash, V, Q: Evidence<Shard<K, V, A>>, A: Allocator>(
    lock: &'m RwLock<Q, Shard<K, V, A>>,
    td: &'d mut Q::Party,
) -> ShardReadGuard<'m, 'd, K, V, Q, A>
where
    Q::Runtime: Wait,
    ensures lock { result.held.0.place.now ≡ lock.now }
    ensures showed { (left : Q.Party) × Q.showed lock.now td.old left (read_guard_value result.inner) }
{
    ShardGuard::new(read_shown(lock, td))
}

/// Waits for an exclusive hold of the shard behind a lock.
pub(crate) fn hold_to_write<'m, 'd, K: Eq + Hash, V, Q: Evidence<Shard<K, V, A>>, A: Allocator>(
    lock: &'m RwLock<Q, Shard<K, V, A>>,
    td: &'d mut Q::Party,
) -> ShardWriteGuard<'m, 'd, K, V, Q, A>
where
    Q::Runtime: Wait,
    ensures lock { result.held.0.place.now ≡ lock.now }
    ensures found { (left : Q.Party) × Q.found lock.now td.old left (write_guard_value result.inner) }
{
    ShardGuard::new(write_found(lock, td))
}
