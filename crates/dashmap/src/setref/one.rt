//! Guards of one key, as `get` gives them.
ghost use Rattle.std.specs.Prelude.{◌≡◌, Some};
ghost use Rattle.dashmap_guard.specs.Guarded.{key_in};

use dashmap_guard::mapref::one;
use dashmap_table::Shard;
use lock_api_guards::{Hold, Lender};
use lock_api_raw::RawRwLock;
use lock_api_rw::{RawHold, RwLock, Shared};
use std::alloc::{Allocator, Global};
use std::hash::Hash;
use std::marker::Model;
use std::ops::Deref;
use std::sync;
use std::sync::Wait;

/// A guard of one key: a hold of its shard, and its slot. It lends the stored key, which is there as long as the guard
/// lives.
///
/// It is named [`Ref`]. Its drop releases the shard and may wait for the lot's short sections.
pub struct KeyGuard<
    K: Eq + Hash,
    A: Allocator,
    W: Lender<Part = Shard<K, (), A>> + Drop,
    H: Hold,
    D,
>
where
    H::Runtime: Wait,
{
    inner: one::Ref<K, (), A, W, H, D>,
}

/// A shared guard of one key of a set. `'m` is the borrow of the set, and `'d` of what the thread lent to the call.
///
/// ```text
/// let guard = set.get(&"seven", &mut me).ok_or("gone")?;
/// assert!(*guard == "seven");
/// ```
pub type Ref<'m, 'd, K, Q, A = Global> = KeyGuard<
    K,
    A,
    sync::RwLockReadGuard<'m, Shard<K, (), A>>,
    RawHold<&'m RwLock<Q, Shard<K, (), A>>, Shared>,
    &'d mut <Q as RawRwLock>::Party,
>;

impl<K: Eq + Hash, A: Allocator, W: Lender<Part = Shard<K, (), A>> + Drop, H: Hold, D> Model
    for KeyGuard<K, A, W, H, D>
where
    H::Runtime: Wait,
{
    ghost use Rattle.std.specs.Prelude.{ℕ};
    ghost use Rattle.lock_api_guards.specs.declared.guard.Guard.{Guard};

    ghost Value = { Guard W H H.Lock H.Runtime H.Party H.Apart × ℕ };

    ghost view = { λ r. r.inner };
}

// By hand, as the guard of a pair.
impl<K: Eq + Hash, A: Allocator, W: Lender<Part = Shard<K, (), A>> + Drop, H: Hold, D> Drop
    for KeyGuard<K, A, W, H, D>
where
    H::Runtime: Wait,
{
    fn drop(self) {
        let KeyGuard { inner } = self;
        drop(inner);
    }
}

impl<K: Eq + Hash, A: Allocator, W: Lender<Part = Shard<K, (), A>> + Drop, H: Hold, D> KeyGuard<
    K,
    A,
    W,
    H,
    D,
>
where
    H::Runtime: Wait,
{
    /// The guard of a pair's key.
    pub(crate) fn of_pair(inner: one::Ref<K, (), A, W, H, D>) -> KeyGuard<K, A, W, H, D>
        ensures { result ≡ inner }
    {
        KeyGuard { inner }
    }

    /// The stored key.
    ///
    /// ```text
    /// if let Some(found) = set.get(&"ann", &mut me) { print(rt, found.key())?; }
    /// ```
    pub fn key(&self) -> &K
        ensures { key_in (W.part self.now.0.inner) self.now.1 ≡ Some result.now }
    {
        self.inner.key()
    }
}

impl<K: Eq + Hash, A: Allocator, W: Lender<Part = Shard<K, (), A>> + Drop, H: Hold, D> Deref
    for KeyGuard<K, A, W, H, D>
where
    H::Runtime: Wait,
{
    type Target = K;

    ghost deref_gives = { λ r key. key_in (W.part r.0.inner) r.1 ≡ Some key };

    fn deref(&self) -> &K {
        self.key()
    }
}
