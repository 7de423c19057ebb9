//! Items of a set's walk that lends.
ghost use Rattle.std.specs.Prelude.{◌≡◌, Some};
ghost use Rattle.dashmap_guard.specs.Guarded.{key_in};

use dashmap_iter::multiple;
use dashmap_table::Shard;
use lock_api_guards::{Hold, Lender};
use lock_api_raw::{NoMemory, RawRwLock};
use lock_api_rw::{RawHold, RwLock, Shared};
use std::alloc::{Allocator, Global};
use std::hash::Hash;
use std::marker::Model;
use std::ops::Deref;
use std::sync;
use std::sync::Wait;

/// An item of a walk over a set: one key of the shard that the walk holds. It shares the hold with the walk, and keeps
/// it as long as it lives, also where the walk has gone on.
///
/// It is named [`RefMulti`].
pub struct KeyMulti<
    K: Eq + Hash,
    A: Allocator,
    W: Lender<Part = Shard<K, (), A>> + Drop,
    H: Hold,
    D,
>
where
    H::Runtime: Wait,
{
    inner: multiple::MultiGuard<K, (), A, W, H, D>,
}

/// An item of a walk over a set. `'m` is the borrow of the set, and `'d` of what the thread lent to the walk.
///
/// ```text
/// for item in set.iter(&mut me) {
///     let key = item?;
///     longest = longest.max(key.len());
/// }
/// ```
pub type RefMulti<'m, 'd, K, Q, A = Global> = KeyMulti<
    K,
    A,
    sync::RwLockReadGuard<'m, Shard<K, (), A>>,
    RawHold<&'m RwLock<Q, Shard<K, (), A>>, Shared>,
    &'d mut <Q as RawRwLock>::Party,
>;

impl<K: Eq + Hash, A: Allocator, W: Lender<Part = Shard<K, (), A>> + Drop, H: Hold, D> Model
    for KeyMulti<K, A, W, H, D>
where
    H::Runtime: Wait,
{
    ghost use Rattle.std.specs.Prelude.{ℕ};
    ghost use Rattle.lock_api_guards.specs.declared.guard.Guard.{Guard};

    ghost Value = { Guard W H H.Lock H.Runtime H.Party H.Apart × ℕ };

    ghost view = { λ r. r.inner };
}

// By hand, as the item of a map's walk.
impl<K: Eq + Hash, A: Allocator, W: Lender<Part = Shard<K, (), A>> + Drop, H: Hold, D> Drop
    for KeyMulti<K, A, W, H, D>
where
    H::Runtime: Wait,
{
    fn drop(self) {
        let KeyMulti { inner } = self;
        drop(inner);
    }
}

impl<K: Eq + Hash, A: Allocator, W: Lender<Part = Shard<K, (), A>> + Drop, H: Hold, D> KeyMulti<
    K,
    A,
    W,
    H,
    D,
>
where
    H::Runtime: Wait,
{
    /// The item of a set's walk, where the map's walk gives this one.
    pub(crate) fn of_item(
        item: Option<Result<multiple::MultiGuard<K, (), A, W, H, D>, NoMemory>>,
    ) -> Option<Result<KeyMulti<K, A, W, H, D>, NoMemory>>
        ensures { result ≡ item }
    {
        match item {
            Some(Ok(inner)) => Some(Ok(KeyMulti { inner })),
            Some(Err(fault)) => Some(Err(fault)),
            None => None,
        }
    }

    /// The stored key.
    ///
    /// ```text
    /// while let Some(Ok(item)) = walk.next() { print(rt, item.key())?; }
    /// ```
    pub fn key(&self) -> &K
        ensures { key_in (W.part self.now.0.inner) self.now.1 ≡ Some result.now }
    {
        self.inner.key()
    }
}

impl<K: Eq + Hash, A: Allocator, W: Lender<Part = Shard<K, (), A>> + Drop, H: Hold, D> Deref
    for KeyMulti<K, A, W, H, D>
where
    H::Runtime: Wait,
{
    type Target = K;

    ghost deref_gives = { λ r key. key_in (W.part r.0.inner) r.1 ≡ Some key };

    fn deref(&self) -> &K {
        self.key()
    }
}
