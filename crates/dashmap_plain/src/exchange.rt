//! Shards that change places with those behind locks.
ghost use Rattle.std.specs.Prelude.{◌≡◌, ◌≤◌, length, vec_len, vec_capacity};
ghost use Rattle.dashmap_map.specs.Owner.{EachOf};
ghost use Rattle.dashmap_plain.specs.Exchanged.{Exchanged};

use core::mem;
use crossbeam_utils::CachePadded;
use dashmap_map::owner::{OwnerEvidence, put_behind, take_out};
use dashmap_table::Shard;
use lock_api_rw::RwLock;
use std::alloc::Allocator;
use std::hash::Hash;

/// Puts a plain shard behind a lock that nobody else has, and gives the one that was there.
fn put_and_take<K: Eq + Hash, V, Q: OwnerEvidence<Shard<K, V, A>>, A: Allocator>(
    lock: &mut RwLock<Q, Shard<K, V, A>>,
    plain: Shard<K, V, A>,
) -> Shard<K, V, A>
    ensures lock { lock.new ≡ lock.old }
    ensures taken { Q.taken lock.old result }
    ensures put { Q.put lock.old plain }
{
    mem::replace_with(
        lock,
        plain,
        |lock, plain|
            ensures lock { result.0 ≡ lock }
            ensures taken { Q.taken lock result.1 }
            ensures put { Q.put lock plain }
        {
            let (raw, shard) = take_out(lock);
            (put_behind(raw, plain), shard)
        },
    )
}

/// Exchanges the shard behind a lock that nobody else has for a plain one. Another shard keeps the place meanwhile.
fn exchange<K: Eq + Hash, V, Q: OwnerEvidence<Shard<K, V, A>>, A: Allocator>(
    lock: &mut RwLock<Q, Shard<K, V, A>>,
    plain: &mut Shard<K, V, A>,
    spare: Shard<K, V, A>,
) -> Shard<K, V, A>
    ensures lock { lock.new ≡ lock.old }
    ensures taken { Q.taken lock.old plain.new }
    ensures put { Q.put lock.old plain.old }
    ensures spare { result ≡ spare }
{
    let held = mem::replace(plain, spare);
    mem::replace(plain, put_and_take(lock, held))
}

/// Exchanges each shard behind its lock for the plain one of the same number, as far as there are plain ones.
fn exchange_first<K: Eq + Hash, V, Q: OwnerEvidence<Shard<K, V, A>>, A: Allocator>(
    locks: &mut Vec<CachePadded<RwLock<Q, Shard<K, V, A>>>, A>,
    plain: &mut Vec<Shard<K, V, A>, A>,
    spare: Shard<K, V, A>,
) -> Shard<K, V, A>
    requires { length plain.old.items ≤ length locks.old.items }
    ensures locks { locks.new.items ≡ locks.old.items }
    ensures exchanged { Exchanged Q.taken Q.put (length plain.old.items) locks.old.items plain.old.items
        plain.new.items }
    ensures len { vec_len plain.new ≡ vec_len plain.old }
    ensures room { vec_capacity plain.new ≡ vec_capacity plain.old }
    ensures spare { result ≡ spare }
{
    let mut spare = spare;
    for number in 0..plain.len() {
        spare = exchange(&mut locks[number], &mut plain[number], spare);
    }
    spare
}

/// Exchanges each shard behind its lock for the plain one of the same number.
pub(crate) fn exchange_all<K: Eq + Hash, V, Q: OwnerEvidence<Shard<K, V, A>>, A: Allocator>(
    locks: &mut Vec<CachePadded<RwLock<Q, Shard<K, V, A>>>, A>,
    plain: &mut Vec<Shard<K, V, A>, A>,
)
    requires { length plain.old.items ≡ length locks.old.items }
    ensures locks { locks.new.items ≡ locks.old.items }
    ensures amount { length plain.new.items ≡ length plain.old.items }
    ensures exchanged { EachOf Q.taken locks.old.items plain.new.items × EachOf Q.put locks.old.items plain.old.items }
{
    let Some(last) = plain.pop() else {
        return;
    };
    let number = plain.len();
    let spare = exchange_first(locks, plain, last);
    plain.push_reserved(put_and_take(&mut locks[number], spare));
}
