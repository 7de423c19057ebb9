//! What is done with the pairs of the shard behind a lock, which is held meanwhile.
ghost use Rattle.std.specs.Prelude.{◌≡◌, All, IfOk};
ghost use Rattle.std.specs.List.{AllZip};
ghost use Rattle.dashmap_table.specs.Slots.{pairs_of};
ghost use Rattle.dashmap_view.specs.Parallel.Calls.{AnswersOf, WritesEach};
ghost use Rattle.dashmap_iter.specs.Walks.Held.{WhileHeld};
ghost use Rattle.dashmap_parallel.specs.Visits.{WhileShared};

use dashmap_table::{NoMemory, Shard};
use dashmap_view::parallel::visit::{answers_of, visit_each, write_each};
use lock_api_rw::{Evidence, RwLock, read_shown, write_traced};
use std::alloc::Allocator;
use std::hash::Hash;
use std::sync::Wait;

/// Calls a closure once for each pair of a shard, under a shared hold.
pub(crate) fn visit_behind<
    K: Eq + Hash,
    V,
    Q: Evidence<Shard<K, V, A>>,
    A: Allocator,
    F: Fn(&K, &V),
>(lock: &RwLock<Q, Shard<K, V, A>>, td: &mut Q::Party, f: &F)
where
    Q::Runtime: Wait,
    requires { F.IsAlwaysCallable f.now }
    ensures { WhileShared Q.showed lock.now
        (λ table. All (λ p. AnswersOf F.Fn f.now p tt) (pairs_of table.slots)) }
{
    let guard = read_shown(lock, td);
    visit_each(&*guard, f);
}

/// What a closure answers of each pair of a shard, under a shared hold.
pub(crate) fn answers_behind<
    K: Eq + Hash,
    V,
    Q: Evidence<Shard<K, V, A>>,
    A: Allocator,
    B: Allocator,
    T: Drop,
    F: Fn(&K, &V) -> T,
>(
    lock: &RwLock<Q, Shard<K, V, A>>,
    td: &mut Q::Party,
    f: &F,
    alloc: B,
) -> Result<Vec<T, B>, NoMemory>
where
    Q::Runtime: Wait,
    requires { F.IsAlwaysCallable f.now }
    ensures { IfOk result
        (λ v. WhileShared Q.showed lock.now
        (λ table. AllZip (AnswersOf F.Fn f.now) (pairs_of table.slots) v.items)) }
{
    let guard = read_shown(lock, td);
    answers_of(&*guard, f, alloc)
}

/// Lends a closure the value of each pair of a shard for writing, under an exclusive hold.
pub(crate) fn write_behind<
    K: Eq + Hash,
    V,
    Q: Evidence<Shard<K, V, A>>,
    A: Allocator,
    F: Fn(&K, &mut V),
>(lock: &RwLock<Q, Shard<K, V, A>>, td: &mut Q::Party, f: &F)
where
    Q::Runtime: Wait,
    requires { F.IsAlwaysCallable f.now }
    ensures { WhileHeld Q.held lock.now (WritesEach F.Fn f.now) }
{
    let mut shard = write_traced(lock, td);
    write_each(&mut *shard, f);
    shard.give_back();
}
