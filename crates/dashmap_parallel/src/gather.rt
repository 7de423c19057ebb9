//! Answers about the pairs of a shared map, gathered from pieces that go side by side.
ghost use Rattle.std.specs.Prelude.{◌≡◌, ◌<◌, ◌++◌, length, Ok, IfOk};
ghost use Rattle.std.specs.declared.vec.Vec.{Vec};
ghost use Rattle.std.specs.List.{AllZip};
ghost use Rattle.std.specs.Thread.{IsSync, IsSend};
ghost use denote.Param.Send.{Frees};
ghost use Rattle.dashmap_table.specs.Slots.{pairs_of};
ghost use Rattle.dashmap_view.specs.Parallel.Calls.{AnswersOf};
ghost use Rattle.dashmap_parallel.specs.Visits.{MadeInPieces, GatheredFrom};

use crate::behind::answers_behind;
use crossbeam_utils::CachePadded;
use dashmap_table::{NoMemory, Shard};
use dashmap_view::parallel::first_of;
use lock_api_rw::{Evidence, RwLock};
use std::alloc::Allocator;
use std::hash::Hash;
use std::sync::Wait;
use std::thread;
use std::thread::Threads;

/// What a closure answers of each pair behind some locks, in their order, by one thread.
pub(crate) fn answers_in_piece<
    K: Eq + Hash,
    V,
    Q: Evidence<Shard<K, V, A>>,
    A: Allocator,
    B: Allocator + Clone,
    T: Drop,
    F: Fn(&K, &V) -> T,
>(
    locks: &[CachePadded<RwLock<Q, Shard<K, V, A>>>],
    td: &mut Q::Party,
    f: &F,
    alloc: &B,
) -> Result<Vec<T, B>, NoMemory>
where
    Q::Runtime: Wait,
    requires { F.IsAlwaysCallable f.now }
    ensures { IfOk result
        (λ v. GatheredFrom Q.showed
        (λ table. AllZip (AnswersOf F.Fn f.now) (pairs_of table.slots)) locks.now v.items) }
{
    let mut all = Vec::new(alloc.clone()?);
    for lock in locks {
        let mut part = answers_behind(&**lock, td, f, alloc.clone()?)?;
        all.append(&mut part)?;
    }
    Ok(all)
}

/// One list behind another, unless one of them is a refusal.
fn one_after<U: Drop, B: Allocator>(
    first: Result<Vec<U, B>, NoMemory>,
    second: Result<Vec<U, B>, NoMemory>,
) -> Result<Vec<U, B>, NoMemory>
    ensures { IfOk result (λ all. (v : Vec U B) × (w : Vec U B) × (first ≡ Ok v) × (second ≡ Ok w)
        × (all.items ≡ v.items ++ w.items)) }
{
    let mut all = first?;
    let mut rest = second?;
    all.append(&mut rest)?;
    Ok(all)
}

/// What a closure makes of each piece of some items, in order. Pieces go side by side, one for each party, contiguous,
/// and the larger ones first.
#[cycle(halves)]
pub(crate) fn made_in_pieces<
    R: Threads + Sync,
    X: Sync,
    D: Send,
    U: Send + Drop,
    B: Allocator + Clone + Send,
    F: Fn(&[X], &mut D) -> U + Sync,
>(rt: &R, items: &[X], parties: &mut [D], alloc: B, f: &F) -> Result<Vec<U, B>, NoMemory>
    requires some { 0 < length parties.old }
    requires callable { F.IsAlwaysCallable f.now }
    ensures { IfOk result (λ v. MadeInPieces F.Fn f.now items.now v.items) }
{
    let pieces = parties.len();
    if pieces == 1 {
        let mut one = Vec::new(alloc);
        one.push(f(items, &mut parties[0]))?;
        return Ok(one);
    }
    let half = pieces - pieces / 2;
    let (here, there) = items.split_at(first_of(items.len(), pieces, half));
    let (mine, yours) = parties.split_at_mut(half);
    let theirs = alloc.clone()?;
    let front = || -> Result<Vec<U, B>, NoMemory>
        requires { IsSync R.row × IsSync X.row × IsSync F.row × IsSend D.row × IsSend U.row × IsSend B.row
            × Frees B.Allocator B.dealloc_token × (0 < length mine.now) × F.IsAlwaysCallable f.now }
        ensures { IfOk result (λ v. MadeInPieces F.Fn f.entry.now here.entry.now v.items) }
    { made_in_pieces(rt, here, mine, alloc, f) };
    let back = || -> Result<Vec<U, B>, NoMemory>
        requires { IsSync R.row × IsSync X.row × IsSync F.row × IsSend D.row × IsSend U.row × IsSend B.row
            × Frees B.Allocator B.dealloc_token × (0 < length yours.now) × F.IsAlwaysCallable f.now }
        ensures { IfOk result (λ v. MadeInPieces F.Fn f.entry.now there.entry.now v.items) }
    { made_in_pieces(rt, there, yours, theirs, f) };
    let (first, second) = thread::join(rt, front, back);
    one_after(first, second)
}
