//! A check that is run with each growth refused in turn.
ghost use Rattle.std.specs.Prelude.{◌<◌, suc, IfOk, IfErr};
ghost use Rattle.refusing_heap.specs.Turns.{RunsUnder, Turns, Stops};

use crate::growths::Refusal;
use crate::heap::RefusingHeap;
use std::alloc::Allocator;

/// Why not each growth could be refused in turn.
#[derive(Clone, Copy, Debug, PartialEq, Eq)]
pub enum EachGrowthFault<E> {
    /// The check found something wrong: under which refusal, and what it said.
    Wrong(Refusal, E),
    /// The turns are over, and in the last one a growth was refused still.
    Endless,
}

/// What a check says of a heap, and the check as the call has left it.
fn ask<A: Allocator, E, C: FnMut(&RefusingHeap<A>) -> Result<(), E>>(
    heap: &RefusingHeap<A>,
    check: C,
) -> (Result<(), E>, C)
    requires { C.IsAlwaysCallable check }
    ensures ran { RunsUnder C.FnMut heap.now.inner heap.now.growths.refusal check result.0 result.1 }
    ensures again { C.IsAlwaysCallable result.1 }
{
    let mut check = check;
    let said = check(heap);
    (said, check)
}

/// Runs a check with the first growth refused, then with the second, and so on, until a run of which none was refused.
/// It answers how many runs had a growth refused.
///
/// Each run has a heap of its own over the allocator. Where the refusal to begin with is `Once(1)`, each growth is
/// refused in turn, and alone; `Onwards(1)` refuses those behind it too. To spare growths that come before what is
/// tested, begin with a later number. The check asks of the heap what it will, looks whether all stands as it should,
/// refused or not, and answers `Err` where something doesn't, which ends the runs: [`EachGrowthFault::Wrong`]. It should
/// do the same in each run. So many turns are made at most, the one with nothing refused among them; where they don't
/// suffice it is [`EachGrowthFault::Endless`].
///
/// It needs no memory of its own, and waits only where the check does.
///
/// ```text
/// let refused = each_growth(rt.alloc(), Refusal::Once(1), 60, |heap| insert_all(rt, heap))?;
/// ```
pub fn each_growth<A: Allocator + Copy, E, C: FnMut(&RefusingHeap<A>) -> Result<(), E> + Drop>(
    alloc: A,
    first: Refusal,
    turns: u64,
    check: C,
) -> Result<u64, EachGrowthFault<E>>
    requires { C.IsAlwaysCallable check }
    ensures ok { IfOk result (λ refused. (refused < turns)
        × ((last : C) × Turns C.FnMut alloc first (suc refused) check last)) }
    ensures err { IfErr result (λ fault. Stops C.FnMut alloc first turns check fault) }
{
    let mut check = check;
    for turn in 0..turns {
        let refusal = first.later(turn);
        let heap = RefusingHeap::new(alloc, refusal);
        let (said, next) = ask(&heap, check);
        check = next;
        if let Err(said) = said {
            return Err(EachGrowthFault::Wrong(refusal, said));
        }
        if heap.refused() == 0 {
            return Ok(turn);
        }
    }
    Err(EachGrowthFault::Endless)
}
