//! Laws of tries: each function's contract is the law. They are for proofs, and do nothing when they run.
ghost use Rattle.mapworld_state.specs.Invariant.Causes.Laws.{StepsKeepCauses, NewWorldsHaveCauses};
ghost use Rattle.mapworld_state.specs.Invariant.Causes.Laws.{TakenShardsHaveCalls, NobodySleepsAlone};

/// A step of any kind keeps causes: whoever holds a shard, or is in a call at its lock, has a call there; a try that
/// has seen its lock taken has met another thread's call on its shard since it began; and so has each try that was
/// answered `Locked`.
pub fn steps_keep_causes<K, V, S, D, T, A>()
    ensures { StepsKeepCauses K V S D T A }
{}

/// A world where nobody has done anything has causes.
pub fn new_worlds_have_causes<K, V, S, D, T, A>()
    ensures { NewWorldsHaveCauses K V S D T A }
{}

/// Where a lock's word isn't 0 some thread's call is on the lock's shard: a word says nothing that no call accounts
/// for.
pub fn words_have_calls<K, V, S, D, T, A>()
    ensures { TakenShardsHaveCalls K V S D T A }
{}

/// Who sleeps in a call at a shard's lock has a call on that shard, and so has another thread: nobody sleeps where
/// nobody is.
pub fn nobody_sleeps_alone<K, V, S, D, T, A>()
    ensures { NobodySleepsAlone K V S D T A }
{}
