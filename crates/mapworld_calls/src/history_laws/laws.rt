//! The laws: each function's contract is one. They are for proofs, and do nothing when they run.
ghost use Rattle.mapworld_calls.specs.HistoryLaws.Counts.{CountsAreNumbers};
ghost use Rattle.mapworld_calls.specs.HistoryLaws.Refusals.{LockedHasNoBlock, NoGuardIsAnswered};
ghost use Rattle.mapworld_calls.specs.HistoryLaws.Refusals.{RefusalsMayFindTheirKey, RefusedForMemoryHasNoBlock};
ghost use Rattle.mapworld_calls.specs.HistoryLaws.Sessions.{SessionsTellTheirOwn, WritesAreReadBack};
ghost use Rattle.mapworld_calls.specs.HistoryLaws.Shards.{OtherShardsCommute};
ghost use Rattle.mapworld_calls.specs.HistoryLaws.Walks.{VisitsGiveEachOnce, WalksGiveEachOnce};

use crate::Deed;
use std::alloc::Allocator;

/// What a call of a session is answered is told by what its key had at the session's position and by the session's own
/// calls up to it: nothing that another block did later changes an answer.
pub fn sessions_tell_their_own<K, V, D: Deed<K, V>, A: Allocator>()
    ensures { SessionsTellTheirOwn K V D D.Answer A }
{}

/// What an exclusive guard wrote is what the same session reads afterwards, through a downgrade too, until it writes
/// again.
pub fn writes_are_read_back<K, V, D: Deed<K, V>, A: Allocator>()
    ensures { WritesAreReadBack K V D D.Answer A }
{}

/// A walk that is answered and wasn't refused gives each key at most once. Where it goes to the end, it also gives each
/// pair that was there before it and that no other block changes from its first visit to its last: so exactly once.
pub fn walks_give_each_once<K, V, D: Deed<K, V>, A: Allocator>()
    ensures { WalksGiveEachOnce K V D D.Answer A }
{}

/// No two visits of a walk do equal keys, and none does one twice: also while the walk goes on, and where it is refused
/// for memory.
pub fn visits_give_each_once<K, V, D: Deed<K, V>, A: Allocator>()
    ensures { VisitsGiveEachOnce K V D D.Answer A }
{}

/// Where no other block changes a pair between its visits, `len` is the number of pairs, saturating; `is_empty` says
/// whether it is 0, and `capacity` is no less.
pub fn counts_are_numbers<K, V, D: Deed<K, V>, A: Allocator>()
    ensures { CountsAreNumbers K V D D.Answer A }
{}

/// Two neighbouring blocks on different shards may change places, walks' visits and sessions too: each block tells what
/// it told, contents are the same, and so are all replies.
pub fn other_shards_commute<K, V, D: Deed<K, V>, A: Allocator>()
    ensures { OtherShardsCommute K V D D.Answer A }
{}

/// A call that was refused for memory has no block, so it changed no pair; of a walk stand the visits before the
/// refused one, each whole.
pub fn refused_for_memory_has_no_block<K, V, D: Deed<K, V>, A: Allocator>()
    ensures { RefusedForMemoryHasNoBlock K V D D.Answer A }
{}

/// A call that was answered `Locked` is a try or has a deadline, and has no block, so it changed no pair.
pub fn locked_has_no_block<K, V, D: Deed<K, V>, A: Allocator>()
    ensures { LockedHasNoBlock K V D D.Answer A }
{}

/// A call on a guard is answered `NoGuard` where it stands in no session, or in one whose opening was refused.
pub fn no_guard_is_answered<K, V, D: Deed<K, V>, A: Allocator>()
    ensures { NoGuardIsAnswered K V D D.Answer A }
{}

/// That an insertion which finds its key is never refused for memory doesn't follow: well placed blocks and replies of
/// the replay allow a world in which one is.
pub fn refusals_may_find_their_key<K, V, D: Deed<K, V>, A: Allocator>()
    ensures { RefusalsMayFindTheirKey K V D D.Answer A }
{}
