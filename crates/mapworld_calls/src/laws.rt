//! Laws of programs and of blocks: each function's contract is the law. They are for proofs, and do nothing when they
//! run.
ghost use Rattle.mapworld_calls.specs.Laws.{
  BlocksArePlain,
  BlocksCommute,
  EndsAgree,
  LastCallsAgree,
  LastVisitsAgree,
  NewBlocksAgree,
  PlacesStay,
  PlacesStayBefore,
  QuietCallsAgree,
  QuietVisitsAgree,
  ReadingWalksChangeNothing,
  RefusedCallsChangeNothing,
  RepliesAgree,
  ReplaySplits,
  SettledIsNow,
  SettledStays,
  VisitsStayDone,
};
ghost use Rattle.mapworld_calls.specs.Sessions.{SessionsAreApart};

use crate::deed::Deed;
use std::alloc::Allocator;

/// While a session is open, a program that holds one guard at a time asks for nothing else: a keyed call, an opening or
/// a walk never stands in a session. It is a law for proofs, and does nothing when it runs.
pub fn sessions_are_apart<K, V, D>()
    ensures { SessionsAreApart K V D }
{}

/// Blocks of any kind, each of which works on the keys of one shard: two neighbours on different shards may change
/// places, contents stay, and each finds on its shard what it found.
pub fn blocks_commute<B, K, O>()
    ensures { BlocksCommute B K O }
{}

/// What a key has is told by the blocks of its shard alone, so a replay may be read shard by shard.
pub fn replay_splits<B, K, O>()
    ensures { ReplaySplits B K O }
{}

/// Where no later block changes what a block left, its keys have now what it left.
pub fn settled_is_now<B, K, O>()
    ensures { SettledIsNow B K O }
{}

/// A settled block stays so while others change nothing or are on other shards; the last block on a shard is settled,
/// whatever it does, and stays the last while no block is added.
pub fn settled_stays<B, K, O>()
    ensures { SettledStays B K O }
{}

/// The blocks of a world are such blocks, walks included: each changes keys of its own shard alone, tells what it finds
/// there, and treats equal keys alike.
pub fn blocks_are_plain<K, V, D: Deed<K, V>, A: Allocator>()
    ensures { BlocksArePlain K V D D.Answer A }
{}

/// A call that leaves its key's pair as it is may be made whatever stands behind its block: no answer that was given
/// and no pair is another by it. Reads are such calls, and so are calls that a guard's kind doesn't allow.
pub fn quiet_calls_agree<K, V, D: Deed<K, V>, A: Allocator>()
    ensures { QuietCallsAgree K V D D.Answer A }
{}

/// A call that changes its key's pair may be made where no later block is on its shard.
pub fn last_calls_agree<K, V, D: Deed<K, V>, A: Allocator>()
    ensures { LastCallsAgree K V D D.Answer A }
{}

/// A visit may do one more key whatever stands behind its block, if it leaves the key's pair as it is.
pub fn quiet_visits_agree<K, V, D: Deed<K, V>, A: Allocator>()
    ensures { QuietVisitsAgree K V D D.Answer A }
{}

/// A visit that changes or removes the key's pair may do so where no later block is on its shard.
pub fn last_visits_agree<K, V, D: Deed<K, V>, A: Allocator>()
    ensures { LastVisitsAgree K V D D.Answer A }
{}

/// What a visit has done stays within its walk when it does one more key: one of its shard that it hadn't done and that
/// has a pair, while the walk has an item left to give.
pub fn visits_stay_done<K, V, D: Deed<K, V>>()
    ensures { VisitsStayDone K V D D.Answer }
{}

/// The end of a call may be written into its block.
pub fn ends_agree<K, V, D: Deed<K, V>, A: Allocator>()
    ensures { EndsAgree K V D D.Answer A }
{}

/// A block of a new call may be added at the end, with what it did there.
pub fn new_blocks_agree<K, V, D: Deed<K, V>, A: Allocator>()
    ensures { NewBlocksAgree K V D D.Answer A }
{}

/// A reply may be added whose answer is that of the replay.
pub fn replies_agree<K, V, D: Deed<K, V>, A: Allocator>()
    ensures { RepliesAgree K V D D.Answer A }
{}

/// A call on a guard of a kind that doesn't allow it, or where none is held, changes nothing.
pub fn refused_calls_change_nothing<K, V, D: Deed<K, V>, A: Allocator>()
    ensures { RefusedCallsChangeNothing K V D D.Answer A }
{}

/// A walk that only reads or counts changes no pair, so each of its visits may be made whatever stands behind its
/// block.
pub fn reading_walks_change_nothing<K, V, D: Deed<K, V>>()
    ensures { ReadingWalksChangeNothing K V D D.Answer }
{}

/// Blocks stay well placed when one of them goes on: a session makes its next call, or a visit does one more key.
pub fn places_stay<K, V, D: Deed<K, V>, A: Allocator>()
    ensures { PlacesStay K V D D.Answer A }
{}

/// Blocks stay well placed when one is added at the end.
pub fn places_stay_before<K, V, D: Deed<K, V>, A: Allocator>()
    ensures { PlacesStayBefore K V D D.Answer A }
{}
