//! Laws of shared holds: how many a thread has, and that the word counts them.
ghost use Rattle.parking_lot_rules.specs.Holds.{HoldsAreWithin, WordsAreSmall};

/// Where no call for a shared hold begins beyond a limit, no thread has more than that, at any lock and at any moment;
/// and the reader count is the sum of all threads' holds, of those that were handed over, and of the upgradable one.
pub fn holds_are_within_the_limit()
    ensures { HoldsAreWithin }
{}

/// With up to 65,536 threads, and up to 255 holds of each at a lock, every word is below 2^60: no reader count meets
/// its limit.
pub fn words_are_small()
    ensures { WordsAreSmall }
{}
