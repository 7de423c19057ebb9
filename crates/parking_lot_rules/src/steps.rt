//! Laws of steps: what each step at a lock does, in every run.
ghost use Rattle.parking_lot_rules.specs.Laws.{ReadersAreKeptOut};
ghost use Rattle.parking_lot_rules.specs.Owners.{IsOfItsCase};
ghost use Rattle.parking_lot_rules.specs.Ranks.{RanksBegin, RanksChange, RanksFall};
ghost use Rattle.parking_lot_rules.specs.Runs.{Always, StaysAtItsLock, Throughout};

/// Each step is a case of a lock without a word, which has named owners and two lists: it enters a list or quits it, is
/// admitted, hands the lock over, converts its hold, leaves, gives up, takes another off a list, or changes neither
/// owners nor lists.
pub fn each_step_is_a_case()
    ensures { Throughout IsOfItsCase }
{}

/// While a writer is pending on a lock that isn't recursive, the reader count doesn't grow, but where a pending upgrade
/// gives up.
pub fn readers_are_kept_out()
    ensures { Throughout ReadersAreKeptOut }
{}

/// Each step within a call that a thread makes, stepped alone, lowers the sum of all threads' ranks, also where it
/// takes other threads off a list, tells them or wakes them. So it comes to an end, or to its sleep, in as many steps
/// as that sum at most, but for steps that change nothing: loads, spins and exchanges that were lost.
pub fn ranks_fall()
    ensures { Throughout RanksFall }
{}

/// The first step of a call on a lock raises the sum of the ranks by at most 18 for each thread, and 9.
pub fn a_call_begins_with_a_small_rank()
    ensures { Throughout RanksBegin }
{}

/// Where the thread that was stepped sleeps or is in no call at the lock, the sum of the ranks is no greater if another
/// thread is stepped from there on, whatever that one has seen of the word.
pub fn another_thread_may_be_stepped()
    ensures { Always RanksChange }
{}

/// A step at one lock changes nothing at another: not its word, its lists, nor what any thread owns of it or does
/// there.
pub fn a_step_stays_at_its_lock()
    ensures { StaysAtItsLock }
{}
