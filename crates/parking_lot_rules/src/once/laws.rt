//! Laws of a one-time initialization, for every schedule and any number of threads, whether it is new or done at the
//! beginning.
ghost use Rattle.parking_lot_rules.specs.Once.Once.{AlwaysOfOnce, IsSound};
ghost use Rattle.parking_lot_rules.specs.Once.OnceLaws.{AlwaysOfSteps, ClosuresAreCounted, DoneStays};
ghost use Rattle.parking_lot_rules.specs.Once.OnceLaws.{NobodyIsForgotten, NothingIsLeft, SleepersAreKnown};
ghost use Rattle.parking_lot_rules.specs.Once.OnceLaws.{SleepersAreWoken, SomebodyIsAtWork, StateGoes, ThroughoutOnce};
ghost use Rattle.parking_lot_rules.specs.Once.OnceLaws.{WakersCanGoOn, WordTells};

/// It is sound at every moment: its word fits the thread that runs its closure and those that wait, its list holds
/// exactly those that wait there, and each thread is to wake those that it has taken.
pub fn every_once_is_sound()
    ensures { AlwaysOfOnce IsSound }
{}

/// The word says whether a closure runs, and one thread at most runs one.
pub fn one_closure_runs_at_a_time()
    ensures { AlwaysOfOnce WordTells }
{}

/// Of all closures that ever ran one at most ended well, and none where the thing was done from the beginning. Each
/// that was begun has returned, or runs. The thing is done exactly since the thread whose closure ended well has stored
/// that.
pub fn one_closure_ends_well_at_most()
    ensures { AlwaysOfSteps ClosuresAreCounted }
{}

/// What is done stays done, and no closure is begun any more.
pub fn what_is_done_stays_done()
    ensures { AlwaysOfOnce DoneStays }
{}

/// A step leaves the state as it is; or begins a closure, which is handed the state before: a new one, or a poisoned
/// one where the call is forced; or stores how a closure has ended: well, and the thing is done, or not, and it is
/// poisoned.
pub fn the_state_goes_by_closures()
    ensures { ThroughoutOnce StateGoes }
{}

/// The list holds exactly the threads that wait there. A thread that sleeps stands there once, or was taken by a thread
/// that is still to wake it.
pub fn sleepers_at_a_once_are_known()
    ensures { AlwaysOfOnce SleepersAreKnown }
{}

/// One that sleeps is about to be woken, or a closure runs; or it only waits, for a closure that nobody has begun.
pub fn no_sleeper_is_forgotten()
    ensures { AlwaysOfOnce NobodyIsForgotten }
{}

/// Where a thread sleeps another is at work there; or it only waits, for a closure that nobody has begun.
pub fn somebody_is_at_work()
    ensures { AlwaysOfOnce SomebodyIsAtWork }
{}

/// One that sleeps where it hasn't to wait any more was taken by a thread that is still to wake it: at the end of a
/// closure everybody, but one that waits on where the closure has failed.
pub fn the_end_of_a_closure_wakes()
    ensures { AlwaysOfOnce SleepersAreWoken }
{}

/// Whom a thread is to wake sleeps, and was taken by it; and the first of the list sleeps where a thread goes through
/// it.
pub fn wakers_can_go_on()
    ensures { AlwaysOfOnce WakersCanGoOn }
{}

/// Where no thread is in a call nobody stands in the list, the parked bit is clear, and no closure runs.
pub fn nothing_outlives_the_calls_at_a_once()
    ensures { AlwaysOfOnce NothingIsLeft }
{}
