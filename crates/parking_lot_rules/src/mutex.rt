//! Laws of a mutex, for every schedule and any number of threads, and with waiters of a condition variable that others
//! move into its list.
ghost use Rattle.parking_lot_rules.specs.Mutex.{AlwaysOfMutex, IsSound};
ghost use Rattle.parking_lot_rules.specs.MutexLaws.{DebtsAreKept, MutexTells, NothingIsLeft, SleepersAreKnown};
ghost use Rattle.parking_lot_rules.specs.MutexLaws.{SomebodyCanMove};
ghost use Rattle.parking_lot_rules.specs.MutexOwners.{StepsAreCases};

/// Every mutex is sound at every moment: its word fits its owner and the threads that wait, its list holds exactly
/// those, and who took a sleeper is still to wake it.
pub fn every_mutex_is_sound()
    ensures { AlwaysOfMutex IsSound }
{}

/// The word of a mutex says whether it is owned, and one thread owns it at most.
pub fn a_mutex_tells_its_owner()
    ensures { AlwaysOfMutex MutexTells }
{}

/// Where no thread owns a mutex or is in a call there, its word is 0 and its list is empty.
pub fn no_bit_of_a_mutex_outlives_the_calls()
    ensures { AlwaysOfMutex NothingIsLeft }
{}

/// A mutex's list holds exactly the threads that wait there. A thread that sleeps stands there once, or was taken by a
/// thread that is still to wake it.
pub fn sleepers_at_a_mutex_are_known()
    ensures { AlwaysOfMutex SleepersAreKnown }
{}

/// Where somebody waits for a mutex that nobody owns, some thread owes a look at the list, or a wake, or is about to
/// try again.
pub fn debts_of_a_mutex_are_kept()
    ensures { AlwaysOfMutex DebtsAreKept }
{}

/// Where a thread sleeps at a mutex, another is at work there, or owns the mutex and is in no call.
pub fn somebody_at_a_mutex_can_move()
    ensures { AlwaysOfMutex SomebodyCanMove }
{}

/// Each step at a mutex is a case of one without a word, which has an owner and a list: a thread is admitted, leaves,
/// enters the list, quits it or is moved into it, the first waiter is taken off it, the mutex is handed over, or
/// neither owner nor list changes.
pub fn each_step_at_a_mutex_is_a_case()
    ensures { AlwaysOfMutex StepsAreCases }
{}
