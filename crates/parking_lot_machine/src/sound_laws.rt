//! What holds of a machine at every moment, in the words of its views.
ghost use Rattle.parking_lot_machine.specs.LostExchanges.{LostExchangesHaveCauses};
ghost use Rattle.parking_lot_machine.specs.SoundLaws.{Always, AwakeCanMove, DebtsAreKept, ListsAreWaiters, OwnersAgree};
ghost use Rattle.parking_lot_machine.specs.SoundLaws.{SomebodyCanMove, StepsAreCases, StepsAreFew};

/// Any two owners of a lock may own it so at one time: shared holds agree with one another, with the upgradable hold
/// and with a pending writer, and nothing else agrees.
pub fn owners_agree()
    ensures { Always OwnersAgree }
{}

/// Where a thread is in a call, some thread can move; or that thread sleeps, and one that is in no call at its lock
/// owns the lock. So sleepers never wait for one another alone.
pub fn somebody_can_move()
    ensures { Always SomebodyCanMove }
{}

/// A thread in a call can move, but where it sleeps, and where it is before a section while another is in one.
pub fn awake_can_move()
    ensures { Always AwakeCanMove }
{}

/// Where somebody waits in a lock's first list and nobody owns the lock but by shared holds, some thread in a call
/// there owes a section or a wake, or is about to try again; and so where somebody waits in the second list and nobody
/// reads. No waiter is forgotten.
pub fn debts_are_kept()
    ensures { Always DebtsAreKept }
{}

/// Each step of a machine, each beginning of a call, and each deadline that comes is a case of a lock without a word,
/// with named owners and two lists: it enters a list or leaves it, is admitted, hands the lock over, converts its hold,
/// leaves, gives up, takes another off a list, or changes neither owners nor lists. It leaves every other lock as it
/// was. A deadline moves nobody: who owns a lock owns it still, and who waits in a list waits there still.
pub fn each_step_is_a_case()
    ensures { StepsAreCases }
{}

/// At every moment a thread that is stepped alone makes at most 219 steps for each thread, and 200, before its call is
/// answered or it can't move; and all threads together, each stepped as long as it can, at most so many each.
pub fn steps_are_few()
    ensures { Always StepsAreFew }
{}

/// A lock's two lists have exactly the threads that wait there, each once: those that have joined the list and that
/// nobody has taken off it.
pub fn lists_are_waiters()
    ensures { Always ListsAreWaiters }
{}

/// A lost exchange has a cause: where a thread is about to exchange a word for another than the lock's, and the word
/// was the one that it expects when it made its last step, one of the steps since is another thread's and has changed
/// that word.
pub fn lost_exchanges_have_causes()
    ensures { LostExchangesHaveCauses }
{}
