//! Laws of debts: which threads owe the waiters of a lock something, or are about to try again, and that some thread
//! always is.
ghost use Rattle.parking_lot_rules.specs.Debts.{DebtsAreBooked, DebtsArePaid, DebtsArePassedOn};
ghost use Rattle.parking_lot_rules.specs.Mutex.{AlwaysOfMutex};
ghost use Rattle.parking_lot_rules.specs.MutexDebts.{MutexDebtsAreBooked, MutexDebtsArePaid, ThroughoutMutex};
ghost use Rattle.parking_lot_rules.specs.Runs.{Always, Throughout};

/// Who is in debt, as a test of what a thread is doing, is who has seen waiters or entered a section, until that
/// section has ended and all whom the thread took are woken; and who was woken, or taken while awake, until it owns or
/// waits again. It begins and ends at the steps that say so, and at no others.
pub fn debts_are_booked()
    ensures { Throughout DebtsAreBooked }
{}

/// The list of those in debt has each of them once, and no other thread. Where somebody waits on a lock's first key and
/// there is no exclusive, pending or upgradable owner, or a pending writer waits and there is no reader, some thread is
/// in debt; and where somebody sleeps at a lock, some thread is in debt or owns the lock, awake.
pub fn debts_are_paid()
    ensures { Always DebtsArePaid }
{}

/// The last owner that keeps those out that wait is in debt once it has gone: it passes the lock on.
pub fn debts_are_passed_on()
    ensures { Throughout DebtsArePassedOn }
{}

/// The same of a mutex: the list of those in debt has each once and no other thread; where somebody waits and nobody
/// owns the mutex some thread is in debt; and where somebody sleeps some thread is in debt, or the owner is awake.
pub fn debts_at_a_mutex_are_paid()
    ensures { AlwaysOfMutex MutexDebtsArePaid }
{}

/// At a mutex a thread begins to owe, or to try again, and ends it, at the steps that say so and at no others; and an
/// owner that goes while somebody waits is in debt once it has gone.
pub fn debts_at_a_mutex_are_booked()
    ensures { ThroughoutMutex MutexDebtsAreBooked }
{}
