//! What a core is told at a sound reader-writer lock is a step of the rules there.
ghost use Rattle.parking_lot_machine.specs.RwLaws.{ActsCross, AnswersAreLast, AnswersAreMoves, BeginsAreReady};
ghost use Rattle.parking_lot_machine.specs.RwLaws.{CallsKeep, EndsAreSteps, ScansGoByTokens, FreeSectionsAreEmpty};
ghost use Rattle.parking_lot_machine.specs.RwLaws.{JoinsAreSteps, ListsAreKnown, MakesAreSteps, OnlySleepersStand};
ghost use Rattle.parking_lot_machine.specs.RwLaws.{SleepersAreKnown, StaysAreSteps, StoresAreSteps, StoresTell};
ghost use Rattle.parking_lot_machine.specs.RwLaws.{TakesAreSteps, TokensSay, TokensTell, WakesAreSteps, WokenAreTold};
ghost use Rattle.parking_lot_machine.specs.RwLaws.{WordsAreNumbers, WritersAreTaken};

/// The parts of a word and its number say the same.
pub fn words_are_numbers()
    ensures { WordsAreNumbers }
{}

/// What a thread is told by an act at a sound lock is the move that the table of cores says.
pub fn answers_are_moves()
    ensures { AnswersAreMoves }
{}

/// Where nothing moves the thread's role and the word stay.
pub fn stays_are_steps()
    ensures { StaysAreSteps }
{}

/// A step of the thread's own may be made, and leaves the lock with its new role and word.
pub fn makes_are_steps()
    ensures { MakesAreSteps }
{}

/// One that goes to sleep joins its list at the end.
pub fn joins_are_steps()
    ensures { JoinsAreSteps }
{}

/// One that scans the first list takes a waiter off it.
pub fn takes_are_steps()
    ensures { TakesAreSteps }
{}

/// A scan does at a waiter, by its sum and the token, what the rules do by whom it has taken.
pub fn scans_go_by_tokens()
    ensures { ScansGoByTokens }
{}

/// A waiter's token tells what it wants.
pub fn tokens_tell()
    ensures { TokensTell }
{}

/// The last reader takes the pending writer off the second list.
pub fn writers_are_taken()
    ensures { WritersAreTaken }
{}

/// The end of a scan stores the word of its kind of release, and tells all that were taken.
pub fn stores_are_steps()
    ensures { StoresAreSteps }
{}

/// Those that a scan has taken are woken with the token that says what they were told.
pub fn tokens_say()
    ensures { TokensSay }
{}

/// Who has taken others wakes them one by one, and each goes on as it was told.
pub fn wakes_are_steps()
    ensures { WakesAreSteps }
{}

/// Nobody is woken before its taker has stored.
pub fn woken_are_told()
    ensures { WokenAreTold }
{}

/// Where a thread stands matters only while it sleeps.
pub fn only_sleepers_stand()
    ensures { OnlySleepersStand }
{}

/// A thread that begins a call is in the role of one that is in none, and ready.
pub fn begins_are_ready()
    ensures { BeginsAreReady }
{}

/// The end of a call is a step of the rules or none, and leaves its thread with what it owns.
pub fn ends_are_steps()
    ensures { EndsAreSteps }
{}

/// A call that has begun is answered in one of its last phases.
pub fn answers_are_last()
    ensures { AnswersAreLast }
{}

/// A call keeps from its beginning to its end what its phases need.
pub fn calls_keep()
    ensures { CallsKeep }
{}

/// A step enters and leaves the sections that its act enters and leaves.
pub fn acts_cross()
    ensures { ActsCross }
{}

/// Where no thread has entered a section no lock has one inside.
pub fn free_sections_are_empty()
    ensures { FreeSectionsAreEmpty }
{}

/// One that takes waiters knows of its list what it needs for the store.
pub fn lists_are_known()
    ensures { ListsAreKnown }
{}

/// A store tells those that its thread took, and these are all that were taken at that lock and told nothing.
pub fn stores_tell()
    ensures { StoresTell }
{}

/// A thread that sleeps stands in the list of its key as one that wants what its token says.
pub fn sleepers_at_a_lock_are_known()
    ensures { SleepersAreKnown }
{}
