//! Laws of the rules: each holds of every run, whatever the schedule, the number of threads and locks, and the buckets.
ghost use Rattle.parking_lot_rules.specs.Laws.{DebtsAreKept, NothingIsLeft, OwnersExclude, RefusalsHaveACause};
ghost use Rattle.parking_lot_rules.specs.Laws.{SleepersAreKnown, SomebodyCanMove, WordTells};
ghost use Rattle.parking_lot_rules.specs.Lock.{IsSound};
ghost use Rattle.parking_lot_rules.specs.Runs.{Always};

pub use crate::debts::{
    debts_are_booked, debts_are_paid, debts_are_passed_on, debts_at_a_mutex_are_booked,
    debts_at_a_mutex_are_paid,
};
pub use crate::example::a_writer_waits_and_is_woken;
pub use crate::holds::{holds_are_within_the_limit, words_are_small};
pub use crate::many::{
    condition_variables_stay_sound, every_lock_of_every_kind_is_sound, nobody_is_forgotten,
    requeues_are_seen_at_both, steps_at_two_locks_keep_families_sound,
};
pub use crate::mutex::{
    a_mutex_tells_its_owner, debts_of_a_mutex_are_kept, each_step_at_a_mutex_is_a_case,
    every_mutex_is_sound, no_bit_of_a_mutex_outlives_the_calls, sleepers_at_a_mutex_are_known,
    somebody_at_a_mutex_can_move,
};
pub use crate::progress::{
    families_stay_sound, rising_locks_never_deadlock, sections_are_entered, sleepers_are_served,
};
pub use crate::steps::{
    a_call_begins_with_a_small_rank, a_step_stays_at_its_lock, another_thread_may_be_stepped,
    each_step_is_a_case, ranks_fall, readers_are_kept_out,
};
pub use crate::tries::{refused_tries_at_a_mutex_have_a_cause, refused_tries_have_a_cause};
pub use crate::wrong::{
    a_bit_on_an_empty_list_is_wrong, a_give_up_that_keeps_its_bit_is_wrong,
    a_join_without_a_check_is_wrong, a_scan_past_a_writer_is_wrong,
    a_section_that_forgets_the_writer_is_wrong, a_store_of_zero_with_waiters_is_wrong,
    a_wake_by_number_is_wrong, debts_alone_are_not_kept,
};

/// Every lock is sound at every moment: its word fits its owners and the threads that wait, each list holds exactly the
/// threads that wait there, and who took a sleeper is still to wake it.
pub fn every_lock_is_sound()
    ensures { Always IsSound }
{}

/// The word of a lock says who owns it: 16 for each shared hold, 20 for the upgradable one, 8 for the exclusive or
/// pending one, and the two parked bits.
pub fn the_word_tells_the_owners()
    ensures { Always WordTells }
{}

/// Beside an exclusive owner there is no other owner, and of upgradable, pending and exclusive owners there is one at
/// most.
pub fn owners_exclude_each_other()
    ensures { Always OwnersExclude }
{}

/// Where no thread owns a lock or is in a call there, its word is 0 and its lists are empty.
pub fn no_bit_outlives_the_calls()
    ensures { Always NothingIsLeft }
{}

/// A lock's lists hold exactly the threads that wait there. A thread that sleeps stands once in one list, or was taken
/// by a thread that is still to wake it.
pub fn sleepers_are_known()
    ensures { Always SleepersAreKnown }
{}

/// Where somebody waits on a lock's first key and there is no exclusive, pending or upgradable owner, or a pending
/// writer waits and there is no reader, some thread owes a look at the list, or a wake, or is about to try again.
pub fn debts_are_kept()
    ensures { Always DebtsAreKept }
{}

/// Where a thread sleeps at a lock, another is at work there, or owns the lock and is in no call: waiters never wait
/// for each other alone.
pub fn somebody_can_move()
    ensures { Always SomebodyCanMove }
{}

/// A try that finds a word that isn't 0 was refused for a reason: another thread owns the lock, or is in a call there.
pub fn a_refusal_has_a_cause()
    ensures { Always RefusalsHaveACause }
{}
