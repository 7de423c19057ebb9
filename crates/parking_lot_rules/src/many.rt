//! Laws of many locks of any kind: reader-writer locks, mutexes and condition variables, with buckets in common.
ghost use Rattle.parking_lot_rules.specs.Every.{InEveryRun, IsSoundEverywhere, NobodyIsForgotten};
ghost use Rattle.parking_lot_rules.specs.Every.{RequeuesAreSeenAtBoth, TwoKeepSound};
ghost use Rattle.parking_lot_rules.specs.Variable.{VariablesStaySound};

/// A condition variable is sound at every moment: its list holds exactly those that wait, all of them with the mutex
/// that its word shows, and the word shows none where nobody waits.
pub fn condition_variables_stay_sound()
    ensures { VariablesStaySound }
{}

/// Every step keeps a family of locks of every kind sound, each lock and the marks of the buckets; also one that a
/// thread makes at two locks at one time, where it enters both sections, is inside both, or leaves both.
pub fn steps_at_two_locks_keep_families_sound()
    ensures { TwoKeepSound }
{}

/// Every lock of every kind is sound at every moment of every run, and whoever is inside a section has entered its
/// bucket.
pub fn every_lock_of_every_kind_is_sound()
    ensures { InEveryRun IsSoundEverywhere }
{}

/// Where a thread sleeps at a reader-writer lock or a mutex, some thread can move, or one owns that lock and is in no
/// call there. Where each that owns a lock sleeps at a higher one at most, some thread can move, or one owns a lock and
/// sleeps nowhere.
pub fn nobody_is_forgotten()
    ensures { InEveryRun NobodyIsForgotten }
{}

/// A waiter that a notifier moves from a condition variable to a mutex leaves the one list as its first, and stands in
/// the other one as its last, once; it is the mutex that the waiter waits with; and both stay sound.
pub fn requeues_are_seen_at_both()
    ensures { InEveryRun RequeuesAreSeenAtBoth }
{}
