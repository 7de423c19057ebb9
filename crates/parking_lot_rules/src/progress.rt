//! Laws of many locks: who can move.
ghost use Rattle.parking_lot_rules.specs.Any.{FamiliesStaySound};
ghost use Rattle.parking_lot_rules.specs.Progress.{InEveryRun, NoDeadlock, SectionsAreEntered, SleepersAreServed};

/// Whoever is inside a section of a key has entered the key's bucket, and whoever has entered a bucket is inside a
/// section of one of its keys. So where nobody has entered a bucket, nobody is inside.
pub fn sections_are_entered()
    ensures { InEveryRun SectionsAreEntered }
{}

/// Where a thread sleeps at a lock, some thread can move: it is in the middle of a call, awake, and before no bucket
/// that another has entered. Or a thread owns that lock and is in no call there.
pub fn sleepers_are_served()
    ensures { InEveryRun SleepersAreServed }
{}

/// Where each thread that owns a lock and sleeps at another sleeps at a higher one, and somebody sleeps, some thread
/// can move, or one owns a lock and is in no call at all.
pub fn rising_locks_never_deadlock()
    ensures { InEveryRun NoDeadlock }
{}

/// Reader-writer locks and mutexes in one family, with buckets in common: a step at one lock keeps each lock sound, and
/// the marks that say who has entered each bucket.
pub fn families_stay_sound()
    ensures { FamiliesStaySound }
{}
