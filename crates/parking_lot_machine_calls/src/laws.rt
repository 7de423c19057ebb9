//! Laws of calls: how they begin, what is said of their threads, and how they stand to the sections and lists of the
//! lot.
ghost use Rattle.parking_lot_machine_calls.specs.CallViews.{ModesAreWeighed};
ghost use Rattle.parking_lot_machine_calls.specs.StanceLaws.{ActsLead, CallsBegin, CallsEnd, KeysAreTwo, SleepersWake};
ghost use Rattle.parking_lot_machine_calls.specs.StanceLaws.{TakingsCount, WakersCount};

pub use crate::starts::allowed_calls_begin_well;

/// How a thread owns a lock is what the rules count it as: as a reader, an upgradable one, a pending writer or a
/// writer, and at a mutex as its owner.
pub fn modes_are_weighed()
    ensures { ModesAreWeighed }
{}

/// What an act gives leads a call in or out of its section, from one thing that it does there to the next, to its sleep
/// or out of it, and it counts whom it has taken and is still to wake. A scan counts one more while it has room for it:
/// a reader, or the first writer. A sleeper has taken nobody, and whoever is to wake somebody has taken somebody.
pub fn stances_follow_acts()
    ensures acts { ActsLead }
    ensures takings { TakingsCount }
    ensures sleepers { SleepersWake }
    ensures wakes { WakersCount }
    ensures keys { KeysAreTwo }
    ensures begins { CallsBegin }
    ensures ends { CallsEnd }
{}
