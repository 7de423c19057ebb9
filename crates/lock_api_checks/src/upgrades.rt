//! Checks of the upgradable guards of the reader-writer lock and of its waits that give up, written once over any raw
//! lock that has them.

pub mod rwlock_timed_checks;
pub mod upgradable_arc_checks;
pub mod upgradable_checks;
