//! Laws of the steps that are left of a call.
ghost use Rattle.parking_lot_machine.specs.RankLaws.{MutexStepsFall, RwStepsFall};

/// Each act of a call at a mutex lowers the steps that are left of it, whatever it gives; a wake lowers them by all
/// that the woken thread does.
pub fn mutex_steps_fall()
    ensures { MutexStepsFall }
{}

/// The same at a reader-writer lock, as long as no reader count is at its limit.
pub fn rw_steps_fall()
    ensures { RwStepsFall }
{}
