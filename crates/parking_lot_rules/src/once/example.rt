//! A run that can be made.
ghost use Rattle.parking_lot_rules.specs.Once.OnceExample.{RunIsThere};

/// One thread runs its closure, another sleeps beside it, and is woken by its end: then the thing is done, and nobody
/// is in a call.
pub fn a_caller_sleeps_and_is_woken()
    ensures { RunIsThere }
{}
