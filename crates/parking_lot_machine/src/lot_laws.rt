//! Laws of the machine of rows: how its threads stand to the sections and lists of the lot.
ghost use Rattle.parking_lot_machine.specs.NextTakings.{NextsAreTaken};
ghost use Rattle.parking_lot_machine.specs.LotLaws.{ActsKeepFits, ActsKeepWakes, LotNeverRefuses, NewMachinesFit};
ghost use Rattle.parking_lot_machine.specs.LotLaws.{RegisteredThreadsRun, ScansHaveRoom};

use parking_lot_core_model::{FilterOp, ParkToken};

/// Whatever act a thread's call asks for, what held of the lot and the calls holds after it: each thread's place in the
/// lot is that of its call, who waits in a list sleeps at that list's lock, and who was taken is still to be woken by
/// its taker, and nobody else is.
pub fn acts_keep_places()
    ensures places { ActsKeepFits }
    ensures wakes { ActsKeepWakes }
{}

/// Each act finds the lot as it needs it. Where no section is open one can be entered; each step of a section comes
/// where the section may make it; whom a section takes is another thread, which sleeps; and who is to wake somebody
/// finds a thread that was told and isn't woken yet. A scan has room to count whomever it takes.
pub fn the_lot_never_refuses()
    ensures calls { LotNeverRefuses }
    ensures room { ScansHaveRoom }
{}

/// A section takes the next of its list that its filter wants, by a filter that goes by the token alone and stops at
/// none; and nobody only where it passes all.
pub fn nexts_are_taken<F: FnMut(ParkToken) -> FilterOp + Drop>(filter: F)
    ensures { NextsAreTaken F.step filter }
{
    let _ = &filter;
}

/// A machine in which nobody is in a call holds together, as does one that registers its threads one by one.
pub fn new_machines_hold_together()
    ensures fit { NewMachinesFit }
    ensures run { RegisteredThreadsRun }
{}
