//! Laws of the machine: how threads tell and wake those whom they have taken.
ghost use Rattle.parking_lot_machine.specs.TellLaws.{TellsAreSteps};

/// A store, and a mask, tells all whom its thread has taken and told nothing yet; and the first of them is woken as it
/// was told.
pub fn tells_are_steps()
    ensures { TellsAreSteps }
{}
