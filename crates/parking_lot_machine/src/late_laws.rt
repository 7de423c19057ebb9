//! Laws of the machine: calls whose moment passes as they sleep.
ghost use Rattle.parking_lot_machine.specs.LateLaws.{LateActsAreSteps};

/// The moment of a call passes as it sleeps, and from then on its thread comes back into the section of its list, takes
/// itself out, masks the parked bit off where it was the last, leaves, and is answered. Or it finds there that it was
/// taken, which is two steps of the rules: its taker drops it from those that it is to wake, and it enters the section;
/// it leaves, and goes on as it was told. Each of these keeps the machine fit and is a step of the rules; the moment
/// adds a stated number of steps at most to those that are left, and the thread's own are paid for.
pub fn late_acts_are_steps()
    ensures { LateActsAreSteps }
{}
