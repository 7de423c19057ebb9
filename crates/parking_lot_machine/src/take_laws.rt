//! Laws of the machine: lists are joined, and waiters are taken off them.
ghost use Rattle.parking_lot_machine.specs.TakeLaws.{TakesAreSteps};

/// A thread that joins a list and one that takes the first of it, or finds nobody there, keep the machine fit and make
/// the step of the rules that their core's table names. Nobody is skipped.
pub fn takes_are_steps_of_the_machine()
    ensures { TakesAreSteps }
{}
