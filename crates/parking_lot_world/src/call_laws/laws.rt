//! Laws of the calls at a machine of locks.
ghost use Rattle.parking_lot_world.specs.CallLaws.SameCores.{CoresAreTheSame};

pub use parking_lot_machine::laws::calls_lead;

/// A call of the machine begins, asks for acts and goes on as the core does that threads run for it, `TimedMutexCore`
/// or `TimedRwCore`, phase for phase, also where its deadline comes, where it takes itself off its list, and where
/// another has taken it before.
pub fn cores_are_the_same()
    ensures { CoresAreTheSame }
{}
