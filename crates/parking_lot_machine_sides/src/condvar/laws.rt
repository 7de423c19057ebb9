//! Laws of a machine's steps.
ghost use Rattle.parking_lot_machine_sides.specs.Condvar.MachineLaws.{RepliesFit};

/// A wait is answered that its deadline came only if it has one; and a notification says how many it has taken, one at
/// most if it is of one.
pub fn replies_fit_their_calls()
    ensures { RepliesFit }
{}
