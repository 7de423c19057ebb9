//! Laws of a machine's steps.
ghost use Rattle.parking_lot_machine_sides.specs.Once.OnceMachineLasting.{DoneStays, RepliesFit};

/// What is done stays done, whatever step is made.
pub fn what_is_done_stays_done()
    ensures { DoneStays }
{}

/// A call is answered that its closure ran only if it has one, and as that ended; and that it is poisoned only where it
/// isn't forced.
pub fn answers_fit_their_calls()
    ensures { RepliesFit }
{}
