//! Laws of progress: each function's contract is the law. They are for proofs, and do nothing when they run.
ghost use Rattle.mapworld.specs.Progress.Laws.{EndsAtRest, OthersGoOn, SomebodyMoves, StepsAreFew, StepsFall};
ghost use Rattle.mapworld.specs.Progress.Laws.{WalksRise};

/// Each step that isn't a deadline lowers the steps that are left, where its thread is stepped on.
pub fn steps_fall<K, V, S, D, T, A>()
    ensures { StepsFall K V S D T A }
{}

/// Whichever thread is stepped, no more steps are left than the threads and the unanswered calls take at most, and
/// fewer than the bound.
pub fn steps_are_few<K, V, S, D, T, A>()
    ensures { StepsAreFew K V S D T A }
{
    parking_lot_machine::laws::steps_are_few();
}

/// Where a thread can't move, any other may be stepped from there on, and no more steps are left.
pub fn others_go_on<K, V, S, D, T, A>()
    ensures { OthersGoOn K V S D T A }
{}

/// A walk that waits for a shard while it keeps another one keeps the one below. So walks never wait for each other in
/// a circle.
pub fn walks_rise<K, V, S, D, T, A>()
    ensures { WalksRise K V S D T A }
{}

/// While a call is unanswered, some thread can move.
pub fn somebody_moves<K, V, S, D, T, A>()
    ensures { SomebodyMoves K V S D T A }
{
    parking_lot_machine::laws::somebody_can_move();
}

/// Where nobody can move, every call is answered, nobody holds anything or waits, no bit of a word is set, and no desk
/// has a guard.
pub fn ends_at_rest<K, V, S, D, T, A>()
    ensures { EndsAtRest K V S D T A }
{
    parking_lot_machine::laws::somebody_can_move();
}
