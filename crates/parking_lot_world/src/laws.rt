//! Laws of worlds.
ghost use Rattle.parking_lot_world.specs.WorldAnswers.{AnswersFit};
ghost use Rattle.parking_lot_world.specs.WorldLaws.{StepsAreCases, StepsArePaid};

use parking_lot_machine::laws::calls_lead;
use parking_lot_machine_sides::once::laws as of_onces;
use parking_lot_machine_waits::laws as of_waits;

/// Each step that is allowed is, at one lock, cases of a lock without a word, with named owners and two lists: the
/// thread enters a list or leaves it, is admitted, hands the lock over, converts its hold, leaves, gives up, takes
/// another off a list or moves one into it, or changes neither owners nor lists; or, at a condition variable or at a
/// once, it is steps of the rules of those, or changes nothing. A wait and a notification do both at once, at the
/// variable and at its mutex. It leaves every other lock, variable and once as it was.
pub fn each_step_is_a_case()
    ensures { StepsAreCases }
{
    of_waits::each_step_is_a_case();
}

/// Each step of a thread's call lowers the steps that are left of all threads' calls, at locks, at condition variables
/// and at onces together, where the same thread is stepped on. So no thread goes on for ever in the calls that have
/// begun.
pub fn each_step_is_paid_for()
    ensures { StepsArePaid }
{
    of_waits::steps_are_paid_for();
}

/// Whatever the schedule, a call is answered only what it may be. One that asks for a lock, or turns its hold into
/// another, is answered `Owned`; a try that or `Refused`; one with a deadline `Owned`, or `TimedOut` where its deadline
/// has come since it began; one that gives a hold up `Released`; a wait `Owned`, `WrongMutex`,
/// or `TimedOut` where its deadline has come; a notification `Flag` or `Count`; a call at a once `Ran` or `Failed` as
/// its closure ends, `Poisoned` where it isn't forced, or `Completed`.
pub fn answers_fit_their_calls()
    ensures { AnswersFit }
{
    calls_lead();
    of_waits::replies_fit_their_calls();
    of_onces::answers_fit_their_calls();
}
