//! Laws of a machine's answers and steps.
ghost use Rattle.parking_lot_machine_waits.specs.JointCases.{NotificationsAreRuns, StepsAreCases};
ghost use Rattle.parking_lot_machine_waits.specs.JointLaws.{RepliesFit, StaysWhole, WaitsEndOwning};
ghost use Rattle.parking_lot_machine_waits.specs.JointProgress.{GiversStayOut, SomebodyCanMove, SomebodyInsideGoes};
ghost use Rattle.parking_lot_machine_waits.specs.JointRanks.{StepsAreFew, StepsArePaidFor};
ghost use Rattle.parking_lot_machine_waits.specs.JointStays.{StepsLeave};

use parking_lot_machine::{laws as of_locks, moves_are_cases, moves_are_runs};
use parking_lot_machine_sides::condvar::laws as of_variables;

/// A wait is answered that its deadline came only if it has one; and a notification says how many it has taken, one at
/// most if it is of one.
pub fn replies_fit_their_calls()
    ensures { RepliesFit }
{
    of_variables::replies_fit_their_calls();
}

/// Where waits and mutexes are tied together, a beginning, a step or a deadline that is allowed leaves them so.
pub fn stays_whole()
    ensures { StaysWhole }
{
    of_locks::owners_agree();
}

/// Each beginning, step and deadline is, at one lock, cases of a lock without a word by the thread's numbers, one after
/// another, or nothing; and at one condition variable it is steps of its rules, or nothing. It leaves every other lock
/// and variable as it was.
pub fn each_step_is_a_case()
    ensures { StepsAreCases }
{
    moves_are_cases();
}

/// A beginning, a step or a deadline leaves the kinds of the locks, and which of them are variables; calls at locks are
/// where there were some, or at a mutex, or at the lock that is asked; nobody else begins a call; and no section is
/// open that wasn't, where none is entered.
pub fn steps_leave_the_rest()
    ensures { StepsLeave }
{}

/// Each step is paid for by the steps that were left, and with it all that it makes others do: of all threads in their
/// calls, where one of them is stepped until it can't move. What begins adds a stated number of steps.
pub fn steps_are_paid_for()
    ensures { StepsArePaidFor }
{}

/// At every moment all threads together have few steps left: so many for each of their numbers at a lock, and those of
/// one call at a variable each.
pub fn steps_are_few()
    ensures { StepsAreFew }
{
    of_locks::steps_are_few();
}

/// Where a thread is in a call, some thread can move; or that thread sleeps in a variable's list, or one of its numbers
/// at a lock that somebody keeps who is in no call there. So sleepers never wait for one another alone.
pub fn somebody_can_move()
    ensures { SomebodyCanMove }
{
    of_locks::awake_can_move();
    of_locks::somebody_can_move();
}

/// Where a section is open, of a lock or a variable, somebody can move who enters none.
pub fn somebody_inside_goes()
    ensures { SomebodyInsideGoes }
{
    of_locks::awake_can_move();
    of_locks::somebody_can_move();
}

/// Whoever gives its mutex up is in no section by its other number: each beginning, step and deadline keeps that, where
/// waits and mutexes are tied together.
pub fn givers_stay_out()
    ensures { GiversStayOut }
{}

/// A wait that is answered leaves its thread owning the mutex, however it ends.
pub fn waits_end_owning()
    ensures { WaitsEndOwning }
{}

/// What a notification does at the mutex that is shown is one run of the rules' steps of its thread: where the mutex is
/// locked all whom it takes come into its list, and else the first is woken, and the others stand behind it.
pub fn notifications_are_runs()
    ensures { NotificationsAreRuns }
{
    moves_are_runs();
}
