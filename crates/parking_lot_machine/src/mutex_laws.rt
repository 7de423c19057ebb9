//! Laws of mutexes: what the calls' cores are told is a step of the rules.
ghost use Rattle.std.specs.Prelude.{◌≡◌, true};
ghost use Rattle.parking_lot_protocol.specs.declared.act.ActResult.{ActResult};
ghost use Rattle.parking_lot_machine_calls.specs.declared.seat.Core.{Core};
ghost use Rattle.parking_lot_machine_calls.specs.Stances.{core_next, has_begun};
ghost use Rattle.parking_lot_machine.specs.MutexLaws.{MutexAnswersAreSteps, MutexIsShown, MutexRolesAreKnown};
ghost use Rattle.parking_lot_machine.specs.MutexLaws.{MutexWordsAreNumbers};

/// What the core of a call at a sound mutex is told, is a step that the rules allow: the word and the roles after it
/// are those that the core's tables name.
pub fn answers_are_steps_of_a_sound_mutex()
    ensures { MutexAnswersAreSteps }
{}

/// The word of a sound mutex is two bits, and they are one number below 4.
pub fn words_of_a_mutex_are_numbers()
    ensures { MutexWordsAreNumbers }
{}

/// What a thread is to a mutex follows from its call's phase, and while it sleeps from where it stands.
pub fn roles_at_a_mutex_are_known()
    ensures { MutexRolesAreKnown }
{}

/// A call that was told that it begins has begun, and goes on so.
pub fn calls_that_have_begun_go_on()
    ensures { (c : Core) (s : ActResult) → has_begun (core_next c s) ≡ true }
{}

/// What the machine keeps of threads at a mutex is what the rules say of them: where one stores, all are told that it
/// took; where a call ends, its answer is what is kept; and one that is to store knows its list.
pub fn a_mutex_is_shown_as_it_is()
    ensures { MutexIsShown }
{}
