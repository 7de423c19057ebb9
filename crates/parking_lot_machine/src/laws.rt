//! Laws of the machine.
ghost use Rattle.parking_lot_machine.specs.ActLaws.{ActsAreSteps};

pub use crate::call_laws::calls_lead;
pub use crate::late_laws::late_acts_are_steps;
pub use crate::lot_laws::{
    acts_keep_places, new_machines_hold_together, nexts_are_taken, the_lot_never_refuses,
};
pub use crate::mutex_laws::{
    a_mutex_is_shown_as_it_is, answers_are_steps_of_a_sound_mutex, calls_that_have_begun_go_on,
    roles_at_a_mutex_are_known, words_of_a_mutex_are_numbers,
};
pub use crate::rank_laws::{mutex_steps_fall, rw_steps_fall};
pub use crate::rw_laws::{
    acts_cross, answers_are_last, answers_are_moves, begins_are_ready, calls_keep, ends_are_steps,
    free_sections_are_empty, joins_are_steps, lists_are_known, makes_are_steps,
    only_sleepers_stand, scans_go_by_tokens, sleepers_at_a_lock_are_known, stays_are_steps,
    stores_are_steps, stores_tell, takes_are_steps, tokens_say, tokens_tell, wakes_are_steps,
    woken_are_told, words_are_numbers, writers_are_taken,
};
pub use crate::sound_laws::{
    awake_can_move, debts_are_kept, each_step_is_a_case, lists_are_waiters,
    lost_exchanges_have_causes, owners_agree, somebody_can_move, steps_are_few,
};
pub use crate::take_laws::takes_are_steps_of_the_machine;
pub use crate::tell_laws::tells_are_steps;
pub use crate::upgrade_laws::{
    upgradable_answers_are_steps, upgradable_calls_keep, upgradable_ends_are_steps,
    upgrade_steps_fall,
};
pub use parking_lot_machine_calls::laws::{
    allowed_calls_begin_well, modes_are_weighed, stances_follow_acts,
};

/// Each act of the machine keeps it fit, and is the step of the rules that the core's table names.
pub fn acts_are_steps()
    ensures { ActsAreSteps }
{}
