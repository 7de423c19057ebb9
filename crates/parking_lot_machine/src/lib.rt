//! The machine of locks: threads' calls at them, one atomic step at a time, in any order.
#![tactic(auto)]

mod acts;
mod advance;
mod call_laws;
mod late_acts;
mod late_laws;
pub mod laws;
mod lot_calls;
mod lot_laws;
mod machine_views;
mod mutex_laws;
mod new_machine;
mod rank_laws;
mod requeue;
mod row_machine;
mod rw_laws;
mod sound_laws;
mod take_laws;
mod tell_laws;
mod upgrade_laws;

pub use parking_lot_machine_calls::{
    Call, Core, Hold, LatePhase, LateRwPhase, LockCall, LockKind, OwnMode, QueuePosition,
    RwSleeper, WakeResult, Wakeup,
};
pub use parking_lot_protocol::{
    Act, ActResult, CoreAnswer, HAND_OVER, MutexCore, RwCore, SectionAct, TRY_AGAIN, WordChange,
    wake_sum,
};
pub use requeue::{moves_are_cases, moves_are_runs, requeues_are_runs};
pub use row_machine::RowMachine;
