//! The rules of a one-time initialization whose waiters sleep in a list: what a thread can be doing there, what each of
//! its steps does to the word and to the list, and the proof that one closure at most ends well and no waiter is
//! forgotten, under every schedule.

mod example;
pub mod laws;
mod once_state;
mod wish;

pub use example::a_caller_sleeps_and_is_woken;
pub use once_state::OnceState;
pub use wish::Wish;
