//! The rules of locks whose waiters sleep in queues (mutex, reader-writer lock, condition variable, one-time
//! initialization): what a thread can be doing there, what each of its steps does to the word and the queues, and the
//! proof that in every run of these steps somebody is in debt for those who wait, so that no wakeup is lost.
#![tactic(auto)]

mod debts;
mod example;
mod holds;
pub mod laws;
mod many;
mod mutex;
pub mod once;
mod progress;
mod steps;
mod tries;
mod wrong;
