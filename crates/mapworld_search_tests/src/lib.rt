//! Tests of the worlds of maps that two threads can come to: every schedule, and a drain from each state of it; and every
//! schedule of two calls at one shard's lock.
#![tactic(auto)]

#[cfg(test)]
mod explorer;
#[cfg(test)]
mod outcomes;
#[cfg(test)]
mod rules;
#[cfg(test)]
mod schedules;
#[cfg(test)]
mod sections;
#[cfg(test)]
mod shard_locks;
#[cfg(test)]
mod worlds;
