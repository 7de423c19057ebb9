//! Tests of the machines of locks, of condition variables and of onces, for what no clause of them says: calls told one
//! thing after another, which calls are refused to whom, the machines step by step, and how much memory they and worlds
//! take.
#![tactic(auto)]

#[cfg(test)]
mod buckets;
#[cfg(test)]
mod calls;
#[cfg(test)]
mod condvars;
#[cfg(test)]
mod machine;
#[cfg(test)]
mod memory;
#[cfg(test)]
mod onces;
#[cfg(test)]
mod refusals;
#[cfg(test)]
mod requeues;
#[cfg(test)]
mod shard_locks;
#[cfg(test)]
mod sizes;
#[cfg(test)]
mod waits;
