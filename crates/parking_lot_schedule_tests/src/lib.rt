//! Searches of all schedules of threads at locks, onces and condition variables of a world: what has to hold on the way
//! and at the end.
#![tactic(auto)]

#[cfg(test)]
mod ends;
#[cfg(test)]
mod locks;
#[cfg(test)]
mod onces;
#[cfg(test)]
mod waits;
