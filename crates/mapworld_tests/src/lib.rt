//! Tests of the world of maps and of what stands below it: what no contract of theirs says, and no file of
//! `mapworld_explore` can.
#![tactic(auto)]

#[cfg(test)]
mod calls;
#[cfg(test)]
mod deadlines;
#[cfg(test)]
mod faults;
#[cfg(test)]
mod histories;
#[cfg(test)]
mod judged;
#[cfg(test)]
mod keys;
#[cfg(test)]
mod memory;
#[cfg(test)]
mod programs;
#[cfg(test)]
mod random;
#[cfg(test)]
mod sizes;
#[cfg(test)]
mod text;
#[cfg(test)]
mod worlds;
