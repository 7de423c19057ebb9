//! Tests of the parking lot and of lock words, for what no clause of theirs says: that the lot's definitions are the
//! ones meant, by rows worked by hand, the printed text, that calls succeed where memory is left, that threads sleep and are
//! woken, and that a lock word can be had and excludes.
#![tactic(auto)]

#[cfg(test)]
mod buckets;
#[cfg(test)]
mod heaps;
#[cfg(test)]
mod lists;
#[cfg(test)]
mod lock_words;
#[cfg(test)]
mod many;
#[cfg(test)]
mod parking;
#[cfg(test)]
mod refusing;
#[cfg(test)]
mod script;
#[cfg(test)]
mod sections;
#[cfg(test)]
mod sleepers;
#[cfg(test)]
mod threads;
#[cfg(test)]
mod trials;
