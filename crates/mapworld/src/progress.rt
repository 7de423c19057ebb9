//! The run of a world of maps to its end, and the proof that it comes there: somebody can move while a call is
//! unanswered, and a thread that is stepped until it can't move, and then another, take few steps together.
//!
//! # How steps are counted
//!
//! The ranking function `left` (`specs/Progress/Left.antt`) is a sum of three: the steps that are left at the shards'
//! locks (`steps_left` of `parking_lot_machine`); what each thread's place still takes beside, that is its calls that
//! haven't started and the phases that its call has before it; and two for each pair that a walk may still come to, a
//! look and a change. When a call at a lock begins, its steps go over from the second part to the first.
//!
//! Of n threads a release costs at most 110 * n + 116 steps, an admission 108, and the start, the look, a growth, the
//! change and the answer one each: `call_left`. A walk takes `visit_left` for each shard: the start of the visit, an
//! admission, the release of the shard before or of its own, and the look. It may come to each pair of the shards that
//! are left to it, and to each that others may add meanwhile: `to_come` counts the calls that may still add one. A pair
//! that is added counts one more in its shard and one less there, so no thread's step raises what another's walk has to
//! do.
//!
//! # Why somebody can move
//!
//! A thread that sleeps at a shard's lock waits for another that keeps it and is in no call there. Whoever holds a
//! shard can go on by itself, as programs hold one guard at a time and start no walk under a guard; with one exception:
//! a walk that takes the next shard before it gives the last one back. It waits for the shard above the one that it
//! keeps. So the shards that sleepers wait for rise from one keeper to the next, and the last of them has a keeper that
//! can move.

mod drains;
pub mod laws;

pub use drains::drain;
