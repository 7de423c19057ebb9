//! Tests of the recorded map and of recorded histories: worked examples, notes that are doctored, refused growths, and
//! callers in threads.
//!
//! A call is data, and so is its reply: one function makes it on a map over any lock.

mod alone;
mod beside;
mod calls;
mod doctored;
mod threads;
mod words;
