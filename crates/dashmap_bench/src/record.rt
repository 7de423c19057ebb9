//! What gathering costs: callers that take turns make calls of all kinds on a recorded map, and what they noted is
//! gathered.

use crate::fault::Fault;
use crate::notes::{Fold, Lists, noted};
use dashmap_record::{Entered, gather};
use std::alloc::Global;
use std::sync::Wait;
use std::time::{Clock, Instant};

/// How many calls the small run makes.
const SMALL: u64 = 1_000;

/// What is gathered of histories and logs.
fn all_of(
    alloc: Global,
    notes: (Lists<Global>, Lists<Global>),
) -> Result<Vec<Entered<u64, u64>>, Fault> {
    let (histories, logs) = notes;
    gather(alloc, histories, logs, &Fold::new()).map_err(|_| Fault)
}

/// The sum of the entries' stamps, each times its place in the order.
fn checksum(entries: &[Entered<u64, u64>]) -> u64 {
    let mut sum = 0u64;
    for (entry, place) in entries.iter().zip(0u64..) {
        sum = sum.wrapping_add(entry.stamp.wrapping_mul(place));
    }
    sum
}

/// What the small run tells: how many calls were gathered, and their checksum.
pub fn small<R: Wait + Copy + Drop>(rt: R, alloc: Global) -> Result<String, Fault> {
    let all = all_of(alloc, noted(rt, alloc, SMALL)?)?;
    Ok(format!(in alloc; "gathered {} checksum {}", all.len(), checksum(&all))?)
}

/// How many nanoseconds each of so many calls took since a moment.
fn each<R: Clock>(rt: &R, start: Instant, count: u64) -> Result<u128, Fault> {
    let took = start.elapsed(rt).map_err(|_| Fault)?;
    Ok(took.as_nanos() / u128::from(count.max(1)))
}

/// How long so many calls take, to make and to gather.
pub fn timed<R: Wait + Clock + Copy + Drop>(
    rt: R,
    alloc: Global,
    count: u64,
) -> Result<String, Fault> {
    let start = Instant::now(&rt).map_err(|_| Fault)?;
    let notes = noted(rt, alloc, count)?;
    let made = each(&rt, start, count)?;
    let start = Instant::now(&rt).map_err(|_| Fault)?;
    let all = all_of(alloc, notes)?;
    let gathered = each(&rt, start, count)?;
    Ok(format!(in alloc;
        "{} calls, {made} ns to make and {gathered} ns to gather each",
        all.len()
    )?)
}
