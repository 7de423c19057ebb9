//! What the calls of plain shards, and of one bare shard, cost.

use dashmap_calls::workload::clock::report;
use dashmap_calls::workload::{Bare, Call, Deed, run};
use std::io;
use std::time::Instant;

const MANY: u32 = 1_000_000;

const FEW: u32 = 1_000;

/// The lines of a shard with many keys: the name of each, what is done, and for how many keys.
const OF_MANY: [(&'static str, Deed, u32); 6] = [
    ("st.loop.table", Deed::Mix, MANY),
    ("st.insert.table", Deed::Insert, MANY),
    ("st.get_hit.table", Deed::Hit, MANY),
    ("st.get_miss.table", Deed::Miss, MANY),
    ("st.iter.table", Deed::Walk, MANY),
    ("st.remove.table", Deed::Remove, MANY),
];

/// The lines of a shard with few keys.
const OF_FEW: [(&'static str, Deed, u32); 4] = [
    ("st.small_insert.table", Deed::Insert, FEW),
    ("st.small_hit.table", Deed::Hit, 4 * MANY),
    ("st.small_miss.table", Deed::Miss, 4 * MANY),
    ("st.small_churn.table", Deed::Churn, 2 * MANY),
];

/// Makes each line's calls on a shard of so many keys, and prints the line.
fn lines_of(rt: &HostRuntime, lines: &[(&'static str, Deed, u32)], keys: u32) -> io::Result<()> {
    let mut bare = Bare::new(rt.alloc());
    for (name, deed, count) in lines {
        let start = Instant::now(rt)?;
        match bare.run(*deed, u64::from(*count), u64::from(keys)) {
            Ok(sum) => report(rt, name, start, *count, sum)?,
            Err(_) => eprintln!(rt; "{name}: no memory")?,
        }
    }
    Ok(())
}

/// Prints a line for each call of one bare shard.
pub fn print_lines(rt: &HostRuntime) -> io::Result<()> {
    lines_of(rt, &OF_MANY, MANY)?;
    lines_of(rt, &OF_FEW, FEW)
}

/// Fills so many shards with the keys 0, 1, .., makes the call once for each key, and prints how many had each answer.
pub fn print_sums(rt: &HostRuntime, call: Call, keys: u64, shards: usize) -> io::Result<()> {
    match run(rt.alloc(), call, keys, shards) {
        Ok(sums) => println!(rt;
            "filled {} hit {} miss {} inserted {} removed {}",
            sums.filled, sums.hit, sums.missed, sums.inserted, sums.removed
        ),
        Err(_) => eprintln!(rt; "no memory"),
    }
}
