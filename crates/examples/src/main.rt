//! Programs with maps and with locks. Each module below `maps` and `locks` is one by itself: its `run` makes a parking
//! lot, a table and maps or locks, and answers what came of its calls, whatever the schedule. Here they run one after
//! another, and what they answer is printed.
#![tactic(auto)]

mod locks;
mod maps;

fn main(rt: HostRuntime) -> Result<(), anyhow::Error> {
    maps::run_all(rt)?;
    locks::run_all(rt)
}
