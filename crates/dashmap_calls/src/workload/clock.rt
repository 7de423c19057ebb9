//! How long something took.
use std::io;
use std::time::Instant;

/// Prints a name and how many nanoseconds each of so many operations took since a moment, and the sum of what they saw
/// to standard error, so that none of them is left out. A tool that counts instructions may count between its calls.
#[inline(never)]
pub fn report(
    rt: &HostRuntime,
    name: &str,
    start: Instant,
    operations: u32,
    sum: u64,
) -> io::Result<()> {
    let seconds = start.elapsed(rt)?.as_secs_f64();
    eprintln!(rt; "{name} saw {sum}")?;
    println!(rt; "{name} {}", seconds * 1e9 / f64::from(operations))
}
