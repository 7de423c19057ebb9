//! All schedules of two threads with calls of each pair of kinds, each state of them drained.
//!
//! Programs are written as in a file of `mapworld_explore`; each thread of a text stands for one that is tried.

use crate::explorer::{Explorer, Found, Two};
use crate::worlds::{copy_of, programs_of, shard_of, world_of};
use mapworld_text::Asked;
use std::process::Abort;
use std::test::Fail;

/// Calls on one key of shard 1.
const KEYED: &str = "
thread a
  view 1
thread b
  insert 3 7
thread c
  remove 1
";

/// Sessions with a guard of each kind on shard 1.
const GUARDED: &str = "
thread shared
  get 1
    drop
thread exclusive
  get-mut 1
    add 1
    drop
thread downgraded
  get-mut 1
    downgrade
    drop
thread occupied
  entry 1
    remove-entry
    drop
thread vacant
  entry 3
    insert 4
    drop
";

/// Tries on shard 1.
const TRIES: &str = "
thread shared
  try-get 1
    drop
thread exclusive
  try-get-mut 1
    drop
thread entry
  try-entry 3
    drop
";

/// Calls with a deadline on shard 1.
const TIMED: &str = "
thread inserts
  insert-until 3 7
thread removes
  remove-until 1
thread shared
  get-until 1
    drop
thread exclusive
  get-mut-until 1
    add 1
    drop
";

/// Walks of all kinds.
const WALKS: &str = "
thread reads
  iter
thread reads-and-adds
  iter-mut add 1
thread keeps
  retain add 1 keep value < 6
thread adds
  alter-all add 1
thread clears
  clear
thread counts
  len
thread asks-if-empty
  is-empty
thread asks-for-room
  capacity
thread shrinks
  shrink-to-fit
";

/// A reading call.
const VIEW: &str = "thread a\n  view 1\n";

/// An insertion of an absent key.
const INSERT: &str = "thread a\n  insert 3 7\n";

/// A removal.
const REMOVE: &str = "thread a\n  remove 1\n";

/// A session with a shared guard.
const SHARED: &str = "
thread a
  get 1
    drop
";

/// A session with an exclusive guard.
const EXCLUSIVE: &str = "
thread a
  get-mut 1
    add 1
    drop
";

/// A session with a guard that becomes shared.
const DOWNGRADED: &str = "
thread a
  get-mut 1
    downgrade
    drop
";

/// Sessions with an occupied and with a vacant entry.
const ENTRIES: &str = "
thread a
  entry 1
    remove-entry
    drop
thread b
  entry 3
    insert 4
    drop
";

/// A session with a vacant entry.
const VACANT: &str = "
thread a
  entry 3
    insert 4
    drop
";

/// A walk that reads.
const READS: &str = "thread a\n  iter\n";

/// A walk that reads, and changes each value.
const READS_AND_ADDS: &str = "thread a\n  iter-mut add 1\n";

/// A walk that keeps some pairs.
const KEEPS: &str = "thread a\n  retain add 1 keep value < 6\n";

/// A walk that counts.
const COUNTS: &str = "thread a\n  len\n";

/// A walk that changes each value.
const ADDS: &str = "thread a\n  alter-all add 1\n";

/// Two calls that read.
const TWO_LOOKS: &str = "
thread a
  view 1
  contains 3
";

/// Two calls that read, and two that change.
const TWO_OTHERS: &str = "
thread a
  contains 1
  view 3
thread b
  insert 3 7
  remove 1
";

/// An insertion of a present key, and a removal.
const REPLACES: &str = "
thread a
  insert 1 6
  remove 1
";

/// A removal, and an insertion.
const PUTS_BACK: &str = "
thread a
  remove 1
  insert 1 7
";

/// An insertion, and a call that reads, on shard 1.
const INSERT_AND_VIEW: &str = "
thread a
  insert 1 6
  view 1
";

/// A removal, and an insertion, on shard 0.
const PUTS_BACK_BESIDE: &str = "
thread a
  remove 2
  insert 2 7
";

/// A call on shard 1, and one on shard 0.
const FIRST_THEN_SECOND: &str = "
thread a
  insert 1 6
  remove 2
";

/// A call on shard 0, and one on shard 1.
const SECOND_THEN_FIRST: &str = "
thread a
  insert 2 7
  view 1
";

/// Walks beside one that takes the next shard before it gives one back.
const BESIDE_A_HANDOVER: &str = "
thread a
  iter-mut add 1
thread b
  clear
thread c
  len
thread d
  shrink-to-fit
";

/// Walks beside one of a shard at a time.
const BESIDE_A_RETAIN: &str = "
thread a
  alter-all add 1
thread b
  retain add 1 keep value < 6
thread c
  is-empty
thread d
  shrink-to-fit
";

/// Walks beside one that counts.
const BESIDE_A_COUNT: &str = "
thread a
  alter-all add 1
thread b
  clear
thread c
  len
thread d
  capacity
thread e
  shrink-to-fit
";

/// Calls of each kind on shard 0.
const ON_SHARD_0: &str = "
thread a
  view 2
thread b
  insert 4 7
thread c
  remove 2
thread d
  get 2
    drop
thread e
  get-mut 2
    downgrade
    drop
thread f
  entry 4
    insert 4
    drop
thread g
  try-get-mut 2
    drop
";

/// A removal on shard 0.
const REMOVE_2: &str = "thread a\n  remove 2\n";

/// Sessions with guards on shard 0.
const GUARDS_ON_SHARD_0: &str = "
thread a
  get 2
    drop
thread b
  try-get-mut 2
    drop
";

/// Walks that stop.
const STOPS: &str = "
thread a
  iter stop 1
thread b
  iter-mut stop 1 add 1
thread c
  iter-mut stop 2 add 1
thread d
  iter stop 0
";

/// Calls that change a pair of one shard.
const CHANGES: &str = "
thread a
  insert 1 9
thread b
  remove 2
";

/// Walks that read, and that keep some pairs.
const READS_AND_KEEPS: &str = "
thread a
  iter
thread b
  retain add 1 keep value < 7
";

/// Sums up what is found.
fn sum(found: Found, more: Found) -> Found {
    Found {
        states: found.states.saturating_add(more.states),
        ends: found.ends.saturating_add(more.ends),
        share: found.share.max(more.share),
    }
}

/// Makes all schedules of two programs.
fn explore_two(
    rt: &(impl AllocGlobal + Abort),
    pairs: &[(u64, u64)],
    first: &[Asked],
    other: &[Asked],
) -> Result<Found, Fail> {
    let alloc = rt.alloc();
    let programs = vec![in alloc; copy_of(alloc, first)?, copy_of(alloc, other)?]?;
    let two = Two {
        pairs,
        programs: &programs,
    };
    Explorer::explore(rt, two)
}

/// Makes all schedules of a program with each of the others.
fn explore_each(
    rt: &(impl AllocGlobal + Abort),
    pairs: &[(u64, u64)],
    first: &[Asked],
    others: &[Vec<Asked>],
) -> Result<Found, Fail> {
    let mut found = Found::NOTHING;
    for other in others {
        found = sum(found, explore_two(rt, pairs, first, other)?);
    }
    Ok(found)
}

/// Makes all schedules of each of the first programs with each of the others.
fn explore_all(
    rt: &(impl AllocGlobal + Abort),
    pairs: &[(u64, u64)],
    firsts: &str,
    others: &str,
) -> Result<Found, Fail> {
    let firsts = programs_of(rt.alloc(), firsts)?;
    let others = programs_of(rt.alloc(), others)?;
    let mut found = Found::NOTHING;
    for first in &firsts {
        found = sum(found, explore_each(rt, pairs, first, &others)?);
    }
    Ok(found)
}

/// The one pair that a world of one shard in use begins with.
const ONE: &[(u64, u64)] = &[(1, 5)];

/// A pair on each shard.
const BOTH: &[(u64, u64)] = &[(1, 5), (2, 6)];

/// Programs that are tried: a word for them, the first ones and the others, and how many states there are at least.
/// Were there fewer, different ones might have been taken for one.
#[derive(Clone, Copy)]
struct Row(&'static str, &'static str, &'static str, u64);

/// Makes all schedules of a row, and prints how many states there are.
fn explore(
    rt: &(impl AllocGlobal + Abort + Print),
    pairs: &[(u64, u64)],
    row: Row,
) -> Result<(), Fail> {
    let Row(name, firsts, others, least) = row;
    let Found {
        states,
        ends,
        share,
    } = explore_all(rt, pairs, firsts, others)?;
    assert!(rt;
        states >= least && ends > 0,
        "{name}: {states} states, {ends} ends"
    );
    println!(rt; "{name}: {states} states, {ends} ends, at most {share} thousandths of a bound")?;
    Ok(())
}

/// Makes all schedules of each row, from these pairs.
fn explore_rows(
    rt: &(impl AllocGlobal + Abort + Print),
    pairs: &[(u64, u64)],
    rows: &[Row],
) -> Result<(), Fail> {
    for row in rows {
        explore(rt, pairs, *row)?;
    }
    Ok(())
}

#[test]
fn the_tests_know_the_shards(rt: HostRuntime) -> Result<(), Fail> {
    let world = world_of(rt.alloc(), &[], &programs_of(rt.alloc(), VIEW)?)?;
    for key in 0..8 {
        assert!(rt; world.shard_of(&key) == shard_of(key), "of key {key}");
    }
    Ok(())
}

/// Programs of two calls on one shard.
const TWO_CALLS: &[Row] = &[
    Row("that read", TWO_LOOKS, TWO_OTHERS, 4_200),
    Row("that change", REPLACES, PUTS_BACK, 3_600),
];

/// Programs of two calls on two shards.
const TWO_CALLS_ON_TWO: &[Row] = &[
    Row("a shard each", INSERT_AND_VIEW, PUTS_BACK_BESIDE, 270),
    Row("both", FIRST_THEN_SECOND, SECOND_THEN_FIRST, 1_600),
];

#[test]
fn programs_of_two_calls(rt: HostRuntime) -> Result<(), Fail> {
    explore_rows(&rt, ONE, TWO_CALLS)?;
    explore_rows(&rt, BOTH, TWO_CALLS_ON_TWO)
}

/// Calls, guards and tries beside calls on keys and tries.
const BESIDE_CALLS: &[Row] = &[
    Row("calls, calls", KEYED, KEYED, 3_700),
    Row("guards, calls", GUARDED, KEYED, 9_100),
    Row("tries, calls", TRIES, KEYED, 2_400),
    Row("tries, tries", TRIES, TRIES, 1_000),
];

#[test]
fn calls_guards_and_tries_beside_calls_on_keys(rt: HostRuntime) -> Result<(), Fail> {
    explore_rows(&rt, ONE, BESIDE_CALLS)
}

/// Guards beside guards.
const BESIDE_GUARDS: &[Row] = &[
    Row("shared", SHARED, GUARDED, 2_700),
    Row("exclusive", EXCLUSIVE, GUARDED, 3_900),
    Row("that become shared", DOWNGRADED, GUARDED, 5_600),
];

#[test]
fn guards_beside_guards(rt: HostRuntime) -> Result<(), Fail> {
    explore_rows(&rt, ONE, BESIDE_GUARDS)
}

/// Entries and tries beside guards.
const ENTRIES_AND_TRIES: &[Row] = &[
    Row("entries", ENTRIES, GUARDED, 8_100),
    Row("tries", TRIES, GUARDED, 4_800),
];

#[test]
fn entries_and_tries_beside_guards(rt: HostRuntime) -> Result<(), Fail> {
    explore_rows(&rt, ONE, ENTRIES_AND_TRIES)
}

/// Calls with a deadline beside calls without.
const TIMED_BESIDE_OTHERS: &[Row] = &[
    Row("calls on keys", TIMED, KEYED, 6_500),
    Row("tries", TIMED, TRIES, 4_400),
    Row("a walk", TIMED, READS, 2_200),
];

#[test]
fn calls_with_deadlines_beside_calls_without(rt: HostRuntime) -> Result<(), Fail> {
    explore_rows(&rt, ONE, TIMED_BESIDE_OTHERS)
}

#[test]
fn calls_with_deadlines_beside_each_other(rt: HostRuntime) -> Result<(), Fail> {
    explore(&rt, ONE, Row("timed", TIMED, TIMED, 11_000))
}

#[test]
fn calls_with_deadlines_beside_guards(rt: HostRuntime) -> Result<(), Fail> {
    explore(&rt, ONE, Row("guards", TIMED, GUARDED, 15_800))
}

/// Walks beside calls on keys.
const WALKS_BESIDE_CALLS: &[Row] = &[
    Row("a reading call", VIEW, WALKS, 3_100),
    Row("an insertion", INSERT, WALKS, 4_700),
    Row("a removal", REMOVE, WALKS, 4_600),
];

#[test]
fn walks_beside_calls_on_keys(rt: HostRuntime) -> Result<(), Fail> {
    explore_rows(&rt, ONE, WALKS_BESIDE_CALLS)
}

/// Walks beside guards and entries.
const WALKS_BESIDE_GUARDS: &[Row] = &[
    Row("a shared guard", SHARED, WALKS, 3_300),
    Row("an exclusive guard", EXCLUSIVE, WALKS, 6_100),
    Row("entries", VACANT, WALKS, 6_100),
];

#[test]
fn walks_beside_guards_and_entries(rt: HostRuntime) -> Result<(), Fail> {
    explore_rows(&rt, ONE, WALKS_BESIDE_GUARDS)
}

/// Walks beside a guard that becomes shared, and beside tries.
const WALKS_BESIDE_TRIES: &[Row] = &[
    Row("a guard that becomes shared", DOWNGRADED, WALKS, 8_400),
    Row("tries", TRIES, WALKS, 8_400),
];

#[test]
fn walks_beside_guards_that_become_shared_and_tries(rt: HostRuntime) -> Result<(), Fail> {
    explore_rows(&rt, ONE, WALKS_BESIDE_TRIES)
}

/// Walks beside one that reads, and beside one that takes the next shard before it gives one back.
const BESIDE_READING_WALKS: &[Row] = &[
    Row("reads", READS, WALKS, 8_500),
    Row("hands over", READS_AND_ADDS, BESIDE_A_HANDOVER, 6_000),
];

#[test]
fn walks_beside_walks_that_read(rt: HostRuntime) -> Result<(), Fail> {
    explore_rows(&rt, ONE, BESIDE_READING_WALKS)
}

/// Walks beside one of a shard at a time, and beside one that counts.
const BESIDE_OTHER_WALKS: &[Row] = &[
    Row("of a shard at a time", KEEPS, BESIDE_A_RETAIN, 6_100),
    Row("counts", COUNTS, BESIDE_A_COUNT, 4_400),
];

#[test]
fn walks_beside_walks_of_a_shard_at_a_time(rt: HostRuntime) -> Result<(), Fail> {
    explore_rows(&rt, ONE, BESIDE_OTHER_WALKS)
}

/// Calls on the one shard beside calls on the other, and walks over both.
const ON_TWO_SHARDS: &[Row] = &[
    Row("calls on keys", KEYED, ON_SHARD_0, 1_800),
    Row("guards", GUARDED, ON_SHARD_0, 4_200),
    Row("tries", TRIES, ON_SHARD_0, 1_800),
    Row("walks that stop", STOPS, CHANGES, 2_600),
    Row("walks that change", READS_AND_ADDS, READS_AND_KEEPS, 3_600),
    Row("walks that count", ADDS, COUNTS, 1_500),
];

#[test]
fn calls_and_walks_on_two_shards(rt: HostRuntime) -> Result<(), Fail> {
    explore_rows(&rt, BOTH, ON_TWO_SHARDS)
}

/// Walks over two shards beside calls on one.
const WALKS_OVER_TWO: &[Row] = &[
    Row("a removal", REMOVE_2, WALKS, 6_700),
    Row("guards", GUARDS_ON_SHARD_0, WALKS, 8_300),
];

#[test]
fn walks_over_two_shards_beside_calls(rt: HostRuntime) -> Result<(), Fail> {
    explore_rows(&rt, BOTH, WALKS_OVER_TWO)
}
