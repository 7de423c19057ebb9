//! What no clause says: that the definitions of the programs and of the hash are the ones meant, the printed text, and
//! that blocks are compared by what they show.

use super::worlds::{Look, Numbers, looked_at, step_times};
use dashmap_table::{SpreadState, spread_hash};
use mapworld_calls::past::Past;
use mapworld_calls::{
    Answer, Ask, Begin, Block, Held, Keyed, Reply, guard_numbers, holds_one_guard,
};
use std::alloc::Global;
use std::hash::BuildHasher;
use std::snapshot::Snapshot;
use std::test::Fail;

type Call = Ask<u64, u64, u8>;

const GET: Call = Ask::Begin(Begin::Get(1));

const GET_MUT: Call = Ask::Begin(Begin::GetMut(1));

const READ: Call = Ask::Held(Held::Read(0));

const WRITE: Call = Ask::Held(Held::Write(0));

const DROP: Call = Ask::Held(Held::Drop);

const INSERT: Call = Ask::Keyed(Keyed::Insert(2, 3));

const REMOVE: Call = Ask::Keyed(Keyed::Remove(1));

/// Programs, and whether they hold one guard at a time and none at the end.
const PROGRAMS: &[(&[Call], bool)] = &[
    (&[], true),
    (&[READ, DROP], true),
    (&[GET, READ, DROP], true),
    (&[GET, READ, READ, DROP, REMOVE], true),
    (&[GET_MUT, WRITE, READ, DROP], true),
    (&[GET], false),
    (&[GET_MUT, WRITE], false),
    (&[GET, READ], false),
    (&[GET, GET, DROP], false),
    (&[GET, INSERT, DROP], false),
];

#[test]
fn a_program_holds_one_guard(rt: HostRuntime) {
    for (i, (program, want)) in PROGRAMS.iter().enumerate() {
        assert!(rt; holds_one_guard(program) == *want, "program {i}");
    }
}

#[test]
fn a_program_takes_guard_numbers(rt: HostRuntime) {
    assert!(rt; guard_numbers(&[INSERT, GET, READ, DROP], 2) == 2);
}

/// Keys and their hashes.
const SPREAD: &[(u64, u64)] = &[
    (0, 0),
    (1, 0x0100_0000_0000_0000),
    (2, 0x0200_0000_0000_0000),
    (3, 0x0300_0000_0000_0000),
    (256, 0),
    (257, 0x0100_0000_0000_0000),
];

#[test]
fn keys_spread(rt: HostRuntime) {
    for (key, want) in SPREAD {
        let is_so = SpreadState.hash_one(*key) == *want && spread_hash(*key) == *want;
        assert!(rt; is_so, "key {key}");
    }
}

/// Whether a reply is shown with all that it has.
fn is_reply_shown(alloc: Global) -> Result<bool, Fail> {
    let reply: Reply<u64, u64, u8, Global> = Reply {
        thread: 0,
        call: 1,
        start: 2,
        end: 4,
        answer: Answer::Pair(1, 3),
    };
    let shown = format!(in alloc; "{reply:?}")?;
    let want = "Reply { thread: 0, call: 1, start: 2, end: 4, answer: Pair(1, 3) }";
    Ok(shown.as_str() == want)
}

#[test]
fn calls_are_shown(rt: HostRuntime) -> Result<(), Fail> {
    let shown = format!(in rt.alloc();
        "{INSERT:?} {REMOVE:?} {GET:?} {GET_MUT:?} {READ:?} {WRITE:?} {DROP:?}"
    )?;
    let want =
        "Keyed(Insert(2, 3)) Keyed(Remove(1)) Begin(Get(1)) Begin(GetMut(1)) Held(Read(0)) Held(Write(0)) Held(Drop)";
    assert!(rt; shown.as_str() == want && is_reply_shown(rt.alloc())?);
    Ok(())
}

fn block(done: usize) -> Block<u64> {
    Block {
        thread: 0,
        call: 1,
        visit: 0,
        start: 2,
        position: 3,
        end: None,
        done: Snapshot::of(&done),
        visited: Past::new(),
    }
}

#[test]
fn a_block_shows_six_fields(rt: HostRuntime) -> Result<(), Fail> {
    // the two dots stand for what is kept for proofs alone
    let shown = format!(in rt.alloc(); "{:?}", block(0))?;
    let want = "Block { thread: 0, call: 1, visit: 0, start: 2, position: 3, end: None }";
    assert!(rt; shown.as_str() == want);
    assert!(rt; block(0) == block(1));
    Ok(())
}

/// Looks at what a world shows behind three steps of its first thread: start, load and exchange, by which the shard is
/// its own.
#[derive(Drop)]
struct ThreeSteps;

impl Look for ThreeSteps {
    type Seen = String;

    fn look<W: Numbers>(self, alloc: Global, world: &mut W) -> Result<String, Fail> {
        if step_times(world, 0, 3) {
            Ok(format!(in alloc; "{world:?}")?)
        } else {
            Err(Fail::new("a step isn't made"))
        }
    }
}

#[test]
fn a_world_shows_its_threads_words_and_pairs(rt: HostRuntime) -> Result<(), Fail> {
    let text = "thread a\n  insert 1 10\nthread b\n  get 3\n    drop\n";
    let shown = looked_at(rt.alloc(), 2, &[(3, 7)], text, ThreeSteps)?;
    let want = "MapWorld { steps: 3, threads: [Running, Running], words: [0, 8], pairs: {3: 7} }";
    assert!(rt; shown.as_str() == want, "{shown}");
    Ok(())
}
