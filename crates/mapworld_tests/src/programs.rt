//! Random programs.

use mapworld::{Ask, Begin, Held, Keyed, Walk};
use mapworld_text::{Asked, Change};
use std::alloc::{AllocError, Global};

/// How many keys the programs use.
pub const KEYS: u64 = 8;

/// How many kinds of calls open a program's next part.
pub const KINDS: u64 = 26;

/// Numbers that follow no simple rule, and are the same at each run.
#[derive(Drop)]
pub struct Random {
    state: u64,
}

impl Random {
    pub fn new(seed: u64) -> Random {
        Random {
            state: seed.wrapping_mul(0x9E37_79B9_7F4A_7C15),
        }
    }

    /// The next number, below that one.
    pub fn below(&mut self, number: u64) -> u64 {
        self.state = self
            .state
            .wrapping_mul(6364136223846793005)
            .wrapping_add(1442695040888963407);
        (self.state >> 33).checked_rem(number).unwrap_or(0)
    }

    fn stop(&mut self) -> Option<u64> {
        match self.below(10) {
            0..=4 => None,
            stop => Some(stop.wrapping_sub(5)),
        }
    }
}

/// Which programs are made.
#[derive(Clone, Copy, Debug)]
pub enum Shape {
    /// Up to six parts of any kind.
    Any,
    /// Up to six parts; those of even threads are of that kind.
    Kind(u64),
    /// Twelve parts on four keys, none of them a walk or a try, and three calls on each guard.
    Long,
}

/// A call of that kind on that key, where it is no walk.
fn on_key(random: &mut Random, kind: u64, key: u64) -> Option<Asked> {
    let value = random.below(10);
    let change = Change::NONE;
    match kind {
        0 => Some(Ask::Keyed(Keyed::Insert(key, value))),
        1 => Some(Ask::Keyed(Keyed::Remove(key))),
        2 => Some(Ask::Keyed(Keyed::RemoveIf(key, change.keep_below(value)))),
        3 => {
            let added = change.add(random.below(4));
            Some(Ask::Keyed(Keyed::RemoveIfMut(key, added.keep_below(value))))
        }
        4 => Some(Ask::Keyed(Keyed::Alter(key, change.add(value)))),
        5 => Some(Ask::Keyed(Keyed::View(key, change))),
        6 => Some(Ask::Keyed(Keyed::ContainsKey(key))),
        22 => Some(Ask::Keyed(Keyed::InsertUntil(key, value))),
        23 => Some(Ask::Keyed(Keyed::RemoveUntil(key))),
        _ => opening(kind, key),
    }
}

/// An opening of that kind on that key.
fn opening(kind: u64, key: u64) -> Option<Asked> {
    match kind {
        7 => Some(Ask::Begin(Begin::Get(key))),
        8 => Some(Ask::Begin(Begin::GetMut(key))),
        9 => Some(Ask::Begin(Begin::Entry(key))),
        10 => Some(Ask::Begin(Begin::TryGet(key))),
        11 => Some(Ask::Begin(Begin::TryGetMut(key))),
        12 => Some(Ask::Begin(Begin::TryEntry(key))),
        24 => Some(Ask::Begin(Begin::GetUntil(key))),
        25 => Some(Ask::Begin(Begin::GetMutUntil(key))),
        _ => None,
    }
}

/// The walk of that kind.
fn walk(random: &mut Random, kind: u64) -> Walk<Change> {
    let change = Change::NONE.add(1);
    match kind {
        13 => Walk::Iter(Change::NONE, random.stop()),
        14 => Walk::IterMut(change, random.stop()),
        15 => Walk::Retain(change.keep_below(random.below(10).saturating_add(5))),
        16 => Walk::AlterAll(change),
        17 => Walk::Clear,
        18 => Walk::Len,
        19 => Walk::IsEmpty,
        20 => Walk::Capacity,
        _ => Walk::ShrinkToFit,
    }
}

/// A call on the guard that isn't its last.
fn on_guard(random: &mut Random) -> Held<u64, Change> {
    let number = random.below(8);
    match random.below(13) {
        0 => Held::Write(Change::NONE.add(number)),
        1 => Held::Write(Change::NONE.set(number)),
        2 => Held::Downgrade,
        3..=5 => Held::Insert(number),
        6 => Held::IntoRef,
        7 => Held::Remove,
        8 => Held::RemoveEntry,
        9 => Held::ReplaceEntry(number),
        10 => Held::IntoKey,
        _ => Held::Read(Change::NONE),
    }
}

/// A kind of calls that is taken at random: insertions more often than the others.
fn any_kind(random: &mut Random) -> u64 {
    random.below(KINDS + 6).checked_sub(6).unwrap_or(0)
}

/// The kind of a part of a thread's program.
fn kind_of(random: &mut Random, shape: Shape, thread: u64) -> u64 {
    match shape {
        Shape::Kind(kind) if thread & 1 == 0 => kind,
        Shape::Long if random.below(2) == 0 => random.below(7),
        Shape::Long => random.below(3).saturating_add(7),
        _ => any_kind(random),
    }
}

/// Adds a call of that kind, and behind an opening calls on its guard and its end.
fn add_part(
    random: &mut Random,
    shape: Shape,
    kind: u64,
    calls: &mut Vec<Asked>,
) -> Result<(), AllocError> {
    let (keys, most) = match shape {
        Shape::Long => (4, 3),
        _ => (KEYS, random.below(4)),
    };
    let key = random.below(keys);
    match on_key(random, kind, key) {
        Some(ask) => calls.push(ask)?,
        None => calls.push(Ask::Walk(walk(random, kind)))?,
    }
    if (7..13).contains(&kind) || kind >= 24 {
        for _ in 0..most {
            calls.push(Ask::Held(on_guard(random)))?;
        }
        calls.push(Ask::Held(Held::Drop))?;
    }
    Ok(())
}

/// A program of that shape.
fn program(
    alloc: Global,
    random: &mut Random,
    shape: Shape,
    thread: u64,
) -> Result<Vec<Asked>, AllocError> {
    let mut calls = Vec::new(alloc);
    let parts = match shape {
        Shape::Long => 12,
        _ => random.below(7),
    };
    for _ in 0..parts {
        let kind = kind_of(random, shape, thread);
        add_part(random, shape, kind, &mut calls)?;
    }
    if random.below(8) == 0 {
        // A call on no guard.
        calls.push(Ask::Held(Held::Read(Change::NONE)))?;
    }
    Ok(calls)
}

/// The programs of so many threads.
pub fn programs(
    alloc: Global,
    random: &mut Random,
    threads: u64,
    shape: Shape,
) -> Result<Vec<Vec<Asked>>, AllocError> {
    let mut all = Vec::new(alloc);
    for thread in 0..threads {
        all.push(program(alloc, random, shape, thread)?)?;
    }
    Ok(all)
}

/// Opening pairs, some of equal keys.
pub fn pairs(alloc: Global, random: &mut Random) -> Result<Vec<(u64, u64)>, AllocError> {
    let mut pairs = Vec::new(alloc);
    for _ in 0..random.below(10) {
        let key = random.below(KEYS);
        pairs.push((key, random.below(10)))?;
    }
    Ok(pairs)
}
