//! The words of a line: numbers, kinds of locks, calls and steps.

use parking_lot_world::{LockCall, LockKind, WorldStep};
use std::str::SplitWhitespace;

/// The next word, as a number.
pub fn number(words: &mut SplitWhitespace<'_>) -> Option<usize> {
    words.next()?.parse::<usize>().ok()
}

/// What stands beside a name in a table.
pub fn named<T: Copy>(table: &[(&str, T)], name: &str) -> Option<T> {
    for &(known, meant) in table {
        if known == name {
            return Some(meant);
        }
    }
    None
}

/// The next word, as yes or no.
fn flag(words: &mut SplitWhitespace<'_>) -> Option<bool> {
    named(FLAGS, words.next()?)
}

/// A kind of lock by its name.
pub fn kind(name: &str) -> Option<LockKind> {
    named(KINDS, name)
}

/// A call by the name of what it asks for, and the mutex or the flag that goes with it.
pub fn call(words: &mut SplitWhitespace<'_>) -> Option<LockCall> {
    let name = words.next()?;
    match name {
        "Wait" => number(words).map(LockCall::Wait),
        "WaitUntil" => number(words).map(LockCall::WaitUntil),
        "CallOnce" => flag(words).map(LockCall::CallOnce),
        "CallOnceForce" => flag(words).map(LockCall::CallOnceForce),
        _ => named(CALLS, name),
    }
}

/// What the first word of a step says of a thread, whose number comes next.
#[derive(Clone, Copy)]
enum Move {
    Begin,
    /// What it releases is handed over where this says so.
    Go(bool),
    Deadline,
}

/// A step of a schedule by its move and the words behind it.
fn step_of(by: Move, words: &mut SplitWhitespace<'_>) -> Option<WorldStep> {
    let thread = number(words)?;
    match by {
        Move::Begin => {
            let lock = number(words)?;
            Some(WorldStep::Begin(thread, lock, call(words)?))
        }
        Move::Go(fair) => Some(WorldStep::Go(thread, fair)),
        Move::Deadline => Some(WorldStep::Deadline(thread)),
    }
}

/// The next words, as a step of a schedule.
fn next_step(words: &mut SplitWhitespace<'_>) -> Option<WorldStep> {
    step_of(named(MOVES, words.next()?)?, words)
}

/// A step of a schedule.
pub fn step(text: &str) -> Option<WorldStep> {
    next_step(&mut text.split_whitespace())
}

const FLAGS: &[(&str, bool)] = &[("true", true), ("false", false)];

const MOVES: &[(&str, Move)] = &[
    ("begin", Move::Begin),
    ("go", Move::Go(false)),
    ("go_fairly", Move::Go(true)),
    ("deadline", Move::Deadline),
];

/// Kinds of locks by their names.
const KINDS: &[(&str, LockKind)] = &[
    ("Mutex", LockKind::Mutex),
    ("FairMutex", LockKind::FairMutex),
    ("Rw", LockKind::Rw),
    ("RwRecursive", LockKind::RwRecursive),
    ("Condvar", LockKind::Condvar),
    ("Once", LockKind::Once),
];

/// Calls with which nothing goes, by their names.
const CALLS: &[(&str, LockCall)] = &[
    ("Lock", LockCall::Lock),
    ("TryLock", LockCall::TryLock),
    ("LockUntil", LockCall::LockUntil),
    ("Unlock", LockCall::Unlock),
    ("Read", LockCall::Read),
    ("TryRead", LockCall::TryRead),
    ("ReadUntil", LockCall::ReadUntil),
    ("UnlockRead", LockCall::UnlockRead),
    ("Write", LockCall::Write),
    ("TryWrite", LockCall::TryWrite),
    ("WriteUntil", LockCall::WriteUntil),
    ("UnlockWrite", LockCall::UnlockWrite),
    ("Downgrade", LockCall::Downgrade),
    ("UpgradableRead", LockCall::UpgradableRead),
    ("TryUpgradableRead", LockCall::TryUpgradableRead),
    ("UpgradableUntil", LockCall::UpgradableUntil),
    ("UnlockUpgradable", LockCall::UnlockUpgradable),
    ("Upgrade", LockCall::Upgrade),
    ("TryUpgrade", LockCall::TryUpgrade),
    ("UpgradeUntil", LockCall::UpgradeUntil),
    ("DowngradeToUpgradable", LockCall::DowngradeToUpgradable),
    ("DowngradeUpgradable", LockCall::DowngradeUpgradable),
    ("NotifyOne", LockCall::NotifyOne),
    ("NotifyAll", LockCall::NotifyAll),
    ("OnceWait", LockCall::OnceWait),
    ("OnceWaitForce", LockCall::OnceWaitForce),
];
