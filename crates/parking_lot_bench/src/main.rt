//! What it costs to lock and unlock, counted from outside by a tool that counts instructions, and what it costs to
//! wait.
//!
//! Without arguments it makes one small run of each kind, and prints a line of checksums for the generic locks, one for
//! the parking lot and one for its locks. The cost of a pair or a call is the difference of two counts, divided by the
//! difference of the rounds.
//!
//! - `generic KIND ROUNDS` makes so many pairs of a lock and its release, by the generic locks over raw locks of one
//!   atomic word: `read`, `write`, `mapped-read`, `mapped-write` and `mutex`, by std's own locks `std-read`, `std-write`
//!   and `std-mutex`, and without a lock `none`. It prints how many pairs found the value that they must find.
//! - `lot pair ROUNDS` hands a turn to and fro between two threads, by the lot and by condition variables, and prints
//!   what one turn took of each; `lot pairs ROUNDS` does so by the lot between two threads, and then between four pairs
//!   of threads at one time; `lot empty ROUNDS` unparks the first waiter of a key that has none.
//! - `locks PAIR PAIRS` locks and unlocks so many times with nobody beside it, in the form that is named (`mutex`,
//!   `read-in-time`, `upgrade-try`, `fair-guard`, `nested`, `std-write` ..), and prints what is left in the word.
//! - `locks all PAIRS` does so in each form, and prints a line for each: its name and how many nanoseconds a pair took.
//! - `locks turns ROUNDS` has two threads hand each kind of lock to one another, and prints what one turn took.
#![tactic(auto)]

mod fault;
mod generic;
mod lot;
mod pairs;
mod times;
mod turns;

use fault::Fault;
use generic::Kind;
use pairs::Pair;
use std::alloc::Global;
use std::env;
use std::process::ExitCode;
use std::sync::Wait;
use std::thread::Threads;
use std::time::Clock;

/// How many pairs and rounds the small run makes of each kind.
const SMALL: u32 = 1_000;

/// What is asked for.
enum Call {
    Small,
    Generic(Kind, u64),
    LotPair(u32),
    LotPairs(u32),
    LotEmpty(u32),
    Locks(Pair, u32),
    LocksAll(u32),
    Turns(u32),
}

/// The run that the arguments ask for, or the small one.
fn asked(rt: &HostRuntime) -> Option<Call> {
    let mut words = env::args(rt).ok()?;
    let Some(group) = words.nth(1) else {
        return Some(Call::Small);
    };
    let kind = words.next()?;
    let rounds = words.next()?.parse().ok()?;
    match (group.as_str(), kind.as_str()) {
        ("generic", kind) => Some(Call::Generic(Kind::named(kind)?, u64::from(rounds))),
        ("lot", "pair") => Some(Call::LotPair(rounds)),
        ("lot", "pairs") => Some(Call::LotPairs(rounds)),
        ("lot", "empty") => Some(Call::LotEmpty(rounds)),
        ("locks", "turns") => Some(Call::Turns(rounds)),
        ("locks", "all") => Some(Call::LocksAll(rounds)),
        ("locks", pair) => Some(Call::Locks(Pair::named(pair)?, rounds)),
        _ => None,
    }
}

/// What the small run tells, a line for each kind.
fn told_small<R: Wait + Threads + Clock + Sync + Copy + Drop>(
    rt: R,
    alloc: Global,
) -> Result<String, Fault> {
    let generic = generic::small_run(rt, alloc, u64::from(SMALL))?;
    let (parked, waited) = lot::both_ways(rt, alloc, SMALL)?;
    let pairs = lot::by_pairs(rt, alloc, SMALL)?;
    let fair = lot::fair_turns(rt, alloc, SMALL)?;
    let words = pairs::all_pairs(rt, alloc, SMALL)?;
    let (mutex, lock) = turns::both_ways(rt, alloc, SMALL)?;
    Ok(format!(in alloc;
        "{generic}\nturns {parked} by parking, {waited} by condvars, {pairs} pairs, {fair} fair\nleft {words}, turns {mutex} by the mutex, {lock} by the lock"
    )?)
}

/// What the run tells.
fn told<R: Wait + Threads + Clock + Sync + Copy + Drop>(
    rt: R,
    alloc: Global,
    call: Call,
) -> Result<String, Fault> {
    match call {
        Call::Small => told_small(rt, alloc),
        Call::Generic(kind, rounds) => {
            let found = generic::pairs(rt, kind, rounds)?;
            Ok(format!(in alloc; "{found} found")?)
        }
        Call::LotPair(rounds) => {
            let (parking, condvars) = lot::turns_of(rt, alloc, rounds)?;
            Ok(format!(in alloc; "parking {parking} ns a turn, condvars {condvars} ns")?)
        }
        Call::LotPairs(rounds) => {
            let (one, four) = lot::pairs_of(rt, alloc, rounds)?;
            Ok(format!(in alloc; "one pair {one} ns a turn, four pairs {four} ns")?)
        }
        Call::LotEmpty(rounds) => {
            let fair = lot::fair_turns(rt, alloc, rounds)?;
            Ok(format!(in alloc; "{fair} fair")?)
        }
        Call::Locks(pair, count) => {
            let word = pairs::pairs_of(rt, alloc, pair, count)?;
            Ok(format!(in alloc; "word {word}")?)
        }
        Call::LocksAll(count) => pairs::told_times(rt, alloc, count),
        Call::Turns(rounds) => {
            let (mutex, lock) = turns::times_of(rt, alloc, rounds)?;
            Ok(format!(in alloc; "mutex {mutex} ns a turn, lock {lock} ns")?)
        }
    }
}

fn main(rt: HostRuntime) -> ExitCode {
    let Some(call) = asked(&rt) else {
        let _ = eprintln!(rt;
            "generic KIND ROUNDS, lot pair|pairs|empty ROUNDS, locks PAIR|all PAIRS, locks turns ROUNDS"
        );
        return ExitCode::FAILURE;
    };
    let Ok(lines) = told(rt, rt.alloc(), call) else {
        return ExitCode::FAILURE;
    };
    match println!(rt; "{}", lines.as_str().trim_end()) {
        Ok(()) => ExitCode::SUCCESS,
        Err(_) => ExitCode::FAILURE,
    }
}
