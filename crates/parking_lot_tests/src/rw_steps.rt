//! Steps of a thread at a reader-writer lock.

use crate::calls::{
    Answer, Deed, How, Line, Mode, NOTHING, ONE, Round, Step, Tally, Turn, Verdict, WRONG, sum,
};
use crate::held::{add_under, find_under, read_by, read_under, write_by, write_under};
use crate::scene::Scene;
use lock_api::{Guard, RwLock, RwLockReadGuard, RwLockUpgradableReadGuard, RwLockWriteGuard};
use lock_api_guards::{Access, Hold, TimedUpgradeHold};
use lock_api_raw::{RawRwLockUpgradeDowngrade, RawRwLockUpgradeFair, RawRwLockUpgradeTimed};
use std::sync::Wait;
use std::time::{Clock, Duration, Instant};

/// A guard of any mode.
#[derive(Drop)]
pub enum Held<'m, L: RawRwLockUpgradeFair>
where
    L::Runtime: Wait,
{
    Reads(RwLockReadGuard<'m, L, u64>),
    Upgrades(RwLockUpgradableReadGuard<'m, L, u64>),
    Writes(RwLockWriteGuard<'m, L, u64>),
}

/// What is asked for to read.
fn reader<'m, L, R: Clock>(
    lock: &'m RwLock<L, u64>,
    scene: &Scene<'_, '_, R>,
    how: How,
    party: &mut L::Party,
) -> Option<RwLockReadGuard<'m, L, u64>>
where
    L: RawRwLockUpgradeTimed<Duration = Duration, Instant = Instant>,
    L::Runtime: Wait,
{
    match how {
        How::Waits => Some(lock.read(party)),
        How::Tries => lock.try_read(),
        How::For(micros) => lock.try_read_for(Duration::from_micros(micros), scene.rt, party),
        How::Past => lock.try_read_until(scene.past, scene.rt, party),
        How::Always => lock.try_read_for(Duration::MAX, scene.rt, party),
    }
}

/// What is asked for to be upgraded.
fn upgrader<'m, L, R: Clock>(
    lock: &'m RwLock<L, u64>,
    scene: &Scene<'_, '_, R>,
    how: How,
    party: &mut L::Party,
) -> Option<RwLockUpgradableReadGuard<'m, L, u64>>
where
    L: RawRwLockUpgradeTimed<Duration = Duration, Instant = Instant>,
    L::Runtime: Wait,
{
    match how {
        How::Waits => Some(lock.upgradable_read(party)),
        How::Tries => lock.try_upgradable_read(),
        How::For(micros) => {
            lock.try_upgradable_read_for(Duration::from_micros(micros), scene.rt, party)
        }
        How::Past => lock.try_upgradable_read_until(scene.past, scene.rt, party),
        How::Always => lock.try_upgradable_read_for(Duration::MAX, scene.rt, party),
    }
}

/// What is asked for to write.
fn writer<'m, L, R: Clock>(
    lock: &'m RwLock<L, u64>,
    scene: &Scene<'_, '_, R>,
    how: How,
    party: &mut L::Party,
) -> Option<RwLockWriteGuard<'m, L, u64>>
where
    L: RawRwLockUpgradeTimed<Duration = Duration, Instant = Instant>,
    L::Runtime: Wait,
{
    match how {
        How::Waits => Some(lock.write(party)),
        How::Tries => lock.try_write(),
        How::For(micros) => lock.try_write_for(Duration::from_micros(micros), scene.rt, party),
        How::Past => lock.try_write_until(scene.past, scene.rt, party),
        How::Always => lock.try_write_for(Duration::MAX, scene.rt, party),
    }
}

/// The exclusive guard that an upgradable one becomes, or the same guard.
fn upgraded<W: Drop, H: TimedUpgradeHold<Duration = Duration, Instant = Instant>, R: Clock>(
    guard: Guard<W, H>,
    scene: &Scene<'_, '_, R>,
    how: How,
    party: &mut H::Party,
) -> Result<Guard<<H::Alone as Access>::Inner, H::Alone>, Guard<W, H>>
where
    H::Alone: Access,
    H::Runtime: Wait,
    <H::Alone as Hold>::Runtime: Wait,
{
    match how {
        How::Waits => Ok(Guard::upgrade(guard, party)),
        How::Tries => Guard::try_upgrade(guard),
        How::For(micros) => {
            Guard::try_upgrade_for(guard, Duration::from_micros(micros), scene.rt, party)
        }
        How::Past => Guard::try_upgrade_until(guard, scene.past, scene.rt, party),
        How::Always => Guard::try_upgrade_for(guard, Duration::MAX, scene.rt, party),
    }
}

/// What is asked for, and had.
fn ask<'m, L, R: Clock>(
    lock: &'m RwLock<L, u64>,
    scene: &Scene<'_, '_, R>,
    mode: Mode,
    how: How,
    party: &mut L::Party,
) -> Option<Held<'m, L>>
where
    L: RawRwLockUpgradeFair + RawRwLockUpgradeTimed<Duration = Duration, Instant = Instant>,
    L::Runtime: Wait,
{
    match mode {
        Mode::Shared => match reader(lock, scene, how, party) {
            Some(guard) => Some(Held::Reads(guard)),
            None => None,
        },
        Mode::Upgradable => match upgrader(lock, scene, how, party) {
            Some(guard) => Some(Held::Upgrades(guard)),
            None => None,
        },
        Mode::Exclusive => match writer(lock, scene, how, party) {
            Some(guard) => Some(Held::Writes(guard)),
            None => None,
        },
    }
}

/// Turns an upgradable guard into another one.
fn turn_upgrader<'m, L, R: Clock>(
    guard: RwLockUpgradableReadGuard<'m, L, u64>,
    scene: &Scene<'_, '_, R>,
    turn: Turn,
    party: &mut L::Party,
) -> (Option<Held<'m, L>>, Answer)
where
    L: RawRwLockUpgradeFair + RawRwLockUpgradeDowngrade,
    L: RawRwLockUpgradeTimed<Duration = Duration, Instant = Instant>,
    L::Runtime: Wait,
{
    match turn {
        Turn::Upgrade(how) => match upgraded(guard, scene, how, party) {
            Ok(writer) => (Some(Held::Writes(writer)), Answer::Had),
            Err(same) => (Some(Held::Upgrades(same)), Answer::Refused),
        },
        Turn::Downgrade => (Some(Held::Reads(Guard::downgrade(guard))), Answer::Had),
        Turn::Lower => (Some(Held::Upgrades(guard)), Answer::Unknown),
    }
}

/// Turns a guard that writes into another one.
fn turn_writer<'m, L: RawRwLockUpgradeFair + RawRwLockUpgradeDowngrade>(
    guard: RwLockWriteGuard<'m, L, u64>,
    turn: Turn,
) -> (Option<Held<'m, L>>, Answer)
where
    L::Runtime: Wait,
{
    match turn {
        Turn::Upgrade(_) => (Some(Held::Writes(guard)), Answer::Unknown),
        Turn::Downgrade => (Some(Held::Reads(Guard::downgrade(guard))), Answer::Had),
        Turn::Lower => {
            let low = Guard::downgrade_to_upgradable(guard);
            (Some(Held::Upgrades(low)), Answer::Had)
        }
    }
}

/// Does it with a guard, and gives what is left of it.
fn does<'m, L: RawRwLockUpgradeFair>(
    held: Held<'m, L>,
    deed: Deed,
    party: &mut L::Party,
) -> (Option<Held<'m, L>>, Answer)
where
    L::Runtime: Wait,
{
    match held {
        Held::Reads(guard) => {
            let (left, answer) = read_by(guard, deed, party);
            match left {
                Some(guard) => (Some(Held::Reads(guard)), answer),
                None => (None, answer),
            }
        }
        Held::Upgrades(guard) => {
            let (left, answer) = read_by(guard, deed, party);
            match left {
                Some(guard) => (Some(Held::Upgrades(guard)), answer),
                None => (None, answer),
            }
        }
        Held::Writes(guard) => {
            let (left, answer) = write_by(guard, deed, party);
            match left {
                Some(guard) => (Some(Held::Writes(guard)), answer),
                None => (None, answer),
            }
        }
    }
}

/// Turns a guard into another one.
fn turned<'m, L, R: Clock>(
    held: Held<'m, L>,
    scene: &Scene<'_, '_, R>,
    turn: Turn,
    party: &mut L::Party,
) -> (Option<Held<'m, L>>, Answer)
where
    L: RawRwLockUpgradeFair + RawRwLockUpgradeDowngrade,
    L: RawRwLockUpgradeTimed<Duration = Duration, Instant = Instant>,
    L::Runtime: Wait,
{
    match held {
        Held::Reads(guard) => (Some(Held::Reads(guard)), Answer::Unknown),
        Held::Upgrades(guard) => turn_upgrader(guard, scene, turn, party),
        Held::Writes(guard) => turn_writer(guard, turn),
    }
}

/// Asks for a hold that ends at once.
fn probe<L, R: Clock>(
    lock: &RwLock<L, u64>,
    scene: &Scene<'_, '_, R>,
    mode: Mode,
    how: How,
    party: &mut L::Party,
) -> Answer
where
    L: RawRwLockUpgradeFair + RawRwLockUpgradeTimed<Duration = Duration, Instant = Instant>,
    L::Runtime: Wait,
{
    match ask(lock, scene, mode, how, party) {
        Some(_held) => scene.had(),
        None => Answer::Refused,
    }
}

/// Asks for a hold with a hand that is free.
fn ask_with<'m, L, R: Clock>(
    lock: &'m RwLock<L, u64>,
    scene: &Scene<'_, '_, R>,
    hand: Option<Held<'m, L>>,
    mode: Mode,
    how: How,
    party: &mut L::Party,
) -> (Option<Held<'m, L>>, Answer)
where
    L: RawRwLockUpgradeFair + RawRwLockUpgradeTimed<Duration = Duration, Instant = Instant>,
    L::Runtime: Wait,
{
    match hand {
        Some(held) => (Some(held), Answer::Unknown),
        None => match ask(lock, scene, mode, how, party) {
            Some(held) => (Some(held), Answer::Had),
            None => (None, Answer::Refused),
        },
    }
}

/// Does it with what a hand holds.
fn do_with<'m, L, R: Clock>(
    scene: &Scene<'_, '_, R>,
    hand: Option<Held<'m, L>>,
    deed: Deed,
    party: &mut L::Party,
) -> (Option<Held<'m, L>>, Answer)
where
    L: RawRwLockUpgradeFair + RawRwLockUpgradeDowngrade,
    L: RawRwLockUpgradeTimed<Duration = Duration, Instant = Instant>,
    L::Runtime: Wait,
{
    match hand {
        Some(held) => match deed {
            Deed::Becomes(turn) => turned(held, scene, turn, party),
            deed => does(held, deed, party),
        },
        None => (None, Answer::Unknown),
    }
}

/// Follows the lines until one is answered otherwise.
pub fn follow<L, R: Clock>(
    lock: &RwLock<L, u64>,
    scene: &Scene<'_, '_, R>,
    lines: &[Line],
    me: &mut L::Party,
    other: &mut L::Party,
) -> Verdict
where
    L: RawRwLockUpgradeFair + RawRwLockUpgradeDowngrade,
    L: RawRwLockUpgradeTimed<Duration = Duration, Instant = Instant>,
    L::Runtime: Wait,
{
    let mut first = None;
    let mut second = None;
    for (at, (step, expected)) in lines.iter().enumerate() {
        let answer = match *step {
            Step::Ask(mode, how) => {
                let (held, answer) = ask_with(lock, scene, first, mode, how, me);
                first = held;
                answer
            }
            Step::Do(deed) => {
                let (held, answer) = do_with(scene, first, deed, me);
                first = held;
                answer
            }
            Step::AskToo(mode, how) => {
                let (held, answer) = ask_with(lock, scene, second, mode, how, me);
                second = held;
                answer
            }
            Step::DoToo(deed) => {
                let (held, answer) = do_with(scene, second, deed, me);
                second = held;
                answer
            }
            Step::Probe(mode, how) => probe(lock, scene, mode, how, other),
            Step::Nest(mode, how) => probe(lock, scene, mode, how, me),
            Step::Aside(what) => { scene.look(what, lock.is_locked(), lock.is_locked_exclusive()) }
        };
        if answer != *expected {
            return Some(at);
        }
    }
    None
}

/// Adds 1, and reads that as it becomes a reader.
fn add_and_read<L, R: Clock>(
    lock: &RwLock<L, u64>,
    scene: &Scene<'_, '_, R>,
    party: &mut L::Party,
) -> Tally
where
    L: RawRwLockUpgradeDowngrade,
    L::Runtime: Wait,
{
    let guard = lock.write(party);
    let next = scene.count_up(false);
    let _reader = Guard::downgrade(guard);
    if scene.said() == next { ONE } else { WRONG }
}

/// Adds 1 to what it read as an upgradable holder, where it is upgraded, and reads that as it is upgradable again.
fn add_upgraded<L, R: Clock>(
    guard: RwLockUpgradableReadGuard<'_, L, u64>,
    scene: &Scene<'_, '_, R>,
    how: How,
    party: &mut L::Party,
) -> Tally
where
    L: RawRwLockUpgradeFair + RawRwLockUpgradeDowngrade,
    L: RawRwLockUpgradeTimed<Duration = Duration, Instant = Instant>,
    L::Runtime: Wait,
{
    let seen = scene.said();
    match upgraded(guard, scene, how, party) {
        Ok(writer) => {
            let same = scene.said() == seen;
            let next = scene.count_up(false);
            let _low = Guard::downgrade_to_upgradable(writer);
            if same & (scene.said() == next) {
                ONE
            } else {
                WRONG
            }
        }
        Err(_same) => NOTHING,
    }
}

/// Makes one round.
fn turn<L, R: Clock>(
    lock: &RwLock<L, u64>,
    scene: &Scene<'_, '_, R>,
    round: Round,
    party: &mut L::Party,
) -> Tally
where
    L: RawRwLockUpgradeFair + RawRwLockUpgradeDowngrade,
    L: RawRwLockUpgradeTimed<Duration = Duration, Instant = Instant>,
    L::Runtime: Wait,
{
    match round {
        Round::Adds(how) => add_under(writer(lock, scene, how, party), scene, how, None),
        Round::AddsAt(how, word) => {
            add_under(writer(lock, scene, how, party), scene, how, Some(word))
        }
        Round::AddsAndReads => add_and_read(lock, scene, party),
        Round::Reads(how) => read_under(reader(lock, scene, how, party), scene),
        Round::Writes(how) => write_under(writer(lock, scene, how, party), scene),
        Round::Rereads(how) => find_under(reader(lock, scene, how, party), scene),
        Round::Upgrades(ask, how) => match upgrader(lock, scene, ask, party) {
            Some(guard) => add_upgraded(guard, scene, how, party),
            None => NOTHING,
        },
        Round::Nests => WRONG,
    }
}

/// Makes each of the rounds in turn, so many times.
pub fn take_turns<L, R: Clock>(
    lock: &RwLock<L, u64>,
    scene: &Scene<'_, '_, R>,
    rounds: &[Round],
    times: u32,
    party: &mut L::Party,
) -> Tally
where
    L: RawRwLockUpgradeFair + RawRwLockUpgradeDowngrade,
    L: RawRwLockUpgradeTimed<Duration = Duration, Instant = Instant>,
    L::Runtime: Wait,
{
    let mut all = NOTHING;
    for _time in 0..times {
        for round in rounds {
            all = sum(all, turn(lock, scene, *round, party));
        }
    }
    all
}
