//! Calls in a row, by two parties, each beside what it must answer.
ghost use Rattle.std.specs.Prelude.{◌≡◌};
ghost use Rattle.lock_api_desk.specs.Out.{nothing_out};

use lock_api_desk::{Desk, DeskFault, Mode, PackedWord, RawState, TokenTable};
use std::alloc::Global;
use std::process::Abort;

/// A call that answers nothing but whether it is done.
#[derive(Clone, Copy)]
enum Act {
    Lock,
    TryLock,
    Read,
    TryRead,
    Write,
    TryWrite,
    UpgradableRead,
    TryUpgradableRead,
    Unlock,
    UnlockFair,
    Bump,
    Downgrade,
    DowngradeToUpgradable,
    DowngradeUpgradable,
    Upgrade,
    TryUpgrade,
    SetAside,
    TakeUp,
}

/// What a party does by a guard, or what is seen of the desk.
#[derive(Clone, Copy)]
enum Line {
    /// It makes a call.
    Does(Act, u64, u64, Result<(), DeskFault>),
    /// It reads the value.
    Reads(u64, u64, Result<u64, DeskFault>),
    /// It writes a value, and has the one before.
    Writes(u64, u64, u64, Result<u64, DeskFault>),
    /// It changes the bits of the value while its guard is upgraded, and has what comes of it.
    Flips(u64, u64, u64, Result<u64, DeskFault>),
    /// It tries to write 0 while its guard is upgraded.
    TriesToClear(u64, u64, Result<(), DeskFault>),
    /// How a guard is held, and by whom.
    Held(u64, Option<(Mode, u64)>),
    Value(u64),
}

/// Makes a call that asks for the value.
fn acquire<R: RawState>(
    desk: &mut Desk<R, u64>,
    act: Act,
    party: u64,
    guard: u64,
) -> Result<(), DeskFault> {
    match act {
        Act::Lock => desk.lock(party, guard),
        Act::TryLock => desk.try_lock(party, guard),
        Act::Read => desk.read(party, guard),
        Act::TryRead => desk.try_read(party, guard),
        Act::Write => desk.write(party, guard),
        Act::TryWrite => desk.try_write(party, guard),
        Act::UpgradableRead => desk.upgradable_read(party, guard),
        _ => desk.try_upgradable_read(party, guard),
    }
}

/// Makes a call that turns or gives up what a guard holds.
fn change<R: RawState>(
    desk: &mut Desk<R, u64>,
    act: Act,
    party: u64,
    guard: u64,
) -> Result<(), DeskFault> {
    match act {
        Act::Unlock => desk.unlock(party, guard),
        Act::UnlockFair => desk.unlock_fair(party, guard),
        Act::Bump => desk.bump(party, guard),
        Act::Downgrade => desk.downgrade(party, guard),
        Act::DowngradeToUpgradable => desk.downgrade_to_upgradable(party, guard),
        Act::DowngradeUpgradable => desk.downgrade_upgradable(party, guard),
        Act::Upgrade => desk.upgrade(party, guard),
        Act::TryUpgrade => desk.try_upgrade(party, guard),
        Act::SetAside => desk.set_aside(party, guard),
        Act::TakeUp => desk.take_up(party, guard),
        act => acquire(desk, act, party, guard),
    }
}

/// Reads the value.
fn read<R: RawState>(desk: &Desk<R, u64>, party: u64, guard: u64) -> Result<u64, DeskFault> {
    match desk.read_value(party, guard) {
        Ok(value) => Ok(*value),
        Err(fault) => Err(fault),
    }
}

/// Does what a line says, or looks whether it is so. Answers whether it is.
fn holds<R: RawState>(desk: &mut Desk<R, u64>, line: Line) -> bool {
    match line {
        Line::Does(act, party, guard, done) => change(desk, act, party, guard) == done,
        Line::Reads(party, guard, value) => read(desk, party, guard) == value,
        Line::Writes(party, guard, value, before) => {
            desk.write_value(party, guard, value) == before
        }
        Line::Flips(party, guard, bits, flipped) => {
            let flip = |value: &mut u64| {
                *value ^= bits;
                *value
            };
            desk.with_upgraded(party, guard, flip) == flipped
        }
        Line::TriesToClear(party, guard, done) => {
            desk.try_with_upgraded(party, guard, |value| *value = 0) == done
        }
        Line::Held(guard, held) => desk.held(guard) == held,
        Line::Value(value) => *desk.value() == value,
    }
}

/// Goes through the lines at a desk with that value.
fn follow<R: RawState + Drop>(rt: &impl Abort, alloc: Global, raw: R, value: u64, script: &[Line])
    requires { R.out raw ≡ nothing_out }
{
    let mut desk = Desk::new(alloc, raw, value);
    for (at, line) in script.iter().enumerate() {
        let is_so = holds(&mut desk, *line);
        assert!(rt; is_so, "line {at}");
    }
}

const DONE: Result<(), DeskFault> = Ok(());

#[test]
fn a_writer_keeps_readers_out_until_it_downgrades(rt: HostRuntime) {
    let script = [
        Line::Does(Act::Write, 1, 1, DONE),
        Line::Does(Act::Read, 2, 2, Err(DeskFault::WouldWait)),
        Line::Does(Act::TryRead, 2, 2, Err(DeskFault::Taken)),
        Line::Does(Act::Unlock, 2, 1, Err(DeskFault::NotTheParty)),
        Line::Does(Act::Unlock, 2, 9, Err(DeskFault::NoSuchGuard)),
        Line::Does(Act::Upgrade, 1, 1, Err(DeskFault::WrongMode)),
        Line::Held(1, Some((Mode::Exclusive, 1))),
        Line::Does(Act::Downgrade, 1, 1, DONE),
        Line::Does(Act::Read, 2, 1, Err(DeskFault::GuardInUse)),
        Line::Does(Act::Read, 2, 2, DONE),
        Line::Held(1, Some((Mode::Shared, 1))),
        Line::Held(2, Some((Mode::Shared, 2))),
        Line::Held(3, None),
    ];
    follow(&rt, rt.alloc(), TokenTable::new(9), 0, &script);
    follow(&rt, rt.alloc(), PackedWord::new(9), 0, &script);
}

#[test]
fn a_guard_set_aside_excludes_nobody(rt: HostRuntime) {
    let script = [
        Line::Does(Act::Write, 1, 1, DONE),
        Line::Does(Act::TakeUp, 1, 1, Err(DeskFault::WrongMode)),
        Line::Does(Act::SetAside, 1, 1, DONE),
        Line::Held(1, None),
        Line::Does(Act::Read, 2, 1, Err(DeskFault::GuardInUse)),
        Line::Does(Act::Read, 2, 2, DONE),
        Line::Does(Act::TakeUp, 1, 1, Err(DeskFault::WouldWait)),
        Line::Does(Act::TakeUp, 2, 1, Err(DeskFault::NotTheParty)),
        Line::Does(Act::Unlock, 1, 1, Err(DeskFault::WrongMode)),
        Line::Does(Act::Unlock, 2, 2, DONE),
        Line::Does(Act::TakeUp, 1, 1, DONE),
        Line::Held(1, Some((Mode::Exclusive, 1))),
    ];
    follow(&rt, rt.alloc(), TokenTable::new(9), 0, &script);
    follow(&rt, rt.alloc(), PackedWord::new(9), 0, &script);
}

#[test]
fn readers_stay_within_their_limit(rt: HostRuntime) {
    let script = [
        Line::Does(Act::Read, 1, 1, DONE),
        Line::Does(Act::Read, 2, 2, Err(DeskFault::ReadersFull)),
        Line::Does(Act::TryUpgradableRead, 2, 2, Err(DeskFault::ReadersFull)),
        Line::Does(Act::Lock, 2, 2, Err(DeskFault::WouldWait)),
        Line::Does(Act::SetAside, 1, 1, DONE),
        Line::Does(Act::UpgradableRead, 2, 2, DONE),
        Line::Does(Act::UpgradableRead, 2, 3, Err(DeskFault::WouldWait)),
        Line::Does(Act::TakeUp, 1, 1, Err(DeskFault::ReadersFull)),
        Line::Does(Act::TryUpgrade, 2, 2, DONE),
        Line::Does(Act::DowngradeToUpgradable, 2, 2, DONE),
        Line::Does(Act::DowngradeUpgradable, 2, 2, DONE),
        Line::Does(Act::UnlockFair, 2, 2, DONE),
        Line::Does(Act::TryLock, 2, 2, DONE),
        Line::Does(Act::TryWrite, 3, 3, Err(DeskFault::Taken)),
    ];
    follow(&rt, rt.alloc(), TokenTable::new(1), 0, &script);
    follow(&rt, rt.alloc(), TokenTable::new(0), 0, &script);
    follow(&rt, rt.alloc(), PackedWord::new(1), 0, &script);
    follow(&rt, rt.alloc(), PackedWord::new(0), 0, &script);
}

#[test]
fn a_guard_reaches_the_value_by_its_mode(rt: HostRuntime) {
    let script = [
        Line::Does(Act::UpgradableRead, 1, 1, DONE),
        Line::Reads(1, 1, Ok(5)),
        Line::Writes(1, 1, 6, Err(DeskFault::WrongMode)),
        Line::Flips(1, 1, 15, Ok(10)),
        Line::Held(1, Some((Mode::Upgradable, 1))),
        Line::Does(Act::Read, 2, 2, DONE),
        Line::TriesToClear(1, 1, Err(DeskFault::Taken)),
        Line::Does(Act::Unlock, 2, 2, DONE),
        Line::Does(Act::Upgrade, 1, 1, DONE),
        Line::Writes(1, 1, 7, Ok(10)),
        Line::Does(Act::Bump, 1, 1, DONE),
        Line::Value(7),
    ];
    follow(&rt, rt.alloc(), TokenTable::new(9), 5, &script);
    follow(&rt, rt.alloc(), PackedWord::new(9), 5, &script);
}
