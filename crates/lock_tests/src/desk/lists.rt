//! Lists of calls.
ghost use Rattle.std.specs.Prelude.{◌≡◌};
ghost use Rattle.lock_api_desk.specs.Out.{nothing_out};

use crate::steps::all_right;
use lock_api_desk::{
    Desk, DeskCall, DeskFault, DeskRunFault, Mode, PackedWord, RawState, TokenTable,
};
use std::alloc::Global;
use std::process::Abort;
use std::test::Fail;

fn stop_at_a_try<R: RawState + Drop>(rt: &impl Abort, alloc: Global, raw: R) -> Result<(), Fail>
    requires { R.out raw ≡ nothing_out }
{
    let mut desk = Desk::new(alloc, raw, 0_u64);
    let calls = vec![in alloc;
        DeskCall::Write(1, 1),
        DeskCall::TryRead(2, 2),
        DeskCall::Unlock(1, 1),
    ]?;
    let stop = DeskRunFault {
        place: 1,
        fault: DeskFault::Taken,
    };
    let stopped = desk.run(calls) == Err(stop);
    all_right(rt, &[stopped, desk.held(1) == Some((Mode::Exclusive, 1))]);
    Ok(())
}

#[test]
fn a_run_stops_at_the_first_refusal(rt: HostRuntime) -> Result<(), Fail> {
    stop_at_a_try(&rt, rt.alloc(), TokenTable::new(9))?;
    stop_at_a_try(&rt, rt.alloc(), PackedWord::new(9))
}

/// Call number `kind`: an acquisition as party 2 and guard 2, or a call of party 1 on guard 1.
fn call_of(kind: u64) -> DeskCall<u64> {
    match kind {
        0 => DeskCall::Lock(2, 2),
        1 => DeskCall::TryLock(2, 2),
        2 => DeskCall::Read(2, 2),
        3 => DeskCall::TryRead(2, 2),
        4 => DeskCall::Write(2, 2),
        5 => DeskCall::TryWrite(2, 2),
        6 => DeskCall::UpgradableRead(2, 2),
        7 => DeskCall::TryUpgradableRead(2, 2),
        8 => DeskCall::Unlock(1, 1),
        9 => DeskCall::UnlockFair(1, 1),
        10 => DeskCall::Bump(1, 1),
        11 => DeskCall::Downgrade(1, 1),
        12 => DeskCall::DowngradeToUpgradable(1, 1),
        13 => DeskCall::DowngradeUpgradable(1, 1),
        14 => DeskCall::Upgrade(1, 1),
        15 => DeskCall::TryUpgrade(1, 1),
        16 => DeskCall::SetAside(1, 1),
        17 => DeskCall::TakeUp(1, 1),
        18 => DeskCall::ReadValue(1, 1),
        19 => DeskCall::WithUpgraded(1, 1, 8),
        20 => DeskCall::TryWithUpgraded(1, 1, 8),
        _ => DeskCall::WriteValue(1, 1, 8),
    }
}

/// What each call answers, by its code, where guard 1 is shared, exclusive, upgradable, and exclusive but set aside.
const ANSWERS: [[u16; 4]; 22] = [
    [1, 1, 1, 0],
    [2, 2, 2, 0],
    [0, 1, 0, 0],
    [0, 2, 0, 0],
    [1, 1, 1, 0],
    [2, 2, 2, 0],
    [0, 1, 1, 0],
    [0, 2, 2, 0],
    [0, 0, 0, 4],
    [0, 0, 0, 4],
    [0, 0, 0, 4],
    [4, 0, 4, 4],
    [4, 0, 4, 4],
    [4, 4, 0, 4],
    [4, 4, 0, 4],
    [4, 4, 0, 4],
    [0, 0, 0, 4],
    [4, 4, 4, 0],
    [0, 0, 0, 4],
    [4, 4, 0, 4],
    [4, 4, 0, 4],
    [4, 0, 4, 4],
];

/// Guard 1 of party 1 in each of the four ways.
fn seat<R: RawState>(desk: &mut Desk<R, u64>, way: usize) -> Result<(), DeskFault> {
    match way {
        0 => desk.read(1, 1),
        1 => desk.write(1, 1),
        2 => desk.upgradable_read(1, 1),
        _ => {
            desk.write(1, 1)?;
            desk.set_aside(1, 1)
        }
    }
}

fn code_of(done: Result<(), DeskRunFault>) -> u16 {
    match done {
        Ok(()) => 0,
        Err(stop) => stop.code(),
    }
}

/// The answer of one call on a desk whose guard 1 is held that way.
fn answer<R: RawState + Drop>(
    alloc: Global,
    raw: R,
    kind: u64,
    way: usize,
) -> Result<u16, DeskFault>
    requires { R.out raw ≡ nothing_out }
{
    let mut desk = Desk::new(alloc, raw, 0_u64);
    seat(&mut desk, way)?;
    let Ok(calls) = vec![in alloc; call_of(kind)] else {
        return Err(DeskFault::NoMemory);
    };
    Ok(code_of(desk.run(calls)))
}

#[test]
fn each_call_answers_by_the_mode_of_the_guard(rt: HostRuntime) {
    let alloc = rt.alloc();
    for (kind, row) in (0_u64..).zip(&ANSWERS) {
        for (way, want) in row.iter().enumerate() {
            let counted = answer(alloc, TokenTable::new(9), kind, way);
            let packed = answer(alloc, PackedWord::new(9), kind, way);
            let right = counted == Ok(*want) && packed == Ok(*want);
            assert!(rt;
                right,
                "call {kind} on way {way}: {counted:?}, packed {packed:?}"
            );
        }
    }
}
