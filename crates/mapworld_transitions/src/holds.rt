//! What steps ask of a shard's lock.
ghost use Rattle.std.specs.Prelude.{◌≡◌};
ghost use Rattle.mapworld_state.specs.Holds.{asks_for, tries_for, waits_for, wants_for, gives_up};

use mapworld_state::{Manner, Mode};
use parking_lot_machine::LockCall;

/// The call that asks for the lock so.
pub fn asks_for(mode: Mode) -> LockCall
    ensures { result ≡ asks_for mode }
{
    match mode {
        Mode::Shared => LockCall::Read,
        Mode::Exclusive => LockCall::Write,
    }
}

/// The call that asks for the lock so and waits for nobody.
fn tries_for(mode: Mode) -> LockCall
    ensures { result ≡ tries_for mode }
{
    match mode {
        Mode::Shared => LockCall::TryRead,
        Mode::Exclusive => LockCall::TryWrite,
    }
}

/// The call that asks for the lock so and waits until its deadline.
fn waits_for(mode: Mode) -> LockCall
    ensures { result ≡ waits_for mode }
{
    match mode {
        Mode::Shared => LockCall::ReadUntil,
        Mode::Exclusive => LockCall::WriteUntil,
    }
}

/// The call that wants the lock so, and waits for it so long.
pub fn wants_for(manner: Manner, mode: Mode) -> LockCall
    ensures { result ≡ wants_for manner mode }
{
    match manner {
        Manner::Waits => asks_for(mode),
        Manner::Tries => tries_for(mode),
        Manner::UntilDeadline => waits_for(mode),
    }
}

/// The call that gives up such a hold of the lock.
pub fn gives_up(mode: Mode) -> LockCall
    ensures { result ≡ gives_up mode }
{
    match mode {
        Mode::Shared => LockCall::UnlockRead,
        Mode::Exclusive => LockCall::UnlockWrite,
    }
}
