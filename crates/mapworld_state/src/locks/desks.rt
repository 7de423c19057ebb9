//! What becomes of a desk in a step.
ghost use Rattle.std.specs.Prelude.{◌≡◌, length};
ghost use Rattle.lock_api_desk.specs.Desk.{admitted};
ghost use Rattle.parking_lot_machine.specs.Rows.{state, taken_by};
ghost use Rattle.mapworld_state.specs.Locks.Fits.{IsPlain};
ghost use Rattle.mapworld_state.specs.Locks.Moves.{CanFollow, CanSeat, MayAdmit, MayAdmitAs, MayMove, admitted_as};
ghost use Rattle.mapworld_state.specs.Locks.Moves.{all_admitted, desk_after, own_moved};
ghost use Rattle.mapworld_state.specs.Locks.Views.{held_as, held_at};

use lock_api_desk::{Desk, Mode, TokenTable};
use parking_lot_machine::{OwnMode, RowMachine};
use std::alloc::Allocator;

/// The desk beside a shard's word: its guards are those that hold the shard.
pub type ShardDesk<A> = Desk<TokenTable, (), A>;

/// How the guard of such an owner is held; a pending writer has none yet.
fn held_as(owner: Option<OwnMode>) -> Option<Mode>
    ensures { result ≡ held_as owner }
{
    match owner {
        Some(OwnMode::Shared) => Some(Mode::Shared),
        Some(OwnMode::Upgradable) => Some(Mode::Upgradable),
        Some(OwnMode::Exclusive) => Some(Mode::Exclusive),
        Some(OwnMode::Pending) | None => None,
    }
}

/// How the guard of a thread at a shard is held now.
pub(crate) fn holds<A: Allocator>(
    machine: &RowMachine<A>,
    thread: usize,
    shard: usize,
) -> Option<Mode>
    requires plain { IsPlain (state machine.now) }
    ensures { result ≡ held_at (state machine.now) shard thread }
{
    held_as(machine.owner(thread, shard))
}

/// Admits a guard of a thread, under the thread's number.
fn admit<A: Allocator>(desk: &mut ShardDesk<A>, thread: usize, mode: Mode)
    requires may { MayAdmit thread mode desk.old }
    ensures { desk.new ≡ admitted mode thread thread desk.old }
{
    let number = thread as u64;
    let _ = match mode {
        Mode::Shared => desk.read(number, number),
        Mode::Exclusive => desk.write(number, number),
        Mode::Upgradable => desk.upgradable_read(number, number),
    };
}

/// Moves the guard of a thread that held the shard so before a step and holds it so after.
fn move_guard<A: Allocator>(
    desk: &mut ShardDesk<A>,
    thread: usize,
    before: Option<Mode>,
    after: Option<Mode>,
)
    requires may { MayMove thread before after desk.old }
    ensures { desk.new ≡ own_moved thread before after desk.old }
{
    let number = thread as u64;
    match (before, after) {
        (None, Some(mode)) => admit(desk, thread, mode),
        (Some(_), None) => {
            let _ = desk.unlock(number, number);
        }
        (Some(Mode::Exclusive), Some(Mode::Shared)) => {
            let _ = desk.downgrade(number, number);
        }
        _ => {}
    }
}

/// Admits a thread that holds the shard so now, where it has no guard yet.
fn admit_as<A: Allocator>(desk: &mut ShardDesk<A>, thread: usize, mode: Option<Mode>)
    requires may { MayAdmitAs thread mode desk.old }
    ensures { desk.new ≡ admitted_as thread mode desk.old }
{
    let Some(mode) = mode else {
        return;
    };
    if desk.held(thread as u64).is_none() {
        admit(desk, thread, mode);
    }
}

/// Admits those that a thread has taken and that hold the shard now, in their order.
fn admit_taken<A: Allocator>(
    desk: &mut ShardDesk<A>,
    machine: &RowMachine<A>,
    thread: usize,
    shard: usize,
)
    requires plain { IsPlain (state machine.now) }
    requires can { CanSeat (held_at (state machine.now) shard) (length (state machine.now).calls) desk.old }
    ensures { desk.new ≡ all_admitted (held_at (state machine.now) shard) (taken_by (state machine.now).wakes thread)
        desk.old }
{
    for wakeup in machine.wakes() {
        if wakeup.by == thread {
            let mode = holds(machine, wakeup.thread, shard);
            admit_as(desk, wakeup.thread, mode);
        }
    }
}

/// Lets the desk of a shard follow a step of a thread, which held the shard so before it: its guard moves, and where it
/// has left those to whom it handed the lock are admitted.
pub(crate) fn follow<A: Allocator>(
    desk: &mut ShardDesk<A>,
    machine: &RowMachine<A>,
    thread: usize,
    shard: usize,
    before: Option<Mode>,
)
    requires plain { IsPlain (state machine.now) }
    requires can { CanFollow before (held_at (state machine.now) shard) (length (state machine.now).calls) thread
        desk.old }
    ensures { desk.new ≡ desk_after (λ _. before) (held_at (state machine.now) shard) thread
        (taken_by (state machine.now).wakes thread) desk.old }
{
    let after = holds(machine, thread, shard);
    move_guard(desk, thread, before, after);
    if before.is_some() && after.is_none() {
        admit_taken(desk, machine, thread, shard);
    }
}
