//! Which deadlines are refused.

use super::worlds::{Look, Numbers, looked_at, step_through, step_times};
use mapworld::{RunFault, Status, Step};
use std::alloc::Global;
use std::test::Fail;

/// The deadline of a thread.
fn late(thread: usize) -> Step {
    Step {
        thread,
        fair: false,
        deadline: true,
    }
}

/// Whether the thread's deadline is refused, and changes nothing that is seen.
fn refuses<W: Numbers>(world: &mut W, thread: usize) -> bool {
    let steps = world.steps();
    let status = world.status(thread);
    let word = world.word(1);
    world.make(late(thread)) == Err(RunFault::CannotMove(0))
        && world.steps() == steps
        && world.status(thread) == status
        && world.word(1) == word
}

/// Three threads: one that holds key 1, and two that are to wait for it, the last of them up to a deadline.
const BESIDE_A_GUARD: &str =
    "thread a\n  get-mut 1\n    drop\nthread b\n  insert 1 9\nthread c\n  insert-until 1 7\n";

/// Makes start, load, exchange, find and answer of thread 0, by which it holds the shard, and steps the others until they
/// sleep. Whether all steps were done, and no deadline came before: nobody has begun, or who has is awake.
fn come_to_sleep<W: Numbers>(world: &mut W) -> bool {
    let mut right = (0..3).all(|thread| refuses(world, thread));
    right &= step_times(world, 0, 5) && step_times(world, 2, 1);
    right &= refuses(world, 2) && step_through(world, 1) && step_through(world, 2);
    right && world.status(1) == Status::Asleep && world.status(2) == Status::Asleep
}

/// Whether the last thread's deadline comes once, and lets it move.
fn comes_once<W: Numbers>(world: &mut W) -> bool {
    let was_asleep = !world.can_move(2);
    let is_made = world.make(late(2)).is_ok();
    was_asleep && is_made && world.can_move(2) && refuses(world, 2)
}

/// Looks for the rule that deadlines break in a world of these threads, if they break one.
#[derive(Drop)]
struct Deadlines;

impl Look for Deadlines {
    type Seen = Option<&'static str>;

    fn look<W: Numbers>(self, _alloc: Global, world: &mut W) -> Result<Self::Seen, Fail> {
        Ok(if !come_to_sleep(world) {
            Some("nobody who is awake has a deadline")
        } else if !refuses(world, 1) {
            Some("a plain call has no deadline")
        } else if !comes_once(world) {
            Some("a deadline comes once, and lets its thread move")
        } else if !step_through(world, 2) || !refuses(world, 2) {
            Some("a thread that has finished has no deadline")
        } else if world.make(late(3)) != Err(RunFault::NoSuchThread(0)) {
            Some("a thread that isn't there has no deadline")
        } else {
            None
        })
    }
}

#[test]
fn only_a_sleeper_has_a_deadline(rt: HostRuntime) -> Result<(), Fail> {
    let broken = looked_at(rt.alloc(), 2, &[(1, 5)], BESIDE_A_GUARD, Deadlines)?;
    assert!(rt; broken.is_none(), "{broken:?}");
    Ok(())
}

/// Looks whether a thread waits for key 1 while another holds it, and a drain hands it the shard in time.
#[derive(Drop)]
struct HandedInTime;

impl Look for HandedInTime {
    type Seen = bool;

    fn look<W: Numbers>(self, _alloc: Global, world: &mut W) -> Result<bool, Fail> {
        let waits = step_times(world, 0, 5)
            && step_through(world, 1)
            && world.status(1) == Status::Asleep;
        Ok(waits && world.drain() > 0 && world.found(1).is_none())
    }
}

#[test]
fn a_drain_makes_no_deadline(rt: HostRuntime) -> Result<(), Fail> {
    let text = "thread a\n  get-mut 1\n    drop\nthread b\n  remove-until 1\n";
    assert!(rt; looked_at(rt.alloc(), 2, &[(1, 5)], text, HandedInTime)?);
    Ok(())
}
