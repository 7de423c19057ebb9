//! Schedules at the lock of one shard.

mod deadlines;
mod trace;

use lock_api_desk::Mode;
use parking_lot_machine::{CoreAnswer, LockCall};
use std::test::Fail;
use trace::{Trace, Turn};

const OWNED: Option<CoreAnswer> = Some(CoreAnswer::Owned);

const REFUSED: Option<CoreAnswer> = Some(CoreAnswer::Refused);

const RELEASED: Option<CoreAnswer> = Some(CoreAnswer::Released);

const SHARED: Option<Mode> = Some(Mode::Shared);

const EXCLUSIVE: Option<Mode> = Some(Mode::Exclusive);

/// Thread 0 reads, 16. Thread 1 wants to write: it is pending, 24, and waits for the reader in the second list, 26.
/// Thread 2 wants to write and waits in the first list, 27. Thread 0 leaves, 11, and takes thread 1 off its list, 9;
/// thread 1 is the writer. It gives the lock up unfairly: it takes thread 2 off the list, the last there, and leaves
/// the word 0. Thread 0 comes first, 16, and leaves, 0; then thread 2 has the lock, 8, and gives it up, 0.
#[test]
fn two_writers_and_one_reader(rt: HostRuntime) -> Result<(), Fail> {
    let turns = [
        Turn::Asks(0, LockCall::Read),
        Turn::Goes(0, OWNED),
        Turn::Holds(0, SHARED, false),
        Turn::Asks(1, LockCall::Write),
        Turn::Goes(1, None),
        Turn::Holds(1, None, true),
        Turn::Asks(2, LockCall::Write),
        Turn::Goes(2, None),
        Turn::Holds(2, None, true),
        Turn::Gives(0, LockCall::UnlockRead),
        Turn::Holds(0, None, false),
        Turn::Goes(0, RELEASED),
        Turn::Holds(1, None, false),
        Turn::Goes(1, OWNED),
        Turn::Holds(1, EXCLUSIVE, false),
        Turn::Gives(1, LockCall::UnlockWrite),
        Turn::Holds(1, EXCLUSIVE, false),
        Turn::Goes(1, RELEASED),
        Turn::Holds(2, None, false),
        Turn::Asks(0, LockCall::Read),
        Turn::Goes(0, OWNED),
        Turn::Gives(0, LockCall::UnlockRead),
        Turn::Goes(0, RELEASED),
        Turn::Goes(2, OWNED),
        Turn::Holds(2, EXCLUSIVE, false),
        Turn::Gives(2, LockCall::UnlockWrite),
        Turn::Goes(2, RELEASED),
        Turn::Holds(2, None, false),
    ];
    let words = [0, 16, 24, 26, 27, 11, 9, 0, 16, 0, 8, 0];
    Trace::new(&rt, 3)?.follows(&rt, &turns, &words)
}

/// Thread 0 writes, 8. Threads 1 and 2 want to read and wait, 9. Thread 0 hands the lock over to both, 32: each holds
/// it while it sleeps, until thread 0 has woken it. They leave, 16 and 0.
#[test]
fn readers_hold_the_shard_as_it_is_handed_over(rt: HostRuntime) -> Result<(), Fail> {
    let turns = [
        Turn::Asks(0, LockCall::Write),
        Turn::Goes(0, OWNED),
        Turn::Asks(1, LockCall::Read),
        Turn::Goes(1, None),
        Turn::Asks(2, LockCall::Read),
        Turn::Goes(2, None),
        Turn::Holds(1, None, true),
        Turn::Gives(0, LockCall::UnlockWrite),
        Turn::GoesFairly(0, RELEASED),
        Turn::Holds(0, None, false),
        Turn::Holds(1, SHARED, false),
        Turn::Holds(2, SHARED, false),
        Turn::Goes(1, OWNED),
        Turn::Goes(2, OWNED),
        Turn::Gives(2, LockCall::UnlockRead),
        Turn::Goes(2, RELEASED),
        Turn::Gives(1, LockCall::UnlockRead),
        Turn::Goes(1, RELEASED),
    ];
    let words = [0, 8, 9, 32, 16, 0];
    Trace::new(&rt, 3)?.follows(&rt, &turns, &words)
}

/// Thread 0 writes, 8, and thread 1 wants to read and waits, 9. Thread 0 makes its hold a shared one, 17, and wakes
/// thread 1, 16, which reads beside it, 32. A writer's try is refused. Both leave, 16 and 0.
#[test]
fn a_downgrade_lets_readers_in(rt: HostRuntime) -> Result<(), Fail> {
    let turns = [
        Turn::Asks(0, LockCall::Write),
        Turn::Goes(0, OWNED),
        Turn::Asks(1, LockCall::Read),
        Turn::Goes(1, None),
        Turn::Gives(0, LockCall::Downgrade),
        Turn::Holds(0, SHARED, false),
        Turn::Goes(0, OWNED),
        Turn::Goes(1, OWNED),
        Turn::Holds(1, SHARED, false),
        Turn::Asks(2, LockCall::TryWrite),
        Turn::Goes(2, REFUSED),
        Turn::Holds(2, None, false),
        Turn::Gives(0, LockCall::UnlockRead),
        Turn::Goes(0, RELEASED),
        Turn::Gives(1, LockCall::UnlockRead),
        Turn::Goes(1, RELEASED),
    ];
    let words = [0, 8, 9, 17, 16, 32, 16, 0];
    Trace::new(&rt, 3)?.follows(&rt, &turns, &words)
}

/// A call that the thread may not ask for: it holds nothing, it holds the shard, or it is in a call.
#[test]
fn calls_that_may_not_be_asked_for(rt: HostRuntime) -> Result<(), Fail> {
    let locks = Trace::new(&rt, 2)?;
    locks.refuses(&rt)
}
