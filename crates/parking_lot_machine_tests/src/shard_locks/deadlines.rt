//! Words of a shard's lock where calls have deadlines, step by step.

use super::trace::{Trace, Turn};
use super::{EXCLUSIVE, OWNED, REFUSED, RELEASED, SHARED};
use parking_lot_machine::LockCall;
use std::test::Fail;

/// What threads do, and each word that the lock had meanwhile.
type Row<'r> = (&'r [Turn], &'r [u64]);

/// Thread 0 writes, 8, and thread 1 sleeps, 9. Its deadline comes: it takes itself off the list, takes the parked bit
/// back as the last there, 8, and is refused. Thread 0 leaves, 0.
macro_rules! behind_a_writer {
    ($call:ident) => {
        &[
            Turn::Asks(0, LockCall::Write),
            Turn::Goes(0, OWNED),
            Turn::Asks(1, LockCall::$call),
            Turn::Expires(1, false),
            Turn::Goes(1, None),
            Turn::Holds(1, None, true),
            Turn::Expires(0, false),
            Turn::Expires(1, true),
            Turn::Holds(1, None, false),
            Turn::Expires(1, false),
            Turn::Goes(1, REFUSED),
            Turn::Holds(1, None, false),
            Turn::Gives(0, LockCall::UnlockWrite),
            Turn::Goes(0, RELEASED),
        ]
    };
}

const BEHIND_A_WRITER: [u64; 5] = [0, 8, 9, 8, 0];

/// Thread 0 reads, 16. Thread 1 wants to write, 24, and waits for it to leave, 26. Thread 2 wants to read and sleeps,
/// 27. The deadline of thread 1 comes: it takes itself off its list, gives its bit back, 17, and wakes thread 2, 16,
/// which reads beside thread 0, 32.
const LETS_READERS_IN: Row<'static> = (
    &[
        Turn::Asks(0, LockCall::Read),
        Turn::Goes(0, OWNED),
        Turn::Asks(1, LockCall::WriteUntil),
        Turn::Goes(1, None),
        Turn::Asks(2, LockCall::Read),
        Turn::Goes(2, None),
        Turn::Holds(2, None, true),
        Turn::Expires(2, false),
        Turn::Expires(1, true),
        Turn::Goes(1, RELEASED),
        Turn::Holds(1, None, false),
        Turn::Holds(2, None, false),
        Turn::Goes(2, OWNED),
        Turn::Holds(2, SHARED, false),
        Turn::Gives(2, LockCall::UnlockRead),
        Turn::Goes(2, RELEASED),
        Turn::Gives(0, LockCall::UnlockRead),
        Turn::Goes(0, RELEASED),
    ],
    &[0, 16, 24, 26, 27, 17, 16, 32, 16, 0],
);

/// What comes before: thread 0 reads, thread 1 waits for it to leave, and its deadline comes.
macro_rules! pending {
    ($($turn:expr),* $(,)?) => {
        &[
            Turn::Asks(0, LockCall::Read),
            Turn::Goes(0, OWNED),
            Turn::Asks(1, LockCall::WriteUntil),
            Turn::Goes(1, None),
            Turn::Holds(1, None, true),
            $($turn),*
        ]
    };
}

const PENDING: [u64; 7] = [0, 16, 24, 26, 10, 8, 0];

/// It takes itself off the list, in three steps. Then thread 0 leaves, 10, and finds nobody there, 8. Thread 1 gives
/// its bit back, 0.
const GIVES_UP_FIRST: Row<'static> = (
    pending![
        Turn::Expires(1, true),
        Turn::Steps(1, 3),
        Turn::Gives(0, LockCall::UnlockRead),
        Turn::Goes(0, RELEASED),
        Turn::Holds(1, None, false),
        Turn::Goes(1, RELEASED),
    ],
    &PENDING,
);

/// Thread 0 comes first: it takes thread 1 off the list and wakes it. Thread 1 has the lock.
const WOKEN_FIRST: Row<'static> = (
    pending![
        Turn::Expires(1, true),
        Turn::Gives(0, LockCall::UnlockRead),
        Turn::Goes(0, RELEASED),
        Turn::Goes(1, OWNED),
        Turn::Holds(1, EXCLUSIVE, false),
        Turn::Gives(1, LockCall::UnlockWrite),
        Turn::Goes(1, RELEASED),
    ],
    &PENDING,
);

/// The same, and it is back before it is woken: it finds that it was taken, and goes on.
const TAKEN_FIRST: Row<'static> = (
    pending![
        Turn::Gives(0, LockCall::UnlockRead),
        Turn::Steps(0, 2),
        Turn::Expires(1, true),
        Turn::Goes(1, None),
        Turn::Steps(0, 2),
        Turn::Goes(1, OWNED),
        Turn::Holds(1, EXCLUSIVE, false),
        Turn::Goes(0, RELEASED),
        Turn::Gives(1, LockCall::UnlockWrite),
        Turn::Goes(1, RELEASED),
    ],
    &PENDING,
);

#[test]
fn words_of_calls_with_deadlines(rt: HostRuntime) -> Result<(), Fail> {
    let rows: [Row<'_>; 6] = [
        (behind_a_writer!(WriteUntil), &BEHIND_A_WRITER),
        (behind_a_writer!(ReadUntil), &BEHIND_A_WRITER),
        LETS_READERS_IN,
        GIVES_UP_FIRST,
        WOKEN_FIRST,
        TAKEN_FIRST,
    ];
    for (turns, words) in &rows {
        for fair in [false, true] {
            Trace::new(&rt, 3)?.follows_as(&rt, turns, words, fair)?;
        }
    }
    Ok(())
}
