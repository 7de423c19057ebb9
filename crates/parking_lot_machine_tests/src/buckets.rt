//! Which sections of lists keep each other out: those of one bucket. A list's bucket is its key modulo the number of
//! buckets, which is 16 for up to five threads, 32 for up to ten, and 64 for eleven. Lock i has the keys 2i and 2i + 1.

use mapworld_state::locks::ShardLocks;
use parking_lot_machine::{Act, LockCall, LockKind, RowMachine};
use std::process::Abort;
use std::test::Fail;

/// More steps than a call makes without a sleep.
const MOST_STEPS: u32 = 60;

/// Locks whose exclusive holds are asked for.
trait Locks {
    fn rows(&self) -> &RowMachine;

    /// A thread begins to ask for a lock, if it may.
    fn asks(&mut self, thread: usize, lock: usize) -> bool;

    /// A thread makes a step, or is answered, if it can.
    fn steps(&mut self, thread: usize) -> bool;
}

impl Locks for RowMachine {
    fn rows(&self) -> &RowMachine {
        self
    }

    fn asks(&mut self, thread: usize, lock: usize) -> bool {
        let may = self.may_begin(thread, lock, LockCall::Lock);
        if may {
            self.begin(thread, lock, LockCall::Lock);
        }
        may
    }

    fn steps(&mut self, thread: usize) -> bool {
        let may = self.can_move(thread);
        if may {
            let _ = self.step(thread, false);
        }
        may
    }
}

impl Locks for ShardLocks {
    fn rows(&self) -> &RowMachine {
        self.machine()
    }

    fn asks(&mut self, thread: usize, lock: usize) -> bool {
        let may = self.may_ask(thread, lock, LockCall::Write);
        if may {
            self.begin(thread, lock, LockCall::Write);
        }
        may
    }

    fn steps(&mut self, thread: usize) -> bool {
        if self.ended(thread).is_some() {
            let _ = self.finish(thread);
            return true;
        }
        let may = self.can_move(thread);
        if may {
            self.step(thread, false);
        }
        may
    }
}

/// A thread asks for a lock that nobody owns, and owns it.
fn owns<L: Locks>(locks: &mut L, thread: usize, lock: usize) -> bool {
    let may = locks.asks(thread, lock);
    for _ in 0..MOST_STEPS {
        if locks.rows().call(thread).is_none() {
            return may;
        }
        let _ = locks.steps(thread);
    }
    false
}

/// Whether a thread's next step enters a section.
fn is_before(machine: &RowMachine, thread: usize) -> bool {
    match machine.call(thread) {
        Some(call) => matches!(call.core.act(), Act::Enter(_)),
        None => false,
    }
}

/// A thread asks for a lock that is owned, and goes on up to its section.
fn comes_before<L: Locks>(locks: &mut L, thread: usize, lock: usize) -> bool {
    let may = locks.asks(thread, lock);
    for _ in 0..MOST_STEPS {
        if is_before(locks.rows(), thread) {
            return may;
        }
        let _ = locks.steps(thread);
    }
    false
}

/// Thread 1 is inside of the section of lock 0, and thread 2 before that of another lock, or of the same. Answers
/// whether thread 2 can move. Three steps later thread 1 is out of it and sleeps, and thread 2 can move.
fn can_move_beside<L: Locks>(locks: &mut L, lock: usize) -> Option<bool> {
    let are_owned = owns(locks, 0, 0) && (lock == 0 || owns(locks, 0, lock));
    let is_inside = are_owned && comes_before(locks, 1, 0) && locks.steps(1);
    if !is_inside || !comes_before(locks, 2, lock) {
        return None;
    }
    let is_beside = locks.rows().can_move(2);
    let is_out = locks.steps(1) && locks.steps(1) && locks.steps(1);
    let is_free = is_out && locks.rows().is_asleep(1) && locks.rows().can_move(2);
    Some(is_beside).filter(|_| is_free)
}

/// How many threads there are, the lock of thread 2, and whether it can move.
type Row = (usize, usize, bool);

const ROWS: [Row; 12] = [
    (3, 0, false),
    (3, 1, true),
    (3, 7, true),
    (3, 8, false),
    (3, 9, true),
    (3, 15, true),
    (5, 8, false),
    (6, 8, true),
    (6, 15, true),
    (10, 8, true),
    (11, 8, true),
    (11, 15, true),
];

/// The same where there are more than 16 locks.
const ROWS_OF_MORE: [Row; 5] = [
    (5, 16, false),
    (6, 16, false),
    (10, 16, false),
    (11, 16, true),
    (11, 32, false),
];

/// Looks at so many locks for each row.
fn follow(rt: &(impl AllocGlobal + Abort), locks: usize, rows: &[Row]) -> Result<(), Fail> {
    for (threads, lock, can_move) in rows {
        let kinds = vec![in rt.alloc(); LockKind::Mutex; locks]?;
        let mut machine = RowMachine::new(&rt.alloc(), *threads, kinds)?;
        let of_machine = can_move_beside(&mut machine, *lock);
        let mut shards = ShardLocks::new(rt.alloc(), *threads, locks)?;
        let of_shards = can_move_beside(&mut shards, *lock);
        let is_so = of_machine == Some(*can_move) && of_shards == of_machine;
        assert!(rt; is_so, "lock {lock} of {threads} threads");
    }
    Ok(())
}

#[test]
fn a_section_keeps_out_those_of_its_bucket_alone(rt: HostRuntime) -> Result<(), Fail> {
    follow(&rt, 16, &ROWS)
}

#[test]
fn more_locks_than_buckets_share_them(rt: HostRuntime) -> Result<(), Fail> {
    follow(&rt, 40, &ROWS_OF_MORE)
}
