//! A schedule at the first shard, and what is seen on the way.

use lock_api_desk::Mode;
use mapworld_state::locks::ShardLocks;
use parking_lot_machine::{CoreAnswer, LockCall};
use std::process::Abort;
use std::test::Fail;

/// More steps than a call makes here.
const MOST_STEPS: u32 = 200;

/// What is done next.
#[derive(Clone, Copy, Debug)]
pub enum Turn {
    /// A thread begins a call.
    Asks(usize, LockCall),
    /// A thread begins to give its hold up or to turn it, with the first act of that.
    Gives(usize, LockCall),
    /// A thread goes on until it is answered so, or can't move.
    Goes(usize, Option<CoreAnswer>),
    /// The same, and where it may it hands the lock over.
    GoesFairly(usize, Option<CoreAnswer>),
    /// A thread makes so many steps, and none of them is its answer.
    Steps(usize, u32),
    /// The deadline of a thread comes, or it can't.
    Expires(usize, bool),
    /// Nothing is done, and a thread holds the shard so, asleep or not.
    Holds(usize, Option<Mode>, bool),
}

/// The locks, each word that the first shard had, and whether desk and owners have agreed at each step.
#[derive(Drop)]
pub struct Trace {
    locks: ShardLocks,
    words: Vec<u64>,
    agrees: bool,
}

/// Whether the guard of a thread is that of an owner.
fn is_seated(locks: &ShardLocks, thread: usize) -> bool {
    let owner = locks.owner(thread, 0);
    match locks.desk(0) {
        Some(desk) => match desk.held(thread as u64) {
            Some((mode, party)) => owner == Some(mode) && party == thread as u64,
            None => owner.is_none(),
        },
        None => false,
    }
}

/// Whether every thread has the guard of an owner.
fn all_seated(locks: &ShardLocks) -> bool {
    let mut is_so = true;
    for thread in 0..locks.threads() {
        is_so = is_so & is_seated(locks, thread);
    }
    is_so
}

impl Trace {
    /// New locks for so many threads.
    pub fn new(rt: &impl AllocGlobal, threads: usize) -> Result<Trace, Fail> {
        Ok(Trace {
            locks: ShardLocks::new(rt.alloc(), threads, 2)?,
            words: Vec::new(rt.alloc()),
            agrees: true,
        })
    }

    /// Notes a word that is new, and compares the desk.
    fn look(&mut self) -> Result<(), Fail> {
        let word = self.locks.word(0);
        if self.words.last().copied() != Some(word) {
            self.words.push(word)?;
        }
        self.agrees = self.agrees & all_seated(&self.locks);
        Ok(())
    }

    fn asks(&mut self, thread: usize, call: LockCall) -> bool {
        let may = self.locks.may_ask(thread, 0, call);
        if may {
            self.locks.begin(thread, 0, call);
        }
        may
    }

    fn gives(&mut self, thread: usize, call: LockCall) -> bool {
        let may = self.locks.may_ask(thread, 0, call);
        if may {
            match call {
                LockCall::UnlockRead => self.locks.start(thread, 0, LockCall::UnlockRead, false),
                LockCall::UnlockWrite => self.locks.start(thread, 0, LockCall::UnlockWrite, false),
                LockCall::Downgrade => self.locks.start(thread, 0, LockCall::Downgrade, false),
                _ => return false,
            }
        }
        may
    }

    /// Makes a step, or gives the answer. Answers whether it could.
    fn steps(&mut self, thread: usize, fair: bool) -> bool {
        let may = self.locks.can_move(thread) && self.locks.ended(thread).is_none();
        if may {
            self.locks.step(thread, fair);
        }
        may
    }

    /// Goes on until the thread is answered or can't move.
    fn goes(&mut self, thread: usize, fair: bool) -> Result<Option<CoreAnswer>, Fail> {
        for _ in 0..MOST_STEPS {
            if self.locks.ended(thread).is_some() {
                return Ok(Some(self.locks.finish(thread)));
            }
            if !self.steps(thread, fair) {
                return Ok(None);
            }
            self.look()?;
        }
        Ok(None)
    }

    /// Makes so many steps. Answers whether it could.
    fn makes(&mut self, thread: usize, steps: u32) -> Result<bool, Fail> {
        let mut may = true;
        for _ in 0..steps {
            may = may & self.steps(thread, false);
            self.look()?;
        }
        Ok(may)
    }

    /// Lets the deadline of a thread come. Answers whether it could.
    fn expires(&mut self, thread: usize) -> bool {
        let may = self.locks.may_expire(thread);
        if may {
            self.locks.deadline(thread);
        }
        may
    }

    /// Takes a turn. Answers whether it went as it says. `fair`: each step hands the lock over where it may.
    fn takes(&mut self, turn: Turn, fair: bool) -> Result<bool, Fail> {
        let is_so = match turn {
            Turn::Asks(thread, call) => self.asks(thread, call),
            Turn::Gives(thread, call) => self.gives(thread, call),
            Turn::Goes(thread, answer) => self.goes(thread, fair)? == answer,
            Turn::GoesFairly(thread, answer) => self.goes(thread, true)? == answer,
            Turn::Steps(thread, steps) => self.makes(thread, steps)?,
            Turn::Expires(thread, may) => self.expires(thread) == may,
            Turn::Holds(thread, mode, asleep) => {
                (self.locks.owner(thread, 0) == mode) & (self.locks.is_asleep(thread) == asleep)
            }
        };
        self.look()?;
        Ok(is_so)
    }

    /// Whether calls are refused that a thread may not ask for here, where nobody has done anything.
    pub fn refuses(mut self, rt: &impl Abort) -> Result<(), Fail> {
        let unheld = self.asks(0, LockCall::UnlockRead) | self.asks(0, LockCall::Downgrade);
        let absent = self.asks(2, LockCall::Read) | self.asks(0, LockCall::Lock);
        let once = self.asks(0, LockCall::Read);
        let twice = self.asks(0, LockCall::Read);
        assert!(rt; !(unheld | absent | twice), "calls that are refused");
        assert!(rt; once, "a call that is allowed");
        Ok(())
    }

    /// Takes all turns, and then has seen these words.
    pub fn follows(&mut self, rt: &impl Abort, turns: &[Turn], words: &[u64]) -> Result<(), Fail> {
        self.follows_as(rt, turns, words, false)
    }

    /// The same; where `fair`, each step hands the lock over where it may.
    pub fn follows_as(
        &mut self,
        rt: &impl Abort,
        turns: &[Turn],
        words: &[u64],
        fair: bool,
    ) -> Result<(), Fail> {
        for (at, turn) in turns.iter().enumerate() {
            let is_so = self.takes(*turn, fair)?;
            assert!(rt; is_so, "turn {at}");
        }
        assert!(rt; self.agrees, "desk and owners agree");
        assert!(rt; self.words.as_slice() == words, "words");
        Ok(())
    }
}
