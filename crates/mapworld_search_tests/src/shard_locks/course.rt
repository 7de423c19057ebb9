//! Two threads at the first shard, each with one call and what gives it up: how far they are, and what has to hold.

use super::READS;
use lock_api_desk::Mode;
use mapworld_state::locks::ShardLocks;
use parking_lot_core_model::{Place, ThreadStatus};
use parking_lot_machine::{
    Core, CoreAnswer, LateRwPhase, LockCall, QueuePosition, RwSleeper, Wakeup,
};
use parking_lot_protocol::RwPhase;
use parking_lot_protocol_rw::UpgradePhase;
use std::test::Fail;

/// Where a thread is.
#[derive(Clone, Copy, PartialEq, Debug)]
pub enum Stage {
    /// It hasn't asked for the lock.
    Before,
    /// It has. Whether the other has been at the lock since, and whether its deadline has come.
    Asks(bool, bool),
    /// It was answered that it holds the lock.
    Holds,
    /// It gives its hold up.
    Gives,
    /// It has given it up.
    Served,
    /// It was refused, and holds nothing.
    Refused,
}

impl Stage {
    /// Whether nothing is left for it to do.
    fn is_done(self) -> bool {
        matches!(self, Stage::Served | Stage::Refused)
    }

    /// Whether it may keep the other out.
    fn is_at_the_lock(self) -> bool {
        !self.is_done() && self != Stage::Before
    }
}

/// What is done next.
#[derive(Clone, Copy, Debug)]
pub enum Move {
    /// A thread goes on by a step. Whether it hands the lock over, where it may.
    Goes(usize, bool),
    /// Its deadline comes.
    Expires(usize),
}

/// Where a call stands: the number of its case, where in the call of a reader or writer, and the word that it has
/// loaded.
type Standing = (u8, Option<RwPhase>, u64);

fn standing(core: Core) -> Standing {
    match core {
        Core::Rw(core) => (0, Some(core.phase()), 0),
        Core::LateRw(phase) => late(phase),
        Core::Upgrade(core) => yielding(core.phase()),
        _ => (1, None, 0),
    }
}

/// Where one stands whose deadline has come.
fn late(phase: LateRwPhase) -> Standing {
    match phase {
        LateRwPhase::Expires(sleeper) => (2, slept(sleeper), 0),
        LateRwPhase::Quits(sleeper) => (3, slept(sleeper), 0),
        LateRwPhase::Masks => (4, None, 0),
        LateRwPhase::Leaves => (5, None, 0),
        LateRwPhase::GivesUp => (6, None, 0),
        LateRwPhase::LeavesPending(_) => (7, None, 0),
        LateRwPhase::WasTaken(sleeper, _, false) => (8, slept(sleeper), 0),
        LateRwPhase::WasTaken(sleeper, _, true) => (9, slept(sleeper), 0),
    }
}

/// Where a writer stands that gives its bit back.
fn yielding(phase: UpgradePhase) -> Standing {
    match phase {
        UpgradePhase::YieldLoads(_) => (10, None, 0),
        UpgradePhase::Yields(_, word) => (11, None, word),
        UpgradePhase::Owes(_, _, core) => (12, Some(core.phase()), 0),
        UpgradePhase::Ends(..) => (13, None, 0),
        _ => (1, None, 0),
    }
}

/// Where a reader or writer slept.
fn slept(sleeper: RwSleeper) -> Option<RwPhase> {
    match sleeper {
        RwSleeper::Simple(core) => Some(core.phase()),
        RwSleeper::Upgradable(_) => None,
    }
}

/// What is shown of a thread.
#[derive(Clone, Copy, PartialEq)]
struct Seat {
    stage: Stage,
    call: Option<(Standing, QueuePosition)>,
    place: Option<Place>,
    status: Option<ThreadStatus>,
    owner: Option<Mode>,
}

/// All that the further moves depend on.
#[derive(PartialEq, Drop)]
pub struct Shown {
    word: u64,
    seats: [Seat; 2],
    wakes: Vec<Wakeup>,
}

/// Whether a call has a deadline.
pub fn is_timed(call: LockCall) -> bool {
    matches!(call, LockCall::ReadUntil | LockCall::WriteUntil)
}

/// How a call that is answered holds the lock.
fn mode(call: LockCall) -> Option<Mode> {
    if READS.contains(&call) {
        Some(Mode::Shared)
    } else {
        Some(Mode::Exclusive)
    }
}

/// Where a thread is behind an answer; `None` where it may not be answered so. One whose deadline has come is refused,
/// or has given its bit back, and a try is refused: each only where it has met the other.
fn behind(stage: Stage, call: LockCall, answer: CoreAnswer) -> Option<Stage> {
    let gives_up = match stage {
        Stage::Asks(met, late) => met && (late || !is_timed(call)),
        _ => false,
    };
    match (stage, answer) {
        (Stage::Asks(..), CoreAnswer::Owned) => Some(Stage::Holds),
        (Stage::Asks(..), CoreAnswer::Refused) if gives_up => Some(Stage::Refused),
        (Stage::Asks(_, true), CoreAnswer::Released) if gives_up => Some(Stage::Refused),
        (Stage::Gives, CoreAnswer::Released) => Some(Stage::Served),
        _ => None,
    }
}

/// The locks of one shard, two threads with a call each, and the first rule that was broken.
#[derive(Drop)]
pub struct Course {
    locks: ShardLocks,
    calls: [LockCall; 2],
    stages: [Stage; 2],
    broken: Option<&'static str>,
}

/// The other of two threads.
fn other(thread: usize) -> usize {
    if thread == 0 { 1 } else { 0 }
}

impl Course {
    /// Before the first step.
    pub fn new(rt: &impl AllocGlobal, calls: [LockCall; 2]) -> Result<Course, Fail> {
        Ok(Course {
            locks: ShardLocks::new(rt.alloc(), 2, 1)?,
            calls,
            stages: [Stage::Before; 2],
            broken: None,
        })
    }

    /// How far the threads are.
    pub fn stages(&self) -> [Stage; 2] {
        self.stages
    }

    /// A rule that was broken on the way.
    pub fn broken(&self) -> Option<&'static str> {
        self.broken
    }

    /// Whether both are done.
    pub fn is_over(&self) -> bool {
        self.stage(0).is_done() && self.stage(1).is_done()
    }

    /// Whether the lock is as it was made: no bit, nobody in a list, nobody to be woken.
    pub fn is_left(&self) -> bool {
        let machine = self.locks.machine();
        let runs = |thread| machine.lot().place(thread) == Some(Place::Running);
        self.locks.word(0) == 0 && machine.wakes().is_empty() && runs(0) && runs(1)
    }

    fn stage(&self, thread: usize) -> Stage {
        self.stages.get(thread).copied().unwrap_or(Stage::Before)
    }

    fn call(&self, thread: usize) -> LockCall {
        self.calls.get(thread).copied().unwrap_or(LockCall::Read)
    }

    fn put(&mut self, thread: usize, stage: Stage) {
        if let Some(place) = self.stages.get_mut(thread) {
            *place = stage;
        }
    }

    /// Notes a rule that doesn't hold, the first one.
    fn must(&mut self, holds: bool, rule: &'static str) {
        if !holds && self.broken.is_none() {
            self.broken = Some(rule);
        }
    }

    fn asks(&mut self, thread: usize) -> bool {
        let call = self.call(thread);
        let may = self.locks.may_ask(thread, 0, call);
        if may {
            self.locks.begin(thread, 0, call);
            self.put(thread, Stage::Asks(false, false));
        }
        may
    }

    /// A thread begins to give its hold up.
    fn gives(&mut self, thread: usize, fair: bool) -> bool {
        let reads = self.locks.may_ask(thread, 0, LockCall::UnlockRead);
        let writes = self.locks.may_ask(thread, 0, LockCall::UnlockWrite);
        if reads {
            self.locks.start(thread, 0, LockCall::UnlockRead, fair);
        } else if writes {
            self.locks.start(thread, 0, LockCall::UnlockWrite, fair);
        }
        self.put(thread, Stage::Gives);
        reads || writes
    }

    /// A thread's call is answered, where only that is left.
    fn is_answered(&mut self, thread: usize) -> bool {
        if self.locks.ended(thread).is_none() {
            return false;
        }
        let answer = self.locks.finish(thread);
        match behind(self.stage(thread), self.call(thread), answer) {
            Some(stage) => self.put(thread, stage),
            None => self.must(false, "a call is answered as fits it"),
        }
        true
    }

    fn steps(&mut self, thread: usize, fair: bool) -> bool {
        let may = self.locks.can_move(thread) && self.locks.ended(thread).is_none();
        if may {
            self.locks.step(thread, fair);
        }
        may
    }

    fn goes(&mut self, thread: usize, fair: bool) -> bool {
        match self.stage(thread) {
            Stage::Before => self.asks(thread),
            Stage::Holds => self.gives(thread, fair),
            Stage::Asks(..) | Stage::Gives => self.is_answered(thread) || self.steps(thread, fair),
            Stage::Served | Stage::Refused => false,
        }
    }

    fn expires(&mut self, thread: usize) -> bool {
        let may = self.locks.may_expire(thread);
        if may {
            let owner = self.locks.owner(thread, 0);
            let word = self.locks.word(0);
            self.locks.deadline(thread);
            let stays = self.locks.owner(thread, 0) == owner && self.locks.word(0) == word;
            self.must(stays, "a deadline changes no word and no hold");
            match self.stage(thread) {
                Stage::Asks(met, false) if is_timed(self.call(thread)) => {
                    self.put(thread, Stage::Asks(met, true));
                }
                _ => self.must(false, "a deadline comes once, of a call that has one"),
            }
        }
        may
    }

    /// Notes that the other is at the lock while a thread asks for it.
    fn meets(&mut self, thread: usize) {
        if let Stage::Asks(met, late) = self.stage(thread) {
            let is_there = self.stage(other(thread)).is_at_the_lock();
            self.put(thread, Stage::Asks(met || is_there, late));
        }
    }

    /// What a thread holds has to be what it was answered.
    fn looks_at(&mut self, thread: usize) {
        let owner = self.locks.owner(thread, 0);
        let holds = match self.stage(thread) {
            Stage::Before | Stage::Served | Stage::Refused => owner.is_none(),
            Stage::Holds => owner == mode(self.call(thread)),
            Stage::Asks(..) | Stage::Gives => owner.is_none() || owner == mode(self.call(thread)),
        };
        self.must(holds, "a thread holds the lock as it was answered");
    }

    /// Whether the desk has a guard of a thread exactly where it holds the lock.
    fn is_seated(&self, thread: usize) -> bool {
        let number = thread as u64;
        match self.locks.desk(0) {
            Some(desk) => {
                let owner = self.locks.owner(thread, 0);
                desk.held(number) == owner.map(|mode| (mode, number))
            }
            None => false,
        }
    }

    /// The rules of all states.
    fn looks(&mut self) {
        let seated = self.is_seated(0) && self.is_seated(1);
        self.must(seated, "desk and owners agree");
        let owners = [self.locks.owner(0, 0), self.locks.owner(1, 0)];
        let excludes = owners == [Some(Mode::Shared); 2] || owners.contains(&None);
        self.must(excludes, "who writes is alone");
        self.looks_at(0);
        self.looks_at(1);
    }

    /// Makes a move, if it can be made. Answers whether it could.
    pub fn goes_on(&mut self, next: Move) -> bool {
        let is_made = match next {
            Move::Goes(thread, fair) => self.goes(thread, fair),
            Move::Expires(thread) => self.expires(thread),
        };
        self.meets(0);
        self.meets(1);
        is_made
    }

    /// The same, and looks at the state behind it.
    pub fn makes(&mut self, next: Move) -> bool {
        let is_made = self.goes_on(next);
        if is_made {
            self.looks();
        }
        is_made
    }

    fn seat(&self, thread: usize) -> Seat {
        let machine = self.locks.machine();
        Seat {
            stage: self.stage(thread),
            call: machine
                .call(thread)
                .map(|call| (standing(call.core), call.spot)),
            place: machine.lot().place(thread),
            status: machine.lot().status(thread),
            owner: self.locks.owner(thread, 0),
        }
    }

    /// The state.
    pub fn shown(&self, rt: &impl AllocGlobal) -> Result<Shown, Fail> {
        Ok(Shown {
            word: self.locks.word(0),
            seats: [self.seat(0), self.seat(1)],
            wakes: self.locks.machine().wakes().to_vec(rt.alloc())?,
        })
    }
}
