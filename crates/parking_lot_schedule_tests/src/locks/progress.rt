//! How far two threads are in their programs, and what is noted of their calls.

use parking_lot_explorer::Seen;
use parking_lot_explorer::programs::{
    End, Program, is_timed, may_answer, owned_before, owned_behind, shares_behind,
};
use parking_lot_explorer::shown::Shown;
use parking_lot_world::{LockAnswer, LockCall, LockKind, OwnMode, WorldStep};

/// A call that isn't answered, and what was seen since it began.
#[derive(Clone, Copy, PartialEq)]
pub struct Open {
    pub call: LockCall,
    /// How many shared holds its thread had as it began.
    pub shares: u8,
    /// Whether the other has owned the lock.
    pub met: bool,
    /// Whether its thread has stood in the first list, and in the second.
    pub first: bool,
    pub second: bool,
    /// Whether its deadline has come.
    pub late: bool,
}

impl Open {
    fn of(call: LockCall, shares: u8) -> Open {
        Open {
            call,
            shares,
            met: false,
            first: false,
            second: false,
            late: false,
        }
    }

    /// Once that is shown of its thread.
    fn seen(self, thread: usize, shown: Shown<'_>) -> Open {
        Open {
            call: self.call,
            shares: self.shares,
            met: self.met || shown.mode(other(thread)).is_some(),
            first: self.first || shown.waits_first(thread),
            second: self.second || shown.waits_second(thread),
            late: self.late,
        }
    }

    /// Whether its thread, which owns the lock so, was taken out of a list for nothing so far: it isn't what it waited
    /// there to be. One whose deadline has come may have taken itself out.
    pub fn is_due(self, mode: Option<OwnMode>) -> bool {
        let is_out = self.first && mode.is_none() || self.second && mode == Some(OwnMode::Pending);
        is_out && !self.late
    }

    /// Once its deadline has come.
    fn expired(self) -> Open {
        Open { late: true, ..self }
    }

    /// Whether it may be answered so: as fits it, refused only where the other has owned the lock meanwhile, and timed
    /// out only where its deadline has come as it stood in a list.
    fn may_be_answered(self, answer: LockAnswer) -> bool {
        let is_so = match answer {
            LockAnswer::Refused => self.met,
            LockAnswer::TimedOut => self.met && (self.first || self.second) && self.late,
            _ => true,
        };
        is_so && may_answer(self.call, answer)
    }
}

/// Where a thread is in its program.
#[derive(Clone, Copy, PartialEq)]
pub enum Stage {
    /// In no call. By its calls so far it owns the lock like this.
    Between(Option<OwnMode>),
    /// In a call.
    Within(Open),
}

/// How far a thread is in its program.
#[derive(Clone, Copy, PartialEq)]
pub struct Progress {
    pub stage: Stage,
    /// How many shared holds it has by its calls so far.
    shares: u8,
    /// The calls that it hasn't begun.
    pub rest: Program,
    /// Whether its try was refused, or its deadline came first.
    pub refused: bool,
}

impl Progress {
    /// Before the first call.
    pub fn of(program: Program) -> Progress {
        Progress {
            stage: Stage::Between(None),
            shares: 0,
            rest: program,
            refused: false,
        }
    }

    /// What may be its next steps. Others are never allowed; these aren't where it is at the end, sleeps, or is before
    /// a section that another has entered.
    pub fn steps(self, thread: usize) -> [Option<WorldStep>; 3] {
        let goes = WorldStep::Go(thread, false);
        let other = match (self.stage, self.rest[0]) {
            (Stage::Between(_), Some(call)) => WorldStep::Begin(thread, 0, call),
            _ => WorldStep::Go(thread, true),
        };
        let deadline = WorldStep::Deadline(thread);
        [
            Some(goes),
            Some(other),
            Some(deadline).filter(|step| self.may_make(*step)),
        ]
    }

    /// Whether it is in a call where it goes on, in none where it begins one, and in a timed one where its deadline
    /// comes.
    pub fn may_make(self, step: WorldStep) -> bool {
        match step {
            WorldStep::Begin(_, _, _) => matches!(self.stage, Stage::Between(_)),
            WorldStep::Go(_, _) => matches!(self.stage, Stage::Within(_)),
            WorldStep::Deadline(_) => match self.stage {
                Stage::Between(_) => false,
                Stage::Within(open) => is_timed(open.call),
            },
        }
    }

    /// Once it has begun its next call.
    fn begun(self) -> Progress {
        let [next, second, third] = self.rest;
        match next {
            Some(call) => Progress {
                stage: Stage::Within(Open::of(call, self.shares)),
                shares: self.shares,
                rest: [second, third, None],
                refused: false,
            },
            None => self,
        }
    }

    /// Once its call is answered.
    fn answered(self, call: LockCall, answer: LockAnswer) -> Progress {
        if matches!(answer, LockAnswer::Refused | LockAnswer::TimedOut) {
            Progress {
                stage: Stage::Between(owned_before(call, self.shares)),
                shares: self.shares,
                rest: [None; 3],
                refused: true,
            }
        } else {
            Progress {
                stage: Stage::Between(owned_behind(call, self.shares)),
                shares: shares_behind(call, self.shares),
                ..self
            }
        }
    }

    /// Once its deadline has come.
    fn expired(self) -> Progress {
        match self.stage {
            Stage::Between(_) => self,
            Stage::Within(open) => Progress {
                stage: Stage::Within(open.expired()),
                ..self
            },
        }
    }

    /// Once it has made a step, behind which its last call is answered so.
    fn after(self, step: WorldStep, answer: Option<LockAnswer>) -> Progress {
        match (step, self.stage, answer) {
            (WorldStep::Deadline(_), _, _) => self.expired(),
            (_, Stage::Between(_), _) => self.begun(),
            (_, Stage::Within(_), None) => self,
            (_, Stage::Within(open), Some(answer)) => self.answered(open.call, answer),
        }
    }

    /// Once that is shown of its thread.
    fn seen(self, thread: usize, shown: Shown<'_>) -> Progress {
        match self.stage {
            Stage::Between(_) => self,
            Stage::Within(open) => Progress {
                stage: Stage::Within(open.seen(thread, shown)),
                ..self
            },
        }
    }

    /// Whether its next step may leave its call answered so.
    pub fn may_be_answered(self, answer: Option<LockAnswer>) -> bool {
        match (self.stage, answer) {
            (_, None) => true,
            (Stage::Between(_), Some(_)) => false,
            (Stage::Within(open), Some(answer)) => open.may_be_answered(answer),
        }
    }

    /// How many shared holds it has at least and at most.
    pub fn holds(self) -> (u64, u64) {
        let before = u64::from(self.shares);
        match self.stage {
            Stage::Between(_) => (before, before),
            Stage::Within(open) => {
                let behind = u64::from(shares_behind(open.call, self.shares));
                (before.min(behind), before.max(behind))
            }
        }
    }

    /// How it ends, where it makes no further step.
    pub fn end(self) -> End {
        match self.stage {
            Stage::Within(_) => End::Waits,
            Stage::Between(_) if self.refused => End::Refused,
            Stage::Between(_) => End::Served,
        }
    }
}

/// The other of two threads.
pub fn other(thread: usize) -> usize {
    if thread == 0 { 1 } else { 0 }
}

/// One of two threads behind a step, where that is shown.
fn followed(at: Progress, thread: usize, step: WorldStep, behind: Shown<'_>) -> Progress {
    let moved = if thread == step.thread() {
        at.after(step, behind.answer(thread))
    } else {
        at
    };
    moved.seen(thread, behind)
}

/// Both of them.
pub fn both_followed(threads: [Progress; 2], step: WorldStep, behind: Shown<'_>) -> [Progress; 2] {
    [
        followed(threads[0], 0, step, behind),
        followed(threads[1], 1, step, behind),
    ]
}

/// A state: how far the two threads are, and what is shown.
#[derive(Clone, Copy)]
pub struct Moment<'w> {
    pub threads: [Progress; 2],
    pub shown: Shown<'w>,
}

impl<'w> Moment<'w> {
    /// A state at a lock of that kind.
    pub fn of(kind: LockKind, at: &'w Seen<[Progress; 2]>) -> Moment<'w> {
        Moment {
            threads: at.notes,
            shown: Shown {
                kind,
                world: &at.world,
            },
        }
    }

    /// Whether a thread that gives the lock up has to hand it over: it has taken one that waits.
    pub fn must_hand(self, thread: usize) -> bool {
        self.shown.is_fair() && self.shown.world.has_taken(thread)
    }

    /// How far one of the two threads is.
    pub fn progress(self, thread: usize) -> Progress {
        let [first, second] = self.threads;
        if thread == 0 { first } else { second }
    }
}
