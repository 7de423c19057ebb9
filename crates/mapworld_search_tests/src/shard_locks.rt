//! Every schedule of two threads at one shard's lock. Each asks for it once, one of them at least until a deadline, and
//! gives up what it got. So they end as they may where calls are made whole, one after another.

mod course;

use course::{Course, Move, Shown, Stage, is_timed};
use parking_lot_machine::LockCall;
use std::process::Abort;
use std::test::Fail;

/// Calls that ask for the shared hold, and for the exclusive one.
const READS: [LockCall; 3] = [LockCall::Read, LockCall::TryRead, LockCall::ReadUntil];

const WRITES: [LockCall; 3] = [LockCall::Write, LockCall::TryWrite, LockCall::WriteUntil];

/// What may be tried in each state.
const MOVES: [Move; 6] = [
    Move::Goes(0, false),
    Move::Goes(0, true),
    Move::Goes(1, false),
    Move::Goes(1, true),
    Move::Expires(0),
    Move::Expires(1),
];

/// More states than a pair's schedules lead to.
const MOST_STATES: usize = 20_000;

const DONE: [Stage; 2] = [Stage::Served, Stage::Refused];

/// A state, and a schedule that leads there.
#[derive(Drop)]
struct Reached {
    schedule: Vec<Move>,
    shown: Shown,
}

/// A search of all schedules of two threads, by the states to which they lead.
#[derive(Drop)]
struct Explorer<'r, R> {
    rt: &'r R,
    calls: [LockCall; 2],
    reached: Vec<Reached>,
    /// How the threads end, each way once.
    ends: Vec<[Stage; 2]>,
}

impl<'r, R: AllocGlobal + Abort> Explorer<'r, R> {
    /// The locks behind a schedule.
    fn behind(&self, schedule: &[Move]) -> Result<Course, Fail> {
        let mut course = Course::new(self.rt, self.calls)?;
        for next in schedule {
            course.goes_on(*next);
        }
        Ok(course)
    }

    /// Adds a state, if it isn't known.
    fn add(&mut self, schedule: Vec<Move>, shown: Shown) -> Result<(), Fail> {
        if !self.reached.iter().any(|known| known.shown == shown) {
            self.reached.push(Reached { schedule, shown })?;
        }
        Ok(())
    }

    /// Makes a move behind a schedule, if it can be made, and adds the state that it leads to. Answers whether it could.
    fn tries(&mut self, schedule: &Vec<Move>, next: Move) -> Result<bool, Fail> {
        let mut course = self.behind(schedule)?;
        if !course.makes(next) {
            return Ok(false);
        }
        let broken = course.broken();
        assert!(self.rt; broken.is_none(), "{broken:?} of {:?}", self.calls);
        let mut longer = schedule.clone()?;
        longer.push(next)?;
        let shown = course.shown(self.rt)?;
        self.add(longer, shown)?;
        Ok(true)
    }

    /// Tries each move in a state. Where both are done nothing is left at the lock, and else somebody can move without
    /// a deadline.
    fn visits(&mut self, schedule: &Vec<Move>) -> Result<(), Fail> {
        let mut can_move = false;
        for next in MOVES {
            let is_made = self.tries(schedule, next)?;
            can_move = can_move | (is_made && matches!(next, Move::Goes(..)));
        }
        let course = self.behind(schedule)?;
        if course.is_over() {
            assert!(self.rt; !can_move && course.is_left(), "{:?} are done", self.calls);
            let end = course.stages();
            if !self.ends.contains(&end) {
                self.ends.push(end)?;
            }
        } else {
            assert!(self.rt; can_move, "somebody can move, of {:?}", self.calls);
        }
        Ok(())
    }

    /// Goes from each state on to those that one move leads to, until there are no others. Answers how many there are.
    fn runs(&mut self) -> Result<usize, Fail> {
        let first = Course::new(self.rt, self.calls)?.shown(self.rt)?;
        self.add(Vec::new(self.rt.alloc()), first)?;
        for at in 0..MOST_STATES {
            let Some(state) = self.reached.get(at) else {
                return Ok(at);
            };
            let schedule = state.schedule.clone()?;
            self.visits(&schedule)?;
        }
        assert!(self.rt; false, "too many states of {:?}", self.calls);
        Ok(MOST_STATES)
    }
}

/// Whether a call can be refused beside the other, made whole: it doesn't wait, or not for ever, and one of them writes.
fn may_be_refused(call: LockCall, other: LockCall) -> bool {
    let gives_up = is_timed(call) || matches!(call, LockCall::TryRead | LockCall::TryWrite);
    gives_up && !(READS.contains(&call) && READS.contains(&other))
}

/// Whether two threads can end so, where each call is made whole. Who is refused has met the other as it held the lock,
/// which then gives it up.
fn may_end(calls: [LockCall; 2], ends: [Stage; 2]) -> bool {
    let [first, second] = calls;
    match ends {
        [Stage::Served, Stage::Served] => true,
        [Stage::Refused, Stage::Served] => may_be_refused(first, second),
        [Stage::Served, Stage::Refused] => may_be_refused(second, first),
        _ => false,
    }
}

/// Makes all schedules of two calls. Answers how many states there are.
fn search(rt: &(impl AllocGlobal + Abort), calls: [LockCall; 2]) -> Result<usize, Fail> {
    let mut explorer = Explorer {
        rt,
        calls,
        reached: Vec::new(rt.alloc()),
        ends: Vec::new(rt.alloc()),
    };
    let states = explorer.runs()?;
    for first in DONE {
        for second in DONE {
            let ends = [first, second];
            let is_so = may_end(calls, ends) == explorer.ends.contains(&ends);
            assert!(rt; is_so, "{ends:?} of {calls:?}");
        }
    }
    Ok(states)
}

#[test]
fn calls_with_deadlines_end_as_calls_made_whole(rt: HostRuntime) -> Result<(), Fail> {
    let mut states = 0usize;
    for timed in [LockCall::ReadUntil, LockCall::WriteUntil] {
        for other in READS.iter().chain(WRITES.iter()) {
            states = states.saturating_add(search(&rt, [timed, *other])?);
        }
    }
    assert!(rt; states >= 4_000, "{states} states");
    Ok(())
}
