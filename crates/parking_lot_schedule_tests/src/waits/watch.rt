//! What is watched of threads at a condition variable and its mutexes.

use super::notes::{NOTHING, Note};
use super::rules::{broken_by_end, broken_by_state, broken_by_step, ends_of};
use parking_lot_explorer::{
    Caller, Calls, Ends, LockShown, Seen, Three, Watch, WorldState, callers_of,
};
use parking_lot_world::{LockKind, WorldStep};

/// The locks of these worlds: a mutex, a condition variable, and another mutex.
pub const M: usize = 0;

pub const V: usize = 1;

pub const OTHER: usize = 2;

const KINDS: [LockKind; 3] = [LockKind::Mutex, LockKind::Condvar, LockKind::Mutex];

/// What is noted of three threads on the way.
#[derive(Clone, Copy, PartialEq)]
pub struct Notes {
    callers: Three<Caller>,
    notes: Three<Note>,
}

/// A state: how far the threads are, what is noted of their calls, and what is shown.
#[derive(Clone, Copy)]
pub struct Moment<'w> {
    pub callers: Three<Caller>,
    pub notes: Three<Note>,
    pub world: &'w WorldState,
}

impl<'w> Moment<'w> {
    fn of(at: &'w Seen<Notes>) -> Moment<'w> {
        Moment {
            callers: at.notes.callers,
            notes: at.notes.notes,
            world: &at.world,
        }
    }

    /// What is shown of one of the mutexes.
    pub fn mutex(self, mutex: usize) -> &'w LockShown {
        let [first, _, other] = &self.world.locks;
        if mutex == M { first } else { other }
    }

    pub fn variable(self) -> &'w LockShown {
        let [_, variable, _] = &self.world.locks;
        variable
    }

    /// Who waits at the variable, in order.
    pub fn order(self) -> &'w [usize] {
        &self.variable().first
    }
}

/// What is noted of a thread's call behind a step.
fn noted(
    before: Moment<'_>,
    caller: Caller,
    thread: usize,
    step: WorldStep,
    variable: &LockShown,
) -> Note {
    if caller.open.is_none() {
        return NOTHING;
    }
    let note = before.notes.of(thread);
    note.behind(thread, step, variable.word, before.order(), &variable.first)
}

/// Threads at a condition variable and its mutexes.
#[derive(Drop)]
pub struct WaitWatch {
    pub programs: Three<Calls>,
    pub threads: usize,
    /// Whether sections were open in two buckets at once.
    pub beside: bool,
}

impl Watch for WaitWatch {
    type Notes = Notes;

    type End = Ends;

    fn kinds(&self) -> &[LockKind] {
        &KINDS
    }

    fn threads(&self) -> usize {
        self.threads
    }

    fn counts_sleeps(&self) -> bool {
        false
    }

    fn first(&self) -> Notes {
        Notes {
            callers: callers_of(self.programs),
            notes: Three(NOTHING, NOTHING, NOTHING),
        }
    }

    fn behind(&self, before: &Seen<Notes>, step: WorldStep, world: &WorldState) -> Notes {
        let before = Moment::of(before);
        let thread = step.thread();
        let moved = before.callers.of(thread).stepped(world.answer(thread));
        let callers = before.callers.with(thread, moved);
        let [_, variable, _] = &world.locks;
        let notes = Three(
            noted(before, callers.0, 0, step, variable),
            noted(before, callers.1, 1, step, variable),
            noted(before, callers.2, 2, step, variable),
        );
        Notes { callers, notes }
    }

    fn steps(&self, at: &Seen<Notes>, thread: usize) -> [Option<WorldStep>; 3] {
        let caller = at.notes.callers.of(thread);
        let Some(open) = caller.open else {
            let begins = caller
                .next()
                .map(|asked| WorldStep::Begin(thread, asked.lock, asked.call));
            return [begins, None, None];
        };
        let hands = WorldStep::Go(thread, true);
        let deadline = WorldStep::Deadline(thread);
        let may_expire = open.waits_in_time() && !at.notes.notes.of(thread).late;
        [
            Some(WorldStep::Go(thread, false)),
            Some(hands).filter(|_| at.world.may_hand(thread)),
            Some(deadline).filter(|_| may_expire),
        ]
    }

    fn look(&mut self, at: &Seen<Notes>) -> Option<&'static str> {
        self.beside = self.beside || at.world.open_sections > 1;
        broken_by_state(Moment::of(at))
    }

    fn look_at_step(
        &mut self,
        before: &Seen<Notes>,
        step: WorldStep,
        behind: &Seen<Notes>,
    ) -> Option<&'static str> {
        broken_by_step(Moment::of(before), step.thread(), Moment::of(behind))
    }

    fn look_at_end(&self, at: &Seen<Notes>) -> Option<&'static str> {
        broken_by_end(Moment::of(at))
    }

    fn ends_as(&self, at: &Seen<Notes>) -> Ends {
        ends_of(Moment::of(at))
    }
}
