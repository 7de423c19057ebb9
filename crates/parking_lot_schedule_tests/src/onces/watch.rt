//! What is watched of threads at one once.

use super::rules::{Moment, broken_by_end, broken_by_state, broken_by_step};
use parking_lot_explorer::{
    Caller, Calls, Ends, Seen, Three, Watch, WorldState, callers_of, ends_of,
};
use parking_lot_world::{LockKind, OnceState, WorldStep};

/// Those that are off the list and not woken yet, in the order in which they were taken: two at most.
#[derive(Clone, Copy, PartialEq)]
struct Taken(Option<usize>, Option<usize>);

impl Taken {
    /// With one more behind them.
    fn and(self, thread: usize) -> Taken {
        if self.0.is_none() {
            Taken(Some(thread), None)
        } else {
            Taken(self.0, Some(thread))
        }
    }

    /// With that one, if it is among them and still taken.
    fn still(self, thread: Option<usize>, world: &WorldState) -> Taken {
        match thread {
            Some(thread) if world.is_taken(thread) => self.and(thread),
            _ => self,
        }
    }

    /// With that one, if it is newly taken.
    fn newly(self, thread: usize, world: &WorldState) -> Taken {
        let is_known = self.0 == Some(thread) || self.1 == Some(thread);
        if world.is_taken(thread) && !is_known {
            self.and(thread)
        } else {
            self
        }
    }

    /// Those that are taken now.
    fn now(self, world: &WorldState) -> Taken {
        Taken(None, None)
            .still(self.0, world)
            .still(self.1, world)
            .newly(0, world)
            .newly(1, world)
            .newly(2, world)
    }
}

/// What is noted of three threads on the way.
#[derive(Clone, Copy, PartialEq)]
pub struct Notes {
    callers: Three<Caller>,
    /// Whether the once has been poisoned since the call of each began.
    met: Three<bool>,
    taken: Taken,
}

/// Whether the once has been poisoned since a thread's call began, that is in one now.
fn meets(caller: Caller, met: bool, state: OnceState) -> bool {
    caller.open.is_some() && (met || state == OnceState::Poisoned)
}

/// Threads at one once.
#[derive(Drop)]
pub struct OnceWatch {
    pub programs: Three<Calls>,
    pub threads: usize,
}

/// A state.
fn moment_of(at: &Seen<Notes>) -> Moment<'_> {
    Moment {
        callers: at.notes.callers,
        world: &at.world,
    }
}

impl Watch for OnceWatch {
    type Notes = Notes;

    type End = Ends;

    fn kinds(&self) -> &[LockKind] {
        &[LockKind::Once]
    }

    fn threads(&self) -> usize {
        self.threads
    }

    fn counts_sleeps(&self) -> bool {
        false
    }

    fn first(&self) -> Notes {
        Notes {
            callers: callers_of(self.programs),
            met: Three(false, false, false),
            taken: Taken(None, None),
        }
    }

    fn behind(&self, before: &Seen<Notes>, step: WorldStep, world: &WorldState) -> Notes {
        let thread = step.thread();
        let at = before.notes.callers.of(thread);
        let moved = at.stepped(world.answer(thread));
        let callers = before.notes.callers.with(thread, moved);
        let met = if at.open.is_none() {
            before.notes.met.with(thread, false)
        } else {
            before.notes.met
        };
        let state = Moment { callers, world }.state();
        Notes {
            callers,
            met: Three(
                meets(callers.0, met.0, state),
                meets(callers.1, met.1, state),
                meets(callers.2, met.2, state),
            ),
            taken: before.notes.taken.now(world),
        }
    }

    fn steps(&self, at: &Seen<Notes>, thread: usize) -> [Option<WorldStep>; 3] {
        let caller = at.notes.callers.of(thread);
        let step = match caller.next() {
            Some(asked) if caller.open.is_none() => {
                WorldStep::Begin(thread, asked.lock, asked.call)
            }
            _ => WorldStep::Go(thread, false),
        };
        [Some(step), None, None]
    }

    fn look(&mut self, at: &Seen<Notes>) -> Option<&'static str> {
        broken_by_state(moment_of(at))
    }

    fn look_at_step(
        &mut self,
        before: &Seen<Notes>,
        step: WorldStep,
        behind: &Seen<Notes>,
    ) -> Option<&'static str> {
        let thread = step.thread();
        let met = before.notes.met.of(thread);
        broken_by_step(moment_of(before), thread, met, moment_of(behind))
    }

    fn look_at_end(&self, at: &Seen<Notes>) -> Option<&'static str> {
        broken_by_end(moment_of(at))
    }

    fn ends_as(&self, at: &Seen<Notes>) -> Ends {
        ends_of(at.notes.callers)
    }
}
