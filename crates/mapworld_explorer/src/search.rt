//! The search: every schedule of a case, by the states to which they lead.

use crate::outcome::Outcome;
use crate::standing::{has_ended, is_alone, may_be_fair};
use crate::state::{Ahead, ahead_of};
use crate::waits::Waits;
use crate::worlds::{ExploreFault, World, go, world_behind};
use mapworld::Step;
use mapworld_text::Case;
use std::alloc::{AllocError, Global};
use std::collections::HashMap;

/// How far a search goes.
#[derive(Clone, Copy)]
pub struct Limits {
    /// So many states.
    pub states: usize,
    /// So many steps of a schedule.
    pub steps: usize,
}

/// A limit that a search has met: what lies behind it isn't looked at.
#[derive(Clone, Copy, PartialEq, Eq)]
pub enum Limit {
    States,
    Steps,
}

/// A state that was come to: from which one, by which step, and by how many steps in all.
#[derive(Clone, Copy)]
struct Reached {
    before: usize,
    step: Step,
    steps: usize,
}

/// One that goes through all schedules of a case, from the states that are reached by fewer steps to those that are
/// reached by more.
#[derive(Drop)]
pub struct Search<'c, 'a> {
    alloc: Global,
    case: &'c Case<'a>,
    limits: Limits,
    /// Whether a step that nobody else sees is made at once, before all others.
    reduces: bool,
    /// The states by what is ahead of them, as a text.
    known: HashMap<String, usize>,
    states: Vec<Reached>,
    waits: Waits,
    /// The first state that wasn't visited yet.
    next: usize,
    /// How many of the states are ends.
    pub ends: usize,
    pub outcomes: Vec<Outcome>,
    /// The limit that was met, if one was.
    pub limit: Option<Limit>,
}

/// A step of a thread, or its deadline.
pub(crate) fn step_by(thread: usize, fair: bool, deadline: bool) -> Step {
    Step {
        thread,
        fair,
        deadline,
    }
}

/// A step of a thread's own that isn't fair.
pub(crate) fn plain(thread: usize) -> Step {
    step_by(thread, false, false)
}

impl<'c, 'a> Search<'c, 'a> {
    ghost use Rattle.std.specs.Prelude.{◌≡◌, nat_lt, slice_get, IfOk};
    ghost use Rattle.mapworld_explorer.specs.Searches.{found, steps_to, visited, way_to};
    ghost use Rattle.mapworld_explorer.specs.Standing.{HasEnded};

    /// One at the beginning of a case.
    pub fn new(
        alloc: Global,
        case: &'c Case<'a>,
        limits: Limits,
        reduces: bool,
    ) -> Result<Search<'c, 'a>, ExploreFault> {
        let mut search = Search {
            alloc,
            case,
            limits,
            reduces,
            known: HashMap::new(alloc),
            states: Vec::new(alloc),
            waits: Waits::new(alloc, case.programs.len()),
            next: 0,
            ends: 0,
            outcomes: Vec::new(alloc),
            limit: None,
        };
        search.begin()?;
        Ok(search)
    }

    /// Notes the state at the beginning.
    fn begin(&mut self) -> Result<(), ExploreFault> {
        let first = Reached {
            before: 0,
            step: plain(0),
            steps: 0,
        };
        let world = world_behind(self.alloc, self.case, &[])?;
        let _ = self.reach(&world, first)?;
        Ok(())
    }

    /// How many states were found so far.
    pub fn states(&self) -> usize
        ensures { result ≡ found self.now }
    {
        self.states.len()
    }

    /// How many of them were visited.
    pub fn visited(&self) -> usize
        ensures { result ≡ visited self.now }
    {
        self.next
    }

    /// Visits so many states; says whether some are left.
    pub fn go_on(&mut self, visits: usize) -> Result<bool, ExploreFault>
        ensures { IfOk result (λ more. more ≡ nat_lt (visited self.new) (found self.new)) }
    {
        for _ in 0..visits {
            let index = self.next;
            let Some(reached) = self.states.get(index).copied() else {
                return Ok(false);
            };
            self.visit(index, reached)?;
            self.next = index.saturating_add(1);
        }
        Ok(self.next < self.states.len())
    }

    /// How a state was come to, if it was found.
    fn reached(&self, state: usize) -> Option<Reached>
        ensures { result ≡ slice_get self.now.states.items state }
    {
        self.states.get(state).copied()
    }

    /// By how many steps a state was come to.
    fn steps_to(&self, state: usize) -> usize
        ensures { result ≡ steps_to (slice_get self.now.states.items state) }
    {
        match self.reached(state) {
            Some(reached) => reached.steps,
            None => 0,
        }
    }

    /// The schedule by which a state was reached; none of a state that wasn't found.
    pub fn schedule(&self, state: usize) -> Result<Vec<Step>, AllocError>
        ensures { IfOk result (λ schedule. schedule.items ≡ way_to self.now state) }
    {
        let mut schedule = Vec::new(self.alloc);
        let steps = self.steps_to(state);
        let mut index = state;
        for _step in 0..steps {
            if let Some(reached) = self.reached(index) {
                schedule.push(reached.step)?;
                index = reached.before;
            }
        }
        schedule.reverse();
        Ok(schedule)
    }

    /// The longest sleep of each thread, in steps, over all schedules gone through; 0 of one that never sleeps. Where
    /// steps that nobody else sees are made at once, others that they are made before don't count.
    pub fn longest_waits(&self) -> Result<Vec<usize>, AllocError> {
        self.waits.longest(self.alloc, self.states.len())
    }

    /// Notes a state, if it is new; answers its number, unless the limit was met.
    fn reach(&mut self, world: &World, reached: Reached) -> Result<Option<usize>, ExploreFault> {
        let Ahead { text } = ahead_of(self.alloc, world)?;
        if let Some(known) = self.known.get(text.as_str()) {
            return Ok(Some(*known));
        }
        let index = self.states.len();
        if index >= self.limits.states {
            self.limit = Some(Limit::States);
            return Ok(None);
        }
        let _ = self.known.insert(text, index)?;
        self.states.push(reached)?;
        self.waits.note_state(world)?;
        Ok(Some(index))
    }

    /// Visits a state: makes each step that can be made from there, or notes what it comes to.
    fn visit(&mut self, index: usize, reached: Reached) -> Result<(), ExploreFault> {
        let schedule = self.schedule(index)?;
        let mut world = world_behind(self.alloc, self.case, &schedule)?;
        if has_ended(&world) {
            return self.end(&world, index, reached.steps);
        }
        if reached.steps >= self.limits.steps {
            self.limit = Some(Limit::Steps);
            return Ok(());
        }
        let steps = self.steps_from(&world)?;
        let next = (index, reached.steps.saturating_add(1));
        if let [first, rest @ ..] = steps.as_slice() {
            self.make(&mut world, next, *first)?;
            self.make_anew(&schedule, next, rest)?;
        }
        Ok(())
    }

    /// Makes each of these steps behind a schedule, which leads to that state; they are so many in all.
    fn make_anew(
        &mut self,
        schedule: &[Step],
        next: (usize, usize),
        steps: &[Step],
    ) -> Result<(), ExploreFault> {
        for step in steps {
            let mut world = world_behind(self.alloc, self.case, schedule)?;
            self.make(&mut world, next, *step)?;
        }
        Ok(())
    }

    /// Makes a step in the world of that state, which is the last of so many.
    fn make(
        &mut self,
        world: &mut World,
        (before, steps): (usize, usize),
        step: Step,
    ) -> Result<(), ExploreFault> {
        go(world, &[step])?;
        let next = Reached {
            before,
            step,
            steps,
        };
        if let Some(index) = self.reach(world, next)? {
            self.waits.note_way(before, index)?;
        }
        Ok(())
    }

    /// The first thread whose next step nobody else sees.
    fn alone(&self, world: &World) -> Option<usize> {
        if self.reduces {
            (0..world.threads()).find(|thread| world.can_move(*thread) && is_alone(world, *thread))
        } else {
            None
        }
    }

    /// The steps that are to be made from a state: of each thread that can move, plain and fair where that may come to
    /// something else; and the deadline of each thread that sleeps in a call with one.
    fn steps_from(&self, world: &World) -> Result<Vec<Step>, AllocError> {
        let mut steps = Vec::new(self.alloc);
        if let Some(thread) = self.alone(world) {
            steps.push(plain(thread))?;
            return Ok(steps);
        }
        for thread in 0..world.threads() {
            if world.can_move(thread) {
                steps.push(plain(thread))?;
                if may_be_fair(world, thread) {
                    steps.push(step_by(thread, true, false))?;
                }
            } else if world.locks().may_expire(thread) {
                steps.push(step_by(thread, false, true))?;
            }
        }
        Ok(steps)
    }

    /// Counts one more end of an outcome that is known; says whether it is.
    fn is_known(&mut self, outcome: &Outcome) -> bool {
        for known in &mut self.outcomes {
            if known.is(outcome) {
                known.ends = known.ends.saturating_add(1);
                return true;
            }
        }
        false
    }

    /// Notes what an end comes to.
    fn end(&mut self, world: &World, state: usize, steps: usize) -> Result<(), ExploreFault>
        requires { HasEnded world.now }
    {
        self.ends = self.ends.saturating_add(1);
        let outcome = Outcome::of(self.alloc, world, state, steps)?;
        if !self.is_known(&outcome) {
            self.outcomes.push(outcome)?;
        }
        Ok(())
    }
}
