//! Every schedule of some programs, by the states to which they lead.

use crate::layers::{Layer, Reached, Seen};
use crate::plain::add;
use crate::state::WorldState;
use parking_lot_world::{LockKind, SizeFault, World, WorldFault, WorldRefusal, WorldStep};
use std::alloc::AllocError;
use std::mem;

/// More steps than any programs of the tests make.
const MOST_STEPS: u32 = 1000;

/// What a step is met by that isn't allowed.
const CANNOT_MOVE: WorldFault = WorldFault {
    done: 0,
    fault: WorldRefusal::CannotMove,
};

/// What is watched on the way through all schedules at some locks, and what has to hold there. A rule that doesn't hold
/// is named.
pub trait Watch: Drop {
    /// What is noted of the threads on the way.
    type Notes: Copy + PartialEq;

    /// How the threads end.
    type End: Copy + PartialEq;

    /// The kinds of the locks, by their numbers: three at most.
    fn kinds(&self) -> &[LockKind];

    /// How many threads there are: three at most. Of three, one whose next step nobody else sees makes it at once, as
    /// its order to others changes nothing.
    fn threads(&self) -> usize;

    /// Whether states are told apart also by how often the threads have slept.
    fn counts_sleeps(&self) -> bool;

    /// Before the first step.
    fn first(&self) -> Self::Notes;

    /// Behind a step.
    fn behind(
        &self,
        before: &Seen<Self::Notes>,
        step: WorldStep,
        world: &WorldState,
    ) -> Self::Notes;

    /// What may be the next steps of a thread. Others are never allowed.
    fn steps(&self, at: &Seen<Self::Notes>, thread: usize) -> [Option<WorldStep>; 3];

    /// Looks at a state.
    fn look(&mut self, at: &Seen<Self::Notes>) -> Option<&'static str>;

    /// Looks at a step.
    fn look_at_step(
        &mut self,
        before: &Seen<Self::Notes>,
        step: WorldStep,
        behind: &Seen<Self::Notes>,
    ) -> Option<&'static str>;

    /// Looks at a state without a further step.
    fn look_at_end(&self, at: &Seen<Self::Notes>) -> Option<&'static str>;

    /// How the threads end there.
    fn ends_as(&self, at: &Seen<Self::Notes>) -> Self::End;
}

/// A rule that doesn't hold, and a schedule behind which it doesn't.
#[derive(Debug, Drop)]
pub struct Broken {
    pub rule: &'static str,
    pub schedule: Vec<WorldStep>,
}

/// A world behind the schedule of a state, from which steps are tried. One that is refused leaves it there, and the
/// next is tried in the same world.
#[derive(Drop)]
struct Trial {
    world: World,
    /// Whether the schedule could be run again.
    is_there: bool,
    /// Whether a step was made in it.
    is_spent: bool,
}

/// One that goes through all schedules of some programs at some locks, up to the first rule that doesn't hold.
#[derive(Drop)]
pub struct Explorer<'r, R, W: Watch> {
    rt: &'r R,
    /// How many states there are. One that is reached by several numbers of steps counts for each.
    pub states: u64,
    pub watch: W,
    /// How the threads end, each way once.
    pub ends: Vec<W::End>,
    pub broken: Option<Broken>,
}

impl<'r, R: AllocGlobal, W: Watch> Explorer<'r, R, W> {
    /// Makes every schedule, to its end.
    pub fn explore(rt: &'r R, watch: W) -> Result<Explorer<'r, R, W>, SizeFault> {
        let mut explorer = Explorer {
            rt,
            states: 0,
            watch,
            ends: Vec::new(rt.alloc()),
            broken: None,
        };
        explorer.make_all()?;
        Ok(explorer)
    }

    /// Goes from the states that so many steps lead to on to those of one step more, until there are none.
    fn make_all(&mut self) -> Result<(), SizeFault> {
        let mut layer = Layer::new(self.rt.alloc())?;
        let first = self.first()?;
        layer.add(Vec::new(self.rt.alloc()), first)?;
        for _ in 0..MOST_STEPS {
            if layer.is_empty || self.broken.is_some() {
                return Ok(());
            }
            let next = self.next_layer(&layer)?;
            drop(mem::replace(&mut layer, next));
        }
        let never = Vec::new(self.rt.alloc());
        self.must_hold(Some("every schedule comes to its end"), &never)
    }

    /// Before the first step.
    fn first(&self) -> Result<Seen<W::Notes>, SizeFault> {
        let world = self.state_of(&self.new_world()?)?;
        let notes = self.watch.first();
        Ok(Seen { notes, world })
    }

    fn new_world(&self) -> Result<World, SizeFault> {
        let kinds = self.watch.kinds().to_vec(self.rt.alloc())?;
        World::new(self.rt.alloc(), self.watch.threads(), kinds)
    }

    fn state_of(&self, world: &World) -> Result<Box<WorldState>, SizeFault> {
        let state = WorldState::of(self.rt.alloc(), world, self.watch.counts_sleeps())?;
        match Box::new(self.rt.alloc(), state) {
            Ok(state) => Ok(state),
            Err(_) => Err(SizeFault::NoMemory),
        }
    }

    /// The states that one step leads to from these.
    fn next_layer(&mut self, layer: &Layer<W::Notes>) -> Result<Layer<W::Notes>, SizeFault> {
        let mut next = Layer::new(self.rt.alloc())?;
        for states in &layer.lists {
            self.visit_all(states, &mut next)?;
        }
        Ok(next)
    }

    /// Looks at some of them, and adds those that one step leads to.
    fn visit_all(
        &mut self,
        states: &[Reached<W::Notes>],
        next: &mut Layer<W::Notes>,
    ) -> Result<(), SizeFault> {
        for state in states {
            self.visit(state, next)?;
        }
        Ok(())
    }

    /// Looks at a state, and adds those that one step leads to.
    fn visit(
        &mut self,
        state: &Reached<W::Notes>,
        next: &mut Layer<W::Notes>,
    ) -> Result<(), SizeFault> {
        let broken = self.watch.look(&state.seen);
        self.must_hold(broken, &state.schedule)?;
        self.states = self.states.saturating_add(1);
        let mut trial = self.new_trial(&state.schedule)?;
        let mut is_moved = false;
        for thread in 0..self.watch.threads() {
            is_moved = is_moved | self.make_each(state, thread, &mut trial, next)?;
        }
        if is_moved { Ok(()) } else { self.end(state) }
    }

    /// Looks at a state without a further step.
    fn end(&mut self, state: &Reached<W::Notes>) -> Result<(), SizeFault> {
        let end = self.watch.ends_as(&state.seen);
        add(&mut self.ends, end)?;
        let broken = self.watch.look_at_end(&state.seen);
        self.must_hold(broken, &state.schedule)
    }

    /// What may be the next steps of a thread.
    fn steps(&self, seen: &Seen<W::Notes>, thread: usize) -> [Option<WorldStep>; 3] {
        let alone = seen.world.alone();
        if self.watch.threads() == 3 && alone.is_some() && alone != Some(thread) {
            [None; 3]
        } else {
            self.watch.steps(seen, thread)
        }
    }

    /// Makes each step of a thread from a state, and adds the states that they lead to. Answers whether one was
    /// allowed.
    fn make_each(
        &mut self,
        state: &Reached<W::Notes>,
        thread: usize,
        trial: &mut Trial,
        next: &mut Layer<W::Notes>,
    ) -> Result<bool, SizeFault> {
        let mut is_moved = false;
        for step in self.steps(&state.seen, thread) {
            if let Some(step) = step {
                is_moved = is_moved | self.make(state, step, trial, next)?;
            }
        }
        Ok(is_moved)
    }

    /// A new world behind a schedule.
    fn new_trial(&self, schedule: &[WorldStep]) -> Result<Trial, SizeFault> {
        let mut world = self.new_world()?;
        let is_there = world.run(schedule).is_ok();
        Ok(Trial {
            world,
            is_there,
            is_spent: false,
        })
    }

    /// A world in which a step can be tried.
    fn renew(&self, trial: &mut Trial, schedule: &[WorldStep]) -> Result<(), SizeFault> {
        if trial.is_spent {
            let fresh = self.new_trial(schedule)?;
            drop(mem::replace(trial, fresh));
        }
        Ok(())
    }

    /// Makes a step from a state, and adds the state that it leads to. Answers whether it was allowed.
    fn make(
        &mut self,
        state: &Reached<W::Notes>,
        step: WorldStep,
        trial: &mut Trial,
        next: &mut Layer<W::Notes>,
    ) -> Result<bool, SizeFault> {
        self.renew(trial, &state.schedule)?;
        let ran = trial.world.run(&[step]);
        let world = self.state_of(&trial.world)?;
        match ran {
            Err(fault) => self.refuse(state, fault, &world),
            Ok(()) => {
                trial.is_spent = true;
                self.go_on(state, step, trial.is_there, world, next)
            }
        }
    }

    /// Looks at a step that was refused.
    fn refuse(
        &mut self,
        state: &Reached<W::Notes>,
        fault: WorldFault,
        world: &WorldState,
    ) -> Result<bool, SizeFault> {
        let broken = broken_by_refusal(fault, *world == *state.seen.world);
        self.must_hold(broken, &state.schedule)?;
        Ok(false)
    }

    /// Looks at a step that was made, and goes on from the world behind it.
    fn go_on(
        &mut self,
        state: &Reached<W::Notes>,
        step: WorldStep,
        is_there: bool,
        world: Box<WorldState>,
        next: &mut Layer<W::Notes>,
    ) -> Result<bool, SizeFault> {
        let notes = self.watch.behind(&state.seen, step, &world);
        let seen = Seen { notes, world };
        let broken = self.watch.look_at_step(&state.seen, step, &seen);
        let again = first_broken(&[(is_there, "a schedule that was run can be run again")]);
        self.reach(state, step, seen, again.or(broken), next)?;
        Ok(true)
    }

    /// Adds the state that a step leads to, if it isn't there, and notes the rule that the step has broken.
    fn reach(
        &mut self,
        state: &Reached<W::Notes>,
        step: WorldStep,
        seen: Seen<W::Notes>,
        broken: Option<&'static str>,
        next: &mut Layer<W::Notes>,
    ) -> Result<(), SizeFault> {
        if broken.is_none() && next.has(&seen) {
            return Ok(());
        }
        let schedule = longer(&state.schedule, step)?;
        self.must_hold(broken, &schedule)?;
        next.add(schedule, seen)?;
        Ok(())
    }

    /// Notes a rule that is broken behind a schedule, the first one.
    fn must_hold(
        &mut self,
        broken: Option<&'static str>,
        schedule: &Vec<WorldStep>,
    ) -> Result<(), SizeFault> {
        match broken {
            Some(rule) if self.broken.is_none() => {
                let schedule = schedule.clone()?;
                let first = Some(Broken { rule, schedule });
                drop(mem::replace(&mut self.broken, first));
                Ok(())
            }
            _ => Ok(()),
        }
    }
}

/// A schedule with one step more.
fn longer(schedule: &Vec<WorldStep>, step: WorldStep) -> Result<Vec<WorldStep>, AllocError> {
    let mut schedule = schedule.clone()?;
    schedule.push(step)?;
    Ok(schedule)
}

/// A step that isn't allowed is refused as such, and changes nothing.
fn broken_by_refusal(fault: WorldFault, is_unmoved: bool) -> Option<&'static str> {
    first_broken(&[
        (
            fault == CANNOT_MOVE,
            "a step that isn't allowed is refused as such",
        ),
        (is_unmoved, "a step that is refused changes nothing"),
    ])
}

/// The first rule that doesn't hold.
pub fn first_broken(rules: &[(bool, &'static str)]) -> Option<&'static str> {
    for (holds, rule) in rules {
        if !*holds {
            return Some(*rule);
        }
    }
    None
}
