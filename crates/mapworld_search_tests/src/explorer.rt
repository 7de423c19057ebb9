//! Every schedule of two programs, by the states to which they lead; each of them is drained.

use crate::rules::{broken_by_threads, refuses};
use crate::worlds::{World, broken, drain, run, shown_now, world_of};
use mapworld::Step;
use mapworld_explorer::{Ahead, ahead_of, may_be_fair};
use mapworld_oracle::judge::Halfway;
use mapworld_oracle::replay::Made;
use mapworld_text::Asked;
use std::alloc::{AllocError, Global};
use std::collections::HashSet;
use std::process::Abort;
use std::test::Fail;

/// More steps than any two programs of the tests make.
const MOST_STEPS: u32 = 600;

/// More than the greatest key of the tests.
const KEYS: u64 = 8;

/// Two programs, and the pairs that the world begins with.
#[derive(Clone, Copy)]
pub struct Two<'a> {
    pub pairs: &'a [(u64, u64)],
    pub programs: &'a [Vec<Asked>],
}

/// What is found on the way through all schedules.
#[derive(Clone, Copy)]
pub struct Found {
    /// How many states there are.
    pub states: u64,
    /// How many of them are ends.
    pub ends: u64,
    /// The greatest share of a bound that a drain took, in thousandths.
    pub share: u64,
}

impl Found {
    /// Before the first state.
    pub const NOTHING: Found = Found {
        states: 0,
        ends: 0,
        share: 0,
    };
}

/// One that goes through all schedules of two programs.
#[derive(Drop)]
pub struct Explorer<'r, 'p, R> {
    rt: &'r R,
    two: Two<'p>,
    /// What is ahead of each state that was come to.
    known: HashSet<String>,
    found: Found,
}

impl<'r, 'p, R: AllocGlobal + Abort> Explorer<'r, 'p, R> {
    /// Makes every schedule of the two programs, to its end.
    pub fn explore(rt: &'r R, two: Two<'p>) -> Result<Found, Fail> {
        let found = Found::NOTHING;
        let known = HashSet::new(rt.alloc());
        let mut explorer = Explorer {
            rt,
            two,
            known,
            found,
        };
        explorer.make_all()?;
        Ok(explorer.found)
    }

    /// Goes from the states that so many steps lead to on to those of one step more, until there are none.
    fn make_all(&mut self) -> Result<(), Fail> {
        let mut schedules = self.first()?;
        for _ in 0..MOST_STEPS {
            if schedules.is_empty() {
                return Ok(());
            }
            schedules = self.longer(&schedules)?;
        }
        let programs = self.two.programs;
        panic!(self.rt; "{programs:?} go on behind {MOST_STEPS} steps")
    }

    /// The schedule without a step.
    fn first(&mut self) -> Result<Vec<Vec<Step>>, Fail> {
        let mut schedules = Vec::new(self.rt.alloc());
        let schedule = Vec::new(self.rt.alloc());
        let mut world = self.world_behind(&schedule)?;
        self.look_at(&mut world, schedule, &mut schedules)?;
        Ok(schedules)
    }

    /// A world behind a schedule.
    fn world_behind(&self, schedule: &[Step]) -> Result<World, Fail> {
        let mut world = world_of(self.rt.alloc(), self.two.pairs, self.two.programs)?;
        run(&mut world, schedule)?;
        Ok(world)
    }

    /// The schedules of one step more that lead to new states.
    fn longer(&mut self, schedules: &[Vec<Step>]) -> Result<Vec<Vec<Step>>, Fail> {
        let mut longer = Vec::new(self.rt.alloc());
        for schedule in schedules {
            for thread in 0..2 {
                self.make_each(schedule, thread, &mut longer)?;
            }
        }
        Ok(longer)
    }

    /// Notes what is ahead of a state, and tells whether that is new.
    fn is_new(&mut self, ahead: &Ahead) -> Result<bool, Fail> {
        if self.known.contains(ahead.as_str()) {
            return Ok(false);
        }
        let text = String::from_str(self.rt.alloc(), ahead.as_str())?;
        let _ = self.known.insert(text)?;
        Ok(true)
    }

    /// Counts a new state.
    fn count(&mut self, world: &World) {
        self.found.states = self.found.states.saturating_add(1);
        if world.replies().len() == self.calls() {
            self.found.ends = self.found.ends.saturating_add(1);
        }
    }

    /// Looks at a world behind a schedule, which is kept if the state is new; and drains it.
    fn look_at(
        &mut self,
        world: &mut World,
        schedule: Vec<Step>,
        longer: &mut Vec<Vec<Step>>,
    ) -> Result<(), Fail> {
        let ahead = ahead_of(self.rt.alloc(), world)?;
        if self.is_new(&ahead)? {
            self.count(world);
            self.must_hold(broken_by_threads(world), &schedule);
            self.drain(world, &ahead, &schedule)?;
            longer.push(schedule)?;
        }
        Ok(())
    }

    fn calls(&self) -> usize {
        let lengths = self.two.programs.iter().map(|program| program.len());
        lengths.fold(0_usize, |sum, length| sum.saturating_add(length))
    }

    /// Drains a world, and tells whether that was within its bound and left nothing to do.
    fn is_drained(&mut self, world: &mut World) -> bool {
        let bound = world.bound();
        let steps = drain(world);
        let share = steps.saturating_mul(1000).checked_div(bound).unwrap_or(0);
        self.found.share = self.found.share.max(share);
        steps <= bound && drain(world) == 0
    }

    /// Drains a world behind a schedule, and looks at what it showed before and shows then.
    fn drain(&mut self, world: &mut World, ahead: &Ahead, schedule: &[Step]) -> Result<(), Fail> {
        let is_kept = refuses(self.rt.alloc(), world, ahead)?;
        self.must(
            is_kept,
            "a step that can't be made is refused, and changes nothing",
            schedule,
        );
        let (halfway, is_shown) = shown_behind(self.rt.alloc(), world, schedule)?;
        let is_drained = self.is_drained(world);
        self.must(
            is_shown && is_drained,
            "a drain is within its bound, and leaves nothing to do",
            schedule,
        );
        let made = Made {
            alloc: self.rt.alloc(),
            shards: 2,
            pairs: self.two.pairs,
            programs: self.two.programs,
        };
        self.must_hold(broken(made, world, KEYS, &halfway)?, schedule);
        Ok(())
    }

    /// Makes the thread's step behind a schedule, and a fair one too where it stores in the section of a release; or
    /// its deadline, where that may come.
    fn make_each(
        &mut self,
        schedule: &[Step],
        thread: usize,
        longer: &mut Vec<Vec<Step>>,
    ) -> Result<(), Fail> {
        let mut world = self.world_behind(schedule)?;
        let deadline = world.locks().may_expire(thread);
        if !deadline && !world.can_move(thread) {
            return Ok(());
        }
        let stores = !deadline && may_be_fair(&world, thread);
        self.make(
            &mut world,
            schedule,
            step_of(thread, false, deadline),
            longer,
        )?;
        if stores {
            self.make_fair(schedule, thread, longer)?;
        }
        Ok(())
    }

    /// Makes the thread's fair step behind a schedule.
    fn make_fair(
        &mut self,
        schedule: &[Step],
        thread: usize,
        longer: &mut Vec<Vec<Step>>,
    ) -> Result<(), Fail> {
        let mut world = self.world_behind(schedule)?;
        self.make(&mut world, schedule, step_of(thread, true, false), longer)
    }

    /// Makes a step behind a schedule.
    fn make(
        &mut self,
        world: &mut World,
        schedule: &[Step],
        step: Step,
        longer: &mut Vec<Vec<Step>>,
    ) -> Result<(), Fail> {
        run(world, &[step])?;
        let mut whole = Vec::from_slice(self.rt.alloc(), schedule)?;
        whole.push(step)?;
        self.look_at(world, whole, longer)
    }

    /// Ends the test where that isn't so behind a schedule.
    fn must(&self, so: bool, rule: &'static str, schedule: &[Step]) {
        self.must_hold(if so { None } else { Some(rule) }, schedule);
    }

    /// Ends the test where a rule is broken behind a schedule.
    fn must_hold(&self, broken: Option<&'static str>, schedule: &[Step]) {
        if let Some(rule) = broken {
            let programs = self.two.programs;
            panic!(self.rt; "{rule}: {programs:?} by {schedule:?}")
        }
    }
}

/// A step of that thread, or its deadline.
fn step_of(thread: usize, fair: bool, deadline: bool) -> Step {
    Step {
        thread,
        fair,
        deadline,
    }
}

/// What a world shows behind these steps, and whether each block shows the end of its call.
fn shown_behind(
    alloc: Global,
    world: &World,
    schedule: &[Step],
) -> Result<(Halfway, bool), AllocError> {
    let mut threads = Vec::new(alloc);
    let mut deadlines = Vec::new(alloc);
    for (i, step) in schedule.iter().enumerate() {
        threads.push(step.thread)?;
        if step.deadline {
            deadlines.push((step.thread, (i as u64).saturating_add(1)))?;
        }
    }
    shown_now(alloc, world, threads, deadlines)
}
