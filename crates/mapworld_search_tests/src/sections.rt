//! Sections that are open at once: every schedule of two threads that are to wait at two shards, and of the two that
//! hold these and give them up.

use crate::rules::{broken_by_threads, open_sections, refuses};
use crate::worlds::{World, drain, run};
use mapworld::Step;
use mapworld_explorer::{Ahead, ahead_of, world_behind};
use mapworld_text::{Case, read};
use std::alloc::Global;
use std::collections::HashSet;
use std::process::Abort;
use std::test::Fail;

/// Worlds whose first two threads hold a shard each, for which the other two are to wait. Shard i has the queues 2i and
/// 2i + 1, and four threads have 16 buckets. So the shards 0 and 8 have theirs in the same buckets, 0 and 1 don't.
const WORLDS: &str = "
case two shards of the same buckets
shards 16
pairs 0=5 1=5
thread a
  get-mut 0
    drop
thread b
  get-mut 1
    drop
thread c
  insert 0 6
thread d
  insert 1 7
case two shards of other buckets
shards 2
pairs 2=5 1=5
thread a
  get-mut 2
    drop
thread b
  get-mut 1
    drop
thread c
  insert 2 6
thread d
  insert 1 7
";

/// More steps than are made there.
const MOST_STEPS: usize = 200;

/// The word of a shard that is held alone, and for which somebody is to wait.
const PARKED: u64 = 9;

fn plain(thread: usize) -> Step {
    Step {
        thread,
        fair: false,
        deadline: false,
    }
}

/// What is found on the way through all schedules.
#[derive(Clone, Copy)]
struct Found {
    states: usize,
    ends: usize,
    /// The most sections that are open at once.
    sections: usize,
}

/// One that goes through all schedules behind a first one.
#[derive(Drop)]
struct Beside<'r, 'c, 'a, R> {
    rt: &'r R,
    case: &'c Case<'a>,
    /// What is ahead of each state that was come to.
    known: HashSet<String>,
    found: Found,
}

impl<'r, 'c, 'a, R: AllocGlobal + Abort> Beside<'r, 'c, 'a, R> {
    /// The schedule that leads each of the first two to its guard, and each of the others before its section.
    fn first(&self) -> Result<Vec<Step>, Fail> {
        let mut world = world_behind(self.rt.alloc(), self.case, &[])?;
        let mut schedule = Vec::new(self.rt.alloc());
        for thread in 0..4 {
            for _ in 0..MOST_STEPS {
                if stands_as_wanted(&world, thread) {
                    break;
                }
                run(&mut world, &[plain(thread)])?;
                schedule.push(plain(thread))?;
            }
        }
        Ok(schedule)
    }

    /// Goes from the states that so many steps lead to on to those of one step more, until there are none.
    fn make_all(&mut self) -> Result<(), Fail> {
        let first = self.first()?;
        let mut schedules = Vec::new(self.rt.alloc());
        let mut world = world_behind(self.rt.alloc(), self.case, &first)?;
        self.look_at(&mut world, first, &mut schedules)?;
        for _ in 0..MOST_STEPS {
            schedules = self.longer(&schedules)?;
        }
        assert!(self.rt; schedules.is_empty(), "{} goes on", self.case.name);
        Ok(())
    }

    /// The schedules of one step more that lead to new states.
    fn longer(&mut self, schedules: &[Vec<Step>]) -> Result<Vec<Vec<Step>>, Fail> {
        let mut longer = Vec::new(self.rt.alloc());
        for schedule in schedules {
            for thread in 0..4 {
                self.make(schedule, thread, &mut longer)?;
            }
        }
        Ok(longer)
    }

    /// Makes the thread's step behind a schedule, if it can move.
    fn make(
        &mut self,
        schedule: &[Step],
        thread: usize,
        longer: &mut Vec<Vec<Step>>,
    ) -> Result<(), Fail> {
        let mut world = world_behind(self.rt.alloc(), self.case, schedule)?;
        if world.can_move(thread) {
            run(&mut world, &[plain(thread)])?;
            let mut whole = Vec::from_slice(self.rt.alloc(), schedule)?;
            whole.push(plain(thread))?;
            self.look_at(&mut world, whole, longer)?;
        }
        Ok(())
    }

    /// Notes what is ahead of a state, and tells whether that is new.
    fn is_new(&mut self, ahead: &Ahead) -> Result<bool, Fail> {
        if self.known.contains(ahead.as_str()) {
            return Ok(false);
        }
        let text = String::from_str(self.rt.alloc(), ahead.as_str())?;
        let _ = self.known.insert(text)?;
        Ok(true)
    }

    /// Counts a new state.
    fn count(&mut self, world: &World) {
        self.found.states = self.found.states.saturating_add(1);
        self.found.sections = self.found.sections.max(open_sections(world));
        if is_at_rest(world) {
            self.found.ends = self.found.ends.saturating_add(1);
        }
    }

    /// Looks at a world behind a schedule, which is kept if the state is new; and drains it.
    fn look_at(
        &mut self,
        world: &mut World,
        schedule: Vec<Step>,
        longer: &mut Vec<Vec<Step>>,
    ) -> Result<(), Fail> {
        let ahead = ahead_of(self.rt.alloc(), world)?;
        if self.is_new(&ahead)? {
            self.count(world);
            self.must_drain(world, &ahead, &schedule)?;
            longer.push(schedule)?;
        }
        Ok(())
    }

    /// Ends the test unless the rules hold of a world behind a schedule, a refused step changes nothing, and a drain
    /// leads to its end within the bound.
    fn must_drain(&self, world: &mut World, ahead: &Ahead, schedule: &[Step]) -> Result<(), Fail> {
        let broken = broken_by_threads(world);
        assert!(self.rt; broken.is_none(), "{broken:?} by {schedule:?}");
        let is_kept = refuses(self.rt.alloc(), world, ahead)?;
        assert!(self.rt; is_kept, "a refused step changes nothing, by {schedule:?}");
        let bound = world.bound();
        let is_drained = drain(world) <= bound && is_at_rest(world);
        assert!(self.rt; is_drained, "by {schedule:?}");
        Ok(())
    }
}

/// Whether one of the first two has its guard, or one of the others stands before its section.
fn stands_as_wanted(world: &World, thread: usize) -> bool {
    if thread < 2 {
        world.replies().iter().any(|reply| reply.thread == thread)
    } else {
        match world.locks().machine().call(thread) {
            Some(call) => world.word(call.lock) == PARKED,
            None => false,
        }
    }
}

/// Whether every call is answered, and nobody holds a shard, waits or is in a section.
fn is_at_rest(world: &World) -> bool {
    let are_free = (0..world.shards()).all(|shard| world.word(shard) == 0);
    world.replies().len() == 6 && are_free && open_sections(world) == 0
}

/// Makes all schedules of a case, and prints how many states there are.
fn search(rt: &(impl AllocGlobal + Abort + Print), case: &Case<'_>) -> Result<usize, Fail> {
    let mut beside = Beside {
        rt,
        case,
        known: HashSet::new(rt.alloc()),
        found: Found {
            states: 0,
            ends: 0,
            sections: 0,
        },
    };
    beside.make_all()?;
    let Found {
        states,
        ends,
        sections,
    } = beside.found;
    assert!(rt; ends > 0, "an end of {}", case.name);
    println!(rt; "{}: {states} states, {ends} ends", case.name)?;
    Ok(sections)
}

#[test]
fn sections_of_two_buckets_are_open_at_once_and_of_one_never(rt: HostRuntime) -> Result<(), Fail> {
    let mut most = Vec::new(rt.alloc());
    for case in &read(rt.alloc(), WORLDS)? {
        most.push(search(&rt, case)?)?;
    }
    assert!(rt; most.as_slice() == [1, 2].as_slice(), "{most:?} at once");
    Ok(())
}
