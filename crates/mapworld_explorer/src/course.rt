//! One schedule, step by step, with all that is seen on the way.
ghost use Rattle.std.specs.Prelude.{◌≡◌, map, IfOk};

use crate::reading::{Replied, contents_of};
use crate::standing::kind_of;
use crate::told::Before;
use crate::worlds::{ExploreFault, World, go, world_behind};
use lock_api_desk::Mode;
use mapworld::{Block, Status, Step};
use mapworld_text::{Case, Shown};
use std::alloc::{AllocError, Global};

/// A call, from its start to its answer.
#[derive(Drop)]
pub struct Bar {
    pub thread: usize,
    pub call: usize,
    pub start: u64,
    pub end: u64,
    pub answer: String,
}

/// The step from which on a block of a call counts as done.
#[derive(Clone, Copy)]
pub struct Point {
    pub thread: usize,
    pub step: u64,
}

/// A thread slept from the one step to the other.
#[derive(Clone, Copy)]
pub struct Sleep {
    pub thread: usize,
    pub start: u64,
    pub end: u64,
}

/// A thread was woken by another.
#[derive(Clone, Copy)]
pub struct Waking {
    pub by: usize,
    pub thread: usize,
    pub step: u64,
}

/// A thread held a shard from the one step to the other.
#[derive(Clone, Copy)]
pub struct Held {
    pub thread: usize,
    pub shard: usize,
    pub is_alone: bool,
    pub start: u64,
    pub end: u64,
}

/// A step in words.
#[derive(Drop)]
pub struct Told {
    pub step: u64,
    pub thread: usize,
    pub text: String,
}

/// One schedule with all that is seen on the way.
#[derive(Drop)]
pub struct Course {
    alloc: Global,
    pub steps: u64,
    pub bars: Vec<Bar>,
    pub points: Vec<Point>,
    pub sleeps: Vec<Sleep>,
    pub wakings: Vec<Waking>,
    pub holds: Vec<Held>,
    /// A shard, a step, and the word that its lock has from there on.
    pub words: Vec<(usize, u64, u64)>,
    /// A step, and the pairs from there on.
    pub contents: Vec<(u64, String)>,
    pub told: Vec<Told>,
}

/// What is noted, unless room is refused.
type Noted = Result<(), AllocError>;

impl Course {
    fn new(alloc: Global) -> Course {
        Course {
            alloc,
            steps: 0,
            bars: Vec::new(alloc),
            points: Vec::new(alloc),
            sleeps: Vec::new(alloc),
            wakings: Vec::new(alloc),
            holds: Vec::new(alloc),
            words: Vec::new(alloc),
            contents: Vec::new(alloc),
            told: Vec::new(alloc),
        }
    }

    /// Notes where a thread's sleep begins and ends, behind a step of that thread or another.
    fn note_sleep(&mut self, thread: usize, is_asleep: bool, by: usize) -> Noted {
        let step = self.steps;
        let mut is_open = false;
        let mut is_woken = false;
        for sleep in &mut self.sleeps {
            if sleep.thread == thread && sleep.end == u64::MAX {
                if is_asleep {
                    is_open = true;
                } else {
                    sleep.end = step;
                    is_woken = true;
                }
            }
        }
        if is_woken && by != thread {
            self.wakings.push(Waking { by, thread, step })?;
        }
        if is_asleep && !is_open {
            self.sleeps.push(Sleep {
                thread,
                start: step,
                end: u64::MAX,
            })?;
        }
        Ok(())
    }

    /// Notes where a thread's hold of a shard begins and ends.
    fn note_hold(&mut self, thread: usize, shard: usize, mode: Option<Mode>) -> Noted {
        let step = self.steps;
        let is_alone = mode == Some(Mode::Exclusive);
        let mut goes_on = false;
        for held in &mut self.holds {
            if held.thread == thread && held.shard == shard && held.end == u64::MAX {
                if mode.is_some() && held.is_alone == is_alone {
                    goes_on = true;
                } else {
                    held.end = step;
                }
            }
        }
        if mode.is_some() && !goes_on {
            self.holds.push(Held {
                thread,
                shard,
                is_alone,
                start: step,
                end: u64::MAX,
            })?;
        }
        Ok(())
    }

    /// Notes the word of a shard, if it is another.
    fn note_word(&mut self, shard: usize, word: u64) -> Noted {
        let last = self.words.iter().rev().find(|noted| noted.0 == shard);
        let is_new = match last {
            Some(noted) => noted.2 != word,
            None => true,
        };
        if is_new {
            let step = self.steps;
            self.words.push((shard, step, word))?;
        }
        Ok(())
    }

    /// Notes the pairs, if they are others.
    fn note_contents(&mut self, text: String) -> Noted {
        let is_new = match self.contents.last() {
            Some(noted) => noted.1.as_str() != text.as_str(),
            None => true,
        };
        if is_new {
            let step = self.steps;
            self.contents.push((step, text))?;
        }
        Ok(())
    }

    /// Notes what is seen behind a step of a thread.
    fn note(&mut self, world: &World, by: usize) -> Noted {
        self.steps = world.steps();
        for thread in 0..world.threads() {
            let is_asleep = world.status(thread) == Status::Asleep;
            self.note_sleep(thread, is_asleep, by)?;
            for shard in 0..world.shards() {
                self.note_hold(thread, shard, world.hold(thread, shard))?;
            }
        }
        for shard in 0..world.shards() {
            self.note_word(shard, world.word(shard))?;
        }
        self.note_contents(contents_of(self.alloc, world)?)
    }

    /// Makes a step, notes what is seen behind it, and tells what it was.
    fn make(&mut self, world: &mut World, case: &Case<'_>, step: Step) -> Result<Told, ExploreFault>
        ensures { IfOk result (λ told. told.thread ≡ step.thread) }
    {
        let before = Before::of(world, case, step);
        go(world, &[step])?;
        let mut text = String::new(self.alloc);
        before.write(world, case, &mut text)?;
        self.note(world, step.thread)?;
        Ok(Told {
            step: world.steps(),
            thread: step.thread,
            text,
        })
    }

    /// Notes from where on calls count as done.
    fn note_points(&mut self, blocks: &[Block<u64>]) -> Noted {
        for block in blocks {
            self.points.push(Point {
                thread: block.thread,
                step: block.position,
            })?;
        }
        Ok(())
    }

    /// Notes the calls.
    fn note_bars(&mut self, replies: &[Replied]) -> Noted {
        for reply in replies {
            let answer = format!(in self.alloc; "{}", Shown(&reply.answer))?;
            self.bars.push(Bar {
                thread: reply.thread,
                call: reply.call,
                start: reply.start,
                end: reply.end,
                answer,
            })?;
        }
        Ok(())
    }
}

/// Whether the thread's next step is the start of a call, which nobody else sees.
pub fn starts(world: &World, thread: usize) -> bool {
    match world.place(thread) {
        Some(stand) => kind_of(stand) == 0,
        None => false,
    }
}

/// The course of a case by a schedule: each of its steps is told, in their order.
pub fn course_of(alloc: Global, case: &Case<'_>, schedule: &[Step]) -> Result<Course, ExploreFault>
    ensures { IfOk result
        (λ course. map (λ told. told.thread) course.told.items ≡ map (λ step. step.thread) schedule.now) }
{
    let mut world = world_behind(alloc, case, &[])?;
    let mut course = Course::new(alloc);
    course.note(&world, 0)?;
    let mut told = Vec::with_capacity(alloc, schedule.len())?;
    for step in schedule {
        told.push(course.make(&mut world, case, *step)?)?;
    }
    course.note_points(world.blocks())?;
    course.note_bars(world.replies())?;
    course.told = told;
    Ok(course)
}
