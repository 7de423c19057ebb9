//! A schedule whose calls start as late as they can, which comes to the same.

use mapworld::Step;
use mapworld_explorer::{ExploreFault, World, starts, world_behind};
use mapworld_text::Case;
use std::alloc::{AllocError, Global};

/// A schedule whose calls start late, as far as it is made.
#[derive(Drop)]
struct Late {
    steps: Vec<Step>,
    /// Of each thread, whether its last step was the start of a call, which waits for the next.
    held: Vec<bool>,
}

impl Late {
    fn new(alloc: Global, threads: usize, steps: usize) -> Result<Late, AllocError> {
        let mut held = Vec::with_capacity(alloc, threads)?;
        for _ in 0..threads {
            held.push(false)?;
        }
        let steps = Vec::with_capacity(alloc, steps)?;
        Ok(Late { steps, held })
    }

    /// Adds a step, which is the start of a call or isn't, behind the start that waits for it.
    fn add(&mut self, step: Step, is_start: bool) -> Result<(), AllocError> {
        let is_held = self.held.get(step.thread).copied().unwrap_or(false);
        if is_held && !is_start {
            self.steps.push(Step {
                thread: step.thread,
                fair: false,
                deadline: false,
            })?;
        }
        if !is_start {
            self.steps.push(step)?;
        }
        if let Some(mark) = self.held.get_mut(step.thread) {
            *mark = is_start;
        }
        Ok(())
    }

    /// Adds the steps of a schedule, which are made in the world.
    fn follow(&mut self, world: &mut World, schedule: &[Step]) -> Result<(), ExploreFault> {
        for step in schedule {
            self.add(*step, starts(world, step.thread))?;
            world.run(&[*step])?;
        }
        Ok(())
    }
}

/// The same schedule with each call started right before the next step of its thread, which comes to the same: so that
/// a call begins where its thread goes on.
pub fn with_late_starts(
    alloc: Global,
    case: &Case<'_>,
    schedule: &[Step],
) -> Result<Vec<Step>, ExploreFault> {
    let mut late = Late::new(alloc, case.programs.len(), schedule.len())?;
    let mut world = world_behind(alloc, case, &[])?;
    late.follow(&mut world, schedule)?;
    Ok(late.steps)
}
