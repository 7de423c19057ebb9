//! A run of a case by its own schedule.

use crate::play::{Ending, Failure, Way, bits_of, failure_on};
use crate::traced::Traced;
use crate::worlds::{ExploreFault, World, world_behind};
use mapworld::Step;
use mapworld_text::{Case, Order};
use std::alloc::{AllocError, Global};

/// A world behind the schedule of its case.
#[derive(Drop)]
pub struct Played {
    pub world: World,
    /// Its steps, where none was left to the world's own drain.
    pub schedule: Vec<Step>,
    /// The first line that can't be carried out or isn't so.
    pub failure: Option<Failure>,
}

/// Whether a case tells a schedule.
fn has_schedule(case: &Case<'_>) -> bool {
    case.lines.iter().any(|line| !matches!(line.order, Order::Expect(_) | Order::Claim(_)))
}

/// Plays a case on its world, by its own lines; without any, by steps of its threads in turn.
fn failure_in(
    traced: &mut Traced,
    case: &Case<'_>,
    way: Way,
) -> Result<Option<Failure>, AllocError> {
    if !has_schedule(case) {
        let _ = traced.step_round()?;
    }
    failure_on(traced, case, way)
}

/// Plays a case once, by its own lines; without any, by steps of its threads in turn.
pub fn play_once(alloc: Global, case: &Case<'_>) -> Result<Played, ExploreFault> {
    let way = Way {
        ending: Ending::Round,
        fair: bits_of(&case.fair, u64::MAX),
    };
    let world = world_behind(alloc, case, &[])?;
    let mut traced = Traced::new(alloc, world, case.shards, way.fair);
    let failure = failure_in(&mut traced, case, way)?;
    let Traced { world, made, .. } = traced;
    Ok(Played {
        world,
        schedule: made,
        failure,
    })
}
