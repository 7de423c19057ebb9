//! What is watched of two threads at one lock that is owned.

use super::progress::{Moment, Progress, both_followed};
use super::rules::{broken_by_end, broken_by_state, broken_by_step, hands_over};
use parking_lot_explorer::programs::{End, Pair};
use parking_lot_explorer::shown::Shown;
use parking_lot_explorer::{Seen, Watch, WorldState};
use parking_lot_world::{LockKind, WorldStep};
use std::slice;

/// Two threads at one lock, and what is found on the way through all their schedules.
#[derive(Drop)]
pub struct LockWatch {
    pub kind: LockKind,
    pub pair: Pair,
    /// Whether somebody waited in a list.
    pub waited: bool,
    /// Whether a step of one thread made the other an owner.
    pub handed: bool,
}

impl Watch for LockWatch {
    type Notes = [Progress; 2];
    /// How both programs end.
    type End = (End, End);

    fn kinds(&self) -> &[LockKind] {
        slice::from_ref(&self.kind)
    }

    fn threads(&self) -> usize {
        2
    }

    fn counts_sleeps(&self) -> bool {
        true
    }

    fn first(&self) -> [Progress; 2] {
        [Progress::of(self.pair.0), Progress::of(self.pair.1)]
    }

    fn behind(
        &self,
        before: &Seen<[Progress; 2]>,
        step: WorldStep,
        world: &WorldState,
    ) -> [Progress; 2] {
        let kind = self.kind;
        both_followed(before.notes, step, Shown { kind, world })
    }

    fn steps(&self, at: &Seen<[Progress; 2]>, thread: usize) -> [Option<WorldStep>; 3] {
        Moment::of(self.kind, at).progress(thread).steps(thread)
    }

    fn look(&mut self, at: &Seen<[Progress; 2]>) -> Option<&'static str> {
        let at = Moment::of(self.kind, at);
        self.waited = self.waited || at.shown.has_waiters();
        broken_by_state(at.threads, at.shown)
    }

    fn look_at_step(
        &mut self,
        before: &Seen<[Progress; 2]>,
        step: WorldStep,
        behind: &Seen<[Progress; 2]>,
    ) -> Option<&'static str> {
        let before = Moment::of(self.kind, before);
        let behind = Moment::of(self.kind, behind);
        self.handed = self.handed || hands_over(step, before, behind);
        broken_by_step(step, before, behind)
    }

    fn look_at_end(&self, at: &Seen<[Progress; 2]>) -> Option<&'static str> {
        let at = Moment::of(self.kind, at);
        broken_by_end(at.threads, at.shown)
    }

    fn ends_as(&self, at: &Seen<[Progress; 2]>) -> (End, End) {
        let [first, second] = at.notes;
        (first.end(), second.end())
    }
}
