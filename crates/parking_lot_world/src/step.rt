//! Steps of a schedule.
ghost use Rattle.std.specs.Prelude.{◌≡◌};
ghost use Rattle.parking_lot_world.specs.WorldCalls.{step_thread};

use crate::calls::LockCall;

/// One step of a schedule.
#[derive(Clone, Copy, PartialEq, Eq, Debug)]
pub enum WorldStep {
    /// A thread asks for something of a lock: their numbers, and what it asks for.
    Begin(usize, usize, LockCall),
    /// A thread makes one step of its call. Where it gives the lock up by a section and stores in this step, the
    /// release is fair if this says so.
    Go(usize, bool),
    /// A thread's deadline comes, as it sleeps in a timed call. It gives up from then on, unless it was taken off its
    /// list, before that or after:
    /// then it goes on as its taker has told it, woken or by itself.
    Deadline(usize),
}

impl WorldStep {
    /// The number of the thread that makes it.
    pub fn thread(&self) -> usize
        ensures { result ≡ step_thread self.now }
    {
        match self {
            WorldStep::Begin(thread, _, _) => *thread,
            WorldStep::Go(thread, _) => *thread,
            WorldStep::Deadline(thread) => *thread,
        }
    }
}
