//! Steps of a schedule, and where they leave a thread.

/// One step of a schedule.
#[derive(Clone, Copy, PartialEq, Eq, Debug)]
pub struct Step {
    /// Who makes it.
    pub thread: usize,
    /// Whether a release hands its shard over to a waiter, where it stores the lock's word in this step.
    pub fair: bool,
    /// Whether this is the thread's deadline, and no step that it makes itself: it may come only while the thread
    /// sleeps in a call that has one. `fair` then changes nothing.
    pub deadline: bool,
}

/// Where a thread stands.
#[derive(Clone, Copy, PartialEq, Eq, Debug)]
pub enum Status {
    /// It can go on, or is before a queue's section that another thread has entered.
    Running,
    /// It waits in a queue of its shard, or was taken from it and isn't woken yet; and its deadline, if it has one,
    /// hasn't come.
    Asleep,
    /// All its calls are answered.
    Finished,
}
