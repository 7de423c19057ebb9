//! How shards are held.

/// How a guard holds its shard.
#[derive(Clone, Copy, PartialEq, Eq, Debug, Default)]
pub enum Mode {
    #[default]
    /// Beside others that do so too.
    Shared,
    /// Alone.
    Exclusive,
}

/// How long a call waits for its shard.
#[derive(Clone, Copy, PartialEq, Eq, Debug)]
pub enum Manner {
    /// Until it has it.
    Waits,
    /// Not at all.
    Tries,
    /// Until its deadline.
    UntilDeadline,
}

/// A thread's hold of a shard. The shard's desk has a guard for it, under the number of the thread.
#[derive(Clone, Copy, PartialEq, Eq, Debug, Default)]
pub struct Hold {
    /// The shard that is held.
    pub shard: usize,
    /// How it is held.
    pub mode: Mode,
}
