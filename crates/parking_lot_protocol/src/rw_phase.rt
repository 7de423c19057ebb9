//! Where a call at a reader-writer lock stands.

use crate::act::CoreAnswer;

/// How the lock is asked for: shared, on a lock where an owner may ask again or not, or exclusively.
#[derive(Clone, Copy, PartialEq, Eq, Debug)]
pub enum LockMode {
    Shared(bool),
    Exclusive,
}

/// One that asks for a first admission: how, whether it was woken to ask again, and how many rounds it may still spin
/// before it goes to sleep.
#[derive(Clone, Copy, PartialEq, Eq, Debug)]
pub struct Seeking {
    pub want: LockMode,
    pub woken: bool,
    pub rounds: u8,
}

/// A writer that waits until the readers have left: whether it was woken to look again, and how many rounds it may
/// still spin.
#[derive(Clone, Copy, PartialEq, Eq, Debug)]
pub struct Draining {
    pub woken: bool,
    pub rounds: u8,
}

/// What comes after a release or a downgrade, once all are woken.
#[derive(Clone, Copy, PartialEq, Eq, Debug)]
pub enum AfterWake {
    /// The shared hold is given up, or the exclusive one; or it is a shared one now.
    FreedShared,
    FreedExclusive,
    Downgraded,
    /// A bump asks again for what it gave up.
    AgainShared,
    AgainExclusive,
}

/// What one that goes through the first list is to say in the end, and whom it has taken: how many readers, and whether
/// an upgradable one and a writer.
#[derive(Clone, Copy, PartialEq, Eq, Debug)]
pub struct Scanning {
    /// It hands the lock over whatever the schedule says.
    pub fair: bool,
    pub rest: AfterWake,
    pub shared: u32,
    pub upgradable: bool,
    pub writer: bool,
}

/// What a thread owns as its call ends.
#[derive(Clone, Copy, PartialEq, Eq, Debug)]
pub enum Outcome {
    /// One shared hold more than before the call, or as many where it was a bump; or the exclusive hold.
    Shared,
    Exclusive,
    /// It has the exclusive hold no more, but a shared one.
    Downgraded,
    /// It has one shared hold less, or the exclusive one no more.
    FreedShared,
    FreedExclusive,
}

/// Where a call stands: it has asked for the act that the case names, and waits for what it gives.
#[derive(Clone, Copy, PartialEq, Eq, Debug)]
pub enum RwPhase {
    /// Before a call begins.
    Locking(LockMode),
    Trying(LockMode),
    UnlockingShared,
    UnlockingExclusive(bool),
    Downgrading,
    BumpingShared,
    BumpingExclusive,
    /// On the way to a first admission: a load; the exchange that admits it, from that word; a round of spinning; the
    /// exchange that sets the parked bit.
    Loads(Seeking),
    Admits(Seeking, u64),
    Spins(Seeking),
    SetParked(Seeking, u64),
    /// The section in which it goes to sleep: it enters, checks, and leaves at once; or it joins the list, leaves and
    /// sleeps.
    Enters(LockMode, bool),
    Checks(LockMode, bool),
    Retreats(LockMode, bool),
    Appends(LockMode),
    Rests(LockMode),
    Sleeps(LockMode),
    /// The same of a writer that waits until the readers have left.
    DrainLoads(Draining),
    DrainSpins(Draining),
    DrainSetParked(Draining, u64),
    DrainEnters(Draining),
    DrainChecks(Draining),
    DrainRetreats(Draining),
    DrainAppends(u8),
    DrainRests(u8),
    DrainSleeps(u8),
    /// A try: a load, and exchanges, of which so many may be made after the next; it is refused.
    TryLoads(LockMode),
    TryAdmits(LockMode, u64, u8),
    Refuses(LockMode),
    /// A bump looks for waiters; it begins to ask again.
    BumpLoads(LockMode),
    Relocks(LockMode),
    /// A shared hold is given up; where it was the last, a section in which the pending writer is taken.
    Unshares(AfterWake),
    EnterWriterWakeSection(AfterWake),
    TakeWriter(AfterWake),
    ClearWriterParked(AfterWake, bool),
    LeaveWriterWakeSection(AfterWake, bool),
    /// The exclusive hold is given up, or becomes a shared one; else a section in which waiters are taken in order.
    Unlocks(bool, AfterWake),
    LooksExclusive(bool, AfterWake),
    Downgrades,
    EnterWakeSection,
    Scans(Scanning),
    Stores(Scanning, bool),
    Leaves(AfterWake, u64, bool),
    /// So many are still to be woken; all are.
    Wakes(AfterWake, u64),
    Finishes(AfterWake),
    /// The call is over, or was told what its act can't give.
    Ends(Outcome),
    Invalid,
}
