//! The call of a mutex that may give up.
ghost use Rattle.std.specs.Prelude.{◌≡◌, if◌then◌else◌};
ghost use Rattle.parking_lot_protocol.specs.MutexRules as mutex_rules;
ghost use Rattle.parking_lot_protocol.specs.MutexTable as mutex;
ghost use Rattle.parking_lot_protocol.specs.declared.act.ActResult.TheVariants.{Start};
ghost use Rattle.parking_lot_protocol.specs.declared.mutex_phase.MutexPhase.TheVariants.{Locking, Sleeps, Invalid};
ghost use Rattle.parking_lot_protocol.specs.Timed.TimedRules.{EndsRightly, Follows};
ghost use Rattle.parking_lot_protocol.specs.Timed.TimedTable.{act_of, asking, is_asleep, next_phase, Gives, timed_asks};
ghost use Rattle.parking_lot_protocol.specs.Timed.TimedTable.{timed_told};
ghost use Rattle.parking_lot_protocol.specs.declared.timed.timed_act.TimedSeen.TheVariants.{Plain};
ghost use Rattle.parking_lot_protocol.specs.declared.timed.timed_core.TimedMutexPhase.TheVariants.{Expires, Masks};
ghost use Rattle.parking_lot_protocol.specs.declared.timed.timed_core.TimedMutexPhase.TheVariants.{Leaves};

use crate::timed::course::CallCore;
use crate::timed::plain_acts::giving;
use crate::timed::timed_act::{TimedAct, TimedSeen};
use crate::{Act, ActResult, MutexCore, MutexPhase};
use parking_lot_core_model::UnparkToken;

/// Where a call that may give up stands: it has asked for the act that the case names, and waits for what it gives.
#[derive(Clone, Copy)]
pub enum TimedMutexPhase {
    /// As a call that waits.
    Asks(MutexCore),
    /// Its moment has passed as it slept: it enters the section again, and takes itself off the list.
    Expires,
    Quits,
    /// It is off the list: as the last one it masks the parked bit; it leaves the section, and the call is over.
    Masks,
    Leaves,
    GivesUp,
    /// Another had taken it before: it leaves the section, and goes on as if it were woken with that token.
    Resumes(UnparkToken),
}

/// The state of one call at a mutex that may give up. It is told what its last act gave, and answers the next one.
///
/// ```text
/// let mut core = TimedMutexCore::lock_until();
/// assert_eq!(rt; core.next(TimedSeen::Plain(ActResult::Start)), TimedAct::Makes(Act::Load));
/// ```
#[derive(Clone, Copy)]
pub struct TimedMutexCore {
    phase: TimedMutexPhase,
}

impl TimedMutexCore {
    /// A call that waits until it owns the lock, or its moment passes as it sleeps.
    pub fn lock_until() -> TimedMutexCore
        ensures { result.phase ≡ asking Locking }
    {
        TimedMutexCore {
            phase: TimedMutexPhase::Asks(MutexCore::lock()),
        }
    }

    /// Where it stands.
    pub fn phase(&self) -> TimedMutexPhase
        ensures { result ≡ self.now.phase }
    {
        let TimedMutexCore { phase } = *self;
        phase
    }

    /// The act that it has asked for. Before it begins it asks for nothing, and says that it is refused.
    pub fn act(&self) -> TimedAct
        ensures { result ≡ act_of self.now.phase }
    {
        match self.phase {
            TimedMutexPhase::Asks(core) => TimedAct::Makes(core.act()),
            TimedMutexPhase::Expires => TimedAct::Reenters,
            TimedMutexPhase::Quits => TimedAct::TakesItself,
            TimedMutexPhase::Masks => TimedAct::Masks,
            TimedMutexPhase::Leaves | TimedMutexPhase::Resumes(_) => TimedAct::Leaves,
            TimedMutexPhase::GivesUp => TimedAct::GivesUp,
        }
    }
}

impl TimedMutexCore {
    /// Is told what the last act gave, and answers the next. What doesn't fit the act is met by `Done(Refused)`.
    pub fn next(&mut self, seen: TimedSeen) -> TimedAct
        ensures phase { self.new.phase ≡ next_phase self.old.phase seen }
        ensures act { result ≡ act_of self.new.phase }
        ensures rules { Follows self.old.phase seen }
        ensures end { EndsRightly self.new.phase result }
    {
        self.phase = self.phase.after(seen);
        self.act()
    }
}

impl TimedMutexPhase {
    /// The phase that follows what its act gave.
    fn after(self, seen: TimedSeen) -> TimedMutexPhase
        ensures phase { result ≡ next_phase self seen }
        ensures rules { Follows self seen }
    {
        match (self, seen) {
            (TimedMutexPhase::Asks(core), TimedSeen::Plain(seen)) => asks_on(core, seen),
            (TimedMutexPhase::Asks(core), TimedSeen::Expired) => expires(core),
            (TimedMutexPhase::Expires, TimedSeen::Reentered) => TimedMutexPhase::Quits,
            (TimedMutexPhase::Quits, TimedSeen::Quit { last }) => quits(last),
            (TimedMutexPhase::Quits, TimedSeen::WasTaken(token)) => TimedMutexPhase::Resumes(token),
            (TimedMutexPhase::Masks, TimedSeen::Masked) => TimedMutexPhase::Leaves,
            (TimedMutexPhase::Leaves, TimedSeen::Left) => TimedMutexPhase::GivesUp,
            (TimedMutexPhase::Resumes(token), TimedSeen::Left) => {
                asks_on(asleep(), ActResult::Woken(token))
            }
            _ => astray(),
        }
    }
}

/// A call that waits goes on.
fn asks_on(mut core: MutexCore, seen: ActResult) -> TimedMutexPhase
    ensures phase { result ≡ asking (mutex.next_phase core.phase seen) }
    ensures rules { mutex_rules.Follows core.phase seen }
{
    core.next(seen);
    TimedMutexPhase::Asks(core)
}

/// The moment passes, of one that sleeps.
fn expires(core: MutexCore) -> TimedMutexPhase
    ensures { result ≡ (if is_asleep core.phase then Expires else asking Invalid) }
{
    match core.phase() {
        MutexPhase::Sleeps => TimedMutexPhase::Expires,
        _ => astray(),
    }
}

/// It is off the list, as the last one there or as one of several.
fn quits(last: bool) -> TimedMutexPhase
    ensures { result ≡ (if last then Masks else Leaves) }
{
    if last {
        TimedMutexPhase::Masks
    } else {
        TimedMutexPhase::Leaves
    }
}

/// What was told doesn't fit.
fn astray() -> TimedMutexPhase
    ensures { result ≡ asking Invalid }
{
    let mut core = MutexCore::lock();
    core.next(ActResult::Made);
    TimedMutexPhase::Asks(core)
}

/// A call that sleeps: it was told all that leads there.
fn asleep() -> MutexCore
    ensures { result.phase ≡ Sleeps }
{
    let mut core = MutexCore::lock();
    core.next(ActResult::Start);
    core.next(ActResult::Word(3));
    core.next(ActResult::Entered);
    core.next(ActResult::Word(3));
    core.next(ActResult::Made);
    core.next(ActResult::Made);
    core
}

impl CallCore for TimedMutexCore {
    type Act = TimedAct;

    type Seen = TimedSeen;

    ghost told = { timed_told };

    ghost asks = { timed_asks };

    ghost gives = { Gives };

    ghost start = { Plain Start };

    fn start() -> TimedSeen {
        TimedSeen::Plain(ActResult::Start)
    }

    fn act(&self) -> TimedAct {
        TimedMutexCore::act(self)
    }

    fn giving(act: TimedAct, seen: TimedSeen) -> Option<u64> {
        match (act, seen) {
            (TimedAct::Makes(act), TimedSeen::Plain(seen)) => giving(act, seen),
            (TimedAct::Makes(Act::Sleep), TimedSeen::Expired) => Some(0),
            (TimedAct::Reenters, TimedSeen::Reentered) => Some(0),
            (TimedAct::TakesItself, TimedSeen::Quit { .. }) => Some(0),
            (TimedAct::TakesItself, TimedSeen::WasTaken(_)) => Some(0),
            (TimedAct::Masks, TimedSeen::Masked) => Some(0),
            (TimedAct::Leaves, TimedSeen::Left) => Some(0),
            _ => None,
        }
    }

    fn tell(&mut self, seen: TimedSeen) {
        self.next(seen);
    }
}
