//! The calls of a reader-writer lock that may give up.
ghost use Rattle.std.specs.Prelude.{◌≡◌};
ghost use Rattle.parking_lot_protocol.specs.declared.act.ActResult.TheVariants.{Start, Woken};
ghost use Rattle.parking_lot_protocol.specs.declared.rw_phase.LockMode.TheVariants.{Shared, Exclusive};
ghost use Rattle.parking_lot_protocol.specs.declared.rw_phase.RwPhase.TheVariants.{Locking};
ghost use Rattle.parking_lot_protocol_rw.specs.Timed.TimedRules.{EndsRightly, Follows};
ghost use Rattle.parking_lot_protocol_rw.specs.Timed.TimedTable.{act_of, astray, expires, made, next_phase, pending};
ghost use Rattle.parking_lot_protocol_rw.specs.Timed.TimedTable.{plain_at, quits, timed_asks, timed_told, upgrade_at};
ghost use Rattle.parking_lot_protocol_rw.specs.Timed.TimedTable.{wakes_with};
ghost use Rattle.parking_lot_protocol_rw.specs.declared.timed.timed_phase.TimedRwPhase.TheVariants.{Asks};
ghost use Rattle.parking_lot_protocol.specs.Timed.TimedTable.{Gives};
ghost use Rattle.parking_lot_protocol.specs.declared.timed.timed_act.TimedSeen.TheVariants.{Plain};
ghost use Rattle.parking_lot_protocol_rw.specs.UpgradeTable.{upgrade_told};
ghost use Rattle.parking_lot_protocol_rw.specs.declared.upgrade_phase.UpgradePhase.TheVariants as call;

use crate::UpgradeCore;
use crate::timed::timed_phase::{Sleeper, TimedRwPhase, sleeper_of};
use parking_lot_core_model::UnparkToken;
use parking_lot_protocol::timed::{CallCore, TimedAct, TimedMutexCore, TimedSeen};
use parking_lot_protocol::{Act, ActResult, CoreAnswer, RwCore, TRY_AGAIN};

/// The state of one call at a reader-writer lock that may give up. It is told what its last act gave, and answers the
/// next one.
///
/// ```text
/// let mut core = TimedRwCore::lock_shared_until(false);
/// assert_eq!(rt; core.next(TimedSeen::Plain(ActResult::Start)), TimedAct::Makes(Act::Load));
/// ```
#[derive(Clone, Copy)]
pub struct TimedRwCore {
    phase: TimedRwPhase,
}

impl TimedRwCore {
    /// A call that waits until it has a shared hold, or its moment passes as it sleeps. On a recursive lock one that
    /// has a hold may ask again.
    pub fn lock_shared_until(recursive: bool) -> TimedRwCore
        ensures { result.phase ≡ plain_at (Locking (Shared recursive)) }
    {
        TimedRwCore {
            phase: TimedRwPhase::Asks(UpgradeCore::plain(RwCore::lock_shared(recursive))),
        }
    }

    /// The same of the exclusive hold.
    pub fn lock_exclusive_until() -> TimedRwCore
        ensures { result.phase ≡ plain_at (Locking Exclusive) }
    {
        TimedRwCore {
            phase: TimedRwPhase::Asks(UpgradeCore::plain(RwCore::lock_exclusive())),
        }
    }

    /// The same of the upgradable hold.
    pub fn lock_upgradable_until() -> TimedRwCore
        ensures { result.phase ≡ upgrade_at call.Locking }
    {
        TimedRwCore {
            phase: TimedRwPhase::Asks(UpgradeCore::lock()),
        }
    }

    /// A call that makes the upgradable hold the exclusive one, and waits until the readers have left, or its moment
    /// passes as it sleeps: then it has the upgradable hold again.
    pub fn upgrade_until() -> TimedRwCore
        ensures { result.phase ≡ upgrade_at call.Upgrading }
    {
        TimedRwCore {
            phase: TimedRwPhase::Asks(UpgradeCore::upgrade()),
        }
    }

    /// Where it stands.
    pub fn phase(&self) -> TimedRwPhase
        ensures { result ≡ self.now.phase }
    {
        self.phase
    }

    /// The act that it has asked for. Before it begins it asks for nothing, and says that it is refused.
    pub fn act(&self) -> TimedAct
        ensures { result ≡ act_of self.now.phase }
    {
        match self.phase {
            TimedRwPhase::Asks(core) => made(core.act()),
            TimedRwPhase::Expires(_) => TimedAct::Reenters,
            TimedRwPhase::Quits(_) => TimedAct::TakesItself,
            TimedRwPhase::Masks => TimedAct::Masks,
            TimedRwPhase::Leaves | TimedRwPhase::LeavesPending(_) => TimedAct::Leaves,
            TimedRwPhase::Resumes(..) => TimedAct::Leaves,
            TimedRwPhase::GivesUp => TimedAct::GivesUp,
        }
    }

    /// The token for those that a section has taken, once it has stored.
    pub fn wake_token(&self) -> UnparkToken
        ensures { result ≡ wakes_with self.now.phase }
    {
        match self.phase {
            TimedRwPhase::Asks(core) => core.wake_token(),
            _ => TRY_AGAIN,
        }
    }

    /// Is told what the last act gave, and answers the next. What doesn't fit the act is met by `Done(Refused)`.
    pub fn next(&mut self, seen: TimedSeen) -> TimedAct
        ensures phase { self.new.phase ≡ next_phase self.old.phase seen }
        ensures act { result ≡ act_of self.new.phase }
        ensures rules { Follows self.old.phase seen }
        ensures end { EndsRightly self.new.phase result }
    {
        self.phase = self.phase.after(seen);
        self.act()
    }
}

/// An act of a call that waits. Such a call that may give up never ends with a release but by giving up.
fn made(act: Act) -> TimedAct
    ensures { result ≡ made act }
{
    match act {
        Act::Done(CoreAnswer::Released) => TimedAct::GivesUp,
        act => TimedAct::Makes(act),
    }
}

impl TimedRwPhase {
    /// The phase that follows what its act gave.
    fn after(self, seen: TimedSeen) -> TimedRwPhase
        ensures { result ≡ next_phase self seen }
    {
        match (self, seen) {
            (TimedRwPhase::Asks(core), TimedSeen::Plain(seen)) => asks_on(core, seen),
            (TimedRwPhase::Asks(core), TimedSeen::Expired) => expires(core),
            (TimedRwPhase::Expires(core), TimedSeen::Reentered) => TimedRwPhase::Quits(core),
            (TimedRwPhase::Quits(core), TimedSeen::Quit { last }) => quits(core, last),
            (TimedRwPhase::Quits(core), TimedSeen::WasTaken(token)) => {
                TimedRwPhase::Resumes(core, token)
            }
            (TimedRwPhase::Masks, TimedSeen::Masked) => TimedRwPhase::Leaves,
            (TimedRwPhase::Leaves, TimedSeen::Left) => TimedRwPhase::GivesUp,
            (TimedRwPhase::LeavesPending(from), TimedSeen::Left) => pending(from),
            (TimedRwPhase::Resumes(core, token), TimedSeen::Left) => {
                asks_on(core, ActResult::Woken(token))
            }
            _ => astray(),
        }
    }
}

/// A call that waits goes on.
fn asks_on(mut core: UpgradeCore, seen: ActResult) -> TimedRwPhase
    ensures { result ≡ Asks (upgrade_told core seen) }
{
    core.next(seen);
    TimedRwPhase::Asks(core)
}

/// The moment passes, of one that sleeps.
fn expires(core: UpgradeCore) -> TimedRwPhase
    ensures { result ≡ expires core }
{
    match sleeper_of(core.phase()) {
        Some(_) => TimedRwPhase::Expires(core),
        None => astray(),
    }
}

/// It is off its list, as the last one there or as one of several.
fn quits(core: UpgradeCore, last: bool) -> TimedRwPhase
    ensures { result ≡ quits core last }
{
    match sleeper_of(core.phase()) {
        Some(Sleeper::Wanting) => {
            if last {
                TimedRwPhase::Masks
            } else {
                TimedRwPhase::Leaves
            }
        }
        Some(Sleeper::Pending(from)) => TimedRwPhase::LeavesPending(from),
        None => astray(),
    }
}

/// A writer that waits for readers no more takes its bit back.
fn pending(from: bool) -> TimedRwPhase
    ensures { result ≡ pending from }
{
    asks_on(UpgradeCore::give_up(from), ActResult::Start)
}

/// What was told doesn't fit.
fn astray() -> TimedRwPhase
    ensures { result ≡ astray }
{
    asks_on(UpgradeCore::lock(), ActResult::Exchanged)
}

impl CallCore for TimedRwCore {
    type Act = TimedAct;

    type Seen = TimedSeen;

    ghost told = { timed_told };

    ghost asks = { timed_asks };

    ghost gives = { Gives };

    ghost start = { Plain Start };

    fn start() -> TimedSeen {
        TimedSeen::Plain(ActResult::Start)
    }

    fn act(&self) -> TimedAct {
        TimedRwCore::act(self)
    }

    fn giving(act: TimedAct, seen: TimedSeen) -> Option<u64> {
        TimedMutexCore::giving(act, seen)
    }

    fn tell(&mut self, seen: TimedSeen) {
        self.next(seen);
    }
}
