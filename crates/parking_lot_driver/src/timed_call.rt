//! The calls of a reader-writer lock that may give up: which core each begins with, and one that has begun.
ghost use Rattle.std.specs.Prelude.{◌≡◌, ◌==◌};
ghost use Rattle.parking_lot_driver.specs.Ends.{TimedRwEnded};
ghost use Rattle.parking_lot_protocol.specs.declared.act.ActResult.TheVariants.{Start};
ghost use Rattle.parking_lot_protocol.specs.declared.rw_phase.LockMode.TheVariants.{Shared, Exclusive};
ghost use Rattle.parking_lot_protocol.specs.declared.rw_phase.RwPhase.TheVariants.{Locking};
ghost use Rattle.parking_lot_protocol_rw.specs.Timed.TimedTable.{plain_at, timed_asks, timed_told, upgrade_at};
ghost use Rattle.parking_lot_protocol_rw.specs.declared.timed.timed_core.TimedRwCore.{TimedRwCore};
ghost use Rattle.parking_lot_protocol.specs.declared.timed.timed_act.TimedSeen.TheVariants.{Plain};
ghost use Rattle.parking_lot_protocol_rw.specs.declared.upgrade_phase.UpgradePhase.TheVariants as at;

use crate::timed_sleep::InTime;
use crate::under_way::UnderWay;
use parking_lot_core::UnparkToken;
use parking_lot_protocol::timed::{CallCore, TimedAct, TimedSeen};
use parking_lot_protocol::word::PARKED;
use parking_lot_protocol::{Act, ActResult, CoreAnswer};
use parking_lot_protocol_rw::timed::TimedRwCore;
use std::alloc::AllocError;
use std::marker::Model;

/// A kind of call that may give up: the core that it begins with. A type for each, so that whoever runs one shows by
/// its type which.
pub trait TimedCall: Copy {
    /// The core as it begins.
    ghost begun: { TimedRwCore };

    /// Makes the core as it begins.
    fn begin() -> TimedRwCore
        ensures { result ≡ begun };
}

/// Reads, or gives up.
#[derive(Clone, Copy)]
pub struct ReadInTime<const RECURSIVE: u8>;

/// Writes, or gives up.
#[derive(Clone, Copy)]
pub struct WriteInTime;

/// Asks for the upgradable hold, or gives up.
#[derive(Clone, Copy)]
pub struct AskUpgradablyInTime;

/// Writes in place of having the upgradable hold, or gives up and has it again.
#[derive(Clone, Copy)]
pub struct UpgradeInTime;

impl<const RECURSIVE: u8> TimedCall for ReadInTime<RECURSIVE> {
    ghost begun = { record { phase = plain_at (Locking (Shared (RECURSIVE == 1))) } };

    fn begin() -> TimedRwCore {
        TimedRwCore::lock_shared_until(RECURSIVE == 1)
    }
}

impl TimedCall for WriteInTime {
    ghost begun = { record { phase = plain_at (Locking Exclusive) } };

    fn begin() -> TimedRwCore {
        TimedRwCore::lock_exclusive_until()
    }
}

impl TimedCall for AskUpgradablyInTime {
    ghost begun = { record { phase = upgrade_at at.Locking } };

    fn begin() -> TimedRwCore {
        TimedRwCore::lock_upgradable_until()
    }
}

impl TimedCall for UpgradeInTime {
    ghost begun = { record { phase = upgrade_at at.Upgrading } };

    fn begin() -> TimedRwCore {
        TimedRwCore::upgrade_until()
    }
}

/// A call that has begun: its core, which was told nothing but what the acts that it asked for can give.
#[derive(Copy)]
pub(crate) struct TimedRun<K: TimedCall> {
    call: K,
    core: TimedRwCore,
}

impl<K: TimedCall> Model for TimedRun<K> {
    ghost use Rattle.parking_lot_driver.specs.Ends.{TimedRwTold};
    ghost use Rattle.parking_lot_protocol_rw.specs.declared.timed.timed_core.TimedRwCore.{TimedRwCore};

    ghost Value = { K × TimedRwCore };

    ghost view = { λ run. (run.call, run.core) };

    ghost inverse = { λ run. record { call = run.0; core = run.1 } };

    ghost invariant = { λ run. TimedRwTold K.begun run.core };
}

impl<K: TimedCall> Clone for TimedRun<K> {
    fn clone(&self) -> Result<TimedRun<K>, AllocError> {
        Ok(*self)
    }
}

impl<K: TimedCall> TimedRun<K> {
    /// Begins a call.
    pub fn begin(call: K) -> TimedRun<K>
        ensures { result ≡ (call, timed_told K.begun (Plain Start)) }
    {
        let mut core = K::begin();
        core.next(TimedSeen::Plain(ActResult::Start));
        TimedRun { call, core }
    }

    /// The act that it has asked for.
    pub fn asked(&self) -> TimedAct
        ensures { result ≡ timed_asks self.now.1 }
    {
        self.core.act()
    }

    /// Is told what its act gave, and answers the next. What the act can't give isn't told: then it asks for the same
    /// again.
    pub fn told(&mut self, seen: TimedSeen) -> TimedAct
        ensures { result ≡ timed_asks self.new.1 }
    {
        if let Some(_word) = TimedRwCore::giving(self.asked(), seen) {
            self.core.next(seen);
        }
        self.asked()
    }

    /// That it has come to what it asks for now.
    pub fn ended(&self)
        ensures { TimedRwEnded K.begun (timed_asks self.now.1) }
    {
        let _core = &self.core;
    }
}

/// What a call asks for as one that waits.
fn plain(act: TimedAct) -> Act {
    match act {
        TimedAct::Makes(act) => act,
        _ => Act::Done(CoreAnswer::Refused),
    }
}

impl<K: TimedCall> UnderWay for TimedRun<K> {
    fn act(&self) -> Act {
        plain(self.asked())
    }

    fn tell(&mut self, seen: ActResult) -> Act {
        plain(self.told(TimedSeen::Plain(seen)))
    }

    fn wake_token(&self) -> UnparkToken {
        self.core.wake_token()
    }
}

impl<K: TimedCall> InTime for TimedRun<K> {
    fn parked(&self) -> u64 {
        PARKED
    }

    fn told(&mut self, seen: TimedSeen) -> TimedAct {
        TimedRun::told(self, seen)
    }
}
