//! What a decision core offers to whoever runs it.
ghost use Rattle.std.specs.Prelude.{◌≡◌};
ghost use Rattle.parking_lot_core_model.specs.declared.parking.UnparkToken.{UnparkToken};
ghost use Rattle.parking_lot_protocol.specs.declared.act.Act.{Act};
ghost use Rattle.parking_lot_protocol.specs.declared.act.ActResult.{ActResult};

use parking_lot_core::UnparkToken;
use parking_lot_protocol::{Act, ActResult, MutexCore, RwCore};
use parking_lot_protocol_rw::UpgradeCore;

/// One call of a lock as plain data: it is told what its last act gave, and answers the next one.
pub trait DecisionCore: Copy {
    /// What it is once it was told so much more.
    ghost told: { Self → ActResult → Self };

    /// The act that it has asked for.
    ghost asks: { Self → Act };

    /// The token for those that a section has taken.
    ghost wakes: { Self → UnparkToken };

    /// The act that it has asked for.
    fn act(&self) -> Act
        ensures { result ≡ asks self.now };

    /// Is told what the last act gave, and answers the next.
    fn next(&mut self, seen: ActResult) -> Act
        ensures core { self.new ≡ told self.old seen }
        ensures act { result ≡ asks self.new };

    /// The token for those that the section has taken, once it has stored.
    fn wake_token(&self) -> UnparkToken
        ensures { result ≡ wakes self.now };
}

impl DecisionCore for MutexCore {
    ghost use Rattle.parking_lot_protocol.specs.MutexTable.{act_of, next_phase, wakes_with};

    ghost told = { λ core seen. record core { phase = next_phase core.phase seen } };

    ghost asks = { λ core. act_of core.phase };

    ghost wakes = { λ core. wakes_with core.phase };

    fn act(&self) -> Act {
        MutexCore::act(self)
    }

    fn next(&mut self, seen: ActResult) -> Act {
        MutexCore::next(self, seen)
    }

    fn wake_token(&self) -> UnparkToken {
        MutexCore::wake_token(self)
    }
}

impl DecisionCore for RwCore {
    ghost use Rattle.parking_lot_protocol.specs.RwTable.{act_of, next_phase, wakes_with};

    ghost told = { λ core seen. record core { phase = next_phase core.phase seen } };

    ghost asks = { λ core. act_of core.phase };

    ghost wakes = { λ core. wakes_with core.phase };

    fn act(&self) -> Act {
        RwCore::act(self)
    }

    fn next(&mut self, seen: ActResult) -> Act {
        RwCore::next(self, seen)
    }

    fn wake_token(&self) -> UnparkToken {
        RwCore::wake_token(self)
    }
}

impl DecisionCore for UpgradeCore {
    ghost use Rattle.parking_lot_protocol_rw.specs.UpgradeTable.{upgrade_asks, upgrade_told, wakes_with};

    ghost told = { upgrade_told };

    ghost asks = { upgrade_asks };

    ghost wakes = { λ core. wakes_with core.phase };

    fn act(&self) -> Act {
        UpgradeCore::act(self)
    }

    fn next(&mut self, seen: ActResult) -> Act {
        UpgradeCore::next(self, seen)
    }

    fn wake_token(&self) -> UnparkToken {
        UpgradeCore::wake_token(self)
    }
}
