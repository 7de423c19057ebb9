//! The calls of a one-time initialization, for the runner of the locks.
ghost use Rattle.std.specs.Prelude.{true, false};
ghost use Rattle.parking_lot_mutex.specs.Once.OnceRuns.{plain, forced, waiting, waiting_on};
ghost use Rattle.parking_lot_protocol_waits.specs.declared.once.once_phase.OncePhase.TheVariants.{Asking, Returning};

use parking_lot_core::UnparkToken;
use parking_lot_driver::{Act, ActResult, Call, DecisionCore};
use parking_lot_protocol_waits::once::OnceCore;

/// A core that runs on a row.
#[derive(Clone, Copy)]
pub(crate) struct RowCore {
    pub core: OnceCore,
}

impl DecisionCore for RowCore {
    ghost use Rattle.parking_lot_protocol_waits.specs.Once.OnceTable.{act_of, next_phase};

    ghost told = { λ row seen. record row { core = record row.core { phase = next_phase row.core.phase seen } } };

    ghost asks = { λ row. act_of row.core.phase };

    ghost wakes = { λ _. record { 0 = 0 } };

    fn act(&self) -> Act {
        self.core.act()
    }

    fn next(&mut self, seen: ActResult) -> Act {
        self.core.next(seen)
    }

    fn wake_token(&self) -> UnparkToken {
        self.core.wake_token()
    }
}

/// Runs a closure where none has run.
#[derive(Clone, Copy)]
pub(crate) struct CallOnce;

/// Runs a closure also where the last one has failed.
#[derive(Clone, Copy)]
pub(crate) struct CallOnceForce;

/// Waits until a closure has ended well, or the last one has failed.
#[derive(Clone, Copy)]
pub(crate) struct Await;

/// Waits until a closure has ended well.
#[derive(Clone, Copy)]
pub(crate) struct AwaitForce;

/// Stores that the closure has ended well.
#[derive(Clone, Copy)]
pub(crate) struct EndWell;

/// Stores that the closure has failed.
#[derive(Clone, Copy)]
pub(crate) struct EndFailed;

impl Call for CallOnce {
    type Core = RowCore;

    ghost begun = { record { core = record { phase = Asking plain } } };

    fn begin() -> RowCore {
        RowCore {
            core: OnceCore::call_once(),
        }
    }
}

impl Call for CallOnceForce {
    type Core = RowCore;

    ghost begun = { record { core = record { phase = Asking forced } } };

    fn begin() -> RowCore {
        RowCore {
            core: OnceCore::call_once_force(),
        }
    }
}

impl Call for Await {
    type Core = RowCore;

    ghost begun = { record { core = record { phase = Asking waiting } } };

    fn begin() -> RowCore {
        RowCore {
            core: OnceCore::wait(),
        }
    }
}

impl Call for AwaitForce {
    type Core = RowCore;

    ghost begun = { record { core = record { phase = Asking waiting_on } } };

    fn begin() -> RowCore {
        RowCore {
            core: OnceCore::wait_force(),
        }
    }
}

impl Call for EndWell {
    type Core = RowCore;

    ghost begun = { record { core = record { phase = Returning true } } };

    fn begin() -> RowCore {
        RowCore {
            core: OnceCore::finish(true),
        }
    }
}

impl Call for EndFailed {
    type Core = RowCore;

    ghost begun = { record { core = record { phase = Returning false } } };

    fn begin() -> RowCore {
        RowCore {
            core: OnceCore::finish(false),
        }
    }
}
