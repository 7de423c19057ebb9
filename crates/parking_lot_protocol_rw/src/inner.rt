//! Calls of shared and exclusive holds, at the places where a call goes on as one of them.
ghost use Rattle.std.specs.Prelude.{◌≡◌, false};
ghost use Rattle.parking_lot_protocol.specs.RwTable.{begins, pends};
ghost use Rattle.parking_lot_protocol.specs.declared.rw_phase.AfterWake.TheVariants.{FreedExclusive};
ghost use Rattle.parking_lot_protocol.specs.declared.rw_phase.LockMode.TheVariants.{Exclusive};
ghost use Rattle.parking_lot_protocol.specs.declared.rw_phase.RwPhase.TheVariants.{DrainLoads, EnterWakeSection, Loads};
ghost use Rattle.parking_lot_protocol.specs.declared.rw_phase.RwPhase.TheVariants.{LooksExclusive};
ghost use Rattle.parking_lot_protocol_rw.specs.UpgradeTable.{core_at, seeking, told};

use parking_lot_protocol::{ActResult, RwCore};

/// It was told so much more.
pub(crate) fn told(core: RwCore, seen: ActResult) -> RwCore
    ensures { result ≡ told core seen }
{
    let mut core = core;
    core.next(seen);
    core
}

/// One that asks for the exclusive hold, as it begins.
pub(crate) fn asking() -> RwCore
    ensures { result ≡ core_at (Loads (begins Exclusive false)) }
{
    told(RwCore::lock_exclusive(), ActResult::Start)
}

/// The same, once it has seen the word.
pub(crate) fn asking_at(word: u64) -> RwCore
    ensures { result ≡ seeking word }
{
    told(asking(), ActResult::Word(word))
}

/// One that waits for the readers to leave.
pub(crate) fn draining() -> RwCore
    ensures { result ≡ core_at (DrainLoads (pends false)) }
{
    told(asking_at(0), ActResult::Exchanged)
}

/// One that gives the exclusive hold up by a section.
pub(crate) fn freeing(fair: bool) -> RwCore
    ensures { result ≡ core_at (LooksExclusive fair FreedExclusive) }
{
    let core = if fair {
        RwCore::unlock_exclusive_fair()
    } else {
        RwCore::unlock_exclusive()
    };
    told(told(core, ActResult::Start), ActResult::Word(1))
}

/// One that owes waiters a look.
pub(crate) fn owing() -> RwCore
    ensures { result ≡ core_at EnterWakeSection }
{
    told(
        told(RwCore::downgrade(), ActResult::Start),
        ActResult::Before(1),
    )
}
