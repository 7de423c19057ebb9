//! Laws of the uncontended ways: what a core asks for that is told what the one exchange saw.
ghost use Rattle.std.specs.Prelude.{◌≡◌, [], ◌∷◌};
ghost use Rattle.parking_lot_protocol.specs.declared.act.Act.TheVariants as act;
ghost use Rattle.parking_lot_protocol.specs.declared.act.ActResult.TheVariants as told;
ghost use Rattle.parking_lot_protocol.specs.declared.act.CoreAnswer.TheVariants.{Owned, Released};
ghost use Rattle.parking_lot_protocol.specs.declared.mutex_phase.MutexPhase.TheVariants as call;
ghost use Rattle.parking_lot_protocol.specs.MutexTable.{act_of, next_phase};
ghost use Rattle.parking_lot_driver.specs.Ways.{Goes};

/// The exchange from 0 to 1 is the way of a call that locks a free mutex: it is what the core asks for at 0, and once
/// it is won the mutex is owned.
pub fn one_exchange_locks()
    ensures { Goes next_phase act_of call.Locking
        ((told.Start, act.Load) ∷ (told.Word 0, act.Exchange 0 1) ∷ (told.Exchanged, act.Done Owned) ∷ []) }
{}

/// The exchange from 1 to 0 is the way of a call that unlocks a mutex for which nobody waits, fairly or not.
pub fn one_exchange_unlocks(fair: bool)
    ensures { Goes next_phase act_of (call.Unlocking fair)
        ((told.Start, act.Exchange 1 0) ∷ (told.Exchanged, act.Done Released) ∷ []) }
{}
