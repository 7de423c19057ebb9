//! Calls of a mutex that end by their first act.
ghost use Rattle.std.specs.Prelude.{◌≡◌, ◌≢◌, ◌%◌, ◌/◌, ℕ, IfOk, IfErr, IfSome, true};
ghost use Rattle.parking_lot_driver.specs.Ends.{mutex_asks, mutex_told, MutexAdmitted, MutexEnded};
ghost use Rattle.parking_lot_driver.specs.Runs.{Ended};
ghost use Rattle.parking_lot_protocol.specs.declared.act.Act.TheVariants.{Exchange, Done};
ghost use Rattle.parking_lot_protocol.specs.declared.act.ActResult.TheVariants.{Start, Exchanged};
ghost use Rattle.parking_lot_protocol.specs.declared.act.CoreAnswer.{CoreAnswer};
ghost use Rattle.parking_lot_protocol.specs.declared.act.CoreAnswer.TheVariants.{Owned, Released};
ghost use Rattle.parking_lot_protocol.specs.declared.mutex_phase.MutexPhase.TheVariants.{Locking, Bumping};

use crate::raw_mutex::RawMutex;
use lock_word::Owner;
use parking_lot_driver::Call;
use parking_lot_protocol::MutexCore;
use std::alloc::Allocator;

impl<R, A: Allocator> RawMutex<'_, '_, R, A> {
    /// Locks a free mutex by one exchange.
    #[inline(always)]
    pub(super) fn locks_at_once(&self) -> Option<Owner>
        ensures owner { IfSome result (λ owner. owner ≡ self.now.row.mutex.now.word) }
        ensures ended { IfSome result (λ _. MutexEnded Locking Owned) }
    {
        match self.word().acquire(0, 1) {
            Ok(owner) => Some(owner),
            Err(_seen) => None,
        }
    }

    /// Makes the first exchange of a try. Where it is lost, the try is to go on from the word that it saw.
    #[inline(always)]
    pub(super) fn tries_at_once(&self) -> Result<Owner, u64>
        ensures owner { IfOk result (λ owner. owner ≡ self.now.row.mutex.now.word) }
        ensures won { IfOk result (λ _. MutexAdmitted) }
        ensures lost { IfErr result (λ seen. seen ≢ 0) }
    {
        match self.word().acquire(0, 1) {
            Ok(owner) => Ok(owner),
            Err(seen) => Err(seen),
        }
    }

    /// Makes the exchange by which a call begins that gives the mutex up. Where it is won the call is over, and else
    /// the owner comes back.
    #[inline(always)]
    pub(super) fn gives_up_at_once<K: Call<Core = MutexCore>>(
        &self,
        _call: K,
        owner: Owner,
    ) -> Result<(), Owner>
        requires name { owner ≡ self.now.row.mutex.now.word }
        requires first { mutex_asks (mutex_told K.begun Start) ≡ Exchange 1 0 }
        requires last { mutex_asks (mutex_told (mutex_told K.begun Start) Exchanged) ≡ Done Released }
        ensures owner { IfErr result (λ owner. owner ≡ self.now.row.mutex.now.word) }
        ensures ended { IfOk result (λ _. (answer : CoreAnswer) × Ended mutex_told mutex_asks K.begun answer) }
    {
        match self.word().release(owner, 1, 0) {
            Ok(()) => Ok(()),
            Err((owner, _seen)) => Err(owner),
        }
    }

    /// Looks whether nobody waits: then a call that lets others go first is over, and owns the mutex still.
    #[inline(always)]
    pub(super) fn owns_as_it_is(&self) -> bool
        ensures { result ≡ true → MutexEnded Bumping Owned }
    {
        let seen = self.word().load();
        if (seen / 2) % 2 == 0 { true } else { false }
    }
}
