//! Tries of a mutex: they wait for nobody.
ghost use Rattle.std.specs.Prelude.{◌≡◌, ◌≢◌, ◌≤◌, ◌-◌, ◌^◌, IfNone, IfSome};
ghost use Rattle.parking_lot_driver.specs.Ends.{mutex_asks, mutex_told, MutexAdmitted, MutexRefused};
ghost use Rattle.parking_lot_driver.specs.Tries.{WasToldOf};
ghost use Rattle.parking_lot_mutex.specs.Owning.{IsTrying};
ghost use Rattle.parking_lot_protocol.specs.declared.mutex_phase.MutexPhase.TheVariants.{Trying};

use crate::raw_mutex::RawMutex;
use lock_word::Owner;
use parking_lot_driver::{Call, DecisionCore, TryLock};
use parking_lot_protocol::{Act, ActResult, MutexCore};
use std::alloc::Allocator;

/// How many acts a try makes at most: a look at the word and 64 exchanges.
const TRY_ACTS: u32 = 65;

impl<R, A: Allocator> RawMutex<'_, '_, R, A> {
    /// Tries again where the first exchange was lost to this word.
    #[cold]
    #[inline(never)]
    pub(super) fn try_slowly(&self, word: u64) -> Option<Owner>
        requires { word ≢ 0 }
        ensures owner { IfSome result (λ owner. owner ≡ self.now.row.mutex.now.word) }
        ensures admitted { IfSome result (λ _. MutexAdmitted) }
        ensures refused { IfNone result (MutexRefused (2 ^ 64 - 1)) }
    {
        let mut core = TryLock::begin();
        DecisionCore::next(&mut core, ActResult::Start);
        DecisionCore::next(&mut core, ActResult::Word(0));
        DecisionCore::next(&mut core, ActResult::Word(word));
        self.go_on_trying(core, 2)
    }

    /// Runs a try that was told of so many acts to its end.
    fn go_on_trying(&self, begun: MutexCore, count: u32) -> Option<Owner>
        requires few { count ≤ 65 }
        requires told { WasToldOf mutex_told mutex_asks (record { phase = Trying }) count begun }
        requires tries { IsTrying begun.phase }
        ensures owner { IfSome result (λ owner. owner ≡ self.now.row.mutex.now.word) }
        ensures admitted { IfSome result (λ _. MutexAdmitted) }
        ensures refused { IfNone result (MutexRefused (2 ^ 64 - 1)) }
    {
        let mut core = begun;
        for _made in count..TRY_ACTS {
            match DecisionCore::act(&core) {
                Act::Load => {
                    DecisionCore::next(&mut core, ActResult::Word(self.word().load()));
                }
                Act::Exchange(from, to) => match self.word().acquire(from, to) {
                    Ok(owner) => return Some(owner),
                    Err(seen) => {
                        DecisionCore::next(&mut core, ActResult::Word(seen));
                    }
                },
                _ => return None,
            }
        }
        None
    }
}
