//! How a machine of onces is made.
ghost use Rattle.std.specs.Prelude.{◌≡◌, ◌<◌, ◌↔◌, ◌⊎◌, ◌^◌, IsErrOf, IfOk};
ghost use Rattle.parking_lot_core_model.specs.declared.fault.SizeFault.TheVariants.{BadSize};
ghost use Rattle.parking_lot_machine_sides.specs.Once.OnceActs.{at_rest};

use crate::once::once_machine::OnceMachine;
use parking_lot_core_model::{SizeFault, buckets_for};
use std::alloc::Allocator;

/// The most threads.
const MAX_THREADS: usize = 65_536;

/// The most onces.
const MAX_ONCES: usize = 1 << 20;

impl<A: Allocator + Clone + Drop> OnceMachine<A> {
    /// A machine of so many threads, in no call, and of so many new onces: 1 to 65,536 threads, and 1 to 2^20 onces.
    /// All memory that its steps need is taken here.
    pub fn new(alloc: &A, threads: usize, onces: usize) -> Result<OnceMachine<A>, SizeFault>
        ensures size { IsErrOf result BadSize ↔ ((threads ≡ 0) ⊎ (65536 < threads) ⊎ (onces ≡ 0) ⊎ (2 ^ 20 < onces)) }
        ensures made { IfOk result (λ machine. machine ≡ at_rest threads onces) }
    {
        if threads == 0 || threads > MAX_THREADS || onces == 0 || onces > MAX_ONCES {
            return Err(SizeFault::BadSize);
        }
        Ok(OnceMachine {
            words: vec![in alloc.clone()?; 0; onces]?,
            calls: vec![in alloc.clone()?; None; threads]?,
            waiting: Vec::with_capacity(alloc.clone()?, threads)?,
            wakes: Vec::with_capacity(alloc.clone()?, threads)?,
            inside: vec![in alloc.clone()?; None; buckets_for(threads)]?,
        })
    }
}
