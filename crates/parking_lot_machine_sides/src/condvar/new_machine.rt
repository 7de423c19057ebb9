//! How a machine of a condition variable is made.
ghost use Rattle.std.specs.Prelude.{◌≡◌, ◌<◌, ◌↔◌, ◌⊎◌, IsErrOf, IfOk};
ghost use Rattle.parking_lot_core_model.specs.declared.fault.SizeFault.TheVariants.{BadSize};
ghost use Rattle.parking_lot_machine_sides.specs.Condvar.Machines.{at_rest};

use crate::condvar::condvar_machine::CondvarMachine;
use parking_lot_core_model::SizeFault;
use std::alloc::Allocator;

/// The most threads.
const MAX_THREADS: usize = 65_536;

impl<A: Allocator + Clone + Drop> CondvarMachine<A> {
    /// A condition variable on which nobody waits, and so many threads, in no call: 1 to 65,536. All memory that its
    /// steps need is taken here.
    pub fn new(alloc: &A, threads: usize) -> Result<CondvarMachine<A>, SizeFault>
        ensures size { IsErrOf result BadSize ↔ ((threads ≡ 0) ⊎ (65536 < threads)) }
        ensures made { IfOk result (λ machine. machine ≡ at_rest threads) }
    {
        if threads == 0 || threads > MAX_THREADS {
            return Err(SizeFault::BadSize);
        }
        Ok(CondvarMachine {
            word: 0,
            calls: vec![in alloc.clone()?; None; threads]?,
            queue: Vec::with_capacity(alloc.clone()?, threads)?,
            inside: None,
            beside: None,
        })
    }
}
