//! What holds of a machine at every moment.
ghost use Rattle.parking_lot_machine_sides.specs.Condvar.Fitting.{Fits};
ghost use Rattle.parking_lot_machine_sides.specs.Condvar.MachineLaws.{IsSoundMachine};

use crate::condvar::condvar_machine::CondvarMachine;
use std::alloc::Allocator;

impl<A: Allocator> CondvarMachine<A> {
    /// What holds of the machine at every moment. It does nothing.
    pub fn known(&self)
        ensures fits { Fits self.now }
        ensures promises { IsSoundMachine self.now }
    {
        let _ = &self.word;
    }
}
