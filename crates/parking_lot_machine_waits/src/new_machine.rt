//! How a machine of locks and condition variables is made.
ghost use Rattle.std.specs.Prelude.{◌≡◌, ◌<◌, ◌≤◌, ◌*◌, ◌↔◌, ◌⊎◌, ◌^◌, length, map, replicate, IsErrOf, IfErr, IfOk};
ghost use Rattle.std.specs.Prelude.{true};
ghost use Rattle.parking_lot_core_model.specs.declared.fault.SizeFault.TheVariants.{BadSize, NoMemory};
ghost use Rattle.parking_lot_machine.specs.Machines.{at_rest};
ghost use Rattle.parking_lot_machine.specs.Rows.{state};
ghost use Rattle.parking_lot_machine_waits.specs.Joint.{nowhere};
ghost use Rattle.parking_lot_machine_waits.specs.JointSteps.{AreKnown, KnownIn, var_of};

use crate::machines::Machines;
use crate::seat::NOWHERE;
use parking_lot_core_model::SizeFault;
use parking_lot_machine::{LockKind, RowMachine};
use parking_lot_machine_sides::condvar::CondvarMachine;
use std::alloc::Allocator;

impl<A: Allocator + Clone + Drop> Machines<A> {
    /// A machine of so many threads, in no call, of locks of these kinds, which nobody owns, and of condition variables
    /// on which nobody waits: 1 to 65,536 threads, and 1 to 2^20 locks. `variables` says of each lock whether it is a
    /// condition variable; the row of such a one is never asked. All memory that its steps need is taken here.
    pub fn new(
        alloc: &A,
        threads: usize,
        kinds: Vec<LockKind, A>,
        variables: &[bool],
    ) -> Result<Machines<A>, SizeFault>
        ensures size { IsErrOf result BadSize ↔
            ((threads ≡ 0) ⊎ (65536 < threads) ⊎ (length kinds.items ≡ 0) ⊎ (2 ^ 20 < length kinds.items)) }
        ensures rows { IfOk result (λ machine. state machine.rows ≡ at_rest true (2 * threads) kinds.items) }
        ensures vars { IfOk result (λ machine. machine.vars ≡ map (var_of threads) variables.now) }
        ensures seats { IfOk result (λ machine. machine.seats ≡ replicate threads nowhere) }
    {
        let rows = RowMachine::new_double(alloc, threads, kinds)?;
        Machines::over(alloc, threads, rows, variables)
    }

    /// The machine over that one of the locks.
    fn over(
        alloc: &A,
        threads: usize,
        rows: RowMachine<A>,
        variables: &[bool],
    ) -> Result<Machines<A>, SizeFault>
        requires some { 0 < threads }
        requires few { threads ≤ 65536 }
        ensures rows { IfOk result (λ machine. machine.rows ≡ rows) }
        ensures vars { IfOk result (λ machine. machine.vars ≡ map (var_of threads) variables.now) }
        ensures seats { IfOk result (λ machine. machine.seats ≡ replicate threads nowhere) }
        ensures err { IfErr result (λ fault. fault ≡ NoMemory) }
    {
        Ok(Machines {
            rows,
            vars: vars_of(alloc, threads, variables)?,
            seats: vec![in alloc.clone()?; NOWHERE; threads]?,
        })
    }
}

/// The condition variable at a place, if there is one.
fn var_of<A: Allocator + Clone + Drop>(
    alloc: &A,
    threads: usize,
    is_variable: bool,
) -> Result<Option<CondvarMachine<A>>, SizeFault>
    requires some { 0 < threads }
    requires few { threads ≤ 65536 }
    ensures ok { IfOk result (λ place. place ≡ var_of threads is_variable) }
    ensures known { IfOk result (λ place. KnownIn place) }
    ensures err { IfErr result (λ fault. fault ≡ NoMemory) }
{
    if is_variable {
        let machine = CondvarMachine::new(alloc, threads)?;
        machine.known();
        Ok(Some(machine))
    } else {
        Ok(None)
    }
}

/// The condition variables at the places where there is one.
fn vars_of<A: Allocator + Clone + Drop>(
    alloc: &A,
    threads: usize,
    variables: &[bool],
) -> Result<Vec<Option<CondvarMachine<A>>, A>, SizeFault>
    requires some { 0 < threads }
    requires few { threads ≤ 65536 }
    ensures ok { IfOk result (λ vars. vars.items ≡ map (var_of threads) variables.now) }
    ensures known { IfOk result (λ vars. AreKnown vars.items) }
    ensures err { IfErr result (λ fault. fault ≡ NoMemory) }
{
    let mut vars = Vec::with_capacity(alloc.clone()?, variables.len())?;
    for is_variable in variables {
        let place = var_of(alloc, threads, *is_variable)?;
        vars.push_reserved(place);
    }
    Ok(vars)
}
