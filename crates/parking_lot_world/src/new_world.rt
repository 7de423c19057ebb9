//! How a world is made.
ghost use Rattle.std.specs.Prelude.{◌≡◌, ◌<◌, ◌≤◌, ◌*◌, ◌↔◌, ◌⊎◌, ◌^◌, ◌≢◌, length, map, replicate, None, IsErrOf};
ghost use Rattle.std.specs.Prelude.{IfErr, IfOk, true};
ghost use Rattle.parking_lot_core_model.specs.declared.fault.SizeFault.TheVariants.{BadSize, NoMemory};
ghost use Rattle.parking_lot_machine_sides.specs.Once.OnceActs as once;
ghost use Rattle.parking_lot_machine_waits.specs.Joint.{nowhere};
ghost use Rattle.parking_lot_machine_waits.specs.JointSteps.{var_of};
ghost use Rattle.parking_lot_machine.specs.Machines as rows;
ghost use Rattle.parking_lot_machine.specs.Rows.{state};
ghost use Rattle.parking_lot_world.specs.WorldCalls.{is_variable, row_kind};

use crate::calls::LockKind;
use crate::world::World;
use parking_lot_core_model::SizeFault;
use parking_lot_machine::LockKind as RowKind;
use parking_lot_machine_sides::once::OnceMachine;
use parking_lot_machine_waits::WaitMachine;
use std::alloc::Allocator;

/// The most threads, and the most locks.
const MAX_THREADS: usize = 65_536;

const MAX_LOCKS: usize = 1 << 20;

impl<A: Allocator + Clone + Drop> World<A> {
    /// So many threads, in no call, and locks of these kinds, which nobody owns: 1 to 65,536 threads, and 1 to 2^20
    /// locks. Every word is 0, nobody waits at a condition variable, and the onces are new.
    ///
    /// # Errors
    ///
    /// `BadSize` where there are too few or too many threads or locks, and else `NoMemory` where memory is short.
    pub fn new(alloc: A, threads: usize, locks: Vec<LockKind, A>) -> Result<World<A>, SizeFault>
        ensures size { IsErrOf result BadSize ↔
            ((threads ≡ 0) ⊎ (65536 < threads) ⊎ (length locks.items ≡ 0) ⊎ (2 ^ 20 < length locks.items)) }
        ensures kinds { IfOk result (λ world. world.kinds ≡ locks.items) }
        ensures rows { IfOk result
            (λ world. state world.waits.rows ≡ rows.at_rest true (2 * threads) (map row_kind locks.items)) }
        ensures variables { IfOk result (λ world. world.waits.vars ≡ map (var_of threads) (map is_variable locks.items)) }
        ensures seats { IfOk result (λ world. world.waits.seats ≡ replicate threads nowhere) }
        ensures onces { IfOk result (λ world. world.onces ≡ once.at_rest threads (length locks.items)) }
        ensures answers { IfOk result (λ world. world.answers ≡ replicate threads None) }
    {
        let count = locks.len();
        if threads == 0 || threads > MAX_THREADS || count == 0 || count > MAX_LOCKS {
            return Err(SizeFault::BadSize);
        }
        World::made(alloc, threads, locks)
    }

    /// A world of a size that it may have.
    fn made(alloc: A, threads: usize, locks: Vec<LockKind, A>) -> Result<World<A>, SizeFault>
        requires threads { (0 < threads) × (threads ≤ 65536) }
        requires locks { (0 < length locks.items) × (length locks.items ≤ 2 ^ 20) }
        ensures err { IfErr result (λ fault. fault ≡ NoMemory) }
        ensures kinds { IfOk result (λ world. world.kinds ≡ locks.items) }
        ensures rows { IfOk result
            (λ world. state world.waits.rows ≡ rows.at_rest true (2 * threads) (map row_kind locks.items)) }
        ensures variables { IfOk result (λ world. world.waits.vars ≡ map (var_of threads) (map is_variable locks.items)) }
        ensures seats { IfOk result (λ world. world.waits.seats ≡ replicate threads nowhere) }
        ensures onces { IfOk result (λ world. world.onces ≡ once.at_rest threads (length locks.items)) }
        ensures answers { IfOk result (λ world. world.answers ≡ replicate threads None) }
    {
        let onces = OnceMachine::new(&alloc, threads, locks.len())?;
        let waits = waits_of(&alloc, threads, &locks)?;
        let answers = vec![in alloc; None; threads]?;
        Ok(World {
            kinds: locks,
            waits,
            onces,
            answers,
        })
    }
}

/// The machine of so many threads, and of the locks and condition variables among locks of these kinds.
fn waits_of<A: Allocator + Clone + Drop>(
    alloc: &A,
    threads: usize,
    kinds: &[LockKind],
) -> Result<WaitMachine<A>, SizeFault>
    requires threads { (0 < threads) × (threads ≤ 65536) }
    requires locks { (0 < length kinds.now) × (length kinds.now ≤ 2 ^ 20) }
    ensures err { IfErr result (λ fault. fault ≡ NoMemory) }
    ensures rows { IfOk result (λ machine. state machine.rows ≡ rows.at_rest true (2 * threads) (map row_kind kinds.now)) }
    ensures variables { IfOk result (λ machine. machine.vars ≡ map (var_of threads) (map is_variable kinds.now)) }
    ensures seats { IfOk result (λ machine. machine.seats ≡ replicate threads nowhere) }
{
    let rows = rows_of(alloc.clone()?, kinds)?;
    let variables = variables_of(alloc.clone()?, kinds)?;
    WaitMachine::new(alloc, threads, rows, &variables)
}

/// The rows of locks of these kinds.
fn rows_of<A: Allocator + Drop>(alloc: A, kinds: &[LockKind]) -> Result<Vec<RowKind, A>, SizeFault>
    ensures ok { IfOk result (λ rows. rows.items ≡ map row_kind kinds.now) }
    ensures err { IfErr result (λ fault. fault ≡ NoMemory) }
{
    let mut rows = Vec::with_capacity(alloc, kinds.len())?;
    for kind in kinds {
        rows.push_reserved(kind.row());
    }
    Ok(rows)
}

/// Which of these are condition variables.
fn variables_of<A: Allocator + Drop>(
    alloc: A,
    kinds: &[LockKind],
) -> Result<Vec<bool, A>, SizeFault>
    ensures ok { IfOk result (λ variables. variables.items ≡ map is_variable kinds.now) }
    ensures err { IfErr result (λ fault. fault ≡ NoMemory) }
{
    let mut variables = Vec::with_capacity(alloc, kinds.len())?;
    for kind in kinds {
        variables.push_reserved(kind.is_variable());
    }
    Ok(variables)
}
