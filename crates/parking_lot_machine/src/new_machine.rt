//! How a machine of locks is made.
ghost use Rattle.std.specs.Prelude.{◌≡◌, ◌<◌, ◌≤◌, ◌*◌, ◌↔◌, ◌⊎◌, ◌^◌, length, replicate, false, true, Some};
ghost use Rattle.std.specs.Prelude.{IsErrOf, IfErr, IfOk};
ghost use Rattle.parking_lot_core_model.specs.Buckets.{buckets_for, threads_with};
ghost use Rattle.parking_lot_core_model.specs.Machine.{machine};
ghost use Rattle.parking_lot_core_model.specs.Runs.{fresh};
ghost use Rattle.parking_lot_core_model.specs.Sound.{Sound};
ghost use Rattle.parking_lot_core_model.specs.declared.fault.SizeFault.TheVariants.{BadSize, NoMemory};
ghost use Rattle.parking_lot_core_model.specs.declared.place.Place.TheVariants.{Running};
ghost use Rattle.parking_lot_machine.specs.Rows.{state};
ghost use Rattle.parking_lot_machine.specs.Machines.{at_rest};

use crate::row_machine::RowMachine;
use parking_lot_core_model::{Lot, SizeFault};
use parking_lot_machine_calls::{Hold, LockKind};
use std::alloc::Allocator;

/// The most threads.
const MAX_THREADS: usize = 65_536;

/// The most locks.
const MAX_LOCKS: usize = 1 << 20;

/// A lot with so many numbers of threads, one for each or two, all of which run.
fn lot_of<A: Allocator + Clone + Drop>(
    alloc: A,
    threads: usize,
    paired: bool,
) -> Result<Lot<A>, SizeFault>
    requires some { 0 < threads }
    requires few { threads ≤ 131072 }
    requires single { paired ≡ false → threads ≤ 65536 }
    ensures made { IfOk result (λ lot. machine lot ≡ record (fresh threads 0) {
      paired = paired;
      places = replicate threads (Some Running);
      buckets = buckets_for (threads_with paired threads);
    }) }
    ensures sound { IfOk result (λ lot. Sound (machine lot)) }
    ensures memory { IfErr result (λ fault. fault ≡ NoMemory) }
{
    let mut lot = empty_lot(alloc, threads, paired)?;
    for _ in 0..threads {
        if let Err(_) = lot.register() {
            return Err(SizeFault::NoMemory);
        }
    }
    lot.known();
    Ok(lot)
}

/// A lot where nobody is registered yet.
fn empty_lot<A: Allocator + Clone + Drop>(
    alloc: A,
    threads: usize,
    paired: bool,
) -> Result<Lot<A>, SizeFault>
    requires some { 0 < threads }
    requires few { threads ≤ 131072 }
    requires single { paired ≡ false → threads ≤ 65536 }
    ensures made { IfOk result (λ lot. machine lot ≡ record (fresh threads 0) { paired = paired }) }
    ensures memory { IfErr result (λ fault. fault ≡ NoMemory) }
{
    if paired {
        Lot::new_wide(alloc, threads, 0)
    } else {
        Lot::new(alloc, threads, 0)
    }
}

impl<A: Allocator + Clone + Drop> RowMachine<A> {
    /// A machine of so many threads, in no call, and of locks of these kinds, which nobody owns: 1 to 65,536 threads,
    /// and 1 to 2^20 locks.
    /// All memory that its steps need is taken here.
    pub fn new(
        alloc: &A,
        threads: usize,
        kinds: Vec<LockKind, A>,
    ) -> Result<RowMachine<A>, SizeFault>
        ensures size { IsErrOf result BadSize ↔
            ((threads ≡ 0) ⊎ (65536 < threads) ⊎ (length kinds.items ≡ 0) ⊎ (2 ^ 20 < length kinds.items)) }
        ensures made { IfOk result (λ machine. state machine ≡ at_rest false threads kinds.items) }
    {
        let locks = kinds.len();
        if threads == 0 || threads > MAX_THREADS || locks == 0 || locks > MAX_LOCKS {
            return Err(SizeFault::BadSize);
        }
        RowMachine::made(alloc, threads, false, kinds)
    }

    /// The same, where each of so many threads has two numbers, as thread t of n the numbers t and n + t: so a thread
    /// may wait as one of them while it is still in a call as the other.
    pub fn new_double(
        alloc: &A,
        threads: usize,
        kinds: Vec<LockKind, A>,
    ) -> Result<RowMachine<A>, SizeFault>
        ensures size { IsErrOf result BadSize ↔
            ((threads ≡ 0) ⊎ (65536 < threads) ⊎ (length kinds.items ≡ 0) ⊎ (2 ^ 20 < length kinds.items)) }
        ensures made { IfOk result (λ machine. state machine ≡ at_rest true (2 * threads) kinds.items) }
    {
        let locks = kinds.len();
        if threads == 0 || threads > MAX_THREADS || locks == 0 || locks > MAX_LOCKS {
            return Err(SizeFault::BadSize);
        }
        RowMachine::made(alloc, 2 * threads, true, kinds)
    }

    /// A machine of so many numbers of threads.
    fn made(
        alloc: &A,
        threads: usize,
        paired: bool,
        kinds: Vec<LockKind, A>,
    ) -> Result<RowMachine<A>, SizeFault>
        requires some { 0 < threads }
        requires few { threads ≤ 131072 }
        requires single { paired ≡ false → threads ≤ 65536 }
        requires locks { length kinds.items ≤ 2 ^ 20 }
        ensures made { IfOk result (λ machine. state machine ≡ at_rest paired threads kinds.items) }
        ensures memory { IfErr result (λ fault. fault ≡ NoMemory) }
    {
        let locks = kinds.len();
        Ok(RowMachine {
            kinds,
            words: vec![in alloc.clone()?; 0; locks]?,
            holds: vec![in alloc.clone()?; Hold::Shares(0); threads * locks]?,
            calls: vec![in alloc.clone()?; None; threads]?,
            wakes: Vec::with_capacity(alloc.clone()?, threads)?,
            lot: lot_of(alloc.clone()?, threads, paired)?,
        })
    }
}
