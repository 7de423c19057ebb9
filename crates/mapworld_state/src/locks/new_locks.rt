//! How shards' locks are made.
ghost use Rattle.std.specs.Prelude.{◌≡◌, ◌<◌, ◌≤◌, ◌↔◌, ◌⊎◌, ◌^◌, length, IsErrOf, IfErr, IfOk};
ghost use Rattle.std.specs.List.{All};
ghost use Rattle.parking_lot_core_model.specs.declared.fault.SizeFault.TheVariants.{BadSize, NoMemory};
ghost use Rattle.mapworld_state.specs.Locks.Fresh.{AreFresh, IsEmptyFor};

use crate::locks::desks::ShardDesk;
use crate::locks::shard_locks::ShardLocks;
use lock_api_desk::{Desk, TokenTable};
use parking_lot_core_model::SizeFault;
use parking_lot_machine::{LockKind, RowMachine};
use std::alloc::Allocator;

/// The most threads.
const MAX_THREADS: usize = 65_536;

/// The most shards.
const MAX_SHARDS: usize = 1 << 20;

/// A desk with room for a guard of each thread.
fn desk_for<A: Allocator + Clone>(alloc: &A, threads: usize) -> Result<ShardDesk<A>, SizeFault>
    ensures made { IfOk result (λ desk. IsEmptyFor threads desk) }
    ensures memory { IfErr result (λ fault. fault ≡ NoMemory) }
{
    let mut desk = Desk::new(alloc.clone()?, TokenTable::new(threads as u64), ());
    match desk.reserve(threads) {
        Ok(()) => Ok(desk),
        Err(_) => Err(SizeFault::NoMemory),
    }
}

/// So many desks.
fn desks_for<A: Allocator + Clone>(
    alloc: &A,
    threads: usize,
    shards: usize,
) -> Result<Vec<ShardDesk<A>, A>, SizeFault>
    ensures made { IfOk result (λ desks. All (IsEmptyFor threads) desks.items × (length desks.items ≡ shards)) }
    ensures memory { IfErr result (λ fault. fault ≡ NoMemory) }
{
    let mut desks = Vec::with_capacity(alloc.clone()?, shards)?;
    for _ in 0..shards {
        desks.push_reserved(desk_for(alloc, threads)?);
    }
    Ok(desks)
}

impl<A: Allocator + Clone + Drop> ShardLocks<A> {
    /// The locks of so many shards, which nobody holds, and so many threads, in no call: 1 to 65,536 threads, and 1 to
    /// 2^20 shards. All memory that their steps need is taken here.
    pub fn new(alloc: A, threads: usize, shards: usize) -> Result<ShardLocks<A>, SizeFault>
        ensures size { IsErrOf result BadSize ↔ ((threads ≡ 0) ⊎ (65536 < threads) ⊎ (shards ≡ 0) ⊎ (2 ^ 20 < shards)) }
        ensures made { IfOk result (λ locks. AreFresh threads shards locks) }
    {
        if threads == 0 || threads > MAX_THREADS || shards == 0 || shards > MAX_SHARDS {
            return Err(SizeFault::BadSize);
        }
        let kinds = vec![in alloc.clone()?; LockKind::Rw; shards]?;
        let machine = RowMachine::new(&alloc, threads, kinds)?;
        let desks = desks_for(&alloc, threads, shards)?;
        machine.known();
        Ok(ShardLocks { machine, desks })
    }
}
