//! Rows that a refused clone takes.
ghost use Rattle.std.specs.Prelude.{◌≡◌, ◌⊎◌};
ghost use Rattle.dashmap_table.specs.declared.fault.MapFault.{MapFault};

use dashmap_table::MapFault;
use lock_api_raw::{MAX_READERS, MakeLock, RawRwLock, TableFull};

/// Takes so many rows, which stay used.
fn take_rows<Q: RawRwLock + MakeLock<T> + Drop, T: Copy>(
    table: T,
    amount: usize,
) -> Result<(), TableFull> {
    for _ in 0..amount {
        let _lock: Q = Q::new(table, MAX_READERS)?;
    }
    Ok(())
}

/// Why a clone is refused for which there is no memory: a table without so many rows is told first.
pub(crate) fn fault_without_memory<Q: RawRwLock + MakeLock<T> + Drop, T: Copy>(
    table: T,
    amount: usize,
) -> MapFault
    ensures { (result ≡ MapFault.TableFull) ⊎ (result ≡ MapFault.NoMemory) }
{
    match take_rows::<Q, T>(table, amount) {
        Ok(()) => MapFault::NoMemory,
        Err(_) => MapFault::TableFull,
    }
}
