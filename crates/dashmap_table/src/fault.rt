//! The refusals of tables, maps, sets and views.
ghost use Rattle.std.specs.Prelude.{◌≡◌};
ghost use Rattle.dashmap_table.specs.Faults.{map_fault_code};

use lock_api_raw::NoMemory;
use std::error::Error;
use std::fmt;

/// Why a map, a set or a view isn't made or cloned. A call that answers several of them tries them in this order but
/// for `TableFull`, which comes right before `NoMemory`; what was handed in is let go.
#[derive(Clone, Copy, Debug, PartialEq, Eq)]
pub enum MapFault {
    /// The lock table has too few rows left: code 21.
    TableFull,
    /// The shard amount isn't a power of two from 2 to 65,536: code 31.
    BadShards,
    /// The capacity has no share for one shard: code 32.
    CapacityOverflow,
    /// A growth was refused: code 99.
    NoMemory,
}

impl MapFault {
    /// The number of the refusal.
    ///
    /// ```text
    /// let number = MapFault::BadShards.code();   // 31
    /// ```
    pub fn code(&self) -> u16
        ensures { result ≡ map_fault_code self.now }
    {
        match self {
            MapFault::TableFull => 21,
            MapFault::BadShards => 31,
            MapFault::CapacityOverflow => 32,
            MapFault::NoMemory => 99,
        }
    }
}

impl fmt::Display for MapFault {
    ghost use Rattle.std.specs.Prelude.{Some};
    ghost use Rattle.dashmap_table.specs.Faults.{map_fault_name};

    ghost output = { λ fault. Some (map_fault_name fault) };

    fn fmt<W: fmt::Write>(&self, f: &mut fmt::Formatter<W>) -> fmt::Result {
        match self {
            MapFault::TableFull => f.write_str("TableFull"),
            MapFault::BadShards => f.write_str("BadShards"),
            MapFault::CapacityOverflow => f.write_str("CapacityOverflow"),
            MapFault::NoMemory => f.write_str("NoMemory"),
        }
    }
}

impl Error for MapFault {}

impl From<NoMemory> for MapFault {
    ghost use Rattle.std.specs.Prelude.{◌≡◌};
    ghost use Rattle.dashmap_table.specs.declared.fault.MapFault.{MapFault};

    ghost from_gives = { λ _ fault. fault ≡ MapFault.NoMemory };

    fn from(_refused: NoMemory) -> MapFault {
        MapFault::NoMemory
    }
}
