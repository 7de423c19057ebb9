//! Why a parallel form isn't begun, or isn't ended.
ghost use Rattle.std.specs.Prelude.{◌≡◌};
ghost use Rattle.dashmap_parallel.specs.Faults.{par_extend_fault_code};

use dashmap_table::NoMemory;
use std::error::Error;
use std::fmt;

/// No thread's data was handed in, so there is nobody to visit a shard: code 34.
#[derive(Clone, Copy, PartialEq, Eq, Debug, Drop)]
pub struct NoThreadData;

impl NoThreadData {
    /// The number of the refusal.
    ///
    /// ```text
    /// return Err(fault.code());   // 34
    /// ```
    pub fn code(&self) -> u16
        ensures { result ≡ 34 }
    {
        34
    }
}

impl fmt::Display for NoThreadData {
    ghost use Rattle.std.specs.Prelude.{Some};
    ghost use Rattle.dashmap_parallel.specs.Faults.{no_thread_data_name};

    ghost output = { λ _. Some no_thread_data_name };

    fn fmt<W: fmt::Write>(&self, f: &mut fmt::Formatter<W>) -> fmt::Result {
        f.write_str("NoThreadData")
    }
}

impl Error for NoThreadData {}

/// Why pairs weren't all put in by several threads.
#[derive(Clone, Copy, PartialEq, Eq, Debug)]
pub enum ParExtendFault {
    /// No thread's data was handed in: code 34. Nothing was done.
    NoThreadData,
    /// There was no memory to deal the pairs out, and nothing was done; or a growth was refused, and what was put in
    /// stays: code 99.
    NoMemory,
}

impl ParExtendFault {
    /// The number of the refusal.
    ///
    /// ```text
    /// if let Err(fault) = par_extend_shared(&map, &rt, pairs, &mut datas) { return Err(fault.code()); }
    /// ```
    pub fn code(&self) -> u16
        ensures { result ≡ par_extend_fault_code self.now }
    {
        match self {
            ParExtendFault::NoThreadData => 34,
            ParExtendFault::NoMemory => 99,
        }
    }
}

impl fmt::Display for ParExtendFault {
    ghost use Rattle.std.specs.Prelude.{Some};
    ghost use Rattle.dashmap_parallel.specs.Faults.{par_extend_fault_name};

    ghost output = { λ fault. Some (par_extend_fault_name fault) };

    fn fmt<W: fmt::Write>(&self, f: &mut fmt::Formatter<W>) -> fmt::Result {
        match self {
            ParExtendFault::NoThreadData => f.write_str("NoThreadData"),
            ParExtendFault::NoMemory => f.write_str("NoMemory"),
        }
    }
}

impl Error for ParExtendFault {}

impl From<NoMemory> for ParExtendFault {
    ghost use Rattle.std.specs.Prelude.{◌≡◌};
    ghost use Rattle.dashmap_parallel.specs.declared.fault.ParExtendFault.{ParExtendFault};

    ghost from_gives = { λ _ fault. fault ≡ ParExtendFault.NoMemory };

    fn from(_fault: NoMemory) -> ParExtendFault {
        ParExtendFault::NoMemory
    }
}
