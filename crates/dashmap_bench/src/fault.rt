//! Why a run can't be made.

use dashmap_record::RecordFault;
use dashmap_table::{MapFault, NoMemory};
use parking_lot_core::{LotFault, SizeFault};
use std::alloc::{AllocError, AllocFailed};
use std::io;

/// The run can't be made: no memory, no clock, no lock, or nowhere to print.
#[derive(Debug, Drop)]
pub struct Fault;

impl From<LotFault> for Fault {
    fn from(_fault: LotFault) -> Fault {
        Fault
    }
}

impl From<SizeFault> for Fault {
    fn from(_fault: SizeFault) -> Fault {
        Fault
    }
}

impl From<MapFault> for Fault {
    fn from(_fault: MapFault) -> Fault {
        Fault
    }
}

impl From<AllocError> for Fault {
    fn from(_error: AllocError) -> Fault {
        Fault
    }
}

impl From<io::Error> for Fault {
    fn from(_error: io::Error) -> Fault {
        Fault
    }
}

impl<T: Drop> From<AllocFailed<T>> for Fault {
    fn from(_refused: AllocFailed<T>) -> Fault {
        Fault
    }
}

impl From<RecordFault> for Fault {
    fn from(_refused: RecordFault) -> Fault {
        Fault
    }
}

impl From<NoMemory> for Fault {
    fn from(_refused: NoMemory) -> Fault {
        Fault
    }
}
