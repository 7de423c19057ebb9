//! Why a run can't be made.

use lock_api_raw::{ReadersFull, TableFull};
use parking_lot_core::{LotFault, SizeFault};
use std::alloc::AllocError;
use std::io;

/// The run can't be made: no memory, no clock, no lock, or nowhere to print.
#[derive(Debug, Drop)]
pub struct Fault;

impl From<LotFault> for Fault {
    fn from(_fault: LotFault) -> Fault {
        Fault
    }
}

impl From<SizeFault> for Fault {
    fn from(_fault: SizeFault) -> Fault {
        Fault
    }
}

impl From<TableFull> for Fault {
    fn from(_fault: TableFull) -> Fault {
        Fault
    }
}

impl From<ReadersFull> for Fault {
    fn from(_fault: ReadersFull) -> Fault {
        Fault
    }
}

impl From<AllocError> for Fault {
    fn from(_error: AllocError) -> Fault {
        Fault
    }
}

impl From<io::Error> for Fault {
    fn from(_error: io::Error) -> Fault {
        Fault
    }
}
