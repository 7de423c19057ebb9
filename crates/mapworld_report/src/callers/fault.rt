//! Why nothing is gathered.
ghost use Rattle.std.specs.Prelude.{◌≡◌};
ghost use Rattle.parking_lot_core_model.specs.Faults.{size_fault_name, lot_fault_name};
ghost use Rattle.dashmap_table.specs.Faults.{map_fault_name};
ghost use Rattle.dashmap_record.specs.Faults.{record_fault_name};
ghost use Rattle.dashmap_record.specs.History.Faults.{gather_fault_name};
ghost use Rattle.mapworld_report.specs.Callers.Faults.{callers_fault_code, callers_fault_name};

use dashmap_record::{GatherFault, RecordFault};
use dashmap_table::MapFault;
use parking_lot_core::{LotFault, SizeFault};
use std::alloc::{AllocError, AllocFailed};
use std::error::Error;
use std::fmt;

/// What was refused. Its number and its name are those of the refusal.
#[derive(Clone, Copy, Debug, PartialEq, Eq)]
pub enum CallersFault {
    /// The lot or the table.
    Size(SizeFault),
    /// What a thread has of the lot.
    Lot(LotFault),
    /// The map.
    Map(MapFault),
    /// A call.
    Call(RecordFault),
    /// The gathering.
    Gather(GatherFault),
}

impl CallersFault {
    /// The number of the refusal.
    pub fn code(&self) -> u16
        ensures { result ≡ callers_fault_code self.now }
    {
        match self {
            CallersFault::Size(fault) => fault.code(),
            CallersFault::Lot(fault) => fault.code(),
            CallersFault::Map(fault) => fault.code(),
            CallersFault::Call(fault) => fault.code(),
            CallersFault::Gather(fault) => fault.code(),
        }
    }

    /// The name of the refusal, as `Display` writes it.
    pub fn name(&self) -> &'static str
        ensures { result.now ≡ callers_fault_name self.now }
    {
        match self {
            CallersFault::Size(fault) => size_name(*fault),
            CallersFault::Lot(fault) => lot_name(*fault),
            CallersFault::Map(fault) => map_name(*fault),
            CallersFault::Call(fault) => record_name(*fault),
            CallersFault::Gather(fault) => gather_name(*fault),
        }
    }
}

fn size_name(fault: SizeFault) -> &'static str
    ensures { result.now ≡ size_fault_name fault }
{
    match fault {
        SizeFault::BadSize => "BadSize",
        SizeFault::NoMemory => "NoMemory",
    }
}

fn lot_name(fault: LotFault) -> &'static str
    ensures { result.now ≡ lot_fault_name fault }
{
    match fault {
        LotFault::TooManyThreads => "TooManyThreads",
        LotFault::Busy => "Busy",
        LotFault::WrongStatus => "WrongStatus",
        LotFault::NoMemory => "NoMemory",
    }
}

fn map_name(fault: MapFault) -> &'static str
    ensures { result.now ≡ map_fault_name fault }
{
    match fault {
        MapFault::TableFull => "TableFull",
        MapFault::BadShards => "BadShards",
        MapFault::CapacityOverflow => "CapacityOverflow",
        MapFault::NoMemory => "NoMemory",
    }
}

fn record_name(fault: RecordFault) -> &'static str
    ensures { result.now ≡ record_fault_name fault }
{
    match fault {
        RecordFault::StampsSpent => "StampsSpent",
        RecordFault::NoMemory => "NoMemory",
    }
}

fn gather_name(fault: GatherFault) -> &'static str
    ensures { result.now ≡ gather_fault_name fault }
{
    match fault {
        GatherFault::StampOrder => "StampOrder",
        GatherFault::NotInLog => "NotInLog",
        GatherFault::NotInHistory => "NotInHistory",
        GatherFault::WrongShard => "WrongShard",
        GatherFault::WrongHash => "WrongHash",
        GatherFault::WrongReply => "WrongReply",
        GatherFault::NoMemory => "NoMemory",
    }
}

impl fmt::Display for CallersFault {
    ghost use Rattle.std.specs.Prelude.{Some};
    ghost use Rattle.mapworld_report.specs.Callers.Faults.{callers_fault_name};

    ghost output = { λ fault. Some (callers_fault_name fault) };

    fn fmt<W: fmt::Write>(&self, f: &mut fmt::Formatter<W>) -> fmt::Result {
        f.write_str(self.name())
    }
}

impl Error for CallersFault {}

impl From<SizeFault> for CallersFault {
    ghost use Rattle.std.specs.Prelude.{◌≡◌};
    ghost use Rattle.mapworld_report.specs.declared.callers.fault.CallersFault.{CallersFault};

    ghost from_gives = { λ given fault. fault ≡ CallersFault.Size given };

    fn from(fault: SizeFault) -> CallersFault {
        CallersFault::Size(fault)
    }
}

impl From<LotFault> for CallersFault {
    ghost use Rattle.std.specs.Prelude.{◌≡◌};
    ghost use Rattle.mapworld_report.specs.declared.callers.fault.CallersFault.{CallersFault};

    ghost from_gives = { λ given fault. fault ≡ CallersFault.Lot given };

    fn from(fault: LotFault) -> CallersFault {
        CallersFault::Lot(fault)
    }
}

impl From<MapFault> for CallersFault {
    ghost use Rattle.std.specs.Prelude.{◌≡◌};
    ghost use Rattle.mapworld_report.specs.declared.callers.fault.CallersFault.{CallersFault};

    ghost from_gives = { λ given fault. fault ≡ CallersFault.Map given };

    fn from(fault: MapFault) -> CallersFault {
        CallersFault::Map(fault)
    }
}

impl From<RecordFault> for CallersFault {
    ghost use Rattle.std.specs.Prelude.{◌≡◌};
    ghost use Rattle.mapworld_report.specs.declared.callers.fault.CallersFault.{CallersFault};

    ghost from_gives = { λ given fault. fault ≡ CallersFault.Call given };

    fn from(fault: RecordFault) -> CallersFault {
        CallersFault::Call(fault)
    }
}

impl From<GatherFault> for CallersFault {
    ghost use Rattle.std.specs.Prelude.{◌≡◌};
    ghost use Rattle.mapworld_report.specs.declared.callers.fault.CallersFault.{CallersFault};

    ghost from_gives = { λ given fault. fault ≡ CallersFault.Gather given };

    fn from(fault: GatherFault) -> CallersFault {
        CallersFault::Gather(fault)
    }
}

impl From<AllocError> for CallersFault {
    ghost use Rattle.std.specs.Prelude.{◌≡◌};
    ghost use Rattle.dashmap_record.specs.declared.fault.RecordFault.{RecordFault};
    ghost use Rattle.mapworld_report.specs.declared.callers.fault.CallersFault.{CallersFault};

    ghost from_gives = { λ _ fault. fault ≡ CallersFault.Call RecordFault.NoMemory };

    fn from(_refused: AllocError) -> CallersFault {
        CallersFault::Call(RecordFault::NoMemory)
    }
}

impl<T: Drop> From<AllocFailed<T>> for CallersFault {
    ghost use Rattle.std.specs.Prelude.{◌≡◌};
    ghost use Rattle.dashmap_record.specs.declared.fault.RecordFault.{RecordFault};
    ghost use Rattle.mapworld_report.specs.declared.callers.fault.CallersFault.{CallersFault};

    ghost from_gives = { λ _ fault. fault ≡ CallersFault.Call RecordFault.NoMemory };

    fn from(_refused: AllocFailed<T>) -> CallersFault {
        CallersFault::Call(RecordFault::NoMemory)
    }
}
