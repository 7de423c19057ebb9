//! What is tried on a lot for threads, and the lot that it is tried on.

use crate::threads::{Alone, ParkEnd};
use crate::{many, sleepers, threads};
use parking_lot_core::ParkingLot;
use std::alloc::Global;
use std::sync::Wait;
use std::test::Fail;
use std::thread::Threads;
use std::time::Clock;

/// What one thread tries on a lot, or several.
#[derive(Clone, Copy)]
pub enum Trial {
    Counts,
    /// Parks alone, which must end so.
    Parks(Alone, ParkEnd),
    FairUnparks,
    Aborts,
    Records,
    Unparks,
    InTime,
    Filters,
    Requeues,
    FairFilters,
    Turns,
    HundredThousand,
    Grows,
    Neighbours,
    Moved,
}

/// Whether all goes as it is to.
fn goes<R: Wait + Threads + Clock + Sync>(
    rt: &R,
    alloc: Global,
    lot: &ParkingLot<R>,
    trial: Trial,
) -> bool {
    match trial {
        Trial::Counts => threads::are_counted(lot) == Some(true),
        Trial::Parks(how, must) => threads::parks(rt, lot, how, must) == Some(true),
        Trial::FairUnparks => sleepers::are_fair(lot, 129, false),
        Trial::Aborts => threads::is_aborted(lot),
        Trial::Records => threads::records(lot) == Ok(true),
        Trial::Unparks => threads::is_unparked(rt, lot) == Some(true),
        Trial::InTime => sleepers::is_in_time(rt, lot),
        Trial::Filters => sleepers::are_filtered(rt, alloc, lot),
        Trial::Requeues => sleepers::are_requeued(rt, alloc, lot),
        Trial::FairFilters => sleepers::are_fair(lot, 257, true),
        Trial::Turns => sleepers::hand_turns(rt, lot, 100),
        Trial::HundredThousand => many::is_none_lost(rt, lot),
        Trial::Grows => many::none_is_lost(rt, alloc, lot) == Ok(true),
        Trial::Neighbours => many::lists_stay(rt, alloc, lot),
        Trial::Moved => many::gives_up(rt, lot, 4) && many::gives_up(rt, lot, 19),
    }
}

/// The same on a new lot of so many threads.
pub fn goes_well<R: Wait + Threads + Clock + Sync + Copy + Drop>(
    rt: R,
    alloc: Global,
    threads: usize,
    trial: Trial,
) -> Result<bool, Fail> {
    let lot = ParkingLot::new(rt, alloc, threads, 7)?;
    Ok(goes(&rt, alloc, &lot, trial))
}
