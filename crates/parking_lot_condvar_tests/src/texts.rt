//! What is shown, and what is refused for want of a row.

use lock_api::Condvar;
use lock_api_raw::{MakeCondvar as _, TableFull};
use parking_lot_core::ParkingLot;
use parking_lot_driver::LockTable;
use parking_lot_mutex::condvar::RawCondvar;
use parking_lot_mutex::once::{Once, OnceFault, Poisoned};
use std::alloc::{AllocError, Global};
use std::fmt::Debug;
use std::test::Fail;

/// Whether this is how a thing is shown.
fn is_shown<D: Debug>(alloc: Global, shown: &D, text: &str) -> bool {
    match format!(in alloc; "{shown:?}") {
        Ok(own) => own.as_str() == text,
        Err(_) => false,
    }
}

/// Whether the refusals of a once are shown and numbered.
fn are_refusals_shown(alloc: Global) -> Result<bool, AllocError> {
    let failed: OnceFault<u8> = OnceFault::Failed(5);
    let poisoned: OnceFault<u8> = OnceFault::Poisoned;
    let shown = format!(in alloc; "{failed} {poisoned} {Poisoned}")?;
    let debug = format!(in alloc; "{failed:?} {poisoned:?} {Poisoned:?}")?;
    let right = shown.as_str() == "5 Poisoned Poisoned"
        && debug.as_str() == "Failed(5) Poisoned Poisoned";
    Ok(right & (failed.code() == None) & (poisoned.code() == Some(24)) & (Poisoned.code() == 24))
}

#[test]
fn texts_and_codes(rt: HostRuntime) -> Result<(), Fail> {
    let lot = ParkingLot::new(rt, rt.alloc(), 4, 7)?;
    let table = LockTable::new(rt.alloc(), &lot, 2)?;
    let once = Once::new(&table)?;
    let over = Once::new_completed(&table)?;
    let is_new = is_shown(rt.alloc(), &once, "Once { state: New }");
    let is_done = is_shown(rt.alloc(), &over, "Once { state: Done }");
    assert!(rt; is_new & is_done & are_refusals_shown(rt.alloc())?);
    Ok(())
}

#[test]
fn a_full_table_has_no_row(rt: HostRuntime) -> Result<(), Fail> {
    let lot = ParkingLot::new(rt, rt.alloc(), 1, 7)?;
    let table = LockTable::new(rt.alloc(), &lot, 1)?;
    let condvar: Condvar<RawCondvar<HostRuntime>> = Condvar::default(&table)?;
    let is_full = RawCondvar::new(&table).is_err();
    let is_full_once = Once::new(&table).err() == Some(TableFull);
    let is_full_default = Once::default(&table).err() == Some(TableFull);
    assert!(rt; is_full & is_full_once & is_full_default);
    assert!(rt; is_shown(rt.alloc(), &condvar, "Condvar { .. }"));
    Ok(())
}
