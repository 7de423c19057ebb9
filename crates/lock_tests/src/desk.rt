//! Tests of desks, on both raw states.
mod lists;
mod memory;
mod rows;
mod words;

use lock_api_desk::{DeskFault, DeskRunFault};
use std::test::Fail;

#[test]
fn refusals_have_codes_and_names(rt: HostRuntime) -> Result<(), Fail> {
    let alloc = rt.alloc();
    let refusals = [
        (DeskFault::WouldWait, 1, "WouldWait"),
        (DeskFault::Taken, 2, "Taken"),
        (DeskFault::NoSuchGuard, 3, "NoSuchGuard"),
        (DeskFault::WrongMode, 4, "WrongMode"),
        (DeskFault::NotTheParty, 5, "NotTheParty"),
        (DeskFault::ReadersFull, 6, "ReadersFull"),
        (DeskFault::GuardInUse, 7, "GuardInUse"),
        (DeskFault::NoMemory, 99, "NoMemory"),
    ];
    for (fault, code, name) in refusals {
        let text = fault.to_string(alloc)?;
        let right = fault.code() == code && DeskRunFault { place: 3, fault }.code() == code;
        assert!(rt; right && text.as_str() == name, "of {name}");
    }
    Ok(())
}
