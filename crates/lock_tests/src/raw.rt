//! Tests of the bottom layer, on raw locks of one atomic word and on two projections.
mod mutex;
mod parts;
mod rwlock;

use lock_api_raw::{NoMemory, ReadersFull, TableFull, WaitFault};
use std::test::Fail;

#[test]
fn refusals_have_codes_and_names(rt: HostRuntime) -> Result<(), Fail> {
    let alloc = rt.alloc();
    let codes = [
        TableFull.code(),
        ReadersFull.code(),
        NoMemory.code(),
        WaitFault::WrongMutex.code(),
        WaitFault::WrongLot.code(),
    ];
    assert!(rt; codes == [21, 6, 99, 23, 22], "codes: {codes:?}");
    let names = format!(in alloc;
        "{TableFull} {ReadersFull} {NoMemory} {} {}",
        WaitFault::WrongMutex,
        WaitFault::WrongLot
    )?;
    assert!(rt;
        names.as_str() == "TableFull ReadersFull NoMemory WrongMutex WrongLot",
        "names: {names}"
    );
    Ok(())
}
